//! Places of numbers in lists, and new containers in them, of which a test knows only that they are there.

ghost use Rattle.std.specs.Prelude.{◌≡◌, ◌<◌, length};
ghost use Rattle.world_containers.specs.Bags.{IsLength, IsSomeBag, bag_cells};
ghost use Rattle.world_containers.specs.Entries.{entry_link};
ghost use Rattle.world_containers.specs.Queues.{IsSomeQueue, oldest_cell, newest_cell};
ghost use Rattle.world_containers.specs.Stacks.{IsSomeStack, stack_cell};

use sdd_world::guard::WorldGuard;
use sdd_world::holds::Holds;
use sdd_world::job::Deferred;
use sdd_world::owner::Shared;
use sdd_world::sizes::Sizes;
use sdd_world::world as place;
use sdd_world::world::World;
use std::alloc::Global;
use std::process::Abort;
use world_containers::bag::Bag;
use world_containers::linked_entry::LinkedEntry;
use world_containers::queue::Queue;
use world_containers::stack::Stack;
use world_containers::world;

/// A place with one participant, and with at most 200,000 slots and cells.
pub(crate) fn place_of<R: Abort, T, J: Deferred>(
    rt: &R,
    alloc: Global,
    slots: usize,
    cells: usize,
) -> World<T, J>
    ensures { 0 < length result.participants }
{
    if slots > 200_000 || cells > 200_000 {
        panic!(rt; "a small place");
    }
    match World::new(alloc, sizes(slots, cells)) {
        Ok(w) => w,
        Err(_) => panic!(rt; "memory is ample"),
    }
}

/// An open guard.
pub(crate) fn guarded<R: Abort>(rt: &R, w: &mut World<LinkedEntry<u64>>) -> WorldGuard
    requires { 0 < length w.old.participants }
    ensures { 0 < length w.new.participants }
{
    match place::guard::new(w, 0) {
        Ok(guard) => guard,
        Err(_) => panic!(rt; "few guards are open"),
    }
}

/// Closes a guard, which is open as each is that isn't closed.
pub(crate) fn close<R: Abort>(rt: &R, w: &mut World<LinkedEntry<u64>>, guard: WorldGuard) {
    if !place::guard::is_open(w, &guard) {
        panic!(rt; "the guard is open");
    }
    place::guard::close(w, guard);
}

/// An empty stack, where a cell is free.
pub(crate) fn new_stack<R: Abort>(rt: &R, w: &mut World<LinkedEntry<u64>>) -> Stack<u64>
    requires { 0 < length w.old.participants }
    ensures participant { 0 < length w.new.participants }
    ensures list { IsSomeStack w.new (stack_cell result) }
{
    match world::stack::new(w) {
        Ok(stack) => stack,
        Err(_) => panic!(rt; "a cell is free"),
    }
}

/// An empty queue, where two cells are free.
pub(crate) fn new_queue<R: Abort>(rt: &R, w: &mut World<LinkedEntry<u64>>) -> Queue<u64>
    requires { 0 < length w.old.participants }
    ensures participant { 0 < length w.new.participants }
    ensures list { IsSomeQueue entry_link w.new (oldest_cell result) (newest_cell result) }
{
    match world::queue::new(w) {
        Ok(queue) => queue,
        Err(_) => panic!(rt; "two cells are free"),
    }
}

/// An empty bag, where its cells are free.
pub(crate) fn new_bag<R: Abort, const N: usize>(
    rt: &R,
    alloc: Global,
    w: &mut World<LinkedEntry<u64>>,
) -> Bag<u64, N>
    requires participant { 0 < length w.old.participants }
    requires length { IsLength N }
    ensures participant { 0 < length w.new.participants }
    ensures list { IsSomeBag N w.new (bag_cells result) }
{
    match world::bag::new::<u64, _, N>(alloc, w) {
        Ok(bag) => bag,
        Err(_) => panic!(rt; "its cells are free"),
    }
}

/// The sizes of a place with one participant.
pub(crate) fn sizes(slots: usize, cells: usize) -> Sizes
    ensures { result ≡ record { participants = 1; slots = slots; cells = cells; jobs = 0 } }
{
    Sizes {
        participants: 1,
        slots,
        cells,
        jobs: 0,
    }
}

/// Ends a world in which nothing is left.
pub(crate) fn end<R: Abort, T: Holds, J: Deferred>(rt: &R, w: World<T, J>) {
    match w.close() {
        Ok(()) => {}
        Err(_) => panic!(rt; "something is left"),
    }
}

/// Gives an owner back.
pub(crate) fn give<R: Abort>(
    rt: &R,
    w: &mut World<LinkedEntry<u64>>,
    owner: Shared<LinkedEntry<u64>>,
)
    requires { 0 < length w.old.participants }
    ensures participant { 0 < length w.new.participants }
{
    let cell = match place::atomic_shared::from(w, owner) {
        Ok(cell) => cell,
        Err(_) => panic!(rt; "a cell is free"),
    };
    place::atomic_shared::retire(w, cell, 0);
}
