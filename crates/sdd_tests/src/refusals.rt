//! Calls that want a slot, a cell or memory where there is none. What they would have changed is looked at behind them.
//!
//! In the tests named `a_refusal_of_memory_..` any one allocation may be refused: a script has each refused in turn.

ghost use Rattle.std.specs.Prelude.{◌<◌, length};

use crate::each_call::{Kind, new_line, push, retire};
use crate::filled::{Lack, bag_of, some_bag};
use crate::lines::Line;
use crate::places::{end, new_bag, new_stack, place_of, sizes};
use crate::walks::three_of;
use sdd_lists::world::entries;
use sdd_world::refusal::NoSlot;
use sdd_world::world::World;
use std::alloc::{AllocError, Global};
use std::process::Abort;
use world_containers::linked_entry::LinkedEntry;
use world_containers::refusal::{CloneRefused, NotMade};
use world_containers::world;

/// The values that are returned where no slot or no cell is free for an entry.
fn unplaced<R: Abort>(rt: &R, w: &mut World<LinkedEntry<u64>>) -> (u64, u64, u64, u64)
    requires { 0 < length w.old.participants }
    ensures { 0 < length w.new.participants }
{
    let placed = match world::linked_entry::place(w, 1) {
        Err(placed) => placed,
        _ => panic!(rt; "there is no room"),
    };
    let one = match entries::make_one(w, 2) {
        Err(one) => one,
        _ => panic!(rt; "there is no room"),
    };
    let two = match entries::make(w, 3) {
        Err(two) => two,
        _ => panic!(rt; "there is no room"),
    };
    let three = match entries::make_three(w, 4) {
        Err(three) => three,
        _ => panic!(rt; "there is no room"),
    };
    (placed, one, two, three)
}

#[test]
fn neither_entry_nor_stack_is_made_without_a_slot_or_a_cell(rt: HostRuntime) {
    let mut w = place_of(&rt, rt.alloc(), 1, 0);
    let without_cells = unplaced(&rt, &mut w);
    match world::stack::new(&mut w) {
        Err(NoSlot) => {}
        _ => panic!(rt; "no cell is free"),
    }
    let used = w.slots_in_use();
    end(&rt, w);
    let mut w = place_of(&rt, rt.alloc(), 0, 1);
    let without_slots = unplaced(&rt, &mut w);
    // the one cell is free still
    let stack = new_stack(&rt, &mut w);
    world::stack::retire(&mut w, stack, 0);
    end(&rt, w);
    let back = (1, 2, 3, 4);
    assert!(rt; without_cells == back && without_slots == back && used == 0);
}

#[test]
fn a_stack_is_neither_moved_nor_cloned_without_a_cell(rt: HostRuntime) {
    let mut w = place_of(&rt, rt.alloc(), 2, 2);
    let line = new_line(&rt, &mut w, Kind::Stack);
    let pushed = push(&mut w, &line, 5);
    let Line::Stack(stack) = line else {
        panic!(rt; "it is a stack");
    };
    match world::stack::pop_all(&mut w, &stack, 0) {
        Err(NoSlot) => {}
        _ => panic!(rt; "no cell is free"),
    }
    match world::stack::clone(&mut w, &stack) {
        Err(CloneRefused::Unmade(NotMade::NoSlot)) => {}
        _ => panic!(rt; "no cell is free"),
    }
    let line = Line::Stack(stack);
    let left = (three_of(&w, &line), w.slots_in_use());
    retire(&mut w, line);
    end(&rt, w);
    assert!(rt; pushed.is_ok());
    assert!(rt; left == ((Some(5), None, None), 1));
}

#[test]
fn a_queue_is_not_cloned_with_one_cell(rt: HostRuntime) {
    let mut w = place_of(&rt, rt.alloc(), 3, 4);
    let line = new_line(&rt, &mut w, Kind::Queue);
    let first = push(&mut w, &line, 5);
    let Line::Queue(queue) = line else {
        panic!(rt; "it is a queue");
    };
    match world::queue::clone(&mut w, &queue) {
        Err(CloneRefused::Unmade(NotMade::NoSlot)) => {}
        _ => panic!(rt; "one cell is free"),
    }
    // that cell is free still
    let line = Line::Queue(queue);
    let second = push(&mut w, &line, 6);
    let left = three_of(&w, &line);
    retire(&mut w, line);
    end(&rt, w);
    assert!(rt; first.is_ok() && second.is_ok());
    assert!(rt; left == (Some(5), Some(6), None));
}

/// Whether an allocation was refused while a place and two bags were made. What was refused is tried again, and each bag
/// wants all five cells of the place.
fn makes_bags<R: Abort>(rt: &R, alloc: Global) -> bool {
    let mut met = false;
    let mut w = match World::new(alloc, sizes(2, 5)) {
        Ok(w) => w,
        Err(AllocError) => {
            met = true;
            place_of(rt, alloc, 2, 5)
        }
    };
    let bag = match world::bag::new::<u64, _, 4>(alloc, &mut w) {
        Ok(bag) => bag,
        Err(NotMade::Memory) => {
            met = true;
            new_bag::<_, 4>(rt, alloc, &mut w)
        }
        Err(NotMade::NoSlot) => panic!(rt; "its cells are free"),
    };
    world::bag::retire(&mut w, bag, 0);
    let bag = match some_bag::<2>(alloc, &mut w, 1..3) {
        (Some(bag), None) => bag,
        (None, Some(Lack::Unmade(NotMade::Memory, 2))) => {
            met = true;
            bag_of::<_, 2>(rt, alloc, &mut w, 1..3)
        }
        _ => panic!(rt; "there is room, and both numbers come back"),
    };
    let len = world::bag::len(&w, &bag);
    world::bag::retire(&mut w, bag, 0);
    end(rt, w);
    assert!(rt; len == 2);
    met
}

#[test]
fn a_refusal_of_memory_makes_no_bag(rt: HostRuntime) {
    let _met = makes_bags(&rt, rt.alloc());
}

#[test]
fn no_memory_is_refused_to_bags(rt: HostRuntime) {
    assert!(rt; !makes_bags(&rt, rt.alloc()));
}
