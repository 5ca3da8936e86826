//! Walks along containers, and entries beside each other.

ghost use Rattle.std.specs.Prelude.{◌<◌, length};
ghost use Rattle.world_containers.specs.Chain.{Hangs};
ghost use Rattle.world_containers.specs.Entries.{entry_link};
ghost use Rattle.world_containers.specs.Iters.{iter_cell};
ghost use Rattle.sdd_tests.specs.Lines.{IsSomeLine};

use crate::each_call::Kind;
use crate::entries::retire;
use crate::filled::line_of;
use crate::lines::Line;
use crate::places::{close, end, give, guarded, place_of};
use sdd_world::guard::WorldGuard;
use sdd_world::owner::Shared;
use sdd_world::world::World;
use std::alloc::Global;
use std::process::Abort;
use world_containers::iter::Iter;
use world_containers::linked_entry::LinkedEntry;
use world_containers::world;

/// Three values of a container, or fewer.
pub(crate) type Three = (Option<u64>, Option<u64>, Option<u64>);

/// The first three values that a walk gives.
fn three(w: &World<LinkedEntry<u64>>, mut iter: Iter<u64>) -> Three
    requires { Hangs entry_link w.now (iter_cell iter) }
{
    let first = world::iter::next(w, &mut iter).copied();
    let second = world::iter::next(w, &mut iter).copied();
    let third = world::iter::next(w, &mut iter).copied();
    (first, second, third)
}

pub(crate) fn three_of(w: &World<LinkedEntry<u64>>, line: &Line<u64>) -> Three
    requires { IsSomeLine w.now line.now }
{
    match line {
        Line::Stack(stack) => three(w, world::stack::iter(w, stack)),
        Line::Queue(queue) => three(w, world::queue::iter(w, queue)),
    }
}

/// Whether there is an owner of the second undeleted entry to be had, which is given back.
fn second_is_shared<R: Abort>(
    rt: &R,
    w: &mut World<LinkedEntry<u64>>,
    line: Line<u64>,
    guard: &WorldGuard,
) -> bool
    requires participant { 0 < length w.old.participants }
    requires list { IsSomeLine w.old line }
    ensures participant { 0 < length w.new.participants }
{
    let Line::Stack(stack) = line else {
        panic!(rt; "it is a stack");
    };
    let first = world::stack::peek(w, &stack, guard);
    match w.read(&first) {
        None => panic!(rt; "there is a first one"),
        Some(_) => {}
    }
    let next = world::linked_list::next_shared(w, first, guard);
    world::stack::retire(w, stack, 0);
    match next {
        None => false,
        Some(owner) => {
            give(rt, w, owner);
            true
        }
    }
}

#[test]
fn the_next_entry_is_shared(rt: HostRuntime) {
    let mut w = place_of(&rt, rt.alloc(), 4, 6);
    let guard = guarded(&rt, &mut w);
    let stack = line_of(&rt, &mut w, Kind::Stack, 1..3);
    let shared = second_is_shared(&rt, &mut w, stack, &guard);
    close(&rt, &mut w, guard);
    end(&rt, w);
    assert!(rt; shared);
}

/// Whether two entries of 5 are written as their value.
fn are_written(alloc: Global, one: &LinkedEntry<u64>, two: &LinkedEntry<u64>) -> bool {
    match format!(in alloc; "{one} {two:?}") {
        Ok(text) => text.as_str() == "5 5",
        Err(_) => false,
    }
}

#[test]
fn entries_are_equal_by_value(rt: HostRuntime) {
    let mut w = place_of(&rt, rt.alloc(), 2, 2);
    let Ok(one) = world::linked_entry::new(&mut w, 5) else {
        panic!(rt; "a cell is free");
    };
    let Ok(two) = world::linked_entry::new(&mut w, 5) else {
        panic!(rt; "a cell is free");
    };
    let (equal, written) = (one == two, are_written(rt.alloc(), &one, &two));
    retire(&rt, &mut w, one);
    retire(&rt, &mut w, two);
    end(&rt, w);
    assert!(rt; equal && written);
}

#[test]
fn a_queue_is_popped_on_a_condition(rt: HostRuntime) {
    let mut w = place_of(&rt, rt.alloc(), 2, 5);
    let line = line_of(&rt, &mut w, Kind::Queue, 5..7);
    let Line::Queue(queue) = line else {
        panic!(rt; "it is a queue");
    };
    let six = |entry: &LinkedEntry<u64>| *entry.as_ref() == 6;
    let refused = match world::queue::pop_if(&mut w, &queue, 0, six) {
        Err(refused) => refused,
        _ => panic!(rt; "the oldest is another"),
    };
    let before = three(&w, world::queue::iter(&w, &queue));
    let five = |entry: &LinkedEntry<u64>| *entry.as_ref() == 5;
    let popped = match world::queue::pop_if(&mut w, &queue, 0, five) {
        Ok(Some(popped)) => popped,
        _ => panic!(rt; "the oldest is this one"),
    };
    let after = three(&w, world::queue::iter(&w, &queue));
    world::queue::retire(&mut w, queue, 0);
    give(&rt, &mut w, refused);
    give(&rt, &mut w, popped);
    end(&rt, w);
    assert!(rt; before == (Some(5), Some(6), None) && after == (Some(6), None, None));
}
