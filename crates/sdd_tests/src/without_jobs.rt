//! Containers of a place that defers no jobs, by the names at the root.

use crate::places::{end, place_of};
use sdd_world::owner::Shared;
use std::process::Abort;
use world_containers::{LinkedEntry, NoJob, World, sdd_world, world};

/// A place of numbers in lists, without jobs.
type Place = World<LinkedEntry<u64>, NoJob>;

/// Gives an owner back.
fn give<R: Abort>(rt: &R, w: &mut Place, owner: Shared<LinkedEntry<u64>>) {
    if !sdd_world::world::shared::is_here(w, &owner) || w.participants() == 0 {
        panic!(rt; "its entry is there");
    }
    sdd_world::world::shared::release(w, owner, 0);
}

#[test]
fn a_place_without_jobs_has_a_queue(rt: HostRuntime) {
    let mut w: Place = place_of(&rt, rt.alloc(), 2, 4);
    let Ok(queue) = world::queue::new(&mut w) else {
        panic!(rt; "two cells are free");
    };
    let Ok(first) = world::queue::push(&mut w, &queue, 5) else {
        panic!(rt; "a slot and a cell are free");
    };
    let Ok(second) = world::queue::push(&mut w, &queue, 6) else {
        panic!(rt; "a slot and a cell are free");
    };
    let len = world::queue::len(&w, &queue);
    let Some(popped) = world::queue::pop(&mut w, &queue, 0) else {
        panic!(rt; "it has two values");
    };
    let value = *sdd_world::world::shared::as_ref(&w, &popped).as_ref();
    world::queue::retire(&mut w, queue, 0);
    give(&rt, &mut w, first);
    give(&rt, &mut w, second);
    give(&rt, &mut w, popped);
    end(&rt, w);
    assert!(rt; len == 2 && value == 5);
}

#[test]
fn a_place_without_jobs_has_a_stack_and_a_bag(rt: HostRuntime) {
    let mut w: Place = place_of(&rt, rt.alloc(), 2, 5);
    let Ok(stack) = world::stack::new(&mut w) else {
        panic!(rt; "a cell is free");
    };
    let Ok(first) = world::stack::push(&mut w, &stack, 5) else {
        panic!(rt; "a slot and a cell are free");
    };
    let stacked = world::stack::len(&w, &stack);
    world::stack::retire(&mut w, stack, 0);
    let Ok(bag) = world::bag::new::<u64, _, 1>(rt.alloc(), &mut w) else {
        panic!(rt; "two cells are free, and memory is ample");
    };
    let pushed = world::bag::push(&mut w, &bag, 6);
    let bagged = world::bag::len(&w, &bag);
    world::bag::retire(&mut w, bag, 0);
    give(&rt, &mut w, first);
    end(&rt, w);
    assert!(rt; stacked == 1 && pushed.is_ok() && bagged == 1);
}
