//! New places, whatever their items are, and what is done with each of them.

ghost use Rattle.sdd_table.specs.Place.{IsSized};

use sdd_world::{Deferred, Holds, Shared, Sizes, World, world};
use std::alloc::Global;
use std::process::Abort;

/// The sizes of a small place: participants, slots, cells and places for jobs.
fn sizes_of<R: Abort>(rt: &R, sizes: [usize; 4]) -> Sizes
    ensures { IsSized result }
{
    let [participants, slots, cells, jobs] = sizes;
    let most = participants.max(slots).max(cells).max(jobs);
    if participants == 0 || most > 1_000_000 {
        panic!(rt; "a place as small");
    }
    Sizes {
        participants,
        slots,
        cells,
        jobs,
    }
}

/// A new place.
pub(crate) fn world_of<R: Abort, T, J: Deferred>(
    rt: &R,
    alloc: Global,
    sizes: [usize; 4],
) -> World<T, J> {
    match World::new(alloc, sizes_of(rt, sizes)) {
        Ok(w) => w,
        Err(_) => panic!(rt; "memory is ample"),
    }
}

/// A new item with counted owners.
pub(crate) fn share<R: Abort, T, J: Deferred>(rt: &R, w: &mut World<T, J>, item: T) -> Shared<T> {
    match world::shared::new(w, item) {
        Ok(owner) => owner,
        Err(_) => panic!(rt; "a slot is free"),
    }
}

/// Opens and closes this many accelerated guards of a participant, one by one: how many slots are in use then.
pub(crate) fn pass<R: Abort, T: Holds, J: Deferred>(
    rt: &R,
    w: &mut World<T, J>,
    p: usize,
    times: usize,
) -> usize {
    for _ in 0..times {
        if p >= w.participants() {
            panic!(rt; "there is such a participant");
        }
        match world::guard::new(w, p) {
            Ok(guard) => {
                world::guard::accelerate(w, &guard);
                world::guard::close(w, guard);
            }
            Err(_) => panic!(rt; "few guards are open"),
        }
    }
    w.slots_in_use()
}

/// Puts a value behind others.
pub(crate) fn push<R: Abort, X>(rt: &R, xs: &mut Vec<X>, x: X) {
    match xs.push(x) {
        Ok(()) => {}
        Err(_) => panic!(rt; "memory is ample"),
    }
}

/// Ends a place in which nothing is out.
pub(crate) fn close<R: Abort, T: Holds, J: Deferred>(rt: &R, w: World<T, J>) {
    match w.close() {
        Ok(()) => {}
        Err(_) => panic!(rt; "nothing is out"),
    }
}
