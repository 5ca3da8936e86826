//! Runs in which any one allocation may be refused. A script has each refused in turn: whatever is refused, nothing was
//! kept, and the same call then succeeds.

ghost use Rattle.std.specs.Prelude.{◌<◌, length};

use crate::worlds::close;
use sdd_world::{PrivateCollector, Sizes, World, world};
use std::alloc::{AllocError, Global};
use std::process::Abort;

const TWICE: &str = "memory was refused twice";

/// The sizes of a world with three slots.
const SIZES: Sizes = Sizes {
    participants: 2,
    slots: 3,
    cells: 2,
    jobs: 1,
};

// A world whose making is tried again where memory was refused.
fn numbers<R: Abort>(rt: &R, alloc: Global, met: &mut bool) -> World<u64>
    ensures { 1 < length result.participants }
{
    match World::new(alloc, SIZES) {
        Ok(w) => w,
        Err(AllocError) => {
            *met = true;
            World::new(alloc, SIZES).expect(rt, TWICE)
        }
    }
}

// A collector, tried again likewise.
fn collector<R: Abort>(
    rt: &R,
    alloc: Global,
    w: &World<u64>,
    met: &mut bool,
) -> PrivateCollector<u64> {
    match world::private_collector::new(alloc, w) {
        Ok(collector) => collector,
        Err(AllocError) => {
            *met = true;
            world::private_collector::new(alloc, w).expect(rt, TWICE)
        }
    }
}

// Whether an allocation was refused while a place and a collector were made. All else takes no memory.
fn makes_and_retires<R: Abort>(rt: &R, alloc: Global) -> bool {
    let mut met = false;
    let mut w = numbers(rt, alloc, &mut met);
    let collector = collector(rt, alloc, &w, &mut met);
    let before = w.slots_in_use();
    let Ok(owned) = world::owned::new(&mut w, 7) else {
        panic!(rt; "a slot is free");
    };
    let read = *world::owned::as_ref(&w, &owned);
    world::owned::retire(&mut w, owned, 1);
    world::private_collector::hand_over(&mut w, collector, 1);
    assert_eq!(rt; (before, read, w.slots_in_use()), (0, 7, 1));
    close(rt, w);
    met
}

// Whether an allocation was refused while a place and a name for a group were made. The row of a group without a name comes back.
fn makes_a_group<R: Abort>(rt: &R, alloc: Global) -> bool {
    let mut met = false;
    let mut w = numbers(rt, alloc, &mut met);
    let row = match world::group::make(&mut w, Vec::new(alloc)) {
        Ok(_) => panic!(rt; "no name is free"),
        Err(row) => row,
    };
    if world::group::grow(&mut w).is_err() {
        met = true;
        assert!(rt; world::group::has_none_free(&w));
        world::group::grow(&mut w).expect(rt, TWICE);
    }
    match world::group::make(&mut w, row) {
        Ok(group) => world::group::release(&mut w, group, 1),
        Err(_) => panic!(rt; "a name is free"),
    }
    assert!(rt; !world::group::has_none_free(&w));
    close(rt, w);
    met
}

// A collector made behind the place, which is made whichever allocation is refused: it takes no memory.
fn makes_a_collector<R: Abort>(rt: &R, alloc: Global) {
    let mut w = numbers(rt, alloc, &mut false);
    let Ok(owned) = world::owned::new(&mut w, 7) else {
        panic!(rt; "a slot is free");
    };
    world::owned::retire(&mut w, owned, 1);
    let Ok(collector) = world::private_collector::new(alloc, &w) else {
        panic!(rt; "a collector takes no memory");
    };
    world::private_collector::hand_over(&mut w, collector, 1);
    assert_eq!(rt; w.slots_in_use(), 1);
    close(rt, w);
}

#[test]
fn a_refusal_of_memory_leaves_a_collector_made(rt: HostRuntime) {
    makes_a_collector(&rt, rt.alloc());
}

#[test]
fn a_refusal_of_memory_keeps_nothing(rt: HostRuntime) {
    let _met = makes_and_retires(&rt, rt.alloc());
}

#[test]
fn no_memory_is_refused_to_a_place_and_a_collector(rt: HostRuntime) {
    assert!(rt; !makes_and_retires(&rt, rt.alloc()));
}

#[test]
fn a_refusal_of_memory_gives_no_name_to_a_group(rt: HostRuntime) {
    makes_a_group(&rt, rt.alloc());
}

#[test]
fn no_memory_is_refused_to_a_group(rt: HostRuntime) {
    assert!(rt; !makes_a_group(&rt, rt.alloc()));
}
