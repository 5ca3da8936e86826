//! Values that hold nothing, as items.

use sdd_world::{Holds, NoJob, Plain, Sizes, World, world};
use std::alloc::{AllocError, Global};
use std::process::Abort;

/// Keeps a value in a place of its own, gives it back, and ends the place; answers how many slots the item took.
fn kept<T: Holds, R: Abort>(rt: &R, alloc: Global, value: T) -> usize {
    let sizes = Sizes {
        participants: 1,
        slots: 1,
        cells: 0,
        jobs: 0,
    };
    let mut w: World<T, NoJob> = match World::new(alloc, sizes) {
        Ok(w) => w,
        Err(_) => panic!(rt; "memory is ample"),
    };
    let owned = match world::owned::new(&mut w, value) {
        Ok(owned) => owned,
        Err(_) => panic!(rt; "a slot is free"),
    };
    world::owned::retire(&mut w, owned, 0);
    let used = w.slots_in_use();
    match w.close() {
        Ok(()) => used,
        Err(_) => panic!(rt; "nothing is out"),
    }
}

/// A text, and a row of numbers.
fn text_and_row(alloc: Global) -> Result<(String, Vec<u32>), AllocError> {
    let number = 7;
    let mut row = Vec::new(alloc);
    row.push(number)?;
    Ok((format!(in alloc; "item {number}")?, row))
}

#[test]
fn numbers_are_items(rt: HostRuntime) {
    let alloc = rt.alloc();
    let used = [
        kept(&rt, alloc, 1u8),
        kept(&rt, alloc, 1u16),
        kept(&rt, alloc, 1u32),
        kept(&rt, alloc, 1u64),
        kept(&rt, alloc, 1u128),
        kept(&rt, alloc, 1usize),
        kept(&rt, alloc, -1i8),
        kept(&rt, alloc, -1i16),
        kept(&rt, alloc, -1i32),
        kept(&rt, alloc, -1i64),
        kept(&rt, alloc, -1i128),
        kept(&rt, alloc, -1isize),
    ];
    assert!(rt; used == [1usize; 12]);
}

#[test]
fn text_and_any_plain_value_are_items(rt: HostRuntime) {
    let alloc = rt.alloc();
    let Ok((text, row)) = text_and_row(alloc) else {
        panic!(rt; "memory is ample");
    };
    let used = [
        kept(&rt, alloc, true),
        kept(&rt, alloc, 'a'),
        kept(&rt, alloc, text),
        kept(&rt, alloc, Plain { value: row }),
    ];
    assert!(rt; used == [1usize; 4]);
}
