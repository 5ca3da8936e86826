//! The slow writes of a list by example.

use leaf_array::plain::{contains_key, find_value, insert, remove, upsert};
use std::alloc::{AllocError, Global};

/// A write of a list.
#[derive(Clone, Copy)]
pub(super) enum Write {
    Insert(u64, u64),
    Upsert(u64, u64),
    Remove(u64),
}

/// What a write makes of a list.
pub(super) fn written(
    alloc: Global,
    list: &[(u64, u64)],
    write: Write,
) -> Result<Vec<(u64, u64)>, AllocError> {
    match write {
        Write::Insert(key, val) => insert(alloc, list, &key, &val),
        Write::Upsert(key, val) => upsert(alloc, list, &key, &val),
        Write::Remove(key) => remove(alloc, list, &key),
    }
}

/// A list, a write, and the list that it leaves.
type Row = (&'static [(u64, u64)], Write, &'static [(u64, u64)]);

const WRITES: &[Row] = &[
    // a duplicate keeps the list
    (&[], Write::Insert(1, 10), &[(1, 10)]),
    (&[(1, 10)], Write::Insert(1, 11), &[(1, 10)]),
    // writes one after the other keep the order of keys
    (&[], Write::Insert(4, 1), &[(4, 1)]),
    (&[(4, 1)], Write::Insert(2, 1), &TWO),
    (&TWO, Write::Insert(5, 1), THREE),
    (THREE, Write::Insert(3, 7), FOUR),
    (FOUR, Write::Upsert(4, 9), WITH_NINE),
    (WITH_NINE, Write::Remove(3), LEFT),
    (LEFT, Write::Remove(3), LEFT),
];

const TWO: [(u64, u64); 2] = [(2, 1), (4, 1)];

const THREE: &[(u64, u64)] = &[(2, 1), (4, 1), (5, 1)];

const FOUR: &[(u64, u64)] = &[(2, 1), (3, 7), (4, 1), (5, 1)];

const WITH_NINE: &[(u64, u64)] = &[(2, 1), (3, 7), (4, 9), (5, 1)];

const LEFT: &[(u64, u64)] = &[(2, 1), (4, 9), (5, 1)];

/// Whether a write of a list makes another of it, if there is memory.
fn makes(alloc: Global, (list, write, wanted): Row) -> Option<bool> {
    match written(alloc, list, write) {
        Ok(made) => Some(made.as_slice() == wanted),
        Err(AllocError) => None,
    }
}

/// Whether keys are found where they are, and nowhere else.
fn are_found() -> bool {
    let first = find_value(&[(1u64, 10u64)], &1).copied() == Some(10);
    let (five, three) = (contains_key(LEFT, &5), contains_key(LEFT, &3));
    first && five && !three && find_value(LEFT, &3).is_none()
}

/// Whether memory was refused, and whether keys are found, and writes keep their order, by a second try then.
fn met(alloc: Global) -> (bool, bool) {
    let mut is_refused = false;
    let mut as_said = are_found();
    for row in WRITES {
        let mut made = makes(alloc, *row);
        if made.is_none() {
            is_refused = true;
            made = makes(alloc, *row);
        }
        as_said = made == Some(true) && as_said;
    }
    (is_refused, as_said)
}

#[test]
fn a_refusal_of_memory_makes_no_list(rt: HostRuntime) {
    assert!(rt; met(rt.alloc()).1);
}

#[test]
fn no_memory_is_refused_to_a_write_of_a_list(rt: HostRuntime) {
    assert!(rt; met(rt.alloc()) == (false, true));
}
