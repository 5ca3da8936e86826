//! Drafts by example.

use sdd_domain::holds::Holds;
use shared_versions::{Draft, Node, Version, build, view_of};
use std::alloc::{AllocError, Global};
use std::ops::Bound;
use std::process::Abort;
use std::test::Fail;
use version_views::{Reply, Write};

/// How many slots a draft takes, which isn't placed and is dropped.
fn slots_of(draft: Draft<u64, u64, 4>) -> usize {
    draft.slots()
}

#[test]
fn the_empty_draft_takes_one_slot(rt: HostRuntime) -> Result<(), Fail> {
    assert_eq!(rt; slots_of(Draft::empty(rt.alloc())), 1);
    Ok(())
}

/// Writes of the empty version, with the reply to each.
const WRITES: [(Write<u64, u64>, Reply); 15] = [
    (Write::Insert(1, 1), Reply::Inserted),
    (Write::Insert(2, 2), Reply::Inserted),
    (Write::Insert(3, 3), Reply::Inserted),
    (Write::Insert(4, 4), Reply::Inserted),
    (Write::Insert(5, 5), Reply::Inserted),
    (Write::Insert(6, 6), Reply::Inserted),
    (Write::Insert(7, 7), Reply::Inserted),
    (Write::Insert(8, 8), Reply::Inserted),
    (Write::Insert(9, 9), Reply::Inserted),
    (Write::Insert(10, 10), Reply::Inserted),
    (Write::Insert(3, 4), Reply::Duplicate),
    (Write::Remove(11), Reply::Absent),
    (Write::Remove(10), Reply::Removed),
    (Write::Upsert(9, 90), Reply::Upserted),
    (
        Write::RemoveRange(Bound::Included(20), Bound::Unbounded),
        Reply::RangeRemoved,
    ),
];

/// What the writes make of the empty version: whether that has a key, how many slots the draft takes, and whether each write is
/// answered as it should be.
fn drafted(alloc: Global) -> Result<(bool, usize, bool), AllocError> {
    let mut writes = Vec::new(alloc);
    let mut wanted = Vec::new(alloc);
    for (write, reply) in WRITES {
        writes.push(write)?;
        wanted.push(reply)?;
    }
    let old = Version::<u64, u64>::empty(alloc, 4);
    let there = view_of(&old).contains(&3);
    let built = build::<u64, u64, 4>(alloc, &old, &writes);
    Node::Version(old).end();
    let (draft, replies) = built?;
    Ok((there, slots_of(draft), replies == wanted))
}

// nine pairs in one row, and the version
const EXPECTED: (bool, usize, bool) = (false, 2, true);

/// Whether memory was refused while a draft was made, and whether it was as wanted, by a second try then.
fn drafted_again(alloc: Global) -> (bool, bool) {
    match drafted(alloc) {
        Ok(found) => (false, found == EXPECTED),
        Err(AllocError) => (true, drafted(alloc) == Ok(EXPECTED)),
    }
}

// Any one allocation may be refused: a script has each refused in turn.
#[test]
fn a_refusal_of_memory_makes_no_draft(rt: HostRuntime) {
    assert!(rt; drafted_again(rt.alloc()).1);
}

#[test]
fn no_memory_is_refused_to_a_draft(rt: HostRuntime) {
    assert!(rt; drafted_again(rt.alloc()) == (false, true));
}
