//! Commits that rest on what sessions recorded, and indexes that refuse: each table is played on an index of its own.

use crate::steps::Ask::{First, Get, Has, Last, List, Near};
use crate::steps::Step::{Commit, Reclaim, Session};
use crate::steps::Told::{Conflict, Made, Refused};
use crate::steps::{Ask, Table, plays_table};
use std::ops::Bound::{Excluded, Included, Unbounded};
use version_views::Write::{self, Clear, Insert, Remove, Upsert};

const FOUR: &[Write<u64, u64>] = &[Insert(2, 20), Insert(4, 40), Insert(6, 60), Insert(8, 80)];

const MIDDLE: Ask = List(Included(2), Excluded(6));

/// Each kind of read: accepted where its answer is still the same, though another pair was written; a conflict where it isn't.
const EACH_READ: Table = Table {
    is_by_ones: false,
    slots: 512,
    last: u64::MAX,
    rows: &[
        Commit(FOUR, Made(1)),
        Session(1, &[Get(2)], &[], &[Upsert(2, 21)], Made(2)),
        Session(2, &[Get(2)], &[Upsert(4, 41)], &[Upsert(2, 22)], Made(4)),
        Session(4, &[Get(2)], &[Upsert(2, 23)], &[Clear], Conflict(0)),
        Session(5, &[Get(3)], &[Insert(3, 30)], &[Clear], Conflict(0)),
        Session(6, &[Get(3)], &[Remove(3)], &[Clear], Conflict(0)),
        Session(7, &[Has(4)], &[Upsert(4, 42)], &[Upsert(4, 43)], Made(9)),
        Session(9, &[Has(4)], &[Remove(4)], &[Clear], Conflict(0)),
        Session(10, &[Has(4)], &[Insert(4, 44)], &[Clear], Conflict(0)),
        Session(11, &[MIDDLE], &[Upsert(6, 61)], &[Upsert(2, 24)], Made(13)),
        Session(13, &[MIDDLE], &[Insert(5, 50)], &[Clear], Conflict(0)),
        Session(14, &[MIDDLE], &[Upsert(4, 45)], &[Clear], Conflict(0)),
        Session(15, &[Near(7)], &[Upsert(5, 51)], &[Upsert(8, 81)], Made(17)),
        Session(17, &[Near(7)], &[Remove(6)], &[Clear], Conflict(0)),
    ],
    number: 18,
};

const FIRST_TWO: Ask = First(Unbounded, Unbounded, 2);

/// The last two pairs before 8.
const LAST_TWO: Ask = Last(Unbounded, Excluded(8), 2);

/// The first and the last pairs of a range: accepted where what was written lies beyond them, a conflict where it is among them.
const ENDS: Table = Table {
    is_by_ones: false,
    slots: 512,
    last: u64::MAX,
    rows: &[
        Commit(FOUR, Made(1)),
        Session(1, &[FIRST_TWO], &[Upsert(6, 61)], &[Upsert(8, 81)], Made(3)),
        Session(3, &[FIRST_TWO], &[Insert(3, 30)], &[Clear], Conflict(0)),
        Session(
            4,
            &[First(Included(3), Unbounded, 1)],
            &[Remove(3)],
            &[Clear],
            Conflict(0),
        ),
        Session(5, &[LAST_TWO], &[Upsert(2, 21)], &[Upsert(8, 82)], Made(7)),
        Session(7, &[LAST_TWO], &[Insert(5, 50)], &[Clear], Conflict(0)),
        Session(
            8,
            &[
                Last(Unbounded, Unbounded, 1),
                First(Unbounded, Unbounded, 1),
            ],
            &[Upsert(2, 22)],
            &[],
            Conflict(1),
        ),
    ],
    number: 9,
};

/// Several reads: the first that doesn't hold is the answer. What was changed and changed back holds.
const SEVERAL_READS: Table = Table {
    is_by_ones: false,
    slots: 512,
    last: u64::MAX,
    rows: &[
        Commit(&[Insert(2, 20), Insert(4, 40), Insert(6, 60)], Made(1)),
        Session(
            1,
            &[Get(2), List(Unbounded, Unbounded), Has(7), Near(6)],
            &[],
            &[],
            Made(2),
        ),
        Session(
            2,
            &[Get(2), List(Included(4), Unbounded), Get(4)],
            &[Upsert(4, 41)],
            &[Clear],
            Conflict(1),
        ),
        Session(
            3,
            &[Has(2), Get(4), Get(6)],
            &[Upsert(6, 61)],
            &[Clear],
            Conflict(2),
        ),
        Session(
            4,
            &[Get(2), Near(3)],
            &[Upsert(2, 0), Remove(4), Upsert(2, 20), Insert(4, 41)],
            &[Upsert(2, 21)],
            Made(6),
        ),
        Session(6, &[List(Unbounded, Unbounded)], &[Clear], &[], Conflict(0)),
        Session(7, &[Get(2)], &[], &[Insert(2, 22)], Made(8)),
    ],
    number: 8,
};

/// A session for a number that isn't there yet is refused with the one that is.
const EARLIER: Table = Table {
    is_by_ones: true,
    slots: 64,
    last: u64::MAX,
    rows: &[
        Session(1, &[], &[], &[], Refused("earlier", 0)),
        Session(u64::MAX, &[], &[], &[], Refused("earlier", 0)),
        Commit(&[Insert(1, 10)], Made(1)),
        Commit(&[Upsert(1, 11)], Made(2)),
        Session(3, &[], &[], &[], Refused("earlier", 2)),
        Session(u64::MAX, &[], &[], &[], Refused("earlier", 2)),
        Session(2, &[Get(1)], &[], &[], Made(3)),
    ],
    number: 3,
};

/// An index whose last number is 2: who read what is there is answered so, as is who read nothing.
const LAST_NUMBER: Table = Table {
    is_by_ones: true,
    slots: 64,
    last: 2,
    rows: &[
        Commit(&[Insert(1, 10)], Made(1)),
        Session(1, &[Get(1)], &[], &[Upsert(1, 11)], Made(2)),
        Session(2, &[Get(1)], &[], &[], Refused("exhausted", 0)),
        Commit(&[Upsert(1, 12)], Refused("exhausted", 0)),
        Session(3, &[], &[], &[], Refused("earlier", 2)),
    ],
    number: 2,
};

/// Five slots, a pair a segment: a version takes two, and so do the one before it and the one that waits.
const FEW_SLOTS: Table = Table {
    is_by_ones: true,
    slots: 5,
    last: u64::MAX,
    rows: &[
        Commit(&[Insert(1, 10)], Made(1)),
        Commit(&[Upsert(1, 11)], Made(2)),
        Commit(&[Upsert(1, 12)], Refused("no slot", 0)),
        Session(2, &[Get(1)], &[], &[Upsert(1, 12)], Refused("no slot", 0)),
        Reclaim,
        Commit(&[Upsert(1, 12)], Made(3)),
    ],
    number: 3,
};

#[test]
fn a_commit_rests_on_what_its_session_read(rt: HostRuntime) {
    plays_table(&rt, rt.alloc(), EACH_READ);
    plays_table(&rt, rt.alloc(), ENDS);
    plays_table(&rt, rt.alloc(), SEVERAL_READS);
}

#[test]
fn an_index_without_numbers_or_slots_refuses(rt: HostRuntime) {
    plays_table(&rt, rt.alloc(), EARLIER);
    plays_table(&rt, rt.alloc(), LAST_NUMBER);
    plays_table(&rt, rt.alloc(), FEW_SLOTS);
}
