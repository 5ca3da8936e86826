//! Commits, one after the other, and those that are refused: nothing changes, and the writes are returned.

use crate::calls::Call::{Commit, CommitOn, Counts};
use crate::calls::Table;
use crate::calls::Told::{Accepted, Counted, Refused};
use crate::claims::Claim::{Between, Got, Has, Listed};
use serial_history::Cause::{Conflict, Exhausted};
use serial_history::Reply::{
    Absent, Cleared, Duplicate, Inserted, RangeRemoved, Removed, Upserted,
};
use serial_history::Write::{Clear, Insert, Remove, RemoveRange, Upsert};
use std::ops::Bound::{self, Included};

/// Each kind of write, where it finds its key and where it does not.
const EACH_WRITE: Table = Table {
    about: "each kind of write is told what it did",
    places: 1,
    slots: 64,
    last: u64::MAX,
    parts: &[&[
        (Counts, Counted(0, 0)),
        (
            Commit(&[Insert(1, 10), Insert(1, 11)]),
            Accepted(1, &[Inserted, Duplicate]),
        ),
        (Counts, Counted(1, 1)),
        (
            Commit(&[Upsert(1, 12), Upsert(2, 20)]),
            Accepted(2, &[Upserted, Upserted]),
        ),
        (Counts, Counted(2, 2)),
        (
            Commit(&[Remove(1), Remove(1)]),
            Accepted(3, &[Removed, Absent]),
        ),
        (Counts, Counted(3, 1)),
        (
            Commit(&[
                RemoveRange(Bound::Included(3), Bound::Unbounded),
                Insert(3, 30),
            ]),
            Accepted(4, &[RangeRemoved, Inserted]),
        ),
        (Counts, Counted(4, 2)),
        (Commit(&[Clear]), Accepted(5, &[Cleared])),
        (Counts, Counted(5, 0)),
    ]],
};

/// A commit that writes nothing is one all the same, and leaves the list.
const NO_WRITES: Table = Table {
    about: "a commit of nothing is one",
    places: 1,
    slots: 64,
    last: u64::MAX,
    parts: &[&[
        (Commit(&[Insert(1, 10)]), Accepted(1, &[Inserted])),
        (CommitOn(1, &[Got(1, Some(10))], &[]), Accepted(2, &[])),
        (Counts, Counted(2, 1)),
    ]],
};

/// What a commit wrote holds for the next one: key by key, beyond one segment.
const READ_ON: Table = Table {
    about: "what a commit wrote is read by the next one",
    places: 1,
    slots: 64,
    last: u64::MAX,
    parts: &[&[
        (
            Commit(&[Insert(1, 10), Insert(2, 20)]),
            Accepted(1, &[Inserted, Inserted]),
        ),
        (
            Commit(&[Insert(3, 30), Insert(4, 40)]),
            Accepted(2, &[Inserted, Inserted]),
        ),
        (
            CommitOn(2, &[Got(3, Some(30))], &[Upsert(5, 50)]),
            Accepted(3, &[Upserted]),
        ),
        (
            CommitOn(0, &[Got(5, Some(50))], &[Remove(5)]),
            Accepted(4, &[Removed]),
        ),
        (Counts, Counted(4, 4)),
    ]],
};

/// Reads of keys that are there or not, which hold or not.
const BY_ANSWERS: Table = Table {
    about: "a commit is tested by answers",
    places: 1,
    slots: 64,
    last: u64::MAX,
    parts: &[&[
        (
            CommitOn(0, &[Got(5, None)], &[Insert(2, 1), Insert(4, 1)]),
            Accepted(1, &[Inserted, Inserted]),
        ),
        (
            CommitOn(0, &[Got(2, Some(1))], &[Insert(5, 1)]),
            Accepted(2, &[Inserted]),
        ),
        (CommitOn(0, &[Got(2, Some(1))], &[]), Accepted(3, &[])),
        (CommitOn(0, &[Got(5, None)], &[]), Refused(Conflict(0))),
        (CommitOn(0, &[], &[]), Accepted(4, &[])),
    ]],
};

/// A value read was replaced since, and then changed back.
const CHANGED: Table = Table {
    about: "a read that holds again is no conflict",
    places: 1,
    slots: 64,
    last: u64::MAX,
    parts: &[&[
        (Commit(&[Insert(1, 10)]), Accepted(1, &[Inserted])),
        (Commit(&[Upsert(1, 11)]), Accepted(2, &[Upserted])),
        (
            CommitOn(1, &[Got(1, Some(10))], &[Upsert(2, 20), Clear]),
            Refused(Conflict(0)),
        ),
        (Counts, Counted(2, 1)),
        (Commit(&[Upsert(1, 10)]), Accepted(3, &[Upserted])),
        (
            CommitOn(1, &[Got(1, Some(10))], &[Upsert(2, 20)]),
            Accepted(4, &[Upserted]),
        ),
        (Counts, Counted(4, 2)),
    ]],
};

/// Of several reads the first that does not hold is the answer; an absent key and an empty range are reads as well.
const FIRST_OF: Table = Table {
    about: "the first read that does not hold is a conflict",
    places: 1,
    slots: 64,
    last: u64::MAX,
    parts: &[&[
        (
            Commit(&[Insert(2, 1), Insert(4, 1)]),
            Accepted(1, &[Inserted, Inserted]),
        ),
        (
            CommitOn(
                1,
                &[
                    Listed(Included(3), Included(5), &[(4, 1)]),
                    Has(5, false),
                    Between(3, (2, 1), (4, 1)),
                ],
                &[],
            ),
            Accepted(2, &[]),
        ),
        (Commit(&[Insert(3, 1)]), Accepted(3, &[Inserted])),
        (
            CommitOn(
                1,
                &[
                    Listed(Included(3), Included(5), &[(4, 1)]),
                    Has(5, false),
                    Between(3, (2, 1), (4, 1)),
                ],
                &[],
            ),
            Refused(Conflict(0)),
        ),
        (
            Commit(&[Remove(3), Insert(5, 1)]),
            Accepted(4, &[Removed, Inserted]),
        ),
        (
            CommitOn(4, &[Between(3, (2, 1), (4, 1)), Has(5, false)], &[]),
            Refused(Conflict(1)),
        ),
        (Counts, Counted(4, 3)),
    ]],
};

/// The last number is one: a second commit is refused, for its reads before its number.
pub const LAST_NUMBER: Table = Table {
    about: "the last number is exhausted after conflicts",
    places: 1,
    slots: 64,
    last: 1,
    parts: &[&[
        (Commit(&[Insert(1, 10)]), Accepted(1, &[Inserted])),
        (Commit(&[Upsert(1, 11)]), Refused(Exhausted)),
        (
            CommitOn(0, &[Got(5, Some(1))], &[Upsert(1, 11)]),
            Refused(Conflict(0)),
        ),
        (CommitOn(1, &[Got(1, Some(10))], &[]), Refused(Exhausted)),
        (Counts, Counted(1, 1)),
    ]],
};

/// Of segments of any width.
pub const COMMITS: &[Table] = &[EACH_WRITE, NO_WRITES, READ_ON, BY_ANSWERS];

/// Of segments of any width.
pub const CONFLICTS: &[Table] = &[CHANGED, FIRST_OF];
