//! Checkpoints: a number's list becomes the base, in whose place the transactions up to it go.

use crate::calls::Call::{Audit, Base, Checkpoint, Commit, CommitOn, Counts, Numbers, Since};
use crate::calls::Table;
use crate::calls::Told::{
    Accepted, Ahead, Audited, Based, Behind, Checkpointed, Counted, Fed, Numbered, Refused, Unfed,
};
use crate::claims::Claim::{Got, Listed};
use serial_history::Audit::{No, TooOld, Unknown, Yes};
use serial_history::Cause::{Conflict, Exhausted};
use serial_history::Reply::{Cleared, Inserted, Removed, Upserted};
use serial_history::SinceRefused;
use serial_history::Write::{Clear, Insert, Remove, Upsert};
use std::ops::Bound::Unbounded;

/// A key is 10, 11 and 12 by numbers 1, 2 and 3, and the list of 2 becomes the base.
const BY_NUMBER: Table = Table {
    about: "the list of a number becomes the base",
    places: 1,
    slots: 64,
    last: u64::MAX,
    parts: &[&[
        (Commit(&[Insert(1, 10)]), Accepted(1, &[Inserted])),
        (Commit(&[Upsert(1, 11)]), Accepted(2, &[Upserted])),
        (Commit(&[Upsert(1, 12)]), Accepted(3, &[Upserted])),
        (Checkpoint(4), Ahead(3)),
        (Base, Based(0, &[])),
        (Numbers, Numbered(0, 3)),
        (Checkpoint(2), Checkpointed(2)),
        (Base, Based(2, &[(1, 11)])),
        (Numbers, Numbered(2, 3)),
        (Checkpoint(1), Behind(2)),
        (Base, Based(2, &[(1, 11)])),
        (Audit(1, &[Got(1, Some(10))]), Audited(TooOld(2))),
        (Audit(0, &[]), Audited(TooOld(2))),
        (Audit(2, &[Got(1, Some(11))]), Audited(Yes)),
        (Audit(2, &[Got(1, Some(10))]), Audited(No(0))),
        (Audit(3, &[Got(1, Some(12))]), Audited(Yes)),
        (Audit(4, &[]), Audited(Unknown)),
        (
            CommitOn(1, &[Got(1, Some(10))], &[Upsert(1, 13)]),
            Refused(Conflict(0)),
        ),
        (Counts, Counted(3, 1)),
        (Commit(&[]), Accepted(4, &[])),
        (
            CommitOn(1, &[Got(1, Some(12))], &[Upsert(1, 13)]),
            Accepted(5, &[Upserted]),
        ),
        (Audit(3, &[Got(1, Some(12))]), Audited(Yes)),
        (Counts, Counted(5, 1)),
    ]],
};

/// No number is below an empty book's, and the base's own number, which is its present one too, changes nothing.
const OF_NOTHING: Table = Table {
    about: "the empty list is a base",
    places: 1,
    slots: 64,
    last: u64::MAX,
    parts: &[&[
        (Checkpoint(0), Checkpointed(0)),
        (Checkpoint(1), Ahead(0)),
        (Base, Based(0, &[])),
        (Audit(0, &[Got(1, None)]), Audited(Yes)),
        (Counts, Counted(0, 0)),
    ]],
};

/// Two checkpoints, the second at the present number: no transaction is left, and the book continues.
const TWO: Table = Table {
    about: "a later list becomes the base, up to the present one",
    places: 1,
    slots: 64,
    last: u64::MAX,
    parts: &[&[
        (
            Commit(&[Insert(5, 50), Insert(3, 30)]),
            Accepted(1, &[Inserted, Inserted]),
        ),
        (
            Commit(&[Remove(5), Insert(4, 40)]),
            Accepted(2, &[Removed, Inserted]),
        ),
        (Checkpoint(1), Checkpointed(1)),
        (Base, Based(1, &[(3, 30), (5, 50)])),
        (Checkpoint(1), Checkpointed(1)),
        (Base, Based(1, &[(3, 30), (5, 50)])),
        (Checkpoint(2), Checkpointed(2)),
        (Base, Based(2, &[(3, 30), (4, 40)])),
        (Checkpoint(2), Checkpointed(2)),
        (Checkpoint(0), Behind(2)),
        (Checkpoint(3), Ahead(2)),
        (
            Audit(2, &[Listed(Unbounded, Unbounded, &[(3, 30), (4, 40)])]),
            Audited(Yes),
        ),
        (Audit(1, &[]), Audited(TooOld(2))),
        (CommitOn(2, &[], &[Insert(6, 60)]), Accepted(3, &[Inserted])),
        (
            Audit(2, &[Listed(Unbounded, Unbounded, &[(3, 30), (4, 40)])]),
            Audited(Yes),
        ),
        (
            Audit(
                3,
                &[Listed(Unbounded, Unbounded, &[(3, 30), (4, 40), (6, 60)])],
            ),
            Audited(Yes),
        ),
        (Checkpoint(3), Checkpointed(3)),
        (Base, Based(3, &[(3, 30), (4, 40), (6, 60)])),
        (Counts, Counted(3, 3)),
    ]],
};

/// A checkpoint before a commit that removes all pairs, one at it, and one behind it.
const AROUND_A_CLEARING: Table = Table {
    about: "a base before a clearing, at it and behind it",
    places: 1,
    slots: 64,
    last: u64::MAX,
    parts: &[&[
        (Commit(&[Insert(1, 10)]), Accepted(1, &[Inserted])),
        (
            Commit(&[Upsert(9, 90), Clear, Insert(2, 20)]),
            Accepted(2, &[Upserted, Cleared, Inserted]),
        ),
        (Commit(&[Insert(3, 30)]), Accepted(3, &[Inserted])),
        (Checkpoint(1), Checkpointed(1)),
        (Base, Based(1, &[(1, 10)])),
        (
            Audit(3, &[Listed(Unbounded, Unbounded, &[(2, 20), (3, 30)])]),
            Audited(Yes),
        ),
        (Audit(2, &[Got(2, Some(20))]), Audited(Yes)),
        (Audit(1, &[Got(1, Some(10))]), Audited(Yes)),
        (Checkpoint(2), Checkpointed(2)),
        (Base, Based(2, &[(2, 20)])),
        (Checkpoint(3), Checkpointed(3)),
        (Base, Based(3, &[(2, 20), (3, 30)])),
    ]],
};

/// Reads made below the base conflict if and only if they no longer hold of the present list.
const BELOW: Table = Table {
    about: "a commit on a receipt below the base is tested by answers",
    places: 1,
    slots: 64,
    last: u64::MAX,
    parts: &[&[
        (Commit(&[Upsert(1, 10)]), Accepted(1, &[Upserted])),
        (Commit(&[Upsert(1, 11)]), Accepted(2, &[Upserted])),
        (Commit(&[Upsert(1, 12)]), Accepted(3, &[Upserted])),
        (Checkpoint(3), Checkpointed(3)),
        (CommitOn(1, &[Got(1, Some(10))], &[]), Refused(Conflict(0))),
        (
            CommitOn(1, &[Got(1, Some(12)), Got(2, None)], &[Upsert(1, 10)]),
            Accepted(4, &[Upserted]),
        ),
        (
            CommitOn(1, &[Got(1, Some(10))], &[Insert(2, 20)]),
            Accepted(5, &[Inserted]),
        ),
        (Audit(1, &[Got(1, Some(10))]), Audited(TooOld(3))),
        (Audit(4, &[Got(1, Some(10))]), Audited(Yes)),
    ]],
};

/// What came behind a number, before a checkpoint and afterwards.
pub const FED: Table = Table {
    about: "the transactions behind a number are told",
    places: 1,
    slots: 64,
    last: u64::MAX,
    parts: &[&[
        (Since(0), Fed(&[])),
        (Since(1), Unfed(SinceRefused::Ahead(0))),
        (Commit(&[Insert(1, 10)]), Accepted(1, &[Inserted])),
        (
            CommitOn(
                1,
                &[Got(1, Some(10)), Got(2, None)],
                &[Upsert(1, 11), Remove(1)],
            ),
            Accepted(2, &[Upserted, Removed]),
        ),
        (Commit(&[]), Accepted(3, &[])),
        (
            Since(0),
            Fed(&[
                (&[Insert(1, 10)], &[Inserted]),
                (&[Upsert(1, 11), Remove(1)], &[Upserted, Removed]),
                (&[], &[]),
            ]),
        ),
        (
            Since(1),
            Fed(&[
                (&[Upsert(1, 11), Remove(1)], &[Upserted, Removed]),
                (&[], &[]),
            ]),
        ),
        (Since(3), Fed(&[])),
        (Since(4), Unfed(SinceRefused::Ahead(3))),
        (Checkpoint(2), Checkpointed(2)),
        (Since(1), Unfed(SinceRefused::TooOld(2))),
        (Since(2), Fed(&[(&[], &[])])),
        (Since(3), Fed(&[])),
        (Counts, Counted(3, 0)),
        (Commit(&[]), Accepted(4, &[])),
        (Since(3), Fed(&[(&[], &[])])),
        (Since(2), Fed(&[(&[], &[]), (&[], &[])])),
    ]],
};

/// The last number is two, which a checkpoint doesn't move.
pub const CUT_AT_THE_LAST_NUMBER: Table = Table {
    about: "a checkpoint keeps the last number",
    places: 1,
    slots: 64,
    last: 2,
    parts: &[&[
        (Commit(&[Insert(1, 10)]), Accepted(1, &[Inserted])),
        (Commit(&[Upsert(1, 11)]), Accepted(2, &[Upserted])),
        (Checkpoint(2), Checkpointed(2)),
        (CommitOn(2, &[], &[Upsert(1, 12)]), Refused(Exhausted)),
        (Base, Based(2, &[(1, 11)])),
        (Counts, Counted(2, 1)),
    ]],
};

/// Of segments of any width.
pub const CHECKPOINTS: &[Table] = &[BY_NUMBER, OF_NOTHING, TWO, AROUND_A_CLEARING, BELOW];
