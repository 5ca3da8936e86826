//! Audits of receipts, of the present list and of older ones.

use crate::calls::Call::{Audit, Commit, CommitOn, Counts};
use crate::calls::Table;
use crate::calls::Told::{Accepted, Audited, Counted, Refused};
use crate::claims::Claim::{self, Between, Exact, Got, Has, Listed, Mixed};
use serial_history::Audit::{No, Unknown, Yes};
use serial_history::Cause::Conflict;
use serial_history::Reply::{Cleared, Inserted, Upserted};
use serial_history::Write::{Clear, Insert, Upsert};
use std::ops::Bound::{Excluded, Included, Unbounded};

/// A key is 10 by number 1, 11 by number 2, and 10 again by number 3.
const BY_NUMBER: Table = Table {
    about: "an audit looks at the list of the number",
    places: 1,
    slots: 64,
    last: u64::MAX,
    parts: &[&[
        (Audit(0, &[]), Audited(Yes)),
        (Audit(0, &[Got(1, None)]), Audited(Yes)),
        (Audit(0, &[Got(1, Some(10))]), Audited(No(0))),
        (Audit(1, &[Got(1, None)]), Audited(Unknown)),
        (Audit(1, &[Got(1, Some(10))]), Audited(Unknown)),
        (Commit(&[Insert(1, 10)]), Accepted(1, &[Inserted])),
        (Commit(&[Upsert(1, 11)]), Accepted(2, &[Upserted])),
        (Commit(&[Upsert(1, 10)]), Accepted(3, &[Upserted])),
        (Audit(0, &[Got(1, None)]), Audited(Yes)),
        (Audit(1, &[Got(1, Some(10))]), Audited(Yes)),
        (Audit(1, &[Got(1, Some(11))]), Audited(No(0))),
        (Audit(2, &[Got(1, Some(11))]), Audited(Yes)),
        (Audit(2, &[Got(1, Some(10))]), Audited(No(0))),
        (Audit(3, &[Got(1, Some(10))]), Audited(Yes)),
        (Audit(3, &[Got(1, Some(11))]), Audited(No(0))),
        (Audit(4, &[Got(1, Some(10))]), Audited(Unknown)),
        (Counts, Counted(3, 1)),
        (Audit(9, &[]), Audited(Unknown)),
    ]],
};

/// Reads of each kind, of the list after the first of three commits; the second removes all pairs.
const EACH_KIND: Table = Table {
    about: "reads of each kind are audited",
    places: 1,
    slots: 64,
    last: u64::MAX,
    parts: &[&[
        (
            Commit(&[Insert(3, 1), Insert(5, 2)]),
            Accepted(1, &[Inserted, Inserted]),
        ),
        (
            Commit(&[Clear, Insert(7, 3)]),
            Accepted(2, &[Cleared, Inserted]),
        ),
        (Commit(&[Insert(9, 4)]), Accepted(3, &[Inserted])),
        (
            Audit(
                1,
                &[
                    Listed(Unbounded, Unbounded, &[(3, 1), (5, 2)]),
                    Has(3, true),
                    Between(4, (3, 1), (5, 2)),
                ],
            ),
            Audited(Yes),
        ),
        (
            Audit(
                1,
                &[
                    Listed(Unbounded, Unbounded, &[(3, 1), (5, 2)]),
                    Has(3, true),
                    Between(4, (3, 1), (5, 2)),
                    Exact(7, (7, 3)),
                ],
            ),
            Audited(No(3)),
        ),
        (
            Audit(
                2,
                &[
                    Listed(Unbounded, Unbounded, &[(3, 1), (5, 2)]),
                    Has(3, true),
                    Between(4, (3, 1), (5, 2)),
                    Exact(7, (7, 3)),
                ],
            ),
            Audited(No(0)),
        ),
        (
            Audit(2, &[Listed(Unbounded, Unbounded, &[(7, 3)])]),
            Audited(Yes),
        ),
        (Audit(3, &[Mixed(9, true)]), Audited(No(0))),
    ]],
};

// An answer of another kind, pairs in another order, and pairs within reversed bounds.
const KIND: Claim = Mixed(1, true);

const TURNED: Claim = Listed(Included(1), Included(2), &[(2, 2), (1, 1)]);

const REVERSED: Claim = Listed(Included(8), Excluded(1), &[(2, 2)]);

/// Nothing is trusted of a receipt: neither a claim nor an answer of another kind. A number that isn't reached is no reason to
/// refuse a commit.
const FORGED: Table = Table {
    about: "forged receipts conflict and audit no, or are of no number",
    places: 1,
    slots: 64,
    last: u64::MAX,
    parts: &[&[
        (
            Commit(&[Insert(1, 1), Insert(2, 2)]),
            Accepted(1, &[Inserted, Inserted]),
        ),
        (CommitOn(0, &[KIND], &[]), Refused(Conflict(0))),
        (CommitOn(1, &[KIND], &[]), Refused(Conflict(0))),
        (Audit(0, &[KIND]), Audited(No(0))),
        (Audit(1, &[KIND]), Audited(No(0))),
        (CommitOn(1, &[TURNED], &[]), Refused(Conflict(0))),
        (CommitOn(1, &[REVERSED], &[]), Refused(Conflict(0))),
        (Audit(9, &[]), Audited(Unknown)),
        (CommitOn(9, &[Got(2, Some(2))], &[]), Accepted(2, &[])),
        (CommitOn(9, &[], &[Upsert(1, 2)]), Accepted(3, &[Upserted])),
        (Audit(9, &[]), Audited(Unknown)),
        (Counts, Counted(3, 2)),
    ]],
};

/// Of segments of any width.
pub const AUDITS: &[Table] = &[BY_NUMBER, EACH_KIND, FORGED];
