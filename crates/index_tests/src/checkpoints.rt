//! Checkpoints: what becomes of numbers, sessions, audits, conflicts and slots.

use crate::reads::{
    COMMIT_1, COMMIT_2, COMMIT_3, COMMIT_4, COMMIT_5, COMMIT_6, COMMITS_FROM_2, LIST_0, LIST_1,
    LIST_2, LIST_3, LIST_4, LIST_5, LIST_6,
};
use crate::table::Call::{
    Audit, AuditOf, Base, Checkpoint, Close, Commit, CommitOf, Len, Look, Number, Open, Read,
    Reclaim, Slots,
};
use crate::table::Claim::Got;
use crate::table::Told::{
    Accepted, Ahead, Audited, Based, Behind, Checkpointed, Closed, Done, Holds, Opened, Refused,
    Seen,
};
use crate::table::{ROOMY, Row, Table, Told, first_wrong};
use index_rows::{CHECKPOINTS, CUT_AT_THE_LAST_NUMBER, FED};
use local_index::Audit::{No, TooOld, Unknown, Yes};
use local_index::Cause::{Conflict, Exhausted};
use local_index::Reply::Upserted;
use local_index::Write::Upsert;

// The key 1 is 10, 11 and 12 by the numbers 1, 2 and 3, and a session reads it at the first.
const TEN: Row = (Commit(&[Upsert(1, 10)]), Accepted(1, &[Upserted]));

const ELEVEN: Row = (Commit(&[Upsert(1, 11)]), Accepted(2, &[Upserted]));

const TWELVE: Row = (Commit(&[Upsert(1, 12)]), Accepted(3, &[Upserted]));

// Audits of each number from a base on.
const FROM_3: &[Row] = &[
    (Audit(2, &[LIST_2]), Audited(TooOld(3))),
    (Audit(3, &[LIST_3]), Audited(Yes)),
    (Audit(4, &[LIST_4]), Audited(Yes)),
    (Audit(5, &[LIST_5]), Audited(Yes)),
    (Audit(6, &[LIST_6]), Audited(Yes)),
    (Audit(3, &[LIST_2]), Audited(No(0))),
    (Audit(5, &[LIST_6]), Audited(No(0))),
    (Audit(7, &[LIST_6]), Audited(Unknown)),
];

const FROM_5: &[Row] = &[
    (Audit(0, &[LIST_0]), Audited(TooOld(5))),
    (Audit(4, &[LIST_4]), Audited(TooOld(5))),
    (Audit(5, &[LIST_5]), Audited(Yes)),
    (Audit(6, &[LIST_6]), Audited(Yes)),
    (Audit(5, &[LIST_4]), Audited(No(0))),
    (Audit(6, &[LIST_5]), Audited(No(0))),
];

const TABLES: &[Table] = &[
    Table {
        about: "the list of a number becomes the base",
        slots: 16,
        parts: &[&[
            TEN,
            (Open(1), Opened(1)),
            (Read(1, Got(1, Some(10))), Holds),
            ELEVEN,
            TWELVE,
            (Base, Based(0, &[])),
            (Slots, Told::Slots(7)),
            (Checkpoint(4), Ahead(3)),
            (Base, Based(0, &[])),
            (Checkpoint(2), Checkpointed(2)),
            (Base, Based(2, &[(1, 11)])),
            (Slots, Told::Slots(7)),
            (Checkpoint(1), Behind(2)),
            (Base, Based(2, &[(1, 11)])),
            (Look(1, 1), Seen(1, 1, Some(10))),
            (AuditOf(1), Audited(TooOld(2))),
            (Audit(2, &[Got(1, Some(11))]), Audited(Yes)),
            (Audit(4, &[]), Audited(Unknown)),
            (CommitOf(1, &[]), Refused(Conflict(0))),
            (Commit(&[]), Accepted(4, &[])),
            (Close(1), Closed(1, &[Got(1, Some(10))])),
        ]],
        ..ROOMY
    },
    // The base's number is that of a session, another session is below it, and a third one above.
    Table {
        about: "sessions below, at and above a checkpoint read on",
        places: 3,
        slots: 32,
        parts: &[&[
            TEN,
            (Open(1), Opened(1)),
            (Read(1, Got(1, Some(10))), Holds),
            ELEVEN,
            (Open(2), Opened(2)),
            (Read(2, Got(1, Some(11))), Holds),
            (Checkpoint(2), Checkpointed(2)),
            TWELVE,
            (Open(3), Opened(3)),
            (Read(3, Got(1, Some(12))), Holds),
            (Number(1), Told::Number(1)),
            (Len(1), Told::Len(1)),
            (Look(1, 1), Seen(1, 1, Some(10))),
            (Look(2, 1), Seen(2, 1, Some(11))),
            (AuditOf(1), Audited(TooOld(2))),
            (AuditOf(2), Audited(Yes)),
            (AuditOf(3), Audited(Yes)),
            (Audit(3, &[Got(1, Some(11))]), Audited(No(0))),
            (Close(1), Closed(1, &[Got(1, Some(10))])),
            (Close(2), Closed(2, &[Got(1, Some(11))])),
            (Close(3), Closed(3, &[Got(1, Some(12))])),
            (Audit(2, &[Got(1, Some(11))]), Audited(Yes)),
            (Audit(2, &[Got(1, Some(12))]), Audited(No(0))),
            (Reclaim, Done),
            (Slots, Told::Slots(2)),
            (Base, Based(2, &[(1, 11)])),
        ]],
        ..ROOMY
    },
    Table {
        about: "the present list can become the base, and each later one",
        slots: 32,
        last: 3,
        parts: &[&[
            (Checkpoint(0), Checkpointed(0)),
            (Checkpoint(1), Ahead(0)),
            TEN,
            (Checkpoint(1), Checkpointed(1)),
            (Base, Based(1, &[(1, 10)])),
            (Checkpoint(1), Checkpointed(1)),
            (Checkpoint(0), Behind(1)),
            ELEVEN,
            TWELVE,
            (Checkpoint(3), Checkpointed(3)),
            (Base, Based(3, &[(1, 12)])),
            (Open(1), Opened(3)),
            (Look(1, 1), Seen(3, 1, Some(12))),
            (Commit(&[]), Refused(Exhausted)),
            (Checkpoint(2), Behind(3)),
            (Checkpoint(4), Ahead(3)),
            (AuditOf(1), Audited(Yes)),
            (Audit(3, &[Got(1, Some(12))]), Audited(Yes)),
            (Audit(u64::MAX, &[]), Audited(Unknown)),
        ]],
        ..ROOMY
    },
    // The fourth commit removes all pairs. A session is at the first number, below each base.
    Table {
        about: "a base before a clearing, and one behind it",
        parts: &[
            &[COMMIT_1, (Open(1), Opened(1))],
            COMMITS_FROM_2,
            &[
                (Checkpoint(1), Checkpointed(1)),
                (Base, Based(1, &[(1, 10)])),
                (Audit(0, &[LIST_0]), Audited(TooOld(1))),
                (Audit(1, &[LIST_1]), Audited(Yes)),
                (Checkpoint(3), Checkpointed(3)),
                (Base, Based(3, &[(2, 21)])),
            ],
            FROM_3,
            &[(Close(1), Closed(1, &[]))],
            FROM_3,
            &[
                (Checkpoint(5), Checkpointed(5)),
                (Base, Based(5, &[(5, 50), (6, 60)])),
            ],
            FROM_5,
        ],
        ..ROOMY
    },
    // A session is at a later number than the base, so that lists are made again from what it reads.
    Table {
        about: "a base behind a session and a base before it",
        parts: &[
            &[COMMIT_1, COMMIT_2, COMMIT_3, COMMIT_4],
            &[
                (Open(1), Opened(4)),
                COMMIT_5,
                COMMIT_6,
                (Checkpoint(3), Checkpointed(3)),
                (Base, Based(3, &[(2, 21)])),
            ],
            FROM_3,
            &[
                (Checkpoint(5), Checkpointed(5)),
                (Base, Based(5, &[(5, 50), (6, 60)])),
                (Look(1, 5), Seen(4, 1, Some(50))),
            ],
            FROM_5,
        ],
        ..ROOMY
    },
    FED,
    CUT_AT_THE_LAST_NUMBER,
];

#[test]
fn checkpoints_drop_what_came_before(rt: HostRuntime) {
    assert_eq!(rt; first_wrong::<_, 2>(&rt, rt.alloc(), TABLES), None);
    assert_eq!(rt; first_wrong::<_, 2>(&rt, rt.alloc(), CHECKPOINTS), None);
}
