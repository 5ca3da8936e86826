//! Slots and reclaiming, all writes with their replies, sessions that outlast commits, and careless use: a session that stays
//! open, and segments as wide as they may be.

use crate::scene::Scene;
use crate::table::Call::{
    Audit, Close, Commit, CommitOn, InsertEven, InsertTo, Len, Look, Open, Reclaim, Rounds, Slots,
    UpsertOdd,
};
use crate::table::Claim::Got;
use crate::table::Told::{
    Accepted, All, AtMost, Audited, Closed, Done, NoPlace, Opened, Refused, Seen,
};
use crate::table::{ROOMY, Table, Told, first_wrong};
use index_rows::AUDITS;
use local_index::Audit::{Unknown, Yes};
use local_index::Cause::{Conflict, Exhausted, NoSlot};
use local_index::Reply::{Absent, Cleared, Duplicate, Inserted, RangeRemoved, Removed, Upserted};
use local_index::Write::{self, Clear, Insert, Remove, RemoveRange, Upsert};
use std::alloc::Global;
use std::ops::Bound::{Excluded, Included, Unbounded};
use std::process::Abort;

// Inserts of five keys, each its own value.
const FIVE: &[Write<u64, u64>] = &[
    Insert(1, 1),
    Insert(2, 2),
    Insert(3, 3),
    Insert(4, 4),
    Insert(5, 5),
];

// Of two pairs in a segment.
const OF_TWO: &[Table] = &[
    Table {
        about: "a commit without slots changes nothing",
        slots: 4,
        parts: &[&[
            // three segments and a directory don't fit beside the empty version
            (Commit(FIVE), Refused(NoSlot)),
            (Slots, Told::Slots(1)),
            (Open(1), Opened(0)),
            (Look(1, 1), Seen(0, 0, None)),
            (Close(1), Closed(0, &[])),
            // one segment and a directory do
            (InsertTo(2), All(1, 2, Inserted)),
            (Slots, Told::Slots(3)),
            (Reclaim, Done),
            (Slots, Told::Slots(2)),
        ]],
        ..ROOMY
    },
    Table {
        about: "a commit takes a slot for each segment and one for the directory",
        slots: 5,
        parts: &[&[
            (Slots, Told::Slots(1)),
            (Commit(FIVE), Accepted(1, &[Inserted; 5])),
            (Slots, Told::Slots(5)),
            (Reclaim, Done),
            (Slots, Told::Slots(4)),
            // nothing is left to reclaim
            (Reclaim, Done),
            (Slots, Told::Slots(4)),
        ]],
        ..ROOMY
    },
    Table {
        about: "a version stays while its session is open",
        slots: 16,
        parts: &[&[
            (Commit(FIVE), Accepted(1, &[Inserted; 5])),
            (Reclaim, Done),
            (Slots, Told::Slots(4)),
            (Open(1), Opened(1)),
            (Open(2), NoPlace),
            (Commit(&[Clear]), Accepted(2, &[Cleared])),
            (Look(1, 1), Seen(1, 5, Some(1))),
            // what a session has isn't reclaimed
            (Reclaim, Done),
            (Slots, Told::Slots(5)),
            (Look(1, 5), Seen(1, 5, Some(5))),
            (Close(1), Closed(1, &[])),
            (Reclaim, Done),
            (Slots, Told::Slots(1)),
            (Open(2), Opened(2)),
            (Look(2, 5), Seen(2, 0, None)),
        ]],
        ..ROOMY
    },
    Table {
        about: "a session reads on while its pair is replaced",
        places: 2,
        slots: 16,
        parts: &[&[
            (
                Commit(&[Insert(1, 10), Insert(1, 11)]),
                Accepted(1, &[Inserted, Duplicate]),
            ),
            (Open(1), Opened(1)),
            (Commit(&[Upsert(1, 11)]), Accepted(2, &[Upserted])),
            (Look(1, 1), Seen(1, 1, Some(10))),
            (Open(2), Opened(2)),
            (Look(2, 1), Seen(2, 1, Some(11))),
            (Look(1, 1), Seen(1, 1, Some(10))),
            (Reclaim, Done),
            (Look(1, 1), Seen(1, 1, Some(10))),
            (Close(1), Closed(1, &[])),
            (Close(2), Closed(2, &[])),
            (Reclaim, Done),
            (Slots, Told::Slots(2)),
        ]],
        ..ROOMY
    },
    Table {
        about: "inserts, upserts and removals have their replies",
        parts: &[&[
            (
                Commit(&[
                    Insert(1, 10),
                    Insert(2, 20),
                    Insert(2, 21),
                    Upsert(2, 22),
                    Upsert(4, 40),
                    Remove(1),
                    Remove(9),
                ]),
                Accepted(
                    1,
                    &[
                        Inserted, Inserted, Duplicate, Upserted, Upserted, Removed, Absent,
                    ],
                ),
            ),
            (Open(1), Opened(1)),
            (Look(1, 1), Seen(1, 2, None)),
            (Look(1, 2), Seen(1, 2, Some(22))),
            (Look(1, 4), Seen(1, 2, Some(40))),
            (Look(1, 9), Seen(1, 2, None)),
        ]],
        ..ROOMY
    },
    Table {
        about: "ranges are removed and all is cleared",
        parts: &[&[
            (
                Commit(&[Insert(1, 1), Insert(3, 3), Insert(5, 5)]),
                Accepted(1, &[Inserted; 3]),
            ),
            // reversed bounds contain no key
            (
                Commit(&[RemoveRange(Included(8), Excluded(3))]),
                Accepted(2, &[RangeRemoved]),
            ),
            (Open(1), Opened(2)),
            (Look(1, 3), Seen(2, 3, Some(3))),
            (Close(1), Closed(2, &[])),
            (
                Commit(&[RemoveRange(Included(3), Excluded(5)), Insert(4, 4)]),
                Accepted(3, &[RangeRemoved, Inserted]),
            ),
            (Open(2), Opened(3)),
            (Look(2, 3), Seen(3, 3, None)),
            (Look(2, 4), Seen(3, 3, Some(4))),
            (Look(2, 5), Seen(3, 3, Some(5))),
            (Close(2), Closed(3, &[])),
            (
                Commit(&[Clear, Insert(7, 7), RemoveRange(Unbounded, Unbounded)]),
                Accepted(4, &[Cleared, Inserted, RangeRemoved]),
            ),
            (Open(3), Opened(4)),
            (Look(3, 7), Seen(4, 0, None)),
        ]],
        ..ROOMY
    },
    // The causes come in an order: a conflict, the last number, and slots only then.
    Table {
        about: "slots are the last cause",
        slots: 4,
        last: 1,
        parts: &[&[
            (CommitOn(0, &[Got(1, Some(10))], FIVE), Refused(Conflict(0))),
            (Commit(FIVE), Refused(NoSlot)),
            (Commit(&[]), Accepted(1, &[])),
            (Commit(FIVE), Refused(Exhausted)),
        ]],
        ..ROOMY
    },
];

// Of one pair in a segment.
const OF_ONE: &[Table] = &[
    Table {
        about: "each pair takes a slot where segments have one",
        slots: 16,
        parts: &[&[
            (InsertTo(3), All(1, 3, Inserted)),
            (Slots, Told::Slots(5)),
            (Reclaim, Done),
            (Slots, Told::Slots(4)),
        ]],
        ..ROOMY
    },
    // What was retired is reclaimed as the third guard behind it opens that finds a raised epoch. Each guard raises it as it
    // closes, so that the first one of all finds none. The segment that a version held is retired as that is reclaimed.
    Table {
        about: "a reclaim goes on round by round",
        slots: 16,
        parts: &[
            &[
                (Commit(&[Insert(1, 1)]), Accepted(1, &[Inserted])),
                (Rounds(3), Told::Slots(3)),
                (Rounds(1), Told::Slots(2)),
            ],
            &[
                (Commit(&[Upsert(1, 7)]), Accepted(2, &[Upserted])),
                (Rounds(2), Told::Slots(4)),
                (Rounds(1), Told::Slots(3)),
                (Rounds(2), Told::Slots(3)),
                (Rounds(1), Told::Slots(2)),
            ],
            // a session keeps what it reads, whatever the rounds
            &[
                (Open(1), Opened(2)),
                (Commit(&[Clear]), Accepted(3, &[Cleared])),
                (Rounds(4), Told::Slots(3)),
                (Look(1, 1), Seen(2, 1, Some(7))),
            ],
        ],
        ..ROOMY
    },
    // Segments that no write touches are taken over: in each of a hundred segments one pair, and one of them is made anew.
    Table {
        about: "a commit takes slots for what it touches",
        slots: 105,
        parts: &[&[
            (InsertTo(100), All(1, 100, Inserted)),
            (Reclaim, Done),
            (Slots, Told::Slots(101)),
            (Open(1), Opened(1)),
            (Commit(&[Upsert(50, 51)]), Accepted(2, &[Upserted])),
            (Slots, AtMost(104)),
            (Look(1, 50), Seen(1, 100, Some(50))),
            (Look(1, 51), Seen(1, 100, Some(51))),
            (Close(1), Closed(1, &[])),
            (Reclaim, Done),
            (Slots, Told::Slots(101)),
            (Open(2), Opened(2)),
            (Look(2, 50), Seen(2, 100, Some(51))),
            (Look(2, 49), Seen(2, 100, Some(49))),
        ]],
        ..ROOMY
    },
    // One session on the empty list keeps every version behind it: each commit takes two slots, and none is given back.
    Table {
        about: "a session that stays open keeps the versions behind it",
        slots: 8,
        parts: &[
            &[
                (Open(1), Opened(0)),
                (Commit(&[Upsert(1, 1)]), Accepted(1, &[Upserted])),
                (Slots, Told::Slots(3)),
                (Commit(&[Upsert(1, 2)]), Accepted(2, &[Upserted])),
                (Slots, Told::Slots(5)),
                (Commit(&[Upsert(1, 3)]), Accepted(3, &[Upserted])),
                (Slots, Told::Slots(7)),
                (Commit(&[Upsert(1, 4)]), Refused(NoSlot)),
                (Slots, Told::Slots(7)),
                (Audit(3, &[]), Audited(Yes)),
                (Audit(4, &[]), Audited(Unknown)),
                (Len(1), Told::Len(0)),
            ],
            &[
                (Close(1), Closed(0, &[])),
                (Reclaim, Done),
                (Slots, Told::Slots(2)),
                (Commit(&[Upsert(1, 4)]), Accepted(4, &[Upserted])),
            ],
        ],
        ..ROOMY
    },
];

// Of as many pairs in a segment as it may have.
const OF_225: &[Table] = &[
    Table {
        about: "225 pairs lie in one segment",
        slots: 8,
        parts: &[&[
            (InsertTo(225), All(1, 225, Inserted)),
            (Reclaim, Done),
            (Slots, Told::Slots(2)),
        ]],
        ..ROOMY
    },
    Table {
        about: "226 pairs lie in two segments",
        slots: 8,
        parts: &[&[
            (InsertTo(226), All(1, 226, Inserted)),
            (Reclaim, Done),
            (Slots, Told::Slots(3)),
        ]],
        ..ROOMY
    },
];

// What a commit takes where some of a hundred slots are in use: how many pairs there are, each in a segment of its own, how
// many writes there are, each of which splits one, and how many slots are in use then, or none where the commit is refused.
const SPLITS: &[(&str, u64, u64, Option<usize>)] = &[
    ("a commit of nothing takes one slot", 98, 0, Some(100)),
    ("one write takes three slots", 96, 1, Some(100)),
    ("one write hasn't three slots", 97, 1, None),
    ("three writes take seven slots", 92, 3, Some(100)),
    ("three writes haven't seven slots", 93, 3, None),
    ("twenty writes take 41 slots", 58, 20, Some(100)),
    ("twenty writes haven't 41 slots", 59, 20, None),
];

// Whether a commit takes so many slots, or is refused.
fn is_split<R: Abort>(
    rt: &R,
    alloc: Global,
    pairs: u64,
    writes: u64,
    wanted: Option<usize>,
) -> bool {
    let mut scene = Scene::<1>::new(rt, alloc, 1, 100, u64::MAX);
    let used = (pairs as usize).saturating_add(1);
    let told = match wanted {
        Some(_) => All(2, writes as usize, Upserted),
        None => Refused(NoSlot),
    };
    let right = [
        scene.answers(InsertEven(pairs), All(1, pairs as usize, Inserted)),
        scene.answers(Reclaim, Done),
        scene.answers(Slots, Told::Slots(used)),
        scene.answers(UpsertOdd(writes), told),
        scene.answers(Slots, Told::Slots(wanted.unwrap_or(used))),
    ];
    scene.end(rt);
    right == [true; 5]
}

#[test]
fn commits_take_slots_and_reclaims_free_them(rt: HostRuntime) {
    assert_eq!(rt; first_wrong::<_, 1>(&rt, rt.alloc(), OF_ONE), None);
    assert_eq!(rt; first_wrong::<_, 1>(&rt, rt.alloc(), AUDITS), None);
    assert_eq!(rt; first_wrong::<_, 2>(&rt, rt.alloc(), OF_TWO), None);
    assert_eq!(rt; first_wrong::<_, 225>(&rt, rt.alloc(), OF_225), None);
    for (about, pairs, writes, wanted) in SPLITS {
        let right = is_split(&rt, rt.alloc(), *pairs, *writes, *wanted);
        assert!(rt; right, "{about}");
    }
}
