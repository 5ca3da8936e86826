//! Reads of the first pairs of a range, and of the last: what conflicts with them, and what lies beyond them.

use crate::table::Call::{Audit, Close, Commit, CommitOn, Open, Read};
use crate::table::Claim::{Firsts, Lasts, Listed};
use crate::table::Told::{Accepted, Audited, Closed, Holds, Opened, Refused};
use crate::table::{Claim, ROOMY, Row, Table, first_wrong};
use local_index::Audit::{No, Yes};
use local_index::Cause::Conflict;
use local_index::Reply::{Cleared, Inserted, Removed, Upserted};
use local_index::Write::{self, Clear, Insert, Remove, Upsert};
use std::ops::Bound::{Excluded, Included, Unbounded};

const TENS: &[Write<u64, u64>] = &[
    Insert(10, 1),
    Insert(20, 2),
    Insert(30, 3),
    Insert(40, 4),
    Insert(50, 5),
];

// Five pairs, which lie in three segments.
const MADE: Row = (Commit(TENS), Accepted(1, &[Inserted; 5]));

const PAIRS: &[(u64, u64)] = &[(10, 1), (20, 2), (30, 3), (40, 4), (50, 5)];

// The head of a queue: its first two pairs.
const HEAD: Claim = Firsts(Unbounded, Unbounded, 2, &[(10, 1), (20, 2)]);

// The top of a list: its last two pairs.
const TAIL: Claim = Lasts(Unbounded, Unbounded, 2, &[(40, 4), (50, 5)]);

// The pairs above 10 and up to 40: three, of which one, none, and more than there are are asked for.
const ONE: Claim = Firsts(Excluded(10), Included(40), 1, &[(20, 2)]);

const NONE: Claim = Firsts(Excluded(10), Included(40), 0, &[]);

const THREE: Claim = Firsts(Excluded(10), Included(40), 3, &[(20, 2), (30, 3), (40, 4)]);

const MORE: Claim = Firsts(Excluded(10), Included(40), 9, &[(20, 2), (30, 3), (40, 4)]);

const ALL: Claim = Firsts(Unbounded, Unbounded, usize::MAX, PAIRS);

const REVERSED: Claim = Firsts(Included(40), Included(10), 2, &[]);

// The same of the last ones.
const ONE_BACK: Claim = Lasts(Excluded(10), Included(40), 1, &[(40, 4)]);

const NONE_BACK: Claim = Lasts(Excluded(10), Included(40), 0, &[]);

const THREE_BACK: Claim = Lasts(Excluded(10), Excluded(50), 3, &[(20, 2), (30, 3), (40, 4)]);

const MORE_BACK: Claim = Lasts(Excluded(10), Included(40), 9, &[(20, 2), (30, 3), (40, 4)]);

const ALL_BACK: Claim = Lasts(Unbounded, Unbounded, usize::MAX, PAIRS);

const REVERSED_BACK: Claim = Lasts(Excluded(20), Excluded(20), 2, &[]);

const COUNT: &[Claim] = &[ONE, NONE, THREE, MORE, ALL, REVERSED];

const BACK: &[Claim] = &[
    ONE_BACK,
    NONE_BACK,
    THREE_BACK,
    MORE_BACK,
    ALL_BACK,
    REVERSED_BACK,
];

// Answers that are too short, too long, of other pairs, or of pairs past the bound.
const SHORT: Claim = Firsts(Unbounded, Unbounded, 2, &[(10, 1)]);

const LONG: Claim = Firsts(Unbounded, Unbounded, 1, &[(10, 1), (20, 2)]);

const OF_THE_END: Claim = Firsts(Unbounded, Unbounded, 2, &[(40, 4), (50, 5)]);

const PAST: Claim = Firsts(Unbounded, Excluded(20), 2, &[(10, 1), (20, 2)]);

const SOME: Claim = Firsts(Unbounded, Unbounded, 0, &[(10, 1)]);

const SHORT_BACK: Claim = Lasts(Unbounded, Unbounded, 2, &[(50, 5)]);

const LONG_BACK: Claim = Lasts(Unbounded, Unbounded, 1, &[(40, 4), (50, 5)]);

const OF_THE_START: Claim = Lasts(Unbounded, Unbounded, 2, &[(10, 1), (20, 2)]);

const PAST_BACK: Claim = Lasts(Excluded(40), Unbounded, 2, &[(40, 4), (50, 5)]);

const FALLING: Claim = Lasts(Unbounded, Unbounded, 2, &[(50, 5), (40, 4)]);

const SOME_BACK: Claim = Lasts(Unbounded, Unbounded, 0, &[(50, 5)]);

// Where a whole range is read, a pair behind the first ones conflicts.
const WHOLE: Claim = Listed(
    Unbounded,
    Included(40),
    &[(10, 1), (20, 2), (30, 3), (40, 4)],
);

const TABLES: &[Table] = &[
    Table {
        about: "what is written behind the last of the first pairs is no conflict",
        parts: &[&[
            MADE,
            (Open(1), Opened(1)),
            (Read(1, HEAD), Holds),
            (Close(1), Closed(1, &[HEAD])),
            (Commit(&[Upsert(25, 0)]), Accepted(2, &[Upserted])),
            (Commit(&[Upsert(30, 0)]), Accepted(3, &[Upserted])),
            (Commit(&[Remove(25)]), Accepted(4, &[Removed])),
            (CommitOn(1, &[HEAD], &[]), Accepted(5, &[])),
            (Audit(1, &[HEAD]), Audited(Yes)),
            (Audit(3, &[HEAD]), Audited(Yes)),
        ]],
        ..ROOMY
    },
    Table {
        about: "what is written among the first pairs is a conflict",
        parts: &[&[
            MADE,
            (Open(1), Opened(1)),
            (Read(1, HEAD), Holds),
            (Close(1), Closed(1, &[HEAD])),
            (Commit(&[Upsert(15, 0)]), Accepted(2, &[Upserted])),
            (CommitOn(1, &[HEAD], &[]), Refused(Conflict(0))),
            (Audit(1, &[HEAD]), Audited(Yes)),
            (Audit(2, &[HEAD]), Audited(No(0))),
            (Commit(&[Remove(15)]), Accepted(3, &[Removed])),
            (CommitOn(1, &[HEAD], &[]), Accepted(4, &[])),
            (Commit(&[Upsert(20, 0)]), Accepted(5, &[Upserted])),
            (CommitOn(1, &[HEAD], &[]), Refused(Conflict(0))),
            (Commit(&[Remove(10)]), Accepted(6, &[Removed])),
            (CommitOn(1, &[HEAD], &[]), Refused(Conflict(0))),
        ]],
        ..ROOMY
    },
    Table {
        about: "what is written before the first of the last pairs is no conflict, and what is among them is one",
        parts: &[
            &[
                MADE,
                (Open(1), Opened(1)),
                (Read(1, TAIL), Holds),
                (Close(1), Closed(1, &[TAIL])),
                (Commit(&[Upsert(35, 0)]), Accepted(2, &[Upserted])),
                (Commit(&[Upsert(30, 0)]), Accepted(3, &[Upserted])),
                (Commit(&[Remove(35)]), Accepted(4, &[Removed])),
                (CommitOn(1, &[TAIL], &[]), Accepted(5, &[])),
                (Audit(1, &[TAIL]), Audited(Yes)),
                (Audit(3, &[TAIL]), Audited(Yes)),
            ],
            &[
                (Commit(&[Upsert(45, 0)]), Accepted(6, &[Upserted])),
                (CommitOn(1, &[TAIL], &[]), Refused(Conflict(0))),
                (Audit(1, &[TAIL]), Audited(Yes)),
                (Audit(6, &[TAIL]), Audited(No(0))),
                (Commit(&[Remove(45)]), Accepted(7, &[Removed])),
                (CommitOn(1, &[TAIL], &[]), Accepted(8, &[])),
                (Commit(&[Upsert(60, 0)]), Accepted(9, &[Upserted])),
                (CommitOn(1, &[TAIL], &[]), Refused(Conflict(0))),
            ],
        ],
        ..ROOMY
    },
    Table {
        about: "so many are read as are asked for, or all",
        parts: &[&[
            MADE,
            (Open(1), Opened(1)),
            (Read(1, ONE), Holds),
            (Read(1, NONE), Holds),
            (Read(1, THREE), Holds),
            (Read(1, MORE), Holds),
            (Read(1, ALL), Holds),
            (Read(1, REVERSED), Holds),
            (Close(1), Closed(1, COUNT)),
            (CommitOn(1, COUNT, &[]), Accepted(2, &[])),
            (Audit(1, COUNT), Audited(Yes)),
        ]],
        ..ROOMY
    },
    Table {
        about: "so many of the last ones are read as are asked for, or all",
        parts: &[&[
            MADE,
            (Open(1), Opened(1)),
            (Read(1, ONE_BACK), Holds),
            (Read(1, NONE_BACK), Holds),
            (Read(1, THREE_BACK), Holds),
            (Read(1, MORE_BACK), Holds),
            (Read(1, ALL_BACK), Holds),
            (Read(1, REVERSED_BACK), Holds),
            (Close(1), Closed(1, BACK)),
            (CommitOn(1, BACK, &[]), Accepted(2, &[])),
            (Audit(1, BACK), Audited(Yes)),
            (Commit(&[Upsert(15, 0)]), Accepted(3, &[Upserted])),
            (CommitOn(1, BACK, &[]), Refused(Conflict(3))),
        ]],
        ..ROOMY
    },
    Table {
        about: "fewer pairs than are asked for are all of the range",
        parts: &[&[
            MADE,
            (Commit(&[Upsert(45, 0)]), Accepted(2, &[Upserted])),
            (CommitOn(1, &[THREE, MORE], &[]), Accepted(3, &[])),
            (Commit(&[Remove(40)]), Accepted(4, &[Removed])),
            (Commit(&[Upsert(40, 4)]), Accepted(5, &[Upserted])),
            (Commit(&[Upsert(39, 0)]), Accepted(6, &[Upserted])),
            (CommitOn(1, &[ONE, MORE], &[]), Refused(Conflict(1))),
            (Commit(&[Clear]), Accepted(7, &[Cleared])),
            (
                CommitOn(1, &[NONE, REVERSED, ONE], &[]),
                Refused(Conflict(2)),
            ),
        ]],
        ..ROOMY
    },
    Table {
        about: "forged answers conflict",
        places: 0,
        parts: &[&[
            MADE,
            (CommitOn(1, &[SHORT], &[]), Refused(Conflict(0))),
            (CommitOn(1, &[LONG], &[]), Refused(Conflict(0))),
            (CommitOn(1, &[OF_THE_END], &[]), Refused(Conflict(0))),
            (CommitOn(1, &[PAST], &[]), Refused(Conflict(0))),
            (CommitOn(1, &[SOME], &[]), Refused(Conflict(0))),
            (CommitOn(1, &[SHORT_BACK], &[]), Refused(Conflict(0))),
            (CommitOn(1, &[LONG_BACK], &[]), Refused(Conflict(0))),
            (CommitOn(1, &[OF_THE_START], &[]), Refused(Conflict(0))),
            (CommitOn(1, &[PAST_BACK], &[]), Refused(Conflict(0))),
            (CommitOn(1, &[FALLING], &[]), Refused(Conflict(0))),
            (CommitOn(1, &[SOME_BACK], &[]), Refused(Conflict(0))),
            (Audit(1, &[SHORT]), Audited(No(0))),
            (Audit(1, &[HEAD, LONG]), Audited(No(1))),
            (Audit(1, &[TAIL, FALLING]), Audited(No(1))),
        ]],
        ..ROOMY
    },
    Table {
        about: "a range conflicts where its first pairs don't",
        places: 0,
        parts: &[&[
            MADE,
            (
                CommitOn(1, &[WHOLE, HEAD], &[Upsert(35, 0)]),
                Accepted(2, &[Upserted]),
            ),
            (CommitOn(1, &[WHOLE], &[]), Refused(Conflict(0))),
            (CommitOn(1, &[HEAD], &[]), Accepted(3, &[])),
        ]],
        ..ROOMY
    },
];

#[test]
fn the_first_and_the_last_pairs_of_a_range_are_read_and_tested(rt: HostRuntime) {
    assert_eq!(rt; first_wrong::<_, 2>(&rt, rt.alloc(), TABLES), None);
}

// Head and tail are read where memory may be refused, and audited once their list is kept no longer.
pub(crate) const REFUSED: Table = Table {
    about: "no end of a range is recorded",
    places: 2,
    slots: 16,
    parts: &[&[
        MADE,
        (Open(1), Opened(1)),
        (Read(1, HEAD), Holds),
        (Read(1, TAIL), Holds),
        (Commit(&[Upsert(15, 0)]), Accepted(2, &[Upserted])),
        (Close(1), Closed(1, &[HEAD, TAIL])),
        (Audit(1, &[HEAD, TAIL]), Audited(Yes)),
    ]],
    ..ROOMY
};
