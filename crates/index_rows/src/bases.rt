//! Lists that an index is to begin with, and what it answers then.

use crate::calls::Call::{
    self, Audit, Checkpoint, Close, Commit, CommitOn, Counts, Len, Look, Open, Reclaim, Slots,
};
use crate::calls::Row;
use crate::calls::Told::{
    self, Accepted, Ahead, Audited, Based, Behind, Checkpointed, Closed, Counted, Done, Opened,
    Refused, Seen,
};
use crate::claims::Claim::{Got, Listed};
use serial_history::Audit::{TooOld, Unknown, Yes};
use serial_history::Cause::{Conflict, Exhausted, NoSlot};
use serial_history::Reply::{Inserted, Upserted};
use serial_history::Write::{Insert, Upsert};
use std::ops::Bound::Unbounded;

/// Five pairs, which lie in three segments of two pairs at most.
pub const FIVE: &[(u64, u64)] = &[(1, 10), (2, 20), (3, 30), (4, 40), (5, 50)];

/// Why no index begins with a list.
#[derive(Clone, Copy, PartialEq, Eq)]
pub enum NoBase {
    /// The key of the pair at this place isn't above the one before it.
    NotAscending(usize),
    NoSlot,
}

/// A number of slots for each kind of index. A segment takes one in an index of one thread, and a row of segments in one that
/// threads share.
#[derive(Clone, Copy)]
pub struct SlotCounts {
    pub local: usize,
    pub shared: usize,
}

/// A place with room for several versions of a few pairs.
const ROOMY: SlotCounts = SlotCounts {
    local: 16,
    shared: 16,
};

/// The empty version takes one.
const ONE: SlotCounts = SlotCounts {
    local: 1,
    shared: 1,
};

/// The five pairs take three segments, in one row, and their version.
const FOR_FIVE: SlotCounts = SlotCounts {
    local: 4,
    shared: 2,
};

/// What is answered where an index is to begin with a list.
#[derive(Clone, Copy)]
pub enum Begun {
    /// So many slots are in use then, and the index answers these calls. One that has sessions of its own answers those of the
    /// second table, too, on another index.
    With(SlotCounts, &'static [Row], &'static [Row]),
    /// There is no index, and the pairs are returned.
    Not(NoBase),
}

/// A number and its list, how many slots an index of it is to have, and what is answered.
#[derive(Clone, Copy)]
pub struct BaseCase {
    pub number: u64,
    pub pairs: &'static [(u64, u64)],
    pub slots: SlotCounts,
    pub told: Begun,
}

const JUST_ENOUGH: BaseCase = BaseCase {
    number: 7,
    pairs: FIVE,
    slots: FOR_FIVE,
    told: Begun::With(
        FOR_FIVE,
        &[
            (Counts, Counted(7, 5)),
            (Call::Base, Based(7, FIVE)),
            (Audit(6, &[]), Audited(TooOld(7))),
            (
                Audit(7, &[Listed(Unbounded, Unbounded, FIVE)]),
                Audited(Yes),
            ),
            (Audit(8, &[]), Audited(Unknown)),
            (Commit(&[Upsert(1, 11)]), Refused(NoSlot)),
            (Counts, Counted(7, 5)),
        ],
        &[
            (Open(1), Opened(7)),
            (Len(1), Told::Len(5)),
            (Look(1, 4), Seen(7, 5, Some(40))),
            (Commit(&[Upsert(1, 11)]), Refused(NoSlot)),
            (Slots, Told::Slots(4)),
        ],
    ),
};

const ONE_TOO_FEW: BaseCase = BaseCase {
    number: 7,
    pairs: FIVE,
    slots: SlotCounts {
        local: 3,
        shared: 1,
    },
    told: Begun::Not(NoBase::NoSlot),
};

const WITH_ROOM: BaseCase = BaseCase {
    number: 7,
    pairs: FIVE,
    slots: ROOMY,
    told: Begun::With(
        FOR_FIVE,
        &[
            (
                CommitOn(7, &[Got(1, Some(10))], &[Upsert(1, 11)]),
                Accepted(8, &[Upserted]),
            ),
            (Counts, Counted(8, 5)),
            (
                CommitOn(7, &[Got(1, Some(10))], &[Upsert(1, 12)]),
                Refused(Conflict(0)),
            ),
            (Audit(6, &[Got(1, Some(10))]), Audited(TooOld(7))),
            (Audit(7, &[Got(1, Some(10))]), Audited(Yes)),
            (Audit(8, &[Got(1, Some(11))]), Audited(Yes)),
            (Call::Base, Based(7, FIVE)),
            (Checkpoint(6), Behind(7)),
            (Checkpoint(9), Ahead(8)),
            (Checkpoint(8), Checkpointed(8)),
            (
                Call::Base,
                Based(8, &[(1, 11), (2, 20), (3, 30), (4, 40), (5, 50)]),
            ),
            (Audit(7, &[Got(1, Some(10))]), Audited(TooOld(8))),
            (Reclaim, Done),
            (Commit(&[Insert(6, 60)]), Accepted(9, &[Inserted])),
            (Audit(9, &[Got(6, Some(60))]), Audited(Yes)),
            (Counts, Counted(9, 6)),
        ],
        &[
            (Commit(&[Upsert(1, 11)]), Accepted(8, &[Upserted])),
            (Open(1), Opened(8)),
            (Look(1, 1), Seen(8, 5, Some(11))),
            (Slots, Told::Slots(6)),
            (Close(1), Closed(8, &[])),
            (Reclaim, Done),
            (Slots, Told::Slots(4)),
        ],
    ),
};

const TWICE_A_KEY: BaseCase = BaseCase {
    number: 7,
    pairs: &[(1, 10), (3, 30), (3, 31)],
    slots: ROOMY,
    told: Begun::Not(NoBase::NotAscending(2)),
};

const TURNED: BaseCase = BaseCase {
    number: 7,
    pairs: &[(2, 20), (1, 10)],
    slots: ROOMY,
    told: Begun::Not(NoBase::NotAscending(1)),
};

/// Where several causes are there, the order of the keys comes first.
const TURNED_AND_TOO_FEW: BaseCase = BaseCase {
    number: 7,
    pairs: &[(1, 10), (2, 20), (9, 90), (4, 40), (3, 30)],
    slots: ONE,
    told: Begun::Not(NoBase::NotAscending(3)),
};

const OF_NOTHING: BaseCase = BaseCase {
    number: 0,
    pairs: &[],
    slots: ONE,
    told: Begun::With(
        ONE,
        &[
            (Counts, Counted(0, 0)),
            (Call::Base, Based(0, &[])),
            (Audit(0, &[Got(1, None)]), Audited(Yes)),
            (Audit(1, &[]), Audited(Unknown)),
        ],
        &[(Open(1), Opened(0)), (Look(1, 1), Seen(0, 0, None))],
    ),
};

/// All pairs are gone, and the number isn't.
const EMPTIED: BaseCase = BaseCase {
    number: 3,
    pairs: &[],
    slots: ROOMY,
    told: Begun::With(
        ONE,
        &[
            (Audit(2, &[]), Audited(TooOld(3))),
            (
                CommitOn(3, &[Got(1, None)], &[Insert(1, 10)]),
                Accepted(4, &[Inserted]),
            ),
            (Counts, Counted(4, 1)),
        ],
        &[],
    ),
};

const LAST_NUMBER: BaseCase = BaseCase {
    number: u64::MAX,
    pairs: FIVE,
    slots: ROOMY,
    told: Begun::With(
        FOR_FIVE,
        &[
            (Commit(&[Upsert(1, 11)]), Refused(Exhausted)),
            (Audit(u64::MAX, &[Got(1, Some(10))]), Audited(Yes)),
            (Counts, Counted(u64::MAX, 5)),
        ],
        &[
            (Open(1), Opened(u64::MAX)),
            (Commit(&[Upsert(1, 11)]), Refused(Exhausted)),
            (Look(1, 1), Seen(u64::MAX, 5, Some(10))),
        ],
    ),
};

/// Of segments of two pairs at most.
pub const BASES: &[BaseCase] = &[
    JUST_ENOUGH,
    ONE_TOO_FEW,
    WITH_ROOM,
    TWICE_A_KEY,
    TURNED,
    TURNED_AND_TOO_FEW,
    OF_NOTHING,
    EMPTIED,
    LAST_NUMBER,
];
