//! Commits that are refused: nothing changes, the share does not count them, and the writes are returned.

use crate::table::{on_a_small_book, on_books};
use index_rows::Call::{Audit, Commit, Counts, Reclaim, Rounds};
use index_rows::Claim::Got;
use index_rows::Told::{Accepted, Audited, Counted, Done, Refused, Slots};
use index_rows::{CONFLICTS, LAST_NUMBER, Table};
use serial_history::Audit::Yes;
use serial_history::Cause::NoSlot;
use serial_history::Reply::{Inserted, Upserted};
use version_views::Write::{Insert, Upsert};

/// Five slots, a pair a segment: a version takes two, and so do the one before it and the one that waits.
const FEW_SLOTS: Table = Table {
    about: "a version waits, and its slots are wanted",
    places: 0,
    slots: 5,
    last: u64::MAX,
    parts: &[&[
        (Commit(&[Insert(1, 10)]), Accepted(1, &[Inserted])),
        (Commit(&[Upsert(1, 11)]), Accepted(2, &[Upserted])),
        (Commit(&[Upsert(1, 12)]), Refused(NoSlot)),
        (Counts, Counted(2, 1)),
        (Audit(2, &[Got(1, Some(11))]), Audited(Yes)),
        (Reclaim, Done),
        (Counts, Counted(2, 1)),
        (Commit(&[Upsert(1, 12)]), Accepted(3, &[Upserted])),
        (Counts, Counted(3, 1)),
        (Audit(3, &[Got(1, Some(12))]), Audited(Yes)),
    ]],
};

/// A round too few leaves a version that waits, and its segment is reclaimed by rounds of its own: eight suffice.
const ROUND_BY_ROUND: Table = Table {
    about: "a round too few leaves a version that waits",
    places: 0,
    slots: 5,
    last: u64::MAX,
    parts: &[&[
        (Commit(&[Insert(1, 10)]), Accepted(1, &[Inserted])),
        (Rounds(8), Slots(2)),
        (Commit(&[Upsert(1, 11)]), Accepted(2, &[Upserted])),
        (Commit(&[Upsert(1, 12)]), Refused(NoSlot)),
        // the fifth has the segment that the refused commit placed
        (Rounds(1), Slots(5)),
        (Rounds(7), Slots(2)),
        (Commit(&[Upsert(1, 12)]), Accepted(3, &[Upserted])),
        (Audit(3, &[Got(1, Some(12))]), Audited(Yes)),
    ]],
};

#[test]
fn the_first_read_that_does_not_hold_is_a_conflict(rt: HostRuntime) {
    on_books(&rt, rt.alloc(), CONFLICTS);
}

#[test]
fn without_numbers_or_slots_commits_are_refused(rt: HostRuntime) {
    on_books(&rt, rt.alloc(), &[LAST_NUMBER]);
    on_a_small_book(&rt, rt.alloc(), &FEW_SLOTS);
    on_a_small_book(&rt, rt.alloc(), &ROUND_BY_ROUND);
}
