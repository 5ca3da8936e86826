//! Lists of calls of a desk, played at once.

use crate::scene::Scene;
use crate::table::Call::{
    AuditOf, Close, Commit, CommitOf, CommitOn, Len, Number, Open, Read, Reclaim, Slots,
};
use crate::table::Claim::{self, Got, Has, Listed, Smaller};
use crate::table::Told::{
    Accepted, Audited, Busy, Closed, Done, Holds, NoPlace, NoSession, Opened, Refused,
};
use crate::table::{Row, Told, desk_call, is_told};
use local_index::Reply::Inserted;
use local_index::{Audit, Cause, DeskCall, DeskReply};
use local_versions::Write::Insert;
use std::alloc::{AllocError, Global};
use std::ops::Bound::Unbounded;

// The calls of a table, from a row on.
fn calls(alloc: Global, rows: &[Row], from: usize) -> Result<Vec<DeskCall<u64, u64>>, AllocError> {
    let mut calls = Vec::new(alloc);
    for row in rows.iter().skip(from) {
        calls.push(desk_call(alloc, row.0)?)?;
    }
    Ok(calls)
}

// How many replies are those that are wanted from a row on, before the first that isn't.
fn right(
    alloc: Global,
    replies: &[DeskReply<u64, u64>],
    rows: &[Row],
    from: usize,
) -> Result<usize, AllocError> {
    let mut right = 0usize;
    for (reply, row) in replies.iter().zip(rows.iter().skip(from)) {
        if !is_told(alloc, reply, row.0, row.1)? {
            return Ok(right);
        }
        right = right.saturating_add(1);
    }
    Ok(right)
}

/// Plays the calls of a table as one list, and those from the one on that was refused memory again, as if that had not been:
/// whether all replies are wanted.
pub(crate) fn is_played(scene: &mut Scene<2>, rows: &[Row]) -> Result<bool, AllocError> {
    let all = calls(scene.alloc, rows, 0)?;
    let replies = match scene.replies(all) {
        Ok(replies) => return Ok(right(scene.alloc, &replies, rows, 0)? == rows.len()),
        Err((replies, AllocError)) => replies,
    };
    scene.met = true;
    let done = right(scene.alloc, &replies, rows, 0)?;
    let rest = calls(scene.alloc, rows, done)?;
    match scene.replies(rest) {
        Ok(others) => {
            let more = right(scene.alloc, &others, rows, done)?;
            Ok(done.saturating_add(more) == rows.len())
        }
        Err((_others, AllocError)) => Err(AllocError),
    }
}

// Lists of calls, each for an index with two places and sixteen slots.
const LISTS: &[&[Row]] = &[
    // slots are used by commits and reclaimed
    &[
        (Slots, Told::Slots(1)),
        (Commit(&[Insert(1, 10)]), Accepted(1, &[Inserted])),
        (Commit(&[Insert(2, 20)]), Accepted(2, &[Inserted])),
        (Slots, Told::Slots(5)),
        (Reclaim, Done),
        (Slots, Told::Slots(2)),
    ],
    // number and length are those of the session
    &[
        (Commit(&[Insert(1, 10)]), Accepted(1, &[Inserted])),
        (Open(7), Opened(1)),
        (Commit(&[Insert(2, 20)]), Accepted(2, &[Inserted])),
        (Open(8), Opened(2)),
        (Number(7), Told::Number(1)),
        (Len(7), Told::Len(1)),
        (Number(8), Told::Number(2)),
        (Len(8), Told::Len(2)),
        (Number(9), NoSession),
        (Len(9), NoSession),
    ],
    // each reply is met but those of memory
    &[
        (Commit(&[Insert(1, 10)]), Accepted(1, &[Inserted])),
        (Open(7), Opened(1)),
        (Open(7), Busy),
        (Open(8), Opened(1)),
        (Open(9), NoPlace),
        (Read(9, Got(1, Some(10))), NoSession),
        (CommitOf(8, &[Insert(2, 20)]), Accepted(2, &[Inserted])),
        (Read(7, Got(2, None)), Holds),
        (Read(8, Got(1, Some(10))), Holds),
        (Close(8), Closed(1, &[Got(1, Some(10))])),
        (Open(9), Opened(2)),
        (Read(9, Got(2, Some(20))), Holds),
        (Read(9, Has(3, false)), Holds),
        (Read(9, BOTH), Holds),
        (Read(9, Smaller(3, (2, 20))), Holds),
        (AuditOf(9), Audited(Audit::Yes)),
        (AuditOf(8), NoSession),
        (
            CommitOn(0, &[Got(2, None)], &[Insert(3, 30)]),
            Refused(Cause::Conflict(0)),
        ),
        (CommitOf(8, &[Insert(3, 30)]), NoSession),
        (Close(8), NoSession),
    ],
];

const BOTH: Claim = Listed(Unbounded, Unbounded, &[(1, 10), (2, 20)]);

#[test]
fn a_list_of_calls_is_played_by_labels(rt: HostRuntime) {
    for at in 0..LISTS.len() {
        let mut scene = Scene::new(&rt, rt.alloc(), 2, 16, u64::MAX);
        let right = is_played(&mut scene, LISTS[at]);
        scene.end(&rt);
        assert!(rt; right == Ok(true), "list {at}");
    }
}
