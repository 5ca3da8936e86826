//! Calls of an index as data, by a desk that keeps its sessions, so that a test of many calls is a table.

use crate::scene::Scene;
use index_rows::{answer, query, receipt};
pub(crate) use index_rows::{Call, Claim, Row, Table, Told, writes_of};
use local_index::{Accepted, DeskCall, DeskReply, Query, ReadSet, Refused, Reply};
use std::alloc::{AllocError, Global};
use std::process::Abort;

/// An empty table, with room for all that it does.
pub(crate) const ROOMY: Table = Table {
    about: "",
    places: 1,
    slots: 64,
    last: u64::MAX,
    parts: &[],
};

// The reads that a call rests on.
fn reads_of(alloc: Global, call: Call) -> Result<ReadSet<u64, u64>, AllocError> {
    Ok(match call {
        Call::CommitOn(number, claims, _) | Call::Audit(number, claims) => ReadSet::Receipt(receipt(
            alloc, number, claims,
        )?),
        Call::CommitOf(label, _) | Call::AuditOf(label) => ReadSet::Session(label),
        _ => ReadSet::Empty,
    })
}

/// The call of a desk that this is. A look-up that isn't recorded is none, and asks what a recorded one does; a look at the base,
/// the transactions behind it or the present list is none, nor are rounds of a reclaim: they ask for the slots.
pub(crate) fn desk_call(alloc: Global, call: Call) -> Result<DeskCall<u64, u64>, AllocError> {
    Ok(match call {
        Call::Open(label) => DeskCall::Open(label),
        Call::Close(label) => DeskCall::Close(label),
        Call::Look(label, key) => DeskCall::Get(label, key),
        Call::Read(label, claim) => read_of(label, query(claim)),
        Call::Number(label) => DeskCall::Number(label),
        Call::Len(label) => DeskCall::Len(label),
        Call::Audit(_, _) | Call::AuditOf(_) => DeskCall::Audit(reads_of(alloc, call)?),
        Call::Reclaim => DeskCall::Reclaim,
        Call::Checkpoint(upto) => DeskCall::Checkpoint(upto),
        Call::Slots
        | Call::Base
        | Call::Since(_)
        | Call::Counts
        | Call::Numbers
        | Call::Rounds(_) => DeskCall::Slots,
        _ => DeskCall::Commit(reads_of(alloc, call)?, writes_of(alloc, call)?),
    })
}

/// The call that asks this.
pub(crate) fn read_of(label: u64, query: Query<u64>) -> DeskCall<u64, u64> {
    match query {
        Query::Get(key) => DeskCall::Get(label, key),
        Query::Contains(key) => DeskCall::Contains(label, key),
        Query::Range(lower, upper) => DeskCall::Range(label, lower, upper),
        Query::Locate(key) => DeskCall::Locate(label, key),
        Query::First(lower, upper, count) => DeskCall::First(label, lower, upper, count),
        Query::Last(lower, upper, count) => DeskCall::Last(label, lower, upper, count),
    }
}

// The reply of a commit, or of a call that has memory handed back.
fn wanted_of_memory(
    alloc: Global,
    call: Call,
    told: Told,
) -> Result<DeskReply<u64, u64>, AllocError> {
    Ok(match told {
        Told::Closed(number, claims) => DeskReply::Closed(receipt(alloc, number, claims)?),
        Told::Accepted(number, replies) => DeskReply::Accepted(Accepted {
            number,
            replies: Vec::from_clones(alloc, replies)?,
        }),
        Told::All(number, count, reply) => DeskReply::Accepted(Accepted {
            number,
            replies: vec![in alloc; reply; count]?,
        }),
        Told::Refused(cause) => DeskReply::Refused(Refused {
            cause,
            writes: writes_of(alloc, call)?,
        }),
        _ => DeskReply::NoSession(writes_of(alloc, call)?),
    })
}

/// The reply that is wanted.
pub(crate) fn wanted(
    alloc: Global,
    call: Call,
    told: Told,
) -> Result<DeskReply<u64, u64>, AllocError> {
    Ok(match (told, call) {
        (Told::Holds, Call::Read(_, claim)) => DeskReply::Answer(answer(alloc, claim)?),
        (Told::Done, _) => DeskReply::Reclaimed,
        (Told::NoPlace, _) => DeskReply::NoPlace,
        (Told::Busy, _) => DeskReply::Busy,
        (Told::Opened(number), _) => DeskReply::Opened(number),
        (Told::Number(number), _) => DeskReply::Number(number),
        (Told::Len(count), _) => DeskReply::Len(count),
        (Told::Slots(count), _) => DeskReply::Slots(count),
        (Told::Audited(audit), _) => DeskReply::Audit(audit),
        (Told::Checkpointed(number), _) => DeskReply::Checkpointed(number),
        (Told::Behind(number), _) => DeskReply::Behind(number),
        (Told::Ahead(number), _) => DeskReply::Ahead(number),
        _ => wanted_of_memory(alloc, call, told)?,
    })
}

/// Whether a reply is the one that is wanted.
pub(crate) fn is_told(
    alloc: Global,
    reply: &DeskReply<u64, u64>,
    call: Call,
    told: Told,
) -> Result<bool, AllocError> {
    match (reply, told) {
        (DeskReply::Slots(used), Told::AtMost(count)) => Ok(*used <= count),
        _ => Ok(*reply == wanted(alloc, call, told)?),
    }
}

/// Makes the calls of a table, in order, and returns how many answer what is wanted before the first that doesn't, and how many
/// there are.
pub(crate) fn play<const S: usize>(scene: &mut Scene<S>, parts: &[&[Row]]) -> (usize, usize) {
    let mut right = 0usize;
    let mut played = 0usize;
    for part in parts {
        for row in *part {
            if scene.answers(row.0, row.1) && right == played {
                right = right.saturating_add(1);
            }
            played = played.saturating_add(1);
        }
    }
    (right, played)
}

/// Plays tables, each on a new index with this many pairs in a segment: what the first is about that has a row that isn't
/// right, and the number of that row.
pub(crate) fn first_wrong<R: Abort, const S: usize>(
    rt: &R,
    alloc: Global,
    tables: &[Table],
) -> Option<(&'static str, usize)> {
    for table in tables {
        let mut scene = Scene::<S>::new(rt, alloc, table.places, table.slots, table.last);
        let (right, played) = play(&mut scene, table.parts);
        scene.end(rt);
        if right < played {
            return Some((table.about, right));
        }
    }
    None
}
