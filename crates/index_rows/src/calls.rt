//! Calls of an index as data, so that a test of many calls is a table.

use crate::claims::Claim;
use serial_history::{Accepted, Audit, Cause, Reply, SinceRefused, Transaction, Write};
use std::alloc::{AllocError, Global};

/// A call of an index. A session is named by its label, a receipt is its number and what it claims.
#[derive(Clone, Copy)]
pub enum Call {
    Open(u64),
    Close(u64),
    /// The number and the length of a session's list, and the value of a key there, by look-ups that aren't recorded.
    Look(u64, u64),
    /// A read that is recorded, with the answer that is wanted.
    Read(u64, Claim),
    Number(u64),
    Len(u64),
    /// A commit on no reads, one on those of a receipt, and one on those of a session.
    Commit(&'static [Write<u64, u64>]),
    CommitOn(u64, &'static [Claim], &'static [Write<u64, u64>]),
    CommitOf(u64, &'static [Write<u64, u64>]),
    /// A commit of inserts of the keys from 1 to this one, each its own value; of this many even keys, from 2 on; and of
    /// upserts of this many odd keys, from 1 on, with the value 7.
    InsertTo(u64),
    InsertEven(u64),
    UpsertOdd(u64),
    /// An audit of a receipt, and one of what a session read.
    Audit(u64, &'static [Claim]),
    AuditOf(u64),
    Reclaim,
    /// This many rounds of it.
    Rounds(u64),
    Slots,
    Checkpoint(u64),
    /// A look at the base, at the transactions behind a number, and at the number and the length of the present list.
    Base,
    Since(u64),
    Counts,
    /// The number of the base, and the present one.
    Numbers,
}

/// What a transaction wrote, and its replies. What it read, contracts alone see.
pub type Entry = (&'static [Write<u64, u64>], &'static [Reply]);

/// What a call answers.
#[derive(Clone, Copy)]
pub enum Told {
    Done,
    Opened(u64),
    NoPlace,
    Busy,
    /// No session has the label, and the writes of a commit are returned.
    NoSession,
    /// The number of the receipt, and its reads.
    Closed(u64, &'static [Claim]),
    Seen(u64, usize, Option<u64>),
    /// The answer that the read names.
    Holds,
    Number(u64),
    Len(usize),
    Accepted(u64, &'static [Reply]),
    /// This many writes that were accepted, each with this reply.
    All(u64, usize, Reply),
    /// The writes are returned.
    Refused(Cause),
    Audited(Audit),
    Slots(usize),
    AtMost(usize),
    Checkpointed(u64),
    Behind(u64),
    Ahead(u64),
    /// The number of the base, and its pairs.
    Based(u64, &'static [(u64, u64)]),
    /// The transactions behind a number, or why they aren't returned.
    Fed(&'static [Entry]),
    Unfed(SinceRefused),
    /// The number, and how many pairs there are.
    Counted(u64, usize),
    Numbered(u64, u64),
}

/// A row of a table: a call, and what it answers.
pub type Row = (Call, Told);

/// What is done with a new index.
#[derive(Clone, Copy)]
pub struct Table {
    pub about: &'static str,
    /// How many sessions there may be at once, and slots.
    pub places: usize,
    pub slots: usize,
    /// The last number.
    pub last: u64,
    pub parts: &'static [&'static [Row]],
}

/// One of the writes that are named by how many there are.
fn write_at(call: Call, place: u64) -> Write<u64, u64> {
    let even = place.saturating_mul(2);
    match call {
        Call::InsertEven(_) => Write::Insert(even, even),
        Call::UpsertOdd(_) => Write::Upsert(even.saturating_sub(1), 7),
        _ => Write::Insert(place, place),
    }
}

/// The writes of a call, where it is a commit.
pub fn writes_of(alloc: Global, call: Call) -> Result<Vec<Write<u64, u64>>, AllocError> {
    let count = match call {
        Call::Commit(writes) | Call::CommitOn(_, _, writes) | Call::CommitOf(_, writes) => {
            return Vec::from_clones(alloc, writes);
        }
        Call::InsertTo(count) | Call::InsertEven(count) | Call::UpsertOdd(count) => count,
        _ => 0,
    };
    let mut writes = Vec::new(alloc);
    for place in 1..=count {
        writes.push(write_at(call, place))?;
    }
    Ok(writes)
}

/// Whether a commit answers this.
pub fn is_accepted(accepted: &Accepted, number: u64, replies: &[Reply]) -> bool {
    accepted.number == number && accepted.replies.as_slice() == replies
}

/// Whether a transaction wrote this, with these replies.
fn is_entry(transaction: &Transaction<u64, u64>, entry: Entry) -> bool {
    transaction.writes.as_slice() == entry.0 && transaction.replies.as_slice() == entry.1
}

/// Whether transactions are these.
pub fn is_fed(fed: &[Transaction<u64, u64>], entries: &[Entry]) -> bool {
    let mut alike = fed.len() == entries.len();
    for (transaction, entry) in fed.iter().zip(entries) {
        alike = is_entry(transaction, *entry) && alike;
    }
    alike
}
