//! What sessions read, and what accepted commits leave behind.

ghost use Rattle.std.specs.Prelude.{◌≡◌, ◌≤◌, ◌∷◌, ◌++◌, [], IfOk, OnOk, OnErr, length, vec_capacity};
ghost use Rattle.leaf_array.specs.Values.{ClonesAreSame};
ghost use Rattle.serial_history.specs.Serial.{with_read};

use crate::query::{Answer, Query};
use crate::reads::Reads;
use crate::seq::Seq;
use std::alloc::{AllocError, Global};
use version_views::{Reply, Write};

/// A recorded read: a query, and the answer that was given to it or is claimed of it.
pub type Recorded<K, V> = (Query<K>, Answer<K, V>);

/// What a session read, and at which number: plain data, that anybody may make.
///
/// A commit takes a receipt for its reads, and trusts neither its number nor its answers: it tests
/// each answer on the present list (a read set, as optimistic concurrency control has it).
#[derive(Clone, Debug, PartialEq, Eq, Drop)]
pub struct Receipt<K, V> {
    /// The number of the list that was read.
    pub number: u64,
    /// The reads, in order.
    pub reads: Seq<Recorded<K, V>>,
}

impl<K, V> Receipt<K, V> {
    /// A receipt of number 0 without reads: a commit that rests on it conflicts with nothing.
    pub fn blank(alloc: Global) -> Self
        ensures number { result.number ≡ 0 }
        ensures reads { result.reads ≡ [] }
    {
        Receipt {
            number: 0,
            reads: Seq::new(alloc),
        }
    }
}

impl<K: Clone + Drop, V: Clone + Drop> Receipt<K, V> {
    /// Puts a read at its end, with a copy of the answer. Fails only if an allocation fails; then it stays as it was.
    pub fn note(&mut self, query: Query<K>, told: &Answer<K, V>) -> Result<(), AllocError>
        requires keys { ClonesAreSame K.is_clone }
        requires values { ClonesAreSame V.is_clone }
        ensures ok { OnOk result (self.new ≡ with_read query told.now self.old) }
        ensures err { OnErr result (self.new ≡ self.old) }
    {
        note(&mut self.reads, query, told)
    }
}

/// Puts a read at the end of recorded ones, with a copy of the answer. Fails only if an allocation fails; then they stay as they were.
pub fn note<K: Clone + Drop, V: Clone + Drop>(
    reads: &mut Seq<Recorded<K, V>>,
    query: Query<K>,
    told: &Answer<K, V>,
) -> Result<(), AllocError>
    requires keys { ClonesAreSame K.is_clone }
    requires values { ClonesAreSame V.is_clone }
    ensures ok { OnOk result (reads.new ≡ reads.old ++ (query, told.now) ∷ []) }
    ensures err { OnErr result (reads.new ≡ reads.old) }
{
    let answer = copied_answer(told)?;
    match reads.push((query, answer)) {
        Ok(()) => Ok(()),
        Err(_) => Err(AllocError),
    }
}

/// What an audit of a receipt finds.
#[derive(Clone, Copy, Debug, PartialEq, Eq)]
pub enum Audit {
    /// Each answer is that of the list of the receipt's number.
    Yes,
    /// The read at this place is the first whose answer isn't.
    No(usize),
    /// No list has that number yet.
    Unknown,
    /// The receipt's number is below that of the base, which this is: its list was dropped.
    TooOld(u64),
}

/// What an accepted commit read and wrote, with its replies: an entry of the history.
#[derive(Clone, Debug, PartialEq, Eq, Drop)]
pub struct Transaction<K, V> {
    /// The reads that it rested on, which contracts alone see.
    pub reads: Reads<K, V>,
    /// Its writes, in order.
    pub writes: Seq<Write<K, V>>,
    /// The reply to each write.
    pub replies: Seq<Reply>,
}

/// What a commit adds to the history, but for its writes: its reads, and room for its replies.
#[derive(Drop)]
pub struct Prepared<K, V> {
    /// The reads that it rests on, which contracts alone see.
    pub reads: Reads<K, V>,
    /// Nothing yet, with room.
    pub replies: Vec<Reply>,
}

/// A commit's reads, of which nothing is copied, and room for `writes` replies. Fails only if an allocation fails.
pub fn prepare<K, V>(
    alloc: Global,
    reads: &[Recorded<K, V>],
    writes: usize,
) -> Result<Prepared<K, V>, AllocError>
    ensures reads { IfOk result (λ p. p.reads ≡ reads.now) }
    ensures empty { IfOk result (λ p. p.replies.items ≡ []) }
    ensures room { IfOk result (λ p. writes ≤ vec_capacity p.replies) }
{
    Ok(Prepared {
        reads: Reads::of(reads),
        replies: Vec::with_capacity(alloc, writes)?,
    })
}

/// A copy of an answer.
fn copied_answer<K: Clone, V: Clone>(answer: &Answer<K, V>) -> Result<Answer<K, V>, AllocError>
    requires keys { ClonesAreSame K.is_clone }
    requires values { ClonesAreSame V.is_clone }
    ensures { IfOk result (λ copy. copy ≡ answer.now) }
{
    answer.clone()
}

/// Copies of replies, where room was made for them. It takes no memory.
pub fn copied_replies(mut room: Vec<Reply>, replies: &[Reply]) -> Vec<Reply>
    requires empty { room.items ≡ [] }
    requires fits { length replies.now ≤ vec_capacity room }
    ensures { result.items ≡ replies.now }
{
    for reply in replies {
        room.push_reserved(*reply);
    }
    room
}
