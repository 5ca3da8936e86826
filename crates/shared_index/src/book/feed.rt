//! The transactions behind a number, for whoever follows an index.

ghost use Rattle.std.specs.Prelude.{◌≡◌, IfErr, IfOk, OnOk};
ghost use Rattle.leaf_array.specs.Values.{ClonesAreSame};
ghost use Rattle.serial_history.specs.Serial.{HasNumber, history_behind};
ghost use Rattle.shared_index.specs.SharedFeeds.{RefusesFeed};

use crate::book::Book;
use crate::naming::Naming;
use serial_history::transaction::copied_replies;
use serial_history::{Seq, SinceRefused, Transaction};
use std::alloc::{AllocError, Global};
use thiserror::Error;
use version_views::Write;

/// Why an index that threads share doesn't return the transactions after a number. The causes are decided in this order.
#[derive(Clone, Copy, Debug, PartialEq, Eq, Error)]
pub enum FeedRefused {
    /// The number is below that of the base, which this is: some of them were dropped.
    #[error("the history begins at number {0}; the index is as it was")]
    TooOld(u64),
    /// The number is above the present one, which this is.
    #[error("the present number is {0}; the index is as it was")]
    Ahead(u64),
    /// A growth or a clone was refused.
    #[error("memory was refused; the index is as it was")]
    Memory,
}

impl<L: Naming, K: Clone + Ord, V: Clone + Eq, const S: usize> Book<L, K, V, S> {
    /// Copies of the transactions behind a number, in order: those that lead from its list to the present one, with their writes
    /// and replies. What they read, contracts alone see.
    ///
    /// The causes are decided in this order: `TooOld`, with the base's number, where that is above the one asked for, since some
    /// of them were dropped; `Ahead`, with the present number, where that is below it; `Memory`. The first two take none.
    pub fn since(&self, number: u64) -> Result<Vec<Transaction<K, V>>, FeedRefused>
        requires keys { ClonesAreSame K.is_clone }
        requires values { ClonesAreSame V.is_clone }
        ensures told { IfOk result (λ rest. rest.items ≡ history_behind self.now.base self.now.history number) }
        ensures has { OnOk result (HasNumber self.now.base self.now.history number) }
        ensures refused { IfErr result (RefusesFeed self.now.base self.now.history number) }
    {
        let rest = match self.history.since(number) {
            Ok(rest) => rest,
            Err(SinceRefused::TooOld(first)) => return Err(FeedRefused::TooOld(first)),
            Err(SinceRefused::Ahead(present)) => return Err(FeedRefused::Ahead(present)),
        };
        match copied_all(self.alloc, rest) {
            Ok(rest) => Ok(rest),
            Err(AllocError) => Err(FeedRefused::Memory),
        }
    }
}

/// Copies of transactions. Fails only if an allocation fails.
fn copied_all<K: Clone, V: Clone>(
    alloc: Global,
    transactions: &[Transaction<K, V>],
) -> Result<Vec<Transaction<K, V>>, AllocError>
    requires keys { ClonesAreSame K.is_clone }
    requires values { ClonesAreSame V.is_clone }
    ensures { IfOk result (λ copy. copy.items ≡ transactions.now) }
{
    let mut copy = Vec::with_capacity(alloc, transactions.len())?;
    for transaction in transactions {
        copy.push(copied(alloc, transaction)?)?;
    }
    Ok(copy)
}

/// A copy of a transaction. Fails only if an allocation fails.
fn copied<K: Clone, V: Clone>(
    alloc: Global,
    transaction: &Transaction<K, V>,
) -> Result<Transaction<K, V>, AllocError>
    requires keys { ClonesAreSame K.is_clone }
    requires values { ClonesAreSame V.is_clone }
    ensures { IfOk result (λ copy. copy ≡ transaction.now) }
{
    let told = transaction.replies.as_slice();
    let room = Vec::with_capacity(alloc, told.len())?;
    let replies = copied_replies(room, told);
    let writes = copied_writes(alloc, transaction.writes.as_slice())?;
    Ok(Transaction {
        reads: transaction.reads.again(),
        writes: Seq::from_vec(writes),
        replies: Seq::from_vec(replies),
    })
}

/// Copies of writes. Fails only if an allocation fails.
fn copied_writes<K: Clone, V: Clone>(
    alloc: Global,
    writes: &[Write<K, V>],
) -> Result<Vec<Write<K, V>>, AllocError>
    requires keys { ClonesAreSame K.is_clone }
    requires values { ClonesAreSame V.is_clone }
    ensures { IfOk result (λ copy. copy.items ≡ writes.now) }
{
    let mut copy = Vec::with_capacity(alloc, writes.len())?;
    for write in writes {
        copy.push(copied_write(write)?)?;
    }
    Ok(copy)
}

/// A copy of a write. Fails only if an allocation fails.
fn copied_write<K: Clone, V: Clone>(write: &Write<K, V>) -> Result<Write<K, V>, AllocError>
    requires keys { ClonesAreSame K.is_clone }
    requires values { ClonesAreSame V.is_clone }
    ensures { IfOk result (λ copy. copy ≡ write.now) }
{
    write.clone()
}
