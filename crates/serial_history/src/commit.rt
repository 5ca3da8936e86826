//! What a commit is answered.

ghost use Rattle.std.specs.Prelude.{◌≡◌};

use thiserror::Error;
use version_views::{Reply, Write};

/// An accepted commit.
#[derive(Clone, Debug, PartialEq, Eq, Drop)]
pub struct Accepted {
    /// The number of the list that it left, one above that of the list before.
    pub number: u64,
    /// The reply to each of its writes, in order.
    pub replies: Vec<Reply>,
}

/// Why a commit was refused. The causes are decided in this order.
#[derive(Clone, Copy, Debug, PartialEq, Eq, Error)]
pub enum Cause {
    /// The first recorded read, counted from 0, whose answer isn't that of the present list.
    #[error("read {0} no longer holds")]
    Conflict(usize),
    /// The last number is reached.
    #[error("the last number is reached")]
    Exhausted,
    /// A growth or a clone was refused.
    #[error("memory was refused")]
    Memory,
    /// Too few slots are free for the new version: in an index of one thread, fewer than a version with that many pairs may
    /// take; in one that threads share, fewer than this one takes, or an item has as many owners as it can have.
    #[error("too few slots are free")]
    NoSlot,
}

/// A refused commit. The index is as it was before.
#[derive(Clone, Debug, PartialEq, Eq, Drop, Error)]
#[error("the commit was refused: {cause}; the index is as it was")]
pub struct Refused<K, V> {
    /// Why.
    pub cause: Cause,
    /// The writes, as they were handed in.
    pub writes: Vec<Write<K, V>>,
}

impl<K, V> Refused<K, V> {
    /// The writes, as they were handed in.
    pub fn into_writes(self) -> Vec<Write<K, V>>
        ensures { result ≡ self.writes }
    {
        let Refused { cause: _, writes } = self;
        writes
    }
}

/// Why a list doesn't become the base. The index is as it was before. The causes are decided in this order.
#[derive(Clone, Copy, Debug, PartialEq, Eq, Error)]
pub enum CheckpointRefused {
    /// The number is below that of the base, which this is.
    #[error("the history begins at number {0}; the index is as it was")]
    Behind(u64),
    /// The number is above the present one, which this is.
    #[error("the present number is {0}; the index is as it was")]
    Ahead(u64),
    /// A growth or a clone was refused.
    #[error("memory was refused; the index is as it was")]
    Memory,
}

/// Why a history doesn't return the transactions after a number.
#[derive(Clone, Copy, Debug, PartialEq, Eq, Error)]
pub enum SinceRefused {
    /// The number is below that of the base, which this is: some of them were dropped.
    #[error("the history begins at number {0}; the index is as it was")]
    TooOld(u64),
    /// The number is above the present one, which this is.
    #[error("the present number is {0}; the index is as it was")]
    Ahead(u64),
}
