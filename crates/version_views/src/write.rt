//! Changes of a list of pairs, and the replies to them.

use std::ops::Bound;
use thiserror::Error;

/// A change of a list of pairs.
#[derive(Clone, Debug, PartialEq, Eq, Drop)]
pub enum Write<K, V> {
    /// Adds the pair where no pair has its key, and else leaves the list.
    Insert(K, V),
    /// Puts the pair in, in the place of the one that has its key, if there is one.
    Upsert(K, V),
    /// Removes the pair with this key.
    Remove(K),
    /// Removes the pairs whose keys lie within two bounds. Reversed bounds contain none.
    RemoveRange(Bound<K>, Bound<K>),
    /// Removes all pairs.
    Clear,
}

/// The reply to a [`Write`].
#[derive(Clone, Copy, Debug, PartialEq, Eq)]
pub enum Reply {
    /// The pair was added.
    Inserted,
    /// Its key was there, and the list stayed.
    Duplicate,
    /// The pair was put in.
    Upserted,
    /// The pair was there, and is removed.
    Removed,
    /// No pair had the key, and the list stayed.
    Absent,
    /// No pair lies within the bounds any more.
    RangeRemoved,
    /// No pair is left.
    Cleared,
}

/// Why a store of versions refused writes. It is as it was before.
#[derive(Clone, Copy, Debug, PartialEq, Eq, Error)]
pub enum WriteRefused {
    /// A growth or a clone was refused.
    #[error("memory was refused; the list is as it was")]
    Memory,
    /// Too few slots are free for the version that the writes leave.
    #[error("too few slots are free; the list is as it was")]
    NoSlot,
}
