//! What calls of containers return, as data.

use crate::replies::Reply::{Back, Done};
use world_containers::linked_entry::LinkedEntry;

/// What a call of a stack, a queue or a bag returns.
#[derive(Clone, Copy, PartialEq, Eq)]
pub(crate) enum Reply {
    Done,
    Back(u64),
    /// The value is returned since no slot or no cell is free.
    Full(u64),
    Value(Option<u64>),
    Listed(Option<u64>, Option<u64>, Option<u64>),
    Is(bool),
    Count(usize),
}

/// Whether a value was put in, or was returned.
pub(crate) fn told(pushed: Result<(), u64>) -> Reply {
    match pushed {
        Ok(()) => Done,
        Err(value) => Back(value),
    }
}

/// The value of an entry, if there is one.
pub(crate) fn value_of(entry: Option<&LinkedEntry<u64>>) -> Option<u64> {
    Some(*entry?.as_ref())
}
