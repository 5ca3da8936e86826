//! Last in, first out.

use crate::linked_entry::LinkedEntry;
use sdd_world::cell::AtomicShared;

/// A stack of values, each in an entry of its own. It takes one cell, and must be consumed by `retire`.
pub struct Stack<T> {
    pub(crate) newest: AtomicShared<LinkedEntry<T>>,
}
