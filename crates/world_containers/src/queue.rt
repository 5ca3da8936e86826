//! First in, first out.

use crate::linked_entry::LinkedEntry;
use sdd_world::cell::AtomicShared;

/// A queue of values, each in an entry of its own. It takes two cells, and must be consumed by `retire`.
pub struct Queue<T> {
    pub(crate) oldest: AtomicShared<LinkedEntry<T>>,
    pub(crate) newest: AtomicShared<LinkedEntry<T>>,
}
