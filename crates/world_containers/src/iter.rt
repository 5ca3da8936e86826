//! Walks along the containers.

use crate::linked_entry::LinkedEntry;
use sdd_world::link::Link;

/// The position of a walk along a queue or a stack: behind what it gave. It is plain data, and ends.
#[derive(Drop)]
pub struct Iter<T> {
    pub(crate) at: Link<LinkedEntry<T>>,
}
