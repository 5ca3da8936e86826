//! The calls over a `World`.

pub mod bag;
mod copies;
pub mod into_iter;
pub mod iter;
pub mod iter_mut;
pub mod queue;
mod row;
pub mod stack;
mod tail;

pub use sdd_lists::world::{linked_entry, linked_list};
