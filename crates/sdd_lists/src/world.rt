//! The calls over a `World`.

pub mod chain;
pub mod entries;
pub mod linked_entry;
pub mod linked_list;
