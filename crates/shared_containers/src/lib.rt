//! Containers over a place that threads share: stacks, queues and bags without locks.
//!
//! [`Links`] have a cell for each slot of a place, in which is what follows the item of that slot. A
//! [`Stack`](stack::Stack) is one cell more, which owns the first item; a [`Queue`](queue::Queue) has two; a
//! [`Bag`](bag::Bag) has a row of cells that own an item each, and a stack for what has no room there.
#![tactic(auto)]

mod back;
pub mod bag;
mod copies;
mod front;
pub mod iter;
mod moves;
pub mod outcome;
pub mod queue;
pub mod stack;

pub use shared_lists::Links;
