//! Linked lists of items of a place, and entries of values to hang there.
//!
//! An item with a link is a [`LinkedList`](linked_list::LinkedList): a list of these items hangs from a cell, and clauses
//! see it as its `Entry`s in order, each with its slot, the cell of its link and its tag. A [`LinkedEntry`] is a value with
//! a link. The calls on entries that a pointer names are in [`world::linked_list`], and single changes of a list in
//! [`world::chain`], of which `world_containers` makes its containers. It re-exports what its users name, but not `chain` and `entries`.
//!
//! A deleted entry stays linked until it is passed at the front of its list, since `next_ptr` only reads.
#![tactic(auto)]

pub mod linked_entry;
pub mod linked_list;
pub mod refusal;
pub mod world;

pub use linked_entry::LinkedEntry;
pub use linked_list::LinkedList;
pub use refusal::NotMade;
