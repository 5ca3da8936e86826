//! Items with one owner alone, in a place that threads share, and raw pointers to them.
//!
//! An [`Owned`](owned::Owned) is the one owner of its item, by its type: it can't be cloned, and what a guard loaded of it
//! gives no further owner. An [`AtomicOwned`](atomic_owned::AtomicOwned) is a cell of these owners. An item that is handed out
//! as a raw one is kept by the [`RawItems`](raw_items::RawItems) of its place, and named by a [`RawPtr`](raw_ptr::RawPtr), which an
//! [`AtomicRaw`](atomic_raw::AtomicRaw) keeps in a word.
#![tactic(auto)]

pub mod atomic_owned;
pub mod atomic_raw;
pub mod collecting;
pub mod owned;
pub mod pointer;
pub mod raw_items;
pub mod raw_ptr;
#[cfg(test)]
mod refusals;
#[cfg(test)]
mod tests;
