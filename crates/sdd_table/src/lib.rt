//! The layer below a place of one thread: its store, and what reclaims in it.
//!
//! A [`Table`] keeps items, jobs and cells in numbered places, and what each participant notes of itself. Clauses see it as a
//! `State`, and each step of [`reclaim`] as a function of states. Owners and cells are numbers of it, which a place makes
//! and spends by [`tokens`]. `sdd_world` makes the place of them, `World`, and passes on what its users name.
#![tactic(auto)]

mod bags;
pub mod cell;
pub mod groups;
pub mod holds;
pub mod job;
mod keeping;
pub mod link;
pub mod loaded;
pub mod owner;
pub mod plain;
pub mod private_bag;
pub mod reclaim;
pub mod status;
pub mod store;
pub mod table;
pub mod tokens;

pub use cell::{AtomicOwned, AtomicShared};
pub use groups::{Group, GroupName};
pub use holds::{Held, Holds, KeepsRow};
pub use job::{Deferred, Job, NoJob, Task};
pub use link::Link;
pub use loaded::Loaded;
pub use owner::{Kept, Owned, Shared};
pub use plain::Plain;
pub use private_bag::PrivateBag;
pub use sdd_plain::{Epoch, LocalState, Sizes, Tag, epoch, sizes, tag};
pub use store::Store;
pub use table::Table;
