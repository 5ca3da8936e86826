//! The reclamation core of one thread: epochs, guards, owners, pointers and cells.
//!
//! A [`World`] keeps items in numbered slots. Owners and cells name an item; a guard that is open keeps
//! each item readable that had an owner when it was opened. What its last owner gives back waits in a bag of the
//! participant that retired it, and is reclaimed when no guard can still name it.
#![tactic(auto)]

pub mod cell;
pub mod collector;
pub mod exclusive_access;
pub mod guard;
pub mod laws;
pub mod pointer;
pub mod refusal;
pub mod world;

pub use cell::{AtomicOwned, AtomicRaw, AtomicShared};
pub use collector::PrivateCollector;
pub use exclusive_access::ExclusiveAccess;
pub use guard::WorldGuard;
pub use pointer::{Loaded, Ptr, RawPtr};
pub use refusal::{GuardsOpen, Nested, NoSlot, NotLent};
pub use sdd_table::{
    Deferred, Epoch, Group, GroupName, Held, Holds, Job, KeepsRow, Kept, Link, NoJob, Owned, Plain,
    Shared, Sizes, Tag, Task, epoch, groups, holds, job, link, owner, plain, sizes, status, tag,
};
pub use world::World;
