//! Places that reclaim by epochs: a [`Domain`], which threads share, and a [`World`] of one thread.
//!
//! Both keep items in slots, with owners, pointers and cells, and reclaim what nobody reaches. The root has the types
//! and calls over a `Domain`; [`world`] has those over a `World`. Types of both, such as [`Tag`] and [`Sizes`], are at
//! the root. This crate is a face: it has no function of its own.
#![tactic(auto)]

pub mod world;

pub use sdd_domain::atomic_shared::AtomicShared;
pub use sdd_domain::domain::Domain;
pub use sdd_domain::guard::Guard;
pub use sdd_domain::held::Held;
pub use sdd_domain::holding::{hold_last, own_last};
pub use sdd_domain::holds::Holds;
pub use sdd_domain::laws::{
    an_owner_keeps_its_item, every_moment_is_safe, the_count_is_raised_at_most_once,
    what_is_loaded_stays,
};
pub use sdd_domain::local::Local;
pub use sdd_domain::plain::Plain;
pub use sdd_domain::pointer::{Loaded, Named, Ptr};
pub use sdd_domain::private_collector::PrivateCollector;
pub use sdd_domain::refusal::RegisterRefused;
pub use sdd_domain::shared::Shared;
pub use sdd_plain::{Epoch, LocalState, Nested, NoSlot, Sizes, Tag, epoch, sizes, tag};
pub use sdd_world::{
    Deferred, ExclusiveAccess, GuardsOpen, Job, NoJob, NotLent, Task, World, WorldGuard, job,
};
pub use shared_owned::atomic_owned::AtomicOwned;
pub use shared_owned::atomic_raw::AtomicRaw;
pub use shared_owned::collecting::collect_owned;
pub use shared_owned::owned::Owned;
pub use shared_owned::pointer::OwnedPtr;
pub use shared_owned::raw_items::{RawItems, RawRefused};
pub use shared_owned::raw_ptr::RawPtr;
