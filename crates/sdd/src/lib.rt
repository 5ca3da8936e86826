//! Containers over both kinds of place: stacks, queues and bags over a [`Domain`], which threads share, and with lists
//! over a [`World`] of one thread.
//!
//! The root has the types and calls over a `Domain`; [`world`] has those over a `World`. It re-exports `sdd_base`. This
//! crate is a face: it has no function of its own.
#![tactic(auto)]

pub mod world;

pub use sdd_base;
pub use sdd_base::{
    AtomicOwned, AtomicRaw, AtomicShared, Deferred, Domain, Epoch, ExclusiveAccess, Guard,
    GuardsOpen, Held, Holds, Job, Loaded, Local, LocalState, Named, Nested, NoJob, NoSlot, NotLent,
    Owned, OwnedPtr, Plain, PrivateCollector, Ptr, RawItems, RawPtr, RawRefused, RegisterRefused,
    Shared, Sizes, Tag, Task, World, WorldGuard, an_owner_keeps_its_item, collect_owned, epoch,
    every_moment_is_safe, hold_last, job, own_last, sizes, tag, the_count_is_raised_at_most_once,
    what_is_loaded_stays,
};
pub use shared_containers::bag::Bag;
pub use shared_containers::iter::{IntoIter, Iter};
pub use shared_containers::outcome::{CloneRefused, FromIterRefused, NotCloned, PushRefused};
pub use shared_containers::queue::Queue;
pub use shared_containers::stack::Stack;
pub use shared_lists::{LinkedEntry, Links, NotMade};
