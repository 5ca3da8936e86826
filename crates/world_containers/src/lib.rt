//! Linked lists, queues, stacks and bags of items of a place, each value in an entry of its own.
//!
//! The calls over a place of one thread are in [`world`]: `Type::call` of a container is `world::type::call`, with the
//! world first. Clauses see a list as its [`Entry`](linked_entry::LinkedEntry)s in order, each with its slot, the cell
//! of its link and its tag; the list that a user sees is what isn't deleted of these. A clause is stated for every list
//! that hangs there, so that it says the same of any list of entries before a call.
//!
//! What one call changes of a place is its clause `leaves`: the cells and the items of its own list, and no other. So
//! containers beside each other stay as they are ([`laws::lists_stay`]). Owners that a call gives can be given back by
//! [`laws::spare_owners`], [`laws::spare_queue_owners`], [`laws::bags_stay`] and [`laws::releases_leave`]; those that a
//! refused `pop_if` and `next_shared` give, by the clauses `spare` of these.
//!
//! `from_iter` and `clone` of a container make new entries alone: a refused one hands back what it built, and changes
//! nothing else (clauses `leaves`).
//!
//! A bag is two multisets, each as a list in some order: clauses say which entry is added or taken.
//!
//! The values of a bag are lent for writing, one after another, while no guard is open: a walk borrows the place, as
//! [`world::iter_mut`] says. While a guard opens or closes, containers stay what they are ([`laws::guards_leave`]).
//!
//! A deleted entry stays linked until it is passed at the front of its list, since `next_ptr` only reads.
#![tactic(auto)]

pub use sdd_world;

pub mod bag;
pub mod iter;
pub mod laws;
pub mod queue;
pub mod refusal;
pub mod stack;
pub mod world;

pub use bag::{Bag, IntoIter, IterMut, Stop};
pub use iter::Iter;
pub use queue::Queue;
pub use refusal::{CloneRefused, FromIterRefused, NotMade, PushRefused};
pub use sdd_lists::{LinkedEntry, LinkedList, linked_entry, linked_list};
pub use sdd_world::{
    AtomicOwned, AtomicRaw, AtomicShared, Deferred, Epoch, ExclusiveAccess, GuardsOpen, Held,
    Holds, Job, Kept, Link, Nested, NoJob, NoSlot, NotLent, Owned, Plain, PrivateCollector, Ptr,
    RawPtr, Shared, Sizes, Tag, Task, World, WorldGuard,
};
pub use stack::Stack;
