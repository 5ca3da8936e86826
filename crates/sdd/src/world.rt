//! The calls over a `World`, as `world::queue::push`, and the types that they take and give.

pub use sdd_base::world::{
    AtomicOwned, AtomicRaw, AtomicShared, Held, Holds, Kept, Link, Loaded, Owned, Plain,
    PrivateCollector, Ptr, RawPtr, Shared, atomic_owned, atomic_raw, atomic_shared, guard, owned,
    private_collector, ptr, raw_ptr, shared,
};
pub use world_containers::world::{
    bag, into_iter, iter, iter_mut, linked_entry, linked_list, queue, stack,
};
pub use world_containers::{
    Bag, CloneRefused, FromIterRefused, IntoIter, Iter, IterMut, LinkedEntry, LinkedList, NotMade,
    PushRefused, Queue, Stack, Stop,
};
