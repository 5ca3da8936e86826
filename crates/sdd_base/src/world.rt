//! The calls over a `World`, as `world::shared::new`, and the types that they take and give.

pub use sdd_world::world::{
    atomic_owned, atomic_raw, atomic_shared, group, guard, owned, private_collector, ptr, raw_ptr,
    shared,
};
pub use sdd_world::{
    AtomicOwned, AtomicRaw, AtomicShared, Group, GroupName, Held, Holds, KeepsRow, Kept, Link,
    Loaded, Owned, Plain, PrivateCollector, Ptr, RawPtr, Shared, laws,
};
