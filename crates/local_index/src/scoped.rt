//! An index that ends by itself.

ghost use Rattle.std.specs.Prelude.{◌≡◌, ◌≤◌, ◌-◌, ◌^◌, [], None, IfErr, IfOk, length, replicate};
ghost use Rattle.leaf_array.specs.Values.{ClonesAreSame};
ghost use Rattle.version_views.specs.Sizes.{IsStoreSized, room_for};
ghost use Rattle.serial_history.specs.Serial.{empty_base};
ghost use Rattle.local_index.specs.FromBase.{MayRefuseBase};
ghost use Rattle.local_index.specs.State.{fresh_index};

use crate::index::LocalIndex;
use crate::index::from_base::BaseRefused;
use std::alloc::{AllocError, Global};

/// An index that ends where it is dropped, with the sessions that are open then.
pub struct ScopedIndex<K: Clone + Ord, V: Clone + Eq, const S: usize> {
    /// The index.
    pub index: LocalIndex<K, V, S>,
}

impl<K: Clone + Ord, V: Clone + Eq, const S: usize> ScopedIndex<K, V, S> {
    /// An empty index, as [`LocalIndex::new`] makes it. Fails only if an allocation fails.
    pub fn new(alloc: Global, places: usize, slots: usize) -> Result<Self, AllocError>
        requires { IsStoreSized places slots S }
        ensures { IfOk result (λ scope. scope.index ≡ fresh_index empty_base places (2 ^ 64 - 1) slots 1) }
    {
        Ok(ScopedIndex {
            index: LocalIndex::new(alloc, places, slots)?,
        })
    }

    /// An index that begins with a list under this number, as [`LocalIndex::from_base`] makes it, with the same refusals.
    pub fn from_base(
        alloc: Global,
        number: u64,
        pairs: Vec<(K, V)>,
        places: usize,
        slots: usize,
    ) -> Result<Self, BaseRefused<K, V>>
        requires size { IsStoreSized places slots S }
        requires keys { ClonesAreSame K.is_clone }
        requires values { ClonesAreSame V.is_clone }
        ensures begins { IfOk result (λ scope. scope.index ≡ fresh_index (record { number = number; pairs = pairs.items }) places (2 ^ 64 - 1) slots scope.index.used) }
        ensures room { IfOk result (λ scope. scope.index.used ≤ room_for S (length pairs.items)) }
        ensures cause { IfErr result (λ back. MayRefuseBase K.cmp S slots pairs.items back.cause) }
        ensures back { IfErr result (λ back. back.pairs.items ≡ pairs.items) }
    {
        Ok(ScopedIndex {
            index: LocalIndex::from_base(alloc, number, pairs, places, slots)?,
        })
    }
}

impl<K: Clone + Ord, V: Clone + Eq, const S: usize> Drop for ScopedIndex<K, V, S> {
    fn drop(self) {
        let ScopedIndex { index } = self;
        index.end();
    }
}
