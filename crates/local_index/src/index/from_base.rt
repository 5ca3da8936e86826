//! An index that begins with a list, as another one left it.

ghost use Rattle.std.specs.Prelude.{◌≡◌, ◌≤◌, ◌<◌, ◌^◌, ◌-◌, [], None, IfErr, IfOk, IsErrOf, length, replicate};
ghost use Rattle.leaf_array.specs.Pairs.{IsAscending};
ghost use Rattle.leaf_array.specs.Values.{ClonesAreSame};
ghost use Rattle.version_views.specs.Sizes.{IsStoreSized, room_for};
ghost use Rattle.local_versions.specs.Store.{fresh_store};
ghost use Rattle.local_index.specs.FromBase.{MayRefuseBase};
ghost use Rattle.local_index.specs.State.{fresh_index};

use crate::index::LocalIndex;
use local_versions::draft::rising_until;
use local_versions::{LocalStore, StoreRefused, build_list};
use serial_history::{Base, History};
use std::alloc::Global;
use thiserror::Error;

/// Why no index begins with a list.
#[derive(Clone, Copy, Debug, PartialEq, Eq, Error)]
pub enum BaseCause {
    /// The key of the pair at this place isn't above the key before it, and no earlier one is so.
    #[error("the key at place {0} isn't above the key before it; there is no index")]
    NotAscending(usize),
    /// The memory of the index was refused.
    #[error("memory was refused; there is no index")]
    Memory,
    /// The list takes more slots than the index was to have.
    #[error("the list takes more slots; there is no index")]
    NoSlot,
}

/// A list that no index begins with: why, and the pairs, as they were handed in.
#[derive(Clone, Debug, PartialEq, Eq, Drop, Error)]
#[error("{cause}")]
pub struct BaseRefused<K, V> {
    /// Why there is no index.
    pub cause: BaseCause,
    /// The pairs, as they were handed in.
    pub pairs: Vec<(K, V)>,
}

impl<K: Clone + Ord, V: Clone + Eq, const S: usize> LocalIndex<K, V, S> {
    /// An index whose base is this list, under this number, without transactions or sessions. It has `places` places for
    /// sessions and `slots` slots, and its last number is `2^64 - 1`. So an index continues, in another process too, from
    /// what [`base`](Self::base) of an older one returned.
    ///
    /// The causes are decided in this order, and each returns the pairs: `NotAscending`, before any memory is requested;
    /// `Memory`; `NoSlot`, only where there are fewer than `2 * (n / (S + 1)) + 2` slots, for `n` pairs.
    pub fn from_base(
        alloc: Global,
        number: u64,
        pairs: Vec<(K, V)>,
        places: usize,
        slots: usize,
    ) -> Result<Self, BaseRefused<K, V>>
        requires size { IsStoreSized places slots S }
        requires keys { ClonesAreSame K.is_clone }
        requires values { ClonesAreSame V.is_clone }
        ensures begins { IfOk result (λ index. index ≡ fresh_index (record { number = number; pairs = pairs.items }) places (2 ^ 64 - 1) slots index.used) }
        ensures room { IfOk result (λ index. index.used ≤ room_for S (length pairs.items)) }
        ensures cause { IfErr result (λ back. MayRefuseBase K.cmp S slots pairs.items back.cause) }
        ensures back { IfErr result (λ back. back.pairs.items ≡ pairs.items) }
    {
        let rising = rising_until(&pairs);
        if rising < pairs.len() {
            let cause = BaseCause::NotAscending(rising);
            return Err(BaseRefused { cause, pairs });
        }
        match stored(alloc, number, &pairs, places, slots) {
            Ok(store) => Ok(LocalIndex {
                alloc,
                store,
                history: History::beginning_with(alloc, Base::new(number, pairs)),
            }),
            Err(StoreRefused::Memory) => {
                let cause = BaseCause::Memory;
                Err(BaseRefused { cause, pairs })
            }
            Err(StoreRefused::NoSlot) => {
                let cause = BaseCause::NoSlot;
                Err(BaseRefused { cause, pairs })
            }
        }
    }
}

/// A store of clones of these pairs, under this number.
fn stored<K: Clone + Ord, V: Clone, const S: usize>(
    alloc: Global,
    number: u64,
    pairs: &[(K, V)],
    places: usize,
    slots: usize,
) -> Result<LocalStore<K, V, S>, StoreRefused>
    requires size { IsStoreSized places slots S }
    requires keys { ClonesAreSame K.is_clone }
    requires values { ClonesAreSame V.is_clone }
    requires rising { IsAscending K.cmp pairs.now }
    ensures store { IfOk result (λ s. s ≡ fresh_store (record { number = number; pairs = pairs.now }) places slots s.used) }
    ensures room { IfOk result (λ s. s.used ≤ room_for S (length pairs.now)) }
    ensures full { IsErrOf result StoreRefused.NoSlot → slots < room_for S (length pairs.now) }
{
    let Ok(built) = build_list::<K, V, S>(alloc, pairs) else {
        return Err(StoreRefused::Memory);
    };
    LocalStore::holding(alloc, places, slots, built.numbered(number))
}
