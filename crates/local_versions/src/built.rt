//! Building versions, each of an older one.

ghost use Rattle.std.specs.Prelude.{◌≡◌, ◌≤◌, ◌<◌, ◌+◌, ◌*◌, ◌-◌, ◌^◌, Some, ℕ, IfOk, length};
ghost use Rattle.leaf_array.specs.Pairs.{IsAscending};
ghost use Rattle.leaf_array.specs.Values.{ClonesAreSame};
ghost use Rattle.sdd_world.specs.State.{value_at};
ghost use Rattle.version_views.specs.Sizes.{room_for};
ghost use Rattle.local_versions.specs.Placing.{IsPlaceableBeside, StandsAlone, list_alone, list_beside, number_of, slots_for};
ghost use Rattle.version_views.specs.Versions.{IsVersion, list_of};
ghost use Rattle.version_views.specs.Writes.{after_writes, replies_to};

use crate::reads::view_of;
use sdd_world::groups::Group;
use sdd_world::job::NoJob;
use sdd_world::world::World;
use std::alloc::{AllocError, Global};
use version_drafts::plans;
use version_views::{Directory, Item, Reply, Write};

/// A version that isn't placed yet: its directory, of whose rows and segments some are those of an older version.
pub type Built<K, V, const S: usize> = plans::Draft<K, V, S>;

/// The version that writes make of an older one, under the next number, and the replies. Fails only if an allocation fails.
/// Nothing is placed yet. Rows and segments that no write touches are taken over, so the older version has to be there
/// when it is placed.
pub fn build<K: Clone + Ord + Drop, V: Clone + Drop, const S: usize>(
    alloc: Global,
    w: &World<Item<K, V, S>, NoJob>,
    dir: &Directory<K, Group>,
    writes: &[Write<K, V>],
) -> Result<(Built<K, V, S>, Vec<Reply>), AllocError>
    requires version { IsVersion K.cmp w.now.groups (value_at w.now) dir.now }
    requires size { (1 ≤ S) × (S ≤ 225) }
    requires last { dir.now.number < 2 ^ 64 - 1 }
    requires keys { ClonesAreSame K.is_clone }
    requires values { ClonesAreSame V.is_clone }
    ensures number { IfOk result (λ made. number_of made.0 ≡ dir.now.number + 1) }
    ensures list { IfOk result (λ made. list_beside w.now dir.now made.0 ≡ after_writes K.cmp writes.now (list_of w.now.groups (value_at w.now) dir.now)) }
    ensures few { IfOk result (λ made. slots_for made.0 ≤ 2 * length writes.now + 1) }
    ensures placeable { IfOk result (λ made. IsPlaceableBeside K.cmp w.now dir.now made.0) }
    ensures replies { IfOk result (λ made. made.1.items ≡ replies_to K.cmp writes.now (list_of w.now.groups (value_at w.now) dir.now)) }
{
    let old = view_of(w, dir);
    plans::build::<K, V, _, S>(alloc, dir.number() + 1, &old, dir, writes)
}

/// The version of clones of these pairs, whose keys rise, with number 0. Fails only if an allocation fails. Nothing is placed yet. It
/// takes nothing over, so it can be placed wherever there are the slots that it takes, and its segments are as few as can
/// hold the pairs.
pub fn build_list<K: Clone + Ord + Drop, V: Clone + Drop, const S: usize>(
    alloc: Global,
    pairs: &[(K, V)],
) -> Result<Built<K, V, S>, AllocError>
    requires size { (1 ≤ S) × (S ≤ 225) }
    requires keys { ClonesAreSame K.is_clone }
    requires values { ClonesAreSame V.is_clone }
    requires rising { IsAscending K.cmp pairs.now }
    ensures number { IfOk result (λ made. number_of made ≡ 0) }
    ensures list { IfOk result (λ made. list_alone made ≡ pairs.now) }
    ensures length { IfOk result (λ made. made.shelves.length ≡ length pairs.now) }
    ensures few { IfOk result (λ made. slots_for made ≤ room_for S (length pairs.now)) }
    ensures fewest { IfOk result (λ made. S * slots_for made < length pairs.now + 2 * S) }
    ensures alone { IfOk result (StandsAlone K.cmp) }
{
    plans::build_list::<K, V, S>(alloc, 0, pairs)
}
