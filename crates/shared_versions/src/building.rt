//! Building versions, each of an older one, beside the place.

ghost use Rattle.std.specs.Prelude.{◌≡◌, ◌≤◌, ◌<◌, ◌+◌, ◌*◌, ◌-◌, ◌^◌, IfOk, length};
ghost use Rattle.leaf_array.specs.Pairs.{IsAscending};
ghost use Rattle.leaf_array.specs.Values.{ClonesAreSame};
ghost use Rattle.version_views.specs.Sizes.{room_for};
ghost use Rattle.version_views.specs.Writes.{after_writes, replies_to};
ghost use Rattle.shared_versions.specs.Drafts.{IsPlaceable, list_of, list_planned, nothing, number_of, slots_for};

use crate::draft::Draft;
use crate::lending::view_of;
use crate::node::Version;
use std::alloc::{AllocError, Global};
use version_drafts::plans;
use version_views::{Directory, Reply, Write};

/// The version that writes make of an older one, under the next number, and the replies to them. Fails only if an
/// allocation fails. Nothing is placed yet, and no word of the place is read. Rows that no write touches are taken over, so the
/// older version has to be there when it is placed; of a row that is touched, the other segments are shared at once.
pub fn build<K: Clone + Ord + Drop, V: Clone + Drop, const S: usize>(
    alloc: Global,
    old: &Version<K, V>,
    writes: &[Write<K, V>],
) -> Result<(Draft<K, V, S>, Vec<Reply>), AllocError>
    requires width { old.now.width ≡ S }
    requires size { (1 ≤ S) × (S ≤ 225) }
    requires last { old.now.number < 2 ^ 64 - 1 }
    requires keys { ClonesAreSame K.is_clone }
    requires values { ClonesAreSame V.is_clone }
    ensures number { IfOk result (λ made. number_of made.0 ≡ old.now.number + 1) }
    ensures list { IfOk result (λ made. list_planned old.now made.0 ≡ after_writes K.cmp writes.now (list_of old.now)) }
    ensures few { IfOk result (λ made. slots_for made.0 ≤ 2 * length writes.now + 1) }
    ensures placeable { IfOk result (λ made. IsPlaceable K.cmp S old.now made.0) }
    ensures replies { IfOk result (λ made. made.1.items ≡ replies_to K.cmp writes.now (list_of old.now)) }
{
    old.laws();
    let view = view_of(old);
    let rows = old.directory();
    let (plan, replies) = plans::build::<K, V, _, S>(alloc, old.number() + 1, &view, rows, writes)?;
    Ok((Draft::of(alloc, rows, old.own(), plan)?, replies))
}

/// The version of clones of these pairs, whose keys rise, under a number. Fails only if an allocation fails. Nothing is placed yet, and
/// no word of a place is read. It takes nothing over, so no older version has to be there when it is placed, and its segments are
/// as few as can hold the pairs.
pub fn build_list<K: Clone + Ord + Drop, V: Clone + Drop, const S: usize>(
    alloc: Global,
    number: u64,
    pairs: &[(K, V)],
) -> Result<Draft<K, V, S>, AllocError>
    requires size { (1 ≤ S) × (S ≤ 225) }
    requires keys { ClonesAreSame K.is_clone }
    requires values { ClonesAreSame V.is_clone }
    requires rising { IsAscending K.cmp pairs.now }
    ensures number { IfOk result (λ made. number_of made ≡ number) }
    ensures list { IfOk result (λ made. list_planned nothing made ≡ pairs.now) }
    ensures length { IfOk result (λ made. made.shelves.length ≡ length pairs.now) }
    ensures few { IfOk result (λ made. slots_for made ≤ room_for S (length pairs.now)) }
    ensures fewest { IfOk result (λ made. S * slots_for made < length pairs.now + 2 * S) }
    ensures placeable { IfOk result (IsPlaceable K.cmp S nothing) }
{
    let plan = plans::build_list::<K, V, S>(alloc, number, pairs)?;
    let none = Directory::new(0, 0, Vec::new(alloc), Vec::new(alloc), Vec::new(alloc));
    let own = Vec::new(alloc);
    let draft = Draft::of(alloc, &none, &own, plan);
    own.destroy_empty();
    none.into_rows().destroy_empty();
    draft
}
