//! The segments that writes make of those of an older version: what a place
//! makes a version of.

ghost use Rattle.std.specs.Prelude.{◌≡◌, ◌≤◌, ◌*◌, length, IfOk};
ghost use Rattle.std.specs.List.{All};
ghost use Rattle.leaf_array.specs.Values.{ClonesAreSame};
ghost use Rattle.version_views.specs.Cuts.{IsCut, pairs_in, separators_of};
ghost use Rattle.version_drafts.specs.Parts.{LiesWithin, blocks_of_parts, list_of_parts, made_in};
ghost use Rattle.version_views.specs.Writes.{after_writes, replies_to};

use crate::changes::{apply, unchanged};
pub use crate::listed::{listed, rising_until};
use crate::merge::merged;
pub use crate::segments::{Part, Segments, count_of, made_of};
use std::alloc::{AllocError, Global};
use version_views::{Reply, Trees, VersionView, Write};

/// The segments of the list that writes leave of an older one, and the replies. Fails only if an allocation fails. A
/// segment has 1 to `S` pairs, and two neighbours together more than `S`. Segments that no write touches are taken over.
/// Nothing of the older version changes.
pub fn drafted<K: Clone + Ord + Drop, V: Clone + Drop, W: Trees<K, V>, const S: usize>(
    alloc: Global,
    old: &VersionView<'_, K, V, W>,
    writes: &[Write<K, V>],
) -> Result<(Segments<K, V>, Vec<Reply>), AllocError>
    requires size { (1 ≤ S) × (S ≤ 225) }
    requires keys { ClonesAreSame K.is_clone }
    requires values { ClonesAreSame V.is_clone }
    requires whole { IsCut K.cmp S old.now (separators_of old.now) }
    ensures cut { IfOk result (λ made. IsCut K.cmp S (blocks_of_parts old.now made.0.parts.items) (separators_of (blocks_of_parts old.now made.0.parts.items))) }
    ensures list { IfOk result (λ made. list_of_parts old.now made.0.parts.items ≡ after_writes K.cmp writes.now (pairs_in old.now)) }
    ensures within { IfOk result (λ made. All (LiesWithin (length old.now)) made.0.parts.items) }
    ensures length { IfOk result (λ made. made.0.length ≡ length (list_of_parts old.now made.0.parts.items)) }
    ensures few { IfOk result (λ made. made_in made.0.parts.items ≤ 2 * length writes.now) }
    ensures replies { IfOk result (λ made. made.1.items ≡ replies_to K.cmp writes.now (pairs_in old.now)) }
{
    let mut changes = unchanged::<K, V>(alloc, writes)?;
    let mut replies = Vec::with_capacity(alloc, writes.len())?;
    for write in writes {
        replies.push(apply(&mut changes, old, write)?)?;
    }
    let segments = merged::<K, V, W, S>(alloc, old, &changes)?;
    Ok((segments, replies))
}
