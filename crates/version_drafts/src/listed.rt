//! The segments of a list of pairs, none of which is taken over.

ghost use Rattle.std.specs.Prelude.{◌≡◌, ◌≤◌, ◌<◌, ◌+◌, ◌*◌, [], List, length, take, IfOk};
ghost use Rattle.std.specs.List.{All};
ghost use Rattle.leaf_array.specs.Pairs.{IsAscending};
ghost use Rattle.leaf_array.specs.Values.{ClonesAreSame};
ghost use Rattle.version_views.specs.Cuts.{IsCut, pairs_in, separators_of};
ghost use Rattle.version_views.specs.Rows.{IsRowed};
ghost use Rattle.version_drafts.specs.Parts.{LiesWithin, blocks_of_parts, list_of_parts, made_in};
ghost use Rattle.version_drafts.specs.Shelves.{LiesOn, made_on_all, shelf_blocks, shelved_blocks};

use crate::segments::{Segments, begun, expect, finish, push};
use crate::shelves::{Shelf, shelved};
use std::alloc::{AllocError, Global};
use std::cmp::Ordering;
use tree_index::TreeIndex;
use version_views::{Directory, Trees, VersionView};

/// Lends the segments of a directory whose owners are the trees themselves. A list is cut beside one without any, so that none
/// is taken over.
#[derive(Drop)]
struct TreesInside {}

impl<K: Ord, V> Trees<K, V> for TreesInside {
    ghost use Rattle.std.specs.Prelude.{◌≤◌};

    type Owner = TreeIndex<K, V>;

    type Owners = Vec<TreeIndex<K, V>>;

    ghost has_row = { λ _ row. Unit {0} };

    ghost owners = { λ _ row. row.items };

    ghost has = { λ _ tree. tree.depth ≤ 1 };

    ghost pairs = { λ _ tree. tree.pairs };

    fn owners<'a>(&'a self, row: &'a Vec<TreeIndex<K, V>>) -> &'a [TreeIndex<K, V>] {
        row
    }

    fn tree<'a>(&'a self, at: &'a TreeIndex<K, V>) -> &'a TreeIndex<K, V> {
        at
    }
}

/// The segments of clones of these pairs, whose keys rise: all of them new, and as few as can hold the pairs. Fails only
/// if an allocation fails.
pub fn listed<K: Clone + Ord + Drop, V: Clone + Drop, const S: usize>(
    alloc: Global,
    pairs: &[(K, V)],
) -> Result<Segments<K, V>, AllocError>
    requires size { (1 ≤ S) × (S ≤ 225) }
    requires keys { ClonesAreSame K.is_clone }
    requires values { ClonesAreSame V.is_clone }
    requires rising { IsAscending K.cmp pairs.now }
    ensures cut { IfOk result (λ made. (blocks : List (List (K × V))) → IsCut K.cmp S (blocks_of_parts blocks made.parts.items) (separators_of (blocks_of_parts blocks made.parts.items))) }
    ensures list { IfOk result (λ made. (blocks : List (List (K × V))) → list_of_parts blocks made.parts.items ≡ pairs.now) }
    ensures within { IfOk result (λ made. All (LiesWithin 0) made.parts.items) }
    ensures length { IfOk result (λ made. made.length ≡ length pairs.now) }
    ensures new { IfOk result (λ made. made_in made.parts.items ≡ length made.parts.items) }
    ensures fewest { IfOk result (λ made. S * length made.parts.items < length pairs.now + S) }
{
    let none = Directory::new(0, 0, Vec::new(alloc), Vec::new(alloc), Vec::new(alloc));
    let old = VersionView::new(&TreesInside {}, &none);
    let segments = cut_beside::<K, V, TreesInside, S>(alloc, &old, pairs)?;
    Ok(segments)
}

/// The segments of clones of these pairs, beside a version without any.
fn cut_beside<K: Clone + Ord + Drop, V: Clone + Drop, W: Trees<K, V>, const S: usize>(
    alloc: Global,
    old: &VersionView<'_, K, V, W>,
    pairs: &[(K, V)],
) -> Result<Segments<K, V>, AllocError>
    requires size { (1 ≤ S) × (S ≤ 225) }
    requires keys { ClonesAreSame K.is_clone }
    requires values { ClonesAreSame V.is_clone }
    requires rising { IsAscending K.cmp pairs.now }
    requires none { old.now ≡ [] }
    ensures cut { IfOk result (λ made. IsCut K.cmp S (blocks_of_parts [] made.parts.items) (separators_of (blocks_of_parts [] made.parts.items))) }
    ensures list { IfOk result (λ made. list_of_parts [] made.parts.items ≡ pairs.now) }
    ensures within { IfOk result (λ made. All (LiesWithin 0) made.parts.items) }
    ensures length { IfOk result (λ made. made.length ≡ length pairs.now) }
    ensures fewest { IfOk result (λ made. S * made_in made.parts.items < length pairs.now + S) }
{
    let mut out = begun::<K, V, W, S>(alloc, old, pairs.len())?;
    expect::<K, V, S>(&mut out, pairs.len())?;
    for pair in pairs {
        push::<K, V, W, S>(&mut out, old, pair.0.clone()?, pair.1.clone()?)?;
    }
    let segments = finish::<K, V, W, S>(out, old)?;
    Ok(segments)
}

/// The parts of a version that takes nothing over, in rows. Fails only if an allocation fails.
pub(crate) fn shelved_alone<K: Clone + Ord + Drop, V: Drop>(
    alloc: Global,
    number: u64,
    segments: Segments<K, V>,
) -> Result<Directory<K, Shelf<K, V>>, AllocError>
    requires keys { ClonesAreSame K.is_clone }
    requires within { All (LiesWithin 0) segments.parts.items }
    requires some { All (λ b. 1 ≤ length b) (blocks_of_parts [] segments.parts.items) }
    ensures number { IfOk result (λ made. made.number ≡ number) }
    ensures length { IfOk result (λ made. made.length ≡ segments.length) }
    ensures given { IfOk result (λ made. shelved_blocks [] made.rows.items ≡ blocks_of_parts [] segments.parts.items) }
    ensures made { IfOk result (λ made. made_on_all made.rows.items ≡ made_in segments.parts.items) }
    ensures rowed { IfOk result (λ made. IsRowed (shelf_blocks []) made) }
    ensures there { IfOk result (λ made. All (λ r. LiesOn [] r.segments) made.rows.items) }
{
    let none = Directory::new(0, 0, Vec::new(alloc), Vec::new(alloc), Vec::new(alloc));
    let old = VersionView::new(&TreesInside {}, &none);
    shelved::<K, V, TreesInside>(alloc, number, &old, &none, segments)
}

/// How many pairs there are up to the first whose key isn't above the key before it; all of them where the keys rise. It
/// compares each key with the next one, and takes no memory.
pub fn rising_until<K: Ord, V>(pairs: &[(K, V)]) -> usize
    ensures rising { IsAscending K.cmp (take result pairs.now) }
    ensures within { result ≤ length pairs.now }
    ensures some { 0 < length pairs.now → 0 < result }
    ensures ends { result < length pairs.now → IsAscending K.cmp (take (result + 1) pairs.now) → ⊥ }
{
    for at in 1..pairs.len() {
        if pairs[at - 1].0.cmp(&pairs[at].0) != Ordering::Less {
            return at;
        }
    }
    pairs.len()
}
