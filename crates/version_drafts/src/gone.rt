//! Ranges of an older list that are gone, and the segments that they reach.

ghost use Rattle.std.specs.Prelude.{◌≡◌, ◌≤◌, ◌<◌, ◌↔◌, ℕ, List, Some, IfOk, IsTrue, false, true, length, slice_get};
ghost use Rattle.std.specs.List.{All};
ghost use Rattle.leaf_array.specs.Values.{ClonesAreSame};
ghost use Rattle.tree_index.specs.Shape.{AllKeys};
ghost use Rattle.version_drafts.specs.Gone.{IsCovered, IsEndAt, IsNear, IsSpan, is_gone};
ghost use Rattle.version_views.specs.Cuts.{separators_of};
ghost use Rattle.version_views.specs.SeparatorSearch.{IsOrdered};

use crate::scans::PairScan;
use crate::segments::Here;
use std::alloc::AllocError;
use std::ops::Bound;
use tree_index::TreeIndex;
use version_views::{Trees, VersionView, is_within};

/// A range of keys whose pairs are gone.
#[derive(Drop)]
pub(crate) struct Gone<K> {
    pub(crate) lower: Bound<K>,
    pub(crate) upper: Bound<K>,
    // the places of the segments that its ends lie in or beside; none where there is no bound
    pub(crate) from: Option<usize>,
    pub(crate) upto: Option<usize>,
}

/// A range of keys, with the segments of its ends: one search of the separators for each.
pub(crate) fn range_of<K: Clone + Ord, V, W: Trees<K, V>>(
    old: &VersionView<'_, K, V, W>,
    lower: &Bound<K>,
    upper: &Bound<K>,
) -> Result<Gone<K>, AllocError>
    requires keys { ClonesAreSame K.is_clone }
    requires ordered { IsOrdered K.cmp old.now (separators_of old.now) }
    ensures lower { IfOk result (λ g. g.lower ≡ lower.now) }
    ensures upper { IfOk result (λ g. g.upper ≡ upper.now) }
    ensures span { IfOk result (λ g. IsSpan K.cmp old.now g) }
{
    let from = end_of(old, lower);
    let upto = end_of(old, upper);
    Ok(Gone {
        lower: copied(lower)?,
        upper: copied(upper)?,
        from,
        upto,
    })
}

/// The segment that an end of a range lies in or beside.
fn end_of<K: Ord, V, W: Trees<K, V>>(
    old: &VersionView<'_, K, V, W>,
    bound: &Bound<K>,
) -> Option<usize>
    requires { IsOrdered K.cmp old.now (separators_of old.now) }
    ensures { IsEndAt K.cmp old.now bound.now result }
{
    match bound {
        Bound::Included(key) => Some(old.place_of(key)),
        Bound::Excluded(key) => Some(old.place_of(key)),
        Bound::Unbounded => None,
    }
}

/// A clone of a bound.
fn copied<K: Clone>(bound: &Bound<K>) -> Result<Bound<K>, AllocError>
    requires { ClonesAreSame K.is_clone }
    ensures { IfOk result (λ copy. copy ≡ bound.now) }
{
    match bound {
        Bound::Included(key) => Ok(Bound::Included(key.clone()?)),
        Bound::Excluded(key) => Ok(Bound::Excluded(key.clone()?)),
        Bound::Unbounded => Ok(Bound::Unbounded),
    }
}

/// Whether a key lies in a range that is gone.
pub(crate) fn is_gone<K: Ord>(gone: &[Gone<K>], key: &K) -> bool
    ensures { result ≡ is_gone K.cmp gone.now key.now }
{
    for range in gone {
        if is_within(&range.lower, &range.upper, key) {
            return true;
        }
    }
    false
}

/// Whether the segments of the ends of a range tell that it has all pairs of the segment at a place.
pub(crate) fn covers<K: Ord, V, W: Trees<K, V>>(
    gone: &[Gone<K>],
    old: &VersionView<'_, K, V, W>,
    place: usize,
) -> bool
    requires { All (IsSpan K.cmp old.now) gone.now }
    ensures { IsTrue result → (b : List (K × V)) → slice_get old.now place ≡ Some b → AllKeys (λ k. is_gone K.cmp gone.now k ≡ true) b }
{
    let _ = old;
    for range in gone {
        if is_inside(range, place) {
            return true;
        }
    }
    false
}

/// Whether a pair of a segment lies in a range that is gone: a look at its tree, where the segments of the
/// ends don't tell.
pub(crate) fn thins<K: Ord, V, W: Trees<K, V>>(
    gone: &[Gone<K>],
    old: &VersionView<'_, K, V, W>,
    here: &Here<'_, K, V>,
) -> bool
    requires spans { All (IsSpan K.cmp old.now) gone.now }
    requires there { Some here.now.tree.now.pairs ≡ slice_get old.now here.now.place }
    ensures some { IsTrue result → (b : List (K × V)) → slice_get old.now here.now.place ≡ Some b → AllKeys (λ k. is_gone K.cmp gone.now k ≡ false) b → ⊥ }
    ensures none { result ≡ false → (b : List (K × V)) → slice_get old.now here.now.place ≡ Some b → AllKeys (λ k. is_gone K.cmp gone.now k ≡ false) b }
{
    nears(gone, old, here.place) && has_gone(gone, here.tree)
}

/// Whether a range that is gone may have a pair of the segment at a place.
fn nears<K: Ord, V, W: Trees<K, V>>(
    gone: &[Gone<K>],
    old: &VersionView<'_, K, V, W>,
    place: usize,
) -> bool
    requires { All (IsSpan K.cmp old.now) gone.now }
    ensures { result ≡ false → (b : List (K × V)) → slice_get old.now place ≡ Some b → AllKeys (λ k. is_gone K.cmp gone.now k ≡ false) b }
{
    let _ = old;
    for range in gone {
        if is_near(range, place) {
            return true;
        }
    }
    false
}

/// Up to which place the segments from one on lie apart from all ranges that are gone.
pub(crate) fn apart_upto<K: Ord, V, W: Trees<K, V>>(
    gone: &[Gone<K>],
    old: &VersionView<'_, K, V, W>,
    from: usize,
) -> usize
    requires { All (IsSpan K.cmp old.now) gone.now }
    ensures within { result ≤ length old.now }
    ensures apart { (i : ℕ) (b : List (K × V)) → from ≤ i → i < result → slice_get old.now i ≡ Some b → AllKeys (λ k. is_gone K.cmp gone.now k ≡ false) b }
{
    let mut end = old.segment_count();
    for range in gone {
        end = nears_at(range, from, end);
    }
    end
}

/// Whether a pair of a tree lies in a range that is gone.
fn has_gone<K: Ord, V>(gone: &[Gone<K>], tree: &TreeIndex<K, V>) -> bool
    ensures some { IsTrue result → AllKeys (λ k. is_gone K.cmp gone.now k ≡ false) tree.now.pairs → ⊥ }
    ensures none { result ≡ false → AllKeys (λ k. is_gone K.cmp gone.now k ≡ false) tree.now.pairs }
{
    let mut pairs = PairScan::new(tree);
    while let Some((key, _)) = pairs.front() {
        if is_gone(gone, key) {
            return true;
        }
        pairs.step();
    }
    false
}

/// Whether the segment at a place is that of an end of a range, or lies between both.
fn is_near<K>(range: &Gone<K>, place: usize) -> bool
    ensures { IsTrue result ↔ IsNear range.now place }
{
    let from = match range.from {
        Some(from) => from <= place,
        None => true,
    };
    let upto = match range.upto {
        Some(upto) => place <= upto,
        None => true,
    };
    from && upto
}

/// The first place from one on, and before an end, that is that of an end of a range or lies between both; the end, where
/// there is none.
fn nears_at<K>(range: &Gone<K>, from: usize, end: usize) -> usize
    ensures upto { result ≤ end }
    ensures apart { (i : ℕ) → from ≤ i → i < result → IsNear range.now i → ⊥ }
{
    if let Some(upto) = range.upto {
        if upto < from {
            return end;
        }
    }
    match range.from {
        Some(near) => { if near < end { near } else { end } },
        None => 0,
    }
}

/// Whether the segment at a place lies between those of the ends of a range.
fn is_inside<K>(range: &Gone<K>, place: usize) -> bool
    ensures { IsTrue result ↔ IsCovered range.now place }
{
    let from = match range.from {
        Some(from) => from < place,
        None => true,
    };
    let upto = match range.upto {
        Some(upto) => place < upto,
        None => true,
    };
    from && upto
}
