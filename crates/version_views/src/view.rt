//! A version to be read, whatever lends its segments.

ghost use Rattle.std.specs.Prelude.{◌≡◌, ◌<◌, ◌≤◌, ◌+◌, ◌^◌, ◌↔◌, [], ℕ, IsTrue, List, Some, length, option_copied, slice_get};
ghost use Rattle.leaf_array.specs.Pairs.{has_key};
ghost use Rattle.version_views.specs.Cuts.{greatest_key, pairs_in, separators_of};
ghost use Rattle.version_views.specs.CursorEnds.{AreRising, IsBlockAround};
ghost use Rattle.version_views.specs.Rows.{place_at, IsInside};
ghost use Rattle.version_views.specs.SeparatorSearch.{IsPlaceOf};
ghost use Rattle.version_views.specs.Views.{IsView, LooksUp, blocks_at, cursor_within};

use crate::directory::{Directory, Spot};
use crate::position::CursorEnd;
use crate::search::place_of_counted;
use crate::trees::Trees;
use crate::walking::Walk;
use std::marker::{Model, PhantomData};
use std::ops::Bound;
use tree_index::{Steps, TreeIndex};

/// A version to be read: its directory, and what lends its segments.
///
/// Contracts see it as the pairs of its segments, in order; its list is all of them. Sessions, building, conflict tests
/// and audits read versions by it. It borrows both, and is made and copied without memory.
#[derive(Drop)]
pub struct VersionView<'a, K: Ord, V, W: Trees<K, V>> {
    source: &'a W,
    directory: &'a Directory<K, W::Owners>,
    of: PhantomData<V>,
}

/// Invariant: specs/Views.antt, IsView: each row is there, and each owner has a segment; the segments stand in rows, and
/// are a list by rising keys, separated and counted.
impl<'a, K: Ord, V, W: Trees<K, V>> Model for VersionView<'a, K, V, W> {
    ghost use Rattle.std.specs.Prelude.{List};
    ghost use Rattle.version_views.specs.Views.{IsView, blocks_at};

    ghost Value = { List (List (K × V)) };

    ghost view = { λ v. blocks_at (W.owners v.source.now) (W.pairs v.source.now) v.directory.now };

    ghost invariant = { λ v. IsView K.cmp (W.has_row v.source.now) (W.owners v.source.now) (W.has v.source.now) (W.pairs v.source.now) v.directory.now };
}

impl<'a, K: Ord, V, W: Trees<K, V>> VersionView<'a, K, V, W> {
    /// The version of a directory. Condition: it is one, of segments that `source` lends.
    pub fn new(source: &'a W, directory: &'a Directory<K, W::Owners>) -> Self
        requires { IsView K.cmp (W.has_row source.now) (W.owners source.now) (W.has source.now) (W.pairs source.now) directory.now }
        ensures { result ≡ blocks_at (W.owners source.now) (W.pairs source.now) directory.now }
    {
        VersionView {
            source,
            directory,
            of: PhantomData,
        }
    }

    /// The same version.
    pub fn copy(&self) -> Self
        ensures { result ≡ self.now }
    {
        VersionView {
            source: self.source,
            directory: self.directory,
            of: PhantomData,
        }
    }

    /// The same version, for as long as this one is lent.
    pub fn reborrow(&self) -> VersionView<'_, K, V, W>
        ensures { result ≡ self.now }
    {
        VersionView {
            source: self.source,
            directory: self.directory,
            of: PhantomData,
        }
    }

    /// What every version meets. Nothing here runs.
    pub fn laws(&self)
        ensures rising { AreRising K.cmp self.now }
        ensures countable { length (pairs_in self.now) < 2 ^ 64 }
    {
        // what is read here opens the version to the proof
        let _length = self.directory.length;
    }

    /// How many pairs the list has.
    pub fn len(&self) -> usize
        ensures { result ≡ length (pairs_in self.now) }
    {
        self.directory.length
    }

    /// The pair with this key: one search of the directory by halving, one of a row, and one of a tree. It clones
    /// nothing.
    #[inline(always)]
    pub fn get(&self, key: &K) -> Option<(&'a K, &'a V)>
        ensures { LooksUp K.cmp key.now (pairs_in self.now) result }
    {
        let mut steps = Steps::new();
        self.get_counted(key, &mut steps)
    }

    /// The same, with its comparisons counted: at most one for each binary digit of the number of segments, and
    /// thirty more. There is none where there is no segment.
    #[inline(always)]
    pub fn get_counted(&self, key: &K, steps: &mut Steps) -> Option<(&'a K, &'a V)>
        ensures pair { LooksUp K.cmp key.now (pairs_in self.now) result }
        ensures cost { (digits : ℕ) → length self.now < 2 ^ digits → steps.new.count ≤ steps.old.count + 30 + digits }
        ensures raised { steps.old.count ≤ steps.new.count }
        ensures none { pairs_in self.now ≡ [] → steps.new.count ≡ steps.old.count }
    {
        self.laws();
        if self.is_empty() {
            return None;
        }
        let spot = spot_around::<K, V, W>(self.source, self.directory, key, steps);
        tree_at(self.source, self.directory, spot).peek_entry_counted(key, steps)
    }

    /// A cursor over the pairs within two bounds. Reversed bounds contain no pair. It takes no memory.
    pub fn walk(&self, lower: Bound<&'a K>, upper: Bound<&'a K>) -> Walk<'a, K, V, W>
        ensures { result ≡ cursor_within (pairs_in self.now) lower.entry upper.entry }
    {
        Walk {
            version: self.copy(),
            lower,
            upper,
            forward: CursorEnd::Unopened,
            backward: CursorEnd::Unopened,
        }
    }

    /// Whether a pair has this key: as `get`, without the pair.
    pub fn contains(&self, key: &K) -> bool
        ensures { result ≡ has_key K.cmp key.now (pairs_in self.now) }
    {
        self.get(key).is_some()
    }

    /// How many segments there are.
    pub fn segment_count(&self) -> usize
        ensures { result ≡ length self.now }
    {
        self.directory.segments()
    }

    /// Whether there is no segment.
    #[inline]
    fn is_empty(&self) -> bool
        ensures { IsTrue result ↔ length self.now ≡ 0 }
    {
        self.directory.row_count() == 0
    }

    /// The place of the segment whose keys are the last ones that a key may be among.
    pub fn place_of(&self, key: &K) -> usize
        ensures { IsPlaceOf K.cmp key.now (separators_of self.now) result }
    {
        if self.is_empty() {
            return 0;
        }
        let mut steps = Steps::new();
        let spot = spot_around::<K, V, W>(self.source, self.directory, key, &mut steps);
        self.directory.place_at(spot)
    }

    /// The greatest key of the segment at a place: a separator, or that of its tree where none lies behind it. Condition:
    /// there is one.
    pub fn greatest_at(&self, place: usize) -> Option<&'a K>
    where
        V: 'a,
        requires { place < length self.now }
        ensures { (b : List (K × V)) → Some b ≡ slice_get self.now place → option_copied result ≡ greatest_key b }
    {
        self.greatest_near(place, 0)
    }

    /// The greatest key of the segment at a place, as `greatest_at` answers. No search for it is made where it lies in the row named,
    /// which needn't be there. Condition: there is one.
    pub fn greatest_near(&self, place: usize, near: usize) -> Option<&'a K>
    where
        V: 'a,
        requires { place < length self.now }
        ensures { (b : List (K × V)) → Some b ≡ slice_get self.now place → option_copied result ≡ greatest_key b }
    {
        let spot = self.directory.spot_near(place, near);
        let row = &self.directory.rows[spot.row];
        if let Some(key) = row.keys().get(spot.at) {
            return Some(key);
        }
        if let Some(key) = self.directory.separators.get(spot.row) {
            return Some(key);
        }
        greatest(tree_at(self.source, self.directory, spot))
    }

    /// The tree of the segment at a place. Condition: there is one.
    pub fn segment(&self, place: usize) -> &'a TreeIndex<K, V>
        requires { place < length self.now }
        ensures { Some result.now.pairs ≡ slice_get self.now place }
    {
        self.tree(place)
    }

    /// The tree of the segment at a place, and the row that it lies in. No search is made where that is the row named, which needn't
    /// be there. No clause says which row it is: it serves to name one again. Condition: there is one.
    pub fn segment_near(&self, place: usize, near: usize) -> (&'a TreeIndex<K, V>, usize)
        requires { place < length self.now }
        ensures { Some result.0.now.pairs ≡ slice_get self.now place }
    {
        let spot = self.directory.spot_near(place, near);
        (tree_at(self.source, self.directory, spot), spot.row)
    }

    /// The tree of a segment.
    pub(crate) fn tree(&self, place: usize) -> &'a TreeIndex<K, V>
        requires { place < length self.now }
        ensures pairs { slice_get self.now place ≡ Some result.now.pairs }
        ensures flat { result.now.depth ≤ 1 }
    {
        tree_at(self.source, self.directory, self.directory.spot_of(place))
    }

    /// The segment that a key lies in or beside: those before it have lesser keys, and those behind it greater ones.
    pub(crate) fn around(&self, key: &K) -> usize
        requires { 0 < length self.now }
        ensures { IsBlockAround K.cmp key.now self.now result }
    {
        self.laws();
        self.place_of(key)
    }
}

/// The place in a row that a key lies in or beside, by at most ten comparisons and one for each binary digit of the
/// number of segments, which are counted. Condition: there is a row.
#[inline]
fn spot_around<K: Ord, V, W: Trees<K, V>>(
    source: &W,
    directory: &Directory<K, W::Owners>,
    key: &K,
    steps: &mut Steps,
) -> Spot
    requires view { IsView K.cmp (W.has_row source.now) (W.owners source.now) (W.has source.now) (W.pairs source.now) directory.now }
    requires some { 0 < length (blocks_at (W.owners source.now) (W.pairs source.now) directory.now) }
    ensures inside { IsInside directory.now.ends.items result }
    ensures place { IsPlaceOf K.cmp key.now (separators_of (blocks_at (W.owners source.now) (W.pairs source.now) directory.now)) (place_at directory.now.ends.items result) }
    ensures cost { (digits : ℕ) → length (blocks_at (W.owners source.now) (W.pairs source.now) directory.now) < 2 ^ digits → steps.new.count ≤ steps.old.count + 10 + digits }
    ensures raised { steps.old.count ≤ steps.new.count }
{
    let row = place_of_counted(&directory.separators, key, steps);
    let at = place_of_counted(directory.rows[row].keys(), key, steps);
    Spot { row, at }
}

/// The tree of the segment at a place in a row. Condition: it is there.
#[inline]
fn tree_at<'a, K: Ord, V, W: Trees<K, V>>(
    source: &'a W,
    directory: &'a Directory<K, W::Owners>,
    spot: Spot,
) -> &'a TreeIndex<K, V>
    requires view { IsView K.cmp (W.has_row source.now) (W.owners source.now) (W.has source.now) (W.pairs source.now) directory.now }
    requires inside { IsInside directory.now.ends.items spot }
    ensures pairs { slice_get (blocks_at (W.owners source.now) (W.pairs source.now) directory.now) (place_at directory.now.ends.items spot) ≡ Some result.now.pairs }
    ensures flat { result.now.depth ≤ 1 }
{
    source.tree(&source.owners(&directory.rows[spot.row].segments)[spot.at])
}

/// The greatest key of a tree.
pub fn greatest<K: Ord, V>(tree: &TreeIndex<K, V>) -> Option<&K>
    ensures { option_copied result ≡ greatest_key tree.now.pairs }
{
    match tree.iter().next_back() {
        Some((key, _)) => Some(key),
        None => None,
    }
}
