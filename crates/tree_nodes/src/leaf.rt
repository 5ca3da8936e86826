//! A leaf of a tree, which is public, and what a tree does with one.

ghost use Rattle.std.specs.Prelude.{◌≡◌, ◌≤◌, ◌<◌, ◌+◌, ◌-◌, ◌||◌, ◌&&◌, ◌==◌, IsTrue, IsSome, IfSome, IfOk, OnOk, Some, None, true, false, not, cond, length, slice_get, take, drop, [], ◌∷◌, ◌++◌};
ghost use Rattle.std.specs.declared.cmp.Ordering.TheVariants.{Less};
ghost use Rattle.std.specs.BTreeMap.{is_at};
ghost use Rattle.std.specs.Map.{lookup_entry};
ghost use Rattle.std.specs.Fn.{FnOnceReturnsAt, FnOnceTakesAt};
ghost use Rattle.std.specs.List.{filter};
ghost use Rattle.std.specs.BTreeMap.Range.{range_contains, is_from_start, is_past_end};
ghost use Rattle.tree_nodes.specs.Shape.{AllKeys};
ghost use Rattle.leaf_array.specs.Cells.{no_cells};
ghost use Rattle.leaf_array.specs.Edits.{removed, upserted};
ghost use Rattle.leaf_array.specs.Lookups.{deref_bound};
ghost use Rattle.leaf_array.specs.Pairs.{has_key, IsAscending};
ghost use Rattle.leaf_array.specs.Values.{ClonesAreSame};
ghost use Rattle.std.specs.declared.ops.Bound.TheVariants.{Included, Excluded};
ghost use Rattle.tree_nodes.specs.Bounds.{before_start};
ghost use Rattle.tree_nodes.specs.SplitPoints.{IsSplitPoint, key_at, last_key, is_keyed};
ghost use Rattle.leaf_array.specs.Results.{is_removal, IsSuccess, IsDuplicate, IsFull, given_back};

use leaf_array::{Array, InsertResult, RemoveResult};
use std::alloc::AllocError;
use std::cmp::Ordering;
use std::mem;
use std::ops::Bound;

/// A leaf of a tree: at most fifteen pairs by rising keys, and the numbers of its neighbours.
/// (`scc`'s `tree_index::leaf::Leaf`.)
///
/// The pairs are read and written by the calls of its [`Array`].
#[derive(Drop)]
pub struct Leaf<K: Ord, V> {
    /// The pairs.
    pub array: Array<K, V>,
    /// The number of the leaf before it in the arena of its tree, if there is one.
    pub prev: Option<usize>,
    /// The number of the leaf behind it, if there is one.
    pub next: Option<usize>,
}

impl<K: Ord, V> Leaf<K, V> {
    /// A leaf without pairs and without neighbours.
    #[inline]
    pub fn new() -> Self
        ensures array { result.array ≡ no_cells false }
        ensures prev { result.prev ≡ None }
        ensures next { result.next ≡ None }
    {
        Leaf {
            array: Array::new(),
            prev: None,
            next: None,
        }
    }

    /// Inserts a pair, and where `UPSERT` is true writes it over the one that has its key.
    #[inline(always)]
    pub(crate) fn insert<const UPSERT: bool>(&mut self, key: K, val: V) -> InsertResult<K, V>
    where
        K: Drop,
        V: Drop,
        requires { self.old.array.frozen ≡ false }
        ensures thawed { self.new.array.frozen ≡ false }
        ensures prev { self.new.prev ≡ self.old.prev }
        ensures next { self.new.next ≡ self.old.next }
        ensures back { IfSome (given_back result) (λ p. p ≡ (key, val)) }
        ensures kept { IsSome (given_back result) → self.new.array ≡ self.old.array }
        ensures full { IsFull result → IsTrue (self.old.array.retired || self.old.array.used == 15) }
        ensures absent { IsFull result → has_key K.cmp key self.old.array.pairs ≡ false }
        ensures duplicate { IsDuplicate result → has_key K.cmp key self.old.array.pairs ≡ true }
        ensures repeated { IsDuplicate result → UPSERT ≡ false }
        ensures unique { IsSuccess result → UPSERT ≡ false → has_key K.cmp key self.old.array.pairs ≡ false }
        ensures done { IsSuccess result → self.new.array.pairs ≡ upserted K.cmp key val self.old.array.pairs }
        ensures used { IsSuccess result → self.new.array.used ≤ self.old.array.used + 1 }
    {
        let _ = self.array.len();
        self.array.put::<UPSERT>(key, val)
    }

    /// Puts a pair behind all others, whose keys are lesser.
    #[inline(always)]
    pub(crate) fn push(&mut self, key: K, val: V)
        requires room { self.old.array.used < 15 }
        requires above { AllKeys (λ k. K.cmp k key ≡ Less) self.old.array.pairs }
        ensures pairs { self.new.array.pairs ≡ self.old.array.pairs ++ (key, val) ∷ [] }
        ensures rising { IsAscending K.cmp self.new.array.pairs }
        ensures used { self.new.array.used ≡ self.old.array.used + 1 }
        ensures frozen { self.new.array.frozen ≡ self.old.array.frozen }
        ensures prev { self.new.prev ≡ self.old.prev }
        ensures next { self.new.next ≡ self.old.next }
    {
        self.array.push_last(key, val);
        let _ = self.array.len();
    }

    /// Appends clones of `count` pairs of another leaf, from a place on, whose keys are greater than all here. This leaf keeps
    /// none that was removed or replaced.
    #[inline]
    pub(crate) fn extend(
        &mut self,
        source: &Leaf<K, V>,
        from: usize,
        count: usize,
    ) -> Result<(), AllocError>
    where
        K: Clone + Drop,
        V: Clone + Drop,
        requires keys { ClonesAreSame K.is_clone }
        requires values { ClonesAreSame V.is_clone }
        requires living { self.old.array.retired ≡ false }
        requires packed { self.old.array.used ≡ length self.old.array.pairs }
        requires room { self.old.array.used + count ≤ 15 }
        requires within { from + count ≤ length source.now.array.pairs }
        requires rising { IsAscending K.cmp (self.old.array.pairs ++ take count (drop from source.now.array.pairs)) }
        ensures pairs { OnOk result (self.new.array.pairs ≡ self.old.array.pairs ++ take count (drop from source.now.array.pairs)) }
        ensures used { OnOk result (self.new.array.used ≡ self.old.array.used + count) }
        ensures frozen { self.new.array.frozen ≡ self.old.array.frozen }
        ensures prev { self.new.prev ≡ self.old.prev }
        ensures next { self.new.next ≡ self.old.next }
    {
        let _ = self.len();
        let done = self.array.extend_last(&source.array, from, count);
        if done < count {
            return Err(AllocError);
        }
        Ok(())
    }

    /// The pair at a place.
    #[inline(always)]
    pub(crate) fn pair(&self, at: usize) -> (&K, &V)
        requires { at < length self.now.array.pairs }
        ensures { slice_get self.now.array.pairs at ≡ Some (result.0.now, result.1.now) }
    {
        match self.array.pair(at) {
            Some(pair) => pair,
            None => unreachable!(),
        }
    }

    /// Removes the pair with this key, if the condition answers true of its value.
    #[inline(always)]
    pub(crate) fn remove_if<F: FnOnce(&V) -> bool>(&mut self, key: &K, condition: F) -> bool
    where
        F: Drop,
        requires callable { IfSome (lookup_entry (is_at (K.cmp key.now)) self.old.array.pairs) (λ e. FnOnceTakesAt F.FnOnce condition e.1) }
        requires thawed { self.old.array.frozen ≡ false }
        ensures thawed { self.new.array.frozen ≡ false }
        ensures prev { self.new.prev ≡ self.old.prev }
        ensures next { self.new.next ≡ self.old.next }
        ensures absent { lookup_entry (is_at (K.cmp key.now)) self.old.array.pairs ≡ None → result ≡ false }
        ensures asked { IfSome (lookup_entry (is_at (K.cmp key.now)) self.old.array.pairs) (λ e. FnOnceReturnsAt F.FnOnce condition e.1 result) }
        ensures removed { result ≡ true → self.new.array.pairs ≡ removed K.cmp key.now self.old.array.pairs }
        ensures kept { result ≡ false → self.new.array ≡ self.old.array }
    {
        let _ = self.array.len();
        is_removal(self.array.remove_if(key, condition))
    }

    /// Removes the pairs whose keys lie within two bounds.
    pub(crate) fn remove_range(&mut self, lower: Bound<&K>, upper: Bound<&K>)
        ensures pairs { self.new.array.pairs ≡ filter (λ p. not (range_contains K.cmp (deref_bound lower.entry) (deref_bound upper.entry) p.0)) self.old.array.pairs }
        ensures thawed { self.new.array.frozen ≡ self.old.array.frozen }
        ensures prev { self.new.prev ≡ self.old.prev }
        ensures next { self.new.next ≡ self.old.next }
    {
        self.array.remove_range(lower, upper);
    }

    /// Whether the leaf has pairs, and all lie within two bounds.
    pub(crate) fn lies_within(&self, lower: &Bound<&K>, upper: &Bound<&K>) -> bool
        ensures some { result ≡ true → 0 < length self.now.array.pairs }
        ensures within { result ≡ true → AllKeys (λ k. range_contains K.cmp (deref_bound lower.now) (deref_bound upper.now) k ≡ true) self.now.array.pairs }
    {
        let len = self.array.len();
        if len == 0 {
            return false;
        }
        let first = self.key(0);
        let last = self.key(len - 1);
        starts_in(lower, first) && !ends_out(upper, last)
    }

    /// Whether the leaf has a pair past an upper bound.
    pub(crate) fn ends_past(&self, upper: &Bound<&K>) -> bool
        ensures some { result ≡ true → 0 < length self.now.array.pairs }
        ensures past { result ≡ true → IfSome (last_key self.now.array.pairs) (λ k. is_past_end K.cmp (deref_bound upper.now) k ≡ true) }
    {
        let len = self.array.len();
        if len == 0 {
            return false;
        }
        ends_out(upper, self.key(len - 1))
    }

    /// How many pairs the leaf has. They rise.
    #[inline(always)]
    pub(crate) fn len(&self) -> usize
        ensures count { result ≡ length self.now.array.pairs }
        ensures rising { IsAscending K.cmp self.now.array.pairs }
        ensures within { result ≤ 15 }
        ensures used { result ≤ self.now.array.used }
        ensures most { self.now.array.used ≤ 15 }
        ensures living { self.now.array.retired ≡ true → result ≡ 0 }
    {
        self.array.len()
    }

    /// How many pairs have a lesser key, or where it is asked `beyond` the key, one that isn't greater.
    #[inline]
    pub(crate) fn insertion_point(&self, key: &K, beyond: bool) -> usize
        ensures place { result ≡ before_start K.cmp (cond beyond (Excluded key.now) (Included key.now)) self.now.array.pairs }
        ensures most { result ≤ length self.now.array.pairs }
    {
        let _ = self.array.len();
        let place = self.array.lower_bound(key).0;
        if beyond && self.stands_at(place, key) {
            place + 1
        } else {
            place
        }
    }

    /// Whether the pair at a place has the key.
    fn stands_at(&self, place: usize, key: &K) -> bool
        ensures { result ≡ is_keyed K.cmp key.now (slice_get self.now.array.pairs place) }
    {
        match self.array.pair(place) {
            Some((stored, _)) => stored.cmp(key).is_eq(),
            None => false,
        }
    }

    /// Drops what was removed or replaced, so that its places are clear again.
    pub(crate) fn pack(&mut self)
    where
        K: Drop,
        V: Drop,
        ensures pairs { self.new.array.pairs ≡ self.old.array.pairs }
        ensures thawed { self.new.array.frozen ≡ self.old.array.frozen }
        ensures living { self.new.array.retired ≡ false }
        ensures used { self.new.array.used ≡ length self.old.array.pairs }
        ensures prev { self.new.prev ≡ self.old.prev }
        ensures next { self.new.next ≡ self.old.next }
    {
        self.array.pack();
    }

    /// Where the leaf is cut so that the key has room: behind its greatest pair if the key is greater
    /// still, so that pairs which come by rising keys fill their leaves, else in its middle.
    pub(crate) fn split_point(&self, key: &K) -> Result<SplitPoint<K>, AllocError>
    where
        K: Clone,
        requires clones { ClonesAreSame K.is_clone }
        requires crowded { 12 ≤ length self.now.array.pairs }
        ensures { IfOk result (λ split_point. IsSplitPoint K.cmp key.now self.now.array.pairs split_point) }
    {
        let greatest = self.key(self.array.len() - 1);
        match greatest.cmp(key) {
            Ordering::Less => Ok(SplitPoint {
                separator: greatest.clone()?,
                whole: true,
            }),
            _ => Ok(SplitPoint {
                separator: self.key(7).clone()?,
                whole: false,
            }),
        }
    }

    /// The key of the pair at a place.
    pub(crate) fn key(&self, at: usize) -> &K
        requires { at < length self.now.array.pairs }
        ensures { key_at self.now.array.pairs at ≡ Some result.now }
    {
        match self.array.pair(at) {
            Some((key, _)) => key,
            None => unreachable!(),
        }
    }

    /// Moves the pairs up to the cut to a leaf of their own, before this one, whose number is given.
    pub(crate) fn split(&mut self, whole: bool, own: usize) -> Leaf<K, V>
    where
        K: Drop,
        V: Drop,
        ensures lower { result.array.pairs ≡ take (cond whole (length self.old.array.pairs) 8) self.old.array.pairs }
        ensures upper { self.new.array.pairs ≡ drop (cond whole (length self.old.array.pairs) 8) self.old.array.pairs }
        ensures lower_thawed { self.old.array.frozen ≡ false → result.array.frozen ≡ false }
        ensures upper_thawed { self.old.array.frozen ≡ false → self.new.array.frozen ≡ false }
        ensures lower_living { result.array.retired ≡ (whole && self.old.array.retired) }
        ensures upper_living { self.new.array.retired ≡ false }
        ensures lower_used { whole ≡ false → result.array.used ≤ 8 }
        ensures upper_used { self.new.array.used ≤ 7 }
        ensures upper_clear { whole ≡ true → self.new.array.used ≡ 0 }
        ensures rising { IsAscending K.cmp self.old.array.pairs }
        ensures lower_rising { IsAscending K.cmp result.array.pairs }
        ensures upper_rising { IsAscending K.cmp self.new.array.pairs }
        ensures prev { self.new.prev ≡ self.old.prev }
        ensures next { self.new.next ≡ self.old.next }
        ensures lower_prev { result.prev ≡ self.old.prev }
        ensures lower_next { result.next ≡ Some own }
    {
        let _ = self.array.len();
        let array = if whole {
            mem::replace(&mut self.array, Array::new())
        } else {
            self.array.split_half()
        };
        let _ = array.len();
        let _ = self.array.len();
        Leaf {
            array,
            prev: self.prev,
            next: Some(own),
        }
    }
}

/// Whether a key lies within a lower bound.
fn starts_in<K: Ord>(lower: &Bound<&K>, key: &K) -> bool
    ensures { result ≡ is_from_start K.cmp (deref_bound lower.now) key.now }
{
    match lower {
        Bound::Included(low) => (*low).cmp(key).is_le(),
        Bound::Excluded(low) => (*low).cmp(key).is_lt(),
        Bound::Unbounded => true,
    }
}

/// Whether a key lies past an upper bound.
fn ends_out<K: Ord>(upper: &Bound<&K>, key: &K) -> bool
    ensures { result ≡ is_past_end K.cmp (deref_bound upper.now) key.now }
{
    match upper {
        Bound::Included(high) => (*high).cmp(key).is_lt(),
        Bound::Excluded(high) => (*high).cmp(key).is_le(),
        Bound::Unbounded => false,
    }
}

/// Whether a pair was removed.
#[inline(always)]
fn is_removal(answer: RemoveResult) -> bool
    ensures { result ≡ is_removal answer }
{
    match answer {
        RemoveResult::Success | RemoveResult::Retired => true,
        RemoveResult::Fail | RemoveResult::Frozen => false,
    }
}

/// Where a leaf is cut: the greatest key below the cut, and whether all of its pairs are below it.
#[derive(Drop)]
pub(crate) struct SplitPoint<K> {
    pub(crate) separator: K,
    pub(crate) whole: bool,
}
