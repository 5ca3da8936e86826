//! From pair to pair, along the leaves.

ghost use Rattle.std.specs.Prelude.{◌≡◌, ◌≤◌, ◌<◌, ◌+◌, ◌-◌, IfSome, IfNone, Some, None, ℕ, List, [], ◌∷◌, ◌++◌, cond, drop, length, slice_get, take};
ghost use Rattle.std.specs.declared.cmp.Ordering.TheVariants.{Less};
ghost use Rattle.leaf_array.specs.Lookups.{deref_bound};
ghost use Rattle.std.specs.declared.ops.Bound.TheVariants.{Included, Excluded, Unbounded};
ghost use Rattle.tree_nodes.specs.Content.{pairs_of, leaves_of, IsSound};
ghost use Rattle.tree_nodes.specs.Shape.{AllKeys};
ghost use Rattle.tree_nodes.specs.Bounds.{before_start, up_to_end};
ghost use Rattle.tree_nodes.specs.Walk.{position, starts_at, ends_at, IsOwnLeaf, IsInsertionPoint, IsPosition};

use crate::arenas::Arenas;
use crate::leaf::Leaf;
use std::cmp::Ordering;
use std::ops::Bound;

/// A place in a leaf, and the leaf with its number.
#[derive_where(Clone, Copy)]
pub struct Position<'t, K: Ord, V> {
    /// The leaf. Leaf and place are public for the crate above, whose cursors over the pairs of a leaf go on from there.
    pub leaf: &'t Leaf<K, V>,
    pub(crate) at: usize,
    /// How many pairs of the leaf come before.
    pub place: usize,
}

impl<'t, K: Ord, V> Position<'t, K, V> {
    /// The pair at the place.
    #[inline(always)]
    pub fn pair(&self) -> (&'t K, &'t V)
        requires { self.now.place < length self.now.leaf.now.array.pairs }
        ensures { slice_get self.now.leaf.now.array.pairs self.now.place ≡ Some (result.0.now, result.1.now) }
    {
        self.leaf.pair(self.place)
    }

    /// The place `count` pairs further in the same leaf. It may be behind the last one.
    #[inline(always)]
    pub(crate) fn moved(&self, count: usize) -> Position<'t, K, V>
        requires { self.now.place + count ≤ length self.now.leaf.now.array.pairs }
        ensures leaf { result.leaf ≡ self.now.leaf }
        ensures at { result.at ≡ self.now.at }
        ensures place { result.place ≡ self.now.place + count }
    {
        let _ = self.leaf.len();
        Position {
            leaf: self.leaf,
            at: self.at,
            place: self.place + count,
        }
    }
}

impl<K: Ord, V> Arenas<K, V> {
    /// The first leaf, if one is planted.
    pub(crate) fn first_leaf(&self) -> Option<usize>
        requires { IsSound K.cmp self.now }
        ensures own { IsOwnLeaf self.now result }
        ensures first { starts_at self.now result ≡ 0 }
    {
        if self.height == 0 {
            return None;
        }
        let mut at = self.root;
        let mut height = self.height;
        while height > 0 {
            match self.nodes.get(at) {
                Some(node) => at = node.first(),
                None => unreachable!(),
            }
            height -= 1;
        }
        Some(at)
    }

    /// The last leaf, if one is planted.
    pub(crate) fn last_leaf(&self) -> Option<usize>
        requires { IsSound K.cmp self.now }
        ensures own { IsOwnLeaf self.now result }
        ensures last { ends_at self.now result ≡ length (pairs_of self.now) }
        ensures order { IfSome result (λ n. (fore : List ℕ) × (leaves_of self.now ≡ fore ++ n ∷ [])) }
    {
        if self.height == 0 {
            return None;
        }
        let mut at = self.root;
        let mut height = self.height;
        while height > 0 {
            match self.nodes.get(at) {
                Some(node) => at = node.last,
                None => unreachable!(),
            }
            height -= 1;
        }
        Some(at)
    }

    /// The first pair of the leaf with this number and those behind it.
    // Out of line, so that the loop around a step along one leaf stays small.
    #[inline(never)]
    pub(crate) fn first_from(&self, from: Option<usize>) -> Option<Position<'_, K, V>>
        requires sound { IsSound K.cmp self.now }
        requires own { IsOwnLeaf self.now from }
        ensures none { IfNone result (starts_at self.now from ≡ length (pairs_of self.now)) }
        ensures spot { IfSome result (λ s. IsPosition self.now s) }
        ensures there { IfSome result (λ s. position self.now s ≡ starts_at self.now from) }
        ensures front { IfSome result (λ s. s.place ≡ 0) }
    {
        let mut next = from;
        while let Some(at) = next {
            match self.leaves.get(at) {
                Some(leaf) => {
                    if leaf.len() > 0 {
                        return Some(Position { leaf, at, place: 0 });
                    }
                    next = leaf.next;
                },
                None => unreachable!(),
            }
        }
        None
    }

    /// The last pair of the leaf with this number and those before it.
    pub(crate) fn last_from(&self, from: Option<usize>) -> Option<Position<'_, K, V>>
        requires sound { IsSound K.cmp self.now }
        requires own { IsOwnLeaf self.now from }
        ensures none { IfNone result (ends_at self.now from ≡ 0) }
        ensures spot { IfSome result (λ s. IsPosition self.now s) }
        ensures there { IfSome result (λ s. position self.now s + 1 ≡ ends_at self.now from) }
    {
        let mut prev = from;
        while let Some(at) = prev {
            match self.leaves.get(at) {
                Some(leaf) => {
                    let len = leaf.len();
                    if len > 0 {
                        return Some(Position {
                            leaf,
                            at,
                            place: len - 1,
                        });
                    }
                    prev = leaf.prev;
                },
                None => unreachable!(),
            }
        }
        None
    }

    /// The pair behind one.
    #[inline(always)]
    pub fn behind<'t>(&'t self, spot: Position<'t, K, V>) -> Option<Position<'t, K, V>>
        requires sound { IsSound K.cmp self.now }
        requires spot { IsPosition self.now spot }
        ensures none { IfNone result (position self.now spot.entry + 1 ≡ length (pairs_of self.now)) }
        ensures spot { IfSome result (λ s. IsPosition self.now s) }
        ensures there { IfSome result (λ s. position self.now s ≡ position self.now spot.entry + 1) }
    {
        let len = spot.leaf.len();
        if spot.place + 1 < len {
            return Some(Position {
                leaf: spot.leaf,
                at: spot.at,
                place: spot.place + 1,
            });
        }
        match self.first_from(spot.leaf.next) {
            // The place is written out, so that a caller knows it beforehand.
            Some(first) => Some(Position {
                leaf: first.leaf,
                at: first.at,
                place: 0,
            }),
            None => None,
        }
    }

    /// The place of the pair behind one, and that pair, if both are in one leaf.
    #[inline(always)]
    pub fn beside<'t>(
        &'t self,
        spot: Position<'t, K, V>,
    ) -> Option<(Position<'t, K, V>, (&'t K, &'t V))>
        requires sound { IsSound K.cmp self.now }
        requires spot { IsPosition self.now spot }
        ensures spot { IfSome result (λ n. IsPosition self.now n.0) }
        ensures there { IfSome result (λ n. position self.now n.0 ≡ position self.now spot.entry + 1) }
        ensures pair { IfSome result (λ n. slice_get n.0.leaf.now.array.pairs n.0.place ≡ Some (n.1.0.now, n.1.1.now)) }
    {
        let _ = spot.leaf.len();
        let place = spot.place + 1;
        match spot.leaf.array.pair(place) {
            Some(pair) => Some((
                Position {
                    leaf: spot.leaf,
                    at: spot.at,
                    place,
                },
                pair,
            )),
            None => None,
        }
    }

    /// How many pairs from a place on have keys below this one; all of them, where none is named. Each leaf on the way is searched
    /// once.
    pub fn run_at(&self, spot: Position<'_, K, V>, upto: Option<&K>) -> usize
        requires sound { IsSound K.cmp self.now }
        requires spot { IsPosition self.now spot }
        ensures within { position self.now spot.entry + result ≤ length (pairs_of self.now) }
        ensures below { IfSome upto.entry (λ key. AllKeys (λ k. K.cmp k key.now ≡ Less) (take result (drop (position self.now spot.entry) (pairs_of self.now)))) }
    {
        let mut count = 0;
        let mut next = Some(spot);
        while let Some(at) = next {
            let run = self.run_in(at, upto);
            count += run;
            if at.place + run < at.leaf.len() {
                return count;
            }
            next = self.first_at(at.moved(run));
        }
        count
    }

    /// How many pairs of its leaf, from a place on, have keys below this one; all of them, where none is named.
    #[inline(always)]
    fn run_in(&self, spot: Position<'_, K, V>, upto: Option<&K>) -> usize
        requires sound { IsSound K.cmp self.now }
        requires spot { IsPosition self.now spot }
        ensures own { spot.entry.place + result ≤ length spot.entry.leaf.now.array.pairs }
        ensures within { position self.now spot.entry + result ≤ length (pairs_of self.now) }
        ensures below { IfSome upto.entry (λ key. AllKeys (λ k. K.cmp k key.now ≡ Less) (take result (drop (position self.now spot.entry) (pairs_of self.now)))) }
    {
        let Some(key) = upto else {
            return spot.leaf.len() - spot.place;
        };
        spot.leaf
            .insertion_point(key, false)
            .saturating_sub(spot.place)
    }

    /// The pair before one.
    #[inline(always)]
    pub fn before<'t>(&'t self, spot: Position<'t, K, V>) -> Option<Position<'t, K, V>>
        requires sound { IsSound K.cmp self.now }
        requires insertion_point { IsInsertionPoint self.now spot }
        ensures none { IfNone result (position self.now spot.entry ≡ 0) }
        ensures spot { IfSome result (λ s. IsPosition self.now s) }
        ensures there { IfSome result (λ s. position self.now s + 1 ≡ position self.now spot.entry) }
    {
        if spot.place > 0 {
            return Some(Position {
                leaf: spot.leaf,
                at: spot.at,
                place: spot.place - 1,
            });
        }
        self.last_from(spot.leaf.prev)
    }

    /// The pair at a place of a leaf, or the first one behind it.
    pub fn first_at<'t>(&'t self, insertion_point: Position<'t, K, V>) -> Option<Position<'t, K, V>>
        requires sound { IsSound K.cmp self.now }
        requires insertion_point { IsInsertionPoint self.now insertion_point }
        ensures none { IfNone result (position self.now insertion_point.entry ≡ length (pairs_of self.now)) }
        ensures spot { IfSome result (λ s. IsPosition self.now s) }
        ensures there { IfSome result (λ s. position self.now s ≡ position self.now insertion_point.entry) }
    {
        if insertion_point.place < insertion_point.leaf.len() {
            return Some(insertion_point);
        }
        self.first_from(insertion_point.leaf.next)
    }

    /// The place in the leaf on the way to a key behind all pairs with a lesser key, and where it is
    /// asked for behind the one with the key too. It may be behind the last pair of the leaf.
    pub fn insertion_point(&self, key: &K, beyond: bool) -> Option<Position<'_, K, V>>
        requires { IsSound K.cmp self.now }
        ensures none { IfNone result (pairs_of self.now ≡ []) }
        ensures insertion_point { IfSome result (λ s. IsInsertionPoint self.now s) }
        ensures there { IfSome result (λ s. position self.now s ≡ before_start K.cmp (cond beyond (Excluded key.now) (Included key.now)) (pairs_of self.now)) }
    {
        let at = self.leaf_of(key);
        match self.leaves.get(at) {
            Some(leaf) => Some(Position {
                leaf,
                at,
                place: leaf.insertion_point(key, beyond),
            }),
            None => None,
        }
    }

    /// The first pair whose key isn't less than a key, or where it is asked `beyond` the key, is greater.
    fn first_past(&self, key: &K, beyond: bool) -> Option<Position<'_, K, V>>
        requires { IsSound K.cmp self.now }
        ensures none { IfNone result (before_start K.cmp (cond beyond (Excluded key.now) (Included key.now)) (pairs_of self.now) ≡ length (pairs_of self.now)) }
        ensures spot { IfSome result (λ s. IsPosition self.now s) }
        ensures there { IfSome result (λ s. position self.now s ≡ before_start K.cmp (cond beyond (Excluded key.now) (Included key.now)) (pairs_of self.now)) }
    {
        match self.insertion_point(key, beyond) {
            Some(insertion_point) => self.first_at(insertion_point),
            None => None,
        }
    }

    /// The last pair whose key is less than a key, or where it is asked `beyond` the key, isn't greater.
    fn last_up_to(&self, key: &K, beyond: bool) -> Option<Position<'_, K, V>>
        requires { IsSound K.cmp self.now }
        ensures none { IfNone result (before_start K.cmp (cond beyond (Excluded key.now) (Included key.now)) (pairs_of self.now) ≡ 0) }
        ensures spot { IfSome result (λ s. IsPosition self.now s) }
        ensures there { IfSome result (λ s. position self.now s + 1 ≡ before_start K.cmp (cond beyond (Excluded key.now) (Included key.now)) (pairs_of self.now)) }
    {
        match self.insertion_point(key, beyond) {
            Some(insertion_point) => self.before(insertion_point),
            None => None,
        }
    }

    /// The first pair within a lower bound.
    #[inline(never)]
    pub fn first_within(&self, lower: Bound<&K>) -> Option<Position<'_, K, V>>
        requires { IsSound K.cmp self.now }
        ensures none { IfNone result (before_start K.cmp (deref_bound lower.entry) (pairs_of self.now) ≡ length (pairs_of self.now)) }
        ensures spot { IfSome result (λ s. IsPosition self.now s) }
        ensures there { IfSome result (λ s. position self.now s ≡ before_start K.cmp (deref_bound lower.entry) (pairs_of self.now)) }
    {
        match lower {
            Bound::Included(key) => self.first_past(key, false),
            Bound::Excluded(key) => self.first_past(key, true),
            Bound::Unbounded => self.first_from(self.first_leaf()),
        }
    }

    /// The last pair within an upper bound.
    pub fn last_within(&self, upper: Bound<&K>) -> Option<Position<'_, K, V>>
        requires { IsSound K.cmp self.now }
        ensures none { IfNone result (up_to_end K.cmp (deref_bound upper.entry) (pairs_of self.now) ≡ 0) }
        ensures spot { IfSome result (λ s. IsPosition self.now s) }
        ensures there { IfSome result (λ s. position self.now s + 1 ≡ up_to_end K.cmp (deref_bound upper.entry) (pairs_of self.now)) }
    {
        match upper {
            Bound::Included(key) => self.last_up_to(key, true),
            Bound::Excluded(key) => self.last_up_to(key, false),
            Bound::Unbounded => self.last_from(self.last_leaf()),
        }
    }
}
