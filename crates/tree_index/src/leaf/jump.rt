//! The way from a leaf to the next one that has pairs, by keys.

ghost use Rattle.std.specs.Prelude.{◌≡◌, ◌+◌, IfSome, IsSome, MatchOption, None, option_copied, slice_get};
ghost use Rattle.std.specs.declared.ops.Bound.{Bound};
ghost use Rattle.std.specs.declared.ops.Bound.TheVariants.{Excluded};
ghost use Rattle.tree_nodes.specs.Content.{pairs_of, IsSound};
ghost use Rattle.tree_index.specs.Cursor.{before_start, up_to_end};
ghost use Rattle.tree_index.specs.LeafCursor.{at_start, cursor_at, key_before, key_behind, IsFirstAbove, IsFirstBehind, IsLastBefore, IsLastBelow, IsPart, IsRankOfFirst, IsRankOfLast, next_greater, next_lesser, ranked, stood};
ghost use Rattle.tree_nodes.specs.Walk.{position, IsFirstPosition, IsLastPosition, IsPosition};

use crate::leaf::{LeafPosition, ranked};
use std::ops::Bound;
use tree_nodes::{Arenas, Leaf, Position};

impl<'l, K: Ord, V> LeafPosition<'l, K, V> {
    /// The first pair behind those of its leaf.
    pub(crate) fn past(&self, arenas: &'l Arenas<K, V>) -> Option<LeafPosition<'l, K, V>>
        requires { IsSound K.cmp arenas.now }
        ensures pair { MatchOption (key_behind (cursor_at self.now)) (stood result ≡ None) (λ k. stood result ≡ next_greater K.cmp k (pairs_of arenas.now)) }
        ensures there { IfSome result (λ s. IsSome (ranked s.rank s.leaf.now.array.pairs)) }
        ensures part { IfSome result (λ s. IsPart s.leaf.now.array.pairs (pairs_of arenas.now)) }
        ensures end { IfSome result (λ s. IfSome (key_behind (cursor_at self.now)) (λ k. IsFirstAbove K.cmp k (cursor_at s))) }
    {
        match past(arenas, self.leaf) {
            Some(spot) => Some(leaf_position(arenas, spot)),
            None => None,
        }
    }

    /// The last pair before those of its leaf.
    pub(crate) fn short_of(&self, arenas: &'l Arenas<K, V>) -> Option<LeafPosition<'l, K, V>>
        requires { IsSound K.cmp arenas.now }
        ensures pair { MatchOption (key_before (cursor_at self.now)) (stood result ≡ None) (λ k. stood result ≡ next_lesser K.cmp k (pairs_of arenas.now)) }
        ensures there { IfSome result (λ s. IsSome (ranked s.rank s.leaf.now.array.pairs)) }
        ensures part { IfSome result (λ s. IsPart s.leaf.now.array.pairs (pairs_of arenas.now)) }
        ensures end { IfSome result (λ s. IfSome (key_before (cursor_at self.now)) (λ k. IsLastBelow K.cmp k (cursor_at s))) }
    {
        match short_of(arenas, self.leaf) {
            Some(spot) => Some(leaf_position(arenas, spot)),
            None => None,
        }
    }
}

/// The rank of a place in its leaf.
fn leaf_position<'t, K: Ord, V>(
    arenas: &'t Arenas<K, V>,
    spot: Position<'t, K, V>,
) -> LeafPosition<'t, K, V>
    requires sound { IsSound K.cmp arenas.now }
    requires spot { IsPosition arenas.now spot }
    ensures pair { ranked result.rank result.leaf.now.array.pairs ≡ slice_get (pairs_of arenas.now) (position arenas.now spot.entry) }
    ensures there { IsSome (ranked result.rank result.leaf.now.array.pairs) }
    ensures part { IsPart result.leaf.now.array.pairs (pairs_of arenas.now) }
    ensures first { IsRankOfFirst K.cmp arenas.now (position arenas.now spot.entry) result }
    ensures last { IsRankOfLast K.cmp arenas.now (position arenas.now spot.entry) result }
{
    let _ = spot.leaf.array.len();
    LeafPosition {
        leaf: spot.leaf,
        rank: spot.place + 1,
    }
}

/// The first pair behind those of a leaf.
fn past<'t, K: Ord, V>(arenas: &'t Arenas<K, V>, leaf: &'t Leaf<K, V>) -> Option<Position<'t, K, V>>
    requires { IsSound K.cmp arenas.now }
    ensures spot { IfSome result (λ s. IsPosition arenas.now s) }
    ensures there { IsFirstBehind K.cmp arenas.now leaf.now.array result }
{
    match last_key(leaf) {
        Some(key) => arenas.first_within(Bound::Excluded(key)),
        None => None,
    }
}

/// The last pair before those of a leaf.
fn short_of<'t, K: Ord, V>(
    arenas: &'t Arenas<K, V>,
    leaf: &'t Leaf<K, V>,
) -> Option<Position<'t, K, V>>
    requires { IsSound K.cmp arenas.now }
    ensures spot { IfSome result (λ s. IsPosition arenas.now s) }
    ensures there { IsLastBefore K.cmp arenas.now leaf.now.array result }
{
    match first_key(leaf) {
        Some(key) => arenas.last_within(Bound::Excluded(key)),
        None => None,
    }
}

/// The key of the last pair of a leaf; where it has none, of the one that was lost last.
fn last_key<K: Ord, V>(leaf: &Leaf<K, V>) -> Option<&K>
    ensures { option_copied result ≡ key_behind (at_start leaf.now.array) }
{
    match ranked(leaf, leaf.array.len()) {
        Some((key, _)) => Some(key),
        None => leaf.array.last_removed(),
    }
}

/// The key of the first pair of a leaf; where it has none, of the one that was lost last.
fn first_key<K: Ord, V>(leaf: &Leaf<K, V>) -> Option<&K>
    ensures { option_copied result ≡ key_before (at_start leaf.now.array) }
{
    match ranked(leaf, 1) {
        Some((key, _)) => Some(key),
        None => leaf.array.last_removed(),
    }
}
