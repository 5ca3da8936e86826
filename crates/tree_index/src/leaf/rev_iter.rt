//! A cursor over the pairs of one leaf, by falling keys.

ghost use Rattle.std.specs.Prelude.{◌≡◌, IfNone, IfSome, MatchOption, None, Some, option_copied};
ghost use Rattle.tree_index.specs.Cursor.{deref_pair};
ghost use Rattle.tree_nodes.specs.SplitPoints.{key_at};
ghost use Rattle.tree_index.specs.LeafCursor.{at_start, key_before, next_lesser, IsLastBelow, ranked, IsPart};

use crate::index::TreeIndex;
use crate::leaf::{Iter, LeafPosition, ranked};
use std::marker::Model;
use tree_nodes::Leaf;

/// A cursor over the pairs of a leaf, in descending order. (`scc`'s `tree_index::leaf::RevIter`.)
///
/// It is at the start, behind all pairs, or at a pair. Past the first one it gives none and stays
/// where it is.
///
/// Of the keys 1 and 2, the first `next` gives 2. Turned by `rev`, the cursor is still at 2.
#[derive(Drop)]
pub struct RevIter<'l, K: Ord, V> {
    pub(crate) at: LeafPosition<'l, K, V>,
}

impl<'l, K: Ord, V> Model for RevIter<'l, K, V> {
    ghost use Rattle.tree_index.specs.LeafCursor.{LeafCursor, leaf_cursor_code, cursor_at};

    ghost Value = { LeafCursor K V };

    ghost coded = { leaf_cursor_code K.code V.code };

    ghost view = { λ i. cursor_at i.at };
}

impl<'l, K: Ord, V> RevIter<'l, K, V> {
    /// A cursor at the start of a leaf.
    pub fn new(leaf: &'l Leaf<K, V>) -> Self
        ensures { result ≡ at_start leaf.now.array }
    {
        RevIter {
            at: LeafPosition { leaf, rank: 0 },
        }
    }

    /// The pair that it is at; none at the start.
    pub fn get(&self) -> Option<(&'l K, &'l V)>
        ensures { deref_pair result ≡ ranked self.now.rank self.now.pairs }
    {
        self.at.pair()
    }

    /// The least key of the leaf, wherever the cursor is; none if the leaf has no pair.
    pub fn min_key(&self) -> Option<&'l K>
        ensures { option_copied result ≡ key_at self.now.pairs 0 }
    {
        match ranked(self.at.leaf, 1) {
            Some((key, _)) => Some(key),
            None => None,
        }
    }

    /// Moves to the last pair of the nearest leaf before it in the tree that has one, and gives it. If there
    /// is none, it stays.
    ///
    /// The tree, which is the one that the leaf is of, is searched for the last pair whose key is less than
    /// all of the leaf's; where the leaf lost its pairs, less than the key of the one that it lost last. A
    /// leaf that has none, and keeps none that it lost, leads nowhere.
    ///
    /// If it moves, then to the last pair of the new leaf below that key: the last of all its pairs, if the old
    /// leaf is one of the tree.
    pub fn jump(&mut self, tree: &'l TreeIndex<K, V>) -> Option<(&'l K, &'l V)>
        ensures next { MatchOption (key_before self.old) (result ≡ None) (λ k. deref_pair result ≡ next_lesser K.cmp k tree.now.pairs) }
        ensures shown { IfSome result (λ p. ranked self.new.rank self.new.pairs ≡ Some (p.0.now, p.1.now)) }
        ensures leaf { IfSome result (λ p. IsPart self.new.pairs tree.now.pairs) }
        ensures end { IfSome result (λ p. IfSome (key_before self.old) (λ k. IsLastBelow K.cmp k self.new)) }
        ensures stays { IfNone result (self.new ≡ self.old) }
    {
        match self.at.short_of(&tree.arenas) {
            Some(at) => {
                self.at = at;
                self.get()
            },
            None => None,
        }
    }

    /// Moves to the start.
    pub fn rewind(&mut self)
        ensures { self.new ≡ record self.old { rank = 0 } }
    {
        self.at.rank = 0;
    }

    /// The cursor in the other direction: at the same pair, in ascending order.
    pub fn rev(self) -> Iter<'l, K, V>
        ensures { result ≡ self.entry }
    {
        Iter { at: self.at }
    }

    /// Another cursor at the same pair.
    pub fn clone(&self) -> Self
        ensures { result ≡ self.now }
    {
        Self { at: self.at }
    }
}

impl<'l, K: Ord, V> Iterator for RevIter<'l, K, V> {
    ghost use Rattle.std.specs.Iterator.{at_most};
    ghost use Rattle.tree_index.specs.LeafCursor.{MovesTo, pairs_below, rank_below};

    type Item = (&'l K, &'l V);

    ghost next_gives = { MovesTo rank_below };

    ghost remaining = { λ c. at_most (pairs_below c) };

    /// The pair with the next smaller key; from the start that with the greatest one. Where there is none
    /// it stays.
    fn next(&mut self) -> Option<(&'l K, &'l V)> {
        let below = if self.at.rank == 0 {
            self.at.leaf.array.len()
        } else {
            self.at.rank - 1
        };
        if below == 0 {
            return None;
        }
        self.at.rank = below;
        self.get()
    }
}
