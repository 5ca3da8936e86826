//! A cursor over the pairs of one leaf, by rising keys.

ghost use Rattle.std.specs.Prelude.{◌≡◌, ◌-◌, IfNone, IfSome, MatchOption, None, Some, length, option_copied};
ghost use Rattle.tree_index.specs.Cursor.{deref_pair};
ghost use Rattle.tree_nodes.specs.SplitPoints.{key_at};
ghost use Rattle.tree_index.specs.LeafCursor.{at_start, key_behind, next_greater, IsFirstAbove, ranked, IsPart};

use crate::index::TreeIndex;
use crate::leaf::{LeafPosition, RevIter, ranked};
use std::marker::Model;
use tree_nodes::Leaf;

/// A cursor over the pairs of a leaf, in ascending order. (`scc`'s `tree_index::leaf::Iter`.)
///
/// It is at the start, before all pairs, or at a pair. Past the last one it gives none and stays
/// where it is.
///
/// Of the keys 1 and 2, `next` gives 1, then 2, then none. `get` gives none before the first `next`, and 2 at the end.
#[derive(Drop)]
pub struct Iter<'l, K: Ord, V> {
    pub(crate) at: LeafPosition<'l, K, V>,
}

impl<'l, K: Ord, V> Model for Iter<'l, K, V> {
    ghost use Rattle.tree_index.specs.LeafCursor.{LeafCursor, leaf_cursor_code, cursor_at};

    ghost Value = { LeafCursor K V };

    ghost coded = { leaf_cursor_code K.code V.code };

    ghost view = { λ i. cursor_at i.at };
}

impl<'l, K: Ord, V> Iter<'l, K, V> {
    /// A cursor at the start of a leaf.
    pub fn new(leaf: &'l Leaf<K, V>) -> Self
        ensures { result ≡ at_start leaf.now.array }
    {
        Iter {
            at: LeafPosition { leaf, rank: 0 },
        }
    }

    /// The pair that it is at; none at the start.
    pub fn get(&self) -> Option<(&'l K, &'l V)>
        ensures { deref_pair result ≡ ranked self.now.rank self.now.pairs }
    {
        self.at.pair()
    }

    /// The greatest key of the leaf, wherever the cursor is; none if the leaf has no pair.
    pub fn max_key(&self) -> Option<&'l K>
        ensures { option_copied result ≡ key_at self.now.pairs (length self.now.pairs - 1) }
    {
        match ranked(self.at.leaf, self.at.leaf.array.len()) {
            Some((key, _)) => Some(key),
            None => None,
        }
    }

    /// Moves to the first pair of the next leaf of the tree that has one, and gives it. If there is none,
    /// it stays.
    ///
    /// The tree, which is the one that the leaf is of, is searched for the first pair whose key is greater than
    /// all of the leaf's; where the leaf lost its pairs, greater than the key of the one that it lost last. A
    /// leaf that has none, and keeps none that it lost, leads nowhere.
    ///
    /// If it moves, then to the first pair of the new leaf above that key: the first of all its pairs, if the old
    /// leaf is one of the tree.
    pub fn jump(&mut self, tree: &'l TreeIndex<K, V>) -> Option<(&'l K, &'l V)>
        ensures next { MatchOption (key_behind self.old) (result ≡ None) (λ k. deref_pair result ≡ next_greater K.cmp k tree.now.pairs) }
        ensures shown { IfSome result (λ p. ranked self.new.rank self.new.pairs ≡ Some (p.0.now, p.1.now)) }
        ensures leaf { IfSome result (λ p. IsPart self.new.pairs tree.now.pairs) }
        ensures end { IfSome result (λ p. IfSome (key_behind self.old) (λ k. IsFirstAbove K.cmp k self.new)) }
        ensures stays { IfNone result (self.new ≡ self.old) }
    {
        match self.at.past(&tree.arenas) {
            Some(at) => {
                self.at = at;
                self.get()
            },
            None => None,
        }
    }

    /// Moves to the start.
    pub fn rewind(&mut self)
        ensures { self.new ≡ record self.old { rank = 0 } }
    {
        self.at.rank = 0;
    }

    /// The cursor in the other direction: at the same pair, in descending order.
    pub fn rev(self) -> RevIter<'l, K, V>
        ensures { result ≡ self.entry }
    {
        RevIter { at: self.at }
    }

    /// Another cursor at the same pair.
    pub fn clone(&self) -> Self
        ensures { result ≡ self.now }
    {
        Self { at: self.at }
    }
}

impl<'l, K: Ord, V> Iterator for Iter<'l, K, V> {
    ghost use Rattle.std.specs.Iterator.{at_most};
    ghost use Rattle.tree_index.specs.LeafCursor.{MovesTo, pairs_above, rank_above};

    type Item = (&'l K, &'l V);

    ghost next_gives = { MovesTo rank_above };

    ghost remaining = { λ c. at_most (pairs_above c) };

    /// The pair with the next greater key. Where there is none it stays.
    fn next(&mut self) -> Option<(&'l K, &'l V)> {
        if self.at.rank < self.at.leaf.array.len() {
            self.at.rank += 1;
            self.get()
        } else {
            None
        }
    }
}
