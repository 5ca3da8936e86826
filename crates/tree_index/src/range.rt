//! A cursor over the pairs of a tree within two bounds.

ghost use Rattle.std.specs.Prelude.{◌≡◌};
ghost use Rattle.tree_index.specs.Cursor.{shown_forth, shown_back, can_turn, turned, deref_pair};

use crate::cursor::Ends;
use crate::take::Take;
use std::marker::Model;
use std::ops::Bound;

/// A cursor over the pairs of a tree within two bounds, as [`Iter`](crate::Iter) is one over all.
/// (`scc`'s `tree_index::Range`.)
///
/// The forward end starts at the first pair within the lower bound and gives pairs as long as they lie
/// within the upper one; the backward end is its mirror. Reversed bounds contain no pair.
#[derive(Drop)]
pub struct Range<'t, K: Ord, V> {
    pub(crate) ends: Ends<'t, K, V>,
    pub(crate) lower: Bound<&'t K>,
    pub(crate) upper: Bound<&'t K>,
}

/// Invariant: specs/Ends.antt, IsReady: both ends are at places of a sound tree.
impl<'t, K: Ord, V> Model for Range<'t, K, V> {
    ghost use Rattle.leaf_array.specs.Lookups.{deref_bound};
    ghost use Rattle.tree_index.specs.Cursor.{Cursor, cursor_code};
    ghost use Rattle.tree_index.specs.Ends.{IsReady, cursor_of};

    ghost Value = { Cursor K V };

    ghost coded = { cursor_code K.code V.code };

    ghost view = { λ r. cursor_of r.ends (deref_bound r.lower) (deref_bound r.upper) };

    ghost invariant = { λ r. IsReady K.cmp r.ends };
}

impl<'t, K: Ord, V> Range<'t, K, V> {
    /// The pair at the forward end, if it is at one within the upper bound.
    pub fn get(&self) -> Option<(&'t K, &'t V)>
        ensures { deref_pair result ≡ shown_forth K.cmp self.now }
    {
        self.ends.get(self.upper)
    }

    /// The pair at the backward end, if it is at one within the lower bound.
    pub fn get_back(&self) -> Option<(&'t K, &'t V)>
        ensures { deref_pair result ≡ shown_back K.cmp self.now }
    {
        self.ends.get_back(self.lower)
    }

    /// Lets the two ends change places, and says whether it did: where one end alone is open and shows a
    /// pair, or none is open.
    pub fn flip(&mut self) -> bool
        ensures answer { result ≡ can_turn K.cmp self.old }
        ensures turned { self.new ≡ turned K.cmp self.old }
    {
        self.ends.flip(self.lower, self.upper)
    }

    /// At most `count` of the pairs that the forward end gives.
    #[inline(always)]
    pub fn take(self, count: usize) -> Take<'t, K, V>
        ensures { result ≡ record { cursor = self.entry; left = count } }
    {
        Take::new(self, count)
    }

    /// Another cursor with its ends at the same places.
    pub fn clone(&self) -> Self
        ensures { result ≡ self.now }
    {
        Range {
            ends: self.ends,
            lower: self.lower,
            upper: self.upper,
        }
    }
}

impl<'t, K: Ord, V> Iterator for Range<'t, K, V> {
    ghost use Rattle.std.specs.Iterator.{at_most};
    ghost use Rattle.tree_index.specs.Cursor.{GoesForth, count_between};

    type Item = (&'t K, &'t V);

    ghost next_gives = { GoesForth K.cmp };

    ghost remaining = { λ c. at_most (count_between c) };

    /// Moves the forward end to the next pair, and gives it if it lies within the upper bound and the
    /// ends haven't met.
    #[inline(always)]
    fn next(&mut self) -> Option<(&'t K, &'t V)> {
        self.ends.next(self.lower, self.upper)
    }
}

impl<'t, K: Ord, V> DoubleEndedIterator for Range<'t, K, V> {
    ghost use Rattle.tree_index.specs.Cursor.{GoesBack};

    ghost next_back_gives = { GoesBack K.cmp };

    /// Moves the backward end to the pair before it, and gives it if it lies within the lower bound and
    /// the ends haven't met.
    #[inline(always)]
    fn next_back(&mut self) -> Option<(&'t K, &'t V)> {
        self.ends.next_back(self.lower, self.upper)
    }
}
