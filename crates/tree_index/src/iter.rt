//! A cursor over all pairs of a tree.

ghost use Rattle.std.specs.Prelude.{◌≡◌, ◌≤◌, IfSome, length, take};
ghost use Rattle.std.specs.declared.cmp.Ordering.TheVariants.{Less};
ghost use Rattle.std.specs.declared.ops.Bound.TheVariants.{Unbounded};
ghost use Rattle.tree_index.specs.Cursor.{shown_forth, shown_back, can_turn, turned, deref_pair, unread};
ghost use Rattle.tree_nodes.specs.Shape.{AllKeys};

use crate::cursor::Ends;
use crate::range::Range;
use crate::take::Take;
use std::marker::Model;
use std::ops::Bound;

/// A cursor over all pairs of a tree: in ascending order from its forward end, in descending order from its
/// backward end. (`scc`'s `tree_index::Iter`.)
///
/// An end is unopened, at a pair, or done. The ends don't pass one another, and an end that
/// moved past the last pair gives none for good. A step visits the leaf of its pair and those emptied
/// leaves that it passes over, and takes no memory.
#[derive(Drop)]
pub struct Iter<'t, K: Ord, V> {
    pub(crate) ends: Ends<'t, K, V>,
}

/// Invariant: specs/Ends.antt, IsReady: both ends are at places of a sound tree.
impl<'t, K: Ord, V> Model for Iter<'t, K, V> {
    ghost use Rattle.std.specs.declared.ops.Bound.TheVariants.{Unbounded};
    ghost use Rattle.tree_index.specs.Cursor.{Cursor, cursor_code};
    ghost use Rattle.tree_index.specs.Ends.{IsReady, cursor_of};

    ghost Value = { Cursor K V };

    ghost coded = { cursor_code K.code V.code };

    ghost view = { λ i. cursor_of i.ends Unbounded Unbounded };

    ghost invariant = { λ i. IsReady K.cmp i.ends };
}

impl<'t, K: Ord, V> Iter<'t, K, V> {
    /// The pair at the forward end, if it is at one.
    #[inline(always)]
    pub fn get(&self) -> Option<(&'t K, &'t V)>
        ensures { deref_pair result ≡ shown_forth K.cmp self.now }
    {
        self.ends.get(Bound::Unbounded)
    }

    /// How many pairs, from that of the forward end on, have keys below this one; all of them, where none is named.
    #[inline(always)]
    pub fn run(&self, upto: Option<&K>) -> usize
        ensures within { result ≤ length (unread self.now) }
        ensures below { IfSome upto.entry (λ key. AllKeys (λ k. K.cmp k key.now ≡ Less) (take result (unread self.now))) }
    {
        self.ends.run(upto)
    }

    /// The pair at the backward end, if it is at one.
    pub fn get_back(&self) -> Option<(&'t K, &'t V)>
        ensures { deref_pair result ≡ shown_back K.cmp self.now }
    {
        self.ends.get_back(Bound::Unbounded)
    }

    /// Lets the two ends change places, and says whether it did: where one end alone is open and shows a
    /// pair, or none is open.
    pub fn flip(&mut self) -> bool
        ensures answer { result ≡ can_turn K.cmp self.old }
        ensures turned { self.new ≡ turned K.cmp self.old }
    {
        self.ends.flip(Bound::Unbounded, Bound::Unbounded)
    }

    /// At most `count` of the pairs that the forward end gives.
    #[inline(always)]
    pub fn take(self, count: usize) -> Take<'t, K, V>
        ensures { result ≡ record { cursor = self.entry; left = count } }
    {
        Take::new(
            Range {
                ends: self.ends,
                lower: Bound::Unbounded,
                upper: Bound::Unbounded,
            },
            count,
        )
    }

    /// Another cursor with its ends at the same places.
    pub fn clone(&self) -> Self
        ensures { result ≡ self.now }
    {
        Iter { ends: self.ends }
    }
}

impl<'t, K: Ord, V> Iterator for Iter<'t, K, V> {
    ghost use Rattle.std.specs.Iterator.{at_most};
    ghost use Rattle.tree_index.specs.Cursor.{GoesForth, count_between};

    type Item = (&'t K, &'t V);

    ghost next_gives = { GoesForth K.cmp };

    ghost remaining = { λ c. at_most (count_between c) };

    /// Moves the forward end to the next pair, and gives it unless the ends met.
    #[inline(always)]
    fn next(&mut self) -> Option<(&'t K, &'t V)> {
        self.ends.next(Bound::Unbounded, Bound::Unbounded)
    }
}

impl<'t, K: Ord, V> DoubleEndedIterator for Iter<'t, K, V> {
    ghost use Rattle.tree_index.specs.Cursor.{GoesBack};

    ghost next_back_gives = { GoesBack K.cmp };

    /// Moves the backward end to the pair before it, and gives it unless the ends met.
    #[inline(always)]
    fn next_back(&mut self) -> Option<(&'t K, &'t V)> {
        self.ends.next_back(Bound::Unbounded, Bound::Unbounded)
    }
}

impl<'t, K: Ord, V> From<Range<'t, K, V>> for Iter<'t, K, V> {
    ghost use Rattle.std.specs.declared.ops.Bound.TheVariants.{Unbounded};

    ghost from_gives = { λ r i. i ≡ record r { lower = Unbounded; upper = Unbounded } };

    /// Keeps the ends of a range and drops its bounds.
    fn from(range: Range<'t, K, V>) -> Self {
        Iter { ends: range.ends }
    }
}
