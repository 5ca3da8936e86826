//! A cursor over the list of a version.

ghost use Rattle.std.specs.Prelude.{◌≡◌};
ghost use Rattle.tree_index.specs.Cursor.{shown_forth, shown_back, can_turn, turned, deref_pair};

use crate::bounds::{above, below};
use crate::position::CursorEnd;
use crate::trees::Trees;
use crate::view::VersionView;
use std::marker::Model;
use std::mem;
use std::ops::Bound;

/// A cursor over the pairs of a version within two bounds: in ascending order from its forward end, in descending order
/// from its backward end.
///
/// An end is unopened, at a pair, or done. The forward end starts at the first pair within the lower bound and
/// gives pairs as long as they lie within the upper one; the backward end is its mirror. The ends don't pass one another,
/// and an end that moved past the last pair gives none for good. Reversed bounds contain no pair. A step takes no memory;
/// the first one of an end searches the directory, a row and a segment.
#[derive(Drop)]
pub struct Walk<'a, K: Ord, V, W: Trees<K, V>> {
    pub(crate) version: VersionView<'a, K, V, W>,
    pub(crate) lower: Bound<&'a K>,
    pub(crate) upper: Bound<&'a K>,
    pub(crate) forward: CursorEnd<'a, K, V>,
    pub(crate) backward: CursorEnd<'a, K, V>,
}

/// Invariant: specs/CursorEnds.antt, IsWalking: each open end is at a pair of the version, alone in its segment's
/// cursor where the other end isn't open.
impl<'a, K: Ord, V, W: Trees<K, V>> Model for Walk<'a, K, V, W> {
    ghost use Rattle.std.specs.Range.Bound.{bound_map};
    ghost use Rattle.tree_index.specs.Cursor.{Cursor, cursor_code};
    ghost use Rattle.version_views.specs.Cuts.{pairs_in};
    ghost use Rattle.version_views.specs.CursorEnds.{fore_place, rear_place, IsWalking};

    ghost Value = { Cursor K V };

    ghost coded = { cursor_code K.code V.code };

    ghost view = { λ w. record { pairs = pairs_in w.version; lower = bound_map (λ k. k.now) w.lower; upper = bound_map (λ k. k.now) w.upper; forward = fore_place w.version w.forward; backward = rear_place w.version w.backward } };

    ghost invariant = { λ w. IsWalking K.cmp w.version w.forward w.backward };
}

impl<'a, K: Ord, V, W: Trees<K, V>> Walk<'a, K, V, W> {
    /// The pair at the forward end, if it is at one within the upper bound.
    pub fn get(&self) -> Option<(&'a K, &'a V)>
        ensures { deref_pair result ≡ shown_forth K.cmp self.now }
    {
        match &self.forward {
            CursorEnd::At(position) => match position.cursor.get() {
                Some(pair) => below(pair, self.upper),
                None => None,
            },
            _ => None,
        }
    }

    /// The pair at the backward end, if it is at one within the lower bound.
    pub fn get_back(&self) -> Option<(&'a K, &'a V)>
        ensures { deref_pair result ≡ shown_back K.cmp self.now }
    {
        match &self.backward {
            CursorEnd::At(position) => match position.cursor.get_back() {
                Some(pair) => above(pair, self.lower),
                None => None,
            },
            _ => None,
        }
    }

    /// Lets the two ends change places, and says whether it did: where one end alone is open and shows a pair, or none
    /// is open.
    pub fn flip(&mut self) -> bool
        ensures answer { result ≡ can_turn K.cmp self.old }
        ensures turned { self.new ≡ turned K.cmp self.old }
    {
        let turns = self.can_turn();
        if turns {
            let forward = mem::replace(&mut self.forward, CursorEnd::Unopened);
            let backward = mem::replace(&mut self.backward, forward.swapped());
            self.forward = backward.swapped();
        }
        turns
    }

    /// Another walk with its ends at the same places.
    pub fn clone(&self) -> Self
        ensures { result ≡ self.now }
    {
        Walk {
            version: self.version.copy(),
            lower: self.lower,
            upper: self.upper,
            forward: self.forward.copy(),
            backward: self.backward.copy(),
        }
    }

    /// Whether one end alone is open and shows a pair, or none is open.
    fn can_turn(&self) -> bool
        ensures { result ≡ can_turn K.cmp self.now }
    {
        match (&self.forward, &self.backward) {
            (CursorEnd::Unopened, CursorEnd::Unopened) => true,
            (_, CursorEnd::Unopened) => self.get().is_some(),
            (CursorEnd::Unopened, _) => self.get_back().is_some(),
            _ => false,
        }
    }
}

impl<'a, K: Ord, V, W: Trees<K, V>> Iterator for Walk<'a, K, V, W> {
    ghost use Rattle.std.specs.Iterator.{at_most};
    ghost use Rattle.tree_index.specs.Cursor.{GoesForth, count_between};

    type Item = (&'a K, &'a V);

    ghost next_gives = { GoesForth K.cmp };

    ghost remaining = { λ c. at_most (count_between c) };

    /// Moves the forward end to the next pair, and gives it if it lies within the upper bound and the ends haven't met.
    #[inline(always)]
    fn next(&mut self) -> Option<(&'a K, &'a V)> {
        match self.version.forth(&mut self.forward, self.lower) {
            Some(pair) if self.version.precedes(pair, &self.backward) => below(pair, self.upper),
            _ => None,
        }
    }

    /// No bound is known.
    fn size_hint(&self) -> (usize, Option<usize>) {
        (0, None)
    }
}

impl<'a, K: Ord, V, W: Trees<K, V>> DoubleEndedIterator for Walk<'a, K, V, W> {
    ghost use Rattle.tree_index.specs.Cursor.{GoesBack};

    ghost next_back_gives = { GoesBack K.cmp };

    /// Moves the backward end to the pair before it, and gives it if it lies within the lower bound and the ends haven't
    /// met.
    #[inline(always)]
    fn next_back(&mut self) -> Option<(&'a K, &'a V)> {
        match self.version.back(&mut self.backward, self.upper) {
            Some(pair) if self.version.follows(pair, &self.forward) => above(pair, self.lower),
            _ => None,
        }
    }
}
