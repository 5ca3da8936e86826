//! How the ends of a walk move over segments.

ghost use Rattle.std.specs.Prelude.{◌≡◌, ◌<◌, ◌+◌, ◌-◌, ℕ, Some, IfSome, IfNone, length};
ghost use Rattle.std.specs.Range.Bound.{bound_map};
ghost use Rattle.tree_index.specs.Cursor.{forth, back, lies_before, pair_at, deref_pair};
ghost use Rattle.tree_index.specs.declared.cursor.End.TheVariants.{At, Done, Unopened};
ghost use Rattle.version_views.specs.Cuts.{pairs_in};
ghost use Rattle.version_views.specs.CursorEnds.{at_or_done, count_before, pairs_before_block, count_upto, fore_place, rear_place, AreRising, CountsInto, FoundFore, FoundRear, IsForeAlone, IsPairAt, IsRearAlone, StandsFore, StandsRear};

use crate::position::{CursorEnd, Position};
use crate::trees::Trees;
use crate::view::VersionView;
use std::ops::Bound;
use tree_index::Iter;

/// A place, and the pair there.
type Found<'a, K, V> = (Position<'a, K, V>, (&'a K, &'a V));

impl<'a, K: Ord, V, W: Trees<K, V>> VersionView<'a, K, V, W> {
    /// Moves a forward end, and gives its pair.
    #[inline(always)]
    pub(crate) fn forth(
        &self,
        end: &mut CursorEnd<'a, K, V>,
        lower: Bound<&'a K>,
    ) -> Option<(&'a K, &'a V)>
        requires rising { AreRising K.cmp self.now }
        requires stands { StandsFore self.now end.old }
        ensures stands { StandsFore self.now end.new }
        ensures alone { IsForeAlone end.old → IsForeAlone end.new }
        ensures place { fore_place self.now end.new ≡ forth K.cmp (bound_map (λ k. k.now) lower.entry) (pairs_in self.now) (fore_place self.now end.old) }
        ensures pair { deref_pair result ≡ pair_at (pairs_in self.now) (fore_place self.now end.new) }
    {
        match end {
            CursorEnd::At(position) => {
                // Most steps stay in their segment.
                if let Some(pair) = position.step() {
                    return Some(pair);
                }
                let segment = position.segment;
                self.onward(end, segment)
            },
            CursorEnd::Unopened => self.opened(end, lower),
            CursorEnd::Done => None,
        }
    }

    /// Moves a forward end to the first pair of the segment behind one, and gives that pair.
    // A function of its own, so that steps within a segment don't clear its stack slots. What is out of line gets a copy of
    // the version: a walk of which nobody else has the address can stay in registers.
    #[inline(always)]
    fn onward(&self, end: &mut CursorEnd<'a, K, V>, segment: usize) -> Option<(&'a K, &'a V)>
        requires rising { AreRising K.cmp self.now }
        requires within { segment < length self.now }
        ensures stands { StandsFore self.now end.new }
        ensures alone { IsForeAlone end.new }
        ensures place { fore_place self.now end.new ≡ at_or_done self.now (pairs_before_block self.now (segment + 1)) }
        ensures pair { deref_pair result ≡ pair_at (pairs_in self.now) (fore_place self.now end.new) }
    {
        let version = self.copy();
        match version.first_behind(segment) {
            Some((next, pair)) => {
                *end = CursorEnd::At(next);
                Some(pair)
            },
            None => {
                *end = CursorEnd::Done;
                None
            },
        }
    }

    /// Opens a forward end, and gives its pair.
    #[inline(always)]
    fn opened(&self, end: &mut CursorEnd<'a, K, V>, lower: Bound<&'a K>) -> Option<(&'a K, &'a V)>
        requires rising { AreRising K.cmp self.now }
        requires unopened { end.old ≡ CursorEnd.Unopened }
        ensures stands { StandsFore self.now end.new }
        ensures alone { IsForeAlone end.new }
        ensures place { fore_place self.now end.new ≡ forth K.cmp (bound_map (λ k. k.now) lower.entry) (pairs_in self.now) Unopened }
        ensures pair { deref_pair result ≡ pair_at (pairs_in self.now) (fore_place self.now end.new) }
    {
        let version = self.copy();
        match version.first_within(lower) {
            Some((first, pair)) => {
                *end = CursorEnd::At(first);
                Some(pair)
            },
            None => None,
        }
    }

    /// Moves a backward end, and gives its pair.
    #[inline(always)]
    pub(crate) fn back(
        &self,
        end: &mut CursorEnd<'a, K, V>,
        upper: Bound<&'a K>,
    ) -> Option<(&'a K, &'a V)>
        requires rising { AreRising K.cmp self.now }
        requires stands { StandsRear self.now end.old }
        ensures stands { StandsRear self.now end.new }
        ensures alone { IsRearAlone end.old → IsRearAlone end.new }
        ensures place { rear_place self.now end.new ≡ back K.cmp (bound_map (λ k. k.now) upper.entry) (pairs_in self.now) (rear_place self.now end.old) }
        ensures pair { deref_pair result ≡ pair_at (pairs_in self.now) (rear_place self.now end.new) }
    {
        match end {
            CursorEnd::At(position) => {
                if let Some(pair) = position.step_back() {
                    return Some(pair);
                }
                match self.last_before(position.segment) {
                    Some((next, pair)) => {
                        *end = CursorEnd::At(next);
                        Some(pair)
                    },
                    None => {
                        *end = CursorEnd::Done;
                        None
                    },
                }
            },
            CursorEnd::Unopened => match self.last_within(upper) {
                Some((last, pair)) => {
                    *end = CursorEnd::At(last);
                    Some(pair)
                },
                None => None,
            },
            CursorEnd::Done => None,
        }
    }

    /// Whether a pair lies before a backward end, as far as that was opened.
    #[inline(always)]
    pub(crate) fn precedes(&self, pair: (&'a K, &'a V), backward: &CursorEnd<'a, K, V>) -> bool
        requires rising { AreRising K.cmp self.now }
        requires stands { StandsRear self.now backward.now }
        ensures { (n : ℕ) → IsPairAt self.now n pair.entry → result ≡ lies_before (At n) (rear_place self.now backward.now) }
    {
        match backward {
            CursorEnd::Unopened => true,
            CursorEnd::At(position) => match position.pair_back() {
                Some(other) => pair.0.cmp(other.0).is_lt(),
                None => false,
            },
            CursorEnd::Done => false,
        }
    }

    /// Whether a pair lies behind a forward end, as far as that was opened.
    #[inline(always)]
    pub(crate) fn follows(&self, pair: (&'a K, &'a V), forward: &CursorEnd<'a, K, V>) -> bool
        requires rising { AreRising K.cmp self.now }
        requires stands { StandsFore self.now forward.now }
        ensures { (n : ℕ) → IsPairAt self.now n pair.entry → result ≡ lies_before (fore_place self.now forward.now) (At n) }
    {
        match forward {
            CursorEnd::Unopened => true,
            CursorEnd::At(position) => match position.cursor.get() {
                Some(other) => other.0.cmp(pair.0).is_lt(),
                None => false,
            },
            CursorEnd::Done => false,
        }
    }

    /// The first pair within a lower bound.
    #[inline(never)]
    fn first_within(&self, lower: Bound<&'a K>) -> Option<Found<'a, K, V>>
        requires { AreRising K.cmp self.now }
        ensures some { IfSome result (FoundFore self.now (count_before K.cmp lower.entry (pairs_in self.now))) }
        ensures none { IfNone result (count_before K.cmp lower.entry (pairs_in self.now) ≡ length (pairs_in self.now)) }
    {
        if self.segment_count() == 0 {
            return None;
        }
        let segment = self.place_from(lower);
        let mut range = self.tree(segment).range(lower, Bound::Unbounded);
        match range.next() {
            Some(pair) => {
                let cursor = Iter::from(range);
                Some((Position { segment, cursor }, pair))
            },
            None => self.first_behind(segment),
        }
    }

    /// The last pair within an upper bound.
    #[inline(never)]
    fn last_within(&self, upper: Bound<&'a K>) -> Option<Found<'a, K, V>>
        requires { AreRising K.cmp self.now }
        ensures some { IfSome result (FoundRear self.now (count_upto K.cmp upper.entry (pairs_in self.now))) }
        ensures none { IfNone result (count_upto K.cmp upper.entry (pairs_in self.now) ≡ 0) }
    {
        if self.segment_count() == 0 {
            return None;
        }
        let segment = self.place_upto(upper);
        let mut range = self.tree(segment).range(Bound::Unbounded, upper);
        match range.next_back() {
            Some(pair) => {
                let cursor = Iter::from(range);
                Some((Position { segment, cursor }, pair))
            },
            None => self.last_before(segment),
        }
    }

    /// The first pair of the segment behind one.
    #[inline(never)]
    pub(crate) fn first_behind(&self, segment: usize) -> Option<Found<'a, K, V>>
        requires rising { AreRising K.cmp self.now }
        requires within { segment < length self.now }
        ensures some { IfSome result (FoundFore self.now (pairs_before_block self.now (segment + 1))) }
        ensures none { IfNone result (pairs_before_block self.now (segment + 1) ≡ length (pairs_in self.now)) }
    {
        let count = self.segment_count();
        let segment = segment + 1;
        if segment == count {
            return None;
        }
        let mut cursor = self.tree(segment).iter();
        match cursor.next() {
            Some(pair) => Some((Position { segment, cursor }, pair)),
            None => unreachable!(),
        }
    }

    /// The last pair of the segment before one.
    #[inline(never)]
    pub(crate) fn last_before(&self, segment: usize) -> Option<Found<'a, K, V>>
        requires rising { AreRising K.cmp self.now }
        requires within { segment < length self.now }
        ensures some { IfSome result (FoundRear self.now (pairs_before_block self.now segment)) }
        ensures none { IfNone result (pairs_before_block self.now segment ≡ 0) }
    {
        if segment == 0 {
            return None;
        }
        let segment = segment - 1;
        let mut cursor = self.tree(segment).iter();
        match cursor.next_back() {
            Some(pair) => Some((Position { segment, cursor }, pair)),
            None => unreachable!(),
        }
    }

    /// The segment that a lower bound lies in or beside.
    fn place_from(&self, lower: Bound<&'a K>) -> usize
        requires { 0 < length self.now }
        ensures within { result < length self.now }
        ensures place { CountsInto self.now result (count_before K.cmp lower.entry) }
    {
        match lower {
            Bound::Included(key) => self.around(key),
            Bound::Excluded(key) => self.around(key),
            Bound::Unbounded => 0,
        }
    }

    /// The segment that an upper bound lies in or beside.
    fn place_upto(&self, upper: Bound<&'a K>) -> usize
        requires { 0 < length self.now }
        ensures within { result < length self.now }
        ensures place { CountsInto self.now result (count_upto K.cmp upper.entry) }
    {
        match upper {
            Bound::Included(key) => self.around(key),
            Bound::Excluded(key) => self.around(key),
            Bound::Unbounded => self.segment_count() - 1,
        }
    }
}
