//! Where a key is in a version.

ghost use Rattle.std.specs.Prelude.{◌≡◌, ◌+◌};
ghost use Rattle.tree_index.specs.Cursor.{whole};
ghost use Rattle.tree_index.specs.Proximity.{IsLocated};
ghost use Rattle.version_views.specs.Cuts.{pairs_in};
ghost use Rattle.version_views.specs.CursorEnds.{fore_place, rear_place, pairs_before_block, AreRising, LocatesAbsent, IsForeAt, IsRearAt, IsWalking};
ghost use Rattle.version_views.specs.Nearby.{as_proximity};

use crate::position::{CursorEnd, Position};
use crate::trees::Trees;
use crate::view::VersionView;
use crate::walking::Walk;
use std::ops::Bound;
use tree_index::Proximity;

/// What [`locate`](VersionView::locate) finds around a key, with a walk there.
#[derive(Drop)]
pub enum Nearby<'a, K: Ord, V, W: Trees<K, V>> {
    /// A pair has the key: the forward end is at it.
    Exact(Walk<'a, K, V, W>),
    /// None has it: the forward end is at the nearest smaller pair, the backward end at the nearest larger one.
    Between(Walk<'a, K, V, W>),
    /// All pairs are smaller: the backward end is at the last one.
    Smaller(Walk<'a, K, V, W>),
    /// All pairs are larger: the forward end is at the first one.
    Larger(Walk<'a, K, V, W>),
    /// There are no pairs.
    Empty,
}

impl<'a, K: Ord, V, W: Trees<K, V>> VersionView<'a, K, V, W> {
    /// Where a key is among the pairs: at its pair, or between its neighbours, with a walk there. It takes one search of
    /// the directory, one of a row and one of a tree.
    pub fn locate(&self, key: &K) -> Nearby<'a, K, V, W>
        ensures { IsLocated K.cmp key.now (pairs_in self.now) (as_proximity result) }
    {
        self.laws();
        if self.segment_count() == 0 {
            return Nearby::Empty;
        }
        let segment = self.around(key);
        match self.tree(segment).locate(key) {
            Proximity::Exact(cursor) => {
                let at = CursorEnd::At(Position { segment, cursor });
                Nearby::Exact(self.walk_at(at, CursorEnd::Unopened))
            },
            Proximity::Between(cursor) => {
                let smaller = CursorEnd::At(Position {
                    segment,
                    cursor: cursor.clone(),
                });
                Nearby::Between(self.walk_at(smaller, CursorEnd::At(Position { segment, cursor })))
            },
            Proximity::Smaller(cursor) => self.behind_last(Position { segment, cursor }),
            Proximity::Larger(cursor) => self.before_first(Position { segment, cursor }),
            // A segment holds a pair.
            Proximity::Empty => unreachable!(),
        }
    }

    /// Where a key is that is less than the first pair of a segment, and greater than those before it.
    fn before_first(&self, first: Position<'a, K, V>) -> Nearby<'a, K, V, W>
        requires rising { AreRising K.cmp self.now }
        requires first { IsForeAt self.now (pairs_before_block self.now first.segment) first }
        ensures { LocatesAbsent K.cmp self.now (pairs_before_block self.now first.entry.segment) (as_proximity result) }
    {
        match self.last_before(first.segment) {
            Some((smaller, _)) => {
                let forward = CursorEnd::At(smaller.swapped());
                Nearby::Between(self.walk_at(forward, CursorEnd::At(first.swapped())))
            },
            None => Nearby::Larger(self.walk_at(CursorEnd::At(first), CursorEnd::Unopened)),
        }
    }

    /// Where a key is that is greater than the last pair of a segment, and less than those behind it.
    fn behind_last(&self, last: Position<'a, K, V>) -> Nearby<'a, K, V, W>
        requires rising { AreRising K.cmp self.now }
        requires last { IsRearAt self.now (pairs_before_block self.now (last.segment + 1)) last }
        ensures { LocatesAbsent K.cmp self.now (pairs_before_block self.now (last.entry.segment + 1)) (as_proximity result) }
    {
        match self.first_behind(last.segment) {
            Some((larger, _)) => {
                let forward = CursorEnd::At(last.swapped());
                Nearby::Between(self.walk_at(forward, CursorEnd::At(larger.swapped())))
            },
            None => Nearby::Smaller(self.walk_at(CursorEnd::Unopened, CursorEnd::At(last))),
        }
    }

    /// A walk without bounds whose ends are there.
    fn walk_at(
        &self,
        forward: CursorEnd<'a, K, V>,
        backward: CursorEnd<'a, K, V>,
    ) -> Walk<'a, K, V, W>
        requires { IsWalking K.cmp self.now forward backward }
        ensures { result ≡ whole (pairs_in self.now) (fore_place self.now forward.entry) (rear_place self.now backward.entry) }
    {
        Walk {
            version: self.copy(),
            lower: Bound::Unbounded,
            upper: Bound::Unbounded,
            forward,
            backward,
        }
    }
}
