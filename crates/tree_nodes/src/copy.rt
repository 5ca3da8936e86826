//! Clones of trees, and of runs of their pairs.

ghost use Rattle.std.specs.Prelude.{ℕ, ◌≡◌, ◌≤◌, ◌<◌, ◌+◌, ◌++◌, [], IfOk, OnErr, OnOk, length, take, drop};
ghost use Rattle.leaf_array.specs.Pairs.{IsAscending};
ghost use Rattle.leaf_array.specs.Values.{ClonesAreSame};
ghost use Rattle.tree_nodes.specs.Content.{pairs_of, IsSound};
ghost use Rattle.tree_nodes.specs.Copy.{place, Extends, IsPositionOrEnd};
ghost use Rattle.tree_nodes.specs.Depth.{ascending_headroom};
ghost use Rattle.tree_nodes.specs.Push.{LastLeafTakes};

use crate::arenas::Arenas;
use crate::leaf::Leaf;
use crate::walk::Position;
use std::alloc::{AllocError, Global};

impl<K: Ord, V> Arenas<K, V> {
    /// Arenas with clones of all pairs, by one pass over them, leaf by leaf, into room that was made ahead. Where
    /// memory is refused there are none, and what was cloned is dropped.
    pub fn copy(&self, alloc: Global) -> Result<Arenas<K, V>, AllocError>
    where
        K: Clone + Drop,
        V: Clone + Drop,
        requires keys { ClonesAreSame K.is_clone }
        requires values { ClonesAreSame V.is_clone }
        requires sound { IsSound K.cmp self.now }
        ensures sound { IfOk result (λ a. IsSound K.cmp a) }
        ensures pairs { IfOk result (λ a. pairs_of a ≡ pairs_of self.now) }
        ensures ascending_headroom { IfOk result (λ a. 241 ≤ ascending_headroom K.cmp a + length (pairs_of a)) }
    {
        let mut copy = Arenas::with_capacity(alloc, self.len)?;
        let first = self.first_from(self.first_leaf());
        let _ = copy.extend(self, first, self.len)?;
        Ok(copy)
    }

    /// Appends clones of `count` pairs of another tree, from a place on, whose keys are greater than all here. It gives the
    /// place of the first one that is left over. If an allocation fails, no pair is left.
    pub fn push_run<'t>(
        &mut self,
        source: &'t Arenas<K, V>,
        from: Option<Position<'t, K, V>>,
        count: usize,
    ) -> Result<Option<Position<'t, K, V>>, AllocError>
    where
        K: Clone + Drop,
        V: Clone + Drop,
        requires keys { ClonesAreSame K.is_clone }
        requires values { ClonesAreSame V.is_clone }
        requires source { IsSound K.cmp source.now }
        requires sound { IsSound K.cmp self.old }
        requires spot { IsPositionOrEnd source.now from }
        requires within { place source.now from + count ≤ length (pairs_of source.now) }
        requires rising { IsAscending K.cmp (pairs_of self.old ++ take count (drop (place source.now from) (pairs_of source.now))) }
        ensures sound { IsSound K.cmp self.new }
        ensures pairs { IfOk result (λ next. pairs_of self.new ≡ pairs_of self.old ++ take count (drop (place source.now from.entry) (pairs_of source.now))) }
        ensures spot { IfOk result (λ next. IsPositionOrEnd source.now next) }
        ensures there { IfOk result (λ next. place source.now next ≡ place source.now from.entry + count) }
        ensures ascending { IfOk result (λ next. ascending_headroom K.cmp self.old ≤ ascending_headroom K.cmp self.new + count) }
        ensures refused { OnErr result (pairs_of self.new ≡ []) }
        ensures flat { OnErr result (self.new.height ≡ 0) }
    {
        match self.extend(source, from, count) {
            Ok(next) => Ok(next),
            Err(refused) => {
                self.clear();
                Err(refused)
            },
        }
    }

    /// The same, but that nothing is said of what is left if an allocation fails.
    fn extend<'t>(
        &mut self,
        source: &'t Arenas<K, V>,
        from: Option<Position<'t, K, V>>,
        count: usize,
    ) -> Result<Option<Position<'t, K, V>>, AllocError>
    where
        K: Clone + Drop,
        V: Clone + Drop,
        requires keys { ClonesAreSame K.is_clone }
        requires values { ClonesAreSame V.is_clone }
        requires source { IsSound K.cmp source.now }
        requires sound { IsSound K.cmp self.old }
        requires spot { IsPositionOrEnd source.now from }
        requires within { place source.now from + count ≤ length (pairs_of source.now) }
        requires rising { IsAscending K.cmp (pairs_of self.old ++ take count (drop (place source.now from) (pairs_of source.now))) }
        ensures { IfOk result (λ next. Extends K.cmp source.now from.entry count self.old self.new next 0) }
    {
        let mut next = from;
        let mut left = count;
        while left > 0 {
            (next, left) = self.fill(source, next, left)?;
            if left == 0 {
                return Ok(next);
            }
            let Some(spot) = next else { unreachable!() };
            let run = (spot.leaf.len() - spot.place).min(left);
            let done = self.push_leaf(spot.leaf, spot.place, run)?;
            next = source.first_at(spot.moved(done));
            left -= done;
        }
        Ok(next)
    }

    /// Appends clones of at most `count` pairs of another tree, from a place on, to the last leaf, as long as that has
    /// room. It gives the place of the first one that is left over, and how many are left.
    fn fill<'t>(
        &mut self,
        source: &'t Arenas<K, V>,
        from: Option<Position<'t, K, V>>,
        count: usize,
    ) -> Result<(Option<Position<'t, K, V>>, usize), AllocError>
    where
        K: Clone + Drop,
        V: Clone + Drop,
        requires keys { ClonesAreSame K.is_clone }
        requires values { ClonesAreSame V.is_clone }
        requires source { IsSound K.cmp source.now }
        requires sound { IsSound K.cmp self.old }
        requires spot { IsPositionOrEnd source.now from }
        requires within { place source.now from + count ≤ length (pairs_of source.now) }
        requires rising { IsAscending K.cmp (pairs_of self.old ++ take count (drop (place source.now from) (pairs_of source.now))) }
        ensures { IfOk result (λ r. Extends K.cmp source.now from.entry count self.old self.new r.0 r.1) }
    {
        let Some(at) = self.open_leaf() else {
            return Ok((from, count));
        };
        let mut next = from;
        let mut left = count;
        let mut room = self.room_at(at);
        while room > 0 && left > 0 {
            let Some(spot) = next else { unreachable!() };
            let run = (spot.leaf.len() - spot.place).min(left).min(room);
            self.extend_at(at, spot.leaf, spot.place, run)?;
            next = source.first_at(spot.moved(run));
            left -= run;
            room -= run;
        }
        Ok((next, left))
    }

    /// Appends clones of `count` pairs of another tree's leaf, from a place on, to the last leaf, which takes them.
    #[inline]
    fn extend_at(
        &mut self,
        at: usize,
        source: &Leaf<K, V>,
        from: usize,
        count: usize,
    ) -> Result<(), AllocError>
    where
        K: Clone + Drop,
        V: Clone + Drop,
        requires keys { ClonesAreSame K.is_clone }
        requires values { ClonesAreSame V.is_clone }
        requires sound { IsSound K.cmp self.old }
        requires room { LastLeafTakes self.old at count }
        requires some { 0 < count }
        requires within { from + count ≤ length source.now.array.pairs }
        requires rising { IsAscending K.cmp (pairs_of self.old ++ take count (drop from source.now.array.pairs)) }
        ensures sound { OnOk result (IsSound K.cmp self.new) }
        ensures room { OnOk result ((more : ℕ) → LastLeafTakes self.old at (count + more) → LastLeafTakes self.new at more) }
        ensures pairs { OnOk result (pairs_of self.new ≡ pairs_of self.old ++ take count (drop from source.now.array.pairs)) }
        ensures ascending { OnOk result (ascending_headroom K.cmp self.old ≤ ascending_headroom K.cmp self.new + count) }
    {
        match self.leaves.get_mut(at) {
            Some(leaf) => {
                let _ = leaf.len();
                leaf.extend(source, from, count)?;
                self.len += count;
                Ok(())
            },
            None => unreachable!(),
        }
    }
}
