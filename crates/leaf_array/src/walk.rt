//! Calls of closures at the pairs of an array.

ghost use Rattle.std.specs.Prelude.{◌≡◌, IsTrue, Bool, true, false, Ok};
ghost use Rattle.std.specs.List.{FoldsTo, enumerate_from};
ghost use Rattle.leaf_array.specs.Words.{boundary};
ghost use Rattle.leaf_array.specs.Calls.{ranked_slots, CallsEach, IsDealt, IsFolded, IsShownAll, IsShownIf, MayDeal, MayDealAll, MayShow, TakesEach, TakesFolded};

use crate::array::Array;
use leaf_slots::slot_of;

impl<K: Ord, V> Array<K, V> {
    /// Freezes the array, and lends its pairs to `dist` if `prepare` answers true.
    ///
    /// `prepare` is called with what [`Array::optimal_boundary`] gives, and its answer is returned.
    /// `dist` is called at each reachable key and value by rising keys, with the boundary and the
    /// place of the pair, counted from 0.
    pub fn distribute<P: FnOnce(u8, usize, bool) -> bool, F: FnMut(&K, &V, u8, u8)>(
        &mut self,
        prepare: P,
        dist: F,
    ) -> bool
        requires open { self.old.frozen ≡ false }
        requires asked { P.pre prepare (boundary self.old).0 (boundary self.old).1 (boundary self.old).2 }
        requires dealt { P.post prepare (boundary self.old).0 (boundary self.old).1 (boundary self.old).2 true → MayDealAll F.FnMut dist self.old }
        ensures frozen { self.new ≡ record self.old { frozen = true } }
        ensures prepared { P.post prepare (boundary self.old).0 (boundary self.old).1 (boundary self.old).2 result }
        ensures dealt { IsTrue result → CallsEach (IsDealt F.FnMut (boundary self.old).0) dist (enumerate_from 0 self.old.pairs) }
    {
        let _ = self.freeze();
        let (boundary, len, ordered) = self.optimal_boundary();
        if !prepare(boundary, len, ordered) {
            return false;
        }
        self.deal(boundary, dist);
        true
    }

    /// Calls `dist` at each reachable key and value, with a boundary and the place of the pair.
    fn deal<F: FnMut(&K, &V, u8, u8)>(&self, boundary: u8, mut dist: F)
        requires { MayDeal F.FnMut boundary dist self.now.pairs }
        ensures { CallsEach (IsDealt F.FnMut boundary) dist (enumerate_from 0 self.now.pairs) }
    {
        let mut at = 0;
        while at < self.len() {
            match self.pair(at) {
                Some((key, value)) => dist(key, value, boundary, at as u8),
                None => unreachable!(),
            }
            at += 1;
        }
    }

    /// Calls `f` at each slot whose pair can be reached, rising, if `p` answers true of whether the array is frozen.
    pub fn for_each_pos<P: FnOnce(bool) -> bool, F: FnMut(u8)>(&self, p: P, f: F)
        requires asked { P.pre p self.now.frozen }
        requires shown { P.post p self.now.frozen true → TakesEach (λ f slot. F.pre f slot) (λ f slot g. F.step f slot tt g) f (ranked_slots self.now.labels) }
        ensures { (wanted : Bool) × P.post p self.now.frozen wanted × (IsTrue wanted → CallsEach (λ f slot g. F.step f slot tt g) f (ranked_slots self.now.labels)) }
    {
        if p(self.is_frozen()) {
            self.visit(f);
        }
    }

    /// Calls `f` at each slot whose pair can be reached, rising.
    fn visit<F: FnMut(u8)>(&self, mut f: F)
        requires { TakesEach (λ f slot. F.pre f slot) (λ f slot g. F.step f slot tt g) f (ranked_slots self.now.labels) }
        ensures { CallsEach (λ f slot g. F.step f slot tt g) f (ranked_slots self.now.labels) }
    {
        let mut slot: u8 = 0;
        while slot < 15 {
            if self.rank_of(slot) > 0 {
                f(slot);
            }
            slot += 1;
        }
    }

    /// Calls `f` at each slot whose bit is set, if `p` answers true of whether the array is frozen and retired.
    ///
    /// The slots come in the order of their bitmap places, each with its rank, its pair and whether
    /// that was removed or replaced. The first error ends it.
    pub fn for_each_all<
        E,
        P: FnOnce(bool, bool) -> bool,
        F: FnMut(u8, u8, Option<(&K, &V)>, bool) -> Result<(), E>,
    >(&self, p: P, f: F) -> Result<(), E>
        requires asked { P.pre p self.now.frozen self.now.retired }
        requires shown { P.post p self.now.frozen self.now.retired true → MayShow F.FnMut self.now f }
        ensures { (wanted : Bool) × P.post p self.now.frozen self.now.retired wanted × IsShownIf F.FnMut self.now f wanted result }
    {
        if p(self.is_frozen(), self.is_retired()) {
            self.show(f)
        } else {
            Ok(())
        }
    }

    /// Calls `f` at each slot whose bit is set, by bitmap place.
    fn show<E, F: FnMut(u8, u8, Option<(&K, &V)>, bool) -> Result<(), E>>(
        &self,
        mut f: F,
    ) -> Result<(), E>
        requires { MayShow F.FnMut self.now f }
        ensures { IsShownAll F.FnMut self.now f result }
    {
        let mut place: u8 = 0;
        while place < self.used() {
            let slot = slot_of(place);
            let rank = self.rank_of(slot);
            let Some(pair) = self.entry(slot) else {
                unreachable!()
            };
            match f(slot, rank, Some(pair), rank == 0) {
                Ok(()) => {},
                Err(error) => return Err(error),
            }
            place += 1;
        }
        Ok(())
    }

    /// Makes one value of all pairs, by rising keys.
    pub fn fold<B, F: FnMut(B, &K, &V) -> B>(&self, init: B, mut f: F) -> B
        requires { TakesEach {P = F × B} (TakesFolded F.FnMut) (IsFolded F.FnMut) (f, init) self.now.pairs }
        ensures { (last : F) × FoldsTo {P = F × B} (IsFolded F.FnMut) (f, init) self.now.pairs (last, result) }
    {
        let mut made = init;
        let mut at = 0;
        while at < self.len() {
            match self.pair(at) {
                Some((key, value)) => made = f(made, key, value),
                None => unreachable!(),
            }
            at += 1;
        }
        made
    }
}
