//! The word of ranks by slots, and what is read off it.

ghost use Rattle.std.specs.Prelude.{◌≡◌, ◌≤◌, ◌<◌, ◌+◌, ◌^◌, ◌&&◌, cond, nat_lt, false, slice_get};
ghost use Rattle.leaf_array.specs.Cells.{lesser, entered, slot_of};
ghost use Rattle.leaf_array.specs.Lookups.{LendsValue};
ghost use Rattle.leaf_array.specs.Words.{ranks_from, word, score, boundary};

use crate::array::Array;
use leaf_slots::{Steps, slot_of};

/// The bit of a retired array.
const RETIRED: usize = 0x4000000000000000;

/// The bit of a frozen array.
const FROZEN: usize = 0x8000000000000000;

impl<K: Ord, V> Array<K, V> {
    /// The word of this moment: the rank of each slot in four bits, slot 0 lowest, bit 62 where the array is retired and bit 63 where it is frozen.
    pub fn metadata(&self) -> usize
        ensures { result ≡ word self.now }
    {
        self.ranks() + self.flags()
    }

    /// The word that the array would have if a new pair came in at `at`.
    pub(crate) fn word_beside(&self, at: usize) -> usize
        requires { self.now.used < 15 }
        ensures { result ≡ word (record self.now { retired = false; labels = entered 0 at (slot_of self.now.used) self.now.labels }) }
    {
        self.ranks_beside(at) + self.frozen_bit()
    }

    /// The two highest bits of the word.
    fn flags(&self) -> usize
        ensures { result ≡ cond self.now.retired (2 ^ 62) 0 + cond self.now.frozen (2 ^ 63) 0 }
    {
        let retired = if self.is_retired() { RETIRED } else { 0 };
        retired + self.frozen_bit()
    }

    /// The highest bit of the word.
    fn frozen_bit(&self) -> usize
        ensures { result ≡ cond self.now.frozen (2 ^ 63) 0 }
    {
        if self.is_frozen() { FROZEN } else { 0 }
    }

    /// The ranks of all slots.
    fn ranks(&self) -> usize
        ensures ranks { result ≡ ranks_from 0 15 self.now.labels }
        ensures within { result < 1152921504606846976 }
    {
        let mut word: usize = 0;
        for back in 0..15u8 {
            word = word * 16 + usize::from(self.rank_of(14 - back));
        }
        word
    }

    /// The ranks that all slots would have if a new pair came in at `at`.
    fn ranks_beside(&self, at: usize) -> usize
        requires { self.now.used < 15 }
        ensures ranks { result ≡ ranks_from 0 15 (entered 0 at (slot_of self.now.used) self.now.labels) }
        ensures within { result < 1152921504606846976 }
    {
        let mut word: usize = 0;
        for back in 0..15u8 {
            word = word * 16 + usize::from(self.rank_beside(at, 14 - back));
        }
        word
    }

    /// The value of the least key that isn't less, and the word.
    pub fn min_greater_equal(&self, key: &K) -> (Option<&V>, usize)
        ensures value { LendsValue result.0 (slice_get self.now.pairs (lesser K.cmp key.now self.now.pairs)) }
        ensures word { result.1 ≡ word self.now }
    {
        let mut steps = Steps::new();
        self.min_greater_equal_counted(key, &mut steps)
    }

    /// The same, by at most nine comparisons, which are counted.
    pub fn min_greater_equal_counted(&self, key: &K, steps: &mut Steps) -> (Option<&V>, usize)
        ensures value { LendsValue result.0 (slice_get self.now.pairs (lesser K.cmp key.now self.now.pairs)) }
        ensures word { result.1 ≡ word self.now }
        ensures cost { steps.new.count ≤ steps.old.count + 9 }
        ensures raised { steps.old.count ≤ steps.new.count }
    {
        let word = self.metadata();
        match self.lower_bound_counted(key, steps).1 {
            Some((_, value)) => (Some(value), word),
            None => (None, word),
        }
    }

    /// How many pairs the lower of two arrays should take when this one is split, how many pairs can be reached, and whether they came in the order of their keys.
    ///
    /// With at most eleven pairs the first is 15: such an array is better packed.
    pub fn optimal_boundary(&self) -> (u8, usize, bool)
        ensures { result ≡ boundary self.now }
    {
        let len = self.len();
        if len <= 11 {
            return (15, len, false);
        }
        let score = self.score();
        let half = if usize::from(score) < len {
            (score + 1) / 2
        } else {
            score / 2
        };
        (half, len, score == 29)
    }

    /// One, and two for each rise of rank from a reachable slot to the next one in the order of the bitmap.
    fn score(&self) -> u8
        ensures score { result ≡ score self.now }
        ensures within { result ≤ 31 }
    {
        let mut score: u8 = 1;
        let mut before: u8 = 0;
        for place in 0..15u8 {
            let rank = self.rank_of(slot_of(place));
            if rank > 0 {
                score += 2 * risen(before, rank);
                before = rank;
            }
        }
        score
    }
}

/// One where a rank is above the one before it, if there is one.
#[inline(always)]
fn risen(before: u8, rank: u8) -> u8
    ensures rise { result ≡ cond (nat_lt 0 before && nat_lt before rank) 1 0 }
    ensures within { result ≤ 1 }
{
    if before > 0 && before < rank { 1 } else { 0 }
}
