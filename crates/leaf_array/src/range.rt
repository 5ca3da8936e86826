//! Removal of a range of keys.

ghost use Rattle.std.specs.Prelude.{◌≡◌, ◌++◌, ◌||◌, ◌&&◌, not, true, false, MatchOption, slice_get};
ghost use Rattle.std.specs.List.{filter};
ghost use Rattle.leaf_array.specs.Lookups.{deref_bound, is_within};
ghost use Rattle.std.specs.BTreeMap.Range.{is_from_start, is_past_end};
ghost use Rattle.leaf_array.specs.Cells.{is_nil, labels_left, taken_out};

use crate::array::Array;
use leaf_slots::Steps;
use std::cmp::Ordering;
use std::ops::Bound;

impl<K: Ord, V> Array<K, V> {
    /// Removes the pairs whose keys lie within two bounds, of a frozen array too.
    ///
    /// Each keeps its slot, as [`Array::key`] and [`Array::val`] show, and the greatest of them is the one that
    /// was removed last. An array that isn't frozen and so loses its last pair retires.
    pub fn remove_range(&mut self, lo: Bound<&K>, hi: Bound<&K>)
        ensures pairs { self.new.pairs ≡ filter (λ p. not (is_within K.cmp lo.entry hi.entry p.0)) self.old.pairs }
        ensures labels { self.new.labels ≡ labels_left (λ k. is_within K.cmp lo.entry hi.entry k) self.old.pairs self.old.labels }
        ensures tombstones { self.new.tombstones ≡ taken_out (λ k. is_within K.cmp lo.entry hi.entry k) self.old.pairs self.old.labels ++ self.old.tombstones }
        ensures used { self.new.used ≡ self.old.used }
        ensures frozen { self.new.frozen ≡ self.old.frozen }
        ensures retired { self.new.retired ≡ (self.old.retired || is_nil self.new.pairs && not (is_nil self.old.pairs) && not self.old.frozen) }
    {
        let mut at = 0;
        while at < self.len() {
            if self.is_within(at, &lo, &hi) {
                self.bury(at);
            } else {
                at += 1;
            }
        }
    }

    /// Whether the key of the pair at `at` lies within two bounds.
    fn is_within(&self, at: usize, lo: &Bound<&K>, hi: &Bound<&K>) -> bool
        ensures { MatchOption (slice_get self.now.pairs at) (result ≡ false) (λ p. result ≡ is_within K.cmp lo.now hi.now p.0) }
    {
        match self.pair(at) {
            Some((key, _)) => is_from(lo, key) && !is_past(hi, key),
            None => false,
        }
    }
}

/// Whether a key is inside a lower bound.
fn is_from<K: Ord>(lo: &Bound<&K>, key: &K) -> bool
    ensures { result ≡ is_from_start K.cmp (deref_bound lo.now) key.now }
{
    match lo {
        Bound::Included(low) => compare(*low, key).is_le(),
        Bound::Excluded(low) => compare(*low, key).is_lt(),
        Bound::Unbounded => true,
    }
}

/// Whether a key is outside an upper bound.
fn is_past<K: Ord>(hi: &Bound<&K>, key: &K) -> bool
    ensures { result ≡ is_past_end K.cmp (deref_bound hi.now) key.now }
{
    match hi {
        Bound::Included(high) => compare(*high, key).is_lt(),
        Bound::Excluded(high) => compare(*high, key).is_le(),
        Bound::Unbounded => false,
    }
}

/// A comparison of keys that nobody counts.
#[inline(always)]
fn compare<K: Ord>(stored: &K, key: &K) -> Ordering
    ensures { result ≡ K.cmp stored.now key.now }
{
    let mut steps = Steps::new();
    steps.compare(stored, key)
}
