//! Search by key.

ghost use Rattle.std.specs.Prelude.{◌≡◌, ◌+◌, ◌≤◌, length, ◌∷◌, [], List};
ghost use Rattle.leaf_slots.specs.declared.place.Place.{Place};
ghost use Rattle.leaf_slots.specs.Lookups.{LendsPair};
ghost use Rattle.leaf_slots.specs.Places.{live_below, least};

use crate::place::Place;
use crate::row::{Last, Link};
use crate::steps::Steps;
use std::cmp::Ordering;

/// A row that is searched by key.
pub(crate) trait Search<K: Ord, V> {
    ghost places: { Self → List (Place K V) };

    /// The first live place whose key isn't less, counted from `at`, and its pair: a comparison for each
    /// place before it, and one for its own.
    fn lower(&self, at: usize, key: &K, steps: &mut Steps) -> (usize, Option<(&K, &V)>)
        requires { at + length (places self.now) ≤ 15 }
        ensures cost { steps.new.count ≤ steps.old.count + live_below K.cmp key.now (places self.now) + 1 }
        ensures raised { steps.old.count ≤ steps.new.count }
        ensures place { result.0 ≡ at + live_below K.cmp key.now (places self.now) }
        ensures pair { LendsPair result.1 (least K.cmp key.now (places self.now)) };
}

impl<K: Ord, V> Search<K, V> for Last<K, V> {
    ghost places = { λ l. l.head ∷ [] };

    #[inline(always)]
    fn lower(&self, at: usize, key: &K, steps: &mut Steps) -> (usize, Option<(&K, &V)>) {
        match &self.head {
            Place::Live {
                key: stored,
                value,
                ..
            } => {
                if steps.compare(stored, key) == Ordering::Less {
                    (at + 1, None)
                } else {
                    (at, Some((stored, value)))
                }
            },
            _ => (at, None),
        }
    }
}

impl<K: Ord, V, R: Search<K, V>> Search<K, V> for Link<K, V, R> {
    ghost places = { λ l. l.head ∷ R.places l.rest };

    #[inline(always)]
    fn lower(&self, at: usize, key: &K, steps: &mut Steps) -> (usize, Option<(&K, &V)>) {
        match &self.head {
            Place::Live {
                key: stored,
                value,
                ..
            } => {
                if steps.compare(stored, key) == Ordering::Less {
                    self.rest.lower(at + 1, key, steps)
                } else {
                    (at, Some((stored, value)))
                }
            },
            _ => (at, None),
        }
    }
}
