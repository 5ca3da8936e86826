//! Pairs and keys lent by place and by slot.

ghost use Rattle.std.specs.Prelude.{◌≡◌, option_copied, slice_index_or, ◌∷◌, [], List};
ghost use Rattle.leaf_slots.specs.declared.place.Place.{Place};
ghost use Rattle.leaf_slots.specs.declared.place.Place.TheVariants.{Empty};
ghost use Rattle.leaf_slots.specs.Labels.{newest};
ghost use Rattle.leaf_slots.specs.Lookups.{LendsPair};
ghost use Rattle.leaf_slots.specs.Places.{live_pair, dead_pairs, pair_at_slot};

use crate::place::{Place, pair_in_slot, pair_of};
use crate::row::{Last, Link};

/// A row that lends its pairs.
pub(crate) trait Lend<K, V> {
    ghost places: { Self → List (Place K V) };

    /// The pair of the live place `at`.
    fn pair(&self, at: usize) -> Option<(&K, &V)>
        ensures { LendsPair result (live_pair (slice_index_or (places self.now) at Empty)) };

    /// The pair with this slot, dead or alive.
    fn in_slot(&self, slot: u8) -> Option<(&K, &V)>
        ensures { LendsPair result (pair_at_slot slot (places self.now)) };

    /// The key of the first dead place.
    fn newest(&self) -> Option<&K>
        ensures { option_copied result ≡ newest (dead_pairs (places self.now)) };
}

impl<K, V> Lend<K, V> for Last<K, V> {
    ghost places = { λ l. l.head ∷ [] };

    #[inline(always)]
    fn pair(&self, at: usize) -> Option<(&K, &V)> {
        if at > 0 {
            return None;
        }
        pair_of(&self.head)
    }

    #[inline(always)]
    fn in_slot(&self, slot: u8) -> Option<(&K, &V)> {
        pair_in_slot(&self.head, slot)
    }

    #[inline(always)]
    fn newest(&self) -> Option<&K> {
        match &self.head {
            Place::Dead { key, .. } => Some(key),
            _ => None,
        }
    }
}

impl<K, V, R: Lend<K, V>> Lend<K, V> for Link<K, V, R> {
    ghost places = { λ l. l.head ∷ R.places l.rest };

    #[inline(always)]
    fn pair(&self, at: usize) -> Option<(&K, &V)> {
        if at == 0 {
            return pair_of(&self.head);
        }
        self.rest.pair(at - 1)
    }

    #[inline(always)]
    fn in_slot(&self, slot: u8) -> Option<(&K, &V)> {
        match pair_in_slot(&self.head, slot) {
            Some(pair) => Some(pair),
            None => self.rest.in_slot(slot),
        }
    }

    #[inline(always)]
    fn newest(&self) -> Option<&K> {
        match &self.head {
            Place::Dead { key, .. } => Some(key),
            _ => self.rest.newest(),
        }
    }
}
