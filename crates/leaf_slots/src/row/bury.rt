//! A live place that dies.

ghost use Rattle.std.specs.Prelude.{◌≡◌, ◌<◌, ◌≤◌, ◌++◌, ◌∷◌, [], length, take, drop, List};
ghost use Rattle.leaf_slots.specs.declared.place.Place.{Place};
ghost use Rattle.leaf_slots.specs.declared.place.Place.TheVariants.{Empty};
ghost use Rattle.leaf_slots.specs.Places.{top, sunk, tombstones};

use crate::place::{Place, fill, widen};
use crate::row::{Last, Link};
use std::mem;

/// A row in which live places die.
pub(crate) trait Bury<K, V> {
    ghost places: { Self → List (Place K V) };

    /// Moves the live places at the front up by one, the first into a hole before them, and puts a place behind them.
    fn sink(&mut self, hole: &mut Place<K, V>, last: Place<K, V>)
        requires { hole.old ≡ Empty }
        ensures { hole.new ∷ places self.new ≡ sunk last (places self.old) };

    /// Buries the live place `at`: it is dead, and behind the live ones.
    fn bury(&mut self, at: usize)
        requires rank { top (drop at (places self.old)) ≤ 15 }
        requires place { at < length (places self.old) }
        ensures { places self.new ≡ take at (places self.old) ++ tombstones (drop at (places self.old)) };
}

impl<K, V> Bury<K, V> for Last<K, V> {
    ghost places = { λ l. l.head ∷ [] };

    #[inline(always)]
    fn sink(&mut self, hole: &mut Place<K, V>, last: Place<K, V>)
        requires { hole.old ≡ Empty }
        ensures { hole.new ∷ self.new.head ∷ [] ≡ sunk last (self.old.head ∷ []) }
    {
        match &self.head {
            Place::Live { .. } => fill(hole, mem::replace(&mut self.head, last)),
            _ => fill(hole, last),
        }
    }

    #[inline(always)]
    fn bury(&mut self, at: usize) {
        match mem::replace(&mut self.head, Place::Empty) {
            Place::Live {
                slot,
                gap: _,
                key,
                value,
            } => fill(&mut self.head, Place::Dead { slot, key, value }),
            other => fill(&mut self.head, other),
        }
    }
}

impl<K, V, R: Bury<K, V>> Bury<K, V> for Link<K, V, R> {
    ghost places = { λ l. l.head ∷ R.places l.rest };

    #[inline(always)]
    fn sink(&mut self, hole: &mut Place<K, V>, last: Place<K, V>)
        requires { hole.old ≡ Empty }
        ensures { hole.new ∷ self.new.head ∷ R.places self.new.rest ≡ sunk last (self.old.head ∷ R.places self.old.rest) }
    {
        match &self.head {
            Place::Live { .. } => {
                fill(hole, mem::replace(&mut self.head, Place::Empty));
                self.rest.sink(&mut self.head, last);
            },
            _ => fill(hole, last),
        }
    }

    #[inline(always)]
    fn bury(&mut self, at: usize) {
        if at > 0 {
            self.rest.bury(at - 1);
            return;
        }
        match mem::replace(&mut self.head, Place::Empty) {
            Place::Live {
                slot,
                gap,
                key,
                value,
            } => {
                self.rest
                    .sink(&mut self.head, Place::Dead { slot, key, value });
                widen(&mut self.head, gap + 1);
            },
            other => fill(&mut self.head, other),
        }
    }
}
