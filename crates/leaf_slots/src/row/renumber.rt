//! The slots of a packed row.

ghost use Rattle.std.specs.Prelude.{◌≡◌, ◌+◌, ◌≤◌, length, ◌∷◌, [], List};
ghost use Rattle.leaf_slots.specs.declared.place.Place.{Place};
ghost use Rattle.leaf_slots.specs.Places.{repacked, IsTailed};

use crate::place::renumber;
use crate::row::{Last, Link};

/// A row whose pairs can be dropped.
pub(crate) trait Renumber<K: Drop, V: Drop> {
    ghost places: { Self → List (Place K V) };

    /// Drops the dead pairs, and gives the live ones the slots of the bitmap places from `from` on, without gaps.
    /// It stops at the first empty place.
    fn renumber(&mut self, from: u8)
        requires within { from + length (places self.old) ≤ 15 }
        requires tailed { IsTailed (places self.old) }
        ensures { places self.new ≡ repacked from (places self.old) };
}

impl<K: Drop, V: Drop> Renumber<K, V> for Last<K, V> {
    ghost places = { λ l. l.head ∷ [] };

    #[inline(always)]
    fn renumber(&mut self, from: u8) {
        let _ = renumber(&mut self.head, from);
    }
}

impl<K: Drop, V: Drop, R: Renumber<K, V>> Renumber<K, V> for Link<K, V, R> {
    ghost places = { λ l. l.head ∷ R.places l.rest };

    #[inline(always)]
    fn renumber(&mut self, from: u8) {
        if renumber(&mut self.head, from) {
            self.rest.renumber(from + 1);
        }
    }
}
