//! Two rows that change places.

ghost use Rattle.std.specs.Prelude.{◌≡◌, ◌++◌, ◌∷◌, [], List, length, take, drop};
ghost use Rattle.leaf_slots.specs.declared.place.Place.{Place};

use crate::row::{Last, Link};
use std::mem;

/// A row, as contracts see it.
pub(crate) trait Places<K, V> {
    ghost places: { Self → List (Place K V) };
}

/// A row that changes places with the front of another.
pub(crate) trait Exchange<K, V, S> {
    ghost mine: { Self → List (Place K V) };

    ghost others: { S → List (Place K V) };

    fn exchange(&mut self, other: &mut S)
        ensures other { others other.new ≡ mine self.old ++ drop (length (mine self.old)) (others other.old) }
        ensures mine { mine self.new ≡ take (length (mine self.old)) (others other.old) };
}

impl<K, V> Places<K, V> for Last<K, V> {
    ghost places = { λ l. l.head ∷ [] };
}

impl<K, V, R: Places<K, V>> Places<K, V> for Link<K, V, R> {
    ghost places = { λ l. l.head ∷ R.places l.rest };
}

impl<K, V, S: Places<K, V>> Exchange<K, V, Link<K, V, S>> for Last<K, V> {
    ghost mine = { λ l. l.head ∷ [] };

    ghost others = { λ l. l.head ∷ S.places l.rest };

    #[inline(always)]
    fn exchange(&mut self, other: &mut Link<K, V, S>) {
        mem::swap(&mut self.head, &mut other.head);
    }
}

impl<K, V, R: Exchange<K, V, S>, S> Exchange<K, V, Link<K, V, S>> for Link<K, V, R> {
    ghost mine = { λ l. l.head ∷ R.mine l.rest };

    ghost others = { λ l. l.head ∷ R.others l.rest };

    #[inline(always)]
    fn exchange(&mut self, other: &mut Link<K, V, S>) {
        mem::swap(&mut self.head, &mut other.head);
        self.rest.exchange(&mut other.rest);
    }
}
