//! One place more.

ghost use Rattle.std.specs.Prelude.{◌≡◌, ◌∷◌, [], drop, IsTrue, List};
ghost use Rattle.leaf_slots.specs.declared.place.Place.{Place};
ghost use Rattle.leaf_slots.specs.Places.{has_room, pushed, IsInsertedAt};

use crate::place::{Place, fill};
use crate::row::{Last, Link};
use std::mem;

/// A row that takes one more place in.
pub(crate) trait Enter<K, V> {
    ghost places: { Self → List (Place K V) };

    /// Puts a place in at the front. Those up to the first that is empty move on.
    fn push(&mut self, place: Place<K, V>)
        requires { IsTrue (has_room (places self.old)) }
        ensures { places self.new ≡ pushed place (places self.old) };

    /// Puts a place in at `at`.
    fn insert(&mut self, at: usize, place: Place<K, V>)
        requires { IsTrue (has_room (drop at (places self.old))) }
        ensures { IsInsertedAt at place (places self.old) (places self.new) };
}

impl<K, V> Enter<K, V> for Last<K, V> {
    ghost places = { λ l. l.head ∷ [] };

    #[inline(always)]
    fn push(&mut self, place: Place<K, V>)
        requires { IsTrue (has_room (self.old.head ∷ [])) }
        ensures { self.new.head ∷ [] ≡ pushed place (self.old.head ∷ []) }
    {
        fill(&mut self.head, place);
    }

    #[inline(always)]
    fn insert(&mut self, at: usize, place: Place<K, V>)
        requires { IsTrue (has_room (drop at (self.old.head ∷ []))) }
        ensures { IsInsertedAt at place (self.old.head ∷ []) (self.new.head ∷ []) }
    {
        if at > 0 {
            unreachable!();
        }
        fill(&mut self.head, place);
    }
}

impl<K, V, R: Enter<K, V>> Enter<K, V> for Link<K, V, R> {
    ghost places = { λ l. l.head ∷ R.places l.rest };

    #[inline(always)]
    fn push(&mut self, place: Place<K, V>)
        requires { IsTrue (has_room (self.old.head ∷ R.places self.old.rest)) }
        ensures { self.new.head ∷ R.places self.new.rest ≡ pushed place (self.old.head ∷ R.places self.old.rest) }
    {
        match mem::replace(&mut self.head, place) {
            Place::Empty => {},
            next => self.rest.push(next),
        }
    }

    #[inline(always)]
    fn insert(&mut self, at: usize, place: Place<K, V>)
        requires { IsTrue (has_room (drop at (self.old.head ∷ R.places self.old.rest))) }
        ensures { IsInsertedAt at place (self.old.head ∷ R.places self.old.rest) (self.new.head ∷ R.places self.new.rest) }
    {
        if at == 0 {
            self.push(place);
        } else {
            self.rest.insert(at - 1, place);
        }
    }
}
