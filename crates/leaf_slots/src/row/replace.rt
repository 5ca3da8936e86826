//! A place in the stead of another.

ghost use Rattle.std.specs.Prelude.{◌≡◌, ◌<◌, ◌∷◌, [], length, IsSome, Some, slice_index_or, List};
ghost use Rattle.leaf_slots.specs.declared.place.Place.{Place};
ghost use Rattle.leaf_slots.specs.declared.place.Place.TheVariants.{Empty};
ghost use Rattle.leaf_slots.specs.Places.{live_pair, IsPairedAt, IsReplacedAt};

use crate::place::{Place, overwrite};
use crate::row::{Last, Link};
use std::mem;

/// A row in which a place takes the stead of another.
pub(crate) trait Put<K, V> {
    ghost places: { Self → List (Place K V) };

    /// Puts a place where the one at `at` is, and gives that one.
    fn put(&mut self, at: usize, place: Place<K, V>) -> Place<K, V>
        requires { at < length (places self.old) }
        ensures old { result ≡ slice_index_or (places self.old) at Empty }
        ensures new { IsReplacedAt at place (places self.old) (places self.new) };
}

/// A row in which a live place gets another pair.
pub(crate) trait Overwrite<K, V> {
    ghost places: { Self → List (Place K V) };

    /// Writes another pair into the live place `at`, and gives the one that was there.
    fn overwrite(&mut self, at: usize, key: K, value: V) -> (K, V)
        requires { IsSome (live_pair (slice_index_or (places self.old) at Empty)) }
        ensures pair { Some result ≡ live_pair (slice_index_or (places self.old) at Empty) }
        ensures new { IsPairedAt at key value (places self.old) (places self.new) };
}

impl<K, V> Put<K, V> for Last<K, V> {
    ghost places = { λ l. l.head ∷ [] };

    #[inline(always)]
    fn put(&mut self, at: usize, place: Place<K, V>) -> Place<K, V>
        requires { at < length (self.old.head ∷ []) }
        ensures old { result ≡ slice_index_or (self.old.head ∷ []) at Empty }
        ensures new { IsReplacedAt at place (self.old.head ∷ []) (self.new.head ∷ []) }
    {
        mem::replace(&mut self.head, place)
    }
}

impl<K, V, R: Put<K, V>> Put<K, V> for Link<K, V, R> {
    ghost places = { λ l. l.head ∷ R.places l.rest };

    #[inline(always)]
    fn put(&mut self, at: usize, place: Place<K, V>) -> Place<K, V>
        requires { at < length (self.old.head ∷ R.places self.old.rest) }
        ensures old { result ≡ slice_index_or (self.old.head ∷ R.places self.old.rest) at Empty }
        ensures new { IsReplacedAt at place (self.old.head ∷ R.places self.old.rest) (self.new.head ∷ R.places self.new.rest) }
    {
        if at > 0 {
            return self.rest.put(at - 1, place);
        }
        mem::replace(&mut self.head, place)
    }
}

impl<K, V> Overwrite<K, V> for Last<K, V> {
    ghost places = { λ l. l.head ∷ [] };

    #[inline(always)]
    fn overwrite(&mut self, at: usize, key: K, value: V) -> (K, V)
        requires { IsSome (live_pair (slice_index_or (self.old.head ∷ []) at Empty)) }
        ensures pair { Some result ≡ live_pair (slice_index_or (self.old.head ∷ []) at Empty) }
        ensures new { IsPairedAt at key value (self.old.head ∷ []) (self.new.head ∷ []) }
    {
        if at > 0 {
            unreachable!();
        }
        overwrite(&mut self.head, key, value)
    }
}

impl<K, V, R: Overwrite<K, V>> Overwrite<K, V> for Link<K, V, R> {
    ghost places = { λ l. l.head ∷ R.places l.rest };

    #[inline(always)]
    fn overwrite(&mut self, at: usize, key: K, value: V) -> (K, V)
        requires { IsSome (live_pair (slice_index_or (self.old.head ∷ R.places self.old.rest) at Empty)) }
        ensures pair { Some result ≡ live_pair (slice_index_or (self.old.head ∷ R.places self.old.rest) at Empty) }
        ensures new { IsPairedAt at key value (self.old.head ∷ R.places self.old.rest) (self.new.head ∷ R.places self.new.rest) }
    {
        if at > 0 {
            return self.rest.overwrite(at - 1, key, value);
        }
        overwrite(&mut self.head, key, value)
    }
}
