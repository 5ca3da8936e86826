//! Clones of another row's pairs, from any place on, or from the same one on: there both rows are passed as one, and no place
//! is found by its number.

ghost use Rattle.std.specs.Prelude.{◌≡◌, ◌+◌, ◌<◌, ◌≤◌, ◌∷◌, [], length, take, drop, IfSome, List};
ghost use Rattle.leaf_slots.specs.declared.place.Place.{Place};
ghost use Rattle.leaf_slots.specs.Places.{lined, live_pairs, IsEmptied, IsFilledFrom};

use crate::place::{Place, fill, pair_of, slot_of};
use crate::row::{Last, Link};
use crate::slots::Slots;

/// A row that takes clones of pairs in.
pub(crate) trait Extend<K: Clone + Drop, V: Clone + Drop> {
    ghost places: { Self → List (Place K V) };

    /// Puts clones of `count` pairs of other places, from the one at `from` on, into the empty places from `skip` on. These
    /// get the slots of their bitmap places, counted from `bitmap`, and no gaps. Answers how many: fewer if an allocation
    /// fails.
    fn extend(
        &mut self,
        skip: usize,
        bitmap: u8,
        source: &Slots<K, V>,
        from: usize,
        count: usize,
    ) -> usize
        requires keys { (x y : K) → K.is_clone x y → y ≡ x }
        requires values { (x y : V) → V.is_clone x y → y ≡ x }
        requires room { skip + count ≤ length (places self.old) }
        requires bitmap { bitmap + length (places self.old) ≤ 15 }
        requires empty { IsEmptied (drop skip (places self.old)) }
        requires within { from + count ≤ length (live_pairs source.now) }
        requires small { from + count ≤ 15 }
        ensures most { result ≤ count }
        ensures places { IsFilledFrom skip bitmap result (drop from (live_pairs source.now)) (places self.old) (places self.new) };
}

impl<K: Clone + Drop, V: Clone + Drop> Extend<K, V> for Last<K, V> {
    ghost places = { λ l. l.head ∷ [] };

    #[inline(always)]
    fn extend(
        &mut self,
        skip: usize,
        bitmap: u8,
        source: &Slots<K, V>,
        from: usize,
        count: usize,
    ) -> usize {
        if skip > 0 {
            return 0;
        }
        if count == 0 {
            return 0;
        }
        match cloned(source, from, bitmap) {
            Some(place) => {
                fill(&mut self.head, place);
                1
            },
            None => 0,
        }
    }
}

impl<K: Clone + Drop, V: Clone + Drop, R: Extend<K, V>> Extend<K, V> for Link<K, V, R> {
    ghost places = { λ l. l.head ∷ R.places l.rest };

    #[inline(always)]
    fn extend(
        &mut self,
        skip: usize,
        bitmap: u8,
        source: &Slots<K, V>,
        from: usize,
        count: usize,
    ) -> usize {
        if skip > 0 {
            return self.rest.extend(skip - 1, bitmap + 1, source, from, count);
        }
        if count == 0 {
            return 0;
        }
        match cloned(source, from, bitmap) {
            Some(place) => {
                fill(&mut self.head, place);
                1 + self.rest.extend(0, bitmap + 1, source, from + 1, count - 1)
            },
            None => 0,
        }
    }
}

/// A row that takes clones in of the pairs at the same places of another row.
pub(crate) trait ExtendAligned<K: Clone + Drop, V: Clone + Drop>: Sized {
    ghost places: { Self → List (Place K V) };

    /// Puts clones of `count` pairs of another row, from the one at `skip` on, into the empty places from `skip` on. These
    /// get the slots of their bitmap places, counted from `bitmap`, and no gaps. Answers how many: fewer if an allocation
    /// fails.
    fn extend_aligned(&mut self, skip: usize, bitmap: u8, source: &Self, count: usize) -> usize
        requires keys { (x y : K) → K.is_clone x y → y ≡ x }
        requires values { (x y : V) → V.is_clone x y → y ≡ x }
        requires room { skip + count ≤ length (places self.old) }
        requires bitmap { bitmap + length (places self.old) ≤ 15 }
        requires empty { IsEmptied (drop skip (places self.old)) }
        requires within { skip + count ≤ length (live_pairs (places source.now)) }
        ensures most { result ≤ count }
        ensures places { IsFilledFrom skip bitmap result (drop skip (live_pairs (places source.now))) (places self.old) (places self.new) };
}

impl<K: Clone + Drop, V: Clone + Drop> ExtendAligned<K, V> for Last<K, V> {
    ghost places = { λ l. l.head ∷ [] };

    #[inline(always)]
    fn extend_aligned(&mut self, skip: usize, bitmap: u8, source: &Self, count: usize) -> usize {
        if skip > 0 {
            return 0;
        }
        if count == 0 {
            return 0;
        }
        match beside(&source.head, bitmap) {
            Some(place) => {
                fill(&mut self.head, place);
                1
            },
            None => 0,
        }
    }
}

impl<K: Clone + Drop, V: Clone + Drop, R: ExtendAligned<K, V>> ExtendAligned<K, V>
    for Link<K, V, R> {
    ghost places = { λ l. l.head ∷ R.places l.rest };

    #[inline(always)]
    fn extend_aligned(&mut self, skip: usize, bitmap: u8, source: &Self, count: usize) -> usize {
        if skip > 0 {
            return self
                .rest
                .extend_aligned(skip - 1, bitmap + 1, &source.rest, count);
        }
        if count == 0 {
            return 0;
        }
        match beside(&source.head, bitmap) {
            Some(place) => {
                fill(&mut self.head, place);
                1 + self
                    .rest
                    .extend_aligned(0, bitmap + 1, &source.rest, count - 1)
            },
            None => 0,
        }
    }
}

/// A clone of a live place, whatever follows it, with the slot of a bitmap place and no gap. None if an allocation fails.
#[inline(always)]
fn beside<K: Clone + Drop, V: Clone + Drop>(source: &Place<K, V>, bitmap: u8) -> Option<Place<K, V>>
    requires keys { (x y : K) → K.is_clone x y → y ≡ x }
    requires values { (x y : V) → V.is_clone x y → y ≡ x }
    requires bitmap { bitmap < 15 }
    requires live { 0 < length (live_pairs (source.now ∷ [])) }
    ensures { (rest : List (Place K V)) → IfSome result (λ p. p ∷ [] ≡ lined bitmap (take 1 (live_pairs (source.now ∷ rest)))) }
{
    let Some((stored, held)) = pair_of(source) else {
        unreachable!()
    };
    standing(stored, held, bitmap)
}

/// A clone of the live place `at`, with the slot of a bitmap place and no gap. None if an allocation fails.
#[inline(always)]
fn cloned<K: Clone + Drop, V: Clone + Drop>(
    source: &Slots<K, V>,
    at: usize,
    bitmap: u8,
) -> Option<Place<K, V>>
    requires keys { (x y : K) → K.is_clone x y → y ≡ x }
    requires values { (x y : V) → V.is_clone x y → y ≡ x }
    requires bitmap { bitmap < 15 }
    requires live { at < length (live_pairs source.now) }
    ensures { IfSome result (λ p. p ∷ [] ≡ lined bitmap (take 1 (drop at (live_pairs source.now)))) }
{
    let Some((stored, held)) = source.pair(at) else {
        unreachable!()
    };
    standing(stored, held, bitmap)
}

/// A live place of clones of a key and a value, with the slot of a bitmap place and no gap. None if an allocation fails.
#[inline(always)]
fn standing<K: Clone + Drop, V: Clone + Drop>(
    stored: &K,
    held: &V,
    bitmap: u8,
) -> Option<Place<K, V>>
    requires keys { (x y : K) → K.is_clone x y → y ≡ x }
    requires values { (x y : V) → V.is_clone x y → y ≡ x }
    requires bitmap { bitmap < 15 }
    ensures { IfSome result (λ p. p ∷ [] ≡ lined bitmap ((stored.now, held.now) ∷ [])) }
{
    let Ok(key) = stored.clone() else {
        return None;
    };
    let Ok(value) = held.clone() else {
        return None;
    };
    Some(Place::Live {
        slot: slot_of(bitmap),
        gap: 0,
        key,
        value,
    })
}
