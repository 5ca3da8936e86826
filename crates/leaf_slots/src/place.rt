//! A place of an array.

ghost use Rattle.std.specs.Prelude.{◌≡◌, ◌+◌, ◌<◌, ◌≤◌, ◌∷◌, ◌↔◌, [], List, Some, IsSome, IsTrue, not};
ghost use Rattle.leaf_slots.specs.declared.place.Place.{Place};
ghost use Rattle.leaf_slots.specs.declared.place.Place.TheVariants.{Empty};
ghost use Rattle.leaf_slots.specs.Labels.{slot_of};
ghost use Rattle.leaf_slots.specs.Lookups.{LendsPair, LendsPairOr};
ghost use Rattle.leaf_slots.specs.Places.{top, widened, live_below, is_empty, live_pair, paired, repacked, pair_at_slot};

use crate::steps::Steps;
use std::cmp::Ordering;
use std::mem;

/// A place of an array.
///
/// A live pair can be reached, and `gap` ranks below its own are taken by no other. A dead one was removed or replaced.
// A gap has two bytes, so that no odd number of bytes is left over, which copies would go through one by one.
#[derive(Drop)]
pub enum Place<K, V> {
    /// No pair.
    Empty,
    /// A pair that was removed or replaced.
    Dead {
        slot: u8,
        key: K,
        value: V,
    },
    /// A pair that can be reached.
    Live {
        slot: u8,
        gap: u16,
        key: K,
        value: V,
    },
}

/// The slot of a bitmap place.
#[inline(always)]
pub fn slot_of(place: u8) -> u8
    requires { place < 15 }
    ensures slot { result ≡ slot_of place }
    ensures within { result < 15 }
{
    // A table is one read, where a sum takes ten instructions in each insertion.
    match place {
        0 => 1,
        1 => 2,
        2 => 3,
        3 => 0,
        4 => 5,
        5 => 6,
        6 => 7,
        7 => 4,
        8 => 9,
        9 => 10,
        10 => 11,
        11 => 8,
        _ => place,
    }
}

/// Puts a place where an empty one is.
#[inline(always)]
pub(crate) fn fill<K, V>(place: &mut Place<K, V>, with: Place<K, V>)
    requires { place.old ≡ Empty }
    ensures { place.new ≡ with }
{
    match mem::replace(place, with) {
        Place::Empty => {},
        _ => unreachable!(),
    }
}

/// Adds `more` ranks below a place's own, if it is live.
#[inline(always)]
pub(crate) fn widen<K, V>(place: &mut Place<K, V>, more: u16)
    requires { top (place.old ∷ []) + more ≤ 15 }
    ensures { place.new ∷ [] ≡ widened more (place.old ∷ []) }
{
    match place {
        Place::Live { gap, .. } => *gap += more,
        _ => {},
    }
}

/// Whether a place is live with a lesser key: one comparison at most.
#[inline(always)]
pub(crate) fn precedes<K: Ord, V>(place: &Place<K, V>, key: &K, steps: &mut Steps) -> bool
    ensures lesser { IsTrue result ↔ (0 < live_below K.cmp key.now (place.now ∷ [])) }
    ensures cost { steps.new.count ≤ steps.old.count + 1 }
    ensures raised { steps.old.count ≤ steps.new.count }
{
    match place {
        Place::Live { key: stored, .. } => steps.compare(stored, key) == Ordering::Less,
        _ => false,
    }
}

/// The pair of a live place.
#[inline(always)]
pub(crate) fn pair_of<K, V>(place: &Place<K, V>) -> Option<(&K, &V)>
    ensures { LendsPair result (live_pair place.now) }
{
    match place {
        Place::Live { key, value, .. } => Some((key, value)),
        _ => None,
    }
}

/// The pair of a place that has this slot, dead or alive.
#[inline(always)]
pub(crate) fn pair_in_slot<K, V>(place: &Place<K, V>, slot: u8) -> Option<(&K, &V)>
    ensures { (rest : List (Place K V)) → LendsPairOr (pair_at_slot slot rest) result (pair_at_slot slot (place.now ∷ rest)) }
{
    match place {
        Place::Live {
            slot: own,
            key,
            value,
            ..
        } if *own == slot => Some((key, value)),
        Place::Dead {
            slot: own,
            key,
            value,
        } if *own == slot => Some((key, value)),
        _ => None,
    }
}

/// Writes another pair into a live place, and gives the one that was there.
#[inline(always)]
pub(crate) fn overwrite<K, V>(place: &mut Place<K, V>, key: K, value: V) -> (K, V)
    requires { IsSome (live_pair place.old) }
    ensures pair { Some result ≡ live_pair place.old }
    ensures new { (rest : List (Place K V)) → place.new ∷ rest ≡ paired key value (place.old ∷ rest) }
{
    match place {
        Place::Live {
            slot: _,
            gap: _,
            key: old_key,
            value: old_value,
        } => (mem::replace(old_key, key), mem::replace(old_value, value)),
        _ => unreachable!(),
    }
}

/// Gives a live place the slot of a bitmap place and no gap. A dead pair is dropped. It says whether the place was
/// used.
#[inline(always)]
pub(crate) fn renumber<K: Drop, V: Drop>(place: &mut Place<K, V>, bitmap: u8) -> bool
    requires { bitmap < 15 }
    ensures used { result ≡ not (is_empty place.old) }
    ensures places { (rest : List (Place K V)) → place.new ∷ repacked (bitmap + 1) rest ≡ repacked bitmap (place.old ∷ rest) }
{
    match place {
        Place::Live { slot, gap, .. } => {
            *slot = slot_of(bitmap);
            *gap = 0;
            true
        },
        Place::Dead { .. } => {
            let _dead = mem::replace(place, Place::Empty);
            true
        },
        Place::Empty => false,
    }
}
