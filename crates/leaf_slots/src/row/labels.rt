//! Slots by rank, and live places by slot.

ghost use Rattle.std.specs.Prelude.{◌≡◌, ◌+◌, ◌≤◌, length, ◌∷◌, [], List};
ghost use Rattle.leaf_slots.specs.declared.place.Place.{Place};
ghost use Rattle.leaf_slots.specs.Labels.{first_above, last_below};
ghost use Rattle.leaf_slots.specs.Places.{labels_above, top, stands};

use crate::place::Place;
use crate::row::{Last, Link};

/// A row that says which slot comes next by rank.
pub(crate) trait Labels<K, V> {
    ghost places: { Self → List (Place K V) };

    /// Slot and rank of the first live place above a rank, where those before the row go up to `low`.
    fn above(&self, rank: u16, low: u16) -> Option<(u8, u16)>
        requires { low + top (places self.now) ≤ 15 }
        ensures { result ≡ first_above rank (labels_above low (places self.now)) };

    /// Slot and rank of the last live place below a rank, or of the last one of all if that is 0.
    fn under(&self, rank: u16, low: u16) -> Option<(u8, u16)>
        requires { low + top (places self.now) ≤ 15 }
        ensures { result ≡ last_below rank (labels_above low (places self.now)) };

    /// How many live places at the front come before the one with this slot, counted from `at`.
    fn position(&self, slot: u8, at: usize) -> usize
        requires { at + length (places self.now) ≤ 15 }
        ensures { result ≡ at + stands slot (places self.now) };
}

impl<K, V> Labels<K, V> for Last<K, V> {
    ghost places = { λ l. l.head ∷ [] };

    #[inline(always)]
    fn above(&self, rank: u16, low: u16) -> Option<(u8, u16)> {
        match &self.head {
            Place::Live { slot, gap, .. } => {
                let own = low + *gap + 1;
                if rank < own { Some((*slot, own)) } else { None }
            },
            _ => None,
        }
    }

    #[inline(always)]
    fn under(&self, rank: u16, low: u16) -> Option<(u8, u16)> {
        match &self.head {
            Place::Live { slot, gap, .. } => {
                let own = low + *gap + 1;
                if rank > 0 && own >= rank {
                    return None;
                }
                Some((*slot, own))
            },
            _ => None,
        }
    }

    #[inline(always)]
    fn position(&self, slot: u8, at: usize) -> usize {
        match &self.head {
            Place::Live { slot: own, .. } if *own != slot => at + 1,
            _ => at,
        }
    }
}

impl<K, V, R: Labels<K, V>> Labels<K, V> for Link<K, V, R> {
    ghost places = { λ l. l.head ∷ R.places l.rest };

    #[inline(always)]
    fn above(&self, rank: u16, low: u16) -> Option<(u8, u16)> {
        match &self.head {
            Place::Live { slot, gap, .. } => {
                let own = low + *gap + 1;
                if rank < own {
                    Some((*slot, own))
                } else {
                    self.rest.above(rank, own)
                }
            },
            _ => None,
        }
    }

    #[inline(always)]
    fn under(&self, rank: u16, low: u16) -> Option<(u8, u16)> {
        match &self.head {
            Place::Live { slot, gap, .. } => {
                let own = low + *gap + 1;
                if rank > 0 && own >= rank {
                    return None;
                }
                match self.rest.under(rank, own) {
                    Some(later) => Some(later),
                    None => Some((*slot, own)),
                }
            },
            _ => None,
        }
    }

    #[inline(always)]
    fn position(&self, slot: u8, at: usize) -> usize {
        match &self.head {
            Place::Live { slot: own, .. } if *own != slot => { self.rest.position(slot, at + 1) },
            _ => at,
        }
    }
}
