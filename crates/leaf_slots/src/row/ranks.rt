//! Ranks by slot.

ghost use Rattle.std.specs.Prelude.{◌≡◌, ◌+◌, ◌<◌, ◌≤◌, ◌∷◌, [], List};
ghost use Rattle.leaf_slots.specs.declared.place.Place.{Place};
ghost use Rattle.leaf_slots.specs.Labels.{rank_in, entered};
ghost use Rattle.leaf_slots.specs.Places.{labels_above, top};

use crate::place::Place;
use crate::row::{Last, Link};

/// A row that says which rank a slot has.
pub(crate) trait Ranks<K, V> {
    ghost places: { Self → List (Place K V) };

    /// The rank of the live place with this slot, 0 if none has it, where those before the row go up to `low`.
    fn rank_of(&self, slot: u8, low: u16) -> u16
        requires { low + top (places self.now) ≤ 15 }
        ensures { result ≡ rank_in slot (labels_above low (places self.now)) };

    /// The rank that a slot would have if a live place with the slot `fresh` came in at `at`, where those before the row go up to `low`.
    fn rank_beside(&self, at: usize, fresh: u8, slot: u8, low: u16) -> u16
        requires { low + top (places self.now) < 15 }
        ensures { result ≡ rank_in slot (entered low at fresh (labels_above low (places self.now))) };
}

/// A row that says how far its ranks go.
pub(crate) trait Top<K, V> {
    ghost places: { Self → List (Place K V) };

    /// The rank of the last live place, where those before the row go up to `low`.
    fn top(&self, low: u16) -> u16
        requires { low + top (places self.now) ≤ 15 }
        ensures { result ≡ low + top (places self.now) };
}

impl<K, V> Ranks<K, V> for Last<K, V> {
    ghost places = { λ l. l.head ∷ [] };

    #[inline(always)]
    fn rank_of(&self, slot: u8, low: u16) -> u16 {
        match &self.head {
            Place::Live { slot: own, gap, .. } if *own == slot => low + *gap + 1,
            _ => 0,
        }
    }

    #[inline(always)]
    #[tactic(auto, using(crate::proofs::EditLemmas::labels_higher))]
    fn rank_beside(&self, at: usize, fresh: u8, slot: u8, low: u16) -> u16 {
        if at > 1 {
            return Ranks::<K, V>::rank_of(self, slot, low);
        }
        if at == 0 {
            return if fresh == slot {
                low + 1
            } else {
                Ranks::<K, V>::rank_of(self, slot, low + 1)
            };
        }
        match &self.head {
            Place::Live { slot: own, gap, .. } => {
                let rank = low + *gap + 1;
                if *own == slot {
                    rank
                } else if fresh == slot {
                    rank + 1
                } else {
                    0
                }
            },
            _ => 0,
        }
    }
}

impl<K, V, R: Ranks<K, V>> Ranks<K, V> for Link<K, V, R> {
    ghost places = { λ l. l.head ∷ R.places l.rest };

    #[inline(always)]
    fn rank_of(&self, slot: u8, low: u16) -> u16 {
        match &self.head {
            Place::Live { slot: own, gap, .. } => {
                let rank = low + *gap + 1;
                if *own == slot {
                    rank
                } else {
                    self.rest.rank_of(slot, rank)
                }
            },
            _ => 0,
        }
    }

    #[inline(always)]
    #[tactic(auto, using(crate::proofs::EditLemmas::labels_higher))]
    fn rank_beside(&self, at: usize, fresh: u8, slot: u8, low: u16) -> u16 {
        if at > 0 {
            return match &self.head {
                Place::Live { slot: own, gap, .. } => {
                    let own_rank = low + *gap + 1;
                    if *own == slot {
                        own_rank
                    } else {
                        self.rest.rank_beside(at - 1, fresh, slot, own_rank)
                    }
                },
                _ => 0,
            };
        }
        if fresh == slot {
            low + 1
        } else {
            self.rank_of(slot, low + 1)
        }
    }
}

impl<K, V> Top<K, V> for Last<K, V> {
    ghost places = { λ l. l.head ∷ [] };

    #[inline(always)]
    fn top(&self, low: u16) -> u16 {
        match &self.head {
            Place::Live { gap, .. } => low + *gap + 1,
            _ => low,
        }
    }
}

impl<K, V, R: Top<K, V>> Top<K, V> for Link<K, V, R> {
    ghost places = { λ l. l.head ∷ R.places l.rest };

    #[inline(always)]
    fn top(&self, low: u16) -> u16 {
        match &self.head {
            Place::Live { gap, .. } => self.rest.top(low + *gap + 1),
            _ => low,
        }
    }
}
