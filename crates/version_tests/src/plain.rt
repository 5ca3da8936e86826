//! Calls of walks, and a plain machine over a list that answers them.

use std::mem;
use std::ops::Bound;

// A pair, or none.
pub(crate) type Pair = Option<(u64, u64)>;

// A call of a walk.
#[derive(Clone, Copy)]
pub(crate) enum Call {
    Next,
    NextBack,
    Get,
    Flip,
}

// What it answers: the pair that it comes to, or whether the ends change places.
#[derive(Clone, Copy, PartialEq)]
pub(crate) enum Told {
    At(Pair),
    Flips(bool),
}

// An end of the plain machine.
#[derive(Clone, Copy)]
enum Place {
    Unopened,
    At(usize),
    Done,
}

// A cursor over a list, as it is defined: two ends, and bounds.
#[derive(Drop)]
pub(crate) struct Plain<'l> {
    pairs: &'l [(u64, u64)],
    lower: Bound<u64>,
    upper: Bound<u64>,
    forward: Place,
    backward: Place,
}

impl<'l> Plain<'l> {
    pub(crate) fn within(pairs: &'l [(u64, u64)], lower: Bound<u64>, upper: Bound<u64>) -> Self {
        Plain {
            pairs,
            lower,
            upper,
            forward: Place::Unopened,
            backward: Place::Unopened,
        }
    }

    // Around a key, without bounds.
    pub(crate) fn around(pairs: &'l [(u64, u64)], key: u64) -> Self {
        let (forward, backward) = ends_around(pairs, key);
        Plain {
            pairs,
            lower: Bound::Unbounded,
            upper: Bound::Unbounded,
            forward,
            backward,
        }
    }

    pub(crate) fn has_none(&self) -> bool {
        self.pairs.is_empty()
    }

    fn is_from_start(&self, key: u64) -> bool {
        match self.lower {
            Bound::Included(low) => low <= key,
            Bound::Excluded(low) => low < key,
            Bound::Unbounded => true,
        }
    }

    fn is_up_to_end(&self, key: u64) -> bool {
        match self.upper {
            Bound::Included(high) => key <= high,
            Bound::Excluded(high) => key < high,
            Bound::Unbounded => true,
        }
    }

    fn first_within(&self) -> Place {
        for (place, pair) in self.pairs.iter().enumerate() {
            if self.is_from_start(pair.0) {
                return Place::At(place);
            }
        }
        Place::Unopened
    }

    fn last_within(&self) -> Place {
        let mut last = Place::Unopened;
        for (place, pair) in self.pairs.iter().enumerate() {
            if self.is_up_to_end(pair.0) {
                last = Place::At(place);
            }
        }
        last
    }

    fn pair(&self, place: Place) -> Pair {
        match place {
            Place::At(place) => self.pairs.get(place).copied(),
            _ => None,
        }
    }

    pub(crate) fn get(&self) -> Pair {
        let pair = self.pair(self.forward)?;
        self.is_up_to_end(pair.0).then_some(pair)
    }

    pub(crate) fn get_back(&self) -> Pair {
        let pair = self.pair(self.backward)?;
        self.is_from_start(pair.0).then_some(pair)
    }

    fn next(&mut self) -> Pair {
        self.forward = match self.forward {
            Place::Unopened => self.first_within(),
            Place::At(place) if place.saturating_add(1) < self.pairs.len() => {
                Place::At(place.saturating_add(1))
            }
            _ => Place::Done,
        };
        match (self.forward, self.backward) {
            (Place::At(_), Place::Unopened) => self.get(),
            (Place::At(a), Place::At(b)) if a < b => self.get(),
            _ => None,
        }
    }

    fn next_back(&mut self) -> Pair {
        self.backward = match self.backward {
            Place::Unopened => self.last_within(),
            Place::At(place) if place > 0 => Place::At(place.saturating_sub(1)),
            _ => Place::Done,
        };
        match (self.backward, self.forward) {
            (Place::At(_), Place::Unopened) => self.get_back(),
            (Place::At(b), Place::At(a)) if a < b => self.get_back(),
            _ => None,
        }
    }

    fn flip(&mut self) -> bool {
        let turns = match (self.forward, self.backward) {
            (Place::Unopened, Place::Unopened) => true,
            (_, Place::Unopened) => self.get().is_some(),
            (Place::Unopened, _) => self.get_back().is_some(),
            _ => false,
        };
        if turns {
            mem::swap(&mut self.forward, &mut self.backward);
        }
        turns
    }

    pub(crate) fn made(&mut self, call: Call) -> Told {
        let pair = match call {
            Call::Next => self.next(),
            Call::NextBack => self.next_back(),
            Call::Get => self.get(),
            Call::Flip => return Told::Flips(self.flip()),
        };
        Told::At(pair)
    }
}

// Where the ends of the plain machine are around a key.
fn ends_around(pairs: &[(u64, u64)], key: u64) -> (Place, Place) {
    let mut smaller = Place::Unopened;
    for (place, pair) in pairs.iter().enumerate() {
        if pair.0 == key {
            return (Place::At(place), Place::Unopened);
        }
        if pair.0 > key {
            return match smaller {
                Place::Unopened => (Place::At(place), Place::Unopened),
                _ => (smaller, Place::At(place)),
            };
        }
        smaller = Place::At(place);
    }
    (Place::Unopened, smaller)
}

// The random number after another.
pub(crate) fn following(seed: u64) -> u64 {
    seed.wrapping_mul(6364136223846793005)
        .wrapping_add(1442695040888963407)
}
