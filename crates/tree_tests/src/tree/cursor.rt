//! Cursors by example, and beside a plain machine over a list.

use self::Step::{Flip, Get, GetBack, Next, NextBack};
use super::calls::Act::Fill;
use super::calls::Call::{All, CountWithin};
use super::calls::Told::{Is, Number};
use super::calls::{Call, Pairs, SAME, Seen, Told};
use super::each_call::{clear, empty, iter_of, range_of, remove, upsert, val_of};
use super::removal::is_within;
use super::{Tree, tree_of};
use crate::numbers::{read, stirred};
use std::alloc::{AllocError, Global};
use std::mem;
use std::ops::Bound;
use std::test::Fail;
use tree_index::{Iter, Proximity, Range};

/// A call of a cursor.
#[derive(Clone, Copy)]
enum Step {
    Next,
    NextBack,
    /// Shown as (0, 0) where it turned.
    Flip,
    Get,
    GetBack,
}

/// Takes a step of a cursor.
fn take(iter: &mut Iter<'_, u64, u64>, step: Step) -> Seen {
    match step {
        Next => read(iter.next()),
        NextBack => read(iter.next_back()),
        Flip => iter.flip().then_some((0, 0)),
        Get => read(iter.get()),
        GetBack => read(iter.get_back()),
    }
}

/// Takes a step of a range.
fn take_within(range: &mut Range<'_, u64, u64>, step: Step) -> Seen {
    match step {
        Next => read(range.next()),
        NextBack => read(range.next_back()),
        Flip => range.flip().then_some((0, 0)),
        Get => read(range.get()),
        GetBack => read(range.get_back()),
    }
}

/// Takes the steps of a table, in order, and returns the place of the first that gives something else.
fn first_other_step(iter: &mut Iter<'_, u64, u64>, rows: &[(Step, Seen)]) -> Option<usize> {
    for (at, (step, wanted)) in rows.iter().enumerate() {
        if take(iter, *step) != *wanted {
            return Some(at);
        }
    }
    None
}

fn first_other_within(range: &mut Range<'_, u64, u64>, rows: &[(Step, Seen)]) -> Option<usize> {
    for (at, (step, wanted)) in rows.iter().enumerate() {
        if take_within(range, *step) != *wanted {
            return Some(at);
        }
    }
    None
}

// Steps through three pairs with the keys 1 to 3, each with the value 2.
const TURNS: &[(Step, Seen)] = &[
    (NextBack, Some((3, 2))),
    (NextBack, Some((2, 2))),
    (Flip, Some((0, 0))),
    (Next, Some((3, 2))),
    (Flip, Some((0, 0))),
    (NextBack, Some((2, 2))),
    (Next, Some((1, 2))),
    (Next, None),
    (Flip, None),
];

const UNTIL_IT_IS_DONE: &[(Step, Seen)] = &[
    (Next, Some((1, 2))),
    (Next, Some((2, 2))),
    (Next, Some((3, 2))),
    (Next, None),
    (Next, None),
    (Get, None),
    (NextBack, None),
];

const THREE: &[(u64, u64)] = &[(1, 2), (2, 2), (3, 2)];

const FOUR: &[(u64, u64)] = &[(1, 2), (2, 2), (3, 2), (4, 2)];

#[test]
fn both_ends_go_through_three_pairs(rt: HostRuntime) {
    let three = tree_of(rt.alloc(), THREE);
    let turned = first_other_step(&mut iter_of(&three), TURNS);
    let done = first_other_step(&mut iter_of(&three), UNTIL_IT_IS_DONE);
    // a range flips at its bounds
    let four = tree_of(rt.alloc(), FOUR);
    let (lower, upper) = (Bound::Included(1), Bound::Excluded(4));
    let within = first_other_within(&mut range_of(&four, &lower, &upper), TURNS);
    assert!(rt; [turned, done, within] == [None; 3]);
}

const DOUBLING: &[(u64, u64)] = &[(1, 2), (2, 3), (4, 6), (8, 12)];

// Steps of a range, of the cursor without bounds that its copy becomes, and of the range then.
const WITHIN: &[(Step, Seen)] = &[(Next, Some((4, 6))), (Get, Some((4, 6)))];

const BEYOND: &[(Step, Seen)] = &[(Next, Some((8, 12)))];

const AT_ITS_END: &[(Step, Seen)] = &[
    (Next, None),
    (Get, None),
    (NextBack, None),
    (GetBack, Some((4, 6))),
];

/// How many pairs at most are taken from 2 on, and how many come.
const TAKEN: &[(usize, usize)] = &[(0, 0), (2, 2), (3, 3), (9, 3)];

/// The place of the first row of which another number comes.
fn first_other_count(tree: &Tree) -> Option<usize> {
    for (at, (count, given)) in TAKEN.iter().enumerate() {
        let range = range_of(tree, &Bound::Included(2), &Bound::Unbounded);
        if range.take(*count).count() != *given {
            return Some(at);
        }
    }
    None
}

/// Two steps of a cursor that gives one pair, and one behind all pairs.
fn taken_one(tree: &Tree) -> [Seen; 3] {
    let mut first = iter_of(tree).take(1);
    let mut beyond = range_of(tree, &Bound::Excluded(8), &Bound::Unbounded).take(1);
    [read(first.next()), read(first.next()), read(beyond.next())]
}

#[test]
fn a_range_keeps_to_its_bounds_and_to_what_is_taken(rt: HostRuntime) {
    let tree = tree_of(rt.alloc(), DOUBLING);
    let (lower, upper) = (Bound::Included(3), Bound::Included(4));
    let mut range = range_of(&tree, &lower, &upper);
    let within = first_other_within(&mut range, WITHIN);
    let beyond = first_other_step(&mut Iter::from(range.clone()), BEYOND);
    let ends = first_other_within(&mut range, AT_ITS_END);
    assert!(rt; [within, beyond, ends, first_other_count(&tree)] == [None; 4]);
    assert!(rt; taken_one(&tree) == [Some((1, 2)), None, None]);
}

const ALIKE: Pairs = Pairs(SAME, SAME);

/// An excluded bound is left out.
pub(super) const COUNTS: &[(Call, Told)] = &[
    (All(Fill, ALIKE, 1, 10), Is(true)),
    (
        CountWithin(Bound::Included(1), Bound::Excluded(1)),
        Number(0),
    ),
    (
        CountWithin(Bound::Included(4), Bound::Excluded(8)),
        Number(4),
    ),
    (
        CountWithin(Bound::Included(4), Bound::Included(8)),
        Number(5),
    ),
    (CountWithin(Bound::Excluded(4), Bound::Unbounded), Number(5)),
];

/// An end of the plain machine.
#[derive(Clone, Copy, PartialEq)]
enum Place {
    Unopened,
    At(usize),
    Done,
}

/// A cursor over a list, as it is defined: two ends, and bounds.
#[derive(Drop)]
struct Plain<'l> {
    pairs: &'l [(u64, u64)],
    lower: Bound<u64>,
    upper: Bound<u64>,
    forward: Place,
    backward: Place,
}

impl<'l> Plain<'l> {
    fn first_within(&self) -> Place {
        for (place, pair) in self.pairs.iter().enumerate() {
            if is_within(pair.0, self.lower, Bound::Unbounded) {
                return Place::At(place);
            }
        }
        Place::Unopened
    }

    fn last_within(&self) -> Place {
        let mut last = Place::Unopened;
        for (place, pair) in self.pairs.iter().enumerate() {
            if is_within(pair.0, Bound::Unbounded, self.upper) {
                last = Place::At(place);
            }
        }
        last
    }

    /// The pair at an end, within bounds.
    fn pair_at(&self, end: Place, lower: Bound<u64>, upper: Bound<u64>) -> Seen {
        let Place::At(place) = end else {
            return None;
        };
        let pair = *self.pairs.get(place)?;
        is_within(pair.0, lower, upper).then_some(pair)
    }

    fn get(&self) -> Seen {
        self.pair_at(self.forward, Bound::Unbounded, self.upper)
    }

    fn get_back(&self) -> Seen {
        self.pair_at(self.backward, self.lower, Bound::Unbounded)
    }

    fn next(&mut self) -> Seen {
        self.forward = match self.forward {
            Place::Unopened => self.first_within(),
            Place::At(place) if place < self.pairs.len().saturating_sub(1) => Place::At(place + 1),
            _ => Place::Done,
        };
        match (self.forward, self.backward) {
            (Place::At(_), Place::Unopened) => self.get(),
            (Place::At(a), Place::At(b)) if a < b => self.get(),
            _ => None,
        }
    }

    fn next_back(&mut self) -> Seen {
        self.backward = match self.backward {
            Place::Unopened => self.last_within(),
            Place::At(place) if place > 0 => Place::At(place - 1),
            _ => Place::Done,
        };
        match (self.backward, self.forward) {
            (Place::At(_), Place::Unopened) => self.get_back(),
            (Place::At(b), Place::At(a)) if a < b => self.get_back(),
            _ => None,
        }
    }

    /// Takes the step that a cursor takes.
    fn step(&mut self, step: Step) -> Seen {
        match step {
            Next => self.next(),
            NextBack => self.next_back(),
            Flip => self.flip().then_some((0, 0)),
            Get => self.get(),
            GetBack => self.get_back(),
        }
    }

    fn flip(&mut self) -> bool {
        let turns = match (self.forward, self.backward) {
            (Place::Unopened, Place::Unopened) => true,
            (_, Place::Unopened) => self.get().is_some(),
            (Place::Unopened, _) => self.get_back().is_some(),
            _ => false,
        };
        if turns {
            mem::swap(&mut self.forward, &mut self.backward);
        }
        turns
    }
}

/// One call on a range and on the plain machine, and a look at both ends: whether they give the same.
fn is_alike(range: &mut Range<'_, u64, u64>, plain: &mut Plain<'_>, kind: u64) -> bool {
    let one = match kind {
        0 | 1 | 2 => Next,
        3 | 4 | 5 => NextBack,
        6 => Flip,
        _ => Get,
    };
    if kind == 7 {
        *range = range.clone();
    }
    let same = take_within(range, one) == plain.step(one);
    let here = take_within(range, Get) == plain.get();
    same && here && take_within(range, GetBack) == plain.get_back()
}

/// A bound from a random number, for keys up to 300.
fn bound_of(seed: u64) -> Bound<u64> {
    match seed % 3 {
        0 => Bound::Unbounded,
        1 => Bound::Included(seed / 3 % 310),
        _ => Bound::Excluded(seed / 3 % 310),
    }
}

/// A tree of keys below 300 in no order, of which some were removed again.
fn thinned(alloc: Global, round: u64, seed: &mut u64) -> Tree {
    let mut tree = empty(alloc);
    for _ in 0..round.wrapping_mul(7) {
        *seed = stirred(*seed);
        let _ = upsert(&mut tree, (*seed >> 33) % 300, *seed >> 40);
    }
    for key in 0..300u64 {
        *seed = stirred(*seed);
        if (*seed >> 33) % 5 < round % 5 || (100 <= key && key < 150) {
            let _ = remove(&mut tree, key);
        }
    }
    tree
}

/// The pairs of a tree of keys below 300, by look-ups.
fn listed(alloc: Global, tree: &Tree) -> Result<Vec<(u64, u64)>, AllocError> {
    let mut pairs = Vec::new(alloc);
    for key in 0..300u64 {
        if let Some(val) = val_of(tree, key) {
            pairs.push((key, val))?;
        }
    }
    Ok(pairs)
}

/// Whether a random range answers a random number of random steps as the plain machine does.
fn goes_alike(tree: &Tree, pairs: &[(u64, u64)], seed: &mut u64) -> bool {
    *seed = stirred(*seed);
    let lower = bound_of(*seed >> 20);
    let upper = bound_of(*seed >> 40);
    let mut range = range_of(tree, &lower, &upper);
    let mut plain = Plain {
        pairs,
        lower,
        upper,
        forward: Place::Unopened,
        backward: Place::Unopened,
    };
    let mut alike = true;
    for _ in 0..(*seed >> 50) % 100 {
        *seed = stirred(*seed);
        alike = is_alike(&mut range, &mut plain, (*seed >> 33) % 8) && alike;
    }
    alike
}

#[test]
fn random_steps_answer_as_the_plain_machine(rt: HostRuntime) -> Result<(), Fail> {
    let mut seed = 11u64;
    for round in 0..60u64 {
        let tree = thinned(rt.alloc(), round, &mut seed);
        let pairs = listed(rt.alloc(), &tree)?;
        for _ in 0..10u32 {
            assert!(rt; goes_alike(&tree, &pairs, &mut seed));
        }
    }
    Ok(())
}

/// Where a key is: 0 at its pair, 1 between two, 2 behind all, 3 before all, 4 in a tree without pairs; and
/// the pairs at the forward and the backward end, of a pair that is there the first alone.
fn stands(tree: &Tree, key: u64) -> (u8, Seen, Seen) {
    let (kind, iter) = match tree.locate(&key) {
        Proximity::Exact(iter) => (0, iter),
        Proximity::Between(iter) => (1, iter),
        Proximity::Smaller(iter) => (2, iter),
        Proximity::Larger(iter) => (3, iter),
        Proximity::Empty => return (4, None, None),
    };
    let back = iter.get_back().filter(|_| kind != 0);
    (kind, read(iter.get()), read(back))
}

const ODD: &[(u64, u64)] = &[(1, 1), (3, 2), (5, 3), (7, 4)];

const PLACES: &[(u64, (u8, Seen, Seen))] = &[
    (2, (1, Some((1, 1)), Some((3, 2)))),
    (5, (0, Some((5, 3)), None)),
    (8, (2, None, Some((7, 4)))),
    (0, (3, Some((1, 1)), None)),
];

/// The place of the first row whose key is somewhere else.
fn first_other_place(tree: &Tree) -> Option<usize> {
    for (at, (key, place)) in PLACES.iter().enumerate() {
        if stands(tree, *key) != *place {
            return Some(at);
        }
    }
    None
}

/// What the steps of a cursor give that is between two pairs.
fn between(tree: &Tree, key: u64) -> [Seen; 4] {
    match tree.locate(&key) {
        Proximity::Between(mut iter) => [
            take(&mut iter, Next),
            take(&mut iter, Get),
            take(&mut iter, NextBack),
            take(&mut iter, GetBack),
        ],
        _ => [None; 4],
    }
}

#[test]
fn locate_finds_a_pair_or_its_neighbours(rt: HostRuntime) {
    let mut tree = tree_of(rt.alloc(), ODD);
    let other = first_other_place(&tree);
    let over = between(&tree, 2) == [None, Some((3, 2)), None, Some((1, 1))];
    clear(&mut tree);
    assert!(rt; over && other.is_none() && stands(&tree, 3) == (4, None, None));
}
