//! The fifteen places of an array.

ghost use Rattle.std.specs.Prelude.{◌≡◌, ◌+◌, ◌<◌, ◌≤◌, ◌++◌, ◌∷◌, [], length, take, drop, IsTrue, IsSome, Some, IfOk, IfErr, option_copied, slice_index_or};
ghost use Rattle.leaf_slots.specs.declared.place.Place.TheVariants.{Empty};
ghost use Rattle.leaf_slots.specs.Labels.{rank_in, first_above, last_below, newest, entered};
ghost use Rattle.leaf_slots.specs.Lookups.{LendsPair, IsSoughtAt};
ghost use Rattle.leaf_slots.specs.Places.{live_pair, live_pairs, dead_pairs, labels_above, top, has_room, tombstones, renewed, died, front_vacated, repacked, pair_at_slot, stands, live_below, least, lined, no_places, no_half, IsEmptied, IsInsertedAt, IsPacked, IsPairedAt, IsReplacedAt};

use crate::place::{Place, precedes};
use crate::row::{
    Blank, Bury, Enter, Exchange, Extend, ExtendAligned, Labels, Last, Lend, Link, Overwrite, Put,
    Ranks, Renumber, Search, Top,
};
use crate::steps::Steps;
use std::cmp::Ordering;
use std::marker::Model;
use std::mem;

type Six<K, V, R> = Link<K, V, Link<K, V, Link<K, V, Link<K, V, Link<K, V, Link<K, V, R>>>>>>;

type Upper<K, V> = Link<K, V, Six<K, V, Last<K, V>>>;

/// Fifteen places: live ones by rising keys, then dead ones, then empty ones.
#[derive(Drop)]
pub struct Slots<K, V> {
    all: Link<K, V, Six<K, V, Upper<K, V>>>,
}

impl<K, V> Model for Slots<K, V> {
    ghost use Rattle.std.specs.Prelude.{List, [], ◌∷◌};
    ghost use Rattle.leaf_slots.specs.declared.place.Place.{Place};

    ghost Value = { List (Place K V) };

    ghost view = { λ a. a.all.head ∷ a.all.rest.head ∷ a.all.rest.rest.head ∷ a.all.rest.rest.rest.head ∷ a.all.rest.rest.rest.rest.head ∷ a.all.rest.rest.rest.rest.rest.head ∷ a.all.rest.rest.rest.rest.rest.rest.head ∷ a.all.rest.rest.rest.rest.rest.rest.rest.head ∷ a.all.rest.rest.rest.rest.rest.rest.rest.rest.head ∷ a.all.rest.rest.rest.rest.rest.rest.rest.rest.rest.head ∷ a.all.rest.rest.rest.rest.rest.rest.rest.rest.rest.rest.head ∷ a.all.rest.rest.rest.rest.rest.rest.rest.rest.rest.rest.rest.head ∷ a.all.rest.rest.rest.rest.rest.rest.rest.rest.rest.rest.rest.rest.head ∷ a.all.rest.rest.rest.rest.rest.rest.rest.rest.rest.rest.rest.rest.rest.head ∷ a.all.rest.rest.rest.rest.rest.rest.rest.rest.rest.rest.rest.rest.rest.rest.head ∷ [] };
}

impl<K: Ord, V> Slots<K, V> {
    ghost use Rattle.std.specs.List.Sorted.{IsStrictlySortedBy};
    ghost use Rattle.std.specs.Map.{keys_of, lookup};
    ghost use Rattle.std.specs.BTreeMap.{is_at};
    ghost use Rattle.std.specs.Option.{is_some};
    ghost use Rattle.std.specs.Prelude.{true, false};

    /// The first live place whose key isn't less, and its pair.
    ///
    /// The eighth place says in which half it is: at most nine comparisons.
    #[inline(always)]
    pub fn lower(&self, key: &K, steps: &mut Steps) -> (usize, Option<(&K, &V)>)
        requires packed { IsPacked self.now }
        requires sorted { IsStrictlySortedBy K.cmp (keys_of (live_pairs self.now)) }
        ensures cost { steps.new.count ≤ steps.old.count + 9 }
        ensures raised { steps.old.count ≤ steps.new.count }
        ensures place { result.0 ≡ live_below K.cmp key.now self.now }
        ensures pair { LendsPair result.1 (least K.cmp key.now self.now) }
    {
        let upper = &self.all.rest.rest.rest.rest.rest.rest.rest;
        if precedes(&upper.head, key, steps) {
            return upper.rest.lower(8, key, steps);
        }
        self.all.lower(0, key, steps)
    }

    /// The live place that has the key, or the one that a new pair with it would take.
    #[inline(always)]
    pub fn find(&self, key: &K) -> Result<usize, usize>
        requires packed { IsPacked self.now }
        requires sorted { IsStrictlySortedBy K.cmp (keys_of (live_pairs self.now)) }
        ensures hit { IfOk result (λ at. IsSoughtAt K.cmp key.now (live_pairs self.now) true at) }
        ensures miss { IfErr result (λ at. IsSoughtAt K.cmp key.now (live_pairs self.now) false at) }
    {
        let mut steps = Steps::new();
        let (at, pair) = self.lower(key, &mut steps);
        match pair {
            Some((stored, _)) => match steps.compare(stored, key) {
                Ordering::Equal => Ok(at),
                _ => Err(at),
            },
            None => Err(at),
        }
    }
}

// No order of keys here: each bound on the keys makes the proof of each of these calls longer.
impl<K, V> Slots<K, V> {
    /// Fifteen empty places.
    #[inline(always)]
    pub fn new() -> Self
        ensures { result ≡ no_places }
    {
        Slots { all: Link::new() }
    }

    /// The pair of the live place `at`.
    #[inline(always)]
    pub fn pair(&self, at: usize) -> Option<(&K, &V)>
        ensures { LendsPair result (live_pair (slice_index_or self.now at Empty)) }
    {
        self.all.pair(at)
    }

    /// The rank of a slot, 0 if no live place has it.
    #[inline(always)]
    pub fn rank_of(&self, slot: u8) -> u16
        requires { top self.now ≤ 15 }
        ensures { result ≡ rank_in slot (labels_above 0 self.now) }
    {
        self.all.rank_of(slot, 0)
    }

    /// Slot and rank of the first live place above a rank.
    #[inline(always)]
    pub fn above(&self, rank: u16) -> Option<(u8, u16)>
        requires { top self.now ≤ 15 }
        ensures { result ≡ first_above rank (labels_above 0 self.now) }
    {
        self.all.above(rank, 0)
    }

    /// Slot and rank of the last live place below a rank, or of the last one of all if that is 0.
    #[inline(always)]
    pub fn under(&self, rank: u16) -> Option<(u8, u16)>
        requires { top self.now ≤ 15 }
        ensures { result ≡ last_below rank (labels_above 0 self.now) }
    {
        self.all.under(rank, 0)
    }

    /// The rank of the last live place, 0 if there is none.
    #[inline(always)]
    pub fn top(&self) -> u16
        requires { top self.now ≤ 15 }
        ensures { result ≡ top self.now }
    {
        self.all.top(0)
    }

    /// The rank that a slot would have if a live place with the slot `fresh` came in at `at`.
    #[inline(always)]
    pub fn rank_beside(&self, at: usize, fresh: u8, slot: u8) -> u16
        requires { top self.now < 15 }
        ensures { result ≡ rank_in slot (entered 0 at fresh (labels_above 0 self.now)) }
    {
        self.all.rank_beside(at, fresh, slot, 0)
    }

    /// How many live places come before the one with this slot.
    #[inline(always)]
    pub fn position(&self, slot: u8) -> usize
        ensures { result ≡ stands slot self.now }
    {
        self.all.position(slot, 0)
    }

    /// The pair of the place with this slot, live or dead.
    #[inline(always)]
    pub fn in_slot(&self, slot: u8) -> Option<(&K, &V)>
        ensures { LendsPair result (pair_at_slot slot self.now) }
    {
        self.all.in_slot(slot)
    }

    /// The key of the first dead place.
    #[inline(always)]
    pub fn newest(&self) -> Option<&K>
        ensures { option_copied result ≡ newest (dead_pairs self.now) }
    {
        self.all.newest()
    }

    /// Puts a place in at `at`. What was there moves up by one, up to the first empty place, which is taken up.
    #[inline(always)]
    pub fn insert(&mut self, at: usize, place: Place<K, V>)
        requires { IsTrue (has_room (drop at self.old)) }
        ensures count { length self.new ≡ 15 }
        ensures places { IsInsertedAt at place self.old self.new }
    {
        self.all.insert(at, place);
    }

    /// Puts clones of `count` pairs of other places, from the one at `from` on, into the empty places from `at` on. These get
    /// the slots of their bitmap places and no gaps. Answers how many: fewer if an allocation fails.
    // Out of line: it is straight code for fifteen places.
    #[inline(never)]
    pub fn extend(&mut self, at: usize, source: &Self, from: usize, count: usize) -> usize
    where
        K: Clone + Drop,
        V: Clone + Drop,
        requires keys { (x y : K) → K.is_clone x y → y ≡ x }
        requires values { (x y : V) → V.is_clone x y → y ≡ x }
        requires room { at + count ≤ 15 }
        requires empty { IsEmptied (drop at self.old) }
        requires within { from + count ≤ length (live_pairs source.now) }
        requires small { from + count ≤ 15 }
        ensures count { length self.new ≡ 15 }
        ensures most { result ≤ count }
        ensures places { self.new ≡ take at self.old ++ (lined at (take result (drop from (live_pairs source.now))) ++ drop (at + result) self.old) }
    {
        if from == at {
            self.all.extend_aligned(at, 0, &source.all, count)
        } else {
            self.all.extend(at, 0, source, from, count)
        }
    }

    /// Buries the live place `at`: its pair is dead, and is put behind the live ones.
    #[inline(always)]
    pub fn bury(&mut self, at: usize)
        requires rank { top (drop at self.old) ≤ 15 }
        requires place { at < 15 }
        ensures count { length self.new ≡ 15 }
        ensures places { self.new ≡ take at self.old ++ tombstones (drop at self.old) }
    {
        self.all.bury(at);
    }

    /// Puts another slot and pair into the live place `at`, and gives the old ones as a dead place.
    #[inline(always)]
    pub fn renew(&mut self, at: usize, slot: u8, key: K, value: V) -> Place<K, V>
        requires count { length self.old ≡ 15 }
        requires live { IsSome (live_pair (slice_index_or self.old at Empty)) }
        ensures count { length self.new ≡ 15 }
        ensures old { result ≡ died (drop at self.old) }
        ensures places { self.new ≡ take at self.old ++ renewed slot key value (drop at self.old) }
    {
        match self.put(at, Place::Empty) {
            Place::Live {
                slot: old,
                gap,
                key: old_key,
                value: old_value,
            } => {
                let renewed = Place::Live {
                    slot,
                    gap,
                    key,
                    value,
                };
                self.fill(at, renewed);
                Place::Dead {
                    slot: old,
                    key: old_key,
                    value: old_value,
                }
            },
            _ => unreachable!(),
        }
    }

    /// Writes another pair into the live place `at`, and gives the one that was there.
    #[inline(always)]
    pub fn overwrite(&mut self, at: usize, key: K, value: V) -> (K, V)
        requires { IsSome (live_pair (slice_index_or self.old at Empty)) }
        ensures count { length self.new ≡ 15 }
        ensures pair { Some result ≡ live_pair (slice_index_or self.old at Empty) }
        ensures places { IsPairedAt at key value self.old self.new }
    {
        self.all.overwrite(at, key, value)
    }

    /// Takes the pair out of the live place `at`, which is empty then.
    #[inline(always)]
    pub fn vacate(&mut self, at: usize) -> (K, V)
        requires count { length self.old ≡ 15 }
        requires live { IsSome (live_pair (slice_index_or self.old at Empty)) }
        ensures count { length self.new ≡ 15 }
        ensures pair { Some result ≡ live_pair (slice_index_or self.old at Empty) }
        ensures places { self.new ≡ take at self.old ++ front_vacated (drop at self.old) }
    {
        match self.put(at, Place::Empty) {
            Place::Live {
                slot: _,
                gap: _,
                key,
                value,
            } => (key, value),
            _ => unreachable!(),
        }
    }

    /// Puts a place where the one at `at` is, and gives that one.
    fn put(&mut self, at: usize, place: Place<K, V>) -> Place<K, V>
        requires { at < 15 }
        ensures count { length self.new ≡ 15 }
        ensures old { result ≡ slice_index_or self.old at Empty }
        ensures places { IsReplacedAt at place self.old self.new }
    {
        self.all.put(at, place)
    }

    /// Puts a place where an empty one is.
    fn fill(&mut self, at: usize, place: Place<K, V>)
        requires within { at < 15 }
        requires empty { slice_index_or self.old at Empty ≡ Empty }
        ensures count { length self.new ≡ 15 }
        ensures places { IsReplacedAt at place self.old self.new }
    {
        match self.put(at, place) {
            Place::Empty => {},
            _ => unreachable!(),
        }
    }

    /// Moves the places from `at` on to the front of other ones.
    pub fn cut(&mut self, at: usize) -> Self
        requires within { at ≤ 15 }
        requires count { length self.old ≡ 15 }
        ensures lower_count { length self.new ≡ 15 }
        ensures upper_count { length result ≡ 15 }
        ensures lower { self.new ≡ take at self.old ++ take (length (drop at self.old)) no_places }
        ensures upper { result ≡ drop at self.old ++ drop (length (drop at self.old)) no_places }
    {
        let mut upper = Slots::new();
        let mut from = at;
        while from < 15 {
            let place = self.put(from, Place::Empty);
            upper.fill(from - at, place);
            from += 1;
        }
        upper
    }

    /// Drops the dead pairs, and gives the live ones the lowest slots.
    // Out of line, or a caller that has the places by value works on copies of them.
    #[inline(never)]
    pub fn renumber(&mut self)
    where
        K: Drop,
        V: Drop,
        requires { IsPacked self.old }
        ensures count { length self.new ≡ 15 }
        ensures places { self.new ≡ repacked 0 self.old }
    {
        self.all.renumber(0);
    }

    /// Moves the eight lower places out, and the others down.
    #[inline(always)]
    pub fn split_half(&mut self) -> Self
        ensures mine_count { length self.new ≡ 15 }
        ensures lower_count { length result ≡ 15 }
        ensures mine { self.new ≡ drop 8 self.old ++ Empty ∷ no_half }
        ensures lower { result ≡ take 8 self.old ++ no_half }
    {
        let mut lower = mem::replace(self, Slots::new());
        lower
            .all
            .rest
            .rest
            .rest
            .rest
            .rest
            .rest
            .rest
            .rest
            .exchange(&mut self.all);
        lower
    }
}
