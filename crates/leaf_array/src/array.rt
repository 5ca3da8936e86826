//! An array of at most fifteen pairs, by rising keys.

ghost use Rattle.std.specs.Prelude.{◌≡◌, ◌↔◌, ◌+◌, ◌==◌, ◌<◌, ◌≤◌, ◌||◌, ◌&&◌, ◌-◌, not, take, drop, IsTrue, IsSome, [], length, slice_get, true, false, Some, None, IfSome, IfOk, IfErr, option_copied};
ghost use Rattle.std.specs.Map.{keys_of};
ghost use Rattle.std.specs.List.Sorted.{IsStrictlySortedBy};
ghost use Rattle.std.specs.Option.{option_map};
ghost use Rattle.std.specs.Fn.{FnOnceReturnsAt, FnOnceTakesAt};
ghost use Rattle.leaf_array.specs.Cells.{no_cells, in_slot, IsUsed, is_nil, entered, standing, rank_in, slot_of, first_above, last_below, newest, lesser, array_has_key, array_inserted, appended, array_replaced, array_overwritten, array_removed, removed_at, filled_array};
ghost use Rattle.leaf_array.specs.Lookups.{LendsPair, LendsValue};
ghost use Rattle.leaf_array.specs.Pairs.{pair_of_key};
ghost use Rattle.leaf_array.specs.Words.{word};
ghost use Rattle.leaf_array.specs.Results.{IsSuccess, IsDuplicate, IsFull, given_back, is_repeated, is_refused, is_removal};
ghost use Rattle.leaf_array.specs.declared.result.RemoveResult.TheVariants.{Retired, Fail, Frozen};

use crate::result::{InsertResult, RemoveResult};
use leaf_slots::{Place, Slots, Steps, slot_of};
use std::cmp::Ordering;
use std::marker::Model;

/// At most fifteen pairs, by rising keys.
///
/// The live places come first and rise, then the dead ones, then the empty ones.
#[derive(Drop)]
pub struct Array<K: Ord, V> {
    pub(crate) len: u8,
    pub(crate) used: u8,
    frozen: bool,
    retired: bool,
    pub(crate) slots: Slots<K, V>,
    ghost retired_empty: { IsTrue retired → len ≡ 0 },
}

/// Invariant: specs/Arrays.antt, IsArray: the reachable pairs lie in the places by rising keys, each in a slot of its own.
impl<K: Ord, V> Model for Array<K, V> {
    ghost use Rattle.leaf_array.specs.Cells.{Cells, cells_code};
    ghost use Rattle.leaf_array.specs.Arrays.{IsArray, cells_of};

    ghost Value = { Cells K V };

    ghost coded = { cells_code K.code V.code };

    ghost view = { λ a. cells_of a.slots a.used a.frozen a.retired };

    ghost invariant = { λ a. IsArray K.cmp a.slots a.len a.used };
}

impl<K: Ord, V> Array<K, V> {
    /// An array without pairs.
    #[inline]
    pub fn new() -> Self
        ensures { result ≡ no_cells false }
    {
        Array {
            len: 0,
            used: 0,
            frozen: false,
            retired: false,
            slots: Slots::new(),
        }
    }

    /// An array without pairs that takes none before it is unfrozen.
    #[inline]
    pub fn new_frozen() -> Self
        ensures { result ≡ no_cells true }
    {
        Array {
            len: 0,
            used: 0,
            frozen: true,
            retired: false,
            slots: Slots::new(),
        }
    }

    /// How many pairs can be reached.
    #[inline(always)]
    pub fn len(&self) -> usize
        ensures count { result ≡ length self.now.pairs }
        ensures ordered { IsStrictlySortedBy K.cmp (keys_of self.now.pairs) }
        ensures used { self.now.used ≡ length self.now.pairs + length self.now.tombstones }
        ensures within { self.now.used ≤ 15 }
        ensures labels { length self.now.labels ≡ length self.now.pairs }
        ensures retired { self.now.retired ≡ true → self.now.pairs ≡ [] }
    {
        usize::from(self.len)
    }

    /// Whether no pair can be reached.
    #[inline(always)]
    pub fn is_empty(&self) -> bool
        ensures { result ≡ is_nil self.now.pairs }
    {
        self.len() == 0
    }

    /// Whether all fifteen places are used, or the array is retired.
    #[inline(always)]
    pub fn is_full(&self) -> bool
        ensures { result ≡ (self.now.used == 15 || self.now.retired) }
    {
        self.used == 15 || self.retired
    }

    /// Whether the last pair was removed. Then there is none.
    #[inline(always)]
    pub fn is_retired(&self) -> bool
        ensures retired { result ≡ self.now.retired }
        ensures empty { result ≡ true → self.now.pairs ≡ [] }
    {
        self.retired
    }

    /// Whether the array takes no pair until it is unfrozen.
    #[inline(always)]
    pub fn is_frozen(&self) -> bool
        ensures { result ≡ self.now.frozen }
    {
        self.frozen
    }

    /// Freezes the array, and gives the word before.
    pub fn freeze(&mut self) -> usize
        requires { self.old.frozen ≡ false }
        ensures word { result ≡ word self.old }
        ensures frozen { self.new ≡ record self.old { frozen = true } }
    {
        let word = self.metadata();
        self.frozen = true;
        word
    }

    /// Lets a frozen array take pairs again.
    pub fn unfreeze(&mut self)
        requires { self.old.frozen ≡ true }
        ensures { self.new ≡ record self.old { frozen = false } }
    {
        self.frozen = false;
    }

    /// The key in a slot whose bit is set, of a pair that can be reached or not.
    pub fn key(&self, slot: u8) -> &K
        requires { IsUsed slot self.now }
        ensures { IfSome (in_slot slot self.now) (λ e. result.now ≡ e.0) }
    {
        match self.entry(slot) {
            Some((key, _)) => key,
            None => unreachable!(),
        }
    }

    /// The value in a slot whose bit is set, of a pair that can be reached or not.
    pub fn val(&self, slot: u8) -> &V
        requires { IsUsed slot self.now }
        ensures { IfSome (in_slot slot self.now) (λ e. result.now ≡ e.1) }
    {
        match self.entry(slot) {
            Some((_, value)) => value,
            None => unreachable!(),
        }
    }

    /// The pair in a slot.
    pub(crate) fn entry(&self, slot: u8) -> Option<(&K, &V)>
        ensures pair { LendsPair result (in_slot slot self.now) }
        ensures used { IsUsed slot self.now → IsSome result }
    {
        let _ = &self.len;
        self.slots.in_slot(slot)
    }

    /// The key of the pair that was removed or replaced last; none where nothing was, or it was dropped since
    /// by [`Array::pack`] or in a cut.
    pub fn last_removed(&self) -> Option<&K>
        ensures { option_copied result ≡ newest self.now.tombstones }
    {
        let _ = &self.len;
        self.slots.newest()
    }

    /// The rank of a slot, 0 if its pair can't be reached: what [`Array::remove_unchecked`] asks for is above that.
    #[inline]
    pub fn rank_of(&self, slot: u8) -> u8
        ensures rank { result ≡ rank_in slot self.now.labels }
        ensures within { result ≤ 15 }
    {
        let _ = &self.len;
        narrowed(self.slots.rank_of(slot))
    }

    /// Slot and rank of the first reachable pair above a rank.
    #[inline]
    pub(crate) fn above(&self, rank: u16) -> Option<(u8, u16)>
        ensures { result ≡ first_above rank self.now.labels }
    {
        let _ = &self.len;
        self.slots.above(rank)
    }

    /// Slot and rank of the last reachable pair below a rank, or of the last one of all if that is 0.
    #[inline]
    pub(crate) fn under(&self, rank: u16) -> Option<(u8, u16)>
        ensures label { result ≡ last_below rank self.now.labels }
        ensures ranked { IfSome result (λ l. 0 < l.1) }
    {
        let _ = &self.len;
        self.slots.under(rank)
    }

    /// How many bits of the bitmap are set: how many pairs can be reached, or were removed or replaced and are kept.
    ///
    /// Below 15 there is room for an insertion by place, as [`Array::insert_dry`] and [`Array::insert_unchecked`] ask for.
    #[inline(always)]
    pub fn used(&self) -> u8
        ensures count { result ≡ self.now.used }
        ensures within { result ≤ 15 }
    {
        self.used
    }

    /// The rank that a slot would have if a new pair came in at `at`.
    pub(crate) fn rank_beside(&self, at: usize, slot: u8) -> u8
        requires { self.now.used < 15 }
        ensures rank { result ≡ rank_in slot (entered 0 at (slot_of self.now.used) self.now.labels) }
        ensures within { result ≤ 15 }
    {
        narrowed(self.slots.rank_beside(at, slot_of(self.used), slot))
    }

    /// How many reachable pairs come before the one in this slot.
    pub(crate) fn position(&self, slot: u8) -> usize
        ensures place { result ≡ standing slot self.now.labels }
        ensures within { 0 < rank_in slot self.now.labels → result < length self.now.pairs }
    {
        let _ = &self.len;
        self.slots.position(slot)
    }

    /// The place of the pair with this key, and the pair: at most ten comparisons.
    #[inline(always)]
    fn found(&self, key: &K, steps: &mut Steps) -> Option<(usize, (&K, &V))>
        ensures cost { steps.new.count ≤ steps.old.count + 10 }
        ensures raised { steps.old.count ≤ steps.new.count }
        ensures place { IfSome result (λ f. f.0 ≡ lesser K.cmp key.now self.now.pairs) }
        ensures within { IfSome result (λ f. f.0 < length self.now.pairs) }
        ensures pair { LendsPair (option_map (λ f. f.1) result) (pair_of_key K.cmp key.now self.now.pairs) }
    {
        let (at, pair) = self.slots.lower(key, steps);
        match pair {
            Some((stored, value)) => match steps.compare(stored, key) {
                Ordering::Equal => Some((at, (stored, value))),
                _ => None,
            },
            None => None,
        }
    }

    /// The place of the pair with this key, or the place that a new one would take.
    #[inline(always)]
    fn find(&self, key: &K) -> Result<usize, usize>
        ensures hit { IfOk result (λ at. (at ≡ lesser K.cmp key.now self.now.pairs) × (array_has_key K.cmp key.now self.now ≡ true)) }
        ensures miss { IfErr result (λ at. (at ≡ lesser K.cmp key.now self.now.pairs) × (array_has_key K.cmp key.now self.now ≡ false)) }
    {
        self.slots.find(key)
    }

    /// Puts a new pair in at `at`. A retired array is then open again.
    // A hint alone: [`put`](Array::put) and [`insert`](Array::insert) are always inlined only while they are small.
    #[inline]
    pub(crate) fn place(&mut self, at: usize, key: K, val: V)
        requires room { self.old.used < 15 }
        requires place { at ≡ lesser K.cmp key self.old.pairs }
        requires absent { array_has_key K.cmp key self.old ≡ false }
        ensures { self.new ≡ array_inserted K.cmp key val self.old }
    {
        let slot = slot_of(self.used);
        self.slots.insert(
            at,
            Place::Live {
                slot,
                gap: 0,
                key,
                value: val,
            },
        );
        self.len += 1;
        self.used += 1;
        self.retired = false;
    }

    /// Puts a new pair in behind all others, with a rank one above its bitmap place. A retired array is then open again.
    pub(crate) fn append(&mut self, key: K, val: V)
        requires room { self.old.used < 15 }
        requires last { lesser K.cmp key self.old.pairs ≡ length self.old.pairs }
        ensures { self.new ≡ appended key val self.old }
    {
        let slot = slot_of(self.used);
        let gap = u16::from(self.used) - self.slots.top();
        self.slots.insert(
            usize::from(self.len),
            Place::Live {
                slot,
                gap,
                key,
                value: val,
            },
        );
        self.len += 1;
        self.used += 1;
        self.retired = false;
    }

    /// Puts a pair in the place of the one at `at`, which has its key.
    fn replace(&mut self, at: usize, key: K, val: V)
        requires room { self.old.used < 15 }
        requires place { at ≡ lesser K.cmp key self.old.pairs }
        requires there { array_has_key K.cmp key self.old ≡ true }
        ensures { self.new ≡ array_replaced K.cmp key val self.old }
    {
        let dead = self.slots.renew(at, slot_of(self.used), key, val);
        self.slots.insert(usize::from(self.len), dead);
        self.used += 1;
    }

    /// Writes a pair over the one at `at`, which has its key, and gives that one.
    // A hint alone, as for `place`.
    #[inline]
    fn overwrite(&mut self, at: usize, key: K, val: V) -> (K, V)
        requires place { at ≡ lesser K.cmp key self.old.pairs }
        requires there { array_has_key K.cmp key self.old ≡ true }
        ensures { self.new ≡ array_overwritten K.cmp key val self.old }
    {
        self.slots.overwrite(at, key, val)
    }

    /// Removes the pair that comes behind `at` others.
    #[inline(always)]
    pub fn bury(&mut self, at: usize)
        requires { at < length self.old.pairs }
        ensures { self.new ≡ removed_at at self.old }
    {
        self.slots.bury(at);
        self.len -= 1;
        self.retired = retires(self.retired, self.len, self.frozen);
    }

    /// The pair with this key.
    #[inline(always)]
    pub fn search_entry(&self, key: &K) -> Option<(&K, &V)>
        ensures { LendsPair result (pair_of_key K.cmp key.now self.now.pairs) }
    {
        let mut steps = Steps::new();
        self.search_entry_counted(key, &mut steps)
    }

    /// The pair with this key, by at most ten comparisons, which are counted.
    #[inline(always)]
    pub fn search_entry_counted(&self, key: &K, steps: &mut Steps) -> Option<(&K, &V)>
        ensures pair { LendsPair result (pair_of_key K.cmp key.now self.now.pairs) }
        ensures cost { steps.new.count ≤ steps.old.count + 10 }
        ensures raised { steps.old.count ≤ steps.new.count }
    {
        match self.found(key, steps) {
            Some((_, pair)) => Some(pair),
            None => None,
        }
    }

    /// The value of the pair with this key.
    #[inline(always)]
    pub fn search_val(&self, key: &K) -> Option<&V>
        ensures { LendsValue result (pair_of_key K.cmp key.now self.now.pairs) }
    {
        let mut steps = Steps::new();
        match self.found(key, &mut steps) {
            Some((_, (_, value))) => Some(value),
            None => None,
        }
    }

    /// How many keys are less, and the pair behind theirs: the least one whose key isn't less.
    #[inline(always)]
    pub fn lower_bound(&self, key: &K) -> (usize, Option<(&K, &V)>)
        ensures place { result.0 ≡ lesser K.cmp key.now self.now.pairs }
        ensures pair { LendsPair result.1 (slice_get self.now.pairs (lesser K.cmp key.now self.now.pairs)) }
    {
        let mut steps = Steps::new();
        self.lower_bound_counted(key, &mut steps)
    }

    /// The same, by at most nine comparisons, which are counted.
    #[inline(always)]
    pub fn lower_bound_counted(&self, key: &K, steps: &mut Steps) -> (usize, Option<(&K, &V)>)
        ensures place { result.0 ≡ lesser K.cmp key.now self.now.pairs }
        ensures pair { LendsPair result.1 (slice_get self.now.pairs (lesser K.cmp key.now self.now.pairs)) }
        ensures cost { steps.new.count ≤ steps.old.count + 9 }
        ensures raised { steps.old.count ≤ steps.new.count }
    {
        self.slots.lower(key, steps)
    }

    /// The pair that comes behind `at` others.
    #[inline(always)]
    pub fn pair(&self, at: usize) -> Option<(&K, &V)>
        ensures { LendsPair result (slice_get self.now.pairs at) }
    {
        let _ = &self.len;
        self.slots.pair(at)
    }

    /// Drops what was removed or replaced, so that all its places are clear again. A retired array takes pairs again.
    pub fn pack(&mut self)
    where
        K: Drop,
        V: Drop,
        ensures { self.new ≡ filled_array self.old.frozen self.old.pairs }
    {
        self.slots.renumber();
        self.used = self.len;
        self.retired = false;
    }

    /// Moves the eight least pairs to an array of their own. Both are packed.
    pub fn split_half(&mut self) -> Self
    where
        K: Drop,
        V: Drop,
        ensures lower { result ≡ filled_array false (take 8 self.old.pairs) }
        ensures upper { self.new ≡ filled_array self.old.frozen (drop 8 self.old.pairs) }
    {
        let mut slots = self.slots.split_half();
        slots.renumber();
        self.slots.renumber();
        let len = self.len.min(8);
        self.len -= len;
        self.used = self.len;
        self.retired = false;
        Array {
            len,
            used: len,
            frozen: false,
            retired: false,
            slots,
        }
    }

    /// Moves the pairs behind the first `at` to an array of their own, as `Vec::split_off` does. Both are packed.
    ///
    /// Of the keys 1 to 5, `split_off(2)` returns 3, 4 and 5, and the array keeps 1 and 2.
    pub fn split_off(&mut self, at: usize) -> Self
    where
        K: Drop,
        V: Drop,
        requires { at ≤ length self.old.pairs }
        ensures lower { self.new ≡ filled_array self.old.frozen (take at self.old.pairs) }
        ensures upper { result ≡ filled_array false (drop at self.old.pairs) }
    {
        let mut slots = self.slots.cut(at);
        slots.renumber();
        self.slots.renumber();
        let low = at as u8;
        let len = self.len - low;
        self.len = low;
        self.used = low;
        self.retired = false;
        Array {
            len,
            used: len,
            frozen: false,
            retired: false,
            slots,
        }
    }

    /// Takes the greatest pair out of the array, which is packed then.
    pub fn pop_last(&mut self) -> Option<(K, V)>
    where
        K: Drop,
        V: Drop,
        ensures pair { result ≡ slice_get self.old.pairs (length self.old.pairs - 1) }
        ensures rest { self.new ≡ filled_array self.old.frozen (take (length self.old.pairs - 1) self.old.pairs) }
    {
        self.slots.renumber();
        self.retired = false;
        self.used = self.len;
        if self.len == 0 {
            return None;
        }
        self.len -= 1;
        self.used = self.len;
        Some(self.slots.vacate(usize::from(self.len)))
    }

    /// Inserts a pair, and where `UPSERT` is true puts it in the place of the one that has its key.
    #[inline(always)]
    pub fn insert<const UPSERT: bool>(&mut self, key: K, val: V) -> InsertResult<K, V>
        ensures full { IsFull result ↔ IsTrue (is_refused UPSERT K.cmp key self.old) }
        ensures absent { IsFull result → UPSERT ≡ false → self.old.frozen ≡ false → array_has_key K.cmp key self.old ≡ false }
        ensures duplicate { IsDuplicate result ↔ IsTrue (is_repeated UPSERT K.cmp key self.old) }
        ensures back { IfSome (given_back result) (λ p. p ≡ (key, val)) }
        ensures kept { IsSome (given_back result) → self.new ≡ self.old }
        ensures inserted { IsSuccess result → array_has_key K.cmp key self.old ≡ false → self.new ≡ array_inserted K.cmp key val self.old }
        ensures replaced { IsSuccess result → array_has_key K.cmp key self.old ≡ true → self.new ≡ array_replaced K.cmp key val self.old }
    {
        if self.frozen || self.retired {
            return InsertResult::Full(key, val);
        }
        match self.find(&key) {
            Ok(at) => {
                if !UPSERT {
                    return InsertResult::Duplicate(key, val);
                }
                if self.used == 15 {
                    return InsertResult::Full(key, val);
                }
                self.replace(at, key, val);
            },
            Err(at) => {
                if self.used == 15 {
                    return InsertResult::Full(key, val);
                }
                self.place(at, key, val);
            },
        }
        InsertResult::Success
    }

    /// Inserts a pair, and where `UPSERT` is true writes it over the one that has its key, which is dropped:
    /// that takes no place.
    #[inline(always)]
    pub fn put<const UPSERT: bool>(&mut self, key: K, val: V) -> InsertResult<K, V>
    where
        K: Drop,
        V: Drop,
        ensures full { IsFull result ↔ IsTrue (is_refused false K.cmp key self.old) }
        ensures absent { IsFull result → self.old.frozen ≡ false → array_has_key K.cmp key self.old ≡ false }
        ensures duplicate { IsDuplicate result ↔ IsTrue (is_repeated UPSERT K.cmp key self.old) }
        ensures back { IfSome (given_back result) (λ p. p ≡ (key, val)) }
        ensures kept { IsSome (given_back result) → self.new ≡ self.old }
        ensures inserted { IsSuccess result → array_has_key K.cmp key self.old ≡ false → self.new ≡ array_inserted K.cmp key val self.old }
        ensures overwritten { IsSuccess result → array_has_key K.cmp key self.old ≡ true → self.new ≡ array_overwritten K.cmp key val self.old }
    {
        if self.frozen || self.retired {
            return InsertResult::Full(key, val);
        }
        match self.find(&key) {
            Ok(at) => {
                if UPSERT {
                    let _old = self.overwrite(at, key, val);
                } else {
                    return InsertResult::Duplicate(key, val);
                }
            },
            Err(at) => {
                if self.used == 15 {
                    return InsertResult::Full(key, val);
                }
                self.place(at, key, val);
            },
        }
        InsertResult::Success
    }

    /// Removes the pair with this key, if the condition answers true of its value.
    ///
    /// The condition is asked once where the array isn't frozen and has the key, else not at all.
    #[inline]
    pub fn remove_if<F: FnOnce(&V) -> bool>(&mut self, key: &K, condition: F) -> RemoveResult
    where
        F: Drop,
        requires { self.old.frozen ≡ false → IfSome (pair_of_key K.cmp key.now self.old.pairs) (λ e. FnOnceTakesAt F.FnOnce condition e.1) }
        ensures frozen { result ≡ Frozen ↔ self.old.frozen ≡ true }
        ensures absent { self.old.frozen ≡ false → pair_of_key K.cmp key.now self.old.pairs ≡ None → result ≡ Fail }
        ensures asked { self.old.frozen ≡ false → IfSome (pair_of_key K.cmp key.now self.old.pairs) (λ e. FnOnceReturnsAt F.FnOnce condition e.1 (is_removal result)) }
        ensures removed { is_removal result ≡ true → self.new ≡ array_removed K.cmp key.now self.old }
        ensures kept { is_removal result ≡ false → self.new ≡ self.old }
        ensures last { is_removal result ≡ true → (result ≡ Retired ↔ self.new.pairs ≡ []) }
    {
        if self.frozen {
            return RemoveResult::Frozen;
        }
        let mut steps = Steps::new();
        let Some((at, (_, value))) = self.found(key, &mut steps) else {
            return RemoveResult::Fail;
        };
        if !answer(condition, value) {
            return RemoveResult::Fail;
        }
        self.bury(at);
        if self.len == 0 {
            RemoveResult::Retired
        } else {
            RemoveResult::Success
        }
    }
}

/// A rank in a byte.
#[inline(always)]
fn narrowed(rank: u16) -> u8
    requires { rank ≤ 15 }
    ensures { result ≡ rank }
{
    rank as u8
}

/// Whether an array with `len` pairs is retired after a removal.
#[inline(always)]
fn retires(retired: bool, len: u8, frozen: bool) -> bool
    ensures { result ≡ (retired || len == 0 && not frozen) }
{
    retired || len == 0 && !frozen
}

/// What the condition answers, asked once.
#[inline(always)]
fn answer<T, F: FnOnce(&T) -> bool>(condition: F, value: &T) -> bool
    requires { FnOnceTakesAt F.FnOnce condition value.now }
    ensures { FnOnceReturnsAt F.FnOnce condition value.now result }
{
    condition(value)
}
