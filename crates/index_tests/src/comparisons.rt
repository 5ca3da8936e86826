//! How many comparisons a look-up makes, by keys that count them.

ghost use Rattle.local_index.specs.State.{IsSessionOf};

use leaf_array::Array;
use local_index::{LocalIndex, Receipt, Session, Write};
use std::alloc::{AllocError, Global};
use std::cell::Cell;
use std::cmp::Ordering;
use std::marker::Model;
use std::process::Abort;
use tree_index::{Steps, TreeIndex};

const ROOM: &str = "memory";

// A number as a key, which counts each comparison.
#[derive(Drop)]
struct CountedKey<'c> {
    number: u64,
    count: &'c Cell<u64>,
}

impl<'c> Model for CountedKey<'c> {
    ghost use Rattle.std.specs.Prelude.{ℕ};

    ghost Value = { ℕ };

    ghost view = { λ k. k.number };
}

impl<'c> Clone for CountedKey<'c> {
    ghost use Rattle.std.specs.Prelude.{◌≡◌};

    ghost is_clone = { λ old new. new ≡ old };

    fn clone(&self) -> Result<Self, AllocError> {
        Ok(CountedKey {
            number: self.number,
            count: self.count,
        })
    }
}

impl<'c> PartialEq for CountedKey<'c> {
    ghost use Rattle.std.specs.Cmp;
    ghost use Rattle.std.specs.Prelude.{nat_eq};

    ghost eq = { λ x y. nat_eq x y };

    ghost laws = { Cmp.partial_equiv_from_equiv Cmp.nat_eq_equiv };

    fn eq(&self, other: &Self) -> bool {
        self.number == other.number
    }
}

impl<'c> Eq for CountedKey<'c> {
    ghost use Rattle.std.specs.Cmp;

    ghost laws = { Cmp.nat_eq_equiv };
}

impl<'c> PartialOrd for CountedKey<'c> {
    ghost use Rattle.std.specs.Cmp;
    ghost use Rattle.std.specs.Ordering.{nat_cmp};
    ghost use Rattle.std.specs.Prelude.{Some};

    ghost partial_cmp = { λ x y. Some (nat_cmp x y) };

    ghost laws = { Cmp.unsigned_po };

    fn partial_cmp(&self, other: &Self) -> Option<Ordering> {
        Some(self.cmp(other))
    }
}

impl<'c> Ord for CountedKey<'c> {
    ghost use Rattle.std.specs.Cmp;
    ghost use Rattle.std.specs.Ordering.{nat_cmp};
    ghost use Rattle.std.specs.Prelude.{refl};

    ghost cmp = { λ x y. nat_cmp x y };

    ghost total = { Cmp.nat_cmp_total };

    ghost matches_partial_cmp = { λ x y. refl };

    ghost matches_eq = { λ x y. Cmp.unsigned_ties x y };

    fn cmp(&self, other: &Self) -> Ordering {
        self.count.set(self.count.get().saturating_add(1));
        self.number.cmp(&other.number)
    }
}

// Upserts of the keys from 1 to a number, each its own value.
fn upserts<'c>(
    alloc: Global,
    count: &'c Cell<u64>,
    last: u64,
) -> Result<Vec<Write<CountedKey<'c>, u64>>, AllocError> {
    let mut writes = Vec::new(alloc);
    for number in 1..=last {
        writes.push(Write::Upsert(CountedKey { number, count }, number))?;
    }
    Ok(writes)
}

// Whether each look-up of a number finds this value, or nothing, by this many comparisons at most.
fn is_looked_up<'c, const S: usize>(
    index: &LocalIndex<CountedKey<'c>, u64, S>,
    session: &Session<CountedKey<'c>, u64>,
    key: &CountedKey<'c>,
    wanted: Option<u64>,
    most: u64,
) -> bool
    requires { IsSessionOf index.now session.now }
{
    let mut steps = Steps::new();
    let count = key.count;
    count.set(0);
    let value = index.get(session, key).copied() == wanted;
    let first = count.get();
    count.set(0);
    let counted = index.get_counted(session, key, &mut steps).copied() == wanted;
    let second = count.get();
    count.set(0);
    let there = index.contains_counted(session, key, &mut steps) == wanted.is_some();
    let third = count.get();
    count.set(0);
    let found = index.contains(session, key) == wanted.is_some();
    let made = first.max(second).max(third).max(count.get());
    value && counted && there && found && made <= most
}

// Whether the look-ups of the keys from 0 to one above the last answer as the list does, where those from 1 on are there, each
// by this many comparisons at most.
fn are_looked_up<'c, const S: usize>(
    index: &LocalIndex<CountedKey<'c>, u64, S>,
    session: &Session<CountedKey<'c>, u64>,
    count: &'c Cell<u64>,
    last: u64,
    most: u64,
) -> bool
    requires { IsSessionOf index.now session.now }
{
    let mut right = true;
    for number in 0..=last.saturating_add(1) {
        let there = 1 <= number && number <= last;
        let wanted = if there { Some(number) } else { None };
        let key = CountedKey { number, count };
        right = is_looked_up(index, session, &key, wanted, most) && right;
    }
    right
}

// An index of this many keys, which one commit puts in, if there are any.
fn index_of<'c, R: Abort, const S: usize>(
    rt: &R,
    alloc: Global,
    count: &'c Cell<u64>,
    slots: usize,
    last: u64,
) -> LocalIndex<CountedKey<'c>, u64, S> {
    if slots == 0 || slots > 1_000 || S == 0 || S > 225 {
        panic!(rt; "a small index");
    }
    let mut index = LocalIndex::new(alloc, 1, slots).expect(rt, ROOM);
    if last > 0 {
        let writes = upserts(alloc, count, last).expect(rt, ROOM);
        if index.commit(&Receipt::blank(alloc), writes).is_err() {
            panic!(rt; "slots are free");
        }
    }
    index
}

// Whether keys are looked up by this many comparisons at most in an index of this many.
fn look_up_among<R: Abort, const S: usize>(
    rt: &R,
    alloc: Global,
    slots: usize,
    last: u64,
    most: u64,
) -> bool {
    let count = Cell::new(0u64);
    let mut index = index_of::<R, S>(rt, alloc, &count, slots, last);
    let session = index.open().expect(rt, "a free place");
    let right = are_looked_up(&index, &session, &count, last, most);
    let _receipt = index.close_session(session);
    match index.close() {
        Ok(()) => right,
        Err(_open) => panic!(rt; "a session is open"),
    }
}

// 1,000 pairs lie in at most 9 segments of 225 pairs: 4 binary digits. 100 pairs lie in 100 segments of one pair: 7 binary
// digits. Where there is no segment, nothing is compared.
#[test]
fn a_look_up_makes_at_most_30_comparisons_and_one_a_binary_digit_of_the_segments(rt: HostRuntime) {
    let alloc = rt.alloc();
    let right = [
        look_up_among::<_, 225>(&rt, alloc, 100, 1_000, 34),
        look_up_among::<_, 1>(&rt, alloc, 105, 100, 37),
        look_up_among::<_, 225>(&rt, alloc, 1, 0, 0),
    ];
    assert!(rt; right == [true; 3]);
}

// A tree of the keys from 1 to 225.
fn flat_tree<'c>(alloc: Global, count: &'c Cell<u64>) -> TreeIndex<CountedKey<'c>, u64> {
    let mut tree = TreeIndex::new(alloc);
    for number in 1..=225u64 {
        let _inserted = tree.insert_sync(CountedKey { number, count }, number);
    }
    tree
}

// An array of the keys from 1 to 15.
fn full_array<'c>(count: &'c Cell<u64>) -> Array<CountedKey<'c>, u64> {
    let mut array = Array::new();
    for number in 1..=15u64 {
        let _inserted = array.insert::<false>(CountedKey { number, count }, number);
    }
    array
}

// Whether each look-up in a tree of 225 keys answers what is there, by at most 30 comparisons.
fn tree_is_looked_up(alloc: Global) -> bool {
    let count = Cell::new(0u64);
    let tree = flat_tree(alloc, &count);
    let mut right = tree.len() == 225;
    for number in 0..=226u64 {
        let key = CountedKey {
            number,
            count: &count,
        };
        count.set(0);
        let found = tree.peek_entry_counted(&key, &mut Steps::new()).is_some();
        right = right && found == (1 <= number && number <= 225) && count.get() <= 30;
    }
    right
}

// Whether each look-up in an array of 15 keys answers what is there, by at most 15 comparisons.
fn array_is_looked_up() -> bool {
    let count = Cell::new(0u64);
    let array = full_array(&count);
    let mut right = array.len() == 15;
    for number in 0..=226u64 {
        let key = CountedKey {
            number,
            count: &count,
        };
        count.set(0);
        let found = array
            .search_entry_counted(&key, &mut Steps::new())
            .is_some();
        right = right && found == (1 <= number && number <= 15) && count.get() <= 15;
        count.set(0);
        let (least, _) = array.min_greater_equal_counted(&key, &mut Steps::new());
        right = right && least.is_some() == (number <= 15) && count.get() <= 15;
    }
    right
}

#[test]
fn a_look_up_in_an_array_and_in_a_flat_tree_makes_few_comparisons(rt: HostRuntime) {
    assert!(rt; tree_is_looked_up(rt.alloc()) && array_is_looked_up());
}
