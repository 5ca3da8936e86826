//! Calls of trees as data, so that a test of many calls is a table: each call with what it answers.

use self::Numbers::{Modulo, Times};
use super::each_call::{
    clear, copy_of, count_of, depth_of, empty, first_of, has, insert, insert_told, is_empty,
    last_of, len_of, remove, upsert, upsert_told, val_of,
};
use super::index::Stir;
use super::{Tree, cursor, index, leaf_at, removal, shrink};
use crate::numbers::read;
use std::alloc::Global;
use std::mem;
use std::ops::Bound;

/// A number for each number. All wrap round.
#[derive(Clone, Copy)]
pub(super) enum Numbers {
    /// Its product with the first, and the second added.
    Times(u64, u64),
    /// Its product with the first, of which the remainder by the second is taken.
    Modulo(u64, u64),
}

/// A pair for each number: its key, and its value.
#[derive(Clone, Copy)]
pub(super) struct Pairs(pub(super) Numbers, pub(super) Numbers);

pub(super) const SAME: Numbers = Times(1, 0);

/// Each number with its complement.
pub(super) const EACH: Pairs = Pairs(SAME, Times(u64::MAX, u64::MAX));

/// The even numbers, each with the number behind it.
pub(super) const EVENS: Pairs = Pairs(Times(2, 0), Times(2, 1));

fn number_of(numbers: Numbers, number: u64) -> u64 {
    match numbers {
        Times(factor, shift) => number.wrapping_mul(factor).wrapping_add(shift),
        Modulo(factor, modulus) => number
            .wrapping_mul(factor)
            .checked_rem(modulus)
            .unwrap_or(0),
    }
}

/// The pair of a number.
pub(super) fn pair_of(pairs: Pairs, number: u64) -> (u64, u64) {
    (number_of(pairs.0, number), number_of(pairs.1, number))
}

/// What is done with a pair, or is so of it.
#[derive(Clone, Copy)]
pub(super) enum Act {
    /// It is inserted; inserted, and found then, in no fewer levels; upserted, and found then; or found, and removed.
    Take,
    Fill,
    Renew,
    Lose,
    /// It is there; or its key isn't.
    Hold,
    Lack,
}

/// A call of a tree of numbers, which has another beside it.
#[derive(Clone, Copy)]
pub(super) enum Call {
    Insert(u64, u64),
    Upsert(u64, u64),
    Remove(u64),
    /// A removal on the condition that this is the value.
    RemoveIf(u64, u64),
    RemoveRange(Bound<u64>, Bound<u64>),
    Clear,
    /// Whether this is done with each of the pairs of the numbers from one on up to below another.
    All(Act, Pairs, u64, u64),
    /// Runs of many calls, which return whether all was as it has to be.
    Stirred(Stir),
    RenewInRounds,
    RefillInRounds,
    GoThrough,
    StirOften,
    FillBoth,
    /// The same, of a tree of its own.
    Shrink(u64),
    /// The other tree becomes a clone of this one, or the two change places; and whether they are equal.
    Copy,
    Swap,
    Equal,
    Len,
    IsEmpty,
    Depth,
    /// Whether the tree has more levels than this.
    IsDeeper(usize),
    /// Whether there are this many leaves at most, none with a number above the first of the two.
    HasFewLeaves(usize, usize),
    /// Whether the leaf of a key has fifteen pairs in fifteen places, and has lost none.
    HasFullLeaf(u64),
    Peek(u64),
    PeekEntry(u64),
    /// The pair that a function was shown.
    PeekWith(u64),
    ReadSync(u64),
    Contains(u64),
    /// The pairs of a walk, and of a range.
    Count,
    CountWithin(Bound<u64>, Bound<u64>),
    First,
    Last,
}

/// What a call answers.
#[derive(Clone, Copy, PartialEq, Eq)]
pub(super) enum Told {
    Done,
    /// An insertion gives the pair back.
    Duplicate(u64, u64),
    NoMemory(u64, u64),
    Is(bool),
    Number(usize),
    Val(Option<u64>),
    Pair(Option<(u64, u64)>),
}

/// A pair that is lent, if there is one.
pub(super) type Seen = Option<(u64, u64)>;

/// The pair that a function is shown.
pub(super) fn shown(key: &u64, val: &u64) -> (u64, u64) {
    (*key, *val)
}

fn has_full_leaf(tree: &Tree, key: u64) -> bool {
    let Some(leaf) = leaf_at(tree, key) else {
        return false;
    };
    let sizes = (leaf.array.len(), leaf.array.used());
    sizes == (15, 15) && leaf.array.last_removed().is_none()
}

/// A call that changes nothing.
fn look(tree: &Tree, call: Call) -> Told {
    match call {
        Call::IsEmpty => Told::Is(is_empty(tree)),
        Call::Depth => Told::Number(depth_of(tree)),
        Call::IsDeeper(than) => Told::Is(depth_of(tree) > than),
        Call::HasFewLeaves(number, most) => Told::Is(shrink::has_few_leaves(tree, number, most)),
        Call::HasFullLeaf(key) => Told::Is(has_full_leaf(tree, key)),
        Call::Peek(key) => Told::Val(val_of(tree, key)),
        Call::PeekEntry(key) => Told::Pair(read(tree.peek_entry(&key))),
        Call::PeekWith(key) => Told::Pair(tree.peek_with(&key, shown)),
        Call::ReadSync(key) => Told::Pair(tree.read_sync(&key, shown)),
        Call::Contains(key) => Told::Is(has(tree, key)),
        Call::Count => Told::Number(count_of(tree)),
        Call::CountWithin(lower, upper) => Told::Number(
            tree.range(lower.as_ref(), upper.as_ref()).count(),
        ),
        Call::First => Told::Pair(first_of(tree)),
        Call::Last => Told::Pair(last_of(tree)),
        _ => Told::Number(len_of(tree)),
    }
}

/// Makes a call of one tree.
pub(super) fn make(tree: &mut Tree, call: Call) -> Told {
    match call {
        Call::Insert(key, val) => insert_told(tree, key, val),
        Call::Upsert(key, val) => upsert_told(tree, key, val),
        Call::Remove(key) => Told::Is(remove(tree, key)),
        Call::RemoveIf(key, wanted) => Told::Is(tree.remove_if_sync(&key, |val| *val == wanted)),
        Call::RemoveRange(lower, upper) => {
            tree.remove_range_sync(lower.as_ref(), upper.as_ref());
            Told::Done
        }
        Call::Clear => {
            clear(tree);
            Told::Done
        }
        Call::All(act, pairs, first, last) => Told::Is(all(tree, act, pairs, first, last)),
        Call::Stirred(stir) => Told::Is(index::stir_all(tree, stir)),
        Call::RenewInRounds => Told::Is(index::renew_in_rounds(tree)),
        Call::RefillInRounds => Told::Is(shrink::refill_in_rounds(tree)),
        Call::GoThrough => Told::Is(shrink::go_through(tree)),
        Call::StirOften => Told::Is(shrink::stir_often(tree)),
        _ => look(tree, call),
    }
}

/// Whether two trees are equal, where both comparisons say so.
pub(super) fn equal(one: &Tree, other: &Tree) -> Told {
    let same = one == other;
    if (one != other) == same {
        return Told::Done;
    }
    Told::Is(same)
}

/// Fills two trees with the keys below 100, rising and falling, and returns whether they are equal at the end alone.
fn fill_both(rising: &mut Tree, falling: &mut Tree) -> bool {
    let mut as_said = true;
    for key in 0..100u64 {
        let risen = all(rising, Act::Fill, EACH, key, key + 1);
        let fallen = all(falling, Act::Fill, EACH, 99 - key, 100 - key);
        let same = equal(rising, falling) == Told::Is(key == 99);
        as_said = risen && fallen && same && as_said;
    }
    as_said
}

/// Makes a call of a tree, or of both.
fn make_of_two(alloc: Global, tree: &mut Tree, other: &mut Tree, call: Call) -> Told {
    match call {
        Call::Copy => match copy_of(alloc, tree) {
            Ok(made) => *other = made,
            Err(_) => return Told::Is(false),
        },
        Call::Swap => mem::swap(tree, other),
        Call::Equal => return equal(tree, other),
        Call::FillBoth => return Told::Is(fill_both(tree, other)),
        Call::Shrink(step) => return Told::Is(shrink::shrink(alloc, step)),
        _ => return make(tree, call),
    }
    Told::Done
}

/// Makes the calls of a table on two new trees, in order, and returns the place of the first that is answered otherwise.
pub(super) fn first_other(alloc: Global, rows: &[(Call, Told)]) -> Option<usize> {
    let mut tree = empty(alloc);
    let mut other = empty(alloc);
    for (at, (call, wanted)) in rows.iter().enumerate() {
        if make_of_two(alloc, &mut tree, &mut other, *call) != *wanted {
            return Some(at);
        }
    }
    None
}

/// Whether this is done with a pair.
fn acts(tree: &mut Tree, act: Act, key: u64, val: u64) -> bool {
    match act {
        Act::Take => insert(tree, key, val),
        Act::Fill => {
            let depth = depth_of(tree);
            insert(tree, key, val) && val_of(tree, key) == Some(val) && depth_of(tree) >= depth
        }
        Act::Renew => upsert(tree, key, val) && val_of(tree, key) == Some(val),
        Act::Lose => val_of(tree, key) == Some(val) && remove(tree, key),
        Act::Hold => val_of(tree, key) == Some(val),
        Act::Lack => !has(tree, key),
    }
}

/// Whether it is done with each of the pairs of the numbers from one on up to below another.
pub(super) fn all(tree: &mut Tree, act: Act, pairs: Pairs, first: u64, last: u64) -> bool {
    let mut right = true;
    for number in first..last {
        let (key, val) = pair_of(pairs, number);
        right = acts(tree, act, key, val) && right;
    }
    right
}

/// The place of the first table that has a call that is answered otherwise, and the place of that call.
pub(super) fn first_other_of(alloc: Global, tables: &[&[(Call, Told)]]) -> Option<(usize, usize)> {
    for (at, table) in tables.iter().enumerate() {
        if let Some(row) = first_other(alloc, table) {
            return Some((at, row));
        }
    }
    None
}

#[test]
fn trees_answer_as_the_tables_say(rt: HostRuntime) {
    let others = [
        first_other_of(rt.alloc(), index::TABLES),
        first_other_of(rt.alloc(), shrink::TABLES),
        first_other_of(rt.alloc(), &[removal::EDGES, cursor::COUNTS]),
    ];
    assert!(rt; others == [None; 3]);
}
