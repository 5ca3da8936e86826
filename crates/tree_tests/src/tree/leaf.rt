//! Leaves and their cursors by example.

use super::calls::Act::{Fill, Lose};
use super::calls::Numbers::Times;
use super::calls::{EACH, EVENS, Pairs, SAME, Seen, all, pair_of};
use super::each_call::empty;
use super::{Tree, leaf_at};
use crate::numbers::{always, read, stirred};
use leaf_array::{InsertResult, RemoveResult};
use std::alloc::{AllocError, Global};
use std::test::Fail;
use tree_index::leaf::{Iter, Leaf, RevIter};

/// Adds a pair whose key isn't there, and returns whether the leaf took it.
fn add(leaf: &mut Leaf<u64, u64>, key: u64, val: u64) -> bool {
    match leaf.array.insert::<false>(key, val) {
        InsertResult::Success => true,
        _ => false,
    }
}

/// Removes the pair with this key, and returns whether it was there.
fn drop_key(leaf: &mut Leaf<u64, u64>, key: u64) -> bool {
    matches!(
        leaf.array.remove_if(&key, always),
        RemoveResult::Success | RemoveResult::Retired
    )
}

/// A cursor over a leaf.
#[derive(Drop)]
enum Cursor<'l> {
    Rising(Iter<'l, u64, u64>),
    Falling(RevIter<'l, u64, u64>),
}

/// A call of a cursor over a leaf.
#[derive(Clone, Copy)]
enum Step {
    Next,
    Get,
    Rewind,
    /// The last key by the cursor's direction, with the value 0.
    Last,
    Turn,
    /// A jump into the tree, and a step that jumps where the leaf is at its end, and then starts a leaf.
    Jump,
    Cross,
}

fn alone(key: Option<&u64>) -> Seen {
    Some((*key?, 0))
}

/// The pair that a jump of a rising cursor gives, where nothing lies before it in its leaf.
fn started<'l>(rising: &mut Iter<'l, u64, u64>, tree: &'l Tree) -> Seen {
    let seen = read(rising.jump(tree));
    if rising.clone().rev().next().is_none() {
        seen
    } else {
        None
    }
}

/// The same of a falling cursor.
fn started_back<'l>(falling: &mut RevIter<'l, u64, u64>, tree: &'l Tree) -> Seen {
    let seen = read(falling.jump(tree));
    if falling.clone().rev().next().is_none() {
        seen
    } else {
        None
    }
}

/// Takes a step of a rising cursor.
fn rise<'l>(cursor: Iter<'l, u64, u64>, tree: &'l Tree, step: Step) -> (Cursor<'l>, Seen) {
    let mut rising = cursor;
    let seen = match step {
        Step::Next => read(rising.next()),
        Step::Get => read(rising.get()),
        Step::Last => alone(rising.max_key()),
        Step::Jump => read(rising.jump(tree)),
        Step::Turn => return (Cursor::Falling(rising.rev()), None),
        Step::Rewind => {
            rising.rewind();
            None
        },
        Step::Cross => match read(rising.next()) {
            Some(pair) => Some(pair),
            None => started(&mut rising, tree),
        },
    };
    (Cursor::Rising(rising), seen)
}

/// Takes a step of a falling cursor.
fn fall<'l>(cursor: RevIter<'l, u64, u64>, tree: &'l Tree, step: Step) -> (Cursor<'l>, Seen) {
    let mut falling = cursor;
    let seen = match step {
        Step::Next => read(falling.next()),
        Step::Get => read(falling.get()),
        Step::Last => alone(falling.min_key()),
        Step::Jump => read(falling.jump(tree)),
        Step::Turn => return (Cursor::Rising(falling.rev()), None),
        Step::Rewind => {
            falling.rewind();
            None
        },
        Step::Cross => match read(falling.next()) {
            Some(pair) => Some(pair),
            None => started_back(&mut falling, tree),
        },
    };
    (Cursor::Falling(falling), seen)
}

/// Takes a step of a cursor.
fn take<'l>(cursor: Cursor<'l>, tree: &'l Tree, step: Step) -> (Cursor<'l>, Seen) {
    match cursor {
        Cursor::Rising(rising) => rise(rising, tree, step),
        Cursor::Falling(falling) => fall(falling, tree, step),
    }
}

/// Takes the steps of a table, and returns whether each answers what it has to.
fn goes<'l>(cursor: Cursor<'l>, tree: &'l Tree, rows: &[(Step, Seen)]) -> (Cursor<'l>, bool) {
    let mut here = cursor;
    let mut as_said = true;
    for (step, wanted) in rows {
        let (next, seen) = take(here, tree, *step);
        here = next;
        as_said = seen == *wanted && as_said;
    }
    (here, as_said)
}

/// A call of a leaf of no tree, so that there are no links, and the steps of new cursors over it, which jump into a tree.
#[derive(Clone, Copy)]
enum Call {
    /// A pair is added or removed, or all that were removed are forgotten.
    Add(u64, u64),
    Drop(u64),
    Pack,
    /// Each key below fifteen is added with itself.
    Fill,
    /// The leaf has no pair and no neighbour, or it is full and gets one.
    IsNew,
    IsFull,
    /// The steps of a rising and of a falling cursor, and those of one and its copy.
    Forth(&'static [(Step, Seen)]),
    Back(&'static [(Step, Seen)]),
    Part,
}

/// Makes a call of a leaf, and returns whether all was as it has to be.
fn make(leaf: &mut Leaf<u64, u64>, tree: &Tree, call: Call) -> bool {
    match call {
        Call::Add(key, val) => add(leaf, key, val),
        Call::Drop(key) => drop_key(leaf, key),
        Call::Pack => {
            leaf.array.pack();
            true
        }
        Call::Fill => takes(leaf),
        Call::IsNew => is_new(leaf),
        Call::IsFull => {
            leaf.next = Some(7);
            leaf.array.is_full() && leaf.next == Some(7)
        }
        Call::Forth(rows) => goes(Cursor::Rising(Iter::new(leaf)), tree, rows).1,
        Call::Back(rows) => goes(Cursor::Falling(RevIter::new(leaf)), tree, rows).1,
        Call::Part => part(leaf, tree),
    }
}

fn takes(leaf: &mut Leaf<u64, u64>) -> bool {
    let mut taken = true;
    for key in 0..15u64 {
        taken = add(leaf, key, key) && taken;
    }
    taken
}

fn is_new(leaf: &Leaf<u64, u64>) -> bool {
    let alone = leaf.prev.is_none() && leaf.next.is_none();
    alone && leaf.array.is_empty() && !leaf.array.is_full()
}

// Steps of a falling cursor over the three keys, those that it takes then while its copy stays, and that of the copy.
const FIRST: &[(Step, Seen)] = &[
    (Step::Get, None),
    (Step::Last, Some((1, 0))),
    (Step::Next, Some((2049, 2))),
];

const THEN: &[(Step, Seen)] = &[
    (Step::Next, Some((2, 1))),
    (Step::Next, Some((1, 0))),
    (Step::Next, None),
    (Step::Get, Some((1, 0))),
    (Step::Rewind, None),
    (Step::Get, None),
    (Step::Next, Some((2049, 2))),
];

const OF_THE_COPY: &[(Step, Seen)] = &[(Step::Get, Some((2049, 2)))];

/// Whether a falling cursor and its copy go so.
fn part(leaf: &Leaf<u64, u64>, tree: &Tree) -> bool {
    let (cursor, first) = goes(Cursor::Falling(RevIter::new(leaf)), tree, FIRST);
    let Cursor::Falling(falling) = cursor else {
        return false;
    };
    let copy = Cursor::Falling(falling.clone());
    let then = goes(Cursor::Falling(falling), tree, THEN).1;
    first && then && goes(copy, tree, OF_THE_COPY).1
}

const TABLES: &[&[Call]] = &[
    // a new leaf has no pairs and no neighbours
    &[
        Call::IsNew,
        Call::Forth(&[
            (Step::Next, None),
            (Step::Get, None),
            (Step::Last, None),
            (Step::Turn, None),
            (Step::Next, None),
            (Step::Get, None),
            (Step::Last, None),
        ]),
        Call::Fill,
        Call::IsFull,
    ],
    // a cursor turns round at its pair, and falls through the keys that are left
    &[
        Call::Add(1, 0),
        Call::Add(2, 1),
        Call::Add(2049, 2),
        Call::Add(6, 3),
        Call::Drop(6),
        Call::Forth(&[
            (Step::Get, None),
            (Step::Next, Some((1, 0))),
            (Step::Turn, None),
            (Step::Get, Some((1, 0))),
            (Step::Turn, None),
            (Step::Get, Some((1, 0))),
            (Step::Next, Some((2, 1))),
            (Step::Next, Some((2049, 2))),
            (Step::Next, None),
            (Step::Get, Some((2049, 2))),
            (Step::Last, Some((2049, 0))),
        ]),
        Call::Part,
    ],
    // A leaf without pairs leads on from the key that it lost last. The tree has the keys 0, 10, up to 190, each with its
    // tenth part.
    &[
        Call::Forth(&[(Step::Jump, None)]),
        Call::Back(&[(Step::Jump, None)]),
        Call::Add(35, 0),
        Call::Add(120, 0),
        Call::Drop(120),
        Call::Forth(&[(Step::Jump, Some((40, 4)))]),
        Call::Drop(35),
        Call::Forth(&[(Step::Jump, Some((40, 4)))]),
        Call::Back(&[(Step::Jump, Some((30, 3)))]),
        Call::Pack,
        Call::Add(190, 0),
        Call::Drop(190),
        Call::Forth(&[(Step::Jump, None)]),
        Call::Forth(&[(Step::Jump, None), (Step::Get, None)]),
        Call::Forth(&[
            (Step::Jump, None),
            (Step::Turn, None),
            (Step::Jump, Some((180, 18))),
        ]),
        Call::Pack,
        Call::Back(&[(Step::Jump, None)]),
    ],
];

const TENS: Pairs = Pairs(Times(10, 0), SAME);

/// Makes the calls of a table on a new leaf, in order, and returns the place of the first that doesn't go as it has to.
fn first_other(tree: &Tree, calls: &[Call]) -> Option<usize> {
    let mut leaf: Leaf<u64, u64> = Leaf::new();
    for (at, call) in calls.iter().enumerate() {
        if !make(&mut leaf, tree, *call) {
            return Some(at);
        }
    }
    None
}

#[test]
fn leaves_answer_as_the_tables_say(rt: HostRuntime) {
    let mut tree = empty(rt.alloc());
    assert!(rt; all(&mut tree, Fill, TENS, 0, 20));
    for (at, calls) in TABLES.iter().enumerate() {
        assert_eq!(rt; first_other(&tree, calls), None, "table {at}");
    }
}

/// The next number of a fixed row of numbers in no order.
fn drawn(seed: &mut u64) -> u64 {
    *seed = stirred(*seed);
    *seed >> 33
}

/// Whether a leaf takes these keys, falling, each with 14 less itself.
fn takes_falling(leaf: &mut Leaf<u64, u64>, keys: &[u64]) -> bool {
    let mut taken = true;
    for key in keys.iter().rev() {
        taken = add(leaf, *key, 14u64.saturating_sub(*key)) && taken;
    }
    taken
}

/// The keys below 15 whose binary digits are 1.
fn keys_of(alloc: Global, mask: u64) -> Result<Vec<u64>, AllocError> {
    let mut keys: Vec<u64> = Vec::new(alloc);
    for key in 0..15u64 {
        if mask >> key & 1 == 1 {
            keys.push(key)?;
        }
    }
    Ok(keys)
}

#[test]
fn cursors_go_along_a_plain_list_of_keys(rt: HostRuntime) -> Result<(), Fail> {
    let tree = empty(rt.alloc());
    let mut seed = 1u64;
    for _ in 0..40u32 {
        let keys = keys_of(rt.alloc(), drawn(&mut seed))?;
        let mut leaf: Leaf<u64, u64> = Leaf::new();
        let taken = takes_falling(&mut leaf, &keys);
        assert!(rt; taken && goes_along(&leaf, &tree, &keys, &mut seed));
    }
    Ok(())
}

/// The place that a step goes to in a list of this many keys, from a place of which 0 is before all: back, or
/// forth. One that is at the end stays.
fn moved(place: usize, count: usize, falls: bool) -> usize {
    match (falls, place) {
        (true, 0) => count,
        (true, _) => place.saturating_sub(1).max(1),
        (false, _) => place.saturating_add(1).min(count),
    }
}

/// The pair at a place of a list of keys.
fn placed(keys: &[u64], place: usize) -> Seen {
    let key = *keys.get(place.checked_sub(1)?)?;
    Some((key, 14u64.saturating_sub(key)))
}

/// One call of a cursor, as `kind` says: it moves before its first pair, or turns for a step back, or goes a step forth.
/// Gives the cursor, and what the step gave.
fn make_step<'l>(cursor: Cursor<'l>, tree: &'l Tree, kind: u64) -> (Cursor<'l>, Seen) {
    match kind {
        0 => take(cursor, tree, Step::Rewind),
        1 | 2 | 3 => {
            let (turned, _) = take(cursor, tree, Step::Turn);
            let (back, seen) = take(turned, tree, Step::Next);
            (take(back, tree, Step::Turn).0, seen)
        }
        _ => take(cursor, tree, Step::Next),
    }
}

/// The place that the same call leads to, and what it gives.
fn make_step_in_list(keys: &[u64], place: usize, kind: u64) -> (usize, Seen) {
    if kind == 0 {
        return (0, None);
    }
    let next = moved(place, keys.len(), kind < 4);
    (next, placed(keys, next).filter(|_| next != place))
}

/// Sixty calls of a cursor, in no order, beside a place in a list of the keys: whether it walks along.
fn goes_along(leaf: &Leaf<u64, u64>, tree: &Tree, keys: &[u64], seed: &mut u64) -> bool {
    let mut cursor = Cursor::Rising(Iter::new(leaf));
    let mut place: usize = 0;
    let mut alike = true;
    for _ in 0..60u32 {
        let kind = drawn(seed) % 8;
        let (stepped, seen) = make_step(cursor, tree, kind);
        let (next, wanted) = make_step_in_list(keys, place, kind);
        let (here, is_there) = goes(stepped, tree, &[(Step::Get, placed(keys, next))]);
        cursor = here;
        place = next;
        alike = seen == wanted && is_there && alike;
    }
    let (last, first) = (alone(keys.last()), alone(keys.first()));
    let ends = [(Step::Last, last), (Step::Turn, None), (Step::Last, first)];
    goes(cursor, tree, &ends).1 && alike
}

/// The pairs of a tree, how many it has, and the numbers of those that are gone: from one on up to below another.
type Walk = (Pairs, u64, (u64, u64));

/// A cursor over the leaf of the first or of the last pair.
fn starts<'t>(tree: &'t Tree, walk: Walk, falls: bool) -> Option<Cursor<'t>> {
    let (pairs, count, _) = walk;
    let number = if falls { count.wrapping_sub(1) } else { 0 };
    let leaf = leaf_at(tree, pair_of(pairs, number).0)?;
    Some(if falls {
        Cursor::Falling(RevIter::new(leaf))
    } else {
        Cursor::Rising(Iter::new(leaf))
    })
}

/// Whether a cursor moves one way through all leaves of a tree, by jumps from leaf to leaf, and ends at the last pair.
fn jumps(tree: &Tree, walk: Walk, falls: bool) -> bool {
    let (pairs, count, gap) = walk;
    let Some(mut cursor) = starts(tree, walk, falls) else {
        return false;
    };
    let mut as_said = true;
    let mut pair = None;
    for turn in 0..count {
        let number = if falls { count - 1 - turn } else { turn };
        if number < gap.0 || gap.1 <= number {
            pair = Some(pair_of(pairs, number));
            let (next, as_wanted) = goes(cursor, tree, &[(Step::Cross, pair), (Step::Get, pair)]);
            cursor = next;
            as_said = as_wanted && as_said;
        }
    }
    let ends = [(Step::Next, None), (Step::Jump, None), (Step::Get, pair)];
    goes(cursor, tree, &ends).1 && as_said
}

/// Whether the way to each key of a gap, which is gone, leads to a leaf that has pairs.
fn leads_to_pairs(tree: &Tree, walk: Walk) -> bool {
    let (pairs, _, gap) = walk;
    let mut there = true;
    for number in gap.0..gap.1 {
        let (key, _) = pair_of(pairs, number);
        there = leaf_at(tree, key).is_some_and(|leaf| !leaf.array.is_empty()) && there;
    }
    there
}

/// Whether jumps go both ways through a tree of these pairs, over those that are gone.
fn jumps_through(alloc: Global, walk: Walk) -> bool {
    let (pairs, count, gap) = walk;
    let mut tree = empty(alloc);
    let taken = all(&mut tree, Fill, pairs, 0, count);
    let gone = all(&mut tree, Lose, pairs, gap.0, gap.1);
    let forth = jumps(&tree, walk, false);
    let back = jumps(&tree, walk, true);
    taken && gone && forth && back && leads_to_pairs(&tree, walk)
}

const WALKS: &[Walk] = &[
    (EACH, 150, (0, 0)),
    (EACH, 150, (40, 110)),
    (EVENS, 100, (20, 80)),
];

#[test]
fn jumps_go_over_keys_whose_leaves_left_the_tree(rt: HostRuntime) {
    for walk in WALKS {
        assert!(rt; jumps_through(rt.alloc(), *walk));
    }
}

// Jumps forth and back over emptied leaves alone, and what the cursor is at after each.
const STAYS: &[(Step, Seen)] = &[
    (Step::Jump, None),
    (Step::Get, None),
    (Step::Turn, None),
    (Step::Jump, None),
    (Step::Get, None),
];

#[test]
fn a_cursor_over_emptied_leaves_alone_stays(rt: HostRuntime) {
    let mut tree = empty(rt.alloc());
    let filled = all(&mut tree, Fill, EACH, 0, 40);
    let emptied = all(&mut tree, Lose, EACH, 0, 40);
    let Some(leaf) = leaf_at(&tree, 20) else {
        panic!(rt; "a tree keeps one leaf");
    };
    assert!(rt; filled && emptied && goes(Cursor::Rising(Iter::new(leaf)), &tree, STAYS).1);
}
