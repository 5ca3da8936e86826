//! Trees that lose pairs: leaves that are emptied leave them, and so do nodes.

use super::calls::Act::{Fill, Lose};
use super::calls::Call::{
    All, Count, Depth, First, GoThrough, HasFewLeaves, IsDeeper, Last, Len, RefillInRounds,
    RemoveRange, Shrink, StirOften,
};
use super::calls::Numbers::{Modulo, Times};
use super::calls::Told::{Done, Is, Number, Pair};
use super::calls::{Call, EACH, Pairs, Told, all};
use super::each_call::{
    count_of, depth_of, empty, first_of, is_empty, iter_of, len_of, remove, upsert,
};
use super::{Tree, leaf_at};
use crate::numbers::stirred;
use std::alloc::Global;
use std::ops::Bound;

/// How many pairs a leaf has, and the numbers of the ones on both sides.
fn shape(tree: &Tree, key: u64) -> (usize, Option<usize>, Option<usize>) {
    match leaf_at(tree, key) {
        Some(leaf) => (leaf.array.len(), leaf.prev, leaf.next),
        None => (0, None, None),
    }
}

/// Walks along the leaves of a tree by its keys, and counts them. Each names the ones on both sides, and no
/// number is above `most`: two leaves apart name the one between them by the same number, so that none
/// without pairs is between them. Where a leaf doesn't, or the last one names another behind it, it gives
/// the greatest number.
fn leaves_of(tree: &Tree, most: usize) -> usize {
    let mut count = 0usize;
    let mut behind = None;
    let mut last = None;
    let mut in_leaf = 0usize;
    let mut linked = true;
    for (key, _) in iter_of(tree) {
        if in_leaf == 0 {
            let (len, prev, next) = shape(tree, *key);
            let named = prev.is_some() == (count > 0) && (count < 2 || prev == behind);
            let within = prev.unwrap_or(0) <= most && next.unwrap_or(0) <= most;
            linked = len > 0 && named && within && linked;
            in_leaf = len;
            behind = last;
            last = next;
            count = count.wrapping_add(1);
        }
        in_leaf = in_leaf.wrapping_sub(1);
    }
    if !linked || last.is_some() {
        return usize::MAX;
    }
    count
}

/// Whether there are this many leaves at most, none with a number above `number`.
pub(super) fn has_few_leaves(tree: &Tree, number: usize, most: usize) -> bool {
    leaves_of(tree, number) <= most
}

/// Whether no more leaves are there than pairs, and as many pairs as are counted.
fn is_lean(tree: &Tree, most: usize) -> bool {
    leaves_of(tree, most) <= len_of(tree) && count_of(tree) == len_of(tree)
}

/// Whether a tree of the keys below 1000 loses them, by this many at a step, is lean behind each fiftieth, and has one leaf
/// under one node left.
pub(super) fn shrink(alloc: Global, step: u64) -> bool {
    let mut tree = empty(alloc);
    let mut as_said = all(&mut tree, Fill, EACH, 0, 1000) && depth_of(&tree) > 1;
    for turn in 0..1000u64 {
        let key = turn.wrapping_mul(step) % 1000;
        as_said = all(&mut tree, Lose, EACH, key, key + 1) && as_said;
        if turn % 50 == 49 {
            as_said = is_lean(&tree, 1000) && as_said;
        }
    }
    as_said && is_empty(&tree) && depth_of(&tree) == 1 && first_of(&tree).is_none()
}

/// Whether the keys from 100 to 2999 come into a queue of a hundred, each as another is removed, which has no more leaves
/// then than it had, but one.
pub(super) fn go_through(queue: &mut Tree) -> bool {
    let most = leaves_of(queue, 8).saturating_add(1);
    let mut as_said = most < 100;
    for key in 100..3000u64 {
        let gone = all(queue, Lose, EACH, key - 100, key - 99);
        as_said = all(queue, Fill, EACH, key, key + 1) && gone && as_said;
        // ten pairs to a leaf are there at least, and a leaf that went gave its place to another
        if key % 100 == 99 {
            as_said = leaves_of(queue, 9) <= most && depth_of(queue) <= 2 && as_said;
        }
    }
    as_said
}

/// Upserts a hundred keys below 500 in no order, and removes up to four hundred.
fn stir(tree: &mut Tree, start: u64) -> u64 {
    let mut seed = start;
    for _ in 0..100u32 {
        seed = stirred(seed);
        let _ = upsert(tree, (seed >> 33) % 500, seed >> 8);
    }
    for _ in 0..400u32 {
        seed = stirred(seed);
        let _ = remove(tree, (seed >> 33) % 500);
    }
    seed
}

/// Whether each of twenty rounds leaves a tree lean.
pub(super) fn stir_often(tree: &mut Tree) -> bool {
    let mut seed = 11u64;
    let mut lean = true;
    for _ in 0..20u32 {
        seed = stir(tree, seed);
        lean = is_lean(tree, 500) && lean;
    }
    lean
}

/// Whether each of six rounds fills a tree with the keys below 200 in no order, each with the number of its round, and no more
/// leaves, and empties it.
pub(super) fn refill_in_rounds(tree: &mut Tree) -> bool {
    let mut as_said = true;
    for round in 0..6u64 {
        let pairs = Pairs(Modulo(7, 200), Times(0, round));
        let filled = all(tree, Fill, pairs, 0, 200) && has_few_leaves(tree, 40, 40);
        as_said = all(tree, Lose, pairs, 0, 200) && is_empty(tree) && filled && as_said;
    }
    as_said
}

pub(super) const TABLES: &[&[(Call, Told)]] = &[
    // leaves go with their pairs whatever the order: rising, falling, and in no order, as 1000 and 389 have no common divisor
    &[
        (Shrink(1), Is(true)),
        (Shrink(999), Is(true)),
        (Shrink(389), Is(true)),
    ],
    // a queue keeps no leaf of what went through it
    &[
        (All(Fill, EACH, 0, 100), Is(true)),
        (GoThrough, Is(true)),
        (Len, Number(100)),
        (First, Pair(Some((2900, !2900)))),
        (Last, Pair(Some((2999, !2999)))),
    ],
    // as many pairs go as come at random
    &[(StirOften, Is(true))],
    // a range takes its leaves along, in a tree of three levels at least, which is filled again then
    &[
        (All(Fill, EACH, 0, 5000), Is(true)),
        (IsDeeper(2), Is(true)),
        (
            RemoveRange(Bound::Included(20), Bound::Excluded(4990)),
            Done,
        ),
        (Len, Number(30)),
        // fifteen pairs to a leaf that rising keys filled: two on the left, of which one is cut, and one on the right
        (HasFewLeaves(400, 4), Is(true)),
        (RemoveRange(Bound::Unbounded, Bound::Excluded(4990)), Done),
        (Len, Number(10)),
        (Depth, Number(1)),
        (RemoveRange(Bound::Unbounded, Bound::Unbounded), Done),
        (Depth, Number(1)),
        (All(Fill, EACH, 0, 300), Is(true)),
        (Count, Number(300)),
    ],
    // a leaf that was freed takes new pairs, which take no more places than the first round took
    &[(RefillInRounds, Is(true))],
];
