//! Removal of ranges by example, and beside a map of std.

use super::Tree;
use super::calls::Act::Fill;
use super::calls::Call::{All, Contains, Len, RemoveRange};
use super::calls::Told::{Done, Is, Number};
use super::calls::{Call, EACH, Told, all, make};
use super::each_call::{count_of, empty, len_of, upsert, val_of};
use crate::numbers::stirred;
use std::alloc::AllocError;
use std::collections::BTreeMap;
use std::ops::{Bound, RangeBounds};

/// A range is removed, and its edges are kept.
pub(super) const EDGES: &[(Call, Told)] = &[
    (All(Fill, EACH, 1, 8), Is(true)),
    (RemoveRange(Bound::Included(3), Bound::Excluded(8)), Done),
    (Contains(2), Is(true)),
    (Contains(3), Is(false)),
    (Len, Number(2)),
];

#[test]
fn each_range_of_thirteen_keys_leaves_the_keys_outside(rt: HostRuntime) {
    for pair in 0..225u64 {
        let (low, high) = (pair / 15, pair % 15);
        let mut tree = empty(rt.alloc());
        let filled = all(&mut tree, Fill, EACH, 1, 14);
        let range = RemoveRange(Bound::Included(low), Bound::Excluded(high));
        assert!(rt; filled && make(&mut tree, range) == Done);
        for key in 1..14u64 {
            let outside = key < low || high <= key;
            assert!(rt; val_of(&tree, key).is_some() == outside);
        }
    }
}

/// Whether a key lies within bounds.
pub(super) fn is_within(key: u64, lower: Bound<u64>, upper: Bound<u64>) -> bool {
    (lower, upper).contains(&key)
}

/// A bound from a random number, for keys up to 400.
fn bound_of(seed: u64) -> Bound<u64> {
    match seed % 5 {
        0 => Bound::Unbounded,
        1 | 2 => Bound::Included(seed / 5 % 410),
        _ => Bound::Excluded(seed / 5 % 410),
    }
}

/// Removes a range from a map, and returns whether a tree then has the pairs of the map, of keys below 400.
fn is_alike(
    tree: &Tree,
    map: &mut BTreeMap<u64, u64>,
    lower: Bound<u64>,
    upper: Bound<u64>,
) -> bool {
    let mut alike = true;
    for key in 0..400u64 {
        if is_within(key, lower, upper) {
            let _ = map.remove(&key);
        }
        alike = val_of(tree, key) == map.get(&key).copied() && alike;
    }
    alike && len_of(tree) == map.len() && count_of(tree) == map.len()
}

/// Upserts eighty random keys below 400 in a tree and in a map.
fn stir_both(
    tree: &mut Tree,
    map: &mut BTreeMap<u64, u64>,
    seed: &mut u64,
) -> Result<(), AllocError> {
    for _ in 0..80u32 {
        *seed = stirred(*seed);
        let _ = upsert(tree, (*seed >> 33) % 400, *seed >> 8);
        map.insert((*seed >> 33) % 400, *seed >> 8)?;
    }
    Ok(())
}

#[test]
fn random_ranges_leave_what_they_leave_of_a_map(rt: HostRuntime) {
    let mut tree = empty(rt.alloc());
    let mut map = BTreeMap::new(rt.alloc());
    let mut seed = 5u64;
    for _ in 0..60u32 {
        let stirs = stir_both(&mut tree, &mut map, &mut seed).is_ok();
        seed = stirred(seed);
        let (lower, upper) = (bound_of(seed >> 20), bound_of(seed >> 42));
        let removed = make(&mut tree, RemoveRange(lower, upper)) == Done;
        assert!(rt; stirs && removed && is_alike(&tree, &mut map, lower, upper));
    }
}
