//! Arrays cut in two.

use super::calls::Call::{Pair, PopLast, Remove};
use super::calls::Told::Removed;
use super::calls::{Table, Told, make};
use super::{DESCENDING, holding};
use leaf_array::{Array, RemoveResult};

/// The keys in their order, each a hexadecimal digit, and the word of an array.
fn shown(array: &Array<u64, u64>) -> (u64, usize) {
    let digits = array.fold(
        0u64,
        |made, key, _| made.wrapping_mul(16).wrapping_add(*key),
    );
    (digits, array.metadata())
}

/// An array of the keys up to 14 without 9, which came in the reverse order.
fn without_nine() -> Array<u64, u64> {
    let mut array = holding(DESCENDING);
    let _removed = make(&mut array, Remove(9));
    array
}

/// Whether an array is halved by moves.
fn is_halved() -> bool {
    let mut upper = without_nine();
    let len = upper.len();
    let lower = upper.split_half();
    let cut = len == 14 && lower.len() == 8 && upper.len() == 6;
    cut && shown(&lower).0 == 0x01234567 && shown(&upper) == (0x8ABCDE, 0x6503214)
}

const LEFT: [u64; 14] = [0, 1, 2, 3, 4, 5, 6, 7, 8, 10, 11, 12, 13, 14];

/// Whether an array is cut behind its first `at` pairs, so that both parts are as if their keys had come by themselves,
/// in their order.
fn is_cut(at: usize) -> bool {
    let mut lower = without_nine();
    if at > lower.len() {
        return false;
    }
    let upper = lower.split_off(at);
    let (first, rest) = LEFT.split_at(at.min(14));
    shown(&lower) == shown(&holding(first)) && shown(&upper) == shown(&holding(rest))
}

#[test]
fn an_array_is_cut_at_each_boundary(rt: HostRuntime) {
    let mut cut = is_halved();
    for at in 0..15usize {
        cut = is_cut(at) && cut;
    }
    assert!(rt; cut);
}

pub(super) const TABLES: &[Table] = &[
    // the greatest pair is taken out
    (
        &[3, 1, 2],
        &[
            (Remove(2), Removed(RemoveResult::Success)),
            (PopLast, Told::Pair(Some((3, 3)))),
            (Pair(0), Told::Pair(Some((1, 1)))),
            (Pair(1), Told::Pair(None)),
            (Pair(15), Told::Pair(None)),
            (PopLast, Told::Pair(Some((1, 1)))),
            (PopLast, Told::Pair(None)),
        ],
    ),
];
