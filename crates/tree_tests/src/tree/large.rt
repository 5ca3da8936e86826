//! Trees of many pairs, which a tree that stops taking pairs doesn't pass.

use super::calls::Act::{Hold, Lack, Lose, Take};
use super::calls::Call::{All, Copy, Count, Equal, IsDeeper, Len, RemoveRange, Swap};
use super::calls::Numbers::Times;
use super::calls::Told::{Done, Is, Number};
use super::calls::{Call, EACH, Pairs, SAME, Told, first_other, first_other_of};
use std::ops::Bound;

// A key for each number, in no order and none twice: the factor is odd.
const GOLDEN: Pairs = Pairs(Times(0x9E3779B97F4A7C15, 0), SAME);

// Each thousandth of these pairs, and each thousandth from a million on.
const THOUSANDTHS: Pairs = Pairs(Times(0x8B37C993AF4B208, 0), Times(1000, 0));

const BEYOND_A_MILLION: Pairs = Pairs(
    Times(0x8B37C993AF4B208, 0xFD1EB68E4BD76F40),
    Times(1000, 1000000),
);

/// A million pairs are inserted and found.
const A_MILLION: &[(Call, Told)] = &[
    (All(Take, GOLDEN, 0, 1000000), Is(true)),
    (Len, Number(1000000)),
    (Count, Number(1000000)),
    (IsDeeper(6), Is(false)),
    (All(Hold, THOUSANDTHS, 0, 1000), Is(true)),
    (All(Lack, BEYOND_A_MILLION, 0, 1000), Is(true)),
];

// Each hundredth of these pairs, and each hundredth from a hundred thousand on.
const HUNDREDTHS: Pairs = Pairs(Times(0xCDAB8C75B9187834, 0), Times(100, 0));

const BEYOND_A_HUNDRED_THOUSAND: Pairs = Pairs(
    Times(0xCDAB8C75B9187834, 0x661CABDB07958B20),
    Times(100, 100000),
);

/// A hundred thousand pairs are cloned.
const A_HUNDRED_THOUSAND: &[(Call, Told)] = &[
    (All(Take, GOLDEN, 0, 100000), Is(true)),
    (Copy, Done),
    (Swap, Done),
    (Len, Number(100000)),
    (All(Hold, HUNDREDTHS, 0, 1000), Is(true)),
    (All(Lack, BEYOND_A_HUNDRED_THOUSAND, 0, 1000), Is(true)),
    (Equal, Is(true)),
    (All(Lose, GOLDEN, 99999, 100000), Is(true)),
    (Equal, Is(false)),
    (Swap, Done),
    (Len, Number(100000)),
];

/// A range of a hundred thousand pairs is removed.
const WITHOUT_A_RANGE: &[(Call, Told)] = &[
    (All(Take, EACH, 0, 100000), Is(true)),
    (
        RemoveRange(Bound::Included(1000), Bound::Excluded(99000)),
        Done,
    ),
    (Len, Number(2000)),
    (Count, Number(2000)),
    (All(Hold, EACH, 0, 1000), Is(true)),
    (All(Hold, EACH, 99000, 100000), Is(true)),
    (All(Lack, EACH, 1000, 99000), Is(true)),
];

#[test]
fn a_million_pairs_are_inserted_and_found(rt: HostRuntime) {
    assert_eq!(rt; first_other(rt.alloc(), A_MILLION), None);
}

#[test]
fn large_trees_answer_as_the_tables_say(rt: HostRuntime) {
    let tables = &[A_HUNDRED_THOUSAND, WITHOUT_A_RANGE];
    assert_eq!(rt; first_other_of(rt.alloc(), tables), None);
}
