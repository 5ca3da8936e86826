//! Where an array is best cut.

use super::{ASCENDING, DESCENDING, holding};
use leaf_array::{DIMENSION, Dimension};

/// Keys in the order in which they come, and the boundary of an array of them.
type Row = (&'static [u64], (u8, usize, bool));

const FALLING_THEN_RISING: &[u64] = &[7, 6, 5, 4, 3, 2, 1, 0, 8, 9, 10, 11, 12, 13, 14];

const MIXED: &[u64] = &[1, 0, 2, 3, 4, 6, 5, 7, 9, 8, 11, 10, 12, 14, 13];

const MIXED_BACK: &[u64] = &[13, 14, 12, 10, 11, 8, 9, 7, 5, 6, 4, 3, 2, 0, 1];

const ONE_SWAPPED: &[u64] = &[0, 1, 2, 3, 4, 5, 6, 7, 9, 8, 10, 11, 12, 13, 14];

const ONE_SWAPPED_BACK: &[u64] = &[14, 13, 12, 11, 10, 8, 9, 7, 6, 5, 4, 3, 2, 1, 0];

const TWO_SWAPPED: &[u64] = &[0, 1, 2, 3, 4, 5, 6, 7, 9, 8, 11, 10, 12, 13, 14];

const TWO_SWAPPED_BACK: &[u64] = &[14, 13, 12, 10, 11, 8, 9, 7, 6, 5, 4, 3, 2, 1, 0];

const SIX_SWAPPED: &[u64] = &[1, 0, 3, 2, 4, 6, 5, 7, 9, 8, 11, 10, 12, 14, 13];

const SIX_SWAPPED_BACK: &[u64] = &[13, 14, 12, 10, 11, 8, 9, 7, 5, 6, 4, 2, 3, 0, 1];

const GREATEST: &[u64] = &[
    u64::MAX,
    u64::MAX - 1,
    u64::MAX - 2,
    u64::MAX - 3,
    u64::MAX - 4,
    u64::MAX - 5,
    u64::MAX - 6,
    7,
    8,
    9,
    10,
    11,
    12,
    13,
    14,
];

const ELEVEN: &[u64] = &[0, 1, 2, 3, 4, 5, 6, 7, 8, 9, 10];

const ROWS: &[Row] = &[
    // the boundary follows the order of insertion
    (ASCENDING, (14, 15, true)),
    (DESCENDING, (1, 15, false)),
    (FALLING_THEN_RISING, (7, 15, false)),
    (MIXED, (9, 15, false)),
    (MIXED_BACK, (6, 15, false)),
    // a few swapped keys move it
    (ONE_SWAPPED, (13, 15, false)),
    (ONE_SWAPPED_BACK, (2, 15, false)),
    (TWO_SWAPPED, (12, 15, false)),
    (TWO_SWAPPED_BACK, (3, 15, false)),
    (SIX_SWAPPED, (8, 15, false)),
    (SIX_SWAPPED_BACK, (7, 15, false)),
    // the greatest keys of all have one
    (GREATEST, (7, 15, false)),
    // few pairs have none
    (ELEVEN, (15, 11, false)),
];

#[test]
fn the_boundary_follows_the_order_of_insertion(rt: HostRuntime) {
    // an array has fifteen places of four bits
    assert!(rt; DIMENSION == Dimension { len: 15, bits: 4 });
    for (keys, wanted) in ROWS {
        let array = holding(keys);
        let found = array.len() == keys.len() && array.optimal_boundary() == *wanted;
        assert!(rt; found, "{keys:?}");
    }
}
