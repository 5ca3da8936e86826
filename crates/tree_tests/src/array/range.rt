//! Removal of ranges.

use super::calls::Call::{Freeze, IsRetired, LastRemoved, Len, Metadata, RemoveRange};
use super::calls::Told::{Done, Is, Number, Part};
use super::calls::{Call, Table};
use super::holding;
use std::ops::Bound;

#[test]
fn a_range_leaves_the_keys_outside(rt: HostRuntime) {
    for pair in 0..225u64 {
        let (low, high) = (pair / 15, pair % 15);
        let mut array = holding(&[1, 2, 3, 4, 5, 6, 7, 8, 9, 10, 11, 12, 13]);
        array.remove_range(Bound::Included(&low), Bound::Excluded(&high));
        for key in 1..14u64 {
            let outside = key < low || high <= key;
            assert!(rt; array.search_val(&key).is_some() == outside);
        }
    }
}

const ALL: Call = RemoveRange(Bound::Unbounded, Bound::Unbounded);

pub(super) const TABLES: &[Table] = &[
    // a range of all keys retires no frozen array
    (
        &[1, 2],
        &[
            (Freeze, Number(0x210)),
            (RemoveRange(Bound::Unbounded, Bound::Included(1)), Done),
            (Len, Number(1)),
            (ALL, Done),
            (IsRetired, Is(false)),
        ],
    ),
    // it retires one that is not frozen
    (
        &[1, 2],
        &[
            (RemoveRange(Bound::Excluded(0), Bound::Unbounded), Done),
            (IsRetired, Is(true)),
        ],
    ),
    // it retires none without pairs
    (&[], &[(ALL, Done), (IsRetired, Is(false))]),
    // a removed range leaves the ranks of others
    (
        &[10, 20, 30, 40],
        &[
            (RemoveRange(Bound::Included(20), Bound::Included(30)), Done),
            (LastRemoved, Part(Some(30))),
            // slots 1 and 0 have the ranks 1 and 4
            (Metadata, Number(0x14)),
        ],
    ),
];
