//! Insertions and removals by slot.

use super::calls::Call::{
    Freeze, Insert, InsertBySlot, IsRetired, Len, Metadata, Remove, RemoveSlot, SearchVal,
};
use super::calls::Table;
use super::calls::Told::{Done, Is, Number, Part, Removed};
use leaf_array::{Array, InsertResult, RemoveResult};
use std::ops::Bound;

#[test]
fn a_slot_shows_its_pair_and_keeps_it(rt: HostRuntime) {
    let mut array: Array<u64, u64> = Array::new();
    let InsertResult::Success = array.insert::<false>(5, 50) else {
        panic!(rt; "it has a place");
    };
    // the lowest bitmap place has slot 1
    let there = *array.key(1) == 5 && *array.val(1) == 50;
    array.remove_range(Bound::Unbounded, Bound::Unbounded);
    assert!(rt; there && *array.key(1) == 5 && *array.val(1) == 50);
}

/// Puts a pair behind all others of a frozen array, at a place. Answers 15 where it can't.
pub(super) fn put_at(array: &mut Array<u64, u64>, key: u64, val: u64, place: u8) -> u8 {
    if !array.is_frozen() || array.used() == 15 || array.used() != place {
        return 15;
    }
    if array.lower_bound(&key).0 != array.len() {
        return 15;
    }
    array.insert_unchecked(key, val, place, 0)
}

pub(super) const TABLES: &[Table] = &[
    // a dry run says where a pair would be put
    (
        &[],
        &[
            // the bitmap places 0 to 5 have the slots 1, 2, 3, 0, 5, 6
            (InsertBySlot(3, 3), Number(1)),
            (InsertBySlot(2, 2), Number(2)),
            (InsertBySlot(1, 1), Number(3)),
            (InsertBySlot(7, 7), Number(0)),
            (InsertBySlot(6, 6), Number(5)),
            (InsertBySlot(5, 5), Number(6)),
            (SearchVal(1), Part(Some(1))),
            (SearchVal(2), Part(Some(2))),
            (SearchVal(3), Part(Some(3))),
            (SearchVal(5), Part(Some(5))),
            (SearchVal(6), Part(Some(6))),
            (SearchVal(7), Part(Some(7))),
            (Len, Number(6)),
            // slots 0 to 6, the lowest one first: 7, 3, 2, 1, none, 6, 5
            (Metadata, Number(0x4501236)),
        ],
    ),
    // a removed slot leaves the other ranks
    (
        &[10, 20],
        &[
            (RemoveSlot(1), Removed(RemoveResult::Success)),
            (Metadata, Number(0x200)),
            // the least pair has rank 2, so a lesser one takes rank 1
            (InsertBySlot(5, 5), Number(3)),
            (Metadata, Number(0x1300)),
            (RemoveSlot(3), Removed(RemoveResult::Success)),
            (RemoveSlot(3), Is(false)),
            (RemoveSlot(2), Removed(RemoveResult::Retired)),
        ],
    ),
    // so it does in a frozen array, which does not retire
    (
        &[10],
        &[
            (Freeze, Number(0x10)),
            (RemoveSlot(1), Removed(RemoveResult::Success)),
            (IsRetired, Is(false)),
        ],
    ),
    // an insertion by place opens a retired array
    (
        &[5],
        &[
            (Remove(5), Removed(RemoveResult::Retired)),
            // slot 1 keeps the removed pair
            (InsertBySlot(6, 60), Number(2)),
            (IsRetired, Is(false)),
            (Metadata, Number(0x100)),
            (Insert(7, 70), Done),
        ],
    ),
];
