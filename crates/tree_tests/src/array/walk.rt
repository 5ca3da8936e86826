//! Calls that lend pairs and slots to closures.

use super::calls::Call::{Insert, Len, Remove, SearchVal, Unfreeze};
use super::calls::Told::{Done, Full, Number, Part, Removed};
use super::calls::{Call, Told, first_other, make};
use super::holding;
use super::slot::put_at;
use crate::numbers::lacks_three;
use leaf_array::{Array, RemoveResult};

/// Deals the pairs below 20 to `low` at their place, and the others to `high` four places lower. Gives
/// what the preparation was called with, and how many pairs found no place.
fn deal(
    array: &mut Array<u64, u64>,
    low: &mut Array<u64, u64>,
    high: &mut Array<u64, u64>,
) -> ((u8, usize, bool), u8) {
    let mut told = (0, 0, true);
    let mut refused: u8 = 0;
    if array.is_frozen() {
        return (told, 15);
    }
    let done = array.distribute(
        |boundary, len, ordered| {
            told = (boundary, len, ordered);
            true
        },
        |key, val, boundary, place| {
            let slot = if *key < 20 {
                put_at(low, *key, *val, place)
            } else {
                put_at(high, *key, *val, place.saturating_sub(4))
            };
            if slot == 15 || boundary != 15 {
                refused = refused.saturating_add(1);
            }
        },
    );
    (told, if done { refused } else { 15 })
}

/// An array to be dealt out: not in the order of its keys, and with one value.
fn mixed() -> Array<u64, u64> {
    let mut array = Array::new();
    for key in [11u64, 19, 32, 20, 1, 0] {
        let _inserted = array.insert::<false>(key, 17);
    }
    array
}

const LOW: &[(Call, Told)] = &[
    (Insert(5, 5), Full(5, 5)),
    (Unfreeze, Done),
    (Len, Number(4)),
    (SearchVal(0), Part(Some(17))),
    (SearchVal(1), Part(Some(17))),
    (SearchVal(11), Part(Some(17))),
    (SearchVal(19), Part(Some(17))),
];

const HIGH: &[(Call, Told)] = &[
    (Unfreeze, Done),
    (Len, Number(2)),
    (SearchVal(20), Part(Some(17))),
    (SearchVal(32), Part(Some(17))),
    (Insert(5, 5), Done),
];

const GONE: Told = Removed(RemoveResult::Success);

const DEALT_OUT: &[(Call, Told)] = &[
    (Insert(1, 0), Full(1, 0)),
    (Insert(3, 0), Full(3, 0)),
    (Remove(17), Removed(RemoveResult::Frozen)),
    (Unfreeze, Done),
    (Insert(3, 7), Done),
    (Remove(0), GONE),
    (Remove(1), GONE),
    (Remove(3), GONE),
    (Remove(11), GONE),
    (Remove(19), GONE),
    (Remove(20), GONE),
    (Remove(32), Removed(RemoveResult::Retired)),
    (Insert(5, 5), Full(5, 5)),
];

#[test]
fn a_distributed_array_gives_its_pairs_to_others_and_stays_frozen(rt: HostRuntime) {
    let mut old = mixed();
    let mut low: Array<u64, u64> = Array::new_frozen();
    let mut high: Array<u64, u64> = Array::new_frozen();
    let dealt = deal(&mut old, &mut low, &mut high) == ((15, 6, false), 0);
    let others = [
        first_other(&mut low, LOW),
        first_other(&mut high, HIGH),
        first_other(&mut old, DEALT_OUT),
    ];
    assert!(rt; dealt && others == [None; 3]);
}

const CHANGED: &[(Call, Told)] = &[
    (Insert(3, 7), Done),
    (Remove(1), Removed(RemoveResult::Success)),
];

#[test]
fn a_showing_tells_removed_pairs_from_others(rt: HostRuntime) {
    let mut array = mixed();
    let other = first_other(&mut array, CHANGED);
    let mut gone: u64 = 0;
    let mut there: u64 = 0;
    let shown = array.for_each_all(
        |frozen, retired| !frozen && !retired,
        |_, rank, pair, removed| {
            match pair {
                Some((key, _)) if removed && rank == 0 => gone = gone.saturating_add(*key),
                Some(_) => there = there.saturating_add(1),
                None => return Err(()),
            }
            Ok(())
        },
    );
    assert!(rt; other.is_none() && shown.is_ok() && gone == 1 && there == 6);
}

#[test]
fn a_refused_preparation_distributes_nothing(rt: HostRuntime) {
    let mut array = holding(&[1, 2]);
    let mut dealt: u8 = 0;
    let mut done = true;
    if !array.is_frozen() {
        done = array.distribute(
            |_, _, _| false,
            |_, _, _, _| dealt = dealt.saturating_add(1),
        );
    }
    assert!(rt; !done && dealt == 0 && array.is_frozen());
}

// The conditions and functions of this test and the next may be called at numbers up to 5 alone, so each call
// is proved because it calls them where it says, and nowhere else.
#[test]
fn what_may_be_called_at_few_values_serves(rt: HostRuntime) {
    let mut frozen: Array<u64, u64> = Array::new_frozen();
    let kept = frozen.remove_if(&1, lacks_three);
    let mut array: Array<u64, u64> = Array::new();
    let absent = array.remove_if(&1, lacks_three);
    let folded = array.fold(7, |made, key, _| made + (5 - *key));
    assert!(rt; kept == RemoveResult::Frozen && absent == RemoveResult::Fail && folded == 7);
}

#[test]
fn what_may_be_shown_few_slots_serves(rt: HostRuntime) {
    let mut array: Array<u64, u64> = Array::new();
    let mut left: u8 = 0;
    array.for_each_pos(|frozen| frozen, |slot| left = 5 - slot);
    let shown: Result<(), ()> = array.for_each_all(
        |_, _| true,
        |slot, _, _, _| {
            left = 5 - slot;
            Ok(())
        },
    );
    let dealt = array.distribute(|_, len, _| 5 - len < 5, |_, _, _, place| left = 5 - place);
    assert!(rt; shown.is_ok() && !dealt && left == 0);
}

#[test]
fn reachable_slots_are_shown_rising(rt: HostRuntime) {
    let mut array = holding(&[10, 20, 30, 40, 50]);
    let gone = make(&mut array, Remove(20)) == GONE;
    // each slot a hexadecimal digit
    let mut open: u64 = 0;
    let mut frozen: u64 = 0;
    array.for_each_pos(
        |frozen| !frozen,
        |slot| open = open.wrapping_mul(16).wrapping_add(u64::from(slot)),
    );
    array.for_each_pos(|frozen| frozen, |slot| frozen = u64::from(slot));
    // slot 2 had the removed pair
    assert!(rt; gone && (open, frozen) == (0x135, 0));
}

#[test]
fn the_first_error_ends_a_showing(rt: HostRuntime) {
    let array = holding(&[10, 20, 30]);
    let mut calls: u8 = 0;
    let shown = array.for_each_all(
        |_, _| true,
        |slot, _, _, _| {
            calls = calls.saturating_add(1);
            if slot == 2 { Err(slot) } else { Ok(()) }
        },
    );
    let unasked = array.for_each_all(|_, _| false, |slot, _, _, _| Err(slot));
    assert!(rt; shown.err() == Some(2) && calls == 2 && unasked.is_ok());
}

#[test]
fn a_fold_goes_through_the_pairs_by_key(rt: HostRuntime) {
    let mut array = holding(&[4, 3, 2, 1]);
    let gone = make(&mut array, Remove(3)) == GONE;
    let digits = array.fold(0u64, |made, key, val| {
        made.wrapping_mul(100)
            .wrapping_add(key.wrapping_mul(10))
            .wrapping_add(*val)
    });
    assert!(rt; gone && digits == 112244);
}
