//! Insertions and removals of single pairs by example, and beside a plain list.

use super::ASCENDING;
use super::calls::Call::{
    Bury, Freeze, Insert, IsEmpty, IsFrozen, IsFull, IsRetired, LastRemoved, Len, LowerBound,
    LowerPair, Metadata, MinGreaterEqual, MinWord, NewFrozen, Pack, Pair, PushLast, Put, PutOver,
    Remove, SearchVal, Unfreeze, Upsert,
};
use super::calls::Told::{Done, Duplicate, Full, Is, Number, Part, Removed};
use super::calls::{Table, Told, make};
use super::plain::{Write, written};
use crate::numbers::{read, stirred};
use leaf_array::{Array, RemoveResult, plain};
use std::alloc::{AllocError, Global};

const REMOVED: Told = Removed(RemoveResult::Success);

pub(super) const TABLES: &[Table] = &[
    // a removed pair keeps its place
    (
        ASCENDING,
        &[
            (Remove(3), REMOVED),
            (Len, Number(14)),
            (IsFull, Is(true)),
            (Insert(20, 20), Full(20, 20)),
        ],
    ),
    // the key removed last is kept until it is packed
    (
        &[10, 20, 30],
        &[
            (LastRemoved, Part(None)),
            (Remove(30), REMOVED),
            (Remove(10), REMOVED),
            (LastRemoved, Part(Some(10))),
            (Upsert(20, 7), Done),
            (LastRemoved, Part(Some(20))),
            (Pack, Done),
            (LastRemoved, Part(None)),
        ],
    ),
    // an upsert takes a place too
    (
        &[0, 1, 2, 3, 4, 5, 6, 7, 8, 9, 10, 11, 12, 13],
        &[
            (IsFull, Is(false)),
            (Upsert(0, 9), Done),
            (IsFull, Is(true)),
            (SearchVal(0), Part(Some(9))),
            (Len, Number(14)),
            (Insert(20, 20), Full(20, 20)),
            (Upsert(0, 10), Full(0, 10)),
        ],
    ),
    // what is put over a pair takes no place, and what isn't put changes nothing
    (
        &[0, 1, 2, 3, 4, 5, 6, 7, 8, 9, 10, 11, 12, 13],
        &[
            (Put(3, 9), Duplicate(3, 9)),
            (SearchVal(3), Part(Some(3))),
            (PutOver(3, 9), Done),
            (SearchVal(3), Part(Some(9))),
            (IsFull, Is(false)),
            (Put(14, 14), Done),
            (IsFull, Is(true)),
            (Put(20, 20), Full(20, 20)),
            (PutOver(20, 20), Full(20, 20)),
            (Put(3, 7), Duplicate(3, 7)),
            (PutOver(3, 7), Done),
            (Len, Number(15)),
            (SearchVal(3), Part(Some(7))),
            (SearchVal(20), Part(None)),
        ],
    ),
    // an array without its last pair retires
    (
        &[5],
        &[
            (Remove(6), Removed(RemoveResult::Fail)),
            (Remove(5), Removed(RemoveResult::Retired)),
            (IsRetired, Is(true)),
            (IsEmpty, Is(true)),
            (IsFull, Is(true)),
            (Insert(5, 5), Full(5, 5)),
            (Put(5, 5), Full(5, 5)),
            (PutOver(5, 5), Full(5, 5)),
            (Metadata, Number(0x4000000000000000)),
            (Pack, Done),
            (Insert(5, 5), Done),
        ],
    ),
    // a frozen array keeps its pairs
    (
        &[1, 2],
        &[
            // slots 1 and 2 have the ranks 1 and 2
            (Freeze, Number(0x210)),
            (IsFrozen, Is(true)),
            (Metadata, Number(0x8000000000000210)),
            (Remove(1), Removed(RemoveResult::Frozen)),
            (Insert(1, 7), Full(1, 7)),
            (Upsert(3, 7), Full(3, 7)),
            (Put(1, 7), Full(1, 7)),
            (PutOver(1, 7), Full(1, 7)),
            (PutOver(3, 7), Full(3, 7)),
            (Metadata, Number(0x8000000000000210)),
            (SearchVal(1), Part(Some(1))),
            (Unfreeze, Done),
            (Insert(3, 7), Done),
            (Remove(1), REMOVED),
            // slot 3 came third, and what is removed leaves the other ranks
            (Metadata, Number(0x3200)),
            (NewFrozen, Done),
            (Insert(1, 1), Full(1, 1)),
            (Unfreeze, Done),
            (Insert(1, 1), Done),
        ],
    ),
    // a new pair pushes the greater ranks up
    (
        &[10, 30],
        &[
            (Metadata, Number(0x210)),
            (Insert(20, 20), Done),
            // slot 3 between slots 1 and 2
            (Metadata, Number(0x2310)),
            (Upsert(10, 11), Done),
            // slot 0 has the rank of slot 1
            (Metadata, Number(0x2301)),
            (MinGreaterEqual(11), Part(Some(20))),
            (MinWord(11), Number(0x2301)),
            (MinGreaterEqual(31), Part(None)),
            (MinWord(31), Number(0x2301)),
            (LowerBound(11), Number(1)),
            (LowerPair(11), Told::Pair(Some((20, 20)))),
            (LowerBound(31), Number(3)),
            (LowerPair(31), Told::Pair(None)),
        ],
    ),
    // pairs are pushed at the end
    (
        &[1, 3],
        &[
            (Remove(3), REMOVED),
            (PushLast(7, 70), Done),
            (Pair(1), Told::Pair(Some((7, 70)))),
            // slot 3 has the rank behind that of slot 1
            (Metadata, Number(0x2010)),
        ],
    ),
    // the pair behind one other is removed
    (
        &[10, 20, 30],
        &[
            (Bury(1), Done),
            (Len, Number(2)),
            (SearchVal(20), Part(None)),
            (SearchVal(30), Part(Some(30))),
            (LastRemoved, Part(Some(20))),
        ],
    ),
];

/// Whether an array answers to a write as a list says in which the key is, or isn't, there.
fn answers(array: &mut Array<u64, u64>, write: Write, there: bool) -> bool {
    match write {
        Write::Remove(key) => { (make(array, Remove(key)) != Removed(RemoveResult::Fail)) == there }
        Write::Upsert(key, val) => make(array, Upsert(key, val)) == Done,
        Write::Insert(key, val) => {
            let wanted = if there { Duplicate(key, val) } else { Done };
            make(array, Insert(key, val)) == wanted
        }
    }
}

/// Makes a write in an array and in a plain list. Returns whether the array answers as the list says; one that is full is
/// packed, and takes no pair if it is full then.
fn act(
    alloc: Global,
    array: &mut Array<u64, u64>,
    list: &mut Vec<(u64, u64)>,
    (kind, key, val): (u64, u64, u64),
) -> Result<bool, AllocError> {
    if kind != 0 && array.is_full() {
        array.pack();
        if array.is_full() {
            return Ok(true);
        }
    }
    let there = plain::contains_key(list.as_slice(), &key);
    let write = match kind {
        0 => Write::Remove(key),
        1 => Write::Upsert(key, val),
        _ => Write::Insert(key, val),
    };
    *list = written(alloc, list.as_slice(), write)?;
    Ok(answers(array, write, there))
}

/// Whether an array has the pairs of a list, and finds in it what the list has at this key.
fn is_listed(array: &Array<u64, u64>, list: &[(u64, u64)], key: u64) -> bool {
    let mut same = true;
    for at in 0..15usize {
        same = read(array.pair(at)) == list.get(at).copied() && same;
    }
    let found = array.search_val(&key) == plain::find_value(list, &key);
    same && found && array.len() == list.len()
}

#[test]
fn random_calls_answer_as_a_plain_list_does(rt: HostRuntime) {
    let mut array: Array<u64, u64> = Array::new();
    let mut list: Vec<(u64, u64)> = Vec::new(rt.alloc());
    let mut seed = 1;
    for _ in 0..300u32 {
        seed = stirred(seed);
        let key = (seed >> 33) % 20;
        let call = ((seed >> 59) % 4, key, (seed >> 40) % 1000);
        let answered = act(rt.alloc(), &mut array, &mut list, call) == Ok(true);
        assert!(rt; answered && is_listed(&array, list.as_slice(), key));
    }
}
