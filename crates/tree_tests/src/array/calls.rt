//! Calls of an array as data, so that a test of many calls is a table: each call with what it answers.

use super::{cut, edit, holding, range, slot};
use crate::numbers::{always, read};
use leaf_array::{Array, InsertResult, RemoveResult};
use std::ops::Bound;

/// A call of an array of numbers.
#[derive(Clone, Copy)]
pub(super) enum Call {
    Insert(u64, u64),
    Upsert(u64, u64),
    /// The same by the call by which an upsert takes no place.
    Put(u64, u64),
    PutOver(u64, u64),
    /// A removal on a condition that holds, and one on a condition that doesn't.
    Remove(u64),
    Spare(u64),
    RemoveRange(Bound<u64>, Bound<u64>),
    /// An insertion by the place and word of a dry run, and a removal by slot.
    InsertBySlot(u64, u64),
    RemoveSlot(u8),
    PushLast(u64, u64),
    PopLast,
    Bury(usize),
    Pack,
    Freeze,
    Unfreeze,
    /// The array is a new one that takes no write.
    NewFrozen,
    Len,
    IsEmpty,
    IsFull,
    IsRetired,
    IsFrozen,
    Metadata,
    LastRemoved,
    SearchVal(u64),
    /// The value of the least key from this one on, and the word that is told with it.
    MinGreaterEqual(u64),
    MinWord(u64),
    /// The place of the first pair from this key on, and that pair.
    LowerBound(u64),
    LowerPair(u64),
    Pair(usize),
}

/// What a call answers.
#[derive(Clone, Copy, PartialEq, Eq)]
pub(super) enum Told {
    Done,
    /// An insertion is refused, and gives the pair back.
    Duplicate(u64, u64),
    Full(u64, u64),
    Removed(RemoveResult),
    /// It is so; it isn't, or what the call requires isn't met.
    Is(bool),
    Number(usize),
    /// A key or a value.
    Part(Option<u64>),
    Pair(Option<(u64, u64)>),
}

fn inserted(told: InsertResult<u64, u64>) -> Told {
    match told {
        InsertResult::Success => Told::Done,
        InsertResult::Duplicate(key, val) => Told::Duplicate(key, val),
        InsertResult::Full(key, val) => Told::Full(key, val),
    }
}

/// Inserts a new pair by the place and word that a dry run gives, and returns its slot.
fn insert_by_slot(array: &mut Array<u64, u64>, key: u64, val: u64) -> Told {
    if array.used() == 15 {
        return Told::Is(false);
    }
    match array.search_entry(&key) {
        Some(_) => return Told::Is(false),
        None => {},
    }
    let (place, word) = array.insert_dry(&key);
    if word == 0 {
        return Told::Is(false);
    }
    let slot = array.insert_unchecked(key, val, place, word);
    if array.metadata() == word {
        Told::Number(usize::from(slot))
    } else {
        Told::Is(false)
    }
}

/// A call that changes nothing.
fn look(array: &Array<u64, u64>, call: Call) -> Told {
    match call {
        Call::Len => Told::Number(array.len()),
        Call::IsEmpty => Told::Is(array.is_empty()),
        Call::IsFull => Told::Is(array.is_full()),
        Call::IsRetired => Told::Is(array.is_retired()),
        Call::IsFrozen => Told::Is(array.is_frozen()),
        Call::Metadata => Told::Number(array.metadata()),
        Call::LastRemoved => Told::Part(array.last_removed().copied()),
        Call::SearchVal(key) => Told::Part(array.search_val(&key).copied()),
        Call::MinGreaterEqual(key) => Told::Part(array.min_greater_equal(&key).0.copied()),
        Call::MinWord(key) => Told::Number(array.min_greater_equal(&key).1),
        Call::LowerBound(key) => Told::Number(array.lower_bound(&key).0),
        Call::LowerPair(key) => Told::Pair(read(array.lower_bound(&key).1)),
        Call::Pair(at) => Told::Pair(read(array.pair(at))),
        _ => Told::Is(false),
    }
}

/// A call that answers nothing, if what it requires is met.
fn act(array: &mut Array<u64, u64>, call: Call) -> Told {
    match call {
        Call::RemoveRange(low, high) => array.remove_range(low.as_ref(), high.as_ref()),
        Call::PushLast(key, val)
            if array.used() != 15 && array.lower_bound(&key).0 == array.len() => array.push_last(
            key, val,
        ),
        Call::Bury(at) if at < array.len() => array.bury(at),
        Call::Pack => array.pack(),
        Call::Unfreeze if array.is_frozen() => array.unfreeze(),
        Call::NewFrozen => *array = Array::new_frozen(),
        _ => return look(array, call),
    }
    Told::Done
}

/// Makes a call.
pub(super) fn make(array: &mut Array<u64, u64>, call: Call) -> Told {
    match call {
        Call::Insert(key, val) => inserted(array.insert::<false>(key, val)),
        Call::Upsert(key, val) => inserted(array.insert::<true>(key, val)),
        Call::Put(key, val) => inserted(array.put::<false>(key, val)),
        Call::PutOver(key, val) => inserted(array.put::<true>(key, val)),
        Call::Remove(key) => Told::Removed(array.remove_if(&key, always)),
        Call::Spare(key) => Told::Removed(array.remove_if(&key, |_| false)),
        Call::InsertBySlot(key, val) => insert_by_slot(array, key, val),
        Call::RemoveSlot(slot) if array.rank_of(slot) != 0 => Told::Removed(array.remove_unchecked(
            slot,
        )),
        Call::PopLast => Told::Pair(array.pop_last()),
        Call::Freeze if !array.is_frozen() => Told::Number(array.freeze()),
        _ => act(array, call),
    }
}

/// Makes the calls of a table, in order, and returns the place of the first that is answered otherwise.
pub(super) fn first_other(array: &mut Array<u64, u64>, rows: &[(Call, Told)]) -> Option<usize> {
    for (at, (call, wanted)) in rows.iter().enumerate() {
        if make(array, *call) != *wanted {
            return Some(at);
        }
    }
    None
}

/// Keys, and the calls of an array of them, each its own value.
pub(super) type Table = (&'static [u64], &'static [(Call, Told)]);

/// The place of the first table that has a call that is answered otherwise, and the place of that call.
fn first_other_of(tables: &[Table]) -> Option<(usize, usize)> {
    for (at, (keys, rows)) in tables.iter().enumerate() {
        if let Some(row) = first_other(&mut holding(keys), rows) {
            return Some((at, row));
        }
    }
    None
}

#[test]
fn arrays_answer_as_the_tables_say(rt: HostRuntime) {
    let others = [
        first_other_of(edit::TABLES),
        first_other_of(cut::TABLES),
        first_other_of(range::TABLES),
        first_other_of(slot::TABLES),
    ];
    assert!(rt; others == [None; 4]);
}
