//! Readers that close their sessions by themselves, in indices that end by themselves.

ghost use Rattle.std.specs.Prelude.{◌≡◌};

use crate::scene::{Numbers, Reader};
use crate::table::Claim::{Between, Got};
use index_rows::receipt;
use local_index::{Audit, Nearby, NoPlace, Query, Receipt, ScopedIndex, Write};
use std::alloc::{AllocError, Global};
use std::ops::Bound;
use std::process::Abort;

const ROOM: &str = "memory";

// An index of three pairs, with this many places.
fn filled<R: Abort>(rt: &R, alloc: Global, places: usize) -> ScopedIndex<u64, u64, 2> {
    if places > 2 {
        panic!(rt; "a small index");
    }
    let mut scope = ScopedIndex::new(alloc, places, 16).expect(rt, ROOM);
    let writes = vec![in alloc;
        Write::Insert(1, 10),
        Write::Insert(3, 30),
        Write::Insert(5, 50),
    ]
    .expect(rt, ROOM);
    match scope.index.commit(&Receipt::blank(alloc), writes) {
        Ok(accepted) => assert!(rt; accepted.number == 1),
        Err(_) => panic!(rt; "it was refused"),
    }
    scope
}

// What look-ups of a reader find: its number, how many pairs there are, whether two keys are there, and the value of one.
fn looked_up(reading: &Reader<'_>) -> (u64, usize, bool, bool, Option<u64>) {
    (
        reading.number(),
        reading.len(),
        reading.contains(&3),
        reading.contains(&4),
        reading.get(&5).copied(),
    )
}

// What its cursors go along: sums of keys and of values, of all pairs and of some.
fn gone_along(reading: &Reader<'_>) -> (u64, u64) {
    let mut all = 0u64;
    for (key, value) in reading.iter() {
        all = all.saturating_add(key.saturating_add(*value));
    }
    let mut some = 0u64;
    for (key, _) in reading.range(Bound::Excluded(&1), Bound::Included(&3)) {
        some = some.saturating_add(*key);
    }
    (all, some)
}

// Whether a key is between two pairs, whose keys are these.
fn stands_between(reading: &Reader<'_>, key: u64) -> Option<(u64, u64)> {
    match reading.locate(&key) {
        Nearby::Between(at) => match (at.get(), at.get_back()) {
            (Some((smaller, _)), Some((larger, _))) => Some((*smaller, *larger)),
            _ => None,
        },
        _ => None,
    }
}

#[test]
fn a_reader_reads_the_present_list(rt: HostRuntime) {
    let mut scope = filled(&rt, rt.alloc(), 1);
    match scope.index.reading() {
        Ok(reading) => {
            assert!(rt; looked_up(&reading) == (1, 3, true, false, Some(50)));
            assert!(rt; gone_along(&reading) == (99, 3));
            assert!(rt; stands_between(&reading, 4) == Some((3, 5)));
        }
        Err(NoPlace) => panic!(rt; "a place is free"),
    }
}

// Records two reads, and takes the receipt, and one that is blank then.
fn recorded(
    reading: &mut Reader<'_>,
) -> Result<(Receipt<u64, u64>, Receipt<u64, u64>), AllocError> {
    let _answer = reading.read(Query::Get(1))?;
    let _answer = reading.read(Query::Locate(2))?;
    let receipt = reading.take_receipt();
    Ok((receipt, reading.take_receipt()))
}

#[test]
fn a_reader_gives_a_receipt_of_what_it_recorded(rt: HostRuntime) {
    let alloc = rt.alloc();
    let mut scope = filled(&rt, alloc, 1);
    let told = match scope.index.reading() {
        Ok(mut reading) => recorded(&mut reading).expect(&rt, ROOM),
        Err(NoPlace) => panic!(rt; "a place is free"),
    };
    let reads = receipt(alloc, 1, &[Got(1, Some(10)), Between(2, (1, 10), (3, 30))]);
    assert!(rt; told.0 == reads.expect(&rt, ROOM));
    assert!(rt; told.1 == receipt(alloc, 1, &[]).expect(&rt, ROOM));
    let audit = scope.index.audit(&told.0).expect(&rt, ROOM);
    assert!(rt; audit == Audit::Yes);
}

// How many of three readers, one after the other, found a place.
fn found_a_place(index: &mut Numbers) -> usize {
    let mut count = 0usize;
    for _turn in 0..3u32 {
        if let Ok(reading) = index.reading() {
            count = count.saturating_add(reading.len()).saturating_add(1);
        }
    }
    count
}

// Whether there is no place for a reader.
fn is_full(index: &mut Numbers) -> bool
    ensures { index.new ≡ index.old }
{
    match index.reading() {
        Ok(_reading) => false,
        Err(NoPlace) => true,
    }
}

#[test]
fn a_reader_gives_its_place_back(rt: HostRuntime) {
    let mut scope = ScopedIndex::new(rt.alloc(), 1, 16).expect(&rt, ROOM);
    assert!(rt; found_a_place(&mut scope.index) == 3);
    match scope.index.open() {
        Ok(session) => {
            let full = is_full(&mut scope.index);
            let _receipt = scope.index.close_session(session);
            assert!(rt; full && !is_full(&mut scope.index));
        }
        Err(NoPlace) => panic!(rt; "a place is free"),
    }
}

// Reads by two sessions at a time, of which the later one closes first.
fn two_at_a_time(index: &mut Numbers) -> Option<usize> {
    let Ok(one) = index.open() else {
        return None;
    };
    let Ok(other) = index.open() else {
        let _receipt = index.close_session(one);
        return None;
    };
    let first = index.len(&other);
    let _receipt = index.close_session(other);
    let second = index.len(&one);
    let _receipt = index.close_session(one);
    first.checked_add(second)
}

#[test]
fn sessions_stay_while_others_open_and_close(rt: HostRuntime) {
    let mut scope = filled(&rt, rt.alloc(), 2);
    assert!(rt; two_at_a_time(&mut scope.index) == Some(6));
}
