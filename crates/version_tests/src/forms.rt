//! Commits of few and of many writes, whose edits are kept in other forms, beside a map.

ghost use Rattle.std.specs.Prelude.{◌≤◌, ◌<◌, ◌+◌};

use local_versions::{LocalStore, LocalView, Reply, Write};
use std::alloc::{AllocError, Global};
use std::collections::BTreeMap;
use std::ops::Bound;
use std::test::Fail;

type Store = LocalStore<u64, u64, 3>;

// From which key on, and up to which, pairs are removed amid a commit.
const FROM: u64 = 20;

const UPTO: u64 = 60;

// The key of one of several writes: by rising, by falling, or by mixed keys, some of them again and again.
fn key_of(order: usize, at: u64, count: u64) -> u64 {
    match order {
        0 => at,
        1 => count.saturating_sub(at),
        _ => at.wrapping_mul(37) % 101,
    }
}

// A write of one key.
fn write_of(order: usize, at: u64, count: u64, seed: u64) -> Write<u64, u64> {
    let key = key_of(order, at, count);
    let value = at.wrapping_add(seed);
    match value % 4 {
        0 => Write::Upsert(key, value),
        1 => Write::Remove(key),
        _ => Write::Insert(key, value),
    }
}

// As many writes of single keys, and amid them the removal of a range.
fn writes_of(
    alloc: Global,
    order: usize,
    count: u64,
    seed: u64,
) -> Result<Vec<Write<u64, u64>>, AllocError> {
    let mut writes = Vec::new(alloc);
    for at in 0..count {
        if at == count / 2 {
            writes.push(Write::RemoveRange(Bound::Included(FROM), Bound::Excluded(UPTO)))?;
        }
        writes.push(write_of(order, at, count, seed))?;
    }
    Ok(writes)
}

// Makes a write on a map.
fn make(map: &mut BTreeMap<u64, u64>, write: &Write<u64, u64>) -> Result<Reply, AllocError> {
    match write {
        Write::Insert(key, value) => {
            if map.contains_key(key) {
                return Ok(Reply::Duplicate);
            }
            map.insert(*key, *value)?;
            Ok(Reply::Inserted)
        },
        Write::Upsert(key, value) => {
            map.insert(*key, *value)?;
            Ok(Reply::Upserted)
        },
        Write::Remove(key) => match map.remove(key) {
            Some(_) => Ok(Reply::Removed),
            None => Ok(Reply::Absent),
        },
        Write::RemoveRange(_, _) => {
            map.retain(|key, _| *key < FROM || *key >= UPTO);
            Ok(Reply::RangeRemoved)
        },
        Write::Clear => {
            map.clear();
            Ok(Reply::Cleared)
        },
    }
}

// Whether a version has the pairs of a map.
fn shows(version: &LocalView<'_, u64, u64, 3>, map: &BTreeMap<u64, u64>) -> bool {
    let mut walk = version.walk(Bound::Unbounded, Bound::Unbounded);
    for (key, value) in map.iter() {
        if walk.next() != Some((key, value)) {
            return false;
        }
    }
    walk.next().is_none()
}

// Whether writes answer and leave what they do on a map.
fn agrees(
    alloc: Global,
    store: &mut Store,
    map: &mut BTreeMap<u64, u64>,
    writes: &[Write<u64, u64>],
) -> Result<bool, AllocError>
    requires { store.old.present.number < 1000 }
    ensures { store.new.present.number ≤ store.old.present.number + 1 }
{
    let Ok(told) = store.write(alloc, writes) else {
        return Err(AllocError);
    };
    store.reclaim();
    for (at, write) in writes.iter().enumerate() {
        if told.get(at) != Some(&make(map, write)?) {
            return Ok(false);
        }
    }
    Ok(shows(&store.present(), map))
}

// The same of two commits, one after the other.
fn both_agree(
    alloc: Global,
    store: &mut Store,
    order: usize,
    count: u64,
) -> Result<bool, AllocError>
    requires { store.old.present.number < 100 }
{
    let mut map = BTreeMap::new(alloc);
    let first = writes_of(alloc, order, count, 2)?;
    let second = writes_of(alloc, order, count, 5)?;
    Ok(
        agrees(alloc, store, &mut map, first.as_slice())?
            && agrees(alloc, store, &mut map, second.as_slice())?,
    )
}

// The same in a store of its own.
fn commits_agree(alloc: Global, order: usize, count: u64) -> Result<bool, AllocError> {
    let mut store = Store::new(alloc, 1, 4096)?;
    let agree = both_agree(alloc, &mut store, order, count);
    store.close_all();
    store.reclaim();
    store.end();
    agree
}

// A row takes up to 128 edits.
#[test]
fn few_and_many_writes_answer_as_on_a_map(rt: HostRuntime) -> Result<(), Fail> {
    for count in [1u64, 2, 40, 127, 128, 129, 300] {
        for order in 0..3usize {
            assert!(rt;
                commits_agree(rt.alloc(), order, count)?,
                "{count} writes in order {order}"
            );
        }
    }
    Ok(())
}
