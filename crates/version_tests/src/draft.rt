//! Drafts by example, and against plain lists.

ghost use Rattle.std.specs.Prelude.{◌≡◌, ◌≤◌, ◌<◌, ◌+◌, length};

use crate::plain::following;
use local_versions::Reply::{Absent, Cleared, Duplicate, Inserted, RangeRemoved, Upserted};
use local_versions::Write::{Clear, Insert, Remove, RemoveRange, Upsert};
use local_versions::{LocalStore, LocalView, Reply, Write, plain};
use std::alloc::{AllocError, Global};
use std::ops::Bound;
use std::test::Fail;

// What writes leave: the pairs, the replies, how many segments they made, and whether all segments are cut as they should be.
#[derive(Drop)]
struct Made {
    pairs: Vec<(u64, u64)>,
    replies: Vec<Reply>,
    fresh: usize,
    is_cut: bool,
}

// Makes writes on the present version.
fn written<const S: usize>(
    alloc: Global,
    store: &mut LocalStore<u64, u64, S>,
    writes: &[Write<u64, u64>],
) -> Result<Made, AllocError>
    requires size { (1 ≤ S) × (S ≤ 225) }
    requires last { store.old.present.number < 1000 }
    ensures { store.new.present.number ≤ store.old.present.number + 1 }
{
    let before = store.slots_in_use();
    let Ok(replies) = store.write(alloc, writes) else {
        return Err(AllocError);
    };
    // its directory takes a slot too
    let fresh = store
        .slots_in_use()
        .saturating_sub(before.saturating_add(1));
    store.reclaim();
    let version = store.present();
    Ok(Made {
        pairs: pairs_of(alloc, &version)?,
        replies,
        fresh,
        is_cut: is_cut(&version, S),
    })
}

// The pairs of a version.
fn pairs_of<const S: usize>(
    alloc: Global,
    version: &LocalView<'_, u64, u64, S>,
) -> Result<Vec<(u64, u64)>, AllocError> {
    let mut pairs = Vec::new(alloc);
    for place in 0..version.segment_count() {
        for (key, value) in version.segment(place).iter() {
            pairs.push((*key, *value))?;
        }
    }
    Ok(pairs)
}

// Whether segments are cut as they should be: by their sizes and by their greatest keys.
fn is_cut<const S: usize>(version: &LocalView<'_, u64, u64, S>, size: usize) -> bool {
    let mut before = size;
    for place in 0..version.segment_count() {
        let segment = version.segment(place);
        let Some((last, _)) = segment.iter().next_back() else {
            return false;
        };
        if version.greatest_at(place) != Some(last) {
            return false;
        }
        if !is_found_near(version, place, *last) {
            return false;
        }
        if segment.len() > size || before.saturating_add(segment.len()) <= size {
            return false;
        }
        before = segment.len();
    }
    true
}

// Whether a segment is found whichever row is looked at first, one that isn't there among them.
fn is_found_near<const S: usize>(
    version: &LocalView<'_, u64, u64, S>,
    place: usize,
    last: u64,
) -> bool
    requires { place < length version.now }
{
    for near in 0..4 {
        let (tree, row) = version.segment_near(place, near);
        let found = tree.iter().next_back().map(|(key, _)| *key);
        if found != Some(last) || version.greatest_near(place, row) != Some(&last) {
            return false;
        }
    }
    true
}

// A bound at a key, by the bits of a number.
fn bound_by(bits: u64, key: u64) -> Bound<u64> {
    match bits % 4 {
        0 | 1 => Bound::Included(key),
        2 => Bound::Excluded(key),
        _ => Bound::Unbounded,
    }
}

// A write of keys up to a mask, by the bits of a number.
fn write_by(seed: u64, mask: u64) -> Write<u64, u64> {
    let key = (seed >> 33) & mask;
    match (seed >> 59) % 32 {
        0..=11 => Insert(key, seed >> 40),
        12..=20 => Upsert(key, seed >> 40),
        21..=28 => Remove(key),
        29 | 30 => RemoveRange(
            bound_by(seed >> 20, key),
            bound_by(
                seed >> 24,
                (key.saturating_add((seed >> 28) & (mask >> 2))).saturating_sub(1),
            ),
        ),
        _ if (seed >> 20) % 4 == 0 => Clear,
        _ => Remove(key),
    }
}

// Up to `most` random writes.
fn writes_by(
    alloc: Global,
    start: u64,
    mask: u64,
    most: u64,
) -> Result<Vec<Write<u64, u64>>, AllocError> {
    let mut seed = start;
    let mut writes = Vec::new(alloc);
    for i in 0..50u64 {
        if i < (start >> 36) & most {
            seed = following(seed);
            writes.push(write_by(seed, mask))?;
        }
    }
    Ok(writes)
}

// Whether random writes, over what writes before them left, are cut, make few segments, and answer as plain lists do.
fn agrees_in<const S: usize>(
    alloc: Global,
    store: &mut LocalStore<u64, u64, S>,
    start: u64,
    mask: u64,
    most: u64,
) -> Result<bool, AllocError>
    requires size { (1 ≤ S) × (S ≤ 225) }
    requires first { store.old.present.number ≡ 0 }
{
    let mut seed = start;
    let mut pairs: Vec<(u64, u64)> = Vec::new(alloc);
    for _ in 0..60u32 {
        seed = following(seed);
        let writes = writes_by(alloc, seed, mask, most)?;
        let made = written::<S>(alloc, store, writes.as_slice())?;
        let (list, told) = plain::applied(alloc, pairs.as_slice(), writes.as_slice())?;
        if made.pairs.as_slice() != list.as_slice() || made.replies.as_slice() != told.as_slice() {
            return Ok(false);
        }
        if made.fresh > writes.len().saturating_mul(2) || !made.is_cut {
            return Ok(false);
        }
        pairs = list;
    }
    Ok(true)
}

// The same in a store of its own.
fn agrees<const S: usize>(
    alloc: Global,
    start: u64,
    mask: u64,
    most: u64,
) -> Result<bool, AllocError>
    requires { (1 ≤ S) × (S ≤ 225) }
{
    let mut store = LocalStore::<u64, u64, S>::new(alloc, 0, 4096)?;
    let agree = agrees_in::<S>(alloc, &mut store, start, mask, most);
    store.close_all();
    store.reclaim();
    store.end();
    agree
}

// The same with segments of each size.
fn each_agrees(alloc: Global, start: u64, most: u64) -> Result<bool, AllocError> {
    let ones = agrees::<1>(alloc, start, 31, most)?;
    let twos = agrees::<2>(alloc, start, 31, most)?;
    let threes = agrees::<3>(alloc, start, 63, most)?;
    let eights = agrees::<8>(alloc, start, 127, most)?;
    let wide = agrees::<225>(alloc, start, 2047, most)?;
    Ok(ones && twos && threes && eights && wide)
}

#[test]
fn random_writes_answer_as_on_plain_lists(rt: HostRuntime) -> Result<(), Fail> {
    for start in 1..=12u64 {
        for most in [1u64, 3, 15, 63] {
            assert!(rt;
                each_agrees(rt.alloc(), start, most)?,
                "writes by {start}, at most {most}"
            );
        }
    }
    Ok(())
}

// Writes on a list: the replies to them, the pairs that they leave, and how many segments of one pair they make.
type Row = (
    &'static [Write<u64, u64>],
    &'static [Reply],
    &'static [(u64, u64)],
    usize,
);

// Whether writes on a list that others left of none do what is wanted.
fn does_in(
    alloc: Global,
    store: &mut LocalStore<u64, u64, 1>,
    before: &[Write<u64, u64>],
    row: Row,
) -> Result<bool, AllocError>
    requires { store.old.present.number ≡ 0 }
{
    let (writes, told, pairs, count) = row;
    let _before = written::<1>(alloc, store, before)?;
    let made = written::<1>(alloc, store, writes)?;
    let is_left = made.pairs.as_slice() == pairs && made.is_cut;
    Ok(is_left && made.replies.as_slice() == told && made.fresh == count)
}

// The same in a store of its own.
fn does(alloc: Global, before: &[Write<u64, u64>], row: Row) -> Result<bool, AllocError> {
    let mut store = LocalStore::<u64, u64, 1>::new(alloc, 0, 100)?;
    let done = does_in(alloc, &mut store, before, row);
    store.close_all();
    store.reclaim();
    store.end();
    done
}

const BEFORE: &[Write<u64, u64>] = &[Insert(1, 1), Insert(3, 3), Insert(5, 5), Insert(7, 7)];

const NONE: Row = (&[], &[], &[(1, 1), (3, 3), (5, 5), (7, 7)], 0);

// The change at 5 isn't above 7, so it reaches that segment: both pairs are made anew, each in a tree of its own.
const INNER: Row = (
    &[
        Insert(4, 4),
        Insert(3, 9),
        RemoveRange(Bound::Included(3), Bound::Excluded(7)),
        Insert(5, 50),
        Remove(3),
    ],
    &[Inserted, Duplicate, RangeRemoved, Inserted, Absent],
    &[(1, 1), (5, 50), (7, 7)],
    2,
);

const CLEARING: Row = (
    &[Upsert(9, 9), Clear, Insert(2, 20), Remove(3)],
    &[Upserted, Cleared, Inserted, Absent],
    &[(2, 20)],
    1,
);

#[test]
fn writes_make_what_they_touch(rt: HostRuntime) -> Result<(), Fail> {
    for (name, row) in [("none", NONE), ("inner", INNER), ("clearing", CLEARING)] {
        assert!(rt; does(rt.alloc(), BEFORE, row)?, "{name}");
    }
    Ok(())
}

// Whether the writes of a row make the draft that is wanted.
pub(crate) fn makes_a_draft(alloc: Global) -> Result<bool, AllocError> {
    does(alloc, BEFORE, INNER)
}

// The same of a plain list.
pub(crate) fn makes_a_plain_list(alloc: Global) -> Result<bool, AllocError> {
    let (list, told) = plain::applied(alloc, NONE.2, INNER.0)?;
    Ok(list.as_slice() == INNER.2 && told.as_slice() == INNER.1)
}

// Whether forty segments of one pair lie in rows as they should, the first 32 in the first row, wherever they are looked for.
fn rows_are_found(alloc: Global, store: &mut LocalStore<u64, u64, 1>) -> Result<bool, AllocError>
    requires { store.old.present.number ≡ 0 }
{
    let mut writes = Vec::new(alloc);
    for key in 0..40u64 {
        writes.push(Insert(key, key))?;
    }
    let made = written::<1>(alloc, store, writes.as_slice())?;
    let version = store.present();
    for (place, row) in [(0usize, 0usize), (31, 0), (32, 1), (39, 1)] {
        for near in 0..3usize {
            if place >= version.segment_count() || version.segment_near(place, near).1 != row {
                return Ok(false);
            }
        }
    }
    Ok(made.is_cut)
}

#[test]
fn a_segment_is_found_in_its_row(rt: HostRuntime) -> Result<(), Fail> {
    let alloc = rt.alloc();
    let mut store = LocalStore::<u64, u64, 1>::new(alloc, 0, 100)?;
    let found = rows_are_found(alloc, &mut store);
    store.close_all();
    store.reclaim();
    store.end();
    assert!(rt; found?);
    Ok(())
}
