//! Lists cut into segments.

ghost use Rattle.std.specs.Prelude.{◌≡◌, ◌≤◌, [], IsTrue, length};
ghost use Rattle.std.specs.Bool.{OnFalse};
ghost use Rattle.std.specs.Ordering.{nat_cmp};
ghost use Rattle.leaf_array.specs.Pairs.{IsAscending};
ghost use Rattle.tree_index.specs.Cursor.{unread};

use local_versions::build_list;
use local_versions::draft::{Part, listed, rising_until};
use std::alloc::{AllocError, Global};
use std::test::Fail;
use tree_index::{Iter, TreeIndex};
use version_views::Segment;

const FIVE: &[(u64, u64)] = &[(1, 10), (2, 20), (3, 30), (4, 40), (5, 50)];

// Whether the keys of pairs rise.
fn rise(pairs: &[(u64, u64)]) -> bool
    ensures { IsTrue result → IsAscending nat_cmp pairs.now }
{
    rising_until(pairs) == pairs.len()
}

#[test]
fn keys_rise_up_to_the_first_that_is_not_above_the_one_before_it(rt: HostRuntime) {
    let found = [
        rising_until::<u64, u64>(&[]),
        rising_until(&[(7, 0)]),
        rising_until(&[(1, 0), (3, 0), (3, 1)]),
        rising_until(&[(2, 0), (1, 0)]),
        rising_until(&[(1, 0), (2, 0), (9, 0), (4, 0), (5, 0), (3, 0)]),
        rising_until(FIVE),
    ];
    assert_eq!(rt; found, [0, 1, 2, 1, 3, 5]);
}

// Pairs with the keys from 1 up to a number, each its own value.
fn numbers(alloc: Global, count: u64) -> Result<Vec<(u64, u64)>, AllocError> {
    let mut pairs = Vec::new(alloc);
    for number in 1..=count {
        pairs.push((number, number))?;
    }
    Ok(pairs)
}

// The sizes of the segments that a list is cut into, 0 for one that isn't new, and the keys of its rows, which separate them.
// None where a pair is another one than it was, or where keys don't rise.
fn cut<const S: usize>(
    alloc: Global,
    pairs: &[(u64, u64)],
) -> Result<Option<(Vec<usize>, Vec<u64>)>, AllocError>
    requires { (1 ≤ S) × (S ≤ 225) }
{
    if !rise(pairs) {
        return Ok(None);
    }
    let made = listed::<u64, u64, S>(alloc, pairs)?;
    let mut sizes = Vec::new(alloc);
    let mut at = 0usize;
    for part in made.parts {
        let Part::Made(segment) = part else {
            sizes.push(0)?;
            continue;
        };
        sizes.push(segment.tree().len())?;
        for (key, value) in segment.tree().iter() {
            if pairs.get(at) != Some(&(*key, *value)) {
                return Ok(None);
            }
            at = at.saturating_add(1);
        }
    }
    if at != pairs.len() || made.length != at {
        return Ok(None);
    }
    let mut keys = Vec::new(alloc);
    for row in build_list::<u64, u64, S>(alloc, pairs)?.rows() {
        for key in row.keys() {
            keys.push(*key)?;
        }
    }
    Ok(Some((sizes, keys)))
}

// Whether a list is cut into segments of these sizes, which these keys separate.
fn is_cut<const S: usize>(
    alloc: Global,
    pairs: &[(u64, u64)],
    sizes: &[usize],
    separators: &[u64],
) -> Result<bool, AllocError>
    requires { (1 ≤ S) × (S ≤ 225) }
{
    match cut::<S>(alloc, pairs)? {
        Some((found, keys)) => Ok(found.as_slice() == sizes && keys.as_slice() == separators),
        None => Ok(false),
    }
}

// The same of five pairs.
pub(crate) fn cuts_five(alloc: Global) -> Result<bool, AllocError> {
    is_cut::<2>(alloc, FIVE, &[2, 2, 1], &[2, 4])
}

#[test]
fn a_list_is_cut_into_full_segments_and_what_is_left(rt: HostRuntime) -> Result<(), Fail> {
    let alloc = rt.alloc();
    let none = is_cut::<2>(alloc, &[], &[], &[])?;
    let ones = is_cut::<1>(alloc, FIVE, &[1, 1, 1, 1, 1], &[1, 2, 3, 4])?;
    let twos = cuts_five(alloc)?;
    let threes = is_cut::<3>(alloc, FIVE, &[3, 2], &[3])?;
    let wide = is_cut::<225>(alloc, FIVE, &[5], &[])?;
    let full = is_cut::<225>(alloc, &numbers(alloc, 225)?, &[225], &[])?;
    let more = is_cut::<225>(alloc, &numbers(alloc, 226)?, &[225, 1], &[225])?;
    assert_eq!(rt; [none, ones, twos, threes, wide, full, more], [true; 7]);
    Ok(())
}

// How many slots the version of five pairs takes.
pub(crate) fn slots(alloc: Global) -> Result<usize, AllocError> {
    if !rise(FIVE) {
        return Ok(0);
    }
    let built = build_list::<u64, u64, 2>(alloc, FIVE)?;
    Ok(built.slots())
}

// How many pairs a segment with room for three has, and one that is copied from a tree of five.
pub(crate) fn segments(alloc: Global) -> Result<(usize, usize), AllocError> {
    let tree = tree_up_to(alloc, 5)?;
    if tree.len() > 225 {
        return Ok((0, tree.len()));
    }
    let empty: Segment<u64, u64> = Segment::with_capacity(alloc, 3)?;
    let copy = Segment::copied(alloc, &tree)?;
    Ok((empty.tree().len(), copy.tree().len()))
}

// A tree of the numbers from 1 up to one, each its own value.
fn tree_up_to(alloc: Global, count: u64) -> Result<TreeIndex<u64, u64>, AllocError> {
    let mut tree = TreeIndex::new(alloc);
    for number in 1..=count {
        if tree.upsert_sync(number, number).is_err() {
            return Err(AllocError);
        }
    }
    Ok(tree)
}

// A cursor at the first pair of a tree.
fn started<'t>(tree: &'t TreeIndex<u64, u64>) -> Iter<'t, u64, u64>
    ensures { unread result ≡ tree.now.pairs }
{
    let mut cursor = tree.iter();
    let _first = cursor.next();
    cursor
}

// Puts clones of all pairs of a tree, along a cursor at its first one, into an empty segment, and returns whether it did.
fn push_run(
    segment: &mut Segment<u64, u64>,
    cursor: &mut Iter<'_, u64, u64>,
    tree: &TreeIndex<u64, u64>,
) -> bool
    requires few { length tree.now.pairs ≤ 225 }
    requires empty { segment.old.pairs ≡ [] }
    requires first { unread cursor.old ≡ tree.now.pairs }
    ensures refused { OnFalse result (segment.new.pairs ≡ []) }
    ensures still { OnFalse result (cursor.new ≡ cursor.old) }
{
    segment.push_run(cursor, tree.len()).is_ok()
}

// Whether memory was refused to an empty segment that takes the pairs of a tree as a run, and whether it has them then: where
// it was refused, no pair was left in it, the cursor was at the first one, and a second try took all.
pub(crate) fn runs(alloc: Global) -> Result<(bool, bool), AllocError> {
    let tree = tree_up_to(alloc, 100)?;
    if tree.len() > 225 {
        return Ok((false, false));
    }
    let mut segment: Segment<u64, u64> = Segment::with_capacity(alloc, 1)?;
    let mut cursor = started(&tree);
    if push_run(&mut segment, &mut cursor, &tree) {
        return Ok((false, cursor.get().is_none() && segment.len() == 100));
    }
    let left = segment.is_empty() && cursor.get().map(|pair| *pair.0) == Some(1);
    let again = push_run(&mut segment, &mut cursor, &tree);
    Ok((true, left && again && segment.len() == 100))
}
