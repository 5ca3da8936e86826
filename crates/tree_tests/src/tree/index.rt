//! Trees by example.

ghost use Rattle.std.specs.Prelude.{◌≤◌};

use super::Tree;
use super::calls::Act::{Fill, Hold, Lose, Renew};
use super::calls::Call::{
    All, Clear, Contains, Copy, Count, Depth, Equal, FillBoth, HasFullLeaf, Insert, IsDeeper,
    IsEmpty, Len, Peek, PeekEntry, PeekWith, ReadSync, Remove, RemoveIf, RenewInRounds, Stirred,
    Swap, Upsert,
};
use super::calls::Numbers::{Modulo, Times};
use super::calls::Told::{Done, Duplicate, Is, Number, Pair, Val};
use super::calls::{Call, EACH, Pairs, SAME, Told, all, equal, make};
use super::each_call::{copy_of, depth_of, empty, has, insert, len_of, remove, upsert, val_of};
use crate::numbers::{lacks_three, stirred};
use std::alloc::{AllocError, Global};
use std::collections::BTreeMap;

// The key 1 with the value 7, whatever the number.
const SEVEN: Pairs = Pairs(Times(0, 1), Times(0, 7));

/// Upserts the keys below 15 in fifty rounds but the first, and returns whether each was taken.
pub(super) fn renew_in_rounds(tree: &mut Tree) -> bool {
    let mut taken = true;
    for round in 1..50u64 {
        taken = all(tree, Renew, Pairs(SAME, Times(1, round)), 0, 15) && taken;
    }
    taken
}

// Each number with itself and the number of the last round.
const LAST_ROUND: Pairs = Pairs(SAME, Times(1, 49));

/// What is done with 6000 keys in no order.
#[derive(Clone, Copy)]
pub(super) enum Stir {
    /// Each is inserted with its complement.
    Take,
    /// Each is looked up, with the one behind it, and removed twice if three divides it.
    LoseAThird,
    /// Each is looked up, of which a third is gone, and upserted with itself.
    Renew,
}

/// Whether this is done with each of 6000 keys in no order.
pub(super) fn stir_all(tree: &mut Tree, stir: Stir) -> bool {
    let mut key = 1u64;
    let mut as_said = true;
    for _ in 0..6000u32 {
        key = stirred(key);
        let right = match stir {
            Stir::Take => insert(tree, key, !key),
            Stir::LoseAThird => {
                let found = (val_of(tree, key), val_of(tree, key.wrapping_add(1)));
                let gone = key % 3 != 0 || (remove(tree, key) && !remove(tree, key));
                found == (Some(!key), None) && gone
            }
            Stir::Renew => {
                let there = has(tree, key) == (key % 3 != 0);
                upsert(tree, key, key) && val_of(tree, key) == Some(key) && there
            }
        };
        as_said = right && as_said;
    }
    as_said
}

// What each number lacks to 2000, with the number.
const FALLING: Pairs = Pairs(Times(u64::MAX, 2000), SAME);

// The keys below 500 in no order, each with its number.
const SEVENS: Pairs = Pairs(Modulo(7, 500), SAME);

pub(super) const TABLES: &[&[(Call, Told)]] = &[
    // a new tree has depth 0, and one pair makes it 1
    &[
        (Depth, Number(0)),
        (Insert(1, 10), Done),
        (Insert(1, 11), Duplicate(1, 11)),
        (Peek(1), Val(Some(10))),
        (Depth, Number(1)),
    ],
    // rising keys up to 225 make one node
    &[
        (All(Fill, EACH, 1, 226), Is(true)),
        (Depth, Number(1)),
        (All(Hold, EACH, 1, 226), Is(true)),
        (Len, Number(225)),
        (Peek(0), Val(None)),
        (Peek(226), Val(None)),
    ],
    // an upsert replaces the value
    &[
        (Upsert(1, 10), Done),
        (Peek(1), Val(Some(10))),
        (Upsert(1, 11), Done),
        (Peek(1), Val(Some(11))),
        (Upsert(1, 12), Done),
        (Peek(1), Val(Some(12))),
        (All(Renew, SEVEN, 0, 100), Is(true)),
        (Len, Number(1)),
    ],
    // upserts of keys that are there take no place
    &[
        (All(Fill, EACH, 0, 15), Is(true)),
        (RenewInRounds, Is(true)),
        (HasFullLeaf(0), Is(true)),
        (Len, Number(15)),
        (All(Hold, LAST_ROUND, 0, 15), Is(true)),
    ],
    // functions are asked of the pair that is there
    &[
        (Insert(3, 30), Done),
        (PeekEntry(3), Pair(Some((3, 30)))),
        (PeekWith(3), Pair(Some((3, 30)))),
        (ReadSync(3), Pair(Some((3, 30)))),
        (PeekWith(4), Pair(None)),
        (ReadSync(4), Pair(None)),
        (RemoveIf(3, 31), Is(false)),
        (Contains(3), Is(true)),
        (RemoveIf(4, 30), Is(false)),
        (RemoveIf(3, 30), Is(true)),
        (Contains(3), Is(false)),
        (IsEmpty, Is(true)),
    ],
    // keys in any order are found and removed, in a tree of three levels at least
    &[
        (Stirred(Stir::Take), Is(true)),
        (Len, Number(6000)),
        (IsDeeper(2), Is(true)),
        (Stirred(Stir::LoseAThird), Is(true)),
        (Stirred(Stir::Renew), Is(true)),
        (Len, Number(6000)),
        (Clear, Done),
        (Depth, Number(0)),
        (IsEmpty, Is(true)),
    ],
    // falling keys are found
    &[
        (All(Fill, FALLING, 0, 2000), Is(true)),
        (All(Hold, FALLING, 0, 2000), Is(true)),
        (Peek(0), Val(None)),
    ],
    // trees are equal by their lists
    &[
        (Equal, Is(true)),
        (FillBoth, Is(true)),
        (Swap, Done),
        (Upsert(50, 51), Done),
        (Equal, Is(false)),
        (Remove(50), Is(true)),
        (Equal, Is(false)),
        (Swap, Done),
        (Remove(50), Is(true)),
        (Equal, Is(true)),
        (Swap, Done),
        (Remove(98), Is(true)),
        (Equal, Is(false)),
        (Swap, Done),
        (Remove(97), Is(true)),
        (Equal, Is(false)),
    ],
    // a clone is equal until one of them changes
    &[
        (All(Fill, EACH, 1, 10), Is(true)),
        (Copy, Done),
        (Swap, Done),
        (Equal, Is(true)),
        (Remove(9), Is(true)),
        (Equal, Is(false)),
    ],
    // a tree of keys in no order is equal to its clone
    &[
        (All(Fill, SEVENS, 1, 500), Is(true)),
        (Copy, Done),
        (Swap, Done),
        (Equal, Is(true)),
        (Count, Number(499)),
    ],
];

// These functions and `lacks_three` may be called at values up to 5 alone, so each call is proved because it calls them on the
// pair that is there, and on no other.

fn left(_key: &u64, val: &u64) -> u64
    requires { val.now ≤ 5 }
{
    5 - *val
}

fn lacks_two(val: &u64) -> bool
    requires { val.now ≤ 5 }
{
    5 - *val == 2
}

/// Whether the calls of an empty tree call no function.
fn calls_none(alloc: Global) -> bool {
    let mut tree = empty(alloc);
    let peeked = tree.peek_with(&1, left).is_none();
    let read = tree.read_sync(&1, left).is_none();
    peeked && read && !tree.remove_if_sync(&1, lacks_three)
}

/// What functions say of the value 3, which is spared by one condition and removed by another.
fn of_three(alloc: Global) -> (Option<u64>, Option<u64>, bool, bool) {
    let mut tree = empty(alloc);
    let Ok(()) = tree.insert_sync(1, 3) else {
        return (None, None, false, false);
    };
    let peeked = tree.peek_with(&1, left);
    let read = tree.read_sync(&1, left);
    let spared = !tree.remove_if_sync(&1, lacks_three);
    (peeked, read, spared, tree.remove_if_sync(&1, lacks_two))
}

#[test]
fn functions_that_take_few_values_serve(rt: HostRuntime) {
    let none = calls_none(rt.alloc());
    assert!(rt; none && of_three(rt.alloc()) == (Some(2), Some(2), true, true));
}

/// One call of each kind in turn, on a tree and on a map of std: whether the tree answers as the map does.
fn act(
    tree: &mut Tree,
    map: &mut BTreeMap<u64, u64>,
    kind: u64,
    key: u64,
    val: u64,
) -> Result<bool, AllocError> {
    let there = map.get(&key).copied();
    let call = match kind {
        0 if there.is_some() => return Ok(make(tree, Insert(key, val)) == Duplicate(key, val)),
        0 => Insert(key, val),
        1 => Upsert(key, val),
        2 => return Ok(remove(tree, key) == map.remove(&key).is_some()),
        _ => return Ok(val_of(tree, key) == there),
    };
    map.insert(key, val)?;
    Ok(make(tree, call) == Done)
}

/// Whether this many random calls are answered alike, and leave the same.
fn go_alike(alloc: Global, calls: u32) -> Result<bool, AllocError> {
    let mut tree = empty(alloc);
    let mut map = BTreeMap::new(alloc);
    let mut seed = 7u64;
    let mut alike = true;
    for _ in 0..calls {
        seed = stirred(seed);
        let (kind, key) = ((seed >> 33) % 4, (seed >> 40) % 300);
        let same = act(&mut tree, &mut map, kind, key, seed >> 8)?;
        alike = same && len_of(&tree) == map.len() && alike;
    }
    for key in 0..300u64 {
        alike = val_of(&tree, key) == map.get(&key).copied() && alike;
    }
    Ok(alike)
}

#[test]
fn random_calls_answer_as_on_a_map_of_std(rt: HostRuntime) {
    assert!(rt; go_alike(rt.alloc(), 6000) == Ok(true));
}

/// Whether the keys below 1000 are removed from a clone that had those of the tree and those above 700, and no others.
fn loses_as(copy: &mut Tree, tree: &Tree) -> bool {
    let mut as_said = true;
    for key in 0..1000u64 {
        let there = key > 700 || has(tree, key);
        as_said = remove(copy, key) == there && as_said;
    }
    as_said
}

/// Whether a clone of a tree has its pairs and is low, takes the keys from 701 to 999, and loses all.
fn goes_on(alloc: Global, tree: &Tree) -> Result<bool, AllocError> {
    let mut copy = copy_of(alloc, tree)?;
    let same = equal(&copy, tree) == Is(true) && len_of(&copy) == len_of(tree);
    let low = len_of(&copy) > 240 || depth_of(&copy) <= 1;
    let taken = all(&mut copy, Fill, EACH, 701, 1000);
    let lost = loses_as(&mut copy, tree);
    Ok(same && low && taken && lost && len_of(&copy) == 0)
}

// Keys below 701 in no order, each with its number.
const BELOW_701: Pairs = Pairs(Modulo(389, 701), SAME);

// How many pairs come, of which a third goes.
const COUNTS: &[u64] = &[0, 1, 14, 15, 16, 29, 30, 31, 45, 240, 241, 700];

#[test]
fn clones_of_trees_that_lost_pairs_go_on_by_themselves(rt: HostRuntime) {
    for count in COUNTS {
        let mut tree = empty(rt.alloc());
        let third = *count / 3;
        let taken = all(&mut tree, Fill, BELOW_701, 0, *count);
        let lost = all(&mut tree, Lose, BELOW_701, 0, third);
        let gone_on = goes_on(rt.alloc(), &tree) == Ok(true);
        assert!(rt; taken && lost && gone_on && len_of(&tree) as u64 == *count - third);
    }
}
