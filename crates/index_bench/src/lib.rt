//! What a driver in another language measures of a tree.
//!
//! A static library can hand out nothing that owns memory. So each export builds a tree of its own,
//! runs one task on it some number of rounds, and gives a sum that depends on each answer; the cost
//! of the task is what those rounds cost above none. Where memory is refused the tree has fewer pairs,
//! and the sum differs from that of another map.
#![tactic(auto)]

ghost use Rattle.std.specs.Prelude.{◌≡◌};
ghost use Rattle.std.specs.Option.{unwrap_or};
ghost use Rattle.std.specs.Ordering.{nat_cmp};
ghost use Rattle.tree_index.specs.Pairs.{value_of_key};
ghost use Rattle.index_bench.specs.Sums.{sum_found};

use std::alloc::Global;
use std::ops::Bound;
use tree_index::TreeIndex;

/// Inserts each key, with itself as value, and gives how many pairs there are then.
#[unsafe(no_mangle)]
pub extern "C" fn index_bench_insert(alloc: Global, keys: &[u64]) -> usize {
    let tree = built(alloc, keys);
    tree.len()
}

/// Looks each probe up in a tree of these keys, `rounds` times, and gives the sum of the values found.
#[unsafe(no_mangle)]
pub extern "C" fn index_bench_get(alloc: Global, keys: &[u64], probes: &[u64], rounds: u32) -> u64 {
    let tree = built(alloc, keys);
    let mut sum = 0;
    for _ in 0..rounds {
        sum = get_all(&tree, probes, sum);
    }
    sum
}

/// Walks through a tree of these keys, `rounds` times, and gives the sum of the values.
#[unsafe(no_mangle)]
pub extern "C" fn index_bench_walk(alloc: Global, keys: &[u64], rounds: u32) -> u64 {
    let tree = built(alloc, keys);
    let mut sum = 0;
    for _ in 0..rounds {
        sum = walk(&tree, sum);
    }
    sum
}

/// Takes up to a hundred pairs from each probe on in a tree of these keys, `rounds` times, and gives the
/// sum of the values.
#[unsafe(no_mangle)]
pub extern "C" fn index_bench_scan(
    alloc: Global,
    keys: &[u64],
    probes: &[u64],
    rounds: u32,
) -> u64 {
    let tree = built(alloc, keys);
    let mut sum = 0;
    for _ in 0..rounds {
        for probe in probes {
            sum = scan(&tree, probe, sum);
        }
    }
    sum
}

/// Removes the first half of the keys from a tree of all of them, if there is a round, and gives how many pairs
/// are left.
#[unsafe(no_mangle)]
pub extern "C" fn index_bench_remove(alloc: Global, keys: &[u64], rounds: u32) -> usize {
    let mut tree = built(alloc, keys);
    if rounds > 0 {
        remove_all(&mut tree, &keys[..keys.len() / 2]);
    }
    tree.len()
}

/// Upserts each of these keys into a tree that has them, `rounds` times, with the number of the round as value, and
/// gives the sum of the values.
#[unsafe(no_mangle)]
pub extern "C" fn index_bench_upsert(alloc: Global, keys: &[u64], rounds: u32) -> u64 {
    let mut tree = built(alloc, keys);
    for round in 0..rounds {
        upsert_all(&mut tree, keys, u64::from(round));
    }
    walk(&tree, 0)
}

/// A queue of this many keys, a thousand apart: in each round the least is removed, and one above the greatest is added. Gives
/// the least key of all in the end.
#[unsafe(no_mangle)]
pub extern "C" fn index_bench_queue(alloc: Global, count: u32, rounds: u32) -> u64 {
    let mut queue = TreeIndex::new(alloc);
    for number in 0..count {
        let _ = queue.insert_sync(u64::from(number).wrapping_mul(1000), 0);
    }
    for number in 0..rounds {
        let least = u64::from(number);
        let _ = queue.remove_sync(&least.wrapping_mul(1000));
        let above = least.wrapping_add(u64::from(count));
        let _ = queue.insert_sync(above.wrapping_mul(1000), above);
    }
    let Some((least, _)) = queue.iter().next() else {
        return 0;
    };
    *least
}

/// Clones a tree of these keys, `rounds` times, and gives how many pairs the copies have together, without carry.
#[unsafe(no_mangle)]
pub extern "C" fn index_bench_clone(alloc: Global, keys: &[u64], rounds: u32) -> usize {
    let tree = built(alloc, keys);
    let mut sum = 0usize;
    for _ in 0..rounds {
        sum = sum.wrapping_add(cloned(&tree, alloc));
    }
    sum
}

/// Removes the keys from one up to another from a tree, if there is a round, and gives how many pairs are left.
#[unsafe(no_mangle)]
pub extern "C" fn index_bench_cut(
    alloc: Global,
    keys: &[u64],
    from: u64,
    upto: u64,
    rounds: u32,
) -> usize {
    let mut tree = built(alloc, keys);
    if rounds > 0 {
        tree.remove_range_sync(Bound::Included(&from), Bound::Excluded(&upto));
    }
    tree.len()
}

/// Calls what the other exports measure from a second place, as a program does that uses a tree for more
/// than one thing: a call with one caller alone may be compiled into it whatever its size. Gives a sum of
/// the values that it met.
#[unsafe(no_mangle)]
pub extern "C" fn index_bench_elsewhere(alloc: Global, keys: &[u64]) -> u64 {
    let mut tree = TreeIndex::new(alloc);
    let mut sum = 0u64;
    for key in keys.iter().rev() {
        let _ = tree.insert_sync(*key, !*key);
    }
    for key in keys {
        let _ = tree.upsert_sync(*key, !*key);
        sum ^= tree.peek(key).copied().unwrap_or(0);
        sum ^= beyond(&tree, key);
    }
    for (key, value) in tree.iter() {
        sum = sum.wrapping_add(*key ^ *value);
    }
    if let Ok(mut copy) = tree.clone(alloc) {
        for key in keys {
            let _ = copy.remove_sync(key);
        }
        sum = sum.wrapping_add(copy.len() as u64);
    }
    tree.remove_range_sync(Bound::Unbounded, Bound::Excluded(&sum));
    sum.wrapping_add(tree.len() as u64)
}

/// The sum of the three keys behind a key, without carry.
fn beyond<'t>(tree: &'t TreeIndex<u64, u64>, key: &'t u64) -> u64 {
    let mut total = 0u64;
    for (found, _) in tree.range(Bound::Excluded(key), Bound::Unbounded).take(3) {
        total = total.wrapping_add(*found);
    }
    total
}

/// A tree of these keys, each with itself as value.
fn built(alloc: Global, keys: &[u64]) -> TreeIndex<u64, u64> {
    let mut tree = TreeIndex::new(alloc);
    for key in keys {
        let _ = tree.insert_sync(*key, *key);
    }
    tree
}

/// Upserts these keys with a value.
fn upsert_all(tree: &mut TreeIndex<u64, u64>, keys: &[u64], value: u64) {
    for key in keys {
        let _ = tree.upsert_sync(*key, value);
    }
}

/// Removes these keys.
#[inline(never)]
fn remove_all(tree: &mut TreeIndex<u64, u64>, keys: &[u64]) {
    for key in keys {
        let _ = tree.remove_sync(key);
    }
}

/// How many pairs a clone of the tree has: 0 if an allocation fails.
#[inline(never)]
fn cloned(tree: &TreeIndex<u64, u64>, alloc: Global) -> usize {
    match tree.clone(alloc) {
        Ok(copy) => copy.len(),
        Err(_) => 0,
    }
}

/// The sum of the values at the probes, and one before, without carry.
#[inline(never)]
fn get_all(tree: &TreeIndex<u64, u64>, probes: &[u64], sum: u64) -> u64
    ensures { result ≡ sum_found tree.now.pairs probes.now sum }
{
    let mut total = sum;
    for probe in probes {
        let value = found(tree, probe);
        total = total.wrapping_add(value);
    }
    total
}

/// The sum of all values, and one before, without carry.
#[inline(never)]
fn walk(tree: &TreeIndex<u64, u64>, sum: u64) -> u64 {
    let mut total = sum;
    for (_, value) in tree.iter() {
        total = total.wrapping_add(*value);
    }
    total
}

/// The sum of the values of a hundred pairs from a key on, and one before, without carry.
#[inline(never)]
fn scan<'t>(tree: &'t TreeIndex<u64, u64>, from: &'t u64, sum: u64) -> u64 {
    let mut total = sum;
    for (_, value) in tree
        .range(Bound::Included(from), Bound::Unbounded)
        .take(100)
    {
        total = total.wrapping_add(*value);
    }
    total
}

/// The value at a key, 0 where there is none.
#[inline(always)]
fn found(tree: &TreeIndex<u64, u64>, key: &u64) -> u64
    ensures { result ≡ unwrap_or (value_of_key nat_cmp key.now tree.now.pairs) 0 }
{
    match tree.peek(key) {
        Some(value) => *value,
        None => 0,
    }
}

#[cfg(test)]
mod tests {
    use super::*;

    #[test]
    fn each_key_is_inserted_once(rt: HostRuntime) {
        assert_eq!(rt; index_bench_insert(rt.alloc(), &[]), 0);
        assert_eq!(rt; index_bench_insert(rt.alloc(), &[5, 3, 5, 9]), 3);
    }

    #[test]
    fn the_values_found_are_summed_in_each_round(rt: HostRuntime) {
        let keys = [5, 3, 9];
        assert_eq!(rt; index_bench_get(rt.alloc(), &keys, &[3, 4, 9, 9], 0), 0);
        assert_eq!(rt; index_bench_get(rt.alloc(), &keys, &[3, 4, 9, 9], 1), 21);
        assert_eq!(rt; index_bench_get(rt.alloc(), &keys, &[3, 4, 9, 9], 2), 42);
        let most = [u64::MAX];
        assert_eq!(rt; index_bench_get(rt.alloc(), &most, &most, 2), u64::MAX - 1);
    }

    #[test]
    fn a_walk_and_a_scan_sum_the_values_they_pass(rt: HostRuntime) {
        let keys = [5, 3, 9];
        assert_eq!(rt; index_bench_walk(rt.alloc(), &keys, 2), 34);
        assert_eq!(rt; index_bench_scan(rt.alloc(), &keys, &[4, 9, 10], 1), 23);
    }

    #[test]
    fn upserts_leave_the_number_of_the_last_round(rt: HostRuntime) {
        assert_eq!(rt; index_bench_upsert(rt.alloc(), &[5, 3, 9], 0), 17);
        assert_eq!(rt; index_bench_upsert(rt.alloc(), &[5, 3, 9], 3), 6);
    }

    #[test]
    fn half_of_the_keys_and_a_range_of_them_are_removed(rt: HostRuntime) {
        let keys = [5, 3, 9, 7];
        assert_eq!(rt; index_bench_remove(rt.alloc(), &keys, 0), 4);
        assert_eq!(rt; index_bench_remove(rt.alloc(), &keys, 1), 2);
        assert_eq!(rt; index_bench_cut(rt.alloc(), &keys, 4, 9, 0), 4);
        assert_eq!(rt; index_bench_cut(rt.alloc(), &keys, 4, 9, 1), 2);
    }

    #[test]
    fn a_queue_goes_on_and_copies_are_counted(rt: HostRuntime) {
        assert_eq!(rt; index_bench_queue(rt.alloc(), 10, 0), 0);
        assert_eq!(rt; index_bench_queue(rt.alloc(), 10, 25), 25000);
        assert_eq!(rt; index_bench_clone(rt.alloc(), &[5, 3, 9], 2), 6);
    }
}
