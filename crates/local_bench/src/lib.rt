//! What a driver in another language measures of the index of one thread.
//!
//! A static library can hand out nothing that owns memory. So each export builds an index of its own, by commits of
//! a thousand upserts, runs one task on it some number of rounds, and gives a sum that depends on what it read; the
//! cost of the task is what those rounds cost above none. Where memory or slots are refused the index has fewer pairs,
//! and the sum differs from that of another map.
#![tactic(auto)]

ghost use Rattle.std.specs.Prelude.{◌≡◌, ◌≤◌};
ghost use Rattle.local_index.specs.State.{HasNoSession};

mod commits;
mod endings;
mod reads;
mod task;

use crate::commits::{build, commit_task};
use crate::endings::{Ending, begun, commit_each, ending_of, slots_of};
use crate::reads::read_task;
use crate::task::{Index, Task, task_of};
use std::alloc::Global;

/// Runs a task on an index whose segments have at most 16 pairs. The number of a task is that of [`task_of`].
#[unsafe(no_mangle)]
pub extern "C" fn local_bench_16(
    alloc: Global,
    keys: &[u64],
    probes: &[u64],
    task: u32,
    rounds: u32,
    slots: usize,
) -> u64 {
    run::<16>(alloc, keys, probes, task, rounds, slots)
}

/// The same with at most 30 pairs in a segment.
#[unsafe(no_mangle)]
pub extern "C" fn local_bench_30(
    alloc: Global,
    keys: &[u64],
    probes: &[u64],
    task: u32,
    rounds: u32,
    slots: usize,
) -> u64 {
    run::<30>(alloc, keys, probes, task, rounds, slots)
}

/// The same with at most 60 pairs in a segment.
#[unsafe(no_mangle)]
pub extern "C" fn local_bench_60(
    alloc: Global,
    keys: &[u64],
    probes: &[u64],
    task: u32,
    rounds: u32,
    slots: usize,
) -> u64 {
    run::<60>(alloc, keys, probes, task, rounds, slots)
}

/// The same with at most 64 pairs in a segment.
#[unsafe(no_mangle)]
pub extern "C" fn local_bench_64(
    alloc: Global,
    keys: &[u64],
    probes: &[u64],
    task: u32,
    rounds: u32,
    slots: usize,
) -> u64 {
    run::<64>(alloc, keys, probes, task, rounds, slots)
}

/// The same with at most 225 pairs in a segment.
#[unsafe(no_mangle)]
pub extern "C" fn local_bench_225(
    alloc: Global,
    keys: &[u64],
    probes: &[u64],
    task: u32,
    rounds: u32,
    slots: usize,
) -> u64 {
    run::<225>(alloc, keys, probes, task, rounds, slots)
}

/// Makes commits of one upsert on an index of at most 64 pairs in a segment, one for each probe in each round, and returns how
/// many ended as wanted. It begins with the keys, which must rise. The number of an ending is that of [`ending_of`].
#[unsafe(no_mangle)]
pub extern "C" fn local_bench_endings(
    alloc: Global,
    keys: &[u64],
    probes: &[u64],
    ending: u32,
    rounds: u32,
) -> u64 {
    let ending = ending_of(ending);
    // a first one says how many slots the list takes
    let Some(first) = begun::<64>(alloc, keys, keys.len().saturating_add(2)) else {
        return 0;
    };
    let slots = slots_of(ending, first.slots_in_use());
    end::<64>(first);
    let Some(mut index) = begun::<64>(alloc, keys, slots) else {
        return 0;
    };
    let count = count_endings(&mut index, alloc, probes, ending, rounds);
    end::<64>(index);
    count
}

/// How many commits end as wanted in some rounds.
fn count_endings(
    index: &mut Index<64>,
    alloc: Global,
    probes: &[u64],
    ending: Ending,
    rounds: u32,
) -> u64
    ensures { index.new.places ≡ index.old.places }
{
    let mut count = 0u64;
    for _round in 0..rounds {
        let more = commit_each::<64>(index, alloc, probes, ending);
        count = count.saturating_add(more);
    }
    count
}

/// Builds an index of the keys, runs a task some rounds, and ends the index.
fn run<const S: usize>(
    alloc: Global,
    keys: &[u64],
    probes: &[u64],
    task: u32,
    rounds: u32,
    slots: usize,
) -> u64
    requires least { 1 ≤ S }
    requires most { S ≤ 225 }
{
    if slots == 0 || slots > 1_000_000_000 {
        return 0;
    }
    let Ok(mut index) = Index::<S>::new(alloc, 1, slots) else {
        return 0;
    };
    build::<S>(&mut index, alloc, keys);
    warm_up::<S>(&mut index, alloc, probes, task);
    let sum = repeat::<S>(&mut index, alloc, probes, task, rounds);
    end::<S>(index);
    sum
}

/// A first round of a task that upserts or records, which isn't counted: in it the allocator sorts what building gave back.
fn warm_up<const S: usize>(index: &mut Index<S>, alloc: Global, probes: &[u64], task: u32)
    ensures { index.new.places ≡ index.old.places }
{
    let task = task_of(task);
    match task {
        Task::CommitEach | Task::CommitAll => commit_task::<S>(index, alloc, probes, task),
        Task::Record => {
            let _ = read_task::<S>(index, probes, task);
        }
        _ => {}
    }
}

/// Runs a task some rounds. It stays a function of its own, so that what it runs can be counted by itself.
#[inline(never)]
fn repeat<const S: usize>(
    index: &mut Index<S>,
    alloc: Global,
    probes: &[u64],
    task: u32,
    rounds: u32,
) -> u64
    ensures { index.new.places ≡ index.old.places }
{
    let task = task_of(task);
    let mut sum = 0u64;
    for _round in 0..rounds {
        let read = read_task::<S>(index, probes, task);
        commit_task::<S>(index, alloc, probes, task);
        sum = sum.wrapping_add(read);
    }
    sum
}

/// Ends an index that has no session.
fn end<const S: usize>(index: Index<S>)
    requires { HasNoSession index }
{
    match index.close() {
        Ok(()) => {}
        Err(_) => unreachable!(),
    }
}
