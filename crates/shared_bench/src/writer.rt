//! The thread that commits.

ghost use Rattle.std.specs.Prelude.{◌≡◌, ◌<◌, ◌≤◌};

use crate::readers::Span;
use crate::task::{Index, Task, drawn, key, next};
use serial_history::Receipt;
use shared_index::{Naming, Share};
use std::alloc::Global;
use std::sync::Wait;
use std::time::{Clock, Duration, Instant};
use version_views::Write;

/// What a committer did: the nanoseconds of each commit that was accepted, and how many were refused.
#[derive(Drop)]
pub struct Commits {
    pub times: Vec<u64>,
    pub refused: u64,
}

/// Upserts of this many pairs, from a number on. None if an allocation fails.
pub fn ascending(alloc: Global, from: u32, count: u32) -> Option<Vec<Write<u64, u64>>> {
    let mut writes = Vec::with_capacity(alloc, count as usize).ok()?;
    for i in 0..count {
        let number = u64::from(from.wrapping_add(i));
        writes.push(Write::Upsert(key(number), number)).ok()?;
    }
    Some(writes)
}

/// Upserts of this many pairs that the index has, and the state of draws behind them. Each value belongs to its key.
fn drawing(alloc: Global, task: Task, state: u64) -> Option<(Vec<Write<u64, u64>>, u64)> {
    let mut state = state;
    let mut writes = Vec::with_capacity(alloc, task.writes as usize).ok()?;
    for _write in 0..task.writes {
        state = next(state);
        let number = drawn(state, task.pairs);
        writes
            .push(Write::Upsert(key(number), number | state.wrapping_shl(32)))
            .ok()?;
    }
    Some((writes, state))
}

/// A commit, and the reclaim behind it: whether it was accepted.
pub fn commit<L: Naming, R: Wait>(
    rt: &R,
    alloc: Global,
    index: &Index<'_, L>,
    share: &mut Share<L>,
    writes: Vec<Write<u64, u64>>,
) -> bool {
    let accepted = index
        .commit(rt, share, &Receipt::blank(alloc), writes)
        .is_ok();
    index.reclaim(rt);
    accepted
}

/// Commits all pairs, an eighth of them at a time, or a thousand, if that is more: whether all were accepted.
pub fn build<L: Naming, R: Wait>(
    rt: &R,
    alloc: Global,
    index: &Index<'_, L>,
    share: &mut Share<L>,
    task: Task,
) -> bool {
    let most = (task.pairs / 8).max(1000);
    let mut from: u32 = 0;
    for _turn in 0..u32::MAX {
        if from >= task.pairs {
            return true;
        }
        let count = (task.pairs - from).min(most);
        let Some(writes) = ascending(alloc, from, count) else {
            return false;
        };
        if !commit(rt, alloc, index, share, writes) {
            return false;
        }
        from = from.wrapping_add(count);
    }
    false
}

/// This many commits one by one: how many were accepted.
pub fn rounds<L: Naming, R: Wait>(
    rt: &R,
    alloc: Global,
    index: &Index<'_, L>,
    share: &mut Share<L>,
    task: Task,
) -> u64 {
    let mut state: u64 = 5;
    let mut accepted: u64 = 0;
    for _round in 0..task.last {
        let Some((writes, behind)) = drawing(alloc, task, state) else {
            break;
        };
        state = behind;
        if commit(rt, alloc, index, share, writes) {
            accepted = accepted.wrapping_add(1);
        }
    }
    accepted
}

/// Waits until an instant, and gives the time at which it was seen to be over. It looks at the clock over and over, since a
/// thread that sleeps may wake up late. None where the clock can't be read.
fn wait_until<R: Clock>(rt: &R, due: Instant) -> Option<Instant> {
    for _look in 0..u64::MAX {
        let now = Instant::now(rt).ok()?;
        if now >= due {
            return Some(now);
        }
    }
    None
}

/// Commits until the span ends; those that begin within it are counted.
pub fn commit_until<L: Naming, R: Wait + Clock>(
    rt: &R,
    alloc: Global,
    index: &Index<'_, L>,
    share: &mut Share<L>,
    task: Task,
    span: Span,
) -> Commits {
    let mut times: Vec<u64> = Vec::new(alloc);
    let mut refused: u64 = 0;
    let mut state: u64 = 5;
    let gap = Duration::from_micros(u64::from(task.gap));
    let Ok(mut due) = Instant::now(rt) else {
        return Commits { times, refused };
    };
    for _turn in 0..u64::MAX {
        if task.writes == 0 {
            break;
        }
        let Some((writes, behind)) = drawing(alloc, task, state) else {
            break;
        };
        state = behind;
        let Some(from) = wait_until(rt, due) else {
            break;
        };
        if from >= span.end {
            break;
        }
        due = from.checked_add(gap).unwrap_or(span.end);
        let accepted = commit(rt, alloc, index, share, writes);
        let Ok(to) = Instant::now(rt) else {
            break;
        };
        if from < span.begin {
            continue;
        }
        let taken = u64::try_from(to.duration_since(from).as_nanos()).unwrap_or(u64::MAX);
        if !accepted || times.push(taken).is_err() {
            refused = refused.wrapping_add(1);
        }
    }
    Commits { times, refused }
}
