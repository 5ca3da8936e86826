//! Tasks that commit.

ghost use Rattle.std.specs.Prelude.{◌≡◌};

use crate::reads::{begin, shut};
use crate::task::{Index, Task};
use local_index::{Receipt, Write};
use std::alloc::Global;
use std::mem;
use std::ops::Bound;

/// Upserts each key, with itself as value, by commits of a thousand.
pub(crate) fn build<const S: usize>(index: &mut Index<S>, alloc: Global, keys: &[u64])
    ensures { index.new.places ≡ index.old.places }
{
    let mut writes = Vec::new(alloc);
    for key in keys {
        let _ = writes.push(Write::Upsert(*key, *key));
        if writes.len() >= 1000 {
            let full = mem::replace(&mut writes, Vec::new(alloc));
            commit::<S>(index, alloc, full);
            index.reclaim();
        }
    }
    commit::<S>(index, alloc, writes);
    index.reclaim();
}

/// Runs a round of a task that commits; each commit is made beside a session that opened before it, and the index
/// reclaims when that is closed.
pub(crate) fn commit_task<const S: usize>(
    index: &mut Index<S>,
    alloc: Global,
    probes: &[u64],
    task: Task,
)
    ensures { index.new.places ≡ index.old.places }
{
    match task {
        Task::CommitEach | Task::Cut => commit_each::<S>(index, alloc, probes, task),
        Task::CommitAll => commit_beside::<S>(index, alloc, upserts(alloc, probes)),
        Task::Clear => commit_beside::<S>(index, alloc, one(alloc, Write::Clear)),
        _ => {}
    }
}

/// Makes a commit for each probe.
fn commit_each<const S: usize>(index: &mut Index<S>, alloc: Global, probes: &[u64], task: Task)
    ensures { index.new.places ≡ index.old.places }
{
    for probe in probes {
        let write = match task {
            Task::Cut => Write::RemoveRange(Bound::Included(*probe), Bound::Unbounded),
            _ => Write::Upsert(*probe, 7),
        };
        commit_beside::<S>(index, alloc, one(alloc, write));
    }
}

/// One write.
pub(crate) fn one(alloc: Global, write: Write<u64, u64>) -> Vec<Write<u64, u64>> {
    let mut writes = Vec::new(alloc);
    let _ = writes.push(write);
    writes
}

/// An upsert of each probe.
fn upserts(alloc: Global, probes: &[u64]) -> Vec<Write<u64, u64>> {
    let mut writes = Vec::new(alloc);
    for probe in probes {
        let _ = writes.push(Write::Upsert(*probe, 7));
    }
    writes
}

/// Makes a commit beside a session that opened before it, and reclaims when that is closed.
#[inline(never)]
fn commit_beside<const S: usize>(index: &mut Index<S>, alloc: Global, writes: Vec<Write<u64, u64>>)
    ensures { index.new.places ≡ index.old.places }
{
    if let Some(session) = begin::<S>(index) {
        commit::<S>(index, alloc, writes);
        let _receipt = shut::<S>(index, session);
    }
    index.reclaim();
}

/// Makes a commit of no recorded reads.
fn commit<const S: usize>(index: &mut Index<S>, alloc: Global, writes: Vec<Write<u64, u64>>)
    ensures { index.new.places ≡ index.old.places }
{
    match index.commit(&Receipt::blank(alloc), writes) {
        Ok(_) => {}
        Err(_) => {}
    }
}
