//! A run: an index, its readers, and its committer.

ghost use Rattle.std.specs.Prelude.{◌≡◌, ◌<◌, ◌≤◌};
ghost use Rattle.sdd_domain.specs.Tokens.{place_of, cell_count};
ghost use Rattle.shared_index.specs.SharedInvariant.{IsUnengaged};
ghost use Rattle.shared_sessions.specs.Openings.{root_number};

use crate::place::{leave, registered};
use crate::readers::{Load, Sample, Span, fresh, read_all, sessions};
use crate::task::{Index, Item, Task};
use crate::writer::{Commits, build, commit_until, rounds};
use sdd_domain::domain::Domain;
use sdd_domain::local::Local;
use shared_index::{Naming, Share, SharedIndex};
use std::alloc::{AllocError, Global};
use std::sync::Wait;
use std::sync::ledger::Blank;
use std::thread::{Threads, join};
use std::time::{Clock, Duration, Instant};

/// What a run found.
#[derive(Drop)]
pub struct Found {
    pub sample: Sample,
    pub commits: Commits,
}

/// A tenth of a second to warm up from now on, and then the milliseconds of the task.
fn span_of<R: Clock>(rt: &R, task: Task) -> Option<Span> {
    let begin = Instant::now(rt)
        .ok()?
        .checked_add(Duration::from_millis(100))?;
    let end = begin.checked_add(Duration::from_millis(u64::from(task.last)))?;
    Some(Span { begin, end })
}

/// The sum of what readers found. None if one of them wasn't registered.
fn total(samples: &[Option<Sample>]) -> Option<Sample> {
    let mut all = fresh(0);
    for sample in samples {
        let one = (*sample)?;
        all.sessions = all.sessions.wrapping_add(one.sessions);
        all.gets = all.gets.wrapping_add(one.gets);
        all.wrong = all.wrong.wrapping_add(one.wrong);
        all.sum = all.sum.wrapping_add(one.sum);
    }
    Some(all)
}

/// Readers beside a committer, by time: what they found.
fn beside<L: Naming, R: Threads + Wait + Clock + Sync>(
    rt: &R,
    alloc: Global,
    index: &Index<'_, L>,
    share: &mut Share<L>,
    task: Task,
) -> Option<Found> {
    let span = span_of(rt, task)?;
    let domain = index.domain();
    let root = index.root();
    // the closure that another thread gets borrows the place and the root, but not the index
    let (samples, commits) = join(
        rt,
        || -> Result<Vec<Option<Sample>>, AllocError>
            requires { root_number root < cell_count domain.now }
        { read_all(rt, alloc, domain, root, task, span) },
        || commit_until(rt, alloc, index, share, task, span),
    );
    let Ok(samples) = samples else {
        return None;
    };
    let sample = total(&samples)?;
    Some(Found { sample, commits })
}

/// Rounds in one thread: of commits, if there are writes, and else of sessions.
fn alone<L: Naming, R: Wait>(
    rt: &R,
    alloc: Global,
    index: &Index<'_, L>,
    share: &mut Share<L>,
    task: Task,
) -> Option<Found> {
    let mut refused = 0;
    let domain = index.domain();
    let root = index.root();
    let mut local = registered(domain)?;
    let count = if task.writes == 0 {
        task.last
    } else {
        refused = u64::from(task.last).wrapping_sub(rounds(rt, alloc, index, share, task));
        1
    };
    let load = Load {
        task,
        sessions: count,
    };
    let sample = sessions(alloc, domain, root, &mut local, load, fresh(77));
    leave(domain, local);
    let times: Vec<u64> = Vec::new(alloc);
    Some(Found {
        sample,
        commits: Commits { times, refused },
    })
}

/// Makes an index in a place, has the task done, and ends the index. None for want of memory, slots or participants.
pub fn run<L: Naming, R: Threads + Wait + Clock + Sync>(
    rt: &R,
    alloc: Global,
    domain: &Domain<Item>,
    local: Local<Item>,
    blank: Blank,
    task: Task,
) -> Option<Found>
    requires place { place_of domain.now ≡ L.place }
    requires rest { IsUnengaged L.place local }
    requires name { blank.name ≡ L.name }
    requires parts { (blank.parts ≡ L.parts) × (blank.parts ≡ 1) }
    requires last { L.last ≡ 18446744073709551615 }
{
    let Ok(mut all) = Vec::with_capacity(alloc, 1) else {
        leave(domain, local);
        return None;
    };
    let made: Result<(Index<'_, L>, Vec<Share<L>>), _> = SharedIndex::new(
        alloc, domain, local, blank, 1,
    );
    let (index, mut shares) = match made {
        Ok(made) => made,
        Err((local, _, _)) => {
            all.destroy_empty();
            leave(domain, local);
            return None;
        }
    };
    let Some(mut share) = shares.pop() else {
        unreachable!();
    };
    shares.destroy_empty();
    let built = build(rt, alloc, &index, &mut share, task);
    let found = if !built {
        None
    } else if task.readers == 0 {
        alone(rt, alloc, &index, &mut share, task)
    } else {
        beside(rt, alloc, &index, &mut share, task)
    };
    all.push_reserved(share);
    match index.close(all) {
        Ok((local, _)) => leave(domain, local),
        Err(_) => unreachable!(),
    }
    found
}
