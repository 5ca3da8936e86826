//! Threads that read by sessions.

ghost use Rattle.std.specs.Prelude.{◌≡◌, ◌<◌, ◌≤◌};
ghost use Rattle.sdd_domain.specs.Tokens.{place_of, home_of, own_of, cell_count, IsSame};
ghost use Rattle.shared_sessions.specs.Openings.{root_number};

use crate::place::{leave, registered};
use crate::task::{Item, Reader, Task, belongs, drawn, key, next};
use sdd_domain::domain::Domain;
use sdd_domain::local::Local;
use shared_sessions::Root;
use std::alloc::{AllocError, Global};
use std::thread;
use std::thread::Threads;
use std::time::{Clock, Instant};

/// What a reader found, and the state of its draws.
#[derive(Clone, Copy)]
pub struct Sample {
    pub state: u64,
    pub sessions: u64,
    pub gets: u64,
    pub wrong: u64,
    pub sum: u64,
}

/// Nothing yet, with this state of draws.
pub fn fresh(state: u64) -> Sample {
    Sample {
        state,
        sessions: 0,
        gets: 0,
        wrong: 0,
        sum: 0,
    }
}

/// When readers and the committer begin to count, and when they end.
#[derive(Clone, Copy)]
pub struct Span {
    pub begin: Instant,
    pub end: Instant,
}

/// One session of a participant, with the gets of a task. A session that is refused counts as a wrong get.
pub fn session(
    alloc: Global,
    domain: &Domain<Item>,
    root: Root<'_, Item>,
    local: &mut Local<Item>,
    task: Task,
    sample: Sample,
) -> Sample
    requires home { home_of local.old ≡ place_of domain.now }
    requires inside { root_number root < cell_count domain.now }
    requires closed { (own_of local.old).nesting ≡ 0 }
    ensures same { IsSame local.old local.new }
    ensures closed { (own_of local.new).nesting ≡ 0 }
{
    let mut state = sample.state;
    let mut wrong = sample.wrong;
    let mut sum = sample.sum;
    let Ok(session) = Reader::open(alloc, domain, root, 0, local) else {
        return Sample {
            state,
            sessions: sample.sessions,
            gets: sample.gets,
            wrong: wrong.wrapping_add(1),
            sum,
        };
    };
    for _get in 0..task.gets {
        state = next(state);
        let number = drawn(state, task.pairs);
        match session.get(&key(number)) {
            Some(value) if belongs(*value, number) => sum = sum.wrapping_add(*value),
            _ => wrong = wrong.wrapping_add(1),
        }
    }
    let _receipt = session.close(domain, local);
    Sample {
        state,
        sessions: sample.sessions.wrapping_add(1),
        gets: sample.gets.wrapping_add(u64::from(task.gets)),
        wrong,
        sum,
    }
}

/// How many sessions there are, with the gets of a task in each.
#[derive(Clone, Copy)]
pub struct Load {
    pub task: Task,
    pub sessions: u32,
}

/// The sessions of a participant, one by one.
pub fn sessions(
    alloc: Global,
    domain: &Domain<Item>,
    root: Root<'_, Item>,
    local: &mut Local<Item>,
    load: Load,
    sample: Sample,
) -> Sample
    requires home { home_of local.old ≡ place_of domain.now }
    requires inside { root_number root < cell_count domain.now }
    requires closed { (own_of local.old).nesting ≡ 0 }
    ensures same { IsSame local.old local.new }
    ensures closed { (own_of local.new).nesting ≡ 0 }
{
    let mut sample = sample;
    for _round in 0..load.sessions {
        sample = session(alloc, domain, root, local, load.task, sample);
    }
    sample
}

/// How many sessions are read between two looks at the clock: about a thousand gets, or a thousand sessions without any.
fn sessions_of_a_turn(task: Task) -> u32 {
    if task.gets == 0 {
        1000
    } else {
        (1000 / task.gets).max(1)
    }
}

/// What a reader does and when, and the state of its draws at first.
#[derive(Clone, Copy)]
struct Reading {
    task: Task,
    span: Span,
    seed: u64,
}

/// Sessions of a new participant until the span ends; those that begin within it are counted. None if no participant was free.
fn reads<R: Clock>(
    rt: &R,
    alloc: Global,
    domain: &Domain<Item>,
    root: Root<'_, Item>,
    reading: Reading,
) -> Option<Sample>
    requires inside { root_number root < cell_count domain.now }
{
    let Reading { task, span, seed } = reading;
    let load = Load {
        task,
        sessions: sessions_of_a_turn(task),
    };
    let mut local = registered(domain)?;
    let mut sample = fresh(seed);
    for _turn in 0..u64::MAX {
        let Ok(now) = Instant::now(rt) else {
            break;
        };
        if now >= span.end {
            break;
        }
        sample = sessions(alloc, domain, root, &mut local, load, sample);
        if now < span.begin {
            sample = fresh(sample.state);
        }
    }
    leave(domain, local);
    Some(sample)
}

/// The readers of a task, each in a thread.
pub fn read_all<R: Threads + Clock + Sync>(
    rt: &R,
    alloc: Global,
    domain: &Domain<Item>,
    root: Root<'_, Item>,
    task: Task,
    span: Span,
) -> Result<Vec<Option<Sample>>, AllocError>
    requires inside { root_number root < cell_count domain.now }
{
    thread::map_indices(
        rt,
        alloc,
        usize::from(task.readers),
        &|i| reads(
            rt,
            alloc,
            domain,
            root,
            Reading {
                task,
                span,
                seed: (i as u64).wrapping_add(77),
            },
        ),
    )
}
