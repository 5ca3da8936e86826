//! Jobs that participants of a place that threads share defer.

ghost use Rattle.std.specs.Prelude.{◌≡◌, [], IfErr};
ghost use Rattle.domain_tests.specs.Steps.{Rests, StillRests};

use crate::crowd::{Work, four};
use crate::domain::{end, member};
use crate::items::sized;
use crate::steps::Task;
use sdd_domain::domain::Domain;
use sdd_domain::guard::Guard;
use sdd_domain::held::Held;
use sdd_domain::holds::Holds;
use sdd_domain::local::Local;
use std::alloc::{AllocError, Global};
use std::process::Abort;
use std::sync::Arc;
use std::sync::atomic::{AtomicU64, Ordering};
use std::thread::Threads;

const ROOM: &str = "memory is there";

/// A job, which counts how often it runs.
#[derive(Drop)]
pub(crate) struct Count {
    runs: Arc<AtomicU64>,
}

impl Count {
    fn run(self) {
        self.runs.fetch_add(1, Ordering::SeqCst);
    }
}

impl Holds for Count {
    ghost holds = { λ _. [] };

    fn give_up(&mut self) -> Option<Held<Count>> {
        None
    }

    fn end(self) {
        self.run();
    }
}

/// A job that counts there how often it runs.
fn counting(runs: &Arc<AtomicU64>) -> Result<Count, AllocError> {
    Ok(Count {
        runs: runs.clone()?,
    })
}

/// Defers a job under an accelerated guard of its own. It is returned where no slot is free.
fn deferred(domain: &Domain<Count>, local: &mut Local<Count>, job: Count) -> Result<(), Count>
    requires rests { Rests domain.now local.old }
    ensures refused { IfErr result (λ back. back ≡ job) }
    ensures rests { StillRests local.old local.new }
{
    let Ok(guard) = Guard::new(domain, local) else {
        unreachable!();
    };
    let waits = guard.defer_execute(domain, job, local);
    guard.accelerate(local);
    guard.close(domain, local);
    waits
}

/// Defers a job that counts there: whether it waits.
fn waits(domain: &Domain<Count>, local: &mut Local<Count>, runs: &Arc<AtomicU64>) -> bool
    requires rests { Rests domain.now local.old }
    ensures rests { StillRests local.old local.new }
{
    match counting(runs) {
        Ok(job) => deferred(domain, local, job).is_ok(),
        Err(_) => false,
    }
}

/// Opens an accelerated guard and closes it: how many jobs have run once it is open.
fn passed(domain: &Domain<Count>, local: &mut Local<Count>, runs: &AtomicU64) -> u64
    requires rests { Rests domain.now local.old }
    ensures rests { StillRests local.old local.new }
{
    let Ok(guard) = Guard::new(domain, local) else {
        unreachable!();
    };
    let run = runs.load(Ordering::SeqCst);
    guard.accelerate(local);
    guard.close(domain, local);
    run
}

/// The same this many times: how many jobs have run once the last one is open.
fn passes(domain: &Domain<Count>, local: &mut Local<Count>, runs: &AtomicU64, guards: u32) -> u64
    requires rests { Rests domain.now local.old }
    ensures rests { StillRests local.old local.new }
{
    let mut run = 0;
    for _i in 0..guards {
        run = passed(domain, local, runs);
    }
    run
}

/// Defers two jobs, of which a place of one slot gives the second one back: whether it did so with that one alone; how many jobs have run as
/// the third guard behind them is open, as the fourth is, and later.
fn once<R: Abort>(rt: &R, domain: &Domain<Count>, runs: &Arc<AtomicU64>) -> Found {
    let mut local = member(rt, domain);
    let first = waits(domain, &mut local, runs);
    let second = waits(domain, &mut local, runs);
    let third = passed(domain, &mut local, runs);
    let fourth = passed(domain, &mut local, runs);
    let later = passes(domain, &mut local, runs, 8);
    local.end(domain);
    (first && !second, [third, fourth, later])
}

/// Registers a participant, has it defer a job, and ends it. Whether the job waits.
fn left_behind<R: Abort>(rt: &R, domain: &Domain<Count>, runs: &Arc<AtomicU64>) -> bool {
    let mut local = member(rt, domain);
    let waits = waits(domain, &mut local, runs);
    local.end(domain);
    waits
}

/// Two participants, one behind the other, leave a job behind, of which the next one runs the first: whether both waited; how
/// many jobs have run as the fourth guard of that one is open, and how many at the end.
fn behind<R: Abort>(rt: &R, domain: &Domain<Count>, runs: &Arc<AtomicU64>) -> Found {
    let waits = left_behind(rt, domain, runs);
    let mut local = member(rt, domain);
    let next = passes(domain, &mut local, runs, 4);
    local.end(domain);
    let again = left_behind(rt, domain, runs);
    (waits && again, [next, runs.load(Ordering::SeqCst), 0])
}

/// Defers a job beside an older guard of another participant: whether it waits; how many jobs have run as eight guards were
/// open beside that, and four behind it.
fn beside<R: Abort>(rt: &R, domain: &Domain<Count>, runs: &Arc<AtomicU64>) -> Found {
    let mut local = member(rt, domain);
    let mut other = member(rt, domain);
    let Ok(older) = Guard::new(domain, &mut other) else {
        unreachable!();
    };
    let waits = waits(domain, &mut local, runs);
    let beside = passes(domain, &mut local, runs, 8);
    older.close(domain, &mut other);
    let behind = passes(domain, &mut local, runs, 4);
    local.end(domain);
    other.end(domain);
    (waits, [beside, behind, 0])
}

/// What the jobs of a thread need.
#[derive(Drop)]
pub(crate) struct Scene<'a> {
    domain: &'a Domain<Count>,
    runs: &'a Arc<AtomicU64>,
}

/// Defers a thousand jobs beside others, and runs those at once for which no slot is free: how many there were. Fewer where
/// memory is refused; none if no participant was free.
pub(crate) fn deferring(scene: &Scene) -> Option<u32> {
    let Scene { domain, runs } = *scene;
    let Ok(mut local) = domain.register() else {
        return None;
    };
    let mut jobs = 0u32;
    for _i in 0..1000u32 {
        if let Ok(job) = counting(runs) {
            jobs = jobs.saturating_add(1);
            if let Err(job) = deferred(domain, &mut local, job) {
                job.run();
            }
        }
    }
    local.end(domain);
    Some(jobs)
}

/// Whether all was as it is to be, and what was counted.
type Found = (bool, [u64; 3]);

/// What is done with jobs.
#[derive(Clone, Copy)]
enum Play {
    Once,
    Behind,
    Beside,
    /// Four threads defer a thousand jobs each.
    Threads,
}

/// What is done in a place for this many participants, with this many slots; what is found, and how many jobs have run when the
/// place is ended.
type Row = (u8, u8, Play, Found, u64);

/// Whether it takes the course that the row says.
fn is_right<R: Threads + Abort + Sync>(rt: &R, alloc: Global, row: &Row) -> bool {
    assert!(rt; row.0 > 0);
    let runs = Arc::new(alloc, AtomicU64::new(0)).expect(rt, ROOM);
    let domain = Domain::new(alloc, sized(row.0, row.1)).expect(rt, ROOM);
    let found = match row.2 {
        Play::Once => once(rt, &domain, &runs),
        Play::Behind => behind(rt, &domain, &runs),
        Play::Beside => beside(rt, &domain, &runs),
        Play::Threads => threads(rt, &domain, &runs),
    };
    end(rt, domain);
    found == row.3 && runs.load(Ordering::SeqCst) == row.4
}

/// How many jobs four threads deferred that defer a thousand each.
fn threads<R: Threads + Sync>(rt: &R, domain: &Domain<Count>, runs: &Arc<AtomicU64>) -> Found {
    let work = Work::Jobs(Scene { domain, runs });
    match four(rt, &work, [Task::Defers; 4]) {
        Some(jobs) => (true, [u64::from(jobs), 0, 0]),
        None => (false, [0; 3]),
    }
}

/// A job runs once as the fourth guard opens. What an ended participant deferred is run by the next one, or at the close. A job
/// waits for an older guard of another participant. Each job of threads runs once.
const ROWS: &[Row] = &[
    (1, 1, Play::Once, (true, [0, 1, 1]), 1),
    (1, 1, Play::Behind, (true, [1, 1, 0]), 2),
    (2, 1, Play::Beside, (true, [0, 1, 0]), 1),
    (4, 8, Play::Threads, (true, [4000, 0, 0]), 4000),
];

#[test]
fn jobs_run_once_when_nobody_is_in_their_way(rt: HostRuntime) {
    let mut right = 0usize;
    let rows = ROWS;
    for at in 0..rows.len() {
        if right == at && is_right(&rt, rt.alloc(), &rows[at]) {
            right = right.saturating_add(1);
        }
    }
    assert_eq!(rt; right, rows.len(), "the first row that isn't right");
}
