//! Threads that share a place. What they find is the same whatever the schedule.

ghost use Rattle.std.specs.Prelude.{◌<◌};
ghost use Rattle.sdd_domain.specs.Cells.{cell_number};
ghost use Rattle.sdd_domain.specs.Tokens.{cell_count};
ghost use Rattle.domain_tests.specs.Steps.{Rests, StillRests, IsInside};

use crate::cells::{adds_one, keeps};
use crate::collectors::{collecting, handing_over};
use crate::guard::pass;
use crate::hands::{item, told};
use crate::items::places;
use crate::shares::{clones, shares};
use crate::steps::Act::{Raise, Sum};
use crate::steps::Found::{Is, Yes};
use crate::steps::Part::{Apart, Beside, Crowd};
use crate::steps::Task::{ComesAndGoes, Nothing, Stays};
use crate::steps::View::Epoch as TheEpoch;
use crate::steps::{Found, Table, Task};
use sdd_domain::atomic_shared::AtomicShared;
use sdd_domain::domain::Domain;
use sdd_domain::guard::Guard;
use sdd_domain::local::Local;
use sdd_plain::epoch::Epoch;

/// What threads share: a place, a cell of it or none, and an item or none that an owner lends.
#[derive(Drop)]
pub(crate) struct Scene<'a> {
    pub(crate) domain: &'a Domain<u64>,
    pub(crate) cell: &'a Option<AtomicShared<u64>>,
    pub(crate) lent: Option<&'a u64>,
    ghost inside: { IsInside domain.now cell.now },
}

/// An accelerated guard under which the epoch is read three times: whether it went on by one at most.
fn is_steady(domain: &Domain<u64>, local: &mut Local<u64>) -> bool
    requires rests { Rests domain.now local.old }
    ensures rests { StillRests local.old local.new }
{
    let Ok(guard) = Guard::new(domain, local) else {
        unreachable!();
    };
    guard.accelerate(local);
    let first = guard.epoch(domain, local);
    let second = guard.epoch(domain, local);
    let third = guard.epoch(domain, local);
    guard.close(domain, local);
    goes_on(first, second) && goes_on(second, third) && goes_on(first, third)
}

/// Whether the later epoch is the same or the next.
fn goes_on(earlier: Epoch, later: Epoch) -> bool {
    later == earlier || later == earlier.next()
}

/// What a task with a cell finds in one turn, with an accelerated guard behind it.
fn around(
    domain: &Domain<u64>,
    local: &mut Local<u64>,
    cell: &AtomicShared<u64>,
    task: Task,
    turn: u64,
) -> Found
    requires rests { Rests domain.now local.old }
    requires inside { cell_number cell.now < cell_count domain.now }
    ensures rests { StillRests local.old local.new }
{
    let found = match task {
        Task::Swaps(salt) => told(keeps(domain, local, cell, salt.wrapping_add(turn))),
        Task::Counts => adds_one(domain, local, cell),
        Task::Shares => shares(domain, local, cell),
        Task::Clones => clones(domain, local, cell),
        _ => Found::No,
    };
    let _ = pass(domain, local, true);
    found
}

/// What a task finds in one turn: yes where it was done, and no where something was wrong.
fn found(
    domain: &Domain<u64>,
    local: &mut Local<u64>,
    cell: &Option<AtomicShared<u64>>,
    task: Task,
    turn: u64,
) -> Found
    requires rests { Rests domain.now local.old }
    requires inside { IsInside domain.now cell.now }
    ensures rests { StillRests local.old local.new }
{
    match (cell, task) {
        (_, Task::Stays | Task::ComesAndGoes) => told(is_steady(domain, local)),
        (_, Task::Places(salt)) => places(domain, local, salt.wrapping_add(turn)),
        (Some(cell), _) => around(domain, local, cell, task, turn),
        (None, _) => Found::No,
    }
}

/// This many turns of one participant: how often the task was done. None if something was wrong, or no participant was free.
fn turns(scene: &Scene, task: Task, turns: u32) -> Option<u32> {
    let Scene {
        domain,
        cell,
        lent: _,
    } = *scene;
    let Ok(mut local) = domain.register() else {
        return None;
    };
    let mut done: u32 = 0;
    let mut right = true;
    for turn in 0..turns {
        match found(domain, &mut local, cell, task, u64::from(turn)) {
            Found::Yes => done = done.saturating_add(1),
            Found::No => right = false,
            _ => {}
        }
    }
    local.end(domain);
    if right { Some(done) } else { None }
}

/// How often a task was done. None if something was wrong, or no participant was free.
pub(crate) fn done(scene: &Scene, task: Task) -> Option<u32> {
    let (lives, each) = match task {
        Task::Nothing => (0u32, 0u32),
        Task::Reads(wanted) => {
            return if item(scene.lent) == Found::Is(wanted) {
                Some(1)
            } else {
                None
            };
        }
        Task::Collects => return collecting(scene.domain, 1000),
        Task::HandsOver => return handing_over(scene.domain),
        Task::ComesAndGoes => (1000, 1),
        Task::Counts => (1, 4000),
        Task::Swaps(_) => (1, 25_000),
        _ => (1, 1000),
    };
    let mut done: u32 = 0;
    for _life in 0..lives {
        done = done.saturating_add(turns(scene, task, each)?);
    }
    Some(done)
}

pub(crate) const TABLES: &[Table] = &[
    // Four threads open a thousand accelerated guards each, and the count continues behind them.
    Table {
        place: (4, 0, 0, 0),
        parts: &[Crowd([Stays; 4]), Apart(&[(Sum, Is(4000)), (Raise, Yes)])],
    },
    // Participants come and go beside guards of others.
    Table {
        place: (2, 0, 0, 0),
        parts: &[
            Crowd([Stays, ComesAndGoes, Nothing, Nothing]),
            Apart(&[(Sum, Is(2000))]),
        ],
    },
    // The count is raised once under a guard, whatever others do.
    Table {
        place: (3, 0, 0, 0),
        parts: &[
            Beside([Stays, Stays, Nothing, Nothing], &[(TheEpoch, Is(1))]),
            Apart(&[(Sum, Is(2000))]),
        ],
    },
];
