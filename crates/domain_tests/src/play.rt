//! Plays tables of steps.

ghost use Rattle.std.specs.Prelude.{◌≡◌};
ghost use Rattle.sdd_domain.specs.Tokens.{own_of};
ghost use Rattle.domain_tests.specs.Steps.{Stays, IsOpen};

use crate::domain::{self, end};
use crate::stage::Stage;
use crate::steps::{Act, Found, Part, Table, Task, View};
use crate::views::Seen;
use crate::{cells, collectors, guard, items, shares, threads};
use sdd_domain::domain::Domain;
use sdd_domain::guard::Guard;
use sdd_domain::pointer::Ptr;
use sdd_plain::sizes::Sizes;
use std::alloc::Global;
use std::process::Abort;
use std::thread::Threads;

/// How many rows have been played, and how many of them before the first that found something else.
#[derive(Clone, Copy)]
struct Count {
    played: usize,
    right: usize,
}

impl Count {
    fn row(self, right: bool) -> Count {
        Count {
            played: self.played.saturating_add(1),
            right: if right && self.right == self.played {
                self.right.saturating_add(1)
            } else {
                self.right
            },
        }
    }
}

fn apart(stage: &mut Stage<'_>, rows: &[(Act, Found)], count: Count) -> Count
    requires { (own_of stage.old.here).nesting ≡ 0 }
    ensures { (own_of stage.new.here).nesting ≡ 0 }
{
    let mut count = count;
    for row in rows {
        let found = stage.apart(row.0);
        count = count.row(found == row.1);
    }
    count
}

fn under<R: Threads + Sync>(
    rt: &R,
    stage: &mut Stage<'_>,
    tasks: Option<[Task; 4]>,
    rows: &[(View, Found)],
    count: Count,
) -> Count
    requires { (own_of stage.old.here).nesting ≡ 0 }
    ensures { (own_of stage.new.here).nesting ≡ 0 }
{
    let Ok(guard) = Guard::new(stage.domain, &mut stage.here) else {
        unreachable!();
    };
    let count = match tasks {
        Some(tasks) => count.row(stage.watch(rt, tasks)),
        None => count,
    };
    let count = guarded(stage, &guard, rows, count);
    guard.close(stage.domain, &mut stage.here);
    count
}

fn guarded(stage: &mut Stage<'_>, guard: &Guard, rows: &[(View, Found)], count: Count) -> Count
    requires { IsOpen guard.now stage.old.here }
    ensures { Stays stage.old.here stage.new.here }
{
    let mut seen = Seen {
        pointer: Ptr::default(),
        item: None,
    };
    let mut count = count;
    for row in rows {
        let (next, found) = stage.view(guard, seen, row.0);
        seen = next;
        count = count.row(found == row.1);
    }
    count
}

/// Plays the parts, and ends the stage: how many rows were right before the first that wasn't.
fn parts<R: Threads + Abort + Sync>(rt: &R, stage: Stage<'_>, parts: &[Part]) -> Count
    requires { (own_of stage.here).nesting ≡ 0 }
{
    let mut stage = stage;
    let mut count = Count {
        played: 0,
        right: 0,
    };
    for part in parts {
        match part {
            Part::Apart(rows) => count = apart(&mut stage, rows, count),
            Part::Under(rows) => count = under(rt, &mut stage, None, rows, count),
            Part::Beside(tasks, rows) => count = under(rt, &mut stage, Some(*tasks), rows, count),
            Part::Renew => stage = stage.renewed(rt, [Task::Nothing; 4]),
            Part::Crowd(tasks) => {
                stage = stage.renewed(rt, *tasks);
                count = count.row(stage.sum > 0);
            }
        }
    }
    count.row(stage.end())
}

/// Plays a table in a new place: whether each row was right, and nothing was left.
fn play<R: Threads + Abort + Sync>(rt: &R, alloc: Global, table: &Table) -> Count {
    let (participants, slots, cells, first) = table.place;
    assert!(rt; participants > 0);
    let sizes = Sizes {
        participants: usize::from(participants),
        slots: usize::from(slots),
        cells: usize::from(cells),
        jobs: 0,
    };
    let domain = Domain::with_count(alloc, sizes, first).expect(rt, "memory is there");
    let count = parts(rt, Stage::new(rt, &domain), table.parts);
    end(rt, domain);
    count
}

/// Plays tables, each in a new place: of the first that has a row that isn't right, its number and that row's. Past the
/// last row something is left.
fn first_wrong<R: Threads + Abort + Sync>(
    rt: &R,
    alloc: Global,
    tables: &[Table],
) -> Option<(usize, usize)> {
    for at in 0..tables.len() {
        let count = play(rt, alloc, &tables[at]);
        if count.right < count.played {
            return Some((at, count.right));
        }
    }
    None
}

/// All tables, by what they are about: counts and guards, participants, threads, items and their owners, cells and their tags,
/// owners of what cells name, and private collectors.
const TABLES: &[&[Table]] = &[
    guard::TABLES,
    domain::TABLES,
    threads::TABLES,
    items::TABLES,
    cells::TABLES,
    shares::TABLES,
    collectors::TABLES,
];

#[test]
fn each_row_of_each_table_is_right(rt: HostRuntime) {
    for (file, tables) in TABLES.iter().enumerate() {
        assert_eq!(rt; first_wrong(&rt, rt.alloc(), tables), None, "tables {file}");
    }
}
