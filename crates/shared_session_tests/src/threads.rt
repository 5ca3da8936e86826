//! Sessions of threads beside a thread that publishes. What they find is the same whatever the schedule.

ghost use Rattle.std.specs.Prelude.{◌<◌};
ghost use Rattle.sdd_domain.specs.Cells.{cell_number};
ghost use Rattle.sdd_domain.specs.Tokens.{cell_count};
ghost use Rattle.shared_session_tests.specs.Participants.{CanRead, StillRests};

use crate::calls::{ended, leave, opened, registered};
use crate::place::{At, Item, reclaim, renew};
use sdd_domain::atomic_shared::AtomicShared;
use sdd_domain::domain::Domain;
use sdd_domain::local::Local;
use std::alloc::Global;
use std::process::Abort;
use std::thread::{Threads, join};

/// How many versions are published behind the first one, each with its number as each of its values.
const LAST: u64 = 20;

/// The number of a session's version, if its number is at least this one and all of its values are its number.
fn whole(alloc: Global, at: At<'_>, local: &mut Local<Item>, at_least: u64) -> Option<u64>
    requires { CanRead at.domain.now at.cell.now local.old }
    ensures { StillRests local.old local.new }
{
    let session = opened(alloc, at, local, at_least).ok()?;
    let number = session.number();
    let mut same = session.len() == 3;
    for (_, value) in session.iter() {
        same = same && *value == number;
    }
    ended(at.domain, session, local);
    if same && number >= at_least {
        Some(number)
    } else {
        None
    }
}

/// Two hundred sessions of a participant, each for at least the number of the one before: how many were whole. None if
/// no participant was free.
fn reads(alloc: Global, domain: &Domain<Item>, cell: &AtomicShared<Item>) -> Option<u32>
    requires inside { cell_number cell.now < cell_count domain.now }
{
    let mut local = registered(domain).ok()?;
    let mut count: u32 = 0;
    let mut latest = 0;
    for _turn in 0..200u32 {
        if let Some(number) = whole(alloc, At { domain, cell }, &mut local, latest) {
            latest = number;
            count = count.saturating_add(1);
        }
    }
    leave(domain, local);
    Some(count)
}

/// Publishes the versions behind the first one. None if no participant was free.
fn writes<R: Abort>(
    rt: &R,
    alloc: Global,
    domain: &Domain<Item>,
    cell: &AtomicShared<Item>,
) -> Option<()>
    requires inside { cell_number cell.now < cell_count domain.now }
{
    let mut local = registered(domain).ok()?;
    for behind in 0..LAST {
        let number = behind + 2;
        let values = (number, number, number);
        renew(rt, alloc, At { domain, cell }, &mut local, (number, values));
        reclaim(domain, &mut local);
    }
    leave(domain, local);
    Some(())
}

/// Whether each session of a thread reads one version beside a thread that publishes, and one behind both reads the last.
pub fn are_whole<R: Threads + Abort + Sync>(
    rt: &R,
    alloc: Global,
    at: At<'_>,
    local: &mut Local<Item>,
) -> bool
    requires { CanRead at.domain.now at.cell.now local.old }
    ensures { StillRests local.old local.new }
{
    // (what a thread borrows is the place and the cell)
    let At { domain, cell } = at;
    let (written, read) = join(
        rt,
        || writes(rt, alloc, domain, cell),
        || reads(alloc, domain, cell),
    );
    let last = whole(alloc, at, local, LAST + 1);
    (written, read) == (Some(()), Some(200)) && last == Some(LAST + 1)
}
