//! Guards and items of a place that threads share, over and over: what `bench/guards` measures.
//!
//! `domain_bench THREADS KIND ROUNDS [PARTICIPANTS]` runs ROUNDS rounds in each of THREADS threads. Each thread has
//! a participant of its own, of PARTICIPANTS, or of as many as there are threads. A round opens a guard, reads the epoch
//! under it, and closes it. The guards are `plain`, `accelerated`, or `nested` in one that is open throughout. The sum
//! of the epochs that were read is printed, which is 0 while nothing raises the count. A round of `items` places a
//! number, reads it, gives its owner back, and opens and closes an accelerated guard, which reclaims what is due; the
//! sum of the numbers that were read is printed. A round of `loads` opens a guard, loads a cell, reads the number in it,
//! and closes; one of `load` does so under a guard that stays open; one of `swaps` places a number, swaps it into a cell,
//! releases the owner that was there, and reclaims as one of `items` does; one of `swap` swaps two owners; each thread has a cell of
//! its own. A round of `clones` makes one more owner of an item, reads the item by it, and gives it back. A round of `stack`
//! or `queue` pushes a number on one that all threads share, and pops one. With `memory` nothing is done in a place of
//! `ROUNDS` slots. `alone`, `alone-items` and `alone-memory` are `accelerated`, `items` and `memory` in a place of one thread.
//! Without arguments there isn't even a place.
#![tactic(auto)]

mod alone;
mod containers;

ghost use Rattle.std.specs.Prelude.{◌<◌, ◌≤◌, IfSome};
ghost use Rattle.sdd_domain.specs.Layout.{IsSized};
ghost use Rattle.sdd_domain.specs.Cells.{cell_number};
ghost use Rattle.sdd_domain.specs.Tokens.{cell_count};
ghost use Rattle.shared_containers.specs.Containers.{IsAsBefore, IsReady};

use crate::alone::{Round, rounds_alone};
use crate::containers::rounds_of_all;
use sdd_domain::atomic_shared::AtomicShared;
use sdd_domain::domain::Domain;
use sdd_domain::guard::Guard;
use sdd_domain::local::Local;
use sdd_domain::shared::Shared;
use sdd_plain::epoch::Epoch;
use sdd_plain::sizes::Sizes;
use sdd_plain::tag::Tag;
use std::sync::Wait;
use std::{env, io, thread};

#[derive(Clone, Copy)]
enum Kind {
    Plain,
    Accelerated,
    Nested,
    Items,
    Loads,
    Load,
    Swaps,
    Swap,
    Clones,
    Stack,
    Queue,
    Memory,
    Alone(Round),
}

/// The threads, the kind and the rounds that three arguments name, if they do.
fn task_of(threads: &str, kind: &str, rounds: &str) -> Option<(u8, Kind, u32)>
    ensures { IfSome result (λ t. 1 ≤ t.0) }
{
    let kind = match kind {
        "plain" => Kind::Plain,
        "accelerated" => Kind::Accelerated,
        "nested" => Kind::Nested,
        "items" => Kind::Items,
        "loads" => Kind::Loads,
        "load" => Kind::Load,
        "swaps" => Kind::Swaps,
        "swap" => Kind::Swap,
        "clones" => Kind::Clones,
        "stack" => Kind::Stack,
        "queue" => Kind::Queue,
        "memory" => Kind::Memory,
        "alone" => Kind::Alone(Round::Guard),
        "alone-items" => Kind::Alone(Round::Item),
        "alone-memory" => Kind::Alone(Round::Nothing),
        _ => return None,
    };
    let threads = threads.parse::<u8>().ok()?;
    if threads == 0 {
        return None;
    }
    Some((threads, kind, rounds.parse::<u32>().ok()?))
}

/// A guard, opened and closed: the epoch that it saw. It is compiled into each of its callers.
#[inline(always)]
pub(crate) fn pass(domain: &Domain<u64>, local: &mut Local<u64>, accelerated: bool) -> Epoch
    requires { IsReady local.old domain.now }
    ensures { IsAsBefore local.old local.new }
{
    let Ok(guard) = Guard::new(domain, local) else {
        unreachable!();
    };
    if accelerated {
        guard.accelerate(local);
    }
    let epoch = guard.epoch(domain, local);
    guard.close(domain, local);
    epoch
}

/// This many guards one by one, within the one that may be open: the sum of the epochs that they saw. It is compiled by
/// itself, so that what is open isn't known to it beforehand.
#[inline(never)]
fn passes(domain: &Domain<u64>, local: &mut Local<u64>, accelerated: bool, rounds: u32) -> u64
    requires { IsReady local.old domain.now }
    ensures { IsAsBefore local.old local.new }
{
    let mut sum: u64 = 0;
    for _i in 0..rounds {
        let epoch = pass(domain, local, accelerated);
        sum = sum.wrapping_add(u64::from(u8::from(epoch)));
    }
    sum
}

/// This many items one by one, each with an accelerated guard behind it: the sum of what was placed and read.
#[inline(never)]
fn items(domain: &Domain<u64>, local: &mut Local<u64>, rounds: u32) -> u64
    requires { IsReady local.old domain.now }
    ensures { IsAsBefore local.old local.new }
{
    let mut sum: u64 = 0;
    for i in 0..rounds {
        if let Ok(owner) = Shared::new(domain, u64::from(i), local) {
            sum = sum.wrapping_add(*owner.as_ref());
            owner.release(domain, local);
        }
        let _ = pass(domain, local, true);
    }
    sum
}

/// This many guards one by one, under each of which the cell is loaded and what it names is read: the sum of that.
#[inline(never)]
fn loads(domain: &Domain<u64>, local: &mut Local<u64>, cell: &AtomicShared<u64>, rounds: u32) -> u64
    requires ready { IsReady local.old domain.now }
    requires inside { cell_number cell.now < cell_count domain.now }
    ensures { IsAsBefore local.old local.new }
{
    let mut sum: u64 = 0;
    for _i in 0..rounds {
        let Ok(guard) = Guard::new(domain, local) else {
            unreachable!();
        };
        let item = cell.load(domain, &guard, local).as_ref().copied();
        guard.close(domain, local);
        sum = sum.wrapping_add(item.unwrap_or(0));
    }
    sum
}

/// This many items one by one, each swapped into the cell, with an accelerated guard behind it: the sum of those that came
/// out.
#[inline(never)]
fn swaps(domain: &Domain<u64>, local: &mut Local<u64>, cell: &AtomicShared<u64>, rounds: u32) -> u64
    requires ready { IsReady local.old domain.now }
    requires inside { cell_number cell.now < cell_count domain.now }
    ensures { IsAsBefore local.old local.new }
{
    let mut sum: u64 = 0;
    for i in 0..rounds {
        if let Ok(owner) = Shared::new(domain, u64::from(i), local) {
            if let (Some(old), _) = cell.swap(domain, (Some(owner), Tag::None), local) {
                sum = sum.wrapping_add(*old.as_ref());
                old.release(domain, local);
            }
        }
        let _ = pass(domain, local, true);
    }
    sum
}

/// This many loads of the cell under one guard, and reads of what it names: the sum of that.
#[inline(never)]
fn loads_under(
    domain: &Domain<u64>,
    local: &mut Local<u64>,
    cell: &AtomicShared<u64>,
    rounds: u32,
) -> u64
    requires ready { IsReady local.old domain.now }
    requires inside { cell_number cell.now < cell_count domain.now }
    ensures { IsAsBefore local.old local.new }
{
    let Ok(guard) = Guard::new(domain, local) else {
        unreachable!();
    };
    let mut sum: u64 = 0;
    for _i in 0..rounds {
        let item = cell.load(domain, &guard, local).as_ref().copied();
        sum = sum.wrapping_add(item.unwrap_or(0));
    }
    guard.close(domain, local);
    sum
}

/// This many owners one by one, swapped with the one that the cell has: the sum of what those read that were taken out.
#[inline(never)]
fn swaps_owners(
    domain: &Domain<u64>,
    local: &mut Local<u64>,
    cell: &AtomicShared<u64>,
    rounds: u32,
) -> u64
    requires ready { IsReady local.old domain.now }
    requires inside { cell_number cell.now < cell_count domain.now }
    ensures { IsAsBefore local.old local.new }
{
    let Ok(mut owner) = Shared::new(domain, 2, local) else {
        return 0;
    };
    let mut sum: u64 = 0;
    for _i in 0..rounds {
        let (Some(old), _) = cell.swap(domain, (Some(owner), Tag::None), local) else {
            return sum;
        };
        sum = sum.wrapping_add(*old.as_ref());
        owner = old;
    }
    owner.release(domain, local);
    sum
}

/// This many owners one by one, beside one that stays, of the same item: the sum of what they read.
#[inline(never)]
fn clones(domain: &Domain<u64>, local: &mut Local<u64>, rounds: u32) -> u64
    requires { IsReady local.old domain.now }
    ensures { IsAsBefore local.old local.new }
{
    let Ok(mut owner) = Shared::new(domain, 1, local) else {
        return 0;
    };
    let mut sum: u64 = 0;
    for _i in 0..rounds {
        match owner.clone(domain, local) {
            Ok((one, other)) => {
                sum = sum.wrapping_add(*other.as_ref());
                other.release(domain, local);
                owner = one;
            }
            Err(back) => owner = back,
        }
    }
    owner.release(domain, local);
    sum
}

/// Rounds with a cell.
fn rounds_with(
    domain: &Domain<u64>,
    local: &mut Local<u64>,
    cell: &AtomicShared<u64>,
    kind: Kind,
    rounds: u32,
) -> u64
    requires ready { IsReady local.old domain.now }
    requires inside { cell_number cell.now < cell_count domain.now }
    ensures { IsAsBefore local.old local.new }
{
    match kind {
        Kind::Load => loads_under(domain, local, cell, rounds),
        Kind::Swaps => swaps(domain, local, cell, rounds),
        Kind::Swap => swaps_owners(domain, local, cell, rounds),
        Kind::Clones => clones(domain, local, rounds),
        _ => loads(domain, local, cell, rounds),
    }
}

/// Rounds with a cell that owns 1 at first. None if there is no cell or no slot.
fn with_cell(domain: &Domain<u64>, local: &mut Local<u64>, kind: Kind, rounds: u32) -> Option<u64>
    requires { IsReady local.old domain.now }
    ensures { IsAsBefore local.old local.new }
{
    let cell = AtomicShared::null(domain, local).ok()?;
    if let Ok(owner) = Shared::new(domain, 1, local) {
        if let (Some(old), _) = cell.swap(domain, (Some(owner), Tag::None), local) {
            old.release(domain, local);
        }
    }
    let sum = rounds_with(domain, local, &cell, kind, rounds);
    cell.retire(domain, local);
    Some(sum)
}

/// The rounds of one thread. None if no participant was free.
fn work(domain: &Domain<u64>, kind: Kind, rounds: u32) -> Option<u64> {
    let mut local = domain.register().ok()?;
    let sum = match kind {
        Kind::Plain => passes(domain, &mut local, false, rounds),
        Kind::Accelerated => passes(domain, &mut local, true, rounds),
        Kind::Nested => {
            let Ok(outer) = Guard::new(domain, &mut local) else {
                unreachable!();
            };
            let sum = passes(domain, &mut local, false, rounds);
            outer.close(domain, &mut local);
            sum
        }
        Kind::Items => items(domain, &mut local, rounds),
        _ => with_cell(domain, &mut local, kind, rounds).unwrap_or(0),
    };
    local.end(domain);
    Some(sum)
}

/// Ends a place, as soon as nobody is registered.
fn end<R: Wait>(rt: &R, mut domain: Domain<u64>) {
    for _ in rt.forever() {
        match domain.close() {
            Ok(()) => return,
            Err(back) => domain = back,
        }
    }
    unreachable!()
}

/// The sum of all, if none is missing.
fn total(sums: &[Option<u64>]) -> Option<u64> {
    let mut all: u64 = 0;
    for sum in sums {
        all = all.wrapping_add((*sum)?);
    }
    Some(all)
}

/// The sizes of a place for this many participants, and for their items if these are measured. What is popped waits until
/// others have closed their guards, so there are many slots for that.
fn sizes_of(kind: Kind, participants: u8, rounds: u32) -> Sizes
    requires { 1 ≤ participants }
    ensures { IsSized result }
{
    let participants = usize::from(participants);
    let slots = match kind {
        Kind::Plain | Kind::Accelerated | Kind::Nested => 0,
        Kind::Stack | Kind::Queue => 1024 * participants,
        Kind::Memory => (rounds as usize).min(1048576),
        _ => 64 * participants,
    };
    let cells = match kind {
        Kind::Stack | Kind::Queue => slots + 3,
        _ => participants,
    };
    Sizes {
        participants,
        slots,
        cells,
        jobs: 0,
    }
}

fn main(rt: HostRuntime) -> io::Result<()> {
    let mut words = env::args(&rt)?.skip(1);
    let Some(threads) = words.next() else {
        return Ok(());
    };
    let task = match (words.next(), words.next()) {
        (Some(kind), Some(rounds)) => task_of(threads.as_str(), kind.as_str(), rounds.as_str()),
        _ => None,
    };
    let Some((threads, kind, rounds)) = task else {
        return Err(io::ErrorKind::InvalidInput.into());
    };
    let participants = match words.next() {
        Some(number) => number
            .as_str()
            .parse::<u8>()
            .unwrap_or(threads)
            .max(threads),
        None => threads,
    };
    if let Kind::Alone(round) = kind {
        let sum = rounds_alone(&rt, rt.alloc(), participants, round, rounds)?;
        return println!(rt; "{sum}");
    }
    let domain = Domain::new(rt.alloc(), sizes_of(kind, participants, rounds))?;
    let sums = match kind {
        Kind::Stack => rounds_of_all(&rt, rt.alloc(), &domain, threads, true, rounds),
        Kind::Queue => rounds_of_all(&rt, rt.alloc(), &domain, threads, false, rounds),
        Kind::Memory => Ok(Vec::new(rt.alloc())),
        _ => thread::map_indices(
            &rt,
            rt.alloc(),
            usize::from(threads),
            &|_| work(&domain, kind, rounds),
        ),
    };
    end(&rt, domain);
    let Some(sum) = total(&sums?) else {
        return Err(io::ErrorKind::Other.into());
    };
    println!(rt; "{sum}")
}
