//! An index that threads share, read and written over and over: what `bench/threads` measures.
//!
//! `shared_bench PAIRS READERS GETS WRITES MILLISECONDS [GAP]` builds an index of PAIRS pairs. READERS threads then read it by
//! sessions of GETS gets each, beside a thread that commits WRITES upserts at a time, if any. It prints the gets, the sessions,
//! how many gets found another value than one that belongs to their key, the commits, those that were refused, and
//! how many nanoseconds half, 99 % and 99.9 % of the commits took at most, each with the reclaim behind it. A commit begins
//! at least GAP microseconds after the one before, if GAP is given.
//!
//! With no reader, the last word is a number of rounds, which one thread makes: of sessions, or of commits, if there are
//! writes. It prints the same, but times no commit and so counts none, and the sum of the values that were got. Without
//! arguments nothing is done.
//!
//! `shared_bench log PAIRS ROUNDS SEED` has two threads commit to an index of PAIRS pairs and two read it, ROUNDS times each.
//! It prints what they read and what commits were answered, which `scripts/histories` looks at: a line for each pair at first, one for
//! each turn of each thread, and one for the last number.
#![tactic(auto)]

ghost use Rattle.std.specs.Prelude.{◌≡◌, ◌<◌, ◌≤◌};
ghost use Rattle.sdd_domain.specs.Layout.{IsSized};

mod bench;
mod log;
mod place;
mod readers;
mod task;
mod writer;

use bench::Found;
use log::{Event, Logged, Logs};
use place::registered;
use sdd_domain::domain::Domain;
use sdd_plain::sizes::Sizes;
use std::alloc::Global;
use std::marker::Brand;
use std::sync::Wait;
use std::sync::ledger::Blank;
use std::thread::Threads;
use std::time::Clock;
use std::{env, io};
use task::{Item, Task, key, number};

/// The sizes of a place for such an index: four times the slots that its pairs can take, and those of many commits that
/// wait until a thread that was halted has closed its session.
fn sizes_of(task: &Task) -> Sizes
    ensures { IsSized result }
{
    let pairs = task.pairs.min(1_000_000_000) as usize;
    let writes = task.writes.min(1_000_000) as usize;
    Sizes {
        participants: usize::from(task.readers) + 2,
        slots: pairs / 8 + 16 * writes + 20_000,
        cells: 1,
        jobs: 0,
    }
}

/// Ends a place, as soon as nobody is registered.
fn end<R: Wait>(rt: &R, mut domain: Domain<Item>) {
    for _ in rt.forever() {
        match domain.close() {
            Ok(()) => return,
            Err(back) => domain = back,
        }
    }
    unreachable!()
}

/// The time within which all but one in this many commits were made, if they are in order.
fn within(times: &[u64], one_in: usize) -> u64
    requires { 0 < one_in }
{
    let behind = times.len() / one_in;
    let at = times.len().saturating_sub(behind).saturating_sub(1);
    times.get(at).copied().unwrap_or(0)
}

/// The task that five words name, and a sixth, if it is there.
fn task_of(words: [Option<u32>; 6]) -> Option<Task> {
    let [pairs, readers, gets, writes, last, gap] = words;
    let readers = readers?;
    Some(Task {
        pairs: pairs?,
        readers: if readers < 200 {
            readers as u8
        } else {
            return None
        },
        gets: gets?,
        writes: writes?,
        last: last?,
        gap: gap.unwrap_or(0),
    })
}

/// Measures the task that words name.
fn measure<R: Threads + Wait + Clock + Sync + Print>(
    rt: &R,
    alloc: Global,
    words: [Option<u32>; 6],
) -> io::Result<()> {
    let Some(task) = task_of(words) else {
        return Err(io::ErrorKind::InvalidInput.into());
    };
    let domain = Domain::new(alloc, sizes_of(&task))?;
    let found = match registered(&domain) {
        Some(local) => bench::run::<Brand, _>(rt, alloc, &domain, local, Blank::new(1), task),
        None => None,
    };
    end(rt, domain);
    let Some(Found { sample, commits }) = found else {
        return Err(io::ErrorKind::Other.into());
    };
    let mut times = commits.times;
    times.sort_unstable();
    let (half, most, nearly) = (within(&times, 2), within(&times, 100), within(&times, 1000));
    println!(rt;
        "{} {} {} {} {} {half} {most} {nearly} {}",
        sample.gets,
        sample.sessions,
        sample.wrong,
        times.len(),
        commits.refused,
        sample.sum
    )
}

/// What three words say of a log.
fn logged_of(words: [Option<u32>; 6]) -> Option<Logged> {
    let [pairs, rounds, seed, _, _, _] = words;
    Some(Logged {
        pairs: pairs?,
        rounds: rounds?,
        seed: u64::from(seed?).wrapping_add(77),
    })
}

/// Prints the turns of a thread.
fn show<R: Print>(rt: &R, thread: u32, events: &Option<Vec<Event>>) -> io::Result<()> {
    let Some(events) = events else {
        return Err(io::ErrorKind::Other.into());
    };
    for event in events.iter() {
        println!(rt;
            "{thread} {} {} {:?} {} {:?} {} {} {:?}",
            event.number,
            event.first.key,
            event.first.found,
            event.second.key,
            event.second.found,
            event.write.0,
            event.write.1,
            event.told
        )?;
    }
    Ok(())
}

/// Prints what threads logged, and the list before and the number behind it.
fn show_all<R: Print>(rt: &R, logged: Logged, logs: &Logs, last: u64) -> io::Result<()> {
    for number in 0..u64::from(logged.pairs) {
        println!(rt; "pair {} {number}", key(number))?;
    }
    show(rt, 1, &logs.commits[0])?;
    show(rt, 2, &logs.commits[1])?;
    show(rt, 3, &logs.reads[0])?;
    show(rt, 4, &logs.reads[1])?;
    println!(rt; "last {last}")
}

/// Has threads log what they read and commit, as three words say.
fn log_turns<R: Threads + Wait + Sync + Print>(
    rt: &R,
    alloc: Global,
    words: [Option<u32>; 6],
) -> io::Result<()> {
    let Some(logged) = logged_of(words) else {
        return Err(io::ErrorKind::InvalidInput.into());
    };
    let sizes = Sizes {
        participants: 5,
        slots: 20_000,
        cells: 1,
        jobs: 0,
    };
    let domain = Domain::new(alloc, sizes)?;
    let found = match registered(&domain) {
        Some(local) => log::run::<Brand, _>(rt, alloc, &domain, local, Blank::new(2), logged),
        None => None,
    };
    end(rt, domain);
    let Some((logs, last)) = found else {
        return Err(io::ErrorKind::Other.into());
    };
    show_all(rt, logged, &logs, last)
}

fn main(rt: HostRuntime) -> io::Result<()> {
    let mut words = [None, None, None, None, None, None];
    let mut count = 0;
    let mut is_log = false;
    for word in env::args(&rt)?.skip(1) {
        if word.as_str() == "log" {
            is_log = true;
        } else if count < 6 {
            words[count] = number(word.as_str());
            count += 1;
        }
    }
    if is_log {
        return log_turns(&rt, rt.alloc(), words);
    }
    if count == 0 {
        return Ok(());
    }
    measure(&rt, rt.alloc(), words)
}
