//! Threads that log what they read and committed: `scripts/histories` looks for a serial order in it.
//!
//! Two threads commit and two read, each this many times. A session reads two keys, for at least the latest number that its
//! thread knows; who commits then upserts a third key on the session's receipt, with a value that nobody else writes.

ghost use Rattle.std.specs.Prelude.{◌≡◌};
ghost use Rattle.sdd_domain.specs.Tokens.{place_of, home_of, own_of, IsSame};
ghost use Rattle.shared_index.specs.SharedInvariant.{IsUnengaged};

use crate::place::{leave, registered};
use crate::task::{Index, Item, drawn, key, next};
use crate::writer::{ascending, commit};
use sdd_domain::domain::Domain;
use sdd_domain::local::Local;
use serial_history::{Accepted, Answer, Cause, Query, Receipt, Refused};
use shared_index::{Naming, Share, SharedIndex, join_over};
use std::alloc::{AllocError, Global};
use std::sync::Wait;
use std::sync::ledger::Blank;
use std::thread::Threads;
use version_views::Write;

/// How many pairs there are at first, how often each thread takes its turn, and what its draws begin with.
#[derive(Clone, Copy)]
pub struct Logged {
    pub pairs: u32,
    pub rounds: u32,
    pub seed: u64,
}

/// What came of a turn.
#[derive(Clone, Copy, Debug)]
pub enum Told {
    /// It read alone.
    Read,
    /// Its commit has this number.
    Accepted(u64),
    /// Its commit was refused for this read.
    Conflict(usize),
    /// Its commit was refused for want of memory or slots.
    Refused,
}

/// What a key had in a session.
#[derive(Clone, Copy)]
pub struct Look {
    pub key: u64,
    pub found: Option<u64>,
}

/// A turn of a thread: the number of its session, what two keys had, and what it was to write.
#[derive(Clone, Copy)]
pub struct Event {
    pub number: u64,
    pub first: Look,
    pub second: Look,
    pub write: (u64, u64),
    pub told: Told,
}

/// What a thread draws next, and the latest number that it knows.
#[derive(Clone, Copy)]
struct Turn {
    state: u64,
    latest: u64,
}

/// What a thread does in its turn: the keys that it reads, and what it writes, if it commits.
#[derive(Clone, Copy)]
struct Draw {
    first: u64,
    second: u64,
    write: (u64, u64),
    state: u64,
}

/// The draws of a turn. The value to be written is the state behind them.
fn draw_of(turn: Turn, pairs: u32) -> Draw {
    let first = next(turn.state);
    let second = next(first);
    let state = next(second);
    Draw {
        first: key(drawn(first, pairs)),
        second: key(drawn(second, pairs)),
        write: (key(drawn(state, pairs)), state),
        state,
    }
}

/// What a key has, by the answer of a read of it.
fn look_of(key: u64, answer: Result<Answer<u64, u64>, AllocError>) -> Option<Look> {
    match answer {
        Ok(Answer::Get(found)) => Some(Look { key, found }),
        _ => None,
    }
}

/// A thread's first turn.
fn first_turn(logged: Logged) -> Turn {
    Turn {
        state: next(logged.seed),
        latest: 0,
    }
}

/// What is logged of a turn.
fn event_of(number: u64, first: Look, second: Look, draw: Draw, told: Told) -> Event {
    Event {
        number,
        first,
        second,
        write: draw.write,
        told,
    }
}

impl Event {
    /// The turn behind it: its thread knows the number of its commit, or else of its session.
    fn next(&self, draw: Draw) -> Turn {
        Turn {
            state: draw.state,
            latest: match self.told {
                Told::Accepted(number) => number,
                _ => self.number,
            },
        }
    }
}

/// One session for at least this number, which records two keys: its receipt, and what they had. None where it or memory was
/// refused.
fn read_two<L: Naming>(
    index: &Index<'_, L>,
    local: &mut Local<Item>,
    draw: Draw,
    at_least: u64,
) -> Option<(Receipt<u64, u64>, Look, Look)>
    requires home { home_of local.old ≡ L.place }
    requires closed { (own_of local.old).nesting ≡ 0 }
    ensures same { IsSame local.old local.new }
    ensures closed { (own_of local.new).nesting ≡ 0 }
{
    let Ok(mut session) = index.open(local, at_least) else {
        return None;
    };
    let one = session.read(Query::Get(draw.first));
    let other = session.read(Query::Get(draw.second));
    let receipt = session.close(index.domain(), local);
    let first = look_of(draw.first, one)?;
    let second = look_of(draw.second, other)?;
    Some((receipt, first, second))
}

/// What is logged of a commit.
fn told_of(told: Result<Accepted, Refused<u64, u64>>) -> Told {
    match told {
        Ok(accepted) => Told::Accepted(accepted.number),
        Err(
            Refused {
                cause: Cause::Conflict(at),
                writes: _,
            },
        ) => Told::Conflict(at),
        Err(_) => Told::Refused,
    }
}

/// Commits an upsert on a receipt.
fn written<L: Naming, R: Wait>(
    rt: &R,
    alloc: Global,
    index: &Index<'_, L>,
    share: &mut Share<L>,
    receipt: &Receipt<u64, u64>,
    write: (u64, u64),
) -> Told {
    let Ok(writes) = vec![in alloc; Write::Upsert(write.0, write.1)] else {
        return Told::Refused;
    };
    let told = told_of(index.commit(rt, share, receipt, writes));
    index.reclaim(rt);
    told
}

/// The turns of a thread that commits, of a participant of its own, up to one whose session or log was refused. None if no
/// participant was free.
fn commits<L: Naming, R: Wait>(
    rt: &R,
    alloc: Global,
    index: &Index<'_, L>,
    share: &mut Share<L>,
    logged: Logged,
) -> Option<Vec<Event>> {
    let domain = index.domain();
    let mut events = Vec::with_capacity(alloc, logged.rounds as usize).ok()?;
    let mut local = registered(domain)?;
    let mut turn = first_turn(logged);
    for _round in 0..logged.rounds {
        let draw = draw_of(turn, logged.pairs);
        let Some((receipt, first, second)) = read_two(index, &mut local, draw, turn.latest) else {
            break;
        };
        let told = written(rt, alloc, index, share, &receipt, draw.write);
        let event = event_of(receipt.number, first, second, draw, told);
        turn = event.next(draw);
        if events.push(event).is_err() {
            break;
        }
    }
    leave(domain, local);
    Some(events)
}

/// The turns of a thread that reads.
fn reads<L: Naming>(alloc: Global, index: &Index<'_, L>, logged: Logged) -> Option<Vec<Event>> {
    let domain = index.domain();
    let mut events = Vec::with_capacity(alloc, logged.rounds as usize).ok()?;
    let mut local = registered(domain)?;
    let mut turn = first_turn(logged);
    for _round in 0..logged.rounds {
        let draw = draw_of(turn, logged.pairs);
        let Some((receipt, first, second)) = read_two(index, &mut local, draw, turn.latest) else {
            break;
        };
        let event = event_of(receipt.number, first, second, draw, Told::Read);
        turn = event.next(draw);
        if events.push(event).is_err() {
            break;
        }
    }
    leave(domain, local);
    Some(events)
}

/// What the threads logged: two that commit, and two that read.
#[derive(Drop)]
pub struct Logs {
    pub commits: [Option<Vec<Event>>; 2],
    pub reads: [Option<Vec<Event>>; 2],
}

/// The same task for another thread.
fn another(logged: Logged, thread: u64) -> Logged {
    Logged {
        seed: logged
            .seed
            .wrapping_add(thread.wrapping_mul(0x9E37_79B9_7F4A_7C15)),
        ..logged
    }
}

/// The turns of two threads that commit.
fn two_commit<L: Naming + Send + Sync, R: Threads + Wait + Sync>(
    rt: &R,
    alloc: Global,
    index: &Index<'_, L>,
    first: &mut Share<L>,
    second: &mut Share<L>,
    logged: Logged,
) -> [Option<Vec<Event>>; 2] {
    let (one, other) = join_over(
        rt,
        index,
        |index| commits(rt, alloc, index, first, another(logged, 1)),
        |index| commits(rt, alloc, index, second, another(logged, 2)),
    );
    [one, other]
}

/// The turns of two threads that read.
fn two_look<L: Naming + Send + Sync, R: Threads + Wait + Sync>(
    rt: &R,
    alloc: Global,
    index: &Index<'_, L>,
    logged: Logged,
) -> [Option<Vec<Event>>; 2] {
    let (one, other) = join_over(
        rt,
        index,
        |index| reads(alloc, index, another(logged, 3)),
        |index| reads(alloc, index, another(logged, 4)),
    );
    [one, other]
}

/// The turns of all four.
fn four<L: Naming + Send + Sync, R: Threads + Wait + Sync>(
    rt: &R,
    alloc: Global,
    index: &Index<'_, L>,
    first: &mut Share<L>,
    second: &mut Share<L>,
    logged: Logged,
) -> Logs {
    let (commits, reads) = join_over(
        rt,
        index,
        |index| two_commit(rt, alloc, index, first, second, logged),
        |index| two_look(rt, alloc, index, logged),
    );
    Logs { commits, reads }
}

/// Makes an index in a place, has the threads take their turns, and ends it: what they logged, and its number. None for want of
/// memory, slots or participants.
pub fn run<L: Naming + Send + Sync, R: Threads + Wait + Sync>(
    rt: &R,
    alloc: Global,
    domain: &Domain<Item>,
    local: Local<Item>,
    blank: Blank,
    logged: Logged,
) -> Option<(Logs, u64)>
    requires place { place_of domain.now ≡ L.place }
    requires rest { IsUnengaged L.place local }
    requires name { blank.name ≡ L.name }
    requires parts { (blank.parts ≡ L.parts) × (blank.parts ≡ 2) }
    requires last { L.last ≡ 18446744073709551615 }
{
    let Ok(mut all) = Vec::with_capacity(alloc, 2) else {
        leave(domain, local);
        return None;
    };
    let made: Result<(Index<'_, L>, Vec<Share<L>>), _> = SharedIndex::new(
        alloc, domain, local, blank, 2,
    );
    let (index, mut shares) = match made {
        Ok(made) => made,
        Err((local, _, _)) => {
            all.destroy_empty();
            leave(domain, local);
            return None;
        }
    };
    let Some(mut first) = shares.pop() else {
        unreachable!();
    };
    let Some(mut second) = shares.pop() else {
        unreachable!();
    };
    shares.destroy_empty();
    let is_built = match ascending(alloc, 0, logged.pairs) {
        Some(writes) => commit(rt, alloc, &index, &mut first, writes),
        None => false,
    };
    let logs = if is_built {
        Some(four(rt, alloc, &index, &mut first, &mut second, logged))
    } else {
        None
    };
    all.push_reserved(first);
    all.push_reserved(second);
    match index.close(all) {
        Ok((local, number)) => {
            leave(domain, local);
            Some((logs?, number))
        }
        Err(_) => unreachable!(),
    }
}
