//! The settings, those who read them and the one who changes them.

use ordered_index::{
    Answer, Audit, Naming, Participant, Query, Ran, Receipt, Recorded, Share, SharedIndex, Task,
    Write,
};
use std::alloc::{AllocError, Global};
use std::sync::Wait;

type Settings<'d, L> = SharedIndex<'d, L, u64, u64, 64>;

type Member<'i, 'd, L> = Participant<'i, 'd, L, u64, u64, 64>;

/// The settings: how many may work, and how many may wait. They are always changed together, to one number.
const WORKERS: u64 = 1;

const WAITING: u64 = 2;

/// What a thread does.
#[derive(Drop)]
pub(crate) enum Job {
    /// It changes both settings.
    Change(Global),
    /// It reads both: how many of its sessions found settings that belong together, and receipts that are right.
    Read(u32),
}

impl Task<u64, u64> for Job {
    fn run<L: Naming, R: Wait>(
        &mut self,
        rt: &R,
        index: &SharedIndex<'_, L, u64, u64, 64>,
        share: &mut Share<L>,
    ) {
        match self {
            Job::Change(alloc) => change(rt, *alloc, index, share),
            Job::Read(right) => *right = read_often(rt, index),
        }
    }
}

/// One thread that changes the settings, and four that read them.
pub(crate) fn jobs(alloc: Global) -> Result<Vec<Job>, AllocError> {
    Ok(vec![in alloc;
        Job::Change(alloc),
        Job::Read(0),
        Job::Read(0),
        Job::Read(0),
        Job::Read(0),
    ]?)
}

/// How many sessions found settings that belong together.
pub(crate) fn sessions(ran: &Ran<Job>) -> u32 {
    let mut sessions: u32 = 0;
    for ended in ran.ended.as_slice() {
        if let Job::Read(right) = &ended.task {
            sessions = sessions.saturating_add(*right);
        }
    }
    sessions
}

/// A hundred sessions, each for at least the number of the one before: how many find settings that belong together.
fn read_often<L: Naming, R: Wait>(rt: &R, index: &Settings<'_, L>) -> u32 {
    let Ok(mut member) = index.participant() else {
        return 0;
    };
    let mut right: u32 = 0;
    let mut latest = 0;
    for _turn in 0..100u32 {
        if let Some((workers, waiting, receipt)) = read_both(&mut member, latest) {
            latest = receipt.number;
            if workers == waiting && index.audit(rt, &receipt) == Ok(Audit::Yes) {
                right = right.saturating_add(1);
            }
        }
    }
    right
}

/// What both settings were found to be, and the receipt of the session that found it.
type Found = (Answer<u64, u64>, Answer<u64, u64>, Receipt<u64, u64>);

/// One session for at least this number, which records both settings. None where it or memory was refused.
fn read_both<L: Naming>(member: &mut Member<'_, '_, L>, at_least: u64) -> Option<Found> {
    let Ok(mut reading) = member.reading(at_least) else {
        return None;
    };
    let workers = reading.read(Query::Get(WORKERS));
    let waiting = reading.read(Query::Get(WAITING));
    match (workers, waiting) {
        (Ok(workers), Ok(waiting)) => Some((workers, waiting, reading.close())),
        _ => None,
    }
}

/// One more of each setting than the first was read to be.
fn one_more(
    alloc: Global,
    reads: &[Recorded<u64, u64>],
) -> Result<Vec<Write<u64, u64>>, AllocError> {
    let number = match reads {
        [(_, Answer::Get(Some(number))), ..] => number.wrapping_add(1),
        _ => 1,
    };
    Ok(vec![in alloc;
        Write::Upsert(WORKERS, number),
        Write::Upsert(WAITING, number),
    ]?)
}

/// Reads both settings, and commits one more of each. Where either was changed since, it reads them again, nine times at most.
/// True if it is accepted.
fn raised<L: Naming, R: Wait>(
    rt: &R,
    alloc: Global,
    member: &mut Member<'_, '_, L>,
    share: &mut Share<L>,
) -> bool {
    let queries = [Query::Get(WORKERS), Query::Get(WAITING)];
    let told = member.transact(rt, share, &queries, 9, |reads| one_more(alloc, reads));
    told.is_ok()
}

/// A hundred commits, each of which raises both settings.
fn change<L: Naming, R: Wait>(
    rt: &R,
    alloc: Global,
    index: &Settings<'_, L>,
    share: &mut Share<L>,
) {
    let Ok(mut member) = index.participant() else {
        return;
    };
    for _turn in 0..100u32 {
        let _is_accepted = raised(rt, alloc, &mut member, share);
        index.reclaim(rt);
    }
}
