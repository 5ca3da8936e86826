//! Participants and readers that end by themselves, and tasks over an index.

use crate::calls::Desk;
use crate::place::ROOM;
use crate::transact::raised;
use serial_history::{Answer, Audit, Cause, Query, Receipt, Refused};
use shared_index::{
    Ended, Naming, Participant, Ran, RunCause, RunRefused, Share, SharedIndex, SharedReading, Task,
    run_tasks,
};
use shared_sessions::{OpenRefused, SharedNearby};
use std::alloc::Global;
use std::ops::Bound;
use std::process::Abort;
use std::sync::Wait;
use std::test::Fail;
use std::thread::Threads;
use version_views::Write;

type Member<'i, 'd, L, const S: usize> = Participant<'i, 'd, L, u64, u64, S>;

type Reader<'a, 'i, 'd, L, const S: usize> = SharedReading<'a, 'i, 'd, L, u64, u64, S>;

/// What a task does, and what it comes to.
#[derive(Drop)]
enum Work {
    /// Reads while it commits itself.
    Looks(Global, Option<Found>),
    /// Counts a key of its own up to a number.
    Counts(Global, u64, u64),
    /// Raises key 1 so often, by transactions that are tried a hundred times at most.
    Raises(Global, u32),
    /// Does nothing.
    Rests,
}

/// What a reader finds, and what was refused.
#[derive(Debug, PartialEq, Eq, Drop)]
struct Found {
    /// By each unrecorded read: the number, the value of key 2, whether keys 2 and 3 are there, the pairs, the sum of all
    /// values, that of the values from key 2 on, whether key 3 lies between two pairs.
    told: [u64; 8],
    /// The recorded reads are answered by the reader's list, and an audit finds them right.
    is_right: bool,
    /// A commit that rests on them is a conflict, since key 2 was removed.
    is_conflict: bool,
    /// A second participant is refused, and a reader for a number that is still to come.
    are_refused: (bool, bool),
    /// Once its reader is let go, slots are reclaimed that it kept.
    is_closed: bool,
}

impl Task<u64, u64> for Work {
    fn run<L: Naming, R: Wait>(
        &mut self,
        rt: &R,
        index: &SharedIndex<'_, L, u64, u64, 64>,
        share: &mut Share<L>,
    ) {
        match self {
            Work::Looks(alloc, found) => *found = Desk::of(rt, *alloc, index).looked(share),
            Work::Counts(alloc, key, upto) => {
                Desk::of(rt, *alloc, index).count_up(share, *key, *upto)
            }
            Work::Raises(alloc, count) => {
                Desk::of(rt, *alloc, index).raised_often(share, *count)
            }
            Work::Rests => {}
        }
    }
}

/// Each unrecorded read.
fn told<L: Naming, const S: usize>(reader: &Reader<'_, '_, '_, L, S>) -> [u64; 8] {
    let value = match reader.get(&2) {
        Some(value) => *value,
        None => 0,
    };
    let mut sum: u64 = 0;
    for (_, value) in reader.iter() {
        sum = sum.saturating_add(*value);
    }
    let mut rest: u64 = 0;
    for (_, value) in reader.range(Bound::Included(&2), Bound::Unbounded) {
        rest = rest.saturating_add(*value);
    }
    let is_between = match reader.locate(&3) {
        SharedNearby::Between(_) => 1,
        _ => 0,
    };
    [
        reader.number(),
        value,
        reader.contains(&2) as u64,
        reader.contains(&3) as u64,
        reader.len() as u64,
        sum,
        rest,
        is_between,
    ]
}

impl<L: Naming, R: Wait, const S: usize> Desk<'_, '_, L, R, S> {
    /// Commits one write on these reads: why it is refused.
    fn wrote(
        &self,
        share: &mut Share<L>,
        receipt: &Receipt<u64, u64>,
        write: Write<u64, u64>,
    ) -> Option<Cause> {
        let Ok(writes) = vec![in self.alloc; write] else {
            return Some(Cause::Memory);
        };
        match self.commit(share, receipt, writes) {
            Ok(_) => None,
            Err(Refused { cause, writes: _ }) => Some(cause),
        }
    }

    /// Upserts of one key from 1 to a number.
    fn count_up(&self, share: &mut Share<L>, key: u64, upto: u64) {
        let none = Receipt::blank(self.alloc);
        for number in 1..=upto {
            let _refused = self.wrote(share, &none, Write::Upsert(key, number));
            self.reclaim();
        }
    }

    /// This many transactions, each of which raises key 1.
    fn raised_often(&self, share: &mut Share<L>, count: u32) {
        let Ok(mut member) = self.index.participant() else {
            return;
        };
        for _turn in 0..count {
            let queries = [Query::Get(1)];
            let _told = member.transact(
                self.rt,
                share,
                &queries,
                99,
                |reads| raised(self.alloc, reads),
            );
            self.reclaim();
        }
    }

    /// Reads a list of three pairs while key 2 is removed from the next one.
    fn looked(&self, share: &mut Share<L>) -> Option<Found> {
        let none = Receipt::blank(self.alloc);
        for key in [1u64, 2, 4] {
            let _refused = self.wrote(share, &none, Write::Insert(key, 10 * key));
        }
        let Ok(mut member) = self.index.participant() else {
            return None;
        };
        let is_full = self.index.participant().is_err();
        let is_early = matches!(member.reading(4), Err(OpenRefused::Earlier(3)));
        let Ok(mut reader) = member.reading(3) else {
            return None;
        };
        let _refused = self.wrote(share, &none, Write::Remove(2));
        let told = told(&reader);
        let answer = reader.read(Query::Get(2));
        let receipt = reader.close();
        let is_right = answer == Ok(Answer::Get(Some(20)))
            && receipt.reads.as_slice().len() == 1
            && self.audit(&receipt) == Ok(Audit::Yes);
        let cause = self.wrote(share, &receipt, Write::Clear);
        Some(Found {
            told,
            is_right,
            is_conflict: cause == Some(Cause::Conflict(0)),
            are_refused: (is_full, is_early),
            is_closed: self.closes(share, &mut member),
        })
    }

    /// Whether slots are reclaimed that a reader kept, once it is let go.
    fn closes(&self, share: &mut Share<L>, member: &mut Member<'_, '_, L, S>) -> bool {
        let kept = self.kept_by_a_reader(share, member);
        self.reclaim();
        self.index.domain().slots_in_use() < kept
    }

    /// How many slots have an item while a reader is there, beside six commits.
    fn kept_by_a_reader(&self, share: &mut Share<L>, member: &mut Member<'_, '_, L, S>) -> usize {
        let Ok(_reader) = member.reading(0) else {
            return 0;
        };
        self.count_up(share, 7, 6);
        self.index.domain().slots_in_use()
    }
}

/// What was run in a place of this many slots.
fn ran<R: Threads + Wait + Sync>(
    rt: &R,
    alloc: Global,
    slots: usize,
    tasks: Vec<Work>,
) -> Result<Ran<Work>, RunRefused<Work>> {
    run_tasks(rt, alloc, slots, tasks)
}

#[test]
fn a_participant_and_its_reader_end_by_themselves(rt: HostRuntime) -> Result<(), Fail> {
    let alloc = rt.alloc();
    let tasks = vec![in alloc; Work::Looks(alloc, None)]?;
    let Ok(Ran { ended, number }) = ran(&rt, alloc, 64, tasks) else {
        panic!(rt; "{ROOM}");
    };
    // three insertions, a removal, and the six commits beside a reader
    assert_eq!(rt; number, 10);
    let found = Found {
        told: [3, 20, 1, 0, 3, 70, 60, 1],
        is_right: true,
        is_conflict: true,
        are_refused: (true, true),
        is_closed: true,
    };
    match ended.as_slice() {
        [
            Ended {
                task: Work::Looks(_, Some(looked)),
                commits,
            },
        ] => {
            assert_eq!(rt; *commits, 10);
            assert_eq!(rt; looked, &found);
        }
        _ => panic!(rt; "it ran, and there was memory"),
    }
    Ok(())
}

/// The commits of each task, if it is the one that was at its place.
fn commits(ended: &[Ended<Work>]) -> [u64; 3] {
    match ended {
        [
            Ended {
                task: Work::Counts(_, 1, _),
                commits: first,
            },
            Ended {
                task: Work::Rests,
                commits: second,
            },
            Ended {
                task: Work::Counts(_, 3, _),
                commits: third,
            },
        ] => { [*first, *second, *third] }
        _ => [0, 0, 0],
    }
}

#[test]
fn tasks_run_beside_each_other_and_come_back_in_order(rt: HostRuntime) -> Result<(), Fail> {
    let alloc = rt.alloc();
    let tasks = vec![in alloc;
        Work::Counts(alloc, 1, 50),
        Work::Rests,
        Work::Counts(alloc, 3, 30),
    ]?;
    let Ok(Ran { ended, number }) = ran(&rt, alloc, 512, tasks) else {
        panic!(rt; "{ROOM}");
    };
    assert_eq!(rt; number, 80);
    assert_eq!(rt; commits(ended.as_slice()), [50, 0, 30]);
    Ok(())
}

#[test]
fn tasks_raise_one_key_by_transactions(rt: HostRuntime) -> Result<(), Fail> {
    let alloc = rt.alloc();
    let tasks = vec![in alloc; Work::Raises(alloc, 50), Work::Raises(alloc, 50)]?;
    let Ok(Ran { ended, number }) = ran(&rt, alloc, 512, tasks) else {
        panic!(rt; "{ROOM}");
    };
    // a try conflicts only where the other task's commit was accepted, which makes fifty
    assert_eq!(rt; (ended.len(), number), (2, 100));
    Ok(())
}

/// Two tasks, which aren't run only for want of memory, and are returned then.
fn run_two<R: Threads + Wait + Abort + Sync>(rt: &R, alloc: Global) {
    let Ok(tasks) = vec![in alloc; Work::Rests, Work::Raises(alloc, 2)] else {
        return;
    };
    match ran(rt, alloc, 64, tasks) {
        Ok(Ran { ended, number }) => assert!(rt; ended.len() == 2 && number <= 2),
        Err(RunRefused { cause, tasks }) => {
            assert!(rt; cause == RunCause::Memory && tasks.len() == 2)
        }
    }
}

// (this passes whichever allocation is refused)
#[test]
fn a_refusal_of_memory_gives_the_tasks_back(rt: HostRuntime) {
    run_two(&rt, rt.alloc());
}

/// Why one task isn't run in a place of this many slots, and how many tasks are returned.
fn refused<R: Threads + Wait + Sync>(
    rt: &R,
    alloc: Global,
    slots: usize,
) -> Option<(RunCause, usize)> {
    let Ok(tasks) = vec![in alloc; Work::Rests] else {
        return None;
    };
    match ran(rt, alloc, slots, tasks) {
        Ok(_) => None,
        Err(RunRefused { cause, tasks }) => Some((cause, tasks.len())),
    }
}

#[test]
fn tasks_that_are_not_run_come_back(rt: HostRuntime) {
    let alloc = rt.alloc();
    assert_eq!(rt; refused(&rt, alloc, 0), Some((RunCause::NoSlot, 1)));
    assert_eq!(rt;
        refused(&rt, alloc, 1_073_741_825),
        Some((RunCause::Sizes, 1))
    );
    match ran(&rt, alloc, 0, Vec::new(alloc)) {
        Ok(Ran { ended, number }) => assert_eq!(rt; (ended.len(), number), (0, 0)),
        Err(_) => panic!(rt; "there is nothing to run"),
    }
}
