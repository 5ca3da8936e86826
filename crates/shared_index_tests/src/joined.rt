//! An index that up to six threads share: what each does is data, and so is what is found. It is the same whatever the
//! schedule.
//!
//! A commit of one write takes three slots at most, and one of two writes five, so that each place here has slots enough for
//! all commits of its threads, also where nothing is reclaimed, or a session that is open keeps each version.

ghost use Rattle.std.specs.Prelude.{◌≤◌};
ghost use Rattle.shared_index_tests.specs.Scenes.{CanBegin};

use crate::calls::Desk;
use crate::place::{ROOM, got};
use crate::scene::{begun, closed, empty, end, place, put, staged};
use crate::stage::Stage;
use serial_history::{Answer, Audit};
use shared_index::{Naming, Share, join_over};
use std::alloc::Global;
use std::marker::Brand;
use std::process::Abort;
use std::sync::Wait;
use std::thread::Threads;

/// What a thread does.
#[derive(Clone, Copy)]
pub(crate) enum Task {
    /// Nothing.
    Rests,
    /// Raises a key that nobody else writes up to a number, each commit resting on the one before: the count of its share.
    Raises(u64, u64),
    /// The same, where each commit rests on nothing, and none is reclaimed.
    Upserts(u64, u64),
    /// Counts key 1 up to a hundred beside others who do: 1 if its share counts as many commits as it wrote numbers.
    CountsUp,
    /// Gives the keys 1 and 2 the same value in a hundred commits: the count of its share.
    Writes,
    /// Raises a key that nobody else writes fifty times, and reads each commit back in a session: how many it found, if its
    /// share counts fifty.
    ReadsBack(u64),
    /// A hundred sessions that read the keys 1 and 2: how many found one value in both, and their receipts right.
    Reads,
    /// Fifty sessions that sum the keys 1 to 4: how many found their number, and their receipts right.
    Sums,
}

/// What six threads do with an empty index, what they get as answers, and what the index is then.
#[derive(Clone, Copy)]
pub(crate) struct Crowd {
    pub(crate) participants: u8,
    pub(crate) slots: u16,
    pub(crate) shares: u8,
    /// Whether a segment has 64 pairs at most, else two.
    pub(crate) is_wide: bool,
    pub(crate) tasks: [Task; 6],
    pub(crate) told: [Option<u64>; 6],
    /// Its number, and the list of that number.
    pub(crate) number: u64,
    pub(crate) list: &'static [(u64, u64)],
}

/// The count of a share, if what it was to do was done.
fn counted<L: Naming>(is_done: bool, share: &Share<L>) -> Option<u64> {
    if is_done { Some(share.count()) } else { None }
}

/// What is answered of key 1 that was counted up.
fn counted_up<L: Naming>(wrote: Option<u64>, share: &Share<L>) -> Option<u64> {
    Some(u64::from(share.count() == wrote?))
}

/// What is answered of commits that were read back.
fn found_back<L: Naming>(right: Option<u32>, share: &Share<L>) -> Option<u64> {
    if share.count() == 50 {
        Some(u64::from(right?))
    } else {
        None
    }
}

impl<L: Naming, R: Wait + Abort, const S: usize> Desk<'_, '_, L, R, S> {
    /// Does it with a share: what is answered.
    fn committed(&self, task: Task, share: &mut Share<L>) -> Option<u64> {
        match task {
            Task::Raises(key, last) => {
                let is_done = self.own_key(share, key, last);
                counted(is_done, share)
            }
            Task::Upserts(key, last) => {
                let is_done = self.upserts(share, key, last);
                counted(is_done, share)
            }
            Task::CountsUp => {
                let wrote = self.same_key(share);
                counted_up(wrote, share)
            }
            Task::Writes => {
                let is_done = self.writings(share);
                counted(is_done, share)
            }
            Task::ReadsBack(key) => {
                let right = self.read_often(share, key);
                found_back(right, share)
            }
            Task::Reads | Task::Sums | Task::Rests => None,
        }
    }

    /// Does it: what is answered.
    fn done(&self, work: &mut Work<L>) -> Option<u64> {
        let task = work.task;
        if let Some(share) = &mut work.share {
            return self.committed(task, share);
        }
        match task {
            Task::Reads => self.readings().map(u64::from),
            Task::Sums => self.sums().map(u64::from),
            _ => None,
        }
    }

    /// Whether each of these pairs is in the list of this number, by the audit of a receipt of it.
    fn are_audited(&self, number: u64, list: &[(u64, u64)]) -> bool {
        let mut all = true;
        for (key, value) in list {
            let receipt = got(self.rt, self.alloc, number, *key, Some(*value));
            all = self.audit(&receipt).expect(self.rt, ROOM) == Audit::Yes && all;
        }
        all
    }
}

/// What a thread does, and the share of it, if it commits.
struct Work<L: Naming> {
    task: Task,
    share: Option<Share<L>>,
}

/// What two threads do.
struct Both<L: Naming> {
    one: Work<L>,
    other: Work<L>,
}

impl<L: Naming, R: Wait + Abort, const S: usize> Desk<'_, '_, L, R, S>
where
    L: Send + Sync,
    R: Threads + Sync,
{
    /// Two threads.
    fn two(&self, both: &mut Both<L>) -> (Option<u64>, Option<u64>) {
        let Desk { rt, alloc, index } = *self;
        let (first, second) = (&mut both.one, &mut both.other);
        let (one, other) = join_over(
            rt,
            index,
            |index| Desk { rt, alloc, index }.done(first),
            |index| Desk { rt, alloc, index }.done(second),
        );
        (one, other)
    }

    /// Four threads.
    fn four(
        &self,
        first: &mut Both<L>,
        second: &mut Both<L>,
    ) -> ((Option<u64>, Option<u64>), (Option<u64>, Option<u64>)) {
        let Desk { rt, alloc, index } = *self;
        let (some, others) = join_over(
            rt,
            index,
            |index| Desk { rt, alloc, index }.two(first),
            |index| Desk { rt, alloc, index }.two(second),
        );
        (some, others)
    }

    /// What six threads get as answers that do these.
    pub(crate) fn six(&self, shares: &mut Vec<Share<L>>, tasks: [Task; 6]) -> [Option<u64>; 6] {
        let Desk { rt, alloc, index } = *self;
        let mut first = with_shares(tasks[0], tasks[1], shares);
        let mut second = with_shares(tasks[2], tasks[3], shares);
        let mut third = with_shares(tasks[4], tasks[5], shares);
        let (((a, b), (c, d)), (e, f)) = join_over(
            rt,
            index,
            |index| Desk { rt, alloc, index }.four(&mut first, &mut second),
            |index| Desk { rt, alloc, index }.two(&mut third),
        );
        put_both_back(rt, shares, first);
        put_both_back(rt, shares, second);
        put_both_back(rt, shares, third);
        [a, b, c, d, e, f]
    }
}

/// A task, with a share if it commits.
fn with_share<L: Naming>(task: Task, shares: &mut Vec<Share<L>>) -> Work<L> {
    let share = match task {
        Task::Rests | Task::Reads | Task::Sums => None,
        _ => shares.pop(),
    };
    Work { task, share }
}

/// Puts a share back, if there is one.
fn put_back<L: Naming, R: Abort>(rt: &R, shares: &mut Vec<Share<L>>, work: Work<L>) {
    let Work { task: _, share } = work;
    if let Some(share) = share {
        put(rt, shares, share);
    }
}

/// Two tasks, with their shares.
fn with_shares<L: Naming>(one: Task, other: Task, shares: &mut Vec<Share<L>>) -> Both<L> {
    let one = with_share(one, shares);
    let other = with_share(other, shares);
    Both { one, other }
}

/// Puts the shares of both back.
fn put_both_back<L: Naming, R: Abort>(rt: &R, shares: &mut Vec<Share<L>>, both: Both<L>) {
    let Both { one, other } = both;
    put_back(rt, shares, one);
    put_back(rt, shares, other);
}

/// Whether an answer is this list.
fn is_list(answer: &Answer<u64, u64>, list: &[(u64, u64)]) -> bool {
    match answer {
        Answer::Range(pairs) => pairs.as_slice() == list,
        _ => false,
    }
}

/// What is found of a crowd: what the threads get as answers, whether the list is right by audits and by a session, and the number.
type Found = ([Option<u64>; 6], bool, bool, u64);

impl Crowd {
    fn found<L: Naming + Send + Sync, R: Threads + Wait + Abort + Sync, const S: usize>(
        self,
        rt: &R,
        alloc: Global,
        stage: Stage<'_>,
    ) -> Found
        requires begins { CanBegin L.place L.name L.parts L.last stage }
        requires size { (1 ≤ S) × (S ≤ 225) }
    {
        let (index, mut shares) = begun::<L, R, S>(rt, alloc, stage);
        let desk = Desk::of(rt, alloc, &index);
        let told = desk.six(&mut shares, self.tasks);
        let are_audited = desk.are_audited(self.number, self.list);
        let (list, _) = desk.listed(self.number);
        let is_read = is_list(&list, self.list);
        (told, are_audited, is_read, closed(rt, index, shares))
    }

    /// The same with 64 pairs in a segment at most, or with two.
    fn by_width<L: Naming + Send + Sync, R: Threads + Wait + Abort + Sync>(
        self,
        rt: &R,
        alloc: Global,
        stage: Stage<'_>,
    ) -> Found
        requires { CanBegin L.place L.name L.parts L.last stage }
    {
        if self.is_wide {
            self.found::<L, R, 64>(rt, alloc, stage)
        } else {
            self.found::<L, R, 2>(rt, alloc, stage)
        }
    }
}

/// Whether a crowd finds what it is to.
fn is_right<R: Threads + Wait + Abort + Sync>(rt: &R, alloc: Global, crowd: Crowd) -> bool {
    let start = empty(crowd.participants, crowd.slots, crowd.shares);
    let domain = place(rt, alloc, start);
    let stage = staged(rt, &domain, start);
    let found = crowd.by_width::<Brand, R>(rt, alloc, stage);
    end(rt, domain);
    found == (crowd.told, true, true, crowd.number)
}

/// Of the first of these crowds that finds something else, the number.
pub(crate) fn first_wrong<R: Threads + Wait + Abort + Sync>(
    rt: &R,
    alloc: Global,
    crowds: &[Crowd],
) -> Option<usize> {
    for at in 0..crowds.len() {
        if !is_right(rt, alloc, crowds[at]) {
            return Some(at);
        }
    }
    None
}
