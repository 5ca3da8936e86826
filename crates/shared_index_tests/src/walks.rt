//! A list that a session walks and keeps, whatever is committed and reclaimed meanwhile. Each test prints the same whatever the
//! schedule.
//!
//! A commit takes two slots at most for each write, and one for its version: each place here has slots enough for all commits of
//! its test, since the session that is open keeps every version that is replaced meanwhile.

ghost use Rattle.shared_index.specs.SharedInvariant.{IsUnengaged};
ghost use Rattle.shared_index_tests.specs.Scenes.{CanBegin};

use crate::calls::{Desk, asked};
use crate::place::{ROOM, range};
use crate::scene::{begun, closed, empty, end, place, put, staged, taken};
use crate::stage::{Item, Stage};
use crate::tasks::all;
use sdd_domain::local::Local;
use serial_history::{Answer, Audit, Receipt, Seq};
use shared_index::{Naming, Share, join_over};
use shared_sessions::SharedWalk;
use std::alloc::{AllocError, Global};
use std::marker::Brand;
use std::process::Abort;
use std::sync::Wait;
use std::sync::atomic::{AtomicBool, Ordering};
use std::thread::{self, Threads};
use version_views::Write;

/// The first list of a session that is kept over a thousand commits: it takes five segments of two pairs at least.
const TEN: [(u64, u64); 10] = [
    (1, 10),
    (2, 20),
    (3, 30),
    (4, 40),
    (5, 50),
    (6, 60),
    (7, 70),
    (8, 80),
    (9, 90),
    (10, 100),
];

/// That of a session whose walk waits.
const THREE: [(u64, u64); 3] = [(1, 10), (2, 20), (3, 30)];

/// What that has behind its first pair.
const TWO: [(u64, u64); 2] = [(2, 20), (3, 30)];

/// Puts these pairs in.
fn inserts<R: Abort>(rt: &R, alloc: Global, pairs: &[(u64, u64)]) -> Vec<Write<u64, u64>> {
    let mut writes = Vec::new(alloc);
    for (key, value) in pairs {
        writes.push(Write::Insert(*key, *value)).expect(rt, ROOM);
    }
    writes
}

/// What a walk has before it. None where memory is refused.
fn gathered(alloc: Global, walk: SharedWalk<'_, u64, u64>) -> Option<Answer<u64, u64>> {
    let mut pairs = Vec::new(alloc);
    for (key, value) in walk {
        if pairs.push((*key, *value)).is_err() {
            return None;
        }
    }
    Some(Answer::Range(Seq::from_vec(pairs)))
}

/// Takes the first pair of a walk: whether it is that of the first list.
fn takes_the_first(walk: &mut SharedWalk<'_, u64, u64>) -> bool {
    match walk.next() {
        Some((key, value)) => *key == 1 && *value == 10,
        None => false,
    }
}

impl<L: Naming, R: Wait + Abort, const S: usize> Desk<'_, '_, L, R, S> {
    /// Changes the pair that the walk has taken and those that it is yet to take, and says so; then goes on to commit. It says so
    /// also where the commit is refused: then the share doesn't count it.
    fn change_all(&self, share: &mut Share<L>, answered: &AtomicBool) {
        let writes = vec![in self.alloc;
            Write::Upsert(1, 11),
            Write::Remove(2),
            Write::Upsert(3, 31),
            Write::Insert(11, 110),
        ]
        .expect(self.rt, ROOM);
        self.write(share, writes);
        self.reclaim();
        answered.store(true, Ordering::SeqCst);
        self.write_often(share, 100);
    }

    /// A session of the first list, open over a thousand commits: its receipt, of a read before them and one after them, and
    /// whether both and a walk found the first list.
    fn kept_open(&self, local: &mut Local<Item>, share: &mut Share<L>) -> (Receipt<u64, u64>, bool)
        requires { IsUnengaged L.place local.old }
        ensures { IsUnengaged L.place local.new }
    {
        let Some(mut session) = self.opened(local, 1) else {
            panic!(self.rt; "the first commit is there");
        };
        let before = asked(&mut session, all());
        self.write_often(share, 1000);
        let walked = gathered(self.alloc, session.iter());
        let after = asked(&mut session, all());
        let receipt = self.ended(session, local);
        let first = range(self.rt, self.alloc, TEN);
        let read = before.as_ref() == Ok(&first) && after.as_ref() == Ok(&first);
        (receipt, read && walked == Some(first))
    }
}

/// How often a walk looks whether another thread's commit has answered, at most.
const TURNS: u32 = 10_000_000;

/// Waits until another thread's commit has answered. False if it never did.
fn has_answered(answered: &AtomicBool) -> bool {
    for _turn in 0..TURNS {
        if answered.load(Ordering::SeqCst) {
            return true;
        }
        thread::yield_now();
    }
    false
}

/// Waits until a commit has answered: what the walk has before it then. None if it never did.
fn walk_on(
    alloc: Global,
    walk: SharedWalk<'_, u64, u64>,
    answered: &AtomicBool,
) -> Option<Answer<u64, u64>> {
    if has_answered(answered) {
        gathered(alloc, walk)
    } else {
        None
    }
}

impl<L: Naming, R: Wait + Abort, const S: usize> Desk<'_, '_, L, R, S>
where
    L: Send + Sync,
    R: Threads + Sync,
{
    /// A session of the first list walks past one pair, waits there until another thread's commit has changed all of them and
    /// answered, and walks on while the other thread goes on to commit: its receipt, and whether the session read the first list by
    /// the walk, before it waited and behind that, and by a query.
    fn walk_and_wait(
        &self,
        local: &mut Local<Item>,
        share: &mut Share<L>,
    ) -> (Receipt<u64, u64>, bool)
        requires { IsUnengaged L.place local.old }
        ensures { IsUnengaged L.place local.new }
    {
        let Desk { rt, alloc, index } = *self;
        let Some(mut session) = self.opened(local, 1) else {
            panic!(rt; "the first commit is there");
        };
        let answered = AtomicBool::new(false);
        let mut walk = session.iter();
        let first = takes_the_first(&mut walk);
        let ((), rest) = join_over(
            rt,
            index,
            |index| Desk { rt, alloc, index }.change_all(share, &answered),
            |_index| walk_on(alloc, walk, &answered),
        );
        let all = asked(&mut session, all());
        let receipt = self.ended(session, local);
        let others = rest == Some(range(rt, alloc, TWO)) && all == Ok(range(rt, alloc, THREE));
        (receipt, first && others)
    }
}

/// A session of the first list, kept open while others commit.
#[derive(Clone, Copy)]
enum Meanwhile {
    /// A hundred and one commits, of which the first one changes each pair while its walk waits behind the first.
    Waits,
    /// A thousand.
    Reads,
}

/// What is done while it is open, and the number of the last list.
#[derive(Clone, Copy)]
struct Course {
    how: Meanwhile,
    last: u64,
}

/// What is found of it: whether it read the first list, the number of its receipt and how many reads that has, what an audit
/// says of that, the list that is left, the count of the share, and the number of the index.
type Found = (
    bool,
    (u64, usize),
    Result<Audit, AllocError>,
    Answer<u64, u64>,
    u64,
    u64,
);

impl Course {
    /// Commits the first list, has a session of it kept open, and ends the index, whose last list is that of a number.
    fn kept_on<L: Naming + Send + Sync, R: Threads + Wait + Abort + Sync>(
        self,
        rt: &R,
        alloc: Global,
        stage: Stage<'_>,
    ) -> Found
        requires { CanBegin L.place L.name L.parts L.last stage }
    {
        let (index, mut shares) = begun::<L, R, 2>(rt, alloc, stage);
        let mut share = taken(rt, &mut shares);
        let desk = Desk::of(rt, alloc, &index);
        let mut reader = desk.entered();
        let (receipt, is_first) = match self.how {
            Meanwhile::Waits => {
                desk.write(&mut share, inserts(rt, alloc, &THREE));
                desk.walk_and_wait(&mut reader, &mut share)
            }
            Meanwhile::Reads => {
                desk.write(&mut share, inserts(rt, alloc, &TEN));
                desk.kept_open(&mut reader, &mut share)
            }
        };
        desk.leave(reader);
        let audit = desk.audit(&receipt);
        let (list, _) = desk.listed(self.last);
        let count = share.count();
        put(rt, &mut shares, share);
        let number = closed(rt, index, shares);
        let read = (receipt.number, receipt.reads.as_slice().len());
        (is_first, read, audit, list, count, number)
    }
}

/// The same in a place of its own, for two participants and this many items.
fn in_a_place<R: Threads + Wait + Abort + Sync>(
    rt: &R,
    alloc: Global,
    slots: u16,
    course: Course,
) -> Found {
    let start = empty(2, slots, 1);
    let domain = place(rt, alloc, start);
    let stage = staged(rt, &domain, start);
    let found = course.kept_on::<Brand, R>(rt, alloc, stage);
    end(rt, domain);
    found
}

/// Ten keys were raised in turn, last by the commits 93 to 102, which wrote 90 to 99.
const AFTER_THE_WALK: [(u64, u64); 11] = [
    (1, 90),
    (2, 91),
    (3, 92),
    (4, 93),
    (5, 94),
    (6, 95),
    (7, 96),
    (8, 97),
    (9, 98),
    (10, 99),
    (11, 110),
];

#[test]
fn a_walk_that_waits_for_a_commit_goes_on_in_its_list(rt: HostRuntime) {
    // 1 slot for the empty version, 7 for the first commit, 9 for the second, and 3 for each other one
    let course = Course {
        how: Meanwhile::Waits,
        last: 102,
    };
    let found = in_a_place(&rt, rt.alloc(), 512, course);
    let (is_first, read, audit, list, count, number) = found;
    assert!(rt; list == range(&rt, rt.alloc(), AFTER_THE_WALK));
    assert!(rt; is_first && audit == Ok(Audit::Yes));
    assert_eq!(rt; [read.0, count, number], [1, 102, 102]);
}

/// The last ten commits wrote 990 to 999.
const AFTER_A_THOUSAND: [(u64, u64); 10] = [
    (1, 990),
    (2, 991),
    (3, 992),
    (4, 993),
    (5, 994),
    (6, 995),
    (7, 996),
    (8, 997),
    (9, 998),
    (10, 999),
];

#[test]
fn a_session_is_kept_over_a_thousand_commits(rt: HostRuntime) {
    // 1 slot for the empty version, 21 for the first commit, and 3 for each other one
    let course = Course {
        how: Meanwhile::Reads,
        last: 1001,
    };
    let found = in_a_place(&rt, rt.alloc(), 4096, course);
    let (is_first, read, audit, list, count, number) = found;
    assert!(rt; list == range(&rt, rt.alloc(), AFTER_A_THOUSAND));
    assert!(rt; is_first && audit == Ok(Audit::Yes));
    assert_eq!(rt; ([read.0, count, number], read.1), ([1, 1001, 1001], 2));
}
