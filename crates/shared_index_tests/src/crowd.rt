//! An index that up to six threads share.

ghost use Rattle.shared_index.specs.SharedInvariant.{IsUnengaged};

use crate::calls::{Desk, asked};
use crate::joined::Task::{CountsUp, Raises, Reads, ReadsBack, Rests, Sums, Upserts, Writes};
use crate::joined::{Crowd, first_wrong};
use crate::stage::Item;
use sdd_domain::local::Local;
use serial_history::{Accepted, Answer, Audit, Query, Receipt};
use shared_index::{Naming, Share};
use shared_sessions::OpenRefused;
use std::alloc::AllocError;
use std::process::Abort;
use std::sync::Wait;
use version_views::Write;

/// The value that a key was found to have, or 0 where no pair had it.
fn value_of(answer: Result<Answer<u64, u64>, AllocError>) -> Option<u64> {
    match answer {
        Ok(Answer::Get(Some(value))) => Some(value),
        Ok(Answer::Get(None)) => Some(0),
        _ => None,
    }
}

/// The sum of two numbers, where both are there and it is small.
fn sum_of(one: Option<u64>, other: Option<u64>) -> Option<u64> {
    one?.checked_add(other?)
}

impl<L: Naming, R: Wait + Abort, const S: usize> Desk<'_, '_, L, R, S> {
    /// Counts a key up to a hundred beside others who do: each number is written by one of them. How many this one wrote; none
    /// where a commit was refused for another reason.
    pub(crate) fn same_key(&self, share: &mut Share<L>) -> Option<u64> {
        let mut wrote = 0;
        for new in 1..=100u64 {
            let old = if new == 1 { None } else { Some(new - 1) };
            if self.swap(share, 1, (old, new))? {
                wrote = u64::saturating_add(wrote, 1);
            }
            self.reclaim();
        }
        Some(wrote)
    }

    /// One session for at least this number, which records four keys: its receipt, if their values sum to its number. They do where
    /// each commit raises one of them by one.
    fn raised_together(&self, local: &mut Local<Item>, at_least: u64) -> Option<Receipt<u64, u64>>
        requires { IsUnengaged L.place local.old }
        ensures { IsUnengaged L.place local.new }
    {
        let mut session = self.opened(local, at_least)?;
        let one = asked(&mut session, Query::Get(1));
        let two = asked(&mut session, Query::Get(2));
        let three = asked(&mut session, Query::Get(3));
        let four = asked(&mut session, Query::Get(4));
        let receipt = self.ended(session, local);
        let some = sum_of(value_of(one), value_of(two));
        let others = sum_of(value_of(three), value_of(four));
        if sum_of(some, others) == Some(receipt.number) {
            Some(receipt)
        } else {
            None
        }
    }

    /// Fifty sessions of a participant of its own, each for at least the number of the one before: how many found values that sum to
    /// their number, and receipts that are right by an audit. None if no participant was free.
    pub(crate) fn sums(&self) -> Option<u32> {
        let mut local = self.registered()?;
        let mut right: u32 = 0;
        let mut latest = 0;
        for _turn in 0..50u32 {
            if let Some(receipt) = self.raised_together(&mut local, latest) {
                latest = receipt.number;
                if self.audit(&receipt) == Ok(Audit::Yes) {
                    right = right.saturating_add(1);
                }
            }
        }
        self.leave(local);
        Some(right)
    }

    /// Commits an upsert that rests on nothing: its number, if it was accepted.
    fn raised(&self, share: &mut Share<L>, key: u64, value: u64) -> Option<u64> {
        let Ok(writes) = vec![in self.alloc; Write::Upsert(key, value)] else {
            return None;
        };
        match self.commit(share, &Receipt::blank(self.alloc), writes) {
            Ok(Accepted { number, replies: _ }) => Some(number),
            Err(_) => None,
        }
    }

    /// One session for at least this number, which records a key: its receipt, if the key had this value.
    fn read_back(
        &self,
        local: &mut Local<Item>,
        at_least: u64,
        key: u64,
        value: u64,
    ) -> Option<Receipt<u64, u64>>
        requires { IsUnengaged L.place local.old }
        ensures { IsUnengaged L.place local.new }
    {
        let mut session = self.opened(local, at_least)?;
        let found = asked(&mut session, Query::Get(key));
        let receipt = self.ended(session, local);
        if found == Ok(Answer::Get(Some(value))) {
            Some(receipt)
        } else {
            None
        }
    }

    /// Whether a session for the greatest number is refused, with a number that is at least this.
    fn is_told_earlier(&self, local: &mut Local<Item>, number: u64) -> bool
        requires { IsUnengaged L.place local.old }
        ensures { IsUnengaged L.place local.new }
    {
        match self.tried(local, u64::MAX) {
            Ok(session) => {
                let _receipt = self.ended(session, local);
                false
            }
            Err(refused) => match refused {
                OpenRefused::Earlier(present) => number <= present,
                _ => false,
            },
        }
    }

    /// Fifty commits of a key that nobody else writes, each read back in a session of a participant of its own, for at least the number
    /// that the commit returned: how many were found, with a receipt that is right by an audit. Whoever asks for the greatest number
    /// is refused with one that isn't below that of the commit. None if no participant was free.
    pub(crate) fn read_often(&self, share: &mut Share<L>, key: u64) -> Option<u32> {
        let mut local = self.registered()?;
        let mut right: u32 = 0;
        for value in 1..=50u64 {
            // the last number represents a commit that was refused: no session is opened for it
            let number = self.raised(share, key, value).unwrap_or(u64::MAX);
            let is_later = self.is_told_earlier(&mut local, number);
            if let Some(receipt) = self.read_back(&mut local, number, key, value) {
                if is_later && self.audit(&receipt) == Ok(Audit::Yes) {
                    right = right.saturating_add(1);
                }
            }
            self.reclaim();
        }
        self.leave(local);
        Some(right)
    }
}

/// The counts of two threads with a key each sum to the number.
const A_KEY_EACH: Crowd = Crowd {
    participants: 3,
    slots: 1024,
    shares: 2,
    is_wide: false,
    tasks: [Raises(1, 100), Raises(2, 100), Rests, Rests, Rests, Rests],
    told: [Some(100), Some(100), None, None, None, None],
    number: 200,
    list: &[(1, 100), (2, 100)],
};

/// Each step of a common count is made once: each number is written by one of two threads.
const ONE_KEY: Crowd = Crowd {
    participants: 3,
    slots: 1024,
    shares: 2,
    is_wide: false,
    tasks: [CountsUp, CountsUp, Rests, Rests, Rests, Rests],
    told: [Some(1), Some(1), None, None, None, None],
    number: 100,
    list: &[(1, 100)],
};

/// Each session beside commits reads one list.
const READS_BESIDE_COMMITS: Crowd = Crowd {
    participants: 3,
    slots: 1024,
    shares: 1,
    is_wide: false,
    tasks: [Reads, Writes, Rests, Rests, Rests, Rests],
    told: [Some(100), Some(100), None, None, None, None],
    number: 100,
    list: &[(1, 100), (2, 100)],
};

// (this passes whichever allocations are refused while the threads run)
#[test]
fn threads_try_again_where_memory_is_refused(rt: HostRuntime) {
    assert_eq!(rt; first_wrong(&rt, rt.alloc(), &[A_KEY_EACH]), None);
}

#[test]
fn two_threads_commit_and_read_beside_each_other(rt: HostRuntime) {
    let crowds = [ONE_KEY, READS_BESIDE_COMMITS];
    assert_eq!(rt; first_wrong(&rt, rt.alloc(), &crowds), None);
}

/// Each session beside four committers finds the sum of its number.
const FOUR_RAISE: Crowd = Crowd {
    participants: 3,
    slots: 2048,
    shares: 4,
    is_wide: false,
    tasks: [
        Raises(1, 50),
        Raises(2, 50),
        Raises(3, 50),
        Raises(4, 50),
        Sums,
        Sums,
    ],
    told: [Some(50); 6],
    number: 200,
    list: &[(1, 50), (2, 50), (3, 50), (4, 50)],
};

/// A thousand commits of one upsert take two slots each, and the empty version one.
const FOUR_UPSERT: Crowd = Crowd {
    participants: 3,
    slots: 2001,
    shares: 4,
    is_wide: true,
    tasks: [
        Upserts(1, 250),
        Upserts(2, 250),
        Upserts(3, 250),
        Upserts(4, 250),
        Sums,
        Sums,
    ],
    told: [
        Some(250),
        Some(250),
        Some(250),
        Some(250),
        Some(50),
        Some(50),
    ],
    number: 1000,
    list: &[(1, 250), (2, 250), (3, 250), (4, 250)],
};

/// Each session of four readers beside two committers reads one list. The last commit of all is the last one of one of them.
const FOUR_READ: Crowd = Crowd {
    participants: 5,
    slots: 2048,
    shares: 2,
    is_wide: false,
    tasks: [Reads, Reads, Reads, Reads, Writes, Writes],
    told: [Some(100); 6],
    number: 200,
    list: &[(1, 100), (2, 100)],
};

#[test]
fn six_threads_commit_and_read_beside_each_other(rt: HostRuntime) {
    assert_eq!(rt;
        first_wrong(&rt, rt.alloc(), &[FOUR_RAISE, FOUR_UPSERT, FOUR_READ]),
        None
    );
}

/// A session for the number of a commit finds what it wrote.
const READ_BACK: Crowd = Crowd {
    participants: 3,
    slots: 512,
    shares: 2,
    is_wide: false,
    tasks: [ReadsBack(1), ReadsBack(2), Rests, Rests, Rests, Rests],
    told: [Some(50), Some(50), None, None, None, None],
    number: 100,
    list: &[(1, 50), (2, 50)],
};

#[test]
fn a_session_for_the_number_of_a_commit_finds_what_it_wrote(rt: HostRuntime) {
    assert_eq!(rt; first_wrong(&rt, rt.alloc(), &[READ_BACK]), None);
}
