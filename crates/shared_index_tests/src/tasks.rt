//! What threads do with an index that they share.

ghost use Rattle.shared_index.specs.SharedInvariant.{IsUnengaged};

use crate::calls::{Desk, asked};
use crate::place::{ROOM, one, two};
use crate::stage::Item;
use sdd_domain::local::Local;
use serial_history::{Answer, Audit, Cause, Query, Receipt, Refused};
use shared_index::{Naming, Share};
use std::ops::Bound;
use std::process::Abort;
use std::sync::Wait;
use version_views::Write;

/// An upsert of a key that rests on what it had before.
#[derive(Clone, Copy)]
struct Step {
    key: u64,
    old: Option<u64>,
    new: u64,
}

impl<L: Naming, R: Wait + Abort, const S: usize> Desk<'_, '_, L, R, S> {
    /// Tries once to commit such an upsert: whether it was accepted, or nothing where it was refused for another cause than a
    /// conflict, or memory was refused before.
    fn try_swap(&self, share: &mut Share<L>, step: Step) -> Option<bool> {
        let mut receipt = Receipt::blank(self.alloc);
        let Ok(()) = receipt.note(Query::Get(step.key), &Answer::Get(step.old)) else {
            return None;
        };
        let Ok(writes) = vec![in self.alloc; Write::Upsert(step.key, step.new)] else {
            return None;
        };
        match self.commit(share, &receipt, writes) {
            Ok(_) => Some(true),
            Err(
                Refused {
                    cause: Cause::Conflict(0),
                    writes: _,
                },
            ) => Some(false),
            Err(_) => None,
        }
    }

    /// Commits an upsert that rests on a read of one key, from the first value to the second: whether it was accepted. Where it is refused for another cause than a
    /// conflict, such as memory, it is tried again, a hundred times at most.
    pub(crate) fn swap(
        &self,
        share: &mut Share<L>,
        key: u64,
        change: (Option<u64>, u64),
    ) -> Option<bool> {
        let (old, new) = change;
        for _ in 0..100u32 {
            if let Some(is_accepted) = self.try_swap(share, Step { key, old, new }) {
                return Some(is_accepted);
            }
        }
        None
    }

    /// This many upserts of one key, which nobody else writes, each resting on the one before: whether all were accepted.
    pub(crate) fn own_key(&self, share: &mut Share<L>, key: u64, last: u64) -> bool {
        let mut old = None;
        for new in 1..=last {
            if self.swap(share, key, (old, new)) != Some(true) {
                return false;
            }
            old = Some(new);
            self.reclaim();
        }
        true
    }

    /// This many upserts of one key, which rest on nothing, and of which none is reclaimed: whether all were accepted.
    pub(crate) fn upserts(&self, share: &mut Share<L>, key: u64, last: u64) -> bool {
        let blank = Receipt::blank(self.alloc);
        for value in 1..=last {
            let writes = one(self.rt, self.alloc, Write::Upsert(key, value));
            if self.commit(share, &blank, writes).is_err() {
                return false;
            }
        }
        true
    }

    /// One session for at least this number, which records two keys: its receipt, if both had the same value.
    pub(crate) fn twins(&self, local: &mut Local<Item>, at_least: u64) -> Option<Receipt<u64, u64>>
        requires { IsUnengaged L.place local.old }
        ensures { IsUnengaged L.place local.new }
    {
        let mut session = self.opened(local, at_least)?;
        let one = asked(&mut session, Query::Get(1));
        let other = asked(&mut session, Query::Get(2));
        let receipt = self.ended(session, local);
        match (one, other) {
            (Ok(one), Ok(other)) => { if one == other { Some(receipt) } else { None } }
            _ => None,
        }
    }

    /// A hundred sessions of a participant of its own, each for at least the number of the one before: how many read one list,
    /// by what they read and by the audit of their receipts. None if no participant was free.
    pub(crate) fn readings(&self) -> Option<u32> {
        let mut local = self.registered()?;
        let mut right: u32 = 0;
        let mut latest = 0;
        for _turn in 0..100u32 {
            if let Some(receipt) = self.twins(&mut local, latest) {
                latest = receipt.number;
                if self.audit(&receipt) == Ok(Audit::Yes) {
                    right = right.saturating_add(1);
                }
            }
        }
        self.leave(local);
        Some(right)
    }

    /// A hundred commits that give two keys the same value: whether all were accepted.
    pub(crate) fn writings(&self, share: &mut Share<L>) -> bool {
        let blank = Receipt::blank(self.alloc);
        for value in 1..=100u64 {
            let writes = two(
                self.rt,
                self.alloc,
                Write::Upsert(1, value),
                Write::Upsert(2, value),
            );
            if self.commit(share, &blank, writes).is_err() {
                return false;
            }
            self.reclaim();
        }
        true
    }

    /// Commits writes that rest on nothing. The share counts the commit, if it was accepted.
    pub(crate) fn write(&self, share: &mut Share<L>, writes: Vec<Write<u64, u64>>) {
        let _told = self.commit(share, &Receipt::blank(self.alloc), writes);
    }

    /// This many commits, which raise ten keys in turn, each followed by a reclaim.
    pub(crate) fn write_often(&self, share: &mut Share<L>, count: u64) {
        for turn in 0..count {
            let writes = one(self.rt, self.alloc, Write::Upsert(turn % 10 + 1, turn));
            self.write(share, writes);
            self.reclaim();
        }
    }

    /// All pairs, as a session of a new participant for at least this number reads them, and its receipt.
    pub(crate) fn listed(&self, at_least: u64) -> (Answer<u64, u64>, Receipt<u64, u64>) {
        let mut local = self.entered();
        let Some(mut session) = self.opened(&mut local, at_least) else {
            panic!(self.rt; "the number is there");
        };
        let told = asked(&mut session, all()).expect(self.rt, ROOM);
        let receipt = self.ended(session, &mut local);
        self.leave(local);
        (told, receipt)
    }
}

/// The query that all pairs answer.
pub(crate) fn all() -> Query<u64> {
    Query::Range(Bound::Unbounded, Bound::Unbounded)
}
