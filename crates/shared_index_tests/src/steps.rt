//! Steps of an index that several take, one after the other, as rows of tables.

ghost use Rattle.std.specs.Prelude.{◌≡◌, ◌≤◌};
ghost use Rattle.shared_index.specs.SharedInvariant.{IsUnengaged};
ghost use Rattle.shared_index_tests.specs.Scenes.{CanBegin};

use self::Ask::{First, Get, Has, Last, List, Near};
use self::Step::{Commit, Reclaim, Session};
use crate::calls::{self, Desk, asked};
use crate::place::ROOM;
use crate::scene::{Scene, begun, closed, empty, plays, put, taken};
use crate::stage::{Item, Stage, Start};
use sdd_domain::local::Local;
use serial_history::{Audit, Cause, Query, Receipt};
use shared_index::{Naming, Share};
use shared_sessions::OpenRefused;
use std::alloc::Global;
use std::ops::Bound;
use std::process::Abort;
use std::sync::Wait;
use version_views::Write;

/// What a session reads and records.
#[derive(Clone, Copy)]
pub(crate) enum Ask {
    Get(u64),
    Has(u64),
    List(Bound<u64>, Bound<u64>),
    Near(u64),
    First(Bound<u64>, Bound<u64>, usize),
    Last(Bound<u64>, Bound<u64>, usize),
}

/// Writes of a commit.
type Writes = &'static [Write<u64, u64>];

/// What is done with an index, and what is answered at its end.
#[derive(Clone, Copy)]
pub(crate) enum Step {
    /// Commits these writes, which rest on nothing.
    Commit(Writes, Told),
    /// Opens a session for at least this number, makes these reads, commits the first writes, if there are any, and closes
    /// it; then commits the second writes on its receipt.
    Session(u64, &'static [Ask], Writes, Writes, Told),
    /// Reclaims what nobody reads.
    Reclaim,
}

/// What is answered: the number of a commit that was accepted, the read that doesn't hold, or another cause of a refusal, of the
/// commit or of its session.
#[derive(Clone, Copy, Debug, PartialEq, Eq)]
pub(crate) enum Told {
    Made(u64),
    Conflict(u64),
    Refused(&'static str, u64),
}

/// The query of a read.
fn query(ask: Ask) -> Query<u64> {
    match ask {
        Get(key) => Query::Get(key),
        Has(key) => Query::Contains(key),
        List(lower, upper) => Query::Range(lower, upper),
        Near(key) => Query::Locate(key),
        First(lower, upper, most) => Query::First(lower, upper, most),
        Last(lower, upper, most) => Query::Last(lower, upper, most),
    }
}

/// What is answered of a refusal to open a session.
fn unopened(why: OpenRefused) -> Told {
    match why {
        OpenRefused::Nested => Told::Refused("nested", 0),
        OpenRefused::Earlier(number) => Told::Refused("earlier", number),
        OpenRefused::NoVersion => Told::Refused("no version", 0),
    }
}

/// What is answered of a refused commit.
fn uncommitted(why: Cause) -> Told {
    match why {
        Cause::Conflict(at) => Told::Conflict(at as u64),
        Cause::Exhausted => Told::Refused("exhausted", 0),
        Cause::Memory => Told::Refused("memory", 0),
        Cause::NoSlot => Told::Refused("no slot", 0),
    }
}

impl<L: Naming, R: Wait + Abort, const S: usize> Desk<'_, '_, L, R, S> {
    /// Commits writes on a receipt: what is answered. Refused, they have to be returned.
    pub(crate) fn written(
        &self,
        share: &mut Share<L>,
        receipt: &Receipt<u64, u64>,
        writes: &[Write<u64, u64>],
    ) -> Told {
        let made = Vec::from_clones(self.alloc, writes).expect(self.rt, ROOM);
        match self.commit(share, receipt, made) {
            Ok(told) => Told::Made(told.number),
            Err(refused) => {
                assert!(self.rt; refused.writes.as_slice() == writes);
                uncommitted(refused.cause)
            }
        }
    }

    /// The receipt of a session, while the writes are committed, if there are any; or why it was refused. An audit has to find the
    /// receipt right.
    fn receipt_of(
        &self,
        share: &mut Share<L>,
        local: &mut Local<Item>,
        reading: Reading,
    ) -> Result<Receipt<u64, u64>, OpenRefused>
        requires { IsUnengaged L.place local.old }
        ensures { IsUnengaged L.place local.new }
    {
        let Reading {
            at_least,
            asks,
            meanwhile,
        } = reading;
        match self.tried(local, at_least) {
            Ok(session) => {
                let mut session = session;
                recorded(self.rt, &mut session, asks);
                if !meanwhile.is_empty() {
                    let blank = Receipt::blank(self.alloc);
                    let _told = self.written(share, &blank, meanwhile);
                }
                let receipt = self.ended(session, local);
                assert!(self.rt; self.audit(&receipt) == Ok(Audit::Yes));
                Ok(receipt)
            }
            Err(refused) => Err(refused),
        }
    }

    /// Takes a step: whether it is answered so at its end.
    fn stepped(&self, share: &mut Share<L>, local: &mut Local<Item>, step: Step) -> bool
        requires { IsUnengaged L.place local.old }
        ensures { IsUnengaged L.place local.new }
    {
        match step {
            Commit(writes, wanted) => {
                let blank = Receipt::blank(self.alloc);
                self.written(share, &blank, writes) == wanted
            }
            Session(at_least, asks, meanwhile, writes, wanted) => {
                let reading = Reading {
                    at_least,
                    asks,
                    meanwhile,
                };
                let told = match self.receipt_of(share, local, reading) {
                    Ok(receipt) => self.written(share, &receipt, writes),
                    Err(refused) => unopened(refused),
                };
                told == wanted
            }
            Reclaim => {
                self.reclaim();
                true
            }
        }
    }

    /// How many steps of a table answer what they are to before the first that doesn't.
    fn played(&self, share: &mut Share<L>, local: &mut Local<Item>, rows: &[Step]) -> usize
        requires { IsUnengaged L.place local.old }
        ensures { IsUnengaged L.place local.new }
    {
        let mut right = 0usize;
        for at in 0..rows.len() {
            if right == at && self.stepped(share, local, rows[at]) {
                right = right.saturating_add(1);
            }
        }
        right
    }
}

/// Has a session make these reads.
fn recorded<R: Abort, const S: usize>(rt: &R, session: &mut calls::Session<S>, asks: &[Ask])
    ensures { session.new.nest ≡ session.old.nest }
{
    for ask in asks {
        let _told = asked(session, query(*ask)).expect(rt, ROOM);
    }
}

/// A session for at least this number that makes these reads, and what is committed meanwhile.
struct Reading {
    at_least: u64,
    asks: &'static [Ask],
    meanwhile: &'static [Write<u64, u64>],
}

/// A table, and the index that it is played on: whether a segment has one pair at most, or two; its slots, its last number, the
/// steps, and the number at the end.
#[derive(Clone, Copy)]
pub(crate) struct Table {
    pub(crate) is_by_ones: bool,
    pub(crate) slots: u16,
    pub(crate) last: u64,
    pub(crate) rows: &'static [Step],
    pub(crate) number: u64,
}

impl Table {
    /// How many steps are right before the first that isn't, the count of the share, and the number of the index.
    fn on_an_index<L: Naming, R: Wait + Abort, const S: usize>(
        self,
        rt: &R,
        alloc: Global,
        stage: Stage<'_>,
    ) -> (usize, u64, u64)
        requires begins { CanBegin L.place L.name L.parts L.last stage }
        requires size { (1 ≤ S) × (S ≤ 225) }
    {
        let (index, mut shares) = begun::<L, R, S>(rt, alloc, stage);
        let mut share = taken(rt, &mut shares);
        let desk = Desk::of(rt, alloc, &index);
        let mut reader = desk.entered();
        let right = desk.played(&mut share, &mut reader, self.rows);
        desk.leave(reader);
        let count = share.count();
        put(rt, &mut shares, share);
        (right, count, closed(rt, index, shares))
    }
}

impl<R: Wait + Abort> Scene<R> for Table {
    type Found = (usize, u64, u64);

    fn play<L: Naming>(self, rt: &R, alloc: Global, stage: Stage<'_>) -> Self::Found {
        if self.is_by_ones {
            self.on_an_index::<L, R, 1>(rt, alloc, stage)
        } else {
            self.on_an_index::<L, R, 2>(rt, alloc, stage)
        }
    }
}

/// Plays a table on an index of its own.
pub(crate) fn plays_table<R: Wait + Abort>(rt: &R, alloc: Global, table: Table) {
    let start = Start {
        last: table.last,
        ..empty(2, table.slots, 1)
    };
    let found = plays(rt, alloc, start, table);
    assert_eq!(rt; found, (table.rows.len(), table.number, table.number));
}
