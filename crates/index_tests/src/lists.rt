//! What an index has to be: plain lists, one for each number, and what they answer to a call.

use crate::met::{Met, met_by};
use crate::plain;
use crate::room::Room;
use local_index::{
    Accepted, Answer, Audit, Cause, DeskCall, DeskReply, Query, ReadSet, Receipt, Recorded,
    Refused, Seq, Write,
};
use local_versions::plain::applied;
use std::alloc::{AllocError, Global};

pub(crate) const PLACES: usize = 2;

/// What an index begins with: a number, its list, and the last number.
#[derive(Clone, Copy)]
pub(crate) struct Start {
    pub(crate) number: u64,
    pub(crate) pairs: &'static [(u64, u64)],
    pub(crate) last: u64,
}

// A session: its label, its number, and what it recorded.
#[derive(Drop)]
pub(crate) struct Sitting {
    label: u64,
    pub(crate) number: u64,
    reads: Vec<Recorded<u64, u64>>,
}

/// What an index has to be: what it began with, a list for each number from there on, the number of the base, and the sessions;
/// and what was met.
#[derive(Drop)]
pub(crate) struct Lists {
    pub(crate) start: Start,
    lists: Vec<Seq<(u64, u64)>>,
    pub(crate) base: u64,
    sessions: Vec<Sitting>,
    pub(crate) met: u32,
}

/// A call, the reply that the lists have, and the list that a commit leaves.
#[derive(Drop)]
pub(crate) struct Turn {
    pub(crate) call: DeskCall<u64, u64>,
    wanted: DeskReply<u64, u64>,
    after: Vec<(u64, u64)>,
}

// What a call reads, by the session with the label.
fn read_by(call: &DeskCall<u64, u64>) -> Result<Option<(u64, Query<u64>)>, AllocError> {
    Ok(match call {
        DeskCall::Get(label, key) => Some((*label, Query::Get(*key))),
        DeskCall::Contains(label, key) => Some((*label, Query::Contains(*key))),
        DeskCall::Range(label, lower, upper) => Some((
            *label,
            Query::Range(lower.clone()?, upper.clone()?),
        )),
        DeskCall::Locate(label, key) => Some((*label, Query::Locate(*key))),
        DeskCall::First(label, lower, upper, count) => Some((
            *label,
            Query::First(lower.clone()?, upper.clone()?, *count),
        )),
        DeskCall::Last(label, lower, upper, count) => Some((
            *label,
            Query::Last(lower.clone()?, upper.clone()?, *count),
        )),
        _ => None,
    })
}

// The writes of a call.
fn writes_of(call: &DeskCall<u64, u64>) -> &[Write<u64, u64>] {
    match call {
        DeskCall::Commit(_, writes) => writes.as_slice(),
        _ => &[],
    }
}

impl Lists {
    pub(crate) fn new(alloc: Global, start: Start) -> Result<Self, AllocError> {
        let mut lists = Vec::new(alloc);
        lists.push(Seq::from_vec(Vec::from_clones(alloc, start.pairs)?))?;
        Ok(Lists {
            start,
            lists,
            base: start.number,
            sessions: Vec::new(alloc),
            met: 0,
        })
    }

    pub(crate) fn meets(&mut self, met: Met) {
        self.met |= met as u32;
    }

    /// The present number.
    pub(crate) fn number(&self) -> u64 {
        let commits = self.lists.len().saturating_sub(1) as u64;
        self.start.number.saturating_add(commits)
    }

    /// The list of a number; of one that no list has, the empty one.
    pub(crate) fn list(&self, number: u64) -> &[(u64, u64)] {
        let Some(at) = number.checked_sub(self.start.number) else {
            return &[];
        };
        match self.lists.get(at as usize) {
            Some(list) => list.as_slice(),
            None => &[],
        }
    }

    /// The session with the label.
    pub(crate) fn session(&self, label: u64) -> Option<&Sitting> {
        for session in &self.sessions {
            if session.label == label {
                return Some(session);
            }
        }
        None
    }

    // The reply to a call that isn't a commit. Where none is wanted, no session has the label.
    fn wanted(
        &self,
        alloc: Global,
        call: &DeskCall<u64, u64>,
        used: usize,
    ) -> Result<Option<DeskReply<u64, u64>>, AllocError> {
        Ok(match call {
            DeskCall::Open(label) => Some(self.wanted_of_open(*label)),
            DeskCall::Slots => Some(DeskReply::Slots(used)),
            DeskCall::Audit(on) => match self.rested_on(on) {
                Some((number, reads)) => {
                    Some(DeskReply::Audit(self.wanted_of_audit(alloc, number, reads)?))
                }
                None => None,
            },
            DeskCall::Checkpoint(upto) => Some(self.wanted_of_checkpoint(*upto)),
            DeskCall::Close(label) | DeskCall::Number(label) | DeskCall::Len(label) =>
                match self.session(*label) {
                    Some(session) => Some(self.wanted_of_session(session, call)?),
                    None => None,
                },
            _ => self.wanted_of_read(alloc, call)?,
        })
    }

    fn wanted_of_open(&self, label: u64) -> DeskReply<u64, u64> {
        if self.session(label).is_some() {
            return DeskReply::Busy;
        }
        if self.sessions.len() == PLACES {
            return DeskReply::NoPlace;
        }
        DeskReply::Opened(self.number())
    }

    fn wanted_of_session(
        &self,
        session: &Sitting,
        call: &DeskCall<u64, u64>,
    ) -> Result<DeskReply<u64, u64>, AllocError> {
        Ok(match call {
            DeskCall::Close(_) => DeskReply::Closed(Receipt {
                number: session.number,
                reads: Seq::from_vec(session.reads.clone()?),
            }),
            DeskCall::Number(_) => DeskReply::Number(session.number),
            _ => DeskReply::Len(self.list(session.number).len()),
        })
    }

    // The number and the reads of a set, where a session has its label.
    fn rested_on<'a>(
        &'a self,
        on: &'a ReadSet<u64, u64>,
    ) -> Option<(u64, &'a [Recorded<u64, u64>])> {
        match on {
            ReadSet::Session(label) => match self.session(*label) {
                Some(session) => Some((session.number, &session.reads)),
                None => None,
            },
            ReadSet::Receipt(receipt) => Some((receipt.number, receipt.reads.as_slice())),
            ReadSet::Empty => Some((0, &[])),
        }
    }

    fn wanted_of_checkpoint(&self, upto: u64) -> DeskReply<u64, u64> {
        let (first, present) = (self.base, self.number());
        if upto < first {
            return DeskReply::Behind(first);
        }
        if upto > present {
            return DeskReply::Ahead(present);
        }
        DeskReply::Checkpointed(upto)
    }

    fn wanted_of_read(
        &self,
        alloc: Global,
        call: &DeskCall<u64, u64>,
    ) -> Result<Option<DeskReply<u64, u64>>, AllocError> {
        let Some((label, query)) = read_by(call)? else {
            return Ok(None);
        };
        let Some(session) = self.session(label) else {
            return Ok(None);
        };
        let answer = plain::answer(alloc, self.list(session.number), &query)?;
        Ok(Some(DeskReply::Answer(answer)))
    }

    fn wanted_of_audit(
        &self,
        alloc: Global,
        number: u64,
        reads: &[Recorded<u64, u64>],
    ) -> Result<Audit, AllocError> {
        if number < self.base {
            return Ok(Audit::TooOld(self.base));
        }
        if number > self.number() {
            return Ok(Audit::Unknown);
        }
        Ok(match conflict(alloc, self.list(number), reads)? {
            Some(place) => Audit::No(place),
            None => Audit::Yes,
        })
    }

    // Why a commit on these reads is refused, before its writes are made.
    fn cause_on(
        &self,
        alloc: Global,
        reads: &[Recorded<u64, u64>],
    ) -> Result<Option<Cause>, AllocError> {
        if let Some(place) = conflict(alloc, self.list(self.number()), reads)? {
            return Ok(Some(Cause::Conflict(place)));
        }
        if self.number() == self.start.last {
            return Ok(Some(Cause::Exhausted));
        }
        Ok(None)
    }

    // A commit, where slots are free.
    fn turn_of_commit(
        &self,
        alloc: Global,
        on: ReadSet<u64, u64>,
        writes: Vec<Write<u64, u64>>,
    ) -> Result<Turn, AllocError> {
        let (after, replies) = applied(alloc, self.list(self.number()), writes.as_slice())?;
        let number = self.number().saturating_add(1);
        let wanted = match self.rested_on(&on) {
            Some((_, reads)) => match self.cause_on(alloc, reads)? {
                Some(cause) => DeskReply::Refused(Refused {
                    cause,
                    writes: writes.clone()?,
                }),
                None => DeskReply::Accepted(Accepted { number, replies }),
            },
            None => DeskReply::NoSession(writes.clone()?),
        };
        Ok(Turn {
            call: DeskCall::Commit(on, writes),
            wanted,
            after,
        })
    }

    /// A call, and what is to come of it, with this many slots in use.
    pub(crate) fn turn(
        &self,
        alloc: Global,
        call: DeskCall<u64, u64>,
        used: usize,
    ) -> Result<Turn, AllocError> {
        match call {
            DeskCall::Commit(on, writes) => self.turn_of_commit(alloc, on, writes),
            call => {
                let wanted = self.wanted(alloc, &call, used)?;
                Ok(Turn {
                    call,
                    wanted: wanted.unwrap_or(DeskReply::NoSession(Vec::new(alloc))),
                    after: Vec::new(alloc),
                })
            }
        }
    }

    /// Whether no more slots are in use than before, and without sessions no more than the present list may take.
    pub(crate) fn is_reclaimed(&self, room: &Room) -> bool {
        let is_small = room.after <= room.of(self.list(self.number()).len());
        room.after <= room.before && (is_small || !self.sessions.is_empty())
    }

    /// Does what a reply says.
    pub(crate) fn follow(
        &mut self,
        alloc: Global,
        turn: &Turn,
        reply: &DeskReply<u64, u64>,
        room: &Room,
    ) -> Result<(), AllocError> {
        self.met |= met_by(&turn.call, reply, self.start.number, self.number());
        match (&turn.call, reply) {
            (DeskCall::Open(label), DeskReply::Opened(_)) => self.keep(alloc, *label),
            (DeskCall::Close(label), DeskReply::Closed(_)) => {
                let left = *label;
                self.sessions.retain(|session| session.label != left);
                Ok(())
            }
            (call, DeskReply::Answer(answer)) => self.note(call, answer),
            (_, DeskReply::Accepted(_)) => {
                self.count_accepted(turn.after.len(), room);
                self.lists.push(Seq::from_vec(turn.after.clone()?))?;
                Ok(())
            }
            (_, DeskReply::Checkpointed(number)) => {
                if *number > self.base {
                    self.meets(Met::Based);
                }
                self.base = *number;
                Ok(())
            }
            _ => Ok(()),
        }
    }

    // A session opens on the present list.
    fn keep(&mut self, alloc: Global, label: u64) -> Result<(), AllocError> {
        let sitting = Sitting {
            label,
            number: self.number(),
            reads: Vec::new(alloc),
        };
        self.sessions.push(sitting)?;
        Ok(())
    }

    // A session records a read.
    fn note(
        &mut self,
        call: &DeskCall<u64, u64>,
        answer: &Answer<u64, u64>,
    ) -> Result<(), AllocError> {
        let Some((label, query)) = read_by(call)? else {
            return Ok(());
        };
        let read = (query, answer.clone()?);
        for session in &mut self.sessions {
            if session.label == label {
                session.reads.push(read)?;
                return Ok(());
            }
        }
        Ok(())
    }

    // Notes an accepted commit that leaves this many pairs.
    fn count_accepted(&mut self, pairs: usize, room: &Room) {
        if pairs > room.segment {
            self.meets(Met::Several);
            if room.after < room.before.saturating_add(room.least_of(pairs)) {
                self.meets(Met::Shared);
            }
        }
    }
}

// The first read that a plain list answers otherwise.
fn conflict(
    alloc: Global,
    pairs: &[(u64, u64)],
    reads: &[Recorded<u64, u64>],
) -> Result<Option<usize>, AllocError> {
    for place in 0..reads.len() {
        let read = &reads[place];
        if plain::answer(alloc, pairs, &read.0)? != read.1 {
            return Ok(Some(place));
        }
    }
    Ok(None)
}

/// Whether a reply is what is wanted, and as many slots are in use as may be. A commit that isn't refused for another cause may
/// be for want of slots.
pub(crate) fn is_right(turn: &Turn, reply: &DeskReply<u64, u64>, room: &Room) -> bool {
    let writes = writes_of(&turn.call);
    let pairs = turn.after.len();
    match (reply, &turn.wanted) {
        (DeskReply::Refused(refused), DeskReply::Accepted(_)) => {
            let kept = room.is_kept() && refused.writes.as_slice() == writes;
            kept && refused.cause == Cause::NoSlot && room.is_short_for(pairs, writes)
        }
        (DeskReply::Accepted(_), wanted) => *reply == *wanted && room.suffices(pairs, writes),
        (reply, wanted) => *reply == *wanted && room.is_kept(),
    }
}
