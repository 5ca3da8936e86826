//! Each call of an index of numbers, of its sessions and of its place, in one function: the proof of a call at these types is
//! long.

ghost use Rattle.std.specs.Prelude.{◌≡◌, ◌+◌, IfNone, IfOk, IfSome, OnErr, OnOk};
ghost use Rattle.sdd_domain.specs.Tokens.{place_of, home_of, own_of, nest_in, IsSame};
ghost use Rattle.shared_index.specs.SharedInvariant.{IsUnengaged};

use crate::place::member;
use crate::stage::Item;
use sdd_domain::domain::Domain;
use sdd_domain::local::Local;
use serial_history::{Accepted, Answer, Audit, CheckpointRefused, Query, Receipt, Refused};
use shared_index::{BaseList, FeedRefused, Naming, Share, SharedIndex};
use shared_sessions::{OpenRefused, SharedSession};
use std::alloc::{AllocError, Global};
use std::process::Abort;
use std::sync::Wait;
use version_views::Write;

/// An index of numbers, with this many pairs in a segment at most.
pub(crate) type Index<'d, L, const S: usize> = SharedIndex<'d, L, u64, u64, S>;

pub(crate) type Session<const S: usize> = SharedSession<u64, u64, S>;

/// A participant of the place, if one is free.
pub(crate) fn registered(domain: &Domain<Item>) -> Option<Local<Item>>
    ensures { IfSome result (IsUnengaged (place_of domain.now)) }
{
    match domain.register() {
        Ok(local) => Some(local),
        Err(_) => None,
    }
}

/// Ends a participant.
pub(crate) fn leave(domain: &Domain<Item>, local: Local<Item>)
    requires { IsUnengaged (place_of domain.now) local }
{
    local.end(domain);
}

/// How many slots of the place have an item.
pub(crate) fn in_use(domain: &Domain<Item>) -> usize {
    domain.slots_in_use()
}

/// An index as somebody calls it.
#[derive(Drop)]
pub(crate) struct Desk<'a, 'd, L: Naming, R, const S: usize> {
    pub(crate) rt: &'a R,
    pub(crate) alloc: Global,
    pub(crate) index: &'a Index<'d, L, S>,
}

impl<'a, 'd, L: Naming, R: Wait, const S: usize> Desk<'a, 'd, L, R, S> {
    pub(crate) fn of(rt: &'a R, alloc: Global, index: &'a Index<'d, L, S>) -> Self {
        Desk { rt, alloc, index }
    }

    /// A participant of the place, if one is free.
    pub(crate) fn registered(&self) -> Option<Local<Item>>
        ensures { IfSome result (IsUnengaged L.place) }
    {
        registered(self.index.domain())
    }

    /// Ends a participant.
    pub(crate) fn leave(&self, local: Local<Item>)
        requires { IsUnengaged L.place local }
    {
        leave(self.index.domain(), local);
    }

    /// Makes the list of a number the base, and copies it.
    pub(crate) fn based(
        &self,
        upto: u64,
    ) -> (
        Result<(), CheckpointRefused>,
        Result<BaseList<u64, u64>, AllocError>,
    ) {
        let told = self.index.checkpoint(self.rt, upto);
        (told, self.index.base(self.rt))
    }

    /// A session for at least this number, or why there is none.
    pub(crate) fn tried(
        &self,
        local: &mut Local<Item>,
        at_least: u64,
    ) -> Result<Session<S>, OpenRefused>
        requires { IsUnengaged L.place local.old }
        ensures nest { IfOk result (λ s. s.nest ≡ nest_in local.new) }
        ensures open { OnOk result ((own_of local.new).nesting ≡ 1) }
        ensures closed { OnErr result ((own_of local.new).nesting ≡ 0) }
        ensures same { IsSame local.old local.new }
    {
        self.index.open(local, at_least)
    }

    /// A session for at least this number, if it is there.
    pub(crate) fn opened(&self, local: &mut Local<Item>, at_least: u64) -> Option<Session<S>>
        requires { IsUnengaged L.place local.old }
        ensures nest { IfSome result (λ s. s.nest ≡ nest_in local.new) }
        ensures open { IfSome result (λ s. (own_of local.new).nesting ≡ 1) }
        ensures closed { IfNone result ((own_of local.new).nesting ≡ 0) }
        ensures same { IsSame local.old local.new }
    {
        match self.tried(local, at_least) {
            Ok(session) => Some(session),
            Err(_) => None,
        }
    }

    /// Closes a session: its receipt.
    pub(crate) fn ended(&self, session: Session<S>, local: &mut Local<Item>) -> Receipt<u64, u64>
        requires home { home_of local.old ≡ L.place }
        requires mine { session.nest ≡ nest_in local.old }
        requires open { (own_of local.old).nesting ≡ 1 }
        ensures same { IsSame local.old local.new }
        ensures closed { (own_of local.new).nesting ≡ 0 }
    {
        session.close(self.index.domain(), local)
    }

    /// Commits writes that rest on a receipt.
    pub(crate) fn commit(
        &self,
        share: &mut Share<L>,
        receipt: &Receipt<u64, u64>,
        writes: Vec<Write<u64, u64>>,
    ) -> Result<Accepted, Refused<u64, u64>>
        ensures counted { OnOk result (share.new ≡ share.old + 1) }
        ensures uncounted { OnErr result (share.new ≡ share.old) }
    {
        self.index.commit(self.rt, share, receipt, writes)
    }

    /// Audits a receipt.
    pub(crate) fn audit(&self, receipt: &Receipt<u64, u64>) -> Result<Audit, AllocError> {
        self.index.audit(self.rt, receipt)
    }

    /// Makes the list of a number the base.
    pub(crate) fn checkpoint(&self, upto: u64) -> Result<(), CheckpointRefused> {
        self.index.checkpoint(self.rt, upto)
    }

    /// How many transactions came behind a number.
    pub(crate) fn fed(&self, number: u64) -> Result<usize, FeedRefused> {
        let rest = self.index.since(self.rt, number)?;
        Ok(rest.len())
    }

    /// The numbers of the base and the present list, and of the slots how many are in use, and all.
    pub(crate) fn counted(&self) -> ((u64, u64), (usize, usize)) {
        (
            self.index.numbers(self.rt),
            (self.index.slots_in_use(), self.index.slots()),
        )
    }

    /// This many rounds of a reclaim.
    pub(crate) fn rounds(&self, count: u32) {
        for _ in 0..count {
            self.index.reclaim_once(self.rt);
        }
    }

    /// Reclaims what nobody reads.
    pub(crate) fn reclaim(&self) {
        self.index.reclaim(self.rt);
    }
}

impl<L: Naming, R: Abort, const S: usize> Desk<'_, '_, L, R, S> {
    /// A participant of the place, which has one that is free.
    pub(crate) fn entered(&self) -> Local<Item>
        ensures { IsUnengaged L.place result }
    {
        member(self.rt, self.index.domain())
    }
}

/// Asks and records a query.
pub(crate) fn asked<const S: usize>(
    session: &mut Session<S>,
    query: Query<u64>,
) -> Result<Answer<u64, u64>, AllocError>
    ensures { session.new.nest ≡ session.old.nest }
{
    session.read(query)
}
