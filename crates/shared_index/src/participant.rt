//! A participant of an index, which ends where it is dropped.

ghost use Rattle.std.specs.Prelude.{◌≡◌, ◌≤◌, [], None, Some, IfOk, IfErr, IsErrOf, IsSome, OnErr, OnOk};
ghost use Rattle.leaf_array.specs.Values.{ClonesAreSame};
ghost use Rattle.serial_history.specs.Answers.{answer_to};
ghost use Rattle.shared_sessions.specs.Openings.{IsBelow};
ghost use Rattle.shared_index.specs.Participants.{list_in, reads_in};
ghost use Rattle.serial_history.specs.Serial.{with_read};

use crate::index::SharedIndex;
use crate::naming::Naming;
use crate::reading::SharedReading;
use sdd_domain::local::Local;
use sdd_domain::refusal::RegisterRefused;
use serial_history::{Answer, Query, Receipt};
use shared_sessions::{OpenRefused, SharedSession};
use shared_versions::Node;
use std::alloc::AllocError;
use std::marker::Model;

/// A participant of the place of an index, to read it by one session at a time.
///
/// It ends where it is dropped, and so does its session: nothing is asked of its calls, and nobody has to close or end
/// anything. Contracts see its session, where one is open.
pub struct Participant<'i, 'd, L: Naming, K: Clone + Ord, V: Clone + Eq, const S: usize> {
    index: &'i SharedIndex<'d, L, K, V, S>,
    local: Local<Node<K, V>>,
    session: Option<SharedSession<K, V, S>>,
}

/// Invariant: specs/Participants.antt. It is of the place of the index, with nothing in hand; its one guard is that of the
/// session.
impl<'i, 'd, L: Naming, K: Clone + Ord, V: Clone + Eq, const S: usize> Model
    for Participant<'i, 'd, L, K, V, S> {
    ghost use Rattle.std.specs.Prelude.{Option};
    ghost use Rattle.shared_sessions.specs.Sessions.{OpenedSession};
    ghost use Rattle.shared_index.specs.Participants.{IsKept};

    ghost Value = { Option (OpenedSession K V) };

    ghost view = { λ p. p.session };

    ghost invariant = { λ p. IsKept L.place p.local p.session };
}

impl<'i, 'd, L: Naming, K: Clone + Ord, V: Clone + Eq, const S: usize> Drop
    for Participant<'i, 'd, L, K, V, S> {
    fn drop(mut self) {
        self.close();
        let Participant {
            index,
            local,
            session,
        } = self;
        if let Some(_open) = session {
            unreachable!()
        }
        local.end(index.domain());
    }
}

impl<'d, L: Naming, K: Clone + Ord, V: Clone + Eq, const S: usize> SharedIndex<'d, L, K, V, S> {
    /// Registers a participant, which ends where it is dropped. It is refused where [`Domain::register`] is: as `Full` where each
    /// participant of the place was taken when it was tried, and as `Memory` where there was none for what it keeps.
    ///
    /// [`Domain::register`]: sdd_domain::domain::Domain::register
    pub fn participant(&self) -> Result<Participant<'_, 'd, L, K, V, S>, RegisterRefused>
        ensures { IfOk result (λ p. p ≡ None) }
    {
        let local = self.domain().register()?;
        Ok(Participant {
            index: self,
            local,
            session: None,
        })
    }
}

impl<'i, 'd, L: Naming, K: Clone + Ord, V: Clone + Eq, const S: usize> Participant<
    'i,
    'd,
    L,
    K,
    V,
    S,
> {
    ghost use Rattle.shared_index.specs.SharedReadings.{list_read, receipt_of, reference_of};

    /// The index that it reads.
    pub fn index(&self) -> &'i SharedIndex<'d, L, K, V, S> {
        self.index
    }

    /// A reader of the present list, by a session that closes where the reader is dropped: [`SharedIndex::open`] says which
    /// version it reads. It takes no memory.
    ///
    /// It is refused as `Earlier`, with the number of the version that was loaded, where that is below `at_least`; then no session is
    /// open. `Nested` never comes, since a session that was open is closed first; nor does `NoVersion`.
    pub fn reading<'a>(
        &'a mut self,
        at_least: u64,
    ) -> Result<SharedReading<'a, 'i, 'd, L, K, V, S>, OpenRefused>
        ensures number { IfOk result (λ r. at_least ≤ (receipt_of r).number) }
        ensures blank { IfOk result (λ r. (receipt_of r).reads ≡ []) }
        ensures same_reference { IfOk result (λ r. reference_of r ≡ self.entry.ghost_name) }
        ensures never { ¬ IsErrOf result OpenRefused.Nested }
        ensures earlier { IfErr result (IsBelow at_least) }
    {
        self.close();
        self.open(at_least)?;
        Ok(SharedReading { participant: self })
    }

    /// Opens a session, where none is open. Refused, none is.
    pub(crate) fn open(&mut self, at_least: u64) -> Result<(), OpenRefused>
        requires { self.old ≡ None }
        ensures opened { OnOk result (IsSome self.new) }
        ensures number { OnOk result (at_least ≤ (reads_in self.new).number) }
        ensures blank { OnOk result ((reads_in self.new).reads ≡ []) }
        ensures never { ¬ IsErrOf result OpenRefused.Nested }
        ensures earlier { IfErr result (IsBelow at_least) }
        ensures refused { OnErr result (self.new ≡ None) }
    {
        let Participant {
            index,
            local,
            session,
        } = self;
        let opened = index.open(local, at_least)?;
        if let Some(_other) = session.replace(opened) {
            unreachable!()
        }
        Ok(())
    }

    /// Closes its session, where one is open.
    pub(crate) fn close(&mut self)
        ensures { self.new ≡ None }
    {
        let Participant {
            index,
            local,
            session,
        } = self;
        if let Some(session) = session.take() {
            let _receipt = session.close(index.domain(), local);
        }
    }

    /// The same, where one is open, with its receipt.
    pub(crate) fn finish(&mut self) -> Receipt<K, V>
        requires { IsSome self.old }
        ensures closed { self.new ≡ None }
        ensures receipt { result ≡ reads_in self.old }
    {
        let Participant {
            index,
            local,
            session,
        } = self;
        match session.take() {
            Some(session) => session.close(index.domain(), local),
            None => unreachable!(),
        }
    }

    /// Its session.
    pub(crate) fn session(&self) -> &SharedSession<K, V, S>
        requires { IsSome self.now }
        ensures { Some result.now ≡ self.now }
    {
        match &self.session {
            Some(session) => session,
            None => unreachable!(),
        }
    }

    /// A recorded read of its session.
    pub(crate) fn read(&mut self, query: Query<K>) -> Result<Answer<K, V>, AllocError>
        requires open { IsSome self.old }
        requires keys { ClonesAreSame K.is_clone }
        requires values { ClonesAreSame V.is_clone }
        ensures open { IsSome self.new }
        ensures told { IfOk result (λ answer. answer ≡ answer_to K.cmp query (list_in self.old)) }
        ensures recorded { IfOk result (λ answer. reads_in self.new ≡ with_read query answer (reads_in self.old)) }
        ensures refused { OnErr result (self.new ≡ self.old) }
        ensures same_list { list_in self.new ≡ list_in self.old }
    {
        let Participant {
            index: _,
            local: _,
            session,
        } = self;
        match session {
            Some(session) => session.read(query),
            None => unreachable!(),
        }
    }
}
