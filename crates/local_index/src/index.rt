//! The index of one thread.

ghost use Rattle.std.specs.Prelude.{ℕ, ◌+◌, ◌≢◌, ◌≤◌, ◌≡◌, [], None, IfSome, IfNone, IfOk, OnOk, IsErr, IsOk, OnErr, get_or, replicate, slice_set, length, List, IfErr, ◌-◌, ◌*◌, ◌<◌, ◌^◌, ◌↔◌, ◌++◌, ◌∷◌, vec_capacity};
ghost use Rattle.std.specs.Option.{option_copied, option_map};
ghost use Rattle.leaf_array.specs.Pairs.{has_key, value_of_key};
ghost use Rattle.leaf_array.specs.Values.{ClonesAreSame, EqualsAreSame};
ghost use Rattle.tree_index.specs.Cursor.{whole};
ghost use Rattle.tree_index.specs.Proximity.{IsLocated};
ghost use Rattle.tree_index.specs.declared.cursor.End.TheVariants.{Unopened};
ghost use Rattle.version_views.specs.Nearby.{as_proximity};
ghost use Rattle.version_views.specs.Cuts.{pairs_in};
ghost use Rattle.version_views.specs.Views.{cursor_within};
ghost use Rattle.version_views.specs.Writes.{after_writes, replies_to};
ghost use Rattle.std.specs.List.{All, sum_by};
ghost use Rattle.serial_history.specs.Answers.{answer_to};
ghost use Rattle.serial_history.specs.Serial.{Holds, IsFirstConflict, empty_base};
ghost use Rattle.version_views.specs.Sizes.{IsStoreSized, room_for, segments_for};
ghost use Rattle.local_versions.specs.Store.{Version, gap};
ghost use Rattle.local_index.specs.State.{State, Has, fresh_index, latest_number, IsOpenAt, IsSessionAt, IsSessionOf, HasNoPlace, HasNoSession, Opens, Closes, list_at, list_open, list_read, present, with_commit, MayAccept, MayRefuse, Commits, Refuses, Reads, Audits, Reclaims};

pub mod from_base;
pub mod past;

use crate::session::Session;
use local_versions::{LocalStore, LocalView, Reply, Write, WriteRefused};
use serial_history::ordered_view::{answer, first_conflict};
use serial_history::transaction::{Prepared, prepare};
use serial_history::version_view::value_in_counted;
use serial_history::{
    Accepted, Answer, Audit, Cause, History, Nearby, Query, Receipt, Recorded, Refused, Seq, Walk,
};
use std::alloc::{AllocError, Global};
use std::marker::Model;
use std::ops::Bound;
use thiserror::Error;
use tree_index::{Steps, TreeIndex};

/// No place is free: as many sessions are open as the index has places.
#[derive(Clone, Copy, Debug, PartialEq, Eq, Error)]
#[error("no place is free for a session; the index is as it was")]
pub struct NoPlace;

/// An ordered index for one thread: a list of pairs, ascending by key, that sessions read and
/// commits replace.
///
/// Contracts see it as a `State`: its base, a list with its number; the transactions that were accepted
/// since; number and list of the session that is open at each place; its last number; how many slots
/// there are and are in use; and how often the epoch was raised. The list of a number is what the
/// transactions up to that number leave of the base's list; the present list is that of the present
/// number, which each accepted commit raises by one.
///
/// Each list is a version: a directory of segments of 1 to `S` pairs, which take a slot each. A
/// version stays while a session has it, and is reclaimed by [`reclaim`](LocalIndex::reclaim).
///
/// Keys and values are such that a clone is the value itself (asked where a call clones), and
/// equals are one value (asked where a call compares values). An index must be consumed by
/// [`close`](LocalIndex::close) or [`end`](LocalIndex::end), as a [`ScopedIndex`](crate::ScopedIndex) does by itself.
pub struct LocalIndex<K: Clone + Ord, V: Clone + Eq, const S: usize> {
    alloc: Global,
    store: LocalStore<K, V, S>,
    history: History<K, V>,
}

/// Invariant: specs/Invariant.antt, IsIndex: the present version is the list after the history, and each session's version is the
/// list of its number, where the base isn't past that.
impl<K: Clone + Ord, V: Clone + Eq, const S: usize> Model for LocalIndex<K, V, S> {
    ghost use Rattle.local_index.specs.State.{State};
    ghost use Rattle.local_index.specs.Invariant.{IsIndex, index_state};

    ghost Value = { State K V };

    ghost view = { λ a. index_state a.store a.history };

    ghost invariant = { λ a. IsIndex K.cmp S a.store a.history.base a.history.transactions };
}

impl<K: Clone + Ord, V: Clone + Eq, const S: usize> LocalIndex<K, V, S> {
    /// An empty index, for at most `places` sessions at a time and with `slots` slots, of which the empty
    /// version takes one. Its last number is `2^64 - 1`. Fails only if an allocation fails.
    pub fn new(alloc: Global, places: usize, slots: usize) -> Result<Self, AllocError>
        requires { IsStoreSized places slots S }
        ensures { IfOk result (λ index. index ≡ fresh_index empty_base places (2 ^ 64 - 1) slots 1) }
    {
        Self::with_last(alloc, places, slots, u64::MAX)
    }

    /// An empty index whose last number is the given one: it accepts at most that many commits, and
    /// refuses the next as `Exhausted`. Fails only if an allocation fails.
    pub fn with_last(
        alloc: Global,
        places: usize,
        slots: usize,
        last: u64,
    ) -> Result<Self, AllocError>
        requires { IsStoreSized places slots S }
        ensures { IfOk result (λ index. index ≡ fresh_index empty_base places last slots 1) }
    {
        Ok(LocalIndex {
            alloc,
            store: LocalStore::new(alloc, places, slots)?,
            history: History::empty(alloc, last),
        })
    }

    /// Opens a session on the present list. It is refused if and only if no place is free, and takes no
    /// memory.
    pub fn open(&mut self) -> Result<Session<K, V>, NoPlace>
        ensures opens { IfOk result (λ session. Opens K.cmp self.old session self.new) }
        ensures is_open { IfOk result (λ session. IsSessionOf self.new session) }
        ensures back { IfOk result (λ session. slice_set self.new.places session.place None ≡ self.old.places) }
        ensures apart { IfOk result (λ session. (place : ℕ) (version : Version K V) → IsOpenAt self.old place version → place ≢ session.place) }
        ensures others { IfOk result (λ _. (place : ℕ) (version : Version K V) → IsOpenAt self.old place version → IsOpenAt self.new place version) }
        ensures full { IsErr result ↔ HasNoPlace self.old }
        ensures err { OnErr result (self.new ≡ self.old) }
    {
        let number = self.present_number();
        let Some(place) = self.store.open() else {
            return Err(NoPlace);
        };
        let receipt = Receipt {
            number,
            reads: Seq::new(self.alloc),
        };
        Ok(Session::new(place, receipt))
    }

    /// The number of the session's list.
    pub fn number(&self, session: &Session<K, V>) -> u64
        ensures { result ≡ session.now.receipt.number }
    {
        session.number()
    }

    /// The value of the pair with the key, in the session's list, as `BTreeMap::get` finds it. The
    /// read isn't recorded.
    pub fn get(&self, session: &Session<K, V>, key: &K) -> Option<&V>
        requires { IsSessionOf self.now session.now }
        ensures { option_copied result ≡ value_of_key K.cmp key.now (list_read self.now session.now) }
    {
        let mut steps = Steps::new();
        self.get_counted(session, key, &mut steps)
    }

    /// The same, with its comparisons of keys counted: at most thirty, and one more for each binary digit of
    /// the number of segments, in at most `2 * (n / (S + 1)) + 1` of which `n` pairs lie. An empty list makes none.
    pub fn get_counted(&self, session: &Session<K, V>, key: &K, steps: &mut Steps) -> Option<&V>
        requires { IsSessionOf self.now session.now }
        ensures value { option_copied result ≡ value_of_key K.cmp key.now (list_read self.now session.now) }
        ensures cost { (digits : ℕ) → segments_for S (length (list_read self.now session.now)) < 2 ^ digits → steps.new.count ≤ steps.old.count + 30 + digits }
        ensures raised { steps.old.count ≤ steps.new.count }
        ensures none { list_read self.now session.now ≡ [] → steps.new.count ≡ steps.old.count }
    {
        value_in_counted(&self.list_of(session), key, steps)
    }

    /// Whether a pair of the session's list has the key. The read isn't recorded.
    pub fn contains(&self, session: &Session<K, V>, key: &K) -> bool
        requires { IsSessionOf self.now session.now }
        ensures { result ≡ has_key K.cmp key.now (list_read self.now session.now) }
    {
        let mut steps = Steps::new();
        self.contains_counted(session, key, &mut steps)
    }

    /// The same, with its comparisons of keys counted: as many as those of
    /// [`get_counted`](LocalIndex::get_counted) at most.
    pub fn contains_counted(&self, session: &Session<K, V>, key: &K, steps: &mut Steps) -> bool
        requires { IsSessionOf self.now session.now }
        ensures found { result ≡ has_key K.cmp key.now (list_read self.now session.now) }
        ensures cost { (digits : ℕ) → segments_for S (length (list_read self.now session.now)) < 2 ^ digits → steps.new.count ≤ steps.old.count + 30 + digits }
        ensures raised { steps.old.count ≤ steps.new.count }
        ensures none { list_read self.now session.now ≡ [] → steps.new.count ≡ steps.old.count }
    {
        self.get_counted(session, key, steps).is_some()
    }

    /// How many pairs the session's list has.
    pub fn len(&self, session: &Session<K, V>) -> usize
        requires { IsSessionOf self.now session.now }
        ensures { result ≡ length (list_read self.now session.now) }
    {
        self.list_of(session).len()
    }

    /// Where the key is in the session's list, with a cursor there (as `locate` of a `TreeIndex`
    /// gives it). The read isn't recorded.
    pub fn locate<'a>(&'a self, session: &Session<K, V>, key: &K) -> Nearby<'a, K, V, S>
        requires { IsSessionOf self.now session.now }
        ensures { IsLocated K.cmp key.now (list_read self.now session.now) (as_proximity result) }
    {
        self.list_of(session).locate(key)
    }

    /// A cursor over all pairs of the session's list. What it gives isn't recorded.
    pub fn iter<'a>(&'a self, session: &Session<K, V>) -> Walk<'a, K, V, S>
        requires { IsSessionOf self.now session.now }
        ensures { result ≡ whole (list_read self.now session.now) Unopened Unopened }
    {
        self.list_of(session)
            .walk(Bound::Unbounded, Bound::Unbounded)
    }

    /// A cursor over the pairs of the session's list within two bounds. What it gives isn't recorded.
    pub fn range<'a>(
        &'a self,
        session: &Session<K, V>,
        lower: Bound<&'a K>,
        upper: Bound<&'a K>,
    ) -> Walk<'a, K, V, S>
        requires { IsSessionOf self.now session.now }
        ensures { result ≡ cursor_within (list_read self.now session.now) lower.entry upper.entry }
    {
        self.list_of(session).walk(lower, upper)
    }

    /// The answer to a query on the session's list, which is also recorded as the last read of its
    /// receipt. Fails only if an allocation fails; then the receipt stays as it was.
    pub fn read(
        &self,
        session: &mut Session<K, V>,
        query: Query<K>,
    ) -> Result<Answer<K, V>, AllocError>
        requires session { IsSessionOf self.now session.old }
        requires keys { ClonesAreSame K.is_clone }
        requires values { ClonesAreSame V.is_clone }
        ensures read { IfOk result (λ answer. Reads K.cmp self.now session.old query answer session.new) }
        ensures refused { OnErr result (session.new ≡ session.old) }
    {
        let told = self.answer_at(session.place(), session.number(), &query)?;
        session.note(query, &told)?;
        Ok(told)
    }

    /// What the session recorded, and its number.
    pub fn receipt<'a>(&self, session: &'a Session<K, V>) -> &'a Receipt<K, V>
        ensures { result.now ≡ session.now.receipt }
    {
        session.receipt()
    }

    /// Makes the writes on the present list, in order, if each read of the receipt still holds
    /// there. The accepted commit has the next number, also without writes; a refused one changes
    /// nothing and hands the writes back.
    ///
    /// The causes are decided in this order: `Conflict` with the first read whose answer isn't that
    /// of the present list, whatever its number; `Exhausted` at the last number; `Memory`; `NoSlot`,
    /// only where fewer than `2 * (n / (S + 1)) + 2` slots are free, for the `n` pairs that the
    /// writes leave, since no version of `n` pairs takes more; and only where fewer than `2 * w + 1`
    /// are, for `w` writes, since segments that no write touches are taken over.
    pub fn commit(
        &mut self,
        receipt: &Receipt<K, V>,
        writes: Vec<Write<K, V>>,
    ) -> Result<Accepted, Refused<K, V>>
        requires keys { ClonesAreSame K.is_clone }
        requires values { ClonesAreSame V.is_clone }
        requires equal_keys { EqualsAreSame K.eq }
        requires equal_values { EqualsAreSame V.eq }
        ensures commits { Commits K.cmp S self.old receipt.now.reads writes.items result self.new }
        ensures sessions { self.new.places ≡ self.old.places }
        ensures few { OnOk result (self.new.used ≤ self.old.used + (2 * length writes.items + 1)) }
        ensures short { IfErr result (λ back. back.cause ≡ Cause.NoSlot → self.old.slots < self.old.used + (2 * length writes.items + 1)) }
    {
        let reads = receipt.reads.as_slice();
        if let Some(cause) = self.validate(reads) {
            return Err(Refused { cause, writes });
        }
        let number = self.next_number();
        let Ok(prepared) = prepare(self.alloc, reads, writes.len()) else {
            let cause = Cause::Memory;
            return Err(Refused { cause, writes });
        };
        match self.install(prepared, writes) {
            Ok(replies) => Ok(Accepted { number, replies }),
            Err(refused) => Err(refused),
        }
    }

    /// Whether the reads of a receipt are answered as the list of its number answers them: `TooOld`
    /// where its number is below the base's, and `Unknown` where no list has that number yet, which
    /// take no memory; else the first read that differs, or `Yes`. Fails only if an allocation fails.
    ///
    /// The list is the present one or a session's, where that has the number. Else it is rebuilt, from
    /// the base, from the nearest session's before it or from the last clearing, whichever is latest.
    pub fn audit(&self, receipt: &Receipt<K, V>) -> Result<Audit, AllocError>
        requires keys { ClonesAreSame K.is_clone }
        requires values { ClonesAreSame V.is_clone }
        requires equal_keys { EqualsAreSame K.eq }
        requires equal_values { EqualsAreSame V.eq }
        ensures audits { IfOk result (Audits K.cmp self.now receipt.now) }
        ensures has { OnErr result (Has self.now receipt.now.number) }
    {
        if let Some(outside) = self.history.audit_outside(receipt) {
            return Ok(outside);
        }
        Ok(match self.conflict_at(receipt)? {
            Some(place) => Audit::No(place),
            None => Audit::Yes,
        })
    }

    /// How many slots are in use: those of the present version, of versions that sessions have, and
    /// of what is yet to be reclaimed; at least one, and at most all.
    pub fn slots_in_use(&self) -> usize
        ensures used { result ≡ self.now.used }
        ensures some { 1 ≤ self.now.used }
        ensures within { self.now.used ≤ self.now.slots }
    {
        self.store.slots_in_use()
    }

    /// How many slots are free. A commit of `w` writes isn't refused as `NoSlot` where `2 * w + 1` are.
    pub fn free_slots(&self) -> usize
        ensures { result + self.now.used ≡ self.now.slots }
    {
        self.store.free_slots()
    }

    /// For how many sessions at a time the index was made.
    pub fn places(&self) -> usize
        ensures { result ≡ length self.now.places }
    {
        self.store.places()
    }

    /// How many more sessions can be opened.
    pub fn free_places(&self) -> usize
        ensures { result ≡ sum_by gap self.now.places }
    {
        self.store.free_places()
    }

    /// The number of the list that the session at a place reads; none where no session is open there. A session that stays
    /// open keeps all versions from its own on: the one with the lowest number is why slots aren't reclaimed.
    pub fn number_at(&self, place: usize) -> Option<u64>
        requires { place < length self.now.places }
        ensures { result ≡ option_map (λ (version : Version K V). version.number) (get_or self.now.places place None) }
    {
        self.store.number_at(place)
    }

    /// Reclaims versions that no session has, with their segments: it opens and closes eight
    /// accelerated guards of the writer. Where no session is open, at most
    /// `2 * (n / (S + 1)) + 2` slots are in use afterwards, for the `n` present pairs, as long as
    /// the epoch was raised at most `2^64 - 9` times. While one is open, that may leave more. It takes
    /// no memory.
    pub fn reclaim(&mut self)
        ensures { Reclaims K.cmp S self.old self.new }
    {
        self.store.reclaim();
    }

    /// One of the eight rounds of [`reclaim`](Self::reclaim), for who mustn't wait for all of them: an accelerated guard of the
    /// writer, which reclaims what has waited for three rounds by now. Where no session is open, it raises the epoch once, up to
    /// `2^64 - 1`. It takes no memory.
    ///
    /// Made behind each commit, it frees what about one commit left behind, so no call takes as long as a `reclaim` after many.
    /// No clause adds up eight rounds: what waits, and for how long, is no part of the state.
    pub fn reclaim_once(&mut self)
        ensures changed { self.new ≡ record self.old { used = self.new.used; raises = self.new.raises } }
        ensures fewer { self.new.used ≤ self.old.used }
        ensures raised { HasNoSession self.old → self.old.raises < 2 ^ 64 - 1 → self.new.raises ≡ self.old.raises + 1 }
    {
        self.store.reclaim_once();
    }

    /// Closes a session, and gives its receipt.
    pub fn close_session(&mut self, session: Session<K, V>) -> Receipt<K, V>
        requires { IsSessionOf self.old session }
        ensures receipt { result ≡ session.receipt }
        ensures closes { Closes self.old session.place self.new }
        ensures others { (place : ℕ) (version : Version K V) → place ≢ session.place → IsOpenAt self.old place version → IsOpenAt self.new place version }
    {
        let (place, receipt) = session.into_parts();
        self.close_place(place, receipt.number);
        receipt
    }

    /// Ends the index. It is handed back, as it was, if and only if a session is open.
    pub fn close(self) -> Result<(), Self>
        ensures idle { IsOk result ↔ HasNoSession self }
        ensures err { IfErr result (λ back. back ≡ self) }
    {
        if !self.store.is_idle() {
            return Err(self);
        }
        let LocalIndex {
            alloc: _,
            store,
            history: _,
        } = self;
        store.end();
        Ok(())
    }

    /// Ends the index, with the sessions that are open.
    pub fn end(self) {
        let LocalIndex {
            alloc: _,
            mut store,
            history: _,
        } = self;
        store.close_all();
        store.end();
    }

    // The version that a session reads.
    fn list_of(&self, session: &Session<K, V>) -> LocalView<'_, K, V, S>
        requires { IsSessionOf self.now session.now }
        ensures list { pairs_in result ≡ list_read self.now session.now }
        ensures few { length result ≤ segments_for S (length (list_read self.now session.now)) }
    {
        self.list_read_at(session.place(), session.number())
    }

    // The version that the session with this number at this place reads.
    pub(crate) fn list_read_at(&self, place: usize, number: u64) -> LocalView<'_, K, V, S>
        requires { IsSessionAt self.now place number }
        ensures list { pairs_in result ≡ list_open self.now place }
        ensures few { length result ≤ segments_for S (length (list_open self.now place)) }
    {
        self.store.reader(place)
    }

    // What that session is answered.
    pub(crate) fn answer_at(
        &self,
        place: usize,
        number: u64,
        query: &Query<K>,
    ) -> Result<Answer<K, V>, AllocError>
        requires session { IsSessionAt self.now place number }
        requires keys { ClonesAreSame K.is_clone }
        requires values { ClonesAreSame V.is_clone }
        ensures { IfOk result (λ told. told ≡ answer_to K.cmp query.now (list_open self.now place)) }
    {
        answer(self.alloc, &self.list_read_at(place, number), query)
    }

    // Ends the session with this number at this place.
    pub(crate) fn close_place(&mut self, place: usize, number: u64)
        requires { IsSessionAt self.old place number }
        ensures { Closes self.old place self.new }
    {
        self.store.close(place);
    }

    // No reads, and no memory.
    pub(crate) fn no_reads(&self) -> Seq<Recorded<K, V>>
        ensures { result ≡ [] }
    {
        Seq::new(self.alloc)
    }

    // Why a commit of these reads is refused, whatever it writes.
    fn validate(&self, reads: &[Recorded<K, V>]) -> Option<Cause>
        requires keys { EqualsAreSame K.eq }
        requires values { EqualsAreSame V.eq }
        ensures some { IfSome result (λ cause. (writes : List (Write K V)) → MayRefuse K.cmp S self.now reads.now writes cause) }
        ensures none { IfNone result (MayAccept K.cmp self.now reads.now) }
        ensures early { IfSome result (λ cause. cause ≢ Cause.NoSlot) }
    {
        self.history.validate(&self.store.present(), reads)
    }

    // The first read that doesn't hold of the list of the receipt's number: a version that is kept, or rebuilt.
    fn conflict_at(&self, receipt: &Receipt<K, V>) -> Result<Option<usize>, AllocError>
        requires number { Has self.now receipt.now.number }
        requires keys { ClonesAreSame K.is_clone }
        requires values { ClonesAreSame V.is_clone }
        requires equal_keys { EqualsAreSame K.eq }
        requires equal_values { EqualsAreSame V.eq }
        ensures some { IfOk result (λ r. IfSome r (IsFirstConflict K.cmp (list_at K.cmp self.now receipt.now.number) receipt.now.reads)) }
        ensures none { IfOk result (λ r. IfNone r (All (Holds K.cmp (list_at K.cmp self.now receipt.now.number)) receipt.now.reads)) }
    {
        let reads = receipt.reads.as_slice();
        if let Some((number, list)) = self.store.latest_at(receipt.number) {
            if number == receipt.number {
                return Ok(first_conflict(&list, reads));
            }
        }
        let list = self.rebuild_at(receipt.number)?;
        Ok(first_conflict(&list, reads))
    }

    // The list of a number, rebuilt from the nearest version before it, or from the base where none lies between.
    fn rebuild_at(&self, number: u64) -> Result<TreeIndex<K, V>, AllocError>
        requires number { Has self.now number }
        requires keys { ClonesAreSame K.is_clone }
        requires values { ClonesAreSame V.is_clone }
        ensures { IfOk result (λ list. list.pairs ≡ list_at K.cmp self.now number) }
    {
        if let Some((from, version)) = self.store.latest_at(number) {
            if from > self.first_number() {
                return self
                    .history
                    .rebuild_from(self.alloc, from, &version, number);
            }
        }
        self.history.rebuild(self.alloc, number)
    }

    fn first_number(&self) -> u64
        ensures { result ≡ self.now.base.number }
    {
        self.history.first_number()
    }

    fn present_number(&self) -> u64
        ensures { result ≡ latest_number self.now }
    {
        self.history.number()
    }

    fn next_number(&self) -> u64
        requires { latest_number self.now ≢ self.now.last }
        ensures { result ≡ latest_number self.now + 1 }
    {
        self.history.next_number()
    }

    // Adds a transaction whose reads hold. All memory is had before anything changes.
    fn install(
        &mut self,
        prepared: Prepared<K, V>,
        writes: Vec<Write<K, V>>,
    ) -> Result<Vec<Reply>, Refused<K, V>>
        requires keys { ClonesAreSame K.is_clone }
        requires values { ClonesAreSame V.is_clone }
        requires empty { prepared.replies.items ≡ [] }
        requires fits { length writes.items ≤ vec_capacity prepared.replies }
        requires accepted { MayAccept K.cmp self.old prepared.reads }
        ensures told { IfOk result (λ told. told.items ≡ replies_to K.cmp writes.items (present K.cmp self.old)) }
        ensures ok { OnOk result (self.new ≡ record (with_commit K.cmp prepared.reads writes.items self.old) { used = self.new.used }) }
        ensures room { OnOk result (self.new.used ≤ self.old.used + room_for S (length (after_writes K.cmp writes.items (present K.cmp self.old)))) }
        ensures few { OnOk result (self.new.used ≤ self.old.used + (2 * length writes.items + 1)) }
        ensures refused { IfErr result (λ back. Refuses K.cmp S self.old prepared.reads writes.items back self.new) }
        ensures short { IfErr result (λ back. back.cause ≡ Cause.NoSlot → self.old.slots < self.old.used + (2 * length writes.items + 1)) }
    {
        // what is asked here shows the proof that the number is below the last one
        self.history.laws();
        let Ok(()) = self.history.reserve() else {
            let cause = Cause::Memory;
            return Err(Refused { cause, writes });
        };
        let told = match self.store.write(self.alloc, writes.as_slice()) {
            Ok(told) => told,
            Err(WriteRefused::Memory) => {
                let cause = Cause::Memory;
                return Err(Refused { cause, writes });
            }
            Err(WriteRefused::NoSlot) => {
                let cause = Cause::NoSlot;
                return Err(Refused { cause, writes });
            }
        };
        self.history.push(prepared, writes, told.as_slice());
        Ok(told)
    }
}
