//! What the lock of a shared index holds.

ghost use Rattle.std.specs.Prelude.{◌≡◌, ℕ, ◌≤◌, ◌<◌, ◌+◌, [], IfOk, IfErr, IfSome, IfNone, OnOk, OnErr, length, replicate, vec_capacity};
ghost use Rattle.std.specs.List.{All};
ghost use Rattle.leaf_array.specs.Values.{ClonesAreSame, EqualsAreSame};
ghost use Rattle.serial_history.specs.Serial.{HasNumber, Holds, IsFirstConflict, IsSerial, RefusesCheckpoint, empty_base};
ghost use Rattle.sdd_domain.specs.Cells.{cell_number};
ghost use Rattle.sdd_domain.specs.Tokens.{place_of, misses_of, cell_count};
ghost use Rattle.shared_index.specs.Books.{MayAccept, MayRefuse, HasPutItem, Audits, begun_at, fresh_book, list_at, misses_after, misses_without, with_commit, latest_number, present_list};
ghost use Rattle.shared_index.specs.SharedInvariant.{IsUnengaged};
ghost use Rattle.version_views.specs.Writes.{replies_to};

pub mod feed;
pub mod from_base;

use crate::commit::{begin, install};
use crate::naming::Naming;
use crate::share::{Share, cut, end_all};
use sdd_domain::atomic_shared::AtomicShared;
use sdd_domain::domain::Domain;
use sdd_domain::local::Local;
use serial_history::ordered_view::first_conflict;
use serial_history::transaction::{Prepared, prepare};
use serial_history::{
    Accepted, Audit, Cause, CheckpointRefused, History, Receipt, Recorded, Refused,
};
use shared_versions::{Node, Present, reclaim, reclaim_once};
use std::alloc::{AllocError, Global};
use std::marker::Model;
use std::sync::ledger;
use std::sync::ledger::Blank;
use thiserror::Error;
use tree_index::TreeIndex;
use version_views::{Reply, Write, WriteRefused};

/// Why no index was made.
#[derive(Clone, Copy, Debug, PartialEq, Eq, Error)]
pub enum NewRefused {
    /// There is no room for the shares.
    #[error("memory was refused; there is no index")]
    Memory,
    /// No slot is free for the empty version, or no cell to name it.
    #[error("no slot is free for the empty version, or no cell to name it; there is no index")]
    NoSlot,
}

/// The history of accepted commits from a base on, and the present version, as the one who commits has them: with the
/// participant of the place who acts for it, and the ledger of all shares.
///
/// Contracts see the base, the history and the last number. Of that participant they see its misses, which is how often it was
/// refused a slot, a cell or one more owner, and its steps on cells. A book must be consumed by [`end`](Book::end).
pub struct Book<L: Naming, K: Clone + Ord, V: Clone + Eq, const S: usize> {
    alloc: Global,
    local: Local<Node<K, V>>,
    present: Present<K, V, S>,
    history: History<K, V>,
    ledger: ledger::Book<L>,
}

/// Invariant: specs/SharedInvariant.antt. The participant is at rest; the present version has the list that the history leaves,
/// and the number that the ledger counts; the last number is the named one.
impl<L: Naming, K: Clone + Ord, V: Clone + Eq, const S: usize> Model for Book<L, K, V, S> {
    ghost use Rattle.sdd_domain.specs.CellSteps.{cell_steps_of};
    ghost use Rattle.sdd_domain.specs.Tokens.{misses_of};
    ghost use Rattle.shared_index.specs.Books.{BookState};
    ghost use Rattle.shared_index.specs.SharedInvariant.{IsUnengaged, IsCounted, IsLatest, HasBounds};

    ghost Value = { BookState K V };

    ghost view = { λ b. record { base = b.history.base; history = b.history.transactions; last = b.history.last; misses = misses_of b.local; cell_steps = cell_steps_of b.local } };

    ghost invariant = { λ b. IsUnengaged L.place b.local × IsLatest K.cmp L.place b.present b.history.base b.history.transactions × IsCounted b.history.base b.history.transactions b.ledger.total × HasBounds S b.history.last L.last };
}

impl<L: Naming, K: Clone + Ord, V: Clone + Eq, const S: usize> Book<L, K, V, S> {
    /// A book without transactions, whose last number is the given one; a cell that names its version; and as many shares as
    /// the ledger has parts. A refusal returns all arguments. It comes for want of memory, before anything is placed; or
    /// where the participant missed a slot or a cell. What was placed until then is released, and waits to be reclaimed.
    pub fn new(
        alloc: Global,
        domain: &Domain<Node<K, V>>,
        local: Local<Node<K, V>>,
        blank: Blank,
        shares: usize,
        last: u64,
    ) -> Result<
        (Self, AtomicShared<Node<K, V>>, Vec<Share<L>>),
        (Local<Node<K, V>>, Blank, NewRefused),
    >
        requires place { place_of domain.now ≡ L.place }
        requires rest { IsUnengaged L.place local }
        requires size { (1 ≤ S) × (S ≤ 225) }
        requires name { blank.name ≡ L.name }
        requires parts { (blank.parts ≡ L.parts) × (blank.parts ≡ shares) }
        requires last { last ≡ L.last }
        ensures book { IfOk result (λ made. made.0 ≡ fresh_book empty_base last (misses_of local) made.0.cell_steps) }
        ensures root { IfOk result (λ made. cell_number made.1 < cell_count domain.now) }
        ensures shares { IfOk result (λ made. made.2.items ≡ replicate shares 0) }
        ensures local { IfErr result (λ back. IsUnengaged L.place back.0) }
        ensures missed { IfErr result (λ back. misses_of back.0 ≡ misses_without back.2 (misses_of local)) }
        ensures blank { IfErr result (λ back. back.1 ≡ blank) }
    {
        let mut local = local;
        let Ok(room) = Vec::with_capacity(alloc, shares) else {
            return Err((local, blank, NewRefused::Memory));
        };
        let Ok((present, root)) = begin::<K, V, S>(alloc, domain, &mut local) else {
            room.destroy_empty();
            return Err((local, blank, NewRefused::NoSlot));
        };
        let (ledger, mark) = blank.open::<L>();
        let book = Book {
            alloc,
            local,
            present,
            history: History::empty(alloc, last),
            ledger,
        };
        Ok((book, root, cut(mark, shares, room)))
    }

    /// The number of the present list: the base's, and one more for each commit that was accepted since.
    pub fn number(&self) -> u64
        ensures number { result ≡ latest_number self.now }
        ensures last { result ≤ L.last }
    {
        self.history.number()
    }

    /// The number of the base, and that of the present list.
    pub fn numbers(&self) -> (u64, u64)
        ensures base { result.0 ≡ self.now.base.number }
        ensures present { result.1 ≡ latest_number self.now }
        ensures rising { result.0 ≤ result.1 }
        ensures last { result.1 ≤ L.last }
    {
        (self.history.first_number(), self.number())
    }

    /// How many pairs the present list has.
    pub fn len(&self) -> usize
        ensures { result ≡ length (present_list K.cmp self.now) }
    {
        self.present.view().len()
    }

    /// What every book meets: its history is a serial run from the base on, and ends at the last number at most, which is
    /// the named one. Nothing here runs.
    pub fn laws(&self)
        ensures serial { IsSerial K.cmp self.now.history self.now.base.pairs }
        ensures numbered { latest_number self.now ≤ self.now.last }
        ensures last { self.now.last ≡ L.last }
    {
        self.history.laws();
    }

    /// Makes the writes on the present list, in order, if each read of the receipt still holds there, and has the cell name
    /// the version that they leave. The accepted commit has the next number, also without writes, and the share counts it; a
    /// refused one changes nothing and hands the writes back.
    ///
    /// The causes are decided in this order: `Conflict` with the first read whose answer isn't that of the present list,
    /// whatever its number; `Exhausted` at the last number; `Memory`; `NoSlot`, where the place has too few free slots for the
    /// new version: what was placed until then waits to be reclaimed. A commit is refused as `NoSlot` only where the participant
    /// missed a slot or one more owner in it, once. An accepted commit makes one step on a cell, the one that it is given; a
    /// refused one makes none.
    pub fn commit(
        &mut self,
        domain: &Domain<Node<K, V>>,
        root: &AtomicShared<Node<K, V>>,
        share: &mut Share<L>,
        receipt: &Receipt<K, V>,
        writes: Vec<Write<K, V>>,
    ) -> Result<Accepted, Refused<K, V>>
        requires place { place_of domain.now ≡ L.place }
        requires inside { cell_number root.now < cell_count domain.now }
        requires keys { ClonesAreSame K.is_clone }
        requires values { ClonesAreSame V.is_clone }
        requires equal_keys { EqualsAreSame K.eq }
        requires equal_values { EqualsAreSame V.eq }
        ensures can { OnOk result (MayAccept K.cmp self.old receipt.now.reads) }
        ensures added { OnOk result (self.new ≡ record (with_commit K.cmp receipt.now.reads writes.items self.old) { cell_steps = self.new.cell_steps }) }
        ensures published { OnOk result (HasPutItem L.place (cell_number root.now) self.old self.new) }
        ensures number { IfOk result (λ told. told.number ≡ latest_number self.old + 1) }
        ensures last { IfOk result (λ told. told.number ≤ L.last) }
        ensures replies { IfOk result (λ told. told.replies.items ≡ replies_to K.cmp writes.items (present_list K.cmp self.old)) }
        ensures counted { OnOk result (share.new ≡ share.old + 1) }
        ensures cause { IfErr result (λ back. MayRefuse K.cmp self.old receipt.now.reads back.cause) }
        ensures missed { IfErr result (λ back. self.new.misses ≡ misses_after back.cause self.old.misses) }
        ensures back { IfErr result (λ back. back.writes.items ≡ writes.items) }
        ensures err { OnErr result (self.new ≡ record self.old { misses = self.new.misses }) }
        ensures uncounted { OnErr result (share.new ≡ share.old) }
    {
        let reads = receipt.reads.as_slice();
        if let Some(cause) = self.validate(reads) {
            return Err(Refused { cause, writes });
        }
        let Ok(prepared) = prepare(self.alloc, reads, writes.len()) else {
            let cause = Cause::Memory;
            return Err(Refused { cause, writes });
        };
        match self.add(domain, root, share, prepared, writes) {
            Ok(replies) => Ok(Accepted {
                number: self.number(),
                replies,
            }),
            Err(refused) => Err(refused),
        }
    }

    /// Whether the reads of a receipt are answered as the list of its number answers them: `TooOld`, with the base's number,
    /// where that is above it, and `Unknown` where no list has that number yet, which both take no memory; else the first
    /// read that differs, or `Yes`. Fails only if an allocation fails.
    ///
    /// The present list is read as it is. An older one is rebuilt from the base, or from the last clearing behind it.
    pub fn audit(&self, receipt: &Receipt<K, V>) -> Result<Audit, AllocError>
        requires keys { ClonesAreSame K.is_clone }
        requires values { ClonesAreSame V.is_clone }
        requires equal_keys { EqualsAreSame K.eq }
        requires equal_values { EqualsAreSame V.eq }
        ensures audits { IfOk result (Audits K.cmp self.now receipt.now) }
        ensures has { OnErr result (HasNumber self.now.base self.now.history receipt.now.number) }
    {
        if let Some(outside) = self.history.audit_outside(receipt) {
            return Ok(outside);
        }
        Ok(match self.conflict_at(receipt)? {
            Some(place) => Audit::No(place),
            None => Audit::Yes,
        })
    }

    /// Makes the list of a number the base, and drops the transactions up to it with their memory: audits of lower numbers
    /// are `TooOld` from then on. The present list and its number stay, and so do versions, sessions, shares and slots.
    ///
    /// The causes are decided in this order, and each changes nothing: `Behind`, with the base's number, where that is above
    /// the one asked for; `Ahead`, with the present number, where that is below it; `Memory`. The base's own number is
    /// accepted without memory, and changes nothing.
    pub fn checkpoint(&mut self, upto: u64) -> Result<(), CheckpointRefused>
        requires keys { ClonesAreSame K.is_clone }
        requires values { ClonesAreSame V.is_clone }
        ensures has { OnOk result (HasNumber self.old.base self.old.history upto) }
        ensures rebased { OnOk result (self.new ≡ begun_at K.cmp upto self.old) }
        ensures refused { IfErr result (RefusesCheckpoint self.old.base self.old.history upto) }
        ensures err { OnErr result (self.new ≡ self.old) }
    {
        if !self.history.can_begin_at(upto)? {
            return Ok(());
        }
        match self.rebase_at(upto) {
            Ok(()) => Ok(()),
            Err(AllocError) => Err(CheckpointRefused::Memory),
        }
    }

    /// The number of the base, and the pairs of its list by rising keys. It takes no memory.
    pub fn base(&self) -> (u64, &[(K, V)])
        ensures number { result.0 ≡ self.now.base.number }
        ensures pairs { result.1.now ≡ self.now.base.pairs }
    {
        self.history.base()
    }

    /// Reclaims versions that nobody reads, with their segments: it opens and closes eight accelerated guards of its
    /// participant. What somebody reads stays. It takes no memory.
    pub fn reclaim(&mut self, domain: &Domain<Node<K, V>>)
        requires place { place_of domain.now ≡ L.place }
        ensures same { self.new ≡ self.old }
    {
        reclaim(domain, &mut self.local);
    }

    /// One of the eight rounds of [`reclaim`](Book::reclaim), for who mustn't wait for all of them: it opens and closes one
    /// accelerated guard of its participant, which reclaims what that retired, as far as it has waited long enough by now. It
    /// takes no memory.
    pub fn reclaim_once(&mut self, domain: &Domain<Node<K, V>>)
        requires place { place_of domain.now ≡ L.place }
        ensures same { self.new ≡ self.old }
    {
        reclaim_once(domain, &mut self.local);
    }

    /// Ends the book and its shares, and returns its participant. What no cell owns is retired. The ledger ends too, so no
    /// share counts any more.
    pub fn end(self, domain: &Domain<Node<K, V>>, shares: Vec<Share<L>>) -> Local<Node<K, V>>
        requires place { place_of domain.now ≡ L.place }
        ensures rest { IsUnengaged L.place result }
        ensures misses { misses_of result ≡ self.misses }
    {
        let Book {
            alloc: _,
            mut local,
            present,
            history: _,
            ledger: _,
        } = self;
        present.end(domain, &mut local);
        end_all(shares);
        local
    }

    /// The number, which is the amount of a mark that has all parts.
    pub(crate) fn balance(&mut self, all: &mut ledger::Share<L>) -> u64
        requires { all.old.parts ≡ L.parts }
        ensures number { result ≡ latest_number self.old }
        ensures last { result ≤ L.last }
        ensures amount { result ≡ all.old.amount }
        ensures same { self.new ≡ self.old }
    {
        self.ledger.audit(all);
        self.number()
    }

    // Why a commit of these reads is refused, whatever it writes: that is no miss.
    fn validate(&self, reads: &[Recorded<K, V>]) -> Option<Cause>
        requires keys { EqualsAreSame K.eq }
        requires values { EqualsAreSame V.eq }
        ensures some { IfSome result (MayRefuse K.cmp self.now reads.now) }
        ensures unmissed { IfSome result (λ cause. (misses : ℕ) → misses ≡ misses_after cause misses) }
        ensures none { IfNone result (MayAccept K.cmp self.now reads.now) }
    {
        self.history.validate(&self.present.view(), reads)
    }

    // Makes writes on the present list, and adds the transaction, whose reads hold. All memory is had before anything changes.
    fn add(
        &mut self,
        domain: &Domain<Node<K, V>>,
        root: &AtomicShared<Node<K, V>>,
        share: &mut Share<L>,
        prepared: Prepared<K, V>,
        writes: Vec<Write<K, V>>,
    ) -> Result<Vec<Reply>, Refused<K, V>>
        requires place { place_of domain.now ≡ L.place }
        requires inside { cell_number root.now < cell_count domain.now }
        requires keys { ClonesAreSame K.is_clone }
        requires values { ClonesAreSame V.is_clone }
        requires empty { prepared.replies.items ≡ [] }
        requires fits { length writes.items ≤ vec_capacity prepared.replies }
        requires can { MayAccept K.cmp self.old prepared.reads }
        ensures told { IfOk result (λ told. told.items ≡ replies_to K.cmp writes.items (present_list K.cmp self.old)) }
        ensures added { OnOk result (self.new ≡ record (with_commit K.cmp prepared.reads writes.items self.old) { cell_steps = self.new.cell_steps }) }
        ensures published { OnOk result (HasPutItem L.place (cell_number root.now) self.old self.new) }
        ensures counted { OnOk result (share.new ≡ share.old + 1) }
        ensures cause { IfErr result (λ back. MayRefuse K.cmp self.old prepared.reads back.cause) }
        ensures missed { IfErr result (λ back. self.new.misses ≡ misses_after back.cause self.old.misses) }
        ensures back { IfErr result (λ back. back.writes.items ≡ writes.items) }
        ensures err { OnErr result (self.new ≡ record self.old { misses = self.new.misses }) }
        ensures uncounted { OnErr result (share.new ≡ share.old) }
    {
        let Book {
            alloc,
            local,
            present,
            history,
            ledger,
        } = self;
        // what is asked here shows the proof that the number is below the last one
        history.laws();
        let Ok(()) = history.reserve() else {
            let cause = Cause::Memory;
            return Err(Refused { cause, writes });
        };
        let told = match install(*alloc, domain, root, local, present, writes.as_slice()) {
            Ok(told) => told,
            Err(WriteRefused::Memory) => {
                let cause = Cause::Memory;
                return Err(Refused { cause, writes });
            }
            Err(WriteRefused::NoSlot) => {
                let cause = Cause::NoSlot;
                return Err(Refused { cause, writes });
            }
        };
        history.push(prepared, writes, told.as_slice());
        share.raise(ledger);
        Ok(told)
    }

    // The first read that doesn't hold of the list of the receipt's number: the present one, or an older one, rebuilt.
    fn conflict_at(&self, receipt: &Receipt<K, V>) -> Result<Option<usize>, AllocError>
        requires number { HasNumber self.now.base self.now.history receipt.now.number }
        requires keys { ClonesAreSame K.is_clone }
        requires values { ClonesAreSame V.is_clone }
        requires equal_keys { EqualsAreSame K.eq }
        requires equal_values { EqualsAreSame V.eq }
        ensures some { IfOk result (λ r. IfSome r (IsFirstConflict K.cmp (list_at K.cmp self.now receipt.now.number) receipt.now.reads)) }
        ensures none { IfOk result (λ r. IfNone r (All (Holds K.cmp (list_at K.cmp self.now receipt.now.number)) receipt.now.reads)) }
    {
        let reads = receipt.reads.as_slice();
        if receipt.number == self.number() {
            return Ok(first_conflict(&self.present.view(), reads));
        }
        let list = self.rebuild_at(receipt.number)?;
        Ok(first_conflict(&list, reads))
    }

    // The list of a number, rebuilt from the base.
    fn rebuild_at(&self, number: u64) -> Result<TreeIndex<K, V>, AllocError>
        requires number { HasNumber self.now.base self.now.history number }
        requires keys { ClonesAreSame K.is_clone }
        requires values { ClonesAreSame V.is_clone }
        ensures { IfOk result (λ list. list.pairs ≡ list_at K.cmp self.now number) }
    {
        self.history.rebuild(self.alloc, number)
    }

    // Makes the list of a number the base. All memory is had before anything changes.
    fn rebase_at(&mut self, upto: u64) -> Result<(), AllocError>
        requires has { HasNumber self.old.base self.old.history upto }
        requires keys { ClonesAreSame K.is_clone }
        requires values { ClonesAreSame V.is_clone }
        ensures rebased { OnOk result (self.new ≡ begun_at K.cmp upto self.old) }
        ensures err { OnErr result (self.new ≡ self.old) }
    {
        let list = self.rebuild_at(upto)?;
        self.history.begin_at(self.alloc, upto, &list)
    }
}
