//! A history: a list that it begins with, and the transactions that were accepted since.
//!
//! Both kinds of index keep one, and ask it how a commit, an audit or a checkpoint ends, as far as lists and numbers decide
//! that. What an index adds is the present list, as it keeps that, and where older lists are kept.

ghost use Rattle.std.specs.Prelude.{◌≡◌, ◌≤◌, ◌<◌, ◌≢◌, ◌+◌, ◌++◌, ◌∷◌, [], IfOk, IfErr, IfSome, IfNone, OnOk, OnErr, IsTrue, length, vec_capacity, true, false};
ghost use Rattle.std.specs.List.{All};
ghost use Rattle.leaf_array.specs.Pairs.{IsAscending};
ghost use Rattle.leaf_array.specs.Values.{ClonesAreSame, EqualsAreSame};
ghost use Rattle.version_views.specs.Writes.{replies_to};
ghost use Rattle.serial_history.specs.Serial.{HasNumber, Holds, IsSerial, RefusesCheckpoint, RefusesSince, after_all, base_at, empty_base, history_behind, latest, list_numbered};
ghost use Rattle.serial_history.specs.Histories.{Audits, IsDecidedFirst, MayAccept, MayRefuse, begun_at, with_transaction};

use crate::base::{Base, drop_first, pairs_of};
use crate::commit::{Cause, CheckpointRefused, SinceRefused};
use crate::ordered_view::{OrderedView, first_conflict};
use crate::replay::{Start, replay};
use crate::seq::Seq;
use crate::transaction::{Audit, Prepared, Receipt, Recorded, Transaction, copied_replies};
use std::alloc::{AllocError, Global};
use std::marker::Model;
use tree_index::TreeIndex;
use version_views::{Reply, Write};

/// The list that a history begins with, the transactions that were accepted since, and the last number that they may reach.
#[derive(Drop)]
pub struct History<K: Ord, V> {
    base: Base<K, V>,
    transactions: Vec<Transaction<K, V>>,
    last: u64,
}

/// Invariant: specs/Histories.antt, IsHistory: the transactions are a serial run from the base on, up to the last number.
impl<K: Ord, V> Model for History<K, V> {
    ghost use Rattle.std.specs.Prelude.{◌-◌, length, vec_capacity};
    ghost use Rattle.serial_history.specs.Histories.{HistoryState, IsHistory};

    ghost Value = { HistoryState K V };

    ghost view = { λ h. record { base = h.base; transactions = h.transactions.items; last = h.last; room = vec_capacity h.transactions - length h.transactions.items } };

    ghost invariant = { λ h. IsHistory K.cmp h.base h.transactions.items h.last };
}

impl<K: Ord, V> History<K, V> {
    /// The history of the empty list, which has number 0. It takes no memory.
    pub fn empty(alloc: Global, last: u64) -> Self
        ensures { result ≡ record { base = empty_base; transactions = []; last = last; room = result.room } }
    {
        History {
            base: Base::empty(alloc),
            transactions: Vec::new(alloc),
            last,
        }
    }

    /// The history of a list, whose last number is `2^64 - 1`. It takes no memory.
    pub fn beginning_with(alloc: Global, base: Base<K, V>) -> Self
        ensures { result ≡ record { base = base; transactions = []; last = 18446744073709551615; room = result.room } }
    {
        // what is asked here shows the proof that the number is a word
        let _number = base.number();
        History {
            base,
            transactions: Vec::new(alloc),
            last: u64::MAX,
        }
    }

    /// The number of the base, and the pairs of its list by rising keys.
    pub fn base(&self) -> (u64, &[(K, V)])
        ensures number { result.0 ≡ self.now.base.number }
        ensures pairs { result.1.now ≡ self.now.base.pairs }
        ensures rising { IsAscending K.cmp result.1.now }
    {
        (self.base.number(), self.base.pairs())
    }

    /// The number of the base.
    pub fn first_number(&self) -> u64
        ensures { result ≡ self.now.base.number }
    {
        self.base.number()
    }

    /// The number of the present list: the base's, and one more for each transaction.
    pub fn number(&self) -> u64
        ensures number { result ≡ latest self.now.base self.now.transactions }
        ensures last { result ≤ self.now.last }
    {
        // what is read here shows the proof that the number is at most the last one
        let _last = self.last;
        self.base.number() + self.transactions.len() as u64
    }

    /// The number of the list that one more transaction leaves. Condition: the last number isn't reached.
    pub fn next_number(&self) -> u64
        requires { latest self.now.base self.now.transactions ≢ self.now.last }
        ensures number { result ≡ latest self.now.base self.now.transactions + 1 }
        ensures last { result ≤ self.now.last }
    {
        // what is read here shows the proof that the number is below the last one
        let _last = self.last;
        self.number() + 1
    }

    /// How many transactions it has.
    pub fn len(&self) -> usize
        ensures { result ≡ length self.now.transactions }
    {
        self.transactions.len()
    }

    /// What every history meets: it is a serial run from the base on, and ends at the last number at most. Nothing here runs.
    pub fn laws(&self)
        ensures serial { IsSerial K.cmp self.now.transactions self.now.base.pairs }
        ensures numbered { latest self.now.base self.now.transactions ≤ self.now.last }
        ensures word { self.now.last ≤ 18446744073709551615 }
    {
        // what is read here opens the history to the proof
        let _last = self.last;
    }

    /// Why a commit that rests on these reads is refused, whatever it writes: its first conflict with the present list, or the
    /// last number is reached.
    pub fn validate<L: OrderedView<K, V>>(
        &self,
        present: &L,
        reads: &[Recorded<K, V>],
    ) -> Option<Cause>
    where
        K: Clone,
        V: Clone + Eq,
        requires keys { EqualsAreSame K.eq }
        requires values { EqualsAreSame V.eq }
        ensures some { IfSome result (MayRefuse K.cmp (latest self.now.base self.now.transactions) self.now.last (L.pairs present.now) reads.now) }
        ensures first { IfSome result IsDecidedFirst }
        ensures none { IfNone result (MayAccept K.cmp (latest self.now.base self.now.transactions) self.now.last (L.pairs present.now) reads.now) }
    {
        match first_conflict(present, reads) {
            Some(place) => Some(Cause::Conflict(place)),
            None => {
                if self.number() == self.last {
                    Some(Cause::Exhausted)
                } else {
                    None
                }
            }
        }
    }

    /// What an audit of a receipt finds without a list: its number is below the base's, or above the present one. It takes no
    /// memory.
    pub fn audit_outside(&self, receipt: &Receipt<K, V>) -> Option<Audit>
        ensures some { IfSome result (Audits K.cmp self.now.base self.now.transactions receipt.now) }
        ensures none { IfNone result (HasNumber self.now.base self.now.transactions receipt.now.number) }
    {
        let first = self.first_number();
        if receipt.number < first {
            return Some(Audit::TooOld(first));
        }
        if receipt.number > self.number() {
            return Some(Audit::Unknown);
        }
        None
    }

    /// The transactions behind a number, in order: those that lead from its list to the present one.
    ///
    /// It is refused as `TooOld` where the number is below the base's, since some of them are gone, and as `Ahead` where it is
    /// above the present one.
    pub fn since(&self, number: u64) -> Result<&[Transaction<K, V>], SinceRefused>
        ensures told { IfOk result (λ rest. rest.now ≡ history_behind self.now.base self.now.transactions number) }
        ensures has { IfOk result (λ _. HasNumber self.now.base self.now.transactions number) }
        ensures refused { IfErr result (RefusesSince self.now.base self.now.transactions number) }
    {
        let first = self.first_number();
        if number < first {
            return Err(SinceRefused::TooOld(first));
        }
        let present = self.number();
        if number > present {
            return Err(SinceRefused::Ahead(present));
        }
        Ok(&self.transactions[(number - first) as usize..])
    }

    /// The list of a number, rebuilt from the base, or from the last clearing behind it. Fails only if an allocation fails.
    pub fn rebuild(&self, alloc: Global, number: u64) -> Result<TreeIndex<K, V>, AllocError>
    where
        K: Clone,
        V: Clone,
        requires number { HasNumber self.now.base self.now.transactions number }
        requires keys { ClonesAreSame K.is_clone }
        requires values { ClonesAreSame V.is_clone }
        ensures { IfOk result (λ list. list.pairs ≡ list_numbered K.cmp self.now.base self.now.transactions number) }
    {
        let count = (number - self.base.number()) as usize;
        replay(alloc, &self.base, &self.transactions[..count])
    }

    /// The same from the list of an earlier number, or from the last clearing behind that.
    pub fn rebuild_from<L: Start<K, V>>(
        &self,
        alloc: Global,
        from: u64,
        list: &L,
        number: u64,
    ) -> Result<TreeIndex<K, V>, AllocError>
    where
        K: Clone,
        V: Clone,
        requires from { (self.now.base.number ≤ from) × (from ≤ number) }
        requires number { HasNumber self.now.base self.now.transactions number }
        requires list { L.pairs list.now ≡ list_numbered K.cmp self.now.base self.now.transactions from }
        requires keys { ClonesAreSame K.is_clone }
        requires values { ClonesAreSame V.is_clone }
        ensures { IfOk result (λ list. list.pairs ≡ list_numbered K.cmp self.now.base self.now.transactions number) }
    {
        let first = self.base.number();
        let since = &self.transactions[(from - first) as usize..(number - first) as usize];
        replay(alloc, list, since)
    }

    /// Whether a checkpoint at a number changes anything: that of the base doesn't. Refused as `Behind` or `Ahead` where the
    /// history doesn't have the number. It takes no memory.
    pub fn can_begin_at(&self, upto: u64) -> Result<bool, CheckpointRefused>
        ensures has { OnOk result (HasNumber self.now.base self.now.transactions upto) }
        ensures same { IfOk result (λ later. later ≡ false → upto ≡ self.now.base.number) }
        ensures later { IfOk result (λ later. IsTrue later → self.now.base.number < upto) }
        ensures refused { IfErr result (RefusesCheckpoint self.now.base self.now.transactions upto) }
    {
        let first = self.first_number();
        if upto < first {
            return Err(CheckpointRefused::Behind(first));
        }
        let present = self.number();
        if upto > present {
            return Err(CheckpointRefused::Ahead(present));
        }
        Ok(upto != first)
    }

    /// Makes the list of a number the base, and drops the transactions up to it. All memory is had before anything changes.
    /// Fails only if an allocation fails; it is then as it was.
    pub fn begin_at(
        &mut self,
        alloc: Global,
        upto: u64,
        list: &TreeIndex<K, V>,
    ) -> Result<(), AllocError>
    where
        K: Clone + Drop,
        V: Clone + Eq + Drop,
        requires has { HasNumber self.old.base self.old.transactions upto }
        requires list { list.now.pairs ≡ list_numbered K.cmp self.old.base self.old.transactions upto }
        requires keys { ClonesAreSame K.is_clone }
        requires values { ClonesAreSame V.is_clone }
        ensures begins { OnOk result (self.new ≡ record (begun_at K.cmp upto self.old) { room = self.new.room }) }
        ensures err { OnErr result (self.new ≡ self.old) }
    {
        // what is asked here shows the proof that the keys rise
        let _count = list.len();
        let pairs = pairs_of(alloc, list)?;
        self.rebase(upto, pairs);
        Ok(())
    }

    // Makes a list, that of a number, the base.
    fn rebase(&mut self, upto: u64, pairs: Vec<(K, V)>)
    where
        K: Drop,
        V: Drop,
        requires has { HasNumber self.old.base self.old.transactions upto }
        requires pairs { pairs.items ≡ list_numbered K.cmp self.old.base self.old.transactions upto }
        requires rising { IsAscending K.cmp pairs.items }
        ensures { self.new ≡ record (begun_at K.cmp upto self.old) { room = self.new.room } }
    {
        let count = (upto - self.base.number()) as usize;
        drop_first(&mut self.transactions, count);
        self.base = Base::new(upto, pairs);
    }

    /// Makes room for one more transaction. Fails only if an allocation fails.
    pub fn reserve(&mut self) -> Result<(), AllocError>
        ensures room { OnOk result (0 < self.new.room) }
        ensures same { self.new ≡ record self.old { room = self.new.room } }
    {
        self.transactions.reserve(1)
    }

    /// Adds the transaction of these reads and writes, where there is room for it. It takes no memory. Condition: the reads hold
    /// of the present list, the last number isn't reached, and these are the replies that the writes get there.
    pub fn push(&mut self, prepared: Prepared<K, V>, writes: Vec<Write<K, V>>, told: &[Reply])
        requires room { 0 < self.old.room }
        requires empty { prepared.replies.items ≡ [] }
        requires fits { length told.now ≤ vec_capacity prepared.replies }
        requires not_last { latest self.old.base self.old.transactions ≢ self.old.last }
        requires reads { All (Holds K.cmp (after_all K.cmp self.old.transactions self.old.base.pairs)) prepared.reads }
        requires told { told.now ≡ replies_to K.cmp writes.items (after_all K.cmp self.old.transactions self.old.base.pairs) }
        ensures { self.new ≡ record (with_transaction K.cmp prepared.reads writes.items self.old) { room = self.new.room } }
    {
        let replies = copied_replies(prepared.replies, told);
        self.transactions.push_reserved(Transaction {
            reads: prepared.reads,
            writes: Seq::from_vec(writes),
            replies: Seq::from_vec(replies),
        });
    }
}
