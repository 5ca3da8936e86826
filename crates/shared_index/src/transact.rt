//! A commit of what was read, which is tried again where it conflicts.

ghost use Rattle.std.specs.Prelude.{◌≡◌, ◌≤◌, ◌+◌, ◌++◌, ◌∷◌, [], None, IfErr, IfOk, IfSome, IsErr, IsSome, OnErr, OnOk};
ghost use Rattle.std.specs.Bool.{OnTrue};
ghost use Rattle.std.specs.Fn.{FnReturnsAt};
ghost use Rattle.leaf_array.specs.Values.{ClonesAreSame, EqualsAreSame};
ghost use Rattle.shared_index.specs.Participants.{reads_in};
ghost use Rattle.shared_index.specs.Transacting.{HandsBack, IsMade, queries_of};

use crate::naming::Naming;
use crate::participant::Participant;
use crate::share::Share;
use serial_history::{Accepted, Cause, Query, Receipt, Recorded, Refused};
use std::alloc::AllocError;
use std::sync::Wait;
use thiserror::Error;
use version_views::Write;

/// A transaction that was accepted.
#[derive(Clone, Debug, PartialEq, Eq, Drop)]
pub struct Transacted<K, V> {
    /// The reads that it rests on, with the number of the list that they were read in.
    pub receipt: Receipt<K, V>,
    /// The number of the list that it left, and the reply to each of its writes.
    pub accepted: Accepted,
}

/// Why a transaction wasn't accepted. The index is as it was before, and no session is open.
#[derive(Clone, Debug, PartialEq, Eq, Drop, Error)]
pub enum TransactRefused<K, V> {
    /// Its commit was refused, with its writes: as `Conflict` where that was its last try.
    #[error(transparent)]
    Commit(#[from] Refused<K, V>),
    /// There was no memory for what it reads, or the plan had none for its writes.
    #[error("memory was refused before the commit; the index is as it was")]
    Memory,
    /// The root was found to name no version with segments of this width. It never comes, as with [`open`](crate::SharedIndex::open).
    #[error("the root names no version of such segments; the index is as it was")]
    NoVersion,
}

impl<'i, 'd, L: Naming, K: Clone + Ord, V: Clone + Eq, const S: usize> Participant<
    'i,
    'd,
    L,
    K,
    V,
    S,
> {
    /// Reads, and commits what `plan` makes of the answers: it is given the queries with their answers, in order. Where the commit
    /// conflicts, all of this is tried again, at most `retries` times, each time by a new session on the present list. The share
    /// counts it if it is accepted.
    ///
    /// It is refused as `Commit`, with the cause and the writes, where the last try's commit is refused; or where one is refused
    /// for another cause than a conflict, which isn't tried again. It is refused as `Memory` where there is none for what is read, or
    /// where `plan` fails.
    ///
    /// The plan is asked without the lock, once in each try. Its session is closed by then.
    ///
    /// <!-- crates/shared_configuration/src/service.rt raised -->
    /// ```text
    /// /// Reads both settings, and commits one more of each. Where either was changed since, it reads them again, nine times at most.
    /// /// True if it is accepted.
    /// fn raised<L: Naming, R: Wait>(
    ///     rt: &R,
    ///     alloc: Global,
    ///     member: &mut Member<'_, '_, L>,
    ///     share: &mut Share<L>,
    /// ) -> bool {
    ///     let queries = [Query::Get(WORKERS), Query::Get(WAITING)];
    ///     let told = member.transact(rt, share, &queries, 9, |reads| one_more(alloc, reads));
    ///     told.is_ok()
    /// }
    /// ```
    /// <!-- end -->
    pub fn transact<R: Wait, F: Fn(&[Recorded<K, V>]) -> Result<Vec<Write<K, V>>, AllocError>>(
        &mut self,
        rt: &R,
        share: &mut Share<L>,
        queries: &[Query<K>],
        retries: u32,
        plan: F,
    ) -> Result<Transacted<K, V>, TransactRefused<K, V>>
    where
        F: Drop,
        requires keys { ClonesAreSame K.is_clone }
        requires values { ClonesAreSame V.is_clone }
        requires equal_keys { EqualsAreSame K.eq }
        requires equal_values { EqualsAreSame V.eq }
        requires callable { F.IsAlwaysCallable plan }
        ensures closed { self.new ≡ None }
        ensures asked { IfOk result (λ done. queries_of done.receipt.reads ≡ queries.now) }
        ensures made { IfOk result (IsMade K.cmp (FnReturnsAt F.Fn plan)) }
        ensures last { IfOk result (λ done. done.accepted.number ≤ L.last) }
        ensures counted { OnOk result (share.new ≡ share.old + 1) }
        ensures uncounted { OnErr result (share.new ≡ share.old) }
        ensures back { IfErr result (HandsBack (FnReturnsAt F.Fn plan) queries.now) }
    {
        for _retry in 0..retries {
            let told = self.attempt(rt, share, queries, &plan);
            if !is_conflict(&told) {
                return told;
            }
        }
        self.attempt(rt, share, queries, &plan)
    }

    // One try.
    fn attempt<R: Wait, F: Fn(&[Recorded<K, V>]) -> Result<Vec<Write<K, V>>, AllocError>>(
        &mut self,
        rt: &R,
        share: &mut Share<L>,
        queries: &[Query<K>],
        plan: &F,
    ) -> Result<Transacted<K, V>, TransactRefused<K, V>>
        requires keys { ClonesAreSame K.is_clone }
        requires values { ClonesAreSame V.is_clone }
        requires equal_keys { EqualsAreSame K.eq }
        requires equal_values { EqualsAreSame V.eq }
        requires callable { F.IsAlwaysCallable plan.now }
        ensures closed { self.new ≡ None }
        ensures asked { IfOk result (λ done. queries_of done.receipt.reads ≡ queries.now) }
        ensures made { IfOk result (IsMade K.cmp (FnReturnsAt F.Fn plan.now)) }
        ensures last { IfOk result (λ done. done.accepted.number ≤ L.last) }
        ensures counted { OnOk result (share.new ≡ share.old + 1) }
        ensures uncounted { OnErr result (share.new ≡ share.old) }
        ensures back { IfErr result (HandsBack (FnReturnsAt F.Fn plan.now) queries.now) }
    {
        self.close();
        let Ok(()) = self.open(0) else {
            return Err(TransactRefused::NoVersion);
        };
        let Some(receipt) = self.asked(queries) else {
            return Err(TransactRefused::Memory);
        };
        let Ok(writes) = plan(receipt.reads.as_slice()) else {
            return Err(TransactRefused::Memory);
        };
        match self.index().commit(rt, share, &receipt, writes) {
            Ok(accepted) => Ok(Transacted { receipt, accepted }),
            Err(refused) => Err(TransactRefused::Commit(refused)),
        }
    }

    // Records each query with its answer, and closes the session: its receipt. None where memory was refused.
    fn asked(&mut self, queries: &[Query<K>]) -> Option<Receipt<K, V>>
        requires open { IsSome self.old }
        requires blank { (reads_in self.old).reads ≡ [] }
        requires keys { ClonesAreSame K.is_clone }
        requires values { ClonesAreSame V.is_clone }
        ensures closed { self.new ≡ None }
        ensures asked { IfSome result (λ receipt. queries_of receipt.reads ≡ queries.now) }
    {
        if self.ask_all(queries) {
            return Some(self.finish());
        }
        self.close();
        None
    }

    // Records each query with its answer, in order. False where memory was refused.
    fn ask_all(&mut self, queries: &[Query<K>]) -> bool
        requires open { IsSome self.old }
        requires keys { ClonesAreSame K.is_clone }
        requires values { ClonesAreSame V.is_clone }
        ensures open { IsSome self.new }
        ensures asked { OnTrue result (queries_of (reads_in self.new).reads ≡ queries_of (reads_in self.old).reads ++ queries.now) }
    {
        for query in queries {
            if !self.ask(query) {
                return false;
            }
        }
        true
    }

    // Records one query with its answer. False where memory was refused.
    fn ask(&mut self, query: &Query<K>) -> bool
        requires open { IsSome self.old }
        requires keys { ClonesAreSame K.is_clone }
        requires values { ClonesAreSame V.is_clone }
        ensures open { IsSome self.new }
        ensures asked { OnTrue result (queries_of (reads_in self.new).reads ≡ queries_of (reads_in self.old).reads ++ query.now ∷ []) }
    {
        match copied(query) {
            Ok(query) => self.read(query).is_ok(),
            Err(_) => false,
        }
    }
}

/// Whether a transaction conflicts.
fn is_conflict<K, V>(told: &Result<Transacted<K, V>, TransactRefused<K, V>>) -> bool
    ensures { OnTrue result (IsErr told.now) }
{
    match told {
        Err(TransactRefused::Commit(refused)) => matches!(refused.cause, Cause::Conflict(_)),
        _ => false,
    }
}

/// A copy of a query. Fails only if an allocation fails.
fn copied<K: Clone>(query: &Query<K>) -> Result<Query<K>, AllocError>
    requires { ClonesAreSame K.is_clone }
    ensures { IfOk result (λ copy. copy ≡ query.now) }
{
    query.clone()
}
