//! The index that threads share.

ghost use Rattle.std.specs.Prelude.{◌≡◌, ◌≢◌, ◌≤◌, ◌<◌, ◌+◌, ◌-◌, ◌∷◌, ◌↔◌, [], IfOk, IfErr, IsErr, IsErrOf, OnOk, OnErr, length, replicate};
ghost use Rattle.std.specs.List.{sum};
ghost use Rattle.leaf_array.specs.Pairs.{IsAscending};
ghost use Rattle.leaf_array.specs.Values.{ClonesAreSame, EqualsAreSame};
ghost use Rattle.sdd_domain.specs.Tokens.{place_of, home_of, own_of, born_of, cell_count, misses_of, nest_in, IsSame};
ghost use Rattle.shared_index.specs.Books.{LiesOutside, misses_without};
ghost use Rattle.shared_index.specs.SharedFeeds.{LiesOutsideFeed};
ghost use Rattle.shared_index.specs.SharedBase.{MayRefuseBase, misses_unbegun};
ghost use Rattle.shared_index.specs.SharedInvariant.{IsUnengaged};
ghost use Rattle.shared_index.specs.Transacting.{AreTold};
ghost use Rattle.shared_sessions.specs.Openings.{IsBelow, root_number};

use crate::book::feed::FeedRefused;
use crate::book::from_base::{BaseList, SharedBaseRefused};
use crate::book::{Book, NewRefused};
use crate::naming::Naming;
use crate::share::{Share, merged};
use sdd_domain::atomic_shared::AtomicShared;
use sdd_domain::domain::Domain;
use sdd_domain::local::Local;
use serial_history::{Accepted, Audit, CheckpointRefused, Receipt, Refused, Transaction};
use shared_sessions::{OpenRefused, Root, SharedSession};
use shared_versions::Node;
use std::alloc::{AllocError, Global};
use std::marker::Model;
use std::sync::ledger::Blank;
use std::sync::{Mutex, MutexGuard, Wait};
use version_views::Write;

/// An index that threads share by `&`: a [`Book`] behind a lock, and beside it the cell that names the present version, which
/// is read without the lock.
///
/// What a call does under the lock is what the same call of the [`Book`] does. A contract can't say here what that did to a
/// book that other threads change too; it says what the caller's share counts. An index must be consumed, by
/// [`close`](SharedIndex::close).
pub struct SharedIndex<'d, L: Naming, K: Clone + Ord, V: Clone + Eq, const S: usize> {
    domain: &'d Domain<Node<K, V>>,
    root: AtomicShared<Node<K, V>>,
    book: Mutex<Book<L, K, V, S>>,
    // how many there are
    shares: usize,
    // where the receipts of sessions have their memory from
    alloc: Global,
}

/// Invariant: the place is the named one, and has the cell; there are as many shares as the ledger has parts.
impl<'d, L: Naming, K: Clone + Ord, V: Clone + Eq, const S: usize> Model
    for SharedIndex<'d, L, K, V, S> {
    ghost use Rattle.std.specs.Prelude.{◌≡◌, ◌<◌};
    ghost use Rattle.sdd_domain.specs.Cells.{cell_number};
    ghost use Rattle.sdd_domain.specs.Tokens.{place_of};

    ghost Value = { Unit {0} };

    ghost view = { λ _. tt };

    ghost invariant = { λ a. (place_of a.domain.now ≡ L.place) × (cell_number a.root < L.place.1.cells) × (a.shares ≡ L.parts) × (0 < a.shares) };
}

impl<'d, L: Naming, K: Clone + Ord, V: Clone + Eq, const S: usize> SharedIndex<'d, L, K, V, S> {
    /// An empty index in a place, with `shares` shares, at least one. Its last number is `2^64 - 1`. A refusal returns all
    /// arguments: `Memory` where there is no room for the shares, and `NoSlot` where no slot is free for the empty version, or no cell,
    /// which is one miss of the participant.
    pub fn new(
        alloc: Global,
        domain: &'d Domain<Node<K, V>>,
        local: Local<Node<K, V>>,
        blank: Blank,
        shares: usize,
    ) -> Result<(Self, Vec<Share<L>>), (Local<Node<K, V>>, Blank, NewRefused)>
        requires place { place_of domain.now ≡ L.place }
        requires rest { IsUnengaged L.place local }
        requires size { (1 ≤ S) × (S ≤ 225) }
        requires name { blank.name ≡ L.name }
        requires parts { (blank.parts ≡ L.parts) × (blank.parts ≡ shares) × (0 < shares) }
        requires last { L.last ≡ 18446744073709551615 }
        ensures shares { IfOk result (λ made. made.1.items ≡ replicate shares 0) }
        ensures local { IfErr result (λ back. IsUnengaged L.place back.0) }
        ensures missed { IfErr result (λ back. misses_of back.0 ≡ misses_without back.2 (misses_of local)) }
        ensures blank { IfErr result (λ back. back.1 ≡ blank) }
    {
        Self::with_last(alloc, domain, local, blank, shares, u64::MAX)
    }

    /// The same, with this last number: at most that many commits are accepted, and the next is refused as `Exhausted`.
    pub fn with_last(
        alloc: Global,
        domain: &'d Domain<Node<K, V>>,
        local: Local<Node<K, V>>,
        blank: Blank,
        shares: usize,
        last: u64,
    ) -> Result<(Self, Vec<Share<L>>), (Local<Node<K, V>>, Blank, NewRefused)>
        requires place { place_of domain.now ≡ L.place }
        requires rest { IsUnengaged L.place local }
        requires size { (1 ≤ S) × (S ≤ 225) }
        requires name { blank.name ≡ L.name }
        requires parts { (blank.parts ≡ L.parts) × (blank.parts ≡ shares) × (0 < shares) }
        requires last { last ≡ L.last }
        ensures shares { IfOk result (λ made. made.1.items ≡ replicate shares 0) }
        ensures local { IfErr result (λ back. IsUnengaged L.place back.0) }
        ensures missed { IfErr result (λ back. misses_of back.0 ≡ misses_without back.2 (misses_of local)) }
        ensures blank { IfErr result (λ back. back.1 ≡ blank) }
    {
        let (book, root, cut) = Book::new(alloc, domain, local, blank, shares, last)?;
        let index = SharedIndex {
            domain,
            root,
            book: Mutex::new(book),
            shares,
            alloc,
        };
        Ok((index, cut))
    }

    /// An index in a place whose base is this list, under its number, with `shares` shares, at least one. Its last number is
    /// `2^64 - 1`. So an index continues in many threads from what [`base`](Self::base), or that of an index of one thread,
    /// returned.
    ///
    /// The first share begins at the number of the list, and the others at 0. So their counts sum to the number, as always.
    ///
    /// The causes are decided in this order, and each returns all arguments: `NotAscending`, before any memory is requested;
    /// `Memory`, before anything is placed; `NoSlot`, where too few slots are free for the list, or no cell, which is one miss
    /// of the participant: what was placed until then waits to be reclaimed.
    pub fn from_base(
        alloc: Global,
        domain: &'d Domain<Node<K, V>>,
        local: Local<Node<K, V>>,
        blank: Blank,
        shares: usize,
        base: BaseList<K, V>,
    ) -> Result<(Self, Vec<Share<L>>), (Local<Node<K, V>>, Blank, SharedBaseRefused<K, V>)>
        requires place { place_of domain.now ≡ L.place }
        requires rest { IsUnengaged L.place local }
        requires size { (1 ≤ S) × (S ≤ 225) }
        requires name { blank.name ≡ L.name }
        requires parts { (blank.parts ≡ L.parts) × (blank.parts ≡ shares) × (0 < shares) }
        requires last { L.last ≡ 18446744073709551615 }
        requires keys { ClonesAreSame K.is_clone }
        requires values { ClonesAreSame V.is_clone }
        ensures shares { IfOk result (λ made. made.1.items ≡ base.number ∷ replicate (shares - 1) 0) }
        ensures cause { IfErr result (λ back. MayRefuseBase K.cmp base.pairs.items back.2.cause) }
        ensures pairs { IfErr result (λ back. back.2.pairs.items ≡ base.pairs.items) }
        ensures local { IfErr result (λ back. IsUnengaged L.place back.0) }
        ensures missed { IfErr result (λ back. misses_of back.0 ≡ misses_unbegun back.2.cause (misses_of local)) }
        ensures blank { IfErr result (λ back. back.1 ≡ blank) }
    {
        let (book, root, cut) = Book::from_base(alloc, domain, local, blank, shares, base)?;
        let index = SharedIndex {
            domain,
            root,
            book: Mutex::new(book),
            shares,
            alloc,
        };
        Ok((index, cut))
    }

    /// The place that its versions are in.
    pub fn domain(&self) -> &'d Domain<Node<K, V>>
        ensures place { place_of result.now ≡ L.place }
        ensures cells { cell_count result.now ≡ L.place.1.cells }
    {
        self.domain
    }

    /// The cell that names the present version, to open sessions on: only commits have it name another one.
    pub fn root(&self) -> Root<'_, Node<K, V>>
        ensures inside { root_number result < L.place.1.cells }
    {
        Root::new(&self.root)
    }

    /// Opens a session of the participant on the version that the root is found to name, by one load and without the lock: it
    /// reads the list of that version until it is closed, whatever is committed and reclaimed meanwhile. Opening takes no
    /// memory; what the session records takes some.
    ///
    /// It is refused, with as many guards open as before, where [`SharedSession::open`] is: as `Nested` if and only if
    /// no more guards of the participant can be counted, and as `Earlier`, with the number of the version that it
    /// loaded, where that is below `at_least`. To read what was committed, pass the number that the commit returned;
    /// 0 asks for nothing. `NoVersion` never comes: only commits write to the cell, and each
    /// has it name a version of this width.
    ///
    /// [`Participant::reading`](crate::Participant::reading) opens one that closes by itself.
    pub fn open(
        &self,
        local: &mut Local<Node<K, V>>,
        at_least: u64,
    ) -> Result<SharedSession<K, V, S>, OpenRefused>
        requires home { home_of local.old ≡ L.place }
        ensures number { IfOk result (λ s. at_least ≤ s.number) }
        ensures receipt { IfOk result (λ s. s.receipt ≡ record { number = s.number; reads = [] }) }
        ensures nest { IfOk result (λ s. s.nest ≡ nest_in local.new) }
        ensures opened { OnOk result ((own_of local.new).nesting ≡ (own_of local.old).nesting + 1) }
        ensures nested { IsErrOf result OpenRefused.Nested ↔ ((own_of local.old).nesting ≡ 4294967295) }
        ensures earlier { IfErr result (IsBelow at_least) }
        ensures closed { OnErr result ((own_of local.new).nesting ≡ (own_of local.old).nesting) }
        ensures inner { 0 < (own_of local.old).nesting → (born_of local.new ≡ born_of local.old) × (nest_in local.new ≡ nest_in local.old) }
        ensures same { IsSame local.old local.new }
    {
        SharedSession::open(self.alloc, self.domain, self.root(), at_least, local)
    }

    /// Makes the writes on the present list, as [`Book::commit`] does, if each read of the receipt still holds there. The share
    /// counts it if it is accepted. No commit has a number above the last one.
    pub fn commit<R: Wait>(
        &self,
        rt: &R,
        share: &mut Share<L>,
        receipt: &Receipt<K, V>,
        writes: Vec<Write<K, V>>,
    ) -> Result<Accepted, Refused<K, V>>
        requires keys { ClonesAreSame K.is_clone }
        requires values { ClonesAreSame V.is_clone }
        requires equal_keys { EqualsAreSame K.eq }
        requires equal_values { EqualsAreSame V.eq }
        ensures counted { OnOk result (share.new ≡ share.old + 1) }
        ensures uncounted { OnErr result (share.new ≡ share.old) }
        ensures last { IfOk result (λ told. told.number ≤ L.last) }
        ensures told { IfOk result (λ told. AreTold K.cmp receipt.now.reads writes.items told.replies.items) }
        ensures back { IfErr result (λ back. back.writes.items ≡ writes.items) }
    {
        let mut book = self.book.lock(rt);
        let told = book.commit(self.domain, &self.root, share, receipt, writes);
        MutexGuard::unlock(book);
        told
    }

    /// Whether the reads of a receipt are answered as the list of its number answers them, as [`Book::audit`] says.
    pub fn audit<R: Wait>(&self, rt: &R, receipt: &Receipt<K, V>) -> Result<Audit, AllocError>
        requires keys { ClonesAreSame K.is_clone }
        requires values { ClonesAreSame V.is_clone }
        requires equal_keys { EqualsAreSame K.eq }
        requires equal_values { EqualsAreSame V.eq }
    {
        let book = self.book.lock(rt);
        let found = book.audit(receipt);
        MutexGuard::unlock(book);
        found
    }

    /// Makes the list of a number the base, as [`Book::checkpoint`] does, under the lock: until the list is copied, commits and
    /// audits wait. Sessions go on.
    pub fn checkpoint<R: Wait>(&self, rt: &R, upto: u64) -> Result<(), CheckpointRefused>
        requires keys { ClonesAreSame K.is_clone }
        requires values { ClonesAreSame V.is_clone }
        ensures refused { IfErr result (LiesOutside upto) }
    {
        let mut book = self.book.lock(rt);
        let told = book.checkpoint(upto);
        MutexGuard::unlock(book);
        told
    }

    /// The number of the base, and copies of the pairs of its list, as [`Book::base_list`] has them, under the lock: until they are
    /// copied, commits and audits wait. Another index begins with them. Fails only if an allocation fails.
    pub fn base<R: Wait>(&self, rt: &R) -> Result<BaseList<K, V>, AllocError>
        requires keys { ClonesAreSame K.is_clone }
        requires values { ClonesAreSame V.is_clone }
        ensures rising { IfOk result (λ list. IsAscending K.cmp list.pairs.items) }
        ensures last { IfOk result (λ list. list.number ≤ L.last) }
    {
        let book = self.book.lock(rt);
        let list = book.base_list();
        MutexGuard::unlock(book);
        list
    }

    /// Copies of the transactions behind a number, as [`Book::since`] has them, under the lock: until they are copied, commits and
    /// audits wait. Whoever keeps a copy of the list asks for what came since, by the number of its copy.
    pub fn since<R: Wait>(&self, rt: &R, number: u64) -> Result<Vec<Transaction<K, V>>, FeedRefused>
        requires keys { ClonesAreSame K.is_clone }
        requires values { ClonesAreSame V.is_clone }
        ensures refused { IfErr result (LiesOutsideFeed number) }
    {
        let book = self.book.lock(rt);
        let told = book.since(number);
        MutexGuard::unlock(book);
        told
    }

    /// Reclaims versions that nobody reads, as [`Book::reclaim`] does.
    pub fn reclaim<R: Wait>(&self, rt: &R) {
        let mut book = self.book.lock(rt);
        book.reclaim(self.domain);
        MutexGuard::unlock(book);
    }

    /// One of the eight rounds of [`reclaim`](Self::reclaim), as [`Book::reclaim_once`] makes it. Between two rounds other threads
    /// commit and audit, so eight of these calls keep the lock for a shorter time each than one `reclaim`, and do what it does.
    pub fn reclaim_once<R: Wait>(&self, rt: &R) {
        let mut book = self.book.lock(rt);
        book.reclaim_once(self.domain);
        MutexGuard::unlock(book);
    }

    /// How many slots its place has.
    pub fn slots(&self) -> usize
        ensures { result ≡ L.place.1.slots }
    {
        self.domain.slots()
    }

    /// How many slots of its place have an item or are being filled or emptied, whoever placed the item. It is counted without
    /// the lock, each slot at a moment of its own: exact while no thread places or reclaims, and an estimate else. The contract
    /// says only that it is never more than [`slots`](Self::slots).
    pub fn slots_in_use(&self) -> usize
        ensures { result ≤ L.place.1.slots }
    {
        self.domain.slots_in_use()
    }

    /// The number of the base and that of the present list, by one look under the lock. As many transactions as lie between them
    /// are kept in memory.
    pub fn numbers<R: Wait>(&self, rt: &R) -> (u64, u64)
        ensures rising { result.0 ≤ result.1 }
        ensures last { result.1 ≤ L.last }
    {
        let book = self.book.lock(rt);
        let numbers = book.numbers();
        MutexGuard::unlock(book);
        numbers
    }

    /// Ends the index: its participant, at rest, and its number, to which the counts of the shares sum. It is handed back with
    /// the shares where they aren't all there.
    pub fn close(
        self,
        shares: Vec<Share<L>>,
    ) -> Result<(Local<Node<K, V>>, u64), (Self, Vec<Share<L>>)>
        ensures all { IsErr result ↔ (length shares.items ≢ L.parts) }
        ensures rest { IfOk result (λ ended. IsUnengaged L.place ended.0) }
        ensures number { IfOk result (λ ended. ended.1 ≡ sum shares.items) }
        ensures last { IfOk result (λ ended. ended.1 ≤ L.last) }
        ensures err { IfErr result (λ back. back.1 ≡ shares) }
    {
        if shares.len() != self.shares {
            return Err((self, shares));
        }
        let SharedIndex {
            domain,
            root,
            book,
            shares: _,
            alloc,
        } = self;
        let Some(mut all) = merged(shares) else {
            unreachable!();
        };
        let mut book = book.into_inner();
        let number = book.balance(&mut all);
        let mut local = book.end(domain, Vec::new(alloc));
        root.retire(domain, &mut local);
        Ok((local, number))
    }
}
