//! A book in a place, with what its calls take.

ghost use Rattle.std.specs.Prelude.{◌≡◌, ◌≤◌, ◌<◌, IfErr, IfOk, length};
ghost use Rattle.sdd_domain.specs.Cells.{cell_number};
ghost use Rattle.sdd_domain.specs.Tokens.{place_of, cell_count};
ghost use Rattle.shared_index.specs.SharedInvariant.{IsUnengaged};
ghost use Rattle.shared_book_tests.specs.Scenes.{CanBegin};

use sdd_domain::atomic_shared::AtomicShared;
use sdd_domain::domain::Domain;
use sdd_domain::local::Local;
use sdd_domain::refusal::RegisterRefused;
use sdd_plain::sizes::Sizes;
use serial_history::{Accepted, Audit, CheckpointRefused, Receipt, Refused, Transaction};
use shared_index::{BaseList, Book, FeedRefused, Naming, NewRefused, Share, SharedBaseRefused};
use shared_versions::{Node, reclaim};
use std::alloc::{AllocError, Global};
use std::process::Abort;
use std::sync::ledger::Blank;
use version_views::Write;

pub(crate) const ROOM: &str = "memory is there";

/// The items of the place: versions of numbers by numbers.
pub(crate) type Item = Node<u64, u64>;

/// A place for two participants, one cell and this many items.
pub(crate) fn sized(slots: usize) -> Sizes
    requires { (1 ≤ slots) × (slots ≤ 1073741824) }
    ensures { result ≡ record { participants = 2; slots = slots; cells = 1; jobs = 0 } }
{
    Sizes {
        participants: 2,
        slots,
        cells: 1,
        jobs: 0,
    }
}

/// A place for this many items.
pub(crate) fn place(alloc: Global, slots: usize) -> Result<Domain<Item>, AllocError>
    requires { (1 ≤ slots) × (slots ≤ 1073741824) }
{
    Domain::new(alloc, sized(slots))
}

/// A participant of the place, or why there is none.
pub(crate) fn registered(domain: &Domain<Item>) -> Result<Local<Item>, RegisterRefused>
    ensures { IfOk result (IsUnengaged (place_of domain.now)) }
{
    domain.register()
}

/// A participant of the place, which has one that is free.
pub(crate) fn member<R: Abort>(rt: &R, domain: &Domain<Item>) -> Local<Item>
    ensures { IsUnengaged (place_of domain.now) result }
{
    match registered(domain) {
        Ok(local) => local,
        Err(_) => panic!(rt; "a participant is free"),
    }
}

/// Reclaims what a participant retired, and ends it.
pub(crate) fn leave(domain: &Domain<Item>, local: Local<Item>)
    requires { IsUnengaged (place_of domain.now) local }
{
    let mut local = local;
    reclaim(domain, &mut local);
    local.end(domain);
}

/// Ends a place that nobody uses, or hands it back.
pub(crate) fn closed(domain: Domain<Item>) -> Result<(), Domain<Item>> {
    domain.close()
}

/// Ends a place that nobody uses.
pub(crate) fn end<R: Abort>(rt: &R, domain: Domain<Item>) {
    match closed(domain) {
        Ok(()) => {}
        Err(_) => panic!(rt; "nobody is registered"),
    }
}

/// How many slots of the place have an item.
pub(crate) fn in_use(domain: &Domain<Item>) -> usize {
    domain.slots_in_use()
}

/// A book, the cell of its version, and its one share, as the list of all.
pub(crate) struct Scene<'d, L: Naming, const S: usize> {
    pub(crate) domain: &'d Domain<Item>,
    pub(crate) root: AtomicShared<Item>,
    pub(crate) book: Book<L, u64, u64, S>,
    pub(crate) shares: Vec<Share<L>>,
    ghost one: { length shares.items ≡ 1 },
    ghost place: { place_of domain.now ≡ L.place },
    ghost inside: { cell_number root < cell_count domain.now },
}

impl<'d, L: Naming, const S: usize> Scene<'d, L, S> {
    /// An empty book, whose last number is the given one; or what it was to be made of, and why it wasn't.
    pub(crate) fn made(
        alloc: Global,
        domain: &'d Domain<Item>,
        local: Local<Item>,
        blank: Blank,
        last: u64,
    ) -> Result<Self, (Local<Item>, Blank, NewRefused)>
        requires begins { CanBegin L.place L.name L.parts 1 domain.now local blank }
        requires last { last ≡ L.last }
        requires size { (1 ≤ S) × (S ≤ 225) }
        ensures back { IfErr result (λ back. CanBegin L.place L.name L.parts 1 domain.now back.0 back.1) }
        ensures domain { IfOk result (λ scene. scene.domain.now ≡ domain.now) }
    {
        let (book, root, shares) = Book::new(alloc, domain, local, blank, 1, last)?;
        Ok(Scene {
            domain,
            root,
            book,
            shares,
        })
    }

    /// A book that begins with a list; or what it was to be made of, and why it wasn't.
    pub(crate) fn holding(
        alloc: Global,
        domain: &'d Domain<Item>,
        local: Local<Item>,
        blank: Blank,
        base: BaseList<u64, u64>,
    ) -> Result<Self, (Local<Item>, Blank, SharedBaseRefused<u64, u64>)>
        requires begins { CanBegin L.place L.name L.parts 1 domain.now local blank }
        requires last { L.last ≡ 18446744073709551615 }
        requires size { (1 ≤ S) × (S ≤ 225) }
        ensures back { IfErr result (λ back. CanBegin L.place L.name L.parts 1 domain.now back.0 back.1) }
        ensures domain { IfOk result (λ scene. scene.domain.now ≡ domain.now) }
    {
        let (book, root, shares) = Book::from_base(alloc, domain, local, blank, 1, base)?;
        Ok(Scene {
            domain,
            root,
            book,
            shares,
        })
    }

    /// An empty book, for which there is room.
    pub(crate) fn new<R: Abort>(
        rt: &R,
        alloc: Global,
        domain: &'d Domain<Item>,
        local: Local<Item>,
        blank: Blank,
        last: u64,
    ) -> Self
        requires begins { CanBegin L.place L.name L.parts 1 domain.now local blank }
        requires last { last ≡ L.last }
        requires size { (1 ≤ S) × (S ≤ 225) }
    {
        match Self::made(alloc, domain, local, blank, last) {
            Ok(scene) => scene,
            Err(_) => panic!(rt; "there is memory, a slot and a cell"),
        }
    }

    /// Commits writes that rest on a receipt.
    pub(crate) fn commit(
        &mut self,
        receipt: &Receipt<u64, u64>,
        writes: Vec<Write<u64, u64>>,
    ) -> Result<Accepted, Refused<u64, u64>> {
        let share = &mut self.shares[0];
        self.book
            .commit(self.domain, &self.root, share, receipt, writes)
    }

    /// Audits a receipt.
    pub(crate) fn audit(&self, receipt: &Receipt<u64, u64>) -> Result<Audit, AllocError> {
        self.book.audit(receipt)
    }

    /// Makes the list of a number the base.
    pub(crate) fn checkpoint(&mut self, upto: u64) -> Result<(), CheckpointRefused> {
        self.book.checkpoint(upto)
    }

    /// The base's number, and its pairs.
    pub(crate) fn base(&self) -> (u64, &[(u64, u64)]) {
        self.book.base()
    }

    /// The same, copied.
    pub(crate) fn base_list(&self) -> Result<BaseList<u64, u64>, AllocError> {
        self.book.base_list()
    }

    /// Copies of the transactions behind a number.
    pub(crate) fn since(&self, number: u64) -> Result<Vec<Transaction<u64, u64>>, FeedRefused> {
        self.book.since(number)
    }

    /// The number, how many pairs there are, and the count of the share.
    pub(crate) fn counts(&self) -> (u64, usize, u64) {
        self.book.laws();
        let count = self.shares[0].count();
        (self.book.number(), self.book.len(), count)
    }

    /// The number of the base, and that of the present list.
    pub(crate) fn numbers(&self) -> (u64, u64) {
        self.book.numbers()
    }

    /// Reclaims what nobody reads.
    pub(crate) fn reclaim(&mut self) {
        self.book.reclaim(self.domain);
    }

    /// One round of it.
    pub(crate) fn reclaim_once(&mut self) {
        self.book.reclaim_once(self.domain);
    }

    /// Ends the book, and its participant.
    pub(crate) fn end(self) {
        let Scene {
            domain,
            root,
            book,
            shares,
        } = self;
        let mut local = book.end(domain, shares);
        root.retire(domain, &mut local);
        local.end(domain);
    }
}
