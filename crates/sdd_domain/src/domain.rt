//! A place that threads share.

ghost use Rattle.std.specs.Prelude.{◌≡◌, ◌*◌, ◌<◌, ◌≤◌, [], vec_len, IfOk, IfErr};
ghost use Rattle.sdd_plain.specs.Locals.{no_local};
ghost use Rattle.domain_table.specs.Fitting.{HasWords};
ghost use Rattle.domain_table.specs.Layout.{all_words, IsSized};
ghost use Rattle.domain_table.specs.Ledgers.{IsEmpty};
ghost use Rattle.std.specs.Option.{ForSome};

use crate::board::{Board, Place, Told, Words};
use crate::guard::Guard;
use crate::holds::Holds;
use crate::local::Local;
use crate::refusal::RegisterRefused;
use atomic_table::Refused;
use domain_table::board::Plan;
use domain_table::first_words::{free_cells, words_from};
use domain_table::homes::{clear, empty, homes_from};
use domain_table::ledger::Ledger;
use domain_table::slots::count_used;
use domain_table::steps::{any_claimed, claim, learn, sit};
use sdd_plain::sizes::Sizes;
use std::alloc::{AllocError, Global};
use std::sync::atomic::AtomicBool;

/// A place that threads share by `&`. It can't be dropped: `close` ends it.
pub struct Domain<T: Holds> {
    pub(crate) table: Board<T>,
    pub(crate) sizes: Sizes,
    pub(crate) heap: Global,
    /// Which cells somebody has.
    pub(crate) taken: Vec<AtomicBool>,
    /// What `close` notes items in, as a participant does.
    closing: Option<Ledger<T>>,
    ghost cells: { vec_len taken ≡ sizes.cells },
    ghost noted: { ForSome closing (IsEmpty sizes.slots) },
    ghost sized: { (sizes ≡ table.shared.key.sizes) × IsSized sizes × (all_words sizes ≤ table.shared.table_id.words) },
}

impl<T: Holds> Domain<T> {
    ghost use Rattle.sdd_domain.specs.Tokens.{participants_of, slot_count, cell_count, first_of, place_of, home_of, number_of, own_of, hand_of};

    /// A place without items, for as many participants as its sizes name, none of them registered. It takes all memory
    /// of the place but what `register` takes: homes for slots times participants, a box for the item of each slot, and 40
    /// bytes a slot for `close`. Without memory nothing is kept.
    pub fn new(alloc: Global, sizes: Sizes) -> Result<Domain<T>, AllocError>
        requires { IsSized sizes }
        ensures participants { IfOk result (λ d. participants_of d ≡ sizes.participants) }
        ensures first { IfOk result (λ d. first_of d ≡ 0) }
    {
        Domain::with_count(alloc, sizes, 0)
    }

    /// The same, as if the count of raises had come to this number. At `2^64 - 1` it is at its end.
    pub fn with_count(alloc: Global, sizes: Sizes, count: u64) -> Result<Domain<T>, AllocError>
        requires { IsSized sizes }
        ensures participants { IfOk result (λ d. participants_of d ≡ sizes.participants) }
        ensures first { IfOk result (λ d. first_of d ≡ count) }
    {
        let plan = Plan {
            sizes,
            first: count,
        };
        let words = words_from(alloc, &plan)?;
        let taken = free_cells(alloc, sizes.cells)?;
        let homes = homes_from::<T, Told>(alloc, &plan.sizes)?;
        let table = match Board::new(alloc, &words, homes, &plan) {
            Ok((table, _)) => table,
            Err(Refused { slots }) => {
                clear(slots);
                return Err(AllocError);
            }
        };
        let Ok(ledger) = Ledger::new(alloc, sizes.slots) else {
            empty(table.close());
            return Err(AllocError);
        };
        Ok(Domain {
            table,
            sizes,
            heap: alloc,
            taken,
            closing: Some(ledger),
        })
    }

    pub(crate) fn words(&self) -> &Words<T>
        ensures { (result.now.table_id ≡ self.now.table.shared.table_id) × (result.now.key ≡ self.now.table.shared.key) }
    {
        &self.table.shared
    }

    /// Its words, with its sizes.
    pub(crate) fn place(&self) -> Place<'_, T>
        ensures table { result.words.now.table_id ≡ (place_of self.now).0 }
        ensures sizes { result.sizes.now ≡ self.now.sizes }
        ensures sized { HasWords result }
    {
        Place {
            words: self.words(),
            sizes: &self.sizes,
        }
    }

    /// Registers a participant that nobody acts for: each is tried once, from 0 on. Full where each was taken when it
    /// was tried, and Memory where there was none to note what it will lease, 40 bytes a slot.
    pub fn register(&self) -> Result<Local<T>, RegisterRefused>
        ensures home { IfOk result (λ l. home_of l ≡ place_of self.now) }
        ensures number { IfOk result (λ l. number_of l < participants_of self.now) }
        ensures fresh { IfOk result (λ l. (own_of l ≡ no_local) × (hand_of l ≡ [])) }
    {
        let Ok(mut ledger) = Ledger::new(self.heap, self.sizes.slots) else {
            return Err(RegisterRefused::Memory);
        };
        for number in 0..self.sizes.participants {
            match self.acting_for(number, ledger) {
                Ok(local) => return Ok(local),
                Err(back) => ledger = back,
            }
        }
        ledger.free();
        Err(RegisterRefused::Full)
    }

    /// Tries once to act for a participant, with an empty ledger, which is returned if somebody else does.
    fn acting_for(&self, number: usize, ledger: Ledger<T>) -> Result<Local<T>, Ledger<T>>
        requires low { number < participants_of self.now }
        requires empty { IsEmpty self.now.sizes.slots ledger }
        ensures home { IfOk result (λ l. home_of l ≡ place_of self.now) }
        ensures number { IfOk result (λ l. number_of l ≡ number) }
        ensures fresh { IfOk result (λ l. (own_of l ≡ no_local) × (hand_of l ≡ [])) }
        ensures refused { IfErr result (λ back. back ≡ ledger) }
    {
        let mut seat = sit(self.words());
        let Some(spare) = claim(self.words(), &mut seat, number) else {
            return Err(ledger);
        };
        learn(self.words(), &mut seat, self.sizes);
        Ok(Local::registered(seat, number, spare, ledger))
    }

    /// Opens and closes accelerated guards of a participant, the first of which takes over what others left, and reclaims
    /// behind each what nobody reads, at the last count too. It repeats this until nothing waits, at most four times for
    /// each slot, since what an item held waits only once the item is reclaimed. Then it ends the participant, and returns
    /// its ledger, empty.
    fn run_out(&self, local: Local<T>) -> Ledger<T>
        requires { (home_of local ≡ place_of self.now) × ((own_of local).nesting ≡ 0) × (hand_of local ≡ []) }
        ensures { IsEmpty self.now.sizes.slots result }
    {
        let mut local = local;
        for _i in 0..4 * self.sizes.slots {
            if let Ok(guard) = Guard::new(self, &mut local) {
                guard.accelerate(&mut local);
                guard.close(self, &mut local);
            }
            local.reclaim_all(self);
            if !local.has_waiting() {
                break;
            }
        }
        local.leave(self)
    }

    /// Reclaims all that participants left, where nobody has a guard open. It returns the ledger, empty.
    fn reclaim_left(&self, ledger: Ledger<T>) -> Ledger<T>
        requires { IsEmpty self.now.sizes.slots ledger }
        ensures { IsEmpty self.now.sizes.slots result }
    {
        match self.acting_for(0, ledger) {
            Ok(local) => self.run_out(local),
            Err(back) => back,
        }
    }

    /// How many slots it has.
    pub fn slots(&self) -> usize
        ensures { result ≡ slot_count self.now }
    {
        self.sizes.slots
    }

    /// How many cells it has.
    pub fn cells(&self) -> usize
        ensures { result ≡ cell_count self.now }
    {
        self.sizes.cells
    }

    /// How many slots have an item or are being filled or emptied, each looked at in one step of its own.
    pub fn slots_in_use(&self) -> usize
        ensures { result ≤ slot_count self.now }
    {
        count_used(self.place())
    }

    /// Ends the place, and drops what still waits, with what that holds, at the last count too. It is handed back while a
    /// `Local`, an owner or what a collector holds is out. It takes no memory.
    pub fn close(self) -> Result<(), Domain<T>>
        ensures back { IfErr result (λ d. (place_of d ≡ place_of self) × (participants_of d ≡ participants_of self) × (first_of d ≡ first_of self)) }
    {
        let mut domain = self;
        if any_claimed(domain.place()) {
            return Err(domain);
        }
        if let Some(ledger) = domain.closing.take() {
            let ledger = domain.reclaim_left(ledger);
            if let Some(other) = domain.closing.replace(ledger) {
                other.free();
            }
        }
        if domain.slots_in_use() > 0 {
            return Err(domain);
        }
        let Domain {
            table,
            sizes: _,
            heap: _,
            taken: _,
            closing,
        } = domain;
        if let Some(ledger) = closing {
            ledger.free();
        }
        empty(table.close());
        Ok(())
    }
}
