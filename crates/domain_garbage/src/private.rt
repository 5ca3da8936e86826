//! Private bags: items that wait beside the bags of participants. Each has a seat of its own, which comes to the seat of a
//! participant for a call.
//!
//! A private bag takes no memory: its items are a chain of link words, of which it knows the ends, and beside that it knows
//! the notes along it. It takes at most two steps to put an item in, to take one out, and to hand over all that is in it.

ghost use Rattle.std.specs.Prelude.{◌≡◌, ℕ, ◌+◌, ◌<◌, ◌≤◌, ◌∷◌, ◌||◌, [], true, List, Some, nat_lt, length, map, IsSome, IfSome, IfNone, IsTrue, IsFalse};
ghost use Rattle.std.specs.VecDeque.{deque_capacity};
ghost use Rattle.sdd_steps.specs.State.{Has};
ghost use Rattle.sdd_steps.specs.Steps.{is_ready, is_inside};
ghost use Rattle.sdd_homes.specs.declared.Garbage.{Garbage};
ghost use Rattle.domain_table.specs.Fitting.{FitsSizes};
ghost use Rattle.domain_table.specs.Leases.{row_slots, IsFirst, AreRowsOf, StayRowsOf};
ghost use Rattle.domain_table.specs.Ledgers.{WaitsIn};
ghost use Rattle.domain_table.specs.Plays.{reread_then, hand_all_then, without_bag, bag_alone, with_bag, with_collected, with_known};
ghost use Rattle.domain_table.specs.Views.{of_participant, spent, gathering, rereading};
ghost use Rattle.domain_garbage.specs.Bag.{IsKept, NoneDue, HandsAll, GivesBack, PutsIn, garbage_told, HasCome, HasDueNote, KeepsNotes};
ghost use Rattle.domain_table.specs.Readiness.{CanRelease};

use crate::notes::Notes;
use atomic_table::{Join, Play, Split};
use domain_table::aim::{Collect, Retire};
use domain_table::bags::{Bags, Ends};
use domain_table::board::{Acting, Home, Place, Seat, Stored, Words};
use domain_table::holding::Holding;
use domain_table::owners::release;
use domain_table::private_chains::{join_noted, take_noted};
use domain_table::row::Row;
use domain_table::steps::sit;
use parted::{Calm, One};
use sdd_plain::local_state::LocalState;
use std::collections::VecDeque;

/// An item in a private bag.
#[derive(Clone, Copy, Drop)]
pub struct Noted {
    /// Where the item is.
    pub slot: usize,
    /// The count of raises that was read again before it came into the bag.
    pub note: u64,
}

/// What is in a private bag: where its chain begins and ends, and the notes along it.
#[derive(Drop)]
pub struct NotedChain {
    chain: Option<Ends>,
    notes: Notes,
}

impl NotedChain {
    /// Nothing.
    pub fn new() -> NotedChain
        ensures { (n : ℕ) → IsKept n [] result }
    {
        NotedChain {
            chain: None,
            notes: Notes::new(),
        }
    }
}

struct OnReread;

impl<T> Play<Home<T>, Acting> for OnReread {
    ghost then = { reread_then };
}

struct OnHandAll;

impl<T> Play<Home<T>, Acting> for OnHandAll {
    ghost then = { hand_all_then };
}

struct Leaving;

impl Split<Acting> for Leaving {
    ghost left = { without_bag };

    ghost right = { bag_alone };
}

struct Coming;

impl Join<Acting> for Coming {
    ghost both = { with_bag };

    ghost spent = { spent };
}

/// A new private bag, at a seat of its own. Nothing is in it.
pub fn new_bag<T, H: Holding<T>>(words: &Words<T, H>) -> Calm<Acting>
    requires { 0 < words.now.table_id.words }
    ensures { (result.badge.table_id ≡ words.now.table_id) × (result.badge.views ≡ gathering [] ∷ []) }
{
    Calm::new(sit(words).into_badge())
}

/// Brings a private bag to the participant's seat.
pub fn take_bag<T, H: Holding<T>>(words: &Words<T, H>, seat: &mut Seat<T>, bag: Calm<Acting>)
    requires table { (seat.old.table_id ≡ words.now.table_id) × (bag.badge.table_id ≡ words.now.table_id) × (0 < words.now.table_id.words) }
    requires ready { seat.old.me.0.kind ≡ of_participant }
    requires bag { (ws : List Garbage) × (bag.badge.views ≡ gathering ws ∷ []) }
    ensures seat { (seat.new.table_id ≡ seat.old.table_id) × (seat.new.id ≡ seat.old.id) }
    ensures taken { (ws : List Garbage) → bag.badge.views ≡ gathering ws ∷ [] → seat.new.me ≡ with_collected ws seat.old.me }
{
    words.join_seat::<Coming>(seat, bag.into_badge().into_seat());
}

/// Gives the private bag that is at the participant's seat one of its own.
pub fn part_bag<T, H: Holding<T>>(words: &Words<T, H>, seat: &mut Seat<T>) -> Calm<Acting>
    requires table { (seat.old.table_id ≡ words.now.table_id) × (0 < words.now.table_id.words) }
    requires ready { seat.old.me.0.kind ≡ of_participant }
    ensures seat { (seat.new.table_id ≡ seat.old.table_id) × (seat.new.id ≡ seat.old.id) × (seat.new.me ≡ (without_bag seat.old.me.0, seat.old.me.1)) }
    ensures bag { (result.badge.table_id ≡ seat.old.table_id) × (result.badge.views ≡ bag_alone seat.old.me.0 ∷ []) }
{
    Calm::new(words.split_seat::<Leaving>(seat).into_badge())
}

/// Reads the count of raises again under the open guard, for a note.
pub fn reread<T, H: Holding<T>>(words: &Words<T, H>, seat: &mut Seat<T>) -> u64
    requires table { (seat.old.table_id ≡ words.now.table_id) × (0 < words.now.table_id.words) }
    requires open { (seat.old.me.0.kind ≡ of_participant) × (is_inside seat.old.me.0.known ≡ true) }
    ensures seat { (seat.new.table_id ≡ seat.old.table_id) × (seat.new.id ≡ seat.old.id) }
    ensures noted { seat.new.me ≡ with_known (rereading result seat.old.me.0.known) seat.old.me }
    ensures least { seat.old.me.0.born ≤ result }
    ensures most { result ≤ seat.old.me.0.born + 1 }
    ensures noted_most { (w : Garbage) → Has seat.old.me.0.collected w → w.age ≤ result }
{
    words.load::<OnReread>(seat, 0)
}

/// Retires all that is in the private bag that is at the participant's seat, in one step: it is in the participant's current
/// bag then, in its order, and one link word at most is written.
pub fn hand_all<T, H: Holding<T>>(
    place: Place<T, H>,
    seat: &mut Seat<T>,
    kept: NotedChain,
    bags: &mut Bags,
)
    requires table { FitsSizes place seat.old }
    requires ready { (seat.old.me.0.kind ≡ of_participant) × (is_ready seat.old.me.0.known ≡ true) }
    requires kept { IsKept place.sizes.now.slots seat.old.me.0.collected kept }
    requires waits { WaitsIn place.sizes.now.slots seat.old.me.0.waits bags.old }
    ensures seat { (seat.new.table_id ≡ seat.old.table_id) × (seat.new.id ≡ seat.old.id) }
    ensures handed { HandsAll seat.old.me seat.new.me }
    ensures waits { WaitsIn place.entry.sizes.now.slots seat.new.me.0.waits bags.new }
    ensures bags { bags.new.due ≡ bags.old.due }
{
    // The value isn't used: in this step all that the private bag has is retired by the participant.
    let _ = place.words.load::<OnHandAll>(seat, 1);
    bags.take_over(place, seat, kept.chain);
}

/// Takes what is in the private bag at the participant's seat the longest out of its chain, if its note lies three or more
/// below the count. It stays noted, until it is reclaimed.
pub fn take_due<T, H: Holding<T>>(
    place: Place<T, H>,
    seat: &mut Seat<T>,
    kept: &mut NotedChain,
    count: u64,
) -> Option<usize>
    requires table { FitsSizes place seat.old }
    requires acts { seat.old.me.0.kind ≡ of_participant }
    requires kept { IsKept place.sizes.now.slots seat.old.me.0.collected kept.old }
    ensures seat { (seat.new.table_id ≡ seat.old.table_id) × (seat.new.id ≡ seat.old.id) × (seat.new.me ≡ seat.old.me) }
    ensures none { IfNone result (IsKept place.entry.sizes.now.slots seat.old.me.0.collected kept.new × NoneDue count seat.old.me.0.collected) }
    ensures taken { IfSome result (λ slot. HasDueNote place.entry.sizes.now.slots count slot seat.old.me.0.collected kept.new) }
{
    let Some(note) = kept.notes.oldest() else {
        return None;
    };
    if count < 3 || note > count - 3 {
        return None;
    }
    let (slot, chain) = take_noted(place, seat, kept.chain);
    kept.chain = chain;
    kept.notes.take();
    slot
}

/// Appends what has just come into the private bag, in this slot, to its chain, with its note.
fn keep<T, H: Holding<T>>(
    place: Place<T, H>,
    seat: &mut Seat<T>,
    kept: &mut NotedChain,
    noted: Noted,
)
    requires table { FitsSizes place seat.old × (noted.slot < place.sizes.now.slots) }
    requires acts { seat.old.me.0.kind ≡ of_participant }
    requires came { HasCome place.sizes.now.slots noted.slot noted.note seat.old.me.0.collected kept.old }
    ensures seat { (seat.new.table_id ≡ seat.old.table_id) × (seat.new.id ≡ seat.old.id) }
    ensures kept { KeepsNotes place.entry.sizes.now.slots kept.new seat.old.me seat.new.me }
{
    let alone = Ends {
        first: noted.slot,
        last: noted.slot,
    };
    kept.chain = join_noted(place, seat, Some(alone), kept.chain);
    kept.notes.put(noted.note);
}

/// Releases the owner that is first in hand, whose item is in `slot`, under open guards: its part is joined to those of
/// participant `number`. With the last owner the participant has retired the item.
pub fn give_back<T, H: Holding<T>>(
    place: Place<T, H>,
    seat: &mut Seat<T>,
    number: usize,
    rows: &mut VecDeque<Row<T>>,
    bags: &mut Bags,
    owner: (usize, One<Stored<T>>),
)
    requires table { FitsSizes place seat.old × (number < place.sizes.now.participants) }
    requires ready { CanRelease number seat.old.me.0 }
    requires owner { IsFirst seat.old.me.0 owner.0 owner.1.part.life.id × IsSome owner.1.part.seen.value }
    requires rows { AreRowsOf place.sizes.now.slots seat.old.me.0.leases rows.old.items }
    requires waits { WaitsIn place.sizes.now.slots seat.old.me.0.waits bags.old }
    ensures seat { (seat.new.table_id ≡ seat.old.table_id) × (seat.new.id ≡ seat.old.id) }
    ensures given { GivesBack seat.old.me seat.new.me }
    ensures rows { StayRowsOf seat.old.me.0.leases rows.old.items seat.new.me.0.leases rows.new.items }
    ensures same { (deque_capacity rows.new ≡ deque_capacity rows.old) × (row_slots rows.new.items ≡ row_slots rows.old.items) }
    ensures waits { WaitsIn place.entry.sizes.now.slots seat.new.me.0.waits bags.new }
    ensures bags { bags.new.due ≡ bags.old.due }
{
    let (slot, part) = owner;
    if release::<T, H, Retire>(place, seat, number, rows, slot, part) == 0 {
        bags.retire(place, seat, slot);
    }
}

/// Releases the owner that is first in hand, whose item is in `slot`, under open guards. Whether it was the last one: then
/// the item is in the private bag, with the count that was read again as its note.
pub fn put_in<T, H: Holding<T>>(
    place: Place<T, H>,
    seat: &mut Seat<T>,
    number: usize,
    rows: &mut VecDeque<Row<T>>,
    kept: &mut NotedChain,
    owner: (Noted, One<Stored<T>>),
) -> bool
    requires table { FitsSizes place seat.old × (number < place.sizes.now.participants) }
    requires ready { CanRelease number seat.old.me.0 }
    requires open { (is_inside seat.old.me.0.known ≡ true) × (seat.old.me.0.known.reread ≡ Some owner.0.note) }
    requires owner { IsFirst seat.old.me.0 owner.0.slot owner.1.part.life.id × IsSome owner.1.part.seen.value }
    requires rows { AreRowsOf place.sizes.now.slots seat.old.me.0.leases rows.old.items }
    requires kept { IsKept place.sizes.now.slots seat.old.me.0.collected kept.old }
    requires most { (w : Garbage) → Has seat.old.me.0.collected w → w.age ≤ owner.0.note }
    requires young { NoneDue owner.0.note seat.old.me.0.collected }
    ensures seat { (seat.new.table_id ≡ seat.old.table_id) × (seat.new.id ≡ seat.old.id) }
    ensures given { PutsIn seat.old.me seat.new.me }
    ensures rows { StayRowsOf seat.old.me.0.leases rows.old.items seat.new.me.0.leases rows.new.items }
    ensures same { (deque_capacity rows.new ≡ deque_capacity rows.old) × (row_slots rows.new.items ≡ row_slots rows.old.items) }
    ensures kept { IsKept place.entry.sizes.now.slots seat.new.me.0.collected kept.new }
    ensures last { IsTrue result → map garbage_told seat.new.me.0.collected ≡ (owner.0.slot, owner.0.note) ∷ map garbage_told seat.old.me.0.collected }
    ensures more { IsFalse result → seat.new.me.0.collected ≡ seat.old.me.0.collected }
{
    let (noted, part) = owner;
    let left = release::<T, H, Collect>(place, seat, number, rows, noted.slot, part);
    if left > 0 {
        return false;
    }
    keep(place, seat, kept, noted);
    true
}

/// Sets the flag of garbage if anything waits, where nothing is due.
pub fn flag_waiting(own: &mut LocalState, bags: &Bags)
    requires { bags.now.due ≡ None }
    ensures { (n : ℕ) (ws : List Garbage) → WaitsIn n ws bags.now → own.new ≡ record own.old { garbage = own.old.garbage || nat_lt 0 (length ws) } }
{
    if bags.has_some() {
        own.garbage = true;
    }
}
