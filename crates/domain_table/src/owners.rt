//! Owners outside of calls: each has a seat of its own, which comes into the hand of a participant for a call.

ghost use Rattle.std.specs.Prelude.{◌≡◌, ◌+◌, ◌-◌, ◌<◌, List, [], ◌∷◌, length, slice_index_or, true, IsSome, IfSome, IfNone, IsTrue, IsFalse};
ghost use Rattle.sdd_steps.specs.State.{Has};
ghost use Rattle.sdd_steps.specs.Steps.{is_ready};
ghost use Rattle.std.specs.VecDeque.{deque_capacity, deque_len};
ghost use Rattle.sdd_homes.specs.declared.Lease.{Lease};
ghost use Rattle.sdd_homes.specs.declared.Owner.{Owner};
ghost use Rattle.sdd_homes.specs.Book.{Lends, Apart};
ghost use Rattle.domain_table.specs.Outcomes.{PutsBack, ClonesAt};
ghost use Rattle.domain_table.specs.Contents.{IsIn};
ghost use Rattle.domain_table.specs.Fitting.{FitsSizes};
ghost use Rattle.domain_table.specs.Leases.{row_slots, IsFirst, HasReleased, HasClonedOne, HasOwned, AreRowsOf, HasReleasedOne, StayRowsOf};
ghost use Rattle.domain_table.specs.declared.row.Row.{Row};
ghost use Rattle.domain_table.specs.Views.{of_participant, spent, holding};
ghost use Rattle.domain_table.specs.Plays.{others_in, first_in, joined_by, IsAlike, MayNote, with_hand};
ghost use Rattle.domain_table.specs.declared.board.Home.{Home};
ghost use Rattle.domain_table.specs.Readiness.{CanPutBack, CanRelease, CanStep};

use crate::aim::Aim;
use crate::board::{Acting, Home, Place, Seat, Stored, Words};
use crate::cells;
use crate::holding::Holding;
use crate::homes::{let_go, parts_of};
use crate::layout::{MANY_OWNERS, NO_OWNER, home_of, owners_word};
use crate::leases::row_of;
use crate::row::Row;
use atomic_table::{Join, Split};
use parted::{Calm, One, Tally};
use std::collections::VecDeque;

/// How often the count of an item's owners is read and tried to be raised: each time others may be faster.
const TRIES: u64 = u64::MAX;

struct Parting;

impl Split<Acting> for Parting {
    ghost left = { others_in };

    ghost right = { first_in };
}

struct Coming;

impl Join<Acting> for Coming {
    ghost both = { joined_by };

    ghost spent = { spent };
}

/// Gives the first owner in hand a seat of its own.
pub fn part_with<T, H: Holding<T>>(words: &Words<T, H>, seat: &mut Seat<T>) -> Calm<Acting>
    requires table { (seat.old.table_id ≡ words.now.table_id) × (0 < words.now.table_id.words) }
    requires ready { (seat.old.me.0.kind ≡ of_participant) × (seat.old.me.0.releasing ≡ 0) }
    requires owner { (o : Owner) × (os : List Owner) × (seat.old.me.0.hand ≡ o ∷ os) }
    ensures seat { (seat.new.table_id ≡ seat.old.table_id) × (seat.new.id ≡ seat.old.id) × (seat.new.me ≡ (others_in seat.old.me.0, seat.old.me.1)) }
    ensures owner { (result.badge.table_id ≡ seat.old.table_id) × (result.badge.views ≡ first_in seat.old.me.0 ∷ []) }
{
    Calm::new(words.split_seat::<Parting>(seat).into_badge())
}

/// Takes the owner of a seat into the hand.
pub fn take_in<T, H: Holding<T>>(words: &Words<T, H>, seat: &mut Seat<T>, owner: Calm<Acting>)
    requires table { (seat.old.table_id ≡ words.now.table_id) × (owner.badge.table_id ≡ words.now.table_id) × (0 < words.now.table_id.words) }
    requires ready { seat.old.me.0.kind ≡ of_participant }
    requires owner { (o : Owner) × (owner.badge.views ≡ holding o ∷ []) }
    ensures seat { (seat.new.table_id ≡ seat.old.table_id) × (seat.new.id ≡ seat.old.id) }
    ensures taken { (o : Owner) → owner.badge.views ≡ holding o ∷ [] → seat.new.me ≡ with_hand (o ∷ seat.old.me.0.hand) seat.old.me }
{
    words.join_seat::<Coming>(seat, owner.into_badge().into_seat());
}

/// Releases the owner that is in hand, whose item is in `slot` and isn't leased: its part is joined to those of
/// participant `number`. Answers how many owners are left. The last release retires the item or puts it into a private
/// bag, as `A` says.
pub fn release_home<T, H: Holding<T>, A: Aim>(
    place: Place<T, H>,
    seat: &mut Seat<T>,
    number: usize,
    slot: usize,
    owner: One<Stored<T>>,
) -> u64
    requires table { FitsSizes place seat.old × (number < place.sizes.now.participants) }
    requires ready { CanRelease number seat.old.me.0 }
    requires may { MayNote (A.to seat.old.me.0.known) seat.old.me.0.known }
    requires owner { IsFirst seat.old.me.0 slot owner.part.life.id × IsSome owner.part.seen.value }
    requires free { ¬ Lends seat.old.me.0.leases slot }
    ensures seat { (seat.new.table_id ≡ seat.old.table_id) × (seat.new.id ≡ seat.old.id) }
    ensures low { slot < place.entry.sizes.now.slots }
    ensures bag_room { length seat.old.me.0.collected < place.entry.sizes.now.slots }
    ensures released { HasReleased A.to slot result seat.old.me seat.old.me.0.leases seat.new.me }
{
    cells::begin_release(place.words, seat);
    let home = home_of(number, place.sizes.slots, slot);
    let (mut own, count) = parts_of::<T, H>(place.words.exchange(seat, home, Home::Blank));
    own.join(owner.into_part());
    let_go(place.words.exchange(seat, home, Home::Part(own, count + 1)));
    cells::end_release::<T, H, A>(place, seat, slot)
}

/// The same where the item is leased: the owner's part is joined to those of its row, which is `at`.
fn release_leased<T, H: Holding<T>, A: Aim>(
    place: Place<T, H>,
    seat: &mut Seat<T>,
    rows: &mut VecDeque<Row<T>>,
    at: usize,
    slot: usize,
    owner: One<Stored<T>>,
) -> u64
    requires table { FitsSizes place seat.old }
    requires ready { CanStep seat.old.me.0 }
    requires may { MayNote (A.to seat.old.me.0.known) seat.old.me.0.known }
    requires owner { IsFirst seat.old.me.0 slot owner.part.life.id × IsSome owner.part.seen.value }
    requires rows { AreRowsOf place.sizes.now.slots seat.old.me.0.leases rows.old.items }
    requires row { (at < deque_len rows.old) × ((d : Row T) → (slice_index_or rows.old.items at d).slot ≡ slot) }
    ensures seat { (seat.new.table_id ≡ seat.old.table_id) × (seat.new.id ≡ seat.old.id) }
    ensures low { slot < place.entry.sizes.now.slots }
    ensures bag_room { length seat.old.me.0.collected < place.entry.sizes.now.slots }
    ensures released { HasReleasedOne A.to slot result seat.old.me seat.new.me }
    ensures rows { StayRowsOf seat.old.me.0.leases rows.old.items seat.new.me.0.leases rows.new.items }
    ensures same { (deque_capacity rows.new ≡ deque_capacity rows.old) × (row_slots rows.new.items ≡ row_slots rows.old.items) }
{
    let left = cells::release_owner::<T, H, A>(place, seat, slot);
    match rows.get_mut(at) {
        Some(row) => row.take_in(owner),
        None => unreachable!(),
    }
    left
}

/// Releases the owner that is in hand, whose item is in `slot`: its part is joined to those of participant `number`.
/// Answers how many owners are left. The last release retires the item or puts it into a private bag, as `A` says.
pub fn release<T, H: Holding<T>, A: Aim>(
    place: Place<T, H>,
    seat: &mut Seat<T>,
    number: usize,
    rows: &mut VecDeque<Row<T>>,
    slot: usize,
    owner: One<Stored<T>>,
) -> u64
    requires table { FitsSizes place seat.old × (number < place.sizes.now.participants) }
    requires ready { CanRelease number seat.old.me.0 }
    requires may { MayNote (A.to seat.old.me.0.known) seat.old.me.0.known }
    requires owner { IsFirst seat.old.me.0 slot owner.part.life.id × IsSome owner.part.seen.value }
    requires rows { AreRowsOf place.sizes.now.slots seat.old.me.0.leases rows.old.items }
    ensures seat { (seat.new.table_id ≡ seat.old.table_id) × (seat.new.id ≡ seat.old.id) }
    ensures low { slot < place.entry.sizes.now.slots }
    ensures bag_room { length seat.old.me.0.collected < place.entry.sizes.now.slots }
    ensures released { HasReleasedOne A.to slot result seat.old.me seat.new.me }
    ensures rows { StayRowsOf seat.old.me.0.leases rows.old.items seat.new.me.0.leases rows.new.items }
    ensures same { (deque_capacity rows.new ≡ deque_capacity rows.old) × (row_slots rows.new.items ≡ row_slots rows.old.items) }
{
    match row_of(rows, slot) {
        Some(at) => release_leased::<T, H, A>(place, seat, rows, at, slot, owner),
        None => release_home::<T, H, A>(place, seat, number, slot, owner),
    }
}

/// Makes one more owner of the item that is leased in `slot`, with one of the `parts` of the lease: it is first in hand
/// then. Whether it did: not with the only part, and not where the item has `2^32 - 1` owners. It tries again where
/// others were faster.
fn raise_owners<T, H: Holding<T>>(
    place: Place<T, H>,
    seat: &mut Seat<T>,
    slot: usize,
    parts: u64,
) -> bool
    requires table { FitsSizes place seat.old × (slot < place.sizes.now.slots) }
    requires ready { (seat.old.me.0.kind ≡ of_participant) × (is_ready seat.old.me.0.known ≡ true) }
    requires leased { (l : Lease) × Has seat.old.me.0.leases l × (l.slot ≡ slot) × (l.count ≡ parts) }
    ensures seat { (seat.new.table_id ≡ seat.old.table_id) × (seat.new.id ≡ seat.old.id) }
    ensures many { IsTrue result → 1 < parts }
    ensures raised { IsTrue result → ClonesAt slot seat.old.me seat.new.me }
    ensures refused { IsFalse result → seat.new.me ≡ seat.old.me }
    ensures alike { IsTrue result → (l : Lease) → Has seat.old.me.0.leases l → l.slot ≡ slot → Apart seat.old.me.0.leases × IsAlike l seat.old.me.0 }
{
    if parts < 2 {
        return false;
    }
    for _ in 0..TRIES {
        let word = place.words.peek(owners_word(place.sizes, slot));
        if word <= NO_OWNER || word > MANY_OWNERS {
            return false;
        }
        if cells::clone_owner(place, seat, slot, word - NO_OWNER) {
            return true;
        }
    }
    false
}

/// Gives the home back that `begin_release` took out and that was emptied since, with these parts. The owners in hand
/// stay.
fn put_back<T, H: Holding<T>>(words: &Words<T, H>, seat: &mut Seat<T>, home: usize, parts: Home<T>)
    requires table { (seat.old.table_id ≡ words.now.table_id) × (0 < words.now.table_id.words) × (seat.old.me.0.kind ≡ of_participant) }
    requires out { CanPutBack (IsIn H.holds) seat.old.me home parts }
    ensures seat { (seat.new.table_id ≡ seat.old.table_id) × (seat.new.id ≡ seat.old.id) }
    ensures kept { PutsBack (IsIn H.holds) seat.old.me home parts seat.new.me }
{
    let_go(words.exchange(seat, home, parts));
    cells::keep_home(words, seat);
}

/// Makes one more owner of the item of the first owner in hand, which is in `slot` and isn't leased, with one of the
/// parts of participant `number`: that part is the answer, and both owners are in hand then.
fn clone_home<T, H: Holding<T>>(
    place: Place<T, H>,
    seat: &mut Seat<T>,
    number: usize,
    slot: usize,
) -> Option<One<Stored<T>>>
    requires table { FitsSizes place seat.old × (number < place.sizes.now.participants) }
    requires ready { CanRelease number seat.old.me.0 }
    requires owner { (o : Owner) × (os : List Owner) × (seat.old.me.0.hand ≡ o ∷ os) × (o.slot ≡ slot) }
    requires free { ¬ Lends seat.old.me.0.leases slot }
    ensures seat { (seat.new.table_id ≡ seat.old.table_id) × (seat.new.id ≡ seat.old.id) }
    ensures cloned { IfSome result (λ p. HasClonedOne seat.old.me p.part.life.id seat.new.me) }
    ensures refused { IfNone result (seat.new.me ≡ seat.old.me) }
    ensures leases { seat.new.me.0.leases ≡ seat.old.me.0.leases }
{
    cells::begin_release(place.words, seat);
    let home = home_of(number, place.sizes.slots, slot);
    let (mut own, count) = parts_of::<T, H>(place.words.exchange(seat, home, Home::Blank));
    if raise_owners(place, seat, slot, count) {
        let one = own.split_one();
        put_back(place.words, seat, home, Home::Part(own, count - 1));
        return Some(One::from_part(one));
    }
    put_back(place.words, seat, home, Home::Part(own, count));
    None
}

/// Makes one more owner of the item that is leased in `slot`, with one of the parts of its row, which is `at`: that part is
/// the answer, and the owner is first in hand then.
fn own_at<T, H: Holding<T>>(
    place: Place<T, H>,
    seat: &mut Seat<T>,
    rows: &mut VecDeque<Row<T>>,
    at: usize,
    slot: usize,
) -> Option<One<Stored<T>>>
    requires table { FitsSizes place seat.old }
    requires ready { (seat.old.me.0.kind ≡ of_participant) × (is_ready seat.old.me.0.known ≡ true) }
    requires rows { AreRowsOf place.sizes.now.slots seat.old.me.0.leases rows.old.items }
    requires row { (at < deque_len rows.old) × ((d : Row T) → (slice_index_or rows.old.items at d).slot ≡ slot) }
    ensures seat { (seat.new.table_id ≡ seat.old.table_id) × (seat.new.id ≡ seat.old.id) }
    ensures owned { IfSome result (λ p. HasOwned slot p.part.life.id seat.old.me seat.new.me) }
    ensures there { IfSome result (λ p. IsSome p.part.seen.value × (slot < place.entry.sizes.now.slots)) }
    ensures refused { IfNone result (seat.new.me ≡ seat.old.me) }
    ensures rows { StayRowsOf seat.old.me.0.leases rows.old.items seat.new.me.0.leases rows.new.items }
    ensures same { (deque_capacity rows.new ≡ deque_capacity rows.old) × (row_slots rows.new.items ≡ row_slots rows.old.items) }
{
    let parts = rows[at].count;
    if !raise_owners(place, seat, slot, parts) {
        return None;
    }
    match rows.get_mut(at) {
        Some(row) => Some(row.give_one()),
        None => unreachable!(),
    }
}

/// The same of any slot: none, too, where no item is leased in it.
pub fn own_leased<T, H: Holding<T>>(
    place: Place<T, H>,
    seat: &mut Seat<T>,
    rows: &mut VecDeque<Row<T>>,
    slot: usize,
) -> Option<One<Stored<T>>>
    requires table { FitsSizes place seat.old }
    requires ready { (seat.old.me.0.kind ≡ of_participant) × (is_ready seat.old.me.0.known ≡ true) }
    requires rows { AreRowsOf place.sizes.now.slots seat.old.me.0.leases rows.old.items }
    ensures seat { (seat.new.table_id ≡ seat.old.table_id) × (seat.new.id ≡ seat.old.id) }
    ensures owned { IfSome result (λ p. HasOwned slot p.part.life.id seat.old.me seat.new.me) }
    ensures there { IfSome result (λ p. IsSome p.part.seen.value × (slot < place.entry.sizes.now.slots)) }
    ensures refused { IfNone result (seat.new.me ≡ seat.old.me) }
    ensures rows { StayRowsOf seat.old.me.0.leases rows.old.items seat.new.me.0.leases rows.new.items }
    ensures same { (deque_capacity rows.new ≡ deque_capacity rows.old) × (row_slots rows.new.items ≡ row_slots rows.old.items) }
{
    own_at(place, seat, rows, row_of(rows, slot)?, slot)
}

/// Makes one more owner of the item of the first owner in hand, which is in `slot`, with one of the parts of participant
/// `number`: that part is the answer, and both owners are in hand then.
fn clone_by_row<T, H: Holding<T>>(
    place: Place<T, H>,
    seat: &mut Seat<T>,
    number: usize,
    rows: &mut VecDeque<Row<T>>,
    slot: usize,
) -> Option<One<Stored<T>>>
    requires table { FitsSizes place seat.old × (number < place.sizes.now.participants) }
    requires ready { CanRelease number seat.old.me.0 }
    requires owner { (o : Owner) × (os : List Owner) × (seat.old.me.0.hand ≡ o ∷ os) × (o.slot ≡ slot) }
    requires rows { AreRowsOf place.sizes.now.slots seat.old.me.0.leases rows.old.items }
    ensures seat { (seat.new.table_id ≡ seat.old.table_id) × (seat.new.id ≡ seat.old.id) }
    ensures cloned { IfSome result (λ p. HasClonedOne seat.old.me p.part.life.id seat.new.me) }
    ensures refused { IfNone result (seat.new.me ≡ seat.old.me) }
    ensures rows { StayRowsOf seat.old.me.0.leases rows.old.items seat.new.me.0.leases rows.new.items }
    ensures same { (deque_capacity rows.new ≡ deque_capacity rows.old) × (row_slots rows.new.items ≡ row_slots rows.old.items) }
{
    match row_of(rows, slot) {
        Some(at) => own_at(place, seat, rows, at, slot),
        None => clone_home(place, seat, number, slot),
    }
}

/// Makes one more owner of the item of the first owner in hand, which is in `slot`, with one of the parts of participant
/// `number`: that part is the answer, and both owners are in hand then. A refusal is a miss.
pub fn clone<T, H: Holding<T>>(
    place: Place<T, H>,
    seat: &mut Seat<T>,
    number: usize,
    rows: &mut VecDeque<Row<T>>,
    slot: usize,
    misses: &mut Tally,
) -> Option<One<Stored<T>>>
    requires table { FitsSizes place seat.old × (number < place.sizes.now.participants) }
    requires ready { CanRelease number seat.old.me.0 }
    requires owner { (o : Owner) × (os : List Owner) × (seat.old.me.0.hand ≡ o ∷ os) × (o.slot ≡ slot) }
    requires rows { AreRowsOf place.sizes.now.slots seat.old.me.0.leases rows.old.items }
    ensures seat { (seat.new.table_id ≡ seat.old.table_id) × (seat.new.id ≡ seat.old.id) }
    ensures cloned { IfSome result (λ p. HasClonedOne seat.old.me p.part.life.id seat.new.me) }
    ensures refused { IfNone result (seat.new.me ≡ seat.old.me) }
    ensures rows { StayRowsOf seat.old.me.0.leases rows.old.items seat.new.me.0.leases rows.new.items }
    ensures same { (deque_capacity rows.new ≡ deque_capacity rows.old) × (row_slots rows.new.items ≡ row_slots rows.old.items) }
    ensures hit { IfSome result (λ p. misses.new.count ≡ misses.old.count) }
    ensures missed { IfNone result (misses.new.count ≡ misses.old.count + 1) }
{
    match clone_by_row(place, seat, number, rows, slot) {
        Some(more) => Some(more),
        None => {
            misses.raise();
            None
        }
    }
}
