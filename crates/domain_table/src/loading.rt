//! Loading a cell under an open guard: the item that it names is leased, so that the guard reads it.

ghost use Rattle.std.specs.Prelude.{◌≡◌, ℕ, ◌+◌, ◌-◌, ◌^◌, ◌<◌, ◌≤◌, ◌∷◌, List, slice_index_or, true, IfSome, IfNone};
ghost use Rattle.std.specs.VecDeque.{deque_capacity, deque_len};
ghost use Rattle.sdd_steps.specs.Steps.{is_inside};
ghost use Rattle.domain_table.specs.Outcomes.{KeepsOut};
ghost use Rattle.domain_table.specs.Contents.{is_blank};
ghost use Rattle.domain_table.specs.Fitting.{FitsSizes, FitsBoth};
ghost use Rattle.domain_table.specs.Layout.{packed, cell_word, IsSized};
ghost use Rattle.domain_table.specs.Leases.{leased_homes, row_slots, all_below, has_all, HasLeased, HasRows, KeepsRows, WasLeased, WasLoaded, HasCode, HasLeasedFound, IsRowOfFirst, NotesLeased, NotesLoaded};
ghost use Rattle.sdd_homes.specs.declared.Owner.{Owner};
ghost use Rattle.domain_table.specs.declared.board.Home.{Home};
ghost use Rattle.domain_table.specs.declared.row.Row.{Row};
ghost use Rattle.sdd_plain.specs.Epochs.{tag_number};
ghost use Rattle.domain_table.specs.Views.{of_participant};

use crate::board::{Home, Place, Seat};
use crate::cells;
use crate::holding::Holding;
use crate::homes::parts_of;
use crate::layout::{CODE, home_of};
use crate::leases::row_of;
use crate::row::Row;
use crate::tags::tag_in;
use parted::Life;
use sdd_plain::tag::Tag;
use std::collections::VecDeque;

/// The slot that a cell's word names, if it names one: one more than what the word has above the number of the spare slot and
/// the tag.
pub fn slot_named(word: u64) -> Option<usize>
    ensures some { IfSome result (λ k. (k < 2 ^ 31) × ((y t c : ℕ) → y < 2 ^ 31 → t < 4 → word ≡ packed y t c → c ≡ k + 1)) }
    ensures none { IfNone result ((y t c : ℕ) → y < 2 ^ 31 → t < 4 → word ≡ packed y t c → c ≡ 0) }
{
    let code = word / CODE;
    if code == 0 {
        None
    } else {
        Some(code as usize - 1)
    }
}

/// Adds the row of the item in `slot`, unless it has one: its parts were taken out of the home of participant `number` in the
/// step that loaded it. Which row that is.
fn note_slot<T, H: Holding<T>>(
    place: Place<T, H>,
    seat: &mut Seat<T>,
    number: usize,
    rows: &mut VecDeque<Row<T>>,
    life: &Life,
    slot: usize,
) -> usize
    requires table { (seat.old.table_id ≡ place.words.now.table_id) × IsSized place.sizes.now × (number < place.sizes.now.participants) }
    requires low { slot < 2 ^ 31 }
    requires rows { (all_below place.sizes.now.slots (row_slots rows.old.items) ≡ true) × (place.sizes.now.slots ≤ deque_capacity rows.old) }
    requires found { WasLeased H.holds slot number place.sizes.now life.now.id rows.old.items seat.old.me }
    ensures seat { (seat.new.table_id ≡ seat.old.table_id) × (seat.new.id ≡ seat.old.id) }
    ensures view { seat.new.me.0 ≡ seat.old.me.0 }
    ensures row { result < deque_len rows.new }
    ensures slot { (d : Row T) → (slice_index_or rows.new.items result d).slot ≡ slot }
    ensures noted { NotesLeased H.holds slot life.now.id rows.old.items seat.old.me seat.new.me }
    ensures rows { KeepsRows life.now.id place.entry.sizes.now.slots seat.new.me.0.leases rows.new.items (deque_capacity rows.old) (deque_capacity rows.new) }
{
    if let Some(at) = row_of(rows, slot) {
        return at;
    }
    let home = home_of(number, place.sizes.slots, slot);
    let (parts, count) = parts_of::<T, H>(place.words.exchange(seat, home, Home::Blank));
    seat.turn();
    rows.push_back_reserved(Row::new(slot, parts, count, life));
    rows.len() - 1
}

/// The same of the item that `word`, as it was found in a cell, names, if it names one.
pub fn note_found<T, H: Holding<T>>(
    place: Place<T, H>,
    seat: &mut Seat<T>,
    number: usize,
    rows: &mut VecDeque<Row<T>>,
    life: &Life,
    word: u64,
) -> Option<usize>
    requires table { (seat.old.table_id ≡ place.words.now.table_id) × IsSized place.sizes.now × (number < place.sizes.now.participants) }
    requires rows { (all_below place.sizes.now.slots (row_slots rows.old.items) ≡ true) × (place.sizes.now.slots ≤ deque_capacity rows.old) }
    requires found { WasLoaded H.holds word number place.sizes.now life.now.id rows.old.items seat.old.me }
    ensures seat { (seat.new.table_id ≡ seat.old.table_id) × (seat.new.id ≡ seat.old.id) }
    ensures row { IfSome result (λ at. at < deque_len rows.new) }
    ensures code { (y t c : ℕ) → y < 2 ^ 31 → t < 4 → word ≡ packed y t c → HasCode rows.new.items result c }
    ensures noted { NotesLoaded H.holds word life.now.id rows.old.items seat.old.me seat.new.me }
    ensures rows { KeepsRows life.now.id place.entry.sizes.now.slots seat.new.me.0.leases rows.new.items (deque_capacity rows.old) (deque_capacity rows.new) }
{
    let slot = slot_named(word)?;
    Some(note_slot(place, seat, number, rows, life, slot))
}

/// Loads the cell under the open guards of participant `number`, whose life this is. Which row is that of the item that
/// it names, if it names one, and the tag that was found with it.
pub fn lease<T, H: Holding<T>>(
    place: Place<T, H>,
    seat: &mut Seat<T>,
    number: usize,
    rows: &mut VecDeque<Row<T>>,
    life: &Life,
    cell: usize,
) -> (Option<usize>, Tag)
    requires table { FitsBoth place seat.old number cell }
    requires open { (seat.old.me.0.kind ≡ of_participant) × (seat.old.me.0.number ≡ number) × (is_inside seat.old.me.0.known ≡ true) }
    requires rows { HasRows life.now.id place.sizes.now.slots seat.old.me.0.leases rows.old.items (deque_capacity rows.old) }
    requires out { (k : ℕ) × (has_all is_blank (k ∷ leased_homes seat.old.me.0 seat.old.me.0.leases) seat.old.me.1 ≡ true) }
    ensures seat { (seat.new.table_id ≡ seat.old.table_id) × (seat.new.id ≡ seat.old.id) }
    ensures row { IfSome result.0 (λ at. at < deque_len rows.new) }
    ensures loaded { HasLeasedFound (cell_word place.entry.sizes.now cell) (tag_number result.1) rows.new.items result.0 seat.old.me seat.new.me }
    ensures rows { KeepsRows life.now.id place.entry.sizes.now.slots seat.new.me.0.leases rows.new.items (deque_capacity rows.old) (deque_capacity rows.new) }
    ensures out { KeepsOut seat.old.me seat.new.me }
{
    let word = cells::load(place.words, seat, place.sizes.participants, cell);
    let at = note_found(place, seat, number, rows, life, word);
    (at, tag_in(word))
}

/// Loads the item in `slot` under the open guards of participant `number`, whose life this is, by its owner, which is first
/// in hand. Which row is that of the item: its parts are of the owner's round.
pub fn lease_own<T, H: Holding<T>>(
    place: Place<T, H>,
    seat: &mut Seat<T>,
    number: usize,
    rows: &mut VecDeque<Row<T>>,
    life: &Life,
    slot: usize,
) -> usize
    requires table { FitsSizes place seat.old × (number < place.sizes.now.participants) }
    requires open { (seat.old.me.0.kind ≡ of_participant) × (seat.old.me.0.number ≡ number) × (is_inside seat.old.me.0.known ≡ true) }
    requires owner { (o : Owner) × (os : List Owner) × (seat.old.me.0.hand ≡ o ∷ os) × (o.slot ≡ slot) × (slot < 2 ^ 31) }
    requires rows { HasRows life.now.id place.sizes.now.slots seat.old.me.0.leases rows.old.items (deque_capacity rows.old) }
    ensures seat { (seat.new.table_id ≡ seat.old.table_id) × (seat.new.id ≡ seat.old.id) }
    ensures row { result < deque_len rows.new }
    ensures round { IsRowOfFirst seat.old.me.0 rows.new.items result }
    ensures loaded { HasLeased seat.old.me seat.new.me }
    ensures rows { KeepsRows life.now.id place.entry.sizes.now.slots seat.new.me.0.leases rows.new.items (deque_capacity rows.old) (deque_capacity rows.new) }
    ensures out { KeepsOut seat.old.me seat.new.me }
{
    cells::load_own(place.words, seat);
    note_slot(place, seat, number, rows, life, slot)
}
