//! What a participant has leased under its open guards is returned to its home.

ghost use Rattle.std.specs.Prelude.{◌≡◌, ℕ, ◌+◌, ◌<◌, ◌++◌, ◌∷◌, [], map, length, drop, slice_index_or, IfSome, IfNone, IsSome};
ghost use Rattle.std.specs.VecDeque.{deque_capacity, deque_len};
ghost use Rattle.domain_table.specs.Outcomes.{RefillsAll, RefillsBehind};
ghost use Rattle.domain_table.specs.Fitting.{ActsAmong};
ghost use Rattle.domain_table.specs.Contents.{IsIn, blanks};
ghost use Rattle.domain_table.specs.Leases.{row_told, lease_told, leased_homes, HasCode, code_told, IsLifeOf};
ghost use Rattle.sdd_steps.specs.State.{Has};
ghost use Rattle.domain_table.specs.declared.row.Row.{Row};
ghost use Rattle.domain_table.specs.declared.board.Home.{Home};

use crate::board::{Home, Seat, Stored, Words};
use crate::holding::Holding;
use crate::homes::let_go;
use crate::layout::home_of;
use crate::row::Row;
use parted::{Ended, One, Seen};
use std::collections::VecDeque;

/// Which row is that of the item in `slot`, if it is leased.
pub(crate) fn row_of<T>(rows: &VecDeque<Row<T>>, slot: usize) -> Option<usize>
    ensures leased { IfSome result (λ at. (at < deque_len rows.now) × ((d : Row T) → (slice_index_or rows.now.items at d).slot ≡ slot)) }
    ensures free { IfNone result (¬ Has (map (λ (r : Row T). r.slot) rows.now.items) slot) }
{
    for at in 0..rows.len() {
        if rows[at].slot == slot {
            return Some(at);
        }
    }
    None
}

/// What a row's item is seen as.
fn seen_in<T>(rows: &VecDeque<Row<T>>, at: usize) -> Seen<Stored<T>>
    requires { at < deque_len rows.now }
    ensures there { IsSome result.value }
    ensures under { IsLifeOf rows.now.items result.life }
{
    rows[at].lent.see()
}

/// What a row's item is seen as, with the value that its owner is known to have: the owner's part is of the row's round.
pub fn seen_like<T>(rows: &VecDeque<Row<T>>, at: usize, owner: &One<Stored<T>>) -> Seen<Stored<T>>
    requires row { at < deque_len rows.now }
    requires round { (d : Row T) → (slice_index_or rows.now.items at d).lent.pledge.id ≡ owner.now.part.life.id }
    ensures like { result.value ≡ owner.now.part.seen.value }
    ensures under { IsLifeOf rows.now.items result.life }
{
    rows[at].lent.see_like(&owner.part)
}

/// The same of a row that there may be, with the item's slot.
pub fn seen_at<T>(rows: &VecDeque<Row<T>>, at: Option<usize>) -> Option<(usize, Seen<Stored<T>>)>
    requires { IfSome at (λ i. i < deque_len rows.now) }
    ensures there { IfSome result (λ t. IsSome t.1.value) }
    ensures code { (k : ℕ) → HasCode rows.now.items at k → code_told result ≡ k }
    ensures under { IfSome result (λ t. IsLifeOf rows.now.items t.1.life) }
{
    let at = at?;
    Some((rows[at].slot, seen_in(rows, at)))
}

/// Fills the homes of all leases, which are in front of what is out with the seat, and go behind the others.
fn refill<T, H: Holding<T>>(
    words: &Words<T, H>,
    seat: &mut Seat<T>,
    slots: usize,
    number: usize,
    rows: &mut VecDeque<Row<T>>,
    ended: &Ended,
)
    requires table { ActsAmong words.now.table_id seat.old.table_id seat.old.me.0 slots number }
    requires rows { map row_told rows.old.items ≡ map (lease_told ended.now.id) seat.old.me.0.leases }
    requires out { seat.old.me.1 ≡ blanks (leased_homes seat.old.me.0 seat.old.me.0.leases) ++ drop (length seat.old.me.0.leases) seat.old.me.1 }
    ensures seat { (seat.new.table_id ≡ seat.old.table_id) × (seat.new.id ≡ seat.old.id) }
    ensures filled { RefillsAll (IsIn H.holds) seat.old.me seat.new.me }
    ensures empty { (rows.new.items ≡ []) × (deque_capacity rows.new ≡ deque_capacity rows.old) }
{
    while let Some(row) = rows.pop_front() {
        let home = home_of(number, slots, row.slot);
        let count = row.count;
        let parts = row.into_parts(ended);
        let_go(words.exchange(seat, home, Home::Part(parts, count)));
        seat.turn();
    }
}

/// Gives the parts of all leases back to their homes, once the life that they were lent to is over. The homes are in front
/// of what is out with the seat then, and behind them the slot that was in front.
#[inline(never)]
fn give_rows<T, H: Holding<T>>(
    words: &Words<T, H>,
    seat: &mut Seat<T>,
    slots: usize,
    number: usize,
    rows: &mut VecDeque<Row<T>>,
    ended: &Ended,
)
    requires table { ActsAmong words.now.table_id seat.old.table_id seat.old.me.0 slots number }
    requires rows { map row_told rows.old.items ≡ map (lease_told ended.now.id) seat.old.me.0.leases }
    requires out { (k : ℕ) × (seat.old.me.1 ≡ blanks (k ∷ leased_homes seat.old.me.0 seat.old.me.0.leases)) }
    ensures seat { (seat.new.table_id ≡ seat.old.table_id) × (seat.new.id ≡ seat.old.id) }
    ensures filled { RefillsBehind (IsIn H.holds) seat.old.me seat.new.me }
    ensures empty { (rows.new.items ≡ []) × (deque_capacity rows.new ≡ deque_capacity rows.old) }
{
    seat.turn();
    refill(words, seat, slots, number, rows, ended);
    seat.turn();
}

/// The same, with a fast path if nothing is leased, as mostly when guards close.
#[inline(always)]
pub fn give_home<T, H: Holding<T>>(
    words: &Words<T, H>,
    seat: &mut Seat<T>,
    slots: usize,
    number: usize,
    rows: &mut VecDeque<Row<T>>,
    ended: &Ended,
)
    requires table { ActsAmong words.now.table_id seat.old.table_id seat.old.me.0 slots number }
    requires rows { map row_told rows.old.items ≡ map (lease_told ended.now.id) seat.old.me.0.leases }
    requires out { (k : ℕ) × (seat.old.me.1 ≡ blanks (k ∷ leased_homes seat.old.me.0 seat.old.me.0.leases)) }
    ensures seat { (seat.new.table_id ≡ seat.old.table_id) × (seat.new.id ≡ seat.old.id) }
    ensures filled { RefillsBehind (IsIn H.holds) seat.old.me seat.new.me }
    ensures empty { (rows.new.items ≡ []) × (deque_capacity rows.new ≡ deque_capacity rows.old) }
{
    if rows.is_empty() {
        return;
    }
    give_rows(words, seat, slots, number, rows, ended);
}
