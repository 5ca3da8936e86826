//! What a reclaimed item held is released, and what is due is reclaimed: of what a participant retired, and of what is in a
//! private bag.

ghost use Rattle.std.specs.Prelude.{◌≡◌, ℕ, ◌+◌, ◌<◌, ◌≤◌, ◌++◌, List, Some, None, map};
ghost use Rattle.std.specs.VecDeque.{deque_capacity};
ghost use Rattle.sdd_steps.specs.State.{Has};
ghost use Rattle.sdd_homes.specs.declared.Garbage.{Garbage};
ghost use Rattle.sdd_homes.specs.declared.Owner.{Owner};
ghost use Rattle.domain_table.specs.Bags.{aged};
ghost use Rattle.domain_table.specs.Outcomes.{HasGivenUp};
ghost use Rattle.domain_table.specs.Ledgers.{WaitsIn};
ghost use Rattle.domain_table.specs.Fitting.{FitsSizes};
ghost use Rattle.domain_table.specs.Owners.{told};
ghost use Rattle.sdd_domain.specs.Holding.{told_of};
ghost use Rattle.domain_table.specs.Leases.{IsFirst, IsAtRest, AreRowsOf, StayInPlace};
ghost use Rattle.domain_garbage.specs.Bag.{IsKept};
ghost use Rattle.domain_table.specs.Readiness.{CanRelease};
ghost use Rattle.sdd_domain.specs.Collecting.{GivesUpUnder, IsSweptOf};
ghost use Rattle.sdd_domain.specs.Openings.{CanSweep, HasGivenUpOne, HasSwept};

use crate::board::{Place, Told};
use crate::held::Held;
use crate::holds::Holds;
use domain_garbage::private::{NotedChain, give_back, reread, take_due};
use domain_garbage::reclaiming::{reclaim, reclaim_noted};
use domain_table::aim::Retire;
use domain_table::bags::Bags;
use domain_table::board::Seat;
use domain_table::owners::release_home;
use domain_table::row::Row;
use std::collections::VecDeque;

/// Releases an owner that a reclaimed item held, which is first in hand: with the last one the participant has retired its
/// item.
fn release_held<T: Holds>(
    place: Place<T>,
    seat: &mut Seat<T>,
    number: usize,
    bags: &mut Bags,
    held: Held<T>,
)
    requires table { FitsSizes place seat.old × (number < place.sizes.now.participants) }
    requires ready { IsAtRest number seat.old.me.0 }
    requires owner { IsFirst seat.old.me.0 (told_of held).0 (told_of held).1 }
    requires waits { WaitsIn place.sizes.now.slots seat.old.me.0.waits bags.old }
    ensures seat { (seat.new.table_id ≡ seat.old.table_id) × (seat.new.id ≡ seat.old.id) }
    ensures released { HasGivenUpOne seat.old.me seat.new.me }
    ensures waits { WaitsIn place.entry.sizes.now.slots seat.new.me.0.waits bags.new }
    ensures bags { (bags.new.due ≡ bags.old.due) × (aged 3 seat.new.me.0.waits ≡ aged 3 seat.old.me.0.waits) }
{
    let Held { slot, part } = held;
    if release_home::<T, Told, Retire>(place, seat, number, slot, part) == 0 {
        bags.retire(place, seat, slot);
    }
}

/// Spends a reclaimed item, whose owners are the first in hand: each is released.
fn give_up<T: Holds>(place: Place<T>, seat: &mut Seat<T>, number: usize, bags: &mut Bags, item: T)
    requires table { FitsSizes place seat.old × (number < place.sizes.now.participants) }
    requires ready { IsAtRest number seat.old.me.0 }
    requires owners { (hs : List Owner) × (os : List Owner) × (T.holds item ≡ map told hs) × (seat.old.me.0.hand ≡ hs ++ os) }
    requires waits { WaitsIn place.sizes.now.slots seat.old.me.0.waits bags.old }
    ensures seat { (seat.new.table_id ≡ seat.old.table_id) × (seat.new.id ≡ seat.old.id) }
    ensures released { HasGivenUp T.holds item seat.old.me seat.new.me }
    ensures waits { WaitsIn place.entry.sizes.now.slots seat.new.me.0.waits bags.new }
    ensures bags { (bags.new.due ≡ bags.old.due) × (aged 3 seat.new.me.0.waits ≡ aged 3 seat.old.me.0.waits) }
{
    let mut item = item;
    while let Some(held) = item.give_up() {
        release_held(place, seat, number, bags, held);
    }
    item.end();
}

/// Reclaims all that is due, of what the participant retired, and releases what these items held. It is compiled into its
/// callers, which do little else.
#[inline(always)]
pub(crate) fn reclaim_due<T: Holds>(
    place: Place<T>,
    seat: &mut Seat<T>,
    number: usize,
    bags: &mut Bags,
)
    requires table { FitsSizes place seat.old × (number < place.sizes.now.participants) }
    requires ready { IsAtRest number seat.old.me.0 × (seat.old.me.0.filling ≡ None) }
    requires waits { WaitsIn place.sizes.now.slots seat.old.me.0.waits bags.old }
    ensures seat { (seat.new.table_id ≡ seat.old.table_id) × (seat.new.id ≡ seat.old.id) }
    ensures reclaimed { (k : ℕ) × (ws : List Garbage) × (seat.new.me ≡ (record seat.old.me.0 { slot = k; waits = ws }, seat.old.me.1)) }
    ensures waits { WaitsIn place.entry.sizes.now.slots seat.new.me.0.waits bags.new }
    ensures bags { bags.new.due ≡ None }
{
    while let Some(slot) = bags.take_due(place, seat) {
        let item = reclaim(place, seat, slot);
        give_up(place, seat, number, bags, item);
    }
}

/// Spends a reclaimed item, as `give_up` does, under open guards: what it held may be leased.
fn give_up_under<T: Holds>(
    place: Place<T>,
    seat: &mut Seat<T>,
    number: usize,
    rows: &mut VecDeque<Row<T>>,
    bags: &mut Bags,
    item: T,
)
    requires table { FitsSizes place seat.old × (number < place.sizes.now.participants) }
    requires ready { CanRelease number seat.old.me.0 }
    requires owners { (hs : List Owner) × (os : List Owner) × (T.holds item ≡ map told hs) × (seat.old.me.0.hand ≡ hs ++ os) }
    requires rows { AreRowsOf place.sizes.now.slots seat.old.me.0.leases rows.old.items }
    requires waits { WaitsIn place.sizes.now.slots seat.old.me.0.waits bags.old }
    ensures seat { (seat.new.table_id ≡ seat.old.table_id) × (seat.new.id ≡ seat.old.id) }
    ensures released { GivesUpUnder T.holds item seat.old.me seat.new.me }
    ensures rows { StayInPlace seat.old.me.0.leases rows.old.items (deque_capacity rows.old) seat.new.me.0.leases rows.new.items (deque_capacity rows.new) }
    ensures waits { WaitsIn place.entry.sizes.now.slots seat.new.me.0.waits bags.new × (bags.new.due ≡ bags.old.due) }
{
    let mut item = item;
    while let Some(held) = item.give_up() {
        let Held { slot, part } = held;
        give_back(place, seat, number, rows, bags, (slot, part));
    }
    item.end();
}

/// Reads the count again under the open guard, and reclaims what is in the private bag that is at the participant's seat, from
/// the longest there on, while its note lies three or more below that count, which is the answer. What these items held is
/// released.
pub(crate) fn sweep<T: Holds>(
    place: Place<T>,
    seat: &mut Seat<T>,
    number: usize,
    rows: &mut VecDeque<Row<T>>,
    bags: &mut Bags,
    kept: &mut NotedChain,
) -> u64
    requires table { FitsSizes place seat.old × (number < place.sizes.now.participants) }
    requires ready { CanSweep number seat.old.me.0 }
    requires rows { AreRowsOf place.sizes.now.slots seat.old.me.0.leases rows.old.items }
    requires waits { WaitsIn place.sizes.now.slots seat.old.me.0.waits bags.old }
    requires kept { IsKept place.sizes.now.slots seat.old.me.0.collected kept.old }
    ensures seat { (seat.new.table_id ≡ seat.old.table_id) × (seat.new.id ≡ seat.old.id) }
    ensures least { seat.old.me.0.born ≤ result }
    ensures most { result ≤ seat.old.me.0.born + 1 }
    ensures noted_most { (w : Garbage) → Has seat.old.me.0.collected w → w.age ≤ result }
    ensures swept { HasSwept result seat.old.me seat.new.me }
    ensures rows { StayInPlace seat.old.me.0.leases rows.old.items (deque_capacity rows.old) seat.new.me.0.leases rows.new.items (deque_capacity rows.new) }
    ensures waits { WaitsIn place.entry.sizes.now.slots seat.new.me.0.waits bags.new × (bags.new.due ≡ bags.old.due) }
    ensures kept { IsKept place.entry.sizes.now.slots seat.new.me.0.collected kept.new }
    ensures left { IsSweptOf result seat.old.me.0.collected seat.new.me.0.collected }
{
    let count = reread(place.words, seat);
    while let Some(slot) = take_due(place, seat, kept, count) {
        let item = reclaim_noted(place, seat, slot);
        give_up_under(place, seat, number, rows, bags, item);
    }
    count
}
