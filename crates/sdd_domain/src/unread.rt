//! What a participant retired is reclaimed at once, where no other one has a guard open.

ghost use Rattle.std.specs.Prelude.{◌≡◌, [], None, ◌<◌};
ghost use Rattle.domain_table.specs.Fitting.{FitsNumber};
ghost use Rattle.domain_table.specs.Ledgers.{WaitsIn};
ghost use Rattle.domain_table.specs.Readiness.{IsIdle};
ghost use Rattle.sdd_domain.specs.Openings.{CanPublishFound, HasOpened};

use crate::board::Place;
use crate::domain::Domain;
use crate::holds::Holds;
use crate::local::{Local, turn};
use crate::reclaiming::reclaim_due;
use domain_table::bags::Bags;
use domain_table::board::Seat;
use domain_table::settling::settle;
use domain_table::{cells, steps};
use sdd_plain::local_state::LocalState;

/// Publishes the count that was read, where all that waits is due, and reclaims it.
fn reclaim_settled<T: Holds>(
    place: Place<T>,
    seat: &mut Seat<T>,
    number: usize,
    bags: &mut Bags,
    epoch: u64,
)
    requires table { FitsNumber place seat.old number }
    requires read { CanPublishFound number epoch seat.old.me.0 }
    requires rest { (seat.old.me.0.releasing ≡ 0) × (seat.old.me.0.leases ≡ []) × (seat.old.me.0.filling ≡ None) }
    requires waits { WaitsIn place.sizes.now.slots seat.old.me.0.waits bags.old }
    ensures seat { (seat.new.table_id ≡ seat.old.table_id) × (seat.new.id ≡ seat.old.id) }
    ensures reclaimed { HasOpened epoch seat.old.me seat.new.me }
    ensures waits { WaitsIn place.entry.sizes.now.slots seat.new.me.0.waits bags.new × (bags.new.due ≡ None) }
{
    steps::publish(place.words, seat, number, epoch);
    reclaim_due(place, seat, number, bags);
}

/// Opens a guard, and reclaims all that waits, where no other participant has one open; else what is due: the count that
/// it published.
fn open_and_reclaim<T: Holds>(
    place: Place<T>,
    seat: &mut Seat<T>,
    number: usize,
    own: &mut LocalState,
    bags: &mut Bags,
) -> u64
    requires table { FitsNumber place seat.old number }
    requires shut { IsIdle number seat.old.me.0 }
    requires rest { (seat.old.me.0.releasing ≡ 0) × (seat.old.me.0.leases ≡ []) × (seat.old.me.0.filling ≡ None) }
    requires found { (seat.old.me.0.known.found ≡ own.old.previous) × (own.old.published ≡ own.old.previous) }
    requires waits { WaitsIn place.sizes.now.slots seat.old.me.0.waits bags.old × (bags.old.due ≡ None) }
    ensures seat { (seat.new.table_id ≡ seat.old.table_id) × (seat.new.id ≡ seat.old.id) }
    ensures reclaimed { HasOpened result seat.old.me seat.new.me }
    ensures waits { WaitsIn place.entry.sizes.now.slots seat.new.me.0.waits bags.new × (bags.new.due ≡ None) }
    ensures own { (own.new.published ≡ result) × (own.new.previous ≡ result) × (own.new.nesting ≡ own.old.nesting) }
{
    let epoch = steps::read_count(place.words, seat);
    if settle(place, seat, number, bags, epoch) {
        reclaim_settled(place, seat, number, bags, epoch);
        own.garbage = bags.has_some();
        own.published = epoch;
        own.previous = epoch;
        return epoch;
    }
    steps::publish(place.words, seat, number, epoch);
    turn(place, seat, number, own, bags, epoch);
    epoch
}

impl<T: Holds> Local<T> {
    ghost use Rattle.sdd_domain.specs.Tokens.{place_of, home_of, own_of, IsSame};

    /// Reclaims all that the participant retired, where no other one has a guard open, whatever the count; else what is due.
    /// What the items held waits, where it was the last owner.
    pub(crate) fn reclaim_all(&mut self, domain: &Domain<T>)
        requires home { home_of self.old ≡ place_of domain.now }
        requires closed { (own_of self.old).nesting ≡ 0 }
        ensures same { IsSame self.old self.new }
        ensures closed { (own_of self.new).nesting ≡ 0 }
    {
        let Local {
            seat,
            number,
            own,
            bags,
            ..
        } = self;
        let place = domain.place();
        let epoch = open_and_reclaim(place, seat, *number, own, bags);
        cells::close(place.words, seat, *number, epoch);
    }
}
