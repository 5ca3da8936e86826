//! Collecting items apart from the bags of the participants.

ghost use Rattle.std.specs.Prelude.{◌≡◌, ◌+◌, ◌<◌, ◌∷◌, [], ◌||◌, length, nat_lt, IfOk, IsOk};
ghost use Rattle.domain_table.specs.Views.{gathering};
ghost use Rattle.domain_garbage.specs.Bag.{IsKept, bag_in};

use crate::domain::Domain;
use crate::guard::Guard;
use crate::holds::Holds;
use crate::local::Local;
use crate::reclaiming::sweep;
use crate::shared::Shared;
use domain_garbage::private::{
    Noted, NotedChain, flag_waiting, hand_all, new_bag, part_bag, put_in, take_bag,
};
use domain_table::board::Acting;
use domain_table::owners::take_in;
use parted::Calm;
use sdd_plain::sizes::Sizes;
use std::alloc::AllocError;

/// Items that wait beside the bags of the participants, each with the count of raises at which it was collected. It must be
/// consumed by `hand_over`: until then nobody else reclaims what is in it, and its place isn't closed.
pub struct PrivateCollector {
    pub(crate) sizes: Sizes,
    pub(crate) kept: NotedChain,
    pub(crate) calm: Calm<Acting>,
    ghost at: { calm.badge.views ≡ gathering (bag_in calm.badge.views) ∷ [] },
    ghost told: { IsKept sizes.slots (bag_in calm.badge.views) kept },
}

impl PrivateCollector {
    ghost use Rattle.sdd_domain.specs.CellSteps.{StepsOnNoCell};
    ghost use Rattle.sdd_domain.specs.Tokens.{place_of, home_of, own_of, born_of, waiting_of, nest_of, nest_in, IsInNest};
    ghost use Rattle.sdd_domain.specs.Sharing.{kept_in};
    ghost use Rattle.sdd_domain.specs.Collecting.{collects_in, held_in, slot_in, HasCollected};

    /// An empty collector. It takes no memory, so it never fails, and no item finds it full.
    pub fn new<T: Holds>(domain: &Domain<T>) -> Result<PrivateCollector, AllocError>
        ensures home { IfOk result (λ c. collects_in c ≡ place_of domain.now) }
        ensures empty { IfOk result (λ c. held_in c ≡ []) }
        ensures made { IsOk result }
    {
        let sizes = domain.sizes;
        let calm = new_bag(domain.words());
        Ok(PrivateCollector {
            sizes,
            kept: NotedChain::new(),
            calm,
        })
    }

    /// Reads the count of raises again, reclaims what was noted three or more below it, and then gives an owner back: in Rust
    /// that is `collect_shared(&mut self, ..)`. Whether it was the last one: then the item is in the collector, with that
    /// count as its note. What reclaimed items held is released, and may wait for the participant. It takes no memory.
    pub fn collect_shared<T: Holds>(
        self,
        domain: &Domain<T>,
        shared: Shared<T>,
        guard: &Guard,
        local: &mut Local<T>,
    ) -> (PrivateCollector, bool)
        requires home { home_of local.old ≡ place_of domain.now }
        requires mine { kept_in shared ≡ (place_of domain.now).0 }
        requires place { collects_in self ≡ place_of domain.now }
        requires nest { nest_of guard.now ≡ nest_in local.old }
        requires open { 0 < (own_of local.old).nesting }
        ensures home { collects_in result.0 ≡ collects_in self }
        ensures held { HasCollected (held_in self) (slot_in shared) result.1 (held_in result.0) local.old }
        ensures own { own_of local.new ≡ record (own_of local.old) { garbage = (own_of local.old).garbage || nat_lt 0 (waiting_of local.new) } }
        ensures same { IsInNest local.old local.new × (born_of local.new ≡ born_of local.old) }
        ensures cells { StepsOnNoCell local.old local.new }
    {
        let PrivateCollector {
            sizes,
            mut kept,
            calm,
        } = self;
        let Local {
            seat,
            number,
            own,
            bags,
            rows,
            ..
        } = local;
        let place = domain.place();
        take_bag(place.words, seat, calm);
        let note = sweep(place, seat, *number, rows, bags, &mut kept);
        let Shared { slot, part, calm } = shared;
        take_in(place.words, seat, calm);
        let owner = (Noted { slot, note }, part);
        let last = put_in(place, seat, *number, rows, &mut kept, owner);
        let calm = part_bag(place.words, seat);
        flag_waiting(own, bags);
        (PrivateCollector { sizes, kept, calm }, last)
    }

    /// Ends the collector: the participant has retired what was in it.
    pub fn hand_over<T: Holds>(self, domain: &Domain<T>, local: &mut Local<T>)
        requires home { home_of local.old ≡ place_of domain.now }
        requires place { collects_in self ≡ place_of domain.now }
        ensures waits { waiting_of local.new ≡ waiting_of local.old + length (held_in self) }
        ensures own { own_of local.new ≡ record (own_of local.old) { garbage = (own_of local.old).garbage || nat_lt 0 (waiting_of local.new) } }
        ensures same { IsInNest local.old local.new × (born_of local.new ≡ born_of local.old) }
        ensures cells { StepsOnNoCell local.old local.new }
    {
        let PrivateCollector {
            sizes: _,
            kept,
            calm,
        } = self;
        let Local {
            seat,
            own,
            bags,
            ..
        } = local;
        let place = domain.place();
        take_bag(place.words, seat, calm);
        hand_all(place, seat, kept, bags);
        flag_waiting(own, bags);
    }
}
