//! Owners that are alone on their way into a private collector.

ghost use Rattle.std.specs.Prelude.{◌≡◌, ◌<◌, ◌||◌, nat_lt};
ghost use Rattle.sdd_domain.specs.Collecting.{collects_in, held_in, slot_in, HasCollected};
ghost use Rattle.sdd_domain.specs.Tokens.{place_of, home_of, own_of, born_of, waiting_of, nest_of, nest_in, IsInNest};
ghost use Rattle.shared_owned.specs.Alone.{place_in, owner_of};

use crate::owned::Owned;
use sdd_domain::domain::Domain;
use sdd_domain::guard::Guard;
use sdd_domain::holds::Holds;
use sdd_domain::local::Local;
use sdd_domain::private_collector::PrivateCollector;

/// Collects the item of an owner that is alone, behind what is reclaimed first, as `PrivateCollector::collect_shared` does
/// with the last of several: in Rust that is `collector.collect_owned(owned, &guard)`. It takes no memory. Whether the item
/// had no other owner, which is always so: that is no clause.
pub fn collect_owned<T: Holds>(
    domain: &Domain<T>,
    collector: PrivateCollector,
    owned: Owned<T>,
    guard: &Guard,
    local: &mut Local<T>,
) -> (PrivateCollector, bool)
    requires home { home_of local.old ≡ place_of domain.now }
    requires mine { place_in owned ≡ (place_of domain.now).0 }
    requires place { collects_in collector ≡ place_of domain.now }
    requires nest { nest_of guard.now ≡ nest_in local.old }
    requires open { 0 < (own_of local.old).nesting }
    ensures home { collects_in result.0 ≡ collects_in collector }
    ensures held { HasCollected (held_in collector) (slot_in (owner_of owned)) result.1 (held_in result.0) local.old }
    ensures own { own_of local.new ≡ record (own_of local.old) { garbage = (own_of local.old).garbage || nat_lt 0 (waiting_of local.new) } }
    ensures same { IsInNest local.old local.new × (born_of local.new ≡ born_of local.old) }
{
    let Owned { owner } = owned;
    collector.collect_shared(domain, owner, guard, local)
}
