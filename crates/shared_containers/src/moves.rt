//! Owners on their way into a cell and out of it.

ghost use Rattle.std.specs.Prelude.{◌≡◌, ◌<◌, [], Some, IfOk, IfErr, IfNone, IfSome};
ghost use Rattle.sdd_domain.specs.Cells.{cell_number};
ghost use Rattle.sdd_domain.specs.CellSteps.{HasMadeSome, StepsOnNoCell};
ghost use Rattle.sdd_domain.specs.Sharing.{kept_in, IsOwnerOf};
ghost use Rattle.sdd_domain.specs.Tokens.{place_of, home_of, hand_of, cell_count};
ghost use Rattle.shared_containers.specs.Containers.{IsAsBefore, IsOpenIn, IsStill};
ghost use Rattle.shared_containers.specs.Outcomes.{IsBackIn, IsRefused};
ghost use Rattle.shared_containers.specs.Put.{HasPutFor};

use crate::outcome::PushRefused;
use sdd_domain::atomic_shared::AtomicShared;
use sdd_domain::domain::Domain;
use sdd_domain::guard::Guard;
use sdd_domain::holds::Holds;
use sdd_domain::local::Local;
use sdd_domain::pointer::Ptr;
use sdd_domain::shared::Shared;
use sdd_plain::tag::Tag;
use shared_lists::moves::let_go;

/// Replaces what was found in a cell by an item, in one step. Else it returns the item's owner.
pub(crate) fn exchange<T: Holds>(
    domain: &Domain<T>,
    cell: &AtomicShared<T>,
    found: Ptr<T>,
    owner: Shared<T>,
    guard: &Guard,
    local: &mut Local<T>,
) -> Option<Shared<T>>
    requires open { IsOpenIn guard.now local.old domain.now }
    requires inside { cell_number cell.now < cell_count domain.now }
    requires mine { kept_in owner ≡ (place_of domain.now).0 }
    ensures back { IfSome result (λ s. IsBackIn s owner (place_of domain.now).0) }
    ensures put { IfNone result (HasPutFor local.old (cell_number cell.now) found.entry owner local.new) }
    ensures some { HasMadeSome local.old local.new }
    ensures same { IsStill local.old local.new }
{
    match cell.compare_exchange(domain, found, (Some(owner), Tag::None), guard, local) {
        Ok((old, _)) => {
            let_go(domain, old, local);
            None
        }
        Err((back, _)) => back,
    }
}

/// Places a value that a container is to take in.
pub(crate) fn place<T: Holds>(
    domain: &Domain<T>,
    value: T,
    local: &mut Local<T>,
) -> Result<Shared<T>, PushRefused<T>>
    requires home { (home_of local.old ≡ place_of domain.now) × (hand_of local.old ≡ []) }
    requires holds { T.holds value ≡ [] }
    ensures owner { IfOk result (λ s. (kept_in s ≡ (place_of domain.now).0) × IsOwnerOf s value) }
    ensures refused { IfErr result (λ r. IsRefused r value (place_of domain.now).0 ⊥ ⊥) }
    ensures cells { StepsOnNoCell local.old local.new }
    ensures same { IsAsBefore local.old local.new }
{
    match Shared::new(domain, value, local) {
        Ok(owner) => Ok(owner),
        Err(value) => Err(PushRefused::NoSlot(value)),
    }
}
