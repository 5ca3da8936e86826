//! Owners on their way into a link and out of it: steps that lists and containers are made of.

ghost use Rattle.std.specs.Prelude.{◌≡◌, ◌<◌, ℕ, IfSome};
ghost use Rattle.sdd_domain.specs.Cells.{cell_number};
ghost use Rattle.sdd_domain.specs.CellSteps.{HasExchanged, HasMadeSome, StepsOnNoCell};
ghost use Rattle.sdd_domain.specs.Comparing.{owner_code};
ghost use Rattle.sdd_domain.specs.Sharing.{kept_in};
ghost use Rattle.sdd_domain.specs.Tokens.{place_of, home_of, cell_count};
ghost use Rattle.shared_lists.specs.Lists.{IsStill};

use sdd_domain::atomic_shared::AtomicShared;
use sdd_domain::domain::Domain;
use sdd_domain::holds::Holds;
use sdd_domain::local::Local;
use sdd_domain::shared::Shared;
use sdd_plain::tag::Tag;

/// How often a call tries again: each time others were faster.
pub const TRIES: u64 = u64::MAX;

/// Releases an owner that there may be.
pub fn let_go<T: Holds>(domain: &Domain<T>, owner: Option<Shared<T>>, local: &mut Local<T>)
    requires home { home_of local.old ≡ place_of domain.now }
    requires mine { IfSome owner (λ s. kept_in s ≡ (place_of domain.now).0) }
    ensures same { IsStill local.old local.new }
    ensures cells { StepsOnNoCell local.old local.new }
{
    if let Some(owner) = owner {
        owner.release(domain, local);
    }
}

/// Has a link own what follows its item, or nothing; or a new stack its first item.
pub fn follow<T: Holds>(
    domain: &Domain<T>,
    link: &AtomicShared<T>,
    next: Option<Shared<T>>,
    local: &mut Local<T>,
)
    requires home { home_of local.old ≡ place_of domain.now }
    requires inside { cell_number link.now < cell_count domain.now }
    requires mine { IfSome next (λ s. kept_in s ≡ (place_of domain.now).0) }
    ensures same { IsStill local.old local.new }
    ensures put { (t : ℕ) × (k : ℕ) × HasExchanged local.old (cell_number link.now) t k 0 (owner_code next) local.new }
    ensures some { HasMadeSome local.old local.new }
{
    let (old, _) = link.swap(domain, (next, Tag::None), local);
    let_go(domain, old, local);
}
