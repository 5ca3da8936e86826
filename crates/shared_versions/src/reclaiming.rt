//! Reclaiming versions that nobody reads.

ghost use Rattle.std.specs.Prelude.{◌≡◌};
ghost use Rattle.sdd_domain.specs.CellSteps.{StepsOnNoCell};
ghost use Rattle.sdd_domain.specs.Tokens.{place_of, home_of, own_of, IsSame};

use sdd_domain::domain::Domain;
use sdd_domain::guard::Guard;
use sdd_domain::holds::Holds;
use sdd_domain::local::Local;

/// Opens and closes eight accelerated guards of a participant, which has none open: four reclaim the versions that it
/// retired and that nobody reads, and four more the segments that those held.
pub fn reclaim<T: Holds>(domain: &Domain<T>, local: &mut Local<T>)
    requires home { home_of local.old ≡ place_of domain.now }
    requires closed { (own_of local.old).nesting ≡ 0 }
    ensures closed { (own_of local.new).nesting ≡ 0 }
    ensures same { IsSame local.old local.new }
    ensures cells { StepsOnNoCell local.old local.new }
{
    for _turn in 0..8u32 {
        reclaim_once(domain, local);
    }
}

/// One of these eight rounds: it opens and closes one accelerated guard of a participant, which has none open.
pub fn reclaim_once<T: Holds>(domain: &Domain<T>, local: &mut Local<T>)
    requires home { home_of local.old ≡ place_of domain.now }
    requires closed { (own_of local.old).nesting ≡ 0 }
    ensures closed { (own_of local.new).nesting ≡ 0 }
    ensures same { IsSame local.old local.new }
    ensures cells { StepsOnNoCell local.old local.new }
{
    let Ok(guard) = Guard::new(domain, local) else {
        unreachable!();
    };
    guard.accelerate(local);
    guard.close(domain, local);
}
