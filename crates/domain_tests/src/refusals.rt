//! Runs in which any one allocation may be refused. A script has each refused in turn: whatever is refused, nothing was
//! kept, and the same call then succeeds.

ghost use Rattle.std.specs.Prelude.{◌≡◌};
ghost use Rattle.sdd_domain.specs.Collecting.{collects_in};
ghost use Rattle.sdd_domain.specs.Tokens.{place_of};
ghost use Rattle.domain_tests.specs.Steps.{Rests};

use crate::collectors::collected;
use crate::domain::{end, member};
use crate::guard::pass;
use crate::items::sized;
use sdd_domain::domain::Domain;
use sdd_domain::local::Local;
use sdd_domain::private_collector::PrivateCollector;
use sdd_domain::refusal::RegisterRefused;
use sdd_domain::shared::Shared;
use std::alloc::{AllocError, Global};
use std::process::Abort;

/// A participant, registered at once or, where memory was refused, by a second try; and whether it was refused.
fn registered<R: Abort>(rt: &R, domain: &Domain<u64>) -> (Local<u64>, bool)
    ensures { Rests domain.now result.0 }
{
    match domain.register() {
        Ok(local) => (local, false),
        Err(RegisterRefused::Memory) => (member(rt, domain), true),
        Err(RegisterRefused::Full) => panic!(rt; "a participant is free"),
    }
}

/// A private collector, made at once or, where memory was refused, by a second try; and whether it was refused.
fn collector<R: Abort>(rt: &R, domain: &Domain<u64>) -> (PrivateCollector, bool)
    ensures { collects_in result.0 ≡ place_of domain.now }
{
    match PrivateCollector::new(domain) {
        Ok(collector) => (collector, false),
        Err(AllocError) => (
            PrivateCollector::new(domain).expect(rt, "memory was refused twice"),
            true,
        ),
    }
}

/// Whether an allocation was refused while a place was made, a participant registered, and a private collector made. Placing
/// an item, reading, collecting and reclaiming it take no memory.
fn makes_and_ends<R: Abort>(rt: &R, alloc: Global) -> bool {
    let (domain, met) = match Domain::new(alloc, sized(3, 2)) {
        Ok(domain) => (domain, false),
        Err(AllocError) => (
            Domain::new(alloc, sized(3, 2)).expect(rt, "memory was refused twice"),
            true,
        ),
    };
    let (mut local, again) = registered(rt, &domain);
    let (collector, third) = collector(rt, &domain);
    let Ok(owner) = Shared::new(&domain, 7, &mut local) else {
        panic!(rt; "a slot is free");
    };
    let item = *owner.as_ref();
    let (collector, last) = collected(&domain, &mut local, collector, owner, false);
    collector.hand_over(&domain, &mut local);
    let first = pass(&domain, &mut local, true);
    let second = pass(&domain, &mut local, true);
    local.end(&domain);
    end(rt, domain);
    assert!(rt; last && (item, first, second) == (7, 0, 1));
    met || again || third
}

/// Whether an allocation was refused while a place was made whose count of raises begins at 62, which its first guard sees.
fn begins_late<R: Abort>(rt: &R, alloc: Global) -> bool {
    let (domain, met) = match Domain::with_count(alloc, sized(1, 1), 62) {
        Ok(domain) => (domain, false),
        Err(AllocError) => (
            Domain::with_count(alloc, sized(1, 1), 62).expect(rt, "memory was refused twice"),
            true,
        ),
    };
    let (mut local, again) = registered(rt, &domain);
    let seen = pass(&domain, &mut local, true);
    local.end(&domain);
    end(rt, domain);
    assert!(rt; seen == 62);
    met || again
}

#[test]
fn a_refusal_of_memory_leaves_no_place(rt: HostRuntime) {
    let _met = makes_and_ends(&rt, rt.alloc());
    let _met = begins_late(&rt, rt.alloc());
}

#[test]
fn no_memory_is_refused(rt: HostRuntime) {
    assert!(rt; !makes_and_ends(&rt, rt.alloc()) && !begins_late(&rt, rt.alloc()));
}
