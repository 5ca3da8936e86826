//! What waits in a place of many slots, and who reclaims what others left there.

ghost use Rattle.domain_tests.specs.Steps.{Rests, StillRests};

use crate::domain::{end, member};
use crate::guard::passes;
use sdd_domain::domain::Domain;
use sdd_domain::local::Local;
use sdd_domain::shared::Shared;
use sdd_plain::sizes::Sizes;

/// Places and releases this many items, as far as slots are free.
fn retire(domain: &Domain<u64>, local: &mut Local<u64>, items: u32)
    requires rests { Rests domain.now local.old }
    ensures rests { StillRests local.old local.new }
{
    for item in 0..items {
        if let Ok(owner) = Shared::new(domain, u64::from(item), local) {
            owner.release(domain, local);
        }
    }
}

/// How many slots are in use; and then behind three accelerated guards, and behind the fourth.
fn in_use(domain: &Domain<u64>, local: &mut Local<u64>) -> [usize; 3]
    requires rests { Rests domain.now local.old }
    ensures rests { StillRests local.old local.new }
{
    let before = domain.slots_in_use();
    passes(domain, local, true, 3);
    let third = domain.slots_in_use();
    passes(domain, local, true, 1);
    [before, third, domain.slots_in_use()]
}

/// Registers this many participants beside each other, each of which retires ten items; then they end.
fn leave(domain: &Domain<u64>, participants: u32) {
    if participants == 0 {
        return;
    }
    let Ok(mut local) = domain.register() else {
        return;
    };
    retire(domain, &mut local, 10);
    leave(domain, participants - 1);
    local.end(domain);
}

/// A thousand items that a participant retired are reclaimed as its fourth guard opens, and so are a thousand that were left
/// when one ended, whoever has the guards, and what 64 others left.
#[test]
fn all_slots_come_back_by_four_guards(rt: HostRuntime) {
    let sizes = Sizes {
        participants: 65,
        slots: 1000,
        cells: 0,
        jobs: 0,
    };
    let Ok(domain) = Domain::new(rt.alloc(), sizes) else {
        panic!(rt; "memory is there");
    };
    let mut local = member(&rt, &domain);
    retire(&domain, &mut local, 1000);
    let own = in_use(&domain, &mut local);
    retire(&domain, &mut local, 1000);
    local.end(&domain);
    let mut again = member(&rt, &domain);
    let left = in_use(&domain, &mut again);
    leave(&domain, 64);
    let others = in_use(&domain, &mut again);
    again.end(&domain);
    end(&rt, domain);
    assert_eq!(rt;
        [own, left, others],
        [[1000, 1000, 0], [1000, 1000, 0], [640, 640, 0]]
    );
}
