//! Private collectors of a place that threads share.

ghost use Rattle.std.specs.Prelude.{◌≡◌};
ghost use Rattle.sdd_domain.specs.Collecting.{collects_in};
ghost use Rattle.sdd_domain.specs.Sharing.{kept_in};
ghost use Rattle.sdd_domain.specs.Tokens.{place_of};
ghost use Rattle.domain_tests.specs.Steps.{IsHome, Rests, StillRests, Stays, IsMine};

use crate::steps::Act::{
    Alternate, Clone, Collect, Gather, HandOver, Join, Passes, Place, Release, Second, Slots,
};
use crate::steps::Found::{Is, No, Nothing, Yes};
use crate::steps::Part::{Apart, Crowd, Renew, Under};
use crate::steps::View::{Beside, Do};
use crate::steps::{Table, Task};
use sdd_domain::domain::Domain;
use sdd_domain::guard::Guard;
use sdd_domain::local::Local;
use sdd_domain::private_collector::PrivateCollector;
use sdd_domain::shared::Shared;

/// Collects under a guard of its own, accelerated or not: whether the owner was the last one.
pub(crate) fn collected(
    domain: &Domain<u64>,
    local: &mut Local<u64>,
    collector: PrivateCollector,
    owner: Shared<u64>,
    accelerated: bool,
) -> (PrivateCollector, bool)
    requires rests { Rests domain.now local.old }
    requires mine { collects_in collector ≡ place_of domain.now }
    requires ours { kept_in owner ≡ (place_of domain.now).0 }
    ensures mine { collects_in result.0 ≡ place_of domain.now }
    ensures rests { StillRests local.old local.new }
{
    let Ok(guard) = Guard::new(domain, local) else {
        unreachable!();
    };
    if accelerated {
        guard.accelerate(local);
    }
    let both = collector.collect_shared(domain, owner, &guard, local);
    guard.close(domain, local);
    both
}

/// Hands a collector over, if there is one.
pub(crate) fn handed_over(
    domain: &Domain<u64>,
    local: &mut Local<u64>,
    collector: Option<PrivateCollector>,
)
    requires home { IsHome domain.now local.old }
    requires mine { IsMine domain.now collector }
    ensures stays { Stays local.old local.new }
{
    if let Some(collector) = collector {
        collector.hand_over(domain, local);
    }
}

/// This many items, where a slot is free, are collected by a participant of its own, and what is left is handed over: how many
/// were. None if no participant was free, or memory was refused.
pub(crate) fn collecting(domain: &Domain<u64>, items: u64) -> Option<u32> {
    let Ok(mut local) = domain.register() else {
        return None;
    };
    let Ok(mut collector) = PrivateCollector::new(domain) else {
        local.end(domain);
        return None;
    };
    let mut count: u32 = 0;
    for item in 0..items {
        if let Ok(owner) = Shared::new(domain, item, &mut local) {
            let (next, last) = collected(domain, &mut local, collector, owner, true);
            collector = next;
            count = count.saturating_add(u32::from(last));
        }
    }
    collector.hand_over(domain, &mut local);
    local.end(domain);
    Some(count)
}

/// The same of ten items, a hundred times.
pub(crate) fn handing_over(domain: &Domain<u64>) -> Option<u32> {
    let mut count: u32 = 0;
    for _turn in 0..100u32 {
        count = count.saturating_add(collecting(domain, 10)?);
    }
    Some(count)
}

pub(crate) const TABLES: &[Table] = &[
    // What was collected keeps its slot when its collector is handed over, until four accelerated guards have passed.
    Table {
        place: (1, 1, 0, 0),
        parts: &[Apart(&[
            (Gather, Yes),
            (Place(7), Nothing),
            (Collect(false), Yes),
            (HandOver, Nothing),
            (Place(8), Is(8)),
            (Passes(true, 3), Nothing),
            (Place(8), Is(8)),
            (Passes(true, 1), Nothing),
            (Place(8), Nothing),
            (Release, Yes),
        ])],
    },
    // A collect reclaims what was noted three counts before, and nothing that was noted two before. Guards reclaim nothing of it.
    Table {
        place: (1, 5, 0, 0),
        parts: &[Apart(&[
            (Gather, Yes),
            (Place(1), Nothing),
            (Collect(true), Yes),
            (Place(2), Nothing),
            (Collect(true), Yes),
            (Place(3), Nothing),
            (Collect(true), Yes),
            (Slots, Is(3)),
            (Place(4), Nothing),
            (Collect(false), Yes),
            (Slots, Is(3)),
            (Passes(true, 8), Nothing),
            (Slots, Is(3)),
            (Place(5), Nothing),
            (Collect(false), Yes),
            (Slots, Is(1)),
        ])],
    },
    // An owner that isn't the last one is given back, and nothing is collected.
    Table {
        place: (2, 2, 0, 0),
        parts: &[Apart(&[
            (Gather, Yes),
            (Place(1), Nothing),
            (Clone, Yes),
            (Collect(false), No),
            (Second, Nothing),
            (Collect(false), Yes),
            (Slots, Is(1)),
        ])],
    },
    // While an older guard is open, nothing that is collected is reclaimed.
    Table {
        place: (2, 8, 0, 0),
        parts: &[
            Apart(&[(Join, Is(1)), (Gather, Yes)]),
            Under(&[
                (Beside(Place(1)), Nothing),
                (Beside(Collect(true)), Yes),
                (Beside(Place(2)), Nothing),
                (Beside(Collect(true)), Yes),
                (Beside(Place(3)), Nothing),
                (Beside(Collect(true)), Yes),
                (Beside(Passes(true, 8)), Nothing),
                (Beside(Place(4)), Nothing),
                (Beside(Collect(true)), Yes),
                (Do(Slots), Is(4)),
            ]),
            Apart(&[
                (Passes(true, 3), Nothing),
                (Place(5), Nothing),
                (Collect(true), Yes),
                (Slots, Is(1)),
            ]),
        ],
    },
    // Another participant may take a collector over, and what an ended one had retired so is left to the next one.
    Table {
        place: (2, 2, 0, 0),
        parts: &[
            Apart(&[
                (Join, Is(1)),
                (Gather, Yes),
                (Place(1), Nothing),
                (Collect(true), Yes),
                (Alternate, Nothing),
                (HandOver, Nothing),
            ]),
            Renew,
            Apart(&[(Slots, Is(1)), (Passes(true, 4), Nothing), (Slots, Is(0))]),
        ],
    },
    // Two threads collect beside each other.
    Table {
        place: (3, 16, 0, 0),
        parts: &[
            Crowd([Task::Collects, Task::Collects, Task::Nothing, Task::Nothing]),
            Apart(&[(Join, Is(1)), (Passes(true, 4), Nothing)]),
            Renew,
            Apart(&[(Passes(true, 4), Nothing)]),
        ],
    },
    // Two threads collect and hand over again and again, while two others scan. Every slot is returned.
    Table {
        place: (5, 16, 0, 0),
        parts: &[
            Crowd([Task::HandsOver, Task::HandsOver, Task::Stays, Task::Stays]),
            Apart(&[(Passes(true, 4), Nothing), (Slots, Is(0))]),
        ],
    },
];
