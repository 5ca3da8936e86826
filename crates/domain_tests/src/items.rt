//! Items of a place that threads share, and their owners.

ghost use Rattle.std.specs.Prelude.{◌≤◌};
ghost use Rattle.sdd_domain.specs.Layout.{IsSized};
ghost use Rattle.domain_tests.specs.Steps.{Rests, StillRests};

use crate::guard::pass;
use crate::hands::told;
use crate::steps::Act::{
    Alternate, Clone, Join, Leave, Own, Passes, Place, PlaceWith, Read, Release, Retire, Second,
    Slots, Sum, Swap, Third,
};
use crate::steps::Found::{Is, No, Nothing, Tagged, Yes};
use crate::steps::Part::{Apart, Crowd, Renew, Under};
use crate::steps::View::{Do, Item, Load};
use crate::steps::{Found, Table, Task};
use sdd_domain::domain::Domain;
use sdd_domain::local::Local;
use sdd_domain::shared::Shared;
use sdd_plain::sizes::Sizes;
use sdd_plain::tag::Tag;

/// The sizes of a place for this many participants and items.
pub(crate) fn sized(participants: u8, slots: u8) -> Sizes
    requires { 1 ≤ participants }
    ensures { IsSized result }
{
    Sizes {
        participants: usize::from(participants),
        slots: usize::from(slots),
        cells: 4,
        jobs: 0,
    }
}

/// Places an item, reads it and releases it where a slot is free, with an accelerated guard behind it: yes if it was read as it
/// was placed and had no other owner, and no if it was read as another one.
pub(crate) fn places(domain: &Domain<u64>, local: &mut Local<u64>, item: u64) -> Found
    requires rests { Rests domain.now local.old }
    ensures rests { StillRests local.old local.new }
{
    let mut found = Found::Nothing;
    if let Ok(owner) = Shared::new(domain, item, local) {
        let same = *owner.as_ref() == item;
        if owner.release(domain, local) || !same {
            found = told(same);
        }
    }
    let _ = pass(domain, local, true);
    found
}

pub(crate) const TABLES: &[Table] = &[
    // An item is read by its owner, beside others and after them.
    Table {
        place: (2, 3, 4, 0),
        parts: &[Apart(&[
            (Place(7), Nothing),
            (Second, Nothing),
            (Place(8), Nothing),
            (Read, Is(8)),
            (Second, Nothing),
            (Read, Is(7)),
            (Release, Yes),
            (Second, Nothing),
            (Read, Is(8)),
            (Release, Yes),
        ])],
    },
    // A slot is free again after four accelerated guards.
    Table {
        place: (1, 1, 4, 0),
        parts: &[Apart(&[
            (Place(1), Nothing),
            (Read, Is(1)),
            (Release, Yes),
            (Place(2), Is(2)),
            (Passes(true, 1), Nothing),
            (Place(3), Is(3)),
            (Passes(true, 1), Nothing),
            (Place(3), Is(3)),
            (Passes(true, 1), Nothing),
            (Place(3), Is(3)),
            (Passes(true, 1), Nothing),
            (Place(4), Nothing),
            (Read, Is(4)),
            (Release, Yes),
        ])],
    },
    // A full place gives the item back, and others stay as they are.
    Table {
        place: (2, 3, 4, 0),
        parts: &[Apart(&[
            (Place(1), Nothing),
            (Second, Nothing),
            (PlaceWith(2), Nothing),
            (Third, Nothing),
            (Place(3), Nothing),
            (Place(4), Is(4)),
            (PlaceWith(4), No),
            (Read, Is(3)),
            (Slots, Is(3)),
            (Second, Nothing),
            (Read, Is(1)),
            (Third, Nothing),
            (Read, Is(2)),
            (Third, Nothing),
            (Release, Yes),
            (Third, Nothing),
            (Release, Yes),
            (Second, Nothing),
            (Release, Yes),
        ])],
    },
    // What a participant left when it ended is taken over by another one, which was registered before.
    Table {
        place: (2, 1, 4, 0),
        parts: &[Apart(&[
            (Join, Is(1)),
            (Place(1), Nothing),
            (Release, Yes),
            (Alternate, Nothing),
            (Leave, Nothing),
            (Passes(true, 3), Nothing),
            (Place(2), Is(2)),
            (Passes(true, 1), Nothing),
            (Place(2), Nothing),
            (Release, Yes),
        ])],
    },
    // A participant ends twice before any closing scans: what it left both times is taken over by the other one together.
    Table {
        place: (2, 2, 4, 0),
        parts: &[Apart(&[
            (Join, Is(1)),
            (Alternate, Nothing),
            (Place(1), Nothing),
            (Release, Yes),
            (Alternate, Nothing),
            (Leave, Nothing),
            (Join, Is(1)),
            (Alternate, Nothing),
            (Place(2), Nothing),
            (Release, Yes),
            (Alternate, Nothing),
            (Leave, Nothing),
            (Slots, Is(2)),
            (Passes(true, 3), Nothing),
            (Slots, Is(2)),
            (Passes(true, 1), Nothing),
            (Slots, Is(0)),
        ])],
    },
    // What an ended participant left is taken over by the next one at the first closing that scans, with age 0, so the fourth opening
    // reclaims it.
    Table {
        place: (1, 2, 4, 0),
        parts: &[
            Apart(&[
                (Place(1), Nothing),
                (Second, Nothing),
                (Place(2), Nothing),
                (Second, Nothing),
                (Release, Yes),
                (Passes(true, 1), Nothing),
                (Second, Nothing),
                (Release, Yes),
            ]),
            Renew,
            Apart(&[
                (Passes(true, 2), Nothing),
                (Place(3), Is(3)),
                (Passes(true, 1), Nothing),
                (Place(3), Is(3)),
                (Passes(true, 1), Nothing),
                (Place(4), Nothing),
                (Second, Nothing),
                (Place(5), Nothing),
                (Second, Nothing),
                (Read, Is(4)),
                (Second, Nothing),
                (Read, Is(5)),
                (Release, Yes),
                (Second, Nothing),
                (Release, Yes),
            ]),
        ],
    },
    // A thousand items go through sixteen slots.
    Table {
        place: (1, 16, 4, 0),
        parts: &[
            Crowd([Task::Places(5), Task::Nothing, Task::Nothing, Task::Nothing]),
            Apart(&[(Sum, Is(1000))]),
        ],
    },
    // Four threads place and release beside each other. While a thread that has a guard open doesn't run, nothing is reclaimed,
    // and others may find each slot taken.
    Table {
        place: (4, 64, 4, 0),
        parts: &[Crowd([
            Task::Places(0),
            Task::Places(10_000),
            Task::Places(20_000),
            Task::Places(30_000),
        ])],
    },
    // What an owner lends is read by threads, and released by anybody.
    Table {
        place: (2, 2, 4, 0),
        parts: &[
            Apart(&[(Join, Is(1)), (Place(9), Nothing)]),
            Crowd([Task::Reads(9), Task::Reads(9), Task::Nothing, Task::Nothing]),
            Apart(&[(Sum, Is(2)), (Alternate, Nothing), (Release, Yes)]),
        ],
    },
    // Only the last of two owners is the last, in both orders; each reads the item.
    Table {
        place: (2, 2, 4, 0),
        parts: &[Apart(&[
            (Place(47), Nothing),
            (Clone, Yes),
            (Read, Is(47)),
            (Second, Nothing),
            (Read, Is(47)),
            (Release, No),
            (Second, Nothing),
            (Read, Is(47)),
            (Release, Yes),
            (Place(8), Nothing),
            (Clone, Yes),
            (Second, Nothing),
            (Read, Is(8)),
            (Second, Nothing),
            (Read, Is(8)),
            (Release, No),
            (Second, Nothing),
            (Read, Is(8)),
            (Release, Yes),
        ])],
    },
    // An item stays while one of two owners is out.
    Table {
        place: (1, 1, 4, 0),
        parts: &[Apart(&[
            (Place(5), Nothing),
            (Clone, Yes),
            (Second, Nothing),
            (Release, No),
            (Passes(true, 1), Nothing),
            (Place(6), Is(6)),
            (Passes(true, 1), Nothing),
            (Place(6), Is(6)),
            (Passes(true, 1), Nothing),
            (Place(6), Is(6)),
            (Passes(true, 1), Nothing),
            (Place(6), Is(6)),
            (Passes(true, 1), Nothing),
            (Place(6), Is(6)),
            (Passes(true, 1), Nothing),
            (Place(6), Is(6)),
            (Second, Nothing),
            (Read, Is(5)),
            (Release, Yes),
        ])],
    },
    // An owner is cloned, and both are released, under the guard that loaded its item.
    Table {
        place: (1, 1, 4, 0),
        parts: &[
            Apart(&[(Place(5), Nothing), (Own, Yes)]),
            Under(&[
                (Load, Is(5)),
                (Do(Swap(Tag::None)), Tagged(Tag::None)),
                (Do(Clone), Yes),
                (Do(Read), Is(5)),
                (Do(Second), Nothing),
                (Do(Read), Is(5)),
                (Do(Release), No),
                (Do(Second), Nothing),
                (Do(Release), Yes),
                (Item, Is(5)),
            ]),
            Apart(&[(Retire, No)]),
        ],
    },
];
