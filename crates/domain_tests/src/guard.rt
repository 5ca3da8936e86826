//! Guards of one thread: counts, nesting, and the flag of garbage.

ghost use Rattle.domain_tests.specs.Steps.{Rests, StillRests};

use crate::hands::told;
use crate::steps::Act::{Alternate, Join, Leave, Pass, Passes, Place, Release, Slots};
use crate::steps::Found::{Is, No, Nothing, Yes};
use crate::steps::Part::{Apart, Renew, Under};
use crate::steps::View::{Beside, Epoch, HasGarbage, Nest, SetGarbage};
use crate::steps::{Found, Table};
use sdd_domain::domain::Domain;
use sdd_domain::guard::{Guard, deeper};
use sdd_domain::holds::Holds;
use sdd_domain::local::Local;

/// A guard, opened and closed one by one, accelerated or not: the epoch that it saw.
pub(crate) fn pass<T: Holds>(domain: &Domain<T>, local: &mut Local<T>, accelerated: bool) -> u8
    requires rests { Rests domain.now local.old }
    ensures rests { StillRests local.old local.new }
{
    let Ok(guard) = Guard::new(domain, local) else {
        unreachable!();
    };
    if accelerated {
        guard.accelerate(local);
    }
    let epoch = guard.epoch(domain, local);
    guard.close(domain, local);
    u8::from(epoch)
}

/// This many guards, opened and closed one by one, accelerated or not.
pub(crate) fn passes<T: Holds>(
    domain: &Domain<T>,
    local: &mut Local<T>,
    accelerated: bool,
    count: u8,
)
    requires rests { Rests domain.now local.old }
    ensures rests { StillRests local.old local.new }
{
    for _i in 0..count {
        let _ = pass(domain, local, accelerated);
    }
}

/// Two accelerated guards, opened and closed one by one: whether the second one saw the epoch behind that of the first.
pub(crate) fn raised(domain: &Domain<u64>, local: &mut Local<u64>) -> Found
    requires rests { Rests domain.now local.old }
    ensures rests { StillRests local.old local.new }
{
    let before = pass(domain, local, true);
    let after = pass(domain, local, true);
    told(u32::from(after) == (u32::from(before) + 1) % 64)
}

pub(crate) const TABLES: &[Table] = &[
    // Accelerated guards, one by one, each raise the count, whoever is registered.
    Table {
        place: (1, 0, 0, 0),
        parts: &[
            Apart(&[
                (Pass(true), Is(0)),
                (Pass(true), Is(1)),
                (Pass(true), Is(2)),
                (Pass(true), Is(3)),
            ]),
            Renew,
            Apart(&[
                (Pass(true), Is(4)),
                (Pass(true), Is(5)),
                (Pass(true), Is(6)),
                (Pass(true), Is(7)),
            ]),
        ],
    },
    // An open guard lets the count be raised once.
    Table {
        place: (2, 0, 0, 0),
        parts: &[
            Apart(&[(Join, Is(1))]),
            Under(&[
                (Beside(Pass(true)), Is(0)),
                (Beside(Pass(true)), Is(1)),
                (Beside(Pass(true)), Is(1)),
                (Beside(Pass(true)), Is(1)),
                (Epoch, Is(1)),
            ]),
            Apart(&[
                (Alternate, Nothing),
                (Pass(true), Is(1)),
                (Pass(true), Is(2)),
                (Pass(true), Is(3)),
                (Pass(true), Is(4)),
            ]),
        ],
    },
    // A participant that isn't registered holds nothing up.
    Table {
        place: (9, 0, 0, 0),
        parts: &[Apart(&[
            (Join, Is(1)),
            (Alternate, Nothing),
            (Leave, Nothing),
            (Pass(true), Is(0)),
            (Pass(true), Is(1)),
            (Pass(true), Is(2)),
            (Pass(true), Is(3)),
        ])],
    },
    // Only the outermost closing scans and closes.
    Table {
        place: (2, 0, 0, 0),
        parts: &[
            Apart(&[(Join, Is(1))]),
            Under(&[
                (Nest, Yes),
                (Epoch, Is(0)),
                (Beside(Pass(true)), Is(0)),
                (Beside(Pass(true)), Is(1)),
                (Beside(Pass(true)), Is(1)),
                (Beside(Pass(true)), Is(1)),
            ]),
            Apart(&[
                (Pass(false), Is(1)),
                (Alternate, Nothing),
                (Pass(true), Is(1)),
                (Pass(true), Is(2)),
                (Pass(true), Is(3)),
                (Pass(true), Is(4)),
            ]),
        ],
    },
    // Acceleration ends with its nesting.
    Table {
        place: (1, 0, 0, 0),
        parts: &[Apart(&[
            (Pass(true), Is(0)),
            (Passes(false, 200), Nothing),
            (Pass(false), Is(1)),
        ])],
    },
    // Garbage is scanned for at the sixty-fourth closing.
    Table {
        place: (1, 0, 0, 0),
        parts: &[
            Under(&[(HasGarbage, No), (SetGarbage, Nothing), (HasGarbage, Yes)]),
            Apart(&[(Passes(false, 62), Nothing), (Pass(false), Is(0))]),
            Under(&[(Epoch, Is(1)), (HasGarbage, No)]),
            Apart(&[(Passes(false, 200), Nothing), (Pass(false), Is(1))]),
        ],
    },
    // Closings count up to a flag that comes late.
    Table {
        place: (1, 0, 0, 0),
        parts: &[
            Apart(&[(Passes(false, 100), Nothing)]),
            Under(&[(SetGarbage, Nothing), (HasGarbage, Yes)]),
            Apart(&[(Pass(false), Is(1))]),
        ],
    },
    // The last counts are distinguished, up to the end. What waits then isn't reclaimed by guards, whoever has retired it; the
    // place is closed with it.
    Table {
        place: (2, 2, 0, u64::MAX - 2),
        parts: &[Apart(&[
            (Pass(true), Is(61)),
            (Pass(true), Is(62)),
            (Pass(true), Is(63)),
            (Pass(true), Is(63)),
            (Join, Is(1)),
            (Alternate, Nothing),
            (Place(1), Nothing),
            (Release, Yes),
            (Alternate, Nothing),
            (Leave, Nothing),
            (Place(2), Nothing),
            (Release, Yes),
            (Passes(true, 4), Nothing),
            (Slots, Is(2)),
        ])],
    },
    // And beside an open guard.
    Table {
        place: (2, 0, 0, u64::MAX - 1),
        parts: &[
            Apart(&[(Join, Is(1))]),
            Under(&[
                (Beside(Pass(true)), Is(62)),
                (Beside(Pass(true)), Is(63)),
                (Beside(Pass(true)), Is(63)),
                (Beside(Pass(true)), Is(63)),
            ]),
        ],
    },
    // Guards nest.
    Table {
        place: (1, 0, 0, 0),
        parts: &[Under(&[(Nest, Yes)])],
    },
];

#[test]
fn guards_nest_up_to_their_end(rt: HostRuntime) {
    assert_eq!(rt;
        [
            deeper(0),
            deeper(1),
            deeper(4_294_967_294),
            deeper(u32::MAX),
        ],
        [Some(1), Some(2), Some(u32::MAX), None]
    );
}
