//! Owners of what cells name, also in several threads, and cells made of items and of other cells.

ghost use Rattle.std.specs.Prelude.{◌<◌};
ghost use Rattle.sdd_domain.specs.Cells.{cell_number};
ghost use Rattle.sdd_domain.specs.Tokens.{cell_count};
ghost use Rattle.domain_tests.specs.Steps.{Rests, StillRests, IsOurs};

use crate::hands::{Hand, item, put, told};
use crate::steps::Act::{
    Change, IsNull, Join, Make, Null, Own, Passes, Peek, Place, Read, Release, Retire, Slots, Swap,
};
use crate::steps::Found::{Is, No, Nothing, Tagged, Yes};
use crate::steps::Part::{Apart, Crowd, Renew, Under};
use crate::steps::View::{
    Beside, CloneCell, Do, Item, Lend, LendItem, Lent, Load, Share, ShareCell, TryShare,
};
use crate::steps::{Found, Table, Task};
use sdd_domain::atomic_shared::AtomicShared;
use sdd_domain::domain::Domain;
use sdd_domain::guard::Guard;
use sdd_domain::local::Local;
use sdd_plain::tag::Tag;

/// An owner of what the cell names, made under a guard of its own, and what that guard read.
fn shared(domain: &Domain<u64>, local: &mut Local<u64>, cell: &AtomicShared<u64>) -> (Hand, Found)
    requires rests { Rests domain.now local.old }
    requires inside { cell_number cell.now < cell_count domain.now }
    ensures ours { IsOurs domain.now result.0 }
    ensures rests { StillRests local.old local.new }
{
    let Ok(guard) = Guard::new(domain, local) else {
        unreachable!();
    };
    let pointer = cell.load(domain, &guard, local);
    let found = item(pointer.as_ref());
    let owner = pointer.get_shared(domain, local);
    guard.close(domain, local);
    (owner, found)
}

/// Makes an owner of what the cell names, puts it into the cell, and releases what that had: whether the owner, if there was
/// one, read the guard's item.
pub(crate) fn shares(
    domain: &Domain<u64>,
    local: &mut Local<u64>,
    cell: &AtomicShared<u64>,
) -> Found
    requires rests { Rests domain.now local.old }
    requires inside { cell_number cell.now < cell_count domain.now }
    ensures rests { StillRests local.old local.new }
{
    let (owner, read) = shared(domain, local, cell);
    let Some(owner) = owner else {
        return Found::Nothing;
    };
    let found = told(read == Found::Is(*owner.as_ref()));
    put(domain, local, cell, owner);
    found
}

/// Takes the owner out of the cell, if it is there, makes two of it, puts one back and releases the other one: whether
/// there were two.
pub(crate) fn clones(
    domain: &Domain<u64>,
    local: &mut Local<u64>,
    cell: &AtomicShared<u64>,
) -> Found
    requires rests { Rests domain.now local.old }
    requires inside { cell_number cell.now < cell_count domain.now }
    ensures rests { StillRests local.old local.new }
{
    let (Some(owner), _) = cell.swap(domain, (None, Tag::None), local) else {
        return Found::Nothing;
    };
    match owner.clone(domain, local) {
        Ok((one, other)) => {
            put(domain, local, cell, one);
            other.release(domain, local);
            Found::Yes
        }
        Err(owner) => {
            put(domain, local, cell, owner);
            Found::Nothing
        }
    }
}

pub(crate) const TABLES: &[Table] = &[
    // An owner of what was loaded outlives guard and cell.
    Table {
        place: (1, 2, 4, 0),
        parts: &[
            Apart(&[(Place(7), Nothing), (Own, Yes)]),
            Under(&[(Load, Is(7)), (Share, Yes), (TryShare, Yes)]),
            Apart(&[
                (Retire, No),
                (Passes(true, 6), Nothing),
                (Read, Is(7)),
                (Slots, Is(1)),
                (Release, Yes),
                (Passes(true, 4), Nothing),
                (Slots, Is(0)),
            ]),
        ],
    },
    // Nothing, and what is retired, have no more owners.
    Table {
        place: (1, 2, 4, 0),
        parts: &[
            Apart(&[(Place(7), Nothing), (Own, Yes)]),
            Under(&[
                (Load, Is(7)),
                (Do(Swap(Tag::None)), Tagged(Tag::None)),
                (Do(Read), Is(7)),
                (Do(Release), Yes),
                (Share, No),
                (TryShare, No),
                (ShareCell, No),
                (Item, Is(7)),
            ]),
            Apart(&[(Retire, No)]),
        ],
    },
    // An owner's item is read until the guard closes, though the owner was the last one.
    Table {
        place: (2, 2, 4, 0),
        parts: &[
            Apart(&[(Join, Is(1)), (Place(5), Nothing)]),
            Under(&[
                (Lend, Is(5)),
                (LendItem, Is(5)),
                (Do(Release), Yes),
                (Beside(Passes(true, 6)), Nothing),
                (Item, Is(5)),
                (Lent, Is(5)),
                (Do(Slots), Is(1)),
            ]),
            Apart(&[(Passes(true, 4), Nothing), (Slots, Is(0))]),
        ],
    },
    // An owner lends its own item, though the place's first cell and slot have another one.
    Table {
        place: (1, 2, 4, 0),
        parts: &[
            Apart(&[(Make(3), Nothing), (Place(5), Nothing)]),
            Under(&[
                (Load, Is(3)),
                (Lend, Is(5)),
                (LendItem, Is(5)),
                (Item, Is(5)),
                (Lent, Is(5)),
            ]),
            Apart(&[(Release, Yes), (Peek, Is(3)), (Retire, Yes)]),
        ],
    },
    // A clone of a cell owns its item too, and one of a cell that owns nothing owns nothing.
    Table {
        place: (1, 2, 4, 0),
        parts: &[
            Apart(&[(Place(3), Nothing), (Own, Yes)]),
            Under(&[(CloneCell, Yes)]),
            Apart(&[
                (Retire, No),
                (Change, Nothing),
                (Peek, Is(3)),
                (Retire, Yes),
                (Null, Yes),
            ]),
            Under(&[(CloneCell, Yes)]),
            Apart(&[
                (Retire, No),
                (Change, Nothing),
                (IsNull, Yes),
                (Peek, Nothing),
                (Retire, No),
            ]),
        ],
    },
    // A cell isn't cloned where the one cell is in use.
    Table {
        place: (1, 1, 1, 0),
        parts: &[
            Apart(&[(Make(3), Nothing)]),
            Under(&[(CloneCell, No)]),
            Apart(&[(Peek, Is(3)), (Retire, Yes)]),
        ],
    },
    // A cell is made of an item where there are slots and cells.
    Table {
        place: (1, 1, 4, 0),
        parts: &[Apart(&[
            (Place(1), Nothing),
            (Make(2), Is(2)),
            (Release, Yes),
            (Passes(true, 4), Nothing),
            (Make(3), Nothing),
            (Peek, Is(3)),
            (Retire, Yes),
        ])],
    },
    // Four threads own what one cell names.
    Table {
        place: (5, 8, 4, 0),
        parts: &[
            Apart(&[(Join, Is(1)), (Place(7), Nothing), (Own, Yes)]),
            Crowd([Task::Shares; 4]),
            Apart(&[(Peek, Is(7)), (Slots, Is(1)), (Retire, Yes)]),
            Renew,
            Apart(&[(Passes(true, 4), Nothing), (Slots, Is(0))]),
        ],
    },
    // Four threads clone an item through a cell.
    Table {
        place: (5, 8, 4, 0),
        parts: &[
            Apart(&[(Join, Is(1)), (Place(7), Nothing), (Own, Yes)]),
            Crowd([Task::Clones; 4]),
            Apart(&[(Peek, Is(7)), (Slots, Is(1)), (Retire, Yes)]),
            Renew,
            Apart(&[(Passes(true, 4), Nothing), (Slots, Is(0))]),
        ],
    },
];
