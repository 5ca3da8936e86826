//! Cells of a place that threads share, and what guards load from them.

ghost use Rattle.std.specs.Prelude.{◌<◌};
ghost use Rattle.sdd_domain.specs.Cells.{cell_number};
ghost use Rattle.sdd_domain.specs.Tokens.{cell_count};
ghost use Rattle.domain_tests.specs.Steps.{IsHome, Rests, StillRests, Stays, IsOpen};

use crate::guard::passes;
use crate::hands::{exchange, put, release};
use crate::steps::Act::{
    Change, IsNull, IsSum, Join, Null, Own, Passes, Peek, Place, Read, Release, Retire, Slots, Sum,
    Swap, Sweep, Take,
};
use crate::steps::Found::{Is, No, Nothing, Tagged, Yes};
use crate::steps::Part::{Apart, Crowd, Under};
use crate::steps::View::{
    Beside, Do, Exchange, ExchangeWeak, Forget, IsSame, IsSameTagged, IsSameUntagged, Item, Label,
    Load, LoadWithin, Relabel, Reload, ReloadBeside, Retag,
};
use crate::steps::{Act, Found, Table, Task, View};
use sdd_domain::atomic_shared::AtomicShared;
use sdd_domain::domain::Domain;
use sdd_domain::guard::Guard;
use sdd_domain::local::Local;
use sdd_domain::pointer::Ptr;
use sdd_domain::shared::Shared;
use sdd_plain::tag::Tag;

/// What the cell's item is, under a guard of its own.
pub(crate) fn read(
    domain: &Domain<u64>,
    local: &mut Local<u64>,
    cell: &AtomicShared<u64>,
) -> Option<u64>
    requires rests { Rests domain.now local.old }
    requires inside { cell_number cell.now < cell_count domain.now }
    ensures rests { StillRests local.old local.new }
{
    let Ok(guard) = Guard::new(domain, local) else {
        unreachable!();
    };
    let item = cell.load(domain, &guard, local).as_ref().copied();
    guard.close(domain, local);
    item
}

/// Loads the cell, swaps an item into it, if a slot is free, and releases what comes out: whether what was loaded is the
/// same after that.
pub(crate) fn keeps(
    domain: &Domain<u64>,
    local: &mut Local<u64>,
    cell: &AtomicShared<u64>,
    item: u64,
) -> bool
    requires rests { Rests domain.now local.old }
    requires inside { cell_number cell.now < cell_count domain.now }
    ensures rests { StillRests local.old local.new }
{
    let Ok(guard) = Guard::new(domain, local) else {
        unreachable!();
    };
    let loaded = cell.loaded(domain, &guard, local);
    let before = loaded.as_ref(&guard).copied();
    replace(domain, local, cell, item);
    let after = loaded.as_ref(&guard).copied();
    guard.close(domain, local);
    before == after
}

/// Puts an item into the cell, where a slot is free, and releases the one that it had.
fn replace(domain: &Domain<u64>, local: &mut Local<u64>, cell: &AtomicShared<u64>, item: u64)
    requires home { IsHome domain.now local.old }
    requires inside { cell_number cell.now < cell_count domain.now }
    ensures same { Stays local.old local.new }
{
    if let Ok(owner) = Shared::new(domain, item, local) {
        put(domain, local, cell, owner);
    }
}

/// Reclaims what this many participants left, who aren't registered.
pub(crate) fn reclaim_all(domain: &Domain<u64>, participants: u32) {
    if participants == 0 {
        return;
    }
    let Ok(mut local) = domain.register() else {
        return;
    };
    reclaim_all(domain, participants - 1);
    passes(domain, &mut local, true, 4);
    local.end(domain);
}

/// Tries once to put an item that is greater by one into the cell: whether a slot was free, and nobody was faster.
pub(crate) fn adds_one(
    domain: &Domain<u64>,
    local: &mut Local<u64>,
    cell: &AtomicShared<u64>,
) -> Found
    requires rests { Rests domain.now local.old }
    requires inside { cell_number cell.now < cell_count domain.now }
    ensures rests { StillRests local.old local.new }
{
    let Ok(guard) = Guard::new(domain, local) else {
        unreachable!();
    };
    let loaded = cell.load(domain, &guard, local);
    let item = loaded.as_ref().copied().unwrap_or(0);
    let found = puts(domain, &guard, local, cell, loaded, item.wrapping_add(1));
    guard.close(domain, local);
    found
}

/// Tries once to put this item into the cell, where it names what was loaded: yes, or what it has then.
fn puts(
    domain: &Domain<u64>,
    guard: &Guard,
    local: &mut Local<u64>,
    cell: &AtomicShared<u64>,
    current: Ptr<u64>,
    item: u64,
) -> Found
    requires home { IsHome domain.now local.old }
    requires open { IsOpen guard.now local.old }
    requires inside { cell_number cell.now < cell_count domain.now }
    ensures same { Stays local.old local.new }
{
    let Ok(owner) = Shared::new(domain, item, local) else {
        return Found::Nothing;
    };
    let new = (Some(owner), Tag::None);
    let (owner, found) = exchange(domain, guard, local, cell, current, new);
    release(domain, local, owner);
    found
}

pub(crate) const TABLES: &[Table] = &[
    // A cell owns what was swapped into it.
    Table {
        place: (1, 3, 4, 0),
        parts: &[Apart(&[
            (Null, Yes),
            (IsNull, Yes),
            (Peek, Nothing),
            (Place(7), Nothing),
            (Swap(Tag::None), Tagged(Tag::None)),
            (Read, Nothing),
            (IsNull, No),
            (Peek, Is(7)),
            (Place(8), Nothing),
            (Swap(Tag::None), Tagged(Tag::None)),
            (Read, Is(7)),
            (Release, Yes),
            (Peek, Is(8)),
            (Take, Nothing),
            (Read, Is(8)),
            (Release, Yes),
        ])],
    },
    // What was loaded is read until its guard closes, whatever another participant puts into the cell.
    Table {
        place: (2, 3, 4, 0),
        parts: &[
            Apart(&[(Join, Is(1)), (Place(7), Nothing), (Own, Yes)]),
            Under(&[
                (Load, Is(7)),
                (Beside(Place(8)), Nothing),
                (Beside(Swap(Tag::None)), Tagged(Tag::None)),
                (Beside(Release), Yes),
                (Beside(Passes(true, 8)), Nothing),
                (IsSame, No),
                (Item, Is(7)),
                (Load, Is(8)),
                (IsSame, Yes),
            ]),
            Apart(&[(Retire, Yes)]),
        ],
    },
    // What a pointer is to is had without the pointer's borrow, whichever item was loaded last. A participant that has loaded
    // nothing has only what a pointer to nothing is to.
    Table {
        place: (2, 3, 4, 0),
        parts: &[
            Apart(&[(Join, Is(1)), (Place(7), Nothing), (Own, Yes)]),
            Under(&[
                (Forget, Nothing),
                (Reload, Nothing),
                (ReloadBeside, Yes),
                (Load, Is(7)),
                (Reload, Is(7)),
                (ReloadBeside, No),
                (Beside(Place(8)), Nothing),
                (Beside(Swap(Tag::None)), Tagged(Tag::None)),
                (Beside(Release), Yes),
                (IsSame, No),
                (Reload, Is(7)),
                (Relabel(Tag::Both), Is(7)),
                (Reload, Is(7)),
                (Load, Is(8)),
                (Reload, Is(8)),
            ]),
            Apart(&[(Retire, Yes)]),
        ],
    },
    // An owner is released under the guard that loaded its item, which is read on.
    Table {
        place: (1, 1, 4, 0),
        parts: &[
            Apart(&[(Place(5), Nothing), (Own, Yes)]),
            Under(&[
                (Load, Is(5)),
                (Do(Swap(Tag::None)), Tagged(Tag::None)),
                (Do(Release), Yes),
                (Item, Is(5)),
                (Load, Nothing),
                (View::IsNull, Yes),
            ]),
            Apart(&[
                (Place(6), Is(6)),
                (Passes(true, 1), Nothing),
                (Place(6), Is(6)),
                (Passes(true, 1), Nothing),
                (Place(6), Is(6)),
                (Passes(true, 1), Nothing),
                (Place(6), Is(6)),
                (Passes(true, 1), Nothing),
                (Place(6), Nothing),
                (Read, Is(6)),
                (Release, Yes),
                (Retire, No),
            ]),
        ],
    },
    // What an inner guard loaded is read under the outer one.
    Table {
        place: (1, 2, 4, 0),
        parts: &[
            Apart(&[(Place(3), Nothing), (Own, Yes)]),
            Under(&[(LoadWithin, Is(3))]),
            Apart(&[(Retire, Yes)]),
        ],
    },
    // A cell that was retired is free again. Where none is, an owner is returned.
    Table {
        place: (1, 2, 1, 0),
        parts: &[Apart(&[
            (Place(1), Nothing),
            (Own, Yes),
            (Change, Nothing),
            (Null, No),
            (Place(2), Nothing),
            (Own, No),
            (Read, Is(2)),
            (Release, Yes),
            (Change, Nothing),
            (Retire, Yes),
            (Null, Yes),
            (Retire, No),
        ])],
    },
    // A cell is exchanged where it is what was loaded; where it isn't, the owner is returned.
    Table {
        place: (1, 16, 4, 0),
        parts: &[
            Apart(&[(Place(7), Nothing), (Own, Yes)]),
            Under(&[
                (Load, Is(7)),
                (Do(Place(8)), Nothing),
                (Exchange(Tag::None), Yes),
                (Do(Read), Is(7)),
                (Do(Release), Yes),
                (Do(Place(9)), Nothing),
                (Exchange(Tag::None), Is(8)),
                (Do(Read), Is(9)),
                (Do(Release), Yes),
                (Item, Is(7)),
            ]),
            Apart(&[(Retire, Yes)]),
        ],
    },
    // A cell is exchanged from null and to null.
    Table {
        place: (1, 16, 4, 0),
        parts: &[
            Apart(&[(Null, Yes)]),
            Under(&[
                (Forget, Nothing),
                (Do(Place(7)), Nothing),
                (Exchange(Tag::None), Yes),
                (Do(Read), Nothing),
                (Load, Is(7)),
                (Exchange(Tag::None), Yes),
                (Do(Read), Is(7)),
                (Do(Release), Yes),
                (Exchange(Tag::None), Nothing),
                (Do(Read), Nothing),
            ]),
            Apart(&[(Retire, No)]),
        ],
    },
    // Four threads load, swap and release one cell a hundred thousand times: what is in use then is what is held.
    Table {
        place: (5, 64, 4, 0),
        parts: &[
            Apart(&[(Join, Is(1)), (Place(1), Nothing), (Own, Yes)]),
            Crowd([
                Task::Swaps(0),
                Task::Swaps(100_000),
                Task::Swaps(200_000),
                Task::Swaps(300_000),
            ]),
            Apart(&[
                (Sum, Is(100_000)),
                (Sweep(3), Nothing),
                (Passes(true, 4), Nothing),
                (Slots, Is(1)),
                (Retire, Yes),
            ]),
        ],
    },
    // What four threads add to one cell is its sum.
    Table {
        place: (5, 64, 4, 0),
        parts: &[
            Apart(&[(Join, Is(1)), (Place(0), Nothing), (Own, Yes)]),
            Crowd([Task::Counts; 4]),
            Apart(&[(IsSum, Yes), (Retire, Yes)]),
        ],
    },
    // A tag is swapped together with the item.
    Table {
        place: (1, 8, 4, 0),
        parts: &[Apart(&[
            (Place(14), Nothing),
            (Own, Yes),
            (Place(15), Nothing),
            (Swap(Tag::Second), Tagged(Tag::None)),
            (Read, Is(14)),
            (Release, Yes),
            (Swap(Tag::First), Tagged(Tag::Second)),
            (Read, Is(15)),
            (Release, Yes),
            (Act::Tag, Tagged(Tag::First)),
            (Swap(Tag::None), Tagged(Tag::First)),
            (Read, Nothing),
            (Retire, No),
        ])],
    },
    // Pointers are equal by item and tag, those to nothing too.
    Table {
        place: (1, 8, 4, 0),
        parts: &[
            Apart(&[
                (Place(7), Nothing),
                (Own, Yes),
                (Place(8), Nothing),
                (Swap(Tag::First), Tagged(Tag::None)),
                (Read, Is(7)),
                (Release, Yes),
            ]),
            Under(&[
                (IsSameTagged, No),
                (IsSameUntagged, Yes),
                (Label, Tagged(Tag::None)),
                (Load, Is(8)),
                (IsSameTagged, No),
                (IsSameUntagged, Yes),
                (Label, Tagged(Tag::First)),
            ]),
            Apart(&[(Retire, Yes)]),
        ],
    },
    // An exchange is refused for the tag alone. By the call that may fail the cell is emptied, and told to be as it is loaded.
    Table {
        place: (1, 8, 4, 0),
        parts: &[
            Apart(&[(Place(7), Nothing), (Own, Yes)]),
            Under(&[
                (Load, Is(7)),
                (Relabel(Tag::First), Is(7)),
                (Do(Place(8)), Nothing),
                (Exchange(Tag::None), Is(7)),
                (Load, Is(7)),
                (Relabel(Tag::First), Is(7)),
                (ExchangeWeak(Tag::None), Nothing),
                (Do(Read), Is(8)),
                (Do(Release), Yes),
                (Load, Is(7)),
                (Do(Place(9)), Nothing),
                (Exchange(Tag::None), Yes),
                (Do(Read), Is(7)),
                (Do(Release), Yes),
                (Load, Is(9)),
                (ExchangeWeak(Tag::Second), Yes),
                (Do(Read), Is(9)),
                (Do(Release), Yes),
            ]),
            Apart(&[(Retire, No)]),
        ],
    },
    // An exchange of nothing for nothing sets the tag that it brings.
    Table {
        place: (1, 8, 4, 0),
        parts: &[
            Apart(&[(Null, Yes)]),
            Under(&[
                (Load, Nothing),
                (Exchange(Tag::Second), Yes),
                (Do(Read), Nothing),
                (Do(Act::Tag), Tagged(Tag::Second)),
                (Exchange(Tag::First), Nothing),
                (Do(Act::Tag), Tagged(Tag::Second)),
                (Load, Nothing),
                (View::IsNull, Yes),
                (ExchangeWeak(Tag::None), Yes),
                (Do(Act::Tag), Tagged(Tag::None)),
            ]),
            Apart(&[(Retire, No)]),
        ],
    },
    // A tag is set where the pointer is as asked.
    Table {
        place: (1, 8, 4, 0),
        parts: &[
            Apart(&[(Place(7), Nothing), (Own, Yes)]),
            Under(&[
                (Retag(Tag::None, Tag::Both), Yes),
                (Do(Act::Tag), Tagged(Tag::Both)),
                (Retag(Tag::None, Tag::First), No),
                (Do(Act::Tag), Tagged(Tag::Both)),
            ]),
            Apart(&[
                (Swap(Tag::None), Tagged(Tag::Both)),
                (Read, Is(7)),
                (Release, Yes),
                (Retire, No),
            ]),
        ],
    },
];
