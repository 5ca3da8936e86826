//! Owners of items, guards that keep them, refusals, and items that are written and dropped in place.

use crate::play::plays;
use crate::steps::Found::{Back, Done, Guarded, Is, No, NoSlot, NotSole, Yes};
use crate::steps::Part::{HandBack, Once};
use crate::steps::Step::{
    Clone, Close, Drop, EndCell, FreeSlots, IntoCell, IsGuarded, Keep, Look, NullSharedCell, Open,
    Own, OwnWith, OwnedCell, Participant, Pass, Read, Release, Retire, See, Share, Slots, Write,
    WriteCell,
};
use crate::steps::{A, B, C, G, Table, W};
use sdd_world::{Job, NoJob};

const WITHOUT_JOBS: Table = Table {
    about: "a place without jobs reclaims its items",
    sizes: [1, 1, 0, 0],
    parts: &[Once(&[
        (A, Own(5), Done),
        (A, Read, Is(5)),
        (A, Retire(0), Done),
        (W, Slots, Is(1)),
    ])],
};

const TABLES: &[Table] = &[
    Table {
        about: "the last of two owners is told",
        sizes: [2, 1, 0, 0],
        parts: &[Once(&[
            (A, Share(47), Done),
            (A, Read, Is(47)),
            (A, Clone(B), Done),
            (A, Release(0), No),
            (B, Release(0), Yes),
            (W, Slots, Is(1)),
        ])],
    },
    Table {
        about: "a guard keeps what it names, and tells its participant",
        sizes: [2, 2, 0, 0],
        parts: &[Once(&[
            (G, Open(0), Done),
            (A, Own(5), Done),
            (G, See(A, B), Done),
            (A, Retire(1), Done),
            (W, Pass(1, 6), Is(1)),
            (B, Look, Is(5)),
            (G, Close, Done),
            (W, Pass(1, 4), Is(0)),
            (G, Open(1), Done),
            (G, Participant, Is(1)),
            (G, Close, Done),
        ])],
    },
    Table {
        about: "refusals give the value back",
        sizes: [2, 1, 1, 0],
        parts: &[Once(&[
            (A, Own(1), Done),
            (B, Own(2), Back(2)),
            (B, Share(3), Back(3)),
            (B, OwnedCell(4), Back(4)),
            (A, IntoCell, Done),
            // the one cell is in use
            (B, NullSharedCell, NoSlot),
            (W, Slots, Is(1)),
            (A, EndCell(0), Done),
            (W, Pass(0, 4), Is(0)),
        ])],
    },
    Table {
        about: "nothing is made where no slot is free",
        sizes: [2, 0, 0, 0],
        parts: &[Once(&[(A, OwnWith(5), NoSlot)])],
    },
    Table {
        about: "a world is handed back while something is out",
        sizes: [2, 2, 0, 0],
        parts: &[
            Once(&[
                (A, Own(5), Done),
                (B, Own(6), Done),
                (B, Retire(1), Done),
                (G, Open(0), Done),
            ]),
            HandBack,
            Once(&[
                (W, Slots, Is(2)),
                (A, Read, Is(5)),
                (A, Retire(0), Done),
                (G, Close, Done),
            ]),
        ],
    },
    Table {
        about: "a world is handed back while an owner or a cell is out, and nothing waits then",
        sizes: [2, 2, 1, 0],
        parts: &[
            Once(&[(A, Own(5), Done), (B, Own(6), Done), (B, Retire(1), Done)]),
            HandBack,
            Once(&[
                (W, Slots, Is(1)),
                (A, Read, Is(5)),
                (A, Retire(0), Done),
                (A, NullSharedCell, Done),
            ]),
            HandBack,
            Once(&[(W, Slots, Is(0)), (A, EndCell(0), Done)]),
        ],
    },
    Table {
        about: "a kept owner reads its item and is given back",
        sizes: [2, 2, 0, 0],
        parts: &[Once(&[
            (A, Keep(47), Is(47)),
            (W, FreeSlots, Is(1)),
            (A, Release(0), Yes),
            (W, FreeSlots, Is(1)),
            (W, Pass(0, 4), Is(0)),
            (W, FreeSlots, Is(2)),
        ])],
    },
];

#[test]
fn owners_and_guards_keep_items(rt: HostRuntime) {
    plays::<_, NoJob>(&rt, rt.alloc(), &[WITHOUT_JOBS]);
    plays::<_, Job>(&rt, rt.alloc(), TABLES);
}

const IN_PLACE: &[Table] = &[
    Table {
        about: "one of two owners is given back",
        sizes: [2, 1, 0, 0],
        parts: &[Once(&[
            (A, Share(5), Done),
            (A, Clone(B), Done),
            (A, Drop, No),
            (W, Slots, Is(1)),
            (B, Drop, Yes),
            (W, Slots, Is(0)),
        ])],
    },
    Table {
        about: "what waits waits on",
        sizes: [2, 3, 0, 0],
        parts: &[Once(&[
            (A, Own(5), Done),
            (A, Retire(0), Done),
            (B, Own(6), Done),
            (B, Drop, Done),
            (W, Slots, Is(1)),
            (W, Pass(0, 3), Is(1)),
            (W, Pass(0, 1), Is(0)),
        ])],
    },
    Table {
        about: "an owned value is written",
        sizes: [2, 1, 0, 0],
        parts: &[Once(&[
            (A, Own(5), Done),
            (A, Write(7), Is(5)),
            (A, Read, Is(7)),
            (A, Retire(0), Done),
        ])],
    },
    Table {
        about: "a shared value is written by its one owner",
        sizes: [2, 1, 0, 0],
        parts: &[Once(&[
            (A, Share(5), Done),
            (A, Clone(B), Done),
            (A, Write(6), NotSole),
            (B, Release(0), No),
            (A, Write(7), Is(5)),
            (A, Read, Is(7)),
            (A, Release(0), Yes),
        ])],
    },
    Table {
        about: "a value is written by a cell that is its one owner, and by none beside others",
        sizes: [2, 2, 1, 0],
        parts: &[Once(&[
            (W, IsGuarded, No),
            (A, Share(5), Done),
            (A, WriteCell(7), Is(5)),
            (A, EndCell(0), Done),
            (A, Share(5), Done),
            (A, Clone(B), Done),
            (B, WriteCell(7), NotSole),
            (A, Read, Is(5)),
            (A, Release(0), No),
            (B, EndCell(0), Done),
        ])],
    },
    Table {
        about: "nothing is written or dropped under a guard",
        sizes: [2, 3, 1, 0],
        parts: &[Once(&[
            (G, Open(1), Done),
            (W, IsGuarded, Yes),
            (A, Own(5), Done),
            (B, Share(6), Done),
            (C, Share(8), Done),
            (A, Write(7), Guarded),
            (B, Write(7), Guarded),
            (C, WriteCell(7), Guarded),
            (A, Read, Is(5)),
            (B, Read, Is(6)),
            (A, Drop, Guarded),
            (B, Drop, Guarded),
            (A, Read, Is(5)),
            (B, Read, Is(6)),
            (A, Retire(0), Done),
            (B, Release(0), Yes),
            (C, EndCell(0), Done),
            (G, Close, Done),
        ])],
    },
];

#[test]
fn items_are_written_and_dropped_in_place(rt: HostRuntime) {
    plays::<_, Job>(&rt, rt.alloc(), IN_PLACE);
}
