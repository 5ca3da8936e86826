//! Places of a million slots, cells and job places, or of a million participants: each call that may be refused succeeds
//! up to its end, and is refused there.

use crate::play::{are_right, plays};
use crate::stage::Stage;
use crate::steps::Found::{Back, Done, Is, No, NoSlot, Yes};
use crate::steps::Part::{Once, Times};
use crate::steps::Step::{
    Claim, Clone, CloneCell, Close, Collector, FreeSlots, GiveRest, HandOver, IntoCell, IsGuarded,
    Move, NullOwnedCell, NullRawCell, NullSharedCell, Open, OpenEach, Own, OwnWith, OwnedCell,
    Pass, RawCell, Release, Retire, See, Share, ShareWith, SharedCell, Slots,
};
use crate::steps::{A, B, END, G, Row, Table, W};
use sdd_world::NoJob;

const MANY: usize = 1_000_000;

const SLOTS: Table = Table {
    about: "a million slots are taken",
    sizes: [3, MANY, MANY, MANY],
    parts: &[
        // four items, one by each call that makes some
        Times(
            MANY / 4,
            &[
                (END, Own(1), Done),
                (END, OwnWith(2), Done),
                (END, Share(3), Done),
                (END, ShareWith(4), Done),
            ],
        ),
        Once(&[(W, Slots, Is(1_000_000)), (W, FreeSlots, Is(0))]),
        // each call that makes an item is refused
        Once(&[
            (A, Own(5), Back(5)),
            (A, OwnWith(5), NoSlot),
            (A, Share(5), Back(5)),
            (A, ShareWith(5), NoSlot),
            (A, OwnedCell(5), Back(5)),
            (A, SharedCell(5), Back(5)),
        ]),
        Once(&[(W, GiveRest, Done)]),
    ],
};

#[test]
fn a_million_slots_are_taken(rt: HostRuntime) {
    plays::<_, NoJob>(&rt, rt.alloc(), &[SLOTS]);
}

const CELLS: Table = Table {
    about: "a million cells are taken",
    sizes: [3, MANY, MANY, MANY],
    parts: &[
        Once(&[(G, Open(2), Done)]),
        // ten cells, one by each call that makes some
        Times(
            MANY / 10,
            &[
                (END, NullOwnedCell, Done),
                (END, OwnedCell(1), Done),
                (A, Own(2), Done),
                (A, IntoCell, Done),
                (A, Move(END), Done),
                (END, NullRawCell, Done),
                (END, RawCell, Done),
                (END, NullSharedCell, Done),
                (END, SharedCell(3), Done),
                (A, Share(4), Done),
                (A, IntoCell, Done),
                (A, CloneCell(END), Done),
                (A, CloneCell(END), Done),
                (A, Move(END), Done),
            ],
        ),
        // each call that makes a cell is refused
        Once(&[
            (A, NullOwnedCell, NoSlot),
            (A, OwnedCell(5), Back(5)),
            (A, NullSharedCell, NoSlot),
            (A, SharedCell(5), Back(5)),
            (A, NullRawCell, NoSlot),
            (A, RawCell, NoSlot),
        ]),
        Once(&[(W, GiveRest, Done), (G, Close, Done)]),
    ],
};

#[test]
fn a_million_cells_are_taken(rt: HostRuntime) {
    plays::<_, NoJob>(&rt, rt.alloc(), &[CELLS]);
}

const OPENED: &[Row] = &[(G, Open(2), Done)];

const CLOSED: &[Row] = &[(G, Close, Done)];

#[test]
fn a_million_jobs_wait(rt: HostRuntime) {
    let mut stage = Stage::new(&rt, rt.alloc(), [3, MANY, MANY, MANY]);
    let mut all = are_right(&mut stage, OPENED);
    for _ in 0..MANY {
        all = stage.defer(NoJob) && all;
    }
    let another = stage.defer(NoJob);
    let closed = are_right(&mut stage, CLOSED);
    stage.end();
    assert!(rt; all && !another && closed);
}

const COUNTED: &[Table] = &[
    Table {
        about: "a hundred thousand guards nest",
        sizes: [3, MANY, MANY, MANY],
        parts: &[
            Times(MANY / 10, &[(END, Open(2), Done)]),
            Once(&[
                (W, IsGuarded, Yes),
                (W, GiveRest, Done),
                (W, IsGuarded, No),
                (A, Collector, Done),
                (A, HandOver(0), Done),
            ]),
        ],
    },
    // A hundred thousand owners of one item, more of them by each call that gives one.
    Table {
        about: "a hundred thousand owners are counted",
        sizes: [3, MANY, MANY, MANY],
        parts: &[
            Once(&[(G, Open(2), Done), (A, Share(7), Done)]),
            Times(
                MANY / 20,
                &[
                    (A, Clone(END), Done),
                    (G, See(A, B), Done),
                    (B, Claim(END), Done),
                ],
            ),
            Once(&[
                (W, GiveRest, Done),
                (W, Slots, Is(1)),
                (G, Close, Done),
                (A, Release(0), Yes),
            ]),
        ],
    },
    // Four passes give a thousand retired items back, and no fewer.
    Table {
        about: "a thousand items wait",
        sizes: [1, 1_000, 0, 0],
        parts: &[
            Times(1_000, &[(A, Own(7), Done), (A, Retire(0), Done)]),
            Once(&[
                (W, Slots, Is(1_000)),
                (A, Own(7), Back(7)),
                (W, Pass(0, 3), Is(1_000)),
                (W, Pass(0, 1), Is(0)),
                (B, Collector, Done),
                (B, HandOver(0), Done),
            ]),
            Times(1_000, &[(A, Own(8), Done), (A, Retire(0), Done)]),
            Once(&[(W, Slots, Is(1_000)), (W, Pass(0, 4), Is(0))]),
        ],
    },
    // Two participants retire in turn: each waits for its own, in places that lie between those of the other.
    Table {
        about: "two participants retire in turn",
        sizes: [2, 1_000, 0, 0],
        parts: &[
            Times(
                500,
                &[
                    (A, Own(7), Done),
                    (A, Retire(0), Done),
                    (A, Own(8), Done),
                    (A, Retire(1), Done),
                ],
            ),
            Once(&[
                (W, Slots, Is(1_000)),
                (W, Pass(1, 4), Is(500)),
                (W, Pass(0, 4), Is(0)),
            ]),
        ],
    },
    Table {
        about: "a million participants open guards",
        sizes: [MANY, 1, 0, 0],
        parts: &[Once(&[
            (A, Own(7), Done),
            (W, OpenEach, Is(1_000_000)),
            (W, IsGuarded, Yes),
            (W, GiveRest, Done),
            (W, IsGuarded, No),
            (A, Retire(0), Done),
            (W, Slots, Is(1)),
        ])],
    },
];

#[test]
fn guards_and_owners_are_counted(rt: HostRuntime) {
    plays::<_, NoJob>(&rt, rt.alloc(), COUNTED);
}
