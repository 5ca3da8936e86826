//! When what was retired, deferred or collected is reclaimed.

use crate::play::{are_right, plays};
use crate::stage::Stage;
use crate::steps::Found::{Back, Done, Is, No, Yes};
use crate::steps::Part::{Once, Times};
use crate::steps::Step::{
    Accelerate, Close, Collect, Collector, Epoch, HandOver, HasGarbage, Open, Own, Pass, Retire,
    Share, Slots,
};
use crate::steps::{A, B, C, G, Row, Table, W};
use sdd_world::{Job, Task};
use std::alloc::{AllocError, Global};
use std::sync::Arc;
use std::sync::atomic::{AtomicU32, Ordering};

/// Collects a new item under a guard, which is accelerated and closed behind a look at the slots.
const COLLECTED: &[Row] = &[
    (G, Open(0), Done),
    (B, Share(7), Done),
    (A, Collect(B, G), Yes),
];

const CLOSED: &[Row] = &[(G, Accelerate, Done), (G, Close, Done)];

const TABLES: &[Table] = &[
    Table {
        about: "a collector hands over what it keeps",
        sizes: [2, 1, 0, 0],
        parts: &[Once(&[
            (A, Collector, Done),
            (G, Open(0), Done),
            (B, Own(5), Done),
            (A, Collect(B, G), Done),
            (G, Close, Done),
            (A, HandOver(0), Done),
            // its slot isn't free yet
            (B, Own(6), Back(6)),
            (W, Pass(0, 4), Is(0)),
        ])],
    },
    Table {
        about: "a later collect reclaims what three raises let go",
        sizes: [2, 4, 0, 0],
        parts: &[
            Once(&[(A, Collector, Done)]),
            Once(COLLECTED),
            Once(&[(W, Slots, Is(1))]),
            Once(CLOSED),
            Once(COLLECTED),
            Once(&[(W, Slots, Is(2))]),
            Once(CLOSED),
            Times(
                3,
                &[
                    (G, Open(0), Done),
                    (B, Share(7), Done),
                    (A, Collect(B, G), Yes),
                    (W, Slots, Is(3)),
                    (G, Accelerate, Done),
                    (G, Close, Done),
                ],
            ),
            Once(&[(A, HandOver(1), Done), (W, Pass(1, 4), Is(0))]),
        ],
    },
    // their chains lie between one another
    Table {
        about: "two collectors take items in turn and hand over what each keeps",
        sizes: [2, 6, 0, 0],
        parts: &[
            Once(&[
                (A, Collector, Done),
                (C, Collector, Done),
                (G, Open(0), Done),
            ]),
            Times(
                3,
                &[
                    (B, Own(5), Done),
                    (A, Collect(B, G), Done),
                    (B, Own(6), Done),
                    (C, Collect(B, G), Done),
                ],
            ),
            Once(&[
                (W, Slots, Is(6)),
                (G, Close, Done),
                (A, HandOver(0), Done),
                (W, Pass(0, 4), Is(3)),
                (C, HandOver(1), Done),
                (W, Pass(1, 4), Is(0)),
            ]),
        ],
    },
    Table {
        about: "a collect reclaims all that was collected at one count, three raises later",
        sizes: [1, 4, 0, 0],
        parts: &[
            Once(&[(A, Collector, Done), (G, Open(0), Done)]),
            Times(3, &[(B, Own(5), Done), (A, Collect(B, G), Done)]),
            Once(&[
                (G, Close, Done),
                (W, Pass(0, 3), Is(3)),
                (G, Open(0), Done),
                (B, Own(6), Done),
                (A, Collect(B, G), Done),
                (W, Slots, Is(1)),
                (G, Close, Done),
                (A, HandOver(0), Done),
                (W, Pass(0, 4), Is(0)),
            ]),
        ],
    },
    Table {
        about: "the 64th closing scans where something was retired",
        sizes: [2, 1, 0, 0],
        parts: &[
            Once(&[(A, Own(5), Done), (A, Retire(0), Done)]),
            Times(
                64,
                &[
                    (G, Open(0), Done),
                    (G, Epoch, Is(0)),
                    (G, HasGarbage, Yes),
                    (G, Close, Done),
                ],
            ),
            Once(&[
                (G, Open(1), Done),
                (G, Epoch, Is(1)),
                (G, HasGarbage, No),
                (G, Close, Done),
            ]),
        ],
    },
];

#[test]
fn collectors_and_closings_reclaim(rt: HostRuntime) {
    plays::<_, Job>(&rt, rt.alloc(), TABLES);
}

/// Counts how often it runs.
#[derive(Drop)]
struct Count {
    runs: Arc<AtomicU32>,
}

impl Task for Count {
    fn run(&mut self) {
        self.runs.fetch_add(1, Ordering::SeqCst);
    }
}

/// A counter, and a job that counts.
fn counted(alloc: Global) -> Result<(Arc<AtomicU32>, Job), AllocError> {
    let runs = Arc::new(alloc, AtomicU32::new(0))?;
    let task = Count {
        runs: runs.clone()?,
    };
    Ok((runs, Job::new(Box::new(alloc, task)?)))
}

const HURRIED: &[Row] = &[
    (G, Accelerate, Done),
    (G, Close, Done),
    (W, Pass(0, 2), Is(0)),
];

const FOURTH: &[Row] = &[(G, Open(0), Done)];

const AFTER: &[Row] = &[(G, Close, Done), (W, Pass(0, 8), Is(0))];

#[test]
fn a_job_runs_once_when_the_fourth_guard_opens(rt: HostRuntime) {
    let Ok((runs, job)) = counted(rt.alloc()) else {
        panic!(rt; "memory is ample");
    };
    let Ok((other, another)) = counted(rt.alloc()) else {
        panic!(rt; "memory is ample");
    };
    let mut stage = Stage::new(&rt, rt.alloc(), [1, 0, 0, 1]);
    let opened = are_right(&mut stage, FOURTH);
    let waits = (stage.defer(job), stage.defer(another));
    let at_once = other.load(Ordering::SeqCst);
    let hurried = are_right(&mut stage, HURRIED);
    let before = runs.load(Ordering::SeqCst);
    let fourth = are_right(&mut stage, FOURTH);
    let once = runs.load(Ordering::SeqCst);
    let last = are_right(&mut stage, AFTER);
    stage.end();
    let counts = [at_once, before, once, runs.load(Ordering::SeqCst)];
    assert!(rt;
        opened && hurried && fourth && last && waits == (true, false) && counts == [1, 0, 1, 1]
    );
}
