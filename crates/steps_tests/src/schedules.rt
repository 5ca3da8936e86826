//! Two schedules of a reader and a writer, as lists of steps, with what is left after each list.

use crate::common::{Move, Row, plays, plays_each, started};
use sdd_steps::ItemState;

// The reader and the writer, the root, and the items of the two versions in the order of placing.
const READER: usize = 0;

const WRITER: usize = 1;

const ROOT: usize = 0;

const SEGMENT: usize = 0;

const VERSION: usize = 1;

const OTHER_SEGMENT: usize = 2;

const OTHER_VERSION: usize = 3;

// The writer places a segment and a version that holds it, and the root takes the version.
const FIRST_VERSION: Row = Row::Does(&[
    Move::Place(WRITER, 10, None, None),
    Move::Place(WRITER, 11, Some(SEGMENT), None),
    Move::SwapCell(WRITER, ROOT, Some(VERSION)),
]);

// Another version takes its place, and the first one is retired.
const SECOND_VERSION: Row = Row::Does(&[
    Move::Place(WRITER, 20, None, None),
    Move::Place(WRITER, 21, Some(OTHER_SEGMENT), None),
    Move::SwapCell(WRITER, ROOT, Some(OTHER_VERSION)),
    Move::Release(WRITER, VERSION),
    Move::Retire(WRITER, VERSION),
]);

const OPEN: Row = Row::Does(&[Move::ReadEpoch(WRITER), Move::Publish(WRITER)]);

const OPEN_AND_ROTATE: Row = Row::Does(&[
    Move::ReadEpoch(WRITER),
    Move::Publish(WRITER),
    Move::Rotate(WRITER),
]);

const RAISE: Row = Row::Does(&[
    Move::Look(WRITER, READER),
    Move::Raise(WRITER),
    Move::Close(WRITER),
]);

const RAISE_IS_REFUSED: Row = Row::Refuses(&[Move::Look(WRITER, READER), Move::Raise(WRITER)]);

// An accelerated guard of the writer, without a rotation or with one, that raises the count.
const GUARD: &[Row] = &[OPEN, RAISE];

const ROTATING: &[Row] = &[OPEN_AND_ROTATE, RAISE];

// One that can't raise it while the reader's guard is open with an older one.
const HELD: &[Row] = &[OPEN, RAISE_IS_REFUSED, Row::Does(&[Move::Close(WRITER)])];

const HELD_ROTATING: &[Row] = &[
    OPEN_AND_ROTATE,
    RAISE_IS_REFUSED,
    Row::Does(&[Move::Close(WRITER)]),
];

// One under which the first version is reclaimed, and the last owner of its segment is retired.
const VERSION_GOES: &[Row] = &[
    OPEN_AND_ROTATE,
    Row::Does(&[
        Move::Reclaim(WRITER, VERSION),
        Move::GiveUp(WRITER, VERSION, SEGMENT),
        Move::Release(WRITER, SEGMENT),
        Move::Retire(WRITER, SEGMENT),
    ]),
    RAISE,
];

// One under which the segment is reclaimed.
const SEGMENT_GOES: &[Row] = &[
    OPEN_AND_ROTATE,
    Row::Does(&[Move::Reclaim(WRITER, SEGMENT)]),
    RAISE,
];

// Which segments and versions are left, in the order of placing.
const FIRST_IS_LEFT: Row = Row::Left([true, true, false, false]);

const ALL_ARE_LEFT: Row = Row::Left([true; 4]);

const SEGMENTS_ARE_LEFT: Row = Row::Left([true, false, true, true]);

const SECOND_IS_LEFT: Row = Row::Left([false, false, true, true]);

const READ_ON: Row = Row::Does(&[
    Move::ReadSegment(READER, VERSION, SEGMENT),
    Move::Close(READER),
]);

// The reader reads the count before the writer raises it five times; the last opening of that reads 4.
const OLD_COUNT: &[&[Row]] = &[
    &[FIRST_VERSION, Row::Does(&[Move::ReadEpoch(READER)])],
    GUARD,
    ROTATING,
    ROTATING,
    ROTATING,
    ROTATING,
    &[
        Row::Count(5),
        FIRST_IS_LEFT,
        Row::Does(&[Move::Publish(READER), Move::LoadCell(READER, ROOT)]),
        SECOND_VERSION,
    ],
    // One rotation, no raise.
    HELD_ROTATING,
    HELD,
    HELD,
    HELD,
    HELD,
    HELD,
    HELD,
    HELD,
    &[Row::Count(5), ALL_ARE_LEFT, READ_ON],
    GUARD,
    ROTATING,
    VERSION_GOES,
    &[SEGMENTS_ARE_LEFT],
    ROTATING,
    ROTATING,
    SEGMENT_GOES,
    ROTATING,
    ROTATING,
    &[Row::Count(13), SECOND_IS_LEFT],
];

#[test]
fn a_reader_that_published_an_old_count_keeps_its_version(rt: HostRuntime) {
    let start = started(&rt, rt.alloc(), 2, 1);
    plays_each(&rt, rt.alloc(), start, OLD_COUNT);
}

const PRESENT_COUNT: &[&[Row]] = &[
    &[FIRST_VERSION],
    GUARD,
    ROTATING,
    ROTATING,
    ROTATING,
    ROTATING,
    &[
        Row::Does(&[
            Move::ReadEpoch(READER),
            Move::Publish(READER),
            Move::Rotate(READER),
            Move::LoadCell(READER, ROOT),
        ]),
        SECOND_VERSION,
    ],
    // Two rotations, one raise.
    ROTATING,
    HELD_ROTATING,
    HELD,
    HELD,
    HELD,
    HELD,
    HELD,
    HELD,
    &[Row::Count(6), ALL_ARE_LEFT, READ_ON],
    GUARD,
    VERSION_GOES,
    &[SEGMENTS_ARE_LEFT],
    ROTATING,
    ROTATING,
    SEGMENT_GOES,
    ROTATING,
    ROTATING,
    ROTATING,
    &[Row::Count(14), SECOND_IS_LEFT],
];

#[test]
fn a_reader_that_published_the_present_count_keeps_its_version(rt: HostRuntime) {
    let start = started(&rt, rt.alloc(), 2, 1);
    plays_each(&rt, rt.alloc(), start, PRESENT_COUNT);
}

// Three guards that raise the count.
const THREE_RAISES: &[Move] = &[
    Move::ReadEpoch(0),
    Move::Publish(0),
    Move::Look(0, 1),
    Move::Raise(0),
    Move::Close(0),
    Move::ReadEpoch(0),
    Move::Publish(0),
    Move::Rotate(0),
    Move::Look(0, 1),
    Move::Raise(0),
    Move::Close(0),
    Move::ReadEpoch(0),
    Move::Publish(0),
    Move::Rotate(0),
    Move::Look(0, 1),
    Move::Raise(0),
    Move::Close(0),
];

const RETIRES: Row = Row::Does(&[
    Move::Place(0, 1, None, None),
    Move::Release(0, 0),
    Move::Retire(0, 0),
]);

const SETTLES: &[Row] = &[
    // Below a count of 3 it doesn't.
    RETIRES,
    Row::Does(&[Move::ReadEpoch(0), Move::LookShut(0, 1)]),
    Row::Refuses(&[Move::Settle(0), Move::LookShut(0, 0), Move::LookShut(1, 0)]),
    Row::Does(&[Move::Publish(0), Move::Close(0)]),
    Row::Does(THREE_RAISES),
    Row::Item(0, ItemState::Retired(0, 2)),
    // While another one has a guard open it isn't looked at.
    Row::Does(&[
        Move::ReadEpoch(1),
        Move::Publish(1),
        Move::Rotate(1),
        Move::ReadEpoch(0),
    ]),
    Row::Refuses(&[Move::LookShut(0, 1), Move::Settle(0)]),
    Row::Does(&[Move::Close(1), Move::LookShut(0, 1), Move::Settle(0)]),
    Row::Item(0, ItemState::Retired(0, 3)),
    Row::Does(&[Move::Publish(0)]),
    Row::Refuses(&[Move::Rotate(0)]),
    Row::Does(&[Move::Reclaim(0, 0)]),
];

#[test]
fn what_waits_is_due_where_no_other_guard_is_open(rt: HostRuntime) {
    let start = started(&rt, rt.alloc(), 2, 1);
    plays(&rt, rt.alloc(), start, SETTLES);
}
