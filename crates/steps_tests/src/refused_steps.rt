//! Where each step is refused.

use crate::common::{Move, Row, is_enabled, plays, started, takes};
use sdd_steps::{ItemState, Seq, State};
use std::alloc::Global;
use std::process::Abort;

// Items of each state, for participant 0: 0 is live, and 1 is a version in the root that holds it; 2 is due; 3 and 6
// are retired; 4 is reclaimed and still holds 0 and cell 1; 5 waits. Item 3 has age 3, item 6 age 2.
const PLACED: &[Move] = &[
    Move::Place(0, 1, None, None),
    Move::RaiseOwners(0, 0),
    Move::RaiseOwners(0, 0),
    Move::RaiseOwners(0, 0),
    Move::Place(0, 2, Some(0), None),
    Move::SwapCell(0, 0, Some(1)),
    Move::Place(0, 3, None, None),
    Move::Place(0, 4, None, None),
    Move::Place(0, 5, Some(0), Some(1)),
    Move::SwapCell(0, 1, Some(0)),
    Move::Place(1, 6, None, None),
    Move::Release(1, 5),
    Move::Retire(1, 5),
    Move::End(1),
    Move::Place(0, 7, None, None),
];

// A guard of participant 0 with a rotation, which raises the count.
const GUARD: &[Move] = &[
    Move::ReadEpoch(0),
    Move::Publish(0),
    Move::Rotate(0),
    Move::Look(0, 1),
    Move::Raise(0),
    Move::Close(0),
];

// Steps that leave items of each state.
const PREPARED: &[&[Move]] = &[
    PLACED,
    &[Move::Release(0, 4), Move::Retire(0, 4)],
    // The first guard finds the count 0, so no rotation is due.
    &[
        Move::ReadEpoch(0),
        Move::Publish(0),
        Move::Look(0, 1),
        Move::Raise(0),
        Move::Close(0),
    ],
    GUARD,
    &[Move::Release(0, 3), Move::Retire(0, 3)],
    GUARD,
    &[Move::Release(0, 6), Move::Retire(0, 6)],
    // A guard under which the first of them is reclaimed.
    &[Move::ReadEpoch(0), Move::Publish(0), Move::Rotate(0)],
    &[Move::Reclaim(0, 4)],
    &[Move::Look(0, 1), Move::Raise(0), Move::Close(0)],
    GUARD,
    &[Move::Release(0, 2)],
];

// The place in which items of each state are.
fn prepared<R: Abort>(rt: &R, alloc: Global) -> State {
    let mut state = started(rt, alloc, 2, 3);
    for moves in PREPARED {
        assert!(rt; takes(rt, alloc, &mut state, moves));
    }
    state
}

// In which phases of participant 0 a step of it is enabled in the prepared state: without a guard, after reading,
// before the rotation, under the guard, and there after a reread, a look and a load.
const FREE: [bool; 5] = [true, false, false, true, true];

const UNDER: [bool; 5] = [false, false, false, true, true];

const AFTER: [bool; 5] = [false, false, false, false, true];

const STEPS: &[(Move, [bool; 5])] = &[
    (Move::ReadEpoch(0), [true, false, false, false, false]),
    (Move::Publish(0), [false, true, false, false, false]),
    (Move::Rotate(0), [false, false, true, false, false]),
    (Move::LoadCell(0, 0), UNDER),
    (Move::LoadInHand(0, 0), UNDER),
    (Move::ReadSegment(0, 1, 0), AFTER),
    (Move::SwapCell(0, 0, None), FREE),
    (Move::Release(0, 0), FREE),
    (Move::Retire(0, 2), FREE),
    (Move::Collect(0, 2), AFTER),
    (Move::Look(0, 1), UNDER),
    (Move::Raise(0), AFTER),
    (Move::Reclaim(0, 3), [true, false, false, false, false]),
    (Move::Reclaim(0, 6), UNDER),
    (Move::GiveUp(0, 4, 0), FREE),
    (Move::GiveUpCell(0, 1), FREE),
    (Move::Close(0), UNDER),
    (Move::Place(0, 9, Some(0), Some(2)), FREE),
    (Move::RaiseOwners(0, 0), FREE),
    (Move::Reread(0), UNDER),
    (Move::TakeOver(0, 5), FREE),
    (Move::End(0), [false, false, false, false, false]),
    (Move::LookShut(0, 1), [false, true, false, false, false]),
    (Move::Settle(0), [false, false, false, false, false]),
];

// Whether steps are enabled and refused in a phase as a table says.
fn are_as_said<R: Abort>(
    rt: &R,
    alloc: Global,
    state: &State,
    phase: usize,
    steps: &[(Move, [bool; 5])],
) -> bool {
    for (one, enabled) in steps {
        if enabled.get(phase).copied() != Some(is_enabled(rt, alloc, state, *one)) {
            return false;
        }
    }
    true
}

// What leads from each phase to the next one.
const PHASES: &[&[Move]] = &[
    &[],
    &[Move::ReadEpoch(0)],
    &[Move::Publish(0)],
    &[Move::Rotate(0)],
    &[Move::Reread(0), Move::Look(0, 1), Move::LoadCell(0, 0)],
];

// A close takes away what the guard had.
const CLOSED: &[Row] = &[
    Row::Does(&[Move::Close(0), Move::ReadEpoch(0), Move::Publish(0)]),
    Row::Refuses(&[
        Move::Raise(0),
        Move::Collect(0, 2),
        Move::ReadSegment(0, 1, 0),
    ]),
];

#[test]
fn each_step_is_refused_in_each_phase_where_it_isnt_enabled(rt: HostRuntime) {
    let mut state = prepared(&rt, rt.alloc());
    for (phase, moves) in PHASES.iter().enumerate() {
        let moved = takes(&rt, rt.alloc(), &mut state, moves);
        let right = are_as_said(&rt, rt.alloc(), &state, phase, STEPS);
        assert!(rt; moved && right, "phase {phase}");
    }
    plays(&rt, rt.alloc(), state, CLOSED);
}

const NOWHERE: &[Row] = &[
    Row::Refuses(&[
        Move::ReadEpoch(2),
        Move::Release(2, 0),
        Move::End(2),
        Move::RaiseOwners(2, 0),
        Move::SwapCell(2, 0, None),
        Move::SwapCell(0, 3, None),
        Move::SwapCell(0, 0, Some(7)),
        Move::Release(0, 7),
        Move::Retire(0, 7),
        Move::Reclaim(0, 7),
        Move::GiveUp(0, 7, 0),
        Move::GiveUpCell(0, 3),
        Move::RaiseOwners(0, 7),
        Move::TakeOver(0, 7),
        Move::Place(0, 9, Some(7), None),
        Move::Place(0, 9, None, Some(3)),
    ]),
    Row::Does(&[
        Move::ReadEpoch(0),
        Move::Publish(0),
        Move::Rotate(0),
        Move::Reread(0),
    ]),
    Row::Refuses(&[
        Move::LoadCell(0, 3),
        Move::LoadInHand(0, 7),
        Move::Collect(0, 7),
        Move::Look(0, 2),
        Move::ReadSegment(0, 7, 0),
    ]),
];

#[test]
fn items_cells_and_participants_that_arent_there_are_refused(rt: HostRuntime) {
    let state = prepared(&rt, rt.alloc());
    plays(&rt, rt.alloc(), state, NOWHERE);
}

const OF_ANOTHER_FATE: &[Row] = &[Row::Refuses(&[
    // Not in hand: the version is in the root. One owner of the segment is in hand, and no more.
    Move::Release(0, 1),
    Move::SwapCell(0, 0, Some(1)),
    Move::Place(0, 9, Some(1), None),
    Move::PlaceTwice(0, 9, 0),
    // A cell that an item holds.
    Move::Place(0, 9, None, Some(1)),
    // Due to another, live, retired, waiting, reclaimed.
    Move::Retire(1, 2),
    Move::Retire(0, 0),
    Move::Retire(0, 3),
    Move::Retire(0, 5),
    Move::Retire(0, 4),
    // Younger, of another, live, due, waiting, reclaimed before.
    Move::Reclaim(0, 6),
    Move::Reclaim(1, 3),
    Move::Reclaim(0, 0),
    Move::Reclaim(0, 2),
    Move::Reclaim(0, 5),
    Move::Reclaim(0, 4),
    // Not reclaimed, reclaimed by another, not held.
    Move::GiveUp(0, 1, 0),
    Move::GiveUp(1, 4, 0),
    Move::GiveUp(0, 4, 1),
    // A cell by itself, an empty one, and one whose holder another reclaimed.
    Move::GiveUpCell(0, 0),
    Move::GiveUpCell(0, 2),
    Move::GiveUpCell(1, 1),
    // Without owners.
    Move::RaiseOwners(0, 2),
    Move::RaiseOwners(0, 3),
    Move::RaiseOwners(0, 4),
    Move::RaiseOwners(0, 5),
    // Live, due, retired, reclaimed.
    Move::TakeOver(0, 0),
    Move::TakeOver(0, 2),
    Move::TakeOver(0, 3),
    Move::TakeOver(0, 4),
    // A cell of an item that is neither loaded nor in hand.
    Move::SwapCell(0, 1, None),
    // Something is due; a guard isn't open.
    Move::End(0),
    Move::Raise(1),
])];

#[test]
fn steps_on_items_in_another_state_are_refused(rt: HostRuntime) {
    let state = prepared(&rt, rt.alloc());
    plays(&rt, rt.alloc(), state, OF_ANOTHER_FATE);
}

// Item 0 is in cell 1, which item 1 holds; item 1 is in hand.
const HELD_CELL: &[Row] = &[
    Row::Does(&[
        Move::Place(0, 1, None, None),
        Move::Place(0, 2, None, Some(1)),
        Move::SwapCell(0, 1, Some(0)),
        Move::ReadEpoch(1),
        Move::Publish(1),
    ]),
    Row::Allows(Move::LoadCell(1, 1)),
    Row::Refuses(&[Move::LoadCell(1, 0)]),
    Row::Does(&[Move::SwapCell(0, 0, Some(1))]),
    Row::Refuses(&[
        Move::LoadCell(1, 1),
        Move::SwapCell(1, 1, None),
        Move::LoadInHand(1, 1),
    ]),
    Row::Does(&[Move::LoadCell(1, 0), Move::LoadCell(1, 1)]),
    Row::Does(&[Move::SwapCell(1, 1, None)]),
    Row::Cell(1, Some(1), None),
    Row::Refuses(&[Move::LoadCell(1, 1)]),
];

#[test]
fn a_held_cell_is_reached_by_its_holder_alone(rt: HostRuntime) {
    let start = started(&rt, rt.alloc(), 2, 2);
    plays(&rt, rt.alloc(), start, HELD_CELL);
}

const RAISES: &[Row] = &[
    Row::Does(&[
        Move::ReadEpoch(0),
        Move::Publish(0),
        Move::ReadEpoch(2),
        Move::Publish(2),
        Move::Look(0, 1),
    ]),
    Row::Refuses(&[Move::Raise(0), Move::Look(0, 0)]),
    Row::Does(&[Move::Look(0, 2), Move::Raise(0)]),
    Row::Count(1),
    // The guards that are open published 0, so nobody raises the count again before they close.
    Row::Refuses(&[Move::Raise(0), Move::Look(0, 2), Move::Look(2, 0)]),
    Row::Does(&[Move::Look(0, 1), Move::Look(2, 1)]),
    Row::Refuses(&[Move::Raise(0), Move::Raise(2)]),
];

#[test]
fn a_raise_is_refused_until_all_others_were_looked_at(rt: HostRuntime) {
    let start = started(&rt, rt.alloc(), 3, 1);
    plays(&rt, rt.alloc(), start, RAISES);
}

const NOTED_GUARD: Row = Row::Does(&[
    Move::ReadEpoch(0),
    Move::Publish(0),
    Move::Rotate(0),
    Move::Reread(0),
]);

const RAISED: Row = Row::Does(&[Move::Look(0, 1), Move::Raise(0), Move::Close(0)]);

const NOTED: &[Row] = &[
    Row::Does(&[
        Move::Place(0, 1, None, None),
        Move::ReadEpoch(0),
        Move::Publish(0),
        Move::Reread(0),
        Move::Release(0, 0),
        Move::Collect(0, 0),
    ]),
    RAISED,
    Row::Item(0, ItemState::Collected(0)),
    NOTED_GUARD,
    Row::Count(1),
    Row::Refuses(&[Move::Reclaim(0, 0)]),
    RAISED,
    NOTED_GUARD,
    Row::Count(2),
    Row::Refuses(&[Move::Reclaim(0, 0)]),
    RAISED,
    // The count that was published isn't one that was read again.
    Row::Does(&[Move::ReadEpoch(0), Move::Publish(0), Move::Rotate(0)]),
    Row::Refuses(&[Move::Reclaim(0, 0)]),
    Row::Does(&[Move::Reread(0), Move::Reclaim(0, 0)]),
    Row::Item(0, ItemState::Reclaimed(0)),
];

#[test]
fn an_item_of_a_private_bag_is_reclaimed_three_counts_above_its_note(rt: HostRuntime) {
    let start = started(&rt, rt.alloc(), 2, 1);
    plays(&rt, rt.alloc(), start, NOTED);
}

const TAKEN_OVER: &[Row] = &[
    Row::Does(&[
        Move::Place(0, 1, None, None),
        Move::Release(0, 0),
        Move::Retire(0, 0),
        Move::End(0),
    ]),
    Row::Item(0, ItemState::Waiting),
    Row::Does(&[Move::TakeOver(1, 0)]),
    Row::Item(0, ItemState::Retired(1, 0)),
];

#[test]
fn a_participant_that_ended_leaves_its_items_to_another(rt: HostRuntime) {
    let start = started(&rt, rt.alloc(), 2, 1);
    plays(&rt, rt.alloc(), start, TAKEN_OVER);
}

const EMPTIED: &[Row] = &[
    Row::Cell(1, Some(4), Some(0)),
    Row::Does(&[Move::GiveUpCell(0, 1)]),
    Row::Cell(1, None, None),
    Row::InHand(0, 2),
];

#[test]
fn a_cell_of_a_reclaimed_item_stands_by_itself_when_it_is_empty(rt: HostRuntime) {
    let state = prepared(&rt, rt.alloc());
    plays(&rt, rt.alloc(), state, EMPTIED);
}

#[test]
fn a_list_is_made_from_a_vec_and_gives_it_back(rt: HostRuntime) {
    let mut list: Seq<usize> = Seq::from_vec(Vec::new(rt.alloc()));
    list.push(7).expect(&rt, "memory");
    assert!(rt; list.as_slice().first().copied() == Some(7));
    assert!(rt; list.into_vec().len() == 1);
}
