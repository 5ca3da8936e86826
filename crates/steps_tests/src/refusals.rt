//! Runs in which any one allocation may be refused. A script has each refused in turn: whatever is refused, the state
//! is as it was, and the same step then succeeds.

use crate::common::{Move, Row, plays, step};
use sdd_steps::{ItemState, State, Step, apply};
use std::alloc::{AllocError, Global};
use std::process::Abort;

const TWICE: &str = "memory was refused twice";

fn start<R: Abort>(rt: &R, alloc: Global, met: &mut bool) -> State {
    match State::start(alloc, 2, 2) {
        Ok(state) => state,
        Err(AllocError) => {
            *met = true;
            State::start(alloc, 2, 2).expect(rt, TWICE)
        }
    }
}

// Moves of each kind that takes memory, one after the other.
const MOVES: &[Move] = &[
    Move::Place(0, 7, None, None),
    Move::Place(0, 8, Some(0), Some(1)),
    Move::SwapCell(0, 0, Some(1)),
    Move::ReadEpoch(0),
    Move::Publish(0),
    Move::LoadCell(0, 0),
    Move::Look(0, 1),
    Move::Raise(0),
    Move::SwapCell(0, 0, None),
    Move::Release(0, 1),
    Move::Retire(0, 1),
    Move::Close(0),
];

fn made<R: Abort>(rt: &R, alloc: Global, one: Move, met: &mut bool) -> Step {
    match step(alloc, one) {
        Ok(step) => step,
        Err(AllocError) => {
            *met = true;
            step(alloc, one).expect(rt, TWICE)
        }
    }
}

// What a move leaves, taken again where memory was refused.
fn taken<R: Abort>(rt: &R, alloc: Global, state: &State, one: Move, met: &mut bool) -> State {
    let first = made(rt, alloc, one, met);
    match apply(alloc, state, first) {
        Ok(next) => next.expect(rt, "a step that is enabled"),
        Err(AllocError) => {
            *met = true;
            apply(alloc, state, made(rt, alloc, one, met))
                .expect(rt, TWICE)
                .expect(rt, "a step that is enabled")
        }
    }
}

const TAKEN: &[Row] = &[
    Row::Count(1),
    Row::Sizes(2, 2, 2),
    Row::Item(0, ItemState::Live),
    Row::Item(1, ItemState::Retired(0, 0)),
    Row::Cell(0, None, None),
    Row::Cell(1, Some(1), None),
];

// Whether an allocation was refused while the steps were taken.
fn takes_steps<R: Abort>(rt: &R, alloc: Global) -> bool {
    let mut met = false;
    let mut state = start(rt, alloc, &mut met);
    for one in MOVES {
        state = taken(rt, alloc, &state, *one, &mut met);
    }
    plays(rt, alloc, state, TAKEN);
    met
}

#[test]
fn a_refusal_of_memory_changes_nothing(rt: HostRuntime) {
    let _met = takes_steps(&rt, rt.alloc());
}

// This one fails as long as an allocation is refused, so that a script knows when to stop.

#[test]
fn no_memory_is_refused(rt: HostRuntime) {
    assert!(rt; !takes_steps(&rt, rt.alloc()));
}
