//! Steps as plain numbers, and tables of them.

ghost use Rattle.std.specs.Prelude.{◌≤◌};

use sdd_steps::{Cell, ItemState, Seq, State, Step, apply};
use std::alloc::{AllocError, Global};
use std::process::Abort;

/// A step, with at most one item and one cell to be held by an item that is placed.
#[derive(Clone, Copy)]
pub(crate) enum Move {
    ReadEpoch(usize),
    Publish(usize),
    Rotate(usize),
    LoadCell(usize, usize),
    LoadInHand(usize, usize),
    ReadSegment(usize, usize, usize),
    SwapCell(usize, usize, Option<usize>),
    Release(usize, usize),
    Retire(usize, usize),
    Collect(usize, usize),
    Look(usize, usize),
    Raise(usize),
    Reclaim(usize, usize),
    GiveUp(usize, usize, usize),
    GiveUpCell(usize, usize),
    Close(usize),
    Place(usize, u64, Option<usize>, Option<usize>),
    /// An item that holds another one twice.
    PlaceTwice(usize, u64, usize),
    RaiseOwners(usize, usize),
    Reread(usize),
    End(usize),
    TakeOver(usize, usize),
    LookShut(usize, usize),
    Settle(usize),
}

fn listed(alloc: Global, number: Option<usize>) -> Result<Seq<usize>, AllocError> {
    let mut all = Seq::new(alloc);
    if let Some(number) = number {
        all.push(number)?;
    }
    Ok(all)
}

fn place(
    alloc: Global,
    p: usize,
    value: u64,
    held: Option<usize>,
    cell: Option<usize>,
) -> Result<Step, AllocError> {
    let held = listed(alloc, held)?;
    let cells = listed(alloc, cell)?;
    Ok(Step::Place(p, value, held, cells))
}

fn place_twice(alloc: Global, p: usize, value: u64, held: usize) -> Result<Step, AllocError> {
    let mut all = listed(alloc, Some(held))?;
    all.push(held)?;
    Ok(Step::Place(p, value, all, Seq::new(alloc)))
}

pub(crate) fn step(alloc: Global, one: Move) -> Result<Step, AllocError> {
    match one {
        Move::ReadEpoch(p) => Ok(Step::ReadEpoch(p)),
        Move::Publish(p) => Ok(Step::Publish(p)),
        Move::Rotate(p) => Ok(Step::Rotate(p)),
        Move::LoadCell(p, c) => Ok(Step::LoadCell(p, c)),
        Move::LoadInHand(p, i) => Ok(Step::LoadInHand(p, i)),
        Move::ReadSegment(p, i, k) => Ok(Step::ReadSegment(p, i, k)),
        Move::SwapCell(p, c, new) => Ok(Step::SwapCell(p, c, new)),
        Move::Release(p, i) => Ok(Step::Release(p, i)),
        Move::Retire(p, i) => Ok(Step::Retire(p, i)),
        Move::Collect(p, i) => Ok(Step::Collect(p, i)),
        Move::Look(p, q) => Ok(Step::Look(p, q)),
        Move::Raise(p) => Ok(Step::Raise(p)),
        Move::Reclaim(p, i) => Ok(Step::Reclaim(p, i)),
        Move::GiveUp(p, j, i) => Ok(Step::GiveUp(p, j, i)),
        Move::GiveUpCell(p, c) => Ok(Step::GiveUpCell(p, c)),
        Move::Close(p) => Ok(Step::Close(p)),
        Move::Place(p, value, held, cell) => place(alloc, p, value, held, cell),
        Move::PlaceTwice(p, value, held) => place_twice(alloc, p, value, held),
        Move::RaiseOwners(p, i) => Ok(Step::RaiseOwners(p, i)),
        Move::Reread(p) => Ok(Step::Reread(p)),
        Move::End(p) => Ok(Step::End(p)),
        Move::TakeOver(p, i) => Ok(Step::TakeOver(p, i)),
        Move::LookShut(p, q) => Ok(Step::LookShut(p, q)),
        Move::Settle(p) => Ok(Step::Settle(p)),
    }
}

/// What a move leaves, if it is enabled.
pub(crate) fn after<R: Abort>(rt: &R, alloc: Global, state: &State, one: Move) -> Option<State> {
    let step = step(alloc, one).expect(rt, "memory");
    apply(alloc, state, step).expect(rt, "memory")
}

/// Takes the moves of a list, as far as they are enabled, and returns whether all are.
pub(crate) fn takes<R: Abort>(rt: &R, alloc: Global, state: &mut State, moves: &[Move]) -> bool {
    for one in moves {
        match after(rt, alloc, state, *one) {
            Some(next) => *state = next,
            None => return false,
        }
    }
    true
}

pub(crate) fn is_enabled<R: Abort>(rt: &R, alloc: Global, state: &State, one: Move) -> bool {
    after(rt, alloc, state, one).is_some()
}

/// Whether each move of a list is refused.
pub(crate) fn refuses<R: Abort>(rt: &R, alloc: Global, state: &State, moves: &[Move]) -> bool {
    for one in moves {
        if is_enabled(rt, alloc, state, *one) {
            return false;
        }
    }
    true
}

/// A row of a table: what is done, or what is so then.
#[derive(Clone, Copy)]
pub(crate) enum Row {
    /// These moves are taken, one after the other.
    Does(&'static [Move]),
    /// Each of these is refused.
    Refuses(&'static [Move]),
    /// This one is enabled, and isn't taken.
    Allows(Move),
    /// The count.
    Count(u64),
    /// An item and its state.
    Item(usize, ItemState),
    /// How many owners of an item are in hand.
    InHand(usize, u64),
    /// A cell, the item that holds it, and the item that it names.
    Cell(usize, Option<usize>, Option<usize>),
    /// How many participants, cells and items there are.
    Sizes(usize, usize, usize),
    /// Which of the first items are left: placed, and not reclaimed.
    Left([bool; 4]),
}

fn sizes(state: &State) -> (usize, usize, usize) {
    (
        state.participants().len(),
        state.cells().len(),
        state.items().len(),
    )
}

fn state_of(state: &State, i: usize) -> Option<ItemState> {
    state.items().get(i).map(|item| item.state)
}

fn in_hand(state: &State, i: usize) -> Option<u64> {
    state.items().get(i).map(|item| item.hand)
}

fn is_left(state: &State, i: usize) -> bool {
    match state_of(state, i) {
        None | Some(ItemState::Reclaimed(_)) => false,
        Some(_) => true,
    }
}

/// Whether a row comes out right.
fn is_right<R: Abort>(rt: &R, alloc: Global, state: &mut State, row: Row) -> bool {
    match row {
        Row::Does(moves) => takes(rt, alloc, state, moves),
        Row::Refuses(moves) => refuses(rt, alloc, state, moves),
        Row::Allows(one) => is_enabled(rt, alloc, state, one),
        Row::Count(count) => state.count() == count,
        Row::Item(i, wanted) => state_of(state, i) == Some(wanted),
        Row::InHand(i, wanted) => in_hand(state, i) == Some(wanted),
        Row::Cell(c, holder, names) => state.cells().get(c).copied()
            == Some(Cell { holder, names }),
        Row::Sizes(participants, cells, items) => sizes(state) == (participants, cells, items),
        Row::Left(wanted) => [0, 1, 2, 3].map(|i| is_left(state, i)) == wanted,
    }
}

/// Plays a table from a state on: each row has to come out right.
pub(crate) fn plays<R: Abort>(rt: &R, alloc: Global, start: State, rows: &[Row]) {
    plays_each(rt, alloc, start, &[rows]);
}

/// Plays tables, each from what the one before leaves.
pub(crate) fn plays_each<R: Abort>(rt: &R, alloc: Global, start: State, tables: &[&[Row]]) {
    let mut state = start;
    let mut played = 0usize;
    let mut right = 0usize;
    for rows in tables {
        for row in *rows {
            if right == played && is_right(rt, alloc, &mut state, *row) {
                right = right.saturating_add(1);
            }
            played = played.saturating_add(1);
        }
    }
    assert!(rt; right == played, "row {right}");
}

/// A place at its start.
pub(crate) fn started<R: Abort>(rt: &R, alloc: Global, participants: usize, cells: usize) -> State
    requires participants { (1 ≤ participants) × (participants ≤ 1000) }
    requires cells { (1 ≤ cells) × (cells ≤ 1000) }
{
    State::start(alloc, participants, cells).expect(rt, "memory")
}
