//! States that keep their promise, and the steps between them.

ghost use Rattle.std.specs.Prelude.{◌≡◌, ◌<◌, ◌≤◌, ◌^◌, false, IfOk, MatchOption};
ghost use Rattle.sdd_steps.specs.State.{start};
ghost use Rattle.sdd_steps.specs.Steps.{enabled, LeadsTo};
ghost use Rattle.sdd_steps.specs.Invariant.{Safe};
ghost use Rattle.sdd_steps.specs.Snapshots.{snapshot_state};

use crate::item::{Cell, Item};
use crate::participant::Participant;
use crate::snapshot::Snapshot;
use crate::step::Step;
use std::alloc::{AllocError, Global};
use std::marker::Model;

/// A state that steps leave, from its start on.
///
/// Contracts see it as its count of raises, its participants, cells and items. Its type keeps the promise over all
/// schedules: see [`is_safe`](State::is_safe).
#[derive(Drop)]
pub struct State {
    snapshot: Snapshot,
}

/// Invariant: specs/Invariant.antt, Inv: what every schedule of single steps keeps.
impl Model for State {
    ghost use Rattle.sdd_steps.specs.State as core;

    ghost Value = { core.State };

    ghost use Rattle.sdd_steps.specs.Invariant.{Inv};
    ghost use Rattle.sdd_steps.specs.Snapshots.{snapshot_state};

    ghost view = { λ s. snapshot_state s.snapshot };

    ghost invariant = { λ s. Inv (snapshot_state s.snapshot) };
}

impl State {
    /// The start: the count is 0, no participant has a guard, all cells are empty and without a holder, and there
    /// is no item. Cell 0 is the root. Fails only if an allocation fails.
    pub fn start(alloc: Global, participants: usize, cells: usize) -> Result<State, AllocError>
        requires participants { (1 ≤ participants) × (participants ≤ 2 ^ 30) }
        requires cells { (1 ≤ cells) × (cells ≤ 2 ^ 30) }
        ensures { IfOk result (λ s. s ≡ start participants cells) }
    {
        let mut all = Vec::new(alloc);
        for _p in 0..participants {
            all.push(Participant::new(alloc))?;
        }
        let mut row = Vec::new(alloc);
        for _c in 0..cells {
            row.push(Cell {
                holder: None,
                names: None,
            })?;
        }
        Ok(State {
            snapshot: Snapshot {
                count: 0,
                participants: all,
                cells: row,
                items: Vec::new(alloc),
            },
        })
    }

    /// How often the count was raised.
    pub fn count(&self) -> u64
        ensures { result ≡ self.now.count }
    {
        self.snapshot.count
    }

    /// The participants, in the order of their numbers.
    pub fn participants(&self) -> &[Participant]
        ensures { result.now ≡ self.now.participants }
    {
        self.snapshot.participants.as_slice()
    }

    /// The cells, in the order of their numbers. Cell 0 is the root.
    pub fn cells(&self) -> &[Cell]
        ensures { result.now ≡ self.now.cells }
    {
        self.snapshot.cells.as_slice()
    }

    /// The items, in the order of placing.
    pub fn items(&self) -> &[Item]
        ensures { result.now ≡ self.now.items }
    {
        self.snapshot.items.as_slice()
    }

    /// The promise over all schedules, which the type keeps: for every open guard nothing that it loaded is
    /// reclaimed, what it loaded still holds all that it held, each of these has an owner, and all values are as when
    /// loaded.
    pub fn is_safe(&self)
        ensures { Safe self.now }
    {
        let _ = &self.snapshot;
    }
}

/// The next state if the step is enabled, else `None`. Fails only if an allocation fails, or if as many items
/// were placed as can be kept. The state that is passed in stays as it is in each case.
///
/// <!-- crates/version_tests/src/single_steps.rt after -->
/// ```text
/// // What a step leaves, which has to be enabled.
/// fn after<R: Abort>(rt: &R, alloc: Global, state: State, step: Step) -> State {
///     match apply(alloc, &state, step) {
///         Ok(Some(next)) => next,
///         _ => panic!(rt; "a step that isn't enabled"),
///     }
/// }
/// ```
/// <!-- end -->
pub fn apply(alloc: Global, state: &State, step: Step) -> Result<Option<State>, AllocError>
    ensures { IfOk result (λ o. MatchOption o (enabled state.now step ≡ false) (λ t. LeadsTo state.now step t)) }
{
    if !state.snapshot.is_enabled(&step) {
        return Ok(None);
    }
    let mut next = state.snapshot.copied(alloc)?;
    next.take(alloc, step)?;
    Ok(Some(State { snapshot: next }))
}
