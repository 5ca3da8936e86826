//! What a state is made of, before it is known that it keeps its promise.

ghost use Rattle.std.specs.Prelude.{◌≡◌, ◌<◌, length, IfOk};
ghost use Rattle.sdd_steps.specs.State.{newcomer, participant_at, cell_at, item_at, with_participant, with_cell, with_item};
ghost use Rattle.sdd_steps.specs.Snapshots.{snapshot_state};

use crate::item::{Cell, Item, ItemState};
use crate::participant::{Loaded, Participant, Phase, Seen};
use crate::seq::Seq;
use std::alloc::{AllocError, Global};

/// The parts of a state.
#[derive(Drop)]
pub(crate) struct Snapshot {
    pub(crate) count: u64,
    pub(crate) participants: Vec<Participant>,
    pub(crate) cells: Vec<Cell>,
    pub(crate) items: Vec<Item>,
}

/// What can be copied as it is, where memory suffices.
pub(crate) trait Copied: Drop {
    fn copied(&self, alloc: Global) -> Result<Self, AllocError>
        ensures { IfOk result (λ y. y ≡ self.now) };
}

impl Copied for usize {
    fn copied(&self, _alloc: Global) -> Result<usize, AllocError> {
        Ok(*self)
    }
}

impl Copied for Seen {
    fn copied(&self, _alloc: Global) -> Result<Seen, AllocError> {
        Ok(*self)
    }
}

impl Copied for Cell {
    fn copied(&self, _alloc: Global) -> Result<Cell, AllocError> {
        Ok(*self)
    }
}

pub(crate) fn copy_all<T: Copied>(alloc: Global, items: &[T]) -> Result<Vec<T>, AllocError>
    ensures { IfOk result (λ all. all.items ≡ items.now) }
{
    let mut all = Vec::new(alloc);
    for item in items {
        all.push(item.copied(alloc)?)?;
    }
    Ok(all)
}

impl<T: Copied> Copied for Seq<T> {
    fn copied(&self, alloc: Global) -> Result<Self, AllocError> {
        Ok(Seq::from_vec(copy_all(alloc, self.as_slice())?))
    }
}

impl Copied for Loaded {
    fn copied(&self, alloc: Global) -> Result<Loaded, AllocError> {
        Ok(Loaded {
            item: self.item,
            value: self.value,
            holds: self.holds.copied(alloc)?,
        })
    }
}

impl Copied for Participant {
    fn copied(&self, alloc: Global) -> Result<Participant, AllocError> {
        Ok(Participant {
            phase: self.phase,
            found: self.found,
            reread: self.reread,
            looked: self.looked.copied(alloc)?,
            loaded: self.loaded.copied(alloc)?,
        })
    }
}

impl Copied for Item {
    fn copied(&self, alloc: Global) -> Result<Item, AllocError> {
        Ok(Item {
            value: self.value,
            hand: self.hand,
            owners: self.owners,
            holds: self.holds.copied(alloc)?,
            state: self.state,
        })
    }
}

impl Snapshot {
    pub(crate) fn copied(&self, alloc: Global) -> Result<Snapshot, AllocError>
        ensures { IfOk result (λ t. snapshot_state t ≡ snapshot_state self.now) }
    {
        Ok(Snapshot {
            count: self.count,
            participants: copy_all(alloc, &self.participants)?,
            cells: copy_all(alloc, &self.cells)?,
            items: copy_all(alloc, &self.items)?,
        })
    }

    pub(crate) fn participant(&self, p: usize) -> &Participant
        requires { p < length self.now.participants.items }
        ensures { result.now ≡ participant_at (snapshot_state self.now) p }
    {
        &self.participants[p]
    }

    pub(crate) fn cell(&self, c: usize) -> Cell
        ensures { result ≡ cell_at (snapshot_state self.now) c }
    {
        match self.cells.get(c) {
            Some(o) => *o,
            None => Cell {
                holder: None,
                names: None,
            },
        }
    }

    pub(crate) fn item(&self, i: usize) -> &Item
        requires { i < length self.now.items.items }
        ensures { result.now ≡ item_at (snapshot_state self.now) i }
    {
        &self.items[i]
    }

    /// A participant as it is, to be changed and set again.
    pub(crate) fn participant_copy(
        &self,
        alloc: Global,
        p: usize,
    ) -> Result<Participant, AllocError>
        ensures { IfOk result (λ x. x ≡ participant_at (snapshot_state self.now) p) }
    {
        match self.participants.get(p) {
            Some(x) => x.copied(alloc),
            None => Ok(Participant::new(alloc)),
        }
    }

    /// An item as it is, to be changed and set again.
    pub(crate) fn item_copy(&self, alloc: Global, i: usize) -> Result<Item, AllocError>
        ensures { IfOk result (λ it. it ≡ item_at (snapshot_state self.now) i) }
    {
        match self.items.get(i) {
            Some(item) => item.copied(alloc),
            None => Ok(Item {
                value: 0,
                hand: 0,
                owners: 0,
                holds: Seq::new(alloc),
                state: ItemState::Waiting,
            }),
        }
    }

    pub(crate) fn set_participant(&mut self, p: usize, x: Participant)
        ensures { snapshot_state self.new ≡ with_participant (snapshot_state self.old) p x }
    {
        if p < self.participants.len() {
            self.participants[p] = x;
        }
    }

    pub(crate) fn set_cell(&mut self, c: usize, o: Cell)
        ensures { snapshot_state self.new ≡ with_cell (snapshot_state self.old) c o }
    {
        if c < self.cells.len() {
            self.cells[c] = o;
        }
    }

    pub(crate) fn set_item(&mut self, i: usize, item: Item)
        ensures { snapshot_state self.new ≡ with_item (snapshot_state self.old) i item }
    {
        if i < self.items.len() {
            self.items[i] = item;
        }
    }
}

impl Participant {
    /// A participant that never had a guard.
    pub(crate) fn new(alloc: Global) -> Self
        ensures { result ≡ newcomer }
    {
        Participant {
            phase: Phase::Idle,
            found: 0,
            reread: None,
            looked: Seq::new(alloc),
            loaded: Seq::new(alloc),
        }
    }
}
