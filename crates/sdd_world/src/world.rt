//! A place of one thread: items in numbered slots, kept in plain safe storage.
//!
//! Clauses see a world as its `State`. What a call leaves alone is its clause `keeps`: the values of items that have an
//! owner, and what an open guard protects.

ghost use Rattle.std.specs.Prelude.{◌≡◌, ◌⊎◌, ℕ, IsOk, IfOk, IfErr, IfNone, IfSome, IsTrue, IsFalse, ◌↔◌, Some, None, is_some, sum_by, length};
ghost use Rattle.sdd_table.specs.State.{fresh, in_use, value_at, vacancy, IsUnused};
ghost use Rattle.sdd_table.specs.Steps.{AllSwept, NoneOpen};
ghost use Rattle.sdd_table.specs.Place.{IsPlace, IsOpen, IsReadable, IsSized};
ghost use Rattle.sdd_world.specs.Tokens.{loaded_slot, ptr_slot};

use crate::cell::AtomicShared;
use crate::exclusive_access::ExclusiveAccess;
use crate::holds::Holds;
use crate::job::{Deferred, Job};
use crate::owner::{Owned, Shared};
use crate::pointer::{Loaded, Ptr};
use crate::refusal::{GuardsOpen, NotLent};
use crate::sizes::Sizes;
use crate::status::Cell;
use sdd_table::store::Store;
use sdd_table::table::Table;
use sdd_table::{reclaim, tokens};
use std::alloc::{AllocError, Global};
use std::marker::Model;

pub mod atomic_owned;
pub mod atomic_raw;
pub mod atomic_shared;
mod cells;
pub mod group;
pub mod guard;
pub mod owned;
pub mod private_collector;
pub mod ptr;
pub mod raw_ptr;
pub mod shared;

/// A place of one thread, with room for all that its sizes name. It can't be dropped: `close` ends it.
/// `J` is what it keeps as jobs: a structure that defers none takes `NoJob`.
pub struct World<T, J: Deferred = Job> {
    pub(crate) table: Table<T, J>,
}

/// Invariant: specs/Place.antt of `sdd_table`, IsPlace: what waits is in one bag of one participant, and an open guard is at
/// most one count behind.
impl<T, J: Deferred> Model for World<T, J> {
    ghost use Rattle.sdd_table.specs.State.{State};

    ghost Value = { State T };

    ghost use Rattle.sdd_table.specs.Place.{IsPlace};

    ghost view = { λ w. w.table };

    ghost invariant = { λ w. IsPlace w.table };
}

impl<T, J: Deferred> World<T, J> {
    /// A place without items, whose participants are named by 0, 1, .. . It takes all the memory that the place will
    /// ever use, but that of groups; without memory nothing is kept.
    pub fn new(alloc: Global, sizes: Sizes) -> Result<World<T, J>, AllocError>
        requires { IsSized sizes }
        ensures { IfOk result (λ w. w ≡ fresh sizes) }
    {
        Ok(World {
            table: Table::new(alloc, &sizes)?,
        })
    }

    /// Ends the place: everything that waits is reclaimed, and what that leaves. It is handed back as it was while a
    /// guard is open, and handed back with nothing waiting if an owner or a cell is still out.
    pub fn close(self) -> Result<(), World<T, J>>
    where
        T: Holds,
        ensures ended { IsOk result → NoneOpen self × (w : _) × AllSwept T.holds self w × IsUnused w }
        ensures back { IfErr result (λ w. (((p : ℕ) × IsOpen self p) × (w ≡ self)) ⊎ (NoneOpen self × AllSwept T.holds self w × (¬ IsUnused w))) }
    {
        let World { mut table } = self;
        if table.any_open() {
            return Err(World { table });
        }
        reclaim::sweep_all(&mut table);
        if !table.is_unused() {
            return Err(World { table });
        }
        table.end();
        Ok(())
    }

    /// The table of the place, for callers that only read items.
    pub fn table(&self) -> &Table<T, J>
        ensures { result.now ≡ self.now }
    {
        &self.table
    }

    /// How many slots have an item, those that wait to be reclaimed counted.
    pub fn slots_in_use(&self) -> usize
        ensures { result ≡ in_use self.now }
    {
        self.table.used()
    }

    /// What always holds of a place: each item that waits is in one bag, once, and no guard is behind its count. Nothing
    /// runs.
    pub fn laws(&self)
        ensures { IsPlace self.now }
    {
        let _table = &self.table;
    }

    /// How many slots are free.
    pub fn free_slots(&self) -> usize
        ensures { result ≡ sum_by vacancy self.now.states }
    {
        self.table.free_count()
    }

    /// How many participants there are: they are named by the numbers below it.
    pub fn participants(&self) -> usize
        ensures { result ≡ length self.now.participants }
    {
        self.table.participants()
    }

    /// Whether a guard of any participant is open.
    pub fn has_open_guard(&self) -> bool
        ensures open { IsTrue result → (p : ℕ) × IsOpen self.now p }
        ensures none { IsFalse result → NoneOpen self.now }
    {
        self.table.any_open()
    }

    /// Whether `read` may be asked for `at`.
    pub fn is_readable(&self, at: &Ptr<'static, T>) -> bool
        ensures { IsTrue result ↔ IsReadable self.now (ptr_slot at.now) }
    {
        match at.slot {
            None => true,
            Some(i) => self.table.has_item(i),
        }
    }

    /// The item that `at` names, or none for null. Condition: it is there.
    pub fn read(&self, at: &Ptr<'static, T>) -> Option<&T>
        requires { IsReadable self.now (ptr_slot at.now) }
        ensures null { IfNone (ptr_slot at.now) (result ≡ None) }
        ensures item { IfSome (ptr_slot at.now) (λ i. IfSome result (λ v. Some v.now ≡ value_at self.now i)) }
        ensures same { is_some result ≡ is_some (ptr_slot at.now) }
    {
        match at.slot {
            None => None,
            Some(i) => Some(self.table.value(i)),
        }
    }

    /// The item that was loaded, or none for null. Condition: it is there.
    pub fn read_loaded(&self, at: &Loaded<T>) -> Option<&T>
        requires { IsReadable self.now (loaded_slot at.now) }
        ensures null { IfNone (loaded_slot at.now) (result ≡ None) }
        ensures item { IfSome (loaded_slot at.now) (λ i. IfSome result (λ v. Some v.now ≡ value_at self.now i)) }
        ensures same { is_some result ≡ is_some (loaded_slot at.now) }
    {
        match tokens::slot_of_loaded(at) {
            None => None,
            Some(slot) => Some(self.table.value(slot)),
        }
    }
}

impl<T, J: Deferred> ExclusiveAccess<T> for World<T, J> {
    ghost use Rattle.std.specs.Prelude.{refl};
    ghost use Rattle.sdd_table.specs.State.{with_value};

    ghost state = { λ w. w };

    ghost with_item = { with_value };

    fn owned_mut(&mut self, owned: &Owned<T>) -> Result<&mut T, GuardsOpen> {
        if self.table.any_open() {
            return Err(GuardsOpen);
        }
        Ok(self.table.item_mut(tokens::slot_of_owned(owned)))
    }

    fn shared_mut(&mut self, shared: &Shared<T>) -> Result<&mut T, NotLent> {
        if self.table.any_open() {
            return Err(NotLent::GuardsOpen);
        }
        match self.table.lone_mut(tokens::slot_of_shared(shared)) {
            Some(value) => Ok(value),
            None => Err(NotLent::NotSole),
        }
    }

    fn cell_mut(&mut self, cell: &AtomicShared<T>) -> Result<&mut T, NotLent> {
        if self.table.any_open() {
            return Err(NotLent::GuardsOpen);
        }
        let Cell::OfShared(Some(kept), _) = self.table.cell(tokens::number_of_shared_cell(cell))
        else {
            unreachable!();
        };
        let Some(value) = self.table.lone_mut(kept) else {
            return Err(NotLent::NotSole);
        };
        Ok(value)
    }

    ghost written = { λ i v w. refl };
}
