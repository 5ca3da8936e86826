//! Lending the value of an item for writing.

ghost use Rattle.std.specs.Prelude.{◌≡◌, ◌↔◌, ℕ, Some, IfOk, OnOk, IsErr, IsErrOf};
ghost use Rattle.std.specs.Borrow.{LendsIfOk, sem};
ghost use Rattle.sdd_table.specs.State.{State, value_at, with_value};
ghost use Rattle.sdd_table.specs.Place.{IsOpen, IsOwned, IsShared, HasOneOwner};
ghost use Rattle.sdd_world.specs.Filled.{IsFilled, slot_kept_by, with_kept};
ghost use Rattle.sdd_world.specs.Tokens.{owned_slot, shared_slot, shared_cell};

use crate::cell::AtomicShared;
use crate::owner::{Owned, Shared};
use crate::refusal::{GuardsOpen, NotLent};

/// A place that lends the value of an item for writing, while no guard is open: a `World`. It is asked by
/// `world::owned::get_mut`, `world::shared::get_mut` and walks that write. A trait, since its clauses name the type of the
/// place by `Self`.
pub trait ExclusiveAccess<T> {
    /// The place as clauses see it.
    ghost state: { Self → State T };

    /// The place with another value in a slot.
    ghost with_item: { ℕ → T → Self → Self };

    /// What `world::owned::get_mut` does.
    fn owned_mut(&mut self, owned: &Owned<T>) -> Result<&mut T, GuardsOpen>
        requires { IsOwned (state self.old) (owned_slot owned.now) }
        ensures* lends { sem 𝓛 (LendsIfOk Self.row T.row self.entry result (λ v. with_item (owned_slot owned.now) v self.entry.now) self.entry.now) }
        ensures value { IfOk result (λ v. value_at (state self.old) (owned_slot owned.now) ≡ Some v.now) }
        ensures open { IsErr result ↔ ((p : ℕ) × IsOpen (state self.old) p) };

    /// What `world::shared::get_mut` does.
    fn shared_mut(&mut self, shared: &Shared<T>) -> Result<&mut T, NotLent>
        requires { IsShared (state self.old) (shared_slot shared.now) }
        ensures* lends { sem 𝓛 (LendsIfOk Self.row T.row self.entry result (λ v. with_item (shared_slot shared.now) v self.entry.now) self.entry.now) }
        ensures value { IfOk result (λ v. value_at (state self.old) (shared_slot shared.now) ≡ Some v.now) }
        ensures sole { OnOk result (HasOneOwner (state self.old) (shared_slot shared.now)) }
        ensures others { IsErrOf result NotLent.NotSole → ¬ HasOneOwner (state self.old) (shared_slot shared.now) }
        ensures open { IsErrOf result NotLent.GuardsOpen ↔ ((p : ℕ) × IsOpen (state self.old) p) };

    /// The value of the item that a cell keeps, for writing; refused while a guard of any participant is open, and where
    /// the cell isn't the item's one owner; then nothing has changed. Once the borrow is over, the item is what was last
    /// written, and nothing else has changed. Condition: the cell keeps an item.
    fn cell_mut(&mut self, cell: &AtomicShared<T>) -> Result<&mut T, NotLent>
        requires { IsFilled (state self.old) (shared_cell cell.now) }
        ensures* lends { sem 𝓛 (LendsIfOk Self.row T.row self.entry result (λ v. with_kept state with_item cell.now v self.entry.now) self.entry.now) }
        ensures value { IfOk result (λ v. value_at (state self.old) (slot_kept_by cell.now (state self.old)) ≡ Some v.now) }
        ensures sole { OnOk result (HasOneOwner (state self.old) (slot_kept_by cell.now (state self.old))) }
        ensures others { IsErrOf result NotLent.NotSole → ¬ HasOneOwner (state self.old) (slot_kept_by cell.now (state self.old)) }
        ensures open { IsErrOf result NotLent.GuardsOpen ↔ ((p : ℕ) × IsOpen (state self.old) p) };

    /// What clauses see of a place with another value in a slot.
    ghost written: { (i : ℕ) (v : T) (w : Self) → state (with_item i v w) ≡ with_value i v (state w) };
}
