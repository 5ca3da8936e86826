//! Cells that keep one owner of an item, or none, with a tag.

ghost use Rattle.std.specs.Prelude.{◌≡◌, ℕ, IfOk, IfErr, IfSome, IfNone, OnErr, Some, None, ◌⊎◌, is_some, true};
ghost use Rattle.sdd_table.specs.State.{NoneFree, IsFreeCell, NoCellFree, value_at, cell_at};
ghost use Rattle.sdd_table.specs.Frame.{Frame};
ghost use Rattle.sdd_table.specs.Place.{ClaimsCell, HasOwnersLeft, IsReadable, IsShared, IsSharedCell, CopiesCell};
ghost use Rattle.sdd_world.specs.Kinds.{KeepsShared, AddsOwnerOfKept, KeptTakesNoOwner, MakesFilled, OfKept};
ghost use Rattle.sdd_world.specs.Tokens.{loaded_slot, shared_cell, shared_slot};

use crate::cell::AtomicShared;
use crate::guard::WorldGuard;
use crate::job::Deferred;
use crate::owner::Shared;
use crate::pointer::Loaded;
use crate::refusal::NoSlot;
use crate::status::{Cell, Status};
use crate::tag::Tag;
use crate::world::cells::into_slot;
pub use crate::world::cells::{
    compare_exchange, compare_exchange_weak, into_owner as into_shared, is_here, is_null, load,
    retire, swap, tag, update_tag_if,
};
use crate::world::{World, ptr};
use sdd_table::tokens;

/// Makes an item of `value` and a cell that keeps it, without a tag, if and only if a slot and a cell are free; else
/// returns `value`.
pub fn new<T, J: Deferred>(w: &mut World<T, J>, value: T) -> Result<AtomicShared<T>, T>
    ensures free { IfOk result (λ c. IsFreeCell w.old (shared_cell c)) }
    ensures made { IfOk result (λ c. MakesFilled KeepsShared (shared_cell c) value w.old w.new) }
    ensures refused { IfErr result (λ v. (v ≡ value) × (w.new ≡ w.old) × (NoneFree w.old ⊎ NoCellFree w.old)) }
    ensures used { IfOk result (λ c. IsSharedCell w.new (shared_cell c)) }
    ensures keeps { Frame w.old w.new }
{
    if w.table.is_full() || w.table.has_no_cell() {
        return Err(value);
    }
    match w.table.place(value, Status::Shared(1)) {
        Ok(slot) => match w.table.claim_cell(Cell::OfShared(Some(slot), Tag::None)) {
            Some(cell) => Ok(tokens::shared_cell_at(cell)),
            None => unreachable!(),
        },
        Err(_) => unreachable!(),
    }
}

/// A cell that keeps `shared`, without a tag, if and only if a cell is free; else `shared` is returned.
#[tactic(auto, using(crate::proofs::FrameLemmas::shared_cell_used))]
pub fn from<T, J: Deferred>(
    w: &mut World<T, J>,
    shared: Shared<T>,
) -> Result<AtomicShared<T>, Shared<T>>
    ensures made { IfOk result (λ c. ClaimsCell (shared_cell c) (Cell.OfShared (Some (shared_slot shared)) Tag.None) w.old w.new) }
    ensures refused { IfErr result (λ o. (shared_slot o ≡ shared_slot shared) × (w.new ≡ w.old) × NoCellFree w.old) }
    ensures used { IfOk result (λ c. IsSharedCell w.new (shared_cell c)) }
    ensures keeps { Frame w.old w.new }
{
    match w.table.claim_cell(Cell::OfShared(Some(tokens::slot_of_shared(&shared)), Tag::None)) {
        None => Err(shared),
        Some(cell) => {
            tokens::spend_shared(shared);
            Ok(tokens::shared_cell_at(cell))
        }
    }
}

/// A cell that keeps nothing, without a tag, if and only if a cell is free.
pub fn null<T, J: Deferred>(w: &mut World<T, J>) -> Result<AtomicShared<T>, NoSlot>
    ensures made { IfOk result (λ c. ClaimsCell (shared_cell c) (Cell.OfShared None Tag.None) w.old w.new) }
    ensures refused { OnErr result ((w.new ≡ w.old) × NoCellFree w.old) }
    ensures used { IfOk result (λ c. IsSharedCell w.new (shared_cell c)) }
    ensures keeps { Frame w.old w.new }
{
    match w.table.claim_cell(Cell::OfShared(None, Tag::None)) {
        None => Err(NoSlot),
        Some(cell) => Ok(tokens::shared_cell_at(cell)),
    }
}

/// What the cell keeps, without its tag and without a borrow, for a structure that keeps it beside the guard.
pub fn loaded<T, J: Deferred>(
    w: &World<T, J>,
    cell: &AtomicShared<T>,
    _guard: &WorldGuard,
) -> Loaded<T>
    requires { IsSharedCell w.now (shared_cell cell.now) }
    ensures { (tag : Tag) × (cell_at w.now (shared_cell cell.now) ≡ Cell.OfShared (loaded_slot result) tag) }
{
    kept_at(w, cell)
}

/// Where the item is that the cell keeps, without its tag: as `loaded`, without a guard. It is there as long as the cell keeps it.
pub fn kept_at<T, J: Deferred>(w: &World<T, J>, cell: &AtomicShared<T>) -> Loaded<T>
    requires { IsSharedCell w.now (shared_cell cell.now) }
    ensures { (tag : Tag) × (cell_at w.now (shared_cell cell.now) ≡ Cell.OfShared (loaded_slot result) tag) }
{
    match w.table.cell(tokens::number_of_shared_cell(cell)) {
        Cell::OfShared(slot, _) => tokens::loaded_at(slot),
        _ => unreachable!(),
    }
}

/// The value of the item that the cell keeps, or none. Condition: it is there.
pub fn as_ref<'w, T, J: Deferred>(w: &'w World<T, J>, cell: &AtomicShared<T>) -> Option<&'w T>
    requires cell { IsSharedCell w.now (shared_cell cell.now) }
    requires there { (i : ℕ) (tag : Tag) → cell_at w.now (shared_cell cell.now) ≡ Cell.OfShared (Some i) tag → IsReadable w.now (Some i) }
    ensures null { (tag : Tag) → cell_at w.now (shared_cell cell.now) ≡ Cell.OfShared None tag → result ≡ None }
    ensures item { (i : ℕ) (tag : Tag) → cell_at w.now (shared_cell cell.now) ≡ Cell.OfShared (Some i) tag → is_some result ≡ true }
    ensures value { (i : ℕ) (tag : Tag) → cell_at w.now (shared_cell cell.now) ≡ Cell.OfShared (Some i) tag → IfSome result (λ v. Some v.now ≡ value_at w.now i) }
{
    match w.table.cell(tokens::number_of_shared_cell(cell)) {
        Cell::OfShared(None, _) => None,
        Cell::OfShared(Some(slot), _) => Some(w.table.value(slot)),
        _ => unreachable!(),
    }
}

/// One more owner of the item that the cell keeps; none where it keeps none, and at the greatest count of owners.
pub fn get_shared<T, J: Deferred>(
    w: &mut World<T, J>,
    cell: &AtomicShared<T>,
    _guard: &WorldGuard,
) -> Option<Shared<T>>
    requires { IsSharedCell w.old (shared_cell cell.now) }
    ensures more { IfSome result (λ s. AddsOwnerOfKept (shared_slot s) (shared_cell cell.now) w.old w.new) }
    ensures room { IfSome result (λ s. HasOwnersLeft (shared_slot s) w.old) }
    ensures none { IfNone result ((w.new ≡ w.old) × KeptTakesNoOwner (shared_cell cell.now) w.old) }
    ensures live { IfSome result (λ s. IsShared w.new (shared_slot s)) }
    ensures keeps { Frame w.old w.new }
{
    match w.table.cell(tokens::number_of_shared_cell(cell)) {
        Cell::OfShared(None, _) => None,
        Cell::OfShared(Some(slot), _) => ptr::add_owner(w, slot),
        _ => unreachable!(),
    }
}

/// Another cell that keeps an owner of the same item, with the same tag, if and only if a cell is free; it keeps none
/// where `get_shared` gives none.
pub fn clone<T, J: Deferred>(
    w: &mut World<T, J>,
    cell: &AtomicShared<T>,
    guard: &WorldGuard,
) -> Result<AtomicShared<T>, NoSlot>
    requires { IsSharedCell w.old (shared_cell cell.now) }
    ensures free { IfOk result (λ c. IsFreeCell w.old (shared_cell c)) }
    ensures used { IfOk result (λ c. IsSharedCell w.new (shared_cell c)) }
    ensures refused { OnErr result ((w.new ≡ w.old) × NoCellFree w.old) }
    ensures copied { OfKept KeepsShared w.old (shared_cell cell.now) (λ item tag. IfOk result (λ c. CopiesCell (shared_cell c) item tag w.old w.new)) }
    ensures keeps { Frame w.old w.new }
{
    if w.table.has_no_cell() {
        return Err(NoSlot);
    }
    let tag = tag(w, cell);
    let shared = get_shared(w, cell, guard);
    match w.table.claim_cell(Cell::OfShared(into_slot::<T, AtomicShared<T>>(shared), tag)) {
        Some(cell) => Ok(tokens::shared_cell_at(cell)),
        None => unreachable!(),
    }
}
