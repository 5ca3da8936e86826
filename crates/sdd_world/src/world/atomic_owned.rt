//! Cells that keep the owner of an item, or none, with a tag.

ghost use Rattle.std.specs.Prelude.{◌≡◌, IfOk, IfErr, OnErr, Some, None, ◌⊎◌};
ghost use Rattle.sdd_table.specs.State.{NoneFree, IsFreeCell, NoCellFree};
ghost use Rattle.sdd_table.specs.Frame.{Frame};
ghost use Rattle.sdd_table.specs.Place.{ClaimsCell, IsOwnedCell};
ghost use Rattle.sdd_world.specs.Kinds.{KeepsOwned, MakesFilled};
ghost use Rattle.sdd_world.specs.Tokens.{owned_cell, owned_slot};

use crate::cell::AtomicOwned;
use crate::job::Deferred;
use crate::owner::Owned;
use crate::refusal::NoSlot;
use crate::status::{Cell, Status};
use crate::tag::Tag;
use crate::world::World;
pub use crate::world::cells::{
    compare_exchange, compare_exchange_weak, into_owner as into_owned, is_here, is_null, load,
    retire, swap, tag, update_tag_if,
};
use sdd_table::tokens;

/// Makes an item of `value` and a cell that keeps it, without a tag, if and only if a slot and a cell are free; else
/// returns `value`.
pub fn new<T, J: Deferred>(w: &mut World<T, J>, value: T) -> Result<AtomicOwned<T>, T>
    ensures free { IfOk result (λ c. IsFreeCell w.old (owned_cell c)) }
    ensures made { IfOk result (λ c. MakesFilled KeepsOwned (owned_cell c) value w.old w.new) }
    ensures refused { IfErr result (λ v. (v ≡ value) × (w.new ≡ w.old) × (NoneFree w.old ⊎ NoCellFree w.old)) }
    ensures used { IfOk result (λ c. IsOwnedCell w.new (owned_cell c)) }
    ensures keeps { Frame w.old w.new }
{
    if w.table.is_full() || w.table.has_no_cell() {
        return Err(value);
    }
    match w.table.place(value, Status::Owned) {
        Ok(slot) => match w.table.claim_cell(Cell::OfOwned(Some(slot), Tag::None)) {
            Some(cell) => Ok(tokens::owned_cell_at(cell)),
            None => unreachable!(),
        },
        Err(_) => unreachable!(),
    }
}

/// A cell that keeps `owned`, without a tag, if and only if a cell is free; else `owned` is returned.
#[tactic(auto, using(crate::proofs::FrameLemmas::owned_cell_used))]
pub fn from<T, J: Deferred>(
    w: &mut World<T, J>,
    owned: Owned<T>,
) -> Result<AtomicOwned<T>, Owned<T>>
    ensures made { IfOk result (λ c. ClaimsCell (owned_cell c) (Cell.OfOwned (Some (owned_slot owned)) Tag.None) w.old w.new) }
    ensures refused { IfErr result (λ o. (owned_slot o ≡ owned_slot owned) × (w.new ≡ w.old) × NoCellFree w.old) }
    ensures used { IfOk result (λ c. IsOwnedCell w.new (owned_cell c)) }
    ensures keeps { Frame w.old w.new }
{
    match w.table.claim_cell(Cell::OfOwned(Some(tokens::slot_of_owned(&owned)), Tag::None)) {
        None => Err(owned),
        Some(cell) => {
            tokens::spend_owned(owned);
            Ok(tokens::owned_cell_at(cell))
        }
    }
}

/// A cell that keeps nothing, without a tag, if and only if a cell is free.
pub fn null<T, J: Deferred>(w: &mut World<T, J>) -> Result<AtomicOwned<T>, NoSlot>
    ensures made { IfOk result (λ c. ClaimsCell (owned_cell c) (Cell.OfOwned None Tag.None) w.old w.new) }
    ensures refused { OnErr result ((w.new ≡ w.old) × NoCellFree w.old) }
    ensures used { IfOk result (λ c. IsOwnedCell w.new (owned_cell c)) }
    ensures keeps { Frame w.old w.new }
{
    match w.table.claim_cell(Cell::OfOwned(None, Tag::None)) {
        None => Err(NoSlot),
        Some(cell) => Ok(tokens::owned_cell_at(cell)),
    }
}
