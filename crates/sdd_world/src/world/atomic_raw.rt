//! Cells that name an item which they don't own, or none, with a tag.

ghost use Rattle.std.specs.Prelude.{◌≡◌, ◌≢◌, ℕ, IfOk, IfErr, OnOk, OnErr, Some, None, IsTrue, IsFalse, ◌↔◌, Option};
ghost use Rattle.sdd_table.specs.State.{NoCellFree, with_cell, with_tag, cell_at};
ghost use Rattle.sdd_table.specs.Frame.{Frame};
ghost use Rattle.sdd_table.specs.Place.{ClaimsCell, IsRawCell};
ghost use Rattle.sdd_world.specs.Tokens.{raw_cell, raw_slot, raw_tag, raw_word};

use crate::cell::AtomicRaw;
use crate::guard::WorldGuard;
use crate::job::Deferred;
use crate::pointer::RawPtr;
use crate::refusal::NoSlot;
use crate::status::Cell;
use crate::tag::Tag;
use crate::world::World;
use std::marker::PhantomData;

/// A cell that keeps `ptr`, if and only if a cell is free.
#[tactic(auto, using(crate::proofs::FrameLemmas::raw_cell_used))]
pub fn new<T, J: Deferred>(w: &mut World<T, J>, ptr: RawPtr<T>) -> Result<AtomicRaw<T>, NoSlot>
    ensures made { IfOk result (λ c. ClaimsCell (raw_cell c) (raw_word ptr) w.old w.new) }
    ensures refused { OnErr result ((w.new ≡ w.old) × NoCellFree w.old) }
    ensures used { IfOk result (λ c. IsRawCell w.new (raw_cell c)) }
    ensures keeps { Frame w.old w.new }
{
    match w.table.claim_cell(Cell::OfRaw(ptr.slot, ptr.tag)) {
        None => Err(NoSlot),
        Some(cell) => Ok(AtomicRaw::of_cell(cell)),
    }
}

/// A cell that names nothing, without a tag, if and only if a cell is free.
#[tactic(auto, using(crate::proofs::FrameLemmas::raw_cell_used))]
pub fn null<T, J: Deferred>(w: &mut World<T, J>) -> Result<AtomicRaw<T>, NoSlot>
    ensures made { IfOk result (λ c. ClaimsCell (raw_cell c) (Cell.OfRaw None Tag.None) w.old w.new) }
    ensures refused { OnErr result ((w.new ≡ w.old) × NoCellFree w.old) }
    ensures used { IfOk result (λ c. IsRawCell w.new (raw_cell c)) }
    ensures keeps { Frame w.old w.new }
{
    match w.table.claim_cell(Cell::OfRaw(None, Tag::None)) {
        None => Err(NoSlot),
        Some(cell) => Ok(AtomicRaw::of_cell(cell)),
    }
}

/// What the cell keeps.
pub fn load<T, J: Deferred>(w: &World<T, J>, cell: &AtomicRaw<T>, _guard: &WorldGuard) -> RawPtr<T>
    requires { IsRawCell w.now (raw_cell cell.now) }
    ensures { cell_at w.now (raw_cell cell.now) ≡ raw_word result }
{
    match w.table.cell(cell.cell) {
        Cell::OfRaw(slot, tag) => RawPtr {
            slot,
            tag,
            of: PhantomData,
        },
        _ => unreachable!(),
    }
}

/// Whether the cell is in use in this place, as each is that the place made until it ends: the condition of the calls
/// that take it.
pub fn is_here<T, J: Deferred>(w: &World<T, J>, cell: &AtomicRaw<T>) -> bool
    ensures here { IsTrue result → IsRawCell w.now (raw_cell cell.now) }
    ensures gone { IsFalse result → ¬ IsRawCell w.now (raw_cell cell.now) }
{
    cell.cell < w.table.cells() && matches!(w.table.cell(cell.cell), Cell::OfRaw(_, _))
}

/// Whether the cell names nothing.
pub fn is_null<T, J: Deferred>(w: &World<T, J>, cell: &AtomicRaw<T>) -> bool
    requires { IsRawCell w.now (raw_cell cell.now) }
    ensures { (item : Option ℕ) (tag : Tag) → cell_at w.now (raw_cell cell.now) ≡ Cell.OfRaw item tag → IsTrue result ↔ (item ≡ None) }
{
    match w.table.cell(cell.cell) {
        Cell::OfRaw(slot, _) => slot.is_none(),
        _ => unreachable!(),
    }
}

/// The tag of the cell.
pub fn tag<T, J: Deferred>(w: &World<T, J>, cell: &AtomicRaw<T>) -> Tag
    requires { IsRawCell w.now (raw_cell cell.now) }
    ensures { (item : Option ℕ) (tag : Tag) → cell_at w.now (raw_cell cell.now) ≡ Cell.OfRaw item tag → result ≡ tag }
{
    match w.table.cell(cell.cell) {
        Cell::OfRaw(_, tag) => tag,
        _ => unreachable!(),
    }
}

/// Puts another pointer into the cell.
#[tactic(auto, using(crate::proofs::FrameLemmas::raw_cell_used))]
pub fn store<T, J: Deferred>(w: &mut World<T, J>, cell: &AtomicRaw<T>, ptr: RawPtr<T>)
    requires { IsRawCell w.old (raw_cell cell.now) }
    ensures now { w.new ≡ with_cell (raw_cell cell.now) (raw_word ptr) w.old }
    ensures used { IsRawCell w.new (raw_cell cell.now) }
    ensures keeps { Frame w.old w.new }
{
    w.table.set_cell(cell.cell, Cell::OfRaw(ptr.slot, ptr.tag));
}

/// Puts another pointer into the cell, and gives the old one.
pub fn swap<T, J: Deferred>(
    w: &mut World<T, J>,
    cell: &AtomicRaw<T>,
    ptr: RawPtr<T>,
    guard: &WorldGuard,
) -> RawPtr<T>
    requires { IsRawCell w.old (raw_cell cell.now) }
    ensures was { cell_at w.old (raw_cell cell.now) ≡ raw_word result }
    ensures now { w.new ≡ with_cell (raw_cell cell.now) (raw_word ptr) w.old }
    ensures used { IsRawCell w.new (raw_cell cell.now) }
    ensures keeps { Frame w.old w.new }
{
    let old = load(w, cell, guard);
    store(w, cell, ptr);
    old
}

/// Sets the tag if `f` answers true for what the cell keeps, and answers what `f` did. It is called once.
#[tactic(auto, using(crate::proofs::FrameLemmas::raw_cell_used))]
pub fn update_tag_if<T, J: Deferred, F: FnOnce(RawPtr<T>) -> bool>(
    w: &mut World<T, J>,
    cell: &AtomicRaw<T>,
    tag: Tag,
    f: F,
) -> bool
    requires cell { IsRawCell w.old (raw_cell cell.now) }
    requires callable { F.IsAlwaysCallable f }
    ensures asked { (r : RawPtr _) × (cell_at w.old (raw_cell cell.now) ≡ raw_word r) × F.post f r result }
    ensures tagged { IsTrue result → w.new ≡ with_cell (raw_cell cell.now) (with_tag tag (cell_at w.old (raw_cell cell.now))) w.old }
    ensures kept { IsFalse result → w.new ≡ w.old }
    ensures used { IsRawCell w.new (raw_cell cell.now) }
    ensures keeps { Frame w.old w.new }
{
    match w.table.cell(cell.cell) {
        Cell::OfRaw(slot, old) => {
            let found = RawPtr {
                slot,
                tag: old,
                of: PhantomData,
            };
            if !f(found) {
                return false;
            }
            w.table.set_cell(cell.cell, Cell::OfRaw(slot, tag));
            true
        }
        _ => unreachable!(),
    }
}

/// Puts `new` into the cell if it keeps `current`, tag counted, and gives the old pointer; else gives the one found.
pub fn compare_exchange<T, J: Deferred>(
    w: &mut World<T, J>,
    cell: &AtomicRaw<T>,
    current: RawPtr<T>,
    new: RawPtr<T>,
    guard: &WorldGuard,
) -> Result<RawPtr<T>, RawPtr<T>>
    requires { IsRawCell w.old (raw_cell cell.now) }
    ensures was { OnOk result (cell_at w.old (raw_cell cell.now) ≡ raw_word current) }
    ensures now { OnOk result (w.new ≡ with_cell (raw_cell cell.now) (raw_word new) w.old) }
    ensures given { IfOk result (λ r. (raw_slot r ≡ raw_slot current) × (raw_tag r ≡ raw_tag current)) }
    ensures found { IfErr result (λ r. (cell_at w.old (raw_cell cell.now) ≡ raw_word r) × (w.new ≡ w.old)) }
    ensures differs { OnErr result (cell_at w.old (raw_cell cell.now) ≢ raw_word current) }
    ensures used { IsRawCell w.new (raw_cell cell.now) }
    ensures keeps { Frame w.old w.new }
{
    let old = load(w, cell, guard);
    if old.slot != current.slot || old.tag != current.tag {
        return Err(old);
    }
    store(w, cell, new);
    Ok(old)
}

/// Puts what `f` makes of the pointer into the cell, and gives the old one; gives the one found where `f` answers None.
/// It is called once.
pub fn fetch_update<T, J: Deferred, F: FnOnce(RawPtr<T>) -> Option<RawPtr<T>>>(
    w: &mut World<T, J>,
    cell: &AtomicRaw<T>,
    guard: &WorldGuard,
    f: F,
) -> Result<RawPtr<T>, RawPtr<T>>
    requires cell { IsRawCell w.old (raw_cell cell.now) }
    requires callable { F.IsAlwaysCallable f }
    ensures was { IfOk result (λ r. cell_at w.old (raw_cell cell.now) ≡ raw_word r) }
    ensures updated { IfOk result (λ r. (n : RawPtr _) × F.post f r (Some n) × (w.new ≡ with_cell (raw_cell cell.now) (raw_word n) w.old)) }
    ensures kept { IfErr result (λ r. (cell_at w.old (raw_cell cell.now) ≡ raw_word r) × F.post f r None × (w.new ≡ w.old)) }
    ensures used { IsRawCell w.new (raw_cell cell.now) }
    ensures keeps { Frame w.old w.new }
{
    let old = load(w, cell, guard);
    match f(old) {
        None => Err(old),
        Some(new) => {
            store(w, cell, new);
            Ok(old)
        }
    }
}

/// Ends the cell.
pub fn end<T, J: Deferred>(w: &mut World<T, J>, cell: AtomicRaw<T>)
    requires { IsRawCell w.old (raw_cell cell) }
    ensures ended { w.new ≡ with_cell (raw_cell cell) Cell.Free w.old }
    ensures keeps { Frame w.old w.new }
{
    let AtomicRaw { cell, of: _ } = cell;
    w.table.free_cell(cell);
}
