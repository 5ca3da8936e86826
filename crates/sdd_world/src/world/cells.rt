//! What is the same of both kinds of cells that keep an owner. `atomic_owned` and `atomic_shared` pass the calls on.

ghost use Rattle.std.specs.Prelude.{◌≡◌, ◌≢◌, ◌<◌, ℕ, Option, None, IsTrue, IsFalse, IfOk, IfErr, OnOk, OnErr, ◌↔◌, length};
ghost use Rattle.std.specs.Option.{option_map};
ghost use Rattle.sdd_table.specs.State.{cell_at, with_cell, with_tag};
ghost use Rattle.sdd_table.specs.Frame.{Frame, OnlyParticipant, SameNesting};
ghost use Rattle.sdd_world.specs.Kinds.{CellKind, KeepsOwned, KeepsShared, KeepsPtr, IsCellOf, OfKept, cell_of, cell_ended};
ghost use Rattle.sdd_world.specs.Tokens.{owned_cell, owned_slot, shared_cell, shared_slot, ptr_slot, ptr_tag};

use crate::cell::{AtomicOwned, AtomicShared};
use crate::guard::WorldGuard;
use crate::job::Deferred;
use crate::owner::{Owned, Shared};
use crate::pointer::{Finder, Found, Ptr};
use crate::status::Cell;
use crate::tag::Tag;
use crate::world::World;
use sdd_table::table::Table;
use sdd_table::{reclaim, tokens};
use std::marker::PhantomData;

/// Cells that keep an owner of an item, or none: `AtomicOwned` and `AtomicShared` alone. Only this crate can name it.
pub trait OwningCell<T>: Sized {
    ghost use Rattle.sdd_table.specs.declared.tag.Tag.{Tag};

    /// What it keeps.
    type Owner;

    /// The kind of such cells, the number of one, and the slot of the item of an owner.
    ghost kind: { CellKind };

    ghost number: { Self → ℕ };

    ghost slot: { Self.Owner → ℕ };

    /// The number of the cell.
    fn number_of(&self) -> usize
        ensures { result ≡ number self.now };

    /// The number of the cell, which is spent.
    fn spend(self) -> usize
        ensures { result ≡ number self };

    /// The cell, as a place has it.
    fn word(item: Option<usize>, tag: Tag) -> Cell
        ensures { result ≡ cell_of kind item tag };

    /// Whether it is a cell of this kind.
    fn is_of(word: Cell) -> bool
        ensures yes { IsTrue result → (item : Option ℕ) × (tag : Tag) × (word ≡ cell_of kind item tag) }
        ensures no { IsFalse result → (item : Option ℕ) (tag : Tag) → word ≢ cell_of kind item tag };

    /// The owner of the item in slot `at`.
    fn owner_at(at: usize) -> Self::Owner
        ensures { slot result ≡ at };

    /// The slot of its item; the owner is spent.
    fn spend_owner(owner: Self::Owner) -> usize
        ensures { result ≡ slot owner };

    /// Ends the cell, and gives back what it keeps.
    fn end<J: Deferred>(self, table: &mut Table<T, J>, p: usize)
        requires { p < length table.old.participants }
        ensures { table.new ≡ cell_ended kind p (number self) table.old };
}

impl<T> OwningCell<T> for AtomicOwned<T> {
    type Owner = Owned<T>;

    ghost kind = { KeepsOwned };

    ghost number = { owned_cell };

    ghost slot = { owned_slot };

    fn number_of(&self) -> usize {
        tokens::number_of_owned_cell(self)
    }

    fn spend(self) -> usize {
        tokens::spend_owned_cell(self)
    }

    fn word(item: Option<usize>, tag: Tag) -> Cell {
        Cell::OfOwned(item, tag)
    }

    fn is_of(word: Cell) -> bool {
        matches!(word, Cell::OfOwned(_, _))
    }

    fn owner_at(at: usize) -> Owned<T> {
        tokens::owned_at(at)
    }

    fn spend_owner(owner: Owned<T>) -> usize {
        tokens::spend_owned(owner)
    }

    fn end<J: Deferred>(self, table: &mut Table<T, J>, p: usize) {
        reclaim::end_owned(table, p, tokens::spend_owned_cell(self));
    }
}

impl<T> OwningCell<T> for AtomicShared<T> {
    type Owner = Shared<T>;

    ghost kind = { KeepsShared };

    ghost number = { shared_cell };

    ghost slot = { shared_slot };

    fn number_of(&self) -> usize {
        tokens::number_of_shared_cell(self)
    }

    fn spend(self) -> usize {
        tokens::spend_shared_cell(self)
    }

    fn word(item: Option<usize>, tag: Tag) -> Cell {
        Cell::OfShared(item, tag)
    }

    fn is_of(word: Cell) -> bool {
        matches!(word, Cell::OfShared(_, _))
    }

    fn owner_at(at: usize) -> Shared<T> {
        tokens::shared_at(at)
    }

    fn spend_owner(owner: Shared<T>) -> usize {
        tokens::spend_shared(owner)
    }

    fn end<J: Deferred>(self, table: &mut Table<T, J>, p: usize) {
        reclaim::end_shared(table, p, tokens::spend_shared_cell(self));
    }
}

/// What the cell keeps, as a pointer.
pub fn load<T, J: Deferred, C: OwningCell<T>>(
    w: &World<T, J>,
    cell: &C,
    _guard: &WorldGuard,
) -> Ptr<'static, T>
    requires { IsCellOf C.kind w.now (C.number cell.now) }
    ensures { KeepsPtr C.kind w.now (C.number cell.now) result }
{
    let (slot, tag) = kept(w, cell);
    Ptr {
        slot,
        tag,
        of: PhantomData,
    }
}

/// Whether the cell is in use in this place, as each is that the place made until it ends: the condition of the calls
/// that take it.
pub fn is_here<T, J: Deferred, C: OwningCell<T>>(w: &World<T, J>, cell: &C) -> bool
    ensures here { IsTrue result → IsCellOf C.kind w.now (C.number cell.now) }
    ensures gone { IsFalse result → ¬ IsCellOf C.kind w.now (C.number cell.now) }
{
    let number = cell.number_of();
    number < w.table.cells() && C::is_of(w.table.cell(number))
}

/// Whether the cell keeps nothing.
pub fn is_null<T, J: Deferred, C: OwningCell<T>>(w: &World<T, J>, cell: &C) -> bool
    requires { IsCellOf C.kind w.now (C.number cell.now) }
    ensures { OfKept C.kind w.now (C.number cell.now) (λ item tag. IsTrue result ↔ (item ≡ None)) }
{
    kept(w, cell).0.is_none()
}

/// The tag of the cell.
pub fn tag<T, J: Deferred, C: OwningCell<T>>(w: &World<T, J>, cell: &C) -> Tag
    requires { IsCellOf C.kind w.now (C.number cell.now) }
    ensures { OfKept C.kind w.now (C.number cell.now) (λ item tag. result ≡ tag) }
{
    kept(w, cell).1
}

/// Puts another item and tag into the cell, and gives the old ones.
pub fn swap<T, J: Deferred, C: OwningCell<T>>(
    w: &mut World<T, J>,
    cell: &C,
    new: (Option<C::Owner>, Tag),
) -> (Option<C::Owner>, Tag)
    requires { IsCellOf C.kind w.old (C.number cell.now) }
    ensures was { cell_at w.old (C.number cell.now) ≡ cell_of C.kind (option_map C.slot result.0) result.1 }
    ensures now { w.new ≡ with_cell (C.number cell.now) (cell_of C.kind (option_map C.slot new.0) new.1) w.old }
    ensures used { IsCellOf C.kind w.new (C.number cell.now) }
    ensures keeps { Frame w.old w.new }
{
    let (item, tag) = new;
    let (old, old_tag) = kept(w, cell);
    put(w, cell, into_slot::<T, C>(item), tag);
    (of_slot::<T, C>(old), old_tag)
}

/// Sets the tag if `f` answers true for what the cell keeps, and answers what `f` did. It is called once.
pub fn update_tag_if<T, J: Deferred, C: OwningCell<T>, P: Found<T>, F: FnOnce(P) -> bool>(
    w: &mut World<T, J>,
    cell: &C,
    tag: Tag,
    f: F,
) -> bool
    requires cell { IsCellOf C.kind w.old (C.number cell.now) }
    requires callable { F.IsAlwaysCallable f }
    ensures asked { (r : P) × (cell_at w.old (C.number cell.now) ≡ cell_of C.kind (P.names r) (P.tagged r)) × F.post f r result }
    ensures tagged { IsTrue result → w.new ≡ with_cell (C.number cell.now) (with_tag tag (cell_at w.old (C.number cell.now))) w.old }
    ensures kept { IsFalse result → w.new ≡ w.old }
    ensures used { IsCellOf C.kind w.new (C.number cell.now) }
    ensures keeps { Frame w.old w.new }
{
    let (slot, old) = kept(w, cell);
    if !f(P::found(slot, old, Finder { own: () })) {
        return false;
    }
    put(w, cell, slot, tag);
    true
}

/// Puts another item and tag into the cell if item and tag are both those of `current`, and gives the old owner and
/// the new pointer; else returns the new owner, with the pointer found.
pub fn compare_exchange<T, J: Deferred, C: OwningCell<T>>(
    w: &mut World<T, J>,
    cell: &C,
    current: Ptr<'static, T>,
    new: (Option<C::Owner>, Tag),
    _guard: &WorldGuard,
) -> Result<(Option<C::Owner>, Ptr<'static, T>), (Option<C::Owner>, Ptr<'static, T>)>
    requires { IsCellOf C.kind w.old (C.number cell.now) }
    ensures was { OnOk result (KeepsPtr C.kind w.old (C.number cell.now) current.entry) }
    ensures now { OnOk result (w.new ≡ with_cell (C.number cell.now) (cell_of C.kind (option_map C.slot new.0) new.1) w.old) }
    ensures given { IfOk result (λ r. (option_map C.slot r.0 ≡ ptr_slot current.entry) × (ptr_slot r.1 ≡ option_map C.slot new.0) × (ptr_tag r.1 ≡ new.1)) }
    ensures found { IfErr result (λ r. KeepsPtr C.kind w.old (C.number cell.now) r.1 × (option_map C.slot r.0 ≡ option_map C.slot new.0) × (w.new ≡ w.old)) }
    ensures differs { OnErr result (¬ KeepsPtr C.kind w.old (C.number cell.now) current.entry) }
    ensures used { IsCellOf C.kind w.new (C.number cell.now) }
    ensures keeps { Frame w.old w.new }
{
    let (item, tag) = new;
    let (old, old_tag) = kept(w, cell);
    if old != current.slot || old_tag != current.tag {
        return Err((
            item,
            Ptr {
                slot: old,
                tag: old_tag,
                of: PhantomData,
            },
        ));
    }
    let slot = into_slot::<T, C>(item);
    put(w, cell, slot, tag);
    Ok((
        of_slot::<T, C>(old),
        Ptr {
            slot,
            tag,
            of: PhantomData,
        },
    ))
}

/// As `compare_exchange`: it fails for no other reason.
pub fn compare_exchange_weak<T, J: Deferred, C: OwningCell<T>>(
    w: &mut World<T, J>,
    cell: &C,
    current: Ptr<'static, T>,
    new: (Option<C::Owner>, Tag),
    guard: &WorldGuard,
) -> Result<(Option<C::Owner>, Ptr<'static, T>), (Option<C::Owner>, Ptr<'static, T>)>
    requires { IsCellOf C.kind w.old (C.number cell.now) }
    ensures was { OnOk result (KeepsPtr C.kind w.old (C.number cell.now) current.entry) }
    ensures now { OnOk result (w.new ≡ with_cell (C.number cell.now) (cell_of C.kind (option_map C.slot new.0) new.1) w.old) }
    ensures given { IfOk result (λ r. (option_map C.slot r.0 ≡ ptr_slot current.entry) × (ptr_slot r.1 ≡ option_map C.slot new.0) × (ptr_tag r.1 ≡ new.1)) }
    ensures found { IfErr result (λ r. KeepsPtr C.kind w.old (C.number cell.now) r.1 × (option_map C.slot r.0 ≡ option_map C.slot new.0) × (w.new ≡ w.old)) }
    ensures differs { OnErr result (¬ KeepsPtr C.kind w.old (C.number cell.now) current.entry) }
    ensures used { IsCellOf C.kind w.new (C.number cell.now) }
    ensures keeps { Frame w.old w.new }
{
    compare_exchange(w, cell, current, new, guard)
}

/// Ends the cell, and gives the owner that it kept.
pub fn into_owner<T, J: Deferred, C: OwningCell<T>>(
    w: &mut World<T, J>,
    cell: C,
) -> Option<C::Owner>
    requires { IsCellOf C.kind w.old (C.number cell) }
    ensures was { (tag : Tag) × (cell_at w.old (C.number cell) ≡ cell_of C.kind (option_map C.slot result) tag) }
    ensures ended { w.new ≡ with_cell (C.number cell) Cell.Free w.old }
    ensures keeps { Frame w.old w.new }
{
    let (slot, _) = kept(w, &cell);
    w.table.free_cell(cell.spend());
    of_slot::<T, C>(slot)
}

/// Ends the cell, and gives the owner that it kept back: a last owner is retired by participant `p`.
pub fn retire<T, J: Deferred, C: OwningCell<T>>(w: &mut World<T, J>, cell: C, p: usize)
    requires participant { p < length w.old.participants }
    requires cell { IsCellOf C.kind w.old (C.number cell) }
    ensures ended { w.new ≡ cell_ended C.kind p (C.number cell) w.old }
    ensures nests { SameNesting w.old w.new }
    ensures keeps { Frame w.old w.new }
    ensures only { OnlyParticipant p w.old w.new }
{
    cell.end(&mut w.table, p);
}

/// The slot that the cell keeps, or none, and its tag.
fn kept<T, J: Deferred, C: OwningCell<T>>(w: &World<T, J>, cell: &C) -> (Option<usize>, Tag)
    requires { IsCellOf C.kind w.now (C.number cell.now) }
    ensures { cell_at w.now (C.number cell.now) ≡ cell_of C.kind result.0 result.1 }
{
    match w.table.cell(cell.number_of()) {
        Cell::OfOwned(slot, tag) | Cell::OfShared(slot, tag) => (slot, tag),
        Cell::Free | Cell::OfRaw(_, _) => unreachable!(),
    }
}

/// Puts the owner of the item in `slot`, or none, and a tag into the cell.
fn put<T, J: Deferred, C: OwningCell<T>>(
    w: &mut World<T, J>,
    cell: &C,
    slot: Option<usize>,
    tag: Tag,
)
    requires { IsCellOf C.kind w.old (C.number cell.now) }
    ensures now { w.new ≡ with_cell (C.number cell.now) (cell_of C.kind slot tag) w.old }
    ensures used { IsCellOf C.kind w.new (C.number cell.now) }
    ensures keeps { Frame w.old w.new }
{
    w.table.set_cell(cell.number_of(), C::word(slot, tag));
}

/// The slot of an owner that may be there, which is spent.
pub(crate) fn into_slot<T, C: OwningCell<T>>(item: Option<C::Owner>) -> Option<usize>
    ensures { result ≡ option_map C.slot item }
{
    match item {
        None => None,
        Some(owner) => Some(C::spend_owner(owner)),
    }
}

/// The owner that a cell kept.
fn of_slot<T, C: OwningCell<T>>(slot: Option<usize>) -> Option<C::Owner>
    ensures { option_map C.slot result ≡ slot }
{
    match slot {
        None => None,
        Some(slot) => Some(C::owner_at(slot)),
    }
}
