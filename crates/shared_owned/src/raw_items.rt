//! Items that are handed out as raw pointers.

ghost use Rattle.std.specs.Prelude.{◌≡◌, ◌<◌, ◌≤◌, All, Some, IfOk, IfErr, IfSome, IfNone, IsSome, length};
ghost use Rattle.sdd_domain.specs.Cells.{cell_number};
ghost use Rattle.sdd_domain.specs.CellSteps.{StepsOnNoCell};
ghost use Rattle.sdd_domain.specs.Sharing.{kept_in};
ghost use Rattle.sdd_domain.specs.Tokens.{place_of, home_of, own_of, IsInNest};

use crate::owned::Owned;
use crate::pointer::OwnedPtr;
use crate::raw_ptr::RawPtr;
use sdd_domain::atomic_shared::AtomicShared;
use sdd_domain::domain::Domain;
use sdd_domain::guard::Guard;
use sdd_domain::holds::Holds;
use sdd_domain::local::Local;
use sdd_domain::shared::Shared;
use sdd_plain::tag::Tag;
use std::alloc::Global;
use thiserror::Error;

/// Why no items can be handed out as raw pointers.
#[derive(Clone, Copy, PartialEq, Eq, Debug, Error)]
pub enum RawRefused {
    /// There is no room for the names of cells.
    #[error("memory was refused; the place has its cells")]
    Memory,
    /// Fewer cells are free than the place has slots.
    #[error("fewer cells are free than the place has slots; it has them still")]
    NoCell,
}

/// A cell for each slot of a place: it has the owner of the slot's item while that is out as a raw one. They must be consumed by
/// `end`.
pub struct RawItems<T> {
    cells: Vec<AtomicShared<T>>,
    /// How many cells the place has.
    cells_of_place: usize,
    ghost inside: { All (λ c. cell_number c < cells_of_place) cells.items },
}

impl<T: Holds> RawItems<T> {
    ghost use Rattle.sdd_plain.specs.declared.tag.Tag.TheVariants as tags;
    ghost use Rattle.sdd_domain.specs.Tokens.{nest_of, nest_in, cell_count, slot_count, IsUnchanged};
    ghost use Rattle.shared_owned.specs.Alone.{place_in, sole_slot, pointer_slot, pointer_tag, IsAsBefore};
    ghost use Rattle.shared_owned.specs.Raw.{raw_slot, raw_tag, AreRawItemsOf, IsRawCell, PutsRaw, ReadsRaw, TakesRaw};

    /// None is out as a raw one yet. It takes as many cells as the place has slots, and memory for their names.
    pub fn new(
        alloc: Global,
        domain: &Domain<T>,
        local: &mut Local<T>,
    ) -> Result<RawItems<T>, RawRefused>
        requires home { home_of local.old ≡ place_of domain.now }
        ensures raws { IfOk result (λ raws. AreRawItemsOf raws domain.now) }
        ensures same { IsAsBefore local.old local.new }
    {
        let Ok(mut cells) = Vec::with_capacity(alloc, domain.slots()) else {
            return Err(RawRefused::Memory);
        };
        for _i in 0..domain.slots() {
            let Ok(cell) = AtomicShared::null(domain, local) else {
                RawItems::give_back(domain, cells, local);
                return Err(RawRefused::NoCell);
            };
            cells.push_reserved(cell);
        }
        Ok(RawItems {
            cells,
            cells_of_place: domain.cells(),
        })
    }

    /// The cell of a slot: none where the place has no such slot.
    fn at(&self, slot: usize) -> Option<&AtomicShared<T>>
        ensures inside { IfSome result (λ c. cell_number c.now < self.now.cells_of_place) }
        ensures cell { IfSome result (λ c. IsRawCell self.now slot (cell_number c.now)) }
        ensures none { IfNone result (length self.now.cells.items ≤ slot) }
    {
        self.cells.get(slot)
    }

    /// Hands an item out as a raw one: a pointer to it, without a tag. Returns the owner if the place has no such slot, which
    /// is never so of an item of the same place.
    pub fn into_raw(
        &self,
        domain: &Domain<T>,
        owned: Owned<T>,
        local: &mut Local<T>,
    ) -> Result<RawPtr<T>, Owned<T>>
        requires home { home_of local.old ≡ place_of domain.now }
        requires raws { AreRawItemsOf self.now domain.now }
        requires mine { place_in owned ≡ (place_of domain.now).0 }
        ensures exact { IfOk result (λ p. raw_slot p ≡ sole_slot (Some owned)) }
        ensures bare { IfOk result (λ p. raw_tag p ≡ tags.None) }
        ensures put { IfOk result (λ p. PutsRaw self.now owned local.old local.new) }
        ensures refused { IfErr result (λ back. (back ≡ owned) × IfSome (sole_slot (Some owned)) (λ k. slot_count domain.now ≤ k)) }
        ensures same { IsInNest local.old local.new × ((own_of local.new).nesting ≡ (own_of local.old).nesting) }
    {
        let at = owned.slot();
        let Ok(slot) = u32::try_from(at) else {
            return Err(owned);
        };
        let Some(cell) = self.at(at) else {
            return Err(owned);
        };
        let (old, _) = cell.swap(domain, (Some(owned.into_shared()), Tag::None), local);
        let_go(domain, old, local);
        Ok(RawPtr::to_slot(Some(slot), Tag::None))
    }

    /// The owner of the item in the pointer's slot, which isn't out as a raw one any more. None where that slot has no item
    /// that is out so, or the pointer is to nothing. Whoever takes it first has it: it is one step.
    pub fn from_raw(
        &self,
        domain: &Domain<T>,
        pointer: RawPtr<T>,
        local: &mut Local<T>,
    ) -> Option<Owned<T>>
        requires home { home_of local.old ≡ place_of domain.now }
        requires raws { AreRawItemsOf self.now domain.now }
        ensures home { IfSome result (λ o. place_in o ≡ (place_of domain.now).0) }
        ensures exact { IfSome result (λ o. sole_slot (Some o) ≡ raw_slot pointer) }
        ensures taken { IfSome (raw_slot pointer) (λ k. k < slot_count domain.now → TakesRaw self.now k (IsSome result) local.old local.new) }
        ensures same { IsInNest local.old local.new × ((own_of local.new).nesting ≡ (own_of local.old).nesting) }
    {
        let Some(slot) = pointer.slot else {
            return None;
        };
        let Some(cell) = self.at(slot as usize) else {
            return None;
        };
        let (found, _) = cell.swap(domain, (None, Tag::None), local);
        let Some(owner) = found else {
            return None;
        };
        if owner.slot() == slot as usize {
            return Some(Owned { owner });
        }
        // (a cell has the owner of its own slot's item alone)
        owner.release(domain, local);
        None
    }

    /// The item in the pointer's slot, with the pointer's tag, for as long as the guard is borrowed. A pointer to nothing gives
    /// one to nothing. None where the slot has no item that is out as a raw one.
    pub fn into_ptr<'g>(
        &self,
        domain: &Domain<T>,
        pointer: RawPtr<T>,
        guard: &'g Guard,
        local: &mut Local<T>,
    ) -> Option<OwnedPtr<'g, T>>
        requires home { home_of local.old ≡ place_of domain.now }
        requires nest { nest_of guard.now ≡ nest_in local.old }
        requires open { 0 < (own_of local.old).nesting }
        requires raws { AreRawItemsOf self.now domain.now }
        ensures slot { IfSome result (λ p. pointer_slot p ≡ raw_slot pointer) }
        ensures tag { IfSome result (λ p. pointer_tag p ≡ raw_tag pointer) }
        ensures null { IfNone (raw_slot pointer) (IsSome result) }
        ensures looked { IfSome (raw_slot pointer) (λ k. k < slot_count domain.now → ReadsRaw self.now k (IsSome result) local.old local.new) }
        ensures same { IsUnchanged local.old local.new }
    {
        let Some(slot) = pointer.slot else {
            return Some(OwnedPtr::null().with_tag(pointer.tag));
        };
        let Some(cell) = self.at(slot as usize) else {
            return None;
        };
        let of = cell.load(domain, guard, local);
        let Some(found) = of.slot() else {
            return None;
        };
        if found == slot as usize {
            return Some(OwnedPtr {
                of: of.with_tag(pointer.tag),
            });
        }
        None
    }

    /// Gives the cells back, and retires the items that are still handed out.
    pub fn end(self, domain: &Domain<T>, local: &mut Local<T>)
        requires home { home_of local.old ≡ place_of domain.now }
        requires raws { AreRawItemsOf self domain.now }
        ensures same { IsInNest local.old local.new × ((own_of local.new).nesting ≡ (own_of local.old).nesting) }
    {
        let RawItems {
            cells,
            cells_of_place: _,
        } = self;
        RawItems::give_back(domain, cells, local);
    }

    /// Gives cells back, and releases what they own.
    fn give_back(domain: &Domain<T>, cells: Vec<AtomicShared<T>>, local: &mut Local<T>)
        requires home { home_of local.old ≡ place_of domain.now }
        requires inside { All (λ c. cell_number c < cell_count domain.now) cells.items }
        ensures same { IsInNest local.old local.new × ((own_of local.new).nesting ≡ (own_of local.old).nesting) }
    {
        let mut cells = cells;
        while let Some(cell) = cells.pop() {
            cell.retire(domain, local);
        }
        cells.destroy_empty();
    }
}

/// Releases an owner that there may be.
fn let_go<T: Holds>(domain: &Domain<T>, owner: Option<Shared<T>>, local: &mut Local<T>)
    requires home { home_of local.old ≡ place_of domain.now }
    requires mine { IfSome owner (λ s. kept_in s ≡ (place_of domain.now).0) }
    ensures same { IsInNest local.old local.new × ((own_of local.new).nesting ≡ (own_of local.old).nesting) }
    ensures cells { StepsOnNoCell local.old local.new }
{
    if let Some(owner) = owner {
        owner.release(domain, local);
    }
}
