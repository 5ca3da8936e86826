//! What follows each item of a place in the list that it is in.

ghost use Rattle.std.specs.Prelude.{◌≡◌, ◌<◌, ◌≤◌, All, IfOk, IfNone, IfSome};
ghost use Rattle.sdd_domain.specs.Cells.{cell_number};

use crate::refusal::NotMade;
use sdd_domain::atomic_shared::AtomicShared;
use sdd_domain::domain::Domain;
use sdd_domain::guard::Guard;
use sdd_domain::holds::Holds;
use sdd_domain::local::Local;
use sdd_domain::pointer::Ptr;
use std::alloc::Global;

/// A cell for each slot of a place: it owns what follows the item of that slot. All containers of the place use the same
/// links, since an item is in at most one of them. They must be consumed by `end`.
pub struct Links<T> {
    row: Row<T>,
}

impl<T: Holds> Links<T> {
    ghost use Rattle.sdd_plain.specs.Epochs.{tag_number};
    ghost use Rattle.sdd_domain.specs.CellSteps.{HasReadCell};
    ghost use Rattle.sdd_domain.specs.Comparing.{code_of};
    ghost use Rattle.sdd_domain.specs.Pointers.{ptr_slot, ptr_tag};
    ghost use Rattle.sdd_domain.specs.Tokens.{place_of, home_of, slot_count};
    ghost use Rattle.shared_lists.specs.Entries.{HasReadLink};
    ghost use Rattle.shared_lists.specs.Lists.{AreLinksOf, IsLinkOf, cells_around, links_count, IsAsBefore, IsOpenIn, IsStill};

    /// Links for the slots of a place. It takes as many cells as the place has slots, and memory for their names.
    pub fn new(alloc: Global, domain: &Domain<T>, local: &mut Local<T>) -> Result<Links<T>, NotMade>
        requires home { home_of local.old ≡ place_of domain.now }
        ensures links { IfOk result (λ links. AreLinksOf links domain.now) }
        ensures each { IfOk result (λ links. links_count links ≡ slot_count domain.now) }
        ensures same { IsAsBefore local.old local.new }
    {
        let row = Row::new(alloc, domain, domain.slots(), local)?;
        Ok(Links { row })
    }

    /// The link of a slot: none where the place has no such slot.
    pub fn at(&self, slot: usize) -> Option<&AtomicShared<T>>
        ensures inside { IfSome result (λ c. cell_number c.now < cells_around self.now) }
        ensures link { IfSome result (λ c. IsLinkOf self.now slot (cell_number c.now)) }
        ensures none { IfNone result (links_count self.now ≤ slot) }
    {
        self.row.at(slot)
    }

    /// The link of an item: none of nothing.
    pub fn of_item(&self, item: Ptr<T>) -> Option<&AtomicShared<T>>
        ensures inside { IfSome result (λ c. cell_number c.now < cells_around self.now) }
        ensures link { IfSome result (λ c. IfSome (ptr_slot item.entry) (λ i. IsLinkOf self.now i (cell_number c.now))) }
        ensures none { IfNone result (IfSome (ptr_slot item.entry) (λ i. links_count self.now ≤ i)) }
    {
        self.at(item.slot()?)
    }

    /// What follows an item: nothing behind nothing.
    pub fn after<'g>(
        &self,
        domain: &Domain<T>,
        item: Ptr<T>,
        guard: &'g Guard,
        local: &mut Local<T>,
    ) -> Ptr<'g, T>
        requires open { IsOpenIn guard.now local.old domain.now }
        requires links { AreLinksOf self.now domain.now }
        ensures looked { IfSome (ptr_slot item.entry) (λ slot. HasReadLink local.old self.now slot result local.new) }
        ensures same { IsStill local.old local.new }
    {
        let Some(link) = self.of_item(item) else {
            return Ptr::null();
        };
        link.load(domain, guard, local)
    }

    /// Gives the cells back, and releases what they own. Condition: no container has an item.
    pub fn end(self, domain: &Domain<T>, local: &mut Local<T>)
        requires home { home_of local.old ≡ place_of domain.now }
        requires links { AreLinksOf self domain.now }
        ensures same { IsAsBefore local.old local.new }
    {
        let Links { row } = self;
        row.end(domain, local);
    }
}

/// Cells of a place, one after another. They must be consumed by `end`.
pub struct Row<T> {
    cells: Vec<AtomicShared<T>>,
    /// How many cells the place has.
    cells_of_place: usize,
    ghost inside: { All (λ c. cell_number c < cells_of_place) cells.items },
}

impl<T: Holds> Row<T> {
    ghost use Rattle.sdd_domain.specs.Tokens.{place_of, home_of, cell_count};
    ghost use Rattle.shared_lists.specs.Lists.{IsCellAt, IsRowOf, row_count, IsAsBefore};

    /// A number of cells, which own nothing, and memory for their names.
    pub fn new(
        alloc: Global,
        domain: &Domain<T>,
        count: usize,
        local: &mut Local<T>,
    ) -> Result<Row<T>, NotMade>
        requires home { home_of local.old ≡ place_of domain.now }
        ensures row { IfOk result (λ row. IsRowOf row domain.now) }
        ensures count { IfOk result (λ row. row_count row ≡ count) }
        ensures same { IsAsBefore local.old local.new }
    {
        let Ok(mut cells) = Vec::with_capacity(alloc, count) else {
            return Err(NotMade::Memory);
        };
        for _i in 0..count {
            let Ok(cell) = AtomicShared::null(domain, local) else {
                Row::give_back(domain, cells, local);
                return Err(NotMade::NoCell);
            };
            cells.push_reserved(cell);
        }
        Ok(Row {
            cells,
            cells_of_place: domain.cells(),
        })
    }

    /// One of them: none behind the last.
    pub fn at(&self, index: usize) -> Option<&AtomicShared<T>>
        ensures inside { IfSome result (λ c. cell_number c.now < self.now.cells_of_place) }
        ensures at { IfSome result (λ c. IsCellAt self.now index (cell_number c.now)) }
        ensures none { IfNone result (row_count self.now ≤ index) }
    {
        self.cells.get(index)
    }

    /// Gives them back, and releases what they own.
    pub fn end(self, domain: &Domain<T>, local: &mut Local<T>)
        requires home { home_of local.old ≡ place_of domain.now }
        requires row { IsRowOf self domain.now }
        ensures same { IsAsBefore local.old local.new }
    {
        let Row {
            cells,
            cells_of_place: _,
        } = self;
        Row::give_back(domain, cells, local);
    }

    /// Gives cells back, and releases what they own.
    fn give_back(domain: &Domain<T>, cells: Vec<AtomicShared<T>>, local: &mut Local<T>)
        requires home { home_of local.old ≡ place_of domain.now }
        requires inside { All (λ c. cell_number c < cell_count domain.now) cells.items }
        ensures same { IsAsBefore local.old local.new }
    {
        let mut cells = cells;
        while let Some(cell) = cells.pop() {
            cell.retire(domain, local);
        }
        cells.destroy_empty();
    }
}
