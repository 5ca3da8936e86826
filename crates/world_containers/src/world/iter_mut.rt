//! Walks along the bags of a place that lend each value for writing.

ghost use Rattle.std.specs.Prelude.{◌≡◌, ◌≤◌, ◌⊎◌, ◌↔◌, ℕ, [], length, Some, IfOk, IfSome, IfNone, IsErr, MatchOption, false};
ghost use Rattle.std.specs.Borrow.{RestsIfErr, sem};
ghost use Rattle.sdd_world.specs.Place.{IsOpen};
ghost use Rattle.sdd_world.specs.Tokens.{link_cell};
ghost use Rattle.world_containers.specs.Bags.{IsNull, IsSomeBag, bag_cells};
ghost use Rattle.world_containers.specs.Iters.{first_value};
ghost use Rattle.world_containers.specs.MutableIteration.{IsLeft, IsSomeLeft, LendsNext, cells_from, stop_cells, stop_here, walk_bag, walk_cells, walk_name, walk_place};
ghost use Rattle.sdd_lists.specs.declared.linked_entry.LinkedEntry.{LinkedEntry};
ghost use Rattle.world_containers.specs.Calls.{OfWalk, WalkFinds, WalksBag};

use crate::bag::{Bag, IterMut, Stop};
use crate::linked_entry::LinkedEntry;
use crate::linked_list::LinkedList;
use sdd_world::cell::AtomicShared;
use sdd_world::exclusive_access::ExclusiveAccess;
use sdd_world::job::Deferred;
use sdd_world::link::Link;
use sdd_world::refusal::GuardsOpen;
use sdd_world::world::{World, atomic_shared};

/// A place along whose bags a walk can go: a `World`.
pub trait WalkedPlace<T>: ExclusiveAccess<LinkedEntry<T>> + Sized {
    /// The next entry of a walk along the lists of these cells, or none at the end. It changes nothing.
    fn next_stop(
        &self,
        cells: &Vec<AtomicShared<LinkedEntry<T>>>,
        row: usize,
        from: &Link<LinkedEntry<T>>,
    ) -> Option<Stop<T>>
        requires { IsSomeLeft (Self.state self.now) (cells_from cells.now.items row from.now) }
        ensures none { IfNone result (OfWalk (Self.state self.now) (cells_from cells.now.items row from.now) (λ es. es ≡ [])) }
        ensures some { IfSome result (λ s. WalkFinds (Self.state self.now) (cells_from cells.now.items row from.now) (stop_here s) (stop_cells cells.now.items s)) };
}

/// A place whose bags lend their values for writing: a `World`. A trait, since a clause on a refused borrow can't name the
/// type of a `World`.
pub trait BagPlace<T, const ARRAY_LEN: usize>: WalkedPlace<T> {
    /// A walk that lends each value of a bag for writing; refused while a guard of any participant is open, and then
    /// nothing has changed. It takes no memory.
    fn iter_mut<'a>(
        &'a mut self,
        bag: &'a Bag<T, ARRAY_LEN>,
    ) -> Result<IterMut<'a, T, Self>, GuardsOpen>
        requires { IsSomeBag ARRAY_LEN (Self.state self.old) (bag_cells bag.now) }
        ensures* refused { sem 𝓛 (RestsIfErr Self.row self.entry walk_name result (λ n. n ≡ self.entry.now)) }
        ensures open { IsErr result ↔ ((p : ℕ) × IsOpen (Self.state self.old) p) }
        ensures same { IfOk result (λ i. walk_name i ≡ self.entry.ghost_name) }
        ensures place { IfOk result (λ i. walk_place i ≡ self.old) }
        ensures bag { IfOk result (λ i. walk_bag i ≡ bag_cells bag.now) }
        ensures starts { IfOk result (λ i. WalksBag ARRAY_LEN (Self.state self.old) (bag_cells bag.now) (walk_cells i)) }
        ensures left { IfOk result (λ i. IsSomeLeft (Self.state self.old) (walk_cells i)) };
}

impl<T, J: Deferred> WalkedPlace<T> for World<LinkedEntry<T>, J> {
    fn next_stop(
        &self,
        cells: &Vec<AtomicShared<LinkedEntry<T>>>,
        row: usize,
        from: &Link<LinkedEntry<T>>,
    ) -> Option<Stop<T>> {
        let spot = seek(self, cells, row, Link::of(from.cell()));
        let Some(item) = atomic_shared::as_ref(self, spot.at.cell()) else {
            return None;
        };
        let next = Link::of(item.link_ref());
        let Spot { row, at: here } = spot;
        Some(Stop { here, next, row })
    }
}

impl<T, J: Deferred, const ARRAY_LEN: usize> BagPlace<T, ARRAY_LEN> for World<LinkedEntry<T>, J> {
    fn iter_mut<'a>(
        &'a mut self,
        bag: &'a Bag<T, ARRAY_LEN>,
    ) -> Result<IterMut<'a, T, World<LinkedEntry<T>, J>>, GuardsOpen> {
        if self.has_open_guard() {
            return Err(GuardsOpen);
        }
        let at = Link::of(&bag.cells[0]);
        Ok(IterMut {
            place: self,
            cells: &bag.cells,
            row: 1,
            at,
        })
    }
}

/// The position of a walk: the cell of what is left of one list, and the place of the cell of the next one.
#[derive(Drop)]
struct Spot<T> {
    row: usize,
    at: Link<LinkedEntry<T>>,
}

/// The same place of a walk, with empty lists passed.
fn seek<T, J: Deferred>(
    w: &World<LinkedEntry<T>, J>,
    cells: &Vec<AtomicShared<LinkedEntry<T>>>,
    row: usize,
    from: Link<LinkedEntry<T>>,
) -> Spot<T>
    requires { IsSomeLeft w.now (cells_from cells.now.items row from) }
    ensures left { OfWalk w.now (cells_from cells.now.items row from) (IsLeft w.now (cells_from cells.now.items result.row result.at)) }
    ensures found { (length cells.now.items ≤ result.row) ⊎ IsNull w.now (link_cell result.at) false }
{
    let mut at = from;
    for next in row..cells.len() {
        if !atomic_shared::is_null(w, at.cell()) {
            return Spot { row: next, at };
        }
        at = Link::of(&cells[next]);
    }
    Spot {
        row: cells.len(),
        at,
    }
}

impl<'a, T, W: WalkedPlace<T>> IterMut<'a, T, W> {
    /// The cell that keeps the next entry, which is passed, or none at the end.
    fn advance(&mut self) -> Option<Link<LinkedEntry<T>>>
        requires { IsSomeLeft (W.state (walk_place self.old)) (walk_cells self.old) }
        ensures same { walk_name self.new ≡ walk_name self.old }
        ensures bag { walk_bag self.new ≡ walk_bag self.old }
        ensures place { walk_place self.new ≡ walk_place self.old }
        ensures cells { IfNone result (walk_cells self.new ≡ walk_cells self.old) }
        ensures none { IfNone result (OfWalk (W.state (walk_place self.old)) (walk_cells self.old) (λ es. es ≡ [])) }
        ensures some { IfSome result (λ c. WalkFinds (W.state (walk_place self.old)) (walk_cells self.old) (link_cell c) (walk_cells self.new)) }
    {
        let from = Link::of(self.at.cell());
        let Some(stop) = self.place.next_stop(self.cells, self.row, &from) else {
            return None;
        };
        let Stop { here, next, row } = stop;
        self.row = row;
        self.at = next;
        Some(here)
    }

    /// The next value, for writing, or none at the end. Once the borrow is over, the value is what was last written, and
    /// nothing else has changed.
    pub fn next(&mut self) -> Option<&mut T>
        requires { IsSomeLeft (W.state (walk_place self.old)) (walk_cells self.old) }
        ensures* lends { sem 𝓛 (LendsNext T.row W.row W.state self.entry result) }
        ensures gives { OfWalk (W.state (walk_place self.old)) (walk_cells self.old) (λ es. MatchOption result (es ≡ []) (λ v. first_value es ≡ Some v.now)) }
    {
        let Some(here) = self.advance() else {
            return None;
        };
        match self.place.cell_mut(here.cell()) {
            Ok(entry) => Some(entry.as_mut()),
            Err(_) => unreachable!(),
        }
    }
}
