//! Rows of cells, from each of which a list hangs.

ghost use Rattle.std.specs.Prelude.{◌≡◌, ◌<◌, ◌≤◌, ◌+◌, ◌++◌, ℕ, List, [], ◌∷◌, length, map, not, Option, None, Some, IfSome, IfNone, IfOk, OnOk, OnErr, IfErr, ◌⊎◌, vec_len, vec_capacity, IsErrOf};
ghost use Rattle.sdd_world.specs.State.{NoneFree, NoCellFree, emptiness};
ghost use Rattle.std.specs.List.{sum_by};
ghost use Rattle.sdd_world.specs.Frame.{OnlyParticipant};
ghost use Rattle.sdd_world.specs.Place.{IsSharedCell};
ghost use Rattle.sdd_world.specs.Tokens.{shared_cell};
ghost use Rattle.sdd_lists.specs.Chain.{Leaves, Stays};
ghost use Rattle.world_containers.specs.Stacks.{IsSomeStack};
ghost use Rattle.world_containers.specs.Bags.{IsNull, IsRow, IsSomeRow, AreEmpty, IsClaimed, Puts, cell_of, freed};
ghost use Rattle.world_containers.specs.Calls.{CountsRow, OfRow, OnlyRow};

use crate::linked_entry::LinkedEntry;
use crate::linked_list::LinkedList;
use crate::refusal::NotMade;
use sdd_lists::world::{chain, entries};
use sdd_world::cell::AtomicShared;
use sdd_world::job::Deferred;
use sdd_world::world::{World, atomic_shared};
use std::alloc::Global;

/// The place of the first cell, from `from` on, that keeps nothing, or of the first that keeps something.
pub(crate) fn find<L, J: Deferred>(
    w: &World<L, J>,
    cells: &Vec<AtomicShared<L>>,
    from: usize,
    null: bool,
) -> Option<usize>
    requires { (k : ℕ) → k < length cells.now.items → IsSharedCell w.now (cell_of cells.now.items k) }
    ensures some { IfSome result (λ at. (from ≤ at) × (at < length cells.now.items) × IsNull w.now (cell_of cells.now.items at) null) }
    ensures before { IfSome result (λ at. (k : ℕ) → from ≤ k → k < at → IsNull w.now (cell_of cells.now.items k) (not null)) }
    ensures none { IfNone result ((k : ℕ) → from ≤ k → k < length cells.now.items → IsNull w.now (cell_of cells.now.items k) (not null)) }
{
    for at in from..cells.len() {
        if atomic_shared::is_null(w, &cells[at]) == null {
            return Some(at);
        }
    }
    None
}

/// Hangs a new entry of `value` from a cell, before all others, if and only if a slot and a cell are free; else `value`
/// is returned and nothing changes.
pub(crate) fn put<T, J: Deferred>(
    w: &mut World<LinkedEntry<T>, J>,
    cell: &AtomicShared<LinkedEntry<T>>,
    value: T,
) -> Result<(), T>
    requires { IsSomeStack w.old (shared_cell cell.now) }
    ensures put { OnOk result (Puts w.old w.new value (shared_cell cell.now)) }
    ensures refused { IfErr result (λ v. (v ≡ value) × (w.new ≡ w.old) × (NoneFree w.old ⊎ NoCellFree w.old)) }
    ensures leaves { Leaves (shared_cell cell.now ∷ []) [] w.old w.new }
    ensures participants { w.new.participants ≡ w.old.participants }
    ensures stays { Stays w.old w.new }
{
    match entries::make_one(w, value) {
        Err(value) => Err(value),
        Ok(first) => {
            chain::put_first(w, cell, first);
            Ok(())
        }
    }
}

/// Gives all entries of a row back.
pub(crate) fn clear_all<L: LinkedList, J: Deferred>(
    w: &mut World<L, J>,
    cells: &Vec<AtomicShared<L>>,
    p: usize,
)
    requires participant { p < length w.old.participants }
    requires list { IsSomeRow L.link w.old (map shared_cell cells.now.items) }
    ensures cleared { OfRow L.link w.old cells.now.items (λ _. IsRow L.link w.new (map shared_cell cells.now.items) []) }
    ensures leaves { OnlyRow L.link w.old w.new cells.now.items }
    ensures only { OnlyParticipant p w.old w.new }
    ensures stays { Stays w.old w.new }
{
    for at in 0..cells.len() {
        chain::clear(w, &cells[at], p);
    }
}

/// Ends empty cells, the last one first.
pub(crate) fn end_all<L, J: Deferred>(w: &mut World<L, J>, cells: Vec<AtomicShared<L>>)
    requires { AreEmpty w.old (map shared_cell cells.items) }
    ensures ended { w.new ≡ freed (map shared_cell cells.items) w.old }
    ensures stays { Stays w.old w.new }
    ensures participants { w.new.participants ≡ w.old.participants }
{
    let mut cells = cells;
    while let Some(cell) = cells.pop() {
        chain::end(w, cell);
    }
    cells.destroy_empty();
}

/// Claims a number of cells, which keep nothing. If too few are free, none is claimed.
pub(crate) fn claim_all<L, J: Deferred>(
    alloc: Global,
    w: &mut World<L, J>,
    number: usize,
) -> Result<Vec<AtomicShared<L>>, NotMade>
    requires { number < 1024 }
    ensures claimed { IfOk result (λ ts. (length ts.items ≡ number) × IsClaimed w.old (map shared_cell ts.items) w.new) }
    ensures back { OnErr result (w.new ≡ w.old) }
    ensures refused { IsErrOf result NotMade.NoSlot → sum_by emptiness w.old.cells < number }
    ensures participants { w.new.participants ≡ w.old.participants }
    ensures stays { Stays w.old w.new }
{
    let mut cells = match Vec::with_capacity(alloc, number) {
        Ok(cells) => cells,
        Err(_) => return Err(NotMade::Memory),
    };
    for _made in 0..number {
        match atomic_shared::null(w) {
            Ok(cell) => keep(&mut cells, cell),
            Err(_) => {
                end_all(w, cells);
                return Err(NotMade::NoSlot);
            }
        }
    }
    Ok(cells)
}

/// Adds a cell where there is room.
fn keep<L>(cells: &mut Vec<AtomicShared<L>>, cell: AtomicShared<L>)
    requires { vec_len cells.old < vec_capacity cells.old }
    ensures items { cells.new.items ≡ cells.old.items ++ cell ∷ [] }
    ensures room { vec_capacity cells.old ≤ vec_capacity cells.new }
{
    match cells.push(cell) {
        Ok(()) => {}
        Err(_) => unreachable!(),
    }
}

/// How many undeleted entries hang from the cells of a row.
pub(crate) fn count_all<L: LinkedList, J: Deferred>(
    w: &World<L, J>,
    cells: &Vec<AtomicShared<L>>,
) -> usize
    requires { IsSomeRow L.link w.now (map shared_cell cells.now.items) }
    ensures { CountsRow L.link w.now cells.now.items result }
{
    let most = w.slots_in_use();
    let mut total = 0;
    for at in 0..cells.len() {
        let here = chain::count(w, &cells[at]);
        // No item hangs in two lists.
        prove!(here <= most - total);
        total += here;
    }
    total
}
