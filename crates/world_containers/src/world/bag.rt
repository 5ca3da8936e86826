//! Bags over a `World`.

ghost use Rattle.std.specs.Prelude.{◌≡◌, ◌<◌, ◌≤◌, ◌⊎◌, ◌↔◌, ◌++◌, [], length, IfOk, IfErr, OnErr, OnOk, IsTrue, IsErrOf};
ghost use Rattle.sdd_world.specs.State.{emptiness};
ghost use Rattle.sdd_world.specs.Frame.{OnlyParticipant};
ghost use Rattle.std.specs.List.{sum_by, FoldsTo};
ghost use Rattle.sdd_lists.specs.Chain.{Leaves, Stays};
ghost use Rattle.world_containers.specs.Bags.{IsLength, CallsWith, AreFreeCells, bag_cells, into_cells};
ghost use Rattle.std.specs.Iterator.{IsFiniteIterable};
ghost use Rattle.world_containers.specs.FromIter.{IfUnmade, IfNoSlot};
ghost use Rattle.sdd_lists.specs.declared.linked_entry.LinkedEntry.{LinkedEntry};
ghost use Rattle.world_containers.specs.Calls.{BagIn, GivesAll, GivesUpTo, IsNewBag, NoRoom, OnlyBag, OnlyLinksOf, PutsInto, PutsIntoPrimary, SomeBagIn, TakesAll, TakesFromBag};

use crate::bag::{Bag, IntoIter};
use crate::linked_entry::LinkedEntry;
use crate::refusal::{FromIterRefused, NotMade};
use crate::world::row;
use sdd_lists::world::chain;
use sdd_world::job::Deferred;
use sdd_world::owner::Shared;
use sdd_world::world::World;
use std::alloc::Global;

/// An empty bag, if and only if `ARRAY_LEN + 1` cells are free and there is memory for as many names of cells; else
/// nothing changes. Condition: `ARRAY_LEN` is 1 to 32.
pub fn new<T, J: Deferred, const ARRAY_LEN: usize>(
    alloc: Global,
    w: &mut World<LinkedEntry<T>, J>,
) -> Result<Bag<T, ARRAY_LEN>, NotMade>
    requires { IsLength ARRAY_LEN }
    ensures made { IfOk result (λ b. BagIn w.new b [] []) }
    ensures list { IfOk result (λ b. SomeBagIn w.new b) }
    ensures fresh { IfOk result (λ b. AreFreeCells w.old (bag_cells b)) }
    ensures back { OnErr result (w.new ≡ w.old) }
    ensures refused { IsErrOf result NotMade.NoSlot → sum_by emptiness w.old.cells ≤ ARRAY_LEN }
    ensures leaves { Leaves [] [] w.old w.new }
    ensures participants { w.new.participants ≡ w.old.participants }
    ensures stays { Stays w.old w.new }
{
    match row::claim_all(alloc, w, ARRAY_LEN + 1) {
        Ok(cells) => Ok(Bag { cells }),
        Err(refused) => Err(refused),
    }
}

/// Puts `value` into the primary, in an entry of its own, if and only if that has fewer than `ARRAY_LEN` values and a
/// slot and a cell are free; else `value` is returned and nothing changes.
pub fn try_push<T, J: Deferred, const ARRAY_LEN: usize>(
    w: &mut World<LinkedEntry<T>, J>,
    bag: &Bag<T, ARRAY_LEN>,
    value: T,
) -> Result<(), T>
    requires { SomeBagIn w.old bag.now }
    ensures pushed { OnOk result (PutsIntoPrimary w.old w.new bag.now value) }
    ensures refused { IfErr result (λ v. (v ≡ value) × (w.new ≡ w.old)) }
    ensures full { OnErr result ((ps : _) (os : _) → BagIn w.old bag.now ps os → (length ps ≡ ARRAY_LEN) ⊎ NoRoom w.old) }
    ensures list { SomeBagIn w.new bag.now }
    ensures leaves { Leaves (bag_cells bag.now) [] w.old w.new }
    ensures participants { w.new.participants ≡ w.old.participants }
    ensures stays { Stays w.old w.new }
{
    match row::find(w, &bag.cells, 1, true) {
        None => Err(value),
        Some(at) => row::put(w, &bag.cells[at], value),
    }
}

/// Puts `value` into the primary, in an entry of its own, or into the overflow if the primary has `ARRAY_LEN` values,
/// if and only if a slot and a cell are free; else `value` is returned and nothing changes.
pub fn push<T, J: Deferred, const ARRAY_LEN: usize>(
    w: &mut World<LinkedEntry<T>, J>,
    bag: &Bag<T, ARRAY_LEN>,
    value: T,
) -> Result<(), T>
    requires { SomeBagIn w.old bag.now }
    ensures pushed { OnOk result (PutsInto w.old w.new bag.now value) }
    ensures refused { IfErr result (λ v. (v ≡ value) × (w.new ≡ w.old) × NoRoom w.old) }
    ensures list { SomeBagIn w.new bag.now }
    ensures leaves { Leaves (bag_cells bag.now) [] w.old w.new }
    ensures participants { w.new.participants ≡ w.old.participants }
    ensures stays { Stays w.old w.new }
{
    match row::find(w, &bag.cells, 1, true) {
        None => row::put(w, &bag.cells[0], value),
        Some(at) => row::put(w, &bag.cells[at], value),
    }
}

/// A bag of the values, each in an entry of its own, the first `ARRAY_LEN` of them in the primary. If no empty bag can
/// be made, nothing has changed and `values` is returned. The first value for which no slot or no cell is free is
/// returned with the bag of those before it. Conditions: `ARRAY_LEN` is 1 to 32, and the values end.
pub fn from_iter<T, J: Deferred, const ARRAY_LEN: usize, I: IntoIterator<Item = T>>(
    alloc: Global,
    w: &mut World<LinkedEntry<T>, J>,
    values: I,
) -> Result<Bag<T, ARRAY_LEN>, FromIterRefused<Bag<T, ARRAY_LEN>, T, I>>
    requires length { IsLength ARRAY_LEN }
    requires ends { IsFiniteIterable I.into_iter_gives I.IntoIter.can_next I.IntoIter.remaining values }
    ensures filled { IfOk result (λ b. GivesAll I.into_iter_gives I.IntoIter.next_gives values (IsNewBag w.old w.new b)) }
    ensures partly { IfErr result (λ e. IfNoSlot e (λ b v. GivesUpTo I.into_iter_gives I.IntoIter.next_gives values v (IsNewBag w.old w.new b))) }
    ensures room { IfErr result (λ e. IfNoSlot e (λ _ _. NoRoom w.new)) }
    ensures none { IfErr result (λ e. IfUnmade e (λ r back. (back ≡ values) × (w.new ≡ w.old) × (r ≡ NotMade.NoSlot → sum_by emptiness w.old.cells ≤ ARRAY_LEN))) }
    ensures list { IfOk result (λ b. SomeBagIn w.new b) }
    ensures built { IfErr result (λ e. IfNoSlot e (λ b _. SomeBagIn w.new b)) }
    ensures leaves { Leaves [] [] w.old w.new }
    ensures participants { w.new.participants ≡ w.old.participants }
    ensures stays { Stays w.old w.new }
{
    let bag = match new(alloc, w) {
        Ok(bag) => bag,
        Err(refused) => return Err(FromIterRefused::Unmade(refused, values)),
    };
    for value in values {
        match push(w, &bag, value) {
            Ok(()) => {}
            Err(value) => return Err(FromIterRefused::NoSlot(bag, value)),
        }
    }
    Ok(bag)
}

/// Takes an entry, from the overflow while that has any, and gives the owner of it. It is in no list then, and nobody
/// else owns it. Participant `_p` gives nothing back.
pub fn pop<T, J: Deferred, const ARRAY_LEN: usize>(
    w: &mut World<LinkedEntry<T>, J>,
    bag: &Bag<T, ARRAY_LEN>,
    _p: usize,
) -> Option<Shared<LinkedEntry<T>>>
    requires { SomeBagIn w.old bag.now }
    ensures popped { TakesFromBag w.old w.new bag.now result }
    ensures list { SomeBagIn w.new bag.now }
    ensures leaves { OnlyLinksOf w.old w.new bag.now }
    ensures participants { w.new.participants ≡ w.old.participants }
    ensures stays { Stays w.old w.new }
{
    match row::find(w, &bag.cells, 0, false) {
        None => None,
        Some(at) => chain::take_first(w, &bag.cells[at]),
    }
}

/// How many values it has.
pub fn len<T, J: Deferred, const ARRAY_LEN: usize>(
    w: &World<LinkedEntry<T>, J>,
    bag: &Bag<T, ARRAY_LEN>,
) -> usize
    requires { SomeBagIn w.now bag.now }
    ensures { (ps : _) (os : _) → BagIn w.now bag.now ps os → result ≡ length (os ++ ps) }
{
    row::count_all(w, &bag.cells)
}

/// Whether it has no value.
pub fn is_empty<T, J: Deferred, const ARRAY_LEN: usize>(
    w: &World<LinkedEntry<T>, J>,
    bag: &Bag<T, ARRAY_LEN>,
) -> bool
    requires { SomeBagIn w.now bag.now }
    ensures { (ps : _) (os : _) → BagIn w.now bag.now ps os → IsTrue result ↔ (os ++ ps ≡ []) }
{
    let found = row::find(w, &bag.cells, 0, false);
    match found {
        None => true,
        Some(_) => false,
    }
}

/// Takes every entry and folds the owners of them: `f` is called once with each. Participant `p` gives nothing back.
pub fn pop_all<T, J: Deferred, B, F: FnMut(B, Shared<LinkedEntry<T>>) -> B, const ARRAY_LEN: usize>(
    w: &mut World<LinkedEntry<T>, J>,
    bag: &Bag<T, ARRAY_LEN>,
    p: usize,
    init: B,
    mut f: F,
) -> B
    requires callable { F.IsAlwaysCallable f }
    requires list { SomeBagIn w.old bag.now }
    ensures folded { TakesAll w.old w.new bag.now (λ es. (last : F) × FoldsTo (CallsWith F.step) (init, f) es (result, last)) }
    ensures emptied { BagIn w.new bag.now [] [] }
    ensures leaves { OnlyLinksOf w.old w.new bag.now }
    ensures participants { w.new.participants ≡ w.old.participants }
    ensures stays { Stays w.old w.new }
{
    let mut folded = init;
    for _popped in 0..len(w, bag) {
        match pop(w, bag, p) {
            None => unreachable!(),
            Some(owner) => folded = f(folded, owner),
        }
    }
    folded
}

/// Ends the bag: participant `p` gives all its entries back, and its `ARRAY_LEN + 1` cells are free.
pub fn retire<T, J: Deferred, const ARRAY_LEN: usize>(
    w: &mut World<LinkedEntry<T>, J>,
    bag: Bag<T, ARRAY_LEN>,
    p: usize,
)
    requires participant { p < length w.old.participants }
    requires list { SomeBagIn w.old bag }
    ensures ended { AreFreeCells w.new (bag_cells bag) }
    ensures leaves { OnlyBag w.old w.new bag }
    ensures only { OnlyParticipant p w.old w.new }
    ensures stays { Stays w.old w.new }
{
    let Bag { cells } = bag;
    row::clear_all(w, &cells, p);
    row::end_all(w, cells);
}

/// The bag, to be taken apart by `into_iter::next`.
pub fn into_iter<T, J: Deferred, const ARRAY_LEN: usize>(
    _w: &World<LinkedEntry<T>, J>,
    bag: Bag<T, ARRAY_LEN>,
) -> IntoIter<T, ARRAY_LEN>
    requires { SomeBagIn _w.now bag }
    ensures { into_cells result ≡ bag_cells bag }
{
    IntoIter { bag }
}
