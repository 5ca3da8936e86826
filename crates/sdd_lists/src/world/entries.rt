//! Making the entries of containers, for crates that make these. `world_containers` doesn't pass it on.
//!
//! A function with a condition can call one that changes a place only if that has a condition as well: the borrow
//! checker's proof covers no other. So those here have one that always holds.

ghost use Rattle.std.specs.Prelude.{◌≡◌, ◌≤◌, length, IfOk, IfErr, IfSome, Some, None, [], ℕ};
ghost use Rattle.sdd_world.specs.State.{NoCellFree, cell_at, status_at, with_cell};
ghost use Rattle.sdd_world.specs.Tokens.{shared_slot};
ghost use Rattle.sdd_lists.specs.Chain.{Leaves, Stays};
ghost use Rattle.sdd_lists.specs.Entries.{entry_value, entry_link};
ghost use Rattle.sdd_lists.specs.Making.{IsMade};
ghost use Rattle.sdd_lists.specs.Calls.{MakesEntry, NoRoom};

use crate::linked_entry::LinkedEntry;
use sdd_world::job::Deferred;
use sdd_world::owner::Shared;
use sdd_world::status::{Cell, Status};
use sdd_world::tag::Tag;
use sdd_world::world::{World, atomic_shared, shared};

/// An entry of `value` that is clear and has no next one, if and only if a cell is free; else `value` is returned.
pub(crate) fn link<T, J: Deferred>(
    w: &mut World<LinkedEntry<T>, J>,
    value: T,
) -> Result<LinkedEntry<T>, T>
    requires { 0 ≤ length w.old.cells }
    ensures made { IfOk result (λ e. MakesEntry w.old w.new e value) }
    ensures refused { IfErr result (λ v. (v ≡ value) × (w.new ≡ w.old) × NoCellFree w.old) }
    ensures leaves { Leaves [] [] w.old w.new }
    ensures participants { w.new.participants ≡ w.old.participants }
    ensures stays { Stays w.old w.new }
{
    match atomic_shared::null(w) {
        Ok(next) => Ok(LinkedEntry {
            instance: value,
            next: Some(next),
        }),
        Err(_) => Err(value),
    }
}

/// Takes an entry apart that has no next one, and gives its value.
pub(crate) fn undo<T, J: Deferred>(w: &mut World<LinkedEntry<T>, J>, entry: LinkedEntry<T>) -> T
    requires { (c : ℕ) × (t : Tag) × (entry_link entry ≡ Some c) × (cell_at w.old c ≡ Cell.OfShared None t) }
    ensures value { result ≡ entry_value entry }
    ensures ended { IfSome (entry_link entry) (λ c. w.new ≡ with_cell c Cell.Free w.old) }
{
    let LinkedEntry { instance, next } = entry;
    match next {
        Some(next) => match atomic_shared::into_shared(w, next) {
            None => instance,
            Some(_) => unreachable!(),
        },
        None => unreachable!(),
    }
}

/// Makes an item of a clear entry of value, with one owner, if and only if a slot and a cell are free; else value comes
/// back.
pub fn make_one<T, J: Deferred>(
    w: &mut World<LinkedEntry<T>, J>,
    value: T,
) -> Result<Shared<LinkedEntry<T>>, T>
    requires { 0 ≤ length w.old.cells }
    ensures made { IfOk result (λ s. IsMade w.old w.new value (shared_slot s)) }
    ensures one { IfOk result (λ s. status_at w.new (shared_slot s) ≡ Status.Shared 1) }
    ensures refused { IfErr result (λ v. (v ≡ value) × (w.new ≡ w.old) × NoRoom w.old) }
    ensures leaves { Leaves [] [] w.old w.new }
    ensures participants { w.new.participants ≡ w.old.participants }
    ensures stays { Stays w.old w.new }
{
    match link(w, value) {
        Err(value) => Err(value),
        Ok(entry) => match shared::new(w, entry) {
            Ok(owner) => Ok(owner),
            Err(entry) => Err(undo(w, entry)),
        },
    }
}

/// As `make_one`, with two owners.
pub fn make<T, J: Deferred>(
    w: &mut World<LinkedEntry<T>, J>,
    value: T,
) -> Result<(Shared<LinkedEntry<T>>, Shared<LinkedEntry<T>>), T>
    requires { 0 ≤ length w.old.cells }
    ensures made { IfOk result (λ s. IsMade w.old w.new value (shared_slot s.0)) }
    ensures both { IfOk result (λ s. shared_slot s.1 ≡ shared_slot s.0) }
    ensures two { IfOk result (λ s. status_at w.new (shared_slot s.0) ≡ Status.Shared 2) }
    ensures refused { IfErr result (λ v. (v ≡ value) × (w.new ≡ w.old) × NoRoom w.old) }
    ensures leaves { Leaves [] [] w.old w.new }
    ensures participants { w.new.participants ≡ w.old.participants }
    ensures stays { Stays w.old w.new }
{
    match make_one(w, value) {
        Err(value) => Err(value),
        Ok(owner) => match shared::clone(w, &owner) {
            Some(other) => Ok((owner, other)),
            None => unreachable!(),
        },
    }
}

/// As `make_one`, with three owners.
pub fn make_three<T, J: Deferred>(
    w: &mut World<LinkedEntry<T>, J>,
    value: T,
) -> Result<
    (
        Shared<LinkedEntry<T>>,
        Shared<LinkedEntry<T>>,
        Shared<LinkedEntry<T>>,
    ),
    T,
>
    requires { 0 ≤ length w.old.cells }
    ensures made { IfOk result (λ s. IsMade w.old w.new value (shared_slot s.0)) }
    ensures link { IfOk result (λ s. shared_slot s.1 ≡ shared_slot s.0) }
    ensures last { IfOk result (λ s. shared_slot s.2 ≡ shared_slot s.0) }
    ensures three { IfOk result (λ s. status_at w.new (shared_slot s.0) ≡ Status.Shared 3) }
    ensures refused { IfErr result (λ v. (v ≡ value) × (w.new ≡ w.old) × NoRoom w.old) }
    ensures leaves { Leaves [] [] w.old w.new }
    ensures participants { w.new.participants ≡ w.old.participants }
    ensures stays { Stays w.old w.new }
{
    match make(w, value) {
        Err(value) => Err(value),
        Ok((owner, link)) => match shared::clone(w, &owner) {
            Some(last) => Ok((owner, link, last)),
            None => unreachable!(),
        },
    }
}
