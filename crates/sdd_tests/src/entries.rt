//! Entries in hand: written, cloned, and owners of entries that are given back at once.

ghost use Rattle.std.specs.Prelude.{◌≡◌, ◌<◌, [], length, false, true};
ghost use Rattle.world_containers.specs.Entries.{entry_value, entry_link};
ghost use Rattle.sdd_world.specs.Tokens.{ptr_slot, shared_slot};
ghost use Rattle.world_containers.specs.Chain.{Entry, Leaves, Stays, deleted};
ghost use Rattle.world_containers.specs.Nodes.{NamesEntry};
ghost use Rattle.world_containers.specs.Stacks.{IsMade};

use crate::places::{close, end, give, guarded, place_of};
use sdd_world::guard::WorldGuard;
use sdd_world::owner::Shared;
use sdd_world::pointer::Ptr;
use sdd_world::tag::Tag;
use sdd_world::world as place;
use sdd_world::world::World;
use std::process::Abort;
use world_containers::linked_entry::LinkedEntry;
use world_containers::queue::Queue;
use world_containers::refusal::NotMade;
use world_containers::stack::Stack;
use world_containers::world;

/// Writes the value of an entry, and nothing else of it.
fn write(entry: &mut LinkedEntry<u64>, value: u64)
    ensures value { entry_value entry.new ≡ value }
    ensures link { entry_link entry.new ≡ entry_link entry.old }
{
    *entry.as_mut() = value;
}

/// Gives an entry to the place, which ends it.
pub(crate) fn retire<R: Abort, T>(rt: &R, w: &mut World<LinkedEntry<T>>, entry: LinkedEntry<T>)
    requires { 0 < length w.old.participants }
    ensures { 0 < length w.new.participants }
{
    match place::shared::new(w, entry) {
        Ok(owner) => {
            place::shared::release(w, owner, 0);
        }
        Err(_) => panic!(rt; "a slot is free"),
    }
}

#[test]
fn an_entry_is_written_and_cloned(rt: HostRuntime) {
    let mut w = place_of(&rt, rt.alloc(), 2, 2);
    let Ok(mut entry) = world::linked_entry::new(&mut w, 5) else {
        panic!(rt; "a cell is free");
    };
    write(&mut entry, 7);
    let Ok(copy) = world::linked_entry::clone(&mut w, &entry) else {
        panic!(rt; "a cell is free");
    };
    let same = copy == entry;
    let values = (*entry.as_ref(), *copy.as_ref());
    let refused = match world::linked_entry::clone(&mut w, &entry) {
        Err(refused) => refused,
        _ => panic!(rt; "no cell is free"),
    };
    write(&mut entry, 8);
    let differs = copy != entry;
    retire(&rt, &mut w, entry);
    retire(&rt, &mut w, copy);
    end(&rt, w);
    assert!(rt; same && differs && values == (7, 7) && refused == NotMade::NoSlot);
}

/// A new entry, given to the place.
fn made<R: Abort>(rt: &R, w: &mut World<LinkedEntry<u64>>, value: u64) -> Shared<LinkedEntry<u64>>
    ensures made { IsMade w.old w.new value (shared_slot result) }
    ensures leaves { Leaves [] [] w.old w.new }
    ensures stays { Stays w.old w.new }
{
    match world::linked_entry::place(w, value) {
        Ok(owner) => owner,
        Err(_) => panic!(rt; "there is room"),
    }
}

/// The value of an entry that was put behind another, and whether the pointer to it is marked. Both end.
fn put_behind<R: Abort>(
    rt: &R,
    w: &mut World<LinkedEntry<u64>>,
    mark: bool,
    guard: &WorldGuard,
) -> (u64, bool)
    requires { 0 < length w.old.participants }
    ensures participant { 0 < length w.new.participants }
{
    let first = made(rt, w, 1);
    let second = made(rt, w, 2);
    let at = place::shared::get_guarded_ptr(&first, guard);
    let next = match world::linked_list::push_back(w, at, second, mark, guard) {
        Ok(next) => next,
        _ => panic!(rt; "it isn't deleted"),
    };
    if !w.is_readable(&next) {
        panic!(rt; "it is there");
    }
    let Some(entry) = w.read(&next) else {
        panic!(rt; "it isn't null");
    };
    let value = *entry.as_ref();
    give(rt, w, first);
    (value, next.tag() == Tag::First)
}

/// What `push_back` hands back where the entry is deleted: the value of the entry that was to go behind it. Both end.
fn put_behind_deleted<R: Abort>(rt: &R, w: &mut World<LinkedEntry<u64>>, guard: &WorldGuard) -> u64
    requires { 0 < length w.old.participants }
    ensures participant { 0 < length w.new.participants }
{
    let first = made(rt, w, 1);
    let second = made(rt, w, 2);
    let at = place::shared::get_guarded_ptr(&first, guard);
    if !world::linked_list::delete_self(w, at) {
        panic!(rt; "it wasn't deleted before");
    }
    let deleted = place::shared::get_guarded_ptr(&first, guard);
    let back = match world::linked_list::push_back(w, deleted, second, false, guard) {
        Ok(_) => panic!(rt; "it is deleted"),
        Err(back) => back,
    };
    let value = *place::shared::as_ref(w, &back).as_ref();
    give(rt, w, back);
    give(rt, w, first);
    value
}

/// What a deletion answers where the entry that `at` names is deleted already. The place stays as it was.
fn delete_again(w: &mut World<LinkedEntry<u64>>, at: Ptr<'static, LinkedEntry<u64>>) -> bool
    requires { (e : Entry _) × NamesEntry entry_link w.old (ptr_slot at) e × (deleted e.tag ≡ true) }
    ensures refused { result ≡ false }
    ensures kept { w.new ≡ w.old }
{
    world::linked_list::delete_self(w, at)
}

/// Deletes an entry twice: the second answer, and whether the entry is deleted then. It ends.
fn deleted_twice<R: Abort>(
    rt: &R,
    w: &mut World<LinkedEntry<u64>>,
    guard: &WorldGuard,
) -> (bool, bool)
    requires { 0 < length w.old.participants }
    ensures participant { 0 < length w.new.participants }
{
    let entry = made(rt, w, 1);
    let at = place::shared::get_guarded_ptr(&entry, guard);
    if !world::linked_list::delete_self(w, at) {
        panic!(rt; "it wasn't deleted before");
    }
    let deleted = place::shared::get_guarded_ptr(&entry, guard);
    let again = delete_again(w, deleted);
    let still = place::shared::get_guarded_ptr(&entry, guard);
    let is_deleted = world::linked_list::is_deleted(w, still);
    give(rt, w, entry);
    (again, is_deleted)
}

#[test]
fn entries_are_put_behind_others_and_deleted_once(rt: HostRuntime) {
    let mut w = place_of(&rt, rt.alloc(), 7, 11);
    let guard = guarded(&rt, &mut w);
    let marked = put_behind(&rt, &mut w, true, &guard);
    let clear = put_behind(&rt, &mut w, false, &guard);
    let back = put_behind_deleted(&rt, &mut w, &guard);
    let deleted = deleted_twice(&rt, &mut w, &guard);
    close(&rt, &mut w, guard);
    end(&rt, w);
    assert!(rt; marked == (2, true) && clear == (2, false));
    assert!(rt; back == 2 && deleted == (false, true));
}

#[test]
fn an_entry_is_made_where_a_cell_is_free(rt: HostRuntime) {
    let mut w = place_of(&rt, rt.alloc(), 1, 1);
    let Ok(entry) = world::linked_entry::new(&mut w, 5) else {
        panic!(rt; "a cell is free");
    };
    let value = *entry.as_ref();
    let back = match world::linked_entry::new(&mut w, 6) {
        Err(back) => back,
        _ => panic!(rt; "the cell is taken"),
    };
    retire(&rt, &mut w, entry);
    end(&rt, w);
    assert!(rt; (value, back) == (5, 6));
}
