//! Calls of stacks alone, of which a row is one: what becomes of entries, and those behind the first. And what looks at the
//! front of a stack and of a queue, past entries that are deleted.

ghost use Rattle.std.specs.Prelude.{◌<◌, length, IfOk};
ghost use Rattle.world_containers.specs.Stacks.{IsSomeStack, stack_cell};

use crate::each_call::{Kind, count, new_line, pop, push, retire};
use crate::filled::line_of;
use crate::lines::Line;
use crate::lists::Call::{self, IsClear, IsMarked};
use crate::places::{close, end, give, guarded, place_of};
use crate::replies::value_of;
use crate::stacks::Change::{Delete, Mark, Unmark};
use sdd_world::guard::WorldGuard;
use sdd_world::tag::Tag;
use sdd_world::world as place;
use sdd_world::world::World;
use world_containers::linked_entry::LinkedEntry;
use world_containers::stack::Stack;
use world_containers::world;

/// What becomes of an entry, which stays linked.
#[derive(Clone, Copy)]
pub(crate) enum Change {
    Delete,
    Mark,
    Unmark,
}

/// Deletes, marks or clears the first undeleted entry: whether it wasn't so before.
pub(crate) fn change_first(
    w: &mut World<LinkedEntry<u64>>,
    stack: &Stack<u64>,
    guard: &WorldGuard,
    change: Change,
) -> bool
    requires participant { 0 < length w.old.participants }
    requires list { IsSomeStack w.old (stack_cell stack.now) }
    ensures participant { 0 < length w.new.participants }
    ensures list { IsSomeStack w.new (stack_cell stack.now) }
{
    let first = world::stack::peek(w, stack, guard);
    match w.read(&first) {
        None => return false,
        Some(_) => {}
    }
    match change {
        Delete => world::linked_list::delete_self(w, first),
        Mark => world::linked_list::mark(w, first),
        Unmark => world::linked_list::unmark(w, first),
    }
}

/// Moves all entries to another stack, and ends the old one.
fn moved(w: &mut World<LinkedEntry<u64>>, stack: Stack<u64>) -> Result<Stack<u64>, Stack<u64>>
    requires participant { 0 < length w.old.participants }
    requires list { IsSomeStack w.old (stack_cell stack) }
    ensures participant { 0 < length w.new.participants }
    ensures list { IfOk result (λ s. IsSomeStack w.new (stack_cell s)) }
{
    match world::stack::pop_all(w, &stack, 0) {
        Ok(other) => {
            world::stack::retire(w, stack, 0);
            Ok(other)
        }
        Err(_) => Err(stack),
    }
}

/// Whether the first undeleted entry is clear, marked or deleted, as the call asks.
pub(crate) fn is_tagged(
    w: &World<LinkedEntry<u64>>,
    stack: &Stack<u64>,
    guard: &WorldGuard,
    call: Call,
) -> bool
    requires { IsSomeStack w.now (stack_cell stack.now) }
{
    let first = world::stack::peek(w, stack, guard);
    match w.read(&first) {
        None => return false,
        Some(_) => {}
    }
    match call {
        IsClear => world::linked_list::is_clear(w, first),
        IsMarked => world::linked_list::is_marked(w, first),
        _ => world::linked_list::is_deleted(w, first),
    }
}

/// The value of the second undeleted entry.
pub(crate) fn second(
    w: &World<LinkedEntry<u64>>,
    stack: &Stack<u64>,
    guard: &WorldGuard,
) -> Option<u64>
    requires { IsSomeStack w.now (stack_cell stack.now) }
{
    let first = world::stack::peek(w, stack, guard);
    match w.read(&first) {
        None => return None,
        Some(_) => {}
    }
    let next = world::linked_list::next_ptr(w, first, guard);
    match w.read(&next) {
        None => None,
        Some(entry) => Some(*entry.as_ref()),
    }
}

/// The value of the second undeleted entry, whose owner is given back.
pub(crate) fn second_owned(
    w: &mut World<LinkedEntry<u64>>,
    stack: &Stack<u64>,
    guard: &WorldGuard,
) -> Option<u64>
    requires participant { 0 < length w.old.participants }
    requires list { IsSomeStack w.old (stack_cell stack.now) }
    ensures participant { 0 < length w.new.participants }
    ensures list { IsSomeStack w.new (stack_cell stack.now) }
{
    let first = world::stack::peek(w, stack, guard);
    match w.read(&first) {
        None => return None,
        Some(_) => {}
    }
    match world::linked_list::next_shared(w, first, guard) {
        None => None,
        Some(owner) => {
            let value = *place::shared::as_ref(w, &owner).as_ref();
            place::shared::release(w, owner, 0);
            Some(value)
        }
    }
}

#[test]
fn all_entries_move_to_another_stack(rt: HostRuntime) {
    let mut w = place_of(&rt, rt.alloc(), 2, 4);
    let line = new_line(&rt, &mut w, Kind::Stack);
    let first = push(&mut w, &line, 1);
    let second = push(&mut w, &line, 2);
    let Line::Stack(stack) = line else {
        panic!(rt; "it is a stack");
    };
    let other = match moved(&mut w, stack) {
        Ok(other) => Line::Stack(other),
        _ => panic!(rt; "a cell is free"),
    };
    let (len, _) = count(&w, &other);
    let front = pop(&mut w, &other);
    retire(&mut w, other);
    end(&rt, w);
    assert!(rt; first.is_ok() && second.is_ok() && len == 2 && front == Some(2));
}

#[test]
fn an_entry_is_popped_on_a_condition(rt: HostRuntime) {
    let mut w = place_of(&rt, rt.alloc(), 2, 4);
    let line = new_line(&rt, &mut w, Kind::Stack);
    let pushed = push(&mut w, &line, 5);
    let Line::Stack(stack) = line else {
        panic!(rt; "it is a stack");
    };
    let yes = |entry: &LinkedEntry<u64>| *entry.as_ref() == 5;
    let owner = match world::stack::pop_if(&mut w, &stack, 0, yes) {
        Ok(Some(owner)) => owner,
        _ => panic!(rt; "the value is this one"),
    };
    let empty = world::stack::is_empty(&w, &stack);
    world::stack::retire(&mut w, stack, 0);
    give(&rt, &mut w, owner);
    end(&rt, w);
    assert!(rt; pushed.is_ok() && empty);
}

#[test]
fn a_function_is_called_once_at_the_first_undeleted_entry(rt: HostRuntime) {
    let mut w = place_of(&rt, rt.alloc(), 3, 4);
    let guard = guarded(&rt, &mut w);
    let line = line_of(&rt, &mut w, Kind::Stack, 5..8);
    let Line::Stack(stack) = line else {
        panic!(rt; "it is a stack");
    };
    let clear = world::stack::peek(&w, &stack, &guard).tag();
    let deleted_7 = change_first(&mut w, &stack, &guard, Delete);
    let deleted_6 = change_first(&mut w, &stack, &guard, Delete);
    let mut asked = 0u32;
    let seen = world::stack::peek_with(&w, &stack, |first: Option<&LinkedEntry<u64>>| {
        asked += 1;
        value_of(first)
    });
    let behind = world::stack::peek(&w, &stack, &guard).tag();
    let deleted_5 = change_first(&mut w, &stack, &guard, Delete);
    let none = world::stack::peek_with(&w, &stack, |first: Option<&LinkedEntry<u64>>| {
        first.is_none()
    });
    world::stack::retire(&mut w, stack, 0);
    close(&rt, &mut w, guard);
    end(&rt, w);
    assert!(rt; deleted_7 && deleted_6 && deleted_5 && none);
    assert!(rt; (seen, asked) == (Some(5), 1) && (clear, behind) == (Tag::None, Tag::Second));
}

#[test]
fn a_queue_is_asked_at_its_oldest(rt: HostRuntime) {
    let mut w = place_of(&rt, rt.alloc(), 2, 4);
    let line = line_of(&rt, &mut w, Kind::Queue, 5..7);
    let Line::Queue(queue) = line else {
        panic!(rt; "it is a queue");
    };
    let mut asked = 0u32;
    let seen = world::queue::peek_with(&w, &queue, |first: Option<&LinkedEntry<u64>>| {
        asked += 1;
        value_of(first)
    });
    world::queue::retire(&mut w, queue, 0);
    end(&rt, w);
    assert!(rt; (seen, asked) == (Some(5), 1));
}
