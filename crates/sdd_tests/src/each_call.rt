//! Each call of a stack or a queue that tests make by itself, once.

ghost use Rattle.std.specs.Prelude.{◌<◌, length};
ghost use Rattle.sdd_tests.specs.Lines.{IsSomeLine};

use crate::lines::Line;
use crate::places::{new_queue, new_stack};
use sdd_world::guard::WorldGuard;
use sdd_world::world as place;
use sdd_world::world::World;
use std::process::Abort;
use world_containers::linked_entry::LinkedEntry;
use world_containers::refusal::PushRefused;
use world_containers::world;

/// Whether a stack or a queue is meant.
#[derive(Clone, Copy, PartialEq, Eq)]
pub(crate) enum Kind {
    Stack,
    Queue,
}

/// An empty one, where a cell is free for a stack, or two for a queue.
pub(crate) fn new_line<R: Abort>(rt: &R, w: &mut World<LinkedEntry<u64>>, kind: Kind) -> Line<u64>
    requires { 0 < length w.old.participants }
    ensures participant { 0 < length w.new.participants }
    ensures list { IsSomeLine w.new result }
{
    match kind {
        Kind::Stack => Line::Stack(new_stack(rt, w)),
        Kind::Queue => Line::Queue(new_queue(rt, w)),
    }
}

/// Ends one.
pub(crate) fn retire(w: &mut World<LinkedEntry<u64>>, line: Line<u64>)
    requires participant { 0 < length w.old.participants }
    requires list { IsSomeLine w.old line }
    ensures { 0 < length w.new.participants }
{
    match line {
        Line::Stack(stack) => world::stack::retire(w, stack, 0),
        Line::Queue(queue) => world::queue::retire(w, queue, 0),
    }
}

/// Puts a value in and gives the owner back.
pub(crate) fn push(w: &mut World<LinkedEntry<u64>>, line: &Line<u64>, value: u64) -> Result<(), u64>
    requires participant { 0 < length w.old.participants }
    requires list { IsSomeLine w.old line.now }
    ensures participant { 0 < length w.new.participants }
    ensures list { IsSomeLine w.new line.now }
{
    match line {
        Line::Stack(stack) => {
            let entry = world::stack::push(w, stack, value)?;
            place::shared::release(w, entry, 0);
            Ok(())
        }
        Line::Queue(queue) => {
            let entry = world::queue::push(w, queue, value)?;
            place::shared::release(w, entry, 0);
            Ok(())
        }
    }
}

/// The value of the first undeleted entry, which is given back.
pub(crate) fn pop(w: &mut World<LinkedEntry<u64>>, line: &Line<u64>) -> Option<u64>
    requires participant { 0 < length w.old.participants }
    requires list { IsSomeLine w.old line.now }
    ensures participant { 0 < length w.new.participants }
    ensures list { IsSomeLine w.new line.now }
{
    match line {
        Line::Stack(stack) => {
            let entry = world::stack::pop(w, stack, 0)?;
            let value = *place::shared::as_ref(w, &entry).as_ref();
            place::shared::release(w, entry, 0);
            Some(value)
        }
        Line::Queue(queue) => {
            let entry = world::queue::pop(w, queue, 0)?;
            let value = *place::shared::as_ref(w, &entry).as_ref();
            place::shared::release(w, entry, 0);
            Some(value)
        }
    }
}

/// Puts a value in where there is an undeleted entry already, or where there is none, and gives the owner back.
pub(crate) fn push_where(
    w: &mut World<LinkedEntry<u64>>,
    line: &Line<u64>,
    value: u64,
    is_more: bool,
) -> Result<(), PushRefused<u64>>
    requires participant { 0 < length w.old.participants }
    requires list { IsSomeLine w.old line.now }
    ensures participant { 0 < length w.new.participants }
    ensures list { IsSomeLine w.new line.now }
{
    let asked = |first: Option<&LinkedEntry<u64>>| first.is_some() == is_more;
    match line {
        Line::Stack(stack) => {
            let entry = world::stack::push_if(w, stack, value, asked)?;
            place::shared::release(w, entry, 0);
            Ok(())
        }
        Line::Queue(queue) => {
            let entry = world::queue::push_if(w, queue, value, asked)?;
            place::shared::release(w, entry, 0);
            Ok(())
        }
    }
}

/// The value of the first undeleted entry, whose owner a refused pop gives and which is given back.
pub(crate) fn refused(w: &mut World<LinkedEntry<u64>>, line: &Line<u64>) -> Option<u64>
    requires participant { 0 < length w.old.participants }
    requires list { IsSomeLine w.old line.now }
    ensures participant { 0 < length w.new.participants }
    ensures list { IsSomeLine w.new line.now }
{
    let never = |_entry: &LinkedEntry<u64>| false;
    match line {
        Line::Stack(stack) => match world::stack::pop_if(w, stack, 0, never) {
            Ok(None) => None,
            Err(owner) => {
                let value = *place::shared::as_ref(w, &owner).as_ref();
                place::shared::release(w, owner, 0);
                Some(value)
            }
            Ok(Some(popped)) => {
                place::shared::release(w, popped, 0);
                None
            }
        },
        Line::Queue(queue) => match world::queue::pop_if(w, queue, 0, never) {
            Ok(None) => None,
            Err(owner) => {
                let value = *place::shared::as_ref(w, &owner).as_ref();
                place::shared::release(w, owner, 0);
                Some(value)
            }
            Ok(Some(popped)) => {
                place::shared::release(w, popped, 0);
                None
            }
        },
    }
}

/// How many values it has, and whether there is none.
pub(crate) fn count(w: &World<LinkedEntry<u64>>, line: &Line<u64>) -> (usize, bool)
    requires { IsSomeLine w.now line.now }
{
    match line {
        Line::Stack(stack) => (
            world::stack::len(w, stack),
            world::stack::is_empty(w, stack),
        ),
        Line::Queue(queue) => (
            world::queue::len(w, queue),
            world::queue::is_empty(w, queue),
        ),
    }
}

/// The value that a pointer to the first undeleted entry names.
pub(crate) fn first(
    w: &World<LinkedEntry<u64>>,
    line: &Line<u64>,
    guard: &WorldGuard,
) -> Option<u64>
    requires { IsSomeLine w.now line.now }
{
    let first = match line {
        Line::Stack(stack) => world::stack::peek(w, stack, guard),
        Line::Queue(queue) => world::queue::peek(w, queue, guard),
    };
    match w.read(&first) {
        None => None,
        Some(entry) => Some(*entry.as_ref()),
    }
}
