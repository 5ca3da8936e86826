//! Random lists of calls beside plain lists.

ghost use Rattle.std.specs.Prelude.{◌<◌, length};
ghost use Rattle.sdd_tests.specs.Lines.{IsSomeLine};

use crate::each_call::{Kind, count, pop, push, retire};
use crate::filled::line_of;
use crate::fillings::copied;
use crate::lines::Line;
use crate::places::{end, place_of};
use sdd_world::world::World;
use std::alloc::Global;
use std::process::Abort;
use world_containers::linked_entry::LinkedEntry;

/// The next of a run of numbers, each far from the one before.
pub(crate) fn next(seed: u64) -> u64 {
    seed.wrapping_mul(6364136223846793005)
        .wrapping_add(1442695040888963407)
}

/// What a stack or a queue should have: its values, and how many slots are free; and whether it may be cloned.
#[derive(Drop)]
struct List {
    values: Vec<u64>,
    room: u64,
    is_cloned: bool,
}

impl List {
    fn push(&mut self, value: u64) -> Result<(), u64> {
        if self.room == 0 {
            return Err(value);
        }
        self.room = self.room.saturating_sub(1);
        let _kept = self.values.push(value);
        Ok(())
    }

    /// The newest value, of a stack, or the oldest one, of a queue, which is taken out.
    fn pop(&mut self, kind: Kind) -> Option<u64> {
        match kind {
            Kind::Queue if !self.values.is_empty() => Some(self.values.remove(0)),
            _ => self.values.pop(),
        }
    }

    /// A clone takes as many slots as there are values.
    fn cloned(&mut self) {
        self.room = self.room.saturating_sub(self.values.len() as u64);
    }

    /// Whether this many values are there, and whether none is.
    fn agrees(&self, found: (usize, bool)) -> bool {
        found == (self.values.len(), self.values.is_empty())
    }
}

/// Of which kind it is, how many slots there are, how many values in the beginning, how many calls are made, and by which
/// number. Where there are values, their clones take their place now and then.
type Run = (Kind, usize, u64, u32, u64);

/// A list of the numbers below one, with room for this many values in all.
fn list_of(alloc: Global, room: usize, filled: u64) -> List {
    let mut list = List {
        values: Vec::new(alloc),
        room: room as u64,
        is_cloned: filled > 0,
    };
    for value in 0..filled {
        let _kept = list.push(value);
    }
    list
}

/// One call of a stack or a queue, as `seed` says, and the same of a list: whether both answer alike.
fn call(
    w: &mut World<LinkedEntry<u64>>,
    line: &Line<u64>,
    list: &mut List,
    kind: Kind,
    seed: u64,
) -> bool
    requires participant { 0 < length w.old.participants }
    requires list { IsSomeLine w.old line.now }
    ensures participant { 0 < length w.new.participants }
    ensures list { IsSomeLine w.new line.now }
{
    let alike = if seed >> 60 < 9 {
        push(w, line, seed) == list.push(seed)
    } else {
        pop(w, line) == list.pop(kind)
    };
    list.agrees(count(w, line)) && alike
}

/// The same, or a clone takes its place, as `seed` says.
fn turn<R: Abort>(
    rt: &R,
    w: &mut World<LinkedEntry<u64>>,
    line: Line<u64>,
    list: &mut List,
    kind: Kind,
    seed: u64,
) -> (Line<u64>, bool)
    requires participant { 0 < length w.old.participants }
    requires list { IsSomeLine w.old line }
    ensures participant { 0 < length w.new.participants }
    ensures list { IsSomeLine w.new result.0 }
{
    if !list.is_cloned || seed >> 60 != 8 {
        let alike = call(w, &line, list, kind, seed);
        return (line, alike);
    }
    let copy = match copied(w, line) {
        (Some(copy), None) => copy,
        _ => panic!(rt; "there is room"),
    };
    list.cloned();
    let (len, _) = count(w, &copy);
    (copy, len == list.values.len())
}

/// Calls of a stack or a queue, and of a list: whether both answer alike, and how much room the list has then.
fn played<R: Abort>(rt: &R, alloc: Global, run: Run) -> (bool, u64) {
    let (kind, room, filled, calls, mut seed) = run;
    let mut w = place_of(rt, alloc, room, room.saturating_add(4));
    let mut list = list_of(alloc, room, filled);
    let mut line = line_of(rt, &mut w, kind, 0..filled);
    let mut right = true;
    for _call in 0..calls {
        seed = next(seed);
        let (left, alike) = turn(rt, &mut w, line, &mut list, kind, seed);
        line = left;
        right = right && alike;
    }
    retire(&mut w, line);
    end(rt, w);
    (right, list.room)
}

#[test]
fn a_stack_is_a_list_whose_end_comes_first(rt: HostRuntime) {
    assert!(rt; played(&rt, rt.alloc(), (Kind::Stack, 400, 0, 1000, 1)) == (true, 0));
    assert!(rt; played(&rt, rt.alloc(), (Kind::Stack, 3000, 20, 500, 3)).0);
}

#[test]
fn a_queue_is_a_list(rt: HostRuntime) {
    assert!(rt; played(&rt, rt.alloc(), (Kind::Queue, 400, 0, 1000, 2)) == (true, 0));
    assert!(rt; played(&rt, rt.alloc(), (Kind::Queue, 3000, 20, 500, 4)).0);
}
