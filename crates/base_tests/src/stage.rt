//! A place of numbers and what its caller has of it. What a call requires is asked of the place first, so that steps that are
//! data ask nothing of the prover.

ghost use Rattle.std.specs.Prelude.{◌≡◌, ◌<◌, length};
ghost use Rattle.sdd_table.specs.Place.{IsOpen};
ghost use Rattle.sdd_world.specs.Tokens.{guard_participant};

use crate::steps::{Found, G, Step};
use crate::worlds::{close, push, world_of};
use sdd_world::{
    AtomicOwned, AtomicRaw, AtomicShared, Deferred, Owned, PrivateCollector, Ptr, RawPtr, Shared,
    World, WorldGuard, world,
};
use std::alloc::Global;
use std::mem;
use std::process::Abort;

/// What the caller has at one place.
pub(crate) enum Thing {
    Nothing,
    Owned(Owned<u64>),
    Shared(Shared<u64>),
    OwnedCell(AtomicOwned<u64>),
    SharedCell(AtomicShared<u64>),
    RawCell(AtomicRaw<u64>),
    Guard(WorldGuard),
    Collector(PrivateCollector<u64>),
    Seen(Ptr<'static, u64>),
}

pub(crate) struct Stage<'r, R, J: Deferred> {
    pub(crate) rt: &'r R,
    pub(crate) alloc: Global,
    pub(crate) w: World<u64, J>,
    things: Vec<Thing>,
    /// The pointer to the item that is out as a raw one.
    pub(crate) raw: RawPtr<u64>,
}

/// A thing that may be there.
pub(crate) fn maybe(thing: Option<Thing>) -> Thing {
    match thing {
        Some(thing) => thing,
        None => Thing::Nothing,
    }
}

/// An answer.
pub(crate) fn told(yes: bool) -> Found {
    if yes { Found::Yes } else { Found::No }
}

/// A count.
pub(crate) fn count(count: usize) -> Found {
    Found::Is(count as u64)
}

/// A value that is there, or not.
pub(crate) fn value(found: Option<u64>) -> Found {
    found.map_or(Found::Nothing, Found::Is)
}

impl<'r, R: Abort, J: Deferred> Stage<'r, R, J> {
    /// A new place, of which the caller has nothing.
    pub(crate) fn new(rt: &'r R, alloc: Global, sizes: [usize; 4]) -> Self {
        let mut stage = Stage {
            rt,
            alloc,
            w: world_of(rt, alloc, sizes),
            things: Vec::new(alloc),
            raw: RawPtr::null(),
        };
        for _ in 0..=G {
            push(rt, &mut stage.things, Thing::Nothing);
        }
        stage
    }

    /// Takes what is at a place.
    pub(crate) fn take(&mut self, at: usize) -> Thing
        ensures same { self.new.w ≡ self.old.w }
    {
        match self.things.get_mut(at) {
            Some(place) => mem::replace(place, Thing::Nothing),
            None => Thing::Nothing,
        }
    }

    /// Has a thing at a place, or behind all others. Nothing leaves the place as it is.
    pub(crate) fn put(&mut self, at: usize, thing: Thing) {
        let rt = self.rt;
        if let Thing::Nothing = thing {
            return;
        }
        if at >= self.things.len() {
            return push(rt, &mut self.things, thing);
        }
        match mem::replace(&mut self.things[at], thing) {
            Thing::Nothing | Thing::Seen(_) => {}
            _ => panic!(rt; "the place is taken"),
        }
    }

    /// Takes the guard at a place, which is open as each is that isn't closed.
    pub(crate) fn guard(&mut self, at: usize) -> WorldGuard
        ensures participant { guard_participant result < length self.new.w.participants }
        ensures open { IsOpen self.new.w (guard_participant result) }
        ensures same { self.new.w ≡ self.old.w }
    {
        let rt = self.rt;
        match self.take(at) {
            Thing::Guard(guard) if world::guard::is_open(&self.w, &guard) => guard,
            _ => panic!(rt; "a guard is open"),
        }
    }

    /// Takes what is seen from a place on.
    pub(crate) fn seen(&mut self, at: usize) -> Ptr<'static, u64>
        ensures same { self.new.w ≡ self.old.w }
    {
        let rt = self.rt;
        match self.take(at) {
            Thing::Seen(seen) => seen,
            _ => panic!(rt; "something is seen"),
        }
    }

    /// A step with what is at a place, or there is then.
    pub(crate) fn step(&mut self, at: usize, step: Step) -> Found {
        let thing = self.take(at);
        let (left, found) = match step {
            Step::Retire(p) | Step::Release(p) | Step::EndCell(p) | Step::HandOver(p) => {
                (Thing::Nothing, self.give(thing, p))
            }
            Step::Close => (Thing::Nothing, self.give(thing, 0)),
            Step::Move(to) => {
                self.put(to, thing);
                (Thing::Nothing, Found::Done)
            }
            _ => self.step_with(thing, step),
        };
        self.put(at, left);
        found
    }

    /// A step with a thing, and what is at its place then.
    fn step_with(&mut self, thing: Thing, step: Step) -> (Thing, Found) {
        let rt = self.rt;
        match thing {
            Thing::Nothing => self.make_items(step),
            Thing::Owned(owned) if world::owned::is_here(&self.w, &owned) => {
                self.with_owned(owned, step)
            }
            Thing::Shared(shared) if world::shared::is_here(&self.w, &shared) => {
                self.with_shared(shared, step)
            }
            Thing::OwnedCell(cell) if world::atomic_owned::is_here(&self.w, &cell) => {
                self.with_owned_cell(cell, step)
            }
            Thing::SharedCell(cell) if world::atomic_shared::is_here(&self.w, &cell) => {
                self.with_shared_cell(cell, step)
            }
            Thing::RawCell(cell) if world::atomic_raw::is_here(&self.w, &cell) => {
                self.with_raw_cell(cell, step)
            }
            Thing::Guard(guard) if world::guard::is_open(&self.w, &guard) => {
                self.with_guard(guard, step)
            }
            Thing::Collector(collector) => self.with_collector(collector, step),
            Thing::Seen(seen) => self.with_seen(seen, step),
            _ => panic!(rt; "what the place made is there"),
        }
    }

    /// Gives a thing back by a participant, or closes it: whether it was the last owner, of a shared item.
    pub(crate) fn give(&mut self, thing: Thing, p: usize) -> Found {
        let rt = self.rt;
        if p >= self.w.participants() {
            panic!(rt; "there is such a participant");
        }
        let w = &mut self.w;
        match thing {
            Thing::Nothing | Thing::Seen(_) => {}
            Thing::Owned(owned) if world::owned::is_here(w, &owned) => {
                world::owned::retire(w, owned, p);
            }
            Thing::Shared(shared) if world::shared::is_here(w, &shared) => {
                return told(world::shared::release(w, shared, p));
            }
            Thing::OwnedCell(cell) if world::atomic_owned::is_here(w, &cell) => {
                world::atomic_owned::retire(w, cell, p);
            }
            Thing::SharedCell(cell) if world::atomic_shared::is_here(w, &cell) => {
                world::atomic_shared::retire(w, cell, p);
            }
            Thing::RawCell(cell) if world::atomic_raw::is_here(w, &cell) => {
                world::atomic_raw::end(w, cell);
            }
            Thing::Guard(guard) if world::guard::is_open(w, &guard) => {
                world::guard::close(w, guard);
            }
            Thing::Collector(collector) => {
                world::private_collector::hand_over(w, collector, p);
            }
            _ => panic!(rt; "what the place made is there"),
        }
        Found::Done
    }

    /// Gives back all that is behind the five places, from the end on.
    pub(crate) fn give_rest(&mut self) -> Found {
        for _ in G..self.things.len().saturating_sub(1) {
            if let Some(thing) = self.things.pop() {
                self.give(thing, 0);
            }
        }
        Found::Done
    }

    /// The place isn't ended while something is out, and is handed back.
    pub(crate) fn handed_back(self) -> Self {
        let Stage {
            rt,
            alloc,
            w,
            things,
            raw,
        } = self;
        match w.close() {
            Err(w) => Stage {
                rt,
                alloc,
                w,
                things,
                raw,
            },
            Ok(()) => panic!(rt; "something is out"),
        }
    }

    /// Ends the place, in which nothing is out, and of which nothing is left.
    pub(crate) fn end(self) {
        let Stage {
            rt,
            alloc: _,
            w,
            mut things,
            raw: _,
        } = self;
        while let Some(thing) = things.pop() {
            match thing {
                Thing::Nothing | Thing::Seen(_) => {}
                _ => panic!(rt; "nothing is left"),
            }
        }
        things.destroy_empty();
        close(rt, w);
    }
}
