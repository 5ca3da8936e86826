//! Steps by which there is a cell, and those of cells that keep an owner.

ghost use Rattle.sdd_table.specs.Place.{IsOwnedCell, IsSharedCell};
ghost use Rattle.sdd_world.specs.Tokens.{owned_cell, shared_cell};

use crate::owners::made;
use crate::raw::pointer;
use crate::stage::{Stage, Thing, maybe, told, value};
use crate::steps::{Found, G, Step};
use sdd_world::{AtomicOwned, AtomicShared, Deferred, Link, NoSlot, Ptr, RawPtr, Tag, world};
use std::process::Abort;

/// A thing, or that no slot or cell is free for it.
fn free(made: Result<Thing, NoSlot>) -> (Thing, Found) {
    match made {
        Ok(thing) => (thing, Found::Done),
        Err(NoSlot) => (Thing::Nothing, Found::NoSlot),
    }
}

impl<'r, R: Abort, J: Deferred> Stage<'r, R, J> {
    /// A step by which there is a new cell, or none.
    pub(crate) fn make_cells(&mut self, step: Step) -> (Thing, Found) {
        let w = &mut self.w;
        match step {
            Step::OwnedCell(value) => made(world::atomic_owned::new(w, value).map(
                Thing::OwnedCell,
            )),
            Step::NullOwnedCell => free(world::atomic_owned::null(w).map(Thing::OwnedCell)),
            Step::SharedCell(value) => {
                made(world::atomic_shared::new(w, value).map(Thing::SharedCell))
            }
            Step::NullSharedCell => free(world::atomic_shared::null(w).map(Thing::SharedCell)),
            Step::NullRawCell => free(world::atomic_raw::null(w).map(Thing::RawCell)),
            Step::RawCell => free(world::atomic_raw::new(w, RawPtr::null()).map(Thing::RawCell)),
            Step::IsOut(point) => {
                let guard = self.guard(G);
                let raw = pointer(self.raw, point);
                let seen = world::raw_ptr::into_ptr(&self.w, raw, &guard).is_some();
                self.put(G, Thing::Guard(guard));
                (Thing::Nothing, told(seen))
            }
            Step::Link(_) | Step::LinkNull => self.link(step),
            _ => self.step_of_all(step),
        }
    }

    /// A new cell, and what a link to it names.
    fn link(&mut self, step: Step) -> (Thing, Found) {
        let w = &mut self.w;
        match step {
            Step::Link(new) => match world::atomic_shared::new(w, new) {
                Ok(cell) => {
                    let named = world::atomic_shared::as_ref(w, Link::of(&cell).cell()).copied();
                    (Thing::SharedCell(cell), value(named))
                }
                Err(new) => (Thing::Nothing, Found::Back(new)),
            },
            _ => match world::atomic_shared::null(w) {
                Ok(cell) => {
                    let named = world::atomic_shared::as_ref(w, Link::of(&cell).cell()).copied();
                    (Thing::SharedCell(cell), value(named))
                }
                Err(_) => (Thing::Nothing, Found::NoSlot),
            },
        }
    }

    /// A step with a cell that keeps the one owner of an item.
    pub(crate) fn with_owned_cell(&mut self, cell: AtomicOwned<u64>, step: Step) -> (Thing, Found)
        requires { IsOwnedCell self.old.w (owned_cell cell) }
    {
        let rt = self.rt;
        let found = match step {
            Step::IsNull => told(world::atomic_owned::is_null(&self.w, &cell)),
            Step::TagOf => Found::Tagged(world::atomic_owned::tag(&self.w, &cell)),
            Step::TagIfMarked(tag) => {
                let marked = |seen: Ptr<'_, u64>| seen.tag() == Tag::First;
                told(world::atomic_owned::update_tag_if(&mut self.w, &cell, tag, marked))
            }
            Step::TagIfFull(tag) => {
                let full = |seen: Ptr<'_, u64>| !seen.is_null();
                told(world::atomic_owned::update_tag_if(&mut self.w, &cell, tag, full))
            }
            Step::Swap(at, tag) => {
                let new = match self.take(at) {
                    Thing::Owned(owner) => Some(owner),
                    Thing::Nothing => None,
                    _ => panic!(rt; "an owner is there, or nothing"),
                };
                let (old, was) = world::atomic_owned::swap(&mut self.w, &cell, (new, tag));
                self.put(at, maybe(old.map(Thing::Owned)));
                Found::Tagged(was)
            }
            _ => self.exchange_owned(&cell, step),
        };
        (Thing::OwnedCell(cell), found)
    }

    /// What a cell keeps is seen under a guard, or exchanged for nothing where it is what is seen.
    fn exchange_owned(&mut self, cell: &AtomicOwned<u64>, step: Step) -> Found
        requires { IsOwnedCell self.old.w (owned_cell cell.now) }
    {
        let guard = self.guard(G);
        let w = &mut self.w;
        let (to, thing, found) = match step {
            Step::Load(to) => {
                let seen = world::atomic_owned::load(w, cell, &guard);
                (to, Thing::Seen(seen), Found::Done)
            }
            Step::Take(to, at) | Step::TakeWeakly(to, at) => {
                let (current, nothing) = (self.seen(at), (None, Tag::Both));
                let w = &mut self.w;
                let exchanged = if let Step::Take(_, _) = step {
                    world::atomic_owned::compare_exchange(w, cell, current, nothing, &guard)
                } else {
                    world::atomic_owned::compare_exchange_weak(w, cell, current, nothing, &guard)
                };
                let (taken, found) = match exchanged {
                    Ok((taken, _)) => (taken, Found::Yes),
                    Err((back, _)) => (back, Found::No),
                };
                (to, maybe(taken.map(Thing::Owned)), found)
            }
            _ => (G, Thing::Nothing, Found::Nothing),
        };
        self.put(G, Thing::Guard(guard));
        self.put(to, thing);
        found
    }

    /// A step with a cell that keeps one of the owners of an item.
    pub(crate) fn with_shared_cell(&mut self, cell: AtomicShared<u64>, step: Step) -> (Thing, Found)
        requires { IsSharedCell self.old.w (shared_cell cell) }
    {
        let rt = self.rt;
        let found = match step {
            Step::IsNull => told(world::atomic_shared::is_null(&self.w, &cell)),
            Step::TagOf => Found::Tagged(world::atomic_shared::tag(&self.w, &cell)),
            Step::TagIfFull(tag) => {
                let full = |seen: Ptr<'_, u64>| !seen.is_null();
                told(world::atomic_shared::update_tag_if(&mut self.w, &cell, tag, full))
            }
            Step::IsAt(owner) => {
                let shared = self.take(owner);
                let is_at = match &shared {
                    Thing::Shared(shared) => {
                        world::atomic_shared::kept_at(&self.w, &cell)
                            == world::shared::owned_at(shared)
                    }
                    _ => panic!(rt; "an owner is there"),
                };
                self.put(owner, shared);
                told(is_at)
            }
            Step::Swap(at, tag) => {
                let new = match self.take(at) {
                    Thing::Shared(owner) => Some(owner),
                    Thing::Nothing => None,
                    _ => panic!(rt; "an owner is there, or nothing"),
                };
                let (old, was) = world::atomic_shared::swap(&mut self.w, &cell, (new, tag));
                self.put(at, maybe(old.map(Thing::Shared)));
                Found::Tagged(was)
            }
            _ => self.exchange_shared(&cell, step),
        };
        (Thing::SharedCell(cell), found)
    }

    /// What a cell keeps is seen under a guard, has one more cell or owner, or exchanged for nothing where it is what is seen.
    fn exchange_shared(&mut self, cell: &AtomicShared<u64>, step: Step) -> Found
        requires { IsSharedCell self.old.w (shared_cell cell.now) }
    {
        let guard = self.guard(G);
        let w = &mut self.w;
        let (to, thing, found) = match step {
            Step::Load(to) => {
                let seen = world::atomic_shared::load(w, cell, &guard);
                (to, Thing::Seen(seen), Found::Done)
            }
            Step::CloneCell(to) => match world::atomic_shared::clone(w, cell, &guard) {
                Ok(copy) => (to, Thing::SharedCell(copy), Found::Done),
                Err(_) => (to, Thing::Nothing, Found::NoSlot),
            },
            Step::ClaimKept(to) => match world::atomic_shared::get_shared(w, cell, &guard) {
                Some(owner) => (to, Thing::Shared(owner), Found::Done),
                None => (to, Thing::Nothing, Found::No),
            },
            Step::Take(to, at) | Step::TakeWeakly(to, at) => {
                let (current, nothing) = (self.seen(at), (None, Tag::Both));
                let w = &mut self.w;
                let exchanged = if let Step::Take(_, _) = step {
                    world::atomic_shared::compare_exchange(w, cell, current, nothing, &guard)
                } else {
                    world::atomic_shared::compare_exchange_weak(w, cell, current, nothing, &guard)
                };
                let (taken, found) = match exchanged {
                    Ok((taken, _)) => (taken, Found::Yes),
                    Err((back, _)) => (back, Found::No),
                };
                (to, maybe(taken.map(Thing::Shared)), found)
            }
            _ => (G, Thing::Nothing, Found::Nothing),
        };
        self.put(G, Thing::Guard(guard));
        self.put(to, thing);
        found
    }
}
