//! Steps by which there is an item, and those of its owners.

ghost use Rattle.sdd_table.specs.Place.{IsOwned, IsShared};
ghost use Rattle.sdd_world.specs.Tokens.{owned_slot, shared_slot};

use crate::stage::{Stage, Thing, told, value};
use crate::steps::{Found, Step};
use sdd_world::{Deferred, ExclusiveAccess, Kept, NotLent, Owned, Shared, world};
use std::mem;
use std::process::Abort;

/// The value before it was written, or why it isn't lent.
fn written(outcome: Result<u64, NotLent>) -> Found {
    match outcome {
        Ok(before) => Found::Is(before),
        Err(NotLent::GuardsOpen) => Found::Guarded,
        Err(NotLent::NotSole) => Found::NotSole,
    }
}

/// What is made of a value, or that the value is returned.
pub(crate) fn made(made: Result<Thing, u64>) -> (Thing, Found) {
    match made {
        Ok(thing) => (thing, Found::Done),
        Err(value) => (Thing::Nothing, Found::Back(value)),
    }
}

/// What is made by a closure that was asked so often, or that no slot is free.
fn made_with(made: Option<Thing>, asked: u32) -> (Thing, Found) {
    match made {
        Some(thing) => (thing, Found::Done),
        None if asked == 0 => (Thing::Nothing, Found::NoSlot),
        None => (Thing::Nothing, Found::Is(u64::from(asked))),
    }
}

impl<'r, R: Abort, J: Deferred> Stage<'r, R, J> {
    /// A step by which there is a new item, or none.
    pub(crate) fn make_items(&mut self, step: Step) -> (Thing, Found) {
        let w = &mut self.w;
        match step {
            Step::Own(value) => made(world::owned::new(w, value).map(Thing::Owned)),
            Step::Share(value) => made(world::shared::new(w, value).map(Thing::Shared)),
            Step::OwnWith(value) => self.make_with(false, value),
            Step::ShareWith(value) => self.make_with(true, value),
            Step::Keep(value) => match world::shared::new(w, value) {
                Ok(owner) => {
                    let kept = Kept::of(owner);
                    let read = *world::shared::kept_ref(w, &kept);
                    (Thing::Shared(kept.into_shared()), Found::Is(read))
                }
                Err(value) => (Thing::Nothing, Found::Back(value)),
            },
            Step::FromRaw => match world::owned::from_raw(w, self.raw) {
                Some(owned) => (Thing::Owned(owned), Found::Yes),
                None => (Thing::Nothing, Found::No),
            },
            _ => self.make_cells(step),
        }
    }

    /// A new item of what a closure gives, whose owners are counted or not.
    fn make_with(&mut self, counts: bool, value: u64) -> (Thing, Found) {
        let mut asked = 0u32;
        let give = || {
            asked = asked.saturating_add(1);
            value
        };
        let made = if counts {
            world::shared::new_with(&mut self.w, give)
                .ok()
                .map(Thing::Shared)
        } else {
            world::owned::new_with(&mut self.w, give)
                .ok()
                .map(Thing::Owned)
        };
        made_with(made, asked)
    }

    /// A step with the one owner of an item.
    pub(crate) fn with_owned(&mut self, owned: Owned<u64>, step: Step) -> (Thing, Found)
        requires { IsOwned self.old.w (owned_slot owned) }
    {
        let w = &mut self.w;
        match step {
            Step::Read => {
                let read = *world::owned::as_ref(w, &owned);
                (Thing::Owned(owned), Found::Is(read))
            }
            Step::Write(new) => {
                let found = match world::owned::get_mut(w, &owned) {
                    Ok(value) => Found::Is(mem::replace(value, new)),
                    Err(_) => Found::Guarded,
                };
                (Thing::Owned(owned), found)
            }
            Step::Drop => match world::owned::drop_in_place(w, owned) {
                Ok(()) => (Thing::Nothing, Found::Done),
                Err(owned) => (Thing::Owned(owned), Found::Guarded),
            },
            Step::IntoRaw => {
                self.raw = world::owned::into_raw(w, owned);
                (Thing::Nothing, Found::Done)
            }
            Step::IntoCell => match world::atomic_owned::from(w, owned) {
                Ok(cell) => (Thing::OwnedCell(cell), Found::Done),
                Err(owned) => (Thing::Owned(owned), Found::NoSlot),
            },
            _ => (Thing::Owned(owned), Found::Nothing),
        }
    }

    /// A step with one of the owners of an item.
    pub(crate) fn with_shared(&mut self, shared: Shared<u64>, step: Step) -> (Thing, Found)
        requires { IsShared self.old.w (shared_slot shared) }
    {
        let w = &mut self.w;
        let found = match step {
            Step::Read => Found::Is(*world::shared::as_ref(w, &shared)),
            Step::ReadAt => value(w.read_loaded(&world::shared::owned_at(&shared)).copied()),
            Step::Write(new) => written(match world::shared::get_mut(w, &shared) {
                Ok(value) => Ok(mem::replace(value, new)),
                Err(why) => Err(why),
            }),
            Step::Clone(to) => match world::shared::clone(w, &shared) {
                Some(more) => {
                    self.put(to, Thing::Shared(more));
                    Found::Done
                }
                None => Found::No,
            },
            _ => return self.spend_shared(shared, step),
        };
        (Thing::Shared(shared), found)
    }

    /// A step that takes one of the owners of an item.
    fn spend_shared(&mut self, shared: Shared<u64>, step: Step) -> (Thing, Found)
        requires { IsShared self.old.w (shared_slot shared) }
    {
        let w = &mut self.w;
        if let Step::Drop = step {
            return match world::shared::drop_in_place(w, shared) {
                Ok(last) => (Thing::Nothing, told(last)),
                Err(shared) => (Thing::Shared(shared), Found::Guarded),
            };
        }
        let cell = match world::atomic_shared::from(w, shared) {
            Ok(cell) => cell,
            Err(shared) => return (Thing::Shared(shared), Found::NoSlot),
        };
        let found = match step {
            Step::WriteCell(new) => written(match w.cell_mut(&cell) {
                Ok(value) => Ok(mem::replace(value, new)),
                Err(why) => Err(why),
            }),
            _ => Found::Done,
        };
        (Thing::SharedCell(cell), found)
    }
}
