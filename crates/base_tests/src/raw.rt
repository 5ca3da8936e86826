//! Steps of cells of raw pointers to the item that is out.

ghost use Rattle.sdd_table.specs.Place.{IsRawCell};
ghost use Rattle.sdd_world.specs.Tokens.{raw_cell};

use crate::stage::{Stage, Thing, told};
use crate::steps::{Found, G, Point, Step};
use sdd_world::{AtomicRaw, Deferred, RawPtr, Tag, world};
use std::process::Abort;

/// What a raw pointer is, which is to nothing or to the item that is out.
fn point(item: RawPtr<u64>, found: RawPtr<u64>) -> Found {
    if found == RawPtr::null() {
        Found::Null
    } else if found.without_tag() == item {
        Found::Item(found.tag())
    } else {
        Found::Nothing
    }
}

/// The same of a call that may be refused.
fn outcome(item: RawPtr<u64>, outcome: Result<RawPtr<u64>, RawPtr<u64>>) -> Found {
    match outcome {
        Ok(found) => point(item, found),
        Err(found) if found.without_tag() == item => Found::Kept(found.tag()),
        Err(_) => Found::Nothing,
    }
}

/// The raw pointer of a row.
pub(crate) fn pointer(item: RawPtr<u64>, point: Point) -> RawPtr<u64> {
    match point {
        Point::Null => RawPtr::null(),
        Point::Item(tag) => item.with_tag(tag),
    }
}

impl<'r, R: Abort, J: Deferred> Stage<'r, R, J> {
    /// A step with a cell of raw pointers.
    pub(crate) fn with_raw_cell(&mut self, cell: AtomicRaw<u64>, step: Step) -> (Thing, Found)
        requires { IsRawCell self.old.w (raw_cell cell) }
    {
        let raw = self.raw;
        let w = &mut self.w;
        let found = match step {
            Step::StoreRaw(new) => {
                world::atomic_raw::store(w, &cell, pointer(raw, new));
                Found::Done
            }
            Step::Untag => {
                let bare = |found: RawPtr<u64>| found.tag() == Tag::None;
                told(world::atomic_raw::update_tag_if(w, &cell, Tag::None, bare))
            }
            Step::TagOf => Found::Tagged(world::atomic_raw::tag(w, &cell)),
            Step::IsNull => told(world::atomic_raw::is_null(w, &cell)),
            _ => self.with_guarded_cell(&cell, step),
        };
        (Thing::RawCell(cell), found)
    }

    /// The same of calls that take a guard.
    fn with_guarded_cell(&mut self, cell: &AtomicRaw<u64>, step: Step) -> Found
        requires { IsRawCell self.old.w (raw_cell cell.now) }
    {
        let raw = self.raw;
        let guard = self.guard(G);
        let w = &mut self.w;
        let found = match step {
            Step::LoadRaw => point(raw, world::atomic_raw::load(w, cell, &guard)),
            Step::SwapRaw(new) => {
                let new = pointer(raw, new);
                point(raw, world::atomic_raw::swap(w, cell, new, &guard))
            }
            Step::ExchangeRaw(from, to) => {
                let (from, to) = (pointer(raw, from), pointer(raw, to));
                let found = world::atomic_raw::compare_exchange(w, cell, from, to, &guard);
                outcome(raw, found)
            }
            Step::UpdateRaw(agrees) => {
                let both = |found: RawPtr<u64>| agrees.then_some(found.with_tag(Tag::Both));
                outcome(raw, world::atomic_raw::fetch_update(w, cell, &guard, both))
            }
            _ => Found::Nothing,
        };
        self.put(G, Thing::Guard(guard));
        found
    }
}
