//! What a participant does under a guard.

ghost use Rattle.std.specs.Prelude.{◌≡◌, ◌<◌};
ghost use Rattle.sdd_domain.specs.Tokens.{own_of, nest_of, nest_in};
ghost use Rattle.domain_tests.specs.Steps.{IsHome, Stays, IsOpen};

use crate::hands::{self, item, told};
use crate::stage::Stage;
use crate::steps::{Found, View};
use sdd_domain::domain::Domain;
use sdd_domain::guard::Guard;
use sdd_domain::local::Local;
use sdd_domain::pointer::Ptr;
use sdd_plain::tag::Tag;
use std::mem;

/// What a participant has for as long as a guard is borrowed: a pointer, and an item that it reads.
#[derive(Clone, Copy)]
pub(crate) struct Seen<'g> {
    pub(crate) pointer: Ptr<'g, u64>,
    pub(crate) item: Option<&'g u64>,
}

/// Opens one more guard within the one that is open, accelerates and closes it: whether there was one.
fn nest(domain: &Domain<u64>, local: &mut Local<u64>, guard: &Guard) -> Found
    requires home { IsHome domain.now local.old }
    requires open { IsOpen guard.now local.old }
    ensures stays { Stays local.old local.new }
{
    match Guard::new(domain, local) {
        Ok(inner) => {
            inner.accelerate(local);
            inner.close(domain, local);
            Found::Yes
        }
        Err(_) => Found::No,
    }
}

/// A step that looks at a pointer alone.
fn pointed(seen: Seen<'_>, step: View) -> Found {
    let pointer = seen.pointer;
    match step {
        View::Item => item(pointer.as_ref()),
        View::IsNull => told(pointer.is_null()),
        View::Label => Found::Tagged(pointer.tag()),
        View::Lent => item(seen.item),
        View::IsSameTagged => told(pointer.with_tag(Tag::Both) == pointer),
        View::IsSameUntagged => told(is_same_untagged(pointer)),
        _ => Found::No,
    }
}

/// What a pointer's item is without the pointer's borrow.
fn reloaded(local: &Local<u64>, guard: &Guard, pointer: Ptr<u64>) -> Found
    requires open { nest_of guard.now ≡ nest_in local.now }
{
    let Some(loaded) = pointer.loaded(local) else {
        return Found::No;
    };
    let again = loaded.under(guard);
    if again != pointer.without_tag() {
        return Found::No;
    }
    item(again.as_ref())
}

/// Whether a pointer with another tag is equal to it where both have none.
fn is_same_untagged(pointer: Ptr<u64>) -> bool {
    let mut other = pointer.with_tag(Tag::Both);
    other.unset_tag();
    other == pointer.without_tag()
}

impl<'d> Stage<'d> {
    /// A step that asks of the guard.
    fn guarded(&mut self, guard: &Guard, step: View) -> Found
        requires open { IsOpen guard.now self.old.here }
        ensures stays { Stays self.old.here self.new.here }
    {
        match step {
            View::Epoch => Found::Is(u64::from(u8::from(guard.epoch(self.domain, &mut self.here)))),
            View::HasGarbage => told(guard.has_garbage(&self.here)),
            View::SetGarbage => {
                guard.set_has_garbage(&mut self.here);
                Found::Nothing
            }
            _ => nest(self.domain, &mut self.here, guard),
        }
    }

    /// Loads the cell.
    fn load<'g>(&mut self, guard: &'g Guard) -> Ptr<'g, u64>
        requires open { IsOpen guard.now self.old.here }
        ensures stays { Stays self.old.here self.new.here }
    {
        let Some(cell) = &self.cell else {
            return Ptr::default();
        };
        cell.load(self.domain, guard, &mut self.here)
    }

    /// Loads the cell under an inner guard.
    fn load_within<'g>(&mut self, guard: &'g Guard) -> Found
        requires open { IsOpen guard.now self.old.here }
        ensures stays { Stays self.old.here self.new.here }
    {
        match &self.cell {
            Some(cell) => hands::load_within(self.domain, guard, &mut self.here, cell),
            None => Found::No,
        }
    }

    /// A step that makes the pointer another one.
    fn pointing<'g>(&mut self, guard: &'g Guard, pointer: Ptr<'g, u64>, step: View) -> Ptr<'g, u64>
        requires open { IsOpen guard.now self.old.here }
        ensures stays { Stays self.old.here self.new.here }
    {
        if let View::Load = step {
            return self.load(guard);
        }
        if let View::Lend = step {
            return self.lend(guard, pointer);
        }
        let View::Relabel(tag) = step else {
            return Ptr::null();
        };
        pointer.with_tag(tag)
    }

    /// The pointer to the item in hand.
    fn lend<'g>(&mut self, guard: &'g Guard, pointer: Ptr<'g, u64>) -> Ptr<'g, u64>
        requires open { IsOpen guard.now self.old.here }
        ensures stays { Stays self.old.here self.new.here }
    {
        match self.hand.take() {
            Some(owner) => {
                let (owner, pointer) = owner.get_guarded_ptr(self.domain, guard, &mut self.here);
                self.put(Some(owner));
                pointer
            }
            None => pointer,
        }
    }

    /// The item in hand, for as long as the guard is open.
    fn lend_item<'g>(&mut self, guard: &'g Guard) -> Option<&'g u64>
        requires open { IsOpen guard.now self.old.here }
        ensures stays { Stays self.old.here self.new.here }
    {
        match self.hand.take() {
            Some(owner) => {
                let (owner, item) = owner.get_guarded_ref(self.domain, guard, &mut self.here);
                self.put(Some(owner));
                Some(item)
            }
            None => None,
        }
    }

    /// A step by which the hand has another owner.
    fn exchanging(&mut self, guard: &Guard, pointer: Ptr<u64>, step: View) -> Found
        requires open { IsOpen guard.now self.old.here }
        ensures stays { Stays self.old.here self.new.here }
    {
        let hand = self.hand.take();
        let (domain, local) = (self.domain, &mut self.here);
        let (hand, found) = match (&self.cell, step) {
            (Some(cell), View::Exchange(tag)) => {
                hands::exchange(domain, guard, local, cell, pointer, (hand, tag))
            }
            (Some(cell), View::ExchangeWeak(tag)) => {
                hands::exchange_weak(domain, guard, local, cell, pointer, (hand, tag))
            }
            _ => (hand, Found::No),
        };
        self.put(hand);
        found
    }

    /// Whether there is one more owner of the pointer's item or of the cell's, which is in hand.
    fn sharing(&mut self, guard: &Guard, pointer: Ptr<u64>, step: View) -> Found
        requires open { IsOpen guard.now self.old.here }
        ensures stays { Stays self.old.here self.new.here }
    {
        let (domain, local) = (self.domain, &mut self.here);
        let (hand, found) = hands::sharing(domain, guard, local, &self.cell, pointer, step);
        self.put(hand);
        found
    }

    /// Makes one more cell.
    fn clone_cell(&mut self, guard: &Guard) -> Found
        requires open { IsOpen guard.now self.old.here }
        ensures stays { Stays self.old.here self.new.here }
    {
        let cell = match &self.cell {
            Some(cell) => cell.clone(self.domain, guard, &mut self.here).ok(),
            None => None,
        };
        let found = told(cell.is_some());
        let older = mem::replace(&mut self.spare, cell);
        hands::retire(self.domain, &mut self.here, older);
        found
    }

    /// Sets the cell's tag if it has this one.
    fn retag(&mut self, guard: &Guard, before: Tag, after: Tag) -> Found
        requires open { IsOpen guard.now self.old.here }
        ensures stays { Stays self.old.here self.new.here }
    {
        match &self.cell {
            Some(cell) => told(cell.update_tag_if(
                self.domain,
                after,
                |found| found.tag() == before,
                guard,
                &mut self.here,
            )),
            None => Found::Nothing,
        }
    }

    /// A step under the guard: what is had of it then, and what is found.
    pub(crate) fn view<'g>(
        &mut self,
        guard: &'g Guard,
        seen: Seen<'g>,
        step: View,
    ) -> (Seen<'g>, Found)
        requires open { IsOpen guard.now self.old.here }
        ensures stays { Stays self.old.here self.new.here }
    {
        let pointer = seen.pointer;
        let found = match step {
            View::Do(act) => self.act(act),
            View::Beside(act) => self.beside(act),
            View::Epoch | View::HasGarbage | View::SetGarbage | View::Nest => self.guarded(
                guard, step,
            ),
            View::Load | View::Lend | View::Relabel(_) | View::Forget => {
                let pointer = self.pointing(guard, pointer, step);
                let seen = Seen {
                    pointer,
                    item: seen.item,
                };
                return (seen, item(pointer.as_ref()));
            }
            View::LendItem => {
                let item = self.lend_item(guard);
                return (Seen { pointer, item }, hands::item(item));
            }
            View::LoadWithin => self.load_within(guard),
            View::Reload => reloaded(&self.here, guard, pointer),
            View::ReloadBeside => self.reloads_beside(pointer),
            View::IsSame => told(pointer == self.load(guard)),
            View::Exchange(_) | View::ExchangeWeak(_) => self.exchanging(guard, pointer, step),
            View::Retag(before, after) => self.retag(guard, before, after),
            View::Share | View::TryShare | View::ShareCell => self.sharing(guard, pointer, step),
            View::CloneCell => self.clone_cell(guard),
            _ => pointed(seen, step),
        };
        (seen, found)
    }
}
