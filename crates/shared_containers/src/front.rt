//! Taking items out in front of a stack, and of a queue.

ghost use Rattle.std.specs.Prelude.{◌≡◌, ◌<◌, true, Some, IsTrue, IfSome};
ghost use Rattle.sdd_domain.specs.Cells.{cell_number};
ghost use Rattle.sdd_domain.specs.CellSteps.{HasMadeSome};
ghost use Rattle.sdd_domain.specs.Pointers.{ptr_slot, ptr_tag};
ghost use Rattle.sdd_domain.specs.Sharing.{kept_in};
ghost use Rattle.sdd_domain.specs.Tokens.{place_of, cell_count};
ghost use Rattle.shared_containers.specs.Containers.{AreLinksOf, IsStackOf, IsAsBefore, IsReady, IsOpenIn, IsStill};
ghost use Rattle.shared_containers.specs.Outcomes.{IfItem, IsFrom, Said};
ghost use Rattle.shared_containers.specs.Put.{HasFoundIn};
ghost use Rattle.shared_containers.specs.Taken.{HasTakenOut, HasPopped, IsPlain, HasMarkedFor};

use crate::outcome::Popped;
use crate::stack::Stack;
use sdd_domain::atomic_shared::AtomicShared;
use sdd_domain::domain::Domain;
use sdd_domain::guard::Guard;
use sdd_domain::holds::Holds;
use sdd_domain::local::Local;
use sdd_domain::pointer::Ptr;
use sdd_domain::shared::Shared;
use sdd_plain::tag::Tag;
use shared_lists::Links;
use shared_lists::moves::{TRIES, follow, let_go};

impl<T: Holds> Stack<T> {
    /// The first item that wasn't popped, or nothing. One that was popped it takes out first.
    pub(crate) fn first_item<'g>(
        &self,
        domain: &Domain<T>,
        links: &Links<T>,
        guard: &'g Guard,
        local: &mut Local<T>,
    ) -> Ptr<'g, T>
        requires open { IsOpenIn guard.now local.old domain.now }
        requires stack { IsStackOf self.now domain.now × AreLinksOf links.now domain.now }
        ensures found { IfSome (ptr_slot result) (λ k. HasFoundIn local.old (cell_number self.now.first) k local.new) }
        ensures some { HasMadeSome local.old local.new }
        ensures same { IsStill local.old local.new }
    {
        for _i in 0..TRIES {
            let found = self.first.load(domain, guard, local);
            let Some(link) = links.of_item(found) else {
                return found;
            };
            if !self.take_out(domain, found, link, guard, local) {
                return found;
            }
        }
        Ptr::null()
    }

    /// One try to take the first item out where `f` answers true of it.
    pub(crate) fn try_pop<F: Fn(&T) -> bool>(
        &self,
        domain: &Domain<T>,
        f: &F,
        links: &Links<T>,
        local: &mut Local<T>,
    ) -> Popped<T>
        requires ready { IsReady local.old domain.now }
        requires stack { IsStackOf self.now domain.now × AreLinksOf links.now domain.now }
        requires callable { F.IsAlwaysCallable f.now }
        ensures home { IsFrom result (place_of domain.now).0 (Said (F.post f.now)) }
        ensures same { IsAsBefore local.old local.new }
        ensures popped { IfItem result (λ s. HasPopped local.old self.now links.now s local.new) }
        ensures some { HasMadeSome local.old local.new }
    {
        let Ok(guard) = Guard::new(domain, local) else {
            unreachable!();
        };
        let popped = self.pop_under(domain, f, links, &guard, local);
        guard.close(domain, local);
        popped
    }

    /// The same under a guard.
    fn pop_under<F: Fn(&T) -> bool>(
        &self,
        domain: &Domain<T>,
        f: &F,
        links: &Links<T>,
        guard: &Guard,
        local: &mut Local<T>,
    ) -> Popped<T>
        requires open { IsOpenIn guard.now local.old domain.now }
        requires stack { IsStackOf self.now domain.now × AreLinksOf links.now domain.now }
        requires callable { F.IsAlwaysCallable f.now }
        ensures home { IsFrom result (place_of domain.now).0 (Said (F.post f.now)) }
        ensures same { IsStill local.old local.new }
        ensures popped { IfItem result (λ s. HasPopped local.old self.now links.now s local.new) }
        ensures some { HasMadeSome local.old local.new }
    {
        let found = self.first.load(domain, guard, local);
        let Some(item) = found.as_ref() else {
            return Popped::Empty;
        };
        let Some(link) = links.of_item(found) else {
            return Popped::Again;
        };
        if f(item) {
            match self.take(domain, found, link, guard, local) {
                Some(owner) => Popped::Item(owner),
                None => Popped::Again,
            }
        } else {
            match self.leave(domain, found, link, guard, local) {
                Some(owner) => Popped::Kept(owner),
                None => Popped::Again,
            }
        }
    }

    /// Pops what was found in front, unless another one has, and gives an owner of it.
    fn take(
        &self,
        domain: &Domain<T>,
        found: Ptr<T>,
        link: &AtomicShared<T>,
        guard: &Guard,
        local: &mut Local<T>,
    ) -> Option<Shared<T>>
        requires open { IsOpenIn guard.now local.old domain.now }
        requires inside { IsStackOf self.now domain.now × (cell_number link.now < cell_count domain.now) }
        ensures home { IfSome result (λ s. kept_in s ≡ (place_of domain.now).0) }
        ensures same { IsStill local.old local.new }
        ensures taken { IsPlain self.now → IfSome result (λ s. HasTakenOut local.old (cell_number self.now.first) s local.new) }
        ensures marked { self.now.is_front ≡ true → IfSome result (λ s. HasMarkedFor local.old (cell_number link.now) found.entry s local.new) }
        ensures some { HasMadeSome local.old local.new }
    {
        if self.is_front {
            self.take_marked(domain, found, link, guard, local)
        } else {
            self.take_first(domain, found, link, guard, local)
        }
    }

    /// Gives an owner of what was found in front, which stays there, unless it was popped.
    fn leave(
        &self,
        domain: &Domain<T>,
        found: Ptr<T>,
        link: &AtomicShared<T>,
        guard: &Guard,
        local: &mut Local<T>,
    ) -> Option<Shared<T>>
        requires open { IsOpenIn guard.now local.old domain.now }
        requires inside { IsStackOf self.now domain.now × (cell_number link.now < cell_count domain.now) }
        ensures home { IfSome result (λ s. kept_in s ≡ (place_of domain.now).0) }
        ensures same { IsStill local.old local.new }
        ensures some { HasMadeSome local.old local.new }
    {
        if self.take_out(domain, found, link, guard, local) {
            return None;
        }
        found.get_shared(domain, local)
    }

    /// Takes out what was found in front, if that is still there, puts what follows it in its place, and gives its owner.
    fn take_first(
        &self,
        domain: &Domain<T>,
        found: Ptr<T>,
        link: &AtomicShared<T>,
        guard: &Guard,
        local: &mut Local<T>,
    ) -> Option<Shared<T>>
        requires open { IsOpenIn guard.now local.old domain.now }
        requires inside { IsStackOf self.now domain.now × (cell_number link.now < cell_count domain.now) }
        ensures home { IfSome result (λ s. kept_in s ≡ (place_of domain.now).0) }
        ensures same { IsStill local.old local.new }
        ensures taken { IfSome result (λ s. HasTakenOut local.old (cell_number self.now.first) s local.new) }
        ensures some { HasMadeSome local.old local.new }
    {
        let next = link.load(domain, guard, local);
        // No item follows itself.
        if next.slot() == found.slot() {
            return None;
        }
        let owner = next.get_shared(domain, local);
        // The item may have been popped and its link emptied since.
        let is_there = owner.is_some() || next.is_null();
        if !is_there {
            let_go(domain, owner, local);
            return None;
        }
        match self
            .first
            .compare_exchange(domain, found, (owner, Tag::None), guard, local)
        {
            Ok((item, _)) => {
                follow(domain, link, None, local);
                item
            }
            Err((back, _)) => {
                let_go(domain, back, local);
                None
            }
        }
    }

    /// Pops the first item by the tag of its link, unless another one has, takes it out of the list, and gives an owner.
    fn take_marked(
        &self,
        domain: &Domain<T>,
        found: Ptr<T>,
        link: &AtomicShared<T>,
        guard: &Guard,
        local: &mut Local<T>,
    ) -> Option<Shared<T>>
        requires open { IsOpenIn guard.now local.old domain.now }
        requires inside { IsStackOf self.now domain.now × (cell_number link.now < cell_count domain.now) }
        ensures home { IfSome result (λ s. kept_in s ≡ (place_of domain.now).0) }
        ensures same { IsStill local.old local.new }
        ensures marked { IfSome result (λ s. HasMarkedFor local.old (cell_number link.now) found.entry s local.new) }
        ensures some { HasMadeSome local.old local.new }
    {
        // An owner is had before the tag is set: behind that others may take the item out and release theirs.
        let owner = found.get_shared(domain, local)?;
        let is_mine = link.update_tag_if(
            domain,
            Tag::Second,
            |next|
                ensures { IsTrue result → ptr_tag next.entry ≡ Tag.None }
            { next.tag() == Tag::None },
            guard,
            local,
        );
        self.take_out(domain, found, link, guard, local);
        if is_mine {
            return Some(owner);
        }
        owner.release(domain, local);
        None
    }

    /// Takes an item out of the list, if it was popped and is still in front: what follows it is the first one. Its link keeps
    /// the tag until its slot has another item, since somebody may still be about to append behind it. Whether it was popped.
    fn take_out(
        &self,
        domain: &Domain<T>,
        found: Ptr<T>,
        link: &AtomicShared<T>,
        guard: &Guard,
        local: &mut Local<T>,
    ) -> bool
        requires open { IsOpenIn guard.now local.old domain.now }
        requires inside { IsStackOf self.now domain.now × (cell_number link.now < cell_count domain.now) }
        ensures same { IsStill local.old local.new }
        ensures some { HasMadeSome local.old local.new }
    {
        let next = link.load(domain, guard, local);
        if next.tag() == Tag::None {
            return false;
        }
        let owner = next.get_shared(domain, local);
        // Another one may have taken the item out and emptied its link since.
        let is_there = owner.is_some() || next.is_null();
        if !is_there {
            let_go(domain, owner, local);
            return true;
        }
        match self
            .first
            .compare_exchange(domain, found, (owner, Tag::None), guard, local)
        {
            Ok((old, _)) => {
                let_go(domain, old, local);
                let (rest, _) = link.swap(domain, (None, Tag::Second), local);
                let_go(domain, rest, local);
            }
            Err((back, _)) => let_go(domain, back, local),
        }
        true
    }
}
