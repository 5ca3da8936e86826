//! Stacks without locks, after Treiber.

ghost use Rattle.std.specs.Prelude.{◌≡◌, ◌<◌, ◌↔◌, ℕ, true, false, [], IsTrue, OnOk, IfOk, IfErr, IfSome};
ghost use Rattle.sdd_plain.specs.Epochs.{tag_number};
ghost use Rattle.sdd_domain.specs.Cells.{cell_number};
ghost use Rattle.sdd_domain.specs.CellSteps.{HasMadeSome, HasReadCell};
ghost use Rattle.sdd_domain.specs.Comparing.{code_of};
ghost use Rattle.sdd_domain.specs.Pointers.{ptr_slot, ptr_tag};
ghost use Rattle.sdd_domain.specs.Sharing.{kept_in, IsOwnerOf};
ghost use Rattle.sdd_domain.specs.Tokens.{place_of, home_of, own_of, cell_count, slot_count, IsInNest};
ghost use Rattle.shared_containers.specs.Containers.{AreLinksOf, IsStackOf, IsAsBefore, IsReady, IsOpenIn, IsStill};
ghost use Rattle.shared_containers.specs.Outcomes.{Gives, IfDone, IfPartly, IfPartlyCopied, IfUncopied, IfUnmade, IsNotCloned, IsPushed, IsRefused, Said, RefusesOne};
ghost use Rattle.shared_containers.specs.Put.{HasPushed, HasPutBefore, HasPutBy};
ghost use Rattle.shared_containers.specs.Taken.{HasPopped, IsPlain};
ghost use Rattle.shared_containers.specs.Walks.{left_of};
ghost use Rattle.std.specs.Iterator.{IsFiniteIterable};

use crate::iter::Iter;
use crate::moves::{exchange, place};
use crate::outcome::{CloneRefused, FromIterRefused, NotMade, Popped, PushRefused, Pushed};
use sdd_domain::atomic_shared::AtomicShared;
use sdd_domain::domain::Domain;
use sdd_domain::guard::Guard;
use sdd_domain::holds::Holds;
use sdd_domain::local::Local;
use sdd_domain::pointer::Ptr;
use sdd_domain::shared::Shared;
use sdd_plain::tag::Tag;
use shared_lists::moves::{TRIES, follow};
use shared_lists::{Links, Section};

/// A stack of items of a place, which threads push and pop by `&`. It must be consumed by `end`.
/// Each item is popped at most once: what a `pop` answers is the owner that the stack had.
pub struct Stack<T> {
    pub(crate) first: AtomicShared<T>,
    /// Whether it is the front of a queue, where an item is popped by the tag of its link. In a stack no link has one.
    pub(crate) is_front: bool,
}

impl<T: Holds> Stack<T> {
    /// An empty stack, or none where no cell is free, which is a miss of the participant.
    pub fn new(domain: &Domain<T>, local: &mut Local<T>) -> Option<Stack<T>>
        ensures stack { IfSome result (λ s. IsStackOf s domain.now) }
        ensures same { IsAsBefore local.old local.new }
        ensures plain { IfSome result (λ s. IsPlain s) }
    {
        let Ok(first) = AtomicShared::null(domain, local) else {
            return None;
        };
        Some(Stack {
            first,
            is_front: false,
        })
    }

    /// A stack of the values, the last one in front. If no cell is free, the values are returned, a miss. If a value is
    /// refused, as `push` refuses it, it is returned with the stack of those before it, and the rest of the values is dropped.
    /// Conditions: the values end, they hold no owners, and none is in the participant's hand.
    pub fn from_iter<I: IntoIterator<Item = T>>(
        domain: &Domain<T>,
        values: I,
        links: &Links<T>,
        local: &mut Local<T>,
    ) -> Result<Stack<T>, FromIterRefused<Stack<T>, T, I>>
        requires ready { IsReady local.old domain.now }
        requires links { AreLinksOf links.now domain.now }
        requires ends { IsFiniteIterable I.into_iter_gives I.IntoIter.can_next I.IntoIter.remaining values }
        requires holds { (v : T) → Gives I.into_iter_gives I.IntoIter.next_gives values v → T.holds v ≡ [] }
        ensures stack { IfOk result (λ s. IsStackOf s domain.now) }
        ensures unmade { IfErr result (λ e. IfUnmade e (λ why back. (why ≡ NotMade.NoCell) × (back ≡ values))) }
        ensures built { IfErr result (λ e. IfPartly e (λ s _. IsStackOf s domain.now)) }
        ensures partly { IfErr result (λ e. IfPartly e (λ _ r. RefusesOne I.into_iter_gives I.IntoIter.next_gives values r (place_of domain.now).0)) }
        ensures same { IsAsBefore local.old local.new }
        ensures plain { IfOk result (λ s. IsPlain s) }
    {
        let Some(stack) = Stack::new(domain, local) else {
            return Err(FromIterRefused::Unmade(NotMade::NoCell, values));
        };
        for value in values {
            match stack.push(domain, value, links, local) {
                Ok(()) => {}
                Err(refused) => return Err(FromIterRefused::Partly(stack, refused)),
            }
        }
        Ok(stack)
    }

    /// A stack of clones of the items that `for_each` finds, in their order, each in a slot of its own. If no cell is free
    /// there is no stack, a miss. If a clone is refused memory, or has no room, the stack of those before it is returned.
    /// Conditions: clones hold no owners, and none is in the participant's hand.
    pub fn clone(
        &self,
        domain: &Domain<T>,
        links: &Links<T>,
        local: &mut Local<T>,
    ) -> Result<Stack<T>, CloneRefused<Stack<T>, T>>
    where
        T: Clone,
        requires ready { IsReady local.old domain.now }
        requires stack { IsStackOf self.now domain.now × AreLinksOf links.now domain.now }
        requires holds { (x y : T) → T.is_clone x y → T.holds y ≡ [] }
        ensures stack { IfOk result (λ s. IsStackOf s domain.now) }
        ensures unmade { IfErr result (λ e. IfUncopied e (λ why. why ≡ NotMade.NoCell)) }
        ensures built { IfErr result (λ e. IfPartlyCopied e (λ s _. IsStackOf s domain.now)) }
        ensures partly { IfErr result (λ e. IfPartlyCopied e (λ _ why. IsNotCloned why T.is_clone T.is_infallible (place_of domain.now).0)) }
        ensures same { IsAsBefore local.old local.new }
        ensures plain { IfOk result (λ s. IsPlain s) }
    {
        let Some(copy) = Stack::new(domain, local) else {
            return Err(CloneRefused::Unmade(NotMade::NoCell));
        };
        match self.copy_into(domain, &copy, links, local) {
            Ok(()) => Ok(copy),
            Err(why) => Err(CloneRefused::Partly(copy, why)),
        }
    }

    /// Whether it has no item, as it is found in one step.
    pub fn is_empty(&self, domain: &Domain<T>, local: &mut Local<T>) -> bool
        requires home { home_of local.old ≡ place_of domain.now }
        requires stack { IsStackOf self.now domain.now }
        ensures looked { (t : ℕ) × (k : ℕ) × HasReadCell local.old (cell_number self.now.first) t k local.new × (IsTrue result ↔ (k ≡ 0)) }
        ensures same { IsInNest local.old local.new × (own_of local.new ≡ own_of local.old) }
    {
        self.first.is_null(domain, local)
    }

    /// The first item, or nothing, as it is found in one step.
    pub fn peek<'g>(&self, domain: &Domain<T>, guard: &'g Guard, local: &mut Local<T>) -> Ptr<'g, T>
        requires open { IsOpenIn guard.now local.old domain.now }
        requires stack { IsStackOf self.now domain.now }
        ensures looked { HasReadCell local.old (cell_number self.now.first) (tag_number (ptr_tag result)) (code_of (ptr_slot result)) local.new }
        ensures same { IsInNest local.old local.new × (own_of local.new ≡ own_of local.old) }
    {
        self.first.load(domain, guard, local)
    }

    /// Calls `f` once with the first item, or none, and gives what it answers. A guard is open meanwhile.
    pub fn peek_with<R, F: FnOnce(Option<&T>) -> R>(
        &self,
        domain: &Domain<T>,
        f: F,
        links: &Links<T>,
        local: &mut Local<T>,
    ) -> R
        requires ready { IsReady local.old domain.now }
        requires stack { IsStackOf self.now domain.now × AreLinksOf links.now domain.now }
        requires callable { F.IsAlwaysCallable f }
        ensures asked { Said (F.post f) result }
        ensures same { IsAsBefore local.old local.new }
    {
        let Ok(guard) = Guard::new(domain, local) else {
            unreachable!();
        };
        let answer = f(self.first_item(domain, links, &guard, local).as_ref());
        guard.close(domain, local);
        answer
    }

    /// A walk along its items, from the first one on, under a guard. It ends where the item that it is at is popped.
    pub fn iter<'g>(
        &self,
        domain: &Domain<T>,
        links: &Links<T>,
        guard: &'g Guard,
        local: &mut Local<T>,
    ) -> Iter<'g, T>
        requires open { IsOpenIn guard.now local.old domain.now }
        requires stack { IsStackOf self.now domain.now × AreLinksOf links.now domain.now }
        ensures most { left_of result ≡ slot_count domain.now }
        ensures same { IsStill local.old local.new }
    {
        Iter {
            at: self.first_item(domain, links, guard, local),
            left: domain.slots(),
        }
    }

    /// Calls `f` with each item of an `iter`, under a guard of its own.
    pub fn for_each<F: FnMut(&T)>(
        &self,
        domain: &Domain<T>,
        mut f: F,
        links: &Links<T>,
        local: &mut Local<T>,
    )
        requires ready { IsReady local.old domain.now }
        requires stack { IsStackOf self.now domain.now × AreLinksOf links.now domain.now }
        requires callable { F.IsAlwaysCallable f }
        ensures same { IsAsBefore local.old local.new }
    {
        let Ok(guard) = Guard::new(domain, local) else {
            unreachable!();
        };
        let mut items = self.iter(domain, links, &guard, local);
        while let Some(item) = items.next(domain, links, &guard, local) {
            f(item);
        }
        guard.close(domain, local);
    }

    /// How many items `for_each` finds.
    pub fn len(&self, domain: &Domain<T>, links: &Links<T>, local: &mut Local<T>) -> usize
        requires ready { IsReady local.old domain.now }
        requires stack { IsStackOf self.now domain.now × AreLinksOf links.now domain.now }
        ensures same { IsAsBefore local.old local.new }
    {
        let mut count = 0usize;
        self.for_each(domain, |_| count = count.saturating_add(1), links, local);
        count
    }

    /// Puts a value in front. If no slot is free it is returned, a miss. The call tries again where others push or pop; after
    /// `2^64 - 1` times it returns the value's owner. Conditions: the value holds no owners, and none is in the participant's hand.
    pub fn push(
        &self,
        domain: &Domain<T>,
        value: T,
        links: &Links<T>,
        local: &mut Local<T>,
    ) -> Result<(), PushRefused<T>>
        requires ready { IsReady local.old domain.now }
        requires stack { IsStackOf self.now domain.now × AreLinksOf links.now domain.now }
        requires holds { T.holds value ≡ [] }
        ensures put { OnOk result (HasPushed local.old self.now links.now value (place_of domain.now).0 local.new) }
        ensures refused { IfErr result (λ r. IsRefused r value (place_of domain.now).0 ⊥ ⊥) }
        ensures same { IsAsBefore local.old local.new }
    {
        let owner = place(domain, value, local)?;
        self.insert(domain, owner, &|_| true, links, local)
    }

    /// The same where `f` answers true of the first item, or of none: it is asked once each time that the push is tried, and
    /// the value is put just before the item that it was asked of last. If it answers false, the value's owner is returned.
    pub fn push_if<F: Fn(Option<&T>) -> bool>(
        &self,
        domain: &Domain<T>,
        value: T,
        f: F,
        links: &Links<T>,
        local: &mut Local<T>,
    ) -> Result<(), PushRefused<T>>
    where
        F: Drop,
        requires ready { IsReady local.old domain.now }
        requires stack { IsStackOf self.now domain.now × AreLinksOf links.now domain.now }
        requires holds { T.holds value ≡ [] }
        requires callable { F.IsAlwaysCallable f }
        ensures asked { OnOk result (Said (F.post f) true) }
        ensures put { OnOk result (HasPushed local.old self.now links.now value (place_of domain.now).0 local.new) }
        ensures refused { IfErr result (λ r. IsRefused r value (place_of domain.now).0 (Said (F.post f) false) ⊥) }
        ensures same { IsAsBefore local.old local.new }
    {
        let owner = place(domain, value, local)?;
        self.insert(domain, owner, &f, links, local)
    }

    /// Puts an owner's item in front where `f` answers true.
    pub(crate) fn insert<F: Fn(Option<&T>) -> bool>(
        &self,
        domain: &Domain<T>,
        owner: Shared<T>,
        f: &F,
        links: &Links<T>,
        local: &mut Local<T>,
    ) -> Result<(), PushRefused<T>>
        requires ready { IsReady local.old domain.now }
        requires mine { kept_in owner ≡ (place_of domain.now).0 }
        requires stack { IsStackOf self.now domain.now × AreLinksOf links.now domain.now }
        requires callable { F.IsAlwaysCallable f.now }
        ensures asked { OnOk result (Said (F.post f.now) true) }
        ensures put { OnOk result (HasPutBefore local.old links.now (cell_number self.now.first) owner local.new) }
        ensures refused { (x : T) → IsOwnerOf owner x → IfErr result (λ r. IsRefused r x (place_of domain.now).0 (Said (F.post f.now) false) ⊥) }
        ensures same { IsAsBefore local.old local.new }
    {
        let mut owner = owner;
        for _i in 0..TRIES {
            match self.try_push(domain, owner, f, links, local) {
                Pushed::Done => return Ok(()),
                Pushed::Unwanted(back) => return Err(PushRefused::Condition(back)),
                Pushed::Slow(back) => owner = back,
            }
        }
        Err(PushRefused::Busy(owner))
    }

    /// One try.
    fn try_push<F: Fn(Option<&T>) -> bool>(
        &self,
        domain: &Domain<T>,
        owner: Shared<T>,
        f: &F,
        links: &Links<T>,
        local: &mut Local<T>,
    ) -> Pushed<T>
        requires ready { IsReady local.old domain.now }
        requires mine { kept_in owner ≡ (place_of domain.now).0 }
        requires stack { IsStackOf self.now domain.now × AreLinksOf links.now domain.now }
        requires callable { F.IsAlwaysCallable f.now }
        ensures pushed { IsPushed result owner (place_of domain.now).0 (Said (F.post f.now)) }
        ensures put { IfDone result (HasPutBefore local.old links.now (cell_number self.now.first) owner local.new) }
        ensures some { HasMadeSome local.old local.new }
        ensures same { IsAsBefore local.old local.new }
    {
        let Some(link) = links.at(owner.slot()) else {
            return Pushed::Slow(owner);
        };
        let Ok(guard) = Guard::new(domain, local) else {
            unreachable!();
        };
        let section = Section {
            domain,
            links,
            guard: &guard,
        };
        let pushed = self.push_under(&section, owner, f, link, local);
        guard.close(domain, local);
        pushed
    }

    /// The same under a guard, with the item's link.
    fn push_under<F: Fn(Option<&T>) -> bool>(
        &self,
        section: &Section<T>,
        owner: Shared<T>,
        f: &F,
        link: &AtomicShared<T>,
        local: &mut Local<T>,
    ) -> Pushed<T>
        requires open { IsOpenIn section.now.guard.now local.old section.now.domain.now }
        requires mine { kept_in owner ≡ (place_of section.now.domain.now).0 }
        requires stack { IsStackOf self.now section.now.domain.now }
        requires inside { cell_number link.now < cell_count section.now.domain.now }
        requires callable { F.IsAlwaysCallable f.now }
        ensures pushed { IsPushed result owner (place_of section.now.domain.now).0 (Said (F.post f.now)) }
        ensures put { IfDone result (HasPutBy local.old (cell_number link.now) (cell_number self.now.first) owner local.new) }
        ensures some { HasMadeSome local.old local.new }
        ensures same { IsStill local.old local.new }
    {
        let first = self.peek(section.domain, section.guard, local);
        if !f(first.as_ref()) {
            return Pushed::Unwanted(owner);
        }
        put_before(section, &self.first, first, owner, link, local)
    }

    /// Takes the first item out, in one step, and gives its owner. None where it is empty, and after `2^64 - 1` tries, at
    /// each of which others were faster. Condition: no owner is in the participant's hand.
    pub fn pop(
        &self,
        domain: &Domain<T>,
        links: &Links<T>,
        local: &mut Local<T>,
    ) -> Option<Shared<T>>
        requires ready { IsReady local.old domain.now }
        requires stack { IsStackOf self.now domain.now × AreLinksOf links.now domain.now }
        ensures home { IfSome result (λ s. kept_in s ≡ (place_of domain.now).0) }
        ensures same { IsAsBefore local.old local.new }
        ensures taken { IfSome result (λ s. HasPopped local.old self.now links.now s local.new) }
        ensures some { HasMadeSome local.old local.new }
    {
        match self.pop_if(domain, |_| true, links, local) {
            Ok(popped) => popped,
            Err(_) => unreachable!(),
        }
    }

    /// The same where `f` answers true of the first item: it is asked once each time that the pop is tried, and what is popped
    /// is just the item that it was asked of last. Where it answers false, another owner of that item is given, which stays.
    pub fn pop_if<F: Fn(&T) -> bool>(
        &self,
        domain: &Domain<T>,
        f: F,
        links: &Links<T>,
        local: &mut Local<T>,
    ) -> Result<Option<Shared<T>>, Shared<T>>
    where
        F: Drop,
        requires ready { IsReady local.old domain.now }
        requires stack { IsStackOf self.now domain.now × AreLinksOf links.now domain.now }
        requires callable { F.IsAlwaysCallable f }
        ensures popped { IfOk result (λ o. IfSome o (λ s. (kept_in s ≡ (place_of domain.now).0) × Said (F.post f) true)) }
        ensures kept { IfErr result (λ s. (kept_in s ≡ (place_of domain.now).0) × Said (F.post f) false) }
        ensures same { IsAsBefore local.old local.new }
        ensures taken { IfOk result (λ o. IfSome o (λ s. HasPopped local.old self.now links.now s local.new)) }
        ensures some { HasMadeSome local.old local.new }
    {
        for _i in 0..TRIES {
            match self.try_pop(domain, &f, links, local) {
                Popped::Empty => return Ok(None),
                Popped::Item(owner) => return Ok(Some(owner)),
                Popped::Kept(owner) => return Err(owner),
                Popped::Again => {}
            }
        }
        Ok(None)
    }

    /// Takes all items out, in one step, and gives them as a stack of their own. None where no cell is free for that, which
    /// is a miss: then they stay.
    pub fn pop_all(&self, domain: &Domain<T>, local: &mut Local<T>) -> Option<Stack<T>>
        requires home { home_of local.old ≡ place_of domain.now }
        requires stack { IsStackOf self.now domain.now }
        ensures stack { IfSome result (λ s. IsStackOf s domain.now) }
        ensures same { IsAsBefore local.old local.new }
        ensures plain { IfSome result (λ s. IsPlain s) }
    {
        let all = Stack::new(domain, local)?;
        let (first, _) = self.first.swap(domain, (None, Tag::None), local);
        follow(domain, &all.first, first, local);
        Some(all)
    }

    /// Releases its items, and gives its cell back.
    pub fn end(self, domain: &Domain<T>, links: &Links<T>, local: &mut Local<T>)
        requires ready { IsReady local.old domain.now }
        requires stack { IsStackOf self domain.now × AreLinksOf links.now domain.now }
        ensures same { IsAsBefore local.old local.new }
    {
        for _i in 0..domain.slots() {
            match self.pop(domain, links, local) {
                Some(owner) => {
                    owner.release(domain, local);
                }
                None => break,
            }
        }
        let Stack { first, is_front: _ } = self;
        first.retire(domain, local);
    }
}

/// Puts an item in front of what was found there, in one step: its link owns that from then on, and the owner that the stack
/// had of it is released. If others were faster, it returns the item's owner.
fn put_before<T: Holds>(
    section: &Section<T>,
    cell: &AtomicShared<T>,
    first: Ptr<T>,
    owner: Shared<T>,
    link: &AtomicShared<T>,
    local: &mut Local<T>,
) -> Pushed<T>
    requires open { IsOpenIn section.now.guard.now local.old section.now.domain.now }
    requires inside { cell_number cell.now < cell_count section.now.domain.now }
    requires link { cell_number link.now < cell_count section.now.domain.now }
    requires mine { kept_in owner ≡ (place_of section.now.domain.now).0 }
    ensures pushed { IsPushed result owner (place_of section.now.domain.now).0 (λ b. b ≡ true) }
    ensures put { IfDone result (HasPutBy local.old (cell_number link.now) (cell_number cell.now) owner local.new) }
    ensures some { HasMadeSome local.old local.new }
    ensures same { IsStill local.old local.new }
{
    let domain = section.domain;
    let guard = section.guard;
    // No item is put before itself.
    if first.slot() == Some(owner.slot()) {
        return Pushed::Slow(owner);
    }
    let next = first.get_shared(domain, local);
    // What was the first item may have been popped and retired since.
    let is_there = next.is_some() || first.is_null();
    follow(domain, link, next, local);
    if !is_there {
        return Pushed::Slow(owner);
    }
    match exchange(domain, cell, first, owner, guard, local) {
        Some(back) => Pushed::Slow(back),
        None => Pushed::Done,
    }
}
