//! Queues without locks: a list that is appended to at its end, from which items are taken in front once they are marked.

ghost use Rattle.std.specs.Prelude.{◌≡◌, ◌↔◌, ℕ, List, Some, true, false, [], IsTrue, OnOk, IfOk, IfErr, IfSome};
ghost use Rattle.sdd_domain.specs.Cells.{cell_number};
ghost use Rattle.sdd_domain.specs.CellSteps.{CellStep, HasMadeSome, HasReadCell};
ghost use Rattle.sdd_domain.specs.Pointers.{ptr_slot};
ghost use Rattle.sdd_domain.specs.Sharing.{kept_in, IsOwnerOf};
ghost use Rattle.sdd_domain.specs.Tokens.{place_of, home_of, own_of, slot_count, IsInNest};
ghost use Rattle.shared_containers.specs.Containers.{AreLinksOf, IsQueueOf, IsAsBefore, IsReady, IsOpenIn, IsStill};
ghost use Rattle.shared_containers.specs.Outcomes.{Gives, IfDone, IfPartly, IfPartlyCopied, IfUncopied, IfUnmade, IsNotCloned, IsPushed, IsRefused, Said, RefusesOne};
ghost use Rattle.shared_containers.specs.Put.{HasAppended, HasAppendedClear, HasPushedLast, HasWalked};
ghost use Rattle.shared_containers.specs.Taken.{HasMarkedLink};
ghost use Rattle.shared_containers.specs.Walks.{left_of};
ghost use Rattle.std.specs.Iterator.{IsFiniteIterable};

use crate::iter::Iter;
use crate::moves::place;
use crate::outcome::{CloneRefused, FromIterRefused, NotMade, PushRefused, Pushed};
use crate::stack::Stack;
use sdd_domain::atomic_shared::AtomicShared;
use sdd_domain::domain::Domain;
use sdd_domain::guard::Guard;
use sdd_domain::holds::Holds;
use sdd_domain::local::Local;
use sdd_domain::pointer::Ptr;
use sdd_domain::shared::Shared;
use sdd_plain::tag::Tag;
use shared_lists::moves::{TRIES, follow};
use shared_lists::{Links, Section};

/// A queue of items of a place, which threads push and pop by `&`. It must be consumed by `end`.
/// The tag of an item's link says whether the item was popped. Whoever sets it pops the item, so each is popped at most
/// once; and behind an item that was popped nobody appends, since that would exchange a link without a tag.
pub struct Queue<T> {
    front: Stack<T>,
    /// An item near the end, where appending begins; it may have been popped.
    pub(crate) last: AtomicShared<T>,
}

impl<T: Holds> Queue<T> {
    /// An empty queue, or none where fewer than two cells are free, which is a miss of the participant.
    pub fn new(domain: &Domain<T>, local: &mut Local<T>) -> Option<Queue<T>>
        requires home { home_of local.old ≡ place_of domain.now }
        ensures queue { IfSome result (λ q. IsQueueOf q domain.now) }
        ensures same { IsAsBefore local.old local.new }
    {
        let Ok(last) = AtomicShared::null(domain, local) else {
            return None;
        };
        let Ok(first) = AtomicShared::null(domain, local) else {
            last.retire(domain, local);
            return None;
        };
        let front = Stack {
            first,
            is_front: true,
        };
        Some(Queue { front, last })
    }

    /// A queue of the values, the first one in front. If fewer than two cells are free, the values are returned, a miss.
    /// If a value is refused, as `push` refuses it, it is returned with the queue of those before it, and the rest of the
    /// values is dropped. Conditions: the values end, they hold no owners, and none is in the participant's hand.
    pub fn from_iter<I: IntoIterator<Item = T>>(
        domain: &Domain<T>,
        values: I,
        links: &Links<T>,
        local: &mut Local<T>,
    ) -> Result<Queue<T>, FromIterRefused<Queue<T>, T, I>>
        requires ready { IsReady local.old domain.now }
        requires links { AreLinksOf links.now domain.now }
        requires ends { IsFiniteIterable I.into_iter_gives I.IntoIter.can_next I.IntoIter.remaining values }
        requires holds { (v : T) → Gives I.into_iter_gives I.IntoIter.next_gives values v → T.holds v ≡ [] }
        ensures queue { IfOk result (λ q. IsQueueOf q domain.now) }
        ensures unmade { IfErr result (λ e. IfUnmade e (λ why back. (why ≡ NotMade.NoCell) × (back ≡ values))) }
        ensures built { IfErr result (λ e. IfPartly e (λ q _. IsQueueOf q domain.now)) }
        ensures partly { IfErr result (λ e. IfPartly e (λ _ r. RefusesOne I.into_iter_gives I.IntoIter.next_gives values r (place_of domain.now).0)) }
        ensures same { IsAsBefore local.old local.new }
    {
        let Some(queue) = Queue::new(domain, local) else {
            return Err(FromIterRefused::Unmade(NotMade::NoCell, values));
        };
        for value in values {
            match queue.push(domain, value, links, local) {
                Ok(()) => {}
                Err(refused) => return Err(FromIterRefused::Partly(queue, refused)),
            }
        }
        Ok(queue)
    }

    /// A queue of clones of the items that `for_each` finds, in their order, each in a slot of its own. If fewer than two
    /// cells are free there is no queue, a miss. If a clone is refused memory, or has no room, the queue of those before
    /// it is returned. The next push on it walks along all of its items. Conditions: clones hold no owners, and none is in the
    /// participant's hand.
    pub fn clone(
        &self,
        domain: &Domain<T>,
        links: &Links<T>,
        local: &mut Local<T>,
    ) -> Result<Queue<T>, CloneRefused<Queue<T>, T>>
    where
        T: Clone,
        requires ready { IsReady local.old domain.now }
        requires queue { IsQueueOf self.now domain.now × AreLinksOf links.now domain.now }
        requires holds { (x y : T) → T.is_clone x y → T.holds y ≡ [] }
        ensures queue { IfOk result (λ q. IsQueueOf q domain.now) }
        ensures unmade { IfErr result (λ e. IfUncopied e (λ why. why ≡ NotMade.NoCell)) }
        ensures built { IfErr result (λ e. IfPartlyCopied e (λ q _. IsQueueOf q domain.now)) }
        ensures partly { IfErr result (λ e. IfPartlyCopied e (λ _ why. IsNotCloned why T.is_clone T.is_infallible (place_of domain.now).0)) }
        ensures same { IsAsBefore local.old local.new }
    {
        let Some(copy) = Queue::new(domain, local) else {
            return Err(CloneRefused::Unmade(NotMade::NoCell));
        };
        match self.front.copy_into(domain, &copy.front, links, local) {
            Ok(()) => Ok(copy),
            Err(why) => Err(CloneRefused::Partly(copy, why)),
        }
    }

    /// Whether it has no item, as it is found in one step. One that was popped may still be found.
    pub fn is_empty(&self, domain: &Domain<T>, local: &mut Local<T>) -> bool
        requires home { home_of local.old ≡ place_of domain.now }
        requires queue { IsQueueOf self.now domain.now }
        ensures looked { (t : ℕ) × (k : ℕ) × HasReadCell local.old (cell_number self.now.front.first) t k local.new × (IsTrue result ↔ (k ≡ 0)) }
        ensures same { IsInNest local.old local.new × (own_of local.new ≡ own_of local.old) }
    {
        self.front.is_empty(domain, local)
    }

    /// The first item, or nothing. One that was popped it takes out first, and tries again.
    pub fn peek<'g>(
        &self,
        domain: &Domain<T>,
        links: &Links<T>,
        guard: &'g Guard,
        local: &mut Local<T>,
    ) -> Ptr<'g, T>
        requires open { IsOpenIn guard.now local.old domain.now }
        requires queue { IsQueueOf self.now domain.now × AreLinksOf links.now domain.now }
        ensures same { IsStill local.old local.new }
    {
        self.front.first_item(domain, links, guard, local)
    }

    /// Calls `f` once with the first item, or none, and gives what it answers. A guard is open meanwhile.
    pub fn peek_with<R, F: FnOnce(Option<&T>) -> R>(
        &self,
        domain: &Domain<T>,
        f: F,
        links: &Links<T>,
        local: &mut Local<T>,
    ) -> R
        requires ready { IsReady local.old domain.now }
        requires queue { IsQueueOf self.now domain.now × AreLinksOf links.now domain.now }
        requires callable { F.IsAlwaysCallable f }
        ensures asked { Said (F.post f) result }
        ensures same { IsAsBefore local.old local.new }
    {
        self.front.peek_with(domain, f, links, local)
    }

    /// A walk along its items, from the first one on, under a guard. It ends where the item that it is at is taken out.
    pub fn iter<'g>(
        &self,
        domain: &Domain<T>,
        links: &Links<T>,
        guard: &'g Guard,
        local: &mut Local<T>,
    ) -> Iter<'g, T>
        requires open { IsOpenIn guard.now local.old domain.now }
        requires queue { IsQueueOf self.now domain.now × AreLinksOf links.now domain.now }
        ensures most { left_of result ≡ slot_count domain.now }
        ensures same { IsStill local.old local.new }
    {
        self.front.iter(domain, links, guard, local)
    }

    /// Calls `f` with each item of an `iter`, under a guard of its own.
    pub fn for_each<F: FnMut(&T)>(
        &self,
        domain: &Domain<T>,
        f: F,
        links: &Links<T>,
        local: &mut Local<T>,
    )
        requires ready { IsReady local.old domain.now }
        requires queue { IsQueueOf self.now domain.now × AreLinksOf links.now domain.now }
        requires callable { F.IsAlwaysCallable f }
        ensures same { IsAsBefore local.old local.new }
    {
        self.front.for_each(domain, f, links, local);
    }

    /// How many items `for_each` finds.
    pub fn len(&self, domain: &Domain<T>, links: &Links<T>, local: &mut Local<T>) -> usize
        requires ready { IsReady local.old domain.now }
        requires queue { IsQueueOf self.now domain.now × AreLinksOf links.now domain.now }
        ensures same { IsAsBefore local.old local.new }
    {
        self.front.len(domain, links, local)
    }

    /// Puts a value behind all others. If no slot is free it is returned, a miss. The call tries again where others push or
    /// pop; after `2^64 - 1` times it returns the value's owner. Conditions: the value holds no owners, and none is in the participant's hand.
    pub fn push(
        &self,
        domain: &Domain<T>,
        value: T,
        links: &Links<T>,
        local: &mut Local<T>,
    ) -> Result<(), PushRefused<T>>
        requires ready { IsReady local.old domain.now }
        requires queue { IsQueueOf self.now domain.now × AreLinksOf links.now domain.now }
        requires holds { T.holds value ≡ [] }
        ensures put { OnOk result (HasPushedLast local.old self.now links.now value (place_of domain.now).0 local.new) }
        ensures refused { IfErr result (λ r. IsRefused r value (place_of domain.now).0 ⊥ ⊥) }
        ensures same { IsAsBefore local.old local.new }
    {
        let owner = place(domain, value, local)?;
        self.insert(domain, owner, &|_| true, links, local)
    }

    /// The same where `f` answers true of the last item, or of none: it is asked each time that the value might be appended, and
    /// the value is put just behind the item that it was asked of last. If it answers false, the value's owner is returned.
    pub fn push_if<F: Fn(Option<&T>) -> bool>(
        &self,
        domain: &Domain<T>,
        value: T,
        f: F,
        links: &Links<T>,
        local: &mut Local<T>,
    ) -> Result<(), PushRefused<T>>
    where
        F: Drop,
        requires ready { IsReady local.old domain.now }
        requires queue { IsQueueOf self.now domain.now × AreLinksOf links.now domain.now }
        requires holds { T.holds value ≡ [] }
        requires callable { F.IsAlwaysCallable f }
        ensures asked { OnOk result (Said (F.post f) true) }
        ensures put { OnOk result (HasPushedLast local.old self.now links.now value (place_of domain.now).0 local.new) }
        ensures refused { IfErr result (λ r. IsRefused r value (place_of domain.now).0 (Said (F.post f) false) ⊥) }
        ensures same { IsAsBefore local.old local.new }
    {
        let owner = place(domain, value, local)?;
        self.insert(domain, owner, &f, links, local)
    }

    /// Appends an owner's item where `f` answers true.
    fn insert<F: Fn(Option<&T>) -> bool>(
        &self,
        domain: &Domain<T>,
        owner: Shared<T>,
        f: &F,
        links: &Links<T>,
        local: &mut Local<T>,
    ) -> Result<(), PushRefused<T>>
        requires ready { IsReady local.old domain.now }
        requires mine { kept_in owner ≡ (place_of domain.now).0 }
        requires queue { IsQueueOf self.now domain.now × AreLinksOf links.now domain.now }
        requires callable { F.IsAlwaysCallable f.now }
        ensures asked { OnOk result (Said (F.post f.now) true) }
        ensures put { OnOk result (HasAppendedClear local.old self.now links.now owner local.new) }
        ensures refused { (x : T) → IsOwnerOf owner x → IfErr result (λ r. IsRefused r x (place_of domain.now).0 (Said (F.post f.now) false) ⊥) }
        ensures same { IsAsBefore local.old local.new }
    {
        let Some(link) = links.at(owner.slot()) else {
            return Err(PushRefused::Busy(owner));
        };
        // The link still has the tag that the slot's item before it was popped by.
        follow(domain, link, None, local);
        let mut owner = owner;
        for _i in 0..TRIES {
            match self.try_push(domain, owner, f, links, local) {
                Pushed::Done => return Ok(()),
                Pushed::Unwanted(back) => return Err(PushRefused::Condition(back)),
                Pushed::Slow(back) => owner = back,
            }
        }
        Err(PushRefused::Busy(owner))
    }

    /// One try.
    fn try_push<F: Fn(Option<&T>) -> bool>(
        &self,
        domain: &Domain<T>,
        owner: Shared<T>,
        f: &F,
        links: &Links<T>,
        local: &mut Local<T>,
    ) -> Pushed<T>
        requires ready { IsReady local.old domain.now }
        requires mine { kept_in owner ≡ (place_of domain.now).0 }
        requires queue { IsQueueOf self.now domain.now × AreLinksOf links.now domain.now }
        requires callable { F.IsAlwaysCallable f.now }
        ensures pushed { IsPushed result owner (place_of domain.now).0 (Said (F.post f.now)) }
        ensures put { IfDone result ((xs : List CellStep) × HasAppended local.old self.now links.now owner xs local.new) }
        ensures some { HasMadeSome local.old local.new }
        ensures same { IsAsBefore local.old local.new }
    {
        let Ok(guard) = Guard::new(domain, local) else {
            unreachable!();
        };
        let section = Section {
            domain,
            links,
            guard: &guard,
        };
        let pushed = self.push_under(&section, owner, f, local);
        guard.close(domain, local);
        pushed
    }

    /// The same under a guard: behind the item near the end, and else behind the first one, or in front.
    fn push_under<F: Fn(Option<&T>) -> bool>(
        &self,
        section: &Section<T>,
        owner: Shared<T>,
        f: &F,
        local: &mut Local<T>,
    ) -> Pushed<T>
        requires open { IsOpenIn section.now.guard.now local.old section.now.domain.now }
        requires mine { kept_in owner ≡ (place_of section.now.domain.now).0 }
        requires queue { IsQueueOf self.now section.now.domain.now }
        requires links { AreLinksOf section.now.links.now section.now.domain.now }
        requires callable { F.IsAlwaysCallable f.now }
        ensures pushed { IsPushed result owner (place_of section.now.domain.now).0 (Said (F.post f.now)) }
        ensures put { IfDone result ((xs : List CellStep) × HasAppended local.old self.now section.now.links.now owner xs local.new) }
        ensures some { HasMadeSome local.old local.new }
        ensures same { IsStill local.old local.new }
    {
        let domain = section.domain;
        let links = section.links;
        let guard = section.guard;
        let near = self.last.load(domain, guard, local);
        let end = end_of(domain, near, links, guard, local);
        if end.is_null() {
            return self.push_from_first(section, owner, f, local);
        }
        self.push_behind(section, end, owner, f, local)
    }

    /// Puts an item behind the last one from the first one on, or in front.
    fn push_from_first<F: Fn(Option<&T>) -> bool>(
        &self,
        section: &Section<T>,
        owner: Shared<T>,
        f: &F,
        local: &mut Local<T>,
    ) -> Pushed<T>
        requires open { IsOpenIn section.now.guard.now local.old section.now.domain.now }
        requires mine { kept_in owner ≡ (place_of section.now.domain.now).0 }
        requires queue { IsQueueOf self.now section.now.domain.now }
        requires links { AreLinksOf section.now.links.now section.now.domain.now }
        requires callable { F.IsAlwaysCallable f.now }
        ensures pushed { IsPushed result owner (place_of section.now.domain.now).0 (Said (F.post f.now)) }
        ensures put { IfDone result ((xs : List CellStep) × HasAppended local.old self.now section.now.links.now owner xs local.new) }
        ensures some { HasMadeSome local.old local.new }
        ensures same { IsStill local.old local.new }
    {
        let domain = section.domain;
        let links = section.links;
        let guard = section.guard;
        let first = self.front.first_item(domain, links, guard, local);
        if first.is_null() {
            if !f(first.as_ref()) {
                return Pushed::Unwanted(owner);
            }
            return self.append(section, &self.front.first, first, owner, local);
        }
        let end = end_of(domain, first, links, guard, local);
        self.push_behind(section, end, owner, f, local)
    }

    /// Takes the first item out, and gives an owner of it. None where it is empty, and after `2^64 - 1` tries, at
    /// each of which others were faster. Condition: no owner is in the participant's hand.
    pub fn pop(
        &self,
        domain: &Domain<T>,
        links: &Links<T>,
        local: &mut Local<T>,
    ) -> Option<Shared<T>>
        requires ready { IsReady local.old domain.now }
        requires queue { IsQueueOf self.now domain.now × AreLinksOf links.now domain.now }
        ensures home { IfSome result (λ s. kept_in s ≡ (place_of domain.now).0) }
        ensures same { IsAsBefore local.old local.new }
        ensures taken { IfSome result (λ s. HasMarkedLink local.old links.now s local.new) }
    {
        self.front.pop(domain, links, local)
    }

    /// The same where `f` answers true of the first item: it is asked once each time that the pop is tried, and what is popped
    /// is just the item that it was asked of last. Where it answers false, another owner of that item is given, and the item
    /// stays where it is. Where another one pops the item meanwhile it is tried again, whatever `f` answered.
    pub fn pop_if<F: Fn(&T) -> bool>(
        &self,
        domain: &Domain<T>,
        f: F,
        links: &Links<T>,
        local: &mut Local<T>,
    ) -> Result<Option<Shared<T>>, Shared<T>>
    where
        F: Drop,
        requires ready { IsReady local.old domain.now }
        requires queue { IsQueueOf self.now domain.now × AreLinksOf links.now domain.now }
        requires callable { F.IsAlwaysCallable f }
        ensures popped { IfOk result (λ o. IfSome o (λ s. (kept_in s ≡ (place_of domain.now).0) × Said (F.post f) true)) }
        ensures kept { IfErr result (λ s. (kept_in s ≡ (place_of domain.now).0) × Said (F.post f) false) }
        ensures same { IsAsBefore local.old local.new }
        ensures taken { IfOk result (λ o. IfSome o (λ s. HasMarkedLink local.old links.now s local.new)) }
    {
        self.front.pop_if(domain, f, links, local)
    }

    /// Releases its items, and gives its cells back.
    pub fn end(self, domain: &Domain<T>, links: &Links<T>, local: &mut Local<T>)
        requires ready { IsReady local.old domain.now }
        requires queue { IsQueueOf self domain.now × AreLinksOf links.now domain.now }
        ensures same { IsAsBefore local.old local.new }
    {
        let Queue { front, last } = self;
        front.end(domain, links, local);
        last.retire(domain, local);
    }
}

/// The last item from one on along the links: nothing where that was popped, and of nothing.
fn end_of<'g, T: Holds>(
    domain: &Domain<T>,
    from: Ptr<'g, T>,
    links: &Links<T>,
    guard: &'g Guard,
    local: &mut Local<T>,
) -> Ptr<'g, T>
    requires open { IsOpenIn guard.now local.old domain.now }
    requires links { AreLinksOf links.now domain.now }
    ensures walked { IfSome (ptr_slot result) (λ k. HasWalked local.old links.now (ptr_slot from.entry) k local.new) }
    ensures some { HasMadeSome local.old local.new }
    ensures same { IsStill local.old local.new }
{
    let mut at = from;
    for _i in 0..domain.slots() {
        let Some(slot) = at.slot() else {
            return Ptr::null();
        };
        let Some(link) = links.at(slot) else {
            return Ptr::null();
        };
        let next = link.load(domain, guard, local);
        if next.is_null() && next.tag() == Tag::None {
            return at;
        }
        at = next;
    }
    Ptr::null()
}
