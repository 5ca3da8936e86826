//! Bags without locks: a row of places for a value each, and a stack for what has no room there.

ghost use Rattle.std.specs.Prelude.{◌≡◌, ◌<◌, ℕ, [], OnOk, IfOk, IfErr, IfNone, IfSome};
ghost use Rattle.sdd_domain.specs.Cells.{cell_number};
ghost use Rattle.sdd_domain.specs.CellSteps.{HasMadeSome};
ghost use Rattle.sdd_domain.specs.Sharing.{kept_in, IsOwnerOf};
ghost use Rattle.sdd_domain.specs.Tokens.{place_of, home_of, own_of, cell_count, IsInNest};
ghost use Rattle.shared_containers.specs.Containers.{AreLinksOf, IsBagOf, IsAsBefore, IsReady, IsOpenIn, IsStill};
ghost use Rattle.shared_containers.specs.Outcomes.{Gives, IfPartly, IfUnmade, IsBackIn, IsRefused, RefusesOne};
ghost use Rattle.shared_containers.specs.Put.{HasFilledLast, HasFilledOneOf, HasPutInto, HasPushedInto, HasPushedIntoPrimary};
ghost use Rattle.shared_containers.specs.Taken.{HasPoppedOf, HasTakenOut, IsCellAt};
ghost use Rattle.std.specs.Iterator.{IsFiniteIterable};

use crate::iter::IntoIter;
use crate::moves::{exchange, place};
use crate::outcome::{FromIterRefused, NotMade, PushRefused};
use crate::stack::Stack;
use sdd_domain::atomic_shared::AtomicShared;
use sdd_domain::domain::Domain;
use sdd_domain::guard::Guard;
use sdd_domain::holds::Holds;
use sdd_domain::local::Local;
use sdd_domain::pointer::Ptr;
use sdd_domain::shared::Shared;
use sdd_plain::tag::Tag;
use shared_lists::moves::TRIES;
use shared_lists::{Links, Row};
use std::alloc::Global;

/// A bag of items of a place, which threads push and pop by `&`, in no order: the primary, `ARRAY_LEN` cells that own an item
/// each, and the overflow, a stack of the others. It must be consumed by `end`.
/// Each item is given out at most once: what a `pop` answers is the owner that the bag had.
pub struct Bag<T, const ARRAY_LEN: usize> {
    primary: Row<T>,
    overflow: Stack<T>,
}

impl<T: Holds, const ARRAY_LEN: usize> Bag<T, ARRAY_LEN> {
    /// An empty bag, which takes `ARRAY_LEN + 1` cells, and memory for their names.
    pub fn new(
        alloc: Global,
        domain: &Domain<T>,
        local: &mut Local<T>,
    ) -> Result<Bag<T, ARRAY_LEN>, NotMade>
        requires home { home_of local.old ≡ place_of domain.now }
        ensures bag { IfOk result (λ b. IsBagOf b domain.now) }
        ensures same { IsAsBefore local.old local.new }
    {
        let primary = Row::new(alloc, domain, ARRAY_LEN, local)?;
        match Stack::new(domain, local) {
            Some(overflow) => Ok(Bag { primary, overflow }),
            None => {
                primary.end(domain, local);
                Err(NotMade::NoCell)
            }
        }
    }

    /// A bag of the values, the first `ARRAY_LEN` of them in the primary. If no empty bag can be made, the values are
    /// returned. If a value is refused, as `push` refuses it, it is returned with the bag of those before it, and the rest of
    /// the values is dropped. Conditions: the values end, they hold no owners, and none is in the participant's hand.
    pub fn from_iter<I: IntoIterator<Item = T>>(
        alloc: Global,
        domain: &Domain<T>,
        values: I,
        links: &Links<T>,
        local: &mut Local<T>,
    ) -> Result<Bag<T, ARRAY_LEN>, FromIterRefused<Bag<T, ARRAY_LEN>, T, I>>
        requires ready { IsReady local.old domain.now }
        requires links { AreLinksOf links.now domain.now }
        requires ends { IsFiniteIterable I.into_iter_gives I.IntoIter.can_next I.IntoIter.remaining values }
        requires holds { (v : T) → Gives I.into_iter_gives I.IntoIter.next_gives values v → T.holds v ≡ [] }
        ensures bag { IfOk result (λ b. IsBagOf b domain.now) }
        ensures unmade { IfErr result (λ e. IfUnmade e (λ _ back. back ≡ values)) }
        ensures built { IfErr result (λ e. IfPartly e (λ b _. IsBagOf b domain.now)) }
        ensures partly { IfErr result (λ e. IfPartly e (λ _ r. RefusesOne I.into_iter_gives I.IntoIter.next_gives values r (place_of domain.now).0)) }
        ensures same { IsAsBefore local.old local.new }
    {
        let bag = match Bag::new(alloc, domain, local) {
            Ok(bag) => bag,
            Err(why) => return Err(FromIterRefused::Unmade(why, values)),
        };
        for value in values {
            match bag.push(domain, value, links, local) {
                Ok(()) => {}
                Err(refused) => return Err(FromIterRefused::Partly(bag, refused)),
            }
        }
        Ok(bag)
    }

    /// How many items it has, as each place of the primary, and then the overflow, is found.
    pub fn len(&self, domain: &Domain<T>, links: &Links<T>, local: &mut Local<T>) -> usize
        requires ready { IsReady local.old domain.now }
        requires bag { IsBagOf self.now domain.now × AreLinksOf links.now domain.now }
        ensures same { IsAsBefore local.old local.new }
    {
        let overflow = self.overflow.len(domain, links, local);
        self.taken(domain, local).saturating_add(overflow)
    }

    /// Whether it has no item, as each place of the primary, and the overflow before, is found.
    pub fn is_empty(&self, domain: &Domain<T>, local: &mut Local<T>) -> bool
        requires home { home_of local.old ≡ place_of domain.now }
        requires bag { IsBagOf self.now domain.now }
        ensures same { IsInNest local.old local.new × (own_of local.new ≡ own_of local.old) }
    {
        self.overflow.is_empty(domain, local) && self.taken(domain, local) == 0
    }

    /// How many places of the primary are taken, each looked at in one step.
    fn taken(&self, domain: &Domain<T>, local: &mut Local<T>) -> usize
        requires home { home_of local.old ≡ place_of domain.now }
        requires bag { IsBagOf self.now domain.now }
        ensures some { HasMadeSome local.old local.new }
        ensures same { IsInNest local.old local.new × (own_of local.new ≡ own_of local.old) }
    {
        let mut taken = 0usize;
        for i in 0..ARRAY_LEN {
            if let Some(cell) = self.primary.at(i) {
                if !cell.is_null(domain, local) {
                    taken = taken.saturating_add(1);
                }
            }
        }
        taken
    }

    /// Puts a value into the primary, or into the overflow where no place was free. If no slot is free it is returned, a miss;
    /// after `2^64 - 1` tries its owner is. Conditions: the value holds no owners, and none is in the participant's hand.
    pub fn push(
        &self,
        domain: &Domain<T>,
        value: T,
        links: &Links<T>,
        local: &mut Local<T>,
    ) -> Result<(), PushRefused<T>>
        requires ready { IsReady local.old domain.now }
        requires bag { IsBagOf self.now domain.now × AreLinksOf links.now domain.now }
        requires holds { T.holds value ≡ [] }
        ensures put { OnOk result (HasPushedInto local.old self.now links.now value (place_of domain.now).0 local.new) }
        ensures refused { IfErr result (λ r. IsRefused r value (place_of domain.now).0 ⊥ ⊥) }
        ensures same { IsAsBefore local.old local.new }
    {
        let owner = place(domain, value, local)?;
        self.insert(domain, owner, links, local)
    }

    /// Puts an owner's item into the primary, or into the overflow where no place was free.
    fn insert(
        &self,
        domain: &Domain<T>,
        owner: Shared<T>,
        links: &Links<T>,
        local: &mut Local<T>,
    ) -> Result<(), PushRefused<T>>
        requires ready { IsReady local.old domain.now }
        requires mine { kept_in owner ≡ (place_of domain.now).0 }
        requires bag { IsBagOf self.now domain.now × AreLinksOf links.now domain.now }
        ensures put { OnOk result (HasPutInto local.old self.now links.now owner local.new) }
        ensures refused { (x : T) → IsOwnerOf owner x → IfErr result (λ r. IsRefused r x (place_of domain.now).0 ⊥ ⊥) }
        ensures same { IsAsBefore local.old local.new }
    {
        match self.keep(domain, owner, local) {
            Some(back) => self.overflow.insert(domain, back, &|_| true, links, local),
            None => Ok(()),
        }
    }

    /// Puts a value into the primary alone. If each of its places is found taken, the value is returned (`Full`), or its
    /// owner if others took the places that were free (`Busy`). Conditions: as those of `push`.
    pub fn try_push(
        &self,
        domain: &Domain<T>,
        value: T,
        local: &mut Local<T>,
    ) -> Result<(), PushRefused<T>>
        requires ready { IsReady local.old domain.now }
        requires bag { IsBagOf self.now domain.now }
        requires holds { T.holds value ≡ [] }
        ensures put { OnOk result (HasPushedIntoPrimary local.old self.now value (place_of domain.now).0 local.new) }
        ensures refused { IfErr result (λ r. IsRefused r value (place_of domain.now).0 ⊥ (Unit {0})) }
        ensures same { IsAsBefore local.old local.new }
    {
        if self.taken(domain, local) >= ARRAY_LEN {
            return Err(PushRefused::Full(value));
        }
        let owner = place(domain, value, local)?;
        match self.keep(domain, owner, local) {
            Some(back) => Err(PushRefused::Busy(back)),
            None => Ok(()),
        }
    }

    /// Puts an owner's item into the primary, unless each place is found taken.
    fn keep(&self, domain: &Domain<T>, owner: Shared<T>, local: &mut Local<T>) -> Option<Shared<T>>
        requires ready { IsReady local.old domain.now }
        requires bag { IsBagOf self.now domain.now }
        requires mine { kept_in owner ≡ (place_of domain.now).0 }
        ensures back { IfSome result (λ s. IsBackIn s owner (place_of domain.now).0) }
        ensures put { IfNone result (HasFilledOneOf local.old self.now.primary owner local.new) }
        ensures some { HasMadeSome local.old local.new }
        ensures same { IsAsBefore local.old local.new }
    {
        let Ok(guard) = Guard::new(domain, local) else {
            unreachable!();
        };
        let back = self.keep_under(domain, owner, &guard, local);
        guard.close(domain, local);
        back
    }

    /// The same under a guard.
    fn keep_under(
        &self,
        domain: &Domain<T>,
        owner: Shared<T>,
        guard: &Guard,
        local: &mut Local<T>,
    ) -> Option<Shared<T>>
        requires open { IsOpenIn guard.now local.old domain.now }
        requires bag { IsBagOf self.now domain.now }
        requires mine { kept_in owner ≡ (place_of domain.now).0 }
        ensures back { IfSome result (λ s. IsBackIn s owner (place_of domain.now).0) }
        ensures put { IfNone result (HasFilledOneOf local.old self.now.primary owner local.new) }
        ensures some { HasMadeSome local.old local.new }
        ensures same { IsStill local.old local.new }
    {
        let mut owner = owner;
        for i in 0..ARRAY_LEN {
            let Some(cell) = self.primary.at(i) else {
                break;
            };
            match fill(domain, cell, owner, guard, local) {
                Some(back) => owner = back,
                None => return None,
            }
        }
        Some(owner)
    }

    /// Takes an item out, of the overflow while that has any, and gives its owner. None where nothing is found, and after
    /// `2^64 - 1` tries. Condition: no owner is in the participant's hand.
    pub fn pop(
        &self,
        domain: &Domain<T>,
        links: &Links<T>,
        local: &mut Local<T>,
    ) -> Option<Shared<T>>
        requires ready { IsReady local.old domain.now }
        requires bag { IsBagOf self.now domain.now × AreLinksOf links.now domain.now }
        ensures home { IfSome result (λ s. kept_in s ≡ (place_of domain.now).0) }
        ensures same { IsAsBefore local.old local.new }
        ensures taken { IfSome result (λ s. HasPoppedOf local.old self.now s local.new) }
    {
        match self.overflow.pop(domain, links, local) {
            Some(owner) => Some(owner),
            None => self.pop_primary(domain, local),
        }
    }

    /// Takes an item out of the primary: each place is swapped with nothing until one had an item.
    fn pop_primary(&self, domain: &Domain<T>, local: &mut Local<T>) -> Option<Shared<T>>
        requires home { home_of local.old ≡ place_of domain.now }
        requires bag { IsBagOf self.now domain.now }
        ensures home { IfSome result (λ s. kept_in s ≡ (place_of domain.now).0) }
        ensures same { IsAsBefore local.old local.new }
        ensures taken { IfSome result (λ s. (i : ℕ) × (cell : ℕ) × IsCellAt self.now.primary i cell × HasTakenOut local.old cell s local.new) }
    {
        for i in 0..ARRAY_LEN {
            let Some(cell) = self.primary.at(i) else {
                break;
            };
            if let Some(owner) = take_from(domain, cell, local) {
                return Some(owner);
            }
        }
        None
    }

    /// The bag, to be taken apart item by item.
    pub fn into_iter(self) -> IntoIter<T, ARRAY_LEN>
        ensures { result.bag ≡ self }
    {
        IntoIter { bag: self }
    }

    /// Pops all items, until nothing is found: each is shown to `f` once, in no order, and released.
    pub fn pop_all<F: FnMut(&T)>(
        &self,
        domain: &Domain<T>,
        mut f: F,
        links: &Links<T>,
        local: &mut Local<T>,
    )
        requires ready { IsReady local.old domain.now }
        requires bag { IsBagOf self.now domain.now × AreLinksOf links.now domain.now }
        requires callable { F.IsAlwaysCallable f }
        ensures same { IsAsBefore local.old local.new }
    {
        for _i in 0..TRIES {
            let Some(owner) = self.pop(domain, links, local) else {
                break;
            };
            f(owner.as_ref());
            owner.release(domain, local);
        }
    }

    /// Releases its items, and gives its cells back.
    pub fn end(self, domain: &Domain<T>, links: &Links<T>, local: &mut Local<T>)
        requires ready { IsReady local.old domain.now }
        requires bag { IsBagOf self domain.now × AreLinksOf links.now domain.now }
        ensures same { IsAsBefore local.old local.new }
    {
        let Bag { primary, overflow } = self;
        overflow.end(domain, links, local);
        primary.end(domain, local);
    }
}

/// Puts an owner's item into a cell, or returns the owner if the cell is found taken.
fn fill<T: Holds>(
    domain: &Domain<T>,
    cell: &AtomicShared<T>,
    owner: Shared<T>,
    guard: &Guard,
    local: &mut Local<T>,
) -> Option<Shared<T>>
    requires open { IsOpenIn guard.now local.old domain.now }
    requires inside { cell_number cell.now < cell_count domain.now }
    requires mine { kept_in owner ≡ (place_of domain.now).0 }
    ensures back { IfSome result (λ s. IsBackIn s owner (place_of domain.now).0) }
    ensures put { IfNone result (HasFilledLast local.old (cell_number cell.now) owner local.new) }
    ensures some { HasMadeSome local.old local.new }
    ensures same { IsStill local.old local.new }
{
    if !cell.is_null(domain, local) {
        return Some(owner);
    }
    exchange(domain, cell, Ptr::null(), owner, guard, local)
}

/// Takes the item out of a cell, if it has one, by a swap with nothing.
fn take_from<T: Holds>(
    domain: &Domain<T>,
    cell: &AtomicShared<T>,
    local: &mut Local<T>,
) -> Option<Shared<T>>
    requires home { home_of local.old ≡ place_of domain.now }
    requires inside { cell_number cell.now < cell_count domain.now }
    ensures home { IfSome result (λ s. kept_in s ≡ (place_of domain.now).0) }
    ensures same { IsStill local.old local.new }
    ensures taken { IfSome result (λ s. HasTakenOut local.old (cell_number cell.now) s local.new) }
    ensures some { HasMadeSome local.old local.new }
{
    if cell.is_null(domain, local) {
        return None;
    }
    let (owner, _) = cell.swap(domain, (None, Tag::None), local);
    owner
}
