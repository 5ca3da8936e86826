//! Owners of the items of a place that threads share.

ghost use Rattle.std.specs.Prelude.{◌≡◌, ◌+◌, ◌^◌, ◌<◌, ◌∷◌, [], ◌||◌, true, Some, IsSome, IsSomeAnd, IfSome, IsTrue, IsFalse, IfOk, IfErr, OnOk, OnErr};
ghost use Rattle.domain_table.specs.Views.{holding};
ghost use Rattle.domain_table.specs.Owners.{item_in};

use crate::board::Told;
use crate::domain::Domain;
use crate::guard::Guard;
use crate::held::Held;
use crate::holds::Holds;
use crate::local::Local;
use crate::pointer::{Loaded, Ptr};
use domain_table::aim::Retire;
use domain_table::board::{Acting, Stored};
use domain_table::leases::seen_like;
use domain_table::loading::lease_own;
use domain_table::owners::{clone, own_leased, part_with, release, take_in};
use domain_table::placing::{place_item, place_made};
use parted::{Calm, One};
use sdd_plain::refusal::NoSlot;

/// One of the owners of an item, which stays, as it is, while it has owners. It must be consumed by `release`. Whoever
/// has it reads the item, without any step on a word of the place.
pub struct Shared<T> {
    pub(crate) slot: usize,
    pub(crate) part: One<Stored<T>>,
    pub(crate) calm: Calm<Acting>,
    ghost owns: { calm.badge.views ≡ holding (record { item = item_in calm.badge.views; slot = slot; round = part.part.life.id }) ∷ [] },
    ghost there: { IsSome part.part.seen.value },
    ghost low: { slot + 1 < 2 ^ 31 },
}

impl<T: Holds> Shared<T> {
    ghost use Rattle.sdd_domain.specs.Comparing.{owner_slot};
    ghost use Rattle.sdd_domain.specs.Pointers.{ptr_slot, ptr_item, IsLoadedOf};
    ghost use Rattle.sdd_domain.specs.Tokens.{place_of, home_of, own_of, hand_of, born_of, waiting_of, misses_of, number_of, nest_of, nest_in, IsInNest, IsSameButHand, IsSameButHandAndMisses, IsUnchanged, IsUnchangedButMisses};
    ghost use Rattle.sdd_domain.specs.CellSteps.{StepsOnNoCell};
    ghost use Rattle.sdd_domain.specs.Holding.{told_of, IsHeldOf};
    ghost use Rattle.sdd_domain.specs.Sharing.{kept_in, IsOwnerOf};

    /// Places an item in a free slot, and gives its first owner. If each slot was taken when it was tried, the item
    /// is returned, which is a miss of the participant. The item holds all owners that are in the participant's hand, and no
    /// other one. It takes no memory.
    pub fn new(domain: &Domain<T>, item: T, local: &mut Local<T>) -> Result<Shared<T>, T>
        requires home { home_of local.old ≡ place_of domain.now }
        requires holds { T.holds item ≡ hand_of local.old }
        ensures home { IfOk result (λ s. kept_in s ≡ (place_of domain.now).0) }
        ensures item { IfOk result (λ s. IsOwnerOf s item) }
        ensures refused { IfErr result (λ back. back ≡ item) }
        ensures bare { OnOk result (hand_of local.new ≡ []) }
        ensures hand { OnErr result (hand_of local.new ≡ hand_of local.old) }
        ensures hit { OnOk result (misses_of local.new ≡ misses_of local.old) }
        ensures missed { OnErr result (misses_of local.new ≡ misses_of local.old + 1) }
        ensures same { IsSameButHandAndMisses local.old local.new }
        ensures cells { StepsOnNoCell local.old local.new }
    {
        let Local {
            seat,
            next,
            misses,
            ..
        } = local;
        let place = domain.place();
        let (slot, part) = place_item(place, seat, *next, item, misses)?;
        *next = slot + 1;
        let calm = part_with(place.words, seat);
        Ok(Shared { slot, part, calm })
    }

    /// Places what `f` gives, as [`new`](Shared::new) does with an item that is there: `f` is called once a slot is claimed
    /// for it. Where each slot was taken when it was tried, it isn't called, and that is a miss of the participant.
    pub fn new_with<F: FnOnce() -> T + Drop>(
        domain: &Domain<T>,
        f: F,
        local: &mut Local<T>,
    ) -> Result<Shared<T>, NoSlot>
        requires home { home_of local.old ≡ place_of domain.now }
        requires callable { F.pre f }
        requires holds { (item : T) → F.post f item → T.holds item ≡ hand_of local.old }
        ensures home { IfOk result (λ s. kept_in s ≡ (place_of domain.now).0) }
        ensures item { IfOk result (λ s. (item : T) × F.post f item × IsOwnerOf s item) }
        ensures bare { OnOk result (hand_of local.new ≡ []) }
        ensures hand { OnErr result (hand_of local.new ≡ hand_of local.old) }
        ensures hit { OnOk result (misses_of local.new ≡ misses_of local.old) }
        ensures missed { OnErr result (misses_of local.new ≡ misses_of local.old + 1) }
        ensures same { IsSameButHandAndMisses local.old local.new }
        ensures cells { StepsOnNoCell local.old local.new }
    {
        let (seat, from, misses) = (&mut local.seat, local.next, &mut local.misses);
        let place = domain.place();
        let (slot, part) = place_made(place, seat, from, f, misses)?;
        local.next = slot + 1;
        let calm = part_with(place.words, seat);
        Ok(Shared { slot, part, calm })
    }

    /// The item.
    pub fn as_ref(&self) -> &T
        ensures { IsOwnerOf self.now result.now }
    {
        match self.part.get() {
            Some(item) => item,
            None => unreachable!(),
        }
    }

    /// The slot of the item, below the place's count of them. No other item is in it while this one has an owner.
    pub fn slot(&self) -> usize
        ensures { Some result ≡ owner_slot (Some self.now) }
    {
        self.slot
    }

    /// One more owner of the item, beside this one: in Rust that is `clone(&self)`. Only this one is returned if the item
    /// has `2^32 - 1` owners, or if the participant has only one part of it, which is a miss. It tries again where other
    /// threads change the count of owners at that moment. It takes no memory.
    pub fn clone(
        self,
        domain: &Domain<T>,
        local: &mut Local<T>,
    ) -> Result<(Shared<T>, Shared<T>), Shared<T>>
        requires home { home_of local.old ≡ place_of domain.now }
        requires mine { kept_in self ≡ (place_of domain.now).0 }
        ensures home { IfOk result (λ both. (kept_in both.0 ≡ kept_in self) × (kept_in both.1 ≡ kept_in self)) }
        ensures item { IfOk result (λ both. (x : T) → IsOwnerOf self x → IsOwnerOf both.0 x × IsOwnerOf both.1 x) }
        ensures back { IfErr result (λ back. (kept_in back ≡ kept_in self) × ((x : T) → IsOwnerOf self x → IsOwnerOf back x)) }
        ensures hit { OnOk result (misses_of local.new ≡ misses_of local.old) }
        ensures missed { OnErr result (misses_of local.new ≡ misses_of local.old + 1) }
        ensures same { IsUnchangedButMisses local.old local.new }
        ensures cells { StepsOnNoCell local.old local.new }
    {
        let Shared { slot, part, calm } = self;
        let Local {
            seat,
            number,
            rows,
            misses,
            ..
        } = local;
        let place = domain.place();
        take_in(place.words, seat, calm);
        match clone(place, seat, *number, rows, slot, misses) {
            Some(more) => {
                let calm = part_with(place.words, seat);
                let other = part_with(place.words, seat);
                let like = One::from_part(part.part.like(more.into_part()));
                let both = Shared { slot, part, calm };
                Ok((
                    both,
                    Shared {
                        slot,
                        part: like,
                        calm: other,
                    },
                ))
            }
            None => {
                let calm = part_with(place.words, seat);
                Err(Shared { slot, part, calm })
            }
        }
    }

    /// One more owner of the item that the participant has leased in `slot`. None where it has leased none there, where that
    /// is retired or has `2^32 - 1` owners, or where the participant has only one part of it.
    pub(crate) fn of_leased(
        domain: &Domain<T>,
        slot: usize,
        local: &mut Local<T>,
    ) -> Option<Shared<T>>
        requires home { home_of local.old ≡ place_of domain.now }
        ensures home { IfSome result (λ s. kept_in s ≡ (place_of domain.now).0) }
        ensures slot { IfSome result (λ s. s.slot ≡ slot) }
        ensures same { IsUnchanged local.old local.new }
        ensures cells { StepsOnNoCell local.old local.new }
    {
        let Local { seat, rows, .. } = local;
        let place = domain.place();
        let part = own_leased(place, seat, rows, slot)?;
        let calm = part_with(place.words, seat);
        Some(Shared { slot, part, calm })
    }

    /// An owner of the item that a pointer is to, as `Ptr::get_shared` gives it; else the pointer.
    pub fn try_from<'g>(
        domain: &Domain<T>,
        pointer: Ptr<'g, T>,
        local: &mut Local<T>,
    ) -> Result<Shared<T>, Ptr<'g, T>>
        requires home { home_of local.old ≡ place_of domain.now }
        ensures home { IfOk result (λ s. kept_in s ≡ (place_of domain.now).0) }
        ensures exact { IfOk result (λ s. owner_slot (Some s) ≡ ptr_slot pointer.entry) }
        ensures back { IfErr result (λ back. back ≡ pointer.entry) }
        ensures same { IsUnchanged local.old local.new }
        ensures cells { StepsOnNoCell local.old local.new }
    {
        match pointer.get_shared(domain, local) {
            Some(owner) => Ok(owner),
            None => Err(pointer),
        }
    }

    /// The item as a pointer, without a tag, for as long as the guard is borrowed: it stays so long, even where this owner is
    /// released. In Rust that is `get_guarded_ptr(&self)`.
    pub fn get_guarded_ptr<'g>(
        self,
        domain: &Domain<T>,
        guard: &'g Guard,
        local: &mut Local<T>,
    ) -> (Shared<T>, Ptr<'g, T>)
        requires home { home_of local.old ≡ place_of domain.now }
        requires mine { kept_in self ≡ (place_of domain.now).0 }
        requires nest { nest_of guard.now ≡ nest_in local.old }
        requires open { 0 < (own_of local.old).nesting }
        ensures home { kept_in result.0 ≡ kept_in self }
        ensures item { (x : T) → IsOwnerOf self x → IsOwnerOf result.0 x }
        ensures exact { ptr_slot result.1 ≡ owner_slot (Some self) }
        ensures same_item { (x : T) → IsOwnerOf self x → ptr_item result.1 ≡ Some x }
        ensures same { IsUnchanged local.old local.new }
        ensures cells { StepsOnNoCell local.old local.new }
    {
        let (owner, loaded) = self.loaded(domain, local);
        (owner, loaded.under(guard))
    }

    /// The item, for as long. In Rust that is `get_guarded_ref(&self)`.
    pub fn get_guarded_ref<'g>(
        self,
        domain: &Domain<T>,
        guard: &'g Guard,
        local: &mut Local<T>,
    ) -> (Shared<T>, &'g T)
        requires home { home_of local.old ≡ place_of domain.now }
        requires mine { kept_in self ≡ (place_of domain.now).0 }
        requires nest { nest_of guard.now ≡ nest_in local.old }
        requires open { 0 < (own_of local.old).nesting }
        ensures home { kept_in result.0 ≡ kept_in self }
        ensures item { (x : T) → IsOwnerOf self x → IsOwnerOf result.0 x }
        ensures same_item { (x : T) → IsOwnerOf self x → result.1.now ≡ x }
        ensures same { IsUnchanged local.old local.new }
        ensures cells { StepsOnNoCell local.old local.new }
    {
        let (owner, loaded) = self.loaded(domain, local);
        match loaded.as_ref(guard) {
            Some(item) => (owner, item),
            None => unreachable!(),
        }
    }

    /// The same without a borrow of the guard.
    fn loaded(self, domain: &Domain<T>, local: &mut Local<T>) -> (Shared<T>, Loaded<T>)
        requires home { home_of local.old ≡ place_of domain.now }
        requires mine { kept_in self ≡ (place_of domain.now).0 }
        requires open { 0 < (own_of local.old).nesting }
        ensures home { kept_in result.0 ≡ kept_in self }
        ensures item { (x : T) → IsOwnerOf self x → IsOwnerOf result.0 x }
        ensures seen { IsSomeAnd result.1.seen (λ s. (number_of local.old, s.life) ≡ nest_in local.old) }
        ensures slot { result.1.slot ≡ self.slot }
        ensures same_item { (x : T) → IsOwnerOf self x → IsLoadedOf result.1 x }
        ensures same { IsUnchanged local.old local.new }
        ensures cells { StepsOnNoCell local.old local.new }
    {
        let Shared { slot, part, calm } = self;
        let Local {
            seat,
            number,
            life,
            rows,
            ..
        } = local;
        let Some(life) = life else { unreachable!() };
        let place = domain.place();
        take_in(place.words, seat, calm);
        let at = lease_own(place, seat, *number, rows, life, slot);
        let calm = part_with(place.words, seat);
        let seen = seen_like(rows, at, &part);
        let loaded = Loaded {
            slot,
            seen: Some(seen),
        };
        (Shared { slot, part, calm }, loaded)
    }

    /// Takes the owner into the participant's hand, for an item to hold: the next one that is placed holds it, and all
    /// others in hand, behind it.
    pub fn hold(self, domain: &Domain<T>, local: &mut Local<T>) -> Held<T>
        requires home { home_of local.old ≡ place_of domain.now }
        requires mine { kept_in self ≡ (place_of domain.now).0 }
        ensures hand { hand_of local.new ≡ told_of result ∷ hand_of local.old }
        ensures item { (x : T) → IsOwnerOf self x → IsHeldOf result x }
        ensures same { IsSameButHand local.old local.new }
        ensures cells { StepsOnNoCell local.old local.new }
    {
        let Shared { slot, part, calm } = self;
        take_in(domain.words(), &mut local.seat, calm);
        Held { slot, part }
    }

    /// Gives the owner back. Whether it was the last one: then the participant has retired the item, which is reclaimed
    /// once no guard can read it, as the participant opens its guards. It takes no memory.
    pub fn release(self, domain: &Domain<T>, local: &mut Local<T>) -> bool
        requires home { home_of local.old ≡ place_of domain.now }
        requires mine { kept_in self ≡ (place_of domain.now).0 }
        ensures last { IsTrue result → waiting_of local.new ≡ waiting_of local.old + 1 }
        ensures more { IsFalse result → waiting_of local.new ≡ waiting_of local.old }
        ensures own { own_of local.new ≡ record (own_of local.old) { garbage = (own_of local.old).garbage || result } }
        ensures same { IsInNest local.old local.new × (born_of local.new ≡ born_of local.old) }
        ensures cells { StepsOnNoCell local.old local.new }
    {
        let Shared { slot, part, calm } = self;
        let Local {
            seat,
            number,
            own,
            bags,
            rows,
            ..
        } = local;
        let place = domain.place();
        take_in(place.words, seat, calm);
        let left = release::<T, Told, Retire>(place, seat, *number, rows, slot, part);
        if left > 0 {
            return false;
        }
        bags.retire(place, seat, slot);
        own.garbage = true;
        true
    }
}
