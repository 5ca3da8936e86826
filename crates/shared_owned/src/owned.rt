//! Owners that are alone.

ghost use Rattle.std.specs.Prelude.{◌≡◌, ◌+◌, ◌<◌, ◌||◌, [], Some, IfOk, IfErr, OnOk, OnErr, IsTrue, IsFalse};

use crate::pointer::OwnedPtr;
use sdd_domain::domain::Domain;
use sdd_domain::guard::Guard;
use sdd_domain::holds::Holds;
use sdd_domain::local::Local;
use sdd_domain::shared::Shared;
use sdd_plain::refusal::NoSlot;

/// The one owner of an item, which stays, as it is, while it has it. It must be consumed by `retire`, or put into a cell.
pub struct Owned<T> {
    pub(crate) owner: Shared<T>,
}

impl<T: Holds> Owned<T> {
    ghost use Rattle.sdd_domain.specs.CellSteps.{StepsOnNoCell};
    ghost use Rattle.sdd_domain.specs.Tokens.{place_of, home_of, own_of, hand_of, born_of, waiting_of, misses_of, nest_of, nest_in, IsInNest, IsSameButHandAndMisses, IsUnchanged};
    ghost use Rattle.shared_owned.specs.Alone.{place_in, IsSoleOwnerOf, sole_slot, owner_of, pointer_slot, pointer_item};

    /// Places an item in a free slot, and gives its owner. If each slot was taken when it was tried, the item is returned,
    /// which is a miss of the participant. The item holds all owners that are in the participant's hand, and no other one.
    /// It takes no memory.
    pub fn new(domain: &Domain<T>, item: T, local: &mut Local<T>) -> Result<Owned<T>, T>
        requires home { home_of local.old ≡ place_of domain.now }
        requires holds { T.holds item ≡ hand_of local.old }
        ensures home { IfOk result (λ o. place_in o ≡ (place_of domain.now).0) }
        ensures item { IfOk result (λ o. IsSoleOwnerOf o item) }
        ensures refused { IfErr result (λ back. back ≡ item) }
        ensures bare { OnOk result (hand_of local.new ≡ []) }
        ensures hand { OnErr result (hand_of local.new ≡ hand_of local.old) }
        ensures hit { OnOk result (misses_of local.new ≡ misses_of local.old) }
        ensures missed { OnErr result (misses_of local.new ≡ misses_of local.old + 1) }
        ensures same { IsSameButHandAndMisses local.old local.new }
        ensures cells { StepsOnNoCell local.old local.new }
    {
        match Shared::new(domain, item, local) {
            Ok(owner) => Ok(Owned { owner }),
            Err(item) => Err(item),
        }
    }

    /// Places what `f` gives in a free slot, as [`new`](Owned::new) does with an item that is there: `f` is called once a
    /// slot is claimed for it. Where each slot was taken when it was tried, it isn't called, and that is a miss of the
    /// participant.
    pub fn new_with<F: FnOnce() -> T + Drop>(
        domain: &Domain<T>,
        f: F,
        local: &mut Local<T>,
    ) -> Result<Owned<T>, NoSlot>
        requires home { home_of local.old ≡ place_of domain.now }
        requires callable { F.pre f }
        requires holds { (item : T) → F.post f item → T.holds item ≡ hand_of local.old }
        ensures home { IfOk result (λ o. place_in o ≡ (place_of domain.now).0) }
        ensures item { IfOk result (λ o. (item : T) × F.post f item × IsSoleOwnerOf o item) }
        ensures bare { OnOk result (hand_of local.new ≡ []) }
        ensures hand { OnErr result (hand_of local.new ≡ hand_of local.old) }
        ensures hit { OnOk result (misses_of local.new ≡ misses_of local.old) }
        ensures missed { OnErr result (misses_of local.new ≡ misses_of local.old + 1) }
        ensures same { IsSameButHandAndMisses local.old local.new }
        ensures cells { StepsOnNoCell local.old local.new }
    {
        match Shared::new_with(domain, f, local) {
            Ok(owner) => Ok(Owned { owner }),
            Err(NoSlot) => Err(NoSlot),
        }
    }

    /// The item.
    pub fn as_ref(&self) -> &T
        ensures { IsSoleOwnerOf self.now result.now }
    {
        self.owner.as_ref()
    }

    /// The slot of the item, below the place's count of them. No other item is in it while this is its owner.
    pub fn slot(&self) -> usize
        ensures { Some result ≡ sole_slot (Some self.now) }
    {
        self.owner.slot()
    }

    /// The item as a pointer, without a tag, for as long as the guard is borrowed: it stays so long, even where this owner is
    /// retired. In Rust that is `get_guarded_ptr(&self)`.
    pub fn get_guarded_ptr<'g>(
        self,
        domain: &Domain<T>,
        guard: &'g Guard,
        local: &mut Local<T>,
    ) -> (Owned<T>, OwnedPtr<'g, T>)
        requires home { home_of local.old ≡ place_of domain.now }
        requires mine { place_in self ≡ (place_of domain.now).0 }
        requires nest { nest_of guard.now ≡ nest_in local.old }
        requires open { 0 < (own_of local.old).nesting }
        ensures home { place_in result.0 ≡ place_in self }
        ensures item { (x : T) → IsSoleOwnerOf self x → IsSoleOwnerOf result.0 x }
        ensures exact { pointer_slot result.1 ≡ sole_slot (Some self) }
        ensures same_item { (x : T) → IsSoleOwnerOf self x → pointer_item result.1 ≡ Some x }
        ensures same { IsUnchanged local.old local.new }
        ensures cells { StepsOnNoCell local.old local.new }
    {
        let Owned { owner } = self;
        let (owner, of) = owner.get_guarded_ptr(domain, guard, local);
        (Owned { owner }, OwnedPtr { of })
    }

    /// The item, for as long. In Rust that is `get_guarded_ref(&self)`.
    pub fn get_guarded_ref<'g>(
        self,
        domain: &Domain<T>,
        guard: &'g Guard,
        local: &mut Local<T>,
    ) -> (Owned<T>, &'g T)
        requires home { home_of local.old ≡ place_of domain.now }
        requires mine { place_in self ≡ (place_of domain.now).0 }
        requires nest { nest_of guard.now ≡ nest_in local.old }
        requires open { 0 < (own_of local.old).nesting }
        ensures home { place_in result.0 ≡ place_in self }
        ensures item { (x : T) → IsSoleOwnerOf self x → IsSoleOwnerOf result.0 x }
        ensures same_item { (x : T) → IsSoleOwnerOf self x → result.1.now ≡ x }
        ensures same { IsUnchanged local.old local.new }
        ensures cells { StepsOnNoCell local.old local.new }
    {
        let Owned { owner } = self;
        let (owner, item) = owner.get_guarded_ref(domain, guard, local);
        (Owned { owner }, item)
    }

    /// Converts into a `Shared`, which can be cloned.
    pub fn into_shared(self) -> Shared<T>
        ensures { result ≡ owner_of self }
    {
        let Owned { owner } = self;
        owner
    }

    /// Gives the owner back: the participant has retired the item, which is reclaimed once no guard can read it, as the
    /// participant opens its guards. It takes no memory. Whether the item had no other owner, which is always so: that is
    /// no clause.
    pub fn retire(self, domain: &Domain<T>, local: &mut Local<T>) -> bool
        requires home { home_of local.old ≡ place_of domain.now }
        requires mine { place_in self ≡ (place_of domain.now).0 }
        ensures last { IsTrue result → waiting_of local.new ≡ waiting_of local.old + 1 }
        ensures more { IsFalse result → waiting_of local.new ≡ waiting_of local.old }
        ensures own { own_of local.new ≡ record (own_of local.old) { garbage = (own_of local.old).garbage || result } }
        ensures same { IsInNest local.old local.new × (born_of local.new ≡ born_of local.old) }
        ensures cells { StepsOnNoCell local.old local.new }
    {
        let Owned { owner } = self;
        owner.release(domain, local)
    }
}
