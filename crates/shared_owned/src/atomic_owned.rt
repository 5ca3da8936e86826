//! Cells of owners that are alone.

ghost use Rattle.std.specs.Prelude.{◌≡◌, ◌<◌, ◌+◌, ◌↔◌, ℕ, Bool, true, false, [], Some, IsTrue, IsFalse, IfSome, IfOk, IfErr, OnOk, OnErr};
ghost use Rattle.shared_owned.specs.Alone.{owner_in};

use crate::owned::Owned;
use crate::pointer::OwnedPtr;
use sdd_domain::atomic_shared::AtomicShared;
use sdd_domain::domain::Domain;
use sdd_domain::guard::Guard;
use sdd_domain::holds::Holds;
use sdd_domain::local::Local;
use sdd_domain::pointer::{Named, Ptr};
use sdd_domain::shared::Shared;
use sdd_plain::refusal::NoSlot;
use sdd_plain::tag::Tag;

/// A cell of a place: it has the one owner of an item, or nothing, and a tag of two bits. Its type tells which items its place
/// has.
pub struct AtomicOwned<T> {
    pub(crate) cell: AtomicShared<T>,
}

/// The `Shared` inside an optional `Owned`.
fn any<T>(owned: Option<Owned<T>>) -> Option<Shared<T>>
    ensures { result ≡ owner_in owned }
{
    match owned {
        Some(Owned { owner }) => Some(owner),
        None => None,
    }
}

/// Rewraps the owner of an `AtomicOwned`: it is the sole owner.
fn alone<T>(owner: Option<Shared<T>>) -> Option<Owned<T>>
    ensures { owner_in result ≡ owner }
{
    match owner {
        Some(owner) => Some(Owned { owner }),
        None => None,
    }
}

impl<T: Holds> AtomicOwned<T> {
    ghost use Rattle.sdd_plain.specs.Epochs.{tag_number};
    ghost use Rattle.sdd_domain.specs.CellSteps.{StepsOnNoCell, HasReadCell, HasExchanged, HasReadOften, HasEmptiedAtMost};
    ghost use Rattle.sdd_domain.specs.Comparing.{code_of, HasFoundPtrLast, HasSwappedCell, HasTagged};
    ghost use Rattle.sdd_domain.specs.Pointers.{named_slot, named_tag};
    ghost use Rattle.sdd_domain.specs.Tokens.{place_of, home_of, number_of, own_of, hand_of, born_of, misses_of, nest_of, nest_in, IsInNestButMisses, IsInNestButGarbage, IsUnchanged, IsUnchangedButMisses};
    ghost use Rattle.shared_owned.specs.Alone.{IsCellOf, HasKeptTag, cell_of, place_in, sole_slot, sole_code, IsSoleBack, pointer_slot, pointer_tag};
    ghost use Rattle.shared_owned.specs.declared.pointer.OwnedPtr.{OwnedPtr};

    /// Claims a free cell of the place, trying each once: it owns nothing and has no tag. `NoSlot` if all are taken, which is
    /// a miss of the participant. The cell must be consumed by `into_owned` or `retire`.
    pub fn null(domain: &Domain<T>, local: &mut Local<T>) -> Result<AtomicOwned<T>, NoSlot>
        ensures cell { IfOk result (λ c. IsCellOf c domain.now) }
        ensures hit { IfOk result (λ c. misses_of local.new ≡ misses_of local.old) }
        ensures missed { OnErr result (misses_of local.new ≡ misses_of local.old + 1) }
        ensures same { IsUnchangedButMisses local.old local.new }
        ensures cells { StepsOnNoCell local.old local.new }
    {
        match AtomicShared::null(domain, local) {
            Ok(cell) => Ok(AtomicOwned { cell }),
            Err(refused) => Err(refused),
        }
    }

    /// A cell with this owner, without a tag. Returns the owner if no cell is free, which is a miss.
    pub fn from(
        domain: &Domain<T>,
        owned: Owned<T>,
        local: &mut Local<T>,
    ) -> Result<AtomicOwned<T>, Owned<T>>
        requires home { home_of local.old ≡ place_of domain.now }
        requires mine { place_in owned ≡ (place_of domain.now).0 }
        ensures cell { IfOk result (λ c. IsCellOf c domain.now) }
        ensures refused { IfErr result (λ back. back ≡ owned) }
        ensures hit { OnOk result (misses_of local.new ≡ misses_of local.old) }
        ensures missed { OnErr result (misses_of local.new ≡ misses_of local.old + 1) }
        ensures same { IsInNestButMisses local.old local.new × (born_of local.new ≡ born_of local.old) }
        ensures own { (flag : Bool) × (own_of local.new ≡ record (own_of local.old) { garbage = flag }) }
        ensures put { IfOk result (λ c. (t : ℕ) × (k : ℕ) × HasExchanged local.old (cell_of c) t k 0 (sole_code (Some owned)) local.new) }
        ensures cells { OnErr result (StepsOnNoCell local.old local.new) }
    {
        let Owned { owner } = owned;
        match AtomicShared::from(domain, owner, local) {
            Ok(cell) => Ok(AtomicOwned { cell }),
            Err(owner) => Err(Owned { owner }),
        }
    }

    /// A cell with the owner of a new item, without a tag. Returns the item if no cell or no slot is free, which is a
    /// miss. Condition: it holds just the owners that are in the participant's hand.
    pub fn new(domain: &Domain<T>, item: T, local: &mut Local<T>) -> Result<AtomicOwned<T>, T>
        requires home { home_of local.old ≡ place_of domain.now }
        requires holds { T.holds item ≡ hand_of local.old }
        ensures cell { IfOk result (λ c. IsCellOf c domain.now) }
        ensures refused { IfErr result (λ back. back ≡ item) }
        ensures bare { OnOk result (hand_of local.new ≡ []) }
        ensures hand { OnErr result (hand_of local.new ≡ hand_of local.old) }
        ensures hit { OnOk result (misses_of local.new ≡ misses_of local.old) }
        ensures missed { OnErr result (misses_of local.new ≡ misses_of local.old + 1) }
        ensures nest { nest_in local.new ≡ nest_in local.old }
        ensures home { (home_of local.new ≡ home_of local.old) × (number_of local.new ≡ number_of local.old) }
        ensures own { (flag : Bool) × (own_of local.new ≡ record (own_of local.old) { garbage = flag }) }
        ensures put { IfOk result (λ c. (t : ℕ) × (k : ℕ) × (slot : ℕ) × HasExchanged local.old (cell_of c) t k 0 (slot + 1) local.new) }
        ensures cells { OnErr result (HasEmptiedAtMost local.old local.new) }
    {
        match AtomicShared::new(domain, item, local) {
            Ok(cell) => Ok(AtomicOwned { cell }),
            Err(item) => Err(item),
        }
    }

    /// Whether the cell owns nothing, as it is found in one step.
    pub fn is_null(&self, domain: &Domain<T>, local: &mut Local<T>) -> bool
        requires home { home_of local.old ≡ place_of domain.now }
        requires cell { IsCellOf self.now domain.now }
        ensures looked { (t : ℕ) × (k : ℕ) × HasReadCell local.old (cell_of self.now) t k local.new × (IsTrue result ↔ (k ≡ 0)) }
        ensures same { IsUnchanged local.old local.new }
    {
        self.cell.is_null(domain, local)
    }

    /// The tag of the cell, as it is found in one step.
    pub fn tag(&self, domain: &Domain<T>, local: &mut Local<T>) -> Tag
        requires home { home_of local.old ≡ place_of domain.now }
        requires cell { IsCellOf self.now domain.now }
        ensures looked { (k : ℕ) × HasReadCell local.old (cell_of self.now) (tag_number result) k local.new }
        ensures same { IsUnchanged local.old local.new }
    {
        self.cell.tag(domain, local)
    }

    /// What the cell names and its tag, as both are found in one step. The item stays, as it is, until the outermost guard
    /// closes, whatever other threads do with the cell.
    pub fn load<'g>(
        &self,
        domain: &Domain<T>,
        guard: &'g Guard,
        local: &mut Local<T>,
    ) -> OwnedPtr<'g, T>
        requires home { home_of local.old ≡ place_of domain.now }
        requires nest { nest_of guard.now ≡ nest_in local.old }
        requires open { 0 < (own_of local.old).nesting }
        requires cell { IsCellOf self.now domain.now }
        ensures same { IsUnchanged local.old local.new }
        ensures looked { HasReadCell local.old (cell_of self.now) (tag_number (pointer_tag result)) (code_of (pointer_slot result)) local.new }
    {
        OwnedPtr {
            of: self.cell.load(domain, guard, local),
        }
    }

    /// Swaps what the cell owns and its tag, in one step: the owner and the tag go into it, and those that it had come
    /// out.
    pub fn swap(
        &self,
        domain: &Domain<T>,
        new: (Option<Owned<T>>, Tag),
        local: &mut Local<T>,
    ) -> (Option<Owned<T>>, Tag)
        requires home { home_of local.old ≡ place_of domain.now }
        requires cell { IsCellOf self.now domain.now }
        requires mine { IfSome new.0 (λ o. place_in o ≡ (place_of domain.now).0) }
        ensures home { IfSome result.0 (λ o. place_in o ≡ (place_of domain.now).0) }
        ensures same { IsUnchanged local.old local.new }
        ensures exchanged { HasSwappedCell local.old (cell_of self.now) (owner_in result.0, result.1) (owner_in new.0, new.1) local.new }
    {
        let (owned, tag) = new;
        let (old, found) = self.cell.swap(domain, (any(owned), tag), local);
        (alone(old), found)
    }

    /// Swaps what the cell owns and its tag for `new`, in one step, where it names the item of `current`, or nothing where
    /// that is to nothing, and has its tag: the owner that it had comes out, and with it what the cell names from then on.
    /// Else the cell stays as it is, and the call returns the owner with the pointer that was found. It is one try: where other
    /// threads change the cell during the call, it may be refused though the cell was as `current` before and is so again.
    /// It takes no memory.
    pub fn compare_exchange<'g>(
        &self,
        domain: &Domain<T>,
        current: OwnedPtr<T>,
        new: (Option<Owned<T>>, Tag),
        guard: &'g Guard,
        local: &mut Local<T>,
    ) -> Result<(Option<Owned<T>>, Named), (Option<Owned<T>>, OwnedPtr<'g, T>)>
        requires home { home_of local.old ≡ place_of domain.now }
        requires nest { nest_of guard.now ≡ nest_in local.old }
        requires open { 0 < (own_of local.old).nesting }
        requires cell { IsCellOf self.now domain.now }
        requires mine { IfSome new.0 (λ o. place_in o ≡ (place_of domain.now).0) }
        ensures home { IfOk result (λ r. IfSome r.0 (λ o. place_in o ≡ (place_of domain.now).0)) }
        ensures exact { IfOk result (λ r. sole_slot r.0 ≡ pointer_slot current.entry) }
        ensures stands { IfOk result (λ r. (named_slot r.1 ≡ sole_slot new.0) × (named_tag r.1 ≡ new.1)) }
        ensures back { IfErr result (λ r. IsSoleBack new.0 r.0) }
        ensures same { IsUnchanged local.old local.new }
        ensures exchanged { IfOk result (λ r. HasSwappedCell local.old (cell_of self.now) (owner_in r.0, pointer_tag current.entry) (owner_in new.0, new.1) local.new) }
        ensures looked { IfErr result (λ r. HasReadCell local.old (cell_of self.now) (tag_number (pointer_tag r.1)) (code_of (pointer_slot r.1)) local.new) }
    {
        let (owned, tag) = new;
        let new = (any(owned), tag);
        match self
            .cell
            .compare_exchange(domain, current.of, new, guard, local)
        {
            Ok((old, named)) => Ok((alone(old), named)),
            Err((back, of)) => Err((alone(back), OwnedPtr { of })),
        }
    }

    /// As `compare_exchange`: it fails for no other reason.
    pub fn compare_exchange_weak<'g>(
        &self,
        domain: &Domain<T>,
        current: OwnedPtr<T>,
        new: (Option<Owned<T>>, Tag),
        guard: &'g Guard,
        local: &mut Local<T>,
    ) -> Result<(Option<Owned<T>>, Named), (Option<Owned<T>>, OwnedPtr<'g, T>)>
        requires home { home_of local.old ≡ place_of domain.now }
        requires nest { nest_of guard.now ≡ nest_in local.old }
        requires open { 0 < (own_of local.old).nesting }
        requires cell { IsCellOf self.now domain.now }
        requires mine { IfSome new.0 (λ o. place_in o ≡ (place_of domain.now).0) }
        ensures home { IfOk result (λ r. IfSome r.0 (λ o. place_in o ≡ (place_of domain.now).0)) }
        ensures exact { IfOk result (λ r. sole_slot r.0 ≡ pointer_slot current.entry) }
        ensures stands { IfOk result (λ r. (named_slot r.1 ≡ sole_slot new.0) × (named_tag r.1 ≡ new.1)) }
        ensures back { IfErr result (λ r. IsSoleBack new.0 r.0) }
        ensures same { IsUnchanged local.old local.new }
        ensures exchanged { IfOk result (λ r. HasSwappedCell local.old (cell_of self.now) (owner_in r.0, pointer_tag current.entry) (owner_in new.0, new.1) local.new) }
        ensures looked { IfErr result (λ r. HasReadCell local.old (cell_of self.now) (tag_number (pointer_tag r.1)) (code_of (pointer_slot r.1)) local.new) }
    {
        self.compare_exchange(domain, current, new, guard, local)
    }

    /// Sets the tag, in one step, where `f` answers true of the pointer that is found: whether it did. Where other threads
    /// changed the cell since that pointer was loaded it tries again, and asks anew; after `2^64` times it stops, and
    /// answers false. What the cell owns stays.
    pub fn update_tag_if<'g, F: Fn(OwnedPtr<'g, T>) -> bool>(
        &self,
        domain: &Domain<T>,
        tag: Tag,
        f: F,
        guard: &'g Guard,
        local: &mut Local<T>,
    ) -> bool
    where
        T: 'g,
        requires home { home_of local.old ≡ place_of domain.now }
        requires nest { nest_of guard.now ≡ nest_in local.old }
        requires open { 0 < (own_of local.old).nesting }
        requires cell { IsCellOf self.now domain.now }
        requires callable { F.IsAlwaysCallable f }
        ensures asked { (r : OwnedPtr T) × (b : Bool) × F.post f r b × (IsTrue result → IsTrue b) }
        ensures same { IsUnchanged local.old local.new }
        ensures set { IsTrue result → (r : OwnedPtr T) × F.post f r true × HasTagged local.old (cell_of self.now) r.of tag local.new }
        ensures kept { IsFalse result → HasKeptTag local.old (cell_of self.now) (λ r. F.post f r false) local.new }
    {
        let ask = |of|
            requires { F.IsAlwaysCallable f }
            ensures { F.post f (record { of = of.entry }) result }
        { f(OwnedPtr { of }) };
        self.cell.update_tag_if(domain, tag, ask, guard, local)
    }

    /// What the cell owned. The cell is the next one's that asks for one.
    pub fn into_owned(self, domain: &Domain<T>, local: &mut Local<T>) -> Option<Owned<T>>
        requires home { home_of local.old ≡ place_of domain.now }
        requires cell { IsCellOf self domain.now }
        ensures home { IfSome result (λ o. place_in o ≡ (place_of domain.now).0) }
        ensures same { IsUnchanged local.old local.new }
        ensures taken { (t : ℕ) × HasExchanged local.old (cell_of self) t (sole_code result) 0 0 local.new }
    {
        let AtomicOwned { cell } = self;
        alone(cell.into_shared(domain, local))
    }

    /// Gives the cell back, and retires what it owned. Whether it owned something, which no clause says: see
    /// `Owned::retire`.
    pub fn retire(self, domain: &Domain<T>, local: &mut Local<T>) -> bool
        requires home { home_of local.old ≡ place_of domain.now }
        requires cell { IsCellOf self domain.now }
        ensures same { IsInNestButGarbage result local.old local.new }
        ensures taken { (t : ℕ) × (k : ℕ) × HasExchanged local.old (cell_of self) t k 0 0 local.new }
    {
        let AtomicOwned { cell } = self;
        cell.retire(domain, local)
    }
}
