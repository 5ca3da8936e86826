//! Cells that own an item, or nothing, and have a tag.

ghost use Rattle.std.specs.Prelude.{◌≡◌, ◌<◌, ◌+◌, ◌↔◌, ℕ, Bool, true, false, [], Some, IsTrue, IsFalse, IfSome, IfNone, IfOk, IfErr, OnOk, OnErr};
ghost use Rattle.sdd_domain.specs.Tokens.{cell_count};

use crate::comparing::{named_by, names, try_exchange, try_tag};
use crate::domain::Domain;
use crate::guard::Guard;
use crate::holds::Holds;
use crate::local::Local;
use crate::pointer::{Loaded, Named, Ptr};
use crate::shared::Shared;
use crate::swapping::swap_owner;
use domain_table::cells::word_of;
use domain_table::loading::slot_named;
use domain_table::tags::tag_in;
use parted::Tally;
use sdd_plain::refusal::NoSlot;
use sdd_plain::tag::Tag;
use std::marker::PhantomData;
use std::sync::atomic::Ordering;

/// Takes a cell that nobody has: each of the place is tried once. Where each was taken when it was tried, that is a miss.
fn take_cell<T: Holds>(domain: &Domain<T>, misses: &mut Tally) -> Option<usize>
    ensures inside { IfSome result (λ c. c < cell_count domain.now) }
    ensures hit { IfSome result (λ c. misses.new.count ≡ misses.old.count) }
    ensures missed { IfNone result (misses.new.count ≡ misses.old.count + 1) }
{
    for cell in 0..domain.sizes.cells {
        if !domain.taken[cell].swap(true, Ordering::SeqCst) {
            return Some(cell);
        }
    }
    misses.raise();
    None
}

/// How often it is tried to set a tag before the last time: each time others may be faster.
const TRIES: u64 = u64::MAX;

/// A cell of a place: it owns an item, or nothing. Its type says which items its place has.
pub struct AtomicShared<T> {
    pub(crate) cell: usize,
    of: PhantomData<T>,
}

impl<T: Holds> AtomicShared<T> {
    ghost use Rattle.sdd_domain.specs.Cells.{cell_number};
    ghost use Rattle.sdd_domain.specs.Comparing.{code_of, owner_code, owner_slot, IsBack, HasFoundPtr, HasKeptTag, HasReadOwner, HasSwappedCell, HasTagged};
    ghost use Rattle.sdd_domain.specs.declared.pointer.Ptr.{Ptr};
    ghost use Rattle.sdd_domain.specs.Pointers.{IsUnder, ptr_slot, ptr_tag, loaded_slot, named_slot, named_tag};
    ghost use Rattle.sdd_domain.specs.Sharing.{kept_in};
    ghost use Rattle.sdd_domain.specs.Tokens.{place_of, home_of, number_of, own_of, hand_of, born_of, misses_of, nest_of, nest_in, IsInNest, IsInNestButMisses, IsInNestButGarbage, IsUnchanged, IsUnchangedButMisses};
    ghost use Rattle.sdd_domain.specs.CellSteps.{StepsOnNoCell, HasReadCell, HasExchanged, HasReadOften, HasCopied, HasEmptiedAtMost};
    ghost use Rattle.sdd_plain.specs.Epochs.{tag_number};

    /// Claims a free cell of the place, trying each once: it owns nothing and has no tag. `NoSlot` if all are taken, which is
    /// a miss of the participant. The cell must be consumed by `into_shared` or `retire`.
    pub fn null(domain: &Domain<T>, local: &mut Local<T>) -> Result<AtomicShared<T>, NoSlot>
        ensures inside { IfOk result (λ c. cell_number c < cell_count domain.now) }
        ensures hit { IfOk result (λ c. misses_of local.new ≡ misses_of local.old) }
        ensures missed { OnErr result (misses_of local.new ≡ misses_of local.old + 1) }
        ensures same { IsUnchangedButMisses local.old local.new }
        ensures cells { StepsOnNoCell local.old local.new }
    {
        match take_cell(domain, &mut local.misses) {
            Some(cell) => Ok(AtomicShared {
                cell,
                of: PhantomData,
            }),
            None => Err(NoSlot),
        }
    }

    /// A cell that owns this item, without a tag. Returns the owner if no cell is free, which is a miss.
    pub fn from(
        domain: &Domain<T>,
        owner: Shared<T>,
        local: &mut Local<T>,
    ) -> Result<AtomicShared<T>, Shared<T>>
        requires home { home_of local.old ≡ place_of domain.now }
        requires mine { kept_in owner ≡ (place_of domain.now).0 }
        ensures inside { IfOk result (λ c. cell_number c < cell_count domain.now) }
        ensures refused { IfErr result (λ back. back ≡ owner) }
        ensures hit { OnOk result (misses_of local.new ≡ misses_of local.old) }
        ensures missed { OnErr result (misses_of local.new ≡ misses_of local.old + 1) }
        ensures same { IsInNestButMisses local.old local.new × (born_of local.new ≡ born_of local.old) }
        ensures own { (flag : Bool) × (own_of local.new ≡ record (own_of local.old) { garbage = flag }) }
        ensures put { IfOk result (λ c. (t : ℕ) × (k : ℕ) × HasExchanged local.old (cell_number c) t k 0 (owner_code (Some owner)) local.new) }
        ensures cells { OnErr result (StepsOnNoCell local.old local.new) }
    {
        let Ok(cell) = AtomicShared::null(domain, local) else {
            return Err(owner);
        };
        cell.put(domain, owner, local);
        Ok(cell)
    }

    /// A cell that owns a new item, without a tag. Returns the item if no cell or no slot is free, which is a miss.
    /// Condition: it holds just the owners that are in the participant's hand.
    pub fn new(domain: &Domain<T>, item: T, local: &mut Local<T>) -> Result<AtomicShared<T>, T>
        requires home { home_of local.old ≡ place_of domain.now }
        requires holds { T.holds item ≡ hand_of local.old }
        ensures inside { IfOk result (λ c. cell_number c < cell_count domain.now) }
        ensures refused { IfErr result (λ back. back ≡ item) }
        ensures bare { OnOk result (hand_of local.new ≡ []) }
        ensures hand { OnErr result (hand_of local.new ≡ hand_of local.old) }
        ensures hit { OnOk result (misses_of local.new ≡ misses_of local.old) }
        ensures missed { OnErr result (misses_of local.new ≡ misses_of local.old + 1) }
        ensures nest { nest_in local.new ≡ nest_in local.old }
        ensures home { (home_of local.new ≡ home_of local.old) × (number_of local.new ≡ number_of local.old) }
        ensures own { (flag : Bool) × (own_of local.new ≡ record (own_of local.old) { garbage = flag }) }
        ensures put { IfOk result (λ c. (t : ℕ) × (k : ℕ) × (slot : ℕ) × HasExchanged local.old (cell_number c) t k 0 (slot + 1) local.new) }
        ensures cells { OnErr result (HasEmptiedAtMost local.old local.new) }
    {
        let Ok(cell) = AtomicShared::null(domain, local) else {
            return Err(item);
        };
        match Shared::new(domain, item, local) {
            Ok(owner) => {
                cell.put(domain, owner, local);
                Ok(cell)
            }
            Err(item) => {
                cell.retire(domain, local);
                Err(item)
            }
        }
    }

    /// A cell of its own with what this one names, as that is found in one step, without a tag: one that owns nothing where
    /// `get_shared` gives none. `NoSlot` if all cells are taken, which is a miss.
    pub fn clone(
        &self,
        domain: &Domain<T>,
        guard: &Guard,
        local: &mut Local<T>,
    ) -> Result<AtomicShared<T>, NoSlot>
        requires home { home_of local.old ≡ place_of domain.now }
        requires mine { nest_of guard.now ≡ nest_in local.old }
        requires open { 0 < (own_of local.old).nesting }
        requires inside { cell_number self.now < cell_count domain.now }
        ensures inside { IfOk result (λ c. cell_number c < cell_count domain.now) }
        ensures hit { IfOk result (λ c. misses_of local.new ≡ misses_of local.old) }
        ensures missed { OnErr result (misses_of local.new ≡ misses_of local.old + 1) }
        ensures same { IsInNestButMisses local.old local.new × (born_of local.new ≡ born_of local.old) }
        ensures own { (flag : Bool) × (own_of local.new ≡ record (own_of local.old) { garbage = flag }) }
        ensures copied { IfOk result (λ c. HasCopied local.old (cell_number self.now) (cell_number c) local.new) }
        ensures cells { OnErr result (StepsOnNoCell local.old local.new) }
    {
        let cell = AtomicShared::null(domain, local)?;
        if let Some(owner) = self.get_shared(domain, guard, local) {
            cell.put(domain, owner, local);
        }
        Ok(cell)
    }

    /// Puts an owner into a cell that was just made. Whoever had the cell before left nothing in it.
    fn put(&self, domain: &Domain<T>, owner: Shared<T>, local: &mut Local<T>)
        requires home { home_of local.old ≡ place_of domain.now }
        requires inside { cell_number self.now < cell_count domain.now }
        requires mine { kept_in owner ≡ (place_of domain.now).0 }
        ensures same { IsInNest local.old local.new × (born_of local.new ≡ born_of local.old) }
        ensures own { (flag : Bool) × (own_of local.new ≡ record (own_of local.old) { garbage = flag }) }
        ensures put { (t : ℕ) × (k : ℕ) × HasExchanged local.old (cell_number self.now) t k 0 (owner_code (Some owner)) local.new }
    {
        if let (Some(old), _) = self.swap(domain, (Some(owner), Tag::None), local) {
            old.release(domain, local);
        }
    }

    /// Whether the cell owns nothing, as it is found in one step.
    pub fn is_null(&self, domain: &Domain<T>, local: &mut Local<T>) -> bool
        requires home { home_of local.old ≡ place_of domain.now }
        requires inside { cell_number self.now < cell_count domain.now }
        ensures looked { (t : ℕ) × (k : ℕ) × HasReadCell local.old (cell_number self.now) t k local.new × (IsTrue result ↔ (k ≡ 0)) }
        ensures same { IsUnchanged local.old local.new }
    {
        slot_named(local.read(domain, self.cell)).is_none()
    }

    /// The tag of the cell, as it is found in one step.
    pub fn tag(&self, domain: &Domain<T>, local: &mut Local<T>) -> Tag
        requires home { home_of local.old ≡ place_of domain.now }
        requires inside { cell_number self.now < cell_count domain.now }
        ensures looked { (k : ℕ) × HasReadCell local.old (cell_number self.now) (tag_number result) k local.new }
        ensures same { IsUnchanged local.old local.new }
    {
        tag_in(local.read(domain, self.cell))
    }

    /// What the cell names and its tag, as both are found in one step. The item stays, as it is, until the outermost guard
    /// closes, whatever other threads do with the cell.
    pub fn load<'g>(&self, domain: &Domain<T>, guard: &'g Guard, local: &mut Local<T>) -> Ptr<'g, T>
        requires home { home_of local.old ≡ place_of domain.now }
        requires mine { nest_of guard.now ≡ nest_in local.old }
        requires open { 0 < (own_of local.old).nesting }
        requires inside { cell_number self.now < cell_count domain.now }
        ensures looked { HasReadCell local.old (cell_number self.now) (tag_number (ptr_tag result)) (code_of (ptr_slot result)) local.new }
        ensures same { IsUnchanged local.old local.new }
    {
        let (loaded, tag) = self.found(domain, guard, local);
        loaded.under(guard).with_tag(tag)
    }

    /// What it names alone, without a borrow of the guard.
    pub fn loaded(&self, domain: &Domain<T>, guard: &Guard, local: &mut Local<T>) -> Loaded<T>
        requires home { home_of local.old ≡ place_of domain.now }
        requires mine { nest_of guard.now ≡ nest_in local.old }
        requires open { 0 < (own_of local.old).nesting }
        requires inside { cell_number self.now < cell_count domain.now }
        ensures under { IsUnder result guard.now }
        ensures same { IsUnchanged local.old local.new }
        ensures looked { (t : ℕ) × HasReadCell local.old (cell_number self.now) t (code_of (loaded_slot result)) local.new }
    {
        let (loaded, _) = self.found(domain, guard, local);
        loaded
    }

    /// The same with the tag.
    fn found(&self, domain: &Domain<T>, guard: &Guard, local: &mut Local<T>) -> (Loaded<T>, Tag)
        requires home { home_of local.old ≡ place_of domain.now }
        requires mine { nest_of guard.now ≡ nest_in local.old }
        requires open { 0 < (own_of local.old).nesting }
        requires inside { cell_number self.now < cell_count domain.now }
        ensures under { IsUnder result.0 guard.now }
        ensures looked { HasReadCell local.old (cell_number self.now) (tag_number result.1) (code_of (loaded_slot result.0)) local.new }
        ensures same { IsUnchanged local.old local.new }
    {
        let (seen, tag) = local.lease(domain, self.cell);
        match seen {
            Some((slot, seen)) => (
                Loaded {
                    slot,
                    seen: Some(seen),
                },
                tag,
            ),
            None => (
                Loaded {
                    slot: 0,
                    seen: None,
                },
                tag,
            ),
        }
    }

    /// One more owner of the item that the cell names, as it is found in one step: none where it names nothing, or where
    /// `Ptr::get_shared` gives none, as of an item that another thread has swapped out and retired since.
    pub fn get_shared(
        &self,
        domain: &Domain<T>,
        guard: &Guard,
        local: &mut Local<T>,
    ) -> Option<Shared<T>>
        requires home { home_of local.old ≡ place_of domain.now }
        requires mine { nest_of guard.now ≡ nest_in local.old }
        requires open { 0 < (own_of local.old).nesting }
        requires inside { cell_number self.now < cell_count domain.now }
        ensures home { IfSome result (λ s. kept_in s ≡ (place_of domain.now).0) }
        ensures same { IsUnchanged local.old local.new }
        ensures looked { HasReadOwner local.old (cell_number self.now) result local.new }
    {
        self.load(domain, guard, local).get_shared(domain, local)
    }

    /// Swaps what the cell owns and its tag, in one step: the owner and the tag are put in, and those that it had are returned.
    pub fn swap(
        &self,
        domain: &Domain<T>,
        new: (Option<Shared<T>>, Tag),
        local: &mut Local<T>,
    ) -> (Option<Shared<T>>, Tag)
        requires home { home_of local.old ≡ place_of domain.now }
        requires inside { cell_number self.now < cell_count domain.now }
        requires mine { IfSome new.0 (λ s. kept_in s ≡ (place_of domain.now).0) }
        ensures home { IfSome result.0 (λ s. kept_in s ≡ (place_of domain.now).0) }
        ensures exchanged { HasSwappedCell local.old (cell_number self.now) result new local.new }
        ensures same { IsUnchanged local.old local.new }
    {
        let Local { seat, spare, .. } = local;
        let (free, old) = swap_owner(domain.place(), seat, *spare, self.cell, new);
        *spare = free;
        old
    }

    /// Swaps what the cell owns and its tag for `new`, in one step, where it names the item of `current`, or nothing where
    /// that is to nothing, and has its tag: the owner that it had is returned, and with it what the cell names from then on.
    /// Else the cell stays as it is, and the call returns the owner with the pointer that was found. It is one try: where other
    /// threads change the cell during the call, it may be refused though the cell was as `current` before and is so again,
    /// and what was found may be equal to `current`. Pointers name items by their slots, so both are of one place. It takes
    /// no memory.
    pub fn compare_exchange<'g>(
        &self,
        domain: &Domain<T>,
        current: Ptr<T>,
        new: (Option<Shared<T>>, Tag),
        guard: &'g Guard,
        local: &mut Local<T>,
    ) -> Result<(Option<Shared<T>>, Named), (Option<Shared<T>>, Ptr<'g, T>)>
        requires home { home_of local.old ≡ place_of domain.now }
        requires nest { nest_of guard.now ≡ nest_in local.old }
        requires open { 0 < (own_of local.old).nesting }
        requires inside { cell_number self.now < cell_count domain.now }
        requires mine { IfSome new.0 (λ s. kept_in s ≡ (place_of domain.now).0) }
        ensures home { IfOk result (λ r. IfSome r.0 (λ s. kept_in s ≡ (place_of domain.now).0)) }
        ensures exact { IfOk result (λ r. owner_slot r.0 ≡ ptr_slot current.entry) }
        ensures exchanged { IfOk result (λ r. HasSwappedCell local.old (cell_number self.now) (r.0, ptr_tag current.entry) new local.new) }
        ensures stands { IfOk result (λ r. (named_slot r.1 ≡ owner_slot new.0) × (named_tag r.1 ≡ new.1)) }
        ensures back { IfErr result (λ r. IsBack new.0 r.0) }
        ensures same { IsUnchanged local.old local.new }
        ensures looked { IfErr result (λ r. HasFoundPtr local.old (cell_number self.now) r.1 local.new) }
    {
        let word = word_of(domain.place(), self.cell);
        if !names(word, current) {
            let found = self.load(domain, guard, local);
            return Err((new.0, found));
        }
        let stands = named_by(&new.0, new.1);
        match try_exchange(domain, self.cell, word, new, local) {
            Ok(old) => Ok((old, stands)),
            Err((back, found, tag)) => Err((back, found.under(guard).with_tag(tag))),
        }
    }

    /// As `compare_exchange`: it fails for no other reason.
    pub fn compare_exchange_weak<'g>(
        &self,
        domain: &Domain<T>,
        current: Ptr<T>,
        new: (Option<Shared<T>>, Tag),
        guard: &'g Guard,
        local: &mut Local<T>,
    ) -> Result<(Option<Shared<T>>, Named), (Option<Shared<T>>, Ptr<'g, T>)>
        requires home { home_of local.old ≡ place_of domain.now }
        requires nest { nest_of guard.now ≡ nest_in local.old }
        requires open { 0 < (own_of local.old).nesting }
        requires inside { cell_number self.now < cell_count domain.now }
        requires mine { IfSome new.0 (λ s. kept_in s ≡ (place_of domain.now).0) }
        ensures home { IfOk result (λ r. IfSome r.0 (λ s. kept_in s ≡ (place_of domain.now).0)) }
        ensures exact { IfOk result (λ r. owner_slot r.0 ≡ ptr_slot current.entry) }
        ensures stands { IfOk result (λ r. (named_slot r.1 ≡ owner_slot new.0) × (named_tag r.1 ≡ new.1)) }
        ensures back { IfErr result (λ r. IsBack new.0 r.0) }
        ensures same { IsUnchanged local.old local.new }
        ensures exchanged { IfOk result (λ r. HasSwappedCell local.old (cell_number self.now) (r.0, ptr_tag current.entry) new local.new) }
        ensures looked { IfErr result (λ r. HasFoundPtr local.old (cell_number self.now) r.1 local.new) }
    {
        self.compare_exchange(domain, current, new, guard, local)
    }

    /// Sets the tag, in one step, where `f` answers true of the pointer that is found: whether it did. Where other threads
    /// changed the cell since that pointer was loaded it tries again, and asks anew. After `2^64` times it stops, and
    /// answers false. What the cell owns stays.
    pub fn update_tag_if<'g, F: Fn(Ptr<'g, T>) -> bool>(
        &self,
        domain: &Domain<T>,
        tag: Tag,
        f: F,
        guard: &'g Guard,
        local: &mut Local<T>,
    ) -> bool
    where
        T: 'g,
        requires home { home_of local.old ≡ place_of domain.now }
        requires nest { nest_of guard.now ≡ nest_in local.old }
        requires open { 0 < (own_of local.old).nesting }
        requires inside { cell_number self.now < cell_count domain.now }
        requires callable { F.IsAlwaysCallable f }
        ensures asked { (r : Ptr T) × (b : Bool) × F.post f r b × (IsTrue result → IsTrue b) }
        ensures same { IsUnchanged local.old local.new }
        ensures set { IsTrue result → (r : Ptr T) × F.post f r true × HasTagged local.old (cell_number self.now) r tag local.new }
        ensures kept { IsFalse result → HasKeptTag local.old (cell_number self.now) (λ r. F.post f r false) local.new }
    {
        for _i in 0..TRIES {
            if let Some(answer) = self.try_update(domain, tag, &f, guard, local) {
                return answer;
            }
        }
        match self.try_update(domain, tag, &f, guard, local) {
            Some(answer) => answer,
            None => false,
        }
    }

    /// The same once: what `f` answered, or none where it was true and others were faster.
    fn try_update<'g, F: Fn(Ptr<'g, T>) -> bool>(
        &self,
        domain: &Domain<T>,
        tag: Tag,
        f: &F,
        guard: &'g Guard,
        local: &mut Local<T>,
    ) -> Option<bool>
    where
        T: 'g,
        requires home { home_of local.old ≡ place_of domain.now }
        requires nest { nest_of guard.now ≡ nest_in local.old }
        requires open { 0 < (own_of local.old).nesting }
        requires inside { cell_number self.now < cell_count domain.now }
        requires callable { F.IsAlwaysCallable f.now }
        ensures asked { IfSome result (λ b. (r : Ptr T) × F.post f.now r b) }
        ensures slow { IfNone result ((r : Ptr T) × F.post f.now r true) }
        ensures same { IsUnchanged local.old local.new }
        ensures set { IfSome result (λ b. IsTrue b → (r : Ptr T) × F.post f.now r true × HasTagged local.old (cell_number self.now) r tag local.new) }
        ensures kept { IfSome result (λ b. IsFalse b → (r : Ptr T) × F.post f.now r false × HasFoundPtr local.old (cell_number self.now) r local.new) }
        ensures looked { IfNone result (HasReadOften local.old (cell_number self.now) 1 local.new) }
    {
        let found = self.load(domain, guard, local);
        if !f(found) {
            return Some(false);
        }
        let word = word_of(domain.place(), self.cell);
        if !names(word, found) {
            return None;
        }
        if try_tag(domain, self.cell, word, tag, local) {
            Some(true)
        } else {
            None
        }
    }

    /// What the cell owned. The cell is the next one's that asks for one.
    pub fn into_shared(self, domain: &Domain<T>, local: &mut Local<T>) -> Option<Shared<T>>
        requires home { home_of local.old ≡ place_of domain.now }
        requires inside { cell_number self < cell_count domain.now }
        ensures home { IfSome result (λ s. kept_in s ≡ (place_of domain.now).0) }
        ensures same { IsUnchanged local.old local.new }
        ensures taken { (t : ℕ) × HasExchanged local.old (cell_number self) t (owner_code result) 0 0 local.new }
    {
        let (owner, _) = self.swap(domain, (None, Tag::None), local);
        let AtomicShared { cell, of: _ } = self;
        domain.taken[cell].store(false, Ordering::SeqCst);
        owner
    }

    /// Gives the cell back, and releases what it owned. Whether that was the last owner of its item.
    pub fn retire(self, domain: &Domain<T>, local: &mut Local<T>) -> bool
        requires home { home_of local.old ≡ place_of domain.now }
        requires inside { cell_number self < cell_count domain.now }
        ensures same { IsInNestButGarbage result local.old local.new }
        ensures taken { (t : ℕ) × (k : ℕ) × HasExchanged local.old (cell_number self) t k 0 0 local.new }
    {
        match self.into_shared(domain, local) {
            Some(owner) => owner.release(domain, local),
            None => false,
        }
    }
}
