//! Pointers to items that a cell was found to name.

ghost use Rattle.std.specs.Prelude.{◌≡◌, ℕ, IsSome, IsNone, IsTrue, IfSome, None, Some, option_copied, ◌↔◌};
ghost use Rattle.std.specs.Option.{ForSome};

use crate::domain::Domain;
use crate::guard::Guard;
use crate::holds::Holds;
use crate::local::Local;
use crate::shared::Shared;
use domain_table::board::Stored;
use parted::Seen;
use sdd_plain::tag::Tag;

/// A pointer to an item, or to nothing, with a tag, for as long as the guard is borrowed under which it was loaded.
/// Pointers are equal where they are to the item in one slot, or both to nothing, and their tags are equal.
#[derive_where(Clone, Copy, PartialEq, Eq)]
pub struct Ptr<'g, T> {
    pub(crate) slot: Option<usize>,
    pub(crate) tag: Tag,
    #[derive_where(skip(EqHashOrd))]
    item: Option<&'g T>,
}

/// What a cell names and its tag, without the item and without a borrow: it describes the pointers that a participant loads
/// whether they are the one that it put there, until its outermost guard closes.
#[derive(Clone, Copy, PartialEq, Eq, Debug)]
pub struct Named {
    pub(crate) slot: Option<usize>,
    pub(crate) tag: Tag,
}

/// The pointer to nothing, without a tag.
impl<'g, T> Default for Ptr<'g, T> {
    ghost use Rattle.sdd_plain.specs.declared.tag.Tag.TheVariants as tags;
    ghost use Rattle.sdd_domain.specs.Pointers.{ptr_slot, ptr_tag};

    ghost is_default = { λ r. (ptr_slot r ≡ None) × (ptr_tag r ≡ tags.None) };

    fn default() -> Ptr<'g, T> {
        Ptr::null()
    }
}

impl<'g, T> Ptr<'g, T> {
    ghost use Rattle.sdd_domain.specs.Pointers.{ptr_slot, ptr_tag, ptr_item, named_slot, named_tag};

    /// The pointer to nothing, without a tag.
    pub fn null() -> Ptr<'g, T>
        ensures slot { ptr_slot result ≡ None }
        ensures item { ptr_item result ≡ None }
        ensures tag { ptr_tag result ≡ Tag.None }
    {
        Ptr {
            slot: None,
            tag: Tag::None,
            item: None,
        }
    }

    /// Whether it is to nothing, whatever its tag.
    pub fn is_null(self) -> bool
        ensures { IsTrue result ↔ (ptr_slot self.entry ≡ None) }
    {
        self.slot.is_none()
    }

    /// The slot of the item, below the place's count of them. No other item is in it while the pointer is there.
    pub fn slot(self) -> Option<usize>
        ensures { result ≡ ptr_slot self.entry }
    {
        self.slot
    }

    /// The item.
    pub fn as_ref(self) -> Option<&'g T>
        ensures { option_copied result ≡ ptr_item self.entry }
    {
        self.item
    }

    /// What it is to, and its tag.
    pub fn named(self) -> Named
        ensures slot { named_slot result ≡ ptr_slot self.entry }
        ensures tag { named_tag result ≡ ptr_tag self.entry }
    {
        Named {
            slot: self.slot,
            tag: self.tag,
        }
    }

    /// Its tag.
    pub fn tag(self) -> Tag
        ensures { result ≡ ptr_tag self.entry }
    {
        self.tag
    }

    /// Replaces the tag; the pointee is unchanged.
    pub fn set_tag(&mut self, tag: Tag)
        ensures slot { ptr_slot self.new ≡ ptr_slot self.old }
        ensures item { ptr_item self.new ≡ ptr_item self.old }
        ensures tag { ptr_tag self.new ≡ tag }
    {
        self.tag = tag;
    }

    /// Removes the tag; the pointee is unchanged.
    pub fn unset_tag(&mut self)
        ensures slot { ptr_slot self.new ≡ ptr_slot self.old }
        ensures item { ptr_item self.new ≡ ptr_item self.old }
        ensures tag { ptr_tag self.new ≡ Tag.None }
    {
        self.tag = Tag::None;
    }

    /// The same pointer with another tag.
    pub fn with_tag(self, tag: Tag) -> Ptr<'g, T>
        ensures slot { ptr_slot result ≡ ptr_slot self.entry }
        ensures item { ptr_item result ≡ ptr_item self.entry }
        ensures tag { ptr_tag result ≡ tag }
    {
        Ptr {
            slot: self.slot,
            tag,
            item: self.item,
        }
    }

    /// The same pointer without a tag.
    pub fn without_tag(self) -> Ptr<'g, T>
        ensures slot { ptr_slot result ≡ ptr_slot self.entry }
        ensures item { ptr_item result ≡ ptr_item self.entry }
        ensures tag { ptr_tag result ≡ Tag.None }
    {
        self.with_tag(Tag::None)
    }
}

impl<'g, T: Holds> Ptr<'g, T> {
    ghost use Rattle.sdd_domain.specs.declared.guard.Guard.{Guard};
    ghost use Rattle.sdd_domain.specs.Comparing.{owner_slot};
    ghost use Rattle.sdd_domain.specs.Pointers.{ptr_slot, loaded_slot, IsUnder, IsLoadedOf};
    ghost use Rattle.sdd_domain.specs.Sharing.{kept_in};
    ghost use Rattle.sdd_domain.specs.CellSteps.{StepsOnNoCell};
    ghost use Rattle.sdd_domain.specs.Tokens.{place_of, home_of, nest_of, nest_in, HasLeasedSlot, HasLeasedItem, IsUnchanged};

    /// One more owner of the item, beside those that it has: so it is kept for longer than the guard is open under which it
    /// was loaded. None where the pointer is to nothing, where the item is retired or has `2^32 - 1` owners, and where the
    /// participant has only one part of it. It tries again where other threads change the count of owners at that moment.
    /// It takes no memory. The `Local` is the one that loaded the pointer.
    pub fn get_shared(self, domain: &Domain<T>, local: &mut Local<T>) -> Option<Shared<T>>
        requires home { home_of local.old ≡ place_of domain.now }
        ensures home { IfSome result (λ s. kept_in s ≡ (place_of domain.now).0) }
        ensures exact { IfSome result (λ s. owner_slot (Some s) ≡ ptr_slot self.entry) }
        ensures same { IsUnchanged local.old local.new }
        ensures cells { StepsOnNoCell local.old local.new }
    {
        Shared::of_leased(domain, self.slot?, local)
    }

    /// What it is to, without a tag and without a borrow of the guard: a structure may keep it beside that guard. The `Local`
    /// is the one that loaded the pointer. None if and only if the pointer is to an item and the participant has leased none
    /// in its slot.
    pub fn loaded(self, local: &Local<T>) -> Option<Loaded<T>>
        ensures slot { IfSome result (λ l. loaded_slot l ≡ ptr_slot self.entry) }
        ensures item { IfSome result (λ l. (k : ℕ) → ptr_slot self.entry ≡ Some k → (x : T) × IsLoadedOf l x × HasLeasedItem local.now k x) }
        ensures under { IfSome result (λ l. (guard : Guard) → nest_of guard ≡ nest_in local.now → IsUnder l guard) }
        ensures none { IsNone result ↔ ((k : ℕ) × (ptr_slot self.entry ≡ Some k) × (¬ HasLeasedSlot local.now k)) }
    {
        let Some(slot) = self.slot else {
            return Some(Loaded {
                slot: 0,
                seen: None,
            });
        };
        let seen = local.seen_in(slot)?;
        Some(Loaded {
            slot,
            seen: Some(seen),
        })
    }
}

/// What a cell was found to name under a guard, without a tag and without a borrow: a structure may keep it beside that
/// guard.
#[derive(Drop)]
pub struct Loaded<T> {
    pub(crate) slot: usize,
    pub(crate) seen: Option<Seen<Stored<T>>>,
    ghost there: { ForSome seen (λ s. IsSome s.value) },
}

impl<T> Loaded<T> {
    ghost use Rattle.sdd_domain.specs.declared.guard.Guard.{Guard};
    ghost use Rattle.sdd_domain.specs.Pointers.{IsUnder, HasLoadedItem, IsLoadedOf, loaded_slot, ptr_slot, ptr_tag, ptr_item};

    /// What a cell that owns nothing would be found to name.
    pub fn null() -> Loaded<T>
        ensures { (guard : Guard) → IsUnder result guard }
    {
        Loaded {
            slot: 0,
            seen: None,
        }
    }

    /// Whether the cell named nothing.
    pub fn is_null(&self) -> bool
        ensures { IsTrue result ↔ (loaded_slot self.now ≡ None) }
    {
        self.seen.is_none()
    }

    /// The item, for as long as a guard is borrowed of the nest in which it was loaded.
    pub fn as_ref<'g>(&self, guard: &'g Guard) -> Option<&'g T>
        requires { IsUnder self.now guard.now }
        ensures item { IfSome result (λ x. HasLoadedItem self.now x.now) }
        ensures null { IsSome result ↔ IsSome self.now.seen }
    {
        match &self.seen {
            Some(seen) => match seen.get(&guard.life) {
                Some(item) => Some(item),
                None => unreachable!(),
            },
            None => None,
        }
    }

    /// The pointer for that long, without a tag.
    pub fn under<'g>(&self, guard: &'g Guard) -> Ptr<'g, T>
        requires { IsUnder self.now guard.now }
        ensures slot { ptr_slot result ≡ loaded_slot self.now }
        ensures item { (x : T) → IsLoadedOf self.now x → ptr_item result ≡ Some x }
        ensures tag { ptr_tag result ≡ Tag.None }
    {
        let item = self.as_ref(guard);
        let slot = match item {
            Some(_) => Some(self.slot),
            None => None,
        };
        Ptr {
            slot,
            tag: Tag::None,
            item,
        }
    }
}
