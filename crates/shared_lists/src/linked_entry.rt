//! Entries of lists.
//!
//! An entry is an item with the link of its slot: the link owns what follows the item, and its tag says whether the entry is
//! clear (`None`), marked (`First`) or deleted (`Second`, `Both`). A deleted entry stays where it is; walks pass over it.

ghost use Rattle.std.specs.Prelude.{◌≡◌, ◌≢◌, ◌<◌, ◌≤◌, ◌↔◌, ℕ, [], Some, IsTrue, IsFalse, IfOk, IfErr, IfNone, IfSome, OnErr};
ghost use Rattle.sdd_plain.specs.Epochs.{tag_number};
ghost use Rattle.sdd_domain.specs.CellSteps.{HasReadCell, HasRetagged};
ghost use Rattle.sdd_domain.specs.Cells.{cell_number};
ghost use Rattle.sdd_domain.specs.Comparing.{owner_slot};
ghost use Rattle.sdd_domain.specs.Pointers.{ptr_slot, ptr_tag, ptr_item};
ghost use Rattle.sdd_domain.specs.Sharing.{kept_in, IsOwnerOf};
ghost use Rattle.sdd_domain.specs.Tokens.{place_of, home_of, hand_of, cell_count};
ghost use Rattle.shared_lists.specs.Entries.{entry_cell, entry_item, entry_slot, links_of, mark_number, IsEntryOf, IsLentAs, HasBegun, HasPushedBehind, HasTried, IsRefusedFor, HasFoundNone, HasFoundNextIn, HasFoundTag, PointsTo};
ghost use Rattle.shared_lists.specs.Lists.{AreLinksOf, IsAsBefore, IsOpenIn, IsStill};

use crate::links::Links;
use crate::moves::{TRIES, follow, let_go};
use crate::section::Section;
use crate::tags::{tag_of, tells_clear, tells_deleted, tells_marked};
use sdd_domain::atomic_shared::AtomicShared;
use sdd_domain::domain::Domain;
use sdd_domain::guard::Guard;
use sdd_domain::holds::Holds;
use sdd_domain::local::Local;
use sdd_domain::pointer::Ptr;
use sdd_domain::shared::Shared;
use sdd_plain::tag::Tag;

/// An item as an entry of a list, for as long as what it was made from is borrowed: a guard, or an owner of it.
#[derive_where(Clone, Copy)]
pub struct LinkedEntry<'g, T> {
    item: &'g T,
    slot: usize,
    link: &'g AtomicShared<T>,
    links: &'g Links<T>,
}

/// What one try to push came to: it is done, the entry was found deleted, or others were faster.
pub(crate) enum Tried<T> {
    Done,
    Deleted(Shared<T>),
    Slow(Shared<T>),
}

impl<'g, T: Holds> LinkedEntry<'g, T> {
    /// Places an item that nothing follows, with a clear link. If no slot is free it is returned, a miss. Conditions: it holds no
    /// owners, and none is in the participant's hand.
    pub fn new(
        domain: &Domain<T>,
        item: T,
        links: &Links<T>,
        local: &mut Local<T>,
    ) -> Result<Shared<T>, T>
        requires home { (home_of local.old ≡ place_of domain.now) × (hand_of local.old ≡ []) }
        requires holds { T.holds item ≡ [] }
        requires links { AreLinksOf links.now domain.now }
        ensures owner { IfOk result (λ s. (kept_in s ≡ (place_of domain.now).0) × IsOwnerOf s item) }
        ensures cleared { IfOk result (λ s. HasBegun local.old links.now s local.new) }
        ensures refused { IfErr result (λ back. back ≡ item) }
        ensures same { IsAsBefore local.old local.new }
    {
        let owner = Shared::new(domain, item, local)?;
        // The link still has the tag that the slot's item before it had.
        if let Some(link) = links.at(owner.slot()) {
            follow(domain, link, None, local);
        }
        Ok(owner)
    }

    /// The entry of an item that a pointer is to: none of nothing.
    pub fn of(item: Ptr<'g, T>, links: &'g Links<T>) -> Option<LinkedEntry<'g, T>>
        ensures entry { IfSome result (λ e. (Some (entry_slot e) ≡ ptr_slot item.entry) × (Some (entry_item e) ≡ ptr_item item.entry)) }
        ensures place { IfSome result (λ e. (links_of e ≡ links.now) × ((d : Domain T) → AreLinksOf links.now d → IsEntryOf e d)) }
    {
        let slot = item.slot()?;
        let item = item.as_ref()?;
        let link = links.at(slot)?;
        Some(LinkedEntry {
            item,
            slot,
            link,
            links,
        })
    }

    /// The entry of an owner's item.
    pub fn of_owner(owner: &'g Shared<T>, links: &'g Links<T>) -> Option<LinkedEntry<'g, T>>
        ensures entry { IfSome result (λ e. (Some (entry_slot e) ≡ owner_slot (Some owner.now)) × IsOwnerOf owner.now (entry_item e)) }
        ensures place { IfSome result (λ e. (links_of e ≡ links.now) × ((d : Domain T) → AreLinksOf links.now d → IsEntryOf e d)) }
    {
        let slot = owner.slot();
        let link = links.at(slot)?;
        Some(LinkedEntry {
            item: owner.as_ref(),
            slot,
            link,
            links,
        })
    }

    /// The item.
    pub fn as_ref(&self) -> &'g T
        ensures { result.now ≡ entry_item self.now }
    {
        self.item
    }

    /// The link: always the same cell.
    pub fn link_ref(&self) -> &'g AtomicShared<T>
        ensures { cell_number result.now ≡ entry_cell self.now }
    {
        self.link
    }

    /// Whether it is clear, as it is found in one step.
    pub fn is_clear(&self, domain: &Domain<T>, local: &mut Local<T>) -> bool
        requires home { home_of local.old ≡ place_of domain.now }
        requires entry { IsEntryOf self.now domain.now }
        ensures looked { (t : ℕ) × (k : ℕ) × HasReadCell local.old (entry_cell self.now) t k local.new × (IsTrue result ↔ (t ≡ 0)) }
        ensures same { IsStill local.old local.new }
    {
        tells_clear(self.link.tag(domain, local))
    }

    /// Whether it is marked, as it is found in one step.
    pub fn is_marked(&self, domain: &Domain<T>, local: &mut Local<T>) -> bool
        requires home { home_of local.old ≡ place_of domain.now }
        requires entry { IsEntryOf self.now domain.now }
        ensures looked { (t : ℕ) × (k : ℕ) × HasReadCell local.old (entry_cell self.now) t k local.new × (IsTrue result ↔ (t ≡ 1)) }
        ensures same { IsStill local.old local.new }
    {
        tells_marked(self.link.tag(domain, local))
    }

    /// Whether it was deleted, as it is found in one step.
    pub fn is_deleted(&self, domain: &Domain<T>, local: &mut Local<T>) -> bool
        requires home { home_of local.old ≡ place_of domain.now }
        requires entry { IsEntryOf self.now domain.now }
        ensures looked { (t : ℕ) × (k : ℕ) × HasReadCell local.old (entry_cell self.now) t k local.new × (IsTrue result ↔ (2 ≤ t)) }
        ensures same { IsStill local.old local.new }
    {
        tells_deleted(self.link.tag(domain, local))
    }

    /// Marks it if it is clear: whether it did. It tries again where other threads change the link, at most `2^64`
    /// times.
    pub fn mark(&self, domain: &Domain<T>, guard: &Guard, local: &mut Local<T>) -> bool
        requires open { IsOpenIn guard.now local.old domain.now }
        requires entry { IsEntryOf self.now domain.now }
        ensures set { IsTrue result → (k : ℕ) × HasRetagged local.old (entry_cell self.now) 0 k 1 local.new }
        ensures kept { IsFalse result → HasFoundTag local.old (entry_cell self.now) (λ t. t ≢ 0) local.new }
        ensures same { IsStill local.old local.new }
    {
        self.link.update_tag_if(
            domain,
            Tag::First,
            |next|
                ensures { IsTrue result ↔ (tag_number (ptr_tag next.entry) ≡ 0) }
            { tells_clear(next.tag()) },
            guard,
            local,
        )
    }

    /// Takes the mark away where it is marked: whether it did. It tries again as `mark` does.
    pub fn unmark(&self, domain: &Domain<T>, guard: &Guard, local: &mut Local<T>) -> bool
        requires open { IsOpenIn guard.now local.old domain.now }
        requires entry { IsEntryOf self.now domain.now }
        ensures set { IsTrue result → (k : ℕ) × HasRetagged local.old (entry_cell self.now) 1 k 0 local.new }
        ensures kept { IsFalse result → HasFoundTag local.old (entry_cell self.now) (λ t. t ≢ 1) local.new }
        ensures same { IsStill local.old local.new }
    {
        self.link.update_tag_if(
            domain,
            Tag::None,
            |next|
                ensures { IsTrue result ↔ (tag_number (ptr_tag next.entry) ≡ 1) }
            { tells_marked(next.tag()) },
            guard,
            local,
        )
    }

    /// Deletes it, unless it was deleted before: whether it did. It stays linked. It tries again as `mark` does.
    pub fn delete_self(&self, domain: &Domain<T>, guard: &Guard, local: &mut Local<T>) -> bool
        requires open { IsOpenIn guard.now local.old domain.now }
        requires entry { IsEntryOf self.now domain.now }
        ensures set { IsTrue result → (t : ℕ) × (k : ℕ) × (t < 2) × HasRetagged local.old (entry_cell self.now) t k 2 local.new }
        ensures kept { IsFalse result → HasFoundTag local.old (entry_cell self.now) (λ t. 2 ≤ t) local.new }
        ensures same { IsStill local.old local.new }
    {
        self.link.update_tag_if(
            domain,
            Tag::Second,
            |next|
                ensures { IsTrue result ↔ (tag_number (ptr_tag next.entry) < 2) }
            { !tells_deleted(next.tag()) },
            guard,
            local,
        )
    }

    /// Puts another entry behind this one, before what followed it, and gives that as a pointer with the tag that this entry has
    /// from then on: marked if `mark` is true, else clear. Returns the owner if this entry was deleted, or is the other one
    /// itself; and after `2^64 - 1` tries, at each of which others were faster. Condition: nobody else has linked the other
    /// one, and nothing follows it.
    pub fn push_back<'h>(
        &self,
        domain: &Domain<T>,
        entry: Shared<T>,
        mark: bool,
        guard: &'h Guard,
        local: &mut Local<T>,
    ) -> Result<Ptr<'h, T>, Shared<T>>
        requires open { IsOpenIn guard.now local.old domain.now }
        requires this { IsEntryOf self.now domain.now }
        requires mine { kept_in entry ≡ (place_of domain.now).0 }
        ensures pushed { IfOk result (λ p. HasPushedBehind local.old self.now (mark_number mark) entry local.new) }
        ensures entry { IfOk result (λ p. PointsTo p entry (mark_number mark)) }
        ensures back { IfErr result (λ s. IsLentAs s entry) }
        ensures refused { OnErr result (IsRefusedFor local.old self.now entry local.new) }
        ensures same { IsStill local.old local.new }
    {
        if entry.slot() == self.slot {
            return Err(entry);
        }
        let Some(link) = self.links.at(entry.slot()) else {
            return Err(entry);
        };
        let (mut entry, pointer) = entry.get_guarded_ptr(domain, guard, local);
        let links = self.links;
        let section = Section {
            domain,
            links,
            guard,
        };
        let tag = tag_of(mark);
        for _i in 0..TRIES {
            match self.try_push(&section, entry, link, tag, local) {
                Tried::Done => return Ok(pointer.with_tag(tag)),
                Tried::Deleted(back) => return Err(back),
                Tried::Slow(back) => entry = back,
            }
        }
        Err(entry)
    }

    /// One try.
    fn try_push(
        &self,
        section: &Section<T>,
        entry: Shared<T>,
        link: &AtomicShared<T>,
        tag: Tag,
        local: &mut Local<T>,
    ) -> Tried<T>
        requires open { IsOpenIn section.now.guard.now local.old section.now.domain.now }
        requires this { IsEntryOf self.now section.now.domain.now }
        requires link { cell_number link.now < cell_count section.now.domain.now }
        requires mine { kept_in entry ≡ (place_of section.now.domain.now).0 }
        ensures tried { HasTried result local.old (entry_cell self.now) (cell_number link.now) (tag_number tag) entry local.new }
        ensures same { IsStill local.old local.new }
    {
        let next = self.link.load(section.domain, section.guard, local);
        if tells_deleted(next.tag()) {
            return Tried::Deleted(entry);
        }
        let owner = next.get_shared(section.domain, local);
        // What followed may have been taken out and retired since.
        let is_there = owns(&owner, next.slot());
        follow(section.domain, link, owner, local);
        if !is_there {
            return Tried::Slow(entry);
        }
        match self.link.compare_exchange(
            section.domain,
            next,
            (Some(entry), tag),
            section.guard,
            local,
        ) {
            Ok((old, _)) => {
                let_go(section.domain, old, local);
                Tried::Done
            }
            Err((Some(back), _)) => Tried::Slow(back),
            Err((None, _)) => unreachable!(),
        }
    }

    /// The next entry that isn't deleted, without a tag, or nothing. Each entry that is passed over was found deleted.
    pub fn next_ptr<'h>(
        &self,
        domain: &Domain<T>,
        guard: &'h Guard,
        local: &mut Local<T>,
    ) -> Ptr<'h, T>
        requires open { IsOpenIn guard.now local.old domain.now }
        requires entry { IsEntryOf self.now domain.now }
        ensures found { HasFoundNextIn local.old (links_of self.now) (entry_cell self.now) (ptr_slot result) local.new }
        ensures none { IfNone (ptr_slot result) (HasFoundNone local.old (links_of self.now) (entry_cell self.now) local.new) }
        ensures bare { ptr_tag result ≡ Tag.None }
        ensures same { IsStill local.old local.new }
    {
        let mut link = self.link;
        for _i in 0..TRIES {
            let next = link.load(domain, guard, local).without_tag();
            let Some(slot) = next.slot() else {
                return next;
            };
            let Some(after) = self.links.at(slot) else {
                return next;
            };
            if !tells_deleted(after.tag(domain, local)) {
                return next;
            }
            link = after;
        }
        Ptr::null()
    }

    /// An owner of the entry that `next_ptr` finds: none where that finds nothing, or where `Ptr::get_shared` gives none.
    pub fn next_shared(
        &self,
        domain: &Domain<T>,
        guard: &Guard,
        local: &mut Local<T>,
    ) -> Option<Shared<T>>
        requires open { IsOpenIn guard.now local.old domain.now }
        requires entry { IsEntryOf self.now domain.now }
        ensures home { IfSome result (λ s. kept_in s ≡ (place_of domain.now).0) }
        ensures found { IfSome result (λ s. HasFoundNextIn local.old (links_of self.now) (entry_cell self.now) (owner_slot (Some s)) local.new) }
        ensures same { IsStill local.old local.new }
    {
        self.next_ptr(domain, guard, local)
            .get_shared(domain, local)
    }
}

/// Whether an owner is there of the item in this slot, or none of none.
fn owns<T: Holds>(owner: &Option<Shared<T>>, slot: Option<usize>) -> bool
    ensures { IsTrue result → owner_slot owner.now ≡ slot }
{
    match (owner, slot) {
        (Some(owner), Some(slot)) => owner.slot() == slot,
        (None, None) => true,
        _ => false,
    }
}
