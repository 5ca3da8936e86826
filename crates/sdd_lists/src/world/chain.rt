//! Single changes of a list that hangs from a cell, for crates that make containers. `world_containers` doesn't pass them on.

ghost use Rattle.std.specs.Prelude.{◌≡◌, Some, None, Option, [], length, IfNone, IfSome, cond, ◌+◌, ◌<◌};
ghost use Rattle.std.specs.Fn.{FnOnceReturnsAt};
ghost use Rattle.std.specs.Option.{option_copied};
ghost use Rattle.sdd_world.specs.State.{IsFreeCell, cell_at, status_at, with_cell};
ghost use Rattle.sdd_world.specs.Frame.{OnlyParticipant};
ghost use Rattle.sdd_world.specs.Place.{IsSharedCell};
ghost use Rattle.sdd_world.specs.Tokens.{shared_cell, shared_slot, shared_slots, link_cell};
ghost use Rattle.sdd_lists.specs.Chain.{Entry, IsItem, IsList, Hangs, HasLink, IsDetached, TookFirst, Stays, CanHang, deleted, BeginsWithItem, skip, undeleted, first_item, first_slot, front_tag, slots, SameUses, MoreOwners, OneMore};
ghost use Rattle.sdd_lists.specs.Calls.{DropsFirst, Empties, FillsEmpty, HangsFirst, OfList, OnlyList};

use crate::linked_list::LinkedList;
use sdd_world::cell::AtomicShared;
use sdd_world::job::Deferred;
use sdd_world::link::Link;
use sdd_world::owner::Shared;
use sdd_world::status::{Cell, Status};
use sdd_world::tag::Tag;
use sdd_world::world::{World, atomic_shared, shared};

/// The link of an item that is owned.
pub fn link_of<L: LinkedList, J: Deferred>(w: &World<L, J>, owner: &Shared<L>) -> Link<L>
    requires { HasLink L.link w.now (shared_slot owner.now) }
    ensures { (e : Entry L) → IsItem L.link w.now e → shared_slot owner.now ≡ e.slot → link_cell result ≡ e.link }
{
    Link::of(shared::as_ref(w, owner).link_ref())
}

/// Empties a cell, which keeps its tag.
pub fn take<L, J: Deferred>(w: &mut World<L, J>, cell: &AtomicShared<L>) -> Option<Shared<L>>
    requires { IsSharedCell w.old (shared_cell cell.now) }
    ensures took { Empties w.old w.new cell.now result }
    ensures participants { w.new.participants ≡ w.old.participants }
    ensures stays { Stays w.old w.new }
{
    let tag = atomic_shared::tag(w, cell);
    let (item, _old_tag) = atomic_shared::swap(w, cell, (None, tag));
    item
}

/// Fills an empty cell, which keeps its tag.
pub fn fill<L, J: Deferred>(w: &mut World<L, J>, cell: &AtomicShared<L>, item: Option<Shared<L>>)
    requires { (t : Tag) × (cell_at w.old (shared_cell cell.now) ≡ Cell.OfShared None t) }
    ensures filled { FillsEmpty w.old w.new cell.now item }
    ensures participants { w.new.participants ≡ w.old.participants }
    ensures stays { Stays w.old w.new }
{
    let tag = atomic_shared::tag(w, cell);
    let (old, _old_tag) = atomic_shared::swap(w, cell, (item, tag));
    match old {
        None => {}
        Some(_) => unreachable!(),
    }
}

/// Takes the first entry of a list off, whose link is then empty.
pub fn take_first<L: LinkedList, J: Deferred>(
    w: &mut World<L, J>,
    cell: &AtomicShared<L>,
) -> Option<Shared<L>>
    requires { Hangs L.link w.old (shared_cell cell.now) }
    ensures took { OfList L.link w.old cell.now (λ t es. TookFirst L.link w.old w.new (shared_cell cell.now) t es (shared_slots result)) }
    ensures participants { w.new.participants ≡ w.old.participants }
    ensures stays { Stays w.old w.new }
{
    let Some(first) = take(w, cell) else {
        return None;
    };
    let link = link_of(w, &first);
    let next = take(w, link.cell());
    fill(w, cell, next);
    Some(first)
}

/// Hangs an entry before all others.
pub fn put_first<L: LinkedList, J: Deferred>(
    w: &mut World<L, J>,
    cell: &AtomicShared<L>,
    first: Shared<L>,
)
    requires { CanHang L.link w.old (shared_cell cell.now) (shared_slot first) }
    ensures put { HangsFirst L.link w.old w.new cell.now (shared_slot first) }
    ensures participants { w.new.participants ≡ w.old.participants }
    ensures stays { Stays w.old w.new }
{
    let link = link_of(w, &first);
    let next = take(w, cell);
    fill(w, link.cell(), next);
    fill(w, cell, Some(first));
}

/// Whether a tag is that of a deleted item.
pub(crate) fn is_deleted(tag: Tag) -> bool
    ensures { result ≡ deleted tag }
{
    match tag {
        Tag::None | Tag::First => false,
        Tag::Second | Tag::Both => true,
    }
}

/// The first entry of a list: its item, the cell of its link, and whether it is deleted.
#[derive(Drop)]
pub struct Front<'w, L> {
    pub item: &'w L,
    pub link: &'w AtomicShared<L>,
    pub deleted: bool,
}

/// The first entry of a list, if there is one.
pub fn first<'w, L: LinkedList, J: Deferred>(
    w: &'w World<L, J>,
    cell: &AtomicShared<L>,
) -> Option<Front<'w, L>>
    requires { Hangs L.link w.now (shared_cell cell.now) }
    ensures none { IfNone result (OfList L.link w.now cell.now (λ t es. es ≡ [])) }
    ensures some { IfSome result (λ f. OfList L.link w.now cell.now (λ t es. BeginsWithItem es f.item.now (shared_cell f.link.now) f.deleted)) }
{
    let Some(item) = atomic_shared::as_ref(w, cell) else {
        return None;
    };
    let link = item.link_ref();
    let deleted = is_deleted(atomic_shared::tag(w, link));
    Some(Front {
        item,
        link,
        deleted,
    })
}

/// The cell behind the deleted entries at the front of a list: it keeps the first undeleted one, or nothing.
pub fn skip_from<'w, L: LinkedList, J: Deferred>(
    w: &'w World<L, J>,
    cell: &'w AtomicShared<L>,
) -> &'w AtomicShared<L>
    requires { Hangs L.link w.now (shared_cell cell.now) }
    ensures { OfList L.link w.now cell.now (λ t es. (u : Tag) × IsList L.link w.now (shared_cell result.now) u (skip es) × (u ≡ front_tag t es)) }
{
    let mut at = cell;
    for _passed in 0..w.slots_in_use() {
        match first(w, at) {
            None => return at,
            Some(entry) => {
                if !entry.deleted {
                    return at;
                }
                at = entry.link;
            }
        }
    }
    at
}

/// The first undeleted entry of a list, if there is one.
pub fn first_undeleted<'w, L: LinkedList, J: Deferred>(
    w: &'w World<L, J>,
    cell: &'w AtomicShared<L>,
) -> Option<&'w L>
    requires { Hangs L.link w.now (shared_cell cell.now) }
    ensures { OfList L.link w.now cell.now (λ t es. option_copied result ≡ first_item (undeleted es)) }
{
    match atomic_shared::as_ref(w, skip_from(w, cell)) {
        None => None,
        Some(item) => Some(item),
    }
}

/// One more, unless the entry is deleted.
fn counted(count: usize, deleted: bool) -> usize
    requires { count < 18446744073709551615 }
    ensures { result ≡ cond deleted count (count + 1) }
{
    if deleted { count } else { count + 1 }
}

/// How many entries of a list aren't deleted.
pub fn count<L: LinkedList, J: Deferred>(w: &World<L, J>, cell: &AtomicShared<L>) -> usize
    requires { Hangs L.link w.now (shared_cell cell.now) }
    ensures { OfList L.link w.now cell.now (λ t es. result ≡ length (undeleted es)) }
{
    let mut at = cell;
    let mut count = 0;
    for _passed in 0..w.slots_in_use() {
        match first(w, at) {
            None => return count,
            Some(entry) => {
                count = counted(count, entry.deleted);
                at = entry.link;
            }
        }
    }
    count
}

/// Gives the first entry of a list back.
fn drop_first<L: LinkedList, J: Deferred>(w: &mut World<L, J>, cell: &AtomicShared<L>, p: usize)
    requires participant { p < length w.old.participants }
    requires list { Hangs L.link w.old (shared_cell cell.now) }
    ensures dropped { DropsFirst L.link w.old w.new cell.now }
    ensures only { OnlyParticipant p w.old w.new }
    ensures stays { Stays w.old w.new }
{
    match take_first(w, cell) {
        None => {}
        Some(first) => {
            shared::release(w, first, p);
        }
    }
}

/// Gives the deleted entries at the front of a list back.
pub fn skip_deleted<L: LinkedList, J: Deferred>(
    w: &mut World<L, J>,
    cell: &AtomicShared<L>,
    p: usize,
)
    requires participant { p < length w.old.participants }
    requires list { Hangs L.link w.old (shared_cell cell.now) }
    ensures skipped { OfList L.link w.old cell.now (λ t es. IsList L.link w.new (shared_cell cell.now) t (skip es)) }
    ensures leaves { OnlyList L.link w.old w.new cell.now }
    ensures same { OfList L.link w.old cell.now (λ t es. SameUses w.old w.new (slots (skip es))) }
    ensures only { OnlyParticipant p w.old w.new }
    ensures stays { Stays w.old w.new }
{
    for _passed in 0..w.slots_in_use() {
        match first(w, cell) {
            None => return,
            Some(front) => {
                if !front.deleted {
                    return;
                }
            }
        }
        drop_first(w, cell, p);
    }
}

/// Tags an entry that is in no list as deleted.
pub fn delete<L: LinkedList, J: Deferred>(w: &mut World<L, J>, owner: &Shared<L>)
    requires { (e : Entry L) × IsDetached L.link w.old e × (shared_slot owner.now ≡ e.slot) }
    ensures deleted { (e : Entry L) → IsDetached L.link w.old e → shared_slot owner.now ≡ e.slot → w.new ≡ with_cell e.link (Cell.OfShared None Tag.Second) w.old }
    ensures participants { w.new.participants ≡ w.old.participants }
    ensures stays { Stays w.old w.new }
{
    let link = link_of(w, owner);
    let (next, _tag) = atomic_shared::swap(w, link.cell(), (None, Tag::Second));
    match next {
        None => {}
        Some(_) => unreachable!(),
    }
}

/// Another owner of the first entry of a list; none where the list is empty, and at the greatest count of owners.
pub fn share_first<L: LinkedList, J: Deferred>(
    w: &mut World<L, J>,
    cell: &AtomicShared<L>,
) -> Option<Shared<L>>
    requires { Hangs L.link w.old (shared_cell cell.now) }
    ensures hung { OfList L.link w.old cell.now (λ t es. IsList L.link w.new (shared_cell cell.now) t es) }
    ensures some { IfSome result (λ s. OfList L.link w.old cell.now (λ t es. Some (shared_slot s) ≡ first_slot es)) }
    ensures none { IfNone result (OfList L.link w.old cell.now (λ t es. IfSome (first_slot es) (λ i. status_at w.old i ≡ Status.Shared 4294967295))) }
    ensures leaves { OnlyList L.link w.old w.new cell.now }
    ensures owners { MoreOwners w.old w.new }
    ensures more { IfSome result (λ s. OneMore w.old w.new (shared_slot s)) }
    ensures participants { w.new.participants ≡ w.old.participants }
    ensures stays { Stays w.old w.new }
{
    let Some(first) = take_first(w, cell) else {
        return None;
    };
    match shared::clone(w, &first) {
        None => {
            put_first(w, cell, first);
            None
        }
        Some(other) => {
            put_first(w, cell, first);
            Some(other)
        }
    }
}

/// Gives all entries of a list back.
pub fn clear<L: LinkedList, J: Deferred>(w: &mut World<L, J>, cell: &AtomicShared<L>, p: usize)
    requires participant { p < length w.old.participants }
    requires list { Hangs L.link w.old (shared_cell cell.now) }
    ensures cleared { OfList L.link w.old cell.now (λ t es. IsList L.link w.new (shared_cell cell.now) t []) }
    ensures leaves { OnlyList L.link w.old w.new cell.now }
    ensures only { OnlyParticipant p w.old w.new }
    ensures stays { Stays w.old w.new }
{
    for _passed in 0..w.slots_in_use() {
        let Some(_entry) = first(w, cell) else {
            return;
        };
        drop_first(w, cell, p);
    }
}

/// Ends an empty cell.
pub fn end<L, J: Deferred>(w: &mut World<L, J>, cell: AtomicShared<L>)
    requires { (t : Tag) × (cell_at w.old (shared_cell cell) ≡ Cell.OfShared None t) }
    ensures ended { w.new ≡ with_cell (shared_cell cell) Cell.Free w.old }
    ensures free { IsFreeCell w.new (shared_cell cell) }
    ensures participants { w.new.participants ≡ w.old.participants }
    ensures stays { Stays w.old w.new }
{
    match atomic_shared::into_shared(w, cell) {
        None => {}
        Some(_) => unreachable!(),
    }
}

/// What a condition answers for an entry.
pub fn answer<E, F: FnOnce(&E) -> bool>(condition: F, entry: &E) -> bool
    requires { F.IsAlwaysCallable condition }
    ensures { FnOnceReturnsAt F.FnOnce condition entry.now result }
{
    condition(entry)
}
