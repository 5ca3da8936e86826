//! The calls of `LinkedList` over a `World`: an entry is named by a pointer.

ghost use Rattle.std.specs.Prelude.{◌≡◌, ◌<◌, ◌+◌, ℕ, List, [], ◌∷◌, true, ◌↔◌, cond, Some, IfSome, IfNone, IfOk, IfErr, OnOk, IsErr, IsTrue, IsFalse, not};
ghost use Rattle.sdd_world.specs.Tokens.{ptr_slot, ptr_tag, link_cell, shared_slot};
ghost use Rattle.sdd_world.specs.Place.{AddsOwner, IsShared};
ghost use Rattle.sdd_world.specs.Steps.{released};
ghost use Rattle.sdd_world.specs.declared.tag.Tag.{Tag};
ghost use Rattle.sdd_lists.specs.Chain.{Entry, IsList, Leaves, Stays, deleted, undeleted, skip, first_slot, front_tag};
ghost use Rattle.sdd_lists.specs.Nodes.{NamesSomeEntry, IsListed, CanInsert, Inserts, Retags, clear, mark_tag, marked};
ghost use Rattle.sdd_lists.specs.Calls.{NextIsFull, OfEntry, OfInsertion, OfNode, OnlyLink};

use crate::linked_list::LinkedList;
use crate::world::chain;
use sdd_world::guard::WorldGuard;
use sdd_world::job::Deferred;
use sdd_world::link::Link;
use sdd_world::owner::Shared;
use sdd_world::pointer::Ptr;
use sdd_world::status::Status;
use sdd_world::tag::Tag;
use sdd_world::world::{World, atomic_shared};

/// The link of the entry that `at` names.
fn link_at<L: LinkedList, J: Deferred>(w: &World<L, J>, at: &Ptr<'static, L>) -> Link<L>
    requires { NamesSomeEntry L.link w.now (ptr_slot at.now) }
    ensures { OfEntry L.link w.now (ptr_slot at.now) (λ e. link_cell result ≡ e.link) }
{
    match w.read(at) {
        Some(item) => Link::of(item.link_ref()),
        None => unreachable!(),
    }
}

/// The tag of the entry that `at` names.
fn tag_of<L: LinkedList, J: Deferred>(w: &World<L, J>, at: &Ptr<'static, L>) -> Tag
    requires { NamesSomeEntry L.link w.now (ptr_slot at.now) }
    ensures { OfEntry L.link w.now (ptr_slot at.now) (λ e. result ≡ e.tag) }
{
    atomic_shared::tag(w, link_at(w, at).cell())
}

/// Gives the entry that `at` names another tag.
fn set_tag<L: LinkedList, J: Deferred>(w: &mut World<L, J>, at: &Ptr<'static, L>, tag: Tag)
    requires { NamesSomeEntry L.link w.old (ptr_slot at.now) }
    ensures retags { OfEntry L.link w.old (ptr_slot at.now) (λ e. Retags L.link w.old w.new e tag) }
    ensures leaves { OfEntry L.link w.old (ptr_slot at.now) (λ e. Leaves (e.link ∷ []) [] w.old w.new) }
    ensures participants { w.new.participants ≡ w.old.participants }
    ensures stays { Stays w.old w.new }
{
    let link = link_at(w, at);
    let (next, _tag) = atomic_shared::swap(w, link.cell(), (None, tag));
    chain::fill(w, link.cell(), next);
}

/// Whether a tag is that of a clear entry.
fn is_clear_tag(tag: Tag) -> bool
    ensures { result ≡ clear tag }
{
    match tag {
        Tag::None => true,
        Tag::First | Tag::Second | Tag::Both => false,
    }
}

/// Whether a tag is that of a marked entry.
fn is_marked_tag(tag: Tag) -> bool
    ensures { result ≡ marked tag }
{
    match tag {
        Tag::First => true,
        Tag::None | Tag::Second | Tag::Both => false,
    }
}

/// Whether the entry that `at` names is neither marked nor deleted.
pub fn is_clear<L: LinkedList, J: Deferred>(w: &World<L, J>, at: Ptr<'static, L>) -> bool
    requires { NamesSomeEntry L.link w.now (ptr_slot at) }
    ensures { OfEntry L.link w.now (ptr_slot at.entry) (λ e. result ≡ clear e.tag) }
{
    is_clear_tag(tag_of(w, &at))
}

/// Whether the entry that `at` names is marked.
pub fn is_marked<L: LinkedList, J: Deferred>(w: &World<L, J>, at: Ptr<'static, L>) -> bool
    requires { NamesSomeEntry L.link w.now (ptr_slot at) }
    ensures { OfEntry L.link w.now (ptr_slot at.entry) (λ e. result ≡ marked e.tag) }
{
    is_marked_tag(tag_of(w, &at))
}

/// Whether the entry that `at` names is deleted.
pub fn is_deleted<L: LinkedList, J: Deferred>(w: &World<L, J>, at: Ptr<'static, L>) -> bool
    requires { NamesSomeEntry L.link w.now (ptr_slot at) }
    ensures { OfEntry L.link w.now (ptr_slot at.entry) (λ e. result ≡ deleted e.tag) }
{
    chain::is_deleted(tag_of(w, &at))
}

/// Marks a clear entry, and answers whether it was clear.
pub fn mark<L: LinkedList, J: Deferred>(w: &mut World<L, J>, at: Ptr<'static, L>) -> bool
    requires { NamesSomeEntry L.link w.old (ptr_slot at) }
    ensures when { OfEntry L.link w.old (ptr_slot at.entry) (λ e. result ≡ clear e.tag) }
    ensures marked { IsTrue result → OfEntry L.link w.old (ptr_slot at.entry) (λ e. Retags L.link w.old w.new e Tag.First) }
    ensures kept { IsFalse result → w.new ≡ w.old }
    ensures leaves { OnlyLink L.link w.old w.new (ptr_slot at.entry) }
    ensures participants { w.new.participants ≡ w.old.participants }
    ensures stays { Stays w.old w.new }
{
    if !is_clear_tag(tag_of(w, &at)) {
        return false;
    }
    set_tag(w, &at, Tag::First);
    true
}

/// Clears a marked entry, and answers whether it was marked.
pub fn unmark<L: LinkedList, J: Deferred>(w: &mut World<L, J>, at: Ptr<'static, L>) -> bool
    requires { NamesSomeEntry L.link w.old (ptr_slot at) }
    ensures when { OfEntry L.link w.old (ptr_slot at.entry) (λ e. result ≡ marked e.tag) }
    ensures cleared { IsTrue result → OfEntry L.link w.old (ptr_slot at.entry) (λ e. Retags L.link w.old w.new e Tag.None) }
    ensures kept { IsFalse result → w.new ≡ w.old }
    ensures leaves { OnlyLink L.link w.old w.new (ptr_slot at.entry) }
    ensures participants { w.new.participants ≡ w.old.participants }
    ensures stays { Stays w.old w.new }
{
    if !is_marked_tag(tag_of(w, &at)) {
        return false;
    }
    set_tag(w, &at, Tag::None);
    true
}

/// Deletes an entry that isn't deleted, and answers whether it did. It stays linked until it is passed at the front of
/// its list.
pub fn delete_self<L: LinkedList, J: Deferred>(w: &mut World<L, J>, at: Ptr<'static, L>) -> bool
    requires { NamesSomeEntry L.link w.old (ptr_slot at) }
    ensures when { OfEntry L.link w.old (ptr_slot at.entry) (λ e. result ≡ not (deleted e.tag)) }
    ensures deleted { IsTrue result → OfEntry L.link w.old (ptr_slot at.entry) (λ e. Retags L.link w.old w.new e Tag.Second) }
    ensures kept { IsFalse result → w.new ≡ w.old }
    ensures leaves { OnlyLink L.link w.old w.new (ptr_slot at.entry) }
    ensures participants { w.new.participants ≡ w.old.participants }
    ensures stays { Stays w.old w.new }
{
    if chain::is_deleted(tag_of(w, &at)) {
        return false;
    }
    set_tag(w, &at, Tag::Second);
    true
}

/// The tag of a marked entry, or of a clear one.
fn mark_of(mark: bool) -> Tag
    ensures { result ≡ mark_tag mark }
{
    if mark { Tag::First } else { Tag::None }
}

/// Puts `entry` behind the entry that `at` names, which is marked by that if `mark` is true and clear otherwise, and gives
/// a pointer to it with the same tag. If the entry that `at` names is deleted, `entry` is returned and nothing has
/// changed. Conditions: `entry` is clear, has no next one, is in no list and isn't the one that `at` names.
pub fn push_back<L: LinkedList, J: Deferred>(
    w: &mut World<L, J>,
    at: Ptr<'static, L>,
    entry: Shared<L>,
    mark: bool,
    guard: &WorldGuard,
) -> Result<Ptr<'static, L>, Shared<L>>
    requires { CanInsert L.link w.old (ptr_slot at) (shared_slot entry) }
    ensures when { OfEntry L.link w.old (ptr_slot at.entry) (λ e. IsErr result ↔ (deleted e.tag ≡ true)) }
    ensures back { IfErr result (λ s. (shared_slot s ≡ shared_slot entry) × (w.new ≡ w.old)) }
    ensures pointer { IfOk result (λ r. (ptr_slot r ≡ Some (shared_slot entry)) × (ptr_tag r ≡ mark_tag mark)) }
    ensures pushed { OnOk result (OfInsertion L.link w.old (ptr_slot at.entry) (shared_slot entry) (λ e x. Inserts L.link w.old w.new e (mark_tag mark) x)) }
    ensures leaves { OfInsertion L.link w.old (ptr_slot at.entry) (shared_slot entry) (λ e x. Leaves (e.link ∷ x.link ∷ []) [] w.old w.new) }
    ensures participants { w.new.participants ≡ w.old.participants }
    ensures stays { Stays w.old w.new }
{
    let link = link_at(w, &at);
    if chain::is_deleted(atomic_shared::tag(w, link.cell())) {
        return Err(entry);
    }
    set_tag(w, &at, mark_of(mark));
    chain::put_first(w, link.cell(), entry);
    Ok(atomic_shared::load(w, link.cell(), guard))
}

/// The next entry that isn't deleted, with the tag of the cell that keeps it, or null. It changes nothing.
pub fn next_ptr<L: LinkedList, J: Deferred>(
    w: &World<L, J>,
    at: Ptr<'static, L>,
    guard: &WorldGuard,
) -> Ptr<'static, L>
    requires { IsListed L.link w.now (ptr_slot at) }
    ensures next { OfNode L.link w.now (ptr_slot at.entry) (λ e es. ptr_slot result ≡ first_slot (undeleted es)) }
    ensures tag { OfNode L.link w.now (ptr_slot at.entry) (λ e es. ptr_tag result ≡ front_tag e.tag es) }
    ensures node { IfSome (ptr_slot result) (λ i. NamesSomeEntry L.link w.now (Some i)) }
    ensures listed { IfSome (ptr_slot result) (λ i. IsListed L.link w.now (Some i)) }
{
    let link = next_link(w, &at);
    atomic_shared::load(w, link.cell(), guard)
}

/// The link behind the entry that `at` names and the deleted ones after it.
fn next_link<L: LinkedList, J: Deferred>(w: &World<L, J>, at: &Ptr<'static, L>) -> Link<L>
    requires { IsListed L.link w.now (ptr_slot at.now) }
    ensures { OfNode L.link w.now (ptr_slot at.now) (λ e es. (u : Tag) × IsList L.link w.now (link_cell result) u (skip es) × (u ≡ front_tag e.tag es)) }
{
    match w.read(at) {
        Some(item) => Link::of(chain::skip_from(w, item.link_ref())),
        None => unreachable!(),
    }
}

/// Another owner of the next entry that isn't deleted; none where there is no such entry, and at the greatest count of
/// owners. Every list stays, and once the owner is given back, all is as it was.
pub fn next_shared<L: LinkedList, J: Deferred>(
    w: &mut World<L, J>,
    at: Ptr<'static, L>,
    guard: &WorldGuard,
) -> Option<Shared<L>>
    requires { IsListed L.link w.old (ptr_slot at) }
    ensures next { IfSome result (λ s. OfNode L.link w.old (ptr_slot at.entry) (λ e es. Some (shared_slot s) ≡ first_slot (undeleted es))) }
    ensures more { IfSome result (λ s. AddsOwner (shared_slot s) w.old w.new) }
    ensures none { IfNone result ((w.new ≡ w.old) × NextIsFull L.link w.old (ptr_slot at.entry)) }
    ensures lists { (c : ℕ) (t : Tag) (es : List (Entry L)) → IsList L.link w.old c t es → IsList L.link w.new c t es }
    ensures live { IfSome result (λ s. IsShared w.new (shared_slot s)) }
    ensures spare { IfSome result (λ s. (p : ℕ) → released p (shared_slot s) w.new ≡ w.old) }
    ensures stays { Stays w.old w.new }
{
    let link = next_link(w, &at);
    match atomic_shared::get_shared(w, link.cell(), guard) {
        Some(next) => Some(next),
        None => None,
    }
}
