//! The places of readers: each has a guard, and the version that it loaded under it.

ghost use Rattle.std.specs.Prelude.{◌≡◌, ◌≤◌, ◌<◌, ℕ, Option, None, Some, [], IfSome, IsTrue, ◌↔◌, length, map, replicate, slice_get, vec_capacity};
ghost use Rattle.std.specs.List.{All};
ghost use Rattle.std.specs.Option.{option_map};
ghost use Rattle.sdd_world.specs.State.{value_at};
ghost use Rattle.sdd_world.specs.View.{IsFreeList};
ghost use Rattle.local_versions.specs.Store.{HasOpen, IsStore, HasVersionOpen, Version, directory_version, gap, read_by};
ghost use Rattle.version_views.specs.Versions.{IsVersion, list_of};

use crate::reads::version_at;
use sdd_world::groups::Group;
use sdd_world::guard::WorldGuard;
use sdd_world::job::NoJob;
use sdd_world::pointer::Loaded;
use sdd_world::world::World;
use version_views::{Directory, Item};

/// What the place of a reader has: its guard, and the version that it loaded under it.
pub(crate) struct Opened<K: Ord, V, const S: usize> {
    pub(crate) guard: WorldGuard,
    pub(crate) root: Loaded<Item<K, V, S>>,
}

/// The directory of the version that the reader of a place has.
pub(crate) fn read_at<'w, K: Ord, V, const S: usize>(
    w: &'w World<Item<K, V, S>, NoJob>,
    readers: &[Option<Opened<K, V, S>>],
    place: usize,
) -> &'w Directory<K, Group>
    requires store { (root : ℕ) × IsStore K.cmp w.now root readers.now }
    requires reader { (v : Version K V) × HasOpen w.now readers.now place v }
    ensures version { IsVersion K.cmp w.now.groups (value_at w.now) result.now }
    ensures is { (v : Version K V) → HasOpen w.now readers.now place v → list_of w.now.groups (value_at w.now) result.now ≡ v.pairs }
    ensures number { (v : Version K V) → HasOpen w.now readers.now place v → result.now.number ≡ v.number }
{
    match &readers[place] {
        Some(opened) => seen(w, opened),
        None => unreachable!(),
    }
}

/// The directory of the version with the greatest number up to this one that a reader has.
pub(crate) fn nearest<'w, K: Ord, V, const S: usize>(
    w: &'w World<Item<K, V, S>, NoJob>,
    readers: &[Option<Opened<K, V, S>>],
    number: u64,
) -> Option<&'w Directory<K, Group>>
    requires { (root : ℕ) × IsStore K.cmp w.now root readers.now }
    ensures version { IfSome result (λ d. IsVersion K.cmp w.now.groups (value_at w.now) d.now) }
    ensures reader { IfSome result (λ d. (place : ℕ) × HasOpen w.now readers.now place (directory_version w.now d.now)) }
    ensures number { IfSome result (λ d. d.now.number ≤ number) }
{
    let mut found: Option<&'w Directory<K, Group>> = None;
    for place in 0..readers.len() {
        if let Some(opened) = &readers[place] {
            let version = seen(w, opened);
            if version.number() <= number && is_later(version, found) {
                found = Some(version);
            }
        }
    }
    found
}

/// Whether no place has a reader.
pub(crate) fn are_free<K: Ord, V, const S: usize>(readers: &[Option<Opened<K, V, S>>]) -> bool
    ensures { IsTrue result ↔ All (λ p. p ≡ None) readers.now }
{
    for place in readers {
        if place.is_some() {
            return false;
        }
    }
    true
}

/// Places without readers, as many as room was made for.
pub(crate) fn free_all<K: Ord, V, const S: usize>(
    readers: &mut Vec<Option<Opened<K, V, S>>>,
    free: &mut Vec<usize>,
    count: usize,
)
    requires empty { readers.old.items ≡ [] }
    requires none { free.old.items ≡ [] }
    requires room { count ≤ vec_capacity readers.old }
    requires names { count ≤ vec_capacity free.old }
    ensures readers { readers.new.items ≡ replicate count None }
    ensures free { IsFreeList gap readers.new.items (length readers.new.items) free.new }
{
    for place in 0..count {
        readers.push_reserved(None);
        free.push_reserved(place);
    }
}

/// Ends places that have no readers.
pub(crate) fn end_all<K: Ord, V, const S: usize>(mut readers: Vec<Option<Opened<K, V, S>>>)
    requires { All (λ p. p ≡ None) readers.items }
{
    'ending: while let Some(taken) = readers.pop() {
        match taken {
            None => {},
            Some(_) => unreachable!(),
        }
    }
    readers.destroy_empty();
}

/// The directory of the version that was loaded.
fn seen<'w, K: Ord, V, const S: usize>(
    w: &'w World<Item<K, V, S>, NoJob>,
    opened: &Opened<K, V, S>,
) -> &'w Directory<K, Group>
    requires { (p : ℕ) × HasVersionOpen K.cmp w.now p opened.now }
    ensures version { IsVersion K.cmp w.now.groups (value_at w.now) result.now }
    ensures is { record { number = result.now.number; pairs = list_of w.now.groups (value_at w.now) result.now } ≡ read_by w.now opened.now }
{
    version_at(w, &opened.root)
}

/// Whether a version is later than another, if there is one.
fn is_later<K>(version: &Directory<K, Group>, found: Option<&Directory<K, Group>>) -> bool
    ensures { IsTrue result ↔ IfSome found.entry (λ f. f.now.number < version.now.number) }
{
    match found {
        Some(found) => found.number() < version.number(),
        None => true,
    }
}
