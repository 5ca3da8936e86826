//! Versions in a place of one thread.

ghost use Rattle.std.specs.Prelude.{◌≡◌, ◌<◌, ◌≤◌, ◌+◌, ◌^◌, [], ℕ, List, None, Some, length};
ghost use Rattle.sdd_world.specs.Place.{IsReadable, IsShared};
ghost use Rattle.sdd_world.specs.State.{value_at};
ghost use Rattle.sdd_world.specs.Tokens.{loaded_slot, shared_slot};
ghost use Rattle.tree_index.specs.Proximity.{IsLocated};
ghost use Rattle.version_views.specs.Items.{slots_of};
ghost use Rattle.version_views.specs.Nearby.{as_proximity};
ghost use Rattle.local_versions.specs.Placing.{HasVersion, HasNumberAndList};
ghost use Rattle.version_views.specs.Versions.{IsVersion, blocks_of, list_of};
ghost use Rattle.version_views.specs.Views.{LooksUp, cursor_within};

use sdd_world::groups::Group;
use sdd_world::job::NoJob;
use sdd_world::owner::Shared;
use sdd_world::pointer::Loaded;
use sdd_world::world::{World, shared};
use std::ops::Bound;
use tree_index::Steps;
use version_views::{Directory, Item, LocalNearby, LocalView, LocalWalk, VersionView};

/// The directory of a version that has an owner.
pub fn version<'w, K: Ord, V, const S: usize>(
    w: &'w World<Item<K, V, S>, NoJob>,
    root: &Shared<Item<K, V, S>>,
) -> &'w Directory<K, Group>
    requires shared { IsShared w.now (shared_slot root.now) }
    requires version { (n : ℕ) × (ps : List (K × V)) × HasVersion K.cmp w.now (shared_slot root.now) n ps }
    ensures version { IsVersion K.cmp w.now.groups (value_at w.now) result.now }
    ensures is { (n : ℕ) (ps : List (K × V)) → HasVersion K.cmp w.now (shared_slot root.now) n ps → HasNumberAndList w.now n ps result.now }
    ensures stands { value_at w.now (shared_slot root.now) ≡ Some (Item.Directory result.now) }
{
    match shared::as_ref(w, root).directory() {
        Some(directory) => directory,
        None => unreachable!(),
    }
}

/// The directory of a version that an open guard protects, as it was loaded under it.
pub fn version_at<'w, K: Ord, V, const S: usize>(
    w: &'w World<Item<K, V, S>, NoJob>,
    at: &Loaded<Item<K, V, S>>,
) -> &'w Directory<K, Group>
    requires readable { IsReadable w.now (loaded_slot at.now) }
    requires version { (i n : ℕ) × (ps : List (K × V)) × (loaded_slot at.now ≡ Some i) × HasVersion K.cmp w.now i n ps }
    ensures version { IsVersion K.cmp w.now.groups (value_at w.now) result.now }
    ensures is { (i n : ℕ) (ps : List (K × V)) → loaded_slot at.now ≡ Some i → HasVersion K.cmp w.now i n ps → HasNumberAndList w.now n ps result.now }
    ensures stands { (i : ℕ) → loaded_slot at.now ≡ Some i → value_at w.now i ≡ Some (Item.Directory result.now) }
{
    match w.read_loaded(at) {
        Some(item) => match item.directory() {
            Some(directory) => directory,
            None => unreachable!(),
        },
        None => unreachable!(),
    }
}

/// The version of a directory.
pub fn view_of<'a, K: Ord, V, const S: usize>(
    w: &'a World<Item<K, V, S>, NoJob>,
    dir: &'a Directory<K, Group>,
) -> LocalView<'a, K, V, S>
    requires { IsVersion K.cmp w.now.groups (value_at w.now) dir.now }
    ensures { result ≡ blocks_of w.now.groups (value_at w.now) dir.now }
{
    VersionView::new(w.table(), dir)
}

/// The pair with this key in the list of a version: [`VersionView::get`].
pub fn look_up<'a, K: Ord, V, const S: usize>(
    w: &'a World<Item<K, V, S>, NoJob>,
    dir: &'a Directory<K, Group>,
    key: &K,
) -> Option<(&'a K, &'a V)>
    requires { IsVersion K.cmp w.now.groups (value_at w.now) dir.now }
    ensures { LooksUp K.cmp key.now (list_of w.now.groups (value_at w.now) dir.now) result }
{
    let mut steps = Steps::new();
    look_up_counted(w, dir, key, &mut steps)
}

/// The same, with its comparisons counted: [`VersionView::get_counted`].
pub fn look_up_counted<'a, K: Ord, V, const S: usize>(
    w: &'a World<Item<K, V, S>, NoJob>,
    dir: &'a Directory<K, Group>,
    key: &K,
    steps: &mut Steps,
) -> Option<(&'a K, &'a V)>
    requires { IsVersion K.cmp w.now.groups (value_at w.now) dir.now }
    ensures pair { LooksUp K.cmp key.now (list_of w.now.groups (value_at w.now) dir.now) result }
    ensures cost { (digits : ℕ) → length (slots_of w.now.groups dir.now) < 2 ^ digits → steps.new.count ≤ steps.old.count + 30 + digits }
    ensures raised { steps.old.count ≤ steps.new.count }
    ensures none { list_of w.now.groups (value_at w.now) dir.now ≡ [] → steps.new.count ≡ steps.old.count }
{
    view_of(w, dir).get_counted(key, steps)
}

/// How many pairs the list of a version has: [`VersionView::len`].
pub fn len<K: Ord, V, const S: usize>(
    w: &World<Item<K, V, S>, NoJob>,
    dir: &Directory<K, Group>,
) -> usize
    requires { IsVersion K.cmp w.now.groups (value_at w.now) dir.now }
    ensures { result ≡ length (list_of w.now.groups (value_at w.now) dir.now) }
{
    view_of(w, dir).len()
}

/// A cursor over the list of a version within two bounds: [`VersionView::walk`].
pub fn walk<'a, K: Ord, V, const S: usize>(
    w: &'a World<Item<K, V, S>, NoJob>,
    dir: &'a Directory<K, Group>,
    lower: Bound<&'a K>,
    upper: Bound<&'a K>,
) -> LocalWalk<'a, K, V, S>
    requires { IsVersion K.cmp w.now.groups (value_at w.now) dir.now }
    ensures countable { length (list_of w.now.groups (value_at w.now) dir.now) < 2 ^ 64 }
    ensures cursor { result ≡ cursor_within (list_of w.now.groups (value_at w.now) dir.now) lower.entry upper.entry }
{
    let version = view_of(w, dir);
    version.laws();
    version.walk(lower, upper)
}

/// Where a key is among the pairs of a version: [`VersionView::locate`].
pub fn locate<'a, K: Ord, V, const S: usize>(
    w: &'a World<Item<K, V, S>, NoJob>,
    dir: &'a Directory<K, Group>,
    key: &K,
) -> LocalNearby<'a, K, V, S>
    requires { IsVersion K.cmp w.now.groups (value_at w.now) dir.now }
    ensures { IsLocated K.cmp key.now (list_of w.now.groups (value_at w.now) dir.now) (as_proximity result) }
{
    view_of(w, dir).locate(key)
}
