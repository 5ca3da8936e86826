//! What is done with places of versions.

ghost use Rattle.std.specs.Prelude.{◌≡◌, ◌<◌, ◌≤◌, ◌∷◌, [], ℕ, List, Ok, length};
ghost use Rattle.leaf_array.specs.Values.{ClonesAreSame};
ghost use Rattle.sdd_world.specs.Counting.{Counted};
ghost use Rattle.sdd_world.specs.Holding.{SharedItem};
ghost use Rattle.sdd_world.specs.Place.{IsShared};
ghost use Rattle.sdd_world.specs.Tokens.{shared_slot};
ghost use Rattle.version_views.specs.Items.{held_by};
ghost use Rattle.local_versions.specs.Placing.{HasVersion};

use local_versions::{Built, Item, PlaceRefused, Write, build, place, version};
use sdd_world::holds::Holds;
use sdd_world::job::NoJob;
use sdd_world::owner::Shared;
use sdd_world::sizes::Sizes;
use sdd_world::world::{World, shared};
use std::alloc::Global;
use std::process::Abort;

// Items of versions with two pairs in a segment.
pub(crate) type Two = Item<u64, u64, 2>;

// A place with a version and the empty one.
pub(crate) struct Held<K: Ord, const S: usize> {
    pub(crate) w: World<Item<K, u64, S>, NoJob>,
    pub(crate) none: Shared<Item<K, u64, S>>,
    pub(crate) root: Shared<Item<K, u64, S>>,
}

// A place with the version that writes make of the empty one.
pub(crate) fn prepared<R: Abort, K: Clone + Ord + Drop, const S: usize>(
    rt: &R,
    alloc: Global,
    writes: &[Write<K, u64>],
) -> Held<K, S>
    requires size { (1 ≤ S) × (S ≤ 225) }
    requires keys { ClonesAreSame K.is_clone }
    ensures participants { 0 < length result.w.participants }
    ensures shared { IsShared result.w (shared_slot result.root) }
    ensures version { (n : ℕ) × (ps : List (K × ℕ)) × HasVersion K.cmp result.w (shared_slot result.root) n ps }
    ensures none { IsShared result.w (shared_slot result.none) }
    ensures empty { (n : ℕ) × (ps : List (K × ℕ)) × HasVersion K.cmp result.w (shared_slot result.none) n ps }
    ensures counted { Counted held_by (SharedItem (shared_slot result.root) ∷ SharedItem (shared_slot result.none) ∷ []) result.w }
{
    let sizes = Sizes {
        participants: 1,
        slots: 1000,
        cells: 0,
        jobs: 0,
    };
    let mut w: World<Item<K, u64, S>, NoJob> = match World::new(alloc, sizes) {
        Ok(w) => w,
        Err(_) => panic!(rt; "no room for a place"),
    };
    let none = match place(alloc, &mut w, Built::empty(alloc), None) {
        Ok(none) => none,
        Err(_) => panic!(rt; "no slot for the empty version"),
    };
    let (built, _) = match build(alloc, &w, version(&w, &none), writes) {
        Ok(made) => made,
        Err(_) => panic!(rt; "no room for a version"),
    };
    let root = match place(alloc, &mut w, built, Some(shared::owned_at(&none))) {
        Ok(root) => root,
        Err(_) => panic!(rt; "no slots for a version"),
    };
    Held { w, none, root }
}

// Gives both versions back, and ends the place.
pub(crate) fn end<R: Abort, K: Ord + Drop, const S: usize>(rt: &R, held: Held<K, S>)
    requires participants { 0 < length held.w.participants }
    requires counted { Counted held_by (SharedItem (shared_slot held.root) ∷ SharedItem (shared_slot held.none) ∷ []) held.w }
{
    let Held { mut w, none, root } = held;
    let _ = shared::release(&mut w, root, 0);
    let _ = shared::release(&mut w, none, 0);
    close(rt, w);
}

// Ends a place in which nothing is left.
pub(crate) fn close<R: Abort, T: Holds>(rt: &R, w: World<T, NoJob>) {
    match w.close() {
        Ok(()) => {}
        Err(_) => panic!(rt; "something is left"),
    }
}

// Upserts of these pairs.
pub(crate) fn upserts<R: Abort>(
    rt: &R,
    alloc: Global,
    pairs: &[(u64, u64)],
) -> Vec<Write<u64, u64>> {
    let mut writes = Vec::new(alloc);
    for pair in pairs {
        assert!(rt; writes.push(Write::Upsert(pair.0, pair.1)).is_ok());
    }
    writes
}

// The owner of a version that was placed.
pub(crate) fn placed<R: Abort>(
    rt: &R,
    made: Result<Shared<Two>, PlaceRefused<u64, u64, 2>>,
) -> Shared<Two>
    ensures { made ≡ Ok result }
{
    match made {
        Ok(root) => root,
        Err(_) => panic!(rt; "no slots for a version"),
    }
}
