//! Placing versions, publishing them, and the slots that they take.

ghost use Rattle.std.specs.Prelude.{◌≡◌, ◌<◌, ◌≤◌, ◌∷◌, [], List, length, Ok, Some};
ghost use Rattle.sdd_world.specs.Counting.{Counted};
ghost use Rattle.sdd_world.specs.Holding.{Hold, SharedItem};
ghost use Rattle.sdd_world.specs.Place.{IsShared};
ghost use Rattle.sdd_world.specs.State.{value_at};
ghost use Rattle.sdd_world.specs.Tokens.{shared_slot};
ghost use Rattle.std.specs.Ordering.{nat_cmp};
ghost use Rattle.local_versions.specs.Placing.{IsPlaceable, IsSettled};
ghost use Rattle.version_views.specs.Items.{held_by};
ghost use Rattle.version_views.specs.Versions.{IsVersion};

use crate::places::{Two, close, placed, upserts};
use local_versions::{
    Built, Directory, PlaceRefused, Reply, build, len, look_up, place, publish, version,
};
use sdd_world::groups::Group;
use sdd_world::job::NoJob;
use sdd_world::owner::Shared;
use sdd_world::sizes::Sizes;
use sdd_world::world::{World, atomic_shared, guard, shared};
use std::alloc::Global;
use std::process::Abort;

// A place for one participant and one root, with this many slots.
fn sizes(slots: usize) -> Sizes
    ensures { result ≡ record { participants = 1; slots = slots; cells = 1; jobs = 0 } }
{
    Sizes {
        participants: 1,
        slots,
        cells: 1,
        jobs: 0,
    }
}

// Accelerated guards of participant 0, one by one. Owners stay counted.
fn passes(w: &mut World<Two, NoJob>, n: usize)
    requires { 0 < length w.old.participants }
    ensures participants { 0 < length w.new.participants }
    ensures counted { (hand : List Hold) → Counted held_by hand w.old → Counted held_by hand w.new }
{
    for _ in 0..n {
        w.laws();
        if let Ok(open) = guard::new(w, 0) {
            guard::accelerate(w, &open);
            guard::close(w, open);
        }
    }
}

// How many pairs a version has, and the values of four keys.
fn found(w: &World<Two, NoJob>, dir: &Directory<u64, Group>) -> (usize, [Option<u64>; 4])
    requires { IsVersion nat_cmp w.now.groups (value_at w.now) dir.now }
{
    let one = look_up(w, dir, &1).map(|p| *p.1);
    let three = look_up(w, dir, &3).map(|p| *p.1);
    let five = look_up(w, dir, &5).map(|p| *p.1);
    let six = look_up(w, dir, &6).map(|p| *p.1);
    (len(w, dir), [one, three, five, six])
}

const FIVE: &[(u64, u64)] = &[(1, 101), (2, 102), (3, 103), (4, 104), (5, 105)];

// A place with the empty version, and one of five pairs that is built on it and isn't placed yet.
struct Begun {
    w: World<Two, NoJob>,
    first: Shared<Two>,
    built: Built<u64, u64, 2>,
    replies: Vec<Reply>,
    // the slots in use before, and the pairs of the empty version
    empty: (usize, usize),
}

fn begin<R: Abort>(rt: &R, alloc: Global, slots: usize) -> Begun
    requires { slots ≤ 1000 }
    ensures participants { length result.w.participants ≡ 1 }
    ensures shared { IsShared result.w (shared_slot result.first) }
    ensures settled { IsSettled result.w }
    ensures placeable { IsPlaceable nat_cmp result.w (Some (shared_slot result.first)) result.built }
    ensures counted { Counted held_by (SharedItem (shared_slot result.first) ∷ []) result.w }
{
    let mut w: World<Two, NoJob> = match World::new(alloc, sizes(slots)) {
        Ok(w) => w,
        Err(_) => panic!(rt; "no room for a place"),
    };
    let first = placed(rt, place(alloc, &mut w, Built::empty(alloc), None));
    let empty = (w.slots_in_use(), len(&w, version(&w, &first)));
    let writes = upserts(rt, alloc, FIVE);
    let (built, replies) = match build(alloc, &w, version(&w, &first), writes.as_slice()) {
        Ok(made) => made,
        Err(_) => panic!(rt; "no room for a version"),
    };
    Begun {
        w,
        first,
        built,
        replies,
        empty,
    }
}

#[test]
fn a_version_takes_a_slot_for_each_segment_and_one(rt: HostRuntime) {
    let Begun {
        mut w,
        first,
        built,
        replies,
        empty,
    } = begin(&rt, rt.alloc(), 16);
    let takes = built.slots();
    let older = shared::owned_at(&first);
    let second = placed(&rt, place(rt.alloc(), &mut w, built, Some(older)));
    let root = match atomic_shared::from(&mut w, first) {
        Ok(root) => root,
        Err(_) => panic!(rt; "no cell for the root"),
    };
    let rooted = w.slots_in_use();
    let pairs = found(&w, version(&w, &second));
    publish(&mut w, &root, second, 0);
    let published = w.slots_in_use();
    passes(&mut w, 8);
    let reclaimed = w.slots_in_use();
    atomic_shared::retire(&mut w, root, 0);
    passes(&mut w, 7);
    let left = w.slots_in_use();
    close(&rt, w);
    assert_eq!(rt; replies.as_slice(), &[Reply::Upserted; 5][..]);
    assert_eq!(rt;
        (empty, takes, pairs),
        ((1, 0), 4, (5, [Some(101), Some(103), Some(105), None]))
    );
    assert_eq!(rt; (rooted, published, reclaimed, left), (5, 5, 4, 0));
}

#[test]
fn a_version_that_finds_no_room_comes_back(rt: HostRuntime) {
    let Begun {
        mut w,
        first,
        built,
        replies: _,
        empty: _,
    } = begin(&rt, rt.alloc(), 4);
    let back = match place(rt.alloc(), &mut w, built, Some(shared::owned_at(&first))) {
        Err(PlaceRefused::NoSlot(back)) => back.slots(),
        _ => panic!(rt; "there is no room for it"),
    };
    let before = w.slots_in_use();
    let is_last = shared::release(&mut w, first, 0);
    passes(&mut w, 4);
    let after = w.slots_in_use();
    close(&rt, w);
    assert_eq!(rt; (back, before, is_last, after), (4, 1, true, 0));
}
