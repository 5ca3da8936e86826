//! A place, and the single steps beside it, through a schedule of a reader and a writer.

ghost use Rattle.std.specs.Prelude.{◌≡◌, ◌<◌, ◌+◌, ◌-◌, ◌^◌, ◌∷◌, [], List, length};
ghost use Rattle.std.specs.Ordering.{nat_cmp};
ghost use Rattle.sdd_world.specs.Counting.{Counted};
ghost use Rattle.sdd_world.specs.Holding.{Hold, SharedIn, SharedItem};
ghost use Rattle.sdd_world.specs.Place.{IsOpen};
ghost use Rattle.sdd_world.specs.State.{value_at};
ghost use Rattle.sdd_world.specs.Tokens.{guard_participant, shared_cell, shared_slot};
ghost use Rattle.version_views.specs.Items.{held_by};
ghost use Rattle.local_versions.specs.Placing.{IsPlaceableBeside, number_of};
ghost use Rattle.version_views.specs.Versions.{IsVersion};

use crate::places::{Two, close, placed, upserts};
use crate::single_steps::Turn::{Goes, Lift, Rotation, Round, Still};
use crate::single_steps::{Beside, EMPTY, FIRST, READER, SECOND, Turn, WRITER};
use local_versions::{Built, Directory, Write, build, place, publish, version};
use sdd_steps::Step;
use sdd_world::cell::AtomicShared;
use sdd_world::epoch::Epoch;
use sdd_world::groups::Group;
use sdd_world::guard::WorldGuard;
use sdd_world::job::NoJob;
use sdd_world::owner::Shared;
use sdd_world::pointer::Ptr;
use sdd_world::sizes::Sizes;
use sdd_world::world::{World, atomic_shared, guard, shared};
use std::alloc::Global;
use std::process::Abort;

// The count is raised five times; the writer's last opening finds 4.
const LIFTS: &[Turn] = &[Lift, Round, Round, Goes(EMPTY), Round];

// Two rotations, one raise.
const HELD_UP: &[Turn] = &[Round, Rotation, Still, Still, Still, Still, Still, Still];

// The first version goes, and then the segment that it alone had. The taken one stays, which is the second version's too.
const FREED: &[Turn] = &[
    Lift,
    Goes(FIRST),
    Round,
    Round,
    Goes(2),
    Round,
    Round,
    Round,
];

// An accelerated guard of the writer, and the epoch that it finds. Owners stay counted, and the reader's guard open.
fn pass<R: Abort>(rt: &R, w: &mut World<Two, NoJob>) -> Epoch
    requires { 1 < length w.old.participants }
    ensures participants { 1 < length w.new.participants }
    ensures reader { IsOpen w.old 0 → IsOpen w.new 0 }
    ensures counted { (hand : List Hold) → Counted held_by hand w.old → Counted held_by hand w.new }
{
    w.laws();
    match guard::new(w, WRITER) {
        Ok(one) => {
            let epoch = guard::epoch(w, &one);
            guard::accelerate(w, &one);
            guard::close(w, one);
            epoch
        }
        Err(_) => panic!(rt; "nested too often"),
    }
}

// Pointers to the directories of both versions.
#[derive(Drop)]
struct Known {
    first: Ptr<'static, Two>,
    second: Ptr<'static, Two>,
}

// Whether the place has a version, by a pointer to it and its number, if and only if the steps have its item.
fn is_left<R: Abort>(
    w: &World<Two, NoJob>,
    beside: &Beside<'_, R>,
    at: &Ptr<'static, Two>,
    number: u64,
    item: usize,
) -> bool {
    let found = match read(w, at) {
        Some((found, _)) => found == number,
        None => false,
    };
    found == beside.has(item)
}

// Whether the place has the versions that the steps have, and as many items in all: so as many segments too.
fn agrees<R: Abort>(w: &World<Two, NoJob>, beside: &Beside<'_, R>, known: Option<&Known>) -> bool {
    let versions = match known {
        Some(known) => {
            let first = is_left(w, beside, &known.first, 1, FIRST);
            first && is_left(w, beside, &known.second, 2, SECOND)
        }
        None => true,
    };
    versions && w.slots_in_use() == beside.left()
}

// Accelerated guards of the writer in the place and beside it. Each finds the count of the steps, and leaves the versions
// and as many segments as they do.
fn play<'r, R: Abort>(
    rt: &R,
    w: &mut World<Two, NoJob>,
    start: Beside<'r, R>,
    turns: &[Turn],
    known: Option<&Known>,
) -> Beside<'r, R>
    requires { 1 < length w.old.participants }
    ensures participants { 1 < length w.new.participants }
    ensures reader { IsOpen w.old 0 → IsOpen w.new 0 }
    ensures counted { (hand : List Hold) → Counted held_by hand w.old → Counted held_by hand w.new }
{
    let mut beside = start;
    for turn in turns {
        let found = pass(rt, w);
        let wanted = Epoch::of_count(beside.state.count());
        beside = beside.take_turn(*turn);
        assert!(rt; found == wanted && agrees(w, &beside, known));
    }
    beside
}

// A place in which the root names the first version, and the second one has an owner.
struct Begun {
    w: World<Two, NoJob>,
    root: AtomicShared<Two>,
    second: Shared<Two>,
}

fn built<R: Abort>(
    rt: &R,
    alloc: Global,
    w: &World<Two, NoJob>,
    dir: &Directory<u64, Group>,
    writes: &[Write<u64, u64>],
) -> Built<u64, u64, 2>
    requires version { IsVersion nat_cmp w.now.groups (value_at w.now) dir.now }
    requires last { dir.now.number < 2 ^ 64 - 1 }
    ensures number { number_of result ≡ dir.now.number + 1 }
    ensures placeable { IsPlaceableBeside nat_cmp w.now dir.now result }
{
    match build(alloc, w, dir, writes) {
        Ok((built, _)) => built,
        Err(_) => panic!(rt; "no memory for a version"),
    }
}

fn begin<R: Abort>(rt: &R, alloc: Global) -> Begun
    ensures participants { 1 < length result.w.participants }
    ensures counted { Counted held_by (SharedIn (shared_cell result.root) ∷ SharedItem (shared_slot result.second) ∷ []) result.w }
{
    let sizes = Sizes {
        participants: 2,
        slots: 12,
        cells: 1,
        jobs: 0,
    };
    let mut w: World<Two, NoJob> = match World::new(alloc, sizes) {
        Ok(w) => w,
        Err(_) => panic!(rt; "no room for a place"),
    };
    let empty = placed(rt, place(alloc, &mut w, Built::empty(alloc), None));
    let writes = upserts(rt, alloc, &[(1, 10), (2, 20), (3, 30)]);
    let one = built(rt, alloc, &w, version(&w, &empty), writes.as_slice());
    let first = placed(
        rt,
        place(alloc, &mut w, one, Some(shared::owned_at(&empty))),
    );
    let two = built(rt, alloc, &w, version(&w, &first), &[Write::Upsert(4, 40)]);
    let second = placed(
        rt,
        place(alloc, &mut w, two, Some(shared::owned_at(&first))),
    );
    let _ = shared::release(&mut w, empty, WRITER);
    let root = match atomic_shared::from(&mut w, first) {
        Ok(root) => root,
        Err(_) => panic!(rt; "no cell for the root"),
    };
    Begun { w, root, second }
}

// The second version takes the place of the first one, and a guard gives a pointer to it.
fn replace(
    w: &mut World<Two, NoJob>,
    root: &AtomicShared<Two>,
    second: Shared<Two>,
    reading: &WorldGuard,
) -> Ptr<'static, Two>
    requires participants { 1 < length w.old.participants }
    requires counted { Counted held_by (SharedIn (shared_cell root.now) ∷ SharedItem (shared_slot second) ∷ []) w.old }
    ensures participants { 1 < length w.new.participants }
    ensures reader { IsOpen w.old 0 → IsOpen w.new 0 }
    ensures counted { Counted held_by (SharedIn (shared_cell root.now) ∷ []) w.new }
{
    let at = shared::get_guarded_ptr(&second, reading);
    publish(w, root, second, WRITER);
    at
}

// The reader's guard opens, and the root is loaded.
fn begin_reading<R: Abort>(
    rt: &R,
    w: &mut World<Two, NoJob>,
    root: &AtomicShared<Two>,
) -> (WorldGuard, Ptr<'static, Two>)
    requires participants { 1 < length w.old.participants }
    requires root { (hand : List Hold) × Counted held_by (SharedIn (shared_cell root.now) ∷ hand) w.old }
    ensures participants { 1 < length w.new.participants }
    ensures reader { IsOpen w.new 0 }
    ensures guard { guard_participant result.0 ≡ 0 }
    ensures counted { (hand : List Hold) → Counted held_by hand w.old → Counted held_by hand w.new }
{
    w.laws();
    match guard::new(w, READER) {
        Ok(reading) => {
            let at = atomic_shared::load(w, root, &reading);
            (reading, at)
        }
        Err(_) => panic!(rt; "nested too often"),
    }
}

// The reader's guard closes.
fn end_reading(w: &mut World<Two, NoJob>, reading: WorldGuard)
    requires participants { 1 < length w.old.participants }
    requires reader { IsOpen w.old 0 }
    requires guard { guard_participant reading ≡ 0 }
    ensures participants { 1 < length w.new.participants }
    ensures counted { (hand : List Hold) → Counted held_by hand w.old → Counted held_by hand w.new }
{
    guard::close(w, reading);
}

// The number of the version that is there, and how many segments it has.
fn read(w: &World<Two, NoJob>, at: &Ptr<'static, Two>) -> Option<(u64, usize)> {
    if !w.is_readable(at) {
        return None;
    }
    let dir = w.read(at)?.directory()?;
    Some((dir.number(), dir.segments()))
}

// The reader's guard opens and finds 5, the root is loaded, and the second version takes the place of the first one.
fn read_first<R: Abort>(
    rt: &R,
    w: &mut World<Two, NoJob>,
    root: &AtomicShared<Two>,
    second: Shared<Two>,
) -> (WorldGuard, Known, bool)
    requires participants { 1 < length w.old.participants }
    requires counted { Counted held_by (SharedIn (shared_cell root.now) ∷ SharedItem (shared_slot second) ∷ []) w.old }
    ensures participants { 1 < length w.new.participants }
    ensures reader { IsOpen w.new 0 }
    ensures guard { guard_participant result.0 ≡ 0 }
    ensures counted { Counted held_by (SharedIn (shared_cell root.now) ∷ []) w.new }
{
    let (reading, first) = begin_reading(rt, w, root);
    let opened = guard::epoch(w, &reading) == Epoch::of_count(5);
    let second = replace(w, root, second, &reading);
    (reading, Known { first, second }, opened)
}

// The count of the steps, the slots in use, and what the first version reads as.
type Found = (u64, usize, Option<(u64, usize)>);

fn found<R>(w: &World<Two, NoJob>, beside: &Beside<'_, R>, known: &Known) -> Found {
    (
        beside.state.count(),
        w.slots_in_use(),
        read(w, &known.first),
    )
}

// The writer's guards go on while the reader's is open, which closes then: what was found before, and whether the reader's
// guard stayed at 6.
fn hold_up<'r, R: Abort>(
    rt: &R,
    w: &mut World<Two, NoJob>,
    start: Beside<'r, R>,
    reading: WorldGuard,
    known: &Known,
) -> (Beside<'r, R>, Found, bool)
    requires participants { 1 < length w.old.participants }
    requires reader { IsOpen w.old 0 }
    requires guard { guard_participant reading ≡ 0 }
    ensures participants { 1 < length w.new.participants }
    ensures counted { (hand : List Hold) → Counted held_by hand w.old → Counted held_by hand w.new }
{
    let beside = play(rt, w, start, HELD_UP, Some(known));
    let stays = guard::epoch(w, &reading) == Epoch::of_count(6);
    let held = found(w, &beside, known);
    let beside = beside.go(Step::ReadSegment(READER, FIRST, 1));
    end_reading(w, reading);
    (beside.go(Step::Close(READER)), held, stays)
}

// What the present version reads as, and whether the reader's guard finds 14.
fn read_present<R: Abort>(
    rt: &R,
    w: &mut World<Two, NoJob>,
    root: &AtomicShared<Two>,
) -> (Option<(u64, usize)>, bool)
    requires participants { 1 < length w.old.participants }
    requires root { (hand : List Hold) × Counted held_by (SharedIn (shared_cell root.now) ∷ hand) w.old }
    ensures participants { 1 < length w.new.participants }
    ensures counted { (hand : List Hold) → Counted held_by hand w.old → Counted held_by hand w.new }
{
    let (reading, at) = begin_reading(rt, w, root);
    let reopened = guard::epoch(w, &reading) == Epoch::of_count(14);
    let present = read(w, &at);
    end_reading(w, reading);
    (present, reopened)
}

// Ends the place.
fn end<R: Abort>(rt: &R, mut w: World<Two, NoJob>, root: AtomicShared<Two>)
    requires participants { 1 < length w.participants }
    requires counted { Counted held_by (SharedIn (shared_cell root) ∷ []) w }
{
    atomic_shared::retire(&mut w, root, WRITER);
    close(rt, w);
}

#[test]
fn a_place_goes_as_the_single_steps_say(rt: HostRuntime) {
    let alloc = rt.alloc();
    let Begun {
        mut w,
        root,
        second,
    } = begin(&rt, alloc);
    let beside = Beside::new(&rt, alloc);
    let begun = (w.slots_in_use(), beside.left());
    let beside = play(&rt, &mut w, beside, LIFTS, None);
    let lifted = (beside.state.count(), w.slots_in_use());
    let (reading, known, opened) = read_first(&rt, &mut w, &root, second);
    let beside = beside.read_first();
    let replaced = (w.slots_in_use(), beside.left());
    let (beside, held, stays) = hold_up(&rt, &mut w, beside, reading, &known);
    let beside = play(&rt, &mut w, beside, FREED, Some(&known));
    let left = found(&w, &beside, &known);
    let (present, reopened) = read_present(&rt, &mut w, &root);
    end(&rt, w, root);
    assert!(rt; opened && stays && reopened);
    assert_eq!(rt; (begun, lifted, replaced), ((6, 6), (5, 5), (5, 5)));
    assert_eq!(rt;
        (held, left, present),
        ((6, 5, Some((1, 2))), (14, 3, None), Some((2, 2)))
    );
}
