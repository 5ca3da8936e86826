//! Versions placed one after the other.

ghost use Rattle.std.specs.Prelude.{◌≡◌, ◌≤◌, []};
ghost use Rattle.sdd_domain.specs.Tokens.{place_of, home_of, hand_of, own_of, IsSame};

use crate::calls::Call::{self, Get, Reclaim, Remove, Slots, Upsert};
use crate::calls::Told::{self, Done, Found, Placed, Refused, Used};
use crate::calls::{played, removal, upserts};
use crate::place::{Item, close, end, leave, member, opened, place};
use crate::scene::{Scene, looked_up, seen};
use sdd_domain::local::Local;
use sdd_plain::sizes::Sizes;
use std::alloc::Global;
use std::process::Abort;
use std::test::Fail;

/// A place for two participants, one cell and this many items.
fn sized(slots: usize) -> Sizes
    requires { (1 ≤ slots) × (slots ≤ 1073741824) }
    ensures { result ≡ record { participants = 2; slots = slots; cells = 1; jobs = 0 } }
{
    Sizes {
        participants: 2,
        slots,
        cells: 1,
        jobs: 0,
    }
}

/// Plays a table on the empty version of a new place with this many slots. Nothing is in use behind it.
fn on_a_place<R: Abort, const S: usize>(rt: &R, alloc: Global, slots: usize, rows: &[(Call, Told)])
    requires slots { (1 ≤ slots) × (slots ≤ 1073741824) }
    requires size { (1 ≤ S) × (S ≤ 225) }
{
    let domain = place(alloc, sized(slots)).expect(rt, "memory is there");
    let mut scene = Scene::<S>::new(rt, alloc, &domain);
    let right = played(rt, alloc, &mut scene, rows);
    let left = scene.end();
    end(rt, domain);
    assert_eq!(rt; (right, left), (rows.len(), 0));
}

/// A row of three segments, its version, and the empty one are in use until the latter is reclaimed.
const PLACED: &[(Call, Told)] = &[
    (Upsert(1, 6, 7), Placed),
    (Slots, Used(3)),
    (Get(3), Found(Some(7), 5)),
    (Get(6), Found(None, 5)),
    (Reclaim, Done),
    (Slots, Used(2)),
];

#[test]
fn a_placed_version_is_read(rt: HostRuntime) {
    on_a_place::<_, 2>(&rt, rt.alloc(), 3, PLACED);
}

/// Two rows, of 32 segments and one, and their version would need three slots beside the empty version, which has one of three.
const WITHOUT_SLOTS: &[(Call, Told)] = &[
    (Upsert(1, 67, 7), Refused),
    (Get(3), Found(None, 0)),
    (Reclaim, Done),
    (Slots, Used(1)),
    (Upsert(1, 4, 8), Placed),
    (Get(3), Found(Some(8), 3)),
];

#[test]
fn a_version_without_slots_leaves_the_present_one(rt: HostRuntime) {
    on_a_place::<_, 2>(&rt, rt.alloc(), 3, WITHOUT_SLOTS);
}

/// A version of one pair takes two slots, so that two of them and the empty one leave none of five.
const WAITING: &[(Call, Told)] = &[
    (Upsert(1, 2, 1), Placed),
    (Upsert(1, 2, 2), Placed),
    (Upsert(1, 2, 3), Refused),
    (Get(1), Found(Some(2), 1)),
    (Reclaim, Done),
    (Upsert(1, 2, 3), Placed),
    (Get(1), Found(Some(3), 1)),
];

#[test]
fn what_waits_is_in_the_way_until_it_is_reclaimed(rt: HostRuntime) {
    on_a_place::<_, 1>(&rt, rt.alloc(), 5, WAITING);
}

/// A row of four segments and its version; then a row that has three of them, and its version, beside them.
const SHARING: &[(Call, Told)] = &[
    (Upsert(1, 9, 1), Placed),
    (Reclaim, Done),
    (Slots, Used(2)),
    (Upsert(3, 4, 2), Placed),
    (Slots, Used(4)),
    (Reclaim, Done),
    (Slots, Used(2)),
    (Get(3), Found(Some(2), 8)),
    (Get(8), Found(Some(1), 8)),
];

#[test]
fn segments_that_no_write_touches_are_shared(rt: HostRuntime) {
    on_a_place::<_, 2>(&rt, rt.alloc(), 64, SHARING);
}

/// Three rows, of 32 segments, 32 and one, and their version leave two slots free.
const TAKING_OVER: &[(Call, Told)] = &[
    (Upsert(1, 131, 1), Placed),
    (Reclaim, Done),
    (Slots, Used(4)),
    // the first of three new rows has no slot
    (Upsert(1, 131, 2), Refused),
    (Reclaim, Done),
    (Slots, Used(4)),
    // the last row is taken over, and the version has no slot beside two new ones
    (Upsert(64, 66, 3), Refused),
    (Reclaim, Done),
    (Slots, Used(4)),
    (Upsert(3, 4, 4), Placed),
    (Slots, Used(6)),
    (Get(3), Found(Some(4), 130)),
    (Get(4), Found(Some(1), 130)),
    (Get(130), Found(Some(1), 130)),
    (Reclaim, Done),
    (Slots, Used(4)),
];

#[test]
fn rows_are_taken_over_after_refusals(rt: HostRuntime) {
    on_a_place::<_, 2>(&rt, rt.alloc(), 6, TAKING_OVER);
}

/// Five hundred segments in seven rows, six of them of 80 segments, and their version. A write touches one row, and the others are
/// taken over.
const IN_ROWS: &[(Call, Told)] = &[
    (Upsert(1, 1001, 1), Placed),
    (Slots, Used(9)),
    (Reclaim, Done),
    (Slots, Used(8)),
    (Upsert(3, 4, 2), Placed),
    (Slots, Used(10)),
    (Reclaim, Done),
    (Slots, Used(8)),
    (Get(3), Found(Some(2), 1000)),
    (Get(1000), Found(Some(1), 1000)),
    // two rows with new segments leave no slot for their version
    (Upsert(480, 482, 3), Refused),
    (Reclaim, Done),
    (Slots, Used(8)),
    (Upsert(510, 513, 4), Placed),
    (Get(509), Found(Some(1), 1000)),
    (Get(512), Found(Some(4), 1000)),
    (Get(513), Found(Some(1), 1000)),
    (Reclaim, Done),
    (Slots, Used(8)),
];

#[test]
fn rows_that_no_write_touches_are_taken_over(rt: HostRuntime) {
    on_a_place::<_, 2>(&rt, rt.alloc(), 10, IN_ROWS);
}

/// Three rows and their version. The removal of a whole segment leaves a row without a new one, which takes no slot. It is
/// taken over, and a write to it gives it one.
const WITHOUT_A_SLOT: &[(Call, Told)] = &[
    (Upsert(1, 131, 1), Placed),
    (Reclaim, Done),
    (Slots, Used(4)),
    (Remove(3, 5), Placed),
    (Slots, Used(5)),
    (Get(3), Found(None, 128)),
    (Get(5), Found(Some(1), 128)),
    (Reclaim, Done),
    (Slots, Used(3)),
    (Upsert(100, 101, 2), Placed),
    (Reclaim, Done),
    (Slots, Used(3)),
    (Get(5), Found(Some(1), 128)),
    (Upsert(5, 6, 3), Placed),
    (Reclaim, Done),
    (Slots, Used(4)),
    (Get(5), Found(Some(3), 128)),
    (Get(6), Found(Some(1), 128)),
    (Get(100), Found(Some(2), 128)),
];

#[test]
fn a_row_of_older_segments_takes_no_slot(rt: HostRuntime) {
    on_a_place::<_, 2>(&rt, rt.alloc(), 6, WITHOUT_A_SLOT);
}

/// Plays a table on the version of a list, in a new place with this many slots; none of it where slots are too few for the list.
/// Nothing is in use behind it.
fn on_a_list<R: Abort>(
    rt: &R,
    alloc: Global,
    slots: usize,
    pairs: &[(u64, u64)],
    rows: &[(Call, Told)],
) -> Option<usize>
    requires { (1 ≤ slots) × (slots ≤ 1073741824) }
{
    let domain = place(alloc, sized(slots)).expect(rt, "memory is there");
    let Some(mut scene) = Scene::<2>::listed(rt, alloc, &domain, pairs) else {
        end(rt, domain);
        return None;
    };
    let right = played(rt, alloc, &mut scene, rows);
    let left = scene.end();
    end(rt, domain);
    assert_eq!(rt; left, 0);
    Some(right)
}

/// A row of three segments and its version; then another row and its version beside them.
const LISTED: &[(Call, Told)] = &[
    (Slots, Used(2)),
    (Get(3), Found(Some(30), 5)),
    (Get(6), Found(None, 5)),
    (Upsert(1, 2, 11), Placed),
    (Slots, Used(4)),
    (Get(1), Found(Some(11), 5)),
    (Get(5), Found(Some(50), 5)),
    (Reclaim, Done),
    (Slots, Used(2)),
];

#[test]
fn versions_follow_that_of_a_list(rt: HostRuntime) {
    let list = [(1, 10), (2, 20), (3, 30), (4, 40), (5, 50)];
    let told = [
        on_a_list(&rt, rt.alloc(), 4, &list, LISTED),
        on_a_list(
            &rt,
            rt.alloc(),
            2,
            &list,
            &[(Slots, Used(2)), (Get(1), Found(Some(10), 5))],
        ),
        on_a_list(&rt, rt.alloc(), 1, &list, &[]),
        on_a_list(
            &rt,
            rt.alloc(),
            1,
            &[],
            &[(Slots, Used(1)), (Get(1), Found(None, 0))],
        ),
    ];
    assert_eq!(rt; told, [Some(LISTED.len()), Some(2), None, Some(2)]);
}

/// What a session of another participant reads at the keys 3 and 11, while a version is placed and what nobody reads is
/// reclaimed: whether it was placed, and both answers.
fn read_beside<R: Abort>(
    rt: &R,
    alloc: Global,
    scene: &mut Scene<'_, 2>,
    reader: &mut Local<Item>,
) -> (bool, [(Option<u64>, usize); 2])
    requires home { (home_of reader.old ≡ place_of scene.old.domain.now) × (hand_of reader.old ≡ []) }
    requires closed { (own_of reader.old).nesting ≡ 0 }
    ensures place { place_of scene.new.domain.now ≡ place_of scene.old.domain.now }
    ensures same { IsSame reader.old reader.new }
    ensures closed { (own_of reader.new).nesting ≡ 0 }
{
    let Some(session) = opened::<2>(scene.domain, reader, &scene.root) else {
        panic!(rt; "the cell names a version");
    };
    let placed = scene.commit(rt, alloc, &upserts(rt, alloc, 3..12, 2));
    scene.reclaim();
    let found = [looked_up(&session, 3), looked_up(&session, 11)];
    close(scene.domain, session.into_guard(), reader);
    (placed, found)
}

#[test]
fn a_session_reads_on_while_versions_follow(rt: HostRuntime) -> Result<(), Fail> {
    let alloc = rt.alloc();
    let domain = place(alloc, sized(64))?;
    let mut reader = member(&rt, &domain);
    let mut scene = Scene::<2>::new(&rt, alloc, &domain);
    let first = scene.commit(&rt, alloc, &upserts(&rt, alloc, 1..9, 1));
    let (second, found) = read_beside(&rt, alloc, &mut scene, &mut reader);
    let behind = seen::<_, 2>(&rt, scene.domain, &mut reader, &scene.root, 3);
    leave(&domain, reader);
    scene.reclaim();
    let slots = scene.slots();
    let left = scene.end();
    end(&rt, domain);
    assert_eq!(rt; (first, second, slots, left), (true, true, 2, 0));
    assert_eq!(rt; (found, behind), ([(Some(1), 8), (None, 8)], (Some(2), 11)));
    Ok(())
}

/// What a session of another participant reads at the keys 3 and 200, in rows of their own, while all pairs are removed and what
/// nobody reads is reclaimed: whether they were removed, both answers, and how many slots were in use.
fn read_behind_a_removal<R: Abort>(
    rt: &R,
    alloc: Global,
    scene: &mut Scene<'_, 2>,
    reader: &mut Local<Item>,
) -> (bool, [(Option<u64>, usize); 2], usize)
    requires home { (home_of reader.old ≡ place_of scene.old.domain.now) × (hand_of reader.old ≡ []) }
    requires closed { (own_of reader.old).nesting ≡ 0 }
    ensures place { place_of scene.new.domain.now ≡ place_of scene.old.domain.now }
    ensures same { IsSame reader.old reader.new }
    ensures closed { (own_of reader.new).nesting ≡ 0 }
{
    let Some(session) = opened::<2>(scene.domain, reader, &scene.root) else {
        panic!(rt; "the cell names a version");
    };
    let removed = scene.commit(rt, alloc, &removal(rt, alloc, 1, 201));
    scene.reclaim();
    let slots = scene.slots();
    let found = [looked_up(&session, 3), looked_up(&session, 200)];
    close(scene.domain, session.into_guard(), reader);
    (removed, found, slots)
}

/// A hundred segments in four rows, whose version only a session has any more, beside the empty version.
#[test]
fn a_session_keeps_the_rows_of_its_version(rt: HostRuntime) -> Result<(), Fail> {
    let alloc = rt.alloc();
    let domain = place(alloc, sized(16))?;
    let mut reader = member(&rt, &domain);
    let mut scene = Scene::<2>::new(&rt, alloc, &domain);
    let first = scene.commit(&rt, alloc, &upserts(&rt, alloc, 1..201, 1));
    scene.reclaim();
    let (removed, found, beside) = read_behind_a_removal(&rt, alloc, &mut scene, &mut reader);
    leave(&domain, reader);
    scene.reclaim();
    let slots = scene.slots();
    let left = scene.end();
    end(&rt, domain);
    assert_eq!(rt;
        (first, removed, beside, slots, left),
        (true, true, 6, 1, 0)
    );
    assert_eq!(rt; found, [(Some(1), 200), (Some(1), 200)]);
    Ok(())
}
