//! Walks by example, and beside a plain machine over a list.

ghost use Rattle.std.specs.Prelude.{◌≤◌};
ghost use Rattle.std.specs.Ordering.{nat_cmp};
ghost use Rattle.sdd_world.specs.State.{value_at};
ghost use Rattle.version_views.specs.Versions.{IsVersion};

use crate::places::{end, prepared, upserts};
use crate::plain::{Call, Pair, Plain, Told, following};
use local_versions::{Directory, Item, LocalNearby, LocalWalk, Nearby, locate, version, walk};
use sdd_world::groups::Group;
use sdd_world::job::NoJob;
use sdd_world::world::World;
use std::alloc::Global;
use std::ops::Bound;
use std::process::Abort;

fn read(pair: Option<(&u64, &u64)>) -> Pair {
    match pair {
        Some((key, value)) => Some((*key, *value)),
        None => None,
    }
}

fn made<const S: usize>(ends: &mut LocalWalk<'_, u64, u64, S>, call: Call) -> Told {
    let pair = match call {
        Call::Next => ends.next(),
        Call::NextBack => ends.next_back(),
        Call::Get => ends.get(),
        Call::Flip => return Told::Flips(ends.flip()),
    };
    Told::At(read(pair))
}

// The place of the first call that a walk answers otherwise.
fn first_other<const S: usize>(
    start: LocalWalk<'_, u64, u64, S>,
    rows: &[(Call, Told)],
) -> Option<usize> {
    let mut ends = start;
    for (at, (call, wanted)) in rows.iter().enumerate() {
        if made(&mut ends, *call) != *wanted {
            return Some(at);
        }
    }
    None
}

const THREE: &[(u64, u64)] = &[(1, 2), (2, 2), (3, 2)];

// Walks through all pairs of a version.
const WALKS: &[(&str, &[(u64, u64)], &[(Call, Told)])] = &[
    (
        "from both ends",
        THREE,
        &[
            (Call::NextBack, Told::At(Some((3, 2)))),
            (Call::NextBack, Told::At(Some((2, 2)))),
            (Call::Flip, Told::Flips(true)),
            (Call::Next, Told::At(Some((3, 2)))),
            (Call::Flip, Told::Flips(true)),
            (Call::NextBack, Told::At(Some((2, 2)))),
            (Call::Next, Told::At(Some((1, 2)))),
            (Call::Next, Told::At(None)),
            (Call::Flip, Told::Flips(false)),
        ],
    ),
    (
        "forth",
        THREE,
        &[
            (Call::Next, Told::At(Some((1, 2)))),
            (Call::Next, Told::At(Some((2, 2)))),
            (Call::Next, Told::At(Some((3, 2)))),
            (Call::Next, Told::At(None)),
            (Call::Next, Told::At(None)),
            (Call::Get, Told::At(None)),
        ],
    ),
    (
        "nowhere",
        &[],
        &[
            (Call::Next, Told::At(None)),
            (Call::NextBack, Told::At(None)),
            (Call::Flip, Told::Flips(true)),
        ],
    ),
];

fn walks<R: Abort, const S: usize>(rt: &R, alloc: Global)
    requires { (1 ≤ S) × (S ≤ 225) }
{
    for (name, pairs, rows) in WALKS {
        let held = prepared::<R, u64, S>(rt, alloc, upserts(rt, alloc, pairs).as_slice());
        let dir = version(&held.w, &held.root);
        let ends = walk(&held.w, dir, Bound::Unbounded, Bound::Unbounded);
        let other = first_other(ends, rows);
        end(rt, held);
        assert_eq!(rt; other, None, "{name}: the first row that isn't right");
    }
}

#[test]
fn both_ends_go_through_all_pairs(rt: HostRuntime) {
    walks::<_, 1>(&rt, rt.alloc());
    walks::<_, 2>(&rt, rt.alloc());
    walks::<_, 3>(&rt, rt.alloc());
}

// Which kind of neighbours a key has, and the pairs that are met, as below.
type Found = (&'static str, [Pair; 6]);

// The pairs at the forward end and at the backward one, then a step of the forward end and the pair at it, then those of the
// backward end.
fn met<const S: usize>(mut ends: LocalWalk<'_, u64, u64, S>) -> [Pair; 6] {
    let (forward, backward) = ends_of(&ends);
    let next = read(ends.next());
    let at = read(ends.get());
    let next_back = read(ends.next_back());
    [
        forward,
        backward,
        next,
        at,
        next_back,
        read(ends.get_back()),
    ]
}

fn ends_of<const S: usize>(ends: &LocalWalk<'_, u64, u64, S>) -> (Pair, Pair) {
    (read(ends.get()), read(ends.get_back()))
}

fn found<const S: usize>(around: LocalNearby<'_, u64, u64, S>) -> Found {
    match around {
        Nearby::Exact(ends) => ("exact", met(ends)),
        Nearby::Between(ends) => ("between", met(ends)),
        Nearby::Smaller(ends) => ("smaller", met(ends)),
        Nearby::Larger(ends) => ("larger", met(ends)),
        Nearby::Empty => ("empty", [None; 6]),
    }
}

const FOUR: &[(u64, u64)] = &[(1, 1), (3, 2), (5, 3), (7, 4)];

const ONE: Pair = Some((1, 1));

const THIRD: Pair = Some((3, 2));

const FIFTH: Pair = Some((5, 3));

const LAST: Pair = Some((7, 4));

// Pairs, a key, and what is found around it.
const AROUND: &[(&[(u64, u64)], u64, Found)] = &[
    (FOUR, 2, ("between", [ONE, THIRD, None, THIRD, None, ONE])),
    (FOUR, 5, ("exact", [FIFTH, None, LAST, LAST, None, LAST])),
    (FOUR, 8, ("smaller", [None, LAST, ONE, ONE, FIFTH, FIFTH])),
    (FOUR, 0, ("larger", [ONE, None, THIRD, THIRD, LAST, LAST])),
    (&[], 3, ("empty", [None; 6])),
];

fn neighbours<R: Abort, const S: usize>(rt: &R, alloc: Global)
    requires { (1 ≤ S) × (S ≤ 225) }
{
    for (pairs, key, wanted) in AROUND {
        let held = prepared::<R, u64, S>(rt, alloc, upserts(rt, alloc, pairs).as_slice());
        let found = found(locate(&held.w, version(&held.w, &held.root), key));
        end(rt, held);
        assert_eq!(rt; found, *wanted, "around {key}");
    }
}

#[test]
fn locate_finds_a_pair_or_its_neighbours(rt: HostRuntime) {
    neighbours::<_, 1>(&rt, rt.alloc());
    neighbours::<_, 2>(&rt, rt.alloc());
    neighbours::<_, 4>(&rt, rt.alloc());
}

// One call on a walk and on the plain machine, and whether both answer the same and are at the same pairs then.
fn step<const S: usize>(
    ends: &mut LocalWalk<'_, u64, u64, S>,
    plain: &mut Plain<'_>,
    kind: u64,
) -> bool {
    let call = match kind {
        0 | 1 | 2 => Call::Next,
        3 | 4 | 5 => Call::NextBack,
        6 => Call::Flip,
        _ => {
            *ends = ends.clone();
            Call::Get
        }
    };
    let right = made(ends, call) == plain.made(call);
    right && ends_of(ends) == (plain.get(), plain.get_back())
}

// A bound from a random number, for keys up to 40.
fn bound_of(seed: u64) -> Bound<u64> {
    match seed % 3 {
        0 => Bound::Unbounded,
        1 => Bound::Included(seed / 3 % 42),
        _ => Bound::Excluded(seed / 3 % 42),
    }
}

// Pairs of some of the keys below 40.
fn some_pairs<R: Abort>(rt: &R, alloc: Global, start: u64) -> Vec<(u64, u64)> {
    let mut pairs = Vec::new(alloc);
    let mut seed = start;
    for key in 0..40u64 {
        seed = following(seed);
        if (seed >> 33) % 5 < start % 5 {
            assert!(rt; pairs.push((key, seed >> 40)).is_ok());
        }
    }
    pairs
}

// Random calls on a walk, and on the plain machine beside it: whether all answer the same.
fn random_calls<const S: usize>(
    start: LocalWalk<'_, u64, u64, S>,
    beside: Plain<'_>,
    first: u64,
) -> bool {
    let (mut ends, mut plain) = (start, beside);
    let mut seed = first;
    let mut right = true;
    for _ in 0..(seed >> 50) % 50 {
        seed = following(seed);
        right = step(&mut ends, &mut plain, (seed >> 33) % 8) && right;
    }
    right
}

// Whether walks within random bounds answer as the plain machine.
fn walks_agree<const S: usize>(
    w: &World<Item<u64, u64, S>, NoJob>,
    dir: &Directory<u64, Group>,
    pairs: &[(u64, u64)],
    start: u64,
) -> bool
    requires { IsVersion nat_cmp w.now.groups (value_at w.now) dir.now }
{
    let mut seed = start;
    let mut right = true;
    for _ in 0..20u32 {
        seed = following(seed);
        let (lower, upper) = (bound_of(seed >> 20), bound_of(seed >> 40));
        let ends = walk(w, dir, lower.as_ref(), upper.as_ref());
        right = random_calls(ends, Plain::within(pairs, lower, upper), seed) && right;
    }
    right
}

// A walk and the plain machine go on from around a key: whether they answer the same. Around a key there is nothing only where
// there are no pairs.
fn random_calls_around<const S: usize>(
    around: LocalNearby<'_, u64, u64, S>,
    plain: Plain<'_>,
    seed: u64,
) -> bool {
    match around {
        Nearby::Exact(ends)
        | Nearby::Between(ends)
        | Nearby::Smaller(ends)
        | Nearby::Larger(ends) => random_calls(ends, plain, seed),
        Nearby::Empty => plain.has_none(),
    }
}

// Whether walks from around each key answer as the plain machine.
fn neighbours_agree<const S: usize>(
    w: &World<Item<u64, u64, S>, NoJob>,
    dir: &Directory<u64, Group>,
    pairs: &[(u64, u64)],
    start: u64,
) -> bool
    requires { IsVersion nat_cmp w.now.groups (value_at w.now) dir.now }
{
    let mut seed = start;
    let mut right = true;
    for key in 0..41u64 {
        seed = following(seed);
        let around = locate(w, dir, &key);
        right = random_calls_around(around, Plain::around(pairs, key), seed) && right;
    }
    right
}

fn random_steps<R: Abort, const S: usize>(rt: &R, alloc: Global, start: u64)
    requires { (1 ≤ S) × (S ≤ 225) }
{
    let pairs = some_pairs(rt, alloc, start);
    let held = prepared::<R, u64, S>(rt, alloc, upserts(rt, alloc, pairs.as_slice()).as_slice());
    let dir = version(&held.w, &held.root);
    let within = walks_agree(&held.w, dir, pairs.as_slice(), start);
    let around = neighbours_agree(&held.w, dir, pairs.as_slice(), start);
    end(rt, held);
    assert_eq!(rt; (within, around), (true, true), "pairs by {start}");
}

// Within bounds, and from around each key.
#[test]
fn random_steps_answer_as_the_plain_machine(rt: HostRuntime) {
    for start in 1..40u64 {
        random_steps::<_, 1>(&rt, rt.alloc(), start);
        random_steps::<_, 2>(&rt, rt.alloc(), start);
        random_steps::<_, 3>(&rt, rt.alloc(), start);
        random_steps::<_, 7>(&rt, rt.alloc(), start);
        random_steps::<_, 225>(&rt, rt.alloc(), start);
    }
}
