//! Stacks, queues and bags by two threads that push and two that pop.

ghost use Rattle.shared_containers.specs.Containers.{IsAsBefore};
ghost use Rattle.shared_container_tests.specs.Any.{Rests};

use crate::scene::{Kind, Made, Scene, end, member, sized};
use sdd_domain::domain::Domain;
use sdd_domain::local::Local;
use std::alloc::Global;
use std::process::Abort;
use std::sync::atomic::{AtomicU64, Ordering};
use std::thread::{Threads, join};

const ROOM: &str = "memory is ample";

/// Pushes the values from one on up to below another, and returns how many there were.
fn pushing(scene: &Scene, first: u64, last: u64) -> Option<u64> {
    let Ok(mut local) = scene.domain.register() else {
        return None;
    };
    let mut pushed = 0u64;
    for value in first..last {
        if scene.push(&mut local, value).is_none() {
            pushed = pushed.saturating_add(1);
        }
    }
    local.end(scene.domain);
    Some(pushed)
}

/// What two threads that pop share: how often each value came out, and how many came out in all.
#[derive(Drop)]
struct Counts<'a> {
    of: &'a [AtomicU64],
    all: &'a AtomicU64,
}

/// What a thread found that pops: how many values came out, and how often one came out behind a later one of the same
/// thread that pushed.
#[derive(Clone, Copy, PartialEq, Eq)]
struct Out {
    values: u64,
    late: u64,
}

/// Pops values until there were two thousand in all, and counts each where it belongs. It gives up after ten million tries.
fn popping(scene: &Scene, counts: &Counts) -> Option<Out> {
    let Ok(mut local) = scene.domain.register() else {
        return None;
    };
    let mut out = Out { values: 0, late: 0 };
    let mut last = [0u64, 0];
    for _i in 0..10000000u32 {
        if counts.all.load(Ordering::SeqCst) >= 2000 {
            break;
        }
        if let Some(value) = scene.pop(&mut local) {
            note(counts, value, &mut last, &mut out);
        }
    }
    local.end(scene.domain);
    Some(out)
}

/// Counts a value that came out.
fn note(counts: &Counts, value: u64, last: &mut [u64; 2], out: &mut Out) {
    let thread = if value < 1000 { 0usize } else { 1 };
    if value < last[thread] {
        out.late = out.late.saturating_add(1);
    }
    last[thread] = value;
    if let Some(count) = counts.of.get(value as usize) {
        count.fetch_add(1, Ordering::SeqCst);
    }
    counts.all.fetch_add(1, Ordering::SeqCst);
    out.values = out.values.saturating_add(1);
}

/// How many of these are one.
fn once(counts: &[AtomicU64]) -> u64 {
    let mut ones = 0u64;
    for count in counts {
        if count.load(Ordering::SeqCst) == 1 {
            ones = ones.saturating_add(1);
        }
    }
    ones
}

/// What two threads push and two pop: how many values each pushed, how many came out, and how many behind a later one.
fn four_threads<R: Threads + Sync>(
    rt: &R,
    scene: &Scene,
    counts: &Counts,
) -> ([Option<u64>; 2], [u64; 2]) {
    let ((a, b), (c, d)) = join(
        rt,
        || join(
            rt,
            || pushing(scene, 0, 1000),
            || pushing(scene, 1000, 2000),
        ),
        || join(rt, || popping(scene, counts), || popping(scene, counts)),
    );
    let none = Out { values: 0, late: 0 };
    let (c, d) = (c.unwrap_or(none), d.unwrap_or(none));
    let values = c.values.saturating_add(d.values);
    ([a, b], [values, c.late.saturating_add(d.late)])
}

/// The same in a place of its own, with how many came out just once, and whether nothing is left.
fn crowd<R: Abort + Threads + Sync>(
    rt: &R,
    alloc: Global,
    kind: Kind,
) -> ([Option<u64>; 2], [u64; 2], u64, bool) {
    let mut of: Vec<AtomicU64> = Vec::new(alloc);
    for _i in 0..2000u32 {
        of.push(AtomicU64::new(0)).expect(rt, ROOM);
    }
    let all = AtomicU64::new(0);
    let counts = Counts {
        of: of.as_slice(),
        all: &all,
    };
    let domain = Domain::new(alloc, sized(5, 2048, 2056)).expect(rt, ROOM);
    let mut local = member(rt, &domain);
    let made = Made::new(rt, alloc, &domain, &mut local);
    let (pushed, out) = four_threads(rt, &made.scene(&domain, kind), &counts);
    let empty = made.end(&domain, &mut local);
    local.end(&domain);
    end(rt, domain);
    (pushed, out, once(of.as_slice()), empty)
}

#[test]
fn two_threads_push_and_two_pop_a_stack_and_each_value_comes_out_once(rt: HostRuntime) {
    let (pushed, [out, _late], once, empty) = crowd(&rt, rt.alloc(), Kind::Stack);
    assert!(rt; (pushed, out, once, empty) == ([Some(1000); 2], 2000, 2000, true));
}

#[test]
fn two_threads_push_and_two_pop_a_queue_and_each_value_comes_out_once_in_order(rt: HostRuntime) {
    let found = crowd(&rt, rt.alloc(), Kind::Queue);
    assert!(rt; found == ([Some(1000); 2], [2000, 0], 2000, true));
}

#[test]
fn two_threads_push_and_two_pop_a_bag_and_each_value_comes_out_once(rt: HostRuntime) {
    let (pushed, [out, _late], once, empty) = crowd(&rt, rt.alloc(), Kind::Bag);
    assert!(rt; (pushed, out, once, empty) == ([Some(1000); 2], 2000, 2000, true));
}

/// Pushes the number that follows the newest one of a stack, where that is still the newest then.
fn push_next(scene: &Scene, local: &mut Local<u64>) -> bool
    requires { Rests scene.now.domain.now local.old }
    ensures same { IsAsBefore local.old local.new }
{
    let Scene { domain, links, .. } = *scene;
    let newest = scene
        .stack
        .peek_with(domain, |found| found.copied().unwrap_or(0), links, local);
    let next = newest.saturating_add(1);
    let pushed = scene.stack.push_if(
        domain,
        next,
        |found| found.copied().unwrap_or(0) == newest,
        links,
        local,
    );
    match pushed {
        Ok(()) => true,
        Err(refused) => {
            refused.end(domain, local);
            false
        }
    }
}

/// Does so until five hundred numbers were pushed, and returns how many were. It gives up after a million tries.
fn counting(scene: &Scene) -> Option<u64> {
    let Ok(mut local) = scene.domain.register() else {
        return None;
    };
    let mut pushed = 0u64;
    for _i in 0..1000000u32 {
        if pushed >= 500 {
            break;
        }
        if push_next(scene, &mut local) {
            pushed = pushed.saturating_add(1);
        }
    }
    local.end(scene.domain);
    Some(pushed)
}

/// How many numbers of a stack are in front of the one before them, from the thousandth on.
fn in_order(scene: &Scene, local: &mut Local<u64>) -> u64
    requires { Rests scene.now.domain.now local.old }
    ensures same { IsAsBefore local.old local.new }
{
    let mut next = 1000u64;
    let note = |found: &u64| {
        if *found == next {
            next = next.saturating_sub(1);
        }
    };
    scene.stack.for_each(scene.domain, note, scene.links, local);
    1000u64.saturating_sub(next)
}

#[test]
fn two_threads_count_on_a_stack_by_a_condition_and_no_number_is_there_twice(rt: HostRuntime) {
    let domain = Domain::new(rt.alloc(), sized(3, 2048, 2056)).expect(&rt, ROOM);
    let mut local = member(&rt, &domain);
    let made = Made::new(&rt, rt.alloc(), &domain, &mut local);
    let scene = made.scene(&domain, Kind::Stack);
    let pushed = join(&rt, || counting(&scene), || counting(&scene));
    let found = (
        in_order(&scene, &mut local),
        scene.stack.len(&domain, scene.links, &mut local),
    );
    made.end(&domain, &mut local);
    local.end(&domain);
    end(&rt, domain);
    assert!(rt; (pushed, found) == ((Some(500), Some(500)), (1000, 1000)));
}
