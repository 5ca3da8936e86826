//! Pushes and pops on a condition, looks at the first item, and walks.

ghost use Rattle.shared_containers.specs.Containers.{IsAsBefore, IsOpenIn, IsStill};
ghost use Rattle.shared_container_tests.specs.Any.{Rests};

use crate::scene::{Kind, Made, Scene, end, member, place, read};
use sdd_domain::guard::Guard;
use sdd_domain::local::Local;
use shared_containers::outcome::PushRefused;
use std::alloc::Global;
use std::process::Abort;

/// Pushes a value where the newest item is this one. What is returned of one that is refused on the condition, or for want of a
/// slot, and that it was the condition.
pub(crate) fn push_behind(
    scene: &Scene,
    local: &mut Local<u64>,
    value: u64,
    newest: Option<u64>,
) -> Option<(u64, bool)>
    requires { Rests scene.now.domain.now local.old }
    ensures same { IsAsBefore local.old local.new }
{
    let Scene { domain, links, .. } = *scene;
    let is_newest = |found: Option<&u64>| found.copied() == newest;
    let pushed = if scene.kind == Kind::Queue {
        scene.queue.push_if(domain, value, is_newest, links, local)
    } else {
        scene.stack.push_if(domain, value, is_newest, links, local)
    };
    match pushed {
        Ok(()) => None,
        Err(PushRefused::Condition(owner)) => {
            let value = *owner.as_ref();
            owner.release(domain, local);
            Some((value, true))
        }
        Err(refused) => Some((refused.end(domain, local)?, false)),
    }
}

/// Pops the first item where it is this one: what was popped, or what another owner reads where it wasn't.
fn pop_this(scene: &Scene, local: &mut Local<u64>, value: u64) -> (Option<u64>, Option<u64>)
    requires { Rests scene.now.domain.now local.old }
    ensures same { IsAsBefore local.old local.new }
{
    let Scene { domain, links, .. } = *scene;
    let popped = if scene.kind == Kind::Queue {
        scene
            .queue
            .pop_if(domain, |found| *found == value, links, local)
    } else {
        scene
            .stack
            .pop_if(domain, |found| *found == value, links, local)
    };
    match popped {
        Ok(popped) => (read(domain, popped, local), None),
        Err(kept) => (None, read(domain, Some(kept), local)),
    }
}

/// The first value, as a pointer and as a closure see it.
fn peeks(scene: &Scene, local: &mut Local<u64>) -> [Option<u64>; 2]
    requires { Rests scene.now.domain.now local.old }
    ensures same { IsAsBefore local.old local.new }
{
    let Scene { domain, links, .. } = *scene;
    let seen = if scene.kind == Kind::Queue {
        scene
            .queue
            .peek_with(domain, |found| found.copied(), links, local)
    } else {
        scene
            .stack
            .peek_with(domain, |found| found.copied(), links, local)
    };
    let Ok(guard) = Guard::new(domain, local) else {
        unreachable!();
    };
    let first = pointed_at(scene, &guard, local);
    guard.close(domain, local);
    [first, seen]
}

/// The first value, as a pointer under this guard sees it.
fn pointed_at(scene: &Scene, guard: &Guard, local: &mut Local<u64>) -> Option<u64>
    requires open { IsOpenIn guard.now local.old scene.now.domain.now }
    ensures same { IsStill local.old local.new }
{
    let Scene { domain, links, .. } = *scene;
    if scene.kind == Kind::Queue {
        return scene
            .queue
            .peek(domain, links, guard, local)
            .as_ref()
            .copied();
    }
    scene.stack.peek(domain, guard, local).as_ref().copied()
}

/// The values in the order of a walk, as the digits of a number, and how many there are.
pub(crate) fn walks(scene: &Scene, local: &mut Local<u64>) -> (u64, usize)
    requires { Rests scene.now.domain.now local.old }
    ensures same { IsAsBefore local.old local.new }
{
    let Scene { domain, links, .. } = *scene;
    let mut digits = 0u64;
    let note = |found: &u64| digits = digits.wrapping_mul(10).wrapping_add(*found);
    if scene.kind == Kind::Queue {
        scene.queue.for_each(domain, note, links, local);
        (digits, scene.queue.len(domain, links, local))
    } else {
        scene.stack.for_each(domain, note, links, local);
        (digits, scene.stack.len(domain, links, local))
    }
}

/// What a participant finds: which pushes were refused, what is seen of three values, what is popped of them on a
/// condition, and what is seen then.
#[derive(Clone, Copy, PartialEq, Eq)]
struct Found {
    pushed: [Option<(u64, bool)>; 5],
    seen: ([Option<u64>; 2], (u64, usize)),
    popped: [(Option<u64>, Option<u64>); 2],
    left: ([Option<u64>; 2], (u64, usize)),
}

/// Pushes 1, 2 and 3, each behind the one before, and pops the first of a stack, which is 3, or of a queue, 1.
fn plays(scene: &Scene, local: &mut Local<u64>) -> Found
    requires { Rests scene.now.domain.now local.old }
    ensures same { IsAsBefore local.old local.new }
{
    let first = if scene.kind == Kind::Queue { 1 } else { 3 };
    Found {
        pushed: [
            push_behind(scene, local, 9, Some(1)),
            push_behind(scene, local, 1, None),
            push_behind(scene, local, 9, None),
            push_behind(scene, local, 2, Some(1)),
            push_behind(scene, local, 3, Some(2)),
        ],
        seen: (peeks(scene, local), walks(scene, local)),
        popped: [pop_this(scene, local, 2), pop_this(scene, local, first)],
        left: (peeks(scene, local), walks(scene, local)),
    }
}

/// The same in a place of its own, and what a pop on a condition finds in an empty one.
fn plays_alone<R: Abort>(rt: &R, alloc: Global, kind: Kind) -> (Found, (Option<u64>, Option<u64>)) {
    let domain = place(rt, alloc, 5, 13);
    let mut local = member(rt, &domain);
    let made = Made::new(rt, alloc, &domain, &mut local);
    let scene = made.scene(&domain, kind);
    let nothing = pop_this(&scene, &mut local, 1);
    let found = plays(&scene, &mut local);
    made.end(&domain, &mut local);
    local.end(&domain);
    end(rt, domain);
    (found, nothing)
}

/// What is refused of the five pushes: the first for there is no 1, the third for there is one.
fn refused() -> [Option<(u64, bool)>; 5] {
    [Some((9, true)), None, Some((9, true)), None, None]
}

#[test]
fn a_stack_takes_and_gives_what_conditions_say_of_its_first_value(rt: HostRuntime) {
    let found = plays_alone(&rt, rt.alloc(), Kind::Stack);
    let expected = Found {
        pushed: refused(),
        seen: ([Some(3), Some(3)], (321, 3)),
        popped: [(None, Some(3)), (Some(3), None)],
        left: ([Some(2), Some(2)], (21, 2)),
    };
    assert!(rt; found == (expected, (None, None)));
}

#[test]
fn a_queue_takes_what_conditions_say_of_its_last_value_and_gives_what_they_say_of_its_first(
    rt: HostRuntime,
) {
    let found = plays_alone(&rt, rt.alloc(), Kind::Queue);
    let expected = Found {
        pushed: refused(),
        seen: ([Some(1), Some(1)], (123, 3)),
        popped: [(None, Some(1)), (Some(1), None)],
        left: ([Some(2), Some(2)], (23, 2)),
    };
    assert!(rt; found == (expected, (None, None)));
}
