//! Walks with pops in between, and bags that are taken apart.

ghost use Rattle.shared_containers.specs.Containers.{AreLinksOf, IsAsBefore, IsBagOf};
ghost use Rattle.shared_container_tests.specs.Any.{Rests};

use crate::scene::{Kind, Made, Scene, end, member, place, read};
use sdd_domain::domain::Domain;
use sdd_domain::guard::Guard;
use sdd_domain::local::Local;
use shared_containers::Links;
use shared_containers::bag::Bag;
use std::alloc::Global;
use std::process::Abort;

/// What a walk gives at each of its steps, and what is popped behind it.
#[derive(Clone, Copy, PartialEq, Eq)]
struct Walked {
    gives: [Option<u64>; 4],
    left: [Option<u64>; 2],
}

/// A walk along 1, 2 and 3, which were pushed in this order. Behind its first step two of them are popped, that which it gave
/// and that which it is at: this it still gives, and ends.
fn walks(scene: &Scene, local: &mut Local<u64>) -> Walked
    requires { Rests scene.now.domain.now local.old }
    ensures same { IsAsBefore local.old local.new }
{
    let Scene { domain, links, .. } = *scene;
    let _ = (
        scene.push(local, 1),
        scene.push(local, 2),
        scene.push(local, 3),
    );
    let Ok(guard) = Guard::new(domain, local) else {
        unreachable!();
    };
    let mut items = if scene.kind == Kind::Queue {
        scene.queue.iter(domain, links, &guard, local)
    } else {
        scene.stack.iter(domain, links, &guard, local)
    };
    let first = items.next(domain, links, &guard, local).copied();
    let _ = (scene.pop(local), scene.pop(local));
    let second = items.next(domain, links, &guard, local).copied();
    let third = items.next(domain, links, &guard, local).copied();
    let last = items.next(domain, links, &guard, local).copied();
    guard.close(domain, local);
    Walked {
        gives: [first, second, third, last],
        left: [scene.pop(local), scene.pop(local)],
    }
}

/// The same in a place of its own.
fn walks_alone<R: Abort>(rt: &R, alloc: Global, kind: Kind) -> Walked {
    let domain = place(rt, alloc, 5, 13);
    let mut local = member(rt, &domain);
    let made = Made::new(rt, alloc, &domain, &mut local);
    let found = walks(&made.scene(&domain, kind), &mut local);
    made.end(&domain, &mut local);
    local.end(&domain);
    end(rt, domain);
    found
}

#[test]
fn a_walk_gives_what_is_popped_meanwhile_and_ends_there(rt: HostRuntime) {
    let table = [
        (Kind::Stack, [Some(3), Some(2), None, None], Some(1)),
        (Kind::Queue, [Some(1), Some(2), None, None], Some(3)),
    ];
    let mut right = true;
    for (kind, gives, left) in table {
        let found = walks_alone(&rt, rt.alloc(), kind);
        let expected = Walked {
            gives,
            left: [left, None],
        };
        right = right && found == expected;
    }
    assert!(rt; right);
}

/// Pushes a value on a bag of two places.
fn push(
    domain: &Domain<u64>,
    bag: &Bag<u64, 2>,
    value: u64,
    links: &Links<u64>,
    local: &mut Local<u64>,
)
    requires rests { Rests domain.now local.old }
    requires made { IsBagOf bag.now domain.now × AreLinksOf links.now domain.now }
    ensures same { IsAsBefore local.old local.new }
{
    if let Err(refused) = bag.push(domain, value, links, local) {
        let _ = refused.end(domain, local);
    }
}

/// Puts 1, 2 and 3 into a bag of two places and its overflow, and takes it apart, by this many steps: the sum of what they gave,
/// and how many gave nothing. What is left is released.
fn takes_apart(
    domain: &Domain<u64>,
    bag: Bag<u64, 2>,
    links: &Links<u64>,
    steps: u8,
    local: &mut Local<u64>,
) -> (u64, u64)
    requires rests { Rests domain.now local.old }
    requires made { IsBagOf bag domain.now × AreLinksOf links.now domain.now }
    ensures same { IsAsBefore local.old local.new }
{
    push(domain, &bag, 1, links, local);
    push(domain, &bag, 2, links, local);
    push(domain, &bag, 3, links, local);
    let mut items = bag.into_iter();
    let mut found = (0u64, 0u64);
    for _step in 0..steps {
        let popped = items.next(domain, links, local);
        match read(domain, popped, local) {
            Some(value) => found.0 = found.0.wrapping_add(value),
            None => found.1 = found.1.wrapping_add(1),
        }
    }
    items.end(domain, links, local);
    found
}

/// The same in a place of its own.
fn takes_apart_alone<R: Abort>(rt: &R, alloc: Global, steps: u8) -> (u64, u64) {
    let domain = place(rt, alloc, 3, 6);
    let mut local = member(rt, &domain);
    let Ok(links) = Links::new(alloc, &domain, &mut local) else {
        panic!(rt; "memory is ample, and so are cells");
    };
    let Ok(bag) = Bag::<u64, 2>::new(alloc, &domain, &mut local) else {
        panic!(rt; "three cells are free");
    };
    let found = takes_apart(&domain, bag, &links, steps, &mut local);
    links.end(&domain, &mut local);
    local.end(&domain);
    end(rt, domain);
    found
}

#[test]
fn a_bag_that_is_taken_apart_gives_each_value_once(rt: HostRuntime) {
    let mut right = true;
    for (steps, expected) in [(0, (0, 0)), (3, (6, 0)), (5, (6, 2))] {
        let found = takes_apart_alone(&rt, rt.alloc(), steps);
        right = right && found == expected;
    }
    assert!(rt; right);
}
