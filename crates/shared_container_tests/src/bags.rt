//! Bags by one thread.

ghost use Rattle.shared_containers.specs.Containers.{AreLinksOf, IsAsBefore, IsBagOf};
ghost use Rattle.shared_container_tests.specs.Any.{Rests};

use crate::lists::is_free;
use crate::scene::{end, four, member, place, read};
use sdd_domain::domain::Domain;
use sdd_domain::local::Local;
use shared_containers::Links;
use shared_containers::bag::Bag;
use shared_containers::outcome::{NotMade, PushRefused};
use std::alloc::Global;
use std::process::Abort;

/// A bag with one place besides its overflow, and what it is used with.
#[derive(Drop)]
struct Scene<'a> {
    domain: &'a Domain<u64>,
    links: &'a Links<u64>,
    bag: &'a Bag<u64, 1>,
    ghost made: { IsBagOf bag.now domain.now × AreLinksOf links.now domain.now },
}

impl<'a> Scene<'a> {
    /// Pushes a value: it is returned where no slot is free.
    fn push(&self, local: &mut Local<u64>, value: u64) -> Option<u64>
        requires { Rests self.now.domain.now local.old }
        ensures same { IsAsBefore local.old local.new }
    {
        match self.bag.push(self.domain, value, self.links, local) {
            Ok(()) => None,
            Err(refused) => refused.end(self.domain, local),
        }
    }

    /// Pushes a value into the primary: it is returned, and true, where that is full, and back where no slot is free.
    fn try_push(&self, local: &mut Local<u64>, value: u64) -> Option<(u64, bool)>
        requires { Rests self.now.domain.now local.old }
        ensures same { IsAsBefore local.old local.new }
    {
        match self.bag.try_push(self.domain, value, local) {
            Ok(()) => None,
            Err(PushRefused::Full(value)) => Some((value, true)),
            Err(refused) => Some((refused.end(self.domain, local)?, false)),
        }
    }

    fn pop(&self, local: &mut Local<u64>) -> Option<u64>
        requires { Rests self.now.domain.now local.old }
        ensures same { IsAsBefore local.old local.new }
    {
        let popped = self.bag.pop(self.domain, self.links, local);
        read(self.domain, popped, local)
    }

    fn len(&self, local: &mut Local<u64>) -> usize
        requires { Rests self.now.domain.now local.old }
        ensures same { IsAsBefore local.old local.new }
    {
        self.bag.len(self.domain, self.links, local)
    }
}

/// What a participant finds: what is returned of what is pushed into the primary, and of what is pushed; what is popped; how
/// many items there are before, in between and in the end; whether the bag is empty with items and without; and the sum of
/// what is popped all at once.
#[derive(Clone, Copy, PartialEq, Eq)]
struct Found {
    tried: [Option<(u64, bool)>; 3],
    pushed: [Option<u64>; 2],
    popped: [Option<u64>; 3],
    lens: [usize; 4],
    empty: [bool; 2],
    sum: u64,
}

/// The sum of 5 and 6, which are pushed and then popped with all others.
fn pops_all(scene: &Scene, local: &mut Local<u64>) -> u64
    requires { Rests scene.now.domain.now local.old }
    ensures same { IsAsBefore local.old local.new }
{
    let _ = scene.push(local, 5);
    let _ = scene.push(local, 6);
    let mut sum = 0u64;
    scene.bag.pop_all(
        scene.domain,
        |value| sum = sum.wrapping_add(*value),
        scene.links,
        local,
    );
    sum
}

/// What a bag of one place and its overflow does in a place of two slots.
fn plays(scene: &Scene, local: &mut Local<u64>) -> Found
    requires { Rests scene.now.domain.now local.old }
    ensures same { IsAsBefore local.old local.new }
{
    let before = scene.len(local);
    let tried = [scene.try_push(local, 1), scene.try_push(local, 2)];
    let one = scene.len(local);
    let pushed = [scene.push(local, 2), scene.push(local, 3)];
    let two = scene.len(local);
    let full = scene.bag.is_empty(scene.domain, local);
    let popped = [scene.pop(local), scene.pop(local), scene.pop(local)];
    let empty = scene.bag.is_empty(scene.domain, local);
    // the primary has room again, but what was popped isn't reclaimed yet
    let late = scene.try_push(local, 4);
    four(scene.domain, local);
    let sum = pops_all(scene, local);
    Found {
        tried: [tried[0], tried[1], late],
        pushed,
        popped,
        lens: [before, one, two, scene.len(local)],
        empty: [full, empty],
        sum,
    }
}

/// The same with the links and the bag that it takes.
fn plays_alone<R: Abort>(rt: &R, alloc: Global) -> Found {
    let whole = place(rt, alloc, 2, 4);
    let domain = &whole;
    let mut local = member(rt, domain);
    let Ok(links) = Links::new(alloc, domain, &mut local) else {
        panic!(rt; "memory is ample, and so are cells");
    };
    let Ok(bag) = Bag::<u64, 1>::new(alloc, domain, &mut local) else {
        panic!(rt; "two cells are free");
    };
    let scene = Scene {
        domain,
        links: &links,
        bag: &bag,
    };
    let found = plays(&scene, &mut local);
    let _ = scene.push(&mut local, 7);
    bag.end(domain, &links, &mut local);
    links.end(domain, &mut local);
    local.end(domain);
    end(rt, whole);
    found
}

#[test]
fn a_bag_fills_its_primary_and_then_its_overflow_and_gives_that_back_first(rt: HostRuntime) {
    let found = plays_alone(&rt, rt.alloc());
    let expected = Found {
        tried: [None, Some((2, true)), Some((4, false))],
        pushed: [None, Some(3)],
        popped: [Some(2), Some(1), None],
        lens: [0, 1, 2, 0],
        empty: [false, true],
        sum: 11,
    };
    assert!(rt; found == expected);
}

#[test]
fn a_bag_wants_a_cell_for_each_place_and_one_more(rt: HostRuntime) {
    let domain = place(&rt, rt.alloc(), 0, 2);
    let mut local = member(&rt, &domain);
    let Ok(links) = Links::new(rt.alloc(), &domain, &mut local) else {
        panic!(&rt; "memory is ample, and no cell is needed");
    };
    let refused = match Bag::<u64, 2>::new(rt.alloc(), &domain, &mut local) {
        Ok(bag) => {
            bag.end(&domain, &links, &mut local);
            None
        }
        Err(refused) => Some(refused),
    };
    // those that were taken are free again
    let free = is_free(&domain, &mut local);
    links.end(&domain, &mut local);
    local.end(&domain);
    end(&rt, domain);
    assert!(rt; refused == Some(NotMade::NoCell) && free);
}
