//! Containers that are made of values, and their clones.

ghost use Rattle.std.specs.Prelude.{◌≡◌, IfErr, IfSome};
ghost use Rattle.sdd_domain.specs.Tokens.{place_of, home_of};
ghost use Rattle.shared_containers.specs.Containers.{AreLinksOf, IsAsBefore, IsQueueOf};
ghost use Rattle.shared_containers.specs.Outcomes.{IsKeptIn};
ghost use Rattle.shared_container_tests.specs.Any.{IfRefused, IsAnyOf, Rests};

use crate::kinds::Any;
use crate::scene::{Kind, end, four, member, place, sized};
use sdd_domain::domain::Domain;
use sdd_domain::local::Local;
use sdd_domain::plain::Plain;
use shared_containers::Links;
use shared_containers::bag::Bag;
use shared_containers::outcome::{CloneRefused, FromIterRefused, NotCloned, NotMade, PushRefused};
use shared_containers::queue::Queue;
use shared_containers::stack::Stack;
use std::alloc::{AllocError, Global};
use std::process::Abort;

/// The values of what was made, or made in part, as the digits of a number in the order of a walk or of pops; and the value
/// that was returned.
type Made = (Option<u64>, Option<u64>);

const NOTHING: Made = (None, None);

/// A place with its links.
#[derive(Drop)]
struct Scene<'a> {
    domain: &'a Domain<u64>,
    links: &'a Links<u64>,
    ghost made: { AreLinksOf links.now domain.now },
}

impl<'a> Scene<'a> {
    /// A container of the values from 1 up to below the last one, as far as it was made, and the value that was returned.
    fn make(
        &self,
        alloc: Global,
        kind: Kind,
        last: u64,
        local: &mut Local<u64>,
    ) -> (Option<Any>, Option<u64>)
        requires { Rests self.now.domain.now local.old }
        ensures made { IfSome result.0 (λ a. IsAnyOf a self.now.domain.now) }
        ensures same { IsAsBefore local.old local.new }
    {
        let Scene { domain, links, .. } = *self;
        match kind {
            Kind::Stack => match Stack::from_iter(domain, 1..last, links, local) {
                Ok(stack) => (Some(Any::Stack(stack)), None),
                Err(FromIterRefused::Unmade(_, back)) => (None, Some(back.start)),
                Err(FromIterRefused::Partly(stack, refused)) => {
                    (Some(Any::Stack(stack)), refused.end(domain, local))
                }
            },
            Kind::Queue => match Queue::from_iter(domain, 1..last, links, local) {
                Ok(queue) => (Some(Any::Queue(queue)), None),
                Err(FromIterRefused::Unmade(_, back)) => (None, Some(back.start)),
                Err(FromIterRefused::Partly(queue, refused)) => {
                    (Some(Any::Queue(queue)), refused.end(domain, local))
                }
            },
            Kind::Bag => match Bag::from_iter(alloc, domain, 1..last, links, local) {
                Ok(bag) => (Some(Any::Bag(bag)), None),
                Err(FromIterRefused::Unmade(_, back)) => (None, Some(back.start)),
                Err(FromIterRefused::Partly(bag, refused)) => {
                    (Some(Any::Bag(bag)), refused.end(domain, local))
                }
            },
        }
    }

    /// A clone of a stack or a queue, as far as it was made, and the value that was returned.
    fn copy(&self, any: &Any, local: &mut Local<u64>) -> (Option<Any>, Option<u64>)
        requires rests { Rests self.now.domain.now local.old }
        requires any { IsAnyOf any.now self.now.domain.now }
        ensures made { IfSome result.0 (λ a. IsAnyOf a self.now.domain.now) }
        ensures same { IsAsBefore local.old local.new }
    {
        let Scene { domain, links, .. } = *self;
        match any {
            Any::Stack(stack) => match stack.clone(domain, links, local) {
                Ok(copy) => (Some(Any::Stack(copy)), None),
                Err(CloneRefused::Unmade(_)) => (None, None),
                Err(CloneRefused::Partly(copy, why)) => {
                    (Some(Any::Stack(copy)), self.back(why, local))
                }
            },
            Any::Queue(queue) => match queue.clone(domain, links, local) {
                Ok(copy) => (Some(Any::Queue(copy)), None),
                Err(CloneRefused::Unmade(_)) => (None, None),
                Err(CloneRefused::Partly(copy, why)) => {
                    (Some(Any::Queue(copy)), self.back(why, local))
                }
            },
            Any::Bag(_) => (None, None),
        }
    }

    /// The clone that was returned.
    fn back(&self, why: NotCloned<u64>, local: &mut Local<u64>) -> Option<u64>
        requires home { home_of local.old ≡ place_of self.now.domain.now }
        requires mine { IfRefused why (λ r. IsKeptIn r (place_of self.now.domain.now).0) }
        ensures same { IsAsBefore local.old local.new }
    {
        match why {
            NotCloned::Memory => None,
            NotCloned::Refused(refused) => refused.end(self.domain, local),
        }
    }

    /// The values of a container on which 9 is pushed, if there is a slot for it; and ends it.
    fn digits(&self, any: Any, local: &mut Local<u64>) -> u64
        requires rests { Rests self.now.domain.now local.old }
        requires any { IsAnyOf any self.now.domain.now }
        ensures same { IsAsBefore local.old local.new }
    {
        let Scene { domain, links, .. } = *self;
        let mut digits = 0u64;
        let note = |found: &u64| digits = digits.wrapping_mul(10).wrapping_add(*found);
        match any {
            Any::Stack(stack) => {
                let pushed = stack.push(domain, 9, links, local);
                self.let_go(pushed, local);
                stack.for_each(domain, note, links, local);
                stack.end(domain, links, local);
            }
            Any::Queue(queue) => {
                let pushed = queue.push(domain, 9, links, local);
                self.let_go(pushed, local);
                queue.for_each(domain, note, links, local);
                queue.end(domain, links, local);
            }
            Any::Bag(bag) => {
                let pushed = bag.push(domain, 9, links, local);
                self.let_go(pushed, local);
                bag.pop_all(domain, note, links, local);
                bag.end(domain, links, local);
            }
        }
        digits
    }

    /// Lets a value go that was refused.
    fn let_go(&self, pushed: Result<(), PushRefused<u64>>, local: &mut Local<u64>)
        requires home { home_of local.old ≡ place_of self.now.domain.now }
        requires mine { IfErr pushed (λ r. IsKeptIn r (place_of self.now.domain.now).0) }
        ensures same { IsAsBefore local.old local.new }
    {
        if let Err(refused) = pushed {
            refused.end(self.domain, local);
        }
    }

    /// Has each link have the tag by which an item of a queue was popped, if there are cells for a queue.
    fn pops_all(&self, alloc: Global, local: &mut Local<u64>)
        requires { Rests self.now.domain.now local.old }
        ensures same { IsAsBefore local.old local.new }
    {
        if let (Some(any), _) = self.make(alloc, Kind::Queue, 99, local) {
            let _ = self.digits(any, local);
        }
        four(self.domain, local);
    }

    /// What is made of the values from 1 up to below the last one, and of its clone, where all slots had items before.
    fn plays(&self, alloc: Global, kind: Kind, last: u64, local: &mut Local<u64>) -> (Made, Made)
        requires { Rests self.now.domain.now local.old }
        ensures same { IsAsBefore local.old local.new }
    {
        self.pops_all(alloc, local);
        let (made, back) = self.make(alloc, kind, last, local);
        let Some(made) = made else {
            return ((None, back), NOTHING);
        };
        let (copy, copy_back) = self.copy(&made, local);
        let copied = match copy {
            Some(copy) => Some(self.digits(copy, local)),
            None => None,
        };
        ((Some(self.digits(made, local)), back), (copied, copy_back))
    }
}

/// A kind of container, and how many slots and cells there are; below which value it is made; and what is made of it and of its
/// clone.
type Row = (Kind, u16, u16, u64, Four);

type Four = (Option<u64>, Option<u64>, Option<u64>, Option<u64>);

const ROWS: &[Row] = &[
    // with room for all
    (Kind::Stack, 8, 10, 4, (Some(9321), None, Some(9321), None)),
    (Kind::Queue, 8, 12, 4, (Some(1239), None, Some(1239), None)),
    (Kind::Bag, 4, 7, 4, (Some(9312), None, None, None)),
    (Kind::Bag, 4, 7, 2, (Some(19), None, None, None)),
    // of nothing
    (Kind::Stack, 2, 4, 1, (Some(9), None, Some(9), None)),
    (Kind::Queue, 2, 6, 1, (Some(9), None, Some(9), None)),
    // without a slot for a clone, or for a value
    (Kind::Stack, 5, 7, 4, (Some(321), None, Some(32), Some(1))),
    (Kind::Queue, 5, 9, 4, (Some(123), None, Some(12), Some(3))),
    (Kind::Stack, 2, 4, 4, (Some(21), Some(3), Some(0), Some(2))),
    (Kind::Queue, 2, 6, 4, (Some(12), Some(3), Some(0), Some(1))),
    (Kind::Bag, 2, 5, 4, (Some(12), Some(3), None, None)),
    // without cells for a clone, or for a container
    (Kind::Stack, 5, 6, 4, (Some(9321), None, None, None)),
    (Kind::Queue, 5, 8, 4, (Some(1239), None, None, None)),
    (Kind::Stack, 2, 2, 4, (None, Some(1), None, None)),
    (Kind::Queue, 2, 3, 4, (None, Some(1), None, None)),
    (Kind::Bag, 2, 4, 4, (None, Some(1), None, None)),
];

/// Whether it takes the course that a row says.
fn is_right<R: Abort>(rt: &R, alloc: Global, row: &Row) -> bool {
    let domain = place(rt, alloc, row.1, row.2);
    let mut local = member(rt, &domain);
    let Ok(links) = Links::new(alloc, &domain, &mut local) else {
        panic!(rt; "memory is ample, and so are cells");
    };
    let scene = Scene {
        domain: &domain,
        links: &links,
    };
    let (made, copied) = scene.plays(alloc, row.0, row.3, &mut local);
    links.end(&domain, &mut local);
    local.end(&domain);
    end(rt, domain);
    (made.0, made.1, copied.0, copied.1) == row.4
}

#[test]
fn containers_are_made_of_values_and_cloned_and_what_was_built_comes_back(rt: HostRuntime) {
    let mut right = 0usize;
    let rows = ROWS;
    for at in 0..rows.len() {
        if right == at && is_right(&rt, rt.alloc(), &rows[at]) {
            right = right.saturating_add(1);
        }
    }
    assert_eq!(rt; right, rows.len(), "the first row that isn't right");
}

/// A number that can't be cloned where it is 7.
#[derive(Drop)]
struct Rare {
    number: u64,
}

impl Clone for Rare {
    fn clone(&self) -> Result<Rare, AllocError> {
        if self.number == 7 {
            return Err(AllocError);
        }
        Ok(Rare {
            number: self.number,
        })
    }
}

/// A queue of these numbers, with its links.
#[derive(Drop)]
struct Rares<'a> {
    domain: &'a Domain<Plain<Rare>>,
    links: &'a Links<Plain<Rare>>,
    queue: &'a Queue<Plain<Rare>>,
    ghost made: { IsQueueOf queue.now domain.now × AreLinksOf links.now domain.now },
}

impl<'a> Rares<'a> {
    fn push(&self, local: &mut Local<Plain<Rare>>, number: u64)
        requires { Rests self.now.domain.now local.old }
        ensures same { IsAsBefore local.old local.new }
    {
        let value = Plain {
            value: Rare { number },
        };
        if let Err(refused) = self.queue.push(self.domain, value, self.links, local) {
            let _ = refused.end(self.domain, local);
        }
    }

    /// The numbers of its clone, as far as it was made, as the digits of a number; and whether it ends where memory was refused.
    fn clones(&self, local: &mut Local<Plain<Rare>>) -> (u64, bool)
        requires { Rests self.now.domain.now local.old }
        ensures same { IsAsBefore local.old local.new }
    {
        let mut digits = 0u64;
        let note = |found: &Plain<Rare>| {
            digits = digits.wrapping_mul(10).wrapping_add(found.value.number)
        };
        let (copy, refused) = match self.queue.clone(self.domain, self.links, local) {
            Err(CloneRefused::Partly(copy, NotCloned::Memory)) => (copy, true),
            Err(CloneRefused::Partly(copy, NotCloned::Refused(refused))) => {
                let _ = refused.end(self.domain, local);
                (copy, false)
            }
            Err(CloneRefused::Unmade(_)) => return (0, false),
            Ok(copy) => (copy, false),
        };
        copy.for_each(self.domain, note, self.links, local);
        copy.end(self.domain, self.links, local);
        (digits, refused)
    }
}

#[test]
fn a_clone_ends_before_a_value_whose_clone_is_refused_memory(rt: HostRuntime) {
    let domain = Domain::new(rt.alloc(), sized(1, 8, 12)).expect(&rt, "memory is ample");
    let mut local = member(&rt, &domain);
    let Ok(links) = Links::new(rt.alloc(), &domain, &mut local) else {
        panic!(&rt; "memory is ample, and so are cells");
    };
    let Some(queue) = Queue::new(&domain, &mut local) else {
        panic!(&rt; "two cells are free");
    };
    let rares = Rares {
        domain: &domain,
        links: &links,
        queue: &queue,
    };
    rares.push(&mut local, 6);
    let all = rares.clones(&mut local);
    rares.push(&mut local, 7);
    rares.push(&mut local, 8);
    let found = rares.clones(&mut local);
    queue.end(&domain, &links, &mut local);
    links.end(&domain, &mut local);
    local.end(&domain);
    end(&rt, domain);
    assert!(rt; (all, found) == ((6, false), (6, true)));
}

/// Makes a bag of three values and ends it. Where memory is refused instead: whether all of them are returned.
fn makes_a_bag<R: Abort>(rt: &R, alloc: Global) -> Result<(), bool> {
    let Ok(domain) = Domain::new(alloc, sized(1, 3, 6)) else {
        return Err(true);
    };
    let made = makes_a_bag_in(alloc, &domain);
    end(rt, domain);
    made
}

/// The same in this place.
fn makes_a_bag_in(alloc: Global, domain: &Domain<u64>) -> Result<(), bool> {
    let Ok(mut local) = domain.register() else {
        return Err(true);
    };
    let made = match Links::new(alloc, domain, &mut local) {
        Ok(links) => {
            let made = bag_of_three(alloc, domain, &links, &mut local);
            links.end(domain, &mut local);
            made
        }
        Err(why) => Err(why == NotMade::Memory),
    };
    local.end(domain);
    made
}

/// The same with these links.
fn bag_of_three(
    alloc: Global,
    domain: &Domain<u64>,
    links: &Links<u64>,
    local: &mut Local<u64>,
) -> Result<(), bool>
    requires rests { Rests domain.now local.old }
    requires links { AreLinksOf links.now domain.now }
    ensures same { IsAsBefore local.old local.new }
{
    match Bag::<u64, 2>::from_iter(alloc, domain, 1..4u64, links, local) {
        Ok(bag) => {
            bag.end(domain, links, local);
            Ok(())
        }
        Err(FromIterRefused::Unmade(why, back)) => {
            Err(why == NotMade::Memory && back.start == 1 && back.end == 4)
        }
        Err(FromIterRefused::Partly(bag, refused)) => {
            let _ = refused.end(domain, local);
            bag.end(domain, links, local);
            Err(false)
        }
    }
}

#[test]
fn a_refusal_of_memory_gives_all_values_of_a_bag_back(rt: HostRuntime) {
    assert!(rt; makes_a_bag(&rt, rt.alloc()) != Err(false));
}

#[test]
fn no_memory_is_refused_to_a_bag(rt: HostRuntime) {
    assert!(rt; makes_a_bag(&rt, rt.alloc()) == Ok(()));
}
