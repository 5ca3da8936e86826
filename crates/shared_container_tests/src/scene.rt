//! A stack, a queue and a bag in one place.

ghost use Rattle.std.specs.Prelude.{◌≡◌, ◌<◌, ◌≤◌, [], IfSome};
ghost use Rattle.sdd_domain.specs.Layout.{IsSized};
ghost use Rattle.sdd_domain.specs.Sharing.{kept_in};
ghost use Rattle.sdd_domain.specs.Tokens.{place_of, home_of, hand_of, own_of, IsInNest};
ghost use Rattle.shared_containers.specs.Containers.{AreLinksOf, IsBagOf, IsQueueOf, IsStackOf, IsAsBefore};
ghost use Rattle.shared_container_tests.specs.Any.{Rests};

use sdd_domain::domain::Domain;
use sdd_domain::guard::Guard;
use sdd_domain::holds::Holds;
use sdd_domain::local::Local;
use sdd_domain::shared::Shared;
use sdd_plain::sizes::Sizes;
use shared_containers::Links;
use shared_containers::bag::Bag;
use shared_containers::queue::Queue;
use shared_containers::stack::Stack;
use std::alloc::Global;
use std::process::Abort;

/// A place for this many participants, with this many slots and cells.
pub(crate) fn sized(participants: u8, slots: u16, cells: u16) -> Sizes
    requires { 1 ≤ participants }
    ensures { IsSized result }
{
    Sizes {
        participants: usize::from(participants),
        slots: usize::from(slots),
        cells: usize::from(cells),
        jobs: 0,
    }
}

pub(crate) fn member<T: Holds, R: Abort>(rt: &R, domain: &Domain<T>) -> Local<T>
    ensures { Rests domain.now result }
{
    match domain.register() {
        Ok(local) => local,
        Err(_) => panic!(rt; "a participant is free"),
    }
}

/// A place for one participant, with this many slots and cells.
pub(crate) fn place<R: Abort>(rt: &R, alloc: Global, slots: u16, cells: u16) -> Domain<u64> {
    Domain::new(alloc, sized(1, slots, cells)).expect(rt, "memory is ample")
}

/// Ends a place in which nobody is registered.
pub(crate) fn end<T: Holds, R: Abort>(rt: &R, domain: Domain<T>) {
    match domain.close() {
        Ok(()) => {}
        Err(_) => panic!(rt; "nobody is registered, and nothing has an owner"),
    }
}

/// Opens and closes an accelerated guard.
fn pass(domain: &Domain<u64>, local: &mut Local<u64>)
    requires { Rests domain.now local.old }
    ensures same { IsAsBefore local.old local.new }
{
    let Ok(guard) = Guard::new(domain, local) else {
        unreachable!();
    };
    guard.accelerate(local);
    guard.close(domain, local);
}

/// Four of them: what was retired before is reclaimed.
pub(crate) fn four(domain: &Domain<u64>, local: &mut Local<u64>)
    requires { Rests domain.now local.old }
    ensures same { IsAsBefore local.old local.new }
{
    pass(domain, local);
    pass(domain, local);
    pass(domain, local);
    pass(domain, local);
}

/// What an owner reads, which is released, if there is one.
pub(crate) fn read(
    domain: &Domain<u64>,
    owner: Option<Shared<u64>>,
    local: &mut Local<u64>,
) -> Option<u64>
    requires home { home_of local.old ≡ place_of domain.now }
    requires mine { IfSome owner (λ s. kept_in s ≡ (place_of domain.now).0) }
    ensures same { IsAsBefore local.old local.new }
{
    let owner = owner?;
    let value = *owner.as_ref();
    owner.release(domain, local);
    Some(value)
}

/// Which of the containers is meant.
#[derive(Clone, Copy, PartialEq, Eq)]
pub(crate) enum Kind {
    Stack,
    Queue,
    Bag,
}

/// A stack, a queue and a bag with their links.
pub(crate) struct Made {
    links: Links<u64>,
    pub(crate) stack: Stack<u64>,
    queue: Queue<u64>,
    bag: Bag<u64, 4>,
}

impl Made {
    pub(crate) fn new<R: Abort>(
        rt: &R,
        alloc: Global,
        domain: &Domain<u64>,
        local: &mut Local<u64>,
    ) -> Made
        requires home { home_of local.old ≡ place_of domain.now }
        ensures made { IsStackOf result.stack domain.now × IsQueueOf result.queue domain.now × IsBagOf result.bag domain.now × AreLinksOf result.links domain.now }
        ensures same { IsAsBefore local.old local.new }
    {
        let Ok(links) = Links::new(alloc, domain, local) else {
            panic!(rt; "memory is ample, and so are cells");
        };
        let Some(stack) = Stack::new(domain, local) else {
            panic!(rt; "a cell is free");
        };
        let Some(queue) = Queue::new(domain, local) else {
            panic!(rt; "two cells are free");
        };
        match Bag::new(alloc, domain, local) {
            Ok(bag) => Made {
                links,
                stack,
                queue,
                bag,
            },
            Err(_) => panic!(rt; "five cells are free"),
        }
    }

    pub(crate) fn scene<'a>(&'a self, domain: &'a Domain<u64>, kind: Kind) -> Scene<'a>
        requires stack { IsStackOf self.now.stack domain.now }
        requires queue { IsQueueOf self.now.queue domain.now }
        requires bag { IsBagOf self.now.bag domain.now }
        requires links { AreLinksOf self.now.links domain.now }
        ensures domain { result.domain.now ≡ domain.now }
    {
        Scene {
            domain,
            links: &self.links,
            stack: &self.stack,
            queue: &self.queue,
            bag: &self.bag,
            kind,
        }
    }

    /// Ends them: whether the stack, the queue and the bag were found empty before.
    pub(crate) fn end(self, domain: &Domain<u64>, local: &mut Local<u64>) -> bool
        requires rests { Rests domain.now local.old }
        requires made { IsStackOf self.stack domain.now × IsQueueOf self.queue domain.now × IsBagOf self.bag domain.now × AreLinksOf self.links domain.now }
        ensures same { IsAsBefore local.old local.new }
    {
        let Made {
            links,
            stack,
            queue,
            bag,
        } = self;
        let empty = stack.is_empty(domain, local)
            && queue.is_empty(domain, local)
            && bag.is_empty(domain, local);
        stack.end(domain, &links, local);
        queue.end(domain, &links, local);
        bag.end(domain, &links, local);
        links.end(domain, local);
        empty
    }
}

/// One of them, in its place.
#[derive(Drop)]
pub(crate) struct Scene<'a> {
    pub(crate) domain: &'a Domain<u64>,
    pub(crate) links: &'a Links<u64>,
    pub(crate) stack: &'a Stack<u64>,
    pub(crate) queue: &'a Queue<u64>,
    bag: &'a Bag<u64, 4>,
    pub(crate) kind: Kind,
    ghost made: { IsStackOf stack.now domain.now × IsQueueOf queue.now domain.now × IsBagOf bag.now domain.now × AreLinksOf links.now domain.now },
}

impl<'a> Scene<'a> {
    /// Pushes a value: it is returned where no slot is free.
    pub(crate) fn push(&self, local: &mut Local<u64>, value: u64) -> Option<u64>
        requires home { (home_of local.old ≡ place_of self.now.domain.now) × (hand_of local.old ≡ []) }
        requires shallow { (own_of local.old).nesting < 4294967295 }
        ensures same { IsAsBefore local.old local.new }
    {
        let pushed = match self.kind {
            Kind::Stack => self.stack.push(self.domain, value, self.links, local),
            Kind::Queue => self.queue.push(self.domain, value, self.links, local),
            Kind::Bag => self.bag.push(self.domain, value, self.links, local),
        };
        match pushed {
            Ok(()) => None,
            Err(refused) => refused.end(self.domain, local),
        }
    }

    /// Whether it has no value.
    pub(crate) fn is_empty(&self, local: &mut Local<u64>) -> bool
        requires home { home_of local.old ≡ place_of self.now.domain.now }
        ensures same { IsInNest local.old local.new × (own_of local.new ≡ own_of local.old) }
    {
        match self.kind {
            Kind::Stack => self.stack.is_empty(self.domain, local),
            Kind::Queue => self.queue.is_empty(self.domain, local),
            Kind::Bag => self.bag.is_empty(self.domain, local),
        }
    }

    /// Pops a value.
    pub(crate) fn pop(&self, local: &mut Local<u64>) -> Option<u64>
        requires home { (home_of local.old ≡ place_of self.now.domain.now) × (hand_of local.old ≡ []) }
        requires shallow { (own_of local.old).nesting < 4294967295 }
        ensures same { IsAsBefore local.old local.new }
    {
        let popped = match self.kind {
            Kind::Stack => self.stack.pop(self.domain, self.links, local),
            Kind::Queue => self.queue.pop(self.domain, self.links, local),
            Kind::Bag => self.bag.pop(self.domain, self.links, local),
        };
        read(self.domain, popped, local)
    }
}
