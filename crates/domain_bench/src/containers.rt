//! A stack and a queue that all threads push on and pop of.

ghost use Rattle.std.specs.Prelude.{◌≡◌, [], IfSome};
ghost use Rattle.sdd_domain.specs.Tokens.{place_of, home_of, hand_of, own_of};
ghost use Rattle.shared_containers.specs.Containers.{AreLinksOf, IsAsBefore, IsQueueOf, IsReady, IsStackOf};

use crate::pass;
use sdd_domain::domain::Domain;
use sdd_domain::local::Local;
use shared_containers::Links;
use shared_containers::queue::Queue;
use shared_containers::stack::Stack;
use std::alloc::{AllocError, Global};
use std::sync::Wait;
use std::thread;
use std::thread::Threads;

/// A stack and a queue, which must be consumed by `end`.
struct Containers {
    links: Links<u64>,
    stack: Stack<u64>,
    queue: Queue<u64>,
}

impl Containers {
    /// None where there is no memory for their links, or where cells are few.
    fn new(alloc: Global, domain: &Domain<u64>, local: &mut Local<u64>) -> Option<Containers>
        requires ready { IsReady local.old domain.now }
        ensures made { IfSome result (λ c. IsStackOf c.stack domain.now × IsQueueOf c.queue domain.now × AreLinksOf c.links domain.now) }
        ensures same { IsAsBefore local.old local.new }
    {
        let links = Links::new(alloc, domain, local).ok()?;
        let Some(stack) = Stack::new(domain, local) else {
            links.end(domain, local);
            return None;
        };
        let Some(queue) = Queue::new(domain, local) else {
            stack.end(domain, &links, local);
            links.end(domain, local);
            return None;
        };
        Some(Containers {
            links,
            stack,
            queue,
        })
    }

    fn end(self, domain: &Domain<u64>, local: &mut Local<u64>)
        requires ready { IsReady local.old domain.now }
        requires made { IsStackOf self.stack domain.now × IsQueueOf self.queue domain.now × AreLinksOf self.links domain.now }
        ensures same { IsAsBefore local.old local.new }
    {
        let Containers {
            links,
            stack,
            queue,
        } = self;
        stack.end(domain, &links, local);
        queue.end(domain, &links, local);
        links.end(domain, local);
    }
}

/// They in their place.
#[derive(Drop)]
struct Scene<'a> {
    domain: &'a Domain<u64>,
    links: &'a Links<u64>,
    stack: &'a Stack<u64>,
    queue: &'a Queue<u64>,
    ghost made: { IsStackOf stack.now domain.now × IsQueueOf queue.now domain.now × AreLinksOf links.now domain.now },
}

/// This many numbers one by one, each pushed on one of them before one is popped: the sum of those that were popped. Where no
/// slot is free a guard is passed that reclaims what is due. Each container has code of its own.
macro_rules! rounds_on {
    ($of:ident, $scene:expr, $local:expr, $rounds:expr) => {{
        let (domain, links, of, local) = ($scene.domain, $scene.links, $scene.$of, $local);
        let mut sum: u64 = 0;
        for i in 0..$rounds {
            if let Err(refused) = of.push(domain, u64::from(i), links, local) {
                let _ = refused.end(domain, local);
                let _ = pass(domain, local, true);
            }
            if let Some(owner) = of.pop(domain, links, local) {
                sum = sum.wrapping_add(*owner.as_ref());
                owner.release(domain, local);
            }
        }
        sum
    }};
}

#[inline(never)]
fn on_stack(scene: &Scene, local: &mut Local<u64>, rounds: u32) -> u64
    requires { IsReady local.old scene.now.domain.now }
    ensures { IsAsBefore local.old local.new }
{
    rounds_on!(stack, scene, local, rounds)
}

#[inline(never)]
fn on_queue(scene: &Scene, local: &mut Local<u64>, rounds: u32) -> u64
    requires { IsReady local.old scene.now.domain.now }
    ensures { IsAsBefore local.old local.new }
{
    rounds_on!(queue, scene, local, rounds)
}

/// The rounds of one thread. None if no participant was free.
fn work(scene: &Scene, on_a_stack: bool, rounds: u32) -> Option<u64> {
    let mut local = scene.domain.register().ok()?;
    let sum = if on_a_stack {
        on_stack(scene, &mut local, rounds)
    } else {
        on_queue(scene, &mut local, rounds)
    };
    local.end(scene.domain);
    Some(sum)
}

/// A participant, as soon as one is free.
fn member<R: Wait>(rt: &R, domain: &Domain<u64>) -> Local<u64>
    ensures home { (home_of result ≡ place_of domain.now) × (hand_of result ≡ []) }
    ensures closed { (own_of result).nesting ≡ 0 }
{
    for _ in rt.forever() {
        if let Ok(local) = domain.register() {
            return local;
        }
    }
    unreachable!()
}

/// The rounds of this many threads on a stack, or on a queue, that they share, which is empty before.
pub(crate) fn rounds_of_all<R: Threads + Wait + Sync>(
    rt: &R,
    alloc: Global,
    domain: &Domain<u64>,
    threads: u8,
    on_a_stack: bool,
    rounds: u32,
) -> Result<Vec<Option<u64>>, AllocError> {
    let mut local = member(rt, domain);
    let made = Containers::new(alloc, domain, &mut local);
    local.end(domain);
    let Some(made) = made else {
        return Err(AllocError);
    };
    let scene = Scene {
        domain,
        links: &made.links,
        stack: &made.stack,
        queue: &made.queue,
    };
    let sums = thread::map_indices(
        rt,
        alloc,
        usize::from(threads),
        &|_| work(&scene, on_a_stack, rounds),
    );
    let mut local = member(rt, domain);
    made.end(domain, &mut local);
    local.end(domain);
    sums
}
