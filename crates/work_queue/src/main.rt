//! A queue of jobs between two threads: one pushes a hundred numbers, the other pops them.
#![tactic(auto)]

ghost use Rattle.std.specs.Prelude.{◌≡◌};
ghost use Rattle.sdd.specs.Containers.{AreLinksOf, IsAsBefore, IsQueueOf, IsReady};
ghost use Rattle.sdd.specs.Tokens.{own_of};

use sdd::{Domain, Links, Local, Queue, Sizes};
use std::alloc::Global;
use std::process::ExitCode;
use std::sync::Wait;
use std::thread::{Threads, join};

// A queue in its place.
#[derive(Drop)]
struct Scene<'a> {
    domain: &'a Domain<u64>,
    links: &'a Links<u64>,
    queue: &'a Queue<u64>,
    ghost made: { IsQueueOf queue.now domain.now × AreLinksOf links.now domain.now },
}

// A participant of a scene, at rest between its calls.
struct Worker<'a> {
    scene: &'a Scene<'a>,
    local: Local<u64>,
    ghost ready: { IsReady local scene.now.domain.now × ((own_of local).nesting ≡ 0) },
}

// One of its participants, if one is free.
fn worker_of<'a>(scene: &'a Scene<'a>) -> Option<Worker<'a>> {
    match scene.domain.register() {
        Ok(local) => Some(Worker { scene, local }),
        Err(_) => None,
    }
}

// Ends a participant.
fn leave(worker: Worker) {
    let Worker { scene, local } = worker;
    local.end(scene.domain);
}

// Pushes a number: whether it was taken.
fn pushed(worker: &mut Worker, number: u64) -> bool {
    let Worker { scene, local } = worker;
    match scene.queue.push(scene.domain, number, scene.links, local) {
        Ok(()) => true,
        Err(refused) => {
            let _value = refused.end(scene.domain, local);
            false
        }
    }
}

// Pops once: the value, if there was one.
fn popped(worker: &mut Worker) -> Option<u64> {
    let Worker { scene, local } = worker;
    let owner = scene.queue.pop(scene.domain, scene.links, local)?;
    let value = *owner.as_ref();
    let _last = owner.release(scene.domain, local);
    Some(value)
}

// Pushes the numbers from 1 to 100: how many were taken.
fn produced(scene: &Scene) -> u64 {
    let Some(mut worker) = worker_of(scene) else {
        return 0;
    };
    let mut taken = 0u64;
    for number in 1..=100u64 {
        if pushed(&mut worker, number) {
            taken = taken.saturating_add(1);
        }
    }
    leave(worker);
    taken
}

// Pops a thousand times: how many there were, and their sum.
fn consumed(scene: &Scene) -> (u64, u64) {
    let Some(mut worker) = worker_of(scene) else {
        return (0, 0);
    };
    let mut count = 0u64;
    let mut sum = 0u64;
    for _turn in 0..1000u32 {
        if let Some(value) = popped(&mut worker) {
            count = count.saturating_add(1);
            sum = sum.saturating_add(value);
        }
    }
    leave(worker);
    (count, sum)
}

// What two threads do, and then this one: how many came out and their sum, if all did.
fn both<R: Threads + Sync>(rt: &R, scene: &Scene) -> Option<(u64, u64)> {
    let (taken, (count, sum)) = join(rt, || produced(scene), || consumed(scene));
    let (rest, more) = consumed(scene);
    let all = count.saturating_add(rest);
    if all == taken {
        Some((all, sum.saturating_add(more)))
    } else {
        None
    }
}

fn play<R: Threads + Sync>(
    rt: &R,
    alloc: Global,
    domain: &Domain<u64>,
    local: &mut Local<u64>,
) -> Option<(u64, u64)>
    requires { IsReady local.old domain.now }
    ensures { IsAsBefore local.old local.new }
{
    let Ok(links) = Links::new(alloc, domain, local) else {
        return None;
    };
    let Some(queue) = Queue::new(domain, local) else {
        links.end(domain, local);
        return None;
    };
    let scene = Scene {
        domain,
        links: &links,
        queue: &queue,
    };
    let found = both(rt, &scene);
    queue.end(domain, &links, local);
    links.end(domain, local);
    found
}

fn end<R: Wait>(rt: &R, mut domain: Domain<u64>) {
    for _ in rt.forever() {
        match domain.close() {
            Ok(()) => return,
            Err(back) => domain = back,
        }
    }
    unreachable!()
}

fn main(rt: HostRuntime) -> ExitCode {
    let sizes = Sizes {
        participants: 4,
        slots: 256,
        cells: 258,
        jobs: 0,
    };
    let Ok(domain) = Domain::new(rt.alloc(), sizes) else {
        return ExitCode::FAILURE;
    };
    let Ok(mut local) = domain.register() else {
        end(&rt, domain);
        return ExitCode::FAILURE;
    };
    let found = play(&rt, rt.alloc(), &domain, &mut local);
    local.end(&domain);
    end(&rt, domain);
    match found {
        Some((count, sum)) => match println!(rt; "{count} numbers, {sum} in all") {
            Ok(()) => ExitCode::SUCCESS,
            Err(_) => ExitCode::FAILURE,
        },
        None => ExitCode::FAILURE,
    }
}
