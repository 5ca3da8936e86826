//! Calls that want a slot or a cell where none is free. What they would have changed is looked at behind them.

ghost use Rattle.std.specs.Prelude.{◌≡◌, []};
ghost use Rattle.sdd_domain.specs.Tokens.{place_of, home_of, hand_of, own_of};
ghost use Rattle.shared_containers.specs.Containers.{AreLinksOf, IsAsBefore, IsStackOf};

use crate::conditions::{push_behind, walks};
use crate::lists::last_two;
use crate::scene::{Kind, Made, end, member, place};
use sdd_domain::domain::Domain;
use sdd_domain::local::Local;
use shared_containers::Links;
use shared_containers::queue::Queue;
use shared_containers::stack::Stack;
use std::alloc::Global;
use std::process::Abort;

/// What comes out of a stack, which is ended, and so are another one and the links.
fn left_in(
    domain: &Domain<u64>,
    stack: Stack<u64>,
    other: Stack<u64>,
    links: Links<u64>,
    local: &mut Local<u64>,
) -> [Option<u64>; 3]
    requires home { (home_of local.old ≡ place_of domain.now) × (hand_of local.old ≡ []) }
    requires closed { (own_of local.old).nesting ≡ 0 }
    requires stacks { IsStackOf stack domain.now × IsStackOf other domain.now × AreLinksOf links domain.now }
    ensures same { IsAsBefore local.old local.new }
{
    let left = last_two(domain, stack, &links, local);
    other.end(domain, &links, local);
    links.end(domain, local);
    left
}

/// Whether no cell is free for a stack; one that is made is ended.
fn is_refused(domain: &Domain<u64>, links: &Links<u64>, local: &mut Local<u64>) -> bool
    requires home { (home_of local.old ≡ place_of domain.now) × (hand_of local.old ≡ []) }
    requires closed { (own_of local.old).nesting ≡ 0 }
    requires links { AreLinksOf links.now domain.now }
    ensures same { IsAsBefore local.old local.new }
{
    match Stack::new(domain, local) {
        Some(stack) => {
            stack.end(domain, links, local);
            false
        }
        None => true,
    }
}

/// What is refused where one cell is free beside links and a stack of 1: a queue, one more stack behind another, and a
/// stack of all items. And what the stack has then.
fn refused_cells<R: Abort>(rt: &R, alloc: Global) -> ([bool; 4], [Option<u64>; 3]) {
    let whole = place(rt, alloc, 1, 3);
    let domain = &whole;
    let mut local = member(rt, domain);
    let Ok(links) = Links::new(alloc, domain, &mut local) else {
        panic!(rt; "memory is ample, and a cell is free");
    };
    let Some(stack) = Stack::new(domain, &mut local) else {
        panic!(rt; "two cells are free");
    };
    let is_pushed = match stack.push(domain, 1, &links, &mut local) {
        Ok(()) => true,
        Err(refused) => refused.end(domain, &mut local).is_none(),
    };
    let queue = match Queue::new(domain, &mut local) {
        Some(queue) => {
            queue.end(domain, &links, &mut local);
            false
        }
        None => true,
    };
    let Some(other) = Stack::new(domain, &mut local) else {
        panic!(rt; "the cell is free still");
    };
    let third = is_refused(domain, &links, &mut local);
    let all = match stack.pop_all(domain, &mut local) {
        Some(all) => {
            all.end(domain, &links, &mut local);
            false
        }
        None => true,
    };
    let left = left_in(domain, stack, other, links, &mut local);
    local.end(domain);
    end(rt, whole);
    ([is_pushed, queue, third, all], left)
}

#[test]
fn stacks_want_a_cell_each_and_queues_two(rt: HostRuntime) {
    let found = refused_cells(&rt, rt.alloc());
    assert!(rt; found == ([true; 4], [Some(1), None, None]));
}

/// What is returned of 1 and 2, whose conditions hold, in a place of one slot; and the digits and the count of what is in.
type Found = ([Option<(u64, bool)>; 2], (u64, usize));

fn pushes_two<R: Abort>(rt: &R, alloc: Global, kind: Kind) -> Found {
    let domain = place(rt, alloc, 1, 9);
    let mut local = member(rt, &domain);
    let made = Made::new(rt, alloc, &domain, &mut local);
    let scene = made.scene(&domain, kind);
    let pushed = [
        push_behind(&scene, &mut local, 1, None),
        push_behind(&scene, &mut local, 2, Some(1)),
    ];
    let left = walks(&scene, &mut local);
    made.end(&domain, &mut local);
    local.end(&domain);
    end(rt, domain);
    (pushed, left)
}

#[test]
fn what_a_condition_lets_in_wants_a_slot(rt: HostRuntime) {
    let stack = pushes_two(&rt, rt.alloc(), Kind::Stack);
    let queue = pushes_two(&rt, rt.alloc(), Kind::Queue);
    // it isn't the condition
    let one = ([None, Some((2, false))], (1, 1));
    assert!(rt; stack == one && queue == one);
}
