//! Stacks and queues by one thread.

ghost use Rattle.std.specs.Prelude.{◌≡◌, ◌<◌, [], IfSome};
ghost use Rattle.sdd_domain.specs.Cells.{cell_number};
ghost use Rattle.sdd_domain.specs.Tokens.{place_of, home_of, hand_of, cell_count};
ghost use Rattle.shared_containers.specs.Containers.{AreLinksOf, IsAsBefore, IsStackOf};
ghost use Rattle.shared_container_tests.specs.Any.{Rests};

use crate::scene::{Kind, Made, Scene, end, four, member, place, read};
use sdd_domain::atomic_shared::AtomicShared;
use sdd_domain::domain::Domain;
use sdd_domain::guard::Guard;
use sdd_domain::local::Local;
use shared_containers::Links;
use shared_containers::outcome::NotMade;
use shared_containers::stack::Stack;
use std::alloc::Global;
use std::process::Abort;

/// What a full place gives back, what is popped, and whether it was empty before, with three values, with one, and behind.
type Found = ([Option<u64>; 4], [Option<u64>; 4], [bool; 4]);

/// What a participant finds for three slots, in this order.
fn plays(scene: &Scene, local: &mut Local<u64>) -> Found
    requires { Rests scene.now.domain.now local.old }
    ensures same { IsAsBefore local.old local.new }
{
    let before = scene.is_empty(local);
    let pushed = [
        scene.push(local, 1),
        scene.push(local, 2),
        scene.push(local, 3),
        scene.push(local, 4),
    ];
    let full = scene.is_empty(local);
    let (first, second) = (scene.pop(local), scene.pop(local));
    let one = scene.is_empty(local);
    let popped = [first, second, scene.pop(local), scene.pop(local)];
    (pushed, popped, [before, full, one, scene.is_empty(local)])
}

/// What is found so twice, with four guards in between, and whether nothing is left in the end.
fn plays_again<R: Abort>(rt: &R, alloc: Global, kind: Kind) -> ([Found; 2], bool) {
    let domain = place(rt, alloc, 3, 11);
    let mut local = member(rt, &domain);
    let made = Made::new(rt, alloc, &domain, &mut local);
    let scene = made.scene(&domain, kind);
    let first = plays(&scene, &mut local);
    four(&domain, &mut local);
    let again = plays(&scene, &mut local);
    let empty = made.end(&domain, &mut local);
    local.end(&domain);
    end(rt, domain);
    ([first, again], empty)
}

#[test]
fn a_stack_gives_the_last_value_first_and_a_full_place_one_back(rt: HostRuntime) {
    let found = plays_again(&rt, rt.alloc(), Kind::Stack);
    let one = (
        [None, None, None, Some(4)],
        [Some(3), Some(2), Some(1), None],
        [true, false, false, true],
    );
    assert!(rt; found == ([one; 2], true));
}

#[test]
fn a_queue_gives_the_first_value_first_and_a_full_place_one_back(rt: HostRuntime) {
    let found = plays_again(&rt, rt.alloc(), Kind::Queue);
    let first = (
        [None, None, None, Some(4)],
        [Some(1), Some(2), Some(3), None],
        [true, false, false, true],
    );
    // 3 stayed in its slot until another item was appended, and isn't reclaimed yet
    let again = (
        [None, None, Some(3), Some(4)],
        [Some(1), Some(2), None, None],
        [true, false, true, true],
    );
    assert!(rt; found == ([first, again], true));
}

/// What is read of the first item of a stack of 1, through one pointer: before and behind a push of 2 and two pops, all of
/// them under the guard that the pointer was loaded under. And what was popped.
fn reads_on(scene: &Scene, local: &mut Local<u64>) -> ([Option<u64>; 2], [Option<u64>; 2])
    requires { Rests scene.now.domain.now local.old }
    ensures same { IsAsBefore local.old local.new }
{
    let Scene { domain, stack, .. } = *scene;
    let _ = scene.push(local, 1);
    let Ok(guard) = Guard::new(domain, local) else {
        unreachable!();
    };
    let first = stack.peek(domain, &guard, local);
    let before = first.as_ref().copied();
    let _ = scene.push(local, 2);
    let popped = [scene.pop(local), scene.pop(local)];
    let behind = first.as_ref().copied();
    guard.close(domain, local);
    ([before, behind], popped)
}

#[test]
fn under_an_open_guard_others_are_pushed_and_popped_and_what_was_popped_is_read(rt: HostRuntime) {
    let domain = place(&rt, rt.alloc(), 2, 10);
    let mut local = member(&rt, &domain);
    let made = Made::new(&rt, rt.alloc(), &domain, &mut local);
    let found = reads_on(&made.scene(&domain, Kind::Stack), &mut local);
    made.end(&domain, &mut local);
    local.end(&domain);
    end(&rt, domain);
    assert!(rt; found == ([Some(1), Some(1)], [Some(2), Some(1)]));
}

/// What comes out of a stack in front of all others, which is ended.
pub(crate) fn last_two(
    domain: &Domain<u64>,
    stack: Stack<u64>,
    links: &Links<u64>,
    local: &mut Local<u64>,
) -> [Option<u64>; 3]
    requires rests { Rests domain.now local.old }
    requires stack { IsStackOf stack domain.now × AreLinksOf links.now domain.now }
    ensures same { IsAsBefore local.old local.new }
{
    let first = stack.pop(domain, links, local);
    let first = read(domain, first, local);
    let second = stack.pop(domain, links, local);
    let second = read(domain, second, local);
    let third = stack.pop(domain, links, local);
    let third = read(domain, third, local);
    stack.end(domain, links, local);
    [first, second, third]
}

/// What comes out of a stack of 1 and 2, once all of it was taken out and 3 was pushed: by itself, and by the stack of what
/// was taken out.
fn moves<R: Abort>(
    rt: &R,
    scene: &Scene,
    local: &mut Local<u64>,
) -> ([Option<u64>; 2], [Option<u64>; 3])
    requires { Rests scene.now.domain.now local.old }
    ensures same { IsAsBefore local.old local.new }
{
    let _ = scene.push(local, 1);
    let _ = scene.push(local, 2);
    let Some(all) = scene.stack.pop_all(scene.domain, local) else {
        panic!(rt; "a cell is free");
    };
    let _ = scene.push(local, 3);
    let own = [scene.pop(local), scene.pop(local)];
    (own, last_two(scene.domain, all, scene.links, local))
}

#[test]
fn all_items_of_a_stack_are_taken_out_in_one_step(rt: HostRuntime) {
    let domain = place(&rt, rt.alloc(), 3, 12);
    let mut local = member(&rt, &domain);
    let made = Made::new(&rt, rt.alloc(), &domain, &mut local);
    let found = moves(&rt, &made.scene(&domain, Kind::Stack), &mut local);
    made.end(&domain, &mut local);
    local.end(&domain);
    end(&rt, domain);
    assert!(rt; found == ([Some(3), None], [Some(2), Some(1), None]));
}

/// Gives a cell back that there may be.
fn put_back(domain: &Domain<u64>, cell: Option<AtomicShared<u64>>, local: &mut Local<u64>)
    requires home { home_of local.old ≡ place_of domain.now }
    requires inside { IfSome cell (λ c. cell_number c < cell_count domain.now) }
    ensures same { IsAsBefore local.old local.new }
{
    if let Some(cell) = cell {
        cell.retire(domain, local);
    }
}

/// Whether two cells are free.
pub(crate) fn is_free(domain: &Domain<u64>, local: &mut Local<u64>) -> bool
    requires home { (home_of local.old ≡ place_of domain.now) × (hand_of local.old ≡ []) }
    ensures same { IsAsBefore local.old local.new }
{
    let first = AtomicShared::null(domain, local).ok();
    let second = AtomicShared::null(domain, local).ok();
    let both = first.is_some() && second.is_some();
    put_back(domain, first, local);
    put_back(domain, second, local);
    both
}

#[test]
fn links_want_a_cell_for_each_slot(rt: HostRuntime) {
    let domain = place(&rt, rt.alloc(), 3, 2);
    let mut local = member(&rt, &domain);
    let refused = match Links::new(rt.alloc(), &domain, &mut local) {
        Ok(links) => {
            links.end(&domain, &mut local);
            None
        }
        Err(refused) => Some(refused),
    };
    // those that were taken are free again
    let free = (is_free(&domain, &mut local), is_free(&domain, &mut local));
    local.end(&domain);
    end(&rt, domain);
    assert!(rt; refused == Some(NotMade::NoCell) && free == (true, true));
}
