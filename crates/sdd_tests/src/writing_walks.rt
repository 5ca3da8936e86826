//! Values of bags that are written where they are.

ghost use Rattle.std.specs.Prelude.{◌<◌, length};
ghost use Rattle.world_containers.specs.Bags.{IsSomeBag, bag_cells};

use crate::bags::Call::{self, TryPush};
use crate::bags::{THREE, play, pop, six_pops};
use crate::filled::bag_of;
use crate::places::{close, end, guarded, new_bag, place_of};
use crate::replies::Reply::{self, Done};
use sdd_world::refusal::GuardsOpen;
use sdd_world::world::World;
use std::process::Abort;
use world_containers::bag::Bag;
use world_containers::linked_entry::LinkedEntry;
use world_containers::world;
use world_containers::world::iter_mut::BagPlace;

/// Adds to each value of a bag, up to a hundred, keeps those that were there, and answers how many there were.
fn raise<R: Abort, const N: usize>(
    rt: &R,
    w: &mut World<LinkedEntry<u64>>,
    bag: &Bag<u64, N>,
    more: u64,
    seen: &mut Vec<u64>,
) -> usize
    requires participant { 0 < length w.old.participants }
    requires list { IsSomeBag N w.old (bag_cells bag.now) }
    ensures participant { 0 < length w.new.participants }
    ensures list { IsSomeBag N w.new (bag_cells bag.now) }
{
    let mut walk = match w.iter_mut(bag) {
        Ok(walk) => walk,
        Err(_) => panic!(rt; "no guard is open"),
    };
    for passed in 0..100 {
        match walk.next() {
            None => return passed,
            Some(value) => {
                seen.push(*value).expect(rt, "memory");
                *value = value.wrapping_add(more);
            }
        }
    }
    100
}

#[test]
fn each_value_is_written(rt: HostRuntime) {
    let mut w = place_of(&rt, rt.alloc(), 3, 5);
    let bag = new_bag::<_, 1>(&rt, rt.alloc(), &mut w);
    let pushed = play(&mut w, &bag, THREE);
    let mut seen = Vec::new(rt.alloc());
    let raised = raise(&rt, &mut w, &bag, 10, &mut seen);
    let len = world::bag::len(&w, &bag);
    let [first, second, third, none, _, _] = six_pops(&mut w, &bag);
    world::bag::retire(&mut w, bag, 0);
    end(&rt, w);
    seen.sort_unstable();
    assert!(rt; [pushed, raised, len] == [3; 3] && seen.as_slice() == [1, 2, 3].as_slice());
    assert!(rt; are_both(first, second, 12, 13) && (third, none) == (Some(11), None));
}

/// Whether two values are these, in either order.
fn are_both(first: Option<u64>, second: Option<u64>, one: u64, other: u64) -> bool {
    (first, second) == (Some(one), Some(other)) || (first, second) == (Some(other), Some(one))
}

/// The value that a walk gives next, which is another one then.
fn exchange<const N: usize>(
    w: &mut World<LinkedEntry<u64>>,
    bag: &Bag<u64, N>,
    other: u64,
) -> Option<u64>
    requires participant { 0 < length w.old.participants }
    requires list { IsSomeBag N w.old (bag_cells bag.now) }
    ensures participant { 0 < length w.new.participants }
    ensures list { IsSomeBag N w.new (bag_cells bag.now) }
{
    let mut walk = match w.iter_mut(bag) {
        Ok(walk) => walk,
        Err(_) => return None,
    };
    match walk.next() {
        None => None,
        Some(value) => {
            let old = *value;
            *value = other;
            Some(old)
        }
    }
}

#[test]
fn a_value_is_read_and_written_through_a_walk(rt: HostRuntime) {
    let mut w = place_of(&rt, rt.alloc(), 2, 4);
    let bag = new_bag::<_, 1>(&rt, rt.alloc(), &mut w);
    let pushed = world::bag::push(&mut w, &bag, 1);
    let one = exchange(&mut w, &bag, 5);
    let five = exchange(&mut w, &bag, 6);
    let six = pop(&mut w, &bag);
    world::bag::retire(&mut w, bag, 0);
    end(&rt, w);
    assert!(rt; pushed.is_ok() && [one, five, six] == [Some(1), Some(5), Some(6)]);
}

#[test]
fn an_empty_bag_lends_nothing(rt: HostRuntime) {
    let mut w = place_of(&rt, rt.alloc(), 1, 4);
    let bag = new_bag::<_, 3>(&rt, rt.alloc(), &mut w);
    let mut seen = Vec::new(rt.alloc());
    let raised = raise(&rt, &mut w, &bag, 1, &mut seen);
    let none = exchange(&mut w, &bag, 5);
    world::bag::retire(&mut w, bag, 0);
    end(&rt, w);
    assert!(rt; raised == 0 && seen.is_empty() && none == None);
}

#[test]
fn a_full_primary_and_its_overflow_are_lent(rt: HostRuntime) {
    let mut w = place_of(&rt, rt.alloc(), 40, 73);
    let bag = bag_of::<_, 32>(&rt, rt.alloc(), &mut w, 0..40);
    let mut before = Vec::new(rt.alloc());
    let first = raise(&rt, &mut w, &bag, 1000, &mut before);
    let mut after = Vec::new(rt.alloc());
    let second = raise(&rt, &mut w, &bag, 0, &mut after);
    let len = world::bag::len(&w, &bag);
    world::bag::retire(&mut w, bag, 0);
    end(&rt, w);
    before.sort_unstable();
    after.sort_unstable();
    assert!(rt; [first, second, len] == [40, 40, 40]);
    assert!(rt; are_forty(before.as_slice(), 0) && are_forty(after.as_slice(), 1000));
}

/// Whether values are the forty from one on, in their order.
fn are_forty(values: &[u64], first: u64) -> bool {
    let mut as_said = values.len() == 40;
    for at in 0..40u64 {
        as_said = values.get(at as usize).copied() == Some(first.wrapping_add(at)) && as_said;
    }
    as_said
}

const TWO: &[(Call, Reply)] = &[(TryPush(3), Done), (TryPush(4), Done)];

#[test]
fn a_bag_without_overflow_is_lent(rt: HostRuntime) {
    let mut w = place_of(&rt, rt.alloc(), 2, 35);
    let bag = new_bag::<_, 32>(&rt, rt.alloc(), &mut w);
    let pushed = play(&mut w, &bag, TWO);
    let mut seen = Vec::new(rt.alloc());
    let raised = raise(&rt, &mut w, &bag, 5, &mut seen);
    let [first, second, none, _, _, _] = six_pops(&mut w, &bag);
    world::bag::retire(&mut w, bag, 0);
    end(&rt, w);
    assert!(rt; [pushed, raised] == [2; 2] && are_both(first, second, 8, 9) && none == None);
}

/// Whether a walk is refused.
fn is_refused<const N: usize>(w: &mut World<LinkedEntry<u64>>, bag: &Bag<u64, N>) -> bool
    requires participant { 0 < length w.old.participants }
    requires list { IsSomeBag N w.old (bag_cells bag.now) }
    ensures participant { 0 < length w.new.participants }
    ensures list { IsSomeBag N w.new (bag_cells bag.now) }
{
    let _walk = match w.iter_mut(bag) {
        Ok(walk) => walk,
        Err(GuardsOpen) => return true,
    };
    false
}

#[test]
fn nothing_is_lent_under_a_guard(rt: HostRuntime) {
    let mut w = place_of(&rt, rt.alloc(), 1, 3);
    let guard = guarded(&rt, &mut w);
    let bag = new_bag::<_, 1>(&rt, rt.alloc(), &mut w);
    let pushed = world::bag::push(&mut w, &bag, 7);
    let refused = is_refused(&mut w, &bag);
    let len = world::bag::len(&w, &bag);
    let seven = pop(&mut w, &bag);
    world::bag::retire(&mut w, bag, 0);
    close(&rt, &mut w, guard);
    end(&rt, w);
    assert!(rt; pushed.is_ok() && refused && (len, seven) == (1, Some(7)));
}
