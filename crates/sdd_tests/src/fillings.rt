//! Containers of the values of an iterator, a hundred thousand among them, and clones of containers.

ghost use Rattle.std.specs.Prelude.{◌≡◌, ◌<◌, length, IfSome};
ghost use Rattle.world_containers.specs.Copies.{ClonesAreSame};
ghost use Rattle.sdd_tests.specs.Lines.{IsSomeLine};

use crate::each_call::{Kind, count, pop, push, retire};
use crate::entries;
use crate::filled::{Lack, bag_of, line_of, some_bag, some_line};
use crate::lines::Line;
use crate::places::{close, end, guarded, place_of};
use crate::stacks::Change::Delete;
use crate::stacks::change_first;
use crate::walks::{Three, three_of};
use sdd_world::world::World;
use std::alloc::{AllocError, Global};
use std::process::Abort;
use world_containers::linked_entry::LinkedEntry;
use world_containers::refusal::{CloneRefused, NotMade};
use world_containers::world;

/// A number that can't be cloned where it is 3.
#[derive(Drop)]
struct Rare {
    number: u64,
}

impl Clone for Rare {
    ghost use Rattle.std.specs.Prelude.{◌≡◌};

    ghost is_clone = { λ x y. y ≡ x };

    fn clone(&self) -> Result<Rare, AllocError> {
        if self.number == 3 {
            return Err(AllocError);
        }
        Ok(Rare {
            number: self.number,
        })
    }
}

/// A clone of a stack or a queue, which ends, as far as it was made, and why no further.
pub(crate) fn copied<T: Clone>(
    w: &mut World<LinkedEntry<T>>,
    line: Line<T>,
) -> (Option<Line<T>>, Option<NotMade>)
    requires clones { ClonesAreSame T.is_clone }
    requires participant { 0 < length w.old.participants }
    requires list { IsSomeLine w.old line }
    ensures participant { 0 < length w.new.participants }
    ensures list { IfSome result.0 (IsSomeLine w.new) }
{
    match line {
        Line::Stack(stack) => {
            let cloned = world::stack::clone(w, &stack);
            world::stack::retire(w, stack, 0);
            match cloned {
                Ok(copy) => (Some(Line::Stack(copy)), None),
                Err(CloneRefused::Partly(copy, why)) => (Some(Line::Stack(copy)), Some(why)),
                Err(CloneRefused::Unmade(why)) => (None, Some(why)),
            }
        }
        Line::Queue(queue) => {
            let cloned = world::queue::clone(w, &queue);
            world::queue::retire(w, queue, 0);
            match cloned {
                Ok(copy) => (Some(Line::Queue(copy)), None),
                Err(CloneRefused::Partly(copy, why)) => (Some(Line::Queue(copy)), Some(why)),
                Err(CloneRefused::Unmade(why)) => (None, Some(why)),
            }
        }
    }
}

/// A stack of the numbers below `n` gives the last one first, and a queue gives them back in their order.
fn round<R: Abort>(rt: &R, w: &mut World<LinkedEntry<u64>>, kind: Kind, n: u64)
    requires { 0 < length w.old.participants }
    ensures { 0 < length w.new.participants }
{
    let line = line_of(rt, w, kind, 0..n);
    for number in 0..n {
        let wanted = match kind {
            Kind::Stack => n - 1 - number,
            Kind::Queue => number,
        };
        assert!(rt; pop(w, &line) == Some(wanted));
    }
    assert!(rt; pop(w, &line).is_none());
    retire(w, line);
}

/// Values that become a stack or a queue: three of them, and how many there are with one more; then rounds of others.
fn filled<R: Abort>(rt: &R, alloc: Global, kind: Kind) -> (Three, usize) {
    let mut w = place_of(rt, alloc, 400, 402);
    let line = line_of(rt, &mut w, kind, 1..4);
    let three = three_of(&w, &line);
    assert!(rt; push(&mut w, &line, 4).is_ok());
    let (len, _) = count(&w, &line);
    retire(&mut w, line);
    round(rt, &mut w, kind, 0);
    round(rt, &mut w, kind, 1);
    round(rt, &mut w, kind, 17);
    round(rt, &mut w, kind, 100);
    end(rt, w);
    (three, len)
}

#[test]
fn values_become_a_stack_or_a_queue(rt: HostRuntime) {
    let stacked = filled(&rt, rt.alloc(), Kind::Stack);
    let queued = filled(&rt, rt.alloc(), Kind::Queue);
    assert!(rt; stacked == ((Some(3), Some(2), Some(1)), 4));
    assert!(rt; queued == ((Some(1), Some(2), Some(3)), 4));
}

/// What was built of four values, where the third finds no slot or no cell.
fn built<R: Abort>(rt: &R, alloc: Global, kind: Kind, sizes: (usize, usize)) -> Three {
    let mut w = place_of(rt, alloc, sizes.0, sizes.1);
    let line = match some_line(&mut w, kind, 1..5) {
        (Some(line), Some(Lack::Of(3))) => line,
        _ => panic!(rt; "there is room for two values"),
    };
    let three = three_of(&w, &line);
    retire(&mut w, line);
    end(rt, w);
    three
}

#[test]
fn values_without_room_hand_back_what_was_built(rt: HostRuntime) {
    let queued = built(&rt, rt.alloc(), Kind::Queue, (2, 5));
    let stacked = built(&rt, rt.alloc(), Kind::Stack, (5, 3));
    assert!(rt; queued == (Some(1), Some(2), None) && stacked == (Some(2), Some(1), None));
}

/// Why nothing was made, and how many values are returned.
fn unmade<R: Abort, C>(rt: &R, made: Option<C>, lack: Option<Lack>) -> (NotMade, usize) {
    match (made, lack) {
        (None, Some(Lack::Unmade(refused, count))) => (refused, count),
        _ => panic!(rt; "there is too little room"),
    }
}

#[test]
fn values_come_back_where_nothing_is_made(rt: HostRuntime) {
    let mut w = place_of(&rt, rt.alloc(), 2, 1);
    let (made, lack) = some_line(&mut w, Kind::Queue, 1..5);
    let queue = unmade(&rt, made, lack);
    let (made, lack) = some_bag::<1>(rt.alloc(), &mut w, 1..5);
    let bag = unmade(&rt, made, lack);
    end(&rt, w);
    let mut w = place_of(&rt, rt.alloc(), 2, 0);
    let (made, lack) = some_line(&mut w, Kind::Stack, 1..5);
    let stack = unmade(&rt, made, lack);
    end(&rt, w);
    let wanted = (NotMade::NoSlot, 4);
    assert!(rt; queue == wanted && bag == wanted && stack == wanted);
}

#[test]
fn a_clone_of_a_stack_outlasts_it(rt: HostRuntime) {
    let mut w = place_of(&rt, rt.alloc(), 8, 10);
    let guard = guarded(&rt, &mut w);
    let line = line_of(&rt, &mut w, Kind::Stack, 1..4);
    let Line::Stack(stack) = line else {
        panic!(rt; "it is a stack");
    };
    let deleted = change_first(&mut w, &stack, &guard, Delete);
    let line = Line::Stack(stack);
    let pushed = push(&mut w, &line, 4);
    let copy = match copied(&mut w, line) {
        (Some(copy), None) => copy,
        _ => panic!(rt; "there is room"),
    };
    let (three, len) = (three_of(&w, &copy), count(&w, &copy).0);
    retire(&mut w, copy);
    close(&rt, &mut w, guard);
    end(&rt, w);
    assert!(rt; deleted && pushed.is_ok() && len == 3 && three == (Some(4), Some(2), Some(1)));
}

/// What was built of a clone of three values, where one finds no slot or no cell.
fn copied_in_part<R: Abort>(rt: &R, alloc: Global, kind: Kind, sizes: (usize, usize)) -> Three {
    let mut w = place_of(rt, alloc, sizes.0, sizes.1);
    let line = line_of(rt, &mut w, kind, 1..4);
    let copy = match copied(&mut w, line) {
        (Some(copy), Some(NotMade::NoSlot)) => copy,
        _ => panic!(rt; "there is room for one value"),
    };
    let three = three_of(&w, &copy);
    retire(&mut w, copy);
    end(rt, w);
    three
}

#[test]
fn a_clone_without_room_hands_back_what_was_built(rt: HostRuntime) {
    let queued = copied_in_part(&rt, rt.alloc(), Kind::Queue, (5, 10));
    let stacked = copied_in_part(&rt, rt.alloc(), Kind::Stack, (8, 6));
    assert!(rt; queued == (Some(1), Some(2), None) && stacked == (Some(3), None, None));
}

#[test]
fn a_refused_clone_of_a_value_ends_a_clone(rt: HostRuntime) {
    let mut w: World<LinkedEntry<Rare>> = place_of(&rt, rt.alloc(), 9, 13);
    let values = [Rare { number: 1 }, Rare { number: 2 }, Rare { number: 3 }];
    let line = match world::queue::from_iter(&mut w, values) {
        Ok(queue) => Line::Queue(queue),
        _ => panic!(rt; "there is room"),
    };
    let copy = match copied(&mut w, line) {
        (Some(Line::Queue(copy)), Some(NotMade::Memory)) => copy,
        _ => panic!(rt; "the third one isn't cloned"),
    };
    let len = world::queue::len(&w, &copy);
    world::queue::retire(&mut w, copy, 0);
    let Ok(entry) = world::linked_entry::new(&mut w, Rare { number: 3 }) else {
        panic!(rt; "a cell is free");
    };
    let refused = match world::linked_entry::clone(&mut w, &entry) {
        Err(refused) => refused,
        _ => panic!(rt; "the third one isn't cloned"),
    };
    entries::retire(&rt, &mut w, entry);
    end(&rt, w);
    assert!(rt; len == 2 && refused == NotMade::Memory);
}

const MANY: u64 = 100_000;

/// A stack or a queue of many values: how many it has.
fn many_in<R: Abort>(rt: &R, w: &mut World<LinkedEntry<u64>>, kind: Kind) -> usize
    requires { 0 < length w.old.participants }
    ensures { 0 < length w.new.participants }
{
    let line = line_of(rt, w, kind, 0..MANY);
    let (len, _) = count(w, &line);
    retire(w, line);
    len
}

#[test]
fn a_stack_of_a_hundred_thousand_values(rt: HostRuntime) {
    let mut w = place_of(&rt, rt.alloc(), 100_000, 100_002);
    let len = many_in(&rt, &mut w, Kind::Stack);
    let full = match some_line(&mut w, Kind::Stack, 0..MANY) {
        (Some(full), Some(Lack::Of(0))) => full,
        _ => panic!(rt; "a cell is free, and all slots wait"),
    };
    retire(&mut w, full);
    end(&rt, w);
    assert!(rt; len == 100_000);
}

#[test]
fn a_queue_of_a_hundred_thousand_values(rt: HostRuntime) {
    let mut w = place_of(&rt, rt.alloc(), 100_000, 100_002);
    let len = many_in(&rt, &mut w, Kind::Queue);
    end(&rt, w);
    assert!(rt; len == 100_000);
}

#[test]
fn a_bag_of_a_hundred_thousand_values(rt: HostRuntime) {
    let mut w = place_of(&rt, rt.alloc(), 100_000, 100_033);
    let bag = bag_of::<_, 32>(&rt, rt.alloc(), &mut w, 0..MANY);
    let len = world::bag::len(&w, &bag);
    let seven = world::bag::try_push(&mut w, &bag, 7);
    let eight = world::bag::push(&mut w, &bag, 8);
    world::bag::retire(&mut w, bag, 0);
    end(&rt, w);
    assert!(rt; len == 100_000 && seven == Err(7) && eight == Err(8));
}
