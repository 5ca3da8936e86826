//! Bags: calls as data, so that a test of many calls is a table, and bags beside the multisets that they are.

ghost use Rattle.std.specs.Prelude.{◌<◌, length};
ghost use Rattle.world_containers.specs.Bags.{IsLength, IsSomeBag, bag_cells, into_cells};

use crate::bags::Call::{IsEmpty, Len, Pop, Push, TryPush};
use crate::filled::{Lack, bag_of, some_bag};
use crate::places::{end, give, new_bag, place_of};
use crate::random_calls::next;
use crate::replies::Reply::{Back, Count, Done, Is, Value};
use crate::replies::{Reply, told};
use sdd_world::owner::Shared;
use sdd_world::world as place;
use sdd_world::world::World;
use std::alloc::Global;
use std::process::Abort;
use world_containers::bag::{Bag, IntoIter};
use world_containers::linked_entry::LinkedEntry;
use world_containers::refusal::NotMade;
use world_containers::world;

/// The value of the entry that a pop gives, which is given back.
pub(crate) fn pop<const N: usize>(w: &mut World<LinkedEntry<u64>>, bag: &Bag<u64, N>) -> Option<u64>
    requires participant { 0 < length w.old.participants }
    requires list { IsSomeBag N w.old (bag_cells bag.now) }
    ensures participant { 0 < length w.new.participants }
    ensures list { IsSomeBag N w.new (bag_cells bag.now) }
{
    match world::bag::pop(w, bag, 0) {
        None => None,
        Some(entry) => {
            let value = *place::shared::as_ref(w, &entry).as_ref();
            place::shared::release(w, entry, 0);
            Some(value)
        }
    }
}

/// The values that six pops give, one after the other.
pub(crate) fn six_pops<const N: usize>(
    w: &mut World<LinkedEntry<u64>>,
    bag: &Bag<u64, N>,
) -> [Option<u64>; 6]
    requires participant { 0 < length w.old.participants }
    requires list { IsSomeBag N w.old (bag_cells bag.now) }
    ensures participant { 0 < length w.new.participants }
    ensures list { IsSomeBag N w.new (bag_cells bag.now) }
{
    [
        pop(w, bag),
        pop(w, bag),
        pop(w, bag),
        pop(w, bag),
        pop(w, bag),
        pop(w, bag),
    ]
}

/// A call of a bag.
#[derive(Clone, Copy)]
pub(crate) enum Call {
    Push(u64),
    TryPush(u64),
    Pop,
    Len,
    IsEmpty,
}

/// Makes a call.
fn make<const N: usize>(w: &mut World<LinkedEntry<u64>>, bag: &Bag<u64, N>, call: Call) -> Reply
    requires participant { 0 < length w.old.participants }
    requires list { IsSomeBag N w.old (bag_cells bag.now) }
    ensures participant { 0 < length w.new.participants }
    ensures list { IsSomeBag N w.new (bag_cells bag.now) }
{
    match call {
        Push(value) => told(world::bag::push(w, bag, value)),
        TryPush(value) => told(world::bag::try_push(w, bag, value)),
        Pop => Value(pop(w, bag)),
        Len => Count(world::bag::len(w, bag)),
        IsEmpty => Is(world::bag::is_empty(w, bag)),
    }
}

/// Makes the calls of a table, in order: how many return what they should before the first that doesn't.
pub(crate) fn play<const N: usize>(
    w: &mut World<LinkedEntry<u64>>,
    bag: &Bag<u64, N>,
    rows: &[(Call, Reply)],
) -> usize
    requires participant { 0 < length w.old.participants }
    requires list { IsSomeBag N w.old (bag_cells bag.now) }
    ensures participant { 0 < length w.new.participants }
    ensures list { IsSomeBag N w.new (bag_cells bag.now) }
{
    let mut right = 0usize;
    for at in 0..rows.len() {
        let (call, wanted) = rows[at];
        if make(w, bag, call) == wanted && right == at {
            right = right.saturating_add(1);
        }
    }
    right
}

/// Takes all entries of a bag, ends it, and gives their owners back; returns how many there were.
fn fold<R: Abort, const N: usize>(
    rt: &R,
    alloc: Global,
    w: &mut World<LinkedEntry<u64>>,
    bag: Bag<u64, N>,
) -> usize
    requires participant { 0 < length w.old.participants }
    requires list { IsSomeBag N w.old (bag_cells bag) }
{
    let none: Vec<Shared<LinkedEntry<u64>>> = Vec::new(alloc);
    let keep = |mut kept: Vec<Shared<LinkedEntry<u64>>>, owner: Shared<LinkedEntry<u64>>| {
        match kept.push(owner) {
            Ok(()) => kept,
            Err(_) => panic!(rt; "memory"),
        }
    };
    let kept = world::bag::pop_all(w, &bag, 0, none, keep);
    assert!(rt; world::bag::is_empty(w, &bag));
    world::bag::retire(w, bag, 0);
    give_all(rt, w, kept)
}

/// Gives owners back, and returns how many there were.
fn give_all<R: Abort>(
    rt: &R,
    w: &mut World<LinkedEntry<u64>>,
    mut owners: Vec<Shared<LinkedEntry<u64>>>,
) -> usize {
    let count = owners.len();
    while let Some(owner) = owners.pop() {
        if w.participants() == 0 {
            panic!(rt; "it has a participant");
        }
        give(rt, w, owner);
    }
    owners.destroy_empty();
    count
}

/// Makes the calls of a table on a new bag, folds its entries and ends it; returns how many entries were folded.
fn on_a_bag<R: Abort, const N: usize>(
    rt: &R,
    alloc: Global,
    sizes: (usize, usize),
    rows: &[(Call, Reply)],
) -> usize
    requires { IsLength N }
{
    let (slots, cells) = sizes;
    let mut w = place_of(rt, alloc, slots, cells);
    let bag = new_bag::<_, N>(rt, alloc, &mut w);
    let right = play(&mut w, &bag, rows);
    let folded = fold(rt, alloc, &mut w, bag);
    end(rt, w);
    assert!(rt; right == rows.len());
    folded
}

const OVERFLOWING: &[(Call, Reply)] = &[
    (IsEmpty, Is(true)),
    (TryPush(1), Done),
    (TryPush(2), Back(2)),
    (Push(2), Done),
    (Len, Count(2)),
    (IsEmpty, Is(false)),
    (Pop, Value(Some(2))),
    (Pop, Value(Some(1))),
    (Pop, Value(None)),
];

const WITHOUT_CELLS: &[(Call, Reply)] = &[(Push(7), Back(7)), (Len, Count(0))];

const WITHOUT_SLOTS: &[(Call, Reply)] = &[
    (Push(1), Done),
    (TryPush(2), Done),
    (Push(3), Back(3)),
    (TryPush(4), Back(4)),
    (Len, Count(2)),
];

pub(crate) const THREE: &[(Call, Reply)] = &[(Push(1), Done), (Push(2), Done), (Push(3), Done)];

#[test]
fn bags_overflow_and_are_folded(rt: HostRuntime) {
    let folded = [
        on_a_bag::<_, 1>(&rt, rt.alloc(), (2, 4), OVERFLOWING),
        on_a_bag::<_, 2>(&rt, rt.alloc(), (1, 3), WITHOUT_CELLS),
        on_a_bag::<_, 32>(&rt, rt.alloc(), (2, 40), WITHOUT_SLOTS),
        on_a_bag::<_, 1>(&rt, rt.alloc(), (1, 3), &[]),
        on_a_bag::<_, 2>(&rt, rt.alloc(), (3, 6), THREE),
    ];
    assert_eq!(rt; folded, [0, 0, 2, 0, 3]);
}

#[test]
fn a_bag_takes_a_cell_more_than_its_length(rt: HostRuntime) {
    let mut w: World<LinkedEntry<u64>> = place_of(&rt, rt.alloc(), 1, 3);
    match world::bag::new::<u64, _, 3>(rt.alloc(), &mut w) {
        Err(NotMade::NoSlot) => {}
        _ => panic!(rt; "three cells are free"),
    }
    end(&rt, w);
}

/// The value of the next entry of a bag that is taken apart, which is given back.
fn take_apart<const N: usize>(
    w: &mut World<LinkedEntry<u64>>,
    iter: &IntoIter<u64, N>,
) -> Option<u64>
    requires participant { 0 < length w.old.participants }
    requires list { IsSomeBag N w.old (into_cells iter.now) }
    ensures participant { 0 < length w.new.participants }
    ensures list { IsSomeBag N w.new (into_cells iter.now) }
{
    match world::into_iter::next(w, iter, 0) {
        None => None,
        Some(entry) => {
            let value = *place::shared::as_ref(w, &entry).as_ref();
            place::shared::release(w, entry, 0);
            Some(value)
        }
    }
}

#[test]
fn a_bag_is_taken_apart(rt: HostRuntime) {
    let mut w = place_of(&rt, rt.alloc(), 3, 5);
    let bag = new_bag::<_, 1>(&rt, rt.alloc(), &mut w);
    let one = world::bag::push(&mut w, &bag, 1);
    let two = world::bag::push(&mut w, &bag, 2);
    let iter = world::bag::into_iter(&w, bag);
    let first = take_apart(&mut w, &iter);
    let second = take_apart(&mut w, &iter);
    let third = take_apart(&mut w, &iter);
    world::into_iter::retire(&mut w, iter, 0);
    end(&rt, w);
    assert!(rt; one.is_ok() && two.is_ok());
    assert!(rt; [first, second, third] == [Some(2), Some(1), None]);
}

/// Takes a number out of a list, and answers whether it was there.
fn remove(list: &mut Vec<u64>, value: u64) -> bool {
    for at in 0..list.len() {
        if list[at] == value {
            list.remove(at);
            return true;
        }
    }
    false
}

/// What a bag of three should have: the values of the primary and of the overflow, and how many slots are free.
#[derive(Drop)]
struct Plain {
    primary: Vec<u64>,
    overflow: Vec<u64>,
    room: u64,
}

impl Plain {
    /// Puts a value into the primary, and else, where that may be, into the overflow; or it is returned.
    fn push(&mut self, value: u64, may_overflow: bool) -> Result<(), u64> {
        let full = self.primary.len() >= 3;
        if self.room == 0 || full && !may_overflow {
            return Err(value);
        }
        self.room = self.room.saturating_sub(1);
        let part = if full {
            &mut self.overflow
        } else {
            &mut self.primary
        };
        let _kept = part.push(value);
        Ok(())
    }

    /// Takes out what a pop gave, which is of the overflow where that has any: whether it was there.
    fn pop(&mut self, popped: Option<u64>) -> bool {
        let last = self.overflow.is_empty();
        let part = if last {
            &mut self.primary
        } else {
            &mut self.overflow
        };
        match popped {
            None => last && part.is_empty(),
            Some(value) => remove(part, value),
        }
    }

    fn len(&self) -> usize {
        self.primary.len().saturating_add(self.overflow.len())
    }
}

/// One call of a bag of three, as `seed` says, and the same of two multisets: whether both answer alike.
fn bag_call(
    w: &mut World<LinkedEntry<u64>>,
    bag: &Bag<u64, 3>,
    plain: &mut Plain,
    seed: u64,
) -> bool
    requires participant { 0 < length w.old.participants }
    requires list { IsSomeBag 3 w.old (bag_cells bag.now) }
    ensures participant { 0 < length w.new.participants }
    ensures list { IsSomeBag 3 w.new (bag_cells bag.now) }
{
    let alike = match seed >> 60 {
        0..=3 => world::bag::try_push(w, bag, seed) == plain.push(seed, false),
        4..=8 => world::bag::push(w, bag, seed) == plain.push(seed, true),
        _ => plain.pop(pop(w, bag)),
    };
    let found = (world::bag::len(w, bag), world::bag::is_empty(w, bag));
    alike && found == (plain.len(), plain.len() == 0)
}

#[test]
fn a_bag_is_two_multisets(rt: HostRuntime) {
    let mut w = place_of(&rt, rt.alloc(), 300, 304);
    let mut plain = Plain {
        primary: Vec::new(rt.alloc()),
        overflow: Vec::new(rt.alloc()),
        room: 300,
    };
    let mut seed = 3;
    let mut right = true;
    let bag = new_bag::<_, 3>(&rt, rt.alloc(), &mut w);
    for _step in 0..900 {
        seed = next(seed);
        right = bag_call(&mut w, &bag, &mut plain, seed) && right;
    }
    world::bag::retire(&mut w, bag, 0);
    end(&rt, w);
    assert!(rt; right && plain.room == 0);
}

#[test]
fn values_become_a_bag(rt: HostRuntime) {
    let mut w = place_of(&rt, rt.alloc(), 5, 9);
    let bag = bag_of::<_, 2>(&rt, rt.alloc(), &mut w, 1..6);
    let len = world::bag::len(&w, &bag);
    let popped = six_pops(&mut w, &bag);
    world::bag::retire(&mut w, bag, 0);
    end(&rt, w);
    let [one, other, third, first, second, none] = popped;
    assert!(rt; len == 5 && one.is_some() && other.is_some() && third.is_some());
    assert!(rt; [first, second, none] == [Some(1), Some(2), None]);
}

#[test]
fn a_bag_without_room_hands_back_what_was_built(rt: HostRuntime) {
    let mut w = place_of(&rt, rt.alloc(), 3, 9);
    let bag = match some_bag::<2>(rt.alloc(), &mut w, 1..6) {
        (Some(bag), Some(Lack::Of(4))) => bag,
        _ => panic!(rt; "three cells are free, and no slot for the fourth"),
    };
    let len = world::bag::len(&w, &bag);
    let last = pop(&mut w, &bag);
    world::bag::retire(&mut w, bag, 0);
    end(&rt, w);
    assert!(rt; (len, last) == (3, Some(3)));
}
