//! Items that hold items, one by one or in groups.

ghost use Rattle.std.specs.Prelude.{◌<◌, length};
ghost use Rattle.sdd_table.specs.Place.{IsShared};
ghost use Rattle.sdd_world.specs.Tokens.{shared_slot};

use crate::nested::Step::{
    Clone, Collect, Directory, Drop, Give, Group, Pass, Raise, Read, Release, Segment, Shelf, Slots,
};
use crate::stage::{count, told};
use crate::steps::Found::{Done, Is, Yes};
use crate::steps::{A, B, Found, W};
use crate::worlds::{close, pass, push, share, world_of};
use sdd_world::{Held, Holds, Kept, PrivateCollector, Shared, World, world};
use std::alloc::{AllocError, Global};
use std::mem;
use std::process::Abort;

/// A directory of segments, a shelf, which holds groups, or a segment, which directories hold and groups name.
pub(crate) enum Item {
    Directory(Vec<Shared<Item>>),
    Shelf(Vec<sdd_world::Group>),
    Segment(u64),
}

impl Holds for Item {
    ghost use Rattle.std.specs.Prelude.{List, [], map, reverse};
    ghost use Rattle.sdd_world.specs.Groups.{name_of};
    ghost use Rattle.sdd_world.specs.Holding.{Hold, OwnerGroup, SharedItem};
    ghost use Rattle.sdd_world.specs.Tokens.{shared_slot};
    ghost use Rattle.base_tests.specs.declared.nested.Item.{Item, out-Item};
    ghost use Rattle.base_tests.specs.declared.nested.Item.TheOpen as open1;

    ghost holds = { λ i. elim (out-Item i) as (λ _. List Hold) [ open1.Directory segments ↦ reverse (map (λ s. SharedItem (shared_slot s)) segments.items) | open1.Shelf groups ↦ reverse (map (λ g. OwnerGroup (name_of g)) groups.items) | open1.Segment n ↦ [] ] };

    fn give_up(&mut self) -> Option<Held<Item>> {
        match self {
            Item::Directory(segments) => Some(Held::Shared(segments.pop()?)),
            Item::Shelf(groups) => Some(Held::Group(groups.pop()?)),
            Item::Segment(_) => None,
        }
    }

    fn end(self) {
        match self {
            Item::Directory(segments) => segments.destroy_empty(),
            Item::Shelf(groups) => groups.destroy_empty(),
            Item::Segment(_) => {}
        }
    }
}

/// What is done at a place for owners with items that may hold others.
#[derive(Clone, Copy)]
enum Step {
    /// A new segment.
    Segment(u64),
    /// A new directory of the item that is at the place, and a new shelf of the group that is there.
    Directory,
    Shelf,
    /// One more owner of the item, which is at this place.
    Clone(usize),
    /// The value of a segment.
    Read,
    /// Gives an owner back, drops it in place, or collects it under an accelerated guard: whether it was the last one.
    Release,
    Drop,
    Collect,
    /// A group of two new segments.
    Group(u64, u64),
    /// One more owner of the group, which is at this place.
    Raise(usize),
    /// Gives the owner of the group back.
    Give,
    /// Opens and closes this many accelerated guards, one by one: how many slots are in use then.
    Pass(usize),
    Slots,
}

type Row = (usize, Step, Found);

/// What is at a place: nothing, an owner of an item, or an owner of a group.
enum At {
    Nothing,
    Item(Shared<Item>),
    Group(sdd_world::Group),
}

/// A place of items with one participant, a collector, and two places for owners.
struct Nest<'r, R> {
    rt: &'r R,
    alloc: Global,
    w: World<Item>,
    collector: PrivateCollector<Item>,
    first: At,
    second: At,
}

impl<'r, R: Abort> Nest<'r, R> {
    /// A new place with four slots.
    fn new(rt: &'r R, alloc: Global) -> Self {
        let w = world_of(rt, alloc, [1, 4, 0, 0]);
        let Ok(collector) = world::private_collector::new(alloc, &w) else {
            panic!(rt; "memory is ample");
        };
        Nest {
            rt,
            alloc,
            w,
            collector,
            first: At::Nothing,
            second: At::Nothing,
        }
    }

    /// Puts something at a place, and answers what was there.
    fn exchange(&mut self, at: usize, new: At) -> At {
        let place = if at == A {
            &mut self.first
        } else {
            &mut self.second
        };
        mem::replace(place, new)
    }

    /// Puts something at a place where nothing is.
    fn put(&mut self, at: usize, new: At) -> Found {
        let rt = self.rt;
        match self.exchange(at, new) {
            At::Nothing => Done,
            _ => panic!(rt; "the place is taken"),
        }
    }

    /// Takes the owner at a place, whose item is there.
    fn owner(&mut self, at: usize) -> Shared<Item>
        ensures live { IsShared self.new.w (shared_slot result) }
        ensures participant { 0 < length self.new.w.participants }
    {
        let rt = self.rt;
        match self.exchange(at, At::Nothing) {
            At::Item(owner)
                if world::shared::is_here(&self.w, &owner) && self.w.participants() > 0 => owner,
            _ => panic!(rt; "an owner is there"),
        }
    }

    /// Takes the owner of the group at a place.
    fn group(&mut self, at: usize) -> sdd_world::Group {
        let rt = self.rt;
        match self.exchange(at, At::Nothing) {
            At::Group(group) => group,
            _ => panic!(rt; "a group is there"),
        }
    }

    fn step(&mut self, at: usize, step: Step) -> Found {
        let rt = self.rt;
        let item = match step {
            Segment(value) => Item::Segment(value),
            Directory => {
                let mut items = Vec::new(self.alloc);
                push(rt, &mut items, self.owner(at));
                Item::Directory(items)
            }
            Shelf => {
                let mut groups = Vec::new(self.alloc);
                push(rt, &mut groups, self.group(at));
                Item::Shelf(groups)
            }
            Group(_, _) | Raise(_) | Give => return self.with_group(at, step),
            Pass(times) => return count(pass(rt, &mut self.w, 0, times)),
            Slots => return count(self.w.slots_in_use()),
            _ => return self.with_owner(at, step),
        };
        let owner = share(rt, &mut self.w, item);
        self.put(at, At::Item(owner))
    }

    /// A group of two new segments.
    fn made(&mut self, one: u64, two: u64) -> sdd_world::Group {
        let rt = self.rt;
        let mut row = Vec::new(self.alloc);
        for value in [one, two] {
            push(
                rt,
                &mut row,
                Kept::of(share(rt, &mut self.w, Item::Segment(value))),
            );
        }
        match world::group::grow(&mut self.w) {
            Ok(()) => {}
            Err(AllocError) => panic!(rt; "memory is ample"),
        }
        match world::group::make(&mut self.w, row) {
            Ok(group) => group,
            Err(_) => panic!(rt; "a name is free"),
        }
    }

    /// A step with an owner of a group, or by which there is one.
    fn with_group(&mut self, at: usize, step: Step) -> Found {
        let rt = self.rt;
        let group = match step {
            Group(one, two) => self.made(one, two),
            _ => self.group(at),
        };
        let name = group.name();
        if !world::group::is_here(&self.w, name) || self.w.participants() == 0 {
            panic!(rt; "the group has an owner");
        }
        match step {
            Raise(to) => match world::group::raise(&mut self.w, name) {
                Some(other) => self.put(to, At::Group(other)),
                None => panic!(rt; "few owners are counted"),
            },
            Give => {
                world::group::release(&mut self.w, group, 0);
                return Done;
            }
            _ => Done,
        };
        self.put(at, At::Group(group))
    }

    /// A step with an owner.
    fn with_owner(&mut self, at: usize, step: Step) -> Found {
        let owner = self.owner(at);
        let (left, found) = match step {
            Clone(to) => match world::shared::clone(&mut self.w, &owner) {
                Some(more) => (Some(owner), self.put(to, At::Item(more))),
                None => (Some(owner), Found::No),
            },
            Read => {
                let found = match world::shared::as_ref(&self.w, &owner) {
                    Item::Segment(value) => Is(*value),
                    _ => Found::Nothing,
                };
                (Some(owner), found)
            }
            Drop => match world::shared::drop_in_place(&mut self.w, owner) {
                Ok(last) => (None, told(last)),
                Err(owner) => (Some(owner), Found::Guarded),
            },
            Collect => (None, self.collect(owner)),
            _ => (None, told(world::shared::release(&mut self.w, owner, 0))),
        };
        if let Some(owner) = left {
            self.put(at, At::Item(owner));
        }
        found
    }

    fn collect(&mut self, owner: Shared<Item>) -> Found
        requires live { IsShared self.old.w (shared_slot owner) }
        requires participant { 0 < length self.old.w.participants }
    {
        let rt = self.rt;
        let w = &mut self.w;
        let Ok(guard) = world::guard::new(w, 0) else {
            panic!(rt; "few guards are open");
        };
        if !world::shared::is_here(w, &owner) || !world::guard::is_open(w, &guard) {
            panic!(rt; "the item is there, and the guard is open");
        }
        let collector = &mut self.collector;
        let last = world::private_collector::collect_shared(w, collector, owner, &guard);
        world::guard::accelerate(w, &guard);
        world::guard::close(w, guard);
        told(last)
    }

    /// Ends the place, in which nothing is out, and of which nothing is left.
    fn end(self) {
        let Nest {
            rt,
            alloc: _,
            mut w,
            collector,
            first,
            second,
        } = self;
        match (first, second) {
            (At::Nothing, At::Nothing) if w.participants() > 0 => {
                world::private_collector::hand_over(&mut w, collector, 0);
            }
            _ => panic!(rt; "nothing is left"),
        }
        close(rt, w);
    }
}

/// Plays rows in a new place: how many are right before the first that isn't.
fn right<R: Abort>(rt: &R, alloc: Global, rows: &[Row]) -> usize {
    let mut nest = Nest::new(rt, alloc);
    let mut right = 0usize;
    for (number, (at, step, wanted)) in rows.iter().enumerate() {
        if nest.step(*at, *step) == *wanted && right == number {
            right = right.saturating_add(1);
        }
    }
    nest.end();
    right
}

const TABLES: &[&[Row]] = &[
    // An item is reclaimed before what it held.
    &[
        (A, Segment(7), Done),
        (A, Directory, Done),
        (A, Release, Yes),
        (W, Pass(1), Is(2)),
        (W, Pass(1), Is(2)),
        (W, Pass(1), Is(2)),
        (W, Pass(1), Is(1)),
        (W, Pass(1), Is(1)),
        (W, Pass(1), Is(1)),
        (W, Pass(1), Is(0)),
    ],
    // What only a dropped item held is dropped with it.
    &[
        (A, Segment(7), Done),
        (A, Directory, Done),
        (A, Directory, Done),
        (W, Slots, Is(3)),
        (A, Drop, Yes),
        (W, Slots, Is(0)),
    ],
    // What has another owner stays.
    &[
        (A, Segment(7), Done),
        (A, Clone(B), Done),
        (A, Directory, Done),
        (A, Drop, Yes),
        (B, Read, Is(7)),
        (W, Slots, Is(1)),
        (B, Drop, Yes),
    ],
    // A collect reclaims what is overdue first. The directory has the other owner of its segment. It is overdue when the segment
    // is collected, and reclaimed first, so the owner that is collected then is the last one.
    &[
        (A, Segment(7), Done),
        (A, Clone(B), Done),
        (A, Directory, Done),
        (A, Collect, Yes),
        (W, Pass(2), Is(2)),
        (B, Collect, Yes),
        (W, Slots, Is(1)),
    ],
    // What a row names is given back with the last owner of its group, and not before.
    &[
        (A, Group(7, 8), Done),
        (W, Slots, Is(2)),
        (A, Raise(B), Done),
        (A, Give, Done),
        (W, Pass(8), Is(2)),
        (B, Give, Done),
        (W, Pass(2), Is(2)),
        (W, Pass(1), Is(0)),
    ],
    // Shelves share a group. The last one that is reclaimed gives its segments up at once.
    &[
        (A, Group(7, 8), Done),
        (A, Raise(B), Done),
        (A, Shelf, Done),
        (B, Shelf, Done),
        (W, Slots, Is(4)),
        (A, Release, Yes),
        (W, Pass(8), Is(3)),
        (B, Release, Yes),
        (W, Pass(2), Is(3)),
        (W, Pass(1), Is(2)),
        (W, Pass(2), Is(2)),
        (W, Pass(1), Is(0)),
    ],
    // An owner in hand is given back first.
    &[
        (A, Group(7, 8), Done),
        (A, Raise(B), Done),
        (A, Shelf, Done),
        (B, Give, Done),
        (W, Pass(8), Is(3)),
        (A, Release, Yes),
        (W, Pass(3), Is(2)),
        (W, Pass(3), Is(0)),
    ],
];

#[test]
fn what_an_item_holds_is_reclaimed_behind_it(rt: HostRuntime) {
    for rows in TABLES {
        assert_eq!(rt;
            right(&rt, rt.alloc(), rows),
            rows.len(),
            "rows before one that isn't right"
        );
    }
}
