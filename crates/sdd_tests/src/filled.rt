//! Containers of the numbers of a range. Each call that makes some is here once, since each place where it is costs time.

ghost use Rattle.std.specs.Prelude.{◌<◌, length, IfSome};
ghost use Rattle.world_containers.specs.Bags.{IsLength, IsSomeBag, bag_cells};
ghost use Rattle.sdd_tests.specs.Lines.{IsSomeLine};

use crate::each_call::Kind;
use crate::lines::Line;
use sdd_world::world::World;
use std::alloc::Global;
use std::ops::Range;
use std::process::Abort;
use world_containers::bag::Bag;
use world_containers::linked_entry::LinkedEntry;
use world_containers::refusal::{FromIterRefused, NotMade};
use world_containers::world;

/// Why a container hasn't all numbers of a range.
#[derive(Clone, Copy)]
pub(crate) enum Lack {
    /// No slot or no cell is free for this one.
    Of(u64),
    /// Nothing was made, and this many numbers were returned.
    Unmade(NotMade, usize),
}

/// A stack or a queue of the numbers of a range, as far as it was made.
pub(crate) fn some_line(
    w: &mut World<LinkedEntry<u64>>,
    kind: Kind,
    numbers: Range<u64>,
) -> (Option<Line<u64>>, Option<Lack>)
    requires { 0 < length w.old.participants }
    ensures participant { 0 < length w.new.participants }
    ensures list { IfSome result.0 (IsSomeLine w.new) }
{
    match kind {
        Kind::Stack => match world::stack::from_iter(w, numbers) {
            Ok(stack) => (Some(Line::Stack(stack)), None),
            Err(FromIterRefused::NoSlot(stack, number)) => {
                (Some(Line::Stack(stack)), Some(Lack::Of(number)))
            }
            Err(FromIterRefused::Unmade(why, back)) => {
                (None, Some(Lack::Unmade(why, back.count())))
            }
        },
        Kind::Queue => match world::queue::from_iter(w, numbers) {
            Ok(queue) => (Some(Line::Queue(queue)), None),
            Err(FromIterRefused::NoSlot(queue, number)) => {
                (Some(Line::Queue(queue)), Some(Lack::Of(number)))
            }
            Err(FromIterRefused::Unmade(why, back)) => {
                (None, Some(Lack::Unmade(why, back.count())))
            }
        },
    }
}

/// One of all of them.
pub(crate) fn line_of<R: Abort>(
    rt: &R,
    w: &mut World<LinkedEntry<u64>>,
    kind: Kind,
    numbers: Range<u64>,
) -> Line<u64>
    requires { 0 < length w.old.participants }
    ensures participant { 0 < length w.new.participants }
    ensures list { IsSomeLine w.new result }
{
    match some_line(w, kind, numbers) {
        (Some(line), None) => line,
        _ => panic!(rt; "there is room"),
    }
}

/// The same of a bag.
pub(crate) fn some_bag<const N: usize>(
    alloc: Global,
    w: &mut World<LinkedEntry<u64>>,
    numbers: Range<u64>,
) -> (Option<Bag<u64, N>>, Option<Lack>)
    requires participant { 0 < length w.old.participants }
    requires length { IsLength N }
    ensures participant { 0 < length w.new.participants }
    ensures list { IfSome result.0 (λ b. IsSomeBag N w.new (bag_cells b)) }
{
    match world::bag::from_iter::<u64, _, N, _>(alloc, w, numbers) {
        Ok(bag) => (Some(bag), None),
        Err(FromIterRefused::NoSlot(bag, number)) => (Some(bag), Some(Lack::Of(number))),
        Err(FromIterRefused::Unmade(why, back)) => (None, Some(Lack::Unmade(why, back.count()))),
    }
}

pub(crate) fn bag_of<R: Abort, const N: usize>(
    rt: &R,
    alloc: Global,
    w: &mut World<LinkedEntry<u64>>,
    numbers: Range<u64>,
) -> Bag<u64, N>
    requires participant { 0 < length w.old.participants }
    requires length { IsLength N }
    ensures participant { 0 < length w.new.participants }
    ensures list { IsSomeBag N w.new (bag_cells result) }
{
    match some_bag::<N>(alloc, w, numbers) {
        (Some(bag), None) => bag,
        _ => panic!(rt; "there is room"),
    }
}
