//! Stacks and queues: calls as data, so that a test of many calls is a table.

ghost use Rattle.std.specs.Prelude.{◌<◌, length};
ghost use Rattle.sdd_tests.specs.Lines.{IsSomeLine};

use crate::each_call::{Kind, count, first, new_line, pop, push, push_where, refused, retire};
use crate::lines::Line;
use crate::lists::Call::{
    First, Front, IsClear, IsDeleted, IsEmpty, IsMarked, Len, Make, Pop, Push, PushFirst, PushMore,
    RefusedPop, Second, SecondOwned, Three,
};
use crate::places::{close, end, guarded, place_of};
use crate::replies::Reply::{Back, Count, Done, Full, Is, Listed, Value};
use crate::replies::{Reply, told, value_of};
use crate::stacks::Change::{self, Delete, Mark, Unmark};
use crate::stacks::{change_first, is_tagged, second, second_owned};
use crate::walks::three_of;
use sdd_world::guard::WorldGuard;
use sdd_world::refusal::NoSlot;
use sdd_world::world::World;
use std::alloc::Global;
use std::process::Abort;
use world_containers::linked_entry::LinkedEntry;
use world_containers::refusal::PushRefused;
use world_containers::world;

/// A call of a stack or of a queue.
#[derive(Clone, Copy)]
pub(crate) enum Call {
    Push(u64),
    /// A push where there is no entry yet, and one where there is one.
    PushFirst(u64),
    PushMore(u64),
    Pop,
    RefusedPop,
    /// A change of the first undeleted entry of a stack.
    Make(Change),
    /// Whether the first undeleted entry of a stack is so.
    IsClear,
    IsMarked,
    IsDeleted,
    /// The first undeleted entry, by a function and by a pointer, and the second.
    Front,
    First,
    Second,
    SecondOwned,
    Three,
    Len,
    IsEmpty,
}

/// Calls of a new stack or queue in a new place of so many slots and cells, and what each of them returns.
struct Table {
    about: &'static str,
    sizes: (usize, usize),
    rows: &'static [(Call, Reply)],
}

/// What is answered of a push on a condition.
fn told_if(pushed: Result<(), PushRefused<u64>>) -> Reply {
    match pushed {
        Ok(()) => Done,
        Err(PushRefused::Condition(value)) => Back(value),
        Err(PushRefused::NoSlot(value)) => Full(value),
    }
}

/// Makes a call.
fn make(w: &mut World<LinkedEntry<u64>>, line: &Line<u64>, guard: &WorldGuard, call: Call) -> Reply
    requires participant { 0 < length w.old.participants }
    requires list { IsSomeLine w.old line.now }
    ensures participant { 0 < length w.new.participants }
    ensures list { IsSomeLine w.new line.now }
{
    match (call, line) {
        (Push(value), _) => told(push(w, line, value)),
        (PushFirst(value), _) => told_if(push_where(w, line, value, false)),
        (PushMore(value), _) => told_if(push_where(w, line, value, true)),
        (Pop, _) => Value(pop(w, line)),
        (RefusedPop, _) => Value(refused(w, line)),
        (Make(change), Line::Stack(stack)) => Is(change_first(w, stack, guard, change)),
        (SecondOwned, Line::Stack(stack)) => Value(second_owned(w, stack, guard)),
        (read, _) => look(w, line, guard, read),
    }
}

/// Makes a call that only reads.
fn look(w: &World<LinkedEntry<u64>>, line: &Line<u64>, guard: &WorldGuard, call: Call) -> Reply
    requires { IsSomeLine w.now line.now }
{
    match (call, line) {
        (IsClear | IsMarked | IsDeleted, Line::Stack(stack)) => {
            Is(is_tagged(w, stack, guard, call))
        }
        (Front, Line::Stack(stack)) => Value(world::stack::peek_with(w, stack, value_of)),
        (Front, Line::Queue(queue)) => Value(world::queue::peek_with(w, queue, value_of)),
        (First, _) => Value(first(w, line, guard)),
        (Second, Line::Stack(stack)) => Value(second(w, stack, guard)),
        (Three, _) => {
            let (first, second, third) = three_of(w, line);
            Listed(first, second, third)
        }
        (IsEmpty, _) => Is(count(w, line).1),
        _ => Count(count(w, line).0),
    }
}

const STACKS: &[Table] = &[
    Table {
        about: "a stack gives the newest first",
        sizes: (3, 4),
        rows: &[
            (IsEmpty, Is(true)),
            (Push(1), Done),
            (Push(2), Done),
            (Push(3), Done),
            (Push(4), Back(4)),
            (Len, Count(3)),
            (Pop, Value(Some(3))),
            (Pop, Value(Some(2))),
            (IsEmpty, Is(false)),
        ],
    },
    Table {
        about: "deleted entries are passed over",
        sizes: (4, 8),
        rows: &[
            (Make(Delete), Is(false)),
            (Push(1), Done),
            (Push(2), Done),
            (Push(3), Done),
            (Make(Delete), Is(true)),
            (Make(Delete), Is(true)),
            (Len, Count(1)),
            (Push(4), Done),
            (Pop, Value(Some(4))),
            (Pop, Value(Some(1))),
            (Pop, Value(None)),
        ],
    },
    Table {
        about: "an entry has one tag at a time",
        sizes: (1, 2),
        rows: &[
            (Push(1), Done),
            (IsClear, Is(true)),
            (Make(Unmark), Is(false)),
            (Make(Mark), Is(true)),
            (Make(Mark), Is(false)),
            (IsMarked, Is(true)),
            (IsClear, Is(false)),
            (Make(Unmark), Is(true)),
            (IsClear, Is(true)),
            (IsMarked, Is(false)),
            (IsDeleted, Is(false)),
            (Make(Mark), Is(true)),
            (Len, Count(1)),
            (Make(Delete), Is(true)),
            (IsEmpty, Is(true)),
        ],
    },
    Table {
        about: "functions see the first undeleted entry",
        sizes: (3, 4),
        rows: &[
            (Front, Value(None)),
            (Push(5), Done),
            (Front, Value(Some(5))),
            (Push(6), Done),
            (Front, Value(Some(6))),
            (Make(Delete), Is(true)),
            (Front, Value(Some(5))),
        ],
    },
    Table {
        about: "a value is pushed on a condition",
        sizes: (2, 3),
        rows: &[
            (PushFirst(5), Done),
            (PushFirst(6), Back(6)),
            (Len, Count(1)),
            (Pop, Value(Some(5))),
            (PushFirst(7), Done),
        ],
    },
    Table {
        about: "no value is pushed on a condition without a slot",
        sizes: (0, 2),
        rows: &[(PushFirst(8), Full(8)), (IsEmpty, Is(true))],
    },
    Table {
        about: "no value is pushed on a condition without a cell",
        sizes: (1, 1),
        rows: &[(PushFirst(8), Full(8)), (IsEmpty, Is(true))],
    },
    Table {
        about: "a refused pop takes nothing and its owner comes back",
        sizes: (3, 4),
        rows: &[
            (RefusedPop, Value(None)),
            (Push(1), Done),
            (Push(2), Done),
            (RefusedPop, Value(Some(2))),
            (RefusedPop, Value(Some(2))),
            (Len, Count(2)),
            (Front, Value(Some(2))),
            (Pop, Value(Some(2))),
            (RefusedPop, Value(Some(1))),
            (Pop, Value(Some(1))),
        ],
    },
    Table {
        about: "the next entry is one that is not deleted",
        sizes: (4, 5),
        rows: &[
            (Second, Value(None)),
            (Push(1), Done),
            (Second, Value(None)),
            (Push(2), Done),
            (Second, Value(Some(1))),
            (Make(Delete), Is(true)),
            (Push(3), Done),
            (Second, Value(Some(1))),
        ],
    },
    Table {
        about: "an owner of the next entry comes back",
        sizes: (4, 5),
        rows: &[
            (SecondOwned, Value(None)),
            (Push(1), Done),
            (SecondOwned, Value(None)),
            (Push(2), Done),
            (SecondOwned, Value(Some(1))),
            (Make(Delete), Is(true)),
            (Push(3), Done),
            (SecondOwned, Value(Some(1))),
            (SecondOwned, Value(Some(1))),
            (Pop, Value(Some(3))),
            (Pop, Value(Some(1))),
        ],
    },
    Table {
        about: "a walk along a stack gives the newest first",
        sizes: (3, 4),
        rows: &[
            (Three, Listed(None, None, None)),
            (Push(1), Done),
            (Push(2), Done),
            (Three, Listed(Some(2), Some(1), None)),
            (Push(3), Done),
            (Three, Listed(Some(3), Some(2), Some(1))),
        ],
    },
    Table {
        about: "a walk passes deleted entries",
        sizes: (3, 4),
        rows: &[
            (Push(1), Done),
            (Push(2), Done),
            (Make(Delete), Is(true)),
            (Push(3), Done),
            (Three, Listed(Some(3), Some(1), None)),
        ],
    },
];

const QUEUES: &[Table] = &[
    Table {
        about: "a queue gives the oldest first",
        sizes: (3, 5),
        rows: &[
            (Pop, Value(None)),
            (Push(1), Done),
            (Push(2), Done),
            (Push(3), Done),
            (Pop, Value(Some(1))),
            (Pop, Value(Some(2))),
            (Pop, Value(Some(3))),
            (Pop, Value(None)),
        ],
    },
    Table {
        about: "a queue without room hands the value back",
        sizes: (2, 4),
        rows: &[
            (IsEmpty, Is(true)),
            (Push(1), Done),
            (Push(2), Done),
            (Push(3), Back(3)),
            (Len, Count(2)),
            (IsEmpty, Is(false)),
        ],
    },
    Table {
        about: "a queue is peeked at its oldest",
        sizes: (2, 4),
        rows: &[
            (Front, Value(None)),
            (Push(8), Done),
            (Push(9), Done),
            (Front, Value(Some(8))),
            (First, Value(Some(8))),
        ],
    },
    Table {
        about: "a refused pop of a queue gives an owner that comes back",
        sizes: (3, 5),
        rows: &[
            (RefusedPop, Value(None)),
            (Push(1), Done),
            (RefusedPop, Value(Some(1))),
            (Push(2), Done),
            (RefusedPop, Value(Some(1))),
            (Pop, Value(Some(1))),
            (RefusedPop, Value(Some(2))),
            (RefusedPop, Value(Some(2))),
            (Push(3), Done),
            (Pop, Value(Some(2))),
            (Pop, Value(Some(3))),
        ],
    },
    Table {
        about: "a walk along a queue gives the oldest first",
        sizes: (3, 5),
        rows: &[
            (PushMore(7), Back(7)),
            (Push(1), Done),
            (PushMore(2), Done),
            (Three, Listed(Some(1), Some(2), None)),
            (PushMore(3), Done),
            (PushMore(4), Full(4)),
            (Three, Listed(Some(1), Some(2), Some(3))),
        ],
    },
];

/// Makes the calls of each table on a new stack or queue, under a guard, and ends both.
#[test]
fn calls_of_stacks_and_queues_return_what_they_should(rt: HostRuntime) {
    for table in STACKS {
        on_a_line(&rt, rt.alloc(), Kind::Stack, table);
    }
    for table in QUEUES {
        on_a_line(&rt, rt.alloc(), Kind::Queue, table);
    }
}

fn on_a_line<R: Abort>(rt: &R, alloc: Global, kind: Kind, table: &Table) {
    let (slots, cells) = table.sizes;
    let mut w = place_of(rt, alloc, slots, cells);
    let guard = guarded(rt, &mut w);
    let line = new_line(rt, &mut w, kind);
    let mut right = true;
    for (call, wanted) in table.rows {
        right = make(&mut w, &line, &guard, *call) == *wanted && right;
    }
    retire(&mut w, line);
    close(rt, &mut w, guard);
    end(rt, w);
    let about = table.about;
    assert!(rt; right, "{about}");
}

#[test]
fn a_queue_takes_two_cells(rt: HostRuntime) {
    let mut w: World<LinkedEntry<u64>> = place_of(&rt, rt.alloc(), 1, 1);
    match world::queue::new(&mut w) {
        Err(NoSlot) => {}
        _ => panic!(rt; "one cell is free"),
    }
    let line = new_line(&rt, &mut w, Kind::Stack);
    let pushed = push(&mut w, &line, 1);
    retire(&mut w, line);
    end(&rt, w);
    assert!(rt; pushed == Err(1));
}
