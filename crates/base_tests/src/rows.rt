//! One more owner of each of a stretch of the items whose owners an item keeps in a row.

ghost use Rattle.std.specs.Prelude.{◌≡◌, ◌≢◌, IsTrue, Some, length, map};
ghost use Rattle.sdd_table.specs.Place.{IsShared, TakeOwners, TakesOwner, kept_at};
ghost use Rattle.sdd_world.specs.Tokens.{kept_slot, shared_slot};

use crate::worlds::{close, pass, push, share, world_of};
use sdd_table::tokens;
use sdd_world::status::{Status, is_last};
use sdd_world::{Held, Holds, KeepsRow, Kept, NoJob, Shared, World, world};
use std::alloc::Global;
use std::process::Abort;

/// An item with a number, which keeps owners of others.
struct Node {
    number: u64,
    row: Vec<Kept>,
}

impl Holds for Node {
    ghost use Rattle.std.specs.Prelude.{map, reverse};
    ghost use Rattle.sdd_world.specs.Holding.{SharedItem};
    ghost use Rattle.sdd_world.specs.Tokens.{kept_slot};

    ghost holds = { λ n. reverse (map (λ k. SharedItem (kept_slot k)) n.row.items) };

    fn give_up(&mut self) -> Option<Held<Node>> {
        Some(Held::Shared(self.row.pop()?.into_shared()))
    }

    fn end(self) {
        let Node { number: _, row } = self;
        row.destroy_empty();
    }
}

impl KeepsRow for Node {
    ghost use Rattle.std.specs.Prelude.{map};
    ghost use Rattle.sdd_world.specs.Tokens.{kept_slot};

    ghost kept = { λ n. map kept_slot n.row.items };

    fn row(&self) -> &[Kept] {
        &self.row
    }
}

/// The numbers of the three items in a row, so that a sum of them tells how often each is in it.
const NUMBERS: [u64; 3] = [1, 10, 100];

/// From one place of a row up to another: what the new owners name, from the last one on, in groups of three digits, and the
/// number of each item once for each of its owners outside the row.
type Row = (usize, usize, u64, u64);

const ROWS: &[Row] = &[
    (0, 0, 0, 111),
    (2, 2, 0, 111),
    (3, 3, 0, 111),
    (0, 1, 1, 112),
    (1, 2, 10, 121),
    (2, 3, 100, 211),
    (0, 2, 10_001, 122),
    (1, 3, 100_010, 221),
    (0, 3, 100_010_001, 222),
];

/// One more owner of an item, for another to keep.
fn more<R: Abort>(rt: &R, w: &mut World<Node, NoJob>, owner: &Shared<Node>) -> Kept {
    if !world::shared::is_here(w, owner) {
        panic!(rt; "the item is there");
    }
    match world::shared::clone(w, owner) {
        Some(more) => Kept::of(more),
        None => panic!(rt; "it has few owners"),
    }
}

/// The slot of the item of an owner.
fn slot(kept: &Kept) -> usize
    ensures { result ≡ kept_slot kept.now }
{
    match tokens::slot_of_loaded(&kept.loaded::<Node>()) {
        Some(slot) => slot,
        None => unreachable!(),
    }
}

/// Whether one more owner of an item can be counted.
fn takes_owner(w: &World<Node, NoJob>, kept: &Kept) -> bool
    ensures { IsTrue result → TakesOwner (kept_slot kept.now) w.now }
{
    match w.table().status_of(slot(kept)) {
        Status::Shared(owners) => !is_last(owners),
        _ => false,
    }
}

/// Whether an item keeps owners of three others, of each of which one more can be counted.
fn takes_owners(w: &World<Node, NoJob>, node: &Shared<Node>) -> bool
    requires { IsShared w.now (shared_slot node.now) }
    ensures long { IsTrue result → length (kept_at (λ n. map kept_slot n.row.items) w.now (Some (shared_slot node.now))) ≡ 3 }
    ensures takes { IsTrue result → TakeOwners (kept_at (λ n. map kept_slot n.row.items) w.now (Some (shared_slot node.now))) w.now }
{
    let row = &world::shared::as_ref(w, node).row;
    if row.len() != 3 {
        return false;
    }
    let (first, second, third) = (&row[0], &row[1], &row[2]);
    if !takes_owner(w, first) || !takes_owner(w, second) || !takes_owner(w, third) {
        return false;
    }
    let (first, second, third) = (slot(first), slot(second), slot(third));
    if first == second || first == third || second == third {
        return false;
    }
    true
}

/// One more owner of each item from one place of the row of an item up to another.
fn kept<R: Abort>(
    rt: &R,
    alloc: Global,
    w: &mut World<Node, NoJob>,
    node: &Shared<Node>,
    from: usize,
    upto: usize,
) -> Vec<Kept> {
    let mut into = match Vec::with_capacity(alloc, 3) {
        Ok(into) => into,
        Err(_) => panic!(rt; "memory is ample"),
    };
    if from > upto || upto > 3 || !world::shared::is_here(w, node) || !takes_owners(w, node) {
        panic!(rt; "the row has these places");
    }
    world::shared::keep_row(w, &world::shared::owned_at(node), from, upto, &mut into);
    into
}

/// Gives an owner back: the number of its item, and whether it was the last one.
fn given<R: Abort>(rt: &R, w: &mut World<Node, NoJob>, owner: Shared<Node>) -> (u64, bool) {
    if w.participants() == 0 || !world::shared::is_here(w, &owner) {
        panic!(rt; "the item is there");
    }
    let number = world::shared::as_ref(w, &owner).number;
    (number, world::shared::release(w, owner, 0))
}

/// Makes three items: their owners, and an owner of each for another item to keep.
fn items<R: Abort>(rt: &R, alloc: Global, w: &mut World<Node, NoJob>) -> [Vec<Kept>; 2] {
    let mut owners = Vec::new(alloc);
    let mut row = Vec::new(alloc);
    for number in NUMBERS {
        let item = Node {
            number,
            row: Vec::new(alloc),
        };
        let owner = share(rt, w, item);
        push(rt, &mut row, more(rt, w, &owner));
        push(rt, &mut owners, Kept::of(owner));
    }
    [owners, row]
}

/// Gives owners back, from the end on, of which each is the last or none: what they name, in groups of three digits, and the
/// sum of it.
fn given_back<R: Abort>(
    rt: &R,
    w: &mut World<Node, NoJob>,
    mut owners: Vec<Kept>,
    are_last: bool,
) -> (u64, u64) {
    let mut named = 0u64;
    let mut sum = 0u64;
    while let Some(kept) = owners.pop() {
        let (number, is_last) = given(rt, w, kept.into_shared());
        assert!(rt; is_last == are_last);
        named = named.saturating_mul(1000).saturating_add(number);
        sum = sum.saturating_add(number);
    }
    owners.destroy_empty();
    (named, sum)
}

/// Keeps a stretch of the row of an item, which then goes. What the new owners name, and how many owners there are of each item,
/// by giving them back until it goes.
fn played<R: Abort>(rt: &R, alloc: Global, from: usize, upto: usize) -> (u64, u64) {
    let mut w: World<Node, NoJob> = world_of(rt, alloc, [1, 4, 0, 0]);
    let [owners, row] = items(rt, alloc, &mut w);
    let node = share(rt, &mut w, Node { number: 0, row });
    let new = kept(rt, alloc, &mut w, &node, from, upto);
    let (_, gone) = given(rt, &mut w, node);
    pass(rt, &mut w, 0, 8);
    let (named, more) = given_back(rt, &mut w, new, false);
    let (_, sum) = given_back(rt, &mut w, owners, true);
    assert!(rt; gone && pass(rt, &mut w, 0, 8) == 0);
    close(rt, w);
    (named, sum.saturating_add(more))
}

#[test]
fn each_item_of_a_stretch_has_one_owner_more(rt: HostRuntime) {
    for (from, upto, named, counts) in ROWS {
        assert_eq!(rt; played(&rt, rt.alloc(), *from, *upto), (*named, *counts));
    }
}
