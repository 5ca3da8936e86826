//! What follows from the clauses of the calls, for every state and every order of calls. Nothing here runs.

ghost use Rattle.sdd_world.specs.Counting.{HeldCellsStay, OwnersAreCounted};
ghost use Rattle.sdd_table.specs.Frame.{OwnedIsProtected, StaysUntilClosed};
ghost use Rattle.sdd_world.specs.Notes.{CollectorsAreInOrder};
ghost use Rattle.sdd_world.specs.Passing.{GivesOnly, PassesReclaim};

use crate::holds::Holds;

/// Owners are counted: what is in hand, in items and in cells adds up to each item's owners, over every call. So an
/// owner always names an item that is there, and an item with an owner isn't reclaimed.
pub fn owners_are_counted<T: Holds>()
    ensures { OwnersAreCounted T.holds }
{}

/// What a cell keeps whose owner is in hand, or in an item that has an owner, stays while a guard opens, though that
/// reclaims items, whose owners and cells are released.
pub fn held_cells_stay<T: Holds>()
    ensures { HeldCellsStay T.holds }
{}

/// What a guard protects: every item that has an owner while it is open; and what it protects stays as it was until
/// it closes, whatever calls are made in between.
pub fn guards_protect<T>()
    ensures owned { OwnedIsProtected T }
    ensures stays { StaysUntilClosed T }
{}

/// What accelerated guards reclaim, opened and closed one by one by a participant where no other guard is open: each
/// raises the count, and four of them reclaim all that waited in its bags; what waits then was held by that. So four
/// for each level of items that hold items empty the bags.
pub fn passes_reclaim<T: Holds>()
    ensures { PassesReclaim T.holds }
{}

/// What opens and closes guards, and gives owners back, only takes away; and a participant for which nothing waits takes
/// nothing away, nor raises the count.
pub fn gives_only<T: Holds>()
    ensures { GivesOnly T.holds }
{}

/// Collectors are in order, over every call: each item that waits in one is named by one of them once, and the counts
/// that were noted rise along it. So a collector with room for all places always has room, and after a `collect` nothing
/// in it is overdue.
pub fn collectors_are_in_order<T: Holds>()
    ensures { CollectorsAreInOrder T.holds }
{}
