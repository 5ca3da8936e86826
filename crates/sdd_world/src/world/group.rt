//! Groups of owners: rows of owners outside the slots, each row with a count of its own.
//!
//! An item that keeps an owner of a group keeps an owner of each item that the row names, by one count. The slots of these
//! items count one owner for the row, however often the group is owned.

ghost use Rattle.std.specs.Prelude.{◌≡◌, ◌↔◌, ◌<◌, ◌≤◌, ◌+◌, ◌-◌, ◌++◌, ◌∷◌, [], ℕ, length, map, vec_capacity, IfErr, IfNone, IfOk, IfSome, IsFalse, IsTrue, OnErr, OnOk, None};
ghost use Rattle.sdd_table.specs.Frame.{Frame, OnlyParticipant, SameNesting};
ghost use Rattle.sdd_table.specs.Groups.{IsFreeName, IsOut, NoNameFree, count_at, free_names, group_named, more_owned, name_of, no_group, row_at, with_row};
ghost use Rattle.sdd_table.specs.Place.{AddsOwners, TakeOwners, row_between};
ghost use Rattle.sdd_table.specs.State.{with_groups};
ghost use Rattle.sdd_table.specs.Steps.{group_given};
ghost use Rattle.sdd_world.specs.Tokens.{kept_slot};

use crate::job::Deferred;
use crate::owner::Kept;
use crate::world::World;
use sdd_table::groups::{Group, GroupName};
use sdd_table::reclaim;
use std::alloc::AllocError;

/// One more free name for a group. All memory of a later `make` but that of the row is taken here.
pub fn grow<T, J: Deferred>(w: &mut World<T, J>) -> Result<(), AllocError>
    ensures grown { OnOk result (w.new ≡ with_groups (w.old.groups ++ no_group ∷ []) w.old) }
    ensures kept { OnErr result (w.new ≡ w.old) }
    ensures keeps { Frame w.old w.new }
{
    w.table.grow_groups()
}

/// Makes a group of these owners, with one owner of its own, if and only if a name is free; else hands the row back.
pub fn make<T, J: Deferred>(w: &mut World<T, J>, row: Vec<Kept>) -> Result<Group, Vec<Kept>>
    ensures free { IfOk result (λ group. IsFreeName w.old.groups (name_of group)) }
    ensures made { IfOk result (λ group. w.new ≡ with_groups (with_row (name_of group) (map kept_slot row.items) w.old.groups) w.old) }
    ensures refused { IfErr result (λ back. (back ≡ row) × (w.new ≡ w.old) × NoNameFree w.old.groups) }
    ensures keeps { Frame w.old w.new }
{
    w.table.make_group(row)
}

/// One more owner of the group of this name, and so of each item that its row names: one count is written, whatever the length
/// of the row. None where it has `2^32 - 1` owners.
pub fn raise<T, J: Deferred>(w: &mut World<T, J>, name: GroupName) -> Option<Group>
    requires { IsOut w.old.groups (group_named name) }
    ensures raised { IfSome result (λ other. (name_of other ≡ group_named name) × (w.new ≡ with_groups (more_owned (group_named name) w.old.groups) w.old)) }
    ensures refused { IfNone result ((w.new ≡ w.old) × (count_at w.old.groups (group_named name) ≡ 4294967295)) }
    ensures full { count_at w.old.groups (group_named name) ≡ 4294967295 → result ≡ None }
    ensures keeps { Frame w.old w.new }
{
    w.table.raise_group(name)
}

/// Gives an owner of a group back. The last one ends the group: one owner of each item that its row names is given back, from
/// the end of the row, and the last owner of an item retires it, for participant `p`.
pub fn release<T, J: Deferred>(w: &mut World<T, J>, group: Group, p: usize)
    requires { p < length w.old.participants }
    ensures released { w.new ≡ group_given p (name_of group) w.old }
    ensures nests { SameNesting w.old w.new }
    ensures keeps { Frame w.old w.new }
    ensures only { OnlyParticipant p w.old w.new }
{
    reclaim::give_group(&mut w.table, p, group);
}

/// The owners that the row of a group keeps, in order; none where nobody owns it.
pub fn row<'w, T, J: Deferred>(w: &'w World<T, J>, group: &Group) -> &'w [Kept]
    ensures { map kept_slot result.now ≡ row_at w.now.groups (name_of group.now) }
{
    w.table.group_row(group)
}

/// One more owner of each item that the row of a group names, from one place of it up to another, for another row to keep.
/// Condition: the row has these places, and each item there has owners, fewer than `2^32 - 1`, and is there once.
pub fn keep_row<T, J: Deferred>(
    w: &mut World<T, J>,
    name: GroupName,
    from: usize,
    upto: usize,
    into: &mut Vec<Kept>,
)
    requires ordered { from ≤ upto }
    requires within { upto ≤ length (row_at w.old.groups (group_named name)) }
    requires takes { TakeOwners (row_between w.old (group_named name) from upto) w.old }
    requires room { length into.old.items + (upto - from) ≤ vec_capacity into.old }
    ensures owners { map kept_slot into.new.items ≡ map kept_slot into.old.items ++ row_between w.old (group_named name) from upto }
    ensures raised { AddsOwners (row_between w.old (group_named name) from upto) w.old w.new }
    ensures long { length into.new.items ≡ length into.old.items + (upto - from) }
    ensures room { vec_capacity into.old ≤ vec_capacity into.new }
    ensures keeps { Frame w.old w.new }
{
    w.table.keep_group_row(name, from, upto, into);
}

/// Whether the group of this name has an owner: it has, where one of its owners in this place gave the name.
pub fn is_here<T, J: Deferred>(w: &World<T, J>, name: GroupName) -> bool
    ensures { IsTrue result ↔ IsOut w.now.groups (group_named name) }
{
    w.table.is_group_out(name)
}

/// How many names for groups are free: so many groups can be made before another `grow`.
pub fn free_count<T, J: Deferred>(w: &World<T, J>) -> usize
    ensures { result ≡ free_names w.now.groups }
{
    w.table.free_group_count()
}

/// Whether no name of a group is free.
pub fn has_none_free<T, J: Deferred>(w: &World<T, J>) -> bool
    ensures full { IsTrue result → NoNameFree w.now.groups }
    ensures free { IsFalse result → (g : ℕ) × IsFreeName w.now.groups g }
{
    w.table.has_no_group()
}
