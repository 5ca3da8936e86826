//! Groups of owners in a table.

ghost use Rattle.std.specs.Prelude.{◌≡◌, ◌↔◌, ◌+◌, ◌-◌, ◌≤◌, ◌++◌, ◌∷◌, [], ℕ, length, map, vec_capacity, None, IfErr, IfNone, IfOk, IfSome, IsFalse, IsTrue, OnErr, OnOk};
ghost use Rattle.sdd_table.specs.Groups.{IsFreeName, IsOut, NoNameFree, count_at, free_names, group_named, less_owned, more_owned, name_of, no_group, row_at, row_ended, with_row};
ghost use Rattle.sdd_table.specs.Place.{AddsOwners, TakeOwners, row_between};
ghost use Rattle.sdd_table.specs.State.{with_groups};
ghost use Rattle.sdd_table.specs.Tokens.{kept_slot};

use crate::groups::{Group, GroupName};
use crate::job::Deferred;
use crate::keeping;
use crate::owner::Kept;
use crate::table::Table;
use std::alloc::AllocError;

impl<T, J: Deferred> Table<T, J> {
    /// One more free name for a group. All memory of a later `make_group` but that of the row is taken here.
    pub fn grow_groups(&mut self) -> Result<(), AllocError>
        ensures grown { OnOk result (self.new ≡ with_groups (self.old.groups ++ no_group ∷ []) self.old) }
        ensures kept { OnErr result (self.new ≡ self.old) }
    {
        self.groups.grow()
    }

    /// A group of these owners, with one owner of its own, where a name is free.
    pub fn make_group(&mut self, row: Vec<Kept>) -> Result<Group, Vec<Kept>>
        ensures free { IfOk result (λ group. IsFreeName self.old.groups (name_of group)) }
        ensures made { IfOk result (λ group. self.new ≡ with_groups (with_row (name_of group) (map kept_slot row.items) self.old.groups) self.old) }
        ensures refused { IfErr result (λ back. (back ≡ row) × (self.new ≡ self.old) × NoNameFree self.old.groups) }
    {
        self.groups.make(row)
    }

    /// One more owner of a group: one count is written, whatever the length of the row. None where it has `2^32 - 1` owners.
    pub fn raise_group(&mut self, name: GroupName) -> Option<Group>
        requires { IsOut self.old.groups (group_named name) }
        ensures raised { IfSome result (λ other. (name_of other ≡ group_named name) × (self.new ≡ with_groups (more_owned (group_named name) self.old.groups) self.old)) }
        ensures refused { IfNone result ((self.new ≡ self.old) × (count_at self.old.groups (group_named name) ≡ 4294967295)) }
        ensures full { count_at self.old.groups (group_named name) ≡ 4294967295 → result ≡ None }
    {
        self.groups.raise(name)
    }

    /// An owner of a group is given back. Where it was the last, its row is handed over, and its name is free.
    pub(crate) fn lower_group(&mut self, group: Group) -> Option<Vec<Kept>>
        ensures groups { self.new ≡ with_groups (less_owned (name_of group) self.old.groups) self.old }
        ensures none { IfNone result (row_ended (name_of group) self.old.groups ≡ []) }
        ensures row { IfSome result (λ row. map kept_slot row.items ≡ row_ended (name_of group) self.old.groups) }
    {
        self.groups.give_up(group)
    }

    /// The row of a group; none where nobody owns it.
    pub fn group_row(&self, group: &Group) -> &[Kept]
        ensures { map kept_slot result.now ≡ row_at self.now.groups (name_of group.now) }
    {
        self.groups.row(group.name())
    }

    /// One more owner of each item that the row of a group names, from one place of it up to another, for another row to keep.
    /// The counts alone are written. Condition: the row has these places, and each item there has owners, fewer than
    /// `2^32 - 1`, and is there once.
    pub fn keep_group_row(
        &mut self,
        name: GroupName,
        from: usize,
        upto: usize,
        into: &mut Vec<Kept>,
    )
        requires ordered { from ≤ upto }
        requires within { upto ≤ length (row_at self.old.groups (group_named name)) }
        requires takes { TakeOwners (row_between self.old (group_named name) from upto) self.old }
        requires room { length into.old.items + (upto - from) ≤ vec_capacity into.old }
        ensures owners { map kept_slot into.new.items ≡ map kept_slot into.old.items ++ row_between self.old (group_named name) from upto }
        ensures raised { AddsOwners (row_between self.old (group_named name) from upto) self.old self.new }
        ensures long { length into.new.items ≡ length into.old.items + (upto - from) }
        ensures room { vec_capacity into.old ≤ vec_capacity into.new }
    {
        let row = self.groups.row(name);
        keeping::keep_each(&row[from..upto], &mut self.states, into);
    }

    /// Whether the group of this name has an owner.
    pub fn is_group_out(&self, name: GroupName) -> bool
        ensures { IsTrue result ↔ IsOut self.now.groups (group_named name) }
    {
        self.groups.is_out(name)
    }

    /// How many names for groups are free.
    pub fn free_group_count(&self) -> usize
        ensures { result ≡ free_names self.now.groups }
    {
        self.groups.free_count()
    }

    /// Whether no name of a group is free.
    pub fn has_no_group(&self) -> bool
        ensures full { IsTrue result → NoNameFree self.now.groups }
        ensures free { IsFalse result → (g : ℕ) × IsFreeName self.now.groups g }
    {
        self.groups.is_full()
    }
}
