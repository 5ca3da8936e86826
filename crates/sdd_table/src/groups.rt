//! Groups of owners: rows of owners outside the slots, each row with a count of its own.
//!
//! An item that keeps an owner of a group keeps, with one count, an owner of each item that the row names. So what is like an
//! older item but for a few owners raises a count for each row that it takes over, and none for the owners in it. The last
//! owner of a group ends it: its row is handed over, to be given back by the same call.

ghost use Rattle.std.specs.Prelude.{◌≡◌, ◌↔◌, ◌++◌, ◌∷◌, [], ℕ, map, IfErr, IfNone, IfOk, IfSome, IsFalse, IsTrue, OnErr, OnOk};
ghost use Rattle.sdd_table.specs.Groups.{IsFreeName, IsOut, NoNameFree, NoneOut, count_at, free_names, group_named, less_owned, more_owned, name_of, no_group, row_at, row_ended, with_row};
ghost use Rattle.sdd_table.specs.Tokens.{kept_slot};

use crate::owner::Kept;
use std::alloc::{AllocError, Global};
use std::marker::Model;
use std::mem;

/// One of the owners of a group. It must be consumed: given back, or moved into an item.
pub struct Group {
    pub(crate) name: usize,
}

/// Which group it is, as plain data: what lets a call change a place while an item in it keeps the owner. It keeps nothing.
#[derive(Clone, Copy)]
pub struct GroupName {
    number: usize,
}

impl Group {
    /// The name of the group.
    pub fn name(&self) -> GroupName
        ensures { group_named result ≡ name_of self.now }
    {
        GroupName { number: self.name }
    }
}

/// A row with its count; 0 where the name is free.
pub(crate) struct Entry {
    pub(crate) count: u32,
    pub(crate) row: Vec<Kept>,
}

/// Rows of owners, each with a count. They must be consumed by [`end`](Groups::end).
pub(crate) struct Groups {
    alloc: Global,
    entries: Vec<Entry>,
    free: Vec<usize>,
}

/// Invariant: specs/Arena.antt, IsArena: the stack of free names names those that are free.
impl Model for Groups {
    ghost use Rattle.std.specs.Prelude.{List};
    ghost use Rattle.sdd_table.specs.Groups.{GroupState};

    ghost Value = { List GroupState };

    ghost use Rattle.sdd_table.specs.Arena.{IsArena, groups_of};

    ghost view = { groups_of };

    ghost invariant = { IsArena };
}

impl Groups {
    /// No group, and no memory taken.
    pub(crate) fn new(alloc: Global) -> Self
        ensures { result ≡ [] }
    {
        Groups {
            alloc,
            entries: Vec::new(alloc),
            free: Vec::new(alloc),
        }
    }

    /// One more free name. All memory of a later `make` is taken here.
    pub(crate) fn grow(&mut self) -> Result<(), AllocError>
        ensures grown { OnOk result (self.new ≡ self.old ++ no_group ∷ []) }
        ensures kept { OnErr result (self.new ≡ self.old) }
    {
        let name = self.entries.len();
        self.entries.reserve(1)?;
        self.free.reserve(name + 1 - self.free.len())?;
        let row = Vec::new(self.alloc);
        self.entries.push_reserved(Entry { count: 0, row });
        self.free.push_reserved(name);
        Ok(())
    }

    /// A group of these owners, with one owner of its own, where a name is free.
    pub(crate) fn make(&mut self, row: Vec<Kept>) -> Result<Group, Vec<Kept>>
        ensures free { IfOk result (λ group. IsFreeName self.old (name_of group)) }
        ensures made { IfOk result (λ group. self.new ≡ with_row (name_of group) (map kept_slot row.items) self.old) }
        ensures refused { IfErr result (λ back. (back ≡ row) × (self.new ≡ self.old) × NoNameFree self.old) }
    {
        let Some(name) = self.free.pop() else {
            return Err(row);
        };
        let Entry {
            count: _,
            row: none,
        } = mem::replace(&mut self.entries[name], Entry { count: 1, row });
        none.destroy_empty();
        Ok(Group { name })
    }

    /// One more owner of a group: one count is written, whatever the length of the row. None where it has `2^32 - 1` owners.
    pub(crate) fn raise(&mut self, name: GroupName) -> Option<Group>
        requires { IsOut self.old (group_named name) }
        ensures raised { IfSome result (λ other. (name_of other ≡ group_named name) × (self.new ≡ more_owned (group_named name) self.old)) }
        ensures refused { IfNone result ((self.new ≡ self.old) × (count_at self.old (group_named name) ≡ 4294967295)) }
        ensures full { count_at self.old (group_named name) ≡ 4294967295 → result ≡ None }
    {
        let entry = &mut self.entries[name.number];
        if entry.count == u32::MAX {
            return None;
        }
        entry.count += 1;
        Some(Group { name: name.number })
    }

    /// An owner of a group is given back. Where it was the last, its row is handed over, and its name is free.
    pub(crate) fn give_up(&mut self, group: Group) -> Option<Vec<Kept>>
        ensures groups { self.new ≡ less_owned (name_of group) self.old }
        ensures none { IfNone result (row_ended (name_of group) self.old ≡ []) }
        ensures row { IfSome result (λ row. map kept_slot row.items ≡ row_ended (name_of group) self.old) }
    {
        let Group { name } = group;
        if name >= self.entries.len() {
            return None;
        }
        let entry = &mut self.entries[name];
        if entry.count == 0 {
            return None;
        }
        if entry.count > 1 {
            entry.count -= 1;
            return None;
        }
        let none = Entry {
            count: 0,
            row: Vec::new(self.alloc),
        };
        let Entry { count: _, row } = mem::replace(entry, none);
        self.free.push_reserved(name);
        Some(row)
    }

    /// The row of a group; none where nobody owns it.
    pub(crate) fn row(&self, name: GroupName) -> &[Kept]
        ensures { map kept_slot result.now ≡ row_at self.now (group_named name) }
    {
        match self.entries.get(name.number) {
            Some(entry) => &entry.row,
            None => &[],
        }
    }

    /// Whether the group of this name has an owner.
    pub(crate) fn is_out(&self, name: GroupName) -> bool
        ensures { IsTrue result ↔ IsOut self.now (group_named name) }
    {
        match self.entries.get(name.number) {
            Some(entry) => entry.count > 0,
            None => false,
        }
    }

    /// Whether no group has an owner.
    pub(crate) fn is_unused(&self) -> bool
        ensures unused { IsTrue result → NoneOut self.now }
        ensures used { IsFalse result → ¬ NoneOut self.now }
    {
        self.free.len() == self.entries.len()
    }

    /// Whether no name is free.
    pub(crate) fn is_full(&self) -> bool
        ensures full { IsTrue result → NoNameFree self.now }
        ensures free { IsFalse result → (g : ℕ) × IsFreeName self.now g }
    {
        self.free.is_empty()
    }

    /// How many names are free.
    pub(crate) fn free_count(&self) -> usize
        ensures { result ≡ free_names self.now }
    {
        self.free.len()
    }

    /// Gives the room back, where no group has an owner.
    pub(crate) fn end(self)
        requires { NoneOut self }
    {
        let Groups {
            alloc: _,
            mut entries,
            free: _,
        } = self;
        while let Some(Entry { count: _, row }) = entries.pop() {
            row.destroy_empty();
        }
        entries.destroy_empty();
    }
}
