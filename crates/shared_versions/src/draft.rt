//! Versions that aren't placed yet, with room for all that is placed of them.

ghost use Rattle.std.specs.Prelude.{◌≡◌, ◌≤◌, ◌+◌, ◌*◌, ◌/◌, [], IfOk, length};
ghost use Rattle.std.specs.List.{All};
ghost use Rattle.version_drafts.specs.Shelves.{LiesOn};
ghost use Rattle.shared_versions.specs.Drafts.{HasRoomFor, IsPlaceable, IsPlannedAs, list_planned, number_of, slots_for};
ghost use Rattle.shared_versions.specs.Nodes.{IsReadable, own_segments};
ghost use Rattle.shared_versions.specs.Sight.{Sight};

use crate::node::{OwnRow, RowOwner};
use crate::planned::{Planned, planned_rows};
use crate::room::Room;
use std::alloc::{AllocError, Global};
use std::marker::Model;
use version_drafts::plans;
use version_views::Directory;

/// A version that isn't placed yet: the number of its list, and its rows of segments, of which some are those of an older version,
/// by their places there.
pub struct Draft<K: Ord, V, const S: usize> {
    shelves: Directory<K, Planned<K, V>>,
    // how many slots it takes
    slots: usize,
    room: Room<K, V>,
}

/// Invariant: specs/Drafts.antt, IsDrafted and HasRoomFor: its slots are few, and counted; nothing is in the room, which suffices
/// for all rows.
impl<K: Ord, V, const S: usize> Model for Draft<K, V, S> {
    ghost use Rattle.std.specs.Prelude.{length};
    ghost use Rattle.shared_versions.specs.Drafts.{HasRoomFor, IsDrafted, Plan};

    ghost Value = { Plan K V S };

    ghost view = { λ d. record { shelves = d.shelves } };

    ghost invariant = { λ d. IsDrafted S d.shelves d.slots × HasRoomFor (length d.shelves.rows.items) d.room };
}

impl<K: Ord, V, const S: usize> Draft<K, V, S> {
    /// The empty list, with number 0. It takes no memory.
    pub fn empty(alloc: Global) -> Self
        ensures number { number_of result ≡ 0 }
        ensures slots { slots_for result ≡ 1 }
        ensures list { (old : Sight K V) → list_planned old result ≡ [] }
        ensures placeable { (old : Sight K V) → IsPlaceable K.cmp S old result }
    {
        let shelves = Directory::new(0, 0, Vec::new(alloc), Vec::new(alloc), Vec::new(alloc));
        Draft {
            shelves,
            slots: 1,
            room: Room::none(alloc),
        }
    }

    /// The same list under this number.
    pub fn numbered(self, number: u64) -> Self
        ensures { result.shelves ≡ record self.shelves { number = number } }
    {
        let Draft {
            shelves,
            slots,
            room,
        } = self;
        Draft {
            shelves: shelves.numbered(number),
            slots,
            room,
        }
    }

    /// How many slots it takes: one for each row that has a new segment, and one for its directory. A list of `n` pairs takes at
    /// most `2 * (n / (S + 1)) + 2`, and so do `w` writes at most `2 * w + 1`.
    pub fn slots(&self) -> usize
        ensures count { result ≡ slots_for self.now }
        ensures few { result ≤ 2 * (self.now.shelves.length / (S + 1)) + 2 }
    {
        self.slots
    }

    /// Its directory, and room for its rows.
    pub(crate) fn into_parts(self) -> (Directory<K, Planned<K, V>>, Room<K, V>)
        ensures shelves { result.0 ≡ self.shelves }
        ensures room { HasRoomFor (length result.0.rows.items) result.1 }
    {
        let Draft {
            shelves,
            slots: _,
            room,
        } = self;
        (shelves, room)
    }
}

impl<K: Ord + Drop, V: Drop, const S: usize> Draft<K, V, S> {
    /// A draft of this plan upon the rows of an older version, with room for all that is placed of it. Fails only if an
    /// allocation fails.
    pub(crate) fn of(
        alloc: Global,
        old: &Directory<K, RowOwner<K, V>>,
        own: &[OwnRow<K, V>],
        plan: plans::Draft<K, V, S>,
    ) -> Result<Self, AllocError>
        requires whole { IsReadable (own_segments own.now) old.now }
        requires lies { All (λ r. LiesOn old.now.ends.items r.segments) plan.shelves.rows.items }
        ensures { IfOk result (IsPlannedAs (own_segments own.now) old.now plan.shelves) }
    {
        // what is planned takes no more slots than these, which are few
        let _most = plan.slots();
        let (number, length, shelves, separators, ends) = plan.into_shelves().into_parts();
        let (rows, slots) = planned_rows(alloc, old, own, shelves)?;
        let room = Room::with_room(alloc, rows.len())?;
        Ok(Draft {
            shelves: Directory::new(number, length, rows, separators, ends),
            slots: slots + 1,
            room,
        })
    }
}

impl<K: Ord + Drop, V: Drop, const S: usize> Drop for Draft<K, V, S> {
    fn drop(self) {
        let Draft {
            shelves: _,
            slots: _,
            room,
        } = self;
        room.end();
    }
}
