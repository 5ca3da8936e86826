//! Room for what is placed of a version.

ghost use Rattle.std.specs.Prelude.{IfOk};
ghost use Rattle.shared_versions.specs.Drafts.{HasRoomFor, IsUnused};

use crate::granting::Granted;
use crate::keeping::ToKeep;
use crate::kept::WriterOwner;
use crate::node::{OwnRow, RowOwner};
use std::alloc::{AllocError, Global};
use version_views::Row;

/// Room for all rows of a version until it is placed: for how each is granted, how the version has it, and those that aren't
/// items; and for what is to be
/// kept of it, and the owners that the writer keeps.
pub(crate) struct Room<K: Ord, V> {
    pub(crate) granted: Vec<Row<K, Granted<K, V>>>,
    pub(crate) rows: Vec<Row<K, RowOwner<K, V>>>,
    pub(crate) own: Vec<OwnRow<K, V>>,
    pub(crate) to_keep: Vec<ToKeep<K, V>>,
    pub(crate) kept: Vec<WriterOwner<K, V>>,
}

impl<K: Ord, V> Room<K, V> {
    /// Room for no version. It takes no memory.
    pub(crate) fn none(alloc: Global) -> Self
        ensures { HasRoomFor 0 result }
    {
        Room {
            granted: Vec::new(alloc),
            rows: Vec::new(alloc),
            own: Vec::new(alloc),
            to_keep: Vec::new(alloc),
            kept: Vec::new(alloc),
        }
    }

    /// Room for so many rows. Fails only if an allocation fails.
    pub(crate) fn with_room(alloc: Global, rows: usize) -> Result<Self, AllocError>
        ensures { IfOk result (HasRoomFor rows) }
    {
        let granted = Vec::with_capacity(alloc, rows)?;
        let Ok(owned) = Vec::with_capacity(alloc, rows) else {
            granted.destroy_empty();
            return Err(AllocError);
        };
        let Ok(own) = Vec::with_capacity(alloc, rows) else {
            granted.destroy_empty();
            owned.destroy_empty();
            return Err(AllocError);
        };
        let Ok(to_keep) = Vec::with_capacity(alloc, rows) else {
            granted.destroy_empty();
            owned.destroy_empty();
            own.destroy_empty();
            return Err(AllocError);
        };
        let Ok(kept) = Vec::with_capacity(alloc, rows) else {
            granted.destroy_empty();
            owned.destroy_empty();
            own.destroy_empty();
            to_keep.destroy_empty();
            return Err(AllocError);
        };
        Ok(Room {
            granted,
            rows: owned,
            own,
            to_keep,
            kept,
        })
    }

    /// Lets it go. Condition: nothing is in it.
    pub(crate) fn end(self)
        requires { IsUnused self }
    {
        let Room {
            granted,
            rows,
            own,
            to_keep,
            kept,
        } = self;
        granted.destroy_empty();
        rows.destroy_empty();
        own.destroy_empty();
        to_keep.destroy_empty();
        kept.destroy_empty();
    }
}
