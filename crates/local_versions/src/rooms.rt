//! Room for the owners of the new rows of a version, which is taken before anything is placed.

ghost use Rattle.std.specs.Prelude.{◌≡◌, ◌++◌, ℕ, List, IfOk, OnErr, OnOk};
ghost use Rattle.std.specs.List.{All};
ghost use Rattle.local_versions.specs.Rooms.{IsUnused, RoomsFit, new_size, new_sizes};

use sdd_world::owner::Kept;
use std::alloc::{AllocError, Global};
use version_drafts::draft::count_of;
use version_drafts::shelves::Shelf;
use version_views::Row;

/// Room for the owners of each new row, that of the first one last. Fails only if an allocation fails.
pub(crate) fn rooms_for<K: Ord, V>(
    alloc: Global,
    shelves: &[Row<K, Shelf<K, V>>],
) -> Result<Vec<Vec<Kept>>, AllocError>
    ensures { IfOk result (λ rooms. RoomsFit rooms.items (new_sizes shelves.now)) }
{
    let mut rooms = Vec::new(alloc);
    let mut left = shelves.len();
    while left > 0 {
        left -= 1;
        match add_room(alloc, &mut rooms, shelves[left].owners()) {
            Ok(()) => {}
            Err(refused) => {
                end_all(rooms);
                return Err(refused);
            }
        }
    }
    Ok(rooms)
}

/// Room for the owners of a row behind that for others, where it is a new one. Fails only if an allocation fails.
fn add_room<K: Ord, V>(
    alloc: Global,
    rooms: &mut Vec<Vec<Kept>>,
    segments: &Shelf<K, V>,
) -> Result<(), AllocError>
    ensures fits { OnOk result ((sizes : List ℕ) → RoomsFit rooms.old.items sizes → RoomsFit rooms.new.items (new_size segments.now ++ sizes)) }
    ensures same { OnErr result (rooms.new.items ≡ rooms.old.items) }
{
    let Shelf::New(parts) = segments else {
        return Ok(());
    };
    let Some(count) = count_of(parts) else {
        return Err(AllocError);
    };
    rooms.reserve(1)?;
    rooms.push_reserved(Vec::with_capacity(alloc, count)?);
    Ok(())
}

/// Lets room go. Condition: nothing is in it.
fn end_all(mut rooms: Vec<Vec<Kept>>)
    requires { All IsUnused rooms.items }
{
    while let Some(room) = rooms.pop() {
        room.destroy_empty();
    }
    rooms.destroy_empty();
}
