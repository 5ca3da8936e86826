//! One more owner of each of several items, for another item to keep.

ghost use Rattle.std.specs.Prelude.{◌≡◌, ◌+◌, ◌≤◌, ◌++◌, length, map, vec_capacity};
ghost use Rattle.sdd_table.specs.State.{uses_alone};
ghost use Rattle.sdd_table.specs.Place.{AddsOwners, TakeOwners};
ghost use Rattle.sdd_table.specs.Tokens.{kept_slot};

use crate::owner::Kept;
use crate::status::Status;

/// One more owner of the item of each owner in a row. The counts alone are written.
pub(crate) fn keep_each(row: &[Kept], states: &mut Vec<Status>, into: &mut Vec<Kept>)
    requires takes { TakeOwners (map kept_slot row.now) (uses_alone states.old.items) }
    requires room { length into.old.items + length row.now ≤ vec_capacity into.old }
    ensures owners { map kept_slot into.new.items ≡ map kept_slot into.old.items ++ map kept_slot row.now }
    ensures raised { AddsOwners (map kept_slot row.now) (uses_alone states.old.items) (uses_alone states.new.items) }
    ensures long { length into.new.items ≡ length into.old.items + length row.now }
    ensures room { vec_capacity into.old ≤ vec_capacity into.new }
{
    for kept in row {
        match &mut states[kept.slot] {
            Status::Shared(owners) => *owners += 1,
            _ => unreachable!(),
        }
        into.push_reserved(Kept { slot: kept.slot });
    }
}
