//! Owners from pointers.

ghost use Rattle.std.specs.Prelude.{◌≡◌, IfSome, Some, None, IfNone};
ghost use Rattle.sdd_table.specs.Frame.{Frame};
ghost use Rattle.sdd_table.specs.Place.{HasOwnersLeft, IsShared, AddsOwner, TakesNoOwner};
ghost use Rattle.sdd_world.specs.Tokens.{shared_slot, ptr_slot};

use crate::job::Deferred;
use crate::owner::Shared;
use crate::pointer::Ptr;
use crate::status::{Status, is_last};
use crate::world::World;
use sdd_table::tokens;

/// One more owner of the item in `slot`, where it is a `Shared` one below the greatest count.
pub(crate) fn add_owner<T, J: Deferred>(w: &mut World<T, J>, slot: usize) -> Option<Shared<T>>
    ensures more { IfSome result (λ s. (shared_slot s ≡ slot) × AddsOwner slot w.old w.new) }
    ensures room { IfSome result (λ s. HasOwnersLeft (shared_slot s) w.old) }
    ensures none { IfNone result ((w.new ≡ w.old) × TakesNoOwner slot w.old) }
    ensures live { IfSome result (λ s. IsShared w.new (shared_slot s)) }
    ensures keeps { Frame w.old w.new }
{
    match w.table.status_of(slot) {
        Status::Shared(owners) => {
            if is_last(owners) {
                return None;
            }
            w.table.set_status(slot, Status::Shared(owners + 1));
            Some(tokens::shared_at(slot))
        }
        _ => None,
    }
}

/// One more owner of the item that `at` names; none on null, on an `Owned` item, on one that was retired, and at the
/// greatest count of owners.
pub fn get_shared<T, J: Deferred>(w: &mut World<T, J>, at: Ptr<'static, T>) -> Option<Shared<T>>
    ensures more { IfSome result (λ s. (ptr_slot at.entry ≡ Some (shared_slot s)) × AddsOwner (shared_slot s) w.old w.new) }
    ensures room { IfSome result (λ s. HasOwnersLeft (shared_slot s) w.old) }
    ensures none { IfNone result ((w.new ≡ w.old) × IfSome (ptr_slot at.entry) (λ i. TakesNoOwner i w.old)) }
    ensures live { IfSome result (λ s. IsShared w.new (shared_slot s)) }
    ensures keeps { Frame w.old w.new }
{
    match at.slot {
        None => None,
        Some(slot) => add_owner(w, slot),
    }
}
