//! Raw pointers under a guard.

ghost use Rattle.std.specs.Prelude.{◌≡◌, ◌≢◌, IfSome, Some, None, IfNone};
ghost use Rattle.sdd_table.specs.State.{status_at};
ghost use Rattle.sdd_world.specs.Tokens.{ptr_slot, ptr_tag, raw_slot, raw_tag};

use crate::guard::WorldGuard;
use crate::job::Deferred;
use crate::pointer::{Ptr, RawPtr};
use crate::status::Status;
use crate::world::World;
use std::marker::PhantomData;

/// The same pointer, to be read under a guard; none unless it is null or its item is out as a raw one.
pub fn into_ptr<T, J: Deferred>(
    w: &World<T, J>,
    raw: RawPtr<T>,
    _guard: &WorldGuard,
) -> Option<Ptr<'static, T>>
    ensures same { IfSome result (λ r. (ptr_slot r ≡ raw_slot raw) × (ptr_tag r ≡ raw_tag raw)) }
    ensures out { IfSome result (λ _. IfSome (raw_slot raw) (λ i. status_at w.now i ≡ Status.Raw)) }
    ensures none { IfNone result ((raw_slot raw ≢ None) × IfSome (raw_slot raw) (λ i. status_at w.now i ≢ Status.Raw)) }
{
    if let Some(slot) = raw.slot {
        match w.table.status_of(slot) {
            Status::Raw => {}
            _ => return None,
        }
    }
    Some(Ptr {
        slot: raw.slot,
        tag: raw.tag,
        of: PhantomData,
    })
}
