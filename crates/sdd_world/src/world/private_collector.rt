//! Collecting items apart from the bags of the participants.
//!
//! Each `collect` first reclaims what was noted at least three raises before, which no guard that is open can name any
//! more, and notes the count of raises of what it takes in.

ghost use Rattle.std.specs.Prelude.{◌≡◌, ◌<◌, [], length, IfOk, IsOk, IsTrue, IsFalse};
ghost use Rattle.sdd_table.specs.Steps.{handed_over};
ghost use Rattle.sdd_world.specs.Collecting.{CollectsOwned, collected, left_with, swept_and_released, swept_by, left_in};
ghost use Rattle.sdd_table.specs.Frame.{Frame, OnlyParticipant, SameNesting};
ghost use Rattle.sdd_table.specs.Place.{IsOwned, IsShared, SaysLast};
ghost use Rattle.sdd_world.specs.Tokens.{owned_slot, shared_slot, guard_participant, waiting_in, room_of};

use crate::collector::PrivateCollector;
use crate::guard::WorldGuard;
use crate::holds::Holds;
use crate::job::Deferred;
use crate::owner::{Owned, Shared};
use crate::world::World;
use sdd_table::{PrivateBag, reclaim, tokens};
use std::alloc::{AllocError, Global};
use std::marker::PhantomData;

/// An empty collector, with room for as many items as the place has slots and job places. It takes no memory, so it never
/// fails: the allocator is asked for nothing.
pub fn new<T, J: Deferred>(
    alloc: Global,
    w: &World<T, J>,
) -> Result<PrivateCollector<T>, AllocError>
    ensures empty { IfOk result (λ c. waiting_in c ≡ []) }
    ensures room { IfOk result (λ c. room_of c ≡ length w.now.states) }
    ensures made { IsOk result }
{
    let _ = alloc;
    Ok(PrivateCollector {
        waiting: PrivateBag::new(w.table.places()),
        of: PhantomData,
    })
}

/// Reclaims what waits in the collector since three raises, by the participant of `guard`, and then retires an item into
/// it. Where the collector has no room left, which it has for all items of its place, the item is retired to that
/// participant. Owners are counted, so what is reclaimed releases no owner of that item.
pub fn collect_owned<T: Holds, J: Deferred>(
    w: &mut World<T, J>,
    collector: &mut PrivateCollector<T>,
    owned: Owned<T>,
    guard: &WorldGuard,
)
    requires participant { guard_participant guard.now < length w.old.participants }
    requires live { IsOwned w.old (owned_slot owned) }
    ensures collects { CollectsOwned T.holds (guard_participant guard.now) collector.old (owned_slot owned) collector.new w.old w.new }
    ensures room { room_of collector.new ≡ room_of collector.old }
    ensures nests { SameNesting w.old w.new }
    ensures keeps { Frame w.old w.new }
    ensures only { OnlyParticipant (guard_participant guard.now) w.old w.new }
{
    let slot = tokens::spend_owned(owned);
    let p = guard.participant;
    reclaim::purge(&mut w.table, p, &mut collector.waiting);
    let _kept = reclaim::leave_owned(&mut w.table, p, &mut collector.waiting, slot);
}

/// Reclaims what waits in the collector since three raises, by the participant of `guard`, then gives an owner back, and
/// answers whether it was the last, those of cells and items counted. The last one retires the item into the collector,
/// as `collect_owned` does.
pub fn collect_shared<T: Holds, J: Deferred>(
    w: &mut World<T, J>,
    collector: &mut PrivateCollector<T>,
    shared: Shared<T>,
    guard: &WorldGuard,
) -> bool
    requires participant { guard_participant guard.now < length w.old.participants }
    requires live { IsShared w.old (shared_slot shared) }
    ensures last { SaysLast result (shared_slot shared) (swept_by T.holds (guard_participant guard.now) collector.old w.old) }
    ensures shared { IsTrue result → IsShared (swept_by T.holds (guard_participant guard.now) collector.old w.old) (shared_slot shared) }
    ensures state { IsTrue result → w.new ≡ collected T.holds (guard_participant guard.now) collector.old (shared_slot shared) w.old }
    ensures left { IsTrue result → waiting_in collector.new ≡ left_with T.holds (guard_participant guard.now) collector.old (shared_slot shared) w.old }
    ensures released { IsFalse result → w.new ≡ swept_and_released T.holds (guard_participant guard.now) collector.old (shared_slot shared) w.old }
    ensures others { IsFalse result → waiting_in collector.new ≡ left_in T.holds (guard_participant guard.now) collector.old w.old }
    ensures room { room_of collector.new ≡ room_of collector.old }
    ensures nests { SameNesting w.old w.new }
    ensures keeps { Frame w.old w.new }
    ensures only { OnlyParticipant (guard_participant guard.now) w.old w.new }
{
    let slot = tokens::spend_shared(shared);
    let p = guard.participant;
    reclaim::purge(&mut w.table, p, &mut collector.waiting);
    reclaim::leave_shared(&mut w.table, p, &mut collector.waiting, slot)
}

/// Ends the collector: what waits in it is moved to the current bag of participant `p`.
pub fn hand_over<T, J: Deferred>(w: &mut World<T, J>, collector: PrivateCollector<T>, p: usize)
    requires { p < length w.old.participants }
    ensures handed { w.new ≡ handed_over p (waiting_in collector) w.old }
    ensures nests { SameNesting w.old w.new }
    ensures keeps { Frame w.old w.new }
    ensures only { OnlyParticipant p w.old w.new }
{
    let PrivateCollector { mut waiting, of: _ } = collector;
    reclaim::hand_over(&mut w.table, p, &mut waiting);
}
