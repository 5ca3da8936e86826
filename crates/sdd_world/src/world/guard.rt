//! Opening and closing guards.

ghost use Rattle.std.specs.Prelude.{◌≡◌, ◌<◌, ◌%◌, true, ℕ, length, IfOk, IfErr, OnOk, OnErr, IsErr, ◌↔◌, IsTrue, IsFalse};
ghost use Rattle.sdd_table.specs.State.{with_local, local_at, waiting_as, IsIdle, NoneIdle};
ghost use Rattle.sdd_table.specs.Steps.{guard_opened, guard_closed};
ghost use Rattle.sdd_table.specs.Frame.{Frame, OnlyParticipant, SameNesting};
ghost use Rattle.sdd_table.specs.Place.{IsOpen};
ghost use Rattle.sdd_world.specs.Tokens.{guard_participant};

use crate::epoch::Epoch;
use crate::guard::WorldGuard;
use crate::holds::Holds;
use crate::job::Deferred;
use crate::refusal::Nested;
use crate::status::{Status, is_last};
use crate::world::World;
use sdd_table::reclaim;

/// Opens a guard of participant `p`, within those that are open. An outermost opening publishes the count of raises
/// and, where that isn't the one found before, moves the bags of `p` on and reclaims what was in the oldest.
pub fn new<T: Holds, J: Deferred>(w: &mut World<T, J>, p: usize) -> Result<WorldGuard, Nested>
    requires { p < length w.old.participants }
    ensures opened { IfOk result (λ g. (guard_participant g ≡ p) × (w.new ≡ guard_opened T.holds p w.old)) }
    ensures open { IfOk result (λ _. IsOpen w.new p) }
    ensures nested { IsErr result ↔ ((local_at w.old p).nesting ≡ 4294967295) }
    ensures refused { OnErr result (w.new ≡ w.old) }
    ensures keeps { Frame w.old w.new }
    ensures only { OnlyParticipant p w.old w.new }
{
    if is_last(w.table.local(p).nesting) {
        return Err(Nested);
    }
    reclaim::open(&mut w.table, p);
    Ok(WorldGuard { participant: p })
}

/// Whether `guard` is open in this place, as each guard is that the place made until it is closed: the condition of
/// `close`.
pub fn is_open<T, J: Deferred>(w: &World<T, J>, guard: &WorldGuard) -> bool
    ensures participant { IsTrue result → guard_participant guard.now < length w.now.participants }
    ensures open { IsTrue result → IsOpen w.now (guard_participant guard.now) }
    ensures closed { IsFalse result → ¬ IsOpen w.now (guard_participant guard.now) }
{
    guard.participant < w.table.participants() && w.table.local(guard.participant).nesting > 0
}

/// Asks that the outermost closing of this nesting scans.
pub fn accelerate<T, J: Deferred>(w: &mut World<T, J>, guard: &WorldGuard)
    requires { guard_participant guard.now < length w.old.participants }
    ensures set { w.new ≡ with_local (guard_participant guard.now) (record (local_at w.old (guard_participant guard.now)) { accelerated = true }) w.old }
    ensures nests { SameNesting w.old w.new }
    ensures keeps { Frame w.old w.new }
    ensures only { OnlyParticipant (guard_participant guard.now) w.old w.new }
{
    w.table.accelerate(guard.participant);
}

/// Whether something was retired by the participant, or the flag set, since its bags were last found empty.
pub fn has_garbage<T, J: Deferred>(w: &World<T, J>, guard: &WorldGuard) -> bool
    requires { guard_participant guard.now < length w.now.participants }
    ensures { result ≡ (local_at w.now (guard_participant guard.now)).garbage }
{
    w.table.local(guard.participant).garbage
}

/// Sets that flag, so that a later closing scans.
pub fn set_has_garbage<T, J: Deferred>(w: &mut World<T, J>, guard: &WorldGuard)
    requires { guard_participant guard.now < length w.old.participants }
    ensures set { w.new ≡ with_local (guard_participant guard.now) (record (local_at w.old (guard_participant guard.now)) { garbage = true }) w.old }
    ensures nests { SameNesting w.old w.new }
    ensures keeps { Frame w.old w.new }
    ensures only { OnlyParticipant (guard_participant guard.now) w.old w.new }
{
    let mut local = w.table.local(guard.participant);
    local.garbage = true;
    w.table.set_local(guard.participant, local);
}

/// Keeps `job` until it is reclaimed as an item is that participant retires now, and then runs it once; if every
/// job place has one that waits, `job` is returned.
pub fn defer_execute<T, J: Deferred>(
    w: &mut World<T, J>,
    guard: &WorldGuard,
    job: J,
) -> Result<(), J>
    requires { guard_participant guard.now < length w.old.participants }
    ensures deferred { OnOk result ((i : ℕ) × IsIdle w.old i × (w.new ≡ waiting_as Status.Deferred (guard_participant guard.now) i w.old)) }
    ensures refused { IfErr result (λ j. (j ≡ job) × (w.new ≡ w.old) × NoneIdle w.old) }
    ensures nests { SameNesting w.old w.new }
    ensures keeps { Frame w.old w.new }
    ensures only { OnlyParticipant (guard_participant guard.now) w.old w.new }
{
    w.table.defer(guard.participant, job)
}

/// The epoch of the place: its count of raises modulo 64.
pub fn epoch<T, J: Deferred>(w: &World<T, J>, _guard: &WorldGuard) -> Epoch
    ensures { result ≡ w.now.count % 64 }
{
    Epoch::of_count(w.table.count())
}

/// Closes a guard. An outermost closing scans, if a guard of the nesting was accelerated or this is the 64th since the
/// last scan with garbage there: the count is raised by one if every open guard published it.
pub fn close<T, J: Deferred>(w: &mut World<T, J>, guard: WorldGuard)
    requires participant { guard_participant guard < length w.old.participants }
    requires open { IsOpen w.old (guard_participant guard) }
    ensures closed { w.new ≡ guard_closed (guard_participant guard) w.old }
    ensures keeps { Frame w.old w.new }
    ensures only { OnlyParticipant (guard_participant guard) w.old w.new }
{
    let WorldGuard { participant } = guard;
    reclaim::close(&mut w.table, participant);
}
