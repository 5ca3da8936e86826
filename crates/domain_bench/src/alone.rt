//! Guards and items of a place of one thread, the same rounds.

ghost use Rattle.std.specs.Prelude.{◌≤◌};

use sdd_plain::sizes::Sizes;
use sdd_world::{NoJob, World, world};
use std::alloc::{AllocError, Global};
use std::sync::Wait;

/// What a round does, if anything.
#[derive(Clone, Copy)]
pub(crate) enum Round {
    Guard,
    Item,
    Nothing,
}

/// Opens and closes an accelerated guard of the first participant.
#[inline(never)]
fn pass(w: &mut World<u64, NoJob>) {
    if w.participants() == 0 {
        return;
    }
    if let Ok(guard) = world::guard::new(w, 0) {
        world::guard::accelerate(w, &guard);
        world::guard::close(w, guard);
    }
}

/// Places an item, reads it, and gives its owner back: what was read.
#[inline(never)]
fn item(w: &mut World<u64, NoJob>, number: u64) -> u64 {
    if w.participants() == 0 {
        return 0;
    }
    let mut found = 0;
    if let Ok(owner) = world::shared::new(w, number) {
        found = *world::shared::as_ref(w, &owner);
        let _ = world::shared::release(w, owner, 0);
    }
    found
}

/// As many rounds as `count`: the sum of what was read.
fn rounds(w: &mut World<u64, NoJob>, round: Round, count: u32) -> u64 {
    let mut sum: u64 = 0;
    for i in 0..count {
        match round {
            Round::Guard => pass(w),
            Round::Item => {
                sum = sum.wrapping_add(item(w, u64::from(i)));
                pass(w);
            }
            Round::Nothing => {}
        }
    }
    sum
}

/// Rounds in a place of one thread, which ends behind them: the sum of what was read. Without rounds the place has as many
/// slots as rounds were asked for.
pub(crate) fn rounds_alone<R: Wait>(
    rt: &R,
    alloc: Global,
    participants: u8,
    round: Round,
    count: u32,
) -> Result<u64, AllocError>
    requires { 1 ≤ participants }
{
    let slots = match round {
        Round::Nothing => (count as usize).min(1048576),
        _ => 64,
    };
    let sizes = Sizes {
        participants: usize::from(participants),
        slots,
        cells: 0,
        jobs: 0,
    };
    let mut w = World::<u64, NoJob>::new(alloc, sizes)?;
    let sum = rounds(&mut w, round, count);
    for _ in rt.forever() {
        match w.close() {
            Ok(()) => return Ok(sum),
            Err(back) => w = back,
        }
    }
    unreachable!()
}
