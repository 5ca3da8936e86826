//! Calls on a scene, as rows of tables.

ghost use Rattle.std.specs.Prelude.{◌≤◌};

use crate::scene::Scene;
use std::alloc::Global;
use std::ops::Bound;
use std::process::Abort;
use version_views::Write;

/// Upserts the pairs of these keys with this value.
pub(crate) fn upserts<R: Abort>(
    rt: &R,
    alloc: Global,
    keys: std::ops::Range<u64>,
    value: u64,
) -> Vec<Write<u64, u64>> {
    let mut writes = Vec::new(alloc);
    for key in keys {
        let Ok(()) = writes.push(Write::Upsert(key, value)) else {
            panic!(rt; "memory is there");
        };
    }
    writes
}

/// The removal of the pairs from one key on and below another.
pub(crate) fn removal<R: Abort>(rt: &R, alloc: Global, from: u64, to: u64) -> Vec<Write<u64, u64>> {
    let mut writes = Vec::new(alloc);
    let write = Write::RemoveRange(Bound::Included(from), Bound::Excluded(to));
    let Ok(()) = writes.push(write) else {
        panic!(rt; "memory is there");
    };
    writes
}

/// A call on a scene.
#[derive(Clone, Copy)]
pub(crate) enum Call {
    /// Upserts the pairs of the keys from the first on and below the second with a value, and publishes what that leaves.
    Upsert(u64, u64, u64),
    /// Removes the pairs of the keys from the first on and below the second, and publishes what that leaves.
    Remove(u64, u64),
    /// Reads the value of a key.
    Get(u64),
    Reclaim,
    /// Counts the slots in use.
    Slots,
}

/// What a call answers.
#[derive(Clone, Copy)]
pub(crate) enum Told {
    Placed,
    /// There are too few slots.
    Refused,
    /// The value, and how many pairs there are.
    Found(Option<u64>, usize),
    Done,
    Used(usize),
}

/// Makes a call, and returns whether it answers what is wanted.
fn answers<R: Abort, const S: usize>(
    rt: &R,
    alloc: Global,
    scene: &mut Scene<'_, S>,
    call: Call,
    wanted: Told,
) -> bool
    requires { (1 ≤ S) × (S ≤ 225) }
{
    match (call, wanted) {
        (Call::Upsert(from, to, value), Told::Placed) => {
            let writes = upserts(rt, alloc, from..to, value);
            scene.commit(rt, alloc, &writes)
        }
        (Call::Upsert(from, to, value), Told::Refused) => {
            let writes = upserts(rt, alloc, from..to, value);
            !scene.commit(rt, alloc, &writes)
        }
        (Call::Remove(from, to), Told::Placed) => {
            let writes = removal(rt, alloc, from, to);
            scene.commit(rt, alloc, &writes)
        }
        (Call::Get(key), Told::Found(value, pairs)) => scene.seen(rt, key) == (value, pairs),
        (Call::Reclaim, Told::Done) => {
            scene.reclaim();
            true
        }
        (Call::Slots, Told::Used(slots)) => scene.slots() == slots,
        _ => false,
    }
}

/// Makes the calls of a table: how many answer what is wanted before the first that doesn't.
pub(crate) fn played<R: Abort, const S: usize>(
    rt: &R,
    alloc: Global,
    scene: &mut Scene<'_, S>,
    rows: &[(Call, Told)],
) -> usize
    requires { (1 ≤ S) × (S ≤ 225) }
{
    let mut right = 0usize;
    for at in 0..rows.len() {
        let (call, wanted) = rows[at];
        if right == at && answers(rt, alloc, scene, call, wanted) {
            right = right.saturating_add(1);
        }
    }
    right
}
