//! Tasks that read.

ghost use Rattle.std.specs.Prelude.{◌≡◌, None, IfSome, IfNone, slice_set};
ghost use Rattle.local_index.specs.State.{IsSessionOf};

use crate::task::{Index, Open, Task};
use local_index::{Answer, Query, Receipt};
use std::ops::Bound;

/// Runs a round of a task that reads; gives the sum of the values that it met, a key that isn't there counting 1.
pub(crate) fn read_task<const S: usize>(index: &mut Index<S>, probes: &[u64], task: Task) -> u64
    ensures { index.new.places ≡ index.old.places }
{
    match task {
        Task::Open => open_all::<S>(index, probes),
        Task::Get | Task::Range | Task::Walk | Task::Record => {
            in_session::<S>(index, probes, task)
        }
        _ => 0,
    }
}

/// Opens a session; where it is closed again, the places are as before.
#[inline]
pub(crate) fn begin<const S: usize>(index: &mut Index<S>) -> Option<Open>
    ensures open { IfSome result (λ s. IsSessionOf index.new s) }
    ensures places { IfSome result (λ s. slice_set index.new.places s.place None ≡ index.old.places) }
    ensures refused { IfNone result (index.new.places ≡ index.old.places) }
{
    match index.open() {
        Ok(session) => Some(session),
        Err(_) => None,
    }
}

/// Closes a session.
#[inline]
pub(crate) fn shut<const S: usize>(index: &mut Index<S>, session: Open) -> Receipt<u64, u64>
    requires { IsSessionOf index.old session }
    ensures { index.new.places ≡ slice_set index.old.places session.place None }
{
    index.close_session(session)
}

/// Opens and closes a session for each probe.
#[inline(never)]
fn open_all<const S: usize>(index: &mut Index<S>, probes: &[u64]) -> u64
    ensures { index.new.places ≡ index.old.places }
{
    for _probe in probes {
        open_one::<S>(index);
    }
    0
}

/// Opens and closes a session.
#[inline(always)]
fn open_one<const S: usize>(index: &mut Index<S>)
    ensures { index.new.places ≡ index.old.places }
{
    if let Some(session) = begin::<S>(index) {
        let _receipt = shut::<S>(index, session);
    }
}

/// Runs a round of a task within one session.
fn in_session<const S: usize>(index: &mut Index<S>, probes: &[u64], task: Task) -> u64
    ensures { index.new.places ≡ index.old.places }
{
    let Some(mut session) = begin::<S>(index) else {
        return 0;
    };
    let sum = match task {
        Task::Get => get_all::<S>(index, &session, probes),
        Task::Range => range_all::<S>(index, &session, probes),
        Task::Walk => walk::<S>(index, &session),
        _ => record_all::<S>(index, &mut session, probes),
    };
    let _receipt = shut::<S>(index, session);
    sum
}

/// Looks each probe up.
#[inline(never)]
fn get_all<const S: usize>(index: &Index<S>, session: &Open, probes: &[u64]) -> u64
    requires { IsSessionOf index.now session.now }
{
    let mut sum = 0u64;
    for probe in probes {
        let value = match index.get(session, probe) {
            Some(value) => *value,
            None => 1,
        };
        sum = sum.wrapping_add(value);
    }
    sum
}

/// Reads a hundred pairs from each probe on.
#[inline(never)]
fn range_all<const S: usize>(index: &Index<S>, session: &Open, probes: &[u64]) -> u64
    requires { IsSessionOf index.now session.now }
{
    let mut sum = 0u64;
    for probe in probes {
        let hundred = range_one::<S>(index, session, probe);
        sum = sum.wrapping_add(hundred);
    }
    sum
}

/// Reads a hundred pairs from a probe on.
#[inline(always)]
fn range_one<'t, const S: usize>(index: &'t Index<S>, session: &Open, from: &'t u64) -> u64
    requires { IsSessionOf index.now session.now }
{
    let mut sum = 0u64;
    for (_, value) in index
        .range(session, Bound::Included(from), Bound::Unbounded)
        .take(100)
    {
        sum = sum.wrapping_add(*value);
    }
    sum
}

/// Reads all pairs.
#[inline(never)]
fn walk<const S: usize>(index: &Index<S>, session: &Open) -> u64
    requires { IsSessionOf index.now session.now }
{
    let mut sum = 0u64;
    for (_, value) in index.iter(session) {
        sum = sum.wrapping_add(*value);
    }
    sum
}

/// Looks each probe up, and records it.
#[inline(never)]
fn record_all<const S: usize>(index: &Index<S>, session: &mut Open, probes: &[u64]) -> u64
    requires { IsSessionOf index.now session.old }
    ensures open { IsSessionOf index.now session.new }
    ensures place { session.new.place ≡ session.old.place }
{
    let mut sum = 0u64;
    for probe in probes {
        let value = match index.read(session, Query::Get(*probe)) {
            Ok(Answer::Get(Some(value))) => value,
            _ => 1,
        };
        sum = sum.wrapping_add(value);
    }
    sum
}
