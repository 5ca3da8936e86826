//! Commits by how they end: accepted, or refused.

ghost use Rattle.std.specs.Prelude.{◌≡◌, ◌≤◌, IfSome};
ghost use Rattle.local_index.specs.State.{HasNoSession};

use crate::commits::one;
use crate::reads::{begin, shut};
use crate::task::Index;
use local_index::{Answer, Cause, Query, Receipt, Write};
use std::alloc::Global;

/// How a commit ends.
#[derive(Clone, Copy, PartialEq, Eq)]
pub(crate) enum Ending {
    /// Receipt and writes are made, and there is no commit.
    Unmade,
    /// It is accepted.
    Accepted,
    /// It is refused, since one slot is free and it takes two.
    NoSlot,
    /// It is refused, since its read doesn't hold.
    Conflict,
}

/// The ending that a number from outside means: 1 to 3, in the order of the variants; any other makes no commit.
pub(crate) fn ending_of(number: u32) -> Ending {
    match number {
        1 => Ending::Accepted,
        2 => Ending::NoSlot,
        3 => Ending::Conflict,
        _ => Ending::Unmade,
    }
}

/// An index that begins with these keys, which must rise, each its own value.
pub(crate) fn begun<const S: usize>(alloc: Global, keys: &[u64], slots: usize) -> Option<Index<S>>
    requires least { 1 ≤ S }
    requires most { S ≤ 225 }
    ensures { IfSome result (λ index. HasNoSession index) }
{
    if slots == 0 || slots > 1_000_000_000 {
        return None;
    }
    let mut pairs = Vec::new(alloc);
    for key in keys {
        let _ = pairs.push((*key, *key));
    }
    match Index::<S>::from_base(alloc, 0, pairs, 1, slots) {
        Ok(index) => Some(index),
        Err(_) => None,
    }
}

/// How many slots an index has whose commits end so, where its list takes this many: one more, or four times as many.
pub(crate) fn slots_of(ending: Ending, used: usize) -> usize {
    match ending {
        Ending::NoSlot => used.saturating_add(1),
        _ => used.saturating_mul(4),
    }
}

/// Makes a commit for each probe, each beside a session that opened before it, and reclaims when that is closed: how many
/// ended so.
pub(crate) fn commit_each<const S: usize>(
    index: &mut Index<S>,
    alloc: Global,
    probes: &[u64],
    ending: Ending,
) -> u64
    ensures { index.new.places ≡ index.old.places }
{
    let mut count = 0u64;
    for probe in probes {
        if ends_so::<S>(index, alloc, *probe, ending) {
            count = count.saturating_add(1);
        }
    }
    count
}

/// Whether an upsert of a probe ends so.
#[inline(never)]
fn ends_so<const S: usize>(index: &mut Index<S>, alloc: Global, probe: u64, ending: Ending) -> bool
    ensures { index.new.places ≡ index.old.places }
{
    let mut right = false;
    if let Some(session) = begin::<S>(index) {
        right = ended::<S>(index, alloc, probe, ending) == ending;
        let _receipt = shut::<S>(index, session);
    }
    index.reclaim();
    right
}

/// How an upsert of a probe ends that rests on one read of it.
fn ended<const S: usize>(index: &mut Index<S>, alloc: Global, probe: u64, ending: Ending) -> Ending
    ensures { index.new.places ≡ index.old.places }
{
    let receipt = receipt_of(alloc, probe, ending != Ending::Conflict);
    let writes = one(alloc, Write::Upsert(probe, 7));
    if ending == Ending::Unmade {
        return Ending::Unmade;
    }
    match index.commit(&receipt, writes) {
        Ok(_) => Ending::Accepted,
        Err(refused) => match refused.cause {
            Cause::NoSlot => Ending::NoSlot,
            Cause::Conflict(_) => Ending::Conflict,
            _ => Ending::Unmade,
        },
    }
}

/// A receipt of one read: whether a key is there.
fn receipt_of(alloc: Global, key: u64, there: bool) -> Receipt<u64, u64> {
    let mut receipt = Receipt::blank(alloc);
    let _ = receipt.note(Query::Contains(key), &Answer::Contains(there));
    receipt
}
