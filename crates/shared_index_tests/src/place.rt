//! Participants of the place of an index, and what commits are made of.

ghost use Rattle.sdd_domain.specs.Tokens.{place_of};
ghost use Rattle.shared_index.specs.SharedInvariant.{IsUnengaged};

use crate::calls::registered;
use crate::stage::Item;
use sdd_domain::domain::Domain;
use sdd_domain::local::Local;
use serial_history::{Answer, Query, Receipt, Seq};
use std::alloc::Global;
use std::process::Abort;
use version_views::Write;

pub(crate) const ROOM: &str = "memory is there";

/// A participant of the place, which has one that is free. Where memory is refused, it is asked for once more.
pub(crate) fn member<R: Abort>(rt: &R, domain: &Domain<Item>) -> Local<Item>
    ensures { IsUnengaged (place_of domain.now) result }
{
    for _ in 0..2u32 {
        if let Some(local) = registered(domain) {
            return local;
        }
    }
    panic!(rt; "a participant is free")
}

/// A receipt of this number with one read, that of a key.
pub(crate) fn got<R: Abort>(
    rt: &R,
    alloc: Global,
    number: u64,
    key: u64,
    value: Option<u64>,
) -> Receipt<u64, u64> {
    let mut receipt = Receipt::blank(alloc);
    receipt.number = number;
    receipt
        .note(Query::Get(key), &Answer::Get(value))
        .expect(rt, ROOM);
    receipt
}

/// An answer with these pairs.
pub(crate) fn range<R: Abort, const N: usize>(
    rt: &R,
    alloc: Global,
    pairs: [(u64, u64); N],
) -> Answer<u64, u64> {
    let mut told = Vec::new(alloc);
    for pair in pairs {
        told.push(pair).expect(rt, ROOM);
    }
    Answer::Range(Seq::from_vec(told))
}

/// One write.
pub(crate) fn one<R: Abort>(rt: &R, alloc: Global, write: Write<u64, u64>) -> Vec<Write<u64, u64>> {
    vec![in alloc; write].expect(rt, ROOM)
}

/// Two writes.
pub(crate) fn two<R: Abort>(
    rt: &R,
    alloc: Global,
    first: Write<u64, u64>,
    second: Write<u64, u64>,
) -> Vec<Write<u64, u64>> {
    vec![in alloc; first, second].expect(rt, ROOM)
}
