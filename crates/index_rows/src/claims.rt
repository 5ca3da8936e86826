//! Reads and their answers as data, and the receipts of them.

use serial_history::{Answer, Near, Query, Receipt, Recorded, Seq};
use std::alloc::{AllocError, Global};
use std::ops::Bound;

/// A read and its answer, as a session records it and a receipt claims it.
#[derive(Clone, Copy)]
pub enum Claim {
    /// The value of a key.
    Got(u64, Option<u64>),
    /// Whether a pair has a key.
    Has(u64, bool),
    /// The pairs within two bounds.
    Listed(Bound<u64>, Bound<u64>, &'static [(u64, u64)]),
    /// The first pairs within two bounds, up to a count.
    Firsts(Bound<u64>, Bound<u64>, usize, &'static [(u64, u64)]),
    /// The last ones.
    Lasts(Bound<u64>, Bound<u64>, usize, &'static [(u64, u64)]),
    /// What is near a key: the pair that has it, those around it, or the one nearest.
    Exact(u64, (u64, u64)),
    Between(u64, (u64, u64), (u64, u64)),
    Smaller(u64, (u64, u64)),
    Larger(u64, (u64, u64)),
    /// A look-up of a key with an answer of another kind: whether a pair has it.
    Mixed(u64, bool),
}

/// What is asked by a read.
pub fn query(claim: Claim) -> Query<u64> {
    match claim {
        Claim::Got(key, _) | Claim::Mixed(key, _) => Query::Get(key),
        Claim::Has(key, _) => Query::Contains(key),
        Claim::Listed(lower, upper, _) => Query::Range(lower, upper),
        Claim::Firsts(lower, upper, count, _) => Query::First(lower, upper, count),
        Claim::Lasts(lower, upper, count, _) => Query::Last(lower, upper, count),
        Claim::Exact(key, _)
        | Claim::Between(key, _, _)
        | Claim::Smaller(key, _)
        | Claim::Larger(key, _) => Query::Locate(key),
    }
}

/// What a read answers.
pub fn answer(alloc: Global, claim: Claim) -> Result<Answer<u64, u64>, AllocError> {
    Ok(match claim {
        Claim::Got(_, value) => Answer::Get(value),
        Claim::Has(_, there) | Claim::Mixed(_, there) => Answer::Contains(there),
        Claim::Listed(_, _, pairs) | Claim::Firsts(_, _, _, pairs) | Claim::Lasts(_, _, _, pairs) =>
            { Answer::Range(Seq::from_vec(Vec::from_clones(alloc, pairs)?)) }
        Claim::Exact(_, (key, value)) => Answer::Locate(Near::Exact(key, value)),
        Claim::Between(_, (k, v), (l, w)) => Answer::Locate(Near::Between(k, v, l, w)),
        Claim::Smaller(_, (key, value)) => Answer::Locate(Near::Smaller(key, value)),
        Claim::Larger(_, (key, value)) => Answer::Locate(Near::Larger(key, value)),
    })
}

/// The receipt of this number with these reads.
pub fn receipt(
    alloc: Global,
    number: u64,
    claims: &[Claim],
) -> Result<Receipt<u64, u64>, AllocError> {
    let mut reads: Vec<Recorded<u64, u64>> = Vec::new(alloc);
    for claim in claims {
        reads.push((query(*claim), answer(alloc, *claim)?))?;
    }
    Ok(Receipt {
        number,
        reads: Seq::from_vec(reads),
    })
}
