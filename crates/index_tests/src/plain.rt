//! Answers of plain lists, for tests: what an index is compared with.

use local_index::{Answer, Near, Query, Seq};
use std::alloc::{AllocError, Global};
use std::ops::Bound;

/// The answer of a list by rising keys to a query.
pub(crate) fn answer(
    alloc: Global,
    pairs: &[(u64, u64)],
    query: &Query<u64>,
) -> Result<Answer<u64, u64>, AllocError> {
    match query {
        Query::Get(key) => Ok(Answer::Get(value_of(pairs, *key))),
        Query::Contains(key) => Ok(Answer::Contains(value_of(pairs, *key).is_some())),
        Query::Range(lower, upper) => {
            let found = between(alloc, pairs, lower, upper)?;
            Ok(Answer::Range(Seq::from_vec(found)))
        }
        Query::Locate(key) => Ok(Answer::Locate(near(pairs, *key))),
        Query::First(lower, upper, count) => {
            let mut found = between(alloc, pairs, lower, upper)?;
            found.truncate(*count);
            Ok(Answer::Range(Seq::from_vec(found)))
        }
        Query::Last(lower, upper, count) => {
            let found = between(alloc, pairs, lower, upper)?;
            let from = found.len().saturating_sub(*count);
            let last = Vec::from_clones(alloc, &found[from..])?;
            Ok(Answer::Range(Seq::from_vec(last)))
        }
    }
}

fn value_of(pairs: &[(u64, u64)], key: u64) -> Option<u64> {
    for pair in pairs {
        if pair.0 == key {
            return Some(pair.1);
        }
    }
    None
}

fn between(
    alloc: Global,
    pairs: &[(u64, u64)],
    lower: &Bound<u64>,
    upper: &Bound<u64>,
) -> Result<Vec<(u64, u64)>, AllocError> {
    let mut found = Vec::new(alloc);
    for pair in pairs {
        let from = match lower {
            Bound::Included(low) => *low <= pair.0,
            Bound::Excluded(low) => *low < pair.0,
            Bound::Unbounded => true,
        };
        let to = match upper {
            Bound::Included(high) => pair.0 <= *high,
            Bound::Excluded(high) => pair.0 < *high,
            Bound::Unbounded => true,
        };
        if from && to {
            found.push(*pair)?;
        }
    }
    Ok(found)
}

fn near(pairs: &[(u64, u64)], key: u64) -> Near<u64, u64> {
    let mut smaller = None;
    let mut larger = None;
    for pair in pairs {
        if pair.0 == key {
            return Near::Exact(pair.0, pair.1);
        }
        if pair.0 < key {
            smaller = Some(*pair);
        } else if larger.is_none() {
            larger = Some(*pair);
        }
    }
    match (smaller, larger) {
        (Some((k, v)), Some((l, w))) => Near::Between(k, v, l, w),
        (Some((k, v)), None) => Near::Smaller(k, v),
        (None, Some((l, w))) => Near::Larger(l, w),
        (None, None) => Near::Empty,
    }
}
