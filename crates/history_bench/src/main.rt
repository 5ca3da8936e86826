//! Commits of one kind, all of which a history keeps, for `bench/history` to see how many bytes it keeps of each.
//!
//! `history_bench KIND COMMITS` makes that many commits on a list of ten thousand pairs, which they leave as it is: `empty` ones
//! without writes, `upsert` ones of one upsert, or `ranged` ones of one upsert that rest on a receipt with a range of all pairs.
#![tactic(auto)]

use local_index::{LocalIndex, NoPlace, Query, Receipt, Refused, ScopedIndex, SinceRefused, Write};
use std::alloc::{AllocError, Global};
use std::ops::Bound;
use std::{env, io};
use thiserror::Error;

type Numbers = LocalIndex<u64, u64, 64>;

const PAIRS: u64 = 10_000;

#[derive(Debug, Drop, Error)]
enum Failure {
    #[error(transparent)]
    Memory(#[from(alloc)] AllocError),
    #[error(transparent)]
    Output(#[from] io::Error),
    #[error(transparent)]
    NoPlace(#[from] NoPlace),
    #[error(transparent)]
    Refused(#[from] Refused<u64, u64>),
    #[error(transparent)]
    NoFeed(#[from] SinceRefused),
}

#[derive(Clone, Copy)]
enum Kind {
    Empty,
    Upsert,
    Ranged,
}

// The writes that make the list: each key has itself as value.
fn all_pairs(alloc: Global) -> Result<Vec<Write<u64, u64>>, AllocError> {
    let mut writes = Vec::new(alloc);
    for key in 0..PAIRS {
        writes.push(Write::Upsert(key, key))?;
    }
    Ok(writes)
}

// What each commit rests on.
fn rested_on(
    alloc: Global,
    numbers: &mut Numbers,
    kind: Kind,
) -> Result<Receipt<u64, u64>, Failure> {
    match kind {
        Kind::Ranged => {
            let mut reading = numbers.reading()?;
            let _pairs = reading.read(Query::Range(Bound::Unbounded, Bound::Unbounded))?;
            Ok(reading.take_receipt())
        }
        _ => Ok(Receipt::blank(alloc)),
    }
}

// One commit, and the slots of the version before given back.
fn commit_once(
    alloc: Global,
    numbers: &mut Numbers,
    receipt: &Receipt<u64, u64>,
    kind: Kind,
) -> Result<(), Failure> {
    let writes = match kind {
        Kind::Empty => Vec::new(alloc),
        _ => vec![in alloc; Write::Upsert(0, 0)]?,
    };
    let _accepted = numbers.commit(receipt, writes)?;
    numbers.reclaim();
    Ok(())
}

// Makes the list by one commit, and commits of a kind after it: how many of these are kept.
fn commit_all(
    alloc: Global,
    numbers: &mut Numbers,
    kind: Kind,
    commits: u64,
) -> Result<u64, Failure> {
    let writes = all_pairs(alloc)?;
    let _accepted = numbers.commit(&Receipt::blank(alloc), writes)?;
    let receipt = rested_on(alloc, numbers, kind)?;
    for _commit in 0..commits {
        commit_once(alloc, numbers, &receipt, kind)?;
    }
    Ok(numbers.since(1)?.len() as u64)
}

fn main(rt: HostRuntime) -> Result<(), Failure> {
    let mut kind = Kind::Empty;
    let mut commits = 0u64;
    for word in env::args(&rt)?.skip(1) {
        match word.as_str() {
            "empty" => kind = Kind::Empty,
            "upsert" => kind = Kind::Upsert,
            "ranged" => kind = Kind::Ranged,
            count => commits = count.parse::<u64>().unwrap_or(0),
        }
    }
    let mut scope = ScopedIndex::new(rt.alloc(), 1, 4096)?;
    let kept = commit_all(rt.alloc(), &mut scope.index, kind, commits)?;
    println!(rt; "{kept} commits are kept")?;
    Ok(())
}
