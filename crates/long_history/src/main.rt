//! An index that is in use for long: each commit keeps the last thousand transactions, so that memory has a bound.
//!
//! `long_history COMMITS` makes that many commits of one upsert each, on a thousand keys in turn.
#![tactic(auto)]

use ordered_index::{LocalIndex, Receipt, Refused, ScopedIndex, Write};
use std::alloc::{AllocError, Global};
use std::{env, io};
use thiserror::Error;

type Counters = LocalIndex<u64, u64, 64>;

const KEYS: u64 = 1000;

const KEPT: u64 = 1000;

#[derive(Debug, Drop, Error)]
enum Failure {
    #[error(transparent)]
    Memory(#[from(alloc)] AllocError),
    #[error(transparent)]
    Output(#[from] io::Error),
    #[error(transparent)]
    Refused(#[from] Refused<u64, u64>),
}

// One commit, and the slots of the version before given back.
fn commit_once(alloc: Global, counters: &mut Counters, commit: u64) -> Result<(), Failure> {
    let writes = vec![in alloc; Write::Upsert(commit % KEYS, commit)]?;
    let _accepted = counters.commit_keeping(&Receipt::blank(alloc), writes, KEPT)?;
    counters.reclaim();
    Ok(())
}

fn commit_all(alloc: Global, counters: &mut Counters, commits: u64) -> Result<(), Failure> {
    for commit in 0..commits {
        commit_once(alloc, counters, commit)?;
    }
    Ok(())
}

fn tell<R: Print>(rt: &R, counters: &Counters, commits: u64) -> Result<(), Failure> {
    let (first, pairs) = counters.base();
    let keys = pairs.len();
    let used = counters.slots_in_use();
    println!(rt;
        "{commits} commits: the base has number {first} and {keys} pairs, {used} slots are in use"
    )?;
    Ok(())
}

fn main(rt: HostRuntime) -> Result<(), Failure> {
    let commits = match env::args(&rt)?.skip(1).next() {
        Some(count) => count.as_str().parse::<u64>().unwrap_or(0),
        None => 0,
    };
    let mut scope = ScopedIndex::new(rt.alloc(), 1, 4096)?;
    commit_all(rt.alloc(), &mut scope.index, commits)?;
    tell(&rt, &scope.index, commits)
}
