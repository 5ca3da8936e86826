//! What a follower does: it copies the leader's base once, and then makes the transactions that it hasn't made yet.

use ordered_index::{
    BaseRefused, CheckpointRefused, LocalIndex, NoPlace, Receipt, Refused, ScopedIndex,
    SinceRefused, Transaction, Write,
};
use std::alloc::{AllocError, Global};
use std::io;
use thiserror::Error;

/// Prices by the numbers of articles.
pub(crate) type Prices = LocalIndex<u64, u64, 64>;

/// The same, closed where they are dropped.
pub(crate) type Scope = ScopedIndex<u64, u64, 64>;

#[derive(Debug, Drop, Error)]
pub(crate) enum Failure {
    #[error(transparent)]
    Memory(#[from(alloc)] AllocError),
    #[error(transparent)]
    Output(#[from] io::Error),
    #[error(transparent)]
    NoPlace(#[from] NoPlace),
    #[error(transparent)]
    Refused(#[from] Refused<u64, u64>),
    #[error(transparent)]
    NoCheckpoint(#[from] CheckpointRefused),
    #[error(transparent)]
    NoBase(#[from] BaseRefused<u64, u64>),
    #[error(transparent)]
    NoFeed(#[from] SinceRefused),
}

/// Sets a price, by a commit of its own.
pub(crate) fn put(
    alloc: Global,
    prices: &mut Prices,
    article: u64,
    price: u64,
) -> Result<(), Failure> {
    let writes = vec![in alloc; Write::Upsert(article, price)]?;
    let _accepted = prices.commit(&Receipt::blank(alloc), writes)?;
    Ok(())
}

/// A follower that has the leader's base.
pub(crate) fn begin(alloc: Global, leader: &Prices) -> Result<Scope, Failure> {
    let (number, pairs) = leader.base();
    let copy = pairs.to_vec(alloc)?;
    Ok(ScopedIndex::from_base(alloc, number, copy, 4, 1024)?)
}

// The number of an index's list.
fn number_of(prices: &mut Prices) -> Result<u64, NoPlace> {
    Ok(prices.reading()?.number())
}

// Makes the writes of a transaction.
fn repeat(
    alloc: Global,
    follower: &mut Prices,
    transaction: &Transaction<u64, u64>,
) -> Result<u64, Failure> {
    let writes = transaction.writes.as_slice().to_vec(alloc)?;
    Ok(follower.commit(&Receipt::blank(alloc), writes)?.number)
}

/// Makes what the leader made since, and returns how many transactions that were.
pub(crate) fn follow<R: Print>(
    rt: &R,
    alloc: Global,
    leader: &Prices,
    follower: &mut Prices,
) -> Result<u64, Failure> {
    let number = number_of(follower)?;
    let mut made = 0u64;
    for transaction in leader.since(number)? {
        let reached = repeat(alloc, follower, transaction)?;
        println!(rt; "made {reached}")?;
        made = made.saturating_add(1);
    }
    Ok(made)
}

/// Prints an index's number and its pairs.
pub(crate) fn show<R: Print>(rt: &R, name: &str, prices: &mut Prices) -> Result<(), Failure> {
    let reading = prices.reading()?;
    let number = reading.number();
    println!(rt; "{name}, at {number}:")?;
    for (article, price) in reading.iter() {
        println!(rt; "{article} {price}")?;
    }
    Ok(())
}
