//! The first example: an index is written, read and written again, and what was read is audited.
#![tactic(auto)]

use ordered_index::{LocalIndex, NoPlace, Query, Reading, Receipt, Refused, ScopedIndex, Write};
use std::alloc::AllocError;
use std::io;
use std::ops::Bound;
use thiserror::Error;

#[derive(Debug, Drop, Error)]
enum Failure {
    #[error(transparent)]
    Memory(#[from(alloc)] AllocError),
    #[error(transparent)]
    Output(#[from] io::Error),
    #[error(transparent)]
    NoPlace(#[from] NoPlace),
    #[error(transparent)]
    Refused(#[from] Refused<u64, u64>),
}

// Looks at a list, and records one of the reads.
fn look<R: Print>(rt: &R, reading: &mut Reading<'_, u64, u64, 64>) -> Result<(), Failure> {
    let value = reading.get(&1); // a look-up that isn't recorded
    println!(rt; "1 has {value:?}")?;
    let answer = reading.read(Query::Locate(3))?; // recorded: the pair with key 3, or its neighbours
    println!(rt; "3 is {answer:?}")?;
    for (key, value) in reading.range(Bound::Included(&1), Bound::Unbounded) {
        println!(rt; "{key} {value}")?;
    }
    Ok(())
}

// Reads the present list, and gives what was read, and what it answered.
fn read<R: Print>(
    rt: &R,
    index: &mut LocalIndex<u64, u64, 64>,
) -> Result<Receipt<u64, u64>, Failure> {
    let mut reading = index.reading()?; // its session closes where it is dropped
    look(rt, &mut reading)?;
    Ok(reading.take_receipt())
}

fn main(rt: HostRuntime) -> Result<(), Failure> {
    let alloc = rt.alloc();
    let mut scope = ScopedIndex::new(alloc, 16, 4096)?; // 16 sessions at a time, 4,096 slots
    let index = &mut scope.index;
    let writes = vec![in alloc; Write::Insert(1, 10), Write::Insert(4, 40)]?;
    index.commit(&Receipt::blank(alloc), writes)?; // number 1, resting on no reads
    let receipt = read(&rt, index)?;
    let writes = vec![in alloc; Write::Upsert(5, 30)]?;
    index.commit(&receipt, writes)?; // a conflict if an answer no longer holds
    let audit = index.audit(&receipt)?; // Yes: it was right at its number
    println!(rt; "{audit:?}")?;
    index.reclaim();
    Ok(())
}
