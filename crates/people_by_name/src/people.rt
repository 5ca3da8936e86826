//! The people, and what changes them: each change writes both orders by one commit.

use ordered_index::{Answer, LocalIndex, NoPlace, Query, Reading, Receipt, Refused, Text, Write};
use std::alloc::{AllocError, Global};
use std::io;
use std::ops::Bound;
use thiserror::Error;

/// A key: that of a person, or that of a name in the secondary index. All persons come before all names.
#[derive(Clone, Debug, PartialEq, Eq, PartialOrd, Ord, Drop)]
pub(crate) enum Key {
    Person(u64),
    Name(Text, u64),
}

/// A value: a person's name, or nothing behind a name.
#[derive(Clone, Debug, PartialEq, Eq, Drop)]
pub(crate) enum Value {
    Name(Text),
    Nothing,
}

pub(crate) type People = LocalIndex<Key, Value, 64>;

#[derive(Debug, Drop, Error)]
pub(crate) enum Failure {
    #[error(transparent)]
    Memory(#[from(alloc)] AllocError),
    #[error(transparent)]
    Output(#[from] io::Error),
    #[error(transparent)]
    NoPlace(#[from] NoPlace),
    #[error(transparent)]
    Refused(#[from] Refused<Key, Value>),
}

// The pair of a person.
fn person(alloc: Global, number: u64, name: &str) -> Result<Write<Key, Value>, AllocError> {
    let name = Text::new(alloc, name)?;
    Ok(Write::Upsert(Key::Person(number), Value::Name(name)))
}

// The pair of a name.
fn name_of(alloc: Global, number: u64, name: &str) -> Result<Write<Key, Value>, AllocError> {
    let name = Text::new(alloc, name)?;
    Ok(Write::Upsert(Key::Name(name, number), Value::Nothing))
}

/// Adds a person, in both orders.
pub(crate) fn add(
    alloc: Global,
    people: &mut People,
    number: u64,
    name: &str,
) -> Result<(), Failure> {
    let by_number = person(alloc, number, name)?;
    let by_name = name_of(alloc, number, name)?;
    let writes = vec![in alloc; by_number, by_name]?;
    let _accepted = people.commit(&Receipt::blank(alloc), writes)?;
    Ok(())
}

// The name of a person; the receipt then has it.
fn read_name(
    reading: &mut Reading<'_, Key, Value, 64>,
    number: u64,
) -> Result<Option<Text>, AllocError> {
    match reading.read(Query::Get(Key::Person(number)))? {
        Answer::Get(Some(Value::Name(name))) => Ok(Some(name)),
        _ => Ok(None),
    }
}

// The name of a person now, and the receipt of this look.
fn looked_up(
    people: &mut People,
    number: u64,
) -> Result<(Option<Text>, Receipt<Key, Value>), Failure> {
    let mut reading = people.reading()?;
    let found = read_name(&mut reading, number)?;
    Ok((found, reading.take_receipt()))
}

/// Gives a person another name, in both orders. It is a conflict if the name was changed since it was read. Answers whether
/// there is such a person.
pub(crate) fn rename(
    alloc: Global,
    people: &mut People,
    number: u64,
    name: &str,
) -> Result<bool, Failure> {
    let (found, receipt) = looked_up(people, number)?;
    let Some(old) = found else {
        return Ok(false);
    };
    let by_number = person(alloc, number, name)?;
    let by_name = name_of(alloc, number, name)?;
    let writes = vec![in alloc; Write::Remove(Key::Name(old, number)), by_number, by_name]?;
    let _accepted = people.commit(&receipt, writes)?;
    Ok(true)
}

// Prints the numbers behind the names from the first key to the last.
fn show<R: Print>(
    rt: &R,
    reading: &Reading<'_, Key, Value, 64>,
    first: &Key,
    last: &Key,
) -> Result<(), Failure> {
    for (key, _) in reading.range(Bound::Included(first), Bound::Included(last)) {
        if let Key::Name(name, number) = key {
            println!(rt; "{name} is {number}")?;
        }
    }
    Ok(())
}

/// Prints the numbers of those who have a name.
pub(crate) fn find<R: Print>(
    rt: &R,
    alloc: Global,
    people: &mut People,
    name: &str,
) -> Result<(), Failure> {
    let first = Key::Name(Text::new(alloc, name)?, 0);
    let last = Key::Name(Text::new(alloc, name)?, u64::MAX);
    let reading = people.reading()?;
    show(rt, &reading, &first, &last)
}
