//! The schedule, and what it refuses.

use ordered_index::{Answer, LocalIndex, NoPlace, Query, Reading, Receipt, Refused, Text, Write};
use std::alloc::{AllocError, Global};
use std::io;
use std::ops::Bound;
use thiserror::Error;

/// When and where an appointment begins. Slots are in order of day, minute and room.
#[derive(Clone, Debug, PartialEq, Eq, PartialOrd, Ord, Drop)]
pub(crate) struct Slot {
    pub(crate) day: u32,
    pub(crate) minute: u32,
    pub(crate) room: u32,
}

/// What an appointment is, and how many minutes it takes.
#[derive(Clone, Debug, PartialEq, Eq, Drop)]
pub(crate) struct Appointment {
    title: Text,
    minutes: u32,
}

impl Appointment {
    /// One with this title. Fails only if an allocation fails.
    pub(crate) fn new(alloc: Global, title: &str, minutes: u32) -> Result<Self, AllocError> {
        let title = Text::new(alloc, title)?;
        Ok(Appointment { title, minutes })
    }
}

/// Appointments by their slots.
pub(crate) type Schedule = LocalIndex<Slot, Appointment, 64>;

#[derive(Debug, Drop, Error)]
pub(crate) enum Failure {
    #[error(transparent)]
    Memory(#[from(alloc)] AllocError),
    #[error(transparent)]
    Output(#[from] io::Error),
    #[error(transparent)]
    NoPlace(#[from] NoPlace),
    #[error(transparent)]
    Refused(#[from] Refused<Slot, Appointment>),
}

// Whether nobody has the slot; the receipt then says so.
fn is_free(
    reading: &mut Reading<'_, Slot, Appointment, 64>,
    slot: &Slot,
) -> Result<bool, AllocError> {
    match reading.read(Query::Contains(slot.clone()?))? {
        Answer::Contains(is_taken) => Ok(!is_taken),
        _ => Ok(false),
    }
}

// Whether a slot is free now, and the receipt of this look.
fn looked(
    schedule: &mut Schedule,
    slot: &Slot,
) -> Result<(bool, Receipt<Slot, Appointment>), Failure> {
    let mut reading = schedule.reading()?;
    let free = is_free(&mut reading, slot)?;
    Ok((free, reading.take_receipt()))
}

/// Books an appointment: the number of the commit, or `None` if somebody has the slot.
pub(crate) fn book(
    alloc: Global,
    schedule: &mut Schedule,
    slot: Slot,
    appointment: Appointment,
) -> Result<Option<u64>, Failure> {
    let (free, receipt) = looked(schedule, &slot)?;
    if !free {
        return Ok(None);
    }
    let writes = vec![in alloc; Write::Insert(slot, appointment)]?;
    Ok(Some(schedule.commit(&receipt, writes)?.number))
}

// Prints the appointments of a day.
fn show<R: Print>(
    rt: &R,
    reading: &Reading<'_, Slot, Appointment, 64>,
    first: &Slot,
    end: &Slot,
) -> Result<(), Failure> {
    for (slot, appointment) in reading.range(Bound::Included(first), Bound::Excluded(end)) {
        let Slot { day, minute, room } = slot;
        let title = appointment.title.as_str();
        let minutes = appointment.minutes;
        println!(rt; "{day}: {minute} in room {room}: {title}, {minutes} minutes")?;
    }
    Ok(())
}

/// Prints the appointments of a day, in their order.
pub(crate) fn show_day<R: Print>(rt: &R, schedule: &mut Schedule, day: u32) -> Result<(), Failure> {
    let first = Slot {
        day,
        minute: 0,
        room: 0,
    };
    let end = Slot {
        day: day.saturating_add(1),
        minute: 0,
        room: 0,
    };
    let reading = schedule.reading()?;
    show(rt, &reading, &first, &end)
}
