//! A schedule of appointments by day, minute and room: a key type and a value type of one's own.
#![tactic(auto)]

mod schedule;

use ordered_index::ScopedIndex;
use schedule::{Appointment, Failure, Schedule, Slot, book, show_day};
use std::alloc::Global;

fn tour<R: Print>(rt: &R, alloc: Global, schedule: &mut Schedule) -> Result<(), Failure> {
    for (day, minute, room, title) in [
        (1u32, 540u32, 1u32, "dentist"),
        (1, 660, 2, "review"),
        (1, 540, 1, "train"),
        (2, 540, 1, "breakfast"),
    ] {
        let slot = Slot { day, minute, room };
        let appointment = Appointment::new(alloc, title, 30)?;
        match book(alloc, schedule, slot, appointment)? {
            Some(number) => println!(rt; "{title}: booked as {number}")?,
            None => println!(rt; "{title}: taken")?,
        }
    }
    show_day(rt, schedule, 1)
}

fn main(rt: HostRuntime) -> Result<(), Failure> {
    let mut scope = ScopedIndex::new(rt.alloc(), 4, 1024)?;
    tour(&rt, rt.alloc(), &mut scope.index)
}
