//! The places of an array of pairs, and the comparisons that its searches count.
//!
//! [`Slots`] are fifteen places: live ones by rising keys, then dead ones, then empty ones. A live
//! [`Place`] has a pair, the slot that it was given when it came in, and a gap, the number of ranks
//! below its own that no pair has; so no edit has to write the ranks of other pairs. A dead one, whose
//! pair was removed or replaced, keeps slot and pair until the places are numbered anew or cut.
//! The row behind them is built one place at a time, with a trait for each kind of call.
//!
//! An array of `leaf_array` has one value of it. Its page shows insertions and a removal of an array.
#![tactic(auto)]

mod place;
mod row;
mod slots;
mod steps;

pub use place::{Place, slot_of};
pub use slots::Slots;
pub use steps::Steps;
