//! The single steps of the reclamation core, as plain data.
//!
//! A [`State`] holds what participants have published and loaded, the cells, and the items with their owners. A
//! [`Step`] is one indivisible event of one participant. [`apply`] answers the next state if and only if the step is
//! enabled. Whatever steps are taken, in whatever order: what an open guard has loaded isn't reclaimed, and is
//! as it was when it was loaded ([`State::is_safe`], and the [`laws`]).
#![tactic(auto)]

mod effect;
mod enabled;
mod item;
pub mod laws;
mod participant;
mod seq;
mod settling;
mod snapshot;
mod state;
mod step;

pub use item::{Cell, Item, ItemState};
pub use participant::{Loaded, Participant, Phase, Seen};
pub use seq::Seq;
pub use state::{State, apply};
pub use step::Step;
