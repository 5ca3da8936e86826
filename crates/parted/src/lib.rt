//! Boxed values that many read at once, each by a part of the right to read, and that are whole again once all parts are returned.
//!
//! [`freeze`] makes of a box its [`Deed`] and all of its parts. Who has a [`Part`] reads the value, in any thread.
//! [`thaw`] makes the box again, of the deed and all parts. A part can be lent to a [`Life`]: then whoever
//! borrows a token of that life reads the value too, and the part is returned when the life is over.
//!
//! Beside them are values of the same kind, which cost nothing when they run: a [`Calm`], by which a badge of a table can
//! be read by many; a [`Tally`] and a [`GhostList`], a count and a list that contracts alone see.
#![tactic(auto)]

pub mod calm;
pub mod ghost_list;
pub mod lent;
pub mod life;
pub mod one;
pub mod part;
mod raw;
pub mod tally;
#[cfg(test)]
mod tests;

pub use calm::Calm;
pub use ghost_list::GhostList;
pub use lent::Lent;
pub use life::{Ended, Life, Pledge};
pub use one::One;
pub use part::{Part, freeze, thaw};
pub use raw::{Deed, Seen, share};
pub use tally::Tally;
