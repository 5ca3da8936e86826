//! Lists of items of a place that threads share, without locks.
//!
//! [`Links`] have a cell for each slot of a place, in which is what follows the item of that slot. So each item of the place
//! can be in a list, as a [`LinkedEntry`]: the tag of its link says whether it is clear, marked or deleted. Containers are
//! made of the same links (`shared_containers`).
#![tactic(auto)]

pub mod linked_entry;
pub mod links;
pub mod moves;
pub mod refusal;
pub mod section;
mod tags;

pub use linked_entry::LinkedEntry;
pub use links::{Links, Row};
pub use refusal::NotMade;
pub use section::Section;
