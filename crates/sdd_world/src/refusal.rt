//! Refusals that hand nothing back.

pub use sdd_plain::refusal::{Nested, NoSlot};
use thiserror::Error;

/// A guard is open.
#[derive(Clone, Copy, PartialEq, Eq, Debug, Error)]
#[error("a guard is open; the place is as it was")]
pub struct GuardsOpen;

/// Why the value of an item isn't lent for writing.
#[derive(Clone, Copy, PartialEq, Eq, Debug, Error)]
pub enum NotLent {
    /// A guard is open.
    #[error("a guard is open; the item is as it was")]
    GuardsOpen,
    /// The item has other owners.
    #[error("the item has other owners; it is as it was")]
    NotSole,
}
