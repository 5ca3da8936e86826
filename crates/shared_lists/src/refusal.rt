//! Refusals that hand nothing back.

use thiserror::Error;

/// Why there are no links, or no container.
#[derive(Clone, Copy, PartialEq, Eq, Debug, Error)]
pub enum NotMade {
    /// There is no room for the names of their cells.
    #[error("memory was refused; the place has its cells")]
    Memory,
    /// Too few cells are free.
    #[error("too few cells are free; the place has its cells")]
    NoCell,
}
