//! Refusals that hand nothing back.

use thiserror::Error;

/// Why a bag wasn't made, or a value wasn't cloned.
#[derive(Clone, Copy, Debug, PartialEq, Eq, Error)]
pub enum NotMade {
    /// There is no memory for it.
    #[error("memory was refused; the place is as it was")]
    Memory,
    /// Too few cells are free.
    #[error("too few cells are free; the place is as it was")]
    NoSlot,
}
