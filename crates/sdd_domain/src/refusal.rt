//! Refusals of a place that threads share.

use thiserror::Error;

/// Why no participant was registered. Nothing has changed.
#[derive(Clone, Copy, PartialEq, Eq, Debug, Error)]
pub enum RegisterRefused {
    /// Every participant of the place was registered when it was tried.
    #[error("every participant of the place was registered; it is as it was")]
    Full,
    /// There was no memory for what the participant keeps.
    #[error("memory was refused; nobody more is registered")]
    Memory,
}
