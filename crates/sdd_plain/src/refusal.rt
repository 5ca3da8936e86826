//! Refusals that hand nothing back, of both kinds of place.

use thiserror::Error;

/// No item slot, cell or job place is free.
#[derive(Clone, Copy, PartialEq, Eq, Debug, Error)]
#[error("no slot, cell or job place is free; the place is as it was")]
pub struct NoSlot;

/// The nesting count of the participant is at its end, `2^32 - 1`.
#[derive(Clone, Copy, PartialEq, Eq, Debug, Error)]
#[error("the participant has as many guards open as are counted; it has them still")]
pub struct Nested;
