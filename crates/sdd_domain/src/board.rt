//! The table of a place, whose items hold what their type says.

use crate::holds::Holds;
use domain_table::board;
use domain_table::holding::Holding;

/// Items hold what their `Holds` says.
pub struct Told;

impl<T: Holds> Holding<T> for Told {
    ghost holds = { T.holds };
}

/// The table with its memory.
pub(crate) type Board<T> = board::Board<T, Told>;

/// The table as threads see it.
pub(crate) type Words<T> = board::Words<T, Told>;

/// The words of a place, with its sizes.
pub(crate) type Place<'a, T> = board::Place<'a, T, Told>;
