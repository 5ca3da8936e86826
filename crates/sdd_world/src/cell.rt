//! Cells: numbered words of a place that keep an item and a tag. They must be consumed, as owners.

ghost use Rattle.std.specs.Prelude.{◌≡◌};
ghost use Rattle.sdd_world.specs.Tokens.{raw_cell};

pub use sdd_table::cell::{AtomicOwned, AtomicShared};
use std::marker::PhantomData;

/// A cell that names an item or none, without owning it.
pub struct AtomicRaw<T> {
    pub(crate) cell: usize,
    pub(crate) of: PhantomData<T>,
}

impl<T> AtomicRaw<T> {
    /// The cell of this number.
    pub(crate) fn of_cell(cell: usize) -> AtomicRaw<T>
        ensures { raw_cell result ≡ cell }
    {
        AtomicRaw {
            cell,
            of: PhantomData,
        }
    }
}
