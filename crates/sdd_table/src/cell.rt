//! Cells: numbered words of a place that keep an item and a tag. They must be consumed, as owners.

use std::marker::PhantomData;

/// A cell that keeps an `Owned` item or none.
pub struct AtomicOwned<T> {
    pub(crate) cell: usize,
    pub(crate) of: PhantomData<T>,
}

/// A cell that keeps a `Shared` item or none.
pub struct AtomicShared<T> {
    pub(crate) cell: usize,
    pub(crate) of: PhantomData<T>,
}
