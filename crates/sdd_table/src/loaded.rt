//! What was loaded, without a borrow.

use std::marker::PhantomData;

/// What a cell was found to keep under a guard, as plain data without a borrow: a structure may keep it beside that guard.
/// It names an item or nothing, and has no tag.
#[derive_where(Clone, Copy, PartialEq, Eq)]
pub struct Loaded<T> {
    pub(crate) slot: Option<usize>,
    pub(crate) of: PhantomData<T>,
}
