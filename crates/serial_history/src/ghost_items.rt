//! A list that contracts alone see.

ghost use Rattle.std.specs.Prelude.{◌≡◌, List};
ghost use base.Fml.{ftrue};

use std::marker::{Model, PhantomData};

/// A list of items, for contracts alone: it has no bytes, and its calls do nothing when they run. A type that keeps less than
/// its clauses say keeps the rest in one, in a private field.
#[derive(Drop)]
pub struct GhostItems<T> {
    of: PhantomData<T>,
    pub ghost items: { List T },
}

impl<T> Model for GhostItems<T> {
    ghost also_owns = { λ _. ftrue };
}

// It owns nothing.
unsafe impl<T> Send for GhostItems<T> {}

unsafe impl<T> Sync for GhostItems<T> {}

impl<T> GhostItems<T> {
    /// The items of a slice.
    pub fn of(items: &[T]) -> Self
        ensures { result.items ≡ items.now }
    {
        let _ = items;
        GhostItems { of: PhantomData }
    }

    /// The same items once more.
    pub fn again(&self) -> Self
        ensures { result.items ≡ self.now.items }
    {
        GhostItems { of: PhantomData }
    }
}
