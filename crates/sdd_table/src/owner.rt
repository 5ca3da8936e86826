//! Owners of items. They must be consumed: given back, put into a cell, or moved into an item.

ghost use Rattle.std.specs.Prelude.{◌≡◌, Some};
ghost use Rattle.sdd_table.specs.Tokens.{kept_slot, loaded_slot, shared_slot};

use crate::loaded::Loaded;
use crate::tokens;
use std::marker::PhantomData;

/// The one owner of an item.
pub struct Owned<T> {
    pub(crate) slot: usize,
    pub(crate) of: PhantomData<T>,
}

/// One of the owners of an item.
pub struct Shared<T> {
    pub(crate) slot: usize,
    pub(crate) of: PhantomData<T>,
}

/// One of the owners of an item, as an item of the same type keeps it: without the type, which would lead back to itself.
/// It must be consumed by [`into_shared`](Kept::into_shared).
pub struct Kept {
    pub(crate) slot: usize,
}

impl Kept {
    /// Keeps an owner.
    pub fn of<T>(shared: Shared<T>) -> Kept
        ensures { kept_slot result ≡ shared_slot shared }
    {
        let Shared { slot, of: _ } = shared;
        Kept { slot }
    }

    /// Where its item is. Condition on what is done with it: the item is one of this type.
    pub fn loaded<T>(&self) -> Loaded<T>
        ensures { loaded_slot result ≡ Some (kept_slot self.now) }
    {
        tokens::loaded_at(Some(self.slot))
    }

    /// The owner that was kept. Condition on what is done with it: its item is one of this type.
    pub fn into_shared<T>(self) -> Shared<T>
        ensures { shared_slot result ≡ kept_slot self }
    {
        let Kept { slot } = self;
        tokens::shared_at(slot)
    }
}
