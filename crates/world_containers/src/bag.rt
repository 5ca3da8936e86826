//! Values in no order.

ghost use Rattle.std.specs.Prelude.{◌≡◌};

use crate::linked_entry::LinkedEntry;
use sdd_world::cell::AtomicShared;
use sdd_world::link::Link;

/// A bag of values, each in an entry of its own, in two parts: the primary keeps at most `ARRAY_LEN` of them, which is 1
/// to 32, and the overflow the others. It takes `ARRAY_LEN + 1` cells, and must be consumed by `retire`. Rust's `Bag` has 32 as the default
/// length; here it is written out.
pub struct Bag<T, const ARRAY_LEN: usize> {
    // The cell of the overflow, and those of the primary, each of which keeps an entry or none.
    pub(crate) cells: Vec<AtomicShared<LinkedEntry<T>>>,
}

/// A bag that is taken apart, one owner after another. It must be consumed by `retire`.
pub struct IntoIter<T, const ARRAY_LEN: usize> {
    pub(crate) bag: Bag<T, ARRAY_LEN>,
}

/// An entry along a walk that lends values: the cell that keeps it, and the position of the walk behind it.
#[derive(Drop)]
pub struct Stop<T> {
    pub(crate) here: Link<LinkedEntry<T>>,
    // The cell of what is left of this list, and the place of the cell of the next one.
    pub(crate) next: Link<LinkedEntry<T>>,
    pub(crate) row: usize,
}

/// A walk along a bag of the place `W`, a `World`, that lends each value for writing. It borrows the place, so that
/// nobody else reads or changes it, and takes no memory.
pub struct IterMut<'a, T, W> {
    pub(crate) place: &'a mut W,
    pub(crate) cells: &'a Vec<AtomicShared<LinkedEntry<T>>>,
    // The place of the cell of the next list, and the cell of what is left of the present one.
    pub(crate) row: usize,
    pub(crate) at: Link<LinkedEntry<T>>,
}

impl<'a, T, W> Drop for IterMut<'a, T, W> {
    /// The place is as the walk left it.
    fn drop(self)
        ensures { self.exit.0.now ≡ self.entry.place.now }
    {
        let IterMut {
            place: _,
            cells: _,
            row: _,
            at,
        } = self;
        drop(at);
    }
}
