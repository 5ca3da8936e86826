//! An item in its box, frozen and thawed.

ghost use Rattle.std.specs.Prelude.{◌≡◌, ◌^◌, IsSome, IsSomeAnd};
ghost use Rattle.std.specs.Mem.{manually_drop_value};

use crate::board::Stored;
use parted::{Deed, Part, freeze, thaw};
use std::alloc::Global;
use std::mem::ManuallyDrop;

/// Puts an item into an empty box, and freezes it: the right to have the box back, and all parts of the right to read.
pub(crate) fn store<T>(
    mut room: Box<Stored<T>>,
    item: T,
) -> (Deed<Stored<T>, Global>, Part<Stored<T>>)
    ensures round { (result.1.life.id ≡ result.0.life) × (result.1.life.count ≡ 2 ^ 63) }
    ensures there { IsSomeAnd result.0.value (λ m. manually_drop_value m ≡ item) }
    ensures value { IsSomeAnd result.1.seen.value (λ m. manually_drop_value m ≡ item) }
{
    *room = Some(unsafe { ManuallyDrop::new_unchecked(item) });
    freeze(room)
}

/// The item, and its box, of all parts of the right to read it.
pub fn take_out<T>(deed: Deed<Stored<T>, Global>, all: Part<Stored<T>>) -> (T, Box<Stored<T>>)
    requires { (all.life.id ≡ deed.life) × (all.life.count ≡ 2 ^ 63) × IsSome deed.value }
    ensures { IsSomeAnd deed.value (λ m. manually_drop_value m ≡ result.0) }
{
    let mut room = thaw(deed, all);
    match room.take() {
        Some(item) => (ManuallyDrop::into_inner(item), room),
        None => unreachable!(),
    }
}
