//! Owners and cells by their numbers: what a place makes of a number, reads and spends.
//!
//! Only a crate that keeps a place uses this, and `sdd_world` doesn't pass it on: nobody above makes an owner of a
//! number.

ghost use Rattle.std.specs.Prelude.{◌≡◌};
ghost use Rattle.sdd_table.specs.Tokens.{owned_slot, shared_slot, loaded_slot, owned_cell, shared_cell};

use crate::cell::{AtomicOwned, AtomicShared};
use crate::loaded::Loaded;
use crate::owner::{Owned, Shared};
use std::marker::PhantomData;

/// The owner of the item in `slot`.
pub fn owned_at<T>(slot: usize) -> Owned<T>
    ensures { owned_slot result ≡ slot }
{
    Owned {
        slot,
        of: PhantomData,
    }
}

/// The slot of its item.
pub fn slot_of_owned<T>(owned: &Owned<T>) -> usize
    ensures { result ≡ owned_slot owned.now }
{
    owned.slot
}

/// The slot of its item; the owner is spent.
pub fn spend_owned<T>(owned: Owned<T>) -> usize
    ensures { result ≡ owned_slot owned }
{
    let Owned { slot, of: _ } = owned;
    slot
}

/// An owner of the item in `slot`.
pub fn shared_at<T>(slot: usize) -> Shared<T>
    ensures { shared_slot result ≡ slot }
{
    Shared {
        slot,
        of: PhantomData,
    }
}

/// The slot of its item.
pub fn slot_of_shared<T>(shared: &Shared<T>) -> usize
    ensures { result ≡ shared_slot shared.now }
{
    shared.slot
}

/// The slot of its item; the owner is spent.
pub fn spend_shared<T>(shared: Shared<T>) -> usize
    ensures { result ≡ shared_slot shared }
{
    let Shared { slot, of: _ } = shared;
    slot
}

/// The cell of this number.
pub fn owned_cell_at<T>(cell: usize) -> AtomicOwned<T>
    ensures { owned_cell result ≡ cell }
{
    AtomicOwned {
        cell,
        of: PhantomData,
    }
}

/// The number of the cell.
pub fn number_of_owned_cell<T>(token: &AtomicOwned<T>) -> usize
    ensures { result ≡ owned_cell token.now }
{
    token.cell
}

/// The number of the cell, which is spent.
pub fn spend_owned_cell<T>(token: AtomicOwned<T>) -> usize
    ensures { result ≡ owned_cell token }
{
    let AtomicOwned { cell, of: _ } = token;
    cell
}

/// The cell of this number.
pub fn shared_cell_at<T>(cell: usize) -> AtomicShared<T>
    ensures { shared_cell result ≡ cell }
{
    AtomicShared {
        cell,
        of: PhantomData,
    }
}

/// The number of the cell.
pub fn number_of_shared_cell<T>(token: &AtomicShared<T>) -> usize
    ensures { result ≡ shared_cell token.now }
{
    token.cell
}

/// The number of the cell, which is spent.
pub fn spend_shared_cell<T>(token: AtomicShared<T>) -> usize
    ensures { result ≡ shared_cell token }
{
    let AtomicShared { cell, of: _ } = token;
    cell
}

/// What was loaded out of a cell that keeps this.
pub fn loaded_at<T>(slot: Option<usize>) -> Loaded<T>
    ensures { loaded_slot result ≡ slot }
{
    Loaded {
        slot,
        of: PhantomData,
    }
}

/// The slot of what was loaded, or none.
pub fn slot_of_loaded<T>(loaded: &Loaded<T>) -> Option<usize>
    ensures { result ≡ loaded_slot loaded.now }
{
    loaded.slot
}
