//! Names of cells, as plain data.

ghost use Rattle.std.specs.Prelude.{◌≡◌};
ghost use Rattle.sdd_table.specs.Tokens.{link_cell, shared_cell};

use crate::cell::AtomicShared;
use crate::tokens;

/// Which cell of shared items it is, as plain data: what lets a call take a place and the cell of an item in it. It keeps
/// nothing.
pub struct Link<T> {
    cell: AtomicShared<T>,
}

impl<T> Link<T> {
    /// The name of a cell.
    pub fn of(cell: &AtomicShared<T>) -> Link<T>
        ensures { link_cell result ≡ shared_cell cell.now }
    {
        Link {
            cell: tokens::shared_cell_at(cell.cell),
        }
    }

    /// The cell that it names.
    pub fn cell(&self) -> &AtomicShared<T>
        ensures { shared_cell result.now ≡ link_cell self.now }
    {
        &self.cell
    }
}

impl<T> Drop for Link<T> {
    fn drop(self) {
        let Link { cell } = self;
        let AtomicShared { cell: _, of: _ } = cell;
    }
}
