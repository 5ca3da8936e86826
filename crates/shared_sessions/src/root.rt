//! The cell that names the present version, for those who read it.

ghost use Rattle.std.specs.Prelude.{◌≡◌};
ghost use Rattle.sdd_domain.specs.Cells.{cell_number};
ghost use Rattle.shared_sessions.specs.Openings.{root_number};

use sdd_domain::atomic_shared::AtomicShared;

/// The cell that names the present version, to be read alone: who has it opens sessions, and can't have the cell name anything
/// else.
#[derive_where(Clone, Copy)]
pub struct Root<'a, T> {
    pub(crate) cell: &'a AtomicShared<T>,
}

impl<'a, T> Root<'a, T> {
    /// Lends a cell to be read.
    pub fn new(cell: &'a AtomicShared<T>) -> Self
        ensures { root_number result ≡ cell_number cell.now }
    {
        Root { cell }
    }
}
