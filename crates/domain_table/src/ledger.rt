//! What a participant notes of the items that it leases, in the memory that it takes when it registers.

ghost use Rattle.std.specs.Prelude.{IfOk, ℕ};

use crate::row::Row;
use std::alloc::{AllocError, Global};
use std::collections::VecDeque;

/// What a participant has leased. It can't be dropped: `free` frees an empty one.
pub struct Ledger<T> {
    pub rows: VecDeque<Row<T>>,
}

impl<T> Ledger<T> {
    ghost use Rattle.domain_table.specs.Ledgers.{IsEmpty};

    /// An empty one, with room for `room` leases.
    pub fn new(alloc: Global, room: usize) -> Result<Ledger<T>, AllocError>
        ensures { IfOk result (IsEmpty room) }
    {
        let rows = VecDeque::with_capacity(alloc, room)?;
        Ok(Ledger { rows })
    }

    /// Frees its memory.
    pub fn free(self)
        requires { (room : ℕ) × IsEmpty room self }
    {
        let Ledger { rows } = self;
        rows.destroy_empty();
    }
}
