//! Which place an index is in, which ledger its shares are of, and how many commits it accepts.

ghost use Rattle.std.specs.Prelude.{ℕ};
ghost use Rattle.atomic_table.specs.Seated.{TableId};
ghost use Rattle.sdd_plain.specs.declared.sizes.Sizes.{Sizes};

use std::marker::Brand;
use std::sync::ledger::Ledger;

/// The place of an index, with its sizes, its last number, and the ledger of its shares. What is behind a lock and what is
/// outside it agree on these by their types alone, so each index has a type of its own for them. A caller who needs no name
/// takes `Brand`, and says in its proof, at one call, what it denotes.
pub trait Naming: Ledger {
    ghost place: { TableId × Sizes };

    ghost last: { ℕ };
}

impl Naming for Brand {
    ghost use Rattle.std.specs.Prelude.{[]};

    ghost place = { (record { words = 0; slots = 0; views_name = 0; atom = 0; block = 0; offset = 0; slot_names = [] }, record { participants = 0; slots = 0; cells = 0; jobs = 0 }) };

    ghost last = { 0 };
}
