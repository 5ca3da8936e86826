//! A count that contracts alone see.

ghost use Rattle.std.specs.Prelude.{◌≡◌, ℕ, ◌+◌};
ghost use Rattle.std.specs.Borrow.{ftrue};

use std::marker::Model;

/// A count, for contracts alone: it has no bytes, and its calls do nothing when they run. A type whose clauses promise
/// that something happens only where this count rose keeps it in a private field, and says who may raise it.
#[derive(Drop)]
pub struct Tally {
    pub ghost count: { ℕ },
}

impl Model for Tally {
    ghost also_owns = { λ _. ftrue };
}

// It owns nothing.
unsafe impl Send for Tally {}

impl Tally {
    /// Nothing is counted yet.
    pub fn new() -> Tally
        ensures { result.count ≡ 0 }
    {
        Tally {}
    }

    /// Counts one more.
    pub fn raise(&mut self)
        ensures { self.new.count ≡ self.old.count + 1 }
    {}
}
