//! A list that contracts alone see.

ghost use Rattle.std.specs.Prelude.{◌≡◌, ℕ, List, [], ◌∷◌, ◌++◌, drop, set};
ghost use Rattle.std.specs.Borrow.{ftrue};

use std::marker::Model;

/// A list of numbers, for contracts alone: it has no bytes, and its calls do nothing when they run. A type that keeps less
/// than its clauses say, as the ends of a chain alone, keeps the rest in one, in a private field.
#[derive(Drop)]
pub struct GhostList {
    pub ghost items: { List ℕ },
}

impl Model for GhostList {
    ghost also_owns = { λ _. ftrue };
}

impl GhostList {
    /// Nothing is in it yet.
    pub fn new() -> GhostList
        ensures { result.items ≡ [] }
    {
        GhostList {}
    }

    /// Adds a number at the end.
    pub fn push(&mut self, number: u64)
        ensures { self.new.items ≡ self.old.items ++ number ∷ [] }
    {
        let _ = number;
    }

    /// Takes the first number out, if there is one.
    pub fn remove_first(&mut self)
        ensures { self.new.items ≡ drop 1 self.old.items }
    {}

    /// Puts another number in place of the first one, if there is one.
    pub fn set_first(&mut self, number: u64)
        ensures { self.new.items ≡ set self.old.items 0 number }
    {
        let _ = number;
    }
}
