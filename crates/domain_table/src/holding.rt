//! What items hold, as the rule of a table sees it.

ghost use Rattle.std.specs.Prelude.{ℕ, List};

/// Which owners items hold. It is a fact for the rule alone: nothing here runs.
pub trait Holding<T> {
    /// The owners that an item holds, by slot and round, in the order in which they are released.
    ghost holds: { T → List (ℕ × ℕ) };
}
