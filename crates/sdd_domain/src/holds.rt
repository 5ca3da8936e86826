//! What an item holds, and how it gives that up.

ghost use Rattle.std.specs.Prelude.{◌≡◌, ℕ, List, [], ◌∷◌, MatchOption};
ghost use Rattle.sdd_domain.specs.Holding.{told_of};

use crate::held::Held;

/// An item that hands over the owners that it holds one at a time, and is then consumed.
///
/// Whoever reclaims it calls `give_up` until there is no more, releases what it got, and then calls `end`.
pub trait Holds: Sized {
    /// The owners that it holds, by slot and round, in the order in which they are handed over.
    ghost holds: { Self → List (ℕ × ℕ) };

    /// Hands over one owner, or answers that none is left.
    fn give_up(&mut self) -> Option<Held<Self>>
        ensures { MatchOption result ((holds self.old ≡ []) × (holds self.new ≡ [])) (λ h. holds self.old ≡ told_of h ∷ holds self.new) };

    /// Spends the item, which holds nothing any more.
    fn end(self)
        requires { holds self ≡ [] };
}
