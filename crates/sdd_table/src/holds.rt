//! What an item owns, and how it gives that up.

ghost use Rattle.std.specs.Prelude.{◌≡◌, ℕ, List, [], ◌∷◌, map, MatchOption};
ghost use Rattle.sdd_table.specs.Holding.{Hold};
ghost use Rattle.sdd_table.specs.Tokens.{hold_of, kept_slot};

use crate::cell::{AtomicOwned, AtomicShared};
use crate::groups::Group;
use crate::owner::{Kept, Owned, Shared};

/// What an item may own.
pub enum Held<T> {
    Owned(Owned<T>),
    Shared(Shared<T>),
    OwnedCell(AtomicOwned<T>),
    SharedCell(AtomicShared<T>),
    Group(Group),
}

/// An item that hands over what it owns one at a time, and is then consumed.
///
/// A reclaim calls `give_up` until there is no more, and then `end`.
pub trait Holds: Sized {
    /// What the item owns, in the order in which it is handed over.
    ghost holds: { Self → List Hold };

    /// Hands over one owner, cell or owner of a group, or answers that nothing is left.
    fn give_up(&mut self) -> Option<Held<Self>>
        ensures { MatchOption result ((holds self.old ≡ []) × (holds self.new ≡ [])) (λ h. holds self.old ≡ hold_of h ∷ holds self.new) };

    /// Spends the item, which owns nothing any more.
    fn end(self)
        requires { holds self ≡ [] };
}

/// An item that shows the owners which it keeps in a row, so that a place can make one more of each for another item.
pub trait KeepsRow {
    /// The slots of their items, in order.
    ghost kept: { Self → List ℕ };

    /// The owners, in order.
    fn row(&self) -> &[Kept]
        ensures { map kept_slot result.now ≡ kept self.now };
}
