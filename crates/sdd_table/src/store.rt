//! Lending the value of an item out of a store.

ghost use Rattle.std.specs.Prelude.{◌≡◌, ◌↔◌, ℕ, Some, IfSome, IsSome};
ghost use Rattle.std.specs.Borrow.{Lends, LendsIf, sem};
ghost use Rattle.sdd_table.specs.State.{State, value_at};
ghost use Rattle.sdd_table.specs.Place.{IsShared, HasItem, HasOneOwner};

/// A store that lends the value of an item for writing.
pub trait Store<T> {
    /// The store as clauses see it.
    ghost stored: { Self → State T };

    /// The store with another value in a slot.
    ghost with_stored: { ℕ → T → Self → Self };

    /// The value in slot `i`; once the borrow is over, the slot has what was last written.
    fn item_mut(&mut self, i: usize) -> &mut T
        requires { HasItem (stored self.old) i }
        ensures* lends { sem 𝓛 (Lends Self.row T.row self.entry result (λ v. with_stored i v self.entry.now)) }
        ensures value { value_at (stored self.old) i ≡ Some result.now };

    /// The same where the item in slot `i` has one owner alone.
    fn lone_mut(&mut self, i: usize) -> Option<&mut T>
        requires { IsShared (stored self.old) i }
        ensures* lends { sem 𝓛 (LendsIf Self.row T.row self.entry result (λ v. with_stored i v self.entry.now) self.entry.now) }
        ensures value { IfSome result (λ v. value_at (stored self.old) i ≡ Some v.now) }
        ensures sole { IsSome result ↔ HasOneOwner (stored self.old) i };
}
