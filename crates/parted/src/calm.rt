//! A badge of a table that threads may share.
//!
//! An [`atomic_table::Badge`] is `Send` and not `Sync`, so a value with a badge inside can't be read by many. Through a
//! `&` a [`Calm`] does nothing, and so it can.

ghost use Rattle.std.specs.Prelude.{◌≡◌};
ghost use base.Fml.{ftrue};

use atomic_table::Badge;
use std::marker::Model;

/// A badge that lies still. Whoever has it gets the badge back; whoever borrows it has nothing of the badge.
pub struct Calm<V> {
    /// The badge, for clauses.
    pub badge: Badge<V>,
}

impl<V> Model for Calm<V> {
    ghost also_owns = { λ _. ftrue };

    ghost also_shares = { λ _ _ _. ftrue };
}

unsafe impl<V> Send for Calm<V> {}

unsafe impl<V> Sync for Calm<V> {}

impl<V> Calm<V> {
    /// A badge, at rest.
    pub fn new(badge: Badge<V>) -> Calm<V>
        ensures { result.badge ≡ badge }
    {
        Calm { badge }
    }

    /// The badge again.
    pub fn into_badge(self) -> Badge<V>
        ensures { result ≡ self.badge }
    {
        let Calm { badge } = self;
        badge
    }
}
