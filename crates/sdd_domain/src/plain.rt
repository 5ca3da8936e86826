//! Items that hold nothing.

ghost use Rattle.std.specs.Prelude.{[]};

use crate::held::Held;
use crate::holds::Holds;

/// A value that holds no owners, whatever its type. A `Domain<Plain<V>>` needs no impl of `Holds` for
/// `V`.
#[derive(Clone, Copy, PartialEq, Eq, Debug, Drop)]
pub struct Plain<T> {
    pub value: T,
}

impl<T: Drop> Holds for Plain<T> {
    ghost holds = { λ _. [] };

    fn give_up(&mut self) -> Option<Held<Plain<T>>> {
        None
    }

    fn end(self) {}
}

impl Holds for u64 {
    ghost holds = { λ _. [] };

    fn give_up(&mut self) -> Option<Held<u64>> {
        None
    }

    fn end(self) {}
}
