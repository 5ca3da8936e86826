//! Items that hold nothing: numbers, `bool`, `char`, text, and any value that is wrapped as `Plain`.

ghost use Rattle.std.specs.Prelude.{[]};

use crate::holds::{Held, Holds};

/// A value that holds no owners and no cells, whatever its type. A `World<Plain<V>>` needs no impl of `Holds` for
/// `V`.
#[derive(Clone, Copy, PartialEq, Eq, Debug, Drop)]
pub struct Plain<T> {
    pub value: T,
}

impl<T: Drop> Holds for Plain<T> {
    ghost holds = { λ _. [] };

    fn give_up(&mut self) -> Option<Held<Plain<T>>> {
        None
    }

    fn end(self) {}
}

impl Holds for u8 {
    ghost holds = { λ _. [] };

    fn give_up(&mut self) -> Option<Held<u8>> {
        None
    }

    fn end(self) {}
}

impl Holds for u16 {
    ghost holds = { λ _. [] };

    fn give_up(&mut self) -> Option<Held<u16>> {
        None
    }

    fn end(self) {}
}

impl Holds for u32 {
    ghost holds = { λ _. [] };

    fn give_up(&mut self) -> Option<Held<u32>> {
        None
    }

    fn end(self) {}
}

impl Holds for u64 {
    ghost holds = { λ _. [] };

    fn give_up(&mut self) -> Option<Held<u64>> {
        None
    }

    fn end(self) {}
}

impl Holds for u128 {
    ghost holds = { λ _. [] };

    fn give_up(&mut self) -> Option<Held<u128>> {
        None
    }

    fn end(self) {}
}

impl Holds for usize {
    ghost holds = { λ _. [] };

    fn give_up(&mut self) -> Option<Held<usize>> {
        None
    }

    fn end(self) {}
}

impl Holds for i8 {
    ghost holds = { λ _. [] };

    fn give_up(&mut self) -> Option<Held<i8>> {
        None
    }

    fn end(self) {}
}

impl Holds for i16 {
    ghost holds = { λ _. [] };

    fn give_up(&mut self) -> Option<Held<i16>> {
        None
    }

    fn end(self) {}
}

impl Holds for i32 {
    ghost holds = { λ _. [] };

    fn give_up(&mut self) -> Option<Held<i32>> {
        None
    }

    fn end(self) {}
}

impl Holds for i64 {
    ghost holds = { λ _. [] };

    fn give_up(&mut self) -> Option<Held<i64>> {
        None
    }

    fn end(self) {}
}

impl Holds for i128 {
    ghost holds = { λ _. [] };

    fn give_up(&mut self) -> Option<Held<i128>> {
        None
    }

    fn end(self) {}
}

impl Holds for isize {
    ghost holds = { λ _. [] };

    fn give_up(&mut self) -> Option<Held<isize>> {
        None
    }

    fn end(self) {}
}

impl Holds for bool {
    ghost holds = { λ _. [] };

    fn give_up(&mut self) -> Option<Held<bool>> {
        None
    }

    fn end(self) {}
}

impl Holds for char {
    ghost holds = { λ _. [] };

    fn give_up(&mut self) -> Option<Held<char>> {
        None
    }

    fn end(self) {}
}

impl Holds for String {
    ghost holds = { λ _. [] };

    fn give_up(&mut self) -> Option<Held<String>> {
        None
    }

    fn end(self) {}
}
