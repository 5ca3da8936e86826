//! The part of an owner.
ghost use Rattle.std.specs.Prelude.{◌≡◌};

use crate::part::Part;

/// A part that is one by its type, so that whoever counts owners counts parts. It can't be dropped.
pub struct One<T> {
    /// The part.
    pub part: Part<T>,
    ghost one: { part.life.count ≡ 1 },
}

impl<T> One<T> {
    /// An owner's part of a part that is one.
    pub fn from_part(part: Part<T>) -> One<T>
        requires { part.life.count ≡ 1 }
        ensures { result.part ≡ part }
    {
        One { part }
    }

    /// The value, for as long as this is borrowed.
    pub fn get(&self) -> &T
        ensures { result.now ≡ self.now.part.seen.value }
    {
        self.part.get()
    }

    /// The part, to be joined, lent or thawed.
    pub fn into_part(self) -> Part<T>
        ensures { (result ≡ self.part) × (result.life.count ≡ 1) }
    {
        let One { part } = self;
        part
    }
}
