//! Parts of the right to read a boxed value, and the box that they are parts of.
ghost use Rattle.std.specs.Prelude.{◌≡◌, ◌+◌, ◌-◌, ◌^◌, ◌<◌, ◌≤◌};

use crate::lent::Lent;
use crate::life::Life;
use crate::raw::{Deed, Seen, share};
use std::alloc::Allocator;

/// The right to read a value while this is held: what is seen, and tokens of the life that it is seen under.
///
/// `seen.value` is the value, `life.id` names the round in which it is frozen, and `life.count` says how many
/// of the `2^63` parts of that round these are. A part can't be dropped: it is joined to another one, lent, or
/// given to [`thaw`]. It takes the bytes of an address.
pub struct Part<T> {
    /// The value, at its address.
    pub seen: Seen<T>,
    /// What keeps it readable.
    pub life: Life,
    ghost same: { seen.life ≡ life.id },
}

/// Freezes a value: nobody writes it until all its parts are joined again. The value stays where it is.
///
/// Answers with the right to have the box back, and all `2^63` parts of a new round. Takes no memory.
pub fn freeze<T: Drop, A: Allocator>(whole: Box<T, A>) -> (Deed<T, A>, Part<T>)
    ensures deed { (result.0.value ≡ whole.value) × (result.0.life ≡ result.1.life.id) }
    ensures all { (result.1.seen.value ≡ whole.value) × (result.1.life.count ≡ 2 ^ 63) }
{
    let life = Life::begin();
    let (deed, seen) = share(whole, &life);
    (deed, Part { seen, life })
}

/// Makes the box again, of its deed and all parts of its round.
pub fn thaw<T, A: Allocator>(deed: Deed<T, A>, all: Part<T>) -> Box<T, A>
    requires { (all.life.id ≡ deed.life) × (all.life.count ≡ 2 ^ 63) }
    ensures { result.value ≡ deed.value }
{
    let Part { seen: _, life } = all;
    deed.reclaim(&life.end())
}

impl<T> Part<T> {
    /// The value, for as long as this is borrowed.
    pub fn get(&self) -> &T
        ensures { result.now ≡ self.now.seen.value }
    {
        self.seen.get(&self.life)
    }

    /// Takes `n` parts out of these. At least one is taken, and one stays.
    pub fn split(&mut self, n: u64) -> Part<T>
        requires { (0 < n) × (n < self.old.life.count) × (self.old.life.count ≤ 2 ^ 63) }
        ensures rest { (self.new.seen ≡ self.old.seen) × (self.new.life ≡ record self.old.life { count = self.old.life.count - n }) }
        ensures taken { (result.seen ≡ self.old.seen) × (result.life ≡ record self.old.life { count = n }) }
    {
        Part {
            seen: self.seen.copy(),
            life: self.life.split(n),
        }
    }

    /// Takes one part out of these.
    pub fn split_one(&mut self) -> Part<T>
        requires { (1 < self.old.life.count) × (self.old.life.count ≤ 2 ^ 63) }
        ensures rest { (self.new.seen ≡ self.old.seen) × (self.new.life ≡ record self.old.life { count = self.old.life.count - 1 }) }
        ensures taken { (result.seen ≡ self.old.seen) × (result.life ≡ record self.old.life { count = 1 }) }
    {
        self.split(1)
    }

    /// Puts other parts of the same round to these.
    pub fn join(&mut self, other: Part<T>)
        requires { (other.life.id ≡ self.old.life.id) × (0 < self.old.life.count) × (self.old.life.count + other.life.count ≤ 2 ^ 63) }
        ensures seen { self.new.seen ≡ self.old.seen }
        ensures life { self.new.life ≡ record self.old.life { count = self.old.life.count + other.life.count } }
    {
        let Part { seen: _, life } = other;
        self.life.join(life);
    }

    /// Relabels `other`, a part of the same round, with the value that this part sees.
    ///
    /// That two parts of one round see one value isn't known otherwise.
    pub fn like(&self, other: Part<T>) -> Part<T>
        requires { other.life.id ≡ self.now.life.id }
        ensures { (result.seen ≡ self.now.seen) × (result.life ≡ other.life) }
    {
        let Part { seen: _, life } = other;
        let seen = self.seen.copy();
        Part { seen, life }
    }

    /// Lends these parts to a life, until it is over.
    pub fn lend(self, life: &Life) -> Lent<T>
        ensures seen { result.seen ≡ self.seen }
        ensures pledge { (result.pledge.id ≡ self.life.id) × (result.pledge.count ≡ self.life.count) × (result.pledge.until ≡ life.now.id) }
    {
        let Part { seen, life: own } = self;
        Lent {
            seen,
            pledge: own.pledge(life),
        }
    }
}
