//! Parts that are lent to a life.
ghost use Rattle.std.specs.Prelude.{◌≡◌};

use crate::life::{Ended, Life, Pledge};
use crate::part::Part;
use crate::raw::Seen;

/// Parts that are away until a life is over, whose number is `pledge.until`. Meanwhile that life's tokens read the value.
///
/// It can't be dropped: [`Lent::recover`] gives the parts back.
pub struct Lent<T> {
    /// The value, at its address.
    pub seen: Seen<T>,
    /// The tokens that are away: `pledge.id` names the round, and `pledge.count` says how many parts they are.
    pub pledge: Pledge,
    ghost same: { seen.life ≡ pledge.id },
}

impl<T> Lent<T> {
    /// The value as it is seen under the life that the parts were lent to. It can be had many times.
    pub fn see(&self) -> Seen<T>
        ensures { (result.value ≡ self.now.seen.value) × (result.life ≡ self.now.pledge.until) }
    {
        self.seen.copy().under(&self.pledge)
    }

    /// The value as another part of the same round sees it, under the life that the parts were lent to. That the two see
    /// one value isn't known otherwise.
    pub fn see_like(&self, part: &Part<T>) -> Seen<T>
        requires { part.now.life.id ≡ self.now.pledge.id }
        ensures { (result.value ≡ part.now.seen.value) × (result.life ≡ self.now.pledge.until) }
    {
        part.seen.copy().under(&self.pledge)
    }

    /// The value, for as long as a token is borrowed of the life that the parts were lent to.
    pub fn get<'g>(&self, life: &'g Life) -> &'g T
        requires { self.now.pledge.until ≡ life.now.id }
        ensures { result.now ≡ self.now.seen.value }
    {
        self.see().get(life)
    }

    /// The parts, once that life is over.
    pub fn recover(self, ended: &Ended) -> Part<T>
        requires { ended.now.id ≡ self.pledge.until }
        ensures seen { result.seen ≡ self.seen }
        ensures life { (result.life.id ≡ self.pledge.id) × (result.life.count ≡ self.pledge.count) }
    {
        let Lent { seen, pledge } = self;
        Part {
            seen,
            life: pledge.recover(ended),
        }
    }
}
