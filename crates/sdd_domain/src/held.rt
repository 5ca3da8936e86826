//! Owners that items hold.

ghost use Rattle.std.specs.Prelude.{◌≡◌, ℕ, ◌+◌, ◌^◌, ◌<◌, List, ◌∷◌, IsSome};

use crate::domain::Domain;
use crate::holds::Holds;
use crate::local::Local;
use crate::shared::Shared;
use domain_table::board::Stored;
use domain_table::owners::part_with;
use parted::One;

/// An owner that an item holds, or that is on its way into one or out of it and in the hand of a participant. It must be
/// consumed by `own`. Whoever has it reads its item, without any step on a word of the place.
pub struct Held<T> {
    pub(crate) slot: usize,
    pub(crate) part: One<Stored<T>>,
    ghost there: { IsSome part.part.seen.value },
    ghost low: { slot + 1 < 2 ^ 31 },
}

impl<T> Held<T> {
    ghost use Rattle.sdd_domain.specs.Holding.{told_of, IsHeldOf};
    ghost use Rattle.sdd_domain.specs.Sharing.{kept_in, IsOwnerOf};
    ghost use Rattle.sdd_domain.specs.CellSteps.{StepsOnNoCell};
    ghost use Rattle.sdd_domain.specs.Tokens.{place_of, home_of, hand_of, IsSameButHand};

    /// The item.
    pub fn as_ref(&self) -> &T
        ensures { IsHeldOf self.now result.now }
    {
        match self.part.get() {
            Some(item) => item,
            None => unreachable!(),
        }
    }

    /// Gives the owner a seat of its own again. Condition: it is the first in the participant's hand, the last one that was
    /// taken there.
    pub fn own(self, domain: &Domain<T>, local: &mut Local<T>) -> Shared<T>
    where
        T: Holds,
        requires home { home_of local.old ≡ place_of domain.now }
        requires first { (hs : List (ℕ × ℕ)) × (hand_of local.old ≡ told_of self ∷ hs) }
        ensures home { kept_in result ≡ (place_of domain.now).0 }
        ensures hand { (hs : List (ℕ × ℕ)) → hand_of local.old ≡ told_of self ∷ hs → hand_of local.new ≡ hs }
        ensures item { (x : T) → IsHeldOf self x → IsOwnerOf result x }
        ensures same { IsSameButHand local.old local.new }
        ensures cells { StepsOnNoCell local.old local.new }
    {
        let Held { slot, part } = self;
        let calm = part_with(domain.words(), &mut local.seat);
        Shared { slot, part, calm }
    }
}
