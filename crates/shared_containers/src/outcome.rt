//! What pushes, pops, and the making of containers come to.

ghost use Rattle.std.specs.Prelude.{◌≡◌, IfSome};
ghost use Rattle.sdd_domain.specs.Tokens.{place_of, home_of};
ghost use Rattle.shared_containers.specs.Containers.{IsAsBefore};
ghost use Rattle.shared_containers.specs.Outcomes.{IsKeptIn, IsValueOf};

use sdd_domain::domain::Domain;
use sdd_domain::holds::Holds;
use sdd_domain::local::Local;
use sdd_domain::shared::Shared;
pub use shared_lists::NotMade;

/// Why a value wasn't taken in, with the value, or with an owner of it where it had been placed already.
pub enum PushRefused<T> {
    /// No slot was free.
    NoSlot(T),
    /// All places of the primary were taken: only `Bag::try_push` answers so.
    Full(T),
    /// The condition answered false: only `push_if` answers so.
    Condition(Shared<T>),
    /// Others were faster each of `2^64 - 1` times, or at each place of a primary.
    Busy(Shared<T>),
}

impl<T: Holds> PushRefused<T> {
    /// The value, if it hadn't been placed; else its owner is released.
    pub fn end(self, domain: &Domain<T>, local: &mut Local<T>) -> Option<T>
        requires home { home_of local.old ≡ place_of domain.now }
        requires mine { IsKeptIn self (place_of domain.now).0 }
        ensures value { IfSome result (λ v. IsValueOf self v) }
        ensures same { IsAsBefore local.old local.new }
    {
        match self {
            PushRefused::NoSlot(value) | PushRefused::Full(value) => Some(value),
            PushRefused::Condition(owner) | PushRefused::Busy(owner) => {
                owner.release(domain, local);
                None
            }
        }
    }
}

/// Why a container of the values of an iterator wasn't made, with what was built of it.
pub enum FromIterRefused<C, T, I> {
    /// Not even an empty container could be made. It has what was to give the values.
    Unmade(NotMade, I),
    /// A value was refused, as a push of it is: the container of those before it, and the refusal.
    Partly(C, PushRefused<T>),
}

/// Why a container wasn't cloned, with what was built of the clone.
pub enum CloneRefused<C, T> {
    /// Not even an empty container could be made.
    Unmade(NotMade),
    /// The container of the clones before the one that there isn't, and why there isn't.
    Partly(C, NotCloned<T>),
}

/// Why there is no clone of a value in a container.
pub enum NotCloned<T> {
    /// The value's own `clone` was refused memory.
    Memory,
    /// There was no room for the clone, which it has.
    Refused(PushRefused<T>),
}

/// What pushing an owner came to: it is in, the condition answered false, or others were faster.
pub(crate) enum Pushed<T> {
    Done,
    Unwanted(Shared<T>),
    Slow(Shared<T>),
}

/// What one try to pop came to: what is kept stays where it is, since the condition answered false of it.
pub(crate) enum Popped<T> {
    Empty,
    Item(Shared<T>),
    Kept(Shared<T>),
    Again,
}
