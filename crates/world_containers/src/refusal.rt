//! Refusals that hand a value back, and what refuses.

ghost use Rattle.std.specs.Prelude.{◌≡◌};
ghost use Rattle.world_containers.specs.Refusals.{refused_value};

pub use sdd_lists::refusal::NotMade;
use thiserror::Error;

/// Why a value wasn't pushed, with the value.
#[derive(Debug, Drop, Error)]
pub enum PushRefused<T> {
    /// The condition answered false.
    #[error("the condition answered false; the container is as it was")]
    Condition(T),
    /// No slot or no cell is free.
    #[error("no slot or no cell is free; the container is as it was")]
    NoSlot(T),
}

impl<T> PushRefused<T> {
    /// The value, as it was handed in.
    pub fn into_value(self) -> T
        ensures { result ≡ refused_value self }
    {
        match self {
            PushRefused::Condition(value) | PushRefused::NoSlot(value) => value,
        }
    }
}

/// Why a container of the values of an iterator wasn't made, with what was built of it.
pub enum FromIterRefused<C, T, I> {
    /// Not even an empty container could be made. Nothing has changed. It has what was to give the values.
    Unmade(NotMade, I),
    /// There is no slot or no cell for this value: the container of those before it, and the value.
    NoSlot(C, T),
}

/// Why a container wasn't cloned, with what was built of the clone.
pub enum CloneRefused<C> {
    /// Not even an empty container could be made. Nothing has changed.
    Unmade(NotMade),
    /// Why there is no clone of the next value, and the container of the clones before it.
    Partly(C, NotMade),
}
