//! Whether the last release retires an item or puts it into a private bag.

ghost use Rattle.std.specs.Prelude.{ℕ, Option, None};
ghost use Rattle.sdd_steps.specs.declared.participant.Participant.{Participant};

/// Whether the last release of an item retires it or puts it into a private bag. It is a fact for the rule alone: nothing
/// here runs.
pub trait Aim {
    /// No note where the participant retires the item. For a private bag, the count to note with it.
    ghost to: { Participant → Option ℕ };
}

/// The participant retires the item.
pub struct Retire;

impl Aim for Retire {
    ghost to = { λ _. None };
}

/// The item is put into the private bag at the participant's seat, with the count that was read again.
pub struct Collect;

impl Aim for Collect {
    ghost to = { λ x. x.reread };
}
