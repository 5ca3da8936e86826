//! What holds of the single steps, for every state and every order of steps. Nothing here runs.

ghost use Rattle.sdd_steps.specs.Invariant.{StepsKeep, StartKeeps, InvariantIsSafe, SchedulesAreSafe};

/// Each step keeps the invariant: a state that meets it is led by every enabled step to one that meets it.
pub fn steps_keep_the_invariant()
    ensures { StepsKeep }
{}

/// The start meets the invariant, however many participants and cells there are.
pub fn the_start_meets_the_invariant()
    ensures { StartKeeps }
{}

/// A state that meets the invariant keeps the promise: for every open guard nothing that it loaded is reclaimed,
/// what it loaded still holds all that it held, each of these has an owner, and all values are as when loaded.
pub fn the_invariant_keeps_the_promise()
    ensures { InvariantIsSafe }
{}

/// Every schedule from the start leaves a state that keeps the promise.
pub fn every_schedule_is_safe()
    ensures { SchedulesAreSafe }
{}
