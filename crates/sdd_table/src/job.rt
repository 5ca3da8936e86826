//! Jobs that wait in a place until no guard that was open can see what they undo.
//!
//! What a place keeps as a job is a type parameter of it, `World<T, J>`, and is `Job` where none is named. A `Job` is a
//! box round any task. A structure that defers no job keeps a `World<T, NoJob>`, which has no boxed task among its
//! parts: so its own model may speak of the order of its keys.

/// What can wait in a place and is run once, which consumes it.
pub trait Deferred: Sized + Drop {
    /// Does it.
    fn run(self);
}

/// What a `Job` does. It is asked to once.
pub trait Task: Drop {
    fn run(&mut self);
}

/// A job for `world::guard::defer_execute`: a boxed task, made by the caller.
#[derive(Drop)]
pub struct Job {
    task: Box<dyn Task + Send>,
}

impl Job {
    /// The job that does what `task` does.
    pub fn new(task: Box<dyn Task + Send>) -> Job {
        Job { task }
    }
}

impl Deferred for Job {
    fn run(self) {
        let Job { mut task } = self;
        task.run();
    }
}

/// A job that does nothing, for a place that defers none.
#[derive(Drop)]
pub struct NoJob;

impl Deferred for NoJob {
    fn run(self) {}
}
