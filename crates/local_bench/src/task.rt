//! What is measured, and of which index.

use local_index::{LocalIndex, Session};

/// The index, with this many pairs in a segment at most, and a session of it.
pub(crate) type Index<const S: usize> = LocalIndex<u64, u64, S>;

pub(crate) type Open = Session<u64, u64>;

/// What a round does with its probes.
#[derive(Clone, Copy, PartialEq, Eq)]
pub(crate) enum Task {
    /// Nothing: the index is built and ended.
    Build,
    /// Each is looked up in one session.
    Get,
    /// A session is opened and closed for each.
    Open,
    /// A hundred pairs are read from each on, in one session.
    Range,
    /// All pairs are read in one session; the probes aren't looked at.
    Walk,
    /// Each is looked up in one session, which records its reads.
    Record,
    /// Each is upserted by a commit of its own, beside a session that opened before; then the index reclaims.
    CommitEach,
    /// All are upserted by one commit, in the same way.
    CommitAll,
    /// The index is cleared by a commit, in the same way.
    Clear,
    /// Each key from a probe on is removed by a commit, in the same way.
    Cut,
}

/// The task that a number from outside means: 0 to 9, in the order of the variants; any other builds alone.
pub(crate) fn task_of(number: u32) -> Task {
    match number {
        1 => Task::Get,
        2 => Task::Open,
        3 => Task::Range,
        4 => Task::Walk,
        5 => Task::Record,
        6 => Task::CommitEach,
        7 => Task::CommitAll,
        8 => Task::Clear,
        9 => Task::Cut,
        _ => Task::Build,
    }
}
