//! How many slots calls at random may take.

use local_index::Write;

/// How many slots there are, how many pairs a segment has at most, and how many slots were in use before and after a call.
#[derive(Drop)]
pub(crate) struct Room {
    pub(crate) slots: usize,
    pub(crate) segment: usize,
    pub(crate) before: usize,
    pub(crate) after: usize,
}

impl Room {
    /// Whether as many slots are in use as before.
    pub(crate) fn is_kept(&self) -> bool {
        self.after == self.before
    }

    /// How many slots a version of this many pairs takes at most.
    pub(crate) fn of(&self, pairs: usize) -> usize {
        pairs
            .checked_div(self.segment.saturating_add(1))
            .unwrap_or(0)
            .saturating_mul(2)
            .saturating_add(2)
    }

    /// Whether a commit of these writes, which leave this many pairs, finds fewer free slots than it may take.
    pub(crate) fn is_short_for(&self, pairs: usize, writes: &[Write<u64, u64>]) -> bool {
        self.slots < self.before.saturating_add(self.of(pairs))
            && self.slots < self.before.saturating_add(room_of_writes(writes))
    }

    /// Whether an accepted commit of these writes, which leave this many pairs, took no more slots than it may.
    pub(crate) fn suffices(&self, pairs: usize, writes: &[Write<u64, u64>]) -> bool {
        self.after <= self.before.saturating_add(self.of(pairs))
            && self.after <= self.before.saturating_add(room_of_writes(writes))
            && self.after <= self.slots
    }

    /// How many slots a version of this many pairs has at least: those of full segments, and its directory's.
    pub(crate) fn least_of(&self, pairs: usize) -> usize {
        pairs
            .checked_div(self.segment)
            .unwrap_or(0)
            .saturating_add(1)
    }
}

// How many slots a version takes at most that writes make of another.
fn room_of_writes(writes: &[Write<u64, u64>]) -> usize {
    writes.len().saturating_mul(2).saturating_add(1)
}
