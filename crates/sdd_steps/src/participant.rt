//! Participants, and what they have loaded.

use crate::seq::Seq;

/// How far a participant's opening has come. The number is the count that it read.
#[derive(Clone, Copy, PartialEq, Eq, Drop, Debug)]
pub enum Phase {
    /// Without a guard.
    Idle,
    /// It has read the count, and hasn't published it yet.
    HasRead(u64),
    /// Its guard is open with the count that it published.
    Opened(u64),
}

/// An item that another one held when that was loaded, with its value then.
#[derive(Clone, Copy, PartialEq, Eq, Drop, Debug)]
pub struct Seen {
    pub item: usize,
    pub value: u64,
}

/// An item that was loaded, with its value and what it held then, in order.
#[derive(Drop)]
pub struct Loaded {
    pub item: usize,
    pub value: u64,
    pub holds: Seq<Seen>,
}

/// A participant.
#[derive(Drop)]
pub struct Participant {
    pub phase: Phase,
    /// The count that its previous opening found, after the rotation that was due. At first 0.
    pub found: u64,
    /// The count that it last read again under its open guard.
    pub reread: Option<u64>,
    /// Whom it has looked at under its open guard, or since it read the count.
    pub looked: Seq<usize>,
    /// What it has loaded under its open guard.
    pub loaded: Seq<Loaded>,
}
