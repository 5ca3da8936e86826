//! Where the parts of items are, as plain data: what a place that threads share keeps of them.
//!
//! An item in a slot is cut into parts. Each participant has a home for its parts of each slot, from which they are
//! leased while the participant reads the item; each owner of the item has one part. Nothing here runs: the types say
//! what clauses and rules are about.
#![tactic(auto)]

/// The parts of a participant that are out of their home.
pub struct Lease {
    /// The slot, and the item that is in it.
    pub slot: u64,
    pub item: u64,
    /// How many parts they are.
    pub count: u64,
    /// The round that they are of: how often an item was placed in the slot.
    pub round: u64,
}

/// An owner that is in hand. It has one part.
pub struct Owner {
    pub item: u64,
    /// Where the item is, and its round there.
    pub slot: u64,
    pub round: u64,
}

/// An item that a participant retired, and that isn't reclaimed yet.
pub struct Garbage {
    pub item: u64,
    /// Where the item is, and its round there.
    pub slot: u64,
    pub round: u64,
    /// How often the participant has rotated since, or the count that was noted, where the item is in a private bag.
    pub age: u64,
    /// One more than the slot of what came into the bag next, as the item's link word says, or 0 where nothing is known
    /// of that word.
    pub next: u64,
}

/// How far a slot is filled with parts, or emptied.
pub struct Filling {
    /// The participant that does it.
    pub by: u64,
    /// Participants below this number have their parts at home.
    pub filled: u64,
    pub round: u64,
    /// How many parts are in hand.
    pub left: u64,
    /// Which home is out. It is one past the last participant where only the item's own home is.
    pub out: u64,
}
