//! The single steps.

use crate::seq::Seq;

/// One indivisible event. The first number of each names the participant that takes it.
///
/// From `ReadEpoch` to the rotation that is due, if one is, a participant takes no other step.
#[derive(Drop)]
pub enum Step {
    /// The participant, which has no guard, remembers the count.
    ReadEpoch(usize),
    /// It has read the count, and its guard is open with it.
    Publish(usize),
    /// It published another count than at its previous opening: the items that it retired age by one.
    Rotate(usize),
    /// Under its guard it loads the item of the cell, which has no holder, or whose holder it loaded or is in hand.
    LoadCell(usize, usize),
    /// Under its guard it loads the item, an owner of which is in hand.
    LoadInHand(usize, usize),
    /// It reads the second item, a segment of the first one, which it loaded.
    ReadSegment(usize, usize, usize),
    /// The item, if any, is moved from the hand into the cell, and the item of the cell into the hand.
    SwapCell(usize, usize, Option<usize>),
    /// An owner in hand is given back. The last one leaves the item due to the participant.
    Release(usize, usize),
    /// The item, which is due to the participant, is retired with age 0.
    Retire(usize, usize),
    /// The item, which is due to the participant, is retired to a private bag, with the count that the participant
    /// last read again under its guard.
    Collect(usize, usize),
    /// Under its guard the participant notes that the second one is closed or has published the present count.
    Look(usize, usize),
    /// It published the present count and noted this of all others: the count is raised.
    Raise(usize),
    /// The item, which the participant retired, has age 3, or was noted in a private bag three counts below the one
    /// that the participant last read again: it is reclaimed, and what it holds is to be released.
    Reclaim(usize, usize),
    /// The first item, which the participant reclaimed, hands over an owner of the second one, which is in hand
    /// then.
    GiveUp(usize, usize, usize),
    /// The holder of the cell, which the participant reclaimed, hands over the cell's owner, which is in hand then.
    /// Then the cell has no holder.
    GiveUpCell(usize, usize),
    /// The guard ends, and with it what the participant loaded and its looks.
    Close(usize),
    /// A new item with this value in hand. The owners and the cells that it holds are taken from the hand.
    Place(usize, u64, Seq<usize>, Seq<usize>),
    /// One more owner in hand of an item that has one.
    RaiseOwners(usize, usize),
    /// Under its guard the participant reads the count again.
    Reread(usize),
    /// The participant, which has no guard and to which nothing is due, ends: the items that it retired wait, and its
    /// previous opening found 0.
    End(usize),
    /// The item, which waits or is in a private bag, is retired by the participant with age 0.
    TakeOver(usize, usize),
    /// Between its reading of the count and its publication the participant notes that the second one has no guard open.
    LookShut(usize, usize),
    /// It noted this of all others, and has read a count of 3 at least: what it retired has age 3, and the count that it
    /// read is the one found.
    Settle(usize),
}
