//! Steps of participants as data, so that a test is a table of what they do and what they find.

use sdd_plain::tag::Tag;

/// What a step finds.
#[derive(Clone, Copy, PartialEq, Eq)]
pub(crate) enum Found {
    /// Nothing is answered, or nothing is there.
    Nothing,
    Yes,
    No,
    /// An item, or a count.
    Is(u64),
    Tagged(Tag),
}

/// What a participant does, with a guard open or without. It has three places for owners, of which the first one is its
/// hand, and two for cells, of which the first one is meant where a cell is.
#[derive(Clone, Copy)]
pub(crate) enum Act {
    /// Places an item, whose owner is in hand: or the item is returned, where no slot is free.
    Place(u64),
    /// The same by the call that asks a closure for the item: or whether the closure is called, where no slot is free.
    PlaceWith(u64),
    /// The item of the owner in hand.
    Read,
    /// Releases the owner in hand: whether it was the last one.
    Release,
    /// Makes two owners of the one in hand, if there are parts: one is in hand, and one in the second place.
    Clone,
    /// Changes the hand's owner for that of the second place, or of the third one.
    Second,
    Third,
    /// Whether there is a new cell that owns nothing.
    Null,
    /// Whether there is a new cell that owns what the owner in hand did, which is returned where there is none.
    Own,
    /// Makes a cell of an item: the one that is returned, where no slot or cell is free.
    Make(u64),
    /// Takes the cell's owner into the hand, and gives the cell back.
    Take,
    /// Gives the cell back: whether its owner was the last one.
    Retire,
    /// Changes the two cells for one another.
    Change,
    /// Whether the cell owns nothing.
    IsNull,
    /// The cell's tag.
    Tag,
    /// Changes the owner in hand, or none, and this tag for what the cell has: the tag that it had.
    Swap(Tag),
    /// How many slots are in use, and the participant's number.
    Slots,
    Number,
    /// Makes a private collector, if memory is there. One that was there is handed over.
    Gather,
    /// Collects the owner in hand under a guard of its own, accelerated or not: whether it was the last one.
    Collect(bool),
    /// Hands the collector over.
    HandOver,
    /// Opens a guard and closes it, accelerated or not: the epoch that it saw.
    Pass(bool),
    /// The same this many times: nothing is told.
    Passes(bool, u8),
    /// What the cell's item is, under a guard of its own.
    Peek,
    /// Registers another participant beside this one: its number, or no, where none is free.
    Join,
    /// Ends that one.
    Leave,
    /// Changes the two participants for one another.
    Alternate,
    /// Passes two accelerated guards: whether the second one saw the epoch behind that of the first.
    Raise,
    /// Reclaims what this many participants left that aren't registered.
    Sweep(u8),
    /// How often threads did what they were to do when that was done last; and whether the cell's item is this.
    Sum,
    IsSum,
}

/// What a thread does, as a participant of its own, a thousand times if nothing else is said. Where it finds something wrong,
/// it says so.
#[derive(Clone, Copy)]
pub(crate) enum Task {
    Nothing,
    /// Reads once the item of the owner in hand, which is this.
    Reads(u64),
    /// Opens an accelerated guard, under which the epoch is raised by one at most.
    Stays,
    /// The same, as another participant each time.
    ComesAndGoes,
    /// Places, reads and releases an item, where a slot is free; these are greater than the last one by one each time.
    Places(u64),
    /// Loads the cell and swaps an item into it, if a slot is free, of which there are as many: what was loaded stays the same.
    Swaps(u64),
    /// Tries to put an item that is greater by one into the cell, 4000 times: does so where nobody is faster.
    Counts,
    /// Makes an owner of what the cell names, which is what the guard reads, and puts it into the cell.
    Shares,
    /// Takes the owner out of the cell, if it is there, makes two of it, and puts one back.
    Clones,
    /// Collects a thousand items, where slots are free, into a private collector.
    Collects,
    /// Collects ten items and hands them over, a hundred times.
    HandsOver,
    /// Defers a job.
    Defers,
}

/// What a participant does under a guard. It has one pointer, and one item that it reads.
#[derive(Clone, Copy)]
pub(crate) enum View {
    /// What needs no guard.
    Do(Act),
    /// What the other participant does, which has no guard open.
    Beside(Act),
    /// The epoch that the guard sees.
    Epoch,
    /// Whether the flag of garbage is set.
    HasGarbage,
    /// Sets it.
    SetGarbage,
    /// Opens one more guard within this one, accelerates and closes it: whether there was one.
    Nest,
    /// Loads the cell: the pointer's item. Whether the pointer is to nothing.
    Load,
    IsNull,
    /// Loads the cell under one more guard within this one, which is closed: the item as it is read after that.
    LoadWithin,
    /// The pointer's item, as it is read of what the pointer gives without its borrow: no where that gives nothing, or is
    /// another pointer.
    Reload,
    /// Whether the participant beside gives as much of the pointer.
    ReloadBeside,
    /// Makes the pointer one to nothing.
    Forget,
    /// The pointer's item.
    Item,
    /// The pointer's tag.
    Label,
    /// Sets the pointer's tag.
    Relabel(Tag),
    /// Whether the pointer is what the cell is loaded as.
    IsSame,
    /// Whether the pointer is equal to itself with another tag, and whether that is equal to it where both have none.
    IsSameTagged,
    IsSameUntagged,
    /// Changes the owner in hand, or none, and this tag for what the cell has, where it is as the pointer: or the item
    /// that it has.
    Exchange(Tag),
    /// The same by the call that may fail; where it was done, whether the cell is told to be as it is loaded.
    ExchangeWeak(Tag),
    /// Sets the tag of the cell if it has this one: whether it did.
    Retag(Tag, Tag),
    /// Whether there is one more owner of the pointer's item, which is in hand; and of the cell's.
    Share,
    ShareCell,
    /// The same of the pointer's item by the call that hands the pointer back: nothing is told where another one is returned.
    TryShare,
    /// Whether there is one more cell that owns what the cell does, which is the second one.
    CloneCell,
    /// Makes the pointer one to the item in hand; and reads that for as long as the guard is open.
    Lend,
    LendItem,
    /// The item that is read so.
    Lent,
}

/// Steps without a guard, or under one that is opened for them.
#[derive(Clone, Copy)]
pub(crate) enum Part {
    Apart(&'static [(Act, Found)]),
    Under(&'static [(View, Found)]),
    /// The participant is ended, and one is registered.
    Renew,
    /// The same, with threads at work in between. None finds anything wrong, and something is done.
    Crowd([Task; 4]),
    /// Steps under a guard that is open while threads are at work, of which the same is said.
    Beside([Task; 4], &'static [(View, Found)]),
}

/// What the participant 0 of a new place does. At the end no owner and no cell is left.
#[derive(Clone, Copy)]
pub(crate) struct Table {
    /// How many participants, slots and cells the place has, and the count of raises that it begins with.
    pub(crate) place: (u8, u8, u8, u64),
    pub(crate) parts: &'static [Part],
}
