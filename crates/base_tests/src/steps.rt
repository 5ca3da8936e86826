//! Steps of the caller of a place as data, so that a test is a table of what it does and what it finds.

use sdd_world::Tag;

/// Where the caller has what it made: five places, of which the last one is for a guard, and behind all that there are.
pub(crate) const A: usize = 0;

pub(crate) const B: usize = 1;

pub(crate) const C: usize = 2;

pub(crate) const D: usize = 3;

pub(crate) const G: usize = 4;

pub(crate) const END: usize = usize::MAX;

/// Where a step is of the whole world, and of nothing that the caller has.
pub(crate) const W: usize = usize::MAX;

/// A raw pointer: to nothing, or to the item that is out, with this tag.
#[derive(Clone, Copy)]
pub(crate) enum Point {
    Null,
    Item(Tag),
}

/// What the caller does with what is at a place, or to have something there. Further places are named by the step, and a
/// participant behind them. Calls of cells are made under the guard at `G`.
#[derive(Clone, Copy)]
pub(crate) enum Step {
    /// A new item of this value with one owner, and one of what a closure gives: or the value is returned, where no slot is
    /// free, and the closure isn't asked.
    Own(u64),
    OwnWith(u64),
    /// The same with counted owners.
    Share(u64),
    ShareWith(u64),
    /// The same by a call whose owner is kept without its type in between: what is read then.
    Keep(u64),
    /// The value of an item.
    Read,
    /// The value of an item by where its owner says that it is.
    ReadAt,
    /// One more owner of an item, which is at this place.
    Clone(usize),
    /// The owner of an item is given back by a participant: whether it was the last one, where owners are counted.
    Retire(usize),
    Release(usize),
    /// The same in place: or the owner is returned, while a guard is open.
    Drop,
    /// The value of an item is written where it is lent: the one before. It is named by an owner, or by a new cell of that.
    Write(u64),
    WriteCell(u64),

    /// A guard of a participant is opened, accelerated, and closed.
    Open(usize),
    Accelerate,
    Close,
    /// Opens a guard of each participant, each behind all others: how many.
    OpenEach,
    /// The participant of a guard, the epoch that it sees, and whether its participant has garbage.
    Participant,
    Epoch,
    HasGarbage,
    /// Whether a guard is open.
    IsGuarded,
    /// Opens and closes this many accelerated guards of a participant, one by one: how many slots are in use then.
    Pass(usize, usize),
    /// How many slots are in use, and how many are free.
    Slots,
    FreeSlots,
    /// What the owner at the first place names is seen under a guard from the second place on; the item that is seen.
    See(usize, usize),
    Look,
    /// What is seen has another tag. One more owner of it is at this place, and it isn't seen any more.
    Retag(Tag),
    Claim(usize),
    /// The same by the call that hands back what is seen, and of what a cell keeps.
    TryClaim(usize),
    ClaimKept(usize),
    /// A collector. It collects the owner at the first place under the guard at the second: whether it was the last. It is
    /// handed over to a participant.
    Collector,
    Collect(usize, usize),
    HandOver(usize),

    /// A new cell of a new item of this value, of nothing, and of an owner.
    OwnedCell(u64),
    NullOwnedCell,
    SharedCell(u64),
    NullSharedCell,
    IntoCell,
    /// The same: the value that a link to it names.
    Link(u64),
    LinkNull,
    /// One more cell of what a cell keeps, which is at this place.
    CloneCell(usize),
    /// What the cell keeps is seen from this place on.
    Load(usize),
    /// Whether the cell keeps nothing, and its tag.
    IsNull,
    TagOf,
    /// Whether the cell keeps the item of the owner at this place, by where both say that theirs is.
    IsAt(usize),
    /// Changes the owner at this place, or none, and this tag for what the cell has: the tag that it had.
    Swap(usize, Tag),
    /// Takes what the cell keeps to the first place, and leaves nothing and the tag `Both`, where the cell is as it is seen
    /// at the second: whether it did.
    Take(usize, usize),
    /// The same by the weak exchange.
    TakeWeakly(usize, usize),
    /// Gives the cell this tag where it has the tag `First`, and where it keeps something: whether it did.
    TagIfMarked(Tag),
    TagIfFull(Tag),
    /// Ends a cell, and gives what it kept back by a participant.
    EndCell(usize),

    /// The item of an owner is out as a raw pointer, and that becomes the owner again: whether its item was out.
    IntoRaw,
    FromRaw,
    /// Whether a raw pointer can be read under the guard at `G`.
    IsOut(Point),
    /// A new cell of nothing by its own call, and by the one that takes a raw pointer.
    NullRawCell,
    RawCell,
    /// What the cell names is loaded, stored, swapped, and exchanged from the first to the second: what was found.
    LoadRaw,
    StoreRaw(Point),
    SwapRaw(Point),
    ExchangeRaw(Point, Point),
    /// An update by a closure that gives the tag `Both`, or nothing: what was found.
    UpdateRaw(bool),
    /// Sets the tag `None` where the cell has it already: whether it did.
    Untag,

    /// Has what is at a place at this one.
    Move(usize),
    /// Closes the guards that are behind the five places, and gives back all else that is, by participant 0, from the end on.
    GiveRest,
}

/// What a step finds.
#[derive(Clone, Copy, PartialEq, Eq)]
pub(crate) enum Found {
    Done,
    Yes,
    No,
    /// A value, or a count.
    Is(u64),
    /// Nothing is there.
    Nothing,
    /// The value of a refused call is returned.
    Back(u64),
    /// The call is refused: no slot or cell is free, a guard is open, or there are other owners.
    NoSlot,
    Guarded,
    NotSole,
    Tagged(Tag),
    /// A raw pointer to nothing, to the item with this tag, and the same where the call is refused.
    Null,
    Item(Tag),
    Kept(Tag),
}

/// A place, the step there, and what it finds.
pub(crate) type Row = (usize, Step, Found);

/// Rows that are played once, or this many times.
#[derive(Clone, Copy)]
pub(crate) enum Part {
    Once(&'static [Row]),
    Times(usize, &'static [Row]),
    /// The place isn't ended, since something is out: it is handed back.
    HandBack,
}

/// What is done in a new place. At the end nothing is left.
#[derive(Clone, Copy)]
pub(crate) struct Table {
    pub(crate) about: &'static str,
    /// How many participants, slots, cells and places for jobs there are.
    pub(crate) sizes: [usize; 4],
    pub(crate) parts: &'static [Part],
}
