//! Items and cells.

use crate::seq::Seq;

/// What has become of an item.
#[derive(Clone, Copy, PartialEq, Eq, Drop, Debug)]
pub enum ItemState {
    /// It has an owner.
    Live,
    /// This participant gave its last owner back and is to retire it.
    Due(usize),
    /// The participant that retired it, and its age: how often that participant has rotated since.
    Retired(usize, u64),
    /// It is in a private bag, with the count that was last read again before.
    Collected(u64),
    /// The participant that retired it has ended.
    Waiting,
    /// This participant reclaims it: what it still holds is released.
    Reclaimed(usize),
}

/// An item. Its number is the number of items that were placed before it.
#[derive(Drop)]
pub struct Item {
    /// Its value; of a segment, a number that represents its pairs. It never changes.
    pub value: u64,
    /// Its owners that are out, whoever has them.
    pub hand: u64,
    /// All its owners: in hand, in cells and in items.
    pub owners: u64,
    /// The items of which it holds an owner, in order.
    pub holds: Seq<usize>,
    pub state: ItemState,
}

/// A cell. An item that is out as a raw pointer counts as in a cell of its own.
#[derive(Clone, Copy, PartialEq, Eq, Drop, Debug)]
pub struct Cell {
    /// The item that holds the cell, if one does.
    pub holder: Option<usize>,
    /// The item of which the cell keeps an owner.
    pub names: Option<usize>,
}
