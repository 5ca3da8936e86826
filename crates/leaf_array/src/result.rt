//! How large an array is, and what its edits answer.

/// How many pairs an array has room for, and how many bits the rank of one takes.
#[derive(Clone, Copy, PartialEq, Eq, Debug)]
pub struct Dimension {
    pub len: u8,
    pub bits: u8,
}

/// Every array has room for 15 pairs, whose ranks are four-bit numbers.
pub const DIMENSION: Dimension = Dimension { len: 15, bits: 4 };

/// What an insertion answers. A refused one gives the pair back.
#[derive(Drop)]
pub enum InsertResult<K, V> {
    /// The pair is in the array.
    Success,
    /// A pair has the key already.
    Duplicate(K, V),
    /// There is no place for the pair, or the array is frozen or retired.
    Full(K, V),
}

/// What a removal answers.
#[derive(Clone, Copy, PartialEq, Eq, Debug)]
pub enum RemoveResult {
    /// The pair is removed.
    Success,
    /// The pair is removed, and it was the last one.
    Retired,
    /// No pair has the key, or the condition refused.
    Fail,
    /// The array is frozen.
    Frozen,
}
