//! Iterators over the reachable slots of an array, by rising or falling rank.

ghost use Rattle.std.specs.Prelude.{◌≡◌};
ghost use Rattle.leaf_array.specs.Cells.{first_above, last_below};
ghost use Rattle.leaf_array.specs.Words.{word};

use crate::array::Array;
use std::marker::Model;

/// An iterator over the reachable slots of an array, by ascending rank.
#[derive(Drop)]
pub struct ArrayIter<'a, K: Ord, V> {
    array: &'a Array<K, V>,
    word: usize,
    rank: u16,
}

impl<'a, K: Ord, V> Model for ArrayIter<'a, K, V> {
    ghost use Rattle.leaf_array.specs.Cells.{Tour, tour_code};

    ghost Value = { Tour };

    ghost coded = { tour_code };

    ghost view = { λ i. record { labels = i.array.now.labels; word = i.word; rank = i.rank } };
}

impl<'a, K: Ord, V> ArrayIter<'a, K, V> {
    /// An iterator at the start.
    pub fn new(array: &'a Array<K, V>) -> Self
        ensures { result ≡ record { labels = array.now.labels; word = word array.now; rank = 0 } }
    {
        ArrayIter {
            array,
            word: array.metadata(),
            rank: 0,
        }
    }

    /// The word taken when it was made.
    pub fn metadata(&self) -> usize
        ensures { result ≡ self.now.word }
    {
        self.word
    }

    /// Moves to the start.
    pub fn rewind(&mut self)
        ensures { self.new ≡ record self.old { rank = 0 } }
    {
        self.rank = 0;
    }

    /// Turns round, at the same rank.
    pub fn rev(self) -> ArrayRevIter<'a, K, V>
        ensures { result ≡ self.entry }
    {
        ArrayRevIter {
            array: self.array,
            word: self.word,
            rank: self.rank,
        }
    }

    /// Another iterator at the same rank.
    pub fn clone(&self) -> Self
        ensures { result ≡ self.now }
    {
        ArrayIter {
            array: self.array,
            word: self.word,
            rank: self.rank,
        }
    }
}

impl<'a, K: Ord, V> Iterator for ArrayIter<'a, K, V> {
    ghost use Rattle.leaf_array.specs.Cells.{StepsTo, higher};
    ghost use Rattle.std.specs.Iterator.{at_most};

    type Item = u8;

    ghost next_gives = { StepsTo (λ s. first_above s.rank s.labels) };

    ghost remaining = { λ s. at_most (higher s.rank s.labels) };

    /// The slot of the next reachable rank above its own. Where there is none it stays.
    fn next(&mut self) -> Option<u8> {
        let (slot, rank) = self.array.above(self.rank)?;
        self.rank = rank;
        Some(slot)
    }
}

/// An iterator over the reachable slots of an array, by descending rank.
#[derive(Drop)]
pub struct ArrayRevIter<'a, K: Ord, V> {
    array: &'a Array<K, V>,
    word: usize,
    rank: u16,
}

impl<'a, K: Ord, V> Model for ArrayRevIter<'a, K, V> {
    ghost use Rattle.leaf_array.specs.Cells.{Tour, tour_code};

    ghost Value = { Tour };

    ghost coded = { tour_code };

    ghost view = { λ i. record { labels = i.array.now.labels; word = i.word; rank = i.rank } };
}

impl<'a, K: Ord, V> ArrayRevIter<'a, K, V> {
    /// An iterator at the start.
    pub fn new(array: &'a Array<K, V>) -> Self
        ensures { result ≡ record { labels = array.now.labels; word = word array.now; rank = 0 } }
    {
        ArrayRevIter {
            array,
            word: array.metadata(),
            rank: 0,
        }
    }

    /// The word taken when it was made.
    pub fn metadata(&self) -> usize
        ensures { result ≡ self.now.word }
    {
        self.word
    }

    /// Moves to the start.
    pub fn rewind(&mut self)
        ensures { self.new ≡ record self.old { rank = 0 } }
    {
        self.rank = 0;
    }

    /// Turns round, at the same rank.
    pub fn rev(self) -> ArrayIter<'a, K, V>
        ensures { result ≡ self.entry }
    {
        ArrayIter {
            array: self.array,
            word: self.word,
            rank: self.rank,
        }
    }

    /// Another iterator at the same rank.
    pub fn clone(&self) -> Self
        ensures { result ≡ self.now }
    {
        ArrayRevIter {
            array: self.array,
            word: self.word,
            rank: self.rank,
        }
    }
}

impl<'a, K: Ord, V> Iterator for ArrayRevIter<'a, K, V> {
    ghost use Rattle.leaf_array.specs.Cells.{StepsTo, lower};
    ghost use Rattle.std.specs.Iterator.{at_most};

    type Item = u8;

    ghost next_gives = { StepsTo (λ s. last_below s.rank s.labels) };

    ghost remaining = { λ s. at_most (lower s.rank s.labels) };

    /// The slot of the next reachable rank below its own, or of the last one of all from the start. Where there is none it stays.
    fn next(&mut self) -> Option<u8> {
        let (slot, rank) = self.array.under(self.rank)?;
        self.rank = rank;
        Some(slot)
    }
}
