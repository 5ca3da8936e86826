//! What random calls are made of: keys, writes, queries and receipts that a linear congruential generator throws.

use crate::plain;
use local_index::{Answer, Query, Receipt, Recorded, Seq, Write};
use std::alloc::{AllocError, Global};
use std::ops::Bound;

// Values are below this one.
const VALUES: u64 = 3;

// A linear congruential generator, with the constants of Knuth's MMIX.
#[derive(Drop)]
pub(crate) struct Dice {
    state: u64,
    // keys are below this one
    pub(crate) keys: u64,
    // how many writes a commit has at most
    writes: u64,
    // one write in this many is of a range, or of all keys
    wide: u64,
    // whether checkpoints are made
    pub(crate) bases: bool,
}

impl Dice {
    // The same, for lists of calls with checkpoints.
    pub(crate) fn with_bases(mut self) -> Self {
        self.bases = true;
        self
    }

    // A number below this one.
    pub(crate) fn throw(&mut self, faces: u64) -> u64 {
        self.state = self
            .state
            .wrapping_mul(6_364_136_223_846_793_005)
            .wrapping_add(1_442_695_040_888_963_407);
        (self.state >> 33).checked_rem(faces).unwrap_or(0)
    }

    pub(crate) fn key(&mut self) -> u64 {
        self.throw(self.keys)
    }

    pub(crate) fn bound(&mut self) -> Bound<u64> {
        match self.throw(5) {
            0 => Bound::Unbounded,
            1 | 2 => Bound::Included(self.key()),
            _ => Bound::Excluded(self.key()),
        }
    }

    pub(crate) fn write(&mut self) -> Write<u64, u64> {
        if self.throw(self.wide) == 0 {
            return match self.throw(3) {
                0 | 1 => Write::RemoveRange(self.bound(), self.bound()),
                _ => Write::Clear,
            };
        }
        match self.throw(61) {
            0..=30 => Write::Insert(self.key(), self.throw(VALUES)),
            31..=46 => Write::Upsert(self.key(), self.throw(VALUES)),
            _ => Write::Remove(self.key()),
        }
    }

    pub(crate) fn writes(&mut self, alloc: Global) -> Result<Vec<Write<u64, u64>>, AllocError> {
        let mut writes = Vec::new(alloc);
        let most = match self.throw(2) {
            0 => 3,
            _ => self.writes,
        };
        for _ in 0..self.throw(most.saturating_add(1)) {
            writes.push(self.write())?;
        }
        Ok(writes)
    }

    pub(crate) fn query(&mut self) -> Query<u64> {
        match self.throw(8) {
            0 => Query::Get(self.key()),
            1 => Query::Contains(self.key()),
            2 | 3 => Query::Range(self.bound(), self.bound()),
            4 => Query::First(self.bound(), self.bound(), self.throw(6) as usize),
            5 => Query::Last(self.bound(), self.bound(), self.throw(6) as usize),
            _ => Query::Locate(self.key()),
        }
    }

    // Up to two answers, most of them those of the list, and a number that may be too high.
    pub(crate) fn receipt(
        &mut self,
        alloc: Global,
        pairs: &[(u64, u64)],
        number: u64,
    ) -> Result<Receipt<u64, u64>, AllocError> {
        let mut reads: Vec<Recorded<u64, u64>> = Vec::new(alloc);
        for _ in 0..self.throw(3) {
            let query = self.query();
            let told = match self.throw(6) {
                0 => Answer::Get(Some(self.throw(VALUES))),
                _ => plain::answer(alloc, pairs, &query)?,
            };
            reads.push((query, told))?;
        }
        Ok(Receipt {
            number: number.saturating_add(self.throw(8).saturating_sub(6)),
            reads: Seq::from_vec(reads),
        })
    }
}

// Dice for keys below the first figure, for up to the second of writes in a commit, one of the third of them wide.
pub(crate) fn thrown(keys: u64, writes: u64, wide: u64) -> Dice {
    Dice {
        state: keys,
        keys,
        writes,
        wide,
        bases: false,
    }
}
