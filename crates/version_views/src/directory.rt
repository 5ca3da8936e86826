//! Directories: versions of a list, as rows of segments in order.

ghost use Rattle.std.specs.Prelude.{◌≡◌, ◌<◌, ◌≤◌, IsTrue, length, get_or};
ghost use Rattle.version_views.specs.Rows.{count_in, end_of, place_at, start_of, IsInside};

use crate::row::Row;
use crate::search::place_of;
use std::alloc::Global;

/// A version of a list: its segments in order, in rows of 1 to 1023 neighbours. `R` is how a place owns the segments of a row.
///
/// A segment has 1 to `S` pairs, two neighbours together more than `S`. A separator is the greatest key of its row, and
/// the last row has none. The rows have the greatest keys of their segments but the last.
#[derive(Drop)]
pub struct Directory<K, R> {
    pub(crate) number: u64,
    // how many pairs there are
    pub(crate) length: usize,
    pub(crate) rows: Vec<Row<K, R>>,
    pub(crate) separators: Vec<K>,
    // how many segments there are up to the end of each row
    pub(crate) ends: Vec<usize>,
}

/// A place in a row of a directory.
#[derive(Clone, Copy)]
pub struct Spot {
    pub row: usize,
    pub at: usize,
}

impl<K, R> Directory<K, R> {
    /// A directory of these rows, as plain data: that it is a version is a fact of those who keep it.
    pub fn new(
        number: u64,
        length: usize,
        rows: Vec<Row<K, R>>,
        separators: Vec<K>,
        ends: Vec<usize>,
    ) -> Self
        ensures { result ≡ record { number = number; length = length; rows = rows; separators = separators; ends = ends } }
    {
        Directory {
            number,
            length,
            rows,
            separators,
            ends,
        }
    }

    /// The same under this number.
    pub fn numbered(self, number: u64) -> Self
        ensures { result ≡ record self { number = number } }
    {
        let mut directory = self;
        directory.number = number;
        directory
    }

    /// The number of the version: how many others were made before it.
    pub fn number(&self) -> u64
        ensures { result ≡ self.now.number }
    {
        self.number
    }

    /// How many pairs it says that there are.
    pub fn pairs(&self) -> usize
        ensures { result ≡ self.now.length }
    {
        self.length
    }

    /// Its rows, in order.
    pub fn rows(&self) -> &[Row<K, R>]
        ensures { result.now ≡ self.now.rows.items }
    {
        &self.rows
    }

    /// How many rows it has: none where its list is empty.
    pub fn row_count(&self) -> usize
        ensures { result ≡ length self.now.rows.items }
    {
        self.rows.len()
    }

    /// The greatest key of each row but the last.
    pub fn separators(&self) -> &[K]
        ensures { result.now ≡ self.now.separators.items }
    {
        &self.separators
    }

    /// How many segments it says that there are up to the end of each row.
    pub fn ends(&self) -> &[usize]
        ensures { result.now ≡ self.now.ends.items }
    {
        &self.ends
    }

    /// How many segments its ends count: none where its list is empty.
    pub fn segments(&self) -> usize
        ensures { result ≡ count_in self.now.ends.items }
    {
        self.start_of(self.ends.len())
    }

    /// The row of the segment at a place among all, and its place there: one search of the ends by halving. Condition:
    /// there is one.
    pub fn spot_of(&self, place: usize) -> Spot
        requires { place < count_in self.now.ends.items }
        ensures inside { IsInside self.now.ends.items result }
        ensures place { place_at self.now.ends.items result ≡ place }
    {
        // its count tells the proof that there is a number above the place
        let _count = self.segments();
        let row = place_of(&self.ends, &(place + 1));
        Spot {
            row,
            at: place - self.start_of(row),
        }
    }

    /// The row of the segment at a place among all, and its place there, as `spot_of` answers. No search is made where it lies in the
    /// row named, which needn't be there. Condition: the segment is there.
    pub fn spot_near(&self, place: usize, row: usize) -> Spot
        requires { place < count_in self.now.ends.items }
        ensures inside { IsInside self.now.ends.items result }
        ensures place { place_at self.now.ends.items result ≡ place }
    {
        if self.lies_in(place, row) {
            Spot {
                row,
                at: place - self.start_of(row),
            }
        } else {
            self.spot_of(place)
        }
    }

    /// Whether a row has the segment at a place among all.
    #[inline]
    fn lies_in(&self, place: usize, row: usize) -> bool
        ensures row { IsTrue result → row < length self.now.ends.items }
        ensures begins { IsTrue result → start_of self.now.ends.items row ≤ place }
        ensures stops { IsTrue result → place < end_of self.now.ends.items row }
    {
        row < self.ends.len() && self.start_of(row) <= place && place < self.ends[row]
    }

    /// The place among all segments of one in a row. Condition: it is there.
    #[inline]
    pub fn place_at(&self, spot: Spot) -> usize
        requires { IsInside self.now.ends.items spot }
        ensures { result ≡ place_at self.now.ends.items spot }
    {
        // what is read here tells the proof that the sum is a number
        let _end = self.ends[spot.row];
        self.start_of(spot.row) + spot.at
    }

    /// How many segments lie before a row.
    #[inline]
    pub fn start_of(&self, row: usize) -> usize
        requires { row ≤ length self.now.ends.items }
        ensures { result ≡ start_of self.now.ends.items row }
    {
        if row == 0 { 0 } else { self.ends[row - 1] }
    }

    /// Where its memory is from.
    pub fn allocator(&self) -> Global {
        *self.rows.allocator()
    }

    /// Its number, its length, its rows, the greatest key of each but the last, and their ends.
    pub fn into_parts(self) -> (u64, usize, Vec<Row<K, R>>, Vec<K>, Vec<usize>)
        ensures { record { number = result.0; length = result.1; rows = result.2; separators = result.3; ends = result.4 } ≡ self }
    {
        let Directory {
            number,
            length,
            rows,
            separators,
            ends,
        } = self;
        (number, length, rows, separators, ends)
    }

    /// Its rows, in order: all that is left of it.
    pub fn into_rows(self) -> Vec<Row<K, R>>
    where
        K: Drop,
        ensures { result.items ≡ self.rows.items }
    {
        let Directory {
            number: _,
            length: _,
            rows,
            separators: _,
            ends: _,
        } = self;
        rows
    }
}
