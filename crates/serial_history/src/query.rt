//! Questions to a list of pairs, and their answers.

ghost use Rattle.std.specs.Prelude.{◌≡◌, ◌<◌};
ghost use Rattle.serial_history.specs.Parts.{has_room, is_over, place_of};

use crate::seq::Seq;
use std::ops::Bound;

/// A question to a list of pairs.
#[derive(Clone, Debug, PartialEq, Eq, Drop)]
pub enum Query<K> {
    /// The value of the pair with this key.
    Get(K),
    /// Whether a pair has this key.
    Contains(K),
    /// The pairs whose keys lie within two bounds. Reversed bounds contain none.
    Range(Bound<K>, Bound<K>),
    /// The pair with this key, or the nearest ones.
    Locate(K),
    /// The first pairs within two bounds: this many, or all if there are fewer. A write beyond the
    /// last of them changes nothing in it.
    First(Bound<K>, Bound<K>, usize),
    /// The last pairs within two bounds, in ascending order: this many, or all if there are fewer. A
    /// write before the first of them changes nothing in it.
    Last(Bound<K>, Bound<K>, usize),
}

/// The answer to a [`Query`]: `Range` to `Range`, `First` and `Last`, and else that of the same name. An
/// answer of another kind is never the right one.
#[derive(Clone, Debug, PartialEq, Eq, Drop)]
pub enum Answer<K, V> {
    /// The value, or none where no pair has the key.
    Get(Option<V>),
    /// Whether a pair has the key.
    Contains(bool),
    /// The pairs, by rising keys.
    Range(Seq<(K, V)>),
    /// The pair at the key, or those around it.
    Locate(Near<K, V>),
}

/// Which of the pairs within two bounds are meant.
#[derive(Clone, Copy, Debug, PartialEq, Eq)]
pub enum Part {
    /// All of them.
    All,
    /// The first ones: this many, or all if there are fewer.
    First(usize),
    /// The last ones: this many, or all if there are fewer.
    Last(usize),
}

impl Part {
    /// Whether it may have another pair beside `count`.
    pub(crate) fn has_room(self, count: usize) -> bool
        ensures { result ≡ has_room self count }
    {
        match self {
            Part::All => true,
            Part::First(most) | Part::Last(most) => count < most,
        }
    }

    /// Whether `count` pairs are more than it may have.
    pub(crate) fn is_over(self, count: usize) -> bool
        ensures { result ≡ is_over self count }
    {
        match self {
            Part::All => false,
            Part::First(most) | Part::Last(most) => most < count,
        }
    }

    /// The position of the pair with this number among `count`, in the order in which a cursor gives them: the last one
    /// first, for the last ones.
    pub(crate) fn place(self, number: usize, count: usize) -> usize
        requires { number < count }
        ensures within { result < count }
        ensures place { result ≡ place_of self number count }
    {
        match self {
            Part::Last(_) => count - 1 - number,
            _ => number,
        }
    }
}

/// The pair with a key, or the nearest ones where no pair has it.
#[derive(Clone, Debug, PartialEq, Eq, Drop)]
pub enum Near<K, V> {
    /// The pair that has the key.
    Exact(K, V),
    /// The nearest smaller pair, and the nearest larger one.
    Between(K, V, K, V),
    /// All pairs are smaller: the last one.
    Smaller(K, V),
    /// All pairs are larger: the first one.
    Larger(K, V),
    /// There are no pairs.
    Empty,
}
