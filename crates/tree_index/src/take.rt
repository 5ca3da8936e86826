//! The first pairs of a cursor.

ghost use Rattle.std.specs.Prelude.{◌≡◌};

use crate::range::Range;
use std::marker::Model;

/// An iterator over at most a number of a cursor's pairs: what [`Range::take`] and
/// [`Iter::take`](crate::Iter::take) return.
///
/// It is the standard library's `Take` for these cursors alone: a step is compiled into its caller, whatever
/// the number of callers, where a step of the other is a call once a program has several.
#[derive(Drop)]
pub struct Take<'t, K: Ord, V> {
    range: Range<'t, K, V>,
    left: usize,
}

impl<'t, K: Ord, V> Model for Take<'t, K, V> {
    ghost use Rattle.tree_index.specs.Take.{Limited, limited_code};

    ghost Value = { Limited K V };

    ghost coded = { limited_code K.code V.code };

    ghost view = { λ t. record { cursor = t.range; left = t.left } };
}

impl<'t, K: Ord, V> Take<'t, K, V> {
    /// At most `left` pairs of a cursor.
    #[inline(always)]
    pub(crate) fn new(range: Range<'t, K, V>, left: usize) -> Self
        ensures { result ≡ record { cursor = range.entry; left = left } }
    {
        Take { range, left }
    }
}

impl<'t, K: Ord, V> Iterator for Take<'t, K, V> {
    ghost use Rattle.std.specs.Iterator.{at_most};
    ghost use Rattle.tree_index.specs.Take.{TakesForth};

    type Item = (&'t K, &'t V);

    ghost next_gives = { TakesForth K.cmp };

    ghost remaining = { λ s. at_most s.left };

    /// Moves the forward end of the cursor as its own `next` does, unless the count is used up.
    #[inline(always)]
    fn next(&mut self) -> Option<(&'t K, &'t V)> {
        if self.left == 0 {
            return None;
        }
        self.left -= 1;
        self.range.next()
    }
}
