//! An end of a walk: a place in a segment.

ghost use Rattle.std.specs.Prelude.{◌≡◌};
ghost use Rattle.tree_index.specs.Cursor.{moved_back, moved_forth, deref_pair, shown_forth, shown_back};
ghost use Rattle.version_views.specs.CursorEnds.{swapped};

use tree_index::Iter;

/// A place in a segment: an end of a cursor over its tree.
#[derive(Drop)]
pub(crate) struct Position<'a, K: Ord, V> {
    pub(crate) segment: usize,
    pub(crate) cursor: Iter<'a, K, V>,
}

/// The position of an end of a walk: not yet set, at a pair, or past all of them for good.
///
/// The forward end of a walk is the forward end of its cursor, and the backward end the backward one.
#[derive(Drop)]
pub(crate) enum CursorEnd<'a, K: Ord, V> {
    Unopened,
    At(Position<'a, K, V>),
    Done,
}

impl<'a, K: Ord, V> Position<'a, K, V> {
    /// Moves the forward end, and gives its pair.
    #[inline(always)]
    pub(crate) fn step(&mut self) -> Option<(&'a K, &'a V)>
        ensures segment { self.new.segment ≡ self.old.segment }
        ensures cursor { self.new.cursor ≡ moved_forth K.cmp self.old.cursor }
        ensures pair { deref_pair result ≡ shown_forth K.cmp self.new.cursor }
    {
        match self.cursor.next() {
            Some(pair) => Some(pair),
            // The other end of the cursor may hide the pair.
            None => self.pair(),
        }
    }

    /// The pair of the forward end.
    #[inline(always)]
    fn pair(&self) -> Option<(&'a K, &'a V)>
        ensures { deref_pair result ≡ shown_forth K.cmp self.now.cursor }
    {
        pair_of(self.cursor.clone())
    }

    /// The pair of the backward end.
    #[inline(always)]
    pub(crate) fn pair_back(&self) -> Option<(&'a K, &'a V)>
        ensures { deref_pair result ≡ shown_back K.cmp self.now.cursor }
    {
        pair_back_of(self.cursor.clone())
    }

    /// Moves the backward end, and gives its pair.
    #[inline(always)]
    pub(crate) fn step_back(&mut self) -> Option<(&'a K, &'a V)>
        ensures segment { self.new.segment ≡ self.old.segment }
        ensures cursor { self.new.cursor ≡ moved_back K.cmp self.old.cursor }
        ensures pair { deref_pair result ≡ shown_back K.cmp self.new.cursor }
    {
        match self.cursor.next_back() {
            Some(pair) => Some(pair),
            None => self.cursor.get_back(),
        }
    }

    /// The place as the other end of its cursor, where that one isn't open.
    pub(crate) fn swapped(self) -> Self
        ensures { CursorEnd.At result ≡ swapped K.cmp (CursorEnd.At self.entry) }
    {
        let Position {
            segment,
            mut cursor,
        } = self;
        let _ = cursor.flip();
        Position { segment, cursor }
    }
}

impl<'a, K: Ord, V> CursorEnd<'a, K, V> {
    /// Another end at the same place.
    pub(crate) fn copy(&self) -> Self
        ensures { result ≡ self.now }
    {
        match self {
            CursorEnd::Unopened => CursorEnd::Unopened,
            CursorEnd::At(position) => CursorEnd::At(Position {
                segment: position.segment,
                cursor: position.cursor.clone(),
            }),
            CursorEnd::Done => CursorEnd::Done,
        }
    }

    /// The end as the other one of its cursor, where that one isn't open.
    pub(crate) fn swapped(self) -> Self
        ensures { result ≡ swapped K.cmp self.entry }
    {
        match self {
            CursorEnd::Unopened => CursorEnd::Unopened,
            CursorEnd::At(position) => CursorEnd::At(position.swapped()),
            CursorEnd::Done => CursorEnd::Done,
        }
    }
}

/// The pair of a cursor's forward end.
// The cursor is a copy, so that the one in a walk can stay in registers.
#[inline(never)]
fn pair_of<'a, K: Ord, V>(cursor: Iter<'a, K, V>) -> Option<(&'a K, &'a V)>
    ensures { deref_pair result ≡ shown_forth K.cmp cursor.entry }
{
    cursor.get()
}

/// The pair of a cursor's backward end.
#[inline(never)]
fn pair_back_of<'a, K: Ord, V>(cursor: Iter<'a, K, V>) -> Option<(&'a K, &'a V)>
    ensures { deref_pair result ≡ shown_back K.cmp cursor.entry }
{
    cursor.get_back()
}
