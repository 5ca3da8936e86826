//! A rank in a leaf, which the cursors over its pairs share.

ghost use Rattle.std.specs.Prelude.{◌≡◌};
ghost use Rattle.tree_index.specs.Cursor.{deref_pair};
ghost use Rattle.tree_index.specs.LeafCursor.{ranked};

use tree_nodes::Leaf;

/// A leaf, and the rank of one of its pairs, counted from 1; 0 is the start of a cursor.
#[derive_where(Clone, Copy)]
pub(crate) struct LeafPosition<'l, K: Ord, V> {
    pub(crate) leaf: &'l Leaf<K, V>,
    pub(crate) rank: usize,
}

impl<'l, K: Ord, V> LeafPosition<'l, K, V> {
    /// The pair at its rank; none at the start.
    pub(crate) fn pair(&self) -> Option<(&'l K, &'l V)>
        ensures { deref_pair result ≡ ranked self.now.rank self.now.leaf.now.array.pairs }
    {
        ranked(self.leaf, self.rank)
    }
}

/// The pair at a rank of a leaf, counted from 1.
pub(crate) fn ranked<K: Ord, V>(leaf: &Leaf<K, V>, rank: usize) -> Option<(&K, &V)>
    ensures { deref_pair result ≡ ranked rank leaf.now.array.pairs }
{
    if rank == 0 {
        return None;
    }
    leaf.array.pair(rank - 1)
}
