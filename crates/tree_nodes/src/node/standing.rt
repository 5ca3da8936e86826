//! The number of a subtree in the arenas, which the kinds of nodes share.

ghost use Rattle.std.specs.Prelude.{◌≡◌, ◌≢◌, ◌+◌, IfSome, Some, None};
ghost use Rattle.std.specs.BTreeMap.{is_at};
ghost use Rattle.std.specs.Map.{lookup_entry};
ghost use Rattle.tree_nodes.specs.Reads.{FnOnceReadsPair, FnOnceTakesPair};
ghost use Rattle.tree_nodes.specs.Standing.{standing_pairs, IsAround, IsStanding};

use crate::arenas::Arenas;
use crate::leaf::Leaf;

/// The number of a node, or at the height 0 of a leaf, and how many nodes lie from it down to a leaf.
#[derive_where(Clone, Copy)]
pub(crate) struct Standing<'t, K: Ord, V> {
    pub(crate) arenas: &'t Arenas<K, V>,
    pub(crate) at: usize,
    pub(crate) height: usize,
}

impl<'t, K: Ord, V> Standing<'t, K, V> {
    /// Calls `f` on the pair with this key under it, once, and gives what it answers.
    pub(crate) fn read_entry<R, F: FnOnce(&K, &V) -> R>(&self, key: &K, f: F) -> Option<R>
    where
        F: Drop,
        requires callable { IfSome (lookup_entry (is_at (K.cmp key.now)) (standing_pairs self.now)) (FnOnceTakesPair F.FnOnce f) }
        requires stands { IsStanding K.cmp self.now }
        ensures { FnOnceReadsPair F.FnOnce f (lookup_entry (is_at (K.cmp key.now)) (standing_pairs self.now)) result }
    {
        match self.leaf(key).array.search_entry(key) {
            Some((stored, value)) => Some(f(stored, value)),
            None => None,
        }
    }

    /// The leaf under it on the way to a key.
    pub(crate) fn leaf(&self, key: &K) -> &'t Leaf<K, V>
        requires { IsStanding K.cmp self.now }
        ensures found { lookup_entry (is_at (K.cmp key.now)) (standing_pairs self.now) ≡ lookup_entry (is_at (K.cmp key.now)) result.now.array.pairs }
        ensures around { IsAround K.cmp key.now result.now.array.pairs (standing_pairs self.now) }
    {
        let mut at = *self;
        while at.height > 0 {
            at = at.child(key);
        }
        match self.arenas.leaves.get(at.at) {
            Some(leaf) => leaf,
            None => unreachable!(),
        }
    }

    /// The child of a node on the way to a key.
    pub(crate) fn child(&self, key: &K) -> Standing<'t, K, V>
        requires stands { IsStanding K.cmp self.now }
        requires node { self.now.height ≢ 0 }
        ensures arenas { result.arenas.now ≡ self.now.arenas.now }
        ensures stands { IsStanding K.cmp result }
        ensures height { result.height + 1 ≡ self.now.height }
        ensures found { lookup_entry (is_at (K.cmp key.now)) (standing_pairs self.now) ≡ lookup_entry (is_at (K.cmp key.now)) (standing_pairs result) }
        ensures around { IsAround K.cmp key.now (standing_pairs result) (standing_pairs self.now) }
    {
        match self.arenas.nodes.get(self.at) {
            Some(node) => Standing {
                arenas: self.arenas,
                at: node.child(key),
                height: self.height - 1,
            },
            None => unreachable!(),
        }
    }
}
