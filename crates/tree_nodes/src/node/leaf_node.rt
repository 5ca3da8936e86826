//! A node over leaves.

ghost use Rattle.std.specs.Prelude.{◌≡◌, IfSome};
ghost use Rattle.std.specs.BTreeMap.{is_at};
ghost use Rattle.std.specs.Map.{lookup_entry};
ghost use Rattle.tree_nodes.specs.Reads.{FnOnceReadsPair, FnOnceTakesPair};
ghost use Rattle.tree_nodes.specs.Standing.{IsAround};

use crate::leaf::Leaf;
use crate::node::Standing;
use std::marker::Model;

/// A node of a tree whose children are leaves: at most fifteen with the greatest keys that they may hold,
/// and one behind them. (`scc`'s `tree_index::leaf_node::LeafNode`.)
///
/// To contracts it is the list of the pairs under it, by rising keys.
#[derive(Drop)]
pub struct LeafNode<'t, K: Ord, V> {
    pub(crate) standing: Standing<'t, K, V>,
}

/// Invariant: specs/Standing.antt, IsStanding: the node is in a sound tree; its children are leaves.
impl<'t, K: Ord, V> Model for LeafNode<'t, K, V> {
    ghost use Rattle.std.specs.Prelude.{List, ◌≡◌};
    ghost use Rattle.std.specs.Coded.{coded×, coded_list};
    ghost use Rattle.tree_nodes.specs.Standing.{standing_pairs, IsStanding};

    ghost Value = { List (K × V) };

    ghost coded = { coded_list (coded× K.code V.code) };

    ghost view = { λ n. standing_pairs n.standing };

    ghost invariant = { λ n. IsStanding K.cmp n.standing × (n.standing.height ≡ 1) };
}

impl<'t, K: Ord, V> LeafNode<'t, K, V> {
    /// Calls `f` on the pair with this key, once, and gives what it answers, if the key is under this node.
    /// Else `f` isn't called.
    pub fn read_entry<R, F: FnOnce(&K, &V) -> R>(&self, key: &K, f: F) -> Option<R>
    where
        F: Drop,
        requires { IfSome (lookup_entry (is_at (K.cmp key.now)) self.now) (FnOnceTakesPair F.FnOnce f) }
        ensures { FnOnceReadsPair F.FnOnce f (lookup_entry (is_at (K.cmp key.now)) self.now) result }
    {
        self.standing.read_entry(key, f)
    }

    /// The leaf on the way to a key: if a pair under this node has the key, it is in that leaf. The pairs before
    /// that leaf have lesser keys, and those behind it greater ones.
    pub fn leaf(&self, key: &K) -> &'t Leaf<K, V>
        ensures found { lookup_entry (is_at (K.cmp key.now)) self.now ≡ lookup_entry (is_at (K.cmp key.now)) result.now.array.pairs }
        ensures around { IsAround K.cmp key.now result.now.array.pairs self.now }
    {
        self.standing.leaf(key)
    }
}
