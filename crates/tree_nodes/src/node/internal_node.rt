//! A node over other nodes.

ghost use Rattle.std.specs.Prelude.{IfSome};
ghost use Rattle.std.specs.BTreeMap.{is_at};
ghost use Rattle.std.specs.Map.{lookup_entry};
ghost use Rattle.tree_nodes.specs.Reads.{FnOnceReadsPair, FnOnceTakesPair};

use crate::node::Standing;
use std::marker::Model;

/// A node of a tree whose children are nodes: at most fifteen with the greatest keys that they may hold,
/// and one behind them. (`scc`'s `tree_index::internal_node::InternalNode`.)
///
/// To contracts it is the list of the pairs under it, by rising keys, and how many nodes lie from it down to
/// a leaf.
#[derive(Drop)]
pub struct InternalNode<'t, K: Ord, V> {
    pub(crate) standing: Standing<'t, K, V>,
}

/// Invariant: specs/Standing.antt, IsStanding: the node is in a sound tree; its children are nodes.
impl<'t, K: Ord, V> Model for InternalNode<'t, K, V> {
    ghost use Rattle.std.specs.Prelude.{◌<◌};
    ghost use Rattle.tree_nodes.specs.Standing.{standing_pairs, IsStanding, Nested, nested_code};

    ghost Value = { Nested K V };

    ghost coded = { nested_code K.code V.code };

    ghost view = { λ n. record { pairs = standing_pairs n.standing; height = n.standing.height } };

    ghost invariant = { λ n. IsStanding K.cmp n.standing × (1 < n.standing.height) };
}

impl<'t, K: Ord, V> InternalNode<'t, K, V> {
    /// Calls `f` on the pair with this key, once, and gives what it answers, if the key is under this node.
    /// Else `f` isn't called.
    pub fn read_entry<R, F: FnOnce(&K, &V) -> R>(&self, key: &K, f: F) -> Option<R>
    where
        F: Drop,
        requires { IfSome (lookup_entry (is_at (K.cmp key.now)) self.now.pairs) (FnOnceTakesPair F.FnOnce f) }
        ensures { FnOnceReadsPair F.FnOnce f (lookup_entry (is_at (K.cmp key.now)) self.now.pairs) result }
    {
        self.standing.read_entry(key, f)
    }
}
