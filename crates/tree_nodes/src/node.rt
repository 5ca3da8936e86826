//! The inner nodes of the tree: as they are in their arena, and as a tree lends them.
//!
//! <!-- crates/tree_tests/src/tree.rt leaf_at -->
//! ```text
//! /// The leaf of a tree on the way to a key, from the root down: a child has one node less down to a leaf, so
//! /// the way ends, at a node over leaves.
//! fn leaf_at<'t>(tree: &'t TreeIndex<u64, u64>, key: u64) -> Option<&'t Leaf<u64, u64>> {
//!     let mut node = tree.root()?;
//!     'down: loop {
//!         node = match node {
//!             Node::Leaf(last) => return Some(last.leaf(&key)),
//!             Node::Internal(inner) => inner.child(&key),
//!         };
//!     }
//! }
//! ```
//! <!-- end -->

ghost use Rattle.std.specs.Prelude.{◌≡◌, ◌≢◌, ◌+◌, ◌-◌, ◌<◌, ◌≤◌, ◌==◌, ◌++◌, ◌∷◌, ◌↔◌, IsTrue, IsSome, IfSome, Some, None, [], true, false, length, take};
ghost use Rattle.tree_nodes.specs.SplitPoints.{last_pair};
ghost use Rattle.std.specs.List.{remove};
ghost use Rattle.leaf_array.specs.Cells.{lesser};
ghost use Rattle.std.specs.BTreeMap.{is_at, insert_entry};
ghost use Rattle.std.specs.Map.{lookup, lookup_entry};
ghost use Rattle.tree_nodes.specs.Content.{pairs_of, IsSound};
ghost use Rattle.tree_nodes.specs.Nodes.{height_in, is_internal, node_pairs};
ghost use Rattle.tree_nodes.specs.Reads.{FnOnceReadsPair, FnOnceTakesPair};
ghost use Rattle.tree_nodes.specs.Standing.{standing_pairs, IsAround, IsStanding};
ghost use Rattle.tree_nodes.specs.Shape.{child_for, first_child, IsNode};

use crate::arenas::Arenas;
use leaf_array::{Array, InsertResult, Steps};

mod internal_node;
mod leaf_node;
mod standing;

pub use internal_node::InternalNode;
pub use leaf_node::LeafNode;
pub(crate) use standing::Standing;

/// A node of a tree, lent by the tree. (`scc`'s `tree_index::node::Node`.)
///
/// `TreeIndex::root` lends the first one, and each its children. While a node is
/// held the tree can't change.
#[derive(Drop)]
pub enum Node<'t, K: Ord, V> {
    /// Its children are nodes.
    Internal(InternalNode<'t, K, V>),
    /// Its children are leaves.
    Leaf(LeafNode<'t, K, V>),
}

impl<'t, K: Ord, V> Node<'t, K, V> {
    /// The node at a number.
    pub(crate) fn over(standing: Standing<'t, K, V>) -> Self
        requires stands { IsStanding K.cmp standing }
        requires node { standing.height ≢ 0 }
        ensures pairs { node_pairs result ≡ standing_pairs standing.entry }
        ensures height { height_in result ≡ standing.entry.height }
        ensures kind { IsTrue (is_internal result) ↔ (1 < standing.entry.height) }
    {
        if standing.height > 1 {
            Node::Internal(InternalNode { standing })
        } else {
            Node::Leaf(LeafNode { standing })
        }
    }

    /// Calls `f` on the pair with this key, once, and gives what it answers, if the key is under this node.
    /// Else `f` isn't called.
    pub fn read_entry<R, F: FnOnce(&K, &V) -> R>(&self, key: &K, f: F) -> Option<R>
    where
        F: Drop,
        requires { IfSome (lookup_entry (is_at (K.cmp key.now)) (node_pairs self.now)) (FnOnceTakesPair F.FnOnce f) }
        ensures { FnOnceReadsPair F.FnOnce f (lookup_entry (is_at (K.cmp key.now)) (node_pairs self.now)) result }
    {
        match self {
            Node::Internal(node) => node.read_entry(key, f),
            Node::Leaf(node) => node.read_entry(key, f),
        }
    }
}

// Here and not beside the struct, since its clauses name the enum that holds the struct.
impl<'t, K: Ord, V> InternalNode<'t, K, V> {
    /// The child on the way to a key: if a pair under this node has the key, it is under that child. The pairs
    /// before that child have lesser keys, and those behind it greater ones.
    ///
    /// A child has one node less down to a leaf, so a way down from child to child ends at a node over leaves.
    pub fn child(&self, key: &K) -> Node<'t, K, V>
        ensures found { lookup_entry (is_at (K.cmp key.now)) self.now.pairs ≡ lookup_entry (is_at (K.cmp key.now)) (node_pairs result) }
        ensures around { IsAround K.cmp key.now (node_pairs result) self.now.pairs }
        ensures height { height_in result + 1 ≡ self.now.height }
    {
        Node::over(self.standing.child(key))
    }
}

impl<K: Ord, V> Arenas<K, V> {
    /// The root node, if there is one.
    pub fn root_node(&self) -> Option<Node<'_, K, V>>
        requires { IsSound K.cmp self.now }
        ensures planted { IsSome result ↔ (0 < self.now.height) }
        ensures pairs { IfSome result (λ n. node_pairs n ≡ pairs_of self.now) }
        ensures kind { IfSome result (λ n. IsTrue (is_internal n) ↔ (1 < self.now.height)) }
        ensures height { IfSome result (λ n. height_in n ≡ self.now.height) }
    {
        if self.height == 0 {
            return None;
        }
        Some(Node::over(Standing {
            arenas: self,
            at: self.root,
            height: self.height,
        }))
    }
}

/// At most fifteen children with their separators, the greatest keys that they may hold, and one
/// child behind them. All are named by their numbers.
#[derive(Drop)]
pub(crate) struct InnerNode<K: Ord> {
    pub(crate) children: Array<K, usize>,
    pub(crate) last: usize,
}

impl<K: Ord> InnerNode<K> {
    /// The child on the way to a key.
    #[inline(always)]
    pub(crate) fn child(&self, key: &K) -> usize
        ensures { result ≡ child_for K.cmp key.now self.now.children.pairs self.now.last }
    {
        let mut steps = Steps::new();
        self.child_counted(key, &mut steps)
    }

    /// The same, by at most nine comparisons, which are counted.
    #[inline(always)]
    pub(crate) fn child_counted(&self, key: &K, steps: &mut Steps) -> usize
        ensures child { result ≡ child_for K.cmp key.now self.now.children.pairs self.now.last }
        ensures cost { steps.new.count ≤ steps.old.count + 9 }
        ensures raised { steps.old.count ≤ steps.new.count }
    {
        match self.children.lower_bound_counted(key, steps).1 {
            Some((_, child)) => *child,
            None => self.last,
        }
    }

    /// The first child.
    #[inline]
    pub(crate) fn first(&self) -> usize
        ensures { result ≡ first_child self.now.children.pairs self.now.last }
    {
        match self.children.pair(0) {
            Some(first) => *first.1,
            None => self.last,
        }
    }

    /// Whether there is no room for one more child.
    #[inline]
    pub(crate) fn is_full(&self) -> bool
        requires { IsNode self.now.children }
        ensures full { result ≡ (self.now.children.used == 15) }
        ensures within { self.now.children.used ≤ 15 }
    {
        let _ = self.children.len();
        self.children.is_full()
    }

    /// Puts a child in its place by its separator.
    pub(crate) fn insert(&mut self, separator: K, child: usize)
    where
        K: Drop,
        requires node { IsNode self.old.children }
        requires room { self.old.children.used < 15 }
        requires absent { lookup (is_at (K.cmp separator)) self.old.children.pairs ≡ None }
        ensures node { IsNode self.new.children }
        ensures separators { self.new.children.pairs ≡ insert_entry K.cmp self.old.children.pairs separator child }
        ensures last { self.new.last ≡ self.old.last }
    {
        let _ = self.children.len();
        match self.children.insert::<false>(separator, child) {
            InsertResult::Success => {},
            _ => unreachable!(),
        }
        let _ = self.children.len();
    }

    /// Puts a child behind all others, and a separator above all others between it and the one before.
    pub(crate) fn append(&mut self, separator: K, child: usize)
        requires node { IsNode self.old.children }
        requires room { self.old.children.used < 15 }
        requires above { lesser K.cmp separator self.old.children.pairs ≡ length self.old.children.pairs }
        ensures node { IsNode self.new.children }
        ensures separators { self.new.children.pairs ≡ self.old.children.pairs ++ (separator, self.old.last) ∷ [] }
        ensures last { self.new.last ≡ child }
    {
        self.children.push_last(separator, self.last);
        self.last = child;
    }

    /// The child on the way to a key, and how many children come before it.
    pub(crate) fn turn(&self, key: &K) -> (usize, usize)
        ensures place { result.0 ≡ lesser K.cmp key.now self.now.children.pairs }
        ensures child { result.1 ≡ child_for K.cmp key.now self.now.children.pairs self.now.last }
    {
        let (place, pair) = self.children.lower_bound(key);
        match pair {
            Some((_, child)) => (place, *child),
            None => (place, self.last),
        }
    }

    /// Whether there is one child.
    #[inline]
    pub(crate) fn is_single(&self) -> bool
        ensures single { result ≡ true → self.now.children.pairs ≡ [] }
        ensures more { result ≡ false → self.now.children.pairs ≢ [] }
    {
        self.children.is_empty()
    }

    /// The last child of a node that is no longer needed.
    pub(crate) fn into_last(self) -> usize
    where
        K: Drop,
        ensures { result ≡ self.last }
    {
        self.last
    }

    /// Lets go of the child at a place, where there is another one: a neighbour takes its keys over.
    pub(crate) fn shed(&mut self, place: usize)
    where
        K: Drop,
        requires node { IsNode self.old.children }
        requires more { self.old.children.pairs ≢ [] }
        requires within { place ≤ length self.old.children.pairs }
        ensures node { IsNode self.new.children }
        ensures inner { place < length self.old.children.pairs → (self.new.children.pairs ≡ remove self.old.children.pairs place) × (self.new.last ≡ self.old.last) }
        ensures outer { place ≡ length self.old.children.pairs → self.new.children.pairs ≡ take (length self.old.children.pairs - 1) self.old.children.pairs }
        ensures last { place ≡ length self.old.children.pairs → IfSome (last_pair self.old.children.pairs) (λ e. self.new.last ≡ e.1) }
    {
        if place < self.children.len() {
            self.children.bury(place);
            self.children.pack();
            return;
        }
        match self.children.pop_last() {
            Some((_, child)) => self.last = child,
            None => unreachable!(),
        }
    }

    /// Moves the lower half to a node of its own, and gives the separator between both.
    pub(crate) fn split(&mut self) -> (K, InnerNode<K>)
    where
        K: Drop,
        requires node { IsNode self.old.children }
        requires full { self.old.children.used ≡ 15 }
        ensures parts { self.old.children.pairs ≡ result.1.children.pairs ++ (result.0, result.1.last) ∷ self.new.children.pairs }
        ensures lower { IsNode result.1.children }
        ensures upper { IsNode self.new.children }
        ensures lower_room { result.1.children.used ≡ 7 }
        ensures upper_room { self.new.children.used ≡ 7 }
        ensures last { self.new.last ≡ self.old.last }
    {
        let _ = self.children.len();
        let mut lower = self.children.split_half();
        match lower.pop_last() {
            Some((separator, last)) => (
                separator,
                InnerNode {
                    children: lower,
                    last,
                },
            ),
            None => unreachable!(),
        }
    }
}
