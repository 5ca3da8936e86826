//! Trees, their cursors, leaves and nodes by example.

use std::alloc::Global;
use tree_index::leaf::Leaf;
use tree_index::{Node, TreeIndex};

mod calls;
mod cursor;
mod each_call;
mod index;
mod large;
mod leaf;
mod node;
mod push;
mod refusals;
mod removal;
mod runs;
mod shrink;
mod text;

/// A tree of numbers.
type Tree = TreeIndex<u64, u64>;

/// The leaf of a tree on the way to a key, from the root down: a child has one node less down to a leaf, so
/// the way ends, at a node over leaves.
fn leaf_at<'t>(tree: &'t TreeIndex<u64, u64>, key: u64) -> Option<&'t Leaf<u64, u64>> {
    let mut node = tree.root()?;
    'down: loop {
        node = match node {
            Node::Leaf(last) => return Some(last.leaf(&key)),
            Node::Internal(inner) => inner.child(&key),
        };
    }
}

/// A tree with these pairs.
fn tree_of(alloc: Global, pairs: &[(u64, u64)]) -> Tree {
    let mut tree = each_call::empty(alloc);
    for (key, val) in pairs {
        let _inserted = each_call::insert(&mut tree, *key, *val);
    }
    tree
}
