//! Nodes by example.

use super::Tree;
use super::calls::{Act, EVENS, Seen, all, shown};
use super::each_call::{clear, depth_of, empty, insert, len_of};
use tree_index::Node;

/// The pair that a node lends to a function.
fn entry(node: &Node<'_, u64, u64>, key: u64) -> Seen {
    node.read_entry(&key, shown)
}

/// Whether the root is over leaves, and lends this pair to a function, or none.
fn lends_over_leaves(tree: &Tree, key: u64, wanted: Seen) -> bool {
    match tree.root() {
        Some(Node::Leaf(node)) => node.read_entry(&key, shown) == wanted,
        _ => false,
    }
}

fn has_no_root(tree: &Tree) -> bool {
    tree.root().is_none()
}

#[test]
fn a_tree_without_nodes_has_no_root(rt: HostRuntime) {
    let mut tree = empty(rt.alloc());
    let new = has_no_root(&tree);
    let taken = insert(&mut tree, 4, 5);
    let there = lends_over_leaves(&tree, 4, Some((4, 5)));
    let absent = lends_over_leaves(&tree, 3, None);
    clear(&mut tree);
    let cleared = has_no_root(&tree);
    assert!(rt; new && taken && there && absent && cleared);
}

/// How many nodes lie on the way to a key, where each lends this pair, or none.
fn way_to(tree: &Tree, key: u64, wanted: Seen) -> Option<usize> {
    let mut next = tree.root();
    let mut nodes = 0usize;
    for _ in 0..16u32 {
        next = match next {
            None => None,
            Some(node) => {
                nodes = nodes.wrapping_add(1);
                if entry(&node, key) != wanted {
                    return None;
                }
                match node {
                    Node::Internal(inner) => Some(inner.child(&key)),
                    Node::Leaf(_) => None,
                }
            },
        };
    }
    Some(nodes)
}

/// Whether each key up to 8000 is read at as many nodes as the tree has levels: the even ones below 8000, and no others.
fn reads_on_the_way(tree: &Tree) -> bool {
    let mut as_said = true;
    for key in 0..8001u64 {
        let wanted = (key % 2 == 0 && key < 8000).then_some((key, key + 1));
        as_said = way_to(tree, key, wanted) == Some(depth_of(tree)) && as_said;
    }
    as_said
}

/// The pairs of two keys at the child of the root for a third one, and that of the second at the root.
fn read_below_root(tree: &Tree, near: u64, far: u64) -> Option<[Seen; 3]> {
    match tree.root() {
        Some(Node::Internal(root)) => {
            let first = root.child(&near);
            let below = root.read_entry(&far, shown);
            Some([entry(&first, near), entry(&first, far), below])
        },
        _ => None,
    }
}

// A child has no keys of its neighbours.
const AT_A_CHILD: [Seen; 3] = [Some((0, 1)), None, Some((7998, 7999))];

#[test]
fn a_key_is_read_at_the_root_and_at_each_node_on_the_way(rt: HostRuntime) {
    let mut tree = empty(rt.alloc());
    let taken = all(&mut tree, Act::Fill, EVENS, 0, 4000);
    let read = reads_on_the_way(&tree) && read_below_root(&tree, 0, 7998) == Some(AT_A_CHILD);
    assert!(rt; taken && read && len_of(&tree) == 4000 && depth_of(&tree) >= 2);
}
