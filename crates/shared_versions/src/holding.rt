//! What a node holds, and how it gives that up.

ghost use Rattle.std.specs.Prelude.{◌≡◌, None};
ghost use Rattle.shared_versions.specs.Nodes.{held_by, version_of};

use crate::node::{Node, Rest};
use sdd_domain::held::Held;
use sdd_domain::holds::Holds;
use std::mem;

/// A version gives the owners of its rows up, from the last one on: the first time it becomes the rest of a version, whose rows
/// are left. A row holds nothing: its segments are shared with other rows, and go with the last one.
impl<K: Ord + Drop, V: Drop> Holds for Node<K, V> {
    ghost use Rattle.shared_versions.specs.Nodes.{held_by};

    ghost holds = { held_by };

    fn give_up(&mut self) -> Option<Held<Node<K, V>>> {
        self.break_up();
        match self {
            Node::Rest(rest) => rest.pop(),
            _ => None,
        }
    }

    fn end(self) {
        match self {
            Node::Version(version) => version.into_rest().end(),
            Node::Row(_) => {}
            Node::Rest(rest) => rest.end(),
        }
    }
}

impl<K: Ord + Drop, V: Drop> Node<K, V> {
    /// A version becomes the rest of one, which holds the same.
    fn break_up(&mut self)
        ensures holds { held_by self.new ≡ held_by self.old }
        ensures broken { version_of self.new ≡ None }
    {
        if let Node::Version(version) = self {
            let alloc = version.allocator();
            let whole = mem::replace(self, Node::Rest(Rest::none(alloc)));
            mem::replace(self, whole.into_rest()).end();
        }
    }

    /// A version as the rest of one, which holds the same.
    fn into_rest(self) -> Self
        ensures holds { held_by result ≡ held_by self }
        ensures broken { version_of result ≡ None }
    {
        match self {
            Node::Version(version) => Node::Rest(version.into_rest()),
            other => other,
        }
    }
}
