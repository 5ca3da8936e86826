//! The inside of a B+ tree: leaves and nodes in two arenas.
//!
//! [`Arenas`] name leaves and nodes by numbers. There is a way down to a key, which look-ups and
//! insertions go, and a way along the leaves, each of which names its neighbours; a [`Position`] is a
//! place in one. An insertion that finds its leaf full makes room first: it packs the leaf or splits it,
//! and the full nodes above it, and needs memory for that before anything is changed. A leaf that loses
//! its last pair leaves the tree, with the nodes that have it alone. The crate above makes one value of
//! it, whose arenas are always sound.
#![tactic(auto)]

mod append;
mod arenas;
mod copy;
mod equal;
mod leaf;
pub mod node;
mod prune;
mod push;
mod removal;
mod split;
mod walk;

pub use arenas::Arenas;
pub use leaf::Leaf;
pub use node::{InternalNode, LeafNode, Node};
pub use walk::Position;
