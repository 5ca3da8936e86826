//! Leaves of a tree, and cursors over the pairs of one.
//!
//! <!-- crates/tree_tests/src/tree/leaf.rt add started -->
//! ```text
//! /// Adds a pair whose key isn't there, and returns whether the leaf took it.
//! fn add(leaf: &mut Leaf<u64, u64>, key: u64, val: u64) -> bool {
//!     match leaf.array.insert::<false>(key, val) {
//!         InsertResult::Success => true,
//!         _ => false,
//!     }
//! }
//!
//! /// The pair that a jump of a rising cursor gives, where nothing lies before it in its leaf.
//! fn started<'l>(rising: &mut Iter<'l, u64, u64>, tree: &'l Tree) -> Seen {
//!     let seen = read(rising.jump(tree));
//!     if rising.clone().rev().next().is_none() {
//!         seen
//!     } else {
//!         None
//!     }
//! }
//! ```
//! <!-- end -->

mod iter;
mod jump;
mod leaf_position;
mod rev_iter;

pub use iter::Iter;
pub(crate) use leaf_position::{LeafPosition, ranked};
pub use rev_iter::RevIter;
pub use tree_nodes::Leaf;
