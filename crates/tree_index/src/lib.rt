//! An ordered index: a B+ tree whose leaves and nodes are in two arenas.
//!
//! Contracts see a [`TreeIndex`] as one list of pairs, strictly ascending by key. Inside, it has
//! leaves of at most fifteen pairs and nodes of at most sixteen children (`leaf_array::Array`). A
//! look-up follows one path and clones nothing. An insertion that finds its leaf full makes room
//! first: it packs the leaf or splits it, and the full nodes above it. It allocates the memory for that
//! before anything is changed, so a refused one leaves the tree as it was. A cursor walks along the
//! leaves, each of which names its neighbours. A leaf that loses its last pair leaves the tree, with the
//! nodes that have it alone, and its place is free for the next one. Reads, cursors, removals and
//! `clear` take no memory.
//!
//! <!-- crates/word_count/src/main.rt count_word show_from -->
//! ```text
//! // Counts one more of a word.
//! fn count_word(alloc: Global, counts: &mut Counts, word: &str) -> Result<(), AllocError> {
//!     let key = Text::new(alloc, word)?;
//!     let count = counts.peek(&key).copied().unwrap_or(0).saturating_add(1);
//!     match counts.upsert_sync(key, count) {
//!         Ok(()) => Ok(()),
//!         Err(_) => Err(AllocError),
//!     }
//! }
//!
//! // Prints the words from one on.
//! fn show_from<'a, R: Print>(rt: &R, counts: &'a Counts, from: &'a Text) -> io::Result<()> {
//!     for (word, count) in counts.range(Bound::Included(from), Bound::Unbounded) {
//!         println!(rt; "{word} {count}")?;
//!     }
//!     Ok(())
//! }
//! ```
//! <!-- end -->
#![tactic(auto)]

mod copy;
mod cursor;
mod equal;
mod index;
mod iter;
mod laws;
pub mod leaf;
mod proximity;
mod range;
mod take;

pub use index::{InsertRefused, TreeIndex};
pub use iter::Iter;
pub use laws::done_stays_at_none;
pub use leaf_array::{
    Array, ArrayIter, ArrayRevIter, DIMENSION, Dimension, InsertResult, RemoveResult, Steps,
};
pub use proximity::Proximity;
pub use range::Range;
pub use take::Take;
pub use tree_nodes::{InternalNode, LeafNode, Node, node};
