//! Lists of pairs in the order of their keys, and arrays of the leaves of a tree.
//!
//! The definitions (`specs/`) say of plain lists what a list of pairs is, which list a write leaves,
//! and what a read of a list answers; every structure of the crates above states itself by them.
//! [`plain`] computes them slowly, and is what faster bodies are tested against.
//!
//! An [`Array`] has fifteen places. Its reachable pairs are there in ascending order of keys, so a search is
//! a handful of comparisons, and an insertion moves what is greater up by one. A pair that is removed
//! or replaced keeps its place, its slot and its bit until the array is packed, cut or dropped:
//! so an array with few pairs can be full. Each place has a slot, which is given out in the order of
//! insertion, and each reachable one a rank, which rises with the keys. The word of ranks by slots
//! is worked out where a call asks for it.
//!
//! <!-- crates/tree_tests/src/array/text.rt texts remove is_itself -->
//! ```text
//! /// An array of these texts.
//! fn texts(all: &[&'static str]) -> Texts {
//!     let mut array = Array::new();
//!     for text in all {
//!         let _inserted = array.insert::<false>(*text, *text);
//!     }
//!     array
//! }
//!
//! /// The answer to a removal of a text, if this is its value.
//! fn remove(array: &mut Texts, text: &'static str, wanted: &'static str) -> RemoveResult {
//!     array.remove_if(&text, |value| *value == wanted)
//! }
//!
//! /// Whether the pair of a text is the text twice, if there is one.
//! fn is_itself(array: &Texts, text: &'static str) -> Option<bool> {
//!     match array.search_entry(&text) {
//!         Some((key, val)) => Some(*key == text && *val == text),
//!         None => None,
//!     }
//! }
//! ```
//! <!-- end -->
#![tactic(auto)]

mod array;
mod iter;
mod laws;
pub mod plain;
mod range;
mod result;
mod unchecked;
mod walk;
mod word;

pub use array::Array;
pub use iter::{ArrayIter, ArrayRevIter};
pub use laws::{
    entering_is_inserting, exchanging_is_upserting, finding_is_looking_up,
    removing_keeps_ascending, replacing_keeps_ascending, taking_out_is_removing,
    upserting_is_found,
};
pub use leaf_slots::Steps;
pub use result::{DIMENSION, Dimension, InsertResult, RemoveResult};
