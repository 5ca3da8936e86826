//! Serial histories of an ordered list: queries and their answers, receipts, conflicts, transactions, and replays.
//!
//! What an index has in common however it keeps its lists and whoever shares them. A session's reads are a [`Receipt`]
//! of queries and their answers; a commit that rests on them conflicts if and only if one of them no longer holds of
//! the present list (optimistic concurrency control, validated by answers); an accepted one is a [`Transaction`] of a
//! history, whose list at a number can be made again. `specs/` has the definitions: `Holds`, `IsFirstConflict`,
//! `IsSerial` and `after_all`.
//!
//! <!-- crates/index_tests/src/history.rt transaction based -->
//! ```text
//! /// A transaction of two upserts.
//! fn transaction(alloc: Global) -> Result<Transaction<u64, u64>, AllocError> {
//!     let mut writes = Vec::new(alloc);
//!     writes.push(Write::Upsert(1, 10))?;
//!     writes.push(Write::Upsert(2, 20))?;
//!     Ok(Transaction {
//!         reads: Reads::of(&[]),
//!         writes: Seq::from_vec(writes),
//!         replies: Seq::new(alloc),
//!     })
//! }
//!
//! /// The list that the transaction leaves of none, made again from a base with its pairs.
//! fn based(alloc: Global) -> Result<TreeIndex<u64, u64>, AllocError> {
//!     let history = [transaction(alloc)?];
//!     let list = replay(alloc, &Base::empty(alloc), &history)?;
//!     let pairs = pairs_of(alloc, &list)?;
//!     // what is read here shows the proof that the keys rise
//!     let _rising = list.len();
//!     Base::new(1, pairs).tree(alloc)
//! }
//! ```
//! <!-- end -->
#![tactic(auto)]

pub mod base;
mod commit;
mod ghost_items;
mod history;
pub mod ordered_view;
mod query;
mod reads;
pub mod replay;
mod scan;
mod seq;
pub mod transaction;
pub mod version_view;

pub use base::Base;
pub use commit::{Accepted, Cause, CheckpointRefused, Refused, SinceRefused};
pub use history::History;
pub use query::{Answer, Near, Part, Query};
pub use reads::Reads;
pub use seq::{Seq, clones_of_lists, equals_of_lists};
pub use transaction::{Audit, Receipt, Recorded, Transaction};
pub use version_view::{Nearby, Walk};
pub use version_views::{Reply, Write};
