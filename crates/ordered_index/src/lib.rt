//! A transactional ordered index, of one thread or of many.
//!
//! Sessions read one version of an ordered list of pairs from their opening to their close, while commits replace it. A
//! commit conflicts if and only if a read that it rests on no longer holds of the present list, so that the accepted
//! commits are one serial history (optimistic concurrency control, validated by answers). `specs/` has the model:
//! [`LocalIndex`] is a `State` of it, and each call one of its steps. A [`SharedIndex`] is the same index over a place
//! that threads share: its sessions read in any thread, and its commits keep their order by a lock.
//!
//! This crate is a face: it has no function of its own, and re-exports all that the calls of a `LocalIndex`, a `SharedIndex`
//! and a `Book` take and give. A program that uses a `LocalIndex` alone may list `local_index` in its place, which depends on
//! fewer crates.
//!
//! <!-- crates/first_index/src/main.rt -->
//! ```text
//! //! The first example: an index is written, read and written again, and what was read is audited.
//! #![tactic(auto)]
//!
//! use ordered_index::{LocalIndex, NoPlace, Query, Reading, Receipt, Refused, ScopedIndex, Write};
//! use std::alloc::AllocError;
//! use std::io;
//! use std::ops::Bound;
//! use thiserror::Error;
//!
//! #[derive(Debug, Drop, Error)]
//! enum Failure {
//!     #[error(transparent)]
//!     Memory(#[from(alloc)] AllocError),
//!     #[error(transparent)]
//!     Output(#[from] io::Error),
//!     #[error(transparent)]
//!     NoPlace(#[from] NoPlace),
//!     #[error(transparent)]
//!     Refused(#[from] Refused<u64, u64>),
//! }
//!
//! // Looks at a list, and records one of the reads.
//! fn look<R: Print>(rt: &R, reading: &mut Reading<'_, u64, u64, 64>) -> Result<(), Failure> {
//!     let value = reading.get(&1); // a look-up that isn't recorded
//!     println!(rt; "1 has {value:?}")?;
//!     let answer = reading.read(Query::Locate(3))?; // recorded: the pair with key 3, or its neighbours
//!     println!(rt; "3 is {answer:?}")?;
//!     for (key, value) in reading.range(Bound::Included(&1), Bound::Unbounded) {
//!         println!(rt; "{key} {value}")?;
//!     }
//!     Ok(())
//! }
//!
//! // Reads the present list, and gives what was read, and what it answered.
//! fn read<R: Print>(
//!     rt: &R,
//!     index: &mut LocalIndex<u64, u64, 64>,
//! ) -> Result<Receipt<u64, u64>, Failure> {
//!     let mut reading = index.reading()?; // its session closes where it is dropped
//!     look(rt, &mut reading)?;
//!     Ok(reading.take_receipt())
//! }
//!
//! fn main(rt: HostRuntime) -> Result<(), Failure> {
//!     let alloc = rt.alloc();
//!     let mut scope = ScopedIndex::new(alloc, 16, 4096)?; // 16 sessions at a time, 4,096 slots
//!     let index = &mut scope.index;
//!     let writes = vec![in alloc; Write::Insert(1, 10), Write::Insert(4, 40)]?;
//!     index.commit(&Receipt::blank(alloc), writes)?; // number 1, resting on no reads
//!     let receipt = read(&rt, index)?;
//!     let writes = vec![in alloc; Write::Upsert(5, 30)]?;
//!     index.commit(&receipt, writes)?; // a conflict if an answer no longer holds
//!     let audit = index.audit(&receipt)?; // Yes: it was right at its number
//!     println!(rt; "{audit:?}")?;
//!     index.reclaim();
//!     Ok(())
//! }
//! ```
//! <!-- end -->
#![tactic(auto)]

pub use local_index::{
    Accepted, Answer, Audit, BaseCause, BaseRefused, Cause, CheckpointRefused, Desk, DeskCall,
    DeskRefused, DeskReply, LocalIndex, Near, Nearby, NoPlace, PastRefused, Query, ReadSet,
    Reading, Reads, Receipt, Recorded, Refused, Reply, ScopedIndex, Seq, Session, SinceRefused,
    Text, Transaction, Walk, Write, a_changed_range_is_a_conflict,
    a_feed_leads_to_the_present_list, clones_of_lists, equals_of_lists, ordered_view,
    own_receipts_audit_yes, pairs_beyond_a_part_are_no_conflict, play_all, play_one,
    reads_that_hold_are_no_conflict, replay, transaction, version_view,
};
pub use sdd_domain::atomic_shared::AtomicShared;
pub use sdd_domain::domain::Domain;
pub use sdd_domain::guard::Guard;
pub use sdd_domain::local::Local;
pub use sdd_domain::pointer::Loaded;
pub use sdd_domain::refusal::RegisterRefused;
pub use sdd_plain::{Nested, NoSlot, Sizes};
pub use serial_history::Part;
pub use shared_index::{
    BaseList, Book, Ended, FeedRefused, Naming, NewRefused, Participant, Ran, RunCause, RunRefused,
    Share, SharedBaseCause, SharedBaseRefused, SharedIndex, SharedReading, Task, TransactRefused,
    Transacted, join_over, run_tasks,
};
pub use shared_sessions::{OpenRefused, Root, SharedNearby, SharedSession, SharedWalk};
pub use shared_versions::{Node, Present};
pub use tree_index::{Proximity, Range, Steps, TreeIndex};
pub use version_views::WriteRefused;
