//! A transactional ordered index that threads share.
//!
//! A [`Book`] has the history of accepted commits and the present version, in a place that threads share (`sdd_domain`). A
//! [`SharedIndex`] keeps one behind a lock, beside the cell that names the present version, which is read without the lock.
//! Who commits has a [`Share`], which counts the accepted commits that were made with it: in the end their counts sum to the
//! number of the index.
//!
//! <!-- crates/shared_configuration/src/service.rt read_both one_more raised -->
//! ```text
//! /// One session for at least this number, which records both settings. None where it or memory was refused.
//! fn read_both<L: Naming>(member: &mut Member<'_, '_, L>, at_least: u64) -> Option<Found> {
//!     let Ok(mut reading) = member.reading(at_least) else {
//!         return None;
//!     };
//!     let workers = reading.read(Query::Get(WORKERS));
//!     let waiting = reading.read(Query::Get(WAITING));
//!     match (workers, waiting) {
//!         (Ok(workers), Ok(waiting)) => Some((workers, waiting, reading.close())),
//!         _ => None,
//!     }
//! }
//!
//! /// One more of each setting than the first was read to be.
//! fn one_more(
//!     alloc: Global,
//!     reads: &[Recorded<u64, u64>],
//! ) -> Result<Vec<Write<u64, u64>>, AllocError> {
//!     let number = match reads {
//!         [(_, Answer::Get(Some(number))), ..] => number.wrapping_add(1),
//!         _ => 1,
//!     };
//!     Ok(vec![in alloc;
//!         Write::Upsert(WORKERS, number),
//!         Write::Upsert(WAITING, number),
//!     ]?)
//! }
//!
//! /// Reads both settings, and commits one more of each. Where either was changed since, it reads them again, nine times at most.
//! /// True if it is accepted.
//! fn raised<L: Naming, R: Wait>(
//!     rt: &R,
//!     alloc: Global,
//!     member: &mut Member<'_, '_, L>,
//!     share: &mut Share<L>,
//! ) -> bool {
//!     let queries = [Query::Get(WORKERS), Query::Get(WAITING)];
//!     let told = member.transact(rt, share, &queries, 9, |reads| one_more(alloc, reads));
//!     told.is_ok()
//! }
//! ```
//! <!-- end -->
#![tactic(auto)]

mod book;
mod commit;
mod index;
mod naming;
mod participant;
mod reading;
mod share;
mod sharing;
mod tasks;
mod transact;

pub use book::feed::FeedRefused;
pub use book::from_base::{BaseList, SharedBaseCause, SharedBaseRefused};
pub use book::{Book, NewRefused};
pub use index::SharedIndex;
pub use naming::Naming;
pub use participant::Participant;
pub use reading::SharedReading;
pub use share::Share;
pub use sharing::join_over;
pub use tasks::{Ended, Ran, RunCause, RunRefused, Task, run_tasks};
pub use transact::{TransactRefused, Transacted};
