//! Rows of tests that both indexes have to answer alike, and what the rows are made of: calls, receipts and what is told.
//!
//! It stands on neither index. `index_tests` plays the rows on the index of one thread, and `shared_book_tests` on the book of the
//! one that threads share.
#![tactic(auto)]

mod audits;
mod bases;
mod calls;
mod checkpoints;
mod claims;
mod commits;

pub use audits::AUDITS;
pub use bases::{BASES, BaseCase, Begun, FIVE, NoBase, SlotCounts};
pub use calls::{Call, Entry, Row, Table, Told, is_accepted, is_fed, writes_of};
pub use checkpoints::{CHECKPOINTS, CUT_AT_THE_LAST_NUMBER, FED};
pub use claims::{Claim, answer, query, receipt};
pub use commits::{COMMITS, CONFLICTS, LAST_NUMBER};
