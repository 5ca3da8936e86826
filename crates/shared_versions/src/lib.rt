//! Versions of an ordered list of pairs in a place that threads share.
//!
//! What is in a slot is a [`Node`]: a version, a row of segments, or what is left of a version that is reclaimed. A version owns
//! its rows by [`Held`](sdd_domain::held::Held), and is whole by its type: who has a node that is a [`Version`] reads it without
//! a look at the place. Versions have rows in common by their owners, and rows have segments in common by an
//! [`Arc`](std::sync::Arc) of each. A row with a new segment takes a slot. A row of older segments alone takes none: the versions
//! that have it share it by an `Arc`. A [`Reader`] keeps what was loaded from a cell, once it was found to be a
//! version, and reads it under the guard.
//!
//! <!-- crates/shared_version_tests/src/sessions.rt read -->
//! ```text
//! /// How many pairs a session of this width reads in the cell's version; none where it is of another width.
//! fn read<const S: usize>(
//!     domain: &Domain<Item>,
//!     local: &mut Local<Item>,
//!     cell: &AtomicShared<Item>,
//! ) -> Option<usize>
//!     requires home { (home_of local.old ≡ place_of domain.now) × (hand_of local.old ≡ []) }
//!     requires closed { (own_of local.old).nesting ≡ 0 }
//!     requires inside { cell_number cell.now < cell_count domain.now }
//!     ensures same { IsSame local.old local.new }
//!     ensures closed { (own_of local.new).nesting ≡ 0 }
//! {
//!     let session = opened::<S>(domain, local, cell)?;
//!     let pairs = session.view().len();
//!     close(domain, session.into_guard(), local);
//!     Some(pairs)
//! }
//! ```
//! <!-- end -->
#![tactic(auto)]

mod building;
mod draft;
mod granting;
mod holding;
mod keeping;
mod kept;
mod lending;
mod node;
mod owners;
mod planned;
mod present;
mod reader;
mod reclaiming;
mod room;
mod rows;
mod session;

pub use building::{build, build_list};
pub use draft::Draft;
pub use lending::view_of;
pub use node::{Node, Rest, RowOwner, Version};
pub use planned::Planned;
pub use present::{Present, publish};
pub use reader::{Reader, version_at};
pub use reclaiming::{reclaim, reclaim_once};
pub use session::Session;
pub use version_drafts::draft::rising_until;
