//! Versions of an ordered list of pairs, each a directory of segments.
//!
//! A segment is a tree of 1 to `S` pairs, and two neighbours together hold more than `S`: so `n` pairs lie in at most
//! `2 * (n / (S + 1)) + 1` of them. A version is built beside the place, placed whole or not at all, and published by an
//! exchange of the root; who reads an older one reads on.
//!
//! <!-- crates/kept_versions/src/main.rt before_and_after -->
//! ```text
//! // What a reader that opened before a write finds, and what the present version has. None where the write was refused.
//! fn before_and_after(alloc: Global, store: &mut Store) -> Option<(Option<u64>, Option<u64>)>
//!     requires { store.old.present.number < 2 ^ 64 - 1 }
//! {
//!     let _place = store.open()?; // keeps version 1
//!     let written = store.write(alloc, &[Write::Upsert(1, 20)]);
//!     let before = match store.latest_at(1) {
//!         Some((_number, version)) => value(&version),
//!         None => None,
//!     };
//!     let after = value(&store.present());
//!     match written {
//!         Ok(_replies) => Some((before, after)),
//!         Err(_) => None,
//!     }
//! }
//! ```
//! <!-- end -->
//!
//! What reads a version is a [`VersionView`], whatever lends its segments ([`Trees`]). A [`LocalStore`] keeps a root, readers
//! and the writer of versions in a place of one thread: `reads` reads, `built` and `placing` build and place, `store` keeps.
#![tactic(auto)]

mod built;
mod laws;
mod placing;
mod reads;
mod rooms;
mod store;

pub use built::{Built, build, build_list};
pub use laws::{passes_leave_one, segments_are_few, sweeps_leave_none, versions_stay};
pub use placing::{PlaceRefused, place, publish};
pub use reads::{len, locate, look_up, look_up_counted, version, version_at, view_of, walk};
pub use store::local::{LocalStore, StoreRefused};
pub use version_drafts::draft;
pub use version_views::{
    Directory, Item, LocalNearby, LocalView, LocalWalk, Nearby, Reply, Row, Segment, Trees,
    VersionView, Walk, Write, WriteRefused, plain,
};
