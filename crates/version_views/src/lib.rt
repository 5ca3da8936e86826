//! Versions of an ordered list of pairs, as what reads them: a directory of rows of segments, each a tree.
//!
//! An [`Item`] is one segment, or the directory of a version. A directory has its segments in rows ([`Row`]), and a
//! separator between two rows; a row has one between two of its segments. A [`VersionView`] reads a version, whatever
//! lends its segments ([`Trees`]): a look-up is one search of the directory, one of a row and one of a tree; a
//! [`Walk`] is a cursor over the pairs within two bounds; [`VersionView::locate`] gives a cursor at a key or at its
//! neighbours. None of them takes memory.
//!
//! [`Write`] and [`Reply`] are what changes a list and what it answers, and [`plain`] applies them slowly to a plain one.
#![tactic(auto)]

mod bounds;
mod directory;
mod item;
mod local;
mod moves;
mod nearby;
pub mod plain;
mod position;
mod row;
mod search;
mod segment;
mod trees;
mod view;
mod walking;
mod write;

pub use bounds::is_within;
pub use directory::{Directory, Spot};
pub use item::Item;
pub use local::{LocalNearby, LocalView, LocalWalk};
pub use nearby::Nearby;
pub use row::Row;
pub use search::place_of;
pub use segment::Segment;
pub use trees::Trees;
pub use view::{VersionView, greatest};
pub use walking::Walk;
pub use write::{Reply, Write, WriteRefused};
