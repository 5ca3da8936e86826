//! Versions of an ordered list over both kinds of place: a directory of segments that versions share.
//!
//! The root has the calls over a `Domain`, which threads share; [`world`] has those over a `World`. Types of both, such as
//! [`Write`] and [`VersionView`], are at the root. This crate is a face: it has no function of its own.
#![tactic(auto)]

pub mod world;

pub use sdd_plain::NoSlot;
pub use shared_versions::{
    Draft, Node, Present, Reader, Rest, RowOwner, Session, Version, build, build_list, publish,
    reclaim, reclaim_once, rising_until, version_at, view_of,
};
pub use version_views::{
    Directory, Nearby, Reply, Row, Segment, Trees, VersionView, Walk, Write, WriteRefused, plain,
};
