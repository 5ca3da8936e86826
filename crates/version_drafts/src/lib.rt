//! Drafts of versions: the segments that writes make of those of an older version, before any of them is placed.
//!
//! [`drafted`](draft::drafted) walks along the older version and the writes at once: it takes over each segment that no
//! write touches, copies the others with what is written, and joins what has become small. Nothing of the older
//! version is changed.
#![tactic(auto)]

mod changes;
pub mod draft;
mod edits;
mod gone;
mod listed;
mod merge;
pub mod plans;
mod row;
mod scans;
mod segments;
pub mod shelves;
mod shelving;
