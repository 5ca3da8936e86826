//! The index of one thread, a [`LocalIndex`].
//!
//! Sessions read one version of an ordered list of pairs from their opening to their close, while
//! commits replace it. A commit conflicts if and only if a read that it rests on no longer holds of
//! the present list, so that the accepted commits are one serial history (optimistic concurrency
//! control, validated by answers). `specs/` has the model: [`LocalIndex`] is a `State` of it, and
//! each call one of its steps. `local_index` passes it on, with its first example, beside the index that threads share.
#![tactic(auto)]

mod desk;
mod index;
mod laws;
mod play;
mod reading;
mod refused;
mod scoped;
mod session;
mod text;

pub use desk::Desk;
pub use index::from_base::{BaseCause, BaseRefused};
pub use index::past::PastRefused;
pub use index::{LocalIndex, NoPlace};
pub use laws::{
    a_changed_range_is_a_conflict, a_feed_leads_to_the_present_list, own_receipts_audit_yes,
    pairs_beyond_a_part_are_no_conflict, reads_that_hold_are_no_conflict,
};
pub use play::{DeskCall, DeskReply, ReadSet, play_all, play_one};
pub use reading::Reading;
pub use refused::DeskRefused;
pub use scoped::ScopedIndex;
pub use serial_history::{
    Accepted, Answer, Audit, Cause, CheckpointRefused, Near, Nearby, Query, Reads, Receipt,
    Recorded, Refused, Reply, Seq, SinceRefused, Transaction, Walk, Write, clones_of_lists,
    equals_of_lists, ordered_view, replay, transaction, version_view,
};
pub use session::Session;
pub use text::Text;
