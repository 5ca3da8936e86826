//! What becomes of items that have no owner any more, in a place that threads share.
//!
//! Over the table of the place, [`emptying`] has the single steps of who reclaims an item, and [`reclaiming`] makes one call of
//! them. A [private bag](private) has a seat of its own, and comes to that of a participant for a call.
#![tactic(auto)]

pub mod emptying;
pub mod notes;
pub mod private;
pub mod reclaiming;
