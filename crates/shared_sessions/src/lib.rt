//! Sessions of a list in a place that threads share: each reads the one version that it loaded, and keeps a receipt.
//!
//! A [`SharedSession`] is a guard with the version that was loaded under it (`shared_versions`), and a receipt of its recorded
//! reads (`serial_history`). It is opened by one load of the root; from then until it is closed nothing is loaded again, and
//! no read asks whether the version is still there: what the guard loaded stays, whatever other threads publish meanwhile.
//!
//! The crate's page shows one from its opening to its close, as a test runs it.
#![tactic(auto)]

mod opening;
mod reads;
mod root;
mod session;

pub use opening::OpenRefused;
pub use reads::{SharedNearby, SharedWalk};
pub use root::Root;
pub use session::SharedSession;
