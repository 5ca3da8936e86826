//! The reclamation core that threads share: epochs, participants, guards, owned items and cells of one place.
//!
//! A [`Domain`](domain::Domain) is lent to threads by `&`. A thread registers a participant, and acts for it with the
//! [`Local`](local::Local) that it got; [guards](guard::Guard) are opened and closed with that. A
//! [`Shared`](shared::Shared) owns an item, which is reclaimed some guards after its last owner was released. A cell, an
//! [`AtomicShared`](atomic_shared::AtomicShared), owns one too, and a guard reads what it loaded from it until it closes.
//! No call waits for another thread.
#![tactic(auto)]

pub mod atomic_shared;
mod board;
mod comparing;
pub mod domain;
pub mod guard;
pub mod held;
pub mod holding;
pub mod holds;
pub mod laws;
mod lives;
pub mod local;
pub mod plain;
pub mod pointer;
pub mod private_collector;
mod reclaiming;
pub mod refusal;
pub mod shared;
mod swapping;
mod unread;
