//! What an index is made of.

use sdd_domain::domain::Domain;
use sdd_domain::local::Local;
use shared_versions::Node;
use std::sync::ledger::Blank;

/// The items of a place: versions of numbers by numbers.
pub type Item = Node<u64, u64>;

/// How many participants, slots and cells a place has, how many shares its index has, and its last number. Where that is the
/// greatest one, it may begin with a list under a number.
#[derive(Clone, Copy)]
pub struct Start {
    pub participants: u8,
    pub slots: u16,
    pub cells: u8,
    pub shares: u8,
    pub last: u64,
    pub base: Option<(u64, &'static [(u64, u64)])>,
}

/// A place, a participant of it, the blank of a ledger, and how an index begins there.
pub struct Stage<'d> {
    pub domain: &'d Domain<Item>,
    pub local: Local<Item>,
    pub blank: Blank,
    pub start: Start,
}
