//! Places, participants, links and entries.

ghost use Rattle.std.specs.Prelude.{◌≡◌, ◌≤◌, ◌<◌, [], IfSome};
ghost use Rattle.sdd_domain.specs.Layout.{IsSized};
ghost use Rattle.sdd_domain.specs.Sharing.{kept_in};
ghost use Rattle.sdd_domain.specs.Tokens.{place_of, home_of, hand_of, own_of};
ghost use Rattle.shared_lists.specs.Entries.{IsEntryOf};
ghost use Rattle.shared_lists.specs.Lists.{AreLinksOf, IsAsBefore, IsOpenIn, IsStill};

use sdd_domain::domain::Domain;
use sdd_domain::guard::Guard;
use sdd_domain::local::Local;
use sdd_domain::shared::Shared;
use sdd_plain::sizes::Sizes;
use shared_lists::{LinkedEntry, Links};
use std::alloc::Global;
use std::process::Abort;

/// A place for this many participants, with this many slots and as many cells.
pub(crate) fn sized(participants: u8, slots: u16) -> Sizes
    requires { 1 ≤ participants }
    ensures { IsSized result }
{
    Sizes {
        participants: usize::from(participants),
        slots: usize::from(slots),
        cells: usize::from(slots),
        jobs: 0,
    }
}

pub(crate) fn member<R: Abort>(rt: &R, domain: &Domain<u64>) -> Local<u64>
    ensures home { (home_of result ≡ place_of domain.now) × (hand_of result ≡ []) }
    ensures closed { (own_of result).nesting ≡ 0 }
{
    match domain.register() {
        Ok(local) => local,
        Err(_) => panic!(rt; "a participant is free"),
    }
}

/// Ends a place in which nobody is registered.
pub(crate) fn end<R: Abort>(rt: &R, domain: Domain<u64>) {
    match domain.close() {
        Ok(()) => {}
        Err(_) => panic!(rt; "nobody is registered, and nothing has an owner"),
    }
}

pub(crate) fn links<R: Abort>(
    rt: &R,
    alloc: Global,
    domain: &Domain<u64>,
    local: &mut Local<u64>,
) -> Links<u64>
    requires home { home_of local.old ≡ place_of domain.now }
    ensures links { AreLinksOf result domain.now }
    ensures same { IsAsBefore local.old local.new }
{
    match Links::new(alloc, domain, local) {
        Ok(links) => links,
        Err(_) => panic!(rt; "memory is ample, and so are cells"),
    }
}

/// An entry of a value.
pub(crate) fn entry<R: Abort>(
    rt: &R,
    domain: &Domain<u64>,
    value: u64,
    links: &Links<u64>,
    local: &mut Local<u64>,
) -> Shared<u64>
    requires home { (home_of local.old ≡ place_of domain.now) × (hand_of local.old ≡ []) }
    requires links { AreLinksOf links.now domain.now }
    ensures home { kept_in result ≡ (place_of domain.now).0 }
    ensures same { IsAsBefore local.old local.new }
{
    match LinkedEntry::new(domain, value, links, local) {
        Ok(owner) => owner,
        Err(_) => panic!(rt; "a slot is free"),
    }
}

/// Opens and closes an accelerated guard.
pub(crate) fn pass(domain: &Domain<u64>, local: &mut Local<u64>)
    requires home { (home_of local.old ≡ place_of domain.now) × (hand_of local.old ≡ []) }
    requires closed { (own_of local.old).nesting ≡ 0 }
    ensures same { IsAsBefore local.old local.new }
{
    let Ok(guard) = Guard::new(domain, local) else {
        unreachable!();
    };
    guard.accelerate(local);
    guard.close(domain, local);
}
