//! Registering participants, and ending a place.

ghost use Rattle.std.specs.Prelude.{◌≡◌};
ghost use Rattle.sdd_domain.specs.Tokens.{place_of};
ghost use Rattle.domain_tests.specs.Steps.{Rests};

use crate::cells::read;
use crate::collectors::collected;
use crate::items::sized;
use crate::steps::Act::{Join, Number};
use crate::steps::Found::{Is, No};
use crate::steps::Part::{Apart, Renew};
use crate::steps::Table;
use sdd_domain::atomic_shared::AtomicShared;
use sdd_domain::domain::Domain;
use sdd_domain::holds::Holds;
use sdd_domain::local::Local;
use sdd_domain::private_collector::PrivateCollector;
use sdd_domain::refusal::RegisterRefused;
use sdd_domain::shared::Shared;
use std::process::Abort;

/// A participant of the place, which has one that is free.
pub(crate) fn member<R: Abort, T: Holds>(rt: &R, domain: &Domain<T>) -> Local<T>
    ensures { Rests domain.now result }
{
    match domain.register() {
        Ok(local) => local,
        Err(_) => panic!(rt; "a participant is free"),
    }
}

/// Why nobody can be registered.
pub(crate) fn refused<R: Abort>(rt: &R, domain: &Domain<u64>) -> RegisterRefused {
    match domain.register() {
        Ok(_) => panic!(rt; "no participant is free"),
        Err(refused) => refused,
    }
}

/// Ends a place in which nobody is registered.
pub(crate) fn end<R: Abort, T: Holds>(rt: &R, domain: Domain<T>) {
    match domain.close() {
        Ok(()) => {}
        Err(_) => panic!(rt; "nobody is registered"),
    }
}

/// The numbers of three participants of a place for three; why there is no fourth one; and the number of the one that is
/// registered when the second has ended.
fn three_and_one_more<R: Abort>(
    rt: &R,
    domain: &Domain<u64>,
) -> ([usize; 3], RegisterRefused, usize) {
    let zero = member(rt, domain);
    let one = member(rt, domain);
    let two = member(rt, domain);
    let numbers = [zero.number(), one.number(), two.number()];
    let refused = refused(rt, domain);
    one.end(domain);
    let again = member(rt, domain);
    let number = again.number();
    zero.end(domain);
    again.end(domain);
    two.end(domain);
    (numbers, refused, number)
}

/// The place, which is handed back while something is out.
fn handed_back<R: Abort>(rt: &R, domain: Domain<u64>) -> Domain<u64>
    ensures { place_of result ≡ place_of domain }
{
    match domain.close() {
        Ok(()) => panic!(rt; "something is out"),
        Err(domain) => domain,
    }
}

/// The place, which is handed back while an owner is out, and while a cell owns an item; that item and the owner's, and whether
/// these owners were the last ones.
fn handed_back_twice<R: Abort>(
    rt: &R,
    domain: Domain<u64>,
) -> (Domain<u64>, (u64, bool), (Option<u64>, bool)) {
    let mut local = member(rt, &domain);
    let Ok(owner) = Shared::new(&domain, 1, &mut local) else {
        panic!(rt; "a slot is free");
    };
    local.end(&domain);
    let domain = handed_back(rt, domain);
    let item = *owner.as_ref();
    let mut local = member(rt, &domain);
    let last = owner.release(&domain, &mut local);
    let Ok(cell) = AtomicShared::new(&domain, 1, &mut local) else {
        panic!(rt; "a slot and a cell are free");
    };
    local.end(&domain);
    let domain = handed_back(rt, domain);
    let mut local = member(rt, &domain);
    let owned = read(&domain, &mut local, &cell);
    let retired = cell.retire(&domain, &mut local);
    local.end(&domain);
    (domain, (item, last), (owned, retired))
}

/// The place, which is handed back while a collector holds an item, and not once it is handed over.
fn handed_back_from_a_collector<R: Abort>(rt: &R, domain: Domain<u64>) -> (Domain<u64>, bool) {
    let mut local = member(rt, &domain);
    let Ok(collector) = PrivateCollector::new(&domain) else {
        panic!(rt; "memory is there");
    };
    let Ok(owner) = Shared::new(&domain, 1, &mut local) else {
        panic!(rt; "a slot is free");
    };
    let (collector, last) = collected(&domain, &mut local, collector, owner, false);
    local.end(&domain);
    let domain = handed_back(rt, domain);
    let mut local = member(rt, &domain);
    collector.hand_over(&domain, &mut local);
    local.end(&domain);
    (domain, last)
}

#[test]
fn participants_are_registered_from_the_lowest_and_a_place_is_handed_back_while_something_is_out(
    rt: HostRuntime,
) {
    let domain = Domain::new(rt.alloc(), sized(3, 2)).expect(&rt, "memory is there");
    let registered = three_and_one_more(&rt, &domain);
    let zero = member(&rt, &domain);
    let one = member(&rt, &domain);
    zero.end(&domain);
    let domain = handed_back(&rt, domain);
    one.end(&domain);
    let (domain, owner, cell) = handed_back_twice(&rt, domain);
    let (domain, collected) = handed_back_from_a_collector(&rt, domain);
    end(&rt, domain);
    assert!(rt; registered == ([0, 1, 2], RegisterRefused::Full, 1));
    assert_eq!(rt;
        (owner, cell, collected),
        ((1, true), (Some(1), true), true)
    );
}

pub(crate) const TABLES: &[Table] = &[
    // One participant is registered once at a time, and again when it has ended.
    Table {
        place: (1, 0, 0, 0),
        parts: &[
            Apart(&[(Number, Is(0)), (Join, No)]),
            Renew,
            Apart(&[(Number, Is(0)), (Join, No)]),
        ],
    },
];
