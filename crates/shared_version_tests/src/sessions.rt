//! Sessions over a place that threads share.

ghost use Rattle.std.specs.Prelude.{◌≡◌, ◌<◌, []};
ghost use Rattle.sdd_domain.specs.Cells.{cell_number};
ghost use Rattle.sdd_domain.specs.Tokens.{place_of, home_of, hand_of, own_of, cell_count, IsSame};

use crate::place::{Item, cell_of, close, end, is_back, leave, member, opened, place, retire};
use sdd_domain::atomic_shared::AtomicShared;
use sdd_domain::domain::Domain;
use sdd_domain::local::Local;
use sdd_domain::shared::Shared;
use sdd_plain::sizes::Sizes;
use shared_versions::{Node, Version};
use std::alloc::Global;
use std::process::Abort;
use std::test::Fail;

/// A place for one participant, two items and one cell.
const SIZES: Sizes = Sizes {
    participants: 1,
    slots: 2,
    cells: 1,
    jobs: 0,
};

/// A cell with the empty version, whose segments would have at most four pairs.
fn cell_with_empty<R: Abort>(
    rt: &R,
    alloc: Global,
    domain: &Domain<Item>,
    local: &mut Local<Item>,
) -> AtomicShared<Item>
    requires home { (home_of local.old ≡ place_of domain.now) × (hand_of local.old ≡ []) }
    requires closed { (own_of local.old).nesting ≡ 0 }
    ensures inside { cell_number result < cell_count domain.now }
    ensures same { IsSame local.old local.new }
    ensures closed { (own_of local.new).nesting ≡ 0 }
{
    let empty = Node::Version(Version::empty(alloc, 4));
    match Shared::new(domain, empty, local) {
        Ok(owner) => cell_of(rt, domain, owner, local),
        Err(_) => panic!(rt; "a slot is free"),
    }
}

/// How many pairs a session of this width reads in the cell's version; none where it is of another width.
fn read<const S: usize>(
    domain: &Domain<Item>,
    local: &mut Local<Item>,
    cell: &AtomicShared<Item>,
) -> Option<usize>
    requires home { (home_of local.old ≡ place_of domain.now) × (hand_of local.old ≡ []) }
    requires closed { (own_of local.old).nesting ≡ 0 }
    requires inside { cell_number cell.now < cell_count domain.now }
    ensures same { IsSame local.old local.new }
    ensures closed { (own_of local.new).nesting ≡ 0 }
{
    let session = opened::<S>(domain, local, cell)?;
    let pairs = session.view().len();
    close(domain, session.into_guard(), local);
    Some(pairs)
}

#[test]
fn a_session_reads_the_version_that_it_loaded(rt: HostRuntime) -> Result<(), Fail> {
    let domain = place(rt.alloc(), SIZES)?;
    let mut local = member(&rt, &domain);
    let cell = cell_with_empty(&rt, rt.alloc(), &domain, &mut local);
    let of_four = read::<4>(&domain, &mut local, &cell);
    let of_eight = read::<8>(&domain, &mut local, &cell);
    let is_back = is_back::<8, 4>(&domain, &mut local, &cell);
    let last = retire(&domain, cell, &mut local);
    leave(&domain, local);
    end(&rt, domain);
    assert_eq!(rt;
        (of_four, of_eight, is_back, last),
        (Some(0), None, true, true)
    );
    Ok(())
}
