//! Tests of calls that are refused: for want of a slot, a cell or memory, and since a cell has something else. What they
//! would have changed is looked at behind them.
//!
//! In the tests named `a_refusal_of_memory_..` any one allocation may be refused: a script has each refused in turn.

ghost use Rattle.std.specs.Prelude.{◌≡◌, ◌<◌, []};
ghost use Rattle.sdd_domain.specs.Tokens.{place_of, home_of, hand_of, own_of, nest_of, nest_in};
ghost use Rattle.shared_owned.specs.Alone.{IsCellOf, IsAsBefore};

use crate::atomic_owned::AtomicOwned;
use crate::raw_items::{RawItems, RawRefused};
use crate::tests::{end, last_value, member, owned, sized};
use sdd_domain::domain::Domain;
use sdd_domain::guard::Guard;
use sdd_domain::local::Local;
use sdd_domain::refusal::RegisterRefused;
use sdd_plain::tag::Tag;
use std::alloc::{AllocError, Global};
use std::process::Abort;
use std::test::Fail;

/// Whether a cell of nothing is refused. One that is made is given back.
fn is_refused(domain: &Domain<u64>, local: &mut Local<u64>) -> bool
    requires home { home_of local.old ≡ place_of domain.now }
    ensures same { IsAsBefore local.old local.new }
{
    match AtomicOwned::null(domain, local) {
        Ok(cell) => {
            cell.retire(domain, local);
            false
        }
        Err(_) => true,
    }
}

/// The value that is returned where a cell is made of it; else the cell is given back.
fn unmade(domain: &Domain<u64>, value: u64, local: &mut Local<u64>) -> Option<u64>
    requires home { (home_of local.old ≡ place_of domain.now) × (hand_of local.old ≡ []) }
    ensures same { IsAsBefore local.old local.new }
{
    match AtomicOwned::new(domain, value, local) {
        Ok(cell) => {
            cell.retire(domain, local);
            None
        }
        Err(back) => Some(back),
    }
}

/// In a place of two slots and one cell, which is taken: whether a second one is refused; the value of the owner that comes
/// back and is retired, and the value that does; what is placed in the slot that is free still. Where that cell was given
/// back, and each slot is taken: the value that is returned, and whether a cell is refused then.
#[test]
fn a_cell_of_an_item_wants_a_cell_and_a_slot(rt: HostRuntime) -> Result<(), Fail> {
    let domain = Domain::new(rt.alloc(), sized(1, 2, 1))?;
    let mut local = member(&rt, &domain);
    let Ok(cell) = AtomicOwned::null(&domain, &mut local) else {
        panic!(&rt; "a cell is free");
    };
    let second = is_refused(&domain, &mut local);
    let seven = owned(&rt, &domain, 7, &mut local);
    let kept = match AtomicOwned::from(&domain, seven, &mut local) {
        Ok(more) => {
            more.retire(&domain, &mut local);
            None
        }
        Err(back) => last_value(&domain, Some(back), &mut local),
    };
    let without_cell = unmade(&domain, 8, &mut local);
    let nine = owned(&rt, &domain, 9, &mut local);
    cell.retire(&domain, &mut local);
    let without_slot = unmade(&domain, 10, &mut local);
    let third = is_refused(&domain, &mut local);
    let placed = last_value(&domain, Some(nine), &mut local);
    local.end(&domain);
    end(&rt, domain);
    let cells = (second, kept, without_cell);
    assert!(rt; cells == (true, Some(7), Some(8)));
    assert!(rt; (placed, without_slot, third) == (Some(9), Some(10), false));
    Ok(())
}

/// What an exchange of 15 for nothing hands back in a cell of 14: the value of the owner, and the value and the tag found.
type Back = (Option<u64>, Option<u64>, Tag);

fn exchanged_weakly<R: Abort>(
    rt: &R,
    domain: &Domain<u64>,
    cell: &AtomicOwned<u64>,
    guard: &Guard,
    local: &mut Local<u64>,
) -> Back
    requires home { (home_of local.old ≡ place_of domain.now) × (hand_of local.old ≡ []) }
    requires nest { nest_of guard.now ≡ nest_in local.old }
    requires open { 0 < (own_of local.old).nesting }
    requires cell { IsCellOf cell.now domain.now }
    ensures same { IsAsBefore local.old local.new }
{
    let fifteen = owned(rt, domain, 15, local);
    let current = cell.load(domain, guard, local).with_tag(Tag::First);
    let new = (Some(fifteen), Tag::Second);
    match cell.compare_exchange_weak(domain, current, new, guard, local) {
        Ok((old, _)) => (None, last_value(domain, old, local), Tag::Both),
        Err((back, found)) => {
            let (value, tag) = (found.as_ref().copied(), found.tag());
            (last_value(domain, back, local), value, tag)
        }
    }
}

/// The same in a cell of its own, and the value that the cell has then.
fn exchanges_weakly<R: Abort>(
    rt: &R,
    domain: &Domain<u64>,
    local: &mut Local<u64>,
) -> (Back, Option<u64>)
    requires home { (home_of local.old ≡ place_of domain.now) × (hand_of local.old ≡ []) }
    requires closed { (own_of local.old).nesting ≡ 0 }
    ensures same { IsAsBefore local.old local.new }
{
    let Ok(cell) = AtomicOwned::new(domain, 14, local) else {
        panic!(rt; "a slot and a cell are free");
    };
    let Ok(guard) = Guard::new(domain, local) else {
        unreachable!();
    };
    let back = exchanged_weakly(rt, domain, &cell, &guard, local);
    guard.close(domain, local);
    let left = cell.into_owned(domain, local);
    (back, last_value(domain, left, local))
}

#[test]
fn a_weak_exchange_hands_the_owner_back_where_the_tag_is_another(
    rt: HostRuntime,
) -> Result<(), Fail> {
    let domain = Domain::new(rt.alloc(), sized(1, 2, 1))?;
    let mut local = member(&rt, &domain);
    let found = exchanges_weakly(&rt, &domain, &mut local);
    local.end(&domain);
    end(&rt, domain);
    assert!(rt; found == ((Some(15), Some(14), Tag::None), Some(14)));
    Ok(())
}

const TWICE: &str = "memory was refused twice";

/// Whether an allocation was refused while a place, a participant and raw items were made. What was refused is tried again,
/// and raw items want both cells of the place.
fn makes_raw_items<R: Abort>(rt: &R, alloc: Global) -> bool {
    let mut met = false;
    let domain = match Domain::new(alloc, sized(1, 2, 2)) {
        Ok(domain) => domain,
        Err(AllocError) => {
            met = true;
            Domain::new(alloc, sized(1, 2, 2)).expect(rt, TWICE)
        }
    };
    let mut local = match domain.register() {
        Ok(local) => local,
        Err(RegisterRefused::Memory) => {
            met = true;
            member(rt, &domain)
        }
        Err(RegisterRefused::Full) => panic!(rt; "a participant is free"),
    };
    let raws = match RawItems::new(alloc, &domain, &mut local) {
        Ok(raws) => raws,
        Err(RawRefused::Memory) => {
            met = true;
            match RawItems::new(alloc, &domain, &mut local) {
                Ok(raws) => raws,
                Err(_) => panic!(rt; "memory was refused twice, or a cell is lost"),
            }
        }
        Err(RawRefused::NoCell) => panic!(rt; "both cells are free"),
    };
    raws.end(&domain, &mut local);
    local.end(&domain);
    end(rt, domain);
    met
}

#[test]
fn a_refusal_of_memory_takes_no_cell_of_raw_items(rt: HostRuntime) {
    let _met = makes_raw_items(&rt, rt.alloc());
}

#[test]
fn no_memory_is_refused_to_raw_items(rt: HostRuntime) {
    assert!(rt; !makes_raw_items(&rt, rt.alloc()));
}
