//! What a participant does with an owner in its hand, and with a cell.

ghost use Rattle.std.specs.Prelude.{◌≡◌, ◌<◌};
ghost use Rattle.sdd_domain.specs.Cells.{cell_number};
ghost use Rattle.sdd_domain.specs.Sharing.{kept_in};
ghost use Rattle.sdd_domain.specs.Tokens.{place_of, cell_count};
ghost use Rattle.domain_tests.specs.Steps.{IsHome, Stays, IsOpen, IsOurs, IsInside};

use crate::steps::{Act, Found, View};
use sdd_domain::atomic_shared::AtomicShared;
use sdd_domain::domain::Domain;
use sdd_domain::guard::Guard;
use sdd_domain::local::Local;
use sdd_domain::pointer::Ptr;
use sdd_domain::shared::Shared;
use sdd_plain::refusal::NoSlot;
use sdd_plain::tag::Tag;

/// An owner, or none.
pub(crate) type Hand = Option<Shared<u64>>;

/// An answer.
pub(crate) fn told(yes: bool) -> Found {
    if yes { Found::Yes } else { Found::No }
}

/// An item, or nothing.
pub(crate) fn item(item: Option<&u64>) -> Found {
    match item {
        Some(item) => Found::Is(*item),
        None => Found::Nothing,
    }
}

/// How many slots are in use.
pub(crate) fn count(domain: &Domain<u64>) -> Found {
    Found::Is(domain.slots_in_use() as u64)
}

/// The number of a participant.
pub(crate) fn number(local: &Local<u64>) -> u64 {
    local.number() as u64
}

pub(crate) fn release(domain: &Domain<u64>, local: &mut Local<u64>, hand: Hand) -> Found
    requires home { IsHome domain.now local.old }
    requires ours { IsOurs domain.now hand }
    ensures stays { Stays local.old local.new }
{
    match hand {
        Some(owner) => told(owner.release(domain, local)),
        None => Found::Nothing,
    }
}

pub(crate) fn read(hand: &Hand) -> Found {
    match hand {
        Some(owner) => Found::Is(*owner.as_ref()),
        None => Found::Nothing,
    }
}

/// Puts an owner into the cell, and releases the one that it had.
pub(crate) fn put(
    domain: &Domain<u64>,
    local: &mut Local<u64>,
    cell: &AtomicShared<u64>,
    owner: Shared<u64>,
)
    requires home { IsHome domain.now local.old }
    requires inside { cell_number cell.now < cell_count domain.now }
    requires mine { kept_in owner ≡ (place_of domain.now).0 }
    ensures stays { Stays local.old local.new }
{
    if let (Some(older), _) = cell.swap(domain, (Some(owner), Tag::None), local) {
        older.release(domain, local);
    }
}

/// The item of the owner in hand.
pub(crate) fn lent(hand: &Hand) -> Option<&u64> {
    match hand {
        Some(owner) => Some(owner.as_ref()),
        None => None,
    }
}

/// Two owners of the one in hand, or that one behind none: whether there are two.
pub(crate) fn clone(domain: &Domain<u64>, local: &mut Local<u64>, hand: Hand) -> (Hand, Hand, Found)
    requires home { IsHome domain.now local.old }
    requires ours { IsOurs domain.now hand }
    ensures one { IsOurs domain.now result.0 }
    ensures other { IsOurs domain.now result.1 }
    ensures stays { Stays local.old local.new }
{
    match hand {
        Some(owner) => match owner.clone(domain, local) {
            Ok((one, other)) => (Some(one), Some(other), Found::Yes),
            Err(owner) => (None, Some(owner), Found::No),
        },
        None => (None, None, Found::Nothing),
    }
}

/// A step with an owner in hand and a cell.
pub(crate) fn handled(
    domain: &Domain<u64>,
    local: &mut Local<u64>,
    hand: Hand,
    cell: Option<AtomicShared<u64>>,
    act: Act,
) -> (Hand, Option<AtomicShared<u64>>, Found)
    requires home { IsHome domain.now local.old }
    requires ours { IsOurs domain.now hand }
    requires inside { IsInside domain.now cell }
    ensures ours { IsOurs domain.now result.0 }
    ensures inside { IsInside domain.now result.1 }
    ensures stays { Stays local.old local.new }
{
    match (act, hand, cell) {
        (Act::Release, hand, cell) => (None, cell, release(domain, local, hand)),
        (Act::Retire, hand, cell) => (hand, None, retire(domain, local, cell)),
        (Act::Swap(tag), hand, Some(cell)) => {
            let (hand, tag) = cell.swap(domain, (hand, tag), local);
            (hand, Some(cell), Found::Tagged(tag))
        }
        (Act::Take, None, Some(cell)) => (cell.into_shared(domain, local), None, Found::Nothing),
        (Act::Take, None, None) => (None, None, Found::Nothing),
        (Act::Null, hand, None) => {
            let cell = AtomicShared::null(domain, local).ok();
            let found = told(cell.is_some());
            (hand, cell, found)
        }
        (Act::Own, Some(owner), None) => match AtomicShared::from(domain, owner, local) {
            Ok(cell) => (None, Some(cell), Found::Yes),
            Err(owner) => (Some(owner), None, Found::No),
        },
        (Act::Own, None, None) => (None, None, Found::Nothing),
        (Act::Make(item), hand, None) => match AtomicShared::new(domain, item, local) {
            Ok(cell) => (hand, Some(cell), Found::Nothing),
            Err(item) => (hand, None, Found::Is(item)),
        },
        (_, hand, cell) => (hand, cell, Found::No),
    }
}

/// Gives the cell back, and releases what it owned: whether that was the last one.
pub(crate) fn retire(
    domain: &Domain<u64>,
    local: &mut Local<u64>,
    cell: Option<AtomicShared<u64>>,
) -> Found
    requires home { IsHome domain.now local.old }
    requires inside { IsInside domain.now cell }
    ensures stays { Stays local.old local.new }
{
    match cell {
        Some(cell) => told(cell.retire(domain, local)),
        None => Found::Nothing,
    }
}

/// Changes the hand's owner, or none, and a tag for what the cell has where that is as the pointer; or the cell's item.
pub(crate) fn exchange(
    domain: &Domain<u64>,
    guard: &Guard,
    local: &mut Local<u64>,
    cell: &AtomicShared<u64>,
    current: Ptr<u64>,
    new: (Hand, Tag),
) -> (Hand, Found)
    requires home { IsHome domain.now local.old }
    requires open { IsOpen guard.now local.old }
    requires ours { IsOurs domain.now new.0 }
    requires inside { cell_number cell.now < cell_count domain.now }
    ensures ours { IsOurs domain.now result.0 }
    ensures stays { Stays local.old local.new }
{
    match cell.compare_exchange(domain, current, new, guard, local) {
        Ok((old, _)) => (old, Found::Yes),
        Err((back, found)) => (back, item(found.as_ref())),
    }
}

/// The same by the call that may fail: whether the cell is told to be as it is loaded then.
pub(crate) fn exchange_weak(
    domain: &Domain<u64>,
    guard: &Guard,
    local: &mut Local<u64>,
    cell: &AtomicShared<u64>,
    current: Ptr<u64>,
    new: (Hand, Tag),
) -> (Hand, Found)
    requires home { IsHome domain.now local.old }
    requires open { IsOpen guard.now local.old }
    requires ours { IsOurs domain.now new.0 }
    requires inside { cell_number cell.now < cell_count domain.now }
    ensures ours { IsOurs domain.now result.0 }
    ensures stays { Stays local.old local.new }
{
    match cell.compare_exchange_weak(domain, current, new, guard, local) {
        Ok((old, named)) => (old, told(named == cell.load(domain, guard, local).named())),
        Err((back, _)) => (back, Found::Nothing),
    }
}

/// Loads the cell under an inner guard, which is closed: its item as it is read under the outer one after that.
pub(crate) fn load_within(
    domain: &Domain<u64>,
    outer: &Guard,
    local: &mut Local<u64>,
    cell: &AtomicShared<u64>,
) -> Found
    requires home { IsHome domain.now local.old }
    requires open { IsOpen outer.now local.old }
    requires inside { cell_number cell.now < cell_count domain.now }
    ensures stays { Stays local.old local.new }
{
    let Ok(inner) = Guard::new(domain, local) else {
        return Found::No;
    };
    let loaded = cell.loaded(domain, &inner, local);
    inner.close(domain, local);
    if loaded.is_null() {
        return Found::Nothing;
    }
    item(loaded.as_ref(outer))
}

/// One more owner of the pointer's item or of what the cell owns, if there is one; by the call that hands the pointer back, too.
pub(crate) fn sharing(
    domain: &Domain<u64>,
    guard: &Guard,
    local: &mut Local<u64>,
    cell: &Option<AtomicShared<u64>>,
    pointer: Ptr<u64>,
    step: View,
) -> (Hand, Found)
    requires home { IsHome domain.now local.old }
    requires open { IsOpen guard.now local.old }
    requires inside { IsInside domain.now cell.now }
    ensures ours { IsOurs domain.now result.0 }
    ensures stays { Stays local.old local.new }
{
    let owner = match (step, cell) {
        (View::ShareCell, Some(cell)) => cell.get_shared(domain, guard, local),
        (View::TryShare, _) => match Shared::try_from(domain, pointer, local) {
            Ok(owner) => Some(owner),
            Err(back) if back == pointer => None,
            Err(_) => return (None, Found::Nothing),
        },
        _ => pointer.get_shared(domain, local),
    };
    let found = told(owner.is_some());
    (owner, found)
}

/// An owner of an item that a closure gives, or whether the closure is called where no slot is free.
pub(crate) fn place_with(domain: &Domain<u64>, local: &mut Local<u64>, item: u64) -> (Hand, Found)
    requires home { IsHome domain.now local.old }
    ensures ours { IsOurs domain.now result.0 }
    ensures stays { Stays local.old local.new }
{
    let mut is_called = false;
    let give = || {
        is_called = true;
        item
    };
    match Shared::new_with(domain, give, local) {
        Ok(owner) => (Some(owner), Found::Nothing),
        Err(NoSlot) => (None, told(is_called)),
    }
}
