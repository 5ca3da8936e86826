//! A place of versions of numbers by numbers, asked for each thing in one function: the proof of a call at these types is long.

ghost use Rattle.std.specs.Prelude.{◌≡◌, ◌<◌, [], IfNone, IfSome};
ghost use Rattle.sdd_domain.specs.Cells.{cell_number};
ghost use Rattle.sdd_domain.specs.Layout.{IsSized};
ghost use Rattle.sdd_domain.specs.Sharing.{kept_in};
ghost use Rattle.sdd_domain.specs.Tokens.{place_of, home_of, hand_of, own_of, cell_count, nest_of, nest_in, IsSame};

use sdd_domain::atomic_shared::AtomicShared;
use sdd_domain::domain::Domain;
use sdd_domain::guard::Guard;
use sdd_domain::local::Local;
use sdd_domain::shared::Shared;
use sdd_plain::sizes::Sizes;
use shared_versions::{Node, Reader, Session, reclaim};
use std::alloc::{AllocError, Global};
use std::process::Abort;

/// The items of the place.
pub(crate) type Item = Node<u64, u64>;

pub(crate) fn place(alloc: Global, sizes: Sizes) -> Result<Domain<Item>, AllocError>
    requires { IsSized sizes }
{
    Domain::new(alloc, sizes)
}

/// Ends a place in which nobody is registered.
pub(crate) fn end<R: Abort>(rt: &R, domain: Domain<Item>) {
    match domain.close() {
        Ok(()) => {}
        Err(_) => panic!(rt; "nobody is registered"),
    }
}

/// How many slots are in use.
pub(crate) fn in_use(domain: &Domain<Item>) -> usize {
    domain.slots_in_use()
}

/// A participant of the place, which has one that is free.
pub(crate) fn member<R: Abort>(rt: &R, domain: &Domain<Item>) -> Local<Item>
    ensures home { (home_of result ≡ place_of domain.now) × (hand_of result ≡ []) }
    ensures closed { (own_of result).nesting ≡ 0 }
{
    match domain.register() {
        Ok(local) => local,
        Err(_) => panic!(rt; "a participant is free"),
    }
}

/// Ends a participant.
pub(crate) fn leave(domain: &Domain<Item>, local: Local<Item>)
    requires home { (home_of local ≡ place_of domain.now) × (hand_of local ≡ []) }
    requires closed { (own_of local).nesting ≡ 0 }
{
    local.end(domain);
}

/// A cell that owns this item. One is free.
pub(crate) fn cell_of<R: Abort>(
    rt: &R,
    domain: &Domain<Item>,
    owner: Shared<Item>,
    local: &mut Local<Item>,
) -> AtomicShared<Item>
    requires home { (home_of local.old ≡ place_of domain.now) × (hand_of local.old ≡ []) }
    requires closed { (own_of local.old).nesting ≡ 0 }
    requires mine { kept_in owner ≡ (place_of domain.now).0 }
    ensures inside { cell_number result < cell_count domain.now }
    ensures same { IsSame local.old local.new }
    ensures closed { (own_of local.new).nesting ≡ 0 }
{
    match AtomicShared::from(domain, owner, local) {
        Ok(cell) => cell,
        Err(_) => panic!(rt; "a cell is free"),
    }
}

/// Ends a cell: whether it had the last owner of its item.
pub(crate) fn retire(
    domain: &Domain<Item>,
    cell: AtomicShared<Item>,
    local: &mut Local<Item>,
) -> bool
    requires home { (home_of local.old ≡ place_of domain.now) × (hand_of local.old ≡ []) }
    requires closed { (own_of local.old).nesting ≡ 0 }
    requires inside { cell_number cell < cell_count domain.now }
    ensures same { IsSame local.old local.new }
    ensures closed { (own_of local.new).nesting ≡ 0 }
{
    cell.retire(domain, local)
}

/// Reclaims what nobody reads.
pub(crate) fn reclaimed(domain: &Domain<Item>, local: &mut Local<Item>)
    requires home { home_of local.old ≡ place_of domain.now }
    requires closed { (own_of local.old).nesting ≡ 0 }
    ensures same { IsSame local.old local.new }
    ensures closed { (own_of local.new).nesting ≡ 0 }
{
    reclaim(domain, local);
}

/// A session of the version that the cell names, unless that is of another width.
pub(crate) fn opened<const S: usize>(
    domain: &Domain<Item>,
    local: &mut Local<Item>,
    root: &AtomicShared<Item>,
) -> Option<Session<u64, u64, S>>
    requires home { (home_of local.old ≡ place_of domain.now) × (hand_of local.old ≡ []) }
    requires closed { (own_of local.old).nesting ≡ 0 }
    requires inside { cell_number root.now < cell_count domain.now }
    ensures nest { IfSome result (λ s. s.nest ≡ nest_in local.new) }
    ensures open { IfSome result (λ s. (own_of local.new).nesting ≡ 1) }
    ensures closed { IfNone result ((own_of local.new).nesting ≡ 0) }
    ensures same { IsSame local.old local.new }
{
    let Ok(guard) = Guard::new(domain, local) else {
        unreachable!();
    };
    let loaded = root.loaded(domain, &guard, local);
    match Session::open(guard, loaded) {
        Ok(session) => Some(session),
        Err((guard, _)) => {
            close(domain, guard, local);
            None
        }
    }
}

/// Whether what the cell names is returned where a reader of this width is made of it, and one of the other width is made then.
pub(crate) fn is_back<const S: usize, const T: usize>(
    domain: &Domain<Item>,
    local: &mut Local<Item>,
    root: &AtomicShared<Item>,
) -> bool
    requires home { (home_of local.old ≡ place_of domain.now) × (hand_of local.old ≡ []) }
    requires closed { (own_of local.old).nesting ≡ 0 }
    requires inside { cell_number root.now < cell_count domain.now }
    ensures same { IsSame local.old local.new }
    ensures closed { (own_of local.new).nesting ≡ 0 }
{
    let Ok(guard) = Guard::new(domain, local) else {
        unreachable!();
    };
    let loaded = root.loaded(domain, &guard, local);
    let is_read = match Reader::<u64, u64, S>::open(&guard, loaded) {
        Ok(_) => false,
        Err(back) => Reader::<u64, u64, T>::open(&guard, back).is_ok(),
    };
    close(domain, guard, local);
    is_read
}

/// Closes the guard of a session, which is the only one.
pub(crate) fn close(domain: &Domain<Item>, guard: Guard, local: &mut Local<Item>)
    requires home { home_of local.old ≡ place_of domain.now }
    requires mine { nest_of guard ≡ nest_in local.old }
    requires open { (own_of local.old).nesting ≡ 1 }
    ensures same { IsSame local.old local.new }
    ensures closed { (own_of local.new).nesting ≡ 0 }
{
    guard.close(domain, local);
}
