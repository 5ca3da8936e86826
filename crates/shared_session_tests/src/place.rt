//! A place with versions of two segments, and a cell that names one.
//!
//! Where memory is refused, what refused it is tried again, and `met` says so.

ghost use Rattle.std.specs.Prelude.{◌≡◌, ◌<◌, []};
ghost use Rattle.std.specs.Ordering.{nat_cmp};
ghost use Rattle.sdd_domain.specs.Cells.{cell_number};
ghost use Rattle.sdd_domain.specs.Layout.{IsSized};
ghost use Rattle.sdd_domain.specs.Sharing.{kept_in, IsOwnerOf};
ghost use Rattle.sdd_domain.specs.Tokens.{place_of, home_of, hand_of, own_of, cell_count, IsInNest, IsSameButHand};
ghost use Rattle.shared_session_tests.specs.Participants.{CanWrite, StillRests};
ghost use Rattle.shared_versions.specs.Drafts.{IsPlaceable, nothing};
ghost use Rattle.shared_versions.specs.Nodes.{held_by};
ghost use Rattle.shared_versions.specs.Placing.{IsStill};

use crate::calls::{closed, leave, made, registered, retire};
use sdd_domain::atomic_shared::AtomicShared;
use sdd_domain::domain::Domain;
use sdd_domain::local::Local;
use sdd_domain::refusal::RegisterRefused;
use sdd_domain::shared::Shared;
use sdd_plain::refusal::NoSlot;
use sdd_plain::sizes::Sizes;
use shared_sessions::SharedSession;
use shared_versions::{Draft, Node, Present, Version, build_list, rising_until};
use std::alloc::{AllocError, Global};
use std::process::Abort;

/// The items of the place: versions of numbers by numbers.
pub type Item = Node<u64, u64>;

/// A place, and a cell of it.
#[derive(Clone, Copy)]
pub struct At<'d> {
    pub domain: &'d Domain<Item>,
    pub cell: &'d AtomicShared<Item>,
}

/// The number of a version, and the values of its keys 1, 2 and 5.
pub type Numbered = (u64, (u64, u64, u64));

/// Sessions of versions with at most two pairs in a segment.
pub type Twos = SharedSession<u64, u64, 2>;

const TWICE: &str = "memory was refused twice";

/// A place for four participants, 64 items and one cell.
pub const SEVERAL: Sizes = Sizes {
    participants: 4,
    slots: 64,
    cells: 1,
    jobs: 0,
};

/// A place for one participant, one version and one cell, which takes few allocations.
pub const SMALL: Sizes = Sizes {
    participants: 1,
    slots: 2,
    cells: 1,
    jobs: 0,
};

/// A place of these sizes.
pub fn place<R: Abort>(rt: &R, alloc: Global, sizes: Sizes, met: &mut bool) -> Domain<Item>
    requires { IsSized sizes }
{
    match made(alloc, sizes) {
        Ok(domain) => domain,
        Err(AllocError) => {
            *met = true;
            made(alloc, sizes).expect(rt, TWICE)
        }
    }
}

/// A participant of the place, which has one that is free.
pub fn member<R: Abort>(rt: &R, domain: &Domain<Item>, met: &mut bool) -> Local<Item>
    ensures home { (home_of result ≡ place_of domain.now) × (hand_of result ≡ []) }
    ensures closed { (own_of result).nesting ≡ 0 }
{
    match registered(domain) {
        Ok(local) => local,
        Err(RegisterRefused::Memory) => {
            *met = true;
            match registered(domain) {
                Ok(local) => local,
                Err(_) => panic!(rt; "{TWICE}"),
            }
        }
        Err(RegisterRefused::Full) => panic!(rt; "a participant is free"),
    }
}

/// The owner of an item that is placed, where a slot is free.
pub fn placed<R: Abort>(
    rt: &R,
    domain: &Domain<Item>,
    item: Item,
    local: &mut Local<Item>,
) -> Shared<Item>
    requires home { home_of local.old ≡ place_of domain.now }
    requires holds { held_by item ≡ hand_of local.old }
    ensures place { kept_in result ≡ (place_of domain.now).0 }
    ensures item { IsOwnerOf result item }
    ensures hand { hand_of local.new ≡ [] }
    ensures same { IsSameButHand local.old local.new }
{
    match Shared::new(domain, item, local) {
        Ok(owner) => owner,
        Err(_) => panic!(rt; "a slot is free"),
    }
}

/// A draft of the version of this list.
fn drafted<R: Abort>(rt: &R, alloc: Global, list: Numbered, met: &mut bool) -> Draft<u64, u64, 2>
    ensures { IsPlaceable nat_cmp 2 nothing result }
{
    let (number, (first, second, third)) = list;
    let pairs = [(1, first), (2, second), (5, third)];
    if rising_until(&pairs) < pairs.len() {
        panic!(rt; "the keys rise");
    }
    match build_list::<u64, u64, 2>(alloc, number, &pairs) {
        Ok(draft) => draft,
        Err(AllocError) => {
            *met = true;
            build_list::<u64, u64, 2>(alloc, number, &pairs).expect(rt, TWICE)
        }
    }
}

/// The owner of a version of this list, the first two pairs of which are in one segment.
pub fn version<R: Abort>(
    rt: &R,
    alloc: Global,
    domain: &Domain<Item>,
    local: &mut Local<Item>,
    list: Numbered,
    met: &mut bool,
) -> Shared<Item>
    requires home { (home_of local.old ≡ place_of domain.now) × (hand_of local.old ≡ []) }
    ensures place { kept_in result ≡ (place_of domain.now).0 }
    ensures hand { hand_of local.new ≡ [] }
    ensures same { IsStill local.old local.new }
{
    let draft = drafted(rt, alloc, list, met);
    match Present::holding(alloc, domain, draft, local) {
        Ok((present, owner)) => {
            present.end(domain, local);
            owner
        }
        Err(NoSlot) => panic!(rt; "slots are free"),
    }
}

/// A cell that owns the item, where one is free.
pub fn cell<R: Abort>(
    rt: &R,
    domain: &Domain<Item>,
    owner: Shared<Item>,
    local: &mut Local<Item>,
) -> AtomicShared<Item>
    requires home { home_of local.old ≡ place_of domain.now }
    requires mine { kept_in owner ≡ (place_of domain.now).0 }
    ensures inside { cell_number result < cell_count domain.now }
    ensures same { IsInNest local.old local.new }
    ensures open { (own_of local.new).nesting ≡ (own_of local.old).nesting }
{
    match AtomicShared::from(domain, owner, local) {
        Ok(cell) => cell,
        Err(_) => panic!(rt; "a cell is free"),
    }
}

/// What a cell owns at first.
#[derive(Clone, Copy)]
pub enum First {
    Nothing,
    /// A row, which is no version.
    Row,
    /// The empty version, of the width 2.
    Empty,
    /// A version of the width 2, this number and these values.
    Version(u64, (u64, u64, u64)),
}

/// A cell that owns this.
pub fn owning<R: Abort>(
    rt: &R,
    alloc: Global,
    domain: &Domain<Item>,
    local: &mut Local<Item>,
    first: First,
) -> AtomicShared<Item>
    requires home { (home_of local.old ≡ place_of domain.now) × (hand_of local.old ≡ []) }
    requires closed { (own_of local.old).nesting ≡ 0 }
    ensures inside { cell_number result < cell_count domain.now }
    ensures same { (home_of local.new ≡ home_of local.old) × (hand_of local.new ≡ []) }
    ensures closed { (own_of local.new).nesting ≡ 0 }
{
    let mut met = false;
    let owner = match first {
        First::Nothing => {
            return match AtomicShared::null(domain, local) {
                Ok(cell) => cell,
                Err(NoSlot) => panic!(rt; "a cell is free"),
            };
        }
        First::Row => placed(rt, domain, Node::Row(Vec::new(alloc)), local),
        First::Empty => {
            let empty = Node::Version(Version::empty(alloc, 2));
            placed(rt, domain, empty, local)
        }
        First::Version(number, values) => {
            version(rt, alloc, domain, local, (number, values), &mut met)
        }
    };
    cell(rt, domain, owner, local)
}

/// Has the cell name a version of this list; the owner that it had is released.
pub fn renew<R: Abort>(rt: &R, alloc: Global, at: At<'_>, local: &mut Local<Item>, list: Numbered)
    requires home { (home_of local.old ≡ place_of at.domain.now) × (hand_of local.old ≡ []) }
    requires inside { cell_number at.cell.now < cell_count at.domain.now }
    ensures same { IsInNest local.old local.new }
    ensures open { (own_of local.new).nesting ≡ (own_of local.old).nesting }
{
    let mut met = false;
    let next = version(rt, alloc, at.domain, local, list, &mut met);
    shared_versions::publish(at.domain, at.cell, next, local);
}

/// A pair that is lent, as it is.
pub fn copied(pair: Option<(&u64, &u64)>) -> Option<(u64, u64)> {
    match pair {
        Some((key, value)) => Some((*key, *value)),
        None => None,
    }
}

/// Reclaims what nobody reads any more.
pub fn reclaim(domain: &Domain<Item>, local: &mut Local<Item>)
    requires home { home_of local.old ≡ place_of domain.now }
    requires closed { (own_of local.old).nesting ≡ 0 }
    ensures { StillRests local.old local.new }
{
    shared_versions::reclaim(domain, local);
}

/// Gives the cell back, and ends the participant and the place.
pub fn end<R: Abort>(rt: &R, cell: AtomicShared<Item>, domain: Domain<Item>, local: Local<Item>)
    requires { CanWrite domain cell local }
{
    let mut local = local;
    retire(&domain, cell, &mut local);
    leave(&domain, local);
    // What still waits holds owners, and so the end of the place takes memory, which may be refused once.
    let Err(domain) = closed(domain) else {
        return;
    };
    match closed(domain) {
        Ok(()) => {}
        Err(_) => panic!(rt; "nobody is registered"),
    }
}
