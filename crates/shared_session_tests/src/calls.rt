//! Each call of a place, of its cells and of its sessions in one function: the proof of a call at these types is long.

ghost use Rattle.std.specs.Prelude.{◌≡◌, ◌<◌, ◌+◌, [], IfOk, OnErr, OnOk};
ghost use Rattle.sdd_domain.specs.Cells.{cell_number};
ghost use Rattle.sdd_domain.specs.Layout.{IsSized};
ghost use Rattle.sdd_domain.specs.Tokens.{place_of, home_of, hand_of, own_of, cell_count, nest_in, IsInNest, IsSame};

use crate::place::{At, Item, Twos};
use sdd_domain::atomic_shared::AtomicShared;
use sdd_domain::domain::Domain;
use sdd_domain::local::Local;
use sdd_domain::refusal::RegisterRefused;
use sdd_plain::sizes::Sizes;
use serial_history::{Answer, Query, Receipt};
use shared_sessions::{OpenRefused, Root};
use std::alloc::{AllocError, Global};

pub fn made(alloc: Global, sizes: Sizes) -> Result<Domain<Item>, AllocError>
    requires { IsSized sizes }
{
    Domain::new(alloc, sizes)
}

/// Ends a place, or hands it back.
pub fn closed(domain: Domain<Item>) -> Result<(), Domain<Item>> {
    domain.close()
}

/// How many slots of the place have an item.
pub fn in_use(domain: &Domain<Item>) -> usize {
    domain.slots_in_use()
}

/// A participant of the place, or why there is none.
pub fn registered(domain: &Domain<Item>) -> Result<Local<Item>, RegisterRefused>
    ensures home { IfOk result (λ l. (home_of l ≡ place_of domain.now) × (hand_of l ≡ [])) }
    ensures closed { IfOk result (λ l. (own_of l).nesting ≡ 0) }
{
    domain.register()
}

/// Ends a participant.
pub fn leave(domain: &Domain<Item>, local: Local<Item>)
    requires home { (home_of local ≡ place_of domain.now) × (hand_of local ≡ []) }
    requires closed { (own_of local).nesting ≡ 0 }
{
    local.end(domain);
}

/// Ends a cell: whether it had the last owner of its item.
pub fn retire(domain: &Domain<Item>, cell: AtomicShared<Item>, local: &mut Local<Item>) -> bool
    requires home { home_of local.old ≡ place_of domain.now }
    requires inside { cell_number cell < cell_count domain.now }
    ensures same { IsInNest local.old local.new }
    ensures open { (own_of local.new).nesting ≡ (own_of local.old).nesting }
{
    cell.retire(domain, local)
}

/// A session for at least this number, or why there is none.
pub fn opened(
    alloc: Global,
    at: At<'_>,
    local: &mut Local<Item>,
    at_least: u64,
) -> Result<Twos, OpenRefused>
    requires home { home_of local.old ≡ place_of at.domain.now }
    requires inside { cell_number at.cell.now < cell_count at.domain.now }
    ensures nest { IfOk result (λ s. s.nest ≡ nest_in local.new) }
    ensures opened { OnOk result ((own_of local.new).nesting ≡ (own_of local.old).nesting + 1) }
    ensures closed { OnErr result ((own_of local.new).nesting ≡ (own_of local.old).nesting) }
    ensures inner { 0 < (own_of local.old).nesting → nest_in local.new ≡ nest_in local.old }
    ensures same { IsSame local.old local.new }
{
    Twos::open(alloc, at.domain, Root::new(at.cell), at_least, local)
}

/// Closes a session: its receipt.
pub fn ended(domain: &Domain<Item>, session: Twos, local: &mut Local<Item>) -> Receipt<u64, u64>
    requires home { home_of local.old ≡ place_of domain.now }
    requires mine { session.nest ≡ nest_in local.old }
    requires open { 0 < (own_of local.old).nesting }
    ensures closed { (own_of local.new).nesting + 1 ≡ (own_of local.old).nesting }
    ensures inner { 1 < (own_of local.old).nesting → nest_in local.new ≡ nest_in local.old }
    ensures same { IsSame local.old local.new }
{
    session.close(domain, local)
}

/// Asks and records a query.
pub fn asked(session: &mut Twos, query: Query<u64>) -> Result<Answer<u64, u64>, AllocError>
    ensures { session.new.nest ≡ session.old.nest }
{
    session.read(query)
}

/// The value of a key.
pub fn value(session: &Twos, key: u64) -> Option<u64> {
    session.get(&key).copied()
}
