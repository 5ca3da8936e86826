//! What a rotation, an opening and a closing do to the store, with the bags open in between.

ghost use Rattle.std.specs.Prelude.{◌≡◌, ◌+◌, ◌-◌, ◌<◌, ◌≤◌, ℕ, List, [], ◌∷◌, length, map, reverse, IsTrue, IsFalse, IfSome, IfNone, true};
ghost use Rattle.sdd_table.specs.State.{is_used, mark_of, named_by, behind_at, status_at, participant_at, local_at, weight};
ghost use Rattle.sdd_table.specs.Steps.{released, disowned, owned_ended, shared_ended, given, given_all, group_given, released_each, participant_rotated, guard_opened, guard_closed, scanned, IsNext, Swept, AllSwept, purged, left_waiting, enqueued, followed, set_aside, handed_over, overdue, IsTimely, LeavesOverdue, HandsFirst, closings_after, scans as scans_at};
ghost use Rattle.sdd_table.specs.Dropping.{undone, Dropped};
ghost use Rattle.sdd_table.specs.Place.{Sound, IsPlace, IsOwned, IsShared, SaysLast};
ghost use Rattle.sdd_table.specs.Frame.{OnlyParticipant};
ghost use Rattle.sdd_table.specs.Groups.{name_of};
ghost use Rattle.sdd_table.specs.Tokens.{hold_of, kept_slot};

use crate::cell::{AtomicOwned, AtomicShared};
use crate::groups::Group;
use crate::holds::{Held, Holds};
use crate::job::Deferred;
use crate::owner::{Kept, Owned, Shared};
use crate::private_bag::PrivateBag;
use crate::status::{Cell, LocalState, Status};
use crate::table::{Due, Table};

/// Gives one owner of slot `i` back, and answers whether it was the last.
pub fn release<T, J: Deferred>(table: &mut Table<T, J>, p: usize, i: usize) -> bool
    requires participant { p < length table.old.participants }
    requires slot { i < length table.old.states }
    requires shared { (n : ℕ) × (status_at table.old i ≡ Status.Shared n) }
    ensures state { table.new ≡ released p i table.old }
    ensures last { SaysLast result i table.old }
{
    match table.status(i) {
        Status::Shared(owners) => {
            if owners <= 1 {
                table.retire(p, i);
                true
            } else {
                table.set_status(i, Status::Shared(owners - 1));
                false
            }
        }
        _ => unreachable!(),
    }
}

/// Participant `p` gives back what an item held that it reclaims.
fn give<T, J: Deferred>(table: &mut Table<T, J>, p: usize, held: Held<T>)
    requires { p < length table.old.participants }
    ensures { table.new ≡ given p (hold_of held) table.old }
{
    match held {
        Held::Owned(Owned { slot, of: _ }) => give_owned(table, p, slot),
        Held::Shared(Shared { slot, of: _ }) => give_shared(table, p, slot),
        Held::OwnedCell(AtomicOwned { cell, of: _ }) => end_owned(table, p, cell),
        Held::SharedCell(AtomicShared { cell, of: _ }) => end_shared(table, p, cell),
        Held::Group(group) => give_group(table, p, group),
    }
}

/// Retires slot `slot`, where it has one owner.
fn give_owned<T, J: Deferred>(table: &mut Table<T, J>, p: usize, slot: usize)
    requires { p < length table.old.participants }
    ensures { table.new ≡ disowned p slot table.old }
{
    if let Status::Owned = table.status_of(slot) {
        table.retire(p, slot);
    }
}

/// Gives one owner of slot `slot` back, where it has some. Most items have others: then the count alone is lowered.
#[inline(always)]
fn give_shared<T, J: Deferred>(table: &mut Table<T, J>, p: usize, slot: usize)
    requires { p < length table.old.participants }
    ensures { table.new ≡ released p slot table.old }
{
    if !table.lower_owner(slot) {
        give_last(table, p, slot);
    }
}

/// Gives the last owner of slot `slot` back, where it has one. Few are the last: so it stands apart, and the loop over all
/// stays short.
#[inline(never)]
fn give_last<T, J: Deferred>(table: &mut Table<T, J>, p: usize, slot: usize)
    requires { p < length table.old.participants }
    ensures { table.new ≡ released p slot table.old }
{
    if let Status::Shared(_) = table.status_of(slot) {
        release(table, p, slot);
    }
}

/// Ends a cell of owned items, and gives back what it keeps.
pub fn end_owned<T, J: Deferred>(table: &mut Table<T, J>, p: usize, cell: usize)
    requires { p < length table.old.participants }
    ensures { table.new ≡ owned_ended p cell table.old }
{
    if let Cell::OfOwned(item, _) = table.cell_of(cell) {
        table.free_cell(cell);
        if let Some(slot) = item {
            give_owned(table, p, slot);
        }
    }
}

/// Ends a cell of shared items, and gives back what it keeps.
pub fn end_shared<T, J: Deferred>(table: &mut Table<T, J>, p: usize, cell: usize)
    requires { p < length table.old.participants }
    ensures { table.new ≡ shared_ended p cell table.old }
{
    if let Cell::OfShared(item, _) = table.cell_of(cell) {
        table.free_cell(cell);
        if let Some(slot) = item {
            give_shared(table, p, slot);
        }
    }
}

/// An owner of a group is given back; the last one ends it, and gives back what its row names, from the end.
pub fn give_group<T, J: Deferred>(table: &mut Table<T, J>, p: usize, group: Group)
    requires { p < length table.old.participants }
    ensures { table.new ≡ group_given p (name_of group) table.old }
{
    if let Some(row) = table.lower_group(group) {
        give_row(table, p, row);
    }
}

/// One owner of each item that a row names is given back, from the end of the row.
fn give_row<T, J: Deferred>(table: &mut Table<T, J>, p: usize, mut row: Vec<Kept>)
    requires { p < length table.old.participants }
    ensures { table.new ≡ released_each p (reverse (map kept_slot row.items)) table.old }
{
    while let Some(kept) = row.pop() {
        let Kept { slot } = kept;
        give_shared(table, p, slot);
    }
    row.destroy_empty();
}

/// Everything that `value` holds is given back by `p`, and the value ends.
fn give_all<T: Holds, J: Deferred>(table: &mut Table<T, J>, p: usize, mut value: T)
    requires { p < length table.old.participants }
    ensures state { table.new ≡ given_all p (T.holds value) table.old }
    ensures known { length table.new.participants ≡ length table.old.participants }
{
    while let Some(held) = value.give_up() {
        give(table, p, held);
    }
    value.end();
}

/// The next place that is due to `p` is reclaimed, if there is one.
fn reclaim_next<T: Holds, J: Deferred>(table: &mut Table<T, J>, p: usize) -> bool
    requires participant { p < length table.old.participants }
    requires waits { (i : ℕ) (is : List ℕ) → (participant_at table.old p).due ≡ i ∷ is → (i < length table.old.states) × (weight (status_at table.old i) ≡ 1) }
    ensures some { IsTrue result → IsNext T.holds p table.old table.new }
    ensures none { IsFalse result → ((participant_at table.old p).due ≡ []) × (table.new ≡ table.old) }
{
    match table.take_due(p) {
        None => false,
        Some(Due { value, job }) => {
            if let Some(job) = job {
                job.run();
            }
            if let Some(value) = value {
                give_all(table, p, value);
            }
            true
        }
    }
}

/// What was in the oldest bag of `p` is reclaimed, and the bags have moved on.
fn turn_over<T: Holds, J: Deferred>(table: &mut Table<T, J>, p: usize)
    requires participant { p < length table.old.participants }
    requires sound { Sound table.old }
    requires idle { (participant_at table.old p).due ≡ [] }
    ensures { table.new ≡ participant_rotated T.holds p table.old }
{
    table.turn(p);
    while reclaim_next(table, p) {}
    table.settle(p);
}

/// What `p` retired last is reclaimed, where more than `kept` places wait in its current bag.
fn reclaim_last<T: Holds, J: Deferred>(table: &mut Table<T, J>, p: usize, kept: usize) -> bool
    requires participant { p < length table.old.participants }
    requires sound { Sound table.old }
    requires idle { (participant_at table.old p).due ≡ [] }
    ensures more { IsTrue result → kept < length (participant_at table.old p).current }
    ensures some { IsTrue result → table.new ≡ undone T.holds p table.old }
    ensures last { IsFalse result → length (participant_at table.old p).current ≤ kept }
    ensures none { IsFalse result → table.new ≡ table.old }
{
    if table.newest(p) <= kept {
        return false;
    }
    table.unretire(p);
    reclaim_next(table, p);
    true
}

/// An owner is given back, and what that leaves without one is reclaimed at once. Participant 0 lends its current bag.
pub fn drop_now<T: Holds, J: Deferred>(table: &mut Table<T, J>, held: Held<T>)
    requires { IsPlace table.old }
    ensures dropped { Dropped T.holds (hold_of held) table.old table.new }
    ensures place { IsPlace table.new }
{
    let local = table.local(0);
    let kept = table.newest(0);
    give(table, 0, held);
    while reclaim_last(table, 0, kept) {}
    table.set_local(0, local);
}

/// The place that came last into a private bag names `slot`, which comes behind it, if there is one.
fn follow_last<T, J: Deferred>(table: &mut Table<T, J>, waiting: &PrivateBag, slot: usize)
    requires { slot < length table.old.states }
    ensures { table.new ≡ followed waiting.now.items slot table.old }
{
    let Some(last) = waiting.last() else {
        return;
    };
    if let Status::Collected(note, _) = table.status_of(last) {
        let behind = table.name_of(slot);
        table.set_status(last, Status::Collected(note, behind));
    }
}

/// What is in `slot` waits at the end of a private bag, and the count is noted; where that is full, `p` retires it.
fn collect<T, J: Deferred>(table: &mut Table<T, J>, p: usize, waiting: &mut PrivateBag, slot: usize)
    requires participant { p < length table.old.participants }
    requires slot { slot < length table.old.states }
    requires used { is_used (status_at table.old slot) ≡ true }
    requires waits_not { weight (status_at table.old slot) ≡ 0 }
    ensures state { table.new ≡ set_aside p waiting.old.room waiting.old.items slot table.old }
    ensures bag { waiting.new.items ≡ enqueued waiting.old.room waiting.old.items slot }
    ensures room { waiting.new.room ≡ waiting.old.room }
{
    if waiting.len() < waiting.room() {
        follow_last(table, waiting, slot);
        let note = table.count();
        table.set_status(slot, Status::Collected(note, 0));
        waiting.push(slot);
    } else {
        table.retire(p, slot);
    }
}

/// What is in `slot` waits at the end of a private bag, where it has one owner; answers whether it has.
pub fn leave_owned<T, J: Deferred>(
    table: &mut Table<T, J>,
    p: usize,
    waiting: &mut PrivateBag,
    slot: usize,
) -> bool
    requires participant { p < length table.old.participants }
    requires slot { slot < length table.old.states }
    ensures owned { IsTrue result → IsOwned table.old slot }
    ensures unowned { IsFalse result → ¬ IsOwned table.old slot }
    ensures apart { IsTrue result → table.new ≡ set_aside p waiting.old.room waiting.old.items slot table.old }
    ensures bag { IsTrue result → waiting.new.items ≡ enqueued waiting.old.room waiting.old.items slot }
    ensures gone { IsFalse result → table.new ≡ table.old }
    ensures same { IsFalse result → waiting.new.items ≡ waiting.old.items }
    ensures room { waiting.new.room ≡ waiting.old.room }
{
    match table.status(slot) {
        Status::Owned => {
            collect(table, p, waiting, slot);
            true
        }
        _ => false,
    }
}

/// Gives one owner of slot `slot` back, where it has some, and answers whether it was the last, which leaves the item in a
/// private bag.
pub fn leave_shared<T, J: Deferred>(
    table: &mut Table<T, J>,
    p: usize,
    waiting: &mut PrivateBag,
    slot: usize,
) -> bool
    requires participant { p < length table.old.participants }
    requires slot { slot < length table.old.states }
    ensures last { SaysLast result slot table.old }
    ensures shared { IsTrue result → IsShared table.old slot }
    ensures apart { IsTrue result → table.new ≡ set_aside p waiting.old.room waiting.old.items slot table.old }
    ensures bag { IsTrue result → waiting.new.items ≡ enqueued waiting.old.room waiting.old.items slot }
    ensures given { IsFalse result → table.new ≡ released p slot table.old }
    ensures same { IsFalse result → waiting.new.items ≡ waiting.old.items }
    ensures room { waiting.new.room ≡ waiting.old.room }
{
    match table.status(slot) {
        Status::Shared(owners) => {
            if owners > 1 {
                table.set_status(slot, Status::Shared(owners - 1));
                return false;
            }
            collect(table, p, waiting, slot);
            true
        }
        _ => false,
    }
}

/// Whether an item with this status can be reclaimed out of a private bag.
fn is_overdue(count: u64, status: Status) -> bool
    ensures { result ≡ overdue count status }
{
    match status {
        Status::Collected(note, _) => note <= count && count - note >= 3,
        _ => false,
    }
}

/// The place that an item with this use names, where it waits in a private bag.
fn behind(status: Status) -> usize
    ensures { result ≡ named_by (mark_of status) }
{
    match status {
        Status::Collected(_, slot) => slot as usize,
        _ => 0,
    }
}

/// The first place of a private bag leaves it, if it is overdue.
fn next_overdue<T, J: Deferred>(table: &Table<T, J>, waiting: &mut PrivateBag) -> Option<usize>
    ensures some { IfSome result (λ i. LeavesOverdue i waiting.old.items waiting.new.items table.now) }
    ensures none { IfNone result ((waiting.new.items ≡ waiting.old.items) × IsTimely table.now waiting.old.items) }
    ensures room { waiting.new.room ≡ waiting.old.room }
{
    let slot = waiting.first()?;
    let status = table.status_of(slot);
    if !is_overdue(table.count(), status) {
        return None;
    }
    waiting.leave(behind(status));
    Some(slot)
}

/// What is overdue at the front of a private bag is reclaimed by `p`.
pub fn purge<T: Holds, J: Deferred>(table: &mut Table<T, J>, p: usize, waiting: &mut PrivateBag)
    requires { p < length table.old.participants }
    ensures state { table.new ≡ purged T.holds p waiting.old.items table.old }
    ensures left { waiting.new.items ≡ left_waiting T.holds p waiting.old.items table.old }
    ensures room { waiting.new.room ≡ waiting.old.room }
{
    while let Some(slot) = next_overdue(table, waiting) {
        let value = table.remove(slot);
        give_all(table, p, value);
    }
}

/// The first place of a private bag leaves it, and `p` retires what is in it. Whether there was one.
fn hand_first<T, J: Deferred>(table: &mut Table<T, J>, p: usize, waiting: &mut PrivateBag) -> bool
    requires { p < length table.old.participants }
    ensures some { IsTrue result → HandsFirst p waiting.old.items waiting.new.items table.old table.new }
    ensures none { IsFalse result → (waiting.old.items ≡ []) × (table.new ≡ table.old) }
    ensures known { length table.new.participants ≡ length table.old.participants }
{
    let Some(slot) = waiting.first() else {
        return false;
    };
    let status = table.status_of(slot);
    waiting.leave(behind(status));
    if let Status::Collected(_, _) = status {
        table.retire(p, slot);
    }
    true
}

/// What waits in a private bag is retired by `p`.
pub fn hand_over<T, J: Deferred>(table: &mut Table<T, J>, p: usize, waiting: &mut PrivateBag)
    requires { p < length table.old.participants }
    ensures { table.new ≡ handed_over p waiting.old.items table.old }
{
    while hand_first(table, p, waiting) {}
}

/// Whether this outermost closing of `local` scans, where `closings` counts it.
fn scans(local: &LocalState, closings: u8) -> bool
    ensures { closings ≡ closings_after local.now → result ≡ scans_at local.now }
{
    local.accelerated || local.garbage && closings >= 64
}

/// Raises the count, if every open guard published it.
fn scan<T, J: Deferred>(table: &mut Table<T, J>)
    ensures { table.new ≡ scanned table.old }
{
    if table.all_present() && table.count() < u64::MAX {
        table.raise();
    }
}

/// Opens a guard of `p`, which isn't at its end.
pub fn open<T: Holds, J: Deferred>(table: &mut Table<T, J>, p: usize)
    requires participant { p < length table.old.participants }
    requires sound { Sound table.old }
    requires idle { (participant_at table.old p).due ≡ [] }
    requires room { (local_at table.old p).nesting < 4294967295 }
    ensures { table.new ≡ guard_opened T.holds p table.old }
{
    let mut local = table.local(p);
    if local.nesting == 0 {
        let turns = local.previous != table.count();
        table.publish(p);
        if turns {
            turn_over(table, p);
        }
    } else {
        local.nesting += 1;
        table.set_local(p, local);
    }
}

/// Closes a guard of `p`.
pub fn close<T, J: Deferred>(table: &mut Table<T, J>, p: usize)
    requires participant { p < length table.old.participants }
    requires open { 0 < (local_at table.old p).nesting }
    ensures { table.new ≡ guard_closed p table.old }
{
    let mut local = table.local(p);
    if local.nesting > 1 {
        local.nesting -= 1;
        table.set_local(p, local);
        return;
    }
    let closings = if local.closings < 64 {
        local.closings + 1
    } else {
        64
    };
    if scans(&local, closings) {
        scan(table);
        table.conclude(p, 0);
    } else {
        table.conclude(p, closings);
    }
}

/// Participant `p` rotates until its bags are empty.
fn sweep<T: Holds, J: Deferred>(table: &mut Table<T, J>, p: usize)
    requires participant { p < length table.old.participants }
    requires place { IsPlace table.old }
    ensures place { IsPlace table.new }
    ensures swept { Swept T.holds p table.old table.new }
    ensures known { length table.new.participants ≡ length table.old.participants }
    ensures only { OnlyParticipant p table.old table.new }
{
    while !table.bags_are_empty(p) {
        turn_over(table, p);
    }
}

/// All participants rotate until nothing waits.
pub fn sweep_all<T: Holds, J: Deferred>(table: &mut Table<T, J>)
    requires { IsPlace table.old }
    ensures place { IsPlace table.new }
    ensures swept { AllSwept T.holds table.old table.new }
{
    for p in 0..table.participants() {
        sweep(table, p);
    }
}
