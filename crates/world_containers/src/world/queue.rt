//! Queues over a `World`: the oldest entry comes first.

ghost use Rattle.std.specs.Prelude.{◌≤◌, ◌≡◌, ◌<◌, ◌↔◌, ℕ, [], ◌∷◌, length, IfOk, IfErr, OnErr, OnOk, Some, IfSome, IfNone, ◌≢◌, MatchOption, IsTrue, IsErrAnd, Bool, false};
ghost use Rattle.sdd_world.specs.State.{IsFreeCell};
ghost use Rattle.sdd_world.specs.Frame.{OnlyParticipant};
ghost use Rattle.sdd_world.specs.Place.{IsShared};
ghost use Rattle.sdd_world.specs.Steps.{released};
ghost use Rattle.sdd_world.specs.Tokens.{shared_slot, ptr_slot, ptr_tag};
ghost use Rattle.sdd_lists.specs.Nodes.{NamesSomeEntry, IsListed};
ghost use Rattle.std.specs.Fn.{FnOnceReturnsAt};
ghost use Rattle.world_containers.specs.Stacks.{took_entry};
ghost use Rattle.sdd_lists.specs.Chain.{Hangs, IsList, Leaves, Stays, undeleted, first_item, first_slot, front_tag, skip, links, slots};
ghost use Rattle.sdd_lists.specs.Entries.{entry_link};
ghost use Rattle.world_containers.specs.Iters.{iter_cell};
ghost use Rattle.std.specs.Iterator.{IsFiniteIterable};
ghost use Rattle.sdd_lists.specs.Copies.{ClonesAreSame};
ghost use Rattle.world_containers.specs.FromIter.{entry_values, Extends, IfUnmade, IfNoSlot, IfUncopied, IfPartly};
ghost use Rattle.world_containers.specs.Refusals.{refused_value, IsCondition, IsNoSlot};
ghost use Rattle.world_containers.specs.Queues.{oldest_cell, newest_cell, HasOldest};
ghost use Rattle.world_containers.specs.Calls.{AppendsTo, AskedFirst, CanAskFirst, CopiesQueueUpTo, FirstIsFull, GivesAll, GivesUpTo, IsNewQueue, KeepsEntries, NoRoom, NoTwoCells, OnlyQueue, QueueIn, SomeQueueIn, SparesOldest, TakesFrom, TakesOldest};

use crate::iter::Iter;
use crate::linked_entry::LinkedEntry;
use crate::queue::Queue;
use crate::refusal::{CloneRefused, FromIterRefused, NotMade, PushRefused};
use crate::world::copies::Copied;
use crate::world::{copies, tail};
use sdd_lists::world::{chain, entries};
use sdd_world::guard::WorldGuard;
use sdd_world::job::Deferred;
use sdd_world::link::Link;
use sdd_world::owner::Shared;
use sdd_world::pointer::Ptr;
use sdd_world::refusal::NoSlot;
use sdd_world::status::Status;
use sdd_world::tag::Tag;
use sdd_world::world::{World, atomic_shared};

/// An empty queue, if and only if two cells are free.
pub fn new<T, J: Deferred>(w: &mut World<LinkedEntry<T>, J>) -> Result<Queue<T>, NoSlot>
    requires { 0 ≤ length w.old.cells }
    ensures made { IfOk result (λ q. QueueIn w.new q []) }
    ensures fresh { IfOk result (λ q. IsFreeCell w.old (oldest_cell q) × IsFreeCell w.old (newest_cell q)) }
    ensures list { IfOk result (λ q. SomeQueueIn w.new q) }
    ensures refused { OnErr result ((w.new ≡ w.old) × NoTwoCells w.old) }
    ensures leaves { Leaves [] [] w.old w.new }
    ensures participants { w.new.participants ≡ w.old.participants }
    ensures stays { Stays w.old w.new }
{
    match atomic_shared::null(w) {
        Err(e) => Err(e),
        Ok(oldest) => match atomic_shared::null(w) {
            Ok(newest) => Ok(Queue { oldest, newest }),
            Err(e) => {
                chain::end(w, oldest);
                Err(e)
            }
        },
    }
}

/// Puts `value` behind all others, in an entry of its own, and gives another owner of that, if and only if a slot and a
/// cell are free; else `value` is returned and nothing changes.
pub fn push<T, J: Deferred>(
    w: &mut World<LinkedEntry<T>, J>,
    queue: &Queue<T>,
    value: T,
) -> Result<Shared<LinkedEntry<T>>, T>
    requires participant { 0 < length w.old.participants }
    requires list { SomeQueueIn w.old queue.now }
    ensures pushed { IfOk result (λ s. AppendsTo w.old w.new queue.now value s) }
    ensures refused { IfErr result (λ v. (v ≡ value) × (w.new ≡ w.old) × NoRoom w.old) }
    ensures live { IfOk result (λ s. IsShared w.new (shared_slot s)) }
    ensures list { SomeQueueIn w.new queue.now }
    ensures leaves { OnlyQueue w.old w.new queue.now }
    ensures only { OnlyParticipant 0 w.old w.new }
    ensures stays { Stays w.old w.new }
{
    match entries::make_three(w, value) {
        Err(value) => Err(value),
        Ok((entry, link, last)) => {
            tail::append(w, &queue.oldest, &queue.newest, link, last);
            Ok(entry)
        }
    }
}

/// As `push`, without another owner, and without a value it does nothing.
fn add<T, J: Deferred>(
    w: &mut World<LinkedEntry<T>, J>,
    queue: &Queue<T>,
    value: Option<T>,
) -> Result<(), T>
    requires participant { 0 < length w.old.participants }
    requires list { SomeQueueIn w.old queue.now }
    ensures added { OnOk result (MatchOption value (w.new ≡ w.old) (λ v. Extends w.old w.new v (oldest_cell queue.now) (newest_cell queue.now))) }
    ensures refused { IfErr result (λ v. (value ≡ Some v) × (w.new ≡ w.old) × NoRoom w.old) }
    ensures leaves { OnlyQueue w.old w.new queue.now }
    ensures only { OnlyParticipant 0 w.old w.new }
    ensures stays { Stays w.old w.new }
{
    let Some(value) = value else {
        return Ok(());
    };
    match entries::make(w, value) {
        Err(value) => Err(value),
        Ok((link, last)) => {
            tail::append(w, &queue.oldest, &queue.newest, link, last);
            Ok(())
        }
    }
}

/// A queue of the values, in their order, each in an entry of its own. If there aren't two free cells, nothing has
/// changed and `values` is returned. The first value for which no slot or no cell is free is returned with the queue of
/// those before it. Condition: the values end.
pub fn from_iter<T, J: Deferred, I: IntoIterator<Item = T>>(
    w: &mut World<LinkedEntry<T>, J>,
    values: I,
) -> Result<Queue<T>, FromIterRefused<Queue<T>, T, I>>
    requires participant { 0 < length w.old.participants }
    requires ends { IsFiniteIterable I.into_iter_gives I.IntoIter.can_next I.IntoIter.remaining values }
    ensures filled { IfOk result (λ q. GivesAll I.into_iter_gives I.IntoIter.next_gives values (IsNewQueue w.old w.new q)) }
    ensures partly { IfErr result (λ e. IfNoSlot e (λ q v. GivesUpTo I.into_iter_gives I.IntoIter.next_gives values v (IsNewQueue w.old w.new q))) }
    ensures room { IfErr result (λ e. IfNoSlot e (λ _ _. NoRoom w.new)) }
    ensures none { IfErr result (λ e. IfUnmade e (λ r back. (r ≡ NotMade.NoSlot) × (back ≡ values) × (w.new ≡ w.old) × NoTwoCells w.old)) }
    ensures list { IfOk result (λ q. SomeQueueIn w.new q) }
    ensures built { IfErr result (λ e. IfNoSlot e (λ q _. SomeQueueIn w.new q)) }
    ensures leaves { Leaves [] [] w.old w.new }
    ensures only { OnlyParticipant 0 w.old w.new }
    ensures stays { Stays w.old w.new }
{
    let queue = match new(w) {
        Ok(queue) => queue,
        Err(_) => return Err(FromIterRefused::Unmade(NotMade::NoSlot, values)),
    };
    for value in values {
        match add(w, &queue, Some(value)) {
            Ok(()) => {}
            Err(value) => return Err(FromIterRefused::NoSlot(queue, value)),
        }
    }
    Ok(queue)
}

/// A queue of clones of the values that aren't deleted, in their order, each in a clear entry of its own. If there
/// aren't two free cells, nothing has changed. If a clone is refused, or no slot or no cell is free for one, the
/// queue of those before it is returned. Condition: a clone is the value itself.
pub fn clone<T: Clone, J: Deferred>(
    w: &mut World<LinkedEntry<T>, J>,
    queue: &Queue<T>,
) -> Result<Queue<T>, CloneRefused<Queue<T>>>
    requires clones { ClonesAreSame T.is_clone }
    requires participant { 0 < length w.old.participants }
    requires list { SomeQueueIn w.old queue.now }
    ensures cloned { (es : _) → QueueIn w.old queue.now es → IfOk result (λ q. IsNewQueue w.old w.new q (entry_values (undeleted es))) }
    ensures partly { (es : _) → QueueIn w.old queue.now es → IfErr result (λ e. IfPartly e (CopiesQueueUpTo T.is_infallible w.old w.new es)) }
    ensures none { IfErr result (λ e. IfUncopied e (λ r. (r ≡ NotMade.NoSlot) × (w.new ≡ w.old) × NoTwoCells w.old)) }
    ensures kept { (es : _) → QueueIn w.old queue.now es → QueueIn w.new queue.now es }
    ensures list { IfOk result (λ q. SomeQueueIn w.new q) }
    ensures built { IfErr result (λ e. IfPartly e (λ q _. SomeQueueIn w.new q)) }
    ensures leaves { Leaves [] [] w.old w.new }
    ensures only { OnlyParticipant 0 w.old w.new }
    ensures stays { Stays w.old w.new }
{
    let copy = match new(w) {
        Ok(copy) => copy,
        Err(_) => return Err(CloneRefused::Unmade(NotMade::NoSlot)),
    };
    let mut at = Link::of(&queue.oldest);
    for _passed in 0..w.slots_in_use() {
        let Ok(next) = copies::first(w, at.cell()) else {
            return Err(CloneRefused::Partly(copy, NotMade::Memory));
        };
        let Some(next) = next else {
            return Ok(copy);
        };
        let Copied { link, value } = next;
        at = link;
        match add(w, &copy, value) {
            Ok(()) => {}
            Err(_) => return Err(CloneRefused::Partly(copy, NotMade::NoSlot)),
        }
    }
    Ok(copy)
}

/// Takes the first undeleted entry, which is deleted by that, and gives an owner of it; deleted entries before it are
/// given back by participant `p`.
pub fn pop<T, J: Deferred>(
    w: &mut World<LinkedEntry<T>, J>,
    queue: &Queue<T>,
    p: usize,
) -> Option<Shared<LinkedEntry<T>>>
    requires participant { p < length w.old.participants }
    requires list { SomeQueueIn w.old queue.now }
    ensures popped { TakesOldest w.old w.new queue.now result }
    ensures live { IfSome result (λ s. IsShared w.new (shared_slot s)) }
    ensures list { SomeQueueIn w.new queue.now }
    ensures leaves { OnlyQueue w.old w.new queue.now }
    ensures only { OnlyParticipant p w.old w.new }
    ensures stays { Stays w.old w.new }
{
    if is_empty(w, queue) {
        tail::forget(w, &queue.newest, p);
        chain::skip_deleted(w, &queue.oldest, p);
        return None;
    }
    chain::skip_deleted(w, &queue.oldest, p);
    match chain::take_first(w, &queue.oldest) {
        None => unreachable!(),
        Some(first) => {
            chain::delete(w, &first);
            tail::settle(w, &queue.oldest, &queue.newest, p);
            Some(first)
        }
    }
}

/// A pointer to the first undeleted entry, or null, with the tag of the cell that keeps it.
pub fn peek<T, J: Deferred>(
    w: &World<LinkedEntry<T>, J>,
    queue: &Queue<T>,
    guard: &WorldGuard,
) -> Ptr<'static, LinkedEntry<T>>
    requires { SomeQueueIn w.now queue.now }
    ensures first { (es : _) → QueueIn w.now queue.now es → ptr_slot result ≡ first_slot (undeleted es) }
    ensures tag { (es : _) → QueueIn w.now queue.now es → ptr_tag result ≡ front_tag Tag.None es }
    ensures node { IfSome (ptr_slot result) (λ i. NamesSomeEntry entry_link w.now (Some i)) }
    ensures listed { IfSome (ptr_slot result) (λ i. IsListed entry_link w.now (Some i)) }
{
    atomic_shared::load(w, chain::skip_from(w, &queue.oldest), guard)
}

/// How many entries aren't deleted.
pub fn len<T, J: Deferred>(w: &World<LinkedEntry<T>, J>, queue: &Queue<T>) -> usize
    requires { SomeQueueIn w.now queue.now }
    ensures { (es : _) → QueueIn w.now queue.now es → result ≡ length (undeleted es) }
{
    chain::count(w, &queue.oldest)
}

/// Whether every entry is deleted.
pub fn is_empty<T, J: Deferred>(w: &World<LinkedEntry<T>, J>, queue: &Queue<T>) -> bool
    requires { SomeQueueIn w.now queue.now }
    ensures { (es : _) → QueueIn w.now queue.now es → IsTrue result ↔ (undeleted es ≡ []) }
{
    atomic_shared::is_null(w, chain::skip_from(w, &queue.oldest))
}

/// Ends the queue: participant `p` gives all its entries back, and its two cells are free.
pub fn retire<T, J: Deferred>(w: &mut World<LinkedEntry<T>, J>, queue: Queue<T>, p: usize)
    requires participant { p < length w.old.participants }
    requires list { SomeQueueIn w.old queue }
    ensures ended { IsFreeCell w.new (oldest_cell queue) × IsFreeCell w.new (newest_cell queue) }
    ensures leaves { OnlyQueue w.old w.new queue }
    ensures only { OnlyParticipant p w.old w.new }
    ensures stays { Stays w.old w.new }
{
    let Queue { oldest, newest } = queue;
    tail::forget(w, &newest, p);
    chain::clear(w, &oldest, p);
    chain::end(w, oldest);
    chain::end(w, newest);
}

/// Calls `f` once with the first undeleted entry, or none, and gives what it answers. Condition: it may be called there;
/// it isn't called at a deleted entry.
pub fn peek_with<T, J: Deferred, R, F: FnOnce(Option<&LinkedEntry<T>>) -> R>(
    w: &World<LinkedEntry<T>, J>,
    queue: &Queue<T>,
    f: F,
) -> R
    requires callable { CanAskFirst F.pre f (QueueIn w.now queue.now) }
    requires list { SomeQueueIn w.now queue.now }
    ensures { AskedFirst F.post f (QueueIn w.now queue.now) result }
{
    f(chain::first_undeleted(w, &queue.oldest))
}

/// As `push`, if `f` answers true for the first undeleted entry, or none. It is called once. Condition: it may be called
/// there; it isn't called at a deleted entry.
pub fn push_if<T, J: Deferred, F: FnOnce(Option<&LinkedEntry<T>>) -> bool>(
    w: &mut World<LinkedEntry<T>, J>,
    queue: &Queue<T>,
    value: T,
    f: F,
) -> Result<Shared<LinkedEntry<T>>, PushRefused<T>>
    requires callable { CanAskFirst F.pre f (QueueIn w.old queue.now) }
    requires participant { 0 < length w.old.participants }
    requires list { SomeQueueIn w.old queue.now }
    ensures asked { (r : Bool) × AskedFirst F.post f (QueueIn w.old queue.now) r × (IsErrAnd result IsCondition ↔ (r ≡ false)) }
    ensures pushed { IfOk result (λ s. AppendsTo w.old w.new queue.now value s) }
    ensures back { IfErr result (λ e. (refused_value e ≡ value) × (w.new ≡ w.old)) }
    ensures full { IfErr result (λ e. IsNoSlot e → NoRoom w.old) }
    ensures live { IfOk result (λ s. IsShared w.new (shared_slot s)) }
    ensures list { SomeQueueIn w.new queue.now }
    ensures leaves { OnlyQueue w.old w.new queue.now }
    ensures only { OnlyParticipant 0 w.old w.new }
    ensures stays { Stays w.old w.new }
{
    if !peek_with(w, queue, f) {
        return Err(PushRefused::Condition(value));
    }
    match push(w, queue, value) {
        Ok(entry) => Ok(entry),
        Err(value) => Err(PushRefused::NoSlot(value)),
    }
}

/// A walk along its entries that aren't deleted, the oldest first.
pub fn iter<T, J: Deferred>(_w: &World<LinkedEntry<T>, J>, queue: &Queue<T>) -> Iter<T>
    requires { SomeQueueIn _w.now queue.now }
    ensures starts { (es : _) → QueueIn _w.now queue.now es → IsList entry_link _w.now (iter_cell result) Tag.None es }
    ensures hangs { Hangs entry_link _w.now (iter_cell result) }
{
    Iter {
        at: Link::of(&queue.oldest),
    }
}

/// Another owner of the first undeleted entry, or none at the greatest count of owners; deleted entries before it are
/// given back by participant `p`.
fn share_oldest<T, J: Deferred>(
    w: &mut World<LinkedEntry<T>, J>,
    queue: &Queue<T>,
    p: usize,
) -> Option<Shared<LinkedEntry<T>>>
    requires participant { p < length w.old.participants }
    requires list { HasOldest entry_link w.old (oldest_cell queue.now) (newest_cell queue.now) }
    ensures kept { (es : _) → QueueIn w.old queue.now es → undeleted es ≢ [] → QueueIn w.new queue.now (skip es) }
    ensures some { IfSome result (λ s. (es : _) → QueueIn w.old queue.now es → Some (shared_slot s) ≡ first_slot (undeleted es)) }
    ensures owner { IfSome result (λ s. IsShared w.new (shared_slot s)) }
    ensures spare { IfSome result (λ s. SparesOldest w.old w.new queue.now s) }
    ensures none { IfNone result ((es : _) → QueueIn w.old queue.now es → FirstIsFull w.old es) }
    ensures leaves { (es : _) → QueueIn w.old queue.now es → Leaves (oldest_cell queue.now ∷ links es) (slots es) w.old w.new }
    ensures only { OnlyParticipant p w.old w.new }
    ensures stays { Stays w.old w.new }
{
    chain::skip_deleted(w, &queue.oldest, p);
    match chain::share_first(w, &queue.oldest) {
        Some(owner) => Some(owner),
        None => None,
    }
}

/// As `pop`, if `f` answers true for the first undeleted entry; else another owner of that is given, and nothing is
/// taken: it can be given back at once. Where every entry is deleted, `f` isn't called. Where the entry has `2^32 - 1`
/// owners, a refusal answers none.
pub fn pop_if<T, J: Deferred, F: FnOnce(&LinkedEntry<T>) -> bool + Drop>(
    w: &mut World<LinkedEntry<T>, J>,
    queue: &Queue<T>,
    p: usize,
    f: F,
) -> Result<Option<Shared<LinkedEntry<T>>>, Shared<LinkedEntry<T>>>
    requires callable { F.IsAlwaysCallable f }
    requires participant { p < length w.old.participants }
    requires list { SomeQueueIn w.old queue.now }
    ensures asked { (es : _) → QueueIn w.old queue.now es → IfSome (first_item (undeleted es)) (λ v. FnOnceReturnsAt F.FnOnce f v (took_entry result)) }
    ensures popped { (es : _) → QueueIn w.old queue.now es → IfOk result (λ r. IfSome r (λ s. TakesFrom w.new queue.now s es)) }
    ensures live { IfOk result (λ r. IfSome r (λ s. IsShared w.new (shared_slot s))) }
    ensures owner { IfErr result (λ s. IsShared w.new (shared_slot s)) }
    ensures spare { IfErr result (λ s. (p : ℕ) (es : _) → QueueIn w.old queue.now es → KeepsEntries (released p (shared_slot s) w.new) queue.now es) }
    ensures kept { took_entry result ≡ false → (es : _) → QueueIn w.old queue.now es → KeepsEntries w.new queue.now es }
    ensures refused { IfErr result (λ s. (es : _) → QueueIn w.old queue.now es → Some (shared_slot s) ≡ first_slot (undeleted es)) }
    ensures full { (es : _) → QueueIn w.old queue.now es → IfOk result (λ r. IfNone r (FirstIsFull w.old es)) }
    ensures list { SomeQueueIn w.new queue.now }
    ensures leaves { OnlyQueue w.old w.new queue.now }
    ensures only { OnlyParticipant p w.old w.new }
    ensures stays { Stays w.old w.new }
{
    let Some(entry) = chain::first_undeleted(w, &queue.oldest) else {
        return Ok(None);
    };
    if !chain::answer(f, entry) {
        return match share_oldest(w, queue, p) {
            Some(owner) => Err(owner),
            None => Ok(None),
        };
    }
    match pop(w, queue, p) {
        Some(owner) => Ok(Some(owner)),
        None => unreachable!(),
    }
}
