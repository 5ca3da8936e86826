//! Stacks over a `World`: the newest entry comes first.

ghost use Rattle.std.specs.Prelude.{◌≤◌, ◌≡◌, ◌<◌, ◌↔◌, ℕ, [], ◌∷◌, length, IfOk, IfErr, OnErr, OnOk, None, Some, IfSome, IfNone, MatchOption, IsTrue, IsErrAnd, Bool, false};
ghost use Rattle.sdd_world.specs.State.{cell_at, IsFreeCell, NoCellFree};
ghost use Rattle.sdd_world.specs.Frame.{OnlyParticipant};
ghost use Rattle.sdd_world.specs.Place.{IsShared};
ghost use Rattle.sdd_world.specs.Steps.{released};
ghost use Rattle.sdd_world.specs.Tokens.{link_cell, shared_slot, ptr_slot, ptr_tag};
ghost use Rattle.sdd_lists.specs.Nodes.{NamesSomeEntry, IsListed};
ghost use Rattle.std.specs.Fn.{FnOnceReturnsAt};
ghost use Rattle.sdd_lists.specs.Chain.{Hangs, IsList, Leaves, Stays, undeleted, first_item, first_slot, front_tag, skip};
ghost use Rattle.sdd_lists.specs.Entries.{entry_link};
ghost use Rattle.world_containers.specs.Iters.{iter_cell};
ghost use Rattle.std.specs.Iterator.{IsFiniteIterable};
ghost use Rattle.sdd_lists.specs.Copies.{ClonesAreSame};
ghost use Rattle.world_containers.specs.FromIter.{entry_values, IfUnmade, IfNoSlot, IfUncopied, IfPartly};
ghost use Rattle.world_containers.specs.Refusals.{refused_value, IsCondition, IsNoSlot};
ghost use Rattle.world_containers.specs.Stacks.{stack_cell, took_entry, IsSomeStack, Pushes};
ghost use Rattle.world_containers.specs.Calls.{AddsLast, AskedFirst, CanAskFirst, CopiesStackUpTo, FirstIsFull, GivesAll, GivesUpTo, IsNewStack, IsStacked, NoRoom, OnlyStack, PopsFrom, PopsNewest, StackIn};

use crate::iter::Iter;
use crate::linked_entry::LinkedEntry;
use crate::refusal::{CloneRefused, FromIterRefused, NotMade, PushRefused};
use crate::stack::Stack;
use crate::world::copies::Copied;
use crate::world::{copies, row};
use sdd_lists::world::{chain, entries};
use sdd_world::guard::WorldGuard;
use sdd_world::job::Deferred;
use sdd_world::link::Link;
use sdd_world::owner::Shared;
use sdd_world::pointer::Ptr;
use sdd_world::refusal::NoSlot;
use sdd_world::status::{Cell, Status};
use sdd_world::tag::Tag;
use sdd_world::world::{World, atomic_shared};

/// An empty stack, if and only if a cell is free.
pub fn new<T, J: Deferred>(w: &mut World<LinkedEntry<T>, J>) -> Result<Stack<T>, NoSlot>
    requires { 0 ≤ length w.old.cells }
    ensures made { IfOk result (λ s. StackIn w.new s []) }
    ensures fresh { IfOk result (λ s. IsFreeCell w.old (stack_cell s)) }
    ensures list { IfOk result (λ s. IsSomeStack w.new (stack_cell s)) }
    ensures refused { OnErr result ((w.new ≡ w.old) × NoCellFree w.old) }
    ensures leaves { Leaves [] [] w.old w.new }
    ensures participants { w.new.participants ≡ w.old.participants }
    ensures stays { Stays w.old w.new }
{
    match atomic_shared::null(w) {
        Ok(newest) => Ok(Stack { newest }),
        Err(e) => Err(e),
    }
}

/// Puts `value` in front, in an entry of its own, and gives another owner of that, if and only if a slot and a cell are
/// free; else `value` is returned and nothing changes.
pub fn push<T, J: Deferred>(
    w: &mut World<LinkedEntry<T>, J>,
    stack: &Stack<T>,
    value: T,
) -> Result<Shared<LinkedEntry<T>>, T>
    requires { IsSomeStack w.old (stack_cell stack.now) }
    ensures pushed { IfOk result (λ s. Pushes w.old w.new value (stack_cell stack.now) (shared_slot s)) }
    ensures refused { IfErr result (λ v. (v ≡ value) × (w.new ≡ w.old) × NoRoom w.old) }
    ensures live { IfOk result (λ s. IsShared w.new (shared_slot s)) }
    ensures list { IsSomeStack w.new (stack_cell stack.now) }
    ensures leaves { Leaves (stack_cell stack.now ∷ []) [] w.old w.new }
    ensures participants { w.new.participants ≡ w.old.participants }
    ensures stays { Stays w.old w.new }
{
    match entries::make(w, value) {
        Err(value) => Err(value),
        Ok((entry, first)) => {
            chain::put_first(w, &stack.newest, first);
            Ok(entry)
        }
    }
}

/// Puts `value` at the end of a list, in an entry of its own; without a value it does nothing. `end` is the cell there,
/// before and after.
fn add_last<T, J: Deferred>(
    w: &mut World<LinkedEntry<T>, J>,
    end: &mut Link<LinkedEntry<T>>,
    value: Option<T>,
) -> Result<(), T>
    requires { cell_at w.old (link_cell end.old) ≡ Cell.OfShared None Tag.None }
    ensures added { OnOk result (AddsLast w.old w.new value (link_cell end.old) (link_cell end.new)) }
    ensures refused { IfErr result (λ v. (value ≡ Some v) × (w.new ≡ w.old) × NoRoom w.old) }
    ensures leaves { Leaves (link_cell end.old ∷ []) [] w.old w.new }
    ensures participants { w.new.participants ≡ w.old.participants }
    ensures stays { Stays w.old w.new }
{
    let Some(value) = value else {
        return Ok(());
    };
    match entries::make_one(w, value) {
        Err(value) => Err(value),
        Ok(last) => {
            let link = chain::link_of(w, &last);
            chain::put_first(w, end.cell(), last);
            *end = link;
            Ok(())
        }
    }
}

/// A stack of the values, the last one in front, each in an entry of its own. If no cell is free, nothing has
/// changed and `values` is returned. The first value for which no slot or no cell is free is returned with the stack of
/// those before it. Condition: the values end.
pub fn from_iter<T, J: Deferred, I: IntoIterator<Item = T>>(
    w: &mut World<LinkedEntry<T>, J>,
    values: I,
) -> Result<Stack<T>, FromIterRefused<Stack<T>, T, I>>
    requires { IsFiniteIterable I.into_iter_gives I.IntoIter.can_next I.IntoIter.remaining values }
    ensures filled { IfOk result (λ s. GivesAll I.into_iter_gives I.IntoIter.next_gives values (IsStacked w.old w.new s)) }
    ensures partly { IfErr result (λ e. IfNoSlot e (λ s v. GivesUpTo I.into_iter_gives I.IntoIter.next_gives values v (IsStacked w.old w.new s))) }
    ensures room { IfErr result (λ e. IfNoSlot e (λ _ _. NoRoom w.new)) }
    ensures none { IfErr result (λ e. IfUnmade e (λ r back. (r ≡ NotMade.NoSlot) × (back ≡ values) × (w.new ≡ w.old) × NoCellFree w.old)) }
    ensures list { IfOk result (λ s. IsSomeStack w.new (stack_cell s)) }
    ensures built { IfErr result (λ e. IfNoSlot e (λ s _. IsSomeStack w.new (stack_cell s))) }
    ensures leaves { Leaves [] [] w.old w.new }
    ensures participants { w.new.participants ≡ w.old.participants }
    ensures stays { Stays w.old w.new }
{
    let stack = match new(w) {
        Ok(stack) => stack,
        Err(_) => return Err(FromIterRefused::Unmade(NotMade::NoSlot, values)),
    };
    for value in values {
        match row::put(w, &stack.newest, value) {
            Ok(()) => {}
            Err(value) => return Err(FromIterRefused::NoSlot(stack, value)),
        }
    }
    Ok(stack)
}

/// A stack of clones of the values that aren't deleted, in their order, each in a clear entry of its own. If no cell
/// is free, nothing has changed. If a clone is refused, or no slot or no cell is free for one, the stack of
/// those before it is returned. Condition: a clone is the value itself.
pub fn clone<T: Clone, J: Deferred>(
    w: &mut World<LinkedEntry<T>, J>,
    stack: &Stack<T>,
) -> Result<Stack<T>, CloneRefused<Stack<T>>>
    requires clones { ClonesAreSame T.is_clone }
    requires list { IsSomeStack w.old (stack_cell stack.now) }
    ensures cloned { (es : _) → StackIn w.old stack.now es → IfOk result (λ s. IsNewStack w.old w.new s (entry_values (undeleted es))) }
    ensures partly { (es : _) → StackIn w.old stack.now es → IfErr result (λ e. IfPartly e (CopiesStackUpTo T.is_infallible w.old w.new es)) }
    ensures none { IfErr result (λ e. IfUncopied e (λ r. (r ≡ NotMade.NoSlot) × (w.new ≡ w.old) × NoCellFree w.old)) }
    ensures kept { (es : _) → StackIn w.old stack.now es → StackIn w.new stack.now es }
    ensures list { IfOk result (λ s. IsSomeStack w.new (stack_cell s)) }
    ensures built { IfErr result (λ e. IfPartly e (λ s _. IsSomeStack w.new (stack_cell s))) }
    ensures leaves { Leaves [] [] w.old w.new }
    ensures participants { w.new.participants ≡ w.old.participants }
    ensures stays { Stays w.old w.new }
{
    let copy = match new(w) {
        Ok(copy) => copy,
        Err(_) => return Err(CloneRefused::Unmade(NotMade::NoSlot)),
    };
    let mut at = Link::of(&stack.newest);
    let mut end = Link::of(&copy.newest);
    for _passed in 0..w.slots_in_use() {
        let Ok(next) = copies::first(w, at.cell()) else {
            return Err(CloneRefused::Partly(copy, NotMade::Memory));
        };
        let Some(next) = next else {
            return Ok(copy);
        };
        let Copied { link, value } = next;
        at = link;
        match add_last(w, &mut end, value) {
            Ok(()) => {}
            Err(_) => return Err(CloneRefused::Partly(copy, NotMade::NoSlot)),
        }
    }
    Ok(copy)
}

/// Takes the first undeleted entry, which is deleted by that, and gives an owner of it; deleted entries before it are
/// given back by participant `p`.
pub fn pop<T, J: Deferred>(
    w: &mut World<LinkedEntry<T>, J>,
    stack: &Stack<T>,
    p: usize,
) -> Option<Shared<LinkedEntry<T>>>
    requires participant { p < length w.old.participants }
    requires list { IsSomeStack w.old (stack_cell stack.now) }
    ensures popped { PopsNewest w.old w.new stack.now result }
    ensures live { IfSome result (λ s. IsShared w.new (shared_slot s)) }
    ensures list { IsSomeStack w.new (stack_cell stack.now) }
    ensures leaves { OnlyStack w.old w.new stack.now }
    ensures only { OnlyParticipant p w.old w.new }
    ensures stays { Stays w.old w.new }
{
    chain::skip_deleted(w, &stack.newest, p);
    match chain::take_first(w, &stack.newest) {
        None => None,
        Some(first) => {
            chain::delete(w, &first);
            Some(first)
        }
    }
}

/// A pointer to the first undeleted entry, or null, with the tag of the cell that keeps it.
pub fn peek<T, J: Deferred>(
    w: &World<LinkedEntry<T>, J>,
    stack: &Stack<T>,
    guard: &WorldGuard,
) -> Ptr<'static, LinkedEntry<T>>
    requires { IsSomeStack w.now (stack_cell stack.now) }
    ensures first { (es : _) → StackIn w.now stack.now es → ptr_slot result ≡ first_slot (undeleted es) }
    ensures tag { (es : _) → StackIn w.now stack.now es → ptr_tag result ≡ front_tag Tag.None es }
    ensures node { IfSome (ptr_slot result) (λ i. NamesSomeEntry entry_link w.now (Some i)) }
    ensures listed { IfSome (ptr_slot result) (λ i. IsListed entry_link w.now (Some i)) }
{
    atomic_shared::load(w, chain::skip_from(w, &stack.newest), guard)
}

/// How many entries aren't deleted.
pub fn len<T, J: Deferred>(w: &World<LinkedEntry<T>, J>, stack: &Stack<T>) -> usize
    requires { IsSomeStack w.now (stack_cell stack.now) }
    ensures { (es : _) → StackIn w.now stack.now es → result ≡ length (undeleted es) }
{
    chain::count(w, &stack.newest)
}

/// Whether every entry is deleted.
pub fn is_empty<T, J: Deferred>(w: &World<LinkedEntry<T>, J>, stack: &Stack<T>) -> bool
    requires { IsSomeStack w.now (stack_cell stack.now) }
    ensures { (es : _) → StackIn w.now stack.now es → IsTrue result ↔ (undeleted es ≡ []) }
{
    atomic_shared::is_null(w, chain::skip_from(w, &stack.newest))
}

/// Moves all entries to a new stack, if and only if a cell is free. Participant `_p` gives nothing back.
pub fn pop_all<T, J: Deferred>(
    w: &mut World<LinkedEntry<T>, J>,
    stack: &Stack<T>,
    _p: usize,
) -> Result<Stack<T>, NoSlot>
    requires { IsSomeStack w.old (stack_cell stack.now) }
    ensures moved { IfOk result (λ s. (es : _) → StackIn w.old stack.now es → StackIn w.new s es) }
    ensures emptied { OnOk result (StackIn w.new stack.now []) }
    ensures fresh { IfOk result (λ s. IsFreeCell w.old (stack_cell s)) }
    ensures refused { OnErr result ((w.new ≡ w.old) × NoCellFree w.old) }
    ensures list { IsSomeStack w.new (stack_cell stack.now) }
    ensures lists { IfOk result (λ s. IsSomeStack w.new (stack_cell s)) }
    ensures leaves { Leaves (stack_cell stack.now ∷ []) [] w.old w.new }
    ensures participants { w.new.participants ≡ w.old.participants }
    ensures stays { Stays w.old w.new }
{
    match atomic_shared::null(w) {
        Err(e) => Err(e),
        Ok(newest) => {
            let first = chain::take(w, &stack.newest);
            chain::fill(w, &newest, first);
            Ok(Stack { newest })
        }
    }
}

/// Ends the stack: participant `p` gives all its entries back, and its cell is free.
pub fn retire<T, J: Deferred>(w: &mut World<LinkedEntry<T>, J>, stack: Stack<T>, p: usize)
    requires participant { p < length w.old.participants }
    requires list { IsSomeStack w.old (stack_cell stack) }
    ensures ended { IsFreeCell w.new (stack_cell stack) }
    ensures leaves { OnlyStack w.old w.new stack }
    ensures only { OnlyParticipant p w.old w.new }
    ensures stays { Stays w.old w.new }
{
    let Stack { newest } = stack;
    chain::clear(w, &newest, p);
    chain::end(w, newest);
}

/// Calls `f` once with the first undeleted entry, or none, and gives what it answers. Condition: it may be called there;
/// it isn't called at a deleted entry.
pub fn peek_with<T, J: Deferred, R, F: FnOnce(Option<&LinkedEntry<T>>) -> R>(
    w: &World<LinkedEntry<T>, J>,
    stack: &Stack<T>,
    f: F,
) -> R
    requires callable { CanAskFirst F.pre f (StackIn w.now stack.now) }
    requires list { IsSomeStack w.now (stack_cell stack.now) }
    ensures { AskedFirst F.post f (StackIn w.now stack.now) result }
{
    f(chain::first_undeleted(w, &stack.newest))
}

/// As `push`, if `f` answers true for the first undeleted entry, or none. It is called once. Condition: it may be called
/// there; it isn't called at a deleted entry.
pub fn push_if<T, J: Deferred, F: FnOnce(Option<&LinkedEntry<T>>) -> bool>(
    w: &mut World<LinkedEntry<T>, J>,
    stack: &Stack<T>,
    value: T,
    f: F,
) -> Result<Shared<LinkedEntry<T>>, PushRefused<T>>
    requires callable { CanAskFirst F.pre f (StackIn w.old stack.now) }
    requires list { IsSomeStack w.old (stack_cell stack.now) }
    ensures asked { (r : Bool) × AskedFirst F.post f (StackIn w.old stack.now) r × (IsErrAnd result IsCondition ↔ (r ≡ false)) }
    ensures pushed { IfOk result (λ s. Pushes w.old w.new value (stack_cell stack.now) (shared_slot s)) }
    ensures back { IfErr result (λ e. (refused_value e ≡ value) × (w.new ≡ w.old)) }
    ensures full { IfErr result (λ e. IsNoSlot e → NoRoom w.old) }
    ensures live { IfOk result (λ s. IsShared w.new (shared_slot s)) }
    ensures list { IsSomeStack w.new (stack_cell stack.now) }
    ensures leaves { Leaves (stack_cell stack.now ∷ []) [] w.old w.new }
    ensures participants { w.new.participants ≡ w.old.participants }
    ensures stays { Stays w.old w.new }
{
    if !peek_with(w, stack, f) {
        return Err(PushRefused::Condition(value));
    }
    match push(w, stack, value) {
        Ok(entry) => Ok(entry),
        Err(value) => Err(PushRefused::NoSlot(value)),
    }
}

/// As `pop`, if `f` answers true for the first undeleted entry; else another owner of that is given, and nothing is
/// taken: it can be given back at once. Where every entry is deleted, `f` isn't called. Where the entry has `2^32 - 1`
/// owners, a refusal answers none.
pub fn pop_if<T, J: Deferred, F: FnOnce(&LinkedEntry<T>) -> bool + Drop>(
    w: &mut World<LinkedEntry<T>, J>,
    stack: &Stack<T>,
    p: usize,
    f: F,
) -> Result<Option<Shared<LinkedEntry<T>>>, Shared<LinkedEntry<T>>>
    requires callable { F.IsAlwaysCallable f }
    requires participant { p < length w.old.participants }
    requires list { IsSomeStack w.old (stack_cell stack.now) }
    ensures asked { (es : _) → StackIn w.old stack.now es → IfSome (first_item (undeleted es)) (λ v. FnOnceReturnsAt F.FnOnce f v (took_entry result)) }
    ensures popped { (es : _) → StackIn w.old stack.now es → IfOk result (λ r. IfSome r (λ s. PopsFrom w.new stack.now s es)) }
    ensures kept { took_entry result ≡ false → (es : _) → StackIn w.old stack.now es → StackIn w.new stack.now (skip es) }
    ensures live { IfOk result (λ r. IfSome r (λ s. IsShared w.new (shared_slot s))) }
    ensures owner { IfErr result (λ s. IsShared w.new (shared_slot s)) }
    ensures spare { IfErr result (λ s. (p : ℕ) (es : _) → StackIn w.old stack.now es → StackIn (released p (shared_slot s) w.new) stack.now (skip es)) }
    ensures refused { IfErr result (λ s. (es : _) → StackIn w.old stack.now es → Some (shared_slot s) ≡ first_slot (undeleted es)) }
    ensures full { (es : _) → StackIn w.old stack.now es → IfOk result (λ r. IfNone r (FirstIsFull w.old es)) }
    ensures list { IsSomeStack w.new (stack_cell stack.now) }
    ensures leaves { OnlyStack w.old w.new stack.now }
    ensures only { OnlyParticipant p w.old w.new }
    ensures stays { Stays w.old w.new }
{
    chain::skip_deleted(w, &stack.newest, p);
    let Some(entry) = chain::first_undeleted(w, &stack.newest) else {
        return Ok(None);
    };
    if !chain::answer(f, entry) {
        return match chain::share_first(w, &stack.newest) {
            Some(owner) => Err(owner),
            None => Ok(None),
        };
    }
    match pop(w, stack, p) {
        Some(owner) => Ok(Some(owner)),
        None => unreachable!(),
    }
}

/// A walk along its entries that aren't deleted, the newest first.
pub fn iter<T, J: Deferred>(_w: &World<LinkedEntry<T>, J>, stack: &Stack<T>) -> Iter<T>
    requires { IsSomeStack _w.now (stack_cell stack.now) }
    ensures starts { (es : _) → StackIn _w.now stack.now es → IsList entry_link _w.now (iter_cell result) Tag.None es }
    ensures hangs { Hangs entry_link _w.now (iter_cell result) }
{
    Iter {
        at: Link::of(&stack.newest),
    }
}
