//! Items with counted owners.

ghost use Rattle.std.specs.Prelude.{◌≡◌, ◌<◌, ◌≤◌, ◌+◌, ◌-◌, ◌++◌, ℕ, length, map, vec_capacity, IfOk, IfErr, IfSome, OnErr, Some, None, IfNone, IsTrue, ◌↔◌, OnOk, IsErr, IsErrOf, IsSome, IsFalse};
ghost use Rattle.std.specs.Borrow.{LendsIfOk, sem};
ghost use Rattle.sdd_table.specs.State.{IsFree, NoneFree, placed, value_at, status_at};
ghost use Rattle.sdd_table.specs.Steps.{released};
ghost use Rattle.sdd_table.specs.Frame.{Frame, OnlyParticipant, SameNesting};
ghost use Rattle.sdd_table.specs.Dropping.{Dropped};
ghost use Rattle.sdd_table.specs.Holding.{SharedItem};
ghost use Rattle.sdd_table.specs.Place.{HasItem, HasOwnersLeft, IsOpen, IsShared, HasOneOwner, PlacesItem, SaysLast, AddsOwner, AddsOwners, TakeOwners, TakesNoOwner, TakesOwner, kept_at, kept_between};
ghost use Rattle.sdd_world.specs.Tokens.{kept_slot, loaded_slot, shared_slot, ptr_slot, ptr_tag};

use crate::exclusive_access::ExclusiveAccess;
use crate::guard::WorldGuard;
use crate::holds::{Held, Holds, KeepsRow};
use crate::job::Deferred;
use crate::owner::{Kept, Shared};
use crate::pointer::{Loaded, Ptr};
use crate::refusal::{NoSlot, NotLent};
use crate::status::{Status, is_last};
use crate::tag::Tag;
use crate::world::{World, ptr};
use sdd_table::{reclaim, tokens};
use std::marker::PhantomData;

/// Makes an item of `value` with one owner, if and only if a slot is free; else returns `value`.
pub fn new<T, J: Deferred>(w: &mut World<T, J>, value: T) -> Result<Shared<T>, T>
    ensures placed { IfOk result (λ s. PlacesItem (shared_slot s) value (Status.Shared 1) w.old w.new) }
    ensures refused { IfErr result (λ v. (v ≡ value) × (w.new ≡ w.old) × NoneFree w.old) }
    ensures live { IfOk result (λ s. IsShared w.new (shared_slot s)) }
    ensures value { IfOk result (λ o. value_at w.new (shared_slot o) ≡ Some value) }
    ensures keeps { Frame w.old w.new }
{
    Ok(tokens::shared_at(w.table.place(value, Status::Shared(1))?))
}

/// Makes an item of what `f` gives, if and only if a slot is free; else `f` isn't called.
pub fn new_with<T, J: Deferred, F: FnOnce() -> T + Drop>(
    w: &mut World<T, J>,
    f: F,
) -> Result<Shared<T>, NoSlot>
    requires { F.pre f }
    ensures placed { IfOk result (λ s. IsFree w.old (shared_slot s) × (v : T) × F.post f v × (w.new ≡ placed (shared_slot s) v (Status.Shared 1) w.old)) }
    ensures refused { OnErr result ((w.new ≡ w.old) × NoneFree w.old) }
    ensures keeps { Frame w.old w.new }
{
    if w.table.is_full() {
        return Err(NoSlot);
    }
    match w.table.place(f(), Status::Shared(1)) {
        Ok(slot) => Ok(tokens::shared_at(slot)),
        Err(_) => unreachable!(),
    }
}

/// One more owner of the item; none where it has `2^32 - 1` of them.
#[tactic(auto, using(crate::proofs::FrameLemmas::shared_more))]
pub fn clone<T, J: Deferred>(w: &mut World<T, J>, shared: &Shared<T>) -> Option<Shared<T>>
    requires { IsShared w.old (shared_slot shared.now) }
    ensures more { IfSome result (λ s. (shared_slot s ≡ shared_slot shared.now) × AddsOwner (shared_slot s) w.old w.new) }
    ensures full { IfNone result ((w.new ≡ w.old) × (status_at w.old (shared_slot shared.now) ≡ Status.Shared 4294967295)) }
    ensures live { IsShared w.new (shared_slot shared.now) }
    ensures keeps { Frame w.old w.new }
{
    let slot = tokens::slot_of_shared(shared);
    match w.table.status(slot) {
        Status::Shared(owners) => {
            if is_last(owners) {
                return None;
            }
            w.table.set_status(slot, Status::Shared(owners + 1));
            Some(tokens::shared_at(slot))
        }
        _ => unreachable!(),
    }
}

/// One more owner of the item that was loaded, as `ptr::get_shared` of one that a pointer names.
pub fn of_loaded<T, J: Deferred>(w: &mut World<T, J>, at: &Loaded<T>) -> Option<Shared<T>>
    ensures more { IfSome result (λ s. (loaded_slot at.now ≡ Some (shared_slot s)) × AddsOwner (shared_slot s) w.old w.new) }
    ensures none { IfNone result ((w.new ≡ w.old) × IfSome (loaded_slot at.now) (λ i. TakesNoOwner i w.old)) }
    ensures live { IfSome result (λ s. IsShared w.new (shared_slot s)) }
    ensures keeps { Frame w.old w.new }
{
    match tokens::slot_of_loaded(at) {
        None => None,
        Some(slot) => ptr::add_owner(w, slot),
    }
}

/// One more owner of the item that was loaded, for an item to keep: as `of_loaded`, where there is one for sure.
/// Condition: the item has owners, and fewer than `2^32 - 1`.
pub fn keep_loaded<T, J: Deferred>(w: &mut World<T, J>, at: &Loaded<T>) -> Kept
    requires { (i : ℕ) × (loaded_slot at.now ≡ Some i) × TakesOwner i w.old }
    ensures slot { loaded_slot at.now ≡ Some (kept_slot result) }
    ensures more { AddsOwner (kept_slot result) w.old w.new }
    ensures keeps { Frame w.old w.new }
{
    match tokens::slot_of_loaded(at) {
        Some(slot) => {
            w.table.add_owner(slot);
            Kept::of(tokens::shared_at::<T>(slot))
        }
        None => unreachable!(),
    }
}

/// One more owner of each item whose owner the item that was loaded keeps, from one place of its row up to another, for
/// an item to keep: as `keep_loaded` of each, where the row is found once. Condition: the item is there, its row has these
/// places, and each item there has owners, fewer than `2^32 - 1`, and is there once.
pub fn keep_row<T: KeepsRow, J: Deferred>(
    w: &mut World<T, J>,
    at: &Loaded<T>,
    from: usize,
    upto: usize,
    into: &mut Vec<Kept>,
)
    requires there { (i : ℕ) × (loaded_slot at.now ≡ Some i) × HasItem w.old i }
    requires ordered { from ≤ upto }
    requires within { upto ≤ length (kept_at T.kept w.old (loaded_slot at.now)) }
    requires takes { TakeOwners (kept_between T.kept w.old (loaded_slot at.now) from upto) w.old }
    requires room { length into.old.items + (upto - from) ≤ vec_capacity into.old }
    ensures owners { map kept_slot into.new.items ≡ map kept_slot into.old.items ++ kept_between T.kept w.old (loaded_slot at.now) from upto }
    ensures raised { AddsOwners (kept_between T.kept w.old (loaded_slot at.now) from upto) w.old w.new }
    ensures long { length into.new.items ≡ length into.old.items + (upto - from) }
    ensures room { vec_capacity into.old ≤ vec_capacity into.new }
    ensures keeps { Frame w.old w.new }
{
    match tokens::slot_of_loaded(at) {
        Some(slot) => w.table.keep_row(slot, from, upto, into),
        None => unreachable!(),
    }
}

/// Gives an owner back, and answers whether it was the last, those of cells and items counted. The last one retires
/// the item, which waits in the current bag of participant `p`.
pub fn release<T, J: Deferred>(w: &mut World<T, J>, shared: Shared<T>, p: usize) -> bool
    requires participant { p < length w.old.participants }
    requires live { IsShared w.old (shared_slot shared) }
    ensures released { w.new ≡ released p (shared_slot shared) w.old }
    ensures last { SaysLast result (shared_slot shared) w.old }
    ensures nests { SameNesting w.old w.new }
    ensures keeps { Frame w.old w.new }
    ensures only { OnlyParticipant p w.old w.new }
{
    let slot = tokens::spend_shared(shared);
    reclaim::release(&mut w.table, p, slot)
}

/// Gives an owner back, and answers whether it was the last, those of cells and items counted. With the last one the
/// item ends now, without waiting for anybody, and with it what it alone held; what others own of that stays, and what
/// waits waits on. The owner is handed back while a guard of any participant is open, and then nothing has changed.
pub fn drop_in_place<T: Holds, J: Deferred>(
    w: &mut World<T, J>,
    shared: Shared<T>,
) -> Result<bool, Shared<T>>
    requires { IsShared w.old (shared_slot shared) }
    ensures dropped { OnOk result (Dropped T.holds (SharedItem (shared_slot shared)) w.old w.new) }
    ensures last { IfOk result (λ last. SaysLast last (shared_slot shared) w.old) }
    ensures back { IfErr result (λ s. (shared_slot s ≡ shared_slot shared) × (w.new ≡ w.old)) }
    ensures open { IsErr result ↔ ((p : ℕ) × IsOpen w.old p) }
    ensures guarded { (q : ℕ) → IsOpen w.old q → Frame w.old w.new }
{
    if w.table.any_open() {
        return Err(shared);
    }
    let last = matches!(
        w.table.status(tokens::slot_of_shared(&shared)),
        Status::Shared(0 | 1)
    );
    reclaim::drop_now(&mut w.table, Held::Shared(shared));
    Ok(last)
}

/// Where the item is. It is there as long as it has this owner.
pub fn owned_at<T>(shared: &Shared<T>) -> Loaded<T>
    ensures { loaded_slot result ≡ Some (shared_slot shared.now) }
{
    tokens::loaded_at(Some(tokens::slot_of_shared(shared)))
}

/// The value of an item.
pub fn as_ref<'w, T, J: Deferred>(w: &'w World<T, J>, shared: &Shared<T>) -> &'w T
    requires { IsShared w.now (shared_slot shared.now) }
    ensures { Some result.now ≡ value_at w.now (shared_slot shared.now) }
{
    w.table.value(tokens::slot_of_shared(shared))
}

/// The value of an item whose owner an item keeps. Condition: it is there.
pub fn kept_ref<'w, T, J: Deferred>(w: &'w World<T, J>, kept: &Kept) -> &'w T
    requires { IsSome (value_at w.now (kept_slot kept.now)) }
    ensures { Some result.now ≡ value_at w.now (kept_slot kept.now) }
{
    w.table.kept_ref(kept)
}

/// The value of an item, for writing; refused while a guard of any participant is open, and where `shared` isn't its one
/// owner, those of cells and items counted; then nothing has changed. Once the borrow is over, the item is what was last
/// written, and nothing else has changed. Rust's `Shared::get_mut` is unsafe, and answers none beside other owners.
///
/// `W` is `World<T>`: the place is named by what it does, since a clause on a borrow can't name the type of a `World`.
pub fn get_mut<'w, T, W: ExclusiveAccess<T>>(
    w: &'w mut W,
    shared: &Shared<T>,
) -> Result<&'w mut T, NotLent>
    requires { IsShared (W.state w.old) (shared_slot shared.now) }
    ensures* writes { sem 𝓛 (LendsIfOk W.row T.row w.entry result (λ v. W.with_item (shared_slot shared.now) v w.entry.now) w.entry.now) }
    ensures value { IfOk result (λ v. value_at (W.state w.old) (shared_slot shared.now) ≡ Some v.now) }
    ensures sole { OnOk result (HasOneOwner (W.state w.old) (shared_slot shared.now)) }
    ensures others { IsErrOf result NotLent.NotSole → ¬ HasOneOwner (W.state w.old) (shared_slot shared.now) }
    ensures open { IsErrOf result NotLent.GuardsOpen ↔ ((p : ℕ) × IsOpen (W.state w.old) p) }
{
    w.shared_mut(shared)
}

/// Whether the item of `shared` is in this place with counted owners, as it is for each owner that the place made: the
/// condition of most calls that take one.
pub fn is_here<T, J: Deferred>(w: &World<T, J>, shared: &Shared<T>) -> bool
    ensures here { IsTrue result → IsShared w.now (shared_slot shared.now) }
    ensures gone { IsFalse result → ¬ IsShared w.now (shared_slot shared.now) }
{
    let slot = tokens::slot_of_shared(shared);
    slot < w.table.places() && matches!(w.table.status(slot), Status::Shared(_))
}

/// A pointer to the item, without a tag.
pub fn get_guarded_ptr<T>(shared: &Shared<T>, _guard: &WorldGuard) -> Ptr<'static, T>
    ensures slot { ptr_slot result ≡ Some (shared_slot shared.now) }
    ensures tag { ptr_tag result ≡ Tag.None }
{
    Ptr {
        slot: Some(tokens::slot_of_shared(shared)),
        tag: Tag::None,
        of: PhantomData,
    }
}

/// The value of an item, as `as_ref`.
pub fn get_guarded_ref<'w, T, J: Deferred>(
    w: &'w World<T, J>,
    shared: &Shared<T>,
    _guard: &WorldGuard,
) -> &'w T
    requires { IsShared w.now (shared_slot shared.now) }
    ensures { Some result.now ≡ value_at w.now (shared_slot shared.now) }
{
    w.table.value(tokens::slot_of_shared(shared))
}

/// One more owner of the item that `at` names, as `ptr::get_shared`; if there is none, `at` is returned.
pub fn try_from<T, J: Deferred>(
    w: &mut World<T, J>,
    at: Ptr<'static, T>,
) -> Result<Shared<T>, Ptr<'static, T>>
    ensures more { IfOk result (λ s. (ptr_slot at.entry ≡ Some (shared_slot s)) × AddsOwner (shared_slot s) w.old w.new) }
    ensures back { IfErr result (λ r. (ptr_slot r ≡ ptr_slot at.entry) × (ptr_tag r ≡ ptr_tag at.entry) × (w.new ≡ w.old)) }
    ensures room { IfOk result (λ s. HasOwnersLeft (shared_slot s) w.old) }
    ensures none { OnErr result (IfSome (ptr_slot at.entry) (λ i. TakesNoOwner i w.old)) }
    ensures live { IfOk result (λ s. IsShared w.new (shared_slot s)) }
    ensures keeps { Frame w.old w.new }
{
    match at.slot {
        None => Err(at),
        Some(slot) => match ptr::add_owner(w, slot) {
            Some(shared) => Ok(shared),
            None => Err(at),
        },
    }
}
