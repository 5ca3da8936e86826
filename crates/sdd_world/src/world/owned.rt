//! Items with one owner.

ghost use Rattle.std.specs.Prelude.{◌≡◌, ◌≢◌, ◌<◌, ℕ, length, IfOk, IfErr, IfSome, OnOk, OnErr, Some, None, ◌↔◌, IfNone, IsErr, IsTrue, IsFalse};
ghost use Rattle.std.specs.Borrow.{LendsIfOk, sem};
ghost use Rattle.sdd_table.specs.State.{IsFree, NoneFree, placed, value_at, retired, with_status, status_at};
ghost use Rattle.sdd_table.specs.Frame.{Frame, OnlyParticipant, SameNesting};
ghost use Rattle.sdd_table.specs.Dropping.{Dropped};
ghost use Rattle.sdd_table.specs.Holding.{OwnedItem};
ghost use Rattle.sdd_table.specs.Place.{IsOpen, IsOwned, OwnsRaw, PlacesItem};
ghost use Rattle.sdd_world.specs.Tokens.{owned_slot, ptr_slot, ptr_tag, raw_slot, raw_tag};

use crate::exclusive_access::ExclusiveAccess;
use crate::guard::WorldGuard;
use crate::holds::{Held, Holds};
use crate::job::Deferred;
use crate::owner::Owned;
use crate::pointer::{Ptr, RawPtr};
use crate::refusal::{GuardsOpen, NoSlot};
use crate::status::Status;
use crate::tag::Tag;
use crate::world::World;
use sdd_table::{reclaim, tokens};
use std::marker::PhantomData;

/// Makes an item of `value`, if and only if a slot is free; else returns `value`.
pub fn new<T, J: Deferred>(w: &mut World<T, J>, value: T) -> Result<Owned<T>, T>
    ensures placed { IfOk result (λ o. PlacesItem (owned_slot o) value Status.Owned w.old w.new) }
    ensures refused { IfErr result (λ v. (v ≡ value) × (w.new ≡ w.old) × NoneFree w.old) }
    ensures live { IfOk result (λ o. IsOwned w.new (owned_slot o)) }
    ensures value { IfOk result (λ o. value_at w.new (owned_slot o) ≡ Some value) }
    ensures keeps { Frame w.old w.new }
{
    Ok(tokens::owned_at(w.table.place(value, Status::Owned)?))
}

/// Makes an item of what `f` gives, if and only if a slot is free; else `f` isn't called.
pub fn new_with<T, J: Deferred, F: FnOnce() -> T + Drop>(
    w: &mut World<T, J>,
    f: F,
) -> Result<Owned<T>, NoSlot>
    requires { F.pre f }
    ensures placed { IfOk result (λ o. IsFree w.old (owned_slot o) × (v : T) × F.post f v × (w.new ≡ placed (owned_slot o) v Status.Owned w.old)) }
    ensures refused { OnErr result ((w.new ≡ w.old) × NoneFree w.old) }
    ensures keeps { Frame w.old w.new }
{
    if w.table.is_full() {
        return Err(NoSlot);
    }
    match w.table.place(f(), Status::Owned) {
        Ok(slot) => Ok(tokens::owned_at(slot)),
        Err(_) => unreachable!(),
    }
}

/// The value of an item.
pub fn as_ref<'w, T, J: Deferred>(w: &'w World<T, J>, owned: &Owned<T>) -> &'w T
    requires { IsOwned w.now (owned_slot owned.now) }
    ensures { Some result.now ≡ value_at w.now (owned_slot owned.now) }
{
    w.table.value(tokens::slot_of_owned(owned))
}

/// The value of an item, for writing; refused while a guard of any participant is open, and then nothing has changed.
/// Once the borrow is over, the item is what was last written, and nothing else has changed. Rust's `Owned::get_mut` is
/// unsafe, and asks of its caller that nobody reads.
///
/// `W` is `World<T>`: the place is named by what it does, since a clause on a borrow can't name the type of a `World`.
pub fn get_mut<'w, T, W: ExclusiveAccess<T>>(
    w: &'w mut W,
    owned: &Owned<T>,
) -> Result<&'w mut T, GuardsOpen>
    requires { IsOwned (W.state w.old) (owned_slot owned.now) }
    ensures* writes { sem 𝓛 (LendsIfOk W.row T.row w.entry result (λ v. W.with_item (owned_slot owned.now) v w.entry.now) w.entry.now) }
    ensures value { IfOk result (λ v. value_at (W.state w.old) (owned_slot owned.now) ≡ Some v.now) }
    ensures open { IsErr result ↔ ((p : ℕ) × IsOpen (W.state w.old) p) }
{
    w.owned_mut(owned)
}

/// Whether the item of `owned` is in this place with one owner, as it is for each owner that the place made: the condition
/// of most calls that take one.
pub fn is_here<T, J: Deferred>(w: &World<T, J>, owned: &Owned<T>) -> bool
    ensures here { IsTrue result → IsOwned w.now (owned_slot owned.now) }
    ensures gone { IsFalse result → ¬ IsOwned w.now (owned_slot owned.now) }
{
    let slot = tokens::slot_of_owned(owned);
    slot < w.table.places() && matches!(w.table.status(slot), Status::Owned)
}

/// A pointer to the item, without a tag.
pub fn get_guarded_ptr<T>(owned: &Owned<T>, _guard: &WorldGuard) -> Ptr<'static, T>
    ensures slot { ptr_slot result ≡ Some (owned_slot owned.now) }
    ensures tag { ptr_tag result ≡ Tag.None }
{
    Ptr {
        slot: Some(tokens::slot_of_owned(owned)),
        tag: Tag::None,
        of: PhantomData,
    }
}

/// The value of an item, as `as_ref`.
pub fn get_guarded_ref<'w, T, J: Deferred>(
    w: &'w World<T, J>,
    owned: &Owned<T>,
    _guard: &WorldGuard,
) -> &'w T
    requires { IsOwned w.now (owned_slot owned.now) }
    ensures { Some result.now ≡ value_at w.now (owned_slot owned.now) }
{
    w.table.value(tokens::slot_of_owned(owned))
}

/// The item is out as a raw pointer, and its owner is spent.
pub fn into_raw<T, J: Deferred>(w: &mut World<T, J>, owned: Owned<T>) -> RawPtr<T>
    requires { IsOwned w.old (owned_slot owned) }
    ensures slot { raw_slot result ≡ Some (owned_slot owned) }
    ensures tag { raw_tag result ≡ Tag.None }
    ensures state { w.new ≡ with_status (owned_slot owned) Status.Raw w.old }
    ensures keeps { Frame w.old w.new }
{
    let slot = tokens::spend_owned(owned);
    w.table.set_status(slot, Status::Raw);
    RawPtr {
        slot: Some(slot),
        tag: Tag::None,
        of: PhantomData,
    }
}

/// The owner of an item that is out as a raw pointer; none where the pointer is null or names another item.
pub fn from_raw<T, J: Deferred>(w: &mut World<T, J>, ptr: RawPtr<T>) -> Option<Owned<T>>
    ensures some { IfSome result (λ o. (raw_slot ptr ≡ Some (owned_slot o)) × OwnsRaw (owned_slot o) w.old w.new) }
    ensures none { IfNone result ((w.new ≡ w.old) × IfSome (raw_slot ptr) (λ i. status_at w.old i ≢ Status.Raw)) }
    ensures live { IfSome result (λ o. IsOwned w.new (owned_slot o)) }
    ensures keeps { Frame w.old w.new }
{
    let slot = ptr.slot?;
    match w.table.status_of(slot) {
        Status::Raw => {
            w.table.set_status(slot, Status::Owned);
            Some(tokens::owned_at(slot))
        }
        _ => None,
    }
}

/// Drops the item now, without waiting for anybody, and with it what it alone held. What others own of that stays, and
/// garbage that already waits is left alone. The owner is returned while a guard of any participant is open, and then
/// nothing has changed. Rust's
/// `Owned::drop_in_place` is unsafe, and retires what the item held.
pub fn drop_in_place<T: Holds, J: Deferred>(
    w: &mut World<T, J>,
    owned: Owned<T>,
) -> Result<(), Owned<T>>
    requires { IsOwned w.old (owned_slot owned) }
    ensures dropped { OnOk result (Dropped T.holds (OwnedItem (owned_slot owned)) w.old w.new) }
    ensures back { IfErr result (λ o. (owned_slot o ≡ owned_slot owned) × (w.new ≡ w.old)) }
    ensures open { IsErr result ↔ ((p : ℕ) × IsOpen w.old p) }
    ensures guarded { (q : ℕ) → IsOpen w.old q → Frame w.old w.new }
{
    if w.table.any_open() {
        return Err(owned);
    }
    reclaim::drop_now(&mut w.table, Held::Owned(owned));
    Ok(())
}

/// Retires the item: it waits in the current bag of participant `p`.
pub fn retire<T, J: Deferred>(w: &mut World<T, J>, owned: Owned<T>, p: usize)
    requires participant { p < length w.old.participants }
    requires live { IsOwned w.old (owned_slot owned) }
    ensures retired { w.new ≡ retired p (owned_slot owned) w.old }
    ensures nests { SameNesting w.old w.new }
    ensures keeps { Frame w.old w.new }
    ensures only { OnlyParticipant p w.old w.new }
{
    let slot = tokens::spend_owned(owned);
    w.table.retire(p, slot);
}
