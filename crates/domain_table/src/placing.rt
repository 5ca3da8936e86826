//! Placing an item: a free slot is claimed, the homes of the participants get their parts, and the item is in the slot.

ghost use Rattle.std.specs.Prelude.{◌≡◌, ℕ, ◌+◌, ◌-◌, ◌*◌, ◌^◌, ◌<◌, ◌≤◌, map, None, Some, IsSome, IsSomeAnd, IfSome, IfNone, OnSome, IfOk, IfErr, OnOk, OnErr};
ghost use Rattle.std.specs.Mem.{manually_drop_value};
ghost use Rattle.atomic_table.specs.Table.{rest};
ghost use Rattle.sdd_homes.specs.declared.Filling.{Filling};
ghost use Rattle.domain_table.specs.Outcomes.{CanClaim, CanPlaceItem, FillsAll, FillsAt, FillsNext, HasPlacedOne};
ghost use Rattle.domain_table.specs.Fitting.{FitsFree, FitsSearch, FitsTaken};
ghost use Rattle.domain_table.specs.Contents.{IsIn};
ghost use Rattle.domain_table.specs.Owners.{told};
ghost use Rattle.domain_table.specs.Plays.{HasClaimed, IsJustClaimed, placing};
ghost use Rattle.domain_table.specs.Views.{of_participant};
ghost use Rattle.domain_table.specs.Readiness.{CanPutItem};

use crate::board::{Home, Place, Seat, Stored};
use crate::holding::Holding;
use crate::homes::{let_go, room_of};
use crate::layout::home_of;
use crate::slots;
use crate::stored::store;
use parted::{One, Part, Tally};
use sdd_plain::refusal::NoSlot;

/// How many parts each participant but the last gets of an item's `2^63`: all shares alike, they leave one part over at least.
fn share_of(participants: u64) -> u64
    requires { (0 < participants) × (participants < 2 ^ 63) }
    ensures some { 0 < result }
    ensures fits { participants * result < 2 ^ 63 }
{
    ((1 << 63) - 1) / participants
}

/// Fills the home of participant `at`, the next one, with `count` of the parts in hand.
#[inline(always)]
fn fill_home<T, H: Holding<T>>(
    place: Place<T, H>,
    seat: &mut Seat<T>,
    slot: usize,
    at: usize,
    all: &mut Part<Stored<T>>,
    count: u64,
)
    requires table { FitsTaken place seat.old slot }
    requires filling { FillsAt seat.old.me at place.sizes.now.participants all.old.life.count all.old.life.id }
    requires parts { (0 < count) × (count < all.old.life.count) × (all.old.life.count ≤ 2 ^ 63) × IsSome all.old.seen.value }
    ensures seat { (seat.new.table_id ≡ seat.old.table_id) × (seat.new.id ≡ seat.old.id) }
    ensures filled { FillsNext slot all.old.life.id count seat.old.me seat.new.me }
    ensures rest { (all.new.seen ≡ all.old.seen) × (all.new.life ≡ record all.old.life { count = all.old.life.count - count }) }
{
    slots::take_next(place.words, seat);
    let part = all.split(count);
    let_go(
        place.words.exchange(
            seat,
            home_of(at, place.sizes.slots, slot),
            Home::Part(part, count),
        ),
    );
    slots::give_next(place.words, seat);
}

/// Fills the homes of all participants of the slot that was claimed. One part stays in hand. The last participant gets what
/// the others leave, so that one division is enough.
fn fill_homes<T, H: Holding<T>>(
    place: Place<T, H>,
    seat: &mut Seat<T>,
    slot: usize,
    all: &mut Part<Stored<T>>,
)
    requires table { FitsTaken place seat.old slot }
    requires filling { (f : Filling) × (seat.old.me.0.filling ≡ Some f) × (f.filled ≡ 0) × (f.out ≡ place.sizes.now.participants) × (f.left ≡ 2 ^ 63) }
    requires parts { (all.old.life.count ≡ 2 ^ 63) × IsSome all.old.seen.value }
    ensures seat { (seat.new.table_id ≡ seat.old.table_id) × (seat.new.id ≡ seat.old.id) }
    ensures filled { FillsAll seat.old.me slot place.entry.sizes.now.participants all.old.life.id seat.new.me }
    ensures rest { (all.new.seen ≡ all.old.seen) × (all.new.life ≡ record all.old.life { count = 1 }) }
{
    let each = share_of(place.sizes.participants as u64);
    let last = place.sizes.participants - 1;
    let mut left = 1 << 63;
    for at in 0..last {
        fill_home(place, seat, slot, at, all, each);
        left -= each;
    }
    fill_home(place, seat, slot, last, all, left - 1);
}

/// Places an item in the slot that was claimed, which holds the owners in hand. Its one owner is in hand then, and the owner's part is the answer.
fn place_at<T, H: Holding<T>>(
    place: Place<T, H>,
    seat: &mut Seat<T>,
    slot: usize,
    item: T,
) -> One<Stored<T>>
    requires table { FitsFree place seat.old slot }
    requires ready { CanPutItem H.holds item seat.old.me.0 }
    requires claimed { IsJustClaimed (IsIn H.holds) seat.old.me slot }
    ensures seat { (seat.new.table_id ≡ seat.old.table_id) × (seat.new.id ≡ seat.old.id) }
    ensures placed { (i : ℕ) × (f : Filling) × (f.round ≡ result.part.life.id) × (seat.new.me ≡ (placing i f seat.old.me.0, rest seat.old.me.1)) }
    ensures value { IsSomeAnd result.part.seen.value (λ m. manually_drop_value m ≡ item) }
{
    let own = home_of(place.sizes.participants, place.sizes.slots, slot);
    let room = room_of::<T, H>(place.words.exchange(seat, own, Home::Blank));
    let (deed, mut all) = store(room, item);
    let_go(place.words.exchange(seat, own, Home::Deed(deed)));
    fill_homes(place, seat, slot, &mut all);
    slots::place(place, seat, slot);
    One::from_part(all)
}

/// Claims a free slot: each is tried once, from `from` on. None where each was taken when it was tried: then nothing has
/// changed, and that is a miss.
fn claim_any<T, H: Holding<T>>(
    place: Place<T, H>,
    seat: &mut Seat<T>,
    from: usize,
    misses: &mut Tally,
) -> Option<usize>
    requires table { FitsSearch place seat.old from }
    requires ready { (seat.old.me.0.kind ≡ of_participant) × (seat.old.me.0.filling ≡ None) }
    ensures seat { (seat.new.table_id ≡ seat.old.table_id) × (seat.new.id ≡ seat.old.id) }
    ensures claimed { IfSome result (λ k. (k < place.entry.sizes.now.slots) × HasClaimed (IsIn H.holds) seat.old.me k seat.new.me) }
    ensures none { IfNone result (seat.new.me ≡ seat.old.me) }
    ensures hit { OnSome result (misses.new.count ≡ misses.old.count) }
    ensures missed { IfNone result (misses.new.count ≡ misses.old.count + 1) }
{
    for step in 0..place.sizes.slots {
        let slot = (from + step) % place.sizes.slots;
        if slots::claim(place, seat, slot) {
            return Some(slot);
        }
    }
    misses.raise();
    None
}

/// Places an item in a free slot: each is tried once, from `from` on. Its one owner is in hand; the slot and the owner's
/// part are the answer. If each slot was taken when it was tried, the item is returned: that is a miss.
pub fn place_item<T, H: Holding<T>>(
    place: Place<T, H>,
    seat: &mut Seat<T>,
    from: usize,
    item: T,
    misses: &mut Tally,
) -> Result<(usize, One<Stored<T>>), T>
    requires table { FitsSearch place seat.old from }
    requires ready { CanPlaceItem H.holds item seat.old.me.0 }
    ensures seat { (seat.new.table_id ≡ seat.old.table_id) × (seat.new.id ≡ seat.old.id) }
    ensures placed { IfOk result (λ t. HasPlacedOne item place.entry.sizes.now.slots t seat.old.me seat.new.me) }
    ensures refused { IfErr result (λ back. (back ≡ item) × (seat.new.me ≡ seat.old.me)) }
    ensures hit { OnOk result (misses.new.count ≡ misses.old.count) }
    ensures missed { OnErr result (misses.new.count ≡ misses.old.count + 1) }
{
    match claim_any(place, seat, from, misses) {
        Some(slot) => Ok((slot, place_at(place, seat, slot, item))),
        None => Err(item),
    }
}

/// Claims a free slot and places there what `make` gives, as [`place_item`] does with an item that is there. Where each slot
/// was taken when it was tried, `make` isn't called.
pub fn place_made<T, H: Holding<T>, F: FnOnce() -> T + Drop>(
    place: Place<T, H>,
    seat: &mut Seat<T>,
    from: usize,
    make: F,
    misses: &mut Tally,
) -> Result<(usize, One<Stored<T>>), NoSlot>
    requires table { FitsSearch place seat.old from }
    requires ready { CanClaim seat.old.me.0 }
    requires callable { F.pre make }
    requires holds { (item : T) → F.post make item → H.holds item ≡ map told seat.old.me.0.hand }
    ensures seat { (seat.new.table_id ≡ seat.old.table_id) × (seat.new.id ≡ seat.old.id) }
    ensures placed { IfOk result (λ t. (item : T) × F.post make item × HasPlacedOne item place.entry.sizes.now.slots t seat.old.me seat.new.me) }
    ensures refused { OnErr result (seat.new.me ≡ seat.old.me) }
    ensures hit { OnOk result (misses.new.count ≡ misses.old.count) }
    ensures missed { OnErr result (misses.new.count ≡ misses.old.count + 1) }
{
    match claim_any(place, seat, from, misses) {
        Some(slot) => {
            let item = make();
            Ok((slot, place_at(place, seat, slot, item)))
        }
        None => Err(NoSlot),
    }
}
