//! The single steps of a participant that places an item: it claims a slot, fills the homes of its parts, and gives the
//! slot to the item.

ghost use Rattle.std.specs.Prelude.{◌≡◌, ℕ, ◌+◌, ◌<◌, ◌≤◌, List, Some, None, IsTrue, IsFalse};
ghost use Rattle.sdd_homes.specs.declared.Filling.{Filling};
ghost use Rattle.domain_table.specs.Outcomes.{Fills, Places};
ghost use Rattle.domain_table.specs.Fitting.{FitsFree, HasWords};
ghost use Rattle.domain_table.specs.Contents.{IsIn};
ghost use Rattle.domain_table.specs.Plays.{HasClaimed, claim_slot_then, HasTaken, fill_takes_then, fill_gives_then, CanPlace, place_then};
ghost use Rattle.domain_table.specs.declared.board.Home.{Home};
ghost use Rattle.domain_table.specs.Views.{of_participant};
ghost use Rattle.domain_table.specs.Readiness.{CanGiveNext, CanStepAt, CanTakeNext};

use crate::board::{Acting, Home, Place, Seat, Words};
use crate::holding::Holding;
use crate::layout::{FILLING, ONE_OWNER, VACANT, owners_word};
use atomic_table::Play;
use std::marker::PhantomData;

struct OnClaim<H>(PhantomData<H>);

impl<T, H: Holding<T>> Play<Home<T>, Acting> for OnClaim<H> {
    ghost then = { claim_slot_then (IsIn H.holds) };
}

struct OnTake<H>(PhantomData<H>);

impl<T, H: Holding<T>> Play<Home<T>, Acting> for OnTake<H> {
    ghost then = { fill_takes_then (IsIn H.holds) };
}

struct OnGive<H>(PhantomData<H>);

impl<T, H: Holding<T>> Play<Home<T>, Acting> for OnGive<H> {
    ghost then = { fill_gives_then (IsIn H.holds) };
}

struct OnPlace<H>(PhantomData<H>);

impl<T, H: Holding<T>> Play<Home<T>, Acting> for OnPlace<H> {
    ghost then = { place_then (IsIn H.holds) };
}

/// Whether `slot` isn't vacant: it has an item, or is filled or emptied.
fn is_used<T, H: Holding<T>>(place: Place<T, H>, slot: usize) -> bool
    requires { HasWords place × (slot < place.sizes.now.slots) }
{
    place.words.peek(owners_word(place.sizes, slot)) != VACANT
}

/// How many slots aren't vacant, each looked at in one step of its own.
pub fn count_used<T, H: Holding<T>>(place: Place<T, H>) -> usize
    requires { HasWords place }
    ensures { result ≤ place.entry.sizes.now.slots }
{
    let mut used = 0;
    for slot in 0..place.sizes.slots {
        if is_used(place, slot) {
            used += 1;
        }
    }
    used
}

/// Tries once to claim `slot`. Where it was vacant it is the participant's to fill, and the item's own home is out, with
/// the room for the item. Whether it was.
pub(crate) fn claim<T, H: Holding<T>>(place: Place<T, H>, seat: &mut Seat<T>, slot: usize) -> bool
    requires table { FitsFree place seat.old slot }
    requires ready { (seat.old.me.0.kind ≡ of_participant) × (seat.old.me.0.filling ≡ None) }
    ensures seat { (seat.new.table_id ≡ seat.old.table_id) × (seat.new.id ≡ seat.old.id) }
    ensures claimed { IsTrue result → HasClaimed (IsIn H.holds) seat.old.me slot seat.new.me }
    ensures refused { IsFalse result → seat.new.me ≡ seat.old.me }
{
    let Place { words, sizes } = place;
    let word = owners_word(sizes, slot);
    words.compare_exchange::<OnClaim<H>>(seat, word, VACANT, FILLING) == VACANT
}

/// Takes the home of the next participant out of the slot that is being filled. It is empty.
pub(crate) fn take_next<T, H: Holding<T>>(words: &Words<T, H>, seat: &mut Seat<T>)
    requires table { (seat.old.table_id ≡ words.now.table_id) × (0 < words.now.table_id.words) }
    requires filling { CanTakeNext seat.old.me.0 }
    ensures seat { (seat.new.table_id ≡ seat.old.table_id) × (seat.new.id ≡ seat.old.id) }
    ensures taken { (f : Filling) → seat.old.me.0.filling ≡ Some f → HasTaken (IsIn H.holds) seat.old.me f seat.new.me }
{
    // The value isn't used: the home comes out in this step, and the proof gets that it is empty.
    let _ = words.load::<OnTake<H>>(seat, 0);
}

/// Gives the home back that `take_next` took, with its parts. The first one shows which round the slot's parts are of.
pub(crate) fn give_next<T, H: Holding<T>>(words: &Words<T, H>, seat: &mut Seat<T>)
    requires table { (seat.old.table_id ≡ words.now.table_id) × (0 < words.now.table_id.words) }
    requires filling { CanGiveNext (IsIn H.holds) seat.old.me }
    ensures seat { (seat.new.table_id ≡ seat.old.table_id) × (seat.new.id ≡ seat.old.id) }
    ensures given { Fills (IsIn H.holds) seat.old.me seat.new.me }
{
    // The value isn't used: the home goes back in this step, and the proof notes the round of its parts and how many they are.
    let _ = words.load::<OnGive<H>>(seat, 0);
}

/// Gives the slot to a new item, which holds the items whose owners are in hand, and has one owner, which is in hand from
/// now on. The item's own home is put back in the same step, with its deed.
pub(crate) fn place<T, H: Holding<T>>(place: Place<T, H>, seat: &mut Seat<T>, slot: usize)
    requires table { FitsFree place seat.old slot }
    requires ready { CanStepAt slot seat.old.me.0 }
    requires filled { (f : Filling) × (tail : List (ℕ × Home T)) × CanPlace (IsIn H.holds) seat.old.me f tail }
    ensures seat { (seat.new.table_id ≡ seat.old.table_id) × (seat.new.id ≡ seat.old.id) }
    ensures placed { Places (IsIn H.holds) seat.old.me seat.new.me }
{
    let Place { words, sizes } = place;
    words.store::<OnPlace<H>>(seat, owners_word(sizes, slot), ONE_OWNER);
}
