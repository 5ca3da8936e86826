//! The single steps of a participant that reclaims an item: it opens the slot of an item that nobody reads any more, empties
//! the homes, and gives the slot back.

ghost use Rattle.std.specs.Prelude.{◌≡◌, ◌<◌, ◌++◌, ◌∷◌, [], true, List, None};
ghost use Rattle.sdd_steps.specs.Steps.{is_ready};
ghost use Rattle.sdd_homes.specs.declared.Garbage.{Garbage};
ghost use Rattle.domain_table.specs.Outcomes.{GivesHome, TakesDeed, TakesNext};
ghost use Rattle.domain_table.specs.Fitting.{FitsFree};
ghost use Rattle.domain_table.specs.Contents.{IsIn};
ghost use Rattle.domain_table.specs.Plays.{opens_then, opens_noted_then, gathers_then, empties_then, vacates_then};
ghost use Rattle.domain_table.specs.declared.board.Home.{Home};
ghost use Rattle.domain_garbage.specs.Opened.{TakesNoted, CanGather, CanGiveEmpty, CanReclaimInside, CanVacateAt, HasPast, Vacates};
ghost use Rattle.domain_table.specs.Views.{of_participant};

use atomic_table::Play;
use domain_table::board::{Acting, Home, Place, Seat, Words};
use domain_table::holding::Holding;
use domain_table::layout::{VACANT, owners_word};
use std::marker::PhantomData;

struct OnOpen<H>(PhantomData<H>);

impl<T, H: Holding<T>> Play<Home<T>, Acting> for OnOpen<H> {
    ghost then = { opens_then (IsIn H.holds) };
}

struct OnOpenNoted<H>(PhantomData<H>);

impl<T, H: Holding<T>> Play<Home<T>, Acting> for OnOpenNoted<H> {
    ghost then = { opens_noted_then (IsIn H.holds) };
}

struct OnGather<H>(PhantomData<H>);

impl<T, H: Holding<T>> Play<Home<T>, Acting> for OnGather<H> {
    ghost then = { gathers_then (IsIn H.holds) };
}

struct OnEmpty<H>(PhantomData<H>);

impl<T, H: Holding<T>> Play<Home<T>, Acting> for OnEmpty<H> {
    ghost then = { empties_then (IsIn H.holds) };
}

struct OnVacate<H>(PhantomData<H>);

impl<T, H: Holding<T>> Play<Home<T>, Acting> for OnVacate<H> {
    ghost then = { vacates_then (IsIn H.holds) };
}

/// Begins to reclaim the item that waits the longest, which the participant retired three rotations ago. Nobody reads it:
/// its deed is taken out, all its parts are at home, and the owners that it held are in hand.
pub fn open<T, H: Holding<T>>(words: &Words<T, H>, seat: &mut Seat<T>)
    requires table { (seat.old.table_id ≡ words.now.table_id) × (0 < words.now.table_id.words) }
    requires ready { (seat.old.me.0.kind ≡ of_participant) × (is_ready seat.old.me.0.known ≡ true) × (seat.old.me.0.filling ≡ None) }
    requires waits { (w : Garbage) × (ws : List Garbage) × (seat.old.me.0.waits ≡ ws ++ w ∷ []) × (w.age ≡ 3) }
    ensures seat { (seat.new.table_id ≡ seat.old.table_id) × (seat.new.id ≡ seat.old.id) }
    ensures inside { (w : Garbage) (ws : List Garbage) → seat.old.me.0.waits ≡ ws ++ w ∷ [] → w.slot < seat.old.me.0.sizes.slots }
    ensures opened { TakesDeed (IsIn H.holds) seat.old.me seat.new.me }
{
    // A home comes out only in a step on a word, and this step needs none: the count is read, and its value isn't used.
    // The proof gets the owners that the item held from the deed, and that its slot is one of the place.
    let _ = words.load::<OnOpen<H>>(seat, 0);
}

/// The same of the item that is in the private bag at the participant's seat the longest, with a note at least three below
/// the count that was read again under the open guard.
pub fn open_noted<T, H: Holding<T>>(words: &Words<T, H>, seat: &mut Seat<T>)
    requires table { (seat.old.table_id ≡ words.now.table_id) × (0 < words.now.table_id.words) }
    requires ready { CanReclaimInside seat.old.me.0 }
    requires noted { HasPast seat.old.me.0 }
    ensures seat { (seat.new.table_id ≡ seat.old.table_id) × (seat.new.id ≡ seat.old.id) }
    ensures inside { (w : Garbage) (ws : List Garbage) → seat.old.me.0.collected ≡ ws ++ w ∷ [] → w.slot < seat.old.me.0.sizes.slots }
    ensures opened { TakesNoted (IsIn H.holds) seat.old.me seat.new.me }
{
    // The value isn't used: the deed comes out in this step, as in `open`, for an item of the private bag.
    let _ = words.load::<OnOpenNoted<H>>(seat, 0);
}

/// Takes the last home that has parts out of the slot of a reclaimed item. With that of the first participant all parts
/// are in hand.
pub fn gather<T, H: Holding<T>>(words: &Words<T, H>, seat: &mut Seat<T>)
    requires table { (seat.old.table_id ≡ words.now.table_id) × (0 < words.now.table_id.words) }
    requires filled { CanGather seat.old.me.0 }
    ensures seat { (seat.new.table_id ≡ seat.old.table_id) × (seat.new.id ≡ seat.old.id) }
    ensures taken { TakesNext (IsIn H.holds) seat.old.me seat.new.me }
{
    // The value isn't used: the home comes out in this step. With the last one the proof gets that all parts are in hand.
    let _ = words.load::<OnGather<H>>(seat, 0);
}

/// Gives the home back that `gather` took. It is empty now.
pub fn empty<T, H: Holding<T>>(words: &Words<T, H>, seat: &mut Seat<T>)
    requires table { (seat.old.table_id ≡ words.now.table_id) × (0 < words.now.table_id.words) }
    requires emptied { CanGiveEmpty (IsIn H.holds) seat.old.me }
    ensures seat { (seat.new.table_id ≡ seat.old.table_id) × (seat.new.id ≡ seat.old.id) }
    ensures given { GivesHome (IsIn H.holds) seat.old.me seat.new.me }
{
    // The value isn't used: the home goes back in this step, so that the next one can come out.
    let _ = words.load::<OnEmpty<H>>(seat, 0);
}

/// Gives `slot` back: all homes are empty, and the room is in the item's own, which is put back in the same step.
pub fn vacate<T, H: Holding<T>>(place: Place<T, H>, seat: &mut Seat<T>, slot: usize)
    requires table { FitsFree place seat.old slot }
    requires emptied { CanVacateAt (IsIn H.holds) slot seat.old.me }
    ensures seat { (seat.new.table_id ≡ seat.old.table_id) × (seat.new.id ≡ seat.old.id) }
    ensures vacant { Vacates (IsIn H.holds) seat.old.me seat.new.me }
{
    let Place { words, sizes } = place;
    words.store::<OnVacate<H>>(seat, owners_word(sizes, slot), VACANT);
}
