//! Reclaiming an item that nobody reads any more: its slot is opened, all its parts come home, and the slot is free again.

ghost use Rattle.std.specs.Prelude.{◌≡◌, ℕ, ◌+◌, ◌-◌, ◌^◌, ◌<◌, ◌++◌, ◌∷◌, [], List, true, None, IsSome};
ghost use Rattle.sdd_steps.specs.Steps.{is_ready};
ghost use Rattle.sdd_homes.specs.declared.Garbage.{Garbage};
ghost use Rattle.sdd_homes.specs.declared.Owner.{Owner};
ghost use Rattle.domain_table.specs.Contents.{IsIn};
ghost use Rattle.domain_table.specs.Outcomes.{Gathers, GathersAll, ReclaimsLast};
ghost use Rattle.domain_table.specs.Fitting.{FitsSizes, FitsTaken};
ghost use Rattle.domain_table.specs.declared.board.Home.{Home};
ghost use Rattle.domain_garbage.specs.Opened.{IsOpened, ReclaimsNoted, CanReclaimInside, GathersFrom, HasPastAt, IsWhole, TakesWhole};
ghost use Rattle.domain_table.specs.Views.{of_participant};

use crate::emptying::{empty, gather, open, open_noted, vacate};
use domain_table::board::{Home, Place, Seat, Stored};
use domain_table::holding::Holding;
use domain_table::homes::{deed_of, let_go, parts_of};
use domain_table::layout::home_of;
use domain_table::stored::take_out;
use parted::Part;

/// Takes the parts of participant `at` out of its home, the last one that has some. The home is empty then.
#[inline(always)]
fn gather_home<T, H: Holding<T>>(
    place: Place<T, H>,
    seat: &mut Seat<T>,
    slot: usize,
    at: usize,
) -> Part<Stored<T>>
    requires table { FitsTaken place seat.old slot }
    requires filled { GathersFrom at place.sizes.now.participants seat.old.me.0 }
    ensures seat { (seat.new.table_id ≡ seat.old.table_id) × (seat.new.id ≡ seat.old.id) }
    ensures gathered { Gathers seat.old.me slot at result.life.id result.life.count seat.new.me }
    ensures some { (0 < result.life.count) × IsSome result.seen.value }
{
    gather(place.words, seat);
    let home = home_of(at, place.sizes.slots, slot);
    let (part, _) = parts_of::<T, H>(place.words.exchange(seat, home, Home::Blank));
    empty(place.words, seat);
    part
}

/// Takes all parts of the item whose slot was opened out of their homes. Together they are all that there are.
fn gather_all<T, H: Holding<T>>(
    place: Place<T, H>,
    seat: &mut Seat<T>,
    slot: usize,
) -> Part<Stored<T>>
    requires table { FitsTaken place seat.old slot }
    requires filled { IsWhole place.sizes.now.participants seat.old.me.0 }
    ensures seat { (seat.new.table_id ≡ seat.old.table_id) × (seat.new.id ≡ seat.old.id) }
    ensures gathered { GathersAll seat.old.me slot place.entry.sizes.now.participants result.life.id seat.new.me }
    ensures all { result.life.count ≡ 2 ^ 63 }
{
    let mut all = gather_home(place, seat, slot, place.sizes.participants - 1);
    for gone in 1..place.sizes.participants {
        all.join(gather_home(place, seat, slot, place.sizes.participants - 1 - gone));
    }
    all
}

/// Takes the item out of `slot`, which was opened. The slot is free then.
fn take_whole<T, H: Holding<T>>(place: Place<T, H>, seat: &mut Seat<T>, slot: usize) -> T
    requires table { FitsSizes place seat.old × (slot < place.sizes.now.slots) }
    requires acts { seat.old.me.0.kind ≡ of_participant }
    requires opened { (hs : List Owner) × (tail : List (ℕ × Home T)) × IsOpened (IsIn H.holds) seat.old.me slot hs tail }
    ensures seat { (seat.new.table_id ≡ seat.old.table_id) × (seat.new.id ≡ seat.old.id) }
    ensures taken { TakesWhole (IsIn H.holds) seat.old.me slot (H.holds result) seat.new.me }
{
    let own = home_of(place.sizes.participants, place.sizes.slots, slot);
    let deed = deed_of::<T, H>(place.words.exchange(seat, own, Home::Blank));
    let all = gather_all(place, seat, slot);
    let (item, room) = take_out(deed, all);
    let_go(place.words.exchange(seat, own, Home::Room(room)));
    vacate(place, seat, slot);
    item
}

/// Reclaims the item that waits the longest, in `slot`, which the participant retired three rotations ago. The item is
/// the answer, the owners that it holds are in hand, and the slot is free.
pub fn reclaim<T, H: Holding<T>>(place: Place<T, H>, seat: &mut Seat<T>, slot: usize) -> T
    requires table { FitsSizes place seat.old }
    requires ready { (seat.old.me.0.kind ≡ of_participant) × (is_ready seat.old.me.0.known ≡ true) × (seat.old.me.0.filling ≡ None) }
    requires waits { (w : Garbage) × (ws : List Garbage) × (seat.old.me.0.waits ≡ ws ++ w ∷ []) × (w.age ≡ 3) × (w.slot ≡ slot) }
    ensures seat { (seat.new.table_id ≡ seat.old.table_id) × (seat.new.id ≡ seat.old.id) }
    ensures reclaimed { ReclaimsLast seat.old.me slot (H.holds result) seat.new.me }
{
    open(place.words, seat);
    take_whole(place, seat, slot)
}

/// The same of the item that is in the private bag at the participant's seat the longest, with a note at least three below
/// the count that was read again under the open guard.
pub fn reclaim_noted<T, H: Holding<T>>(place: Place<T, H>, seat: &mut Seat<T>, slot: usize) -> T
    requires table { FitsSizes place seat.old }
    requires ready { CanReclaimInside seat.old.me.0 }
    requires noted { HasPastAt slot seat.old.me.0 }
    ensures seat { (seat.new.table_id ≡ seat.old.table_id) × (seat.new.id ≡ seat.old.id) }
    ensures reclaimed { ReclaimsNoted seat.old.me slot (H.holds result) seat.new.me }
{
    open_noted(place.words, seat);
    take_whole(place, seat, slot)
}
