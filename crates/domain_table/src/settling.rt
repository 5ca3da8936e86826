//! What a participant retired is due at once, whatever its age, where no other one has a guard open.
//!
//! Between its reading of the count and its publication a participant retires nothing. If it finds each other participant
//! without an open guard in that time, nobody reads what it had retired before: guards that open later find none of it in a
//! cell. So all of it may be reclaimed once its own guard is open, and no raise of the count is needed for that.

ghost use Rattle.std.specs.Prelude.{◌≡◌, ◌≢◌, ℕ, ◌<◌, ◌≤◌, List, IsTrue, IsFalse, None};
ghost use Rattle.sdd_steps.specs.State.{Has};
ghost use Rattle.sdd_steps.specs.declared.participant.Phase.TheVariants.{HasRead};
ghost use Rattle.domain_table.specs.Fitting.{FitsNumber, HasEpochs, HasEpochOf};
ghost use Rattle.domain_table.specs.Ledgers.{WaitsIn};
ghost use Rattle.domain_table.specs.Plays.{shut_then, settle_then, with_known, with_looks};
ghost use Rattle.domain_table.specs.Views.{of_participant, looking, settling};
ghost use Rattle.domain_table.specs.Scanning.{LooksAt, LooksAtAll, Settles};

use crate::bags::Bags;
use crate::board::{Acting, Home, Place, Seat, Words};
use crate::holding::Holding;
use crate::layout::{COUNT, STATE, STRIDE};
use atomic_table::Play;

struct OnShut;

impl<T> Play<Home<T>, Acting> for OnShut {
    ghost then = { shut_then };
}

struct OnSettle;

impl<T> Play<Home<T>, Acting> for OnSettle {
    ghost then = { settle_then };
}

/// Whether the other has no guard open. It is asked once the count `epoch` was read, before it is published.
fn is_shut<T, H: Holding<T>>(words: &Words<T, H>, seat: &mut Seat<T>, other: usize) -> bool
    requires table { HasEpochOf words.now.table_id words.now.key.sizes seat.old.table_id other }
    requires read { (seat.old.me.0.kind ≡ of_participant) × (seat.old.me.0.number ≢ other) × ((e : ℕ) × (seat.old.me.0.known.phase ≡ HasRead e)) }
    ensures seat { (seat.new.table_id ≡ seat.old.table_id) × (seat.new.id ≡ seat.old.id) }
    ensures noted { IsTrue result → seat.new.me ≡ with_known (looking other seat.old.me.0.known) seat.old.me }
    ensures not_noted { IsFalse result → seat.new.me ≡ seat.old.me }
{
    let found = words.load::<OnShut>(seat, STRIDE * other + STATE);
    found == 0
}

/// The same of any participant, where the seat's own one passes unasked. Who was looked at before stays so.
fn passes<T, H: Holding<T>>(
    words: &Words<T, H>,
    seat: &mut Seat<T>,
    number: usize,
    other: usize,
) -> bool
    requires table { HasEpochOf words.now.table_id words.now.key.sizes seat.old.table_id other }
    requires read { (seat.old.me.0.kind ≡ of_participant) × (seat.old.me.0.number ≡ number) × ((e : ℕ) × (seat.old.me.0.known.phase ≡ HasRead e)) }
    ensures seat { (seat.new.table_id ≡ seat.old.table_id) × (seat.new.id ≡ seat.old.id) }
    ensures looked { LooksAt number other result seat.old.me seat.new.me }
{
    if other == number {
        return true;
    }
    if is_shut(words, seat, other) {
        true
    } else {
        false
    }
}

/// Whether no other participant has a guard open. It stops at the first that has.
fn all_shut<T, H: Holding<T>>(
    words: &Words<T, H>,
    seat: &mut Seat<T>,
    number: usize,
    participants: usize,
) -> bool
    requires table { HasEpochs words.now.table_id words.now.key.sizes seat.old.table_id participants }
    requires read { (seat.old.me.0.kind ≡ of_participant) × (seat.old.me.0.number ≡ number) × ((e : ℕ) × (seat.old.me.0.known.phase ≡ HasRead e)) }
    ensures seat { (seat.new.table_id ≡ seat.old.table_id) × (seat.new.id ≡ seat.old.id) }
    ensures looked { LooksAtAll number participants result seat.old.me seat.new.me }
{
    for other in 0..participants {
        if !passes(words, seat, number, other) {
            return false;
        }
    }
    true
}

/// All that the participant retired is due, where each other one was found without an open guard.
fn settle_all<T, H: Holding<T>>(words: &Words<T, H>, seat: &mut Seat<T>, epoch: u64)
    requires table { (seat.old.table_id ≡ words.now.table_id) × (0 < words.now.table_id.words) }
    requires read { (seat.old.me.0.kind ≡ of_participant) × (seat.old.me.0.known.phase ≡ HasRead epoch) × (3 ≤ epoch) }
    requires all { (q : ℕ) → q < words.now.key.sizes.participants → q ≢ seat.old.me.0.number → Has seat.old.me.0.known.looked q }
    ensures { (seat.new.table_id ≡ seat.old.table_id) × (seat.new.id ≡ seat.old.id) × (seat.new.me ≡ (settling epoch seat.old.me.0, seat.old.me.1)) }
{
    // The value isn't used: in this step all that waits becomes due, since each other participant was seen without a guard.
    let _ = words.load::<OnSettle>(seat, COUNT);
}

/// Makes all due that participant `number` retired, where no other one has a guard open: whether it could. It has read the
/// count `epoch`, and publishes it next. A count below 3 is too low for that, and then nothing is looked at.
pub fn settle<T, H: Holding<T>>(
    place: Place<T, H>,
    seat: &mut Seat<T>,
    number: usize,
    bags: &mut Bags,
    epoch: u64,
) -> bool
    requires table { FitsNumber place seat.old number }
    requires read { (seat.old.me.0.kind ≡ of_participant) × (seat.old.me.0.number ≡ number) × (seat.old.me.0.known.phase ≡ HasRead epoch) }
    requires waits { WaitsIn place.sizes.now.slots seat.old.me.0.waits bags.old × (bags.old.due ≡ None) }
    ensures seat { (seat.new.table_id ≡ seat.old.table_id) × (seat.new.id ≡ seat.old.id) }
    ensures settled { IsTrue result → Settles place.entry.sizes.now.slots epoch bags.new seat.old.me seat.new.me }
    ensures kept { IsFalse result → (ls : List ℕ) × (bags.new ≡ bags.old) × (seat.new.me ≡ with_looks ls seat.old.me) }
{
    if epoch < 3 {
        return false;
    }
    if !all_shut(place.words, seat, number, place.sizes.participants) {
        return false;
    }
    let due = bags.joined(place, seat);
    settle_all(place.words, seat, epoch);
    *bags = Bags {
        current: None,
        previous: None,
        next: None,
        due,
    };
    true
}
