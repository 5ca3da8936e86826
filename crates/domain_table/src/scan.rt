//! A scan: whether the count may be raised, and its raise.

ghost use Rattle.std.specs.Prelude.{◌≡◌, ◌≢◌, ℕ, ◌-◌, ◌^◌, ◌<◌, IsTrue, cond, is_some};
ghost use Rattle.sdd_plain.specs.Locals.{closings_after, scans};
ghost use Rattle.sdd_steps.specs.State.{Has};
ghost use Rattle.domain_table.specs.Fitting.{HasEpochs, FitsSizes};
ghost use Rattle.domain_table.specs.Ledgers.{WaitsIn};
ghost use Rattle.domain_table.specs.Plays.{Steady, SteadyButWaits, Scans};
ghost use Rattle.domain_table.specs.Scanning.{ScansOn, ScansOnButWaits, ScansUnderLock};

use crate::bags::Bags;
use crate::board::{Place, Seat, Words};
use crate::holding::Holding;
use crate::left::take_all_left;
use crate::steps::{Tried, give_lock, is_present, look, raise, take_lock};
use sdd_plain::local_state::LocalState;

/// Whether each other participant is closed or has published the count `epoch`. It stops at the first that isn't.
fn all_agree<T, H: Holding<T>>(
    words: &Words<T, H>,
    seat: &mut Seat<T>,
    number: usize,
    participants: usize,
    epoch: u64,
) -> bool
    requires table { HasEpochs words.now.table_id words.now.key.sizes seat.old.table_id participants }
    requires open { Scans seat.old number epoch 2 }
    requires below { epoch < 2 ^ 64 - 1 }
    ensures seat { ScansOn seat.old seat.new number epoch 2 }
    ensures noted { IsTrue result → (q : ℕ) → q < participants → q ≢ number → Has seat.new.me.0.known.looked q }
{
    for other in 0..participants {
        if other != number && !look(words, seat, number, other, epoch) {
            return false;
        }
    }
    true
}

/// Raises the count by one where it is `epoch`, and all others are closed or have published it. The last count,
/// `2^64 - 1`, isn't raised.
fn raise_if_all_agree<T, H: Holding<T>>(
    words: &Words<T, H>,
    seat: &mut Seat<T>,
    number: usize,
    participants: usize,
    epoch: u64,
)
    requires table { HasEpochs words.now.table_id words.now.key.sizes seat.old.table_id participants }
    requires open { Scans seat.old number epoch 1 }
    ensures seat { (seat.new.table_id ≡ seat.old.table_id) × (seat.new.id ≡ seat.old.id) × Steady seat.old.me seat.new.me }
    ensures stage { ScansUnderLock seat.new number epoch }
{
    if epoch == u64::MAX || !is_present(words, seat, number, epoch) {
        return;
    }
    if !all_agree(words, seat, number, participants, epoch) {
        return;
    }
    raise(words, seat, number, epoch);
}

/// A scan of participant `number`, whose guard is open with the count `epoch`. It tries once for the scan lock. With the
/// lock it takes over what ended participants left: it gives the lock back only once it has looked for that at each number.
/// It raises the count by one only where that is the present one, and each other participant is closed or has published it.
#[inline(never)]
fn scan<T, H: Holding<T>>(
    place: Place<T, H>,
    seat: &mut Seat<T>,
    number: usize,
    bags: &mut Bags,
    epoch: u64,
) -> Tried
    requires table { FitsSizes place seat.old }
    requires open { Scans seat.old number epoch 0 }
    requires waits { WaitsIn place.sizes.now.slots seat.old.me.0.waits bags.old }
    ensures seat { ScansOnButWaits seat.old seat.new number epoch 0 }
    ensures waits { WaitsIn place.entry.sizes.now.slots seat.new.me.0.waits bags.new }
    ensures due { bags.new.due ≡ bags.old.due }
{
    let tried = take_lock(place.words, seat, number, epoch);
    if !tried.got() {
        return tried;
    }
    let looks = take_all_left(place, seat, bags);
    raise_if_all_agree(place.words, seat, number, place.sizes.participants, epoch);
    give_lock(place.words, seat, number, epoch, looks);
    tried
}

/// Whether this outermost closing scans, where `closings` counts it.
fn scans(own: &LocalState, closings: u8) -> bool
    ensures { closings ≡ closings_after own.now → result ≡ scans own.now }
{
    own.accelerated || own.garbage && closings >= 64
}

/// Counts an outermost closing, and scans if one is due: that it then tried for the scan lock.
#[inline(always)]
pub fn scan_due<T, H: Holding<T>>(
    place: Place<T, H>,
    seat: &mut Seat<T>,
    number: usize,
    bags: &mut Bags,
    own: &mut LocalState,
) -> Option<Tried>
    requires table { FitsSizes place seat.old }
    requires open { Scans seat.old number own.old.previous 0 }
    requires waits { WaitsIn place.sizes.now.slots seat.old.me.0.waits bags.old }
    ensures seat { (seat.new.table_id ≡ seat.old.table_id) × (seat.new.id ≡ seat.old.id) × SteadyButWaits seat.old.me seat.new.me }
    ensures open { Scans seat.new number own.old.previous 0 }
    ensures tried { is_some result ≡ scans own.old }
    ensures counted { own.new ≡ record own.old { closings = cond (scans own.old) 0 (closings_after own.old) } }
    ensures waits { WaitsIn place.entry.sizes.now.slots seat.new.me.0.waits bags.new }
    ensures due { bags.new.due ≡ bags.old.due }
{
    let closings = if own.closings < 64 {
        own.closings + 1
    } else {
        64
    };
    if scans(own, closings) {
        let epoch = own.previous;
        let tried = scan(place, seat, number, bags, epoch);
        own.closings = 0;
        Some(tried)
    } else {
        own.closings = closings;
        None
    }
}
