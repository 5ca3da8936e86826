//! What holds between any two steps of any threads. Nothing here runs.

ghost use Rattle.sdd_domain.specs.Laws.{ShowsSafe, RaisedAtMostOnce, LeasedStays, OwnedStays};

use crate::holds::Holds;

/// What the table of a place shows at any moment is a state of the single steps that meets their invariant, and so
/// keeps their promise: nothing that an open guard has loaded is reclaimed.
pub fn every_moment_is_safe<T: Holds>()
    ensures { ShowsSafe T T.holds }
{}

/// While a guard is open, the count of raises is that of its publication or the next one, whatever other threads do.
pub fn the_count_is_raised_at_most_once<T: Holds>()
    ensures { RaisedAtMostOnce T T.holds }
{}

/// What a participant has leased under its guard is the item that it loaded, with its value: it isn't reclaimed.
pub fn what_is_loaded_stays<T: Holds>()
    ensures { LeasedStays T T.holds }
{}

/// The item of an owner, whoever has it in hand, is the one that the owner was made of: it isn't retired.
pub fn an_owner_keeps_its_item<T: Holds>()
    ensures { OwnedStays T T.holds }
{}
