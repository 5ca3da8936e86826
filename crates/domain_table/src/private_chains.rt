//! Private bags as chains: the same steps on link words as those of the bags of a participant (`links`, `bags`), on what is in
//! the private bag that is at the participant's seat.

ghost use Rattle.std.specs.Prelude.{◌≡◌, ◌+◌, ◌<◌, ◌^◌, None, IfSome, IfNone};
ghost use Rattle.domain_table.specs.Chains.{AllBelow};
ghost use Rattle.domain_table.specs.Fitting.{FitsSizes, FitsFree};
ghost use Rattle.domain_table.specs.Plays.{follow_noted_then, with_collected};
ghost use Rattle.domain_table.specs.Views.{of_participant};
ghost use Rattle.domain_table.specs.Bags.{IsFollowed, IsJoined, LieInFront, LieTogether, LiesBehind, LosesOldest};

use crate::bags::Ends;
use crate::board::{Acting, Home, Place, Seat};
use crate::holding::Holding;
use crate::layout::link_word;
use crate::links::load_link;
use atomic_table::Play;

struct OnFollowNoted;

impl<T> Play<Home<T>, Acting> for OnFollowNoted {
    ghost then = { follow_noted_then };
}

/// What came into the private bag last, in slot `next`, follows what came before it, in `slot`.
fn follow_noted<T, H: Holding<T>>(place: Place<T, H>, seat: &mut Seat<T>, slot: usize, next: usize)
    requires table { FitsFree place seat.old slot }
    requires acts { (seat.old.me.0.kind ≡ of_participant) × (next < 2 ^ 30) }
    requires held { LieTogether seat.old.me.0.collected next slot }
    ensures seat { (seat.new.table_id ≡ seat.old.table_id) × (seat.new.id ≡ seat.old.id) }
    ensures followed { IsFollowed seat.old.me.0.collected next slot (λ ws. seat.new.me ≡ with_collected ws seat.old.me) }
{
    let Place { words, sizes } = place;
    words.store::<OnFollowNoted>(seat, link_word(sizes, slot), next as u64 + 1);
}

/// Joins two chains of the private bag that lie one behind the other: what is in `newer` comes behind all that is in
/// `older`.
pub fn join_noted<T, H: Holding<T>>(
    place: Place<T, H>,
    seat: &mut Seat<T>,
    newer: Option<Ends>,
    older: Option<Ends>,
) -> Option<Ends>
    requires table { FitsSizes place seat.old }
    requires acts { (seat.old.me.0.kind ≡ of_participant) × AllBelow place.sizes.now.slots seat.old.me.0.collected }
    requires bags { LieInFront seat.old.me.0.collected newer older }
    ensures seat { (seat.new.table_id ≡ seat.old.table_id) × (seat.new.id ≡ seat.old.id) }
    ensures joined { IsJoined seat.old.me.0.collected newer older result (λ ws. seat.new.me ≡ with_collected ws seat.old.me) }
{
    let Some(behind) = newer else {
        return older;
    };
    let Some(front) = older else {
        return newer;
    };
    follow_noted(place, seat, front.last, behind.first);
    Some(Ends {
        first: front.first,
        last: behind.last,
    })
}

/// Takes out of the chain what has been in the private bag the longest. The item stays noted.
pub fn take_noted<T, H: Holding<T>>(
    place: Place<T, H>,
    seat: &mut Seat<T>,
    bag: Option<Ends>,
) -> (Option<usize>, Option<Ends>)
    requires table { FitsSizes place seat.old }
    requires acts { (seat.old.me.0.kind ≡ of_participant) × AllBelow place.sizes.now.slots seat.old.me.0.collected }
    requires bag { LiesBehind seat.old.me.0.collected bag }
    ensures seat { (seat.new.table_id ≡ seat.old.table_id) × (seat.new.id ≡ seat.old.id) × (seat.new.me ≡ seat.old.me) }
    ensures none { IfNone result.0 ((bag ≡ None) × (result.1 ≡ None)) }
    ensures taken { IfSome result.0 (λ slot. LosesOldest seat.old.me.0.collected bag slot result.1) }
{
    let Some(ends) = bag else {
        return (None, None);
    };
    let found = load_link(place, seat, ends.first);
    if ends.first == ends.last {
        return (Some(ends.first), None);
    }
    (
        Some(ends.first),
        Some(Ends {
            first: found as usize - 1,
            last: ends.last,
        }),
    )
}
