//! The steps on link words: each is one operation on one word.
//!
//! Each slot has a link word. While an item of a bag is in the slot, the word names the slot of what came into that bag
//! next, so that a bag is a chain from its first item to its last one. Only who has the bag reads and writes the link words
//! of the slots that its items are in: two items that aren't reclaimed are in two slots.

ghost use Rattle.std.specs.Prelude.{◌≡◌, ◌+◌, ◌<◌, ◌^◌};
ghost use Rattle.domain_table.specs.Plays.{SlotsApart, TellsLink, load_link_then, follow_then, with_waits};
ghost use Rattle.domain_table.specs.Views.{of_participant};
ghost use Rattle.domain_table.specs.Bags.{IsFollowed, LieTogether};
ghost use Rattle.domain_table.specs.Fitting.{FitsFree};

use crate::board::{Acting, Home, Place, Seat};
use crate::holding::Holding;
use crate::layout::link_word;
use atomic_table::Play;

struct OnFollow;

impl<T> Play<Home<T>, Acting> for OnFollow {
    ghost then = { follow_then };
}

struct OnLoadLink;

impl<T> Play<Home<T>, Acting> for OnLoadLink {
    ghost then = { load_link_then };
}

/// What follows what is in `slot`, if a bag of the participant holds that, and it is known.
pub fn load_link<T, H: Holding<T>>(place: Place<T, H>, seat: &mut Seat<T>, slot: usize) -> u64
    requires table { FitsFree place seat.old slot }
    requires acts { seat.old.me.0.kind ≡ of_participant }
    ensures seat { (seat.new.table_id ≡ seat.old.table_id) × (seat.new.id ≡ seat.old.id) × (seat.new.me ≡ seat.old.me) }
    ensures apart { SlotsApart seat.old.me.0.waits × SlotsApart seat.old.me.0.collected }
    ensures told { TellsLink seat.old.me.0 slot result }
{
    let Place { words, sizes } = place;
    words.load::<OnLoadLink>(seat, link_word(sizes, slot))
}

/// What came into the bag last, in slot `next`, follows what came before it, in `slot`.
pub fn follow<T, H: Holding<T>>(place: Place<T, H>, seat: &mut Seat<T>, slot: usize, next: usize)
    requires table { FitsFree place seat.old slot }
    requires acts { (seat.old.me.0.kind ≡ of_participant) × (next < 2 ^ 30) }
    requires held { LieTogether seat.old.me.0.waits next slot }
    ensures seat { (seat.new.table_id ≡ seat.old.table_id) × (seat.new.id ≡ seat.old.id) }
    ensures followed { IsFollowed seat.old.me.0.waits next slot (λ ws. seat.new.me ≡ with_waits ws seat.old.me) }
{
    let Place { words, sizes } = place;
    words.store::<OnFollow>(seat, link_word(sizes, slot), next as u64 + 1);
}
