//! What ended participants leave, and who takes it over.
//!
//! A participant that ends joins its bags to one, and says by its left word where that begins and ends. The first scan after
//! it that has the scan lock, whoever makes it, exchanges the word with 0, and has retired all of the bag then, with age 0: it
//! comes into the scanner's current bag. So what was left doesn't wait for somebody to act for that participant again, and to
//! take it over takes two steps, whatever is left. A participant that ends once more before any scan takes back what it left
//! before, and leaves it with the rest.

ghost use Rattle.std.specs.Prelude.{◌≡◌, true, None, ◌<◌, ◌^◌, ◌++◌, ◌∷◌, [], List, IfSome};
ghost use Rattle.sdd_homes.specs.declared.Garbage.{Garbage};
ghost use Rattle.sdd_steps.specs.Steps.{is_ready};
ghost use Rattle.domain_table.specs.Bags.{IsBag, ends_of};
ghost use Rattle.domain_table.specs.Chains.{AllBelow, left_code};
ghost use Rattle.domain_table.specs.Fitting.{FitsNumber, FitsSizes, HasWordsOf};
ghost use Rattle.domain_table.specs.Ledgers.{WaitsIn, TakesOver};
ghost use Rattle.domain_table.specs.Outcomes.{HasLookedAtAll};
ghost use Rattle.domain_table.specs.Plays.{take_left_then, take_own_then, leaving, leave_then, with_waits};
ghost use Rattle.domain_table.specs.Views.{of_participant};
ghost use Rattle.domain_table.specs.Readiness.{IsIdleAndBare};

use crate::bags::{Bags, Ends};
use crate::board::{Acting, Home, Place, Seat, Words};
use crate::holding::Holding;
use crate::layout::{LEFT, STRIDE};
use atomic_table::Play;
use parted::GhostList;

/// A left word is the last slot, and one more than the first slot times this.
const FIRST: u64 = 1 << 31;

struct OnTakeLeft;

impl<T> Play<Home<T>, Acting> for OnTakeLeft {
    ghost then = { take_left_then };
}

struct OnTakeOwn;

impl<T> Play<Home<T>, Acting> for OnTakeOwn {
    ghost then = { take_own_then };
}

struct OnLeave;

impl<T> Play<Home<T>, Acting> for OnLeave {
    ghost then = { leave_then };
}

/// The word that says where a bag begins and ends.
fn word_of(bag: Option<Ends>) -> u64
    requires { IfSome bag (λ e. (e.first < 2 ^ 30) × (e.last < 2 ^ 30)) }
    ensures { (ws : List Garbage) → bag ≡ ends_of ws → result ≡ left_code ws }
{
    match bag {
        None => 0,
        Some(ends) => ends.last as u64 + FIRST * (ends.first as u64 + 1),
    }
}

/// Where the bag of the word begins and ends.
fn bag_in(word: u64) -> Option<Ends>
    requires { (ws : List Garbage) × (word ≡ left_code ws) × AllBelow (2 ^ 30) ws }
    ensures { (ws : List Garbage) → word ≡ left_code ws → AllBelow (2 ^ 30) ws → result ≡ ends_of ws }
{
    if word == 0 {
        return None;
    }
    Some(Ends {
        first: (word / FIRST - 1) as usize,
        last: (word % FIRST) as usize,
    })
}

/// Takes over what participant `number` left, under the scan lock: it is put in front of what waits.
fn take_left<T, H: Holding<T>>(
    place: Place<T, H>,
    seat: &mut Seat<T>,
    number: usize,
) -> Option<Ends>
    requires table { FitsNumber place seat.old number }
    requires ready { (seat.old.me.0.kind ≡ of_participant) × (is_ready seat.old.me.0.known ≡ true) }
    requires locked { 0 < seat.old.me.0.scan }
    ensures seat { (seat.new.table_id ≡ seat.old.table_id) × (seat.new.id ≡ seat.old.id) }
    ensures taken { TakesOver place.entry.sizes.now.slots result seat.old.me.0.left seat.old.me seat.new.me }
{
    let words = place.words;
    bag_in(words.swap::<OnTakeLeft>(seat, STRIDE * number + LEFT, 0))
}

/// Takes back what the seat's own participant left when it ended before, if nobody has taken it over.
fn take_own<T, H: Holding<T>>(place: Place<T, H>, seat: &mut Seat<T>, number: usize) -> Option<Ends>
    requires table { FitsNumber place seat.old number }
    requires ready { (seat.old.me.0.kind ≡ of_participant) × (is_ready seat.old.me.0.known ≡ true) × (seat.old.me.0.number ≡ number) }
    ensures seat { (seat.new.table_id ≡ seat.old.table_id) × (seat.new.id ≡ seat.old.id) }
    ensures taken { TakesOver place.entry.sizes.now.slots result 1 seat.old.me seat.new.me }
{
    let words = place.words;
    bag_in(words.swap::<OnTakeOwn>(seat, STRIDE * number + LEFT, 0))
}

/// Says by the left word of participant `number` what it leaves: all that it retired, which is in this bag.
fn tell<T, H: Holding<T>>(place: Place<T, H>, seat: &mut Seat<T>, number: usize, bag: Option<Ends>)
    requires table { FitsNumber place seat.old number }
    requires rests { IsIdleAndBare number seat.old.me.0 }
    requires known { seat.old.me.0.left ≡ 1 }
    requires bag { IsBag seat.old.me.0.waits bag × AllBelow place.sizes.now.slots seat.old.me.0.waits }
    ensures { (seat.new.table_id ≡ seat.old.table_id) × (seat.new.id ≡ seat.old.id) × (seat.new.me ≡ (leaving seat.old.me.0, seat.old.me.1)) }
{
    let words = place.words;
    words.store::<OnLeave>(seat, STRIDE * number + LEFT, word_of(bag));
}

/// Leaves what the participant retired and didn't reclaim, with what it left before.
pub fn leave<T, H: Holding<T>>(place: Place<T, H>, seat: &mut Seat<T>, number: usize, bags: Bags)
    requires table { FitsNumber place seat.old number }
    requires rests { IsIdleAndBare number seat.old.me.0 }
    requires waits { WaitsIn place.sizes.now.slots seat.old.me.0.waits bags × (bags.due ≡ None) }
    ensures { (seat.new.table_id ≡ seat.old.table_id) × (seat.new.id ≡ seat.old.id) × (seat.new.me ≡ (leaving seat.old.me.0, seat.old.me.1)) }
{
    let mut bags = bags;
    let before = take_own(place, seat, number);
    bags.take_over(place, seat, before);
    let bag = bags.joined(place, seat);
    tell(place, seat, number, bag);
}

/// Whose left words were read, for contracts. Only `has_left` adds to it.
#[derive(Drop)]
pub(crate) struct Looks {
    numbers: GhostList,
}

/// Whether participant `number` left something that nobody has taken over.
fn has_left<T, H: Holding<T>>(words: &Words<T, H>, number: usize, looks: &mut Looks) -> bool
    requires { HasWordsOf words.now.table_id words.now.key.sizes number }
    ensures { looks.new.numbers.items ≡ looks.old.numbers.items ++ number ∷ [] }
{
    looks.numbers.push(number as u64);
    words.peek(STRIDE * number + LEFT) > 0
}

/// Takes over what participant `number` left, if it left something, under the scan lock: it comes into the current bag.
fn take_if_left<T, H: Holding<T>>(
    place: Place<T, H>,
    seat: &mut Seat<T>,
    bags: &mut Bags,
    number: usize,
    looks: &mut Looks,
)
    requires table { FitsNumber place seat.old number }
    requires ready { (seat.old.me.0.kind ≡ of_participant) × (is_ready seat.old.me.0.known ≡ true) }
    requires locked { 0 < seat.old.me.0.scan }
    requires waits { WaitsIn place.sizes.now.slots seat.old.me.0.waits bags.old }
    ensures seat { (seat.new.table_id ≡ seat.old.table_id) × (seat.new.id ≡ seat.old.id) }
    ensures taken { (ws : List Garbage) × WaitsIn place.entry.sizes.now.slots ws bags.new × (seat.new.me ≡ with_waits ws seat.old.me) }
    ensures due { bags.new.due ≡ bags.old.due }
    ensures looked { looks.new.numbers.items ≡ looks.old.numbers.items ++ number ∷ [] }
{
    if !has_left(place.words, number, looks) {
        return;
    }
    let chain = take_left(place, seat, number);
    bags.take_over(place, seat, chain);
}

/// Takes over all that ended participants left, under the scan lock: it comes into the current bag. Each participant's left
/// word is read.
pub(crate) fn take_all_left<T, H: Holding<T>>(
    place: Place<T, H>,
    seat: &mut Seat<T>,
    bags: &mut Bags,
) -> Looks
    requires table { FitsSizes place seat.old }
    requires ready { (seat.old.me.0.kind ≡ of_participant) × (is_ready seat.old.me.0.known ≡ true) }
    requires locked { 0 < seat.old.me.0.scan }
    requires waits { WaitsIn place.sizes.now.slots seat.old.me.0.waits bags.old }
    ensures seat { (seat.new.table_id ≡ seat.old.table_id) × (seat.new.id ≡ seat.old.id) }
    ensures taken { (ws : List Garbage) × WaitsIn place.entry.sizes.now.slots ws bags.new × (seat.new.me ≡ with_waits ws seat.old.me) }
    ensures due { bags.new.due ≡ bags.old.due }
    ensures looked { HasLookedAtAll place.entry.sizes.now.participants result }
{
    let mut looks = Looks {
        numbers: GhostList::new(),
    };
    for number in 0..place.sizes.participants {
        take_if_left(place, seat, bags, number, &mut looks);
    }
    looks
}
