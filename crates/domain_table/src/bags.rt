//! What a participant has retired, by how often it has rotated since.
//!
//! A bag takes no memory of its own: it is where it begins and where it ends. What is between is in the link words of
//! the slots (`links`), each of which names what came into the bag next. So to put an item in, to turn the bags, to join two
//! of them and to take the oldest item out takes one step on one link word at most, whatever the bags hold, and no bag can
//! be full.

ghost use Rattle.std.specs.Prelude.{◌≡◌, ◌<◌, [], List, ℕ, None, IfSome, IfNone, length, nat_lt};
ghost use Rattle.sdd_homes.specs.declared.Garbage.{Garbage};
ghost use Rattle.domain_table.specs.Bags.{aged, IsJoined, LieInFront, LiesBehind, LosesOldest};
ghost use Rattle.domain_table.specs.Chains.{AllBelow};
ghost use Rattle.domain_table.specs.Fitting.{FitsSizes};
ghost use Rattle.domain_table.specs.Ledgers.{WaitsIn, Rearranges, HasDue, HasRetired, HasTakenOver, WaitsInOne};
ghost use Rattle.domain_table.specs.Views.{of_participant, older_waits};
ghost use Rattle.domain_table.specs.Plays.{with_waits};

use crate::board::{Place, Seat};
use crate::holding::Holding;
use crate::links::{follow, load_link};

/// Where a bag that isn't empty begins and ends: the slots of its oldest and of its newest item.
#[derive(Clone, Copy, Drop)]
pub struct Ends {
    pub first: usize,
    pub last: usize,
}

/// Joins two bags that lie one behind the other: what is in `newer` comes behind all that is in `older`.
fn join<T, H: Holding<T>>(
    place: Place<T, H>,
    seat: &mut Seat<T>,
    newer: Option<Ends>,
    older: Option<Ends>,
) -> Option<Ends>
    requires table { FitsSizes place seat.old }
    requires acts { (seat.old.me.0.kind ≡ of_participant) × AllBelow place.sizes.now.slots seat.old.me.0.waits }
    requires bags { LieInFront seat.old.me.0.waits newer older }
    ensures seat { (seat.new.table_id ≡ seat.old.table_id) × (seat.new.id ≡ seat.old.id) }
    ensures joined { IsJoined seat.old.me.0.waits newer older result (λ ws. seat.new.me ≡ with_waits ws seat.old.me) }
{
    let Some(behind) = newer else {
        return older;
    };
    let Some(front) = older else {
        return newer;
    };
    follow(place, seat, front.last, behind.first);
    Some(Ends {
        first: front.first,
        last: behind.last,
    })
}

/// Takes out of the bag what has been in it the longest, which is behind all else that waits. The item waits on.
fn take_first<T, H: Holding<T>>(
    place: Place<T, H>,
    seat: &mut Seat<T>,
    bag: Option<Ends>,
) -> (Option<usize>, Option<Ends>)
    requires table { FitsSizes place seat.old }
    requires acts { (seat.old.me.0.kind ≡ of_participant) × AllBelow place.sizes.now.slots seat.old.me.0.waits }
    requires bag { LiesBehind seat.old.me.0.waits bag }
    ensures seat { (seat.new.table_id ≡ seat.old.table_id) × (seat.new.id ≡ seat.old.id) × (seat.new.me ≡ seat.old.me) }
    ensures none { IfNone result.0 ((bag ≡ None) × (result.1 ≡ None)) }
    ensures taken { IfSome result.0 (λ slot. LosesOldest seat.old.me.0.waits bag slot result.1) }
{
    let Some(ends) = bag else {
        return (None, None);
    };
    let found = load_link(place, seat, ends.first);
    if ends.first == ends.last {
        return (Some(ends.first), None);
    }
    (
        Some(ends.first),
        Some(Ends {
            first: found as usize - 1,
            last: ends.last,
        }),
    )
}

/// Three bags, by age, and what is due: that was retired three rotations ago.
#[derive(Clone, Copy, Drop)]
pub struct Bags {
    pub current: Option<Ends>,
    pub previous: Option<Ends>,
    pub next: Option<Ends>,
    pub due: Option<Ends>,
}

impl Bags {
    /// Empty bags.
    pub fn new() -> Bags
        ensures waits { (n : ℕ) → WaitsIn n [] result }
        ensures due { result.due ≡ None }
    {
        Bags {
            current: None,
            previous: None,
            next: None,
            due: None,
        }
    }

    /// What the participant has just retired, in `slot`, comes into the current bag.
    pub fn retire<T, H: Holding<T>>(&mut self, place: Place<T, H>, seat: &mut Seat<T>, slot: usize)
        requires table { FitsSizes place seat.old × (slot < place.sizes.now.slots) }
        requires acts { seat.old.me.0.kind ≡ of_participant }
        requires retired { HasRetired place.sizes.now.slots slot seat.old.me.0.waits self.old }
        ensures seat { (seat.new.table_id ≡ seat.old.table_id) × (seat.new.id ≡ seat.old.id) }
        ensures waits { Rearranges place.entry.sizes.now.slots seat.old.me self.new seat.new.me }
        ensures due { (self.new.due ≡ self.old.due) × (aged 3 seat.new.me.0.waits ≡ aged 3 seat.old.me.0.waits) }
    {
        let alone = Ends {
            first: slot,
            last: slot,
        };
        self.current = join(place, seat, Some(alone), self.current);
    }

    /// What the participant has just taken over comes into the current bag, in its order.
    pub fn take_over<T, H: Holding<T>>(
        &mut self,
        place: Place<T, H>,
        seat: &mut Seat<T>,
        chain: Option<Ends>,
    )
        requires table { FitsSizes place seat.old }
        requires acts { seat.old.me.0.kind ≡ of_participant }
        requires taken { HasTakenOver place.sizes.now.slots chain seat.old.me.0.waits self.old }
        ensures seat { (seat.new.table_id ≡ seat.old.table_id) × (seat.new.id ≡ seat.old.id) }
        ensures waits { Rearranges place.entry.sizes.now.slots seat.old.me self.new seat.new.me }
        ensures due { self.new.due ≡ self.old.due }
    {
        self.current = join(place, seat, chain, self.current);
    }

    /// Turns the bags by one, where nothing is due.
    pub fn rotate(&mut self)
        requires { self.old.due ≡ None }
        ensures { (n : ℕ) (ws : List Garbage) → WaitsIn n ws self.old → WaitsIn n (older_waits ws) self.new }
    {
        let Bags {
            current,
            previous,
            next,
            due: _,
        } = *self;
        *self = Bags {
            current: None,
            previous: current,
            next: previous,
            due: next,
        };
    }

    /// Whether anything waits, where nothing is due.
    pub fn has_some(&self) -> bool
        requires { self.now.due ≡ None }
        ensures { (n : ℕ) (ws : List Garbage) → WaitsIn n ws self.now → result ≡ nat_lt 0 (length ws) }
    {
        self.current.is_some() || self.previous.is_some() || self.next.is_some()
    }

    /// Takes out what has waited the longest, if it is due. It waits on, until it is reclaimed.
    pub fn take_due<T, H: Holding<T>>(
        &mut self,
        place: Place<T, H>,
        seat: &mut Seat<T>,
    ) -> Option<usize>
        requires table { FitsSizes place seat.old }
        requires acts { seat.old.me.0.kind ≡ of_participant }
        requires waits { WaitsIn place.sizes.now.slots seat.old.me.0.waits self.old }
        ensures seat { (seat.new.table_id ≡ seat.old.table_id) × (seat.new.id ≡ seat.old.id) × (seat.new.me ≡ seat.old.me) }
        ensures none { IfNone result (WaitsIn place.entry.sizes.now.slots seat.old.me.0.waits self.new × (self.new.due ≡ None)) }
        ensures taken { IfSome result (λ slot. HasDue place.entry.sizes.now.slots slot seat.old.me.0.waits self.new) }
    {
        let (slot, due) = take_first(place, seat, self.due);
        self.due = due;
        slot
    }

    /// Joins the three bags to one, where nothing is due.
    pub fn joined<T, H: Holding<T>>(self, place: Place<T, H>, seat: &mut Seat<T>) -> Option<Ends>
        requires table { FitsSizes place seat.old }
        requires acts { seat.old.me.0.kind ≡ of_participant }
        requires waits { WaitsIn place.sizes.now.slots seat.old.me.0.waits self × (self.due ≡ None) }
        ensures seat { (seat.new.table_id ≡ seat.old.table_id) × (seat.new.id ≡ seat.old.id) }
        ensures joined { WaitsInOne place.entry.sizes.now.slots result seat.old.me seat.new.me }
    {
        let newer = join(place, seat, self.current, self.previous);
        join(place, seat, newer, self.next)
    }
}
