//! One participant of a place, as the thread that acts for it has it.

ghost use Rattle.std.specs.Prelude.{◌≡◌, ℕ, ◌+◌, ◌-◌, ◌*◌, ◌^◌, ◌<◌, ◌≤◌, ◌==◌, true, List, [], ◌∷◌, length, cond, map, nat_lt, None, IfSome, IfNone, IsSome};
ghost use Rattle.std.specs.Option.{ForNone, ForSome};
ghost use Rattle.std.specs.VecDeque.{deque_capacity};
ghost use Rattle.sdd_steps.specs.declared.participant.Phase.TheVariants.{Idle, Opened};
ghost use Rattle.sdd_steps.specs.State.{Has};
ghost use Rattle.sdd_homes.specs.declared.Garbage.{Garbage};
ghost use Rattle.domain_table.specs.Ledgers.{WaitsIn};
ghost use Rattle.domain_table.specs.Fitting.{FitsSizes};
ghost use Rattle.domain_table.specs.Contents.{IsIn, is_blank};
ghost use Rattle.domain_table.specs.Views.{of_participant, spent, rotated, older_waits};
ghost use Rattle.domain_table.specs.Leases.{IsAtRest, life_number, row_told, lease_told, leased_homes, row_slots, all_below, has_all};
ghost use Rattle.domain_table.specs.declared.row.Row.{Row};
ghost use Rattle.domain_table.specs.Plays.{own_spare, HasRegistered};
ghost use Rattle.domain_table.specs.Layout.{claim_word};
ghost use Rattle.sdd_domain.specs.Openings.{HasNothingOut, IsSeenIn, turned};

use crate::board::Place;
use crate::domain::Domain;
use crate::holds::Holds;
use crate::lives::{first_token, last_token, no_token};
use crate::reclaiming::reclaim_due;
use domain_table::bags::Bags;
use domain_table::board::{Seat, Stored};
use domain_table::leases::{give_home, seen_at};
use domain_table::ledger::Ledger;
use domain_table::left::leave;
use domain_table::loading::lease;
use domain_table::row::Row;
use domain_table::scan::scan_due;
use domain_table::{cells, steps};
use parted::{Life, Seen, Tally};
use sdd_plain::local_state::LocalState;
use sdd_plain::tag::Tag;
use std::collections::VecDeque;

/// A registered participant. It must be consumed by `end`.
pub struct Local<T> {
    pub(crate) seat: Seat<T>,
    pub(crate) number: usize,
    pub(crate) spare: u64,
    pub(crate) own: LocalState,
    /// What it has retired.
    pub(crate) bags: Bags,
    /// Where to look for a free slot first.
    pub(crate) next: usize,
    /// What its open guards haven't of their life.
    pub(crate) life: Option<Life>,
    /// What it has leased, in the order in which it was loaded.
    pub(crate) rows: VecDeque<Row<T>>,
    /// How often it was refused for want of a slot, a cell or a part of an item.
    pub(crate) misses: Tally,
    ghost acts: { (seat.me.0.kind ≡ of_participant) × (seat.me.0.number ≡ number) × (seat.me.0.scan ≡ 0) × (number < 2 ^ 30) × (claim_word number < seat.table_id.words) × (seat.me.0.releasing ≡ 0) },
    ghost has_spare: { (seat.me.0.spare ≡ spare) × (spare < 2 ^ 31) × (has_all is_blank (own_spare seat.me.0 spare ∷ leased_homes seat.me.0 seat.me.0.leases) seat.me.1 ≡ true) },
    ghost lends: { (map row_told rows.items ≡ map (lease_told (life_number life)) seat.me.0.leases) × (seat.me.0.sizes.slots ≤ deque_capacity rows) × (all_below seat.me.0.sizes.slots (row_slots rows.items) ≡ true) },
    ghost shut: { ForNone life ((own.nesting ≡ 0) × (seat.me.0.leases ≡ [])) },
    ghost alive: { ForSome life (λ f. (0 < own.nesting) × (f.count + own.nesting ≡ 2 ^ 63)) },
    ghost phase: { seat.me.0.known.phase ≡ cond (own.nesting == 0) Idle (Opened own.previous) },
    ghost found: { seat.me.0.known.found ≡ own.previous },
    ghost noted: { own.published ≡ own.previous },
    ghost fills: { (seat.me.0.filling ≡ None) × (next < 2 ^ 63) × (number < seat.me.0.sizes.participants) },
    ghost waits: { WaitsIn seat.me.0.sizes.slots seat.me.0.waits bags × (bags.due ≡ None) },
}

/// Turns the bags by one, and reclaims what is due then: whether anything waits still. It is compiled by itself, since few
/// openings find that something waits.
#[inline(never)]
fn rotate_and_reclaim<T: Holds>(
    place: Place<T>,
    seat: &mut Seat<T>,
    number: usize,
    bags: &mut Bags,
) -> bool
    requires table { FitsSizes place seat.old × (number < place.sizes.now.participants) }
    requires ready { IsAtRest number seat.old.me.0 × (seat.old.me.0.filling ≡ None) }
    requires waits { (ws : List Garbage) × (seat.old.me.0.waits ≡ older_waits ws) × WaitsIn place.sizes.now.slots ws bags.old }
    requires done { bags.old.due ≡ None }
    ensures seat { (seat.new.table_id ≡ seat.old.table_id) × (seat.new.id ≡ seat.old.id) }
    ensures reclaimed { (k : ℕ) × (ws : List Garbage) × (seat.new.me ≡ (record seat.old.me.0 { slot = k; waits = ws }, seat.old.me.1)) }
    ensures waits { WaitsIn place.entry.sizes.now.slots seat.new.me.0.waits bags.new }
    ensures bags { bags.new.due ≡ None }
    ensures some { result ≡ nat_lt 0 (length seat.new.me.0.waits) }
{
    bags.rotate();
    reclaim_due(place, seat, number, bags);
    bags.has_some()
}

/// The same where nothing may wait: then there is nothing to turn.
#[inline(always)]
fn turn_bags<T: Holds>(place: Place<T>, seat: &mut Seat<T>, number: usize, bags: &mut Bags) -> bool
    requires table { FitsSizes place seat.old × (number < place.sizes.now.participants) }
    requires ready { IsAtRest number seat.old.me.0 × (seat.old.me.0.filling ≡ None) }
    requires waits { (ws : List Garbage) × (seat.old.me.0.waits ≡ older_waits ws) × WaitsIn place.sizes.now.slots ws bags.old }
    requires done { bags.old.due ≡ None }
    ensures seat { (seat.new.table_id ≡ seat.old.table_id) × (seat.new.id ≡ seat.old.id) }
    ensures reclaimed { (k : ℕ) × (ws : List Garbage) × (seat.new.me ≡ (record seat.old.me.0 { slot = k; waits = ws }, seat.old.me.1)) }
    ensures waits { WaitsIn place.entry.sizes.now.slots seat.new.me.0.waits bags.new }
    ensures bags { bags.new.due ≡ None }
    ensures some { result ≡ nat_lt 0 (length seat.new.me.0.waits) }
{
    if !bags.has_some() {
        return false;
    }
    rotate_and_reclaim(place, seat, number, bags)
}

/// Behind a publication: turns the bags if the count isn't the one that was found before, and reclaims what is due then.
#[inline(always)]
pub(crate) fn turn<T: Holds>(
    place: Place<T>,
    seat: &mut Seat<T>,
    number: usize,
    own: &mut LocalState,
    bags: &mut Bags,
    epoch: u64,
)
    requires table { FitsSizes place seat.old × (number < place.sizes.now.participants) }
    requires open { (seat.old.me.0.known.phase ≡ Opened epoch) × (seat.old.me.0.known.found ≡ epoch) }
    requires rest { HasNothingOut number seat.old.me.0 }
    requires noted { own.old.published ≡ own.old.previous }
    requires waits { (ws : List Garbage) × (seat.old.me.0.waits ≡ rotated epoch own.old.previous ws) × WaitsIn place.sizes.now.slots ws bags.old }
    requires done { bags.old.due ≡ None }
    ensures seat { (seat.new.table_id ≡ seat.old.table_id) × (seat.new.id ≡ seat.old.id) }
    ensures reclaimed { (k : ℕ) × (ws : List Garbage) × (seat.new.me ≡ (record seat.old.me.0 { slot = k; waits = ws }, seat.old.me.1)) }
    ensures waits { WaitsIn place.entry.sizes.now.slots seat.new.me.0.waits bags.new }
    ensures bags { bags.new.due ≡ None }
    ensures own { own.new ≡ turned epoch (nat_lt 0 (length seat.new.me.0.waits)) own.old }
{
    // Most openings find the count of the one before.
    if own.previous == epoch {
        return;
    }
    own.garbage = turn_bags(place, seat, number, bags);
    own.published = epoch;
    own.previous = epoch;
}

/// What the item of the row of `slot` is seen as, if there is such a row.
fn seen_of<T>(rows: &VecDeque<Row<T>>, slot: usize) -> Option<Seen<Stored<T>>>
    ensures row { IfSome result (λ s. IsSeenIn rows.now.items slot s) }
    ensures free { IfNone result (¬ Has (row_slots rows.now.items) slot) }
{
    for at in 0..rows.len() {
        if rows[at].slot == slot {
            return Some(rows[at].lent.see());
        }
    }
    None
}

impl<T: Holds> Local<T> {
    ghost use Rattle.domain_table.specs.Ledgers.{IsEmpty};
    ghost use Rattle.sdd_domain.specs.Tokens.{cell_count, place_of, home_of, number_of, own_of, hand_of, born_of, begun, closed, waiting_of, nest_in, HasLeasedSlot, IsSame, IsInNest, IsNewcomer, IsUnchanged};
    ghost use Rattle.sdd_domain.specs.CellSteps.{HasMade, HasReadCell, StepsOnNoCell, step_on};
    ghost use Rattle.domain_table.specs.Layout.{NamesWith};
    ghost use Rattle.sdd_plain.specs.Epochs.{tag_number};
    ghost use Rattle.domain_table.specs.Leases.{code_told};

    /// The participant that a seat has just come to act for.
    pub(crate) fn registered(
        seat: Seat<T>,
        number: usize,
        spare: u64,
        ledger: Ledger<T>,
    ) -> Local<T>
        requires acts { HasRegistered (IsIn T.holds) (spent, []) number spare seat.me × (spare < 2 ^ 31) }
        requires table { (claim_word number < seat.table_id.words) × (number < 2 ^ 30) × (number < seat.me.0.sizes.participants) }
        requires empty { IsEmpty seat.me.0.sizes.slots ledger }
        ensures { IsNewcomer (seat.table_id, seat.me.0.sizes) number result }
    {
        let Ledger { rows } = ledger;
        Local {
            seat,
            number,
            spare,
            own: LocalState {
                nesting: 0,
                published: 0,
                previous: 0,
                accelerated: false,
                garbage: false,
                closings: 0,
            },
            bags: Bags::new(),
            next: 0,
            life: None,
            rows,
            misses: Tally::new(),
        }
    }

    /// The participant's number, below the place's count of them.
    pub fn number(&self) -> usize
        ensures { result ≡ number_of self.now }
    {
        self.number
    }

    /// Whether it has retired something that isn't reclaimed yet.
    pub fn has_waiting(&self) -> bool
        ensures { result ≡ nat_lt 0 (waiting_of self.now) }
    {
        self.bags.has_some()
    }

    /// Opens an outermost guard, and begins its life.
    #[inline(always)]
    pub(crate) fn begin(&mut self, domain: &Domain<T>) -> Life
        requires home { home_of self.old ≡ place_of domain.now }
        requires closed { (own_of self.old).nesting ≡ 0 }
        ensures same { IsSame self.old self.new }
        ensures life { (result.count ≡ 1) × ((number_of self.old, result.id) ≡ nest_in self.new) }
        ensures begun { (count : ℕ) × (count ≤ born_of self.new) × (own_of self.new ≡ begun count (nat_lt 0 (waiting_of self.new)) (own_of self.old)) }
        ensures cells { StepsOnNoCell self.old self.new }
    {
        let Local {
            seat,
            number,
            own,
            bags,
            life,
            ..
        } = self;
        let place = domain.place();
        let epoch = steps::read_count(place.words, seat);
        steps::publish(place.words, seat, *number, epoch);
        turn(place, seat, *number, own, bags, epoch);
        own.nesting = 1;
        own.accelerated = false;
        first_token(life)
    }

    /// Opens one more guard within those that are open, which are `nesting` then.
    #[inline(always)]
    pub(crate) fn deepen(&mut self, nesting: u32) -> Life
        requires { (0 < (own_of self.old).nesting) × (nesting ≡ (own_of self.old).nesting + 1) }
        ensures same { IsInNest self.old self.new × (born_of self.new ≡ born_of self.old) × (waiting_of self.new ≡ waiting_of self.old) }
        ensures life { (result.count ≡ 1) × ((number_of self.old, result.id) ≡ nest_in self.new) }
        ensures deeper { own_of self.new ≡ record (own_of self.old) { nesting = nesting } }
        ensures cells { StepsOnNoCell self.old self.new }
    {
        self.own.nesting = nesting;
        match &mut self.life {
            Some(rest) => rest.split_one(),
            None => unreachable!(),
        }
    }

    /// Closes a guard within others.
    #[inline(always)]
    pub(crate) fn rise(&mut self, life: Life)
        requires { (1 < (own_of self.old).nesting) × (life.count ≡ 1) × ((number_of self.old, life.id) ≡ nest_in self.old) }
        ensures same { IsInNest self.old self.new × (born_of self.new ≡ born_of self.old) × (waiting_of self.new ≡ waiting_of self.old) }
        ensures closed { own_of self.new ≡ record (own_of self.old) { nesting = (own_of self.old).nesting - 1 } }
        ensures cells { StepsOnNoCell self.old self.new }
    {
        self.own.nesting -= 1;
        match &mut self.life {
            Some(rest) => rest.join(life),
            None => unreachable!(),
        }
    }

    /// Reads the word of a cell, in one step: nothing is loaded.
    pub(crate) fn read(&mut self, domain: &Domain<T>, cell: usize) -> u64
        requires home { home_of self.old ≡ place_of domain.now }
        requires inside { cell < cell_count domain.now }
        ensures named { (t : ℕ) × (k : ℕ) × NamesWith result t k }
        ensures looked { HasMade self.old (step_on self.old cell result result ∷ []) self.new }
        ensures same { IsUnchanged self.old self.new }
    {
        cells::read_cell(
            domain.words(),
            &mut self.seat,
            domain.sizes.participants,
            cell,
        )
    }

    /// Loads a cell under an open guard: what the item in which slot is seen as under the nest of guards, if the cell
    /// names one, and the tag that was found with it.
    pub(crate) fn lease(
        &mut self,
        domain: &Domain<T>,
        cell: usize,
    ) -> (Option<(usize, Seen<Stored<T>>)>, Tag)
        requires home { home_of self.old ≡ place_of domain.now }
        requires open { 0 < (own_of self.old).nesting }
        requires inside { cell < cell_count domain.now }
        ensures seen { IfSome result.0 (λ t. ((number_of self.old, t.1.life) ≡ nest_in self.old) × IsSome t.1.value) }
        ensures looked { HasReadCell self.old cell (tag_number result.1) (code_told result.0) self.new }
        ensures same { IsUnchanged self.old self.new }
    {
        let Local {
            seat,
            number,
            life,
            rows,
            ..
        } = self;
        let Some(life) = life else { unreachable!() };
        let (at, tag) = lease(domain.place(), seat, *number, rows, life, cell);
        (seen_at(rows, at), tag)
    }

    /// What the item that is leased in `slot` is seen as under the nest of guards. None if and only if none is leased there.
    pub(crate) fn seen_in(&self, slot: usize) -> Option<Seen<Stored<T>>>
        ensures nest { IfSome result (λ s. (number_of self.now, s.life) ≡ nest_in self.now) }
        ensures item { IfSome result (λ s. (r : Row T) × Has self.now.rows.items r × (r.slot ≡ slot) × (s.value ≡ r.lent.seen.value)) }
        ensures free { IfNone result (¬ HasLeasedSlot self.now slot) }
    {
        seen_of(&self.rows, slot)
    }

    /// Closes an outermost guard, after a scan if one is due, and ends its life: all that was leased is returned to its home.
    #[inline(always)]
    pub(crate) fn finish(&mut self, domain: &Domain<T>, token: Life)
        requires home { home_of self.old ≡ place_of domain.now }
        requires outermost { (own_of self.old).nesting ≡ 1 }
        requires last { (token.count ≡ 1) × ((number_of self.old, token.id) ≡ nest_in self.old) }
        ensures same { IsSame self.old self.new }
        ensures closed { own_of self.new ≡ closed (own_of self.old) }
        ensures cells { StepsOnNoCell self.old self.new }
    {
        let Local {
            seat,
            number,
            own,
            bags,
            life,
            rows,
            ..
        } = self;
        let place = domain.place();
        let epoch = own.previous;
        let _ = scan_due(place, seat, *number, bags, own);
        let ended = last_token(life, token);
        give_home(place.words, seat, place.sizes.slots, *number, rows, &ended);
        cells::close(place.words, seat, *number, epoch);
        own.nesting = 0;
    }

    /// Ends the participant, which anybody may register from now on. What it retired and didn't reclaim
    /// is taken over by the first later scan that takes the lock, whoever makes it. Conditions: none of its guards is open,
    /// and no owner is in its hand.
    pub fn end(self, domain: &Domain<T>)
        requires home { home_of self ≡ place_of domain.now }
        requires closed { (own_of self).nesting ≡ 0 }
        requires bare { hand_of self ≡ [] }
    {
        self.leave(domain).free();
    }

    /// The same, with the ledger, which is empty then.
    pub(crate) fn leave(self, domain: &Domain<T>) -> Ledger<T>
        requires home { home_of self ≡ place_of domain.now }
        requires closed { (own_of self).nesting ≡ 0 }
        requires bare { hand_of self ≡ [] }
        ensures { IsEmpty domain.now.sizes.slots result }
    {
        let Local {
            mut seat,
            number,
            spare,
            own: _,
            bags,
            next: _,
            life,
            rows,
            misses: _,
        } = self;
        no_token(life);
        let place = domain.place();
        leave(place, &mut seat, number, bags);
        steps::end(place.words, &mut seat, number, spare);
        Ledger { rows }
    }
}
