//! The single steps of a participant on the words of cells.

ghost use Rattle.std.specs.Prelude.{◌≡◌, ◌≢◌, ℕ, ◌∷◌, ◌+◌, ◌-◌, ◌*◌, ◌^◌, ◌<◌, true, List, Option, length, drop, IsTrue, IsFalse};
ghost use Rattle.sdd_steps.specs.Steps.{is_inside, is_ready};
ghost use Rattle.sdd_homes.specs.declared.Lease.{Lease};
ghost use Rattle.sdd_homes.specs.Book.{Lends, Apart};
ghost use Rattle.sdd_homes.specs.declared.Owner.{Owner};
ghost use Rattle.sdd_steps.specs.State.{Has};
ghost use Rattle.domain_table.specs.Outcomes.{Exchanges, KeepsLease, EndsRelease, ClonesAt, LeasesFirst, LoadsCell, ReadsCell};
ghost use Rattle.domain_table.specs.Leases.{HasFew, ReleasesOne};
ghost use Rattle.domain_table.specs.Fitting.{FitsFree, FitsCell, HasSlotWord, HasWords};
ghost use Rattle.domain_table.specs.Contents.{IsIn};
ghost use Rattle.domain_table.specs.Layout.{cell_word, claim_word, AreAlike};
ghost use Rattle.domain_table.specs.Plays.{Scans, load_then, read_cell_then, with_step, load_own_then, CanClose, ending, end_all_then, Brings, swap_then, IsAlike, clone_then, MayNote, HasRoom, release_then, HasBegun, begin_then, end_release_then, keep_then, exchange_then, retag_then};
ghost use Rattle.domain_table.specs.declared.board.Home.{Home};
ghost use Rattle.domain_table.specs.Views.{of_participant};
ghost use Rattle.domain_table.specs.Readiness.{CanEndAt, CanKeepHome, CanStep, CanStepInside, IsFirstLeased};

use crate::aim::Aim;
use crate::board::{Acting, Home, Place, Seat, Words};
use crate::holding::Holding;
use crate::layout::{NO_OWNER, ONE_OWNER, STATE, STRIDE, cell_word, owners_word};
use atomic_table::Play;
use std::marker::PhantomData;

struct OnLoad<H>(PhantomData<H>);

impl<T, H: Holding<T>> Play<Home<T>, Acting> for OnLoad<H> {
    ghost then = { load_then (IsIn H.holds) };
}

struct OnRead;

impl<T> Play<Home<T>, Acting> for OnRead {
    ghost then = { read_cell_then };
}

struct OnLoadOwn<H>(PhantomData<H>);

impl<T, H: Holding<T>> Play<Home<T>, Acting> for OnLoadOwn<H> {
    ghost then = { load_own_then (IsIn H.holds) };
}

struct OnEndAll;

impl<T> Play<Home<T>, Acting> for OnEndAll {
    ghost then = { end_all_then };
}

struct OnSwap<H>(PhantomData<H>);

impl<T, H: Holding<T>> Play<Home<T>, Acting> for OnSwap<H> {
    ghost then = { swap_then (IsIn H.holds) };
}

struct OnExchange<H>(PhantomData<H>);

impl<T, H: Holding<T>> Play<Home<T>, Acting> for OnExchange<H> {
    ghost then = { exchange_then (IsIn H.holds) };
}

struct OnTag;

impl<T> Play<Home<T>, Acting> for OnTag {
    ghost then = { retag_then };
}

struct OnClone;

impl<T> Play<Home<T>, Acting> for OnClone {
    ghost then = { clone_then };
}

struct OnRelease<A>(PhantomData<A>);

impl<T, A: Aim> Play<Home<T>, Acting> for OnRelease<A> {
    ghost then = { release_then A.to };
}

struct OnBegin<H>(PhantomData<H>);

impl<T, H: Holding<T>> Play<Home<T>, Acting> for OnBegin<H> {
    ghost then = { begin_then (IsIn H.holds) };
}

struct OnKeep<H>(PhantomData<H>);

impl<T, H: Holding<T>> Play<Home<T>, Acting> for OnKeep<H> {
    ghost then = { keep_then (IsIn H.holds) };
}

struct OnEndRelease<H, A>(PhantomData<(H, A)>);

impl<T, H: Holding<T>, A: Aim> Play<Home<T>, Acting> for OnEndRelease<H, A> {
    ghost then = { end_release_then (IsIn H.holds) A.to };
}

/// The word of a cell, as it was at some moment: no step records it.
pub fn word_of<T, H: Holding<T>>(place: Place<T, H>, cell: usize) -> u64
    requires { HasWords place × (cell < place.sizes.now.cells) }
{
    place.words.peek(cell_word(place.sizes.participants, cell))
}

/// Reads the word of the cell, for `participants` of them, in one recorded step: nothing is loaded.
pub fn read_cell<T, H: Holding<T>>(
    words: &Words<T, H>,
    seat: &mut Seat<T>,
    participants: usize,
    cell: usize,
) -> u64
    requires table { FitsCell words.now.table_id words.now.key.sizes seat.old.table_id participants cell }
    requires acts { seat.old.me.0.kind ≡ of_participant }
    ensures seat { (seat.new.table_id ≡ seat.old.table_id) × (seat.new.id ≡ seat.old.id) }
    ensures read { ReadsCell (cell_word words.now.key.sizes cell) seat.old.me result seat.new.me }
{
    words.load::<OnRead>(seat, cell_word(participants, cell))
}

/// Loads the cell under the participant's open guard, for `participants` of them. If it names an item, the
/// participant's parts of that are taken out of their home, unless they are leased already.
pub(crate) fn load<T, H: Holding<T>>(
    words: &Words<T, H>,
    seat: &mut Seat<T>,
    participants: usize,
    cell: usize,
) -> u64
    requires table { FitsCell words.now.table_id words.now.key.sizes seat.old.table_id participants cell }
    requires open { (seat.old.me.0.kind ≡ of_participant) × (is_inside seat.old.me.0.known ≡ true) }
    ensures seat { (seat.new.table_id ≡ seat.old.table_id) × (seat.new.id ≡ seat.old.id) }
    ensures loaded { LoadsCell (IsIn H.holds) (cell_word words.now.key.sizes cell) seat.old.me result seat.new.me }
{
    words.load::<OnLoad<H>>(seat, cell_word(participants, cell))
}

/// Loads the item of the owner that is first in hand, under the participant's open guard: the participant's parts of it
/// are taken out of their home, unless they are leased already.
pub(crate) fn load_own<T, H: Holding<T>>(words: &Words<T, H>, seat: &mut Seat<T>)
    requires table { (seat.old.table_id ≡ words.now.table_id) × (0 < words.now.table_id.words) }
    requires open { (seat.old.me.0.kind ≡ of_participant) × (is_inside seat.old.me.0.known ≡ true) }
    requires owner { (o : Owner) × (os : List Owner) × (seat.old.me.0.hand ≡ o ∷ os) }
    ensures seat { (seat.new.table_id ≡ seat.old.table_id) × (seat.new.id ≡ seat.old.id) }
    ensures loaded { LeasesFirst (IsIn H.holds) seat.old.me seat.new.me }
{
    // A home comes out only in a step on a word, and this step needs none: the count is read, and its value isn't used.
    // The home has the round of the owner, which the proof gets here.
    let _ = words.load::<OnLoadOwn<H>>(seat, 0);
}

/// Swaps the cell for the owner that the participant brings, or for none, as `word` says, for `participants` of them.
/// In the same step the owner's part is put into the cell, in the participant's spare slot, and the cell's spare slot
/// is taken out with the part of the owner that the cell had: that is in hand now, if there was one.
pub fn swap<T, H: Holding<T>>(
    words: &Words<T, H>,
    seat: &mut Seat<T>,
    participants: usize,
    cell: usize,
    word: u64,
) -> u64
    requires table { FitsCell words.now.table_id words.now.key.sizes seat.old.table_id participants cell }
    requires ready { CanStep seat.old.me.0 }
    requires brings { (new : Option Owner) × (os : List Owner) × (tail : List (ℕ × Home T)) × Brings (IsIn H.holds) seat.old.me new os word tail }
    ensures seat { (seat.new.table_id ≡ seat.old.table_id) × (seat.new.id ≡ seat.old.id) }
    ensures swapped { Exchanges (IsIn H.holds) (cell_word words.now.key.sizes cell) seat.old.me word result seat.new.me }
{
    words.swap::<OnSwap<H>>(seat, cell_word(participants, cell), word)
}

/// Swaps the cell as `swap` does where its word is `expected`, and else loads it as `load` does, in one step either way.
pub fn compare_exchange<T, H: Holding<T>>(
    words: &Words<T, H>,
    seat: &mut Seat<T>,
    participants: usize,
    cell: usize,
    expected: u64,
    word: u64,
) -> u64
    requires table { FitsCell words.now.table_id words.now.key.sizes seat.old.table_id participants cell }
    requires ready { CanStepInside seat.old.me.0 }
    requires brings { (new : Option Owner) × (os : List Owner) × (tail : List (ℕ × Home T)) × Brings (IsIn H.holds) seat.old.me new os word tail }
    ensures seat { (seat.new.table_id ≡ seat.old.table_id) × (seat.new.id ≡ seat.old.id) }
    ensures hit { result ≡ expected → Exchanges (IsIn H.holds) (cell_word words.now.key.sizes cell) seat.old.me word result seat.new.me }
    ensures miss { result ≢ expected → LoadsCell (IsIn H.holds) (cell_word words.now.key.sizes cell) seat.old.me result seat.new.me }
{
    words.compare_exchange::<OnExchange<H>>(seat, cell_word(participants, cell), expected, word)
}

/// Exchanges the word of the cell for one with another tag, where it is `expected`. Whether it was; the cell's item stays.
pub fn change_tag<T, H: Holding<T>>(
    words: &Words<T, H>,
    seat: &mut Seat<T>,
    participants: usize,
    cell: usize,
    expected: u64,
    word: u64,
) -> bool
    requires table { FitsCell words.now.table_id words.now.key.sizes seat.old.table_id participants cell }
    requires acts { seat.old.me.0.kind ≡ of_participant }
    requires alike { AreAlike expected word }
    ensures seat { (seat.new.table_id ≡ seat.old.table_id) × (seat.new.id ≡ seat.old.id) }
    ensures set { IsTrue result → seat.new.me ≡ with_step (cell_word words.now.key.sizes cell) expected word seat.old.me }
    ensures kept { IsFalse result → (w : ℕ) × (seat.new.me ≡ with_step (cell_word words.now.key.sizes cell) w w seat.old.me) }
{
    words.compare_exchange::<OnTag>(seat, cell_word(participants, cell), expected, word) == expected
}

/// Tries once to make one more owner of the item that is leased in `slot`, which has `owners` of them. The owner is in hand,
/// with one of the parts of the lease. Whether nobody was faster.
pub(crate) fn clone_owner<T, H: Holding<T>>(
    place: Place<T, H>,
    seat: &mut Seat<T>,
    slot: usize,
    owners: u64,
) -> bool
    requires table { FitsFree place seat.old slot }
    requires ready { (seat.old.me.0.kind ≡ of_participant) × (is_ready seat.old.me.0.known ≡ true) }
    requires leased { (l : Lease) × Has seat.old.me.0.leases l × (l.slot ≡ slot) × (0 < l.count) }
    requires counted { (0 < owners) × (owners < 2 ^ 32 - 1) }
    ensures seat { (seat.new.table_id ≡ seat.old.table_id) × (seat.new.id ≡ seat.old.id) }
    ensures cloned { IsTrue result → ClonesAt slot seat.old.me seat.new.me }
    ensures refused { IsFalse result → seat.new.me ≡ seat.old.me }
    ensures alike { (l : Lease) → Has seat.old.me.0.leases l → l.slot ≡ slot → Apart seat.old.me.0.leases × IsAlike l seat.old.me.0 }
{
    let Place { words, sizes } = place;
    let word = owners_word(sizes, slot);
    let found = NO_OWNER + owners;
    words.compare_exchange::<OnClone>(seat, word, found, ONE_OWNER + owners) == found
}

/// Begins the release of the owner that is first in hand where its item isn't leased: the participant's home of it comes
/// out.
pub(crate) fn begin_release<T, H: Holding<T>>(words: &Words<T, H>, seat: &mut Seat<T>)
    requires table { (seat.old.table_id ≡ words.now.table_id) × (0 < words.now.table_id.words) }
    requires ready { (seat.old.me.0.kind ≡ of_participant) × (seat.old.me.0.releasing ≡ 0) }
    requires owner { (o : Owner) × (os : List Owner) × (seat.old.me.0.hand ≡ o ∷ os) × ¬ Lends seat.old.me.0.leases o.slot }
    ensures seat { (seat.new.table_id ≡ seat.old.table_id) × (seat.new.id ≡ seat.old.id) }
    ensures begun { (o : Owner) (os : List Owner) → seat.old.me.0.hand ≡ o ∷ os → HasBegun (IsIn H.holds) seat.old.me o seat.new.me }
{
    // The value isn't used: the home comes out in this step, and nobody else has it until it is put back.
    let _ = words.load::<OnBegin<H>>(seat, 0);
}

/// Gives the home back that `begin_release` took out, which is in front of what is out with the seat, with all parts of
/// its lease. The owners in hand stay.
pub(crate) fn keep_home<T, H: Holding<T>>(words: &Words<T, H>, seat: &mut Seat<T>)
    requires table { (seat.old.table_id ≡ words.now.table_id) × (0 < words.now.table_id.words) }
    requires out { CanKeepHome (IsIn H.holds) seat.old.me }
    ensures seat { (seat.new.table_id ≡ seat.old.table_id) × (seat.new.id ≡ seat.old.id) }
    ensures kept { KeepsLease (IsIn H.holds) seat.old.me seat.new.me }
{
    // The value isn't used: the home goes back in this step, with all parts of its lease.
    let _ = words.load::<OnKeep<H>>(seat, 0);
}

/// Releases the owner that is first in hand, of the item that is leased in `slot`: its part is joined to the lease. Answers
/// how many owners are left. The last release retires the item or puts it into a private bag, as `A` says, in the same
/// step.
pub(crate) fn release_owner<T, H: Holding<T>, A: Aim>(
    place: Place<T, H>,
    seat: &mut Seat<T>,
    slot: usize,
) -> u64
    requires table { HasSlotWord place seat.old slot }
    requires ready { CanStep seat.old.me.0 }
    requires may { MayNote (A.to seat.old.me.0.known) seat.old.me.0.known }
    requires owner { IsFirstLeased slot seat.old.me.0 }
    ensures seat { (seat.new.table_id ≡ seat.old.table_id) × (seat.new.id ≡ seat.old.id) }
    ensures few { HasFew seat.old.me.0 }
    ensures released { ReleasesOne A.to seat.old.me (result + 3) seat.new.me }
{
    let Place { words, sizes } = place;
    words.fetch_sub::<OnRelease<A>>(seat, owners_word(sizes, slot), 1) - ONE_OWNER
}

/// Ends the release that `begin_release` began, of the owner that is first in hand and whose item is in `slot`: the
/// participant's home of the item is in front of what is out with the seat, the owner's part joined to its parts, and is
/// put back in the same step. Answers how many owners are left. The last release
/// retires the item or puts it into a private bag, as `A` says, in that step too.
pub(crate) fn end_release<T, H: Holding<T>, A: Aim>(
    place: Place<T, H>,
    seat: &mut Seat<T>,
    slot: usize,
) -> u64
    requires table { HasSlotWord place seat.old slot }
    requires ready { (seat.old.me.0.kind ≡ of_participant) × (is_ready seat.old.me.0.known ≡ true) }
    requires may { MayNote (A.to seat.old.me.0.known) seat.old.me.0.known }
    requires begun { CanEndAt (IsIn H.holds) slot seat.old.me }
    ensures seat { (seat.new.table_id ≡ seat.old.table_id) × (seat.new.id ≡ seat.old.id) }
    ensures room { HasRoom seat.old.me.0 }
    ensures ended { EndsRelease (IsIn H.holds) A.to seat.old.me (result + 3) seat.new.me }
{
    let Place { words, sizes } = place;
    words.fetch_sub::<OnEndRelease<H, A>>(seat, owners_word(sizes, slot), 1) - ONE_OWNER
}

/// Closes the guard of participant `number`. All that was leased is returned to its home in the same step: its slots are in front
/// of what is out with the seat, in the order of the leases, each with its parts again.
pub fn close<T, H: Holding<T>>(words: &Words<T, H>, seat: &mut Seat<T>, number: usize, epoch: u64)
    requires table { (seat.old.table_id ≡ words.now.table_id) × (number < 2 ^ 30) × (claim_word number < words.now.table_id.words) }
    requires open { Scans seat.old number epoch 0 }
    requires filled { CanClose (IsIn H.holds) seat.old.me }
    ensures seat { (seat.new.table_id ≡ seat.old.table_id) × (seat.new.id ≡ seat.old.id) }
    ensures closed { seat.new.me ≡ (ending seat.old.me.0, drop (length seat.old.me.0.leases) seat.old.me.1) }
{
    words.store::<OnEndAll>(seat, STRIDE * number + STATE, 0);
}
