//! The single steps of a participant on the words of a place: each is one operation on one word.

ghost use Rattle.std.specs.Prelude.{◌≡◌, ◌≢◌, ℕ, ◌+◌, ◌-◌, ◌*◌, ◌^◌, ◌<◌, ◌≤◌, true, [], List, IsTrue, IsFalse, IfSome, IfNone, MatchBool};
ghost use Rattle.atomic_table.specs.Table.{rest};
ghost use Rattle.sdd_steps.specs.State.{Has};
ghost use Rattle.sdd_steps.specs.declared.participant.Phase.TheVariants.{Idle, Opened};
ghost use Rattle.domain_table.specs.Fitting.{HasEpochOf, HasClaimOf, HasWords, HasWordsOf};
ghost use Rattle.domain_table.specs.Contents.{IsIn, Announces};
ghost use Rattle.domain_table.specs.Outcomes.{HasPublished, HasLookedAtAll};
ghost use Rattle.domain_table.specs.Views.{of_nobody, of_participant, IsBare, spent, reading, looking};
ghost use Rattle.domain_table.specs.Layout.{lock_word, claim_word, shown};
ghost use Rattle.domain_table.specs.Plays.{read_then, publish_then, count_then, look_then, agree_then, raise_then, lock_then, unlock_then, sit_then, HasRegistered, HasSpare, claim_then, learn_then, end_then, Steady, Scans, with_known};
ghost use Rattle.domain_table.specs.declared.board.Home.{Home};
ghost use Rattle.domain_table.specs.Readiness.{CanLookAt, CanPublish, HasLeft};
ghost use Rattle.domain_table.specs.Scanning.{ScansOn, ScansUnderLock};

use crate::board::{Acting, Home, Place, Seat, Words};
use crate::holding::Holding;
use crate::homes::let_go;
use crate::layout::{CLAIM, COUNT, LOCK, STATE, STILL, STRIDE};
use crate::left::Looks;
use atomic_table::Play;
use sdd_plain::sizes::Sizes;
use std::marker::PhantomData;

struct OnRead;

impl<T> Play<Home<T>, Acting> for OnRead {
    ghost then = { read_then };
}

struct OnPublish;

impl<T> Play<Home<T>, Acting> for OnPublish {
    ghost then = { publish_then };
}

struct OnCount;

impl<T> Play<Home<T>, Acting> for OnCount {
    ghost then = { count_then };
}

struct OnLook;

impl<T> Play<Home<T>, Acting> for OnLook {
    ghost then = { look_then };
}

struct OnAgree;

impl<T> Play<Home<T>, Acting> for OnAgree {
    ghost then = { agree_then };
}

struct OnRaise;

impl<T> Play<Home<T>, Acting> for OnRaise {
    ghost then = { raise_then };
}

struct OnLock;

impl<T> Play<Home<T>, Acting> for OnLock {
    ghost then = { lock_then };
}

struct OnUnlock;

impl<T> Play<Home<T>, Acting> for OnUnlock {
    ghost then = { unlock_then };
}

struct OnSit;

impl<T> Play<Home<T>, Acting> for OnSit {
    ghost then = { sit_then };
}

struct OnClaim<H>(PhantomData<H>);

impl<T, H: Holding<T>> Play<Home<T>, Acting> for OnClaim<H> {
    ghost then = { claim_then (IsIn H.holds) };
}

struct OnLearn;

impl<T> Play<Home<T>, Acting> for OnLearn {
    ghost then = { learn_then Announces };
}

struct OnEnd;

impl<T> Play<Home<T>, Acting> for OnEnd {
    ghost then = { end_then };
}

/// The word of an open guard that published the count `epoch`.
fn word_of(epoch: u64) -> u64
    ensures { result ≡ shown (Opened epoch) }
{
    if epoch == u64::MAX { epoch } else { epoch + 1 }
}

/// A new seat, which acts for nobody.
pub fn sit<T, H: Holding<T>>(words: &Words<T, H>) -> Seat<T>
    requires { 0 < words.now.table_id.words }
    ensures { (result.table_id ≡ words.now.table_id) × (result.me.0 ≡ spent) × (result.me.1 ≡ []) }
{
    let (_, seat) = words.load_new_seat::<OnSit>(COUNT);
    seat
}

/// Tries once to act for participant `number`. If nobody did, its spare slot is taken out, empty, and its number is returned.
pub fn claim<T, H: Holding<T>>(
    words: &Words<T, H>,
    seat: &mut Seat<T>,
    number: usize,
) -> Option<u64>
    requires table { HasClaimOf words.now.table_id words.now.key.sizes seat.old.table_id number }
    requires nobody { (seat.old.me.0.kind ≡ of_nobody) × IsBare seat.old.me.0 }
    ensures seat { (seat.new.table_id ≡ seat.old.table_id) × (seat.new.id ≡ seat.old.id) }
    ensures claimed { IfSome result (λ y. (y < 2 ^ 31) × HasRegistered (IsIn H.holds) seat.old.me number y seat.new.me) }
    ensures refused { IfNone result (seat.new.me ≡ seat.old.me) }
{
    let found = words.swap::<OnClaim<H>>(seat, STRIDE * number + CLAIM, 0);
    if found == 0 { None } else { Some(found - 1) }
}

/// Notes at the seat that the place has the sizes `sizes`. No word changes.
pub fn learn<T, H: Holding<T>>(words: &Words<T, H>, seat: &mut Seat<T>, sizes: Sizes)
    requires table { (seat.old.table_id ≡ words.now.table_id) × (1 < words.now.table_id.words) × (sizes ≡ words.now.key.sizes) }
    requires acts { seat.old.me.0.kind ≡ of_participant }
    ensures seat { (seat.new.table_id ≡ seat.old.table_id) × (seat.new.id ≡ seat.old.id) × (seat.new.me ≡ seat.old.me) }
    ensures learned { seat.new.me.0.sizes ≡ sizes }
{
    let said = Home::Announced(sizes);
    // A word that is always 0 stays so: the step is made for what is said in it, from which the seat knows the sizes.
    words.compare_exchange_with::<OnLearn>(seat, STILL, 0, 0, &said);
    let_go(said);
}

/// Whether somebody acts for participant `number`.
fn is_claimed<T, H: Holding<T>>(words: &Words<T, H>, number: usize) -> bool
    requires { HasWordsOf words.now.table_id words.now.key.sizes number }
{
    words.peek(STRIDE * number + CLAIM) == 0
}

/// Whether somebody acts for any participant.
pub fn any_claimed<T, H: Holding<T>>(place: Place<T, H>) -> bool
    requires { HasWords place }
{
    for number in 0..place.sizes.participants {
        if is_claimed(place.words, number) {
            return true;
        }
    }
    false
}

/// Ends what the seat does for participant `number`, which has left what it retired, and which somebody else may act for
/// from now on. Its spare slot, which is in front of what is out with the seat, is put back empty.
pub fn end<T, H: Holding<T>>(words: &Words<T, H>, seat: &mut Seat<T>, number: usize, spare: u64)
    requires table { (seat.old.table_id ≡ words.now.table_id) × (number < 2 ^ 30) × (claim_word number < words.now.table_id.words) }
    requires rests { HasLeft number seat.old.me.0 }
    requires gone { seat.old.me.0.waits ≡ [] }
    requires spare { (seat.old.me.0.spare ≡ spare) × (spare < 2 ^ 31) × ((tail : List (ℕ × Home T)) × HasSpare (IsIn H.holds) seat.old.me tail) }
    ensures { (seat.new.table_id ≡ seat.old.table_id) × (seat.new.id ≡ seat.old.id) × (seat.new.me ≡ (spent, rest seat.old.me.1)) }
{
    words.store::<OnEnd>(seat, STRIDE * number + CLAIM, spare + 1);
}

/// Reads the count of raises, for an opening.
pub fn read_count<T, H: Holding<T>>(words: &Words<T, H>, seat: &mut Seat<T>) -> u64
    requires table { (seat.old.table_id ≡ words.now.table_id) × (0 < words.now.table_id.words) }
    requires closed { (seat.old.me.0.kind ≡ of_participant) × (seat.old.me.0.known.phase ≡ Idle) × (seat.old.me.0.scan ≡ 0) }
    ensures { (seat.new.table_id ≡ seat.old.table_id) × (seat.new.id ≡ seat.old.id) × (seat.new.me ≡ with_known (reading result seat.old.me.0.known) seat.old.me) }
{
    words.load::<OnRead>(seat, COUNT)
}

/// Publishes the count that was read, and with it does the rotation that is due.
pub fn publish<T, H: Holding<T>>(words: &Words<T, H>, seat: &mut Seat<T>, number: usize, epoch: u64)
    requires table { (seat.old.table_id ≡ words.now.table_id) × (number < 2 ^ 30) × (claim_word number < words.now.table_id.words) }
    requires read { CanPublish number epoch seat.old.me.0 }
    ensures seat { (seat.new.table_id ≡ seat.old.table_id) × (seat.new.id ≡ seat.old.id) }
    ensures published { HasPublished epoch seat.old.me seat.new.me }
{
    words.store::<OnPublish>(seat, STRIDE * number + STATE, word_of(epoch));
}

/// Reads the count of raises under an open guard.
pub fn count_under<T, H: Holding<T>>(words: &Words<T, H>, seat: &mut Seat<T>, epoch: u64) -> u64
    requires table { (seat.old.table_id ≡ words.now.table_id) × (0 < words.now.table_id.words) }
    requires open { (seat.old.me.0.kind ≡ of_participant) × (seat.old.me.0.known.phase ≡ Opened epoch) }
    ensures seat { (seat.new.table_id ≡ seat.old.table_id) × (seat.new.id ≡ seat.old.id) × (seat.new.me ≡ seat.old.me) }
    ensures least { seat.old.me.0.born ≤ result }
    ensures most { result ≤ seat.old.me.0.born + 1 }
{
    words.load::<OnCount>(seat, COUNT)
}

/// That the scan lock was tried for once, and whether it was free. Only `take_lock` makes one.
#[derive(Drop)]
pub struct Tried {
    got: bool,
}

impl Tried {
    /// Whether the lock was free, and is the participant's now.
    pub(crate) fn got(&self) -> bool
        ensures { result ≡ self.now.got }
    {
        self.got
    }
}

/// Tries once for the scan lock.
pub(crate) fn take_lock<T, H: Holding<T>>(
    words: &Words<T, H>,
    seat: &mut Seat<T>,
    number: usize,
    epoch: u64,
) -> Tried
    requires { (seat.old.table_id ≡ words.now.table_id) × (lock_word < words.now.table_id.words) × Scans seat.old number epoch 0 }
    ensures seat { (seat.new.table_id ≡ seat.old.table_id) × (seat.new.id ≡ seat.old.id) × Steady seat.old.me seat.new.me }
    ensures stage { MatchBool result.got (Scans seat.new number epoch 1) (Scans seat.new number epoch 0) }
{
    let found = words.compare_exchange::<OnLock>(seat, LOCK, 0, 1);
    Tried { got: found == 0 }
}

/// Whether the count is still the published one, under the scan lock.
pub(crate) fn is_present<T, H: Holding<T>>(
    words: &Words<T, H>,
    seat: &mut Seat<T>,
    number: usize,
    epoch: u64,
) -> bool
    requires { (seat.old.table_id ≡ words.now.table_id) × (0 < words.now.table_id.words) × Scans seat.old number epoch 1 }
    ensures seat { (seat.new.table_id ≡ seat.old.table_id) × (seat.new.id ≡ seat.old.id) × Steady seat.old.me seat.new.me }
    ensures stage { MatchBool result (Scans seat.new number epoch 2) (Scans seat.new number epoch 1) }
{
    words.load::<OnAgree>(seat, COUNT) == epoch
}

/// Gives the scan lock back. Condition: what ended participants left was looked for at each number.
pub(crate) fn give_lock<T, H: Holding<T>>(
    words: &Words<T, H>,
    seat: &mut Seat<T>,
    number: usize,
    epoch: u64,
    looks: Looks,
)
    requires lock { (seat.old.table_id ≡ words.now.table_id) × (lock_word < words.now.table_id.words) × ScansUnderLock seat.old number epoch }
    requires looked { HasLookedAtAll words.now.key.sizes.participants looks }
    ensures { ScansOn seat.old seat.new number epoch 0 }
{
    drop(looks);
    words.store::<OnUnlock>(seat, LOCK, 0);
}

/// Whether the other is closed or has published the same count. It is asked under the scan lock, while the count is
/// the published one.
fn look_at<T, H: Holding<T>>(
    words: &Words<T, H>,
    seat: &mut Seat<T>,
    other: usize,
    epoch: u64,
) -> bool
    requires table { HasEpochOf words.now.table_id words.now.key.sizes seat.old.table_id other }
    requires open { CanLookAt other epoch seat.old.me.0 }
    requires below { epoch < 2 ^ 64 - 1 }
    ensures seat { (seat.new.table_id ≡ seat.old.table_id) × (seat.new.id ≡ seat.old.id) }
    ensures noted { IsTrue result → seat.new.me ≡ with_known (looking other seat.old.me.0.known) seat.old.me }
    ensures not_noted { IsFalse result → seat.new.me ≡ seat.old.me }
{
    let found = words.load::<OnLook>(seat, STRIDE * other + STATE);
    found == 0 || found == epoch + 1
}

/// The same, for what a scan needs of it: who was looked at before stays so.
pub(crate) fn look<T, H: Holding<T>>(
    words: &Words<T, H>,
    seat: &mut Seat<T>,
    number: usize,
    other: usize,
    epoch: u64,
) -> bool
    requires table { HasEpochOf words.now.table_id words.now.key.sizes seat.old.table_id other }
    requires open { Scans seat.old number epoch 2 × (number ≢ other) }
    requires below { epoch < 2 ^ 64 - 1 }
    ensures seat { ScansOn seat.old seat.new number epoch 2 }
    ensures noted { IsTrue result → Has seat.new.me.0.known.looked other }
    ensures more { (q : ℕ) → Has seat.old.me.0.known.looked q → Has seat.new.me.0.known.looked q }
{
    if look_at(words, seat, other, epoch) {
        true
    } else {
        false
    }
}

/// Raises the count by one, where everybody else was looked at.
pub(crate) fn raise<T, H: Holding<T>>(
    words: &Words<T, H>,
    seat: &mut Seat<T>,
    number: usize,
    epoch: u64,
)
    requires table { (seat.old.table_id ≡ words.now.table_id) × (0 < words.now.table_id.words) }
    requires open { Scans seat.old number epoch 2 }
    requires all { (q : ℕ) → q < words.now.key.sizes.participants → q ≢ number → Has seat.old.me.0.known.looked q }
    requires below { epoch < 2 ^ 64 - 1 }
    ensures { ScansOn seat.old seat.new number epoch 1 }
{
    words.store::<OnRaise>(seat, COUNT, epoch + 1);
}
