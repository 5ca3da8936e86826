//! What a participant brings to a cell and gets back from it, in its spare slot.

ghost use Rattle.std.specs.Prelude.{◌≡◌, ℕ, ◌+◌, ◌^◌, ◌<◌, ◌∷◌, ◌%◌, List, Option, IfSome};
ghost use Rattle.atomic_table.specs.Table.{Me};
ghost use Rattle.sdd_homes.specs.declared.Owner.{Owner};
ghost use Rattle.domain_table.specs.Outcomes.{BringsOne, TakesBack};
ghost use Rattle.sdd_domain.specs.Comparing.{owner_code, IsInFront, CanSwap, SwapsOwner};
ghost use Rattle.domain_table.specs.Contents.{IsIn};
ghost use Rattle.sdd_plain.specs.Epochs.{tag_number};
ghost use Rattle.domain_table.specs.Fitting.{FitsSizes};
ghost use Rattle.domain_table.specs.Layout.{packed, cell_word};
ghost use Rattle.domain_table.specs.Plays.{own_spare, GetsBack};
ghost use Rattle.sdd_domain.specs.Sharing.{kept_in};
ghost use Rattle.domain_table.specs.declared.board.Acting.{Acting};
ghost use Rattle.domain_table.specs.declared.board.Home.{Home};
ghost use Rattle.domain_table.specs.declared.board.Home.TheVariants.{Blank};
ghost use Rattle.sdd_domain.specs.declared.shared.Shared.{Shared};
ghost use Rattle.domain_table.specs.Views.{of_participant};

use crate::board::{Place, Told};
use crate::holds::Holds;
use crate::shared::Shared;
use domain_table::board::{Home, Seat};
use domain_table::cells::swap;
use domain_table::homes::{let_go, parts_of, spare_at};
use domain_table::layout::{CODE, TAG};
use domain_table::owners::{part_with, take_in};
use domain_table::tags::{tag_in, word_with};
use parted::One;
use sdd_plain::tag::Tag;

/// Puts the part of an owner into the participant's spare slot, and the owner into its hand, or leaves both empty. The
/// word that says so in a cell, with this tag, is the answer.
pub(crate) fn bring<T: Holds>(
    place: Place<T>,
    seat: &mut Seat<T>,
    spare: u64,
    new: (Option<Shared<T>>, Tag),
) -> u64
    requires table { FitsSizes place seat.old }
    requires ready { (seat.old.me.0.kind ≡ of_participant) × (seat.old.me.0.spare ≡ spare) × (spare < 2 ^ 31) }
    requires out { (tail : List (ℕ × Home T)) × (seat.old.me.1 ≡ (own_spare seat.old.me.0 spare, Blank) ∷ tail) }
    requires mine { IfSome new.0 (λ s. kept_in s ≡ place.words.now.table_id) }
    ensures seat { (seat.new.table_id ≡ seat.old.table_id) × (seat.new.id ≡ seat.old.id) }
    ensures code { (result ≡ packed spare (tag_number new.1) (owner_code new.0)) × (tag_number new.1 < 4) }
    ensures lies { IfSome new.0 (λ s. IsInFront s seat.new.me.1) }
    ensures brings { BringsOne (IsIn T.holds) seat.old.me spare result seat.new.me }
{
    let (owner, tag) = new;
    let Some(owner) = owner else {
        return word_with(spare, tag, 0);
    };
    let Shared { slot, part, calm } = owner;
    take_in(place.words, seat, calm);
    let at = spare_at(place.sizes, spare);
    let part = Home::Part(part.into_part(), 1);
    let_go(place.words.exchange(seat, at, part));
    word_with(spare, tag, slot as u64 + 1)
}

/// Takes what a cell gave back: the number of the spare slot that is the participant's now, and the owner whose part was
/// in it, if there was one, with the cell's tag.
pub(crate) fn take_back<T: Holds>(
    place: Place<T>,
    seat: &mut Seat<T>,
    word: u64,
) -> (u64, (Option<Shared<T>>, Tag))
    requires table { FitsSizes place seat.old }
    requires ready { (seat.old.me.0.kind ≡ of_participant) × (seat.old.me.0.releasing ≡ 0) }
    requires back { (m : Me (Home T) Acting) × (os : List Owner) × (tail : List (ℕ × Home T)) × GetsBack (IsIn T.holds) m os word tail seat.old.me }
    ensures seat { (seat.new.table_id ≡ seat.old.table_id) × (seat.new.id ≡ seat.old.id) }
    ensures spare { result.0 < 2 ^ 31 }
    ensures code { (word ≡ packed result.0 (tag_number result.1.1) (owner_code result.1.0)) × (tag_number result.1.1 < 4) }
    ensures whose { (s : Shared T) → IsInFront s seat.old.me.1 → IfSome result.1.0 (λ back. back.part.part ≡ s.part.part) }
    ensures back { TakesBack (IsIn T.holds) word seat.old.me result.0 seat.new.me }
    ensures mine { IfSome result.1.0 (λ s. kept_in s ≡ place.entry.words.now.table_id) }
{
    let spare = word % TAG;
    let tag = tag_in(word);
    let code = word / CODE;
    if code == 0 {
        return (spare, (None, tag));
    }
    let at = spare_at(place.sizes, spare);
    let (part, _) = parts_of::<T, Told>(place.words.exchange(seat, at, Home::Blank));
    let calm = part_with(place.words, seat);
    let owner = Shared {
        slot: code as usize - 1,
        part: One::from_part(part),
        calm,
    };
    (spare, (Some(owner), tag))
}

/// Swaps what a cell owns and its tag, in one step. The number of the participant's spare slot is another one then.
pub(crate) fn swap_owner<T: Holds>(
    place: Place<T>,
    seat: &mut Seat<T>,
    spare: u64,
    cell: usize,
    new: (Option<Shared<T>>, Tag),
) -> (u64, (Option<Shared<T>>, Tag))
    requires table { FitsSizes place seat.old × (cell < place.sizes.now.cells) }
    requires ready { CanSwap spare seat.old.me.0 }
    requires out { (tail : List (ℕ × Home T)) × (seat.old.me.1 ≡ (own_spare seat.old.me.0 spare, Blank) ∷ tail) }
    requires mine { IfSome new.0 (λ s. kept_in s ≡ place.words.now.table_id) }
    ensures seat { (seat.new.table_id ≡ seat.old.table_id) × (seat.new.id ≡ seat.old.id) }
    ensures spare { result.0 < 2 ^ 31 }
    ensures swapped { SwapsOwner (cell_word place.entry.sizes.now cell) seat.old.me spare result.0 result.1 new seat.new.me }
    ensures few { (tag_number result.1.1 < 4) × (tag_number new.1 < 4) }
    ensures mine { IfSome result.1.0 (λ s. kept_in s ≡ place.entry.words.now.table_id) }
{
    let word = bring(place, seat, spare, new);
    let found = swap(place.words, seat, place.sizes.participants, cell, word);
    take_back(place, seat, found)
}
