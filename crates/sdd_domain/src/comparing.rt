//! One try to exchange what a cell owns, where it names what was loaded from it.

ghost use Rattle.std.specs.Prelude.{◌≡◌, ℕ, ◌*◌, ◌^◌, ◌<◌, ◌∷◌, [], ◌↔◌, IsTrue, IsFalse, IfSome, IfOk, IfErr};
ghost use Rattle.std.specs.Option.{ForSome};
ghost use Rattle.std.specs.VecDeque.{deque_len};
ghost use Rattle.sdd_domain.specs.Comparing.{owner_code, owner_slot, code_of, IsBack, IsTrueOfPtr};
ghost use Rattle.domain_table.specs.Layout.{packed, NamesWith};
ghost use Rattle.domain_table.specs.Leases.{HasCode, IsLifeOf};
ghost use Rattle.sdd_plain.specs.Epochs.{tag_number};
ghost use Rattle.sdd_domain.specs.Pointers.{ptr_slot, ptr_tag, loaded_slot, named_slot, named_tag};
ghost use Rattle.sdd_domain.specs.Sharing.{kept_in};
ghost use Rattle.sdd_domain.specs.CellSteps.{HasMade, HasReadCell, HasStored, HasExchanged, step_on};
ghost use Rattle.sdd_domain.specs.Tokens.{place_of, home_of, number_of, own_of, cell_count, nest_in, IsUnchanged};

use crate::domain::Domain;
use crate::holds::Holds;
use crate::local::Local;
use crate::pointer::{Loaded, Named, Ptr};
use crate::shared::Shared;
use crate::swapping::{bring, take_back};
use domain_table::cells;
use domain_table::leases::seen_at;
use domain_table::loading::{note_found, slot_named};
use domain_table::row::Row;
use domain_table::tags::{has_tag, tag_in, with_tag};
use sdd_plain::tag::Tag;
use std::collections::VecDeque;

/// Whether a cell's word names the item in this slot, or nothing where that is none.
fn names_slot(word: u64, slot: Option<usize>) -> bool
    ensures { (y t c : ℕ) → y < 2 ^ 31 → t < 4 → word ≡ packed y t c → (IsTrue result ↔ c ≡ code_of slot) }
{
    slot_named(word) == slot
}

/// Whether a cell's word names the item that the pointer is to, or nothing where that is to nothing, and has its tag.
pub(crate) fn names<T>(word: u64, current: Ptr<T>) -> bool
    ensures item { (y t c : ℕ) → y < 2 ^ 31 → t < 4 → word ≡ packed y t c → IsTrue result → c ≡ code_of (ptr_slot current.entry) }
    ensures tag { (y t c : ℕ) → y < 2 ^ 31 → t < 4 → word ≡ packed y t c → IsTrue result → t ≡ tag_number (ptr_tag current.entry) }
    ensures both { IsTrueOfPtr word current.entry result }
    ensures word { IsTrue result → NamesWith word (tag_number (ptr_tag current.entry)) (code_of (ptr_slot current.entry)) }
{
    names_slot(word, current.slot) && has_tag(word, current.tag)
}

/// What a cell names that has this owner and this tag.
pub(crate) fn named_by<T>(owner: &Option<Shared<T>>, tag: Tag) -> Named
    ensures slot { named_slot result ≡ owner_slot owner.now }
    ensures tag { named_tag result ≡ tag }
{
    let slot = match owner {
        Some(owner) => Some(owner.slot),
        None => None,
    };
    Named { slot, tag }
}

/// Sets the tag of a cell, in one step, where its word is `expected`. Whether it was.
pub(crate) fn try_tag<T: Holds>(
    domain: &Domain<T>,
    cell: usize,
    expected: u64,
    tag: Tag,
    local: &mut Local<T>,
) -> bool
    requires home { home_of local.old ≡ place_of domain.now }
    requires inside { cell < cell_count domain.now }
    ensures set { (t k : ℕ) → NamesWith expected t k → IsTrue result → HasExchanged local.old cell t k (tag_number tag) k local.new }
    ensures kept { IsFalse result → (w : ℕ) × HasMade local.old (step_on local.old cell w w ∷ []) local.new }
    ensures same { IsUnchanged local.old local.new }
{
    cells::change_tag(
        domain.words(),
        &mut local.seat,
        domain.sizes.participants,
        cell,
        expected,
        with_tag(expected, tag),
    )
}

/// What the item of a row is read by, or nothing.
fn loaded_at<T: Holds>(rows: &VecDeque<Row<T>>, at: Option<usize>) -> Loaded<T>
    requires { IfSome at (λ i. i < deque_len rows.now) }
    ensures code { (k : ℕ) → HasCode rows.now.items at k → code_of (loaded_slot result) ≡ k }
    ensures under { ForSome result.seen (λ s. IsLifeOf rows.now.items s.life) }
{
    if let Some((slot, seen)) = seen_at(rows, at) {
        return Loaded {
            slot,
            seen: Some(seen),
        };
    }
    Loaded {
        slot: 0,
        seen: None,
    }
}

/// Swaps what a cell owns and its tag, in one step, where its word is `expected`, and gives the owner that it had. Else
/// that step loaded the cell under the participant's nest of guards, and the call returns the owner that was passed in, with
/// what was found and its tag.
pub(crate) fn try_exchange<T: Holds>(
    domain: &Domain<T>,
    cell: usize,
    expected: u64,
    new: (Option<Shared<T>>, Tag),
    local: &mut Local<T>,
) -> Result<Option<Shared<T>>, (Option<Shared<T>>, Loaded<T>, Tag)>
    requires home { home_of local.old ≡ place_of domain.now }
    requires open { 0 < (own_of local.old).nesting }
    requires inside { cell < cell_count domain.now }
    requires mine { IfSome new.0 (λ s. kept_in s ≡ (place_of domain.now).0) }
    ensures home { IfOk result (λ old. IfSome old (λ s. kept_in s ≡ (place_of domain.now).0)) }
    ensures exchanged { IfOk result (λ _. HasStored local.old cell expected (tag_number new.1) (owner_code new.0) local.new) }
    ensures hit { IfOk result (λ old. (y t c : ℕ) → y < 2 ^ 31 → t < 4 → expected ≡ packed y t c → owner_code old ≡ c) }
    ensures back { IfErr result (λ t. IsBack new.0 t.0) }
    ensures looked { IfErr result (λ t. HasReadCell local.old cell (tag_number t.2) (code_of (loaded_slot t.1)) local.new) }
    ensures seen { IfErr result (λ t. ForSome t.1.seen (λ s. (number_of local.old, s.life) ≡ nest_in local.old)) }
    ensures same { IsUnchanged local.old local.new }
{
    let Local {
        seat,
        number,
        spare,
        life,
        rows,
        ..
    } = local;
    let Some(life) = life else { unreachable!() };
    let place = domain.place();
    let word = bring(place, seat, *spare, new);
    let found = cells::compare_exchange(
        place.words,
        seat,
        place.sizes.participants,
        cell,
        expected,
        word,
    );
    if found == expected {
        let (free, (old, _)) = take_back(place, seat, found);
        *spare = free;
        return Ok(old);
    }
    let at = note_found(place, seat, *number, rows, life, found);
    let (free, (back, _)) = take_back(place, seat, word);
    *spare = free;
    Err((back, loaded_at(rows, at), tag_in(found)))
}
