//! Owners on their way into an item that holds many, and out of it.

ghost use Rattle.std.specs.Prelude.{◌≡◌, ◌+◌, ◌<◌, [], IfSome, IfNone, vec_len, vec_capacity};
ghost use Rattle.sdd_domain.specs.Holding.{all_told, IsLast};
ghost use Rattle.sdd_domain.specs.Sharing.{kept_in, IsHeldAs, IsOwnedAs};
ghost use Rattle.sdd_domain.specs.CellSteps.{StepsOnNoCell};
ghost use Rattle.sdd_domain.specs.Tokens.{place_of, home_of, hand_of, IsSameButHand};

use crate::domain::Domain;
use crate::held::Held;
use crate::holds::Holds;
use crate::local::Local;
use crate::shared::Shared;

/// Takes an owner into the participant's hand, and puts it behind those of an item to be placed. Conditions: these are
/// all that are in its hand, and there is room for one more.
pub fn hold_last<T: Holds>(
    domain: &Domain<T>,
    held: &mut Vec<Held<T>>,
    owner: Shared<T>,
    local: &mut Local<T>,
)
    requires home { home_of local.old ≡ place_of domain.now }
    requires mine { kept_in owner ≡ (place_of domain.now).0 }
    requires hand { hand_of local.old ≡ all_told held.old.items }
    requires room { vec_len held.old < vec_capacity held.old }
    ensures hand { hand_of local.new ≡ all_told held.new.items }
    ensures room { vec_capacity held.new ≡ vec_capacity held.old }
    ensures more { vec_len held.new ≡ vec_len held.old + 1 }
    ensures last { IsLast held.old.items (IsHeldAs owner) held.new.items }
    ensures same { IsSameButHand local.old local.new }
    ensures cells { StepsOnNoCell local.old local.new }
{
    held.push_reserved(owner.hold(domain, local));
}

/// Takes the last one out again, if there is one: it has a seat of its own then.
pub fn own_last<T: Holds>(
    domain: &Domain<T>,
    held: &mut Vec<Held<T>>,
    local: &mut Local<T>,
) -> Option<Shared<T>>
    requires home { home_of local.old ≡ place_of domain.now }
    requires hand { hand_of local.old ≡ all_told held.old.items }
    ensures home { IfSome result (λ s. kept_in s ≡ (place_of domain.now).0) }
    ensures none { IfNone result (held.new.items ≡ []) }
    ensures last { IfSome result (λ s. IsLast held.new.items (IsOwnedAs s) held.old.items) }
    ensures hand { hand_of local.new ≡ all_told held.new.items }
    ensures same { IsSameButHand local.old local.new }
    ensures cells { StepsOnNoCell local.old local.new }
{
    Some(held.pop()?.own(domain, local))
}
