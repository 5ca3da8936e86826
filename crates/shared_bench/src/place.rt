//! Participants of the place. Each call of it at its type of items is made once, since its proof is long.

ghost use Rattle.std.specs.Prelude.{◌≡◌, IfSome};
ghost use Rattle.sdd_domain.specs.Tokens.{place_of};
ghost use Rattle.shared_index.specs.SharedInvariant.{IsUnengaged};

use crate::task::Item;
use sdd_domain::domain::Domain;
use sdd_domain::local::Local;

/// A participant, if one is free.
pub fn registered(domain: &Domain<Item>) -> Option<Local<Item>>
    ensures { IfSome result (IsUnengaged (place_of domain.now)) }
{
    match domain.register() {
        Ok(local) => Some(local),
        Err(_) => None,
    }
}

/// Ends a participant.
pub fn leave(domain: &Domain<Item>, local: Local<Item>)
    requires { IsUnengaged (place_of domain.now) local }
{
    local.end(domain);
}
