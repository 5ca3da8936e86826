//! Walks along the containers of a `World`.

ghost use Rattle.std.specs.Prelude.{◌≡◌};
ghost use Rattle.std.specs.Option.{option_copied};
ghost use Rattle.sdd_lists.specs.Chain.{Hangs, undeleted};
ghost use Rattle.sdd_lists.specs.Entries.{entry_link};
ghost use Rattle.world_containers.specs.Iters.{iter_cell, first_value, Moves, OfRest};

use crate::iter::Iter;
use crate::linked_entry::LinkedEntry;
use sdd_lists::world::chain;
use sdd_world::job::Deferred;
use sdd_world::link::Link;
use sdd_world::world::World;

/// The value of the next entry that isn't deleted, or none at the end. Condition: what is left of the list hangs where
/// the walk is, as `iter` and every call of `next` leave it, while nothing else changes the list.
pub fn next<'w, T, J: Deferred>(
    w: &'w World<LinkedEntry<T>, J>,
    iter: &mut Iter<T>,
) -> Option<&'w T>
    requires { Hangs entry_link w.now (iter_cell iter.old) }
    ensures gives { OfRest w.now iter.old (λ es. option_copied result ≡ first_value (undeleted es)) }
    ensures moves { OfRest w.now iter.old (Moves w.now (iter_cell iter.new)) }
    ensures hangs { Hangs entry_link w.now (iter_cell iter.new) }
{
    let at = Link::of(chain::skip_from(w, iter.at.cell()));
    match chain::first(w, at.cell()) {
        None => {
            iter.at = at;
            None
        }
        Some(front) => {
            iter.at = Link::of(front.link);
            Some(front.item.as_ref())
        }
    }
}
