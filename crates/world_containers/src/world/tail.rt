//! The end of a list whose last entry is kept by a second cell.

ghost use Rattle.std.specs.Prelude.{◌≡◌, ◌<◌, Some, None, Option, ℕ, length};
ghost use Rattle.sdd_world.specs.State.{cell_at};
ghost use Rattle.sdd_world.specs.Frame.{OnlyParticipant};
ghost use Rattle.sdd_world.specs.Place.{IsShared, IsSharedCell};
ghost use Rattle.sdd_world.specs.Tokens.{shared_cell, shared_slot};
ghost use Rattle.sdd_lists.specs.Chain.{Stays};
ghost use Rattle.world_containers.specs.Queues.{CanFollow, HasTwo, cell_vacated};
ghost use Rattle.world_containers.specs.Calls.{AppendsLast, ClearsNewest};

use crate::linked_list::LinkedList;
use sdd_lists::world::chain;
use sdd_world::cell::AtomicShared;
use sdd_world::job::Deferred;
use sdd_world::owner::Shared;
use sdd_world::status::Cell;
use sdd_world::tag::Tag;
use sdd_world::world::{World, atomic_shared, shared};

/// Puts an entry behind the last one: `link` is put into the list, and `last` is set to the cell of the newest.
pub(crate) fn append<L: LinkedList, J: Deferred>(
    w: &mut World<L, J>,
    oldest: &AtomicShared<L>,
    newest: &AtomicShared<L>,
    link: Shared<L>,
    last: Shared<L>,
)
    requires participant { 0 < length w.old.participants }
    requires queue { CanFollow L.link w.old (shared_cell oldest.now) (shared_cell newest.now) (shared_slot link) }
    requires last { shared_slot last ≡ shared_slot link }
    requires two { HasTwo w.old (shared_slot link) }
    ensures appended { AppendsLast L.link w.old w.new oldest.now newest.now (shared_slot link) }
    ensures only { OnlyParticipant 0 w.old w.new }
    ensures stays { Stays w.old w.new }
{
    let (previous, _tag) = atomic_shared::swap(w, newest, (Some(last), Tag::None));
    match previous {
        None => chain::put_first(w, oldest, link),
        Some(previous) => {
            let tail = chain::link_of(w, &previous);
            chain::put_first(w, tail.cell(), link);
            // The list owns it still, so that nothing is retired.
            shared::release(w, previous, 0);
        }
    }
}

/// Empties the cell of the newest entry.
pub(crate) fn forget<L, J: Deferred>(w: &mut World<L, J>, newest: &AtomicShared<L>, p: usize)
    requires participant { p < length w.old.participants }
    requires newest { (o : Option ℕ) × (cell_at w.old (shared_cell newest.now) ≡ Cell.OfShared o Tag.None) }
    requires last { (i : ℕ) → cell_at w.old (shared_cell newest.now) ≡ Cell.OfShared (Some i) Tag.None → IsShared w.old i }
    ensures forgot { (o : Option ℕ) → cell_at w.old (shared_cell newest.now) ≡ Cell.OfShared o Tag.None → w.new ≡ cell_vacated p (shared_cell newest.now) o w.old }
    ensures only { OnlyParticipant p w.old w.new }
    ensures stays { Stays w.old w.new }
{
    match chain::take(w, newest) {
        None => {}
        Some(last) => {
            shared::release(w, last, p);
        }
    }
}

/// Empties the cell of the newest entry where the list is empty.
pub(crate) fn settle<L, J: Deferred>(
    w: &mut World<L, J>,
    oldest: &AtomicShared<L>,
    newest: &AtomicShared<L>,
    p: usize,
)
    requires participant { p < length w.old.participants }
    requires oldest { IsSharedCell w.old (shared_cell oldest.now) }
    requires newest { (o : Option ℕ) × (cell_at w.old (shared_cell newest.now) ≡ Cell.OfShared o Tag.None) }
    requires last { (i : ℕ) → cell_at w.old (shared_cell newest.now) ≡ Cell.OfShared (Some i) Tag.None → IsShared w.old i }
    ensures some { (i : ℕ) (t : Tag) → cell_at w.old (shared_cell oldest.now) ≡ Cell.OfShared (Some i) t → w.new ≡ w.old }
    ensures none { ClearsNewest p w.old w.new oldest.now newest.now }
    ensures only { OnlyParticipant p w.old w.new }
    ensures stays { Stays w.old w.new }
{
    if atomic_shared::is_null(w, oldest) {
        forget(w, newest, p);
    }
}
