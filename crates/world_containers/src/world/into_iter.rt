//! Taking a bag apart over a `World`.

ghost use Rattle.std.specs.Prelude.{◌≡◌, ◌<◌, length};
ghost use Rattle.sdd_world.specs.Frame.{OnlyParticipant};
ghost use Rattle.sdd_lists.specs.Chain.{Stays};
ghost use Rattle.world_containers.specs.Bags.{IsSomeBag, AreFreeCells, into_cells};
ghost use Rattle.world_containers.specs.Calls.{OnlyBag, OnlyLinksOf, TakesFromBag};

use crate::bag::IntoIter;
use crate::linked_entry::LinkedEntry;
use crate::world::bag;
use sdd_world::job::Deferred;
use sdd_world::owner::Shared;
use sdd_world::world::World;

/// The owner of the next entry, or none at the end, as `pop` of the bag gives it. Participant `p` gives nothing back.
pub fn next<T, J: Deferred, const ARRAY_LEN: usize>(
    w: &mut World<LinkedEntry<T>, J>,
    iter: &IntoIter<T, ARRAY_LEN>,
    p: usize,
) -> Option<Shared<LinkedEntry<T>>>
    requires { IsSomeBag ARRAY_LEN w.old (into_cells iter.now) }
    ensures popped { TakesFromBag w.old w.new iter.now.bag result }
    ensures list { IsSomeBag ARRAY_LEN w.new (into_cells iter.now) }
    ensures leaves { OnlyLinksOf w.old w.new iter.now.bag }
    ensures participants { w.new.participants ≡ w.old.participants }
    ensures stays { Stays w.old w.new }
{
    bag::pop(w, &iter.bag, p)
}

/// Ends the bag: participant `p` gives back what is left of its entries, and its cells are free.
pub fn retire<T, J: Deferred, const ARRAY_LEN: usize>(
    w: &mut World<LinkedEntry<T>, J>,
    iter: IntoIter<T, ARRAY_LEN>,
    p: usize,
)
    requires participant { p < length w.old.participants }
    requires list { IsSomeBag ARRAY_LEN w.old (into_cells iter) }
    ensures ended { AreFreeCells w.new (into_cells iter) }
    ensures leaves { OnlyBag w.old w.new iter.bag }
    ensures only { OnlyParticipant p w.old w.new }
    ensures stays { Stays w.old w.new }
{
    let IntoIter { bag } = iter;
    bag::retire(w, bag, p);
}
