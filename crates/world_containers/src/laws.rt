//! What follows from the clauses of the calls, for every state. Nothing here runs.

ghost use Rattle.world_containers.specs.Guards.{GuardsLeave};
ghost use Rattle.world_containers.specs.Owners.{SpareOwners, SpareQueueOwners, ListsStay, QueuesStay, BagsStay, ReleasesLeave};

use crate::linked_list::LinkedList;

/// An owner of an entry can be given back while there is another one: every list stays. So what `push` gives can be
/// given back at once.
pub fn spare_owners<L: LinkedList>()
    ensures { SpareOwners L.link }
{}

/// An owner of an entry can be given back while there are two others: every queue stays. So what `push` gives can be
/// given back at once.
pub fn spare_queue_owners<L: LinkedList>()
    ensures { SpareQueueOwners L.link }
{}

/// A call that changes some cells and items leaves each list that has none of them.
pub fn lists_stay<L: LinkedList>()
    ensures { ListsStay L.link }
{}

/// A call that changes some cells and items leaves each queue that has none of them.
pub fn queues_stay<L: LinkedList>()
    ensures { QueuesStay L.link }
{}

/// A call that changes some cells and items leaves each bag that has none of them. So an owner that a bag's `pop` gives
/// can be given back at once.
pub fn bags_stay<T>()
    ensures { BagsStay T }
{}

/// Giving an owner back changes no other item, and no cell.
pub fn releases_leave<L>()
    ensures { ReleasesLeave L }
{}

/// Containers whose cells somebody has in hand are the same while a guard opens, whatever that reclaims, and while one
/// closes. So after `guard::new` a list, a queue, a stack and a bag are what they were before it.
pub fn guards_leave<T>()
    ensures { GuardsLeave T }
{}
