//! Clones of the values of a list, one after another.

ghost use Rattle.std.specs.Prelude.{◌≡◌, [], IfOk, OnErr, MatchOption};
ghost use Rattle.sdd_world.specs.Tokens.{link_cell, shared_cell};
ghost use Rattle.sdd_lists.specs.Chain.{Hangs};
ghost use Rattle.sdd_lists.specs.Copies.{ClonesAreSame};
ghost use Rattle.sdd_lists.specs.Entries.{entry_link};
ghost use Rattle.world_containers.specs.FromIter.{Copies, CantCopy};
ghost use Rattle.world_containers.specs.Calls.{OfList};

use crate::linked_entry::LinkedEntry;
use sdd_lists::world::chain;
use sdd_world::cell::AtomicShared;
use sdd_world::job::Deferred;
use sdd_world::link::Link;
use sdd_world::world::World;
use std::alloc::AllocError;

/// The link of an entry, and a clone of its value unless it is deleted.
#[derive(Drop)]
pub(crate) struct Copied<T> {
    pub(crate) link: Link<LinkedEntry<T>>,
    pub(crate) value: Option<T>,
}

/// The first entry of a list, if there is one. Fails only if its value's clone fails.
pub(crate) fn first<T: Clone, J: Deferred>(
    w: &World<LinkedEntry<T>, J>,
    cell: &AtomicShared<LinkedEntry<T>>,
) -> Result<Option<Copied<T>>, AllocError>
    requires clones { ClonesAreSame T.is_clone }
    requires list { Hangs entry_link w.now (shared_cell cell.now) }
    ensures first { IfOk result (λ o. OfList entry_link w.now cell.now (λ t es. MatchOption o (es ≡ []) (λ k. Copies es (link_cell k.link) k.value))) }
    ensures refused { OnErr result (OfList entry_link w.now cell.now (λ t es. CantCopy T.is_infallible es)) }
{
    let Some(front) = chain::first(w, cell) else {
        return Ok(None);
    };
    let link = Link::of(front.link);
    if front.deleted {
        return Ok(Some(Copied { link, value: None }));
    }
    let Ok(value) = front.item.as_ref().clone() else {
        return Err(AllocError);
    };
    Ok(Some(Copied {
        link,
        value: Some(value),
    }))
}
