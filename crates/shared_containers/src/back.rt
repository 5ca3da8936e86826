//! Appending an item at the end of a queue, once that is found.

ghost use Rattle.std.specs.Prelude.{◌≡◌, ◌<◌, true};
ghost use Rattle.sdd_domain.specs.Cells.{cell_number};
ghost use Rattle.sdd_domain.specs.CellSteps.{HasMadeSome};
ghost use Rattle.sdd_domain.specs.Pointers.{ptr_slot};
ghost use Rattle.sdd_domain.specs.Sharing.{kept_in};
ghost use Rattle.sdd_domain.specs.Tokens.{place_of, cell_count};
ghost use Rattle.shared_containers.specs.Containers.{AreLinksOf, IsQueueOf, IsOpenIn, IsStill};
ghost use Rattle.shared_containers.specs.Outcomes.{IfDone, IsPushed, Said};
ghost use Rattle.shared_containers.specs.Put.{HasFilledFirst, HasFilledLink};

use crate::moves::exchange;
use crate::outcome::Pushed;
use crate::queue::Queue;
use sdd_domain::atomic_shared::AtomicShared;
use sdd_domain::holds::Holds;
use sdd_domain::local::Local;
use sdd_domain::pointer::Ptr;
use sdd_domain::shared::Shared;
use shared_lists::Section;
use shared_lists::moves::follow;

impl<T: Holds> Queue<T> {
    /// Puts an item behind this one, unless that is nothing.
    pub(crate) fn push_behind<F: Fn(Option<&T>) -> bool>(
        &self,
        section: &Section<T>,
        behind: Ptr<T>,
        owner: Shared<T>,
        f: &F,
        local: &mut Local<T>,
    ) -> Pushed<T>
        requires open { IsOpenIn section.now.guard.now local.old section.now.domain.now }
        requires mine { kept_in owner ≡ (place_of section.now.domain.now).0 }
        requires queue { IsQueueOf self.now section.now.domain.now }
        requires links { AreLinksOf section.now.links.now section.now.domain.now }
        requires callable { F.IsAlwaysCallable f.now }
        ensures pushed { IsPushed result owner (place_of section.now.domain.now).0 (Said (F.post f.now)) }
        ensures put { IfDone result (HasFilledLink local.old section.now.links.now (ptr_slot behind.entry) owner local.new) }
        ensures some { HasMadeSome local.old local.new }
        ensures same { IsStill local.old local.new }
    {
        let Some(slot) = behind.slot() else {
            return Pushed::Slow(owner);
        };
        if !f(behind.as_ref()) {
            return Pushed::Unwanted(owner);
        }
        match section.links.at(slot) {
            Some(link) => self.append(section, link, behind, owner, local),
            None => Pushed::Slow(owner),
        }
    }

    /// Puts an item behind another one, whose link this is, or in front, if nothing was there yet, and notes it as near the end.
    pub(crate) fn append(
        &self,
        section: &Section<T>,
        cell: &AtomicShared<T>,
        behind: Ptr<T>,
        owner: Shared<T>,
        local: &mut Local<T>,
    ) -> Pushed<T>
        requires open { IsOpenIn section.now.guard.now local.old section.now.domain.now }
        requires last { cell_number self.now.last < cell_count section.now.domain.now }
        requires inside { cell_number cell.now < cell_count section.now.domain.now }
        requires mine { kept_in owner ≡ (place_of section.now.domain.now).0 }
        ensures pushed { IsPushed result owner (place_of section.now.domain.now).0 (λ b. b ≡ true) }
        ensures put { IfDone result (HasFilledFirst local.old (cell_number cell.now) owner local.new) }
        ensures some { HasMadeSome local.old local.new }
        ensures same { IsStill local.old local.new }
    {
        let domain = section.domain;
        let guard = section.guard;
        if let Some(back) = exchange(domain, cell, Ptr::null(), owner, guard, local) {
            return Pushed::Slow(back);
        }
        if behind.is_null() {
            return Pushed::Done;
        }
        let end = cell.get_shared(domain, guard, local);
        follow(domain, &self.last, end, local);
        Pushed::Done
    }
}
