//! What a participant retired, where it is known that nobody reads it.

ghost use Rattle.std.specs.Prelude.{◌≡◌, map, OnOk, IfOk};
ghost use Rattle.sdd_steps.specs.Steps.{settled, settled_by, after};
ghost use Rattle.sdd_steps.specs.Snapshots.{snapshot_state};
ghost use Rattle.sdd_steps.specs.declared.step.Step.TheVariants as step;

use crate::item::{Item, ItemState};
use crate::snapshot::{Copied, Snapshot};
use std::alloc::{AllocError, Global};

impl ItemState {
    // An item that p retired has age 3.
    fn settled(self, p: usize) -> ItemState
        ensures { result ≡ settled p self }
    {
        match self {
            ItemState::Retired(q, _) => {
                if q == p {
                    ItemState::Retired(q, 3)
                } else {
                    self
                }
            }
            ItemState::Live | ItemState::Due(_) | ItemState::Collected(_) => self,
            ItemState::Waiting | ItemState::Reclaimed(_) => self,
        }
    }
}

fn settled_items(alloc: Global, p: usize, items: &[Item]) -> Result<Vec<Item>, AllocError>
    ensures { IfOk result (λ all. all.items ≡ map (settled_by p) items.now) }
{
    let mut all = Vec::new(alloc);
    for item in items {
        let mut copy = item.copied(alloc)?;
        copy.state = item.state.settled(p);
        all.push(copy)?;
    }
    Ok(all)
}

impl Snapshot {
    pub(crate) fn settle(&mut self, alloc: Global, p: usize) -> Result<(), AllocError>
        ensures { OnOk result (snapshot_state self.new ≡ after (snapshot_state self.old) (step.Settle p)) }
    {
        let mut x = self.participant_copy(alloc, p)?;
        x.found = x.phase.count();
        self.items = settled_items(alloc, p, &self.items)?;
        self.set_participant(p, x);
        Ok(())
    }
}
