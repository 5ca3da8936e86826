//! What a step makes of a state where it is enabled.

ghost use Rattle.std.specs.Prelude.{◌≡◌, ℕ, ◌<◌, ◌+◌, ◌-◌, ◌^◌, true, map, None, OnOk, IfOk};
ghost use Rattle.sdd_steps.specs.State.{cell_at, item_at, with_item, without};
ghost use Rattle.sdd_steps.specs.Steps.{seen, loaded_as, with_loaded, handed, unhanded, emptied, filled, with_state, without_owner, aged, left, older, left_by, let_go, paid, taken_up, enabled, after};
ghost use Rattle.sdd_steps.specs.Snapshots.{snapshot_state, CanAge, HasRoom};
ghost use Rattle.sdd_steps.specs.declared.item.ItemState.TheVariants as item_state;
ghost use Rattle.sdd_steps.specs.declared.step.Step.TheVariants as step;

use crate::item::{Cell, Item, ItemState};
use crate::participant::{Loaded, Phase, Seen};
use crate::seq::Seq;
use crate::snapshot::{Copied, Snapshot};
use crate::step::Step;
use std::alloc::{AllocError, Global};

impl ItemState {
    // An item that p retired ages by one.
    fn aged(self, p: usize) -> ItemState
        requires { (a : ℕ) → self ≡ item_state.Retired p a → a < 2 ^ 64 - 1 }
        ensures { result ≡ aged p self }
    {
        match self {
            ItemState::Retired(q, age) => {
                if q == p {
                    ItemState::Retired(q, age + 1)
                } else {
                    self
                }
            }
            ItemState::Live | ItemState::Due(_) | ItemState::Collected(_) => self,
            ItemState::Waiting | ItemState::Reclaimed(_) => self,
        }
    }

    // An item that p retired waits.
    fn left(self, p: usize) -> ItemState
        ensures { result ≡ left p self }
    {
        match self {
            ItemState::Retired(q, _) => { if q == p { ItemState::Waiting } else { self } }
            ItemState::Live | ItemState::Due(_) | ItemState::Collected(_) => self,
            ItemState::Waiting | ItemState::Reclaimed(_) => self,
        }
    }
}

impl Cell {
    // An empty cell of item i has no holder any more.
    fn let_go(self, i: usize) -> Cell
        ensures { result ≡ let_go i self }
    {
        match (self.holder, self.names) {
            (Some(j), None) if j == i => Cell {
                holder: None,
                names: None,
            },
            _ => self,
        }
    }
}

fn aged_items(alloc: Global, p: usize, items: &[Item]) -> Result<Vec<Item>, AllocError>
    requires { CanAge p items.now }
    ensures { IfOk result (λ all. all.items ≡ map (older p) items.now) }
{
    let mut all = Vec::new(alloc);
    for item in items {
        let mut copy = item.copied(alloc)?;
        copy.state = item.state.aged(p);
        all.push(copy)?;
    }
    Ok(all)
}

fn left_items(alloc: Global, p: usize, items: &[Item]) -> Result<Vec<Item>, AllocError>
    ensures { IfOk result (λ all. all.items ≡ map (left_by p) items.now) }
{
    let mut all = Vec::new(alloc);
    for item in items {
        let mut copy = item.copied(alloc)?;
        copy.state = item.state.left(p);
        all.push(copy)?;
    }
    Ok(all)
}

fn let_go_all(alloc: Global, i: usize, cells: &[Cell]) -> Result<Vec<Cell>, AllocError>
    ensures { IfOk result (λ all. all.items ≡ map (let_go i) cells.now) }
{
    let mut all = Vec::new(alloc);
    for o in cells {
        all.push(o.let_go(i))?;
    }
    Ok(all)
}

// The list without its first i.
fn without(alloc: Global, i: usize, holds: &[usize]) -> Result<Vec<usize>, AllocError>
    ensures { IfOk result (λ all. all.items ≡ without i holds.now) }
{
    let mut all = Vec::new(alloc);
    let mut gone = false;
    for k in holds {
        if !gone && *k == i {
            gone = true;
        } else {
            all.push(*k)?;
        }
    }
    Ok(all)
}

fn seen(items: &[Item], k: usize) -> Seen
    ensures { result ≡ seen items.now k }
{
    let value = match items.get(k) {
        Some(item) => item.value,
        None => 0,
    };
    Seen { item: k, value }
}

fn seen_all(alloc: Global, items: &[Item], holds: &[usize]) -> Result<Vec<Seen>, AllocError>
    ensures { IfOk result (λ all. all.items ≡ map (seen items.now) holds.now) }
{
    let mut all = Vec::new(alloc);
    for k in holds {
        all.push(seen(items, *k))?;
    }
    Ok(all)
}

impl Snapshot {
    fn read_epoch(&mut self, alloc: Global, p: usize) -> Result<(), AllocError>
        ensures { OnOk result (snapshot_state self.new ≡ after (snapshot_state self.old) (step.ReadEpoch p)) }
    {
        let mut x = self.participant_copy(alloc, p)?;
        x.phase = Phase::HasRead(self.count);
        self.set_participant(p, x);
        Ok(())
    }

    fn publish(&mut self, alloc: Global, p: usize) -> Result<(), AllocError>
        ensures { OnOk result (snapshot_state self.new ≡ after (snapshot_state self.old) (step.Publish p)) }
    {
        let mut opened = self.participant_copy(alloc, p)?;
        opened.phase = Phase::Opened(opened.phase.count());
        opened.reread = None;
        opened.looked = Seq::new(alloc);
        opened.loaded = Seq::new(alloc);
        self.set_participant(p, opened);
        Ok(())
    }

    fn rotate(&mut self, alloc: Global, p: usize) -> Result<(), AllocError>
        requires { CanAge p (snapshot_state self.old).items }
        ensures { OnOk result (snapshot_state self.new ≡ after (snapshot_state self.old) (step.Rotate p)) }
    {
        let mut x = self.participant_copy(alloc, p)?;
        x.found = x.phase.count();
        self.items = aged_items(alloc, p, &self.items)?;
        self.set_participant(p, x);
        Ok(())
    }

    fn loaded_as(&self, alloc: Global, i: usize) -> Result<Loaded, AllocError>
        ensures { IfOk result (λ h. h ≡ loaded_as (snapshot_state self.now).items i) }
    {
        let item = self.item_copy(alloc, i)?;
        let holds = seen_all(alloc, &self.items, item.holds.as_slice())?;
        Ok(Loaded {
            item: i,
            value: item.value,
            holds: Seq::from_vec(holds),
        })
    }

    fn load(&mut self, alloc: Global, p: usize, i: usize) -> Result<(), AllocError>
        ensures { OnOk result (snapshot_state self.new ≡ with_loaded (snapshot_state self.old) p i) }
    {
        let mut x = self.participant_copy(alloc, p)?;
        x.loaded.push(self.loaded_as(alloc, i)?)?;
        self.set_participant(p, x);
        Ok(())
    }

    fn load_cell(&mut self, alloc: Global, p: usize, c: usize) -> Result<(), AllocError>
        ensures { OnOk result (snapshot_state self.new ≡ after (snapshot_state self.old) (step.LoadCell p c)) }
    {
        match self.cell(c).names {
            Some(i) => self.load(alloc, p, i),
            None => self.load(alloc, p, 0),
        }
    }

    // An owner of item i comes into the hand.
    fn hand(&mut self, alloc: Global, i: usize) -> Result<(), AllocError>
        requires { (item_at (snapshot_state self.old) i).hand < 2 ^ 64 - 1 }
        ensures { OnOk result (snapshot_state self.new ≡ with_item (snapshot_state self.old) i (handed (item_at (snapshot_state self.old) i))) }
    {
        let mut item = self.item_copy(alloc, i)?;
        item.hand += 1;
        self.set_item(i, item);
        Ok(())
    }

    // An owner of item i leaves the hand.
    fn unhand(&mut self, alloc: Global, i: usize) -> Result<(), AllocError>
        ensures { OnOk result (snapshot_state self.new ≡ with_item (snapshot_state self.old) i (unhanded (item_at (snapshot_state self.old) i))) }
    {
        let mut item = self.item_copy(alloc, i)?;
        item.hand = item.hand.saturating_sub(1);
        self.set_item(i, item);
        Ok(())
    }

    // The item of cell c, if any, comes into the hand.
    fn empty_cell(&mut self, alloc: Global, c: usize) -> Result<(), AllocError>
        requires { (i : ℕ) → (item_at (snapshot_state self.old) i).hand < 2 ^ 64 - 1 }
        ensures { OnOk result (snapshot_state self.new ≡ emptied (snapshot_state self.old) c (cell_at (snapshot_state self.old) c).names) }
    {
        let o = self.cell(c);
        match o.names {
            None => Ok(()),
            Some(i) => {
                self.set_cell(
                    c,
                    Cell {
                        holder: o.holder,
                        names: None,
                    },
                );
                self.hand(alloc, i)
            }
        }
    }

    // An item, if any, is moved from the hand into cell c.
    fn fill_cell(&mut self, alloc: Global, c: usize, new: Option<usize>) -> Result<(), AllocError>
        ensures { OnOk result (snapshot_state self.new ≡ filled (snapshot_state self.old) c new) }
    {
        match new {
            None => Ok(()),
            Some(i) => {
                let o = self.cell(c);
                self.set_cell(
                    c,
                    Cell {
                        holder: o.holder,
                        names: Some(i),
                    },
                );
                self.unhand(alloc, i)
            }
        }
    }

    fn swap_cell(
        &mut self,
        alloc: Global,
        p: usize,
        c: usize,
        new: Option<usize>,
    ) -> Result<(), AllocError>
        requires { (i : ℕ) → (item_at (snapshot_state self.old) i).hand < 2 ^ 64 - 1 }
        ensures { OnOk result (snapshot_state self.new ≡ after (snapshot_state self.old) (step.SwapCell p c new)) }
    {
        self.empty_cell(alloc, c)?;
        self.fill_cell(alloc, c, new)
    }

    fn release(&mut self, alloc: Global, p: usize, i: usize) -> Result<(), AllocError>
        ensures { OnOk result (snapshot_state self.new ≡ after (snapshot_state self.old) (step.Release p i)) }
    {
        let mut item = self.item_copy(alloc, i)?;
        item.hand = item.hand.saturating_sub(1);
        item.owners = item.owners.saturating_sub(1);
        if item.owners == 0 {
            item.state = ItemState::Due(p);
        }
        self.set_item(i, item);
        Ok(())
    }

    fn set_state(&mut self, alloc: Global, i: usize, state: ItemState) -> Result<(), AllocError>
        ensures { OnOk result (snapshot_state self.new ≡ with_state (snapshot_state self.old) i state) }
    {
        let mut item = self.item_copy(alloc, i)?;
        item.state = state;
        self.set_item(i, item);
        Ok(())
    }

    fn collect(&mut self, alloc: Global, p: usize, i: usize) -> Result<(), AllocError>
        ensures { OnOk result (snapshot_state self.new ≡ after (snapshot_state self.old) (step.Collect p i)) }
    {
        let x = self.participant_copy(alloc, p)?;
        let state = match x.reread {
            Some(count) => ItemState::Collected(count),
            None => ItemState::Waiting,
        };
        self.set_state(alloc, i, state)
    }

    fn look(&mut self, alloc: Global, p: usize, q: usize) -> Result<(), AllocError>
        ensures { OnOk result (snapshot_state self.new ≡ after (snapshot_state self.old) (step.Look p q)) }
    {
        let mut x = self.participant_copy(alloc, p)?;
        x.looked.push(q)?;
        self.set_participant(p, x);
        Ok(())
    }

    fn reclaim(&mut self, alloc: Global, p: usize, i: usize) -> Result<(), AllocError>
        ensures { OnOk result (snapshot_state self.new ≡ after (snapshot_state self.old) (step.Reclaim p i)) }
    {
        self.cells = let_go_all(alloc, i, &self.cells)?;
        self.set_state(alloc, i, ItemState::Reclaimed(p))
    }

    // The first item, without an owner of the second one.
    fn lose(&mut self, alloc: Global, j: usize, i: usize) -> Result<(), AllocError>
        ensures { OnOk result (snapshot_state self.new ≡ without_owner (snapshot_state self.old) j i) }
    {
        let mut item = self.item_copy(alloc, j)?;
        item.holds = Seq::from_vec(without(alloc, i, item.holds.as_slice())?);
        self.set_item(j, item);
        Ok(())
    }

    fn give_up(&mut self, alloc: Global, p: usize, j: usize, i: usize) -> Result<(), AllocError>
        requires { (k : ℕ) → (item_at (snapshot_state self.old) k).hand < 2 ^ 64 - 1 }
        ensures { OnOk result (snapshot_state self.new ≡ after (snapshot_state self.old) (step.GiveUp p j i)) }
    {
        self.lose(alloc, j, i)?;
        self.hand(alloc, i)
    }

    fn give_up_cell(&mut self, alloc: Global, p: usize, c: usize) -> Result<(), AllocError>
        requires { (i : ℕ) → (item_at (snapshot_state self.old) i).hand < 2 ^ 64 - 1 }
        ensures { OnOk result (snapshot_state self.new ≡ after (snapshot_state self.old) (step.GiveUpCell p c)) }
    {
        self.empty_cell(alloc, c)?;
        let o = self.cell(c);
        self.set_cell(
            c,
            Cell {
                holder: None,
                names: o.names,
            },
        );
        Ok(())
    }

    fn close(&mut self, alloc: Global, p: usize) -> Result<(), AllocError>
        ensures { OnOk result (snapshot_state self.new ≡ after (snapshot_state self.old) (step.Close p)) }
    {
        let mut closed = self.participant_copy(alloc, p)?;
        closed.phase = Phase::Idle;
        closed.reread = None;
        closed.looked = Seq::new(alloc);
        closed.loaded = Seq::new(alloc);
        self.set_participant(p, closed);
        Ok(())
    }

    // An owner of each item of the list leaves the hand.
    fn pay(&mut self, alloc: Global, holds: &[usize]) -> Result<(), AllocError>
        ensures { OnOk result (snapshot_state self.new ≡ record (snapshot_state self.old) { items = paid holds.now (snapshot_state self.old).items }) }
    {
        for k in holds {
            self.unhand(alloc, *k)?;
        }
        Ok(())
    }

    // Item i holds the cells of the list.
    fn take_up(&mut self, i: usize, cells: &[usize])
        ensures { snapshot_state self.new ≡ record (snapshot_state self.old) { cells = taken_up i cells.now (snapshot_state self.old).cells } }
    {
        for c in cells {
            let o = self.cell(*c);
            self.set_cell(
                *c,
                Cell {
                    holder: Some(i),
                    names: o.names,
                },
            );
        }
    }

    fn place(
        &mut self,
        alloc: Global,
        p: usize,
        value: u64,
        holds: Seq<usize>,
        cells: &[usize],
    ) -> Result<(), AllocError>
        ensures { OnOk result (snapshot_state self.new ≡ after (snapshot_state self.old) (step.Place p value holds cells.now)) }
    {
        let next = self.items.len();
        self.take_up(next, cells);
        self.pay(alloc, holds.as_slice())?;
        self.items.push(Item {
            value,
            hand: 1,
            owners: 1,
            holds,
            state: ItemState::Live,
        })?;
        Ok(())
    }

    fn raise_owners(&mut self, alloc: Global, p: usize, i: usize) -> Result<(), AllocError>
        requires hand { (item_at (snapshot_state self.old) i).hand < 2 ^ 64 - 1 }
        requires owners { (item_at (snapshot_state self.old) i).owners < 2 ^ 64 - 1 }
        ensures { OnOk result (snapshot_state self.new ≡ after (snapshot_state self.old) (step.RaiseOwners p i)) }
    {
        let mut item = self.item_copy(alloc, i)?;
        item.hand += 1;
        item.owners += 1;
        self.set_item(i, item);
        Ok(())
    }

    fn reread(&mut self, alloc: Global, p: usize) -> Result<(), AllocError>
        ensures { OnOk result (snapshot_state self.new ≡ after (snapshot_state self.old) (step.Reread p)) }
    {
        let mut x = self.participant_copy(alloc, p)?;
        x.reread = Some(self.count);
        self.set_participant(p, x);
        Ok(())
    }

    fn end(&mut self, alloc: Global, p: usize) -> Result<(), AllocError>
        ensures { OnOk result (snapshot_state self.new ≡ after (snapshot_state self.old) (step.End p)) }
    {
        let mut x = self.participant_copy(alloc, p)?;
        x.found = 0;
        self.items = left_items(alloc, p, &self.items)?;
        self.set_participant(p, x);
        Ok(())
    }

    // One more than the present count.
    fn raise(&mut self)
        requires { self.old.count < 2 ^ 64 - 1 }
        ensures { snapshot_state self.new ≡ record (snapshot_state self.old) { count = self.old.count + 1 } }
    {
        self.count += 1;
    }

    /// Takes a step that is enabled. If an allocation fails, nothing is known of what is left.
    pub(crate) fn take(&mut self, alloc: Global, step: Step) -> Result<(), AllocError>
        requires enabled { enabled (snapshot_state self.old) step ≡ true }
        requires room { HasRoom (snapshot_state self.old) }
        ensures { OnOk result (snapshot_state self.new ≡ after (snapshot_state self.old) step) }
    {
        match step {
            Step::ReadEpoch(p) => self.read_epoch(alloc, p),
            Step::Publish(p) => self.publish(alloc, p),
            Step::Rotate(p) => self.rotate(alloc, p),
            Step::LoadCell(p, c) => self.load_cell(alloc, p, c),
            Step::LoadInHand(p, i) => self.load(alloc, p, i),
            Step::ReadSegment(_, _, _) => Ok(()),
            Step::SwapCell(p, c, new) => self.swap_cell(alloc, p, c, new),
            Step::Release(p, i) => self.release(alloc, p, i),
            Step::Retire(p, i) | Step::TakeOver(p, i) => {
                self.set_state(alloc, i, ItemState::Retired(p, 0))
            }
            Step::Collect(p, i) => self.collect(alloc, p, i),
            Step::Look(p, q) | Step::LookShut(p, q) => self.look(alloc, p, q),
            Step::Raise(_) => {
                self.raise();
                Ok(())
            }
            Step::Reclaim(p, i) => self.reclaim(alloc, p, i),
            Step::GiveUp(p, j, i) => self.give_up(alloc, p, j, i),
            Step::GiveUpCell(p, c) => self.give_up_cell(alloc, p, c),
            Step::Close(p) => self.close(alloc, p),
            Step::Place(p, value, holds, cells) => {
                self.place(alloc, p, value, holds, cells.as_slice())
            }
            Step::RaiseOwners(p, i) => self.raise_owners(alloc, p, i),
            Step::Reread(p) => self.reread(alloc, p),
            Step::End(p) => self.end(alloc, p),
            Step::Settle(p) => self.settle(alloc, p),
        }
    }
}
