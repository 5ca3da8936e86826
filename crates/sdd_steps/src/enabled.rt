//! Where a step is enabled.

ghost use Rattle.std.specs.Prelude.{◌≡◌, ◌<◌, ◌||◌, ◌&&◌, ◌==◌, ◌^◌, ◌-◌, nat_lt, is_some, length};
ghost use Rattle.sdd_steps.specs.State.{participant_is, cell_is, item_is, participant_at, has, times};
ghost use Rattle.sdd_steps.specs.Steps.{is_idle_phase, is_reading_phase, is_opened_phase, count_of, is_idle, is_reading, is_turning, is_inside, is_ready, is_shut, is_full, is_live, is_due, is_reclaimed, is_left, is_past, is_reclaimable, has_loose_owner, is_offered, is_reachable, is_within, stands_alone, agrees, all_looked, all_have_loose_owners, all_alone, none_due, was_loaded, was_held, segment_loaded, may_load, may_raise, may_settle, gives_up, enabled};
ghost use Rattle.sdd_steps.specs.Snapshots.{snapshot_state};

use crate::item::{Cell, Item, ItemState};
use crate::participant::{Loaded, Participant, Phase, Seen};
use crate::snapshot::Snapshot;
use crate::step::Step;

impl Phase {
    fn is_idle(self) -> bool
        ensures { result ≡ is_idle_phase self }
    {
        match self {
            Phase::Idle => true,
            Phase::HasRead(_) | Phase::Opened(_) => false,
        }
    }

    fn is_reading(self) -> bool
        ensures { result ≡ is_reading_phase self }
    {
        match self {
            Phase::HasRead(_) => true,
            Phase::Idle | Phase::Opened(_) => false,
        }
    }

    fn is_opened(self) -> bool
        ensures { result ≡ is_opened_phase self }
    {
        match self {
            Phase::Opened(_) => true,
            Phase::Idle | Phase::HasRead(_) => false,
        }
    }

    // The count that was read, 0 where none is.
    pub(crate) fn count(self) -> u64
        ensures { result ≡ count_of self }
    {
        match self {
            Phase::Idle => 0,
            Phase::HasRead(count) | Phase::Opened(count) => count,
        }
    }
}

impl Participant {
    fn is_turning(&self) -> bool
        ensures { result ≡ is_turning self.now }
    {
        self.phase.is_opened() && self.phase.count() != self.found
    }

    fn is_inside(&self) -> bool
        ensures { result ≡ is_inside self.now }
    {
        self.phase.is_opened() && self.phase.count() == self.found
    }

    fn is_ready(&self) -> bool
        ensures { result ≡ is_ready self.now }
    {
        self.phase.is_idle() || self.is_inside()
    }

    fn agrees(&self, count: u64) -> bool
        ensures { result ≡ agrees count self.now }
    {
        !self.phase.is_opened() || self.phase.count() == count
    }
}

impl ItemState {
    fn is_live(self) -> bool
        ensures { result ≡ is_live self }
    {
        match self {
            ItemState::Live => true,
            ItemState::Due(_) | ItemState::Retired(_, _) | ItemState::Collected(_) => false,
            ItemState::Waiting | ItemState::Reclaimed(_) => false,
        }
    }

    fn is_due(self, p: usize) -> bool
        ensures { result ≡ is_due p self }
    {
        match self {
            ItemState::Due(q) => q == p,
            ItemState::Live | ItemState::Retired(_, _) | ItemState::Collected(_) => false,
            ItemState::Waiting | ItemState::Reclaimed(_) => false,
        }
    }

    fn is_reclaimed(self, p: usize) -> bool
        ensures { result ≡ is_reclaimed p self }
    {
        match self {
            ItemState::Reclaimed(q) => q == p,
            ItemState::Live | ItemState::Due(_) | ItemState::Retired(_, _) => false,
            ItemState::Collected(_) | ItemState::Waiting => false,
        }
    }

    fn is_left(self) -> bool
        ensures { result ≡ is_left self }
    {
        match self {
            ItemState::Collected(_) | ItemState::Waiting => true,
            ItemState::Live
            | ItemState::Due(_)
            | ItemState::Retired(_, _)
            | ItemState::Reclaimed(_) => false,
        }
    }

    fn is_reclaimable(self, p: usize, x: &Participant) -> bool
        ensures { result ≡ is_reclaimable p x.now self }
    {
        match self {
            ItemState::Retired(q, age) => q == p && age == 3,
            ItemState::Collected(note) => x.is_inside() && is_past(note, x.reread),
            ItemState::Live | ItemState::Due(_) | ItemState::Waiting | ItemState::Reclaimed(_) =>
                false,
        }
    }
}

fn is_past(note: u64, reread: Option<u64>) -> bool
    ensures { result ≡ is_past note reread }
{
    match reread {
        None => false,
        Some(count) => count >= 3 && count - 3 >= note,
    }
}

fn has(i: usize, numbers: &[usize]) -> bool
    ensures { result ≡ has i numbers.now }
{
    for j in numbers {
        if *j == i {
            return true;
        }
    }
    false
}

fn times(i: usize, numbers: &[usize]) -> usize
    ensures { result ≡ times i numbers.now }
{
    let mut count = 0;
    for j in numbers {
        if *j == i {
            count += 1;
        }
    }
    count
}

fn all_looked(p: usize, looked: &[usize], n: usize) -> bool
    ensures { result ≡ all_looked p looked.now n }
{
    let mut left = n;
    while left > 0 {
        left -= 1;
        if left != p && !has(left, looked) {
            return false;
        }
    }
    true
}

fn was_loaded(i: usize, loaded: &[Loaded]) -> bool
    ensures { result ≡ was_loaded i loaded.now }
{
    for h in loaded {
        if h.item == i {
            return true;
        }
    }
    false
}

fn was_held(k: usize, seen: &[Seen]) -> bool
    ensures { result ≡ was_held k seen.now }
{
    for z in seen {
        if z.item == k {
            return true;
        }
    }
    false
}

fn segment_loaded(i: usize, k: usize, loaded: &[Loaded]) -> bool
    ensures { result ≡ segment_loaded i k loaded.now }
{
    for h in loaded {
        if h.item == i && was_held(k, h.holds.as_slice()) {
            return true;
        }
    }
    false
}

fn none_due(p: usize, items: &[Item]) -> bool
    ensures { result ≡ none_due p items.now }
{
    for item in items {
        if item.state.is_due(p) {
            return false;
        }
    }
    true
}

fn all_have_loose_owners(items: &[Item], all: &[usize], some: &[usize]) -> bool
    ensures { result ≡ all_have_loose_owners items.now all.now some.now }
{
    for k in some {
        if *k >= items.len() || times(*k, all) as u64 > items[*k].hand {
            return false;
        }
    }
    true
}

fn all_alone(cells: &[Cell], some: &[usize]) -> bool
    ensures { result ≡ all_alone cells.now some.now }
{
    for c in some {
        if *c >= cells.len() || !cells[*c].stands_alone() {
            return false;
        }
    }
    true
}

impl Cell {
    fn stands_alone(self) -> bool
        ensures { result ≡ stands_alone self }
    {
        self.holder.is_none()
    }

    fn is_full(self) -> bool
        ensures { result ≡ is_full self }
    {
        self.names.is_some()
    }
}

impl Snapshot {
    fn is_idle(&self, p: usize) -> bool
        ensures { result ≡ participant_is is_idle (snapshot_state self.now) p }
    {
        p < self.participants.len() && self.participant(p).phase.is_idle()
    }

    fn is_reading(&self, p: usize) -> bool
        ensures { result ≡ participant_is is_reading (snapshot_state self.now) p }
    {
        p < self.participants.len() && self.participant(p).phase.is_reading()
    }

    fn is_turning(&self, p: usize) -> bool
        ensures { result ≡ participant_is is_turning (snapshot_state self.now) p }
    {
        p < self.participants.len() && self.participant(p).is_turning()
    }

    fn is_inside(&self, p: usize) -> bool
        ensures { result ≡ participant_is is_inside (snapshot_state self.now) p }
    {
        p < self.participants.len() && self.participant(p).is_inside()
    }

    fn is_ready(&self, p: usize) -> bool
        ensures { result ≡ participant_is is_ready (snapshot_state self.now) p }
    {
        p < self.participants.len() && self.participant(p).is_ready()
    }

    fn agrees(&self, q: usize) -> bool
        ensures { result ≡ participant_is (agrees self.now.count) (snapshot_state self.now) q }
    {
        q < self.participants.len() && self.participant(q).agrees(self.count)
    }

    fn is_shut(&self, q: usize) -> bool
        ensures { result ≡ participant_is is_shut (snapshot_state self.now) q }
    {
        q < self.participants.len() && !self.participant(q).phase.is_opened()
    }

    // The participant has read a count of 3 at least, and has looked at all others since.
    fn may_settle(&self, p: usize) -> bool
        ensures { result ≡ participant_is (may_settle p (length self.now.participants.items)) (snapshot_state self.now) p }
    {
        if !self.is_reading(p) {
            return false;
        }
        let x = self.participant(p);
        x.phase.count() >= 3 && all_looked(p, x.looked.as_slice(), self.participants.len())
    }

    fn has_reread(&self, p: usize) -> bool
        ensures { result ≡ participant_is (λ x. is_inside x && is_some x.reread) (snapshot_state self.now) p }
    {
        self.is_inside(p) && self.participant(p).reread.is_some()
    }

    fn has_segment(&self, p: usize, i: usize, k: usize) -> bool
        ensures { result ≡ participant_is (λ x. is_inside x && segment_loaded i k x.loaded) (snapshot_state self.now) p }
    {
        self.is_inside(p) && segment_loaded(i, k, self.participant(p).loaded.as_slice())
    }

    // The participant published the present count and has looked at all others.
    fn has_looked(&self, p: usize) -> bool
        ensures { result ≡ participant_is (may_raise p self.now.count (length self.now.participants.items)) (snapshot_state self.now) p }
    {
        if !self.is_inside(p) {
            return false;
        }
        let x = self.participant(p);
        x.phase.count() == self.count && all_looked(p, x.looked.as_slice(), self.participants.len())
    }

    fn has_loose_owner(&self, i: usize) -> bool
        ensures { result ≡ item_is has_loose_owner (snapshot_state self.now) i }
    {
        i < self.items.len() && self.item(i).hand > 0
    }

    fn is_due(&self, p: usize, i: usize) -> bool
        ensures { result ≡ item_is (λ it. is_due p it.state) (snapshot_state self.now) i }
    {
        i < self.items.len() && self.item(i).state.is_due(p)
    }

    fn is_reclaimable(&self, p: usize, i: usize) -> bool
        requires { p < length self.now.participants.items }
        ensures { result ≡ item_is (λ it. is_reclaimable p (participant_at (snapshot_state self.now) p) it.state) (snapshot_state self.now) i }
    {
        i < self.items.len() && self.item(i).state.is_reclaimable(p, self.participant(p))
    }

    fn is_left(&self, i: usize) -> bool
        ensures { result ≡ item_is (λ it. is_left it.state) (snapshot_state self.now) i }
    {
        i < self.items.len() && self.item(i).state.is_left()
    }

    fn may_raise_owners(&self, i: usize) -> bool
        ensures { result ≡ item_is (λ it. is_live it.state && nat_lt it.owners (2 ^ 32 - 1)) (snapshot_state self.now) i }
    {
        i < self.items.len()
            && self.item(i).state.is_live()
            && self.item(i).owners < u64::from(u32::MAX)
    }

    fn is_reclaimed(&self, p: usize, j: usize) -> bool
        ensures { result ≡ item_is (λ w. is_reclaimed p w.state) (snapshot_state self.now) j }
    {
        j < self.items.len() && self.item(j).state.is_reclaimed(p)
    }

    fn gives_up(&self, p: usize, j: usize, i: usize) -> bool
        ensures { result ≡ item_is (λ w. is_reclaimed p w.state && has i w.holds) (snapshot_state self.now) j }
    {
        self.is_reclaimed(p, j) && has(i, self.item(j).holds.as_slice())
    }

    fn is_offered(&self, new: Option<usize>) -> bool
        ensures { result ≡ is_offered (snapshot_state self.now) new }
    {
        match new {
            None => true,
            Some(i) => self.has_loose_owner(i),
        }
    }

    fn is_reachable(&self, o: Cell) -> bool
        ensures { result ≡ is_reachable (snapshot_state self.now) o }
    {
        match o.holder {
            None => true,
            Some(j) => self.has_loose_owner(j),
        }
    }

    fn is_within(&self, p: usize, o: Cell) -> bool
        ensures { result ≡ is_within (snapshot_state self.now) p o }
    {
        match o.holder {
            Some(j) => { self.is_inside(p) && was_loaded(j, self.participant(p).loaded.as_slice()) }
            None => false,
        }
    }

    fn reaches(&self, p: usize, c: usize) -> bool
        ensures { result ≡ cell_is (λ o. is_reachable (snapshot_state self.now) o || is_within (snapshot_state self.now) p o) (snapshot_state self.now) c }
    {
        if c >= self.cells.len() {
            return false;
        }
        let o = self.cell(c);
        self.is_reachable(o) || self.is_within(p, o)
    }

    fn may_load(&self, p: usize, c: usize) -> bool
        ensures { result ≡ cell_is (may_load (snapshot_state self.now) p) (snapshot_state self.now) c }
    {
        c < self.cells.len() && self.cell(c).is_full() && self.reaches(p, c)
    }

    fn gives_up_cell(&self, p: usize, c: usize) -> bool
        ensures { result ≡ cell_is (gives_up (snapshot_state self.now) p) (snapshot_state self.now) c }
    {
        if c >= self.cells.len() || !self.cell(c).is_full() {
            return false;
        }
        match self.cell(c).holder {
            None => false,
            Some(j) => self.is_reclaimed(p, j),
        }
    }

    /// Whether a step is enabled.
    pub(crate) fn is_enabled(&self, step: &Step) -> bool
        ensures { result ≡ enabled (snapshot_state self.now) step.now }
    {
        match step {
            Step::ReadEpoch(p) => self.is_idle(*p),
            Step::Publish(p) => self.is_reading(*p),
            Step::Rotate(p) => self.is_turning(*p),
            Step::LoadCell(p, c) => self.is_inside(*p) && self.may_load(*p, *c),
            Step::LoadInHand(p, i) => self.is_inside(*p) && self.has_loose_owner(*i),
            Step::ReadSegment(p, i, k) => self.has_segment(*p, *i, *k),
            Step::SwapCell(p, c, new) => {
                self.is_ready(*p) && self.reaches(*p, *c) && self.is_offered(*new)
            }
            Step::Release(p, i) => self.is_ready(*p) && self.has_loose_owner(*i),
            Step::Retire(p, i) => self.is_ready(*p) && self.is_due(*p, *i),
            Step::Collect(p, i) => self.has_reread(*p) && self.is_due(*p, *i),
            Step::Look(p, q) => self.is_inside(*p) && q != p && self.agrees(*q),
            Step::Raise(p) => self.has_looked(*p) && self.count < u64::MAX,
            Step::Reclaim(p, i) => self.is_ready(*p) && self.is_reclaimable(*p, *i),
            Step::GiveUp(p, j, i) => self.is_ready(*p) && self.gives_up(*p, *j, *i),
            Step::GiveUpCell(p, c) => self.is_ready(*p) && self.gives_up_cell(*p, *c),
            Step::Close(p) => self.is_inside(*p),
            Step::Place(p, _, holds, cells) => {
                self.is_ready(*p)
                    && all_have_loose_owners(&self.items, holds.as_slice(), holds.as_slice())
                    && all_alone(&self.cells, cells.as_slice())
            }
            Step::RaiseOwners(p, i) => self.is_ready(*p) && self.may_raise_owners(*i),
            Step::Reread(p) => self.is_inside(*p),
            Step::End(p) => self.is_idle(*p) && none_due(*p, &self.items),
            Step::TakeOver(p, i) => self.is_ready(*p) && self.is_left(*i),
            Step::LookShut(p, q) => self.is_reading(*p) && q != p && self.is_shut(*q),
            Step::Settle(p) => self.may_settle(*p),
        }
    }
}
