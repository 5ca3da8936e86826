//! The store of a place: numbered slots, job places and cells, and the participants. Nothing here takes memory but
//! the making, and nothing walks all slots.

ghost use Rattle.std.specs.Prelude.{◌≡◌, ℕ, ◌+◌, ◌<◌, ◌≤◌, ◌^◌, ◌-◌, List, length, MatchOption, Some, None, OnOk, IfSome, IfNone, IfOk, IfErr, [], ◌∷◌, false, true, replicate, IsTrue, IsFalse, ◌↔◌, sum_by, vec_capacity, vec_len, ◌++◌, map, All, IsSome};
ghost use Rattle.std.specs.Borrow.{sem};
ghost use Rattle.std.specs.Option.Follows.{option_follows_value};
ghost use Rattle.sdd_table.specs.State.{changing, recalled, concluded_with, hastened, IsIdle, NoneIdle, with_status, with_local, IsFree, NoneFree, IsFreeCell, NoCellFree, in_use, IsUnused, waiting_as, status_at, participant_at, local_at, value_at, cell_at, rotated_bags, placed, raised, nobody, TakesDue, with_cell, is_present, is_used, weight, idleness, vacancy, emptiness, fresh, slot_freed, usage};
ghost use Rattle.std.specs.List.{list_all};
ghost use Rattle.sdd_table.specs.Groups.{NoneOut};
ghost use Rattle.sdd_table.specs.View.{Lists, IsFreeList};
ghost use Rattle.sdd_table.specs.Steps.{bags_empty, NoneOpen, count_published, settled};
ghost use Rattle.sdd_table.specs.Place.{ClaimsCell, HasItem, PlacesItem, IsOpen, AddsOwner, AddsOwners, HasOtherOwners, LosesOwner, TakeOwners, TakesOwner, kept_at, kept_between};
ghost use Rattle.sdd_table.specs.Tokens.{kept_slot};

use crate::bags::Participants;
use crate::groups::Groups;
use crate::holds::KeepsRow;
use crate::job::Deferred;
use crate::keeping;
use crate::owner::Kept;
use crate::status::{Cell, LocalState, Status};
use crate::store::Store;
use sdd_plain::sizes::Sizes;
use std::alloc::{AllocError, Global};
use std::marker::Model;
use std::mem;

mod grouping;

/// What was in a place that was due: an item, or a job.
pub(crate) struct Due<T, J> {
    pub(crate) value: Option<T>,
    pub(crate) job: Option<J>,
}

/// Numbered slots, cells and participants, with room for what waits.
pub struct Table<T, J: Deferred> {
    count: u64,
    /// How many slots have an item.
    used: usize,
    /// How many slots there are; the job places are numbered behind them.
    slots: usize,
    values: Vec<Option<T>>,
    jobs: Vec<Option<J>>,
    states: Vec<Status>,
    cells: Vec<Cell>,
    participants: Participants,
    /// The free slots, the job places without a job and the free cells.
    free: Vec<usize>,
    idle: Vec<usize>,
    free_cells: Vec<usize>,
    groups: Groups,
}

/// Invariant: specs/View.antt, IsTable: a value is in each slot that is used, the stacks of free places name those that
/// are free, and the places in bags are those that wait.
impl<T, J: Deferred> Model for Table<T, J> {
    ghost use Rattle.sdd_table.specs.State.{State};

    ghost Value = { State T };

    ghost use Rattle.sdd_table.specs.View.{state_of, IsTable};

    ghost view = { state_of };

    ghost invariant = { IsTable };
}

impl<T, J: Deferred> Table<T, J> {
    /// How many slots have an item.
    pub fn used(&self) -> usize
        ensures { result ≡ sum_by usage self.now.states }
    {
        self.used
    }

    /// How many slots are free.
    pub fn free_count(&self) -> usize
        ensures { result ≡ sum_by vacancy self.now.states }
    {
        self.free.len()
    }

    /// Whether no slot is free.
    pub fn is_full(&self) -> bool
        ensures full { IsTrue result → NoneFree self.now }
        ensures free { IsFalse result → (i : ℕ) × IsFree self.now i }
    {
        self.free.is_empty()
    }

    /// Whether no cell is free.
    pub fn has_no_cell(&self) -> bool
        ensures full { IsTrue result → NoCellFree self.now }
        ensures free { IsFalse result → (c : ℕ) × IsFreeCell self.now c }
    {
        self.free_cells.is_empty()
    }

    /// The number of place `i`, as uses of items in private bags name it.
    pub(crate) fn name_of(&self, i: usize) -> u32
        requires { i < length self.now.states }
        ensures { result ≡ i }
    {
        prove!(i < self.states.len());
        i as u32
    }

    /// The use of place `i`.
    pub fn status(&self, i: usize) -> Status
        requires { i < length self.now.states }
        ensures { result ≡ status_at self.now i }
    {
        self.states[i]
    }

    /// The use of place `i`, `Free` where there is none.
    pub fn status_of(&self, i: usize) -> Status
        ensures { result ≡ status_at self.now i }
    {
        match self.states.get(i) {
            Some(status) => *status,
            None => Status::Free,
        }
    }

    /// Whether place `i` has an item.
    pub fn has_item(&self, i: usize) -> bool
        ensures { result ≡ is_used (status_at self.now i) }
    {
        self.status_of(i).has_item()
    }

    /// What participant `p` notes of itself.
    pub fn local(&self, p: usize) -> LocalState
        requires { p < length self.now.participants }
        ensures { result ≡ (participant_at self.now p).local }
    {
        self.participants.local(p)
    }

    /// Participant `p` notes this of itself.
    pub fn set_local(&mut self, p: usize, local: LocalState)
        requires { p < length self.old.participants }
        ensures { self.new ≡ with_local p local self.old }
    {
        self.participants.set_local(p, local);
    }

    /// The outermost guard of `p` opens, and publishes the count.
    pub(crate) fn publish(&mut self, p: usize)
        requires { p < length self.old.participants }
        ensures { self.new ≡ count_published p self.old }
    {
        self.participants.publish(p, self.count);
    }

    /// The outermost guard of `p` closes, with so many closings since the last scan.
    pub(crate) fn conclude(&mut self, p: usize, closings: u8)
        requires { p < length self.old.participants }
        ensures { self.new ≡ changing p (concluded_with closings) self.old }
    {
        self.participants.conclude(p, closings);
    }

    /// A guard of `p` is accelerated.
    pub fn accelerate(&mut self, p: usize)
        requires { p < length self.old.participants }
        ensures { self.new ≡ changing p hastened self.old }
    {
        self.participants.accelerate(p);
    }

    /// The garbage of `p` stays noted only if something waits in its bags.
    pub(crate) fn settle(&mut self, p: usize)
        requires { p < length self.old.participants }
        ensures { self.new ≡ settled p self.old }
    {
        self.participants.settle(p);
    }

    /// What is in slot `i` waits in the current bag of `p`.
    pub fn retire(&mut self, p: usize, i: usize)
        requires participant { p < length self.old.participants }
        requires slot { i < length self.old.states }
        requires used { is_used (status_at self.old i) ≡ true }
        requires waits_not { weight (status_at self.old i) ≡ 0 }
        ensures { self.new ≡ waiting_as Status.Retired p i self.old }
    {
        self.states[i] = Status::Retired;
        self.participants.put(p, i);
    }

    /// Puts a job into a job place that has none, if there is one; it waits in the current bag of `p`.
    pub fn defer(&mut self, p: usize, job: J) -> Result<(), J>
        requires { p < length self.old.participants }
        ensures deferred { OnOk result ((i : ℕ) × IsIdle self.old i × (self.new ≡ waiting_as Status.Deferred p i self.old)) }
        ensures refused { IfErr result (λ j. (j ≡ job) × (self.new ≡ self.old) × NoneIdle self.old) }
    {
        let Some(i) = self.idle.pop() else {
            return Err(job);
        };
        self.states[i] = Status::Deferred;
        self.jobs[i - self.slots] = Some(job);
        self.participants.put(p, i);
        Ok(())
    }

    pub(crate) fn turn(&mut self, p: usize)
        requires participant { p < length self.old.participants }
        requires due { (participant_at self.old p).due ≡ [] }
        ensures { self.new ≡ rotated_bags p self.old }
    {
        self.participants.turn(p);
    }

    /// How many places wait in the current bag of `p`.
    pub(crate) fn newest(&self, p: usize) -> usize
        requires { p < length self.now.participants }
        ensures { result ≡ length (participant_at self.now p).current }
    {
        self.participants.newest(p)
    }

    /// What `p` retired last is due.
    pub(crate) fn unretire(&mut self, p: usize)
        requires { p < length self.old.participants }
        ensures { self.new ≡ changing p recalled self.old }
    {
        self.participants.unretire(p);
    }

    /// Puts a value into a free slot, if there is one.
    pub fn place(&mut self, value: T, status: Status) -> Result<usize, T>
        requires used { is_used status ≡ true }
        requires waits_not { weight status ≡ 0 }
        ensures placed { IfOk result (λ i. PlacesItem i value status self.old self.new) }
        ensures refused { IfErr result (λ v. (v ≡ value) × (self.new ≡ self.old) × NoneFree self.old) }
    {
        let Some(i) = self.free.pop() else {
            return Err(value);
        };
        self.states[i] = status;
        self.used += 1;
        match mem::replace(&mut self.values[i], Some(value)) {
            None => Ok(i),
            Some(_) => unreachable!(),
        }
    }

    /// Uses slot `i`, which has an item, in another way.
    pub fn set_status(&mut self, i: usize, status: Status)
        requires slot { i < length self.old.states }
        requires was_used { is_used (status_at self.old i) ≡ true }
        requires waited_not { weight (status_at self.old i) ≡ 0 }
        requires used { is_used status ≡ true }
        requires waits_not { weight status ≡ 0 }
        ensures { self.new ≡ with_status i status self.old }
    {
        self.states[i] = status;
    }

    /// The item in slot `i` has one more owner. The count alone is written. Condition: it has owners, and fewer than
    /// `2^32 - 1`.
    pub fn add_owner(&mut self, i: usize)
        requires { TakesOwner i self.old }
        ensures { AddsOwner i self.old self.new }
    {
        match &mut self.states[i] {
            Status::Shared(owners) => *owners += 1,
            _ => unreachable!(),
        }
    }

    /// One more owner of each item whose owner the item in slot `i` keeps, from one place of its row up to another, for
    /// another item to keep. The counts alone are written. Condition: the row has these places, and each item there has
    /// owners, fewer than `2^32 - 1`, and is there once.
    pub fn keep_row(&mut self, i: usize, from: usize, upto: usize, into: &mut Vec<Kept>)
    where
        T: KeepsRow,
        requires there { HasItem self.old i }
        requires ordered { from ≤ upto }
        requires within { upto ≤ length (kept_at T.kept self.old (Some i)) }
        requires takes { TakeOwners (kept_between T.kept self.old (Some i) from upto) self.old }
        requires room { length into.old.items + (upto - from) ≤ vec_capacity into.old }
        ensures owners { map kept_slot into.new.items ≡ map kept_slot into.old.items ++ kept_between T.kept self.old (Some i) from upto }
        ensures raised { AddsOwners (kept_between T.kept self.old (Some i) from upto) self.old self.new }
        ensures long { length into.new.items ≡ length into.old.items + (upto - from) }
        ensures room { vec_capacity into.old ≤ vec_capacity into.new }
    {
        let row = match &self.values[i] {
            Some(value) => value.row(),
            None => unreachable!(),
        };
        keeping::keep_each(&row[from..upto], &mut self.states, into);
    }

    /// The item in slot `i` has one owner less, where it has more than one; answers whether it had. The count alone is
    /// written.
    pub(crate) fn lower_owner(&mut self, i: usize) -> bool
        ensures lowered { IsTrue result → LosesOwner i self.old self.new }
        ensures kept { IsFalse result → self.new ≡ self.old }
        ensures few { IsFalse result → ¬ HasOtherOwners self.old i }
    {
        let Status::Shared(owners) = self.status_of(i) else {
            return false;
        };
        if owners <= 1 {
            return false;
        }
        match &mut self.states[i] {
            Status::Shared(count) => *count = owners - 1,
            _ => unreachable!(),
        }
        true
    }

    /// The next place that is due has nothing from now on, and what it had is taken.
    pub(crate) fn take_due(&mut self, p: usize) -> Option<Due<T, J>>
        requires participant { p < length self.old.participants }
        requires waits { (i : ℕ) (is : List ℕ) → (participant_at self.old p).due ≡ i ∷ is → (i < length self.old.states) × (weight (status_at self.old i) ≡ 1) }
        ensures { MatchOption result (((participant_at self.old p).due ≡ []) × (self.new ≡ self.old)) (λ d. TakesDue p d.value self.old self.new) }
    {
        match self.participants.next(p) {
            None => None,
            Some(i) => {
                if self.states[i].has_item() {
                    self.states[i] = Status::Free;
                    self.used -= 1;
                    keep_name(&mut self.free, i);
                    let value = self.values[i].take();
                    return Some(Due { value, job: None });
                }
                self.states[i] = Status::Idle;
                keep_name(&mut self.idle, i);
                let job = self.jobs[i - self.slots].take();
                let value = self.values[i].take();
                Some(Due { value, job })
            }
        }
    }

    /// Slot `i`, whose item waits in no bag, is free from now on, and its value is given.
    pub(crate) fn remove(&mut self, i: usize) -> T
        requires slot { i < length self.old.states }
        requires used { is_used (status_at self.old i) ≡ true }
        requires waits_not { weight (status_at self.old i) ≡ 0 }
        ensures value { Some result ≡ value_at self.old i }
        ensures state { self.new ≡ slot_freed i self.old }
    {
        self.states[i] = Status::Free;
        self.used -= 1;
        keep_name(&mut self.free, i);
        match self.values[i].take() {
            Some(value) => value,
            None => unreachable!(),
        }
    }

    /// The count of raises.
    pub fn count(&self) -> u64
        ensures { result ≡ self.now.count }
    {
        self.count
    }

    pub(crate) fn raise(&mut self)
        requires { self.old.count < 2 ^ 64 - 1 }
        ensures { self.new ≡ raised self.old }
    {
        self.count += 1;
    }

    /// Whether every open guard published the present count.
    pub(crate) fn all_present(&self) -> bool
        ensures { result ≡ list_all (is_present self.now.count) self.now.participants }
    {
        self.participants.all_present(self.count)
    }

    /// Whether a guard is open.
    pub fn any_open(&self) -> bool
        ensures open { IsTrue result → (p : ℕ) × IsOpen self.now p }
        ensures none { IsFalse result → NoneOpen self.now }
    {
        self.participants.any_open()
    }

    /// Whether no slot has an item, every cell is free, and no group has an owner.
    pub fn is_unused(&self) -> bool
        ensures { IsTrue result ↔ IsUnused self.now }
    {
        if self.used != 0 {
            return false;
        }
        if self.free_cells.len() != self.cells.len() {
            return false;
        }
        self.groups.is_unused()
    }

    /// How many participants there are.
    pub fn participants(&self) -> usize
        ensures { result ≡ length self.now.participants }
    {
        self.participants.len()
    }

    /// How many cells there are.
    pub fn cells(&self) -> usize
        ensures { result ≡ length self.now.cells }
    {
        self.cells.len()
    }

    /// How many slots and job places there are.
    pub fn places(&self) -> usize
        ensures { result ≡ length self.now.states }
    {
        self.states.len()
    }

    /// The item whose owner an item keeps. Condition: it is there.
    pub fn kept_ref(&self, kept: &Kept) -> &T
        requires { IsSome (value_at self.now (kept_slot kept.now)) }
        ensures { Some result.now ≡ value_at self.now (kept_slot kept.now) }
    {
        match &self.values[kept.slot] {
            None => unreachable!(),
            Some(value) => value,
        }
    }

    /// The item in slot `i`.
    pub fn value(&self, i: usize) -> &T
        requires slot { i < length self.now.states }
        requires used { is_used (status_at self.now i) ≡ true }
        ensures { Some result.now ≡ value_at self.now i }
    {
        match &self.values[i] {
            None => unreachable!(),
            Some(value) => value,
        }
    }

    /// What cell `c` keeps, `Free` where there is none.
    pub(crate) fn cell_of(&self, c: usize) -> Cell
        ensures { result ≡ cell_at self.now c }
    {
        match self.cells.get(c) {
            Some(cell) => *cell,
            None => Cell::Free,
        }
    }

    /// What cell `c` keeps.
    pub fn cell(&self, c: usize) -> Cell
        requires { c < length self.now.cells }
        ensures { result ≡ cell_at self.now c }
    {
        self.cells[c]
    }

    /// Takes a free cell, if there is one.
    pub fn claim_cell(&mut self, cell: Cell) -> Option<usize>
        requires { emptiness cell ≡ 0 }
        ensures claimed { IfSome result (λ c. ClaimsCell c cell self.old self.new) }
        ensures refused { IfNone result ((self.new ≡ self.old) × NoCellFree self.old) }
    {
        let c = self.free_cells.pop()?;
        self.cells[c] = cell;
        Some(c)
    }

    /// Changes what cell `c` keeps, which is in use and stays so.
    pub fn set_cell(&mut self, c: usize, cell: Cell)
        requires inside { c < length self.old.cells }
        requires was_used { emptiness (cell_at self.old c) ≡ 0 }
        requires used { emptiness cell ≡ 0 }
        ensures { self.new ≡ with_cell c cell self.old }
    {
        self.cells[c] = cell;
    }

    /// Gives cell `c` back.
    pub fn free_cell(&mut self, c: usize)
        requires inside { c < length self.old.cells }
        requires was_used { emptiness (cell_at self.old c) ≡ 0 }
        ensures { self.new ≡ with_cell c Cell.Free self.old }
    {
        self.cells[c] = Cell::Free;
        keep_name(&mut self.free_cells, c);
    }

    pub(crate) fn bags_are_empty(&self, p: usize) -> bool
        requires { p < length self.now.participants }
        ensures { result ≡ bags_empty (participant_at self.now p) }
    {
        self.participants.are_empty(p)
    }

    /// Room for all that the sizes name.
    pub fn new(alloc: Global, sizes: &Sizes) -> Result<Table<T, J>, AllocError>
        requires { sizes.now.slots + sizes.now.jobs < 2 ^ 32 }
        ensures { IfOk result (λ w. w ≡ fresh sizes.now) }
    {
        let places = sizes.slots + sizes.jobs;
        let (mut states, free) = free_slots(alloc, sizes.slots, places)?;
        let idle = idle_places(alloc, &mut states, sizes.jobs)?;
        let (cells, free_cells) = free_cells(alloc, sizes.cells)?;
        let participants = Participants::new(alloc, sizes.participants, places)?;
        let jobs = empty_slots(alloc, sizes.jobs)?;
        let values = empty_slots(alloc, places)?;
        Ok(Table {
            count: 0,
            used: 0,
            slots: sizes.slots,
            values,
            jobs,
            states,
            cells,
            participants,
            free,
            idle,
            free_cells,
            groups: Groups::new(alloc),
        })
    }

    /// Gives the room back, where no slot has an item and no group an owner.
    pub fn end(self)
        requires items { in_use self ≡ 0 }
        requires groups { NoneOut self.groups }
    {
        let Table {
            count: _,
            used: _,
            slots: _,
            mut values,
            jobs: _,
            states: _,
            cells: _,
            participants: _,
            free: _,
            idle: _,
            free_cells: _,
            groups,
        } = self;
        while let Some(value) = values.pop() {
            match value {
                None => {}
                Some(_) => unreachable!(),
            }
        }
        values.destroy_empty();
        groups.end();
    }
}

impl<T, J: Deferred> Store<T> for Table<T, J> {
    ghost use Rattle.sdd_table.specs.State.{with_value};

    ghost stored = { λ w. w };

    ghost with_stored = { with_value };

    fn item_mut(&mut self, i: usize) -> &mut T {
        filled(&mut self.values[i])
    }

    fn lone_mut(&mut self, i: usize) -> Option<&mut T> {
        match self.status(i) {
            Status::Shared(0 | 1) => Some(self.item_mut(i)),
            _ => None,
        }
    }
}

/// What is in a slot that has a value.
fn filled<T>(slot: &mut Option<T>) -> &mut T
    requires { IsSome slot.old }
    ensures* lends { sem 𝓛 (option_follows_value T.row slot.entry result) }
    ensures value { slot.old ≡ Some result.now }
{
    match slot {
        Some(value) => value,
        None => unreachable!(),
    }
}

/// Adds a name to a stack, which has room for it.
fn keep_name(stack: &mut Vec<usize>, i: usize)
    requires { vec_len stack.old < vec_capacity stack.old }
    ensures items { stack.new.items ≡ stack.old.items ++ i ∷ [] }
    ensures room { vec_capacity stack.old ≤ vec_capacity stack.new }
{
    match stack.push(i) {
        Ok(()) => {}
        Err(_) => unreachable!(),
    }
}

/// `n` free slots, in a vector with room for `places`, and their names.
fn free_slots(
    alloc: Global,
    n: usize,
    places: usize,
) -> Result<(Vec<Status>, Vec<usize>), AllocError>
    requires { n ≤ places }
    ensures states { IfOk result (λ r. r.0.items ≡ replicate n Status.Free) }
    ensures room { IfOk result (λ r. (places ≤ vec_capacity r.0) × (n ≤ vec_capacity r.1)) }
    ensures free { IfOk result (λ r. Lists vacancy r.0.items r.1.items) }
    ensures idle { IfOk result (λ r. Lists idleness r.0.items []) }
{
    let mut states = Vec::with_capacity(alloc, places)?;
    let mut free = Vec::with_capacity(alloc, n)?;
    for i in 0..n {
        states.push(Status::Free)?;
        free.push(i)?;
    }
    Ok((states, free))
}

/// Adds `n` job places without a job to the slots, and gives their names.
fn idle_places(alloc: Global, states: &mut Vec<Status>, n: usize) -> Result<Vec<usize>, AllocError>
    requires idle { Lists idleness states.old.items [] }
    ensures states { IfOk result (λ _. states.new.items ≡ states.old.items ++ replicate n Status.Idle) }
    ensures room { IfOk result (λ r. n ≤ vec_capacity r) }
    ensures free { (names : List ℕ) → Lists vacancy states.old.items names → IfOk result (λ _. Lists vacancy states.new.items names) }
    ensures idle { IfOk result (λ r. Lists idleness states.new.items r.items) }
{
    let mut idle = Vec::with_capacity(alloc, n)?;
    for _ in 0..n {
        idle.push(states.len())?;
        states.push(Status::Idle)?;
    }
    Ok(idle)
}

/// `n` free cells, and their names.
fn free_cells(alloc: Global, n: usize) -> Result<(Vec<Cell>, Vec<usize>), AllocError>
    ensures cells { IfOk result (λ r. r.0.items ≡ replicate n Cell.Free) }
    ensures free { IfOk result (λ r. IsFreeList emptiness r.0.items (length r.0.items) r.1) }
{
    let mut cells = Vec::with_capacity(alloc, n)?;
    let mut free = Vec::with_capacity(alloc, n)?;
    for i in 0..n {
        cells.push(Cell::Free)?;
        free.push(i)?;
    }
    Ok((cells, free))
}

/// Room for `n` values, and none there.
fn empty_slots<T>(alloc: Global, n: usize) -> Result<Vec<Option<T>>, AllocError>
    ensures { IfOk result (λ v. v.items ≡ replicate n None) }
{
    let mut values = Vec::with_capacity(alloc, n)?;
    for _ in 0..n {
        match values.push(None) {
            Ok(()) => {}
            Err(_) => unreachable!(),
        }
    }
    Ok(values)
}
