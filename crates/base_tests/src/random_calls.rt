//! Random lists of calls, beside a plain model of what a place should do: an item that nobody owns any more has an age,
//! which rises where its retirer's outermost opening finds another count, and its slot is free at age three. The model
//! throws the calls as rows, with what they have to find.

use crate::play::are_right;
use crate::stage::{Stage, told};
use crate::steps::Found::{Back, Done, Guarded, Is, Tagged};
use crate::steps::{A, B, Found, G, Row, Step, W};
use sdd_world::{Job, Tag};
use std::alloc::{AllocError, Global};
use std::mem;
use std::process::Abort;

const SLOTS: usize = 6;

/// An age at which an item is gone.
const GONE: u32 = 3;

/// Pseudorandom numbers, by a linear congruence.
#[derive(Drop)]
struct Dice {
    seed: u64,
    /// One of this many closings is accelerated.
    haste: usize,
}

impl Dice {
    /// A number below `n`, or 0.
    fn roll(&mut self, n: usize) -> usize {
        self.seed = self
            .seed
            .wrapping_mul(6364136223846793005)
            .wrapping_add(1442695040888963407);
        let high = (self.seed >> 40) as usize;
        high.checked_rem(n).unwrap_or(0)
    }
}

/// What the model knows of an item: its value, how many owners it has, and then who retired it and its age. An item that a
/// collector has was retired by no participant.
#[derive(Clone, Copy, Drop)]
struct Known {
    value: u64,
    owners: u32,
    retirer: usize,
    age: u32,
}

const NOBODY: usize = usize::MAX;

/// What the model knows of a participant. A nest is over with its outermost closing.
#[derive(Clone, Copy, Default, Drop)]
struct ParticipantState {
    open: u32,
    seen: u64,
    before: u64,
    fast: bool,
    garbage: bool,
    closings: u32,
    nest: u64,
}

/// What is at a place of the caller's.
#[derive(Clone, Copy, PartialEq, Eq)]
enum Kind {
    Owned,
    Shared,
    Guard,
}

/// Where it is, and its item, or the participant of the guard.
#[derive(Clone, Copy, Drop)]
struct Had {
    at: usize,
    kind: Kind,
    of: usize,
}

/// Where something is seen, its value, and the nest under which it is.
#[derive(Clone, Copy, Drop)]
struct Sight {
    at: usize,
    value: u64,
    participant: usize,
    nest: u64,
}

/// The items that were made, how many slots they use, the counts at which the collector took those that wait in it, the
/// participants, and the count of raises; what the caller has and sees, and the place behind all of it; and the item and the
/// tag of the cell.
#[derive(Drop)]
struct Plain {
    items: Vec<Known>,
    used: usize,
    apart: Vec<u64>,
    participants: Vec<ParticipantState>,
    count: u64,
    hand: Vec<Had>,
    sights: Vec<Sight>,
    place: usize,
    cell: Option<usize>,
    tag: Tag,
}

impl Plain {
    fn new(alloc: Global) -> Result<Plain, AllocError> {
        let mut participants = Vec::new(alloc);
        for _ in 0..3 {
            participants.push(ParticipantState::default())?;
        }
        Ok(Plain {
            items: Vec::new(alloc),
            used: 0,
            apart: Vec::new(alloc),
            participants,
            count: 0,
            hand: Vec::new(alloc),
            sights: Vec::new(alloc),
            place: G + 1,
            cell: None,
            tag: Tag::None,
        })
    }

    /// How many guards are open; and whether each of them has the present count.
    fn guards(&self) -> (u32, bool) {
        let mut open = 0u32;
        let mut current = true;
        for participant in &self.participants {
            open = open.saturating_add(participant.open);
            current = current && (participant.open == 0 || participant.seen == self.count);
        }
        (open, current)
    }

    /// One owner is given back, by a participant who retires the item with the last one, or by nobody: whether it was.
    fn give(&mut self, item: usize, p: usize) -> bool {
        let mut last = false;
        if let Some(known) = self.items.get_mut(item) {
            known.owners = known.owners.saturating_sub(1);
            known.retirer = p;
            last = known.owners == 0;
        }
        if last && let Some(participant) = self.participants.get_mut(p) {
            participant.garbage = true;
        }
        last
    }

    /// One owner is given back, and with the last one the item waits in the collector; what was collected three raises
    /// ago is reclaimed.
    fn collect(&mut self, item: usize) -> bool {
        let last = self.give(item, NOBODY);
        if last {
            let _kept = self.apart.push(self.count);
        }
        for _ in 0..self.apart.len() {
            if let Some(note) = self.apart.first().copied()
                && note.saturating_add(3) <= self.count
            {
                self.apart.remove(0);
                self.used = self.used.saturating_sub(1);
            }
        }
        last
    }

    /// What `p` retired is older by one.
    fn grow_old(&mut self, p: usize) {
        let mut waits = false;
        let mut gone = 0usize;
        for i in 0..self.items.len() {
            let known = self.items[i];
            if known.owners == 0 && known.retirer == p && known.age < GONE {
                let age = known.age.saturating_add(1);
                self.items[i].age = age;
                if age == GONE {
                    gone = gone.saturating_add(1);
                }
                waits = waits || age < GONE;
            }
        }
        self.used = self.used.saturating_sub(gone);
        if let Some(participant) = self.participants.get_mut(p) {
            participant.garbage = participant.garbage && waits;
        }
    }

    fn open(&mut self, p: usize) {
        let count = self.count;
        let mut turns = false;
        if let Some(participant) = self.participants.get_mut(p) {
            if participant.open == 0 {
                turns = participant.before != count;
                participant.seen = count;
                participant.before = count;
                participant.fast = false;
            }
            participant.open = participant.open.saturating_add(1);
        }
        if turns {
            self.grow_old(p);
        }
    }

    fn close(&mut self, p: usize, hastens: bool) {
        let mut scans = false;
        let (_, current) = self.guards();
        if let Some(participant) = self.participants.get_mut(p) {
            participant.fast = participant.fast || hastens;
            participant.open = participant.open.saturating_sub(1);
            if participant.open == 0 {
                participant.nest = participant.nest.saturating_add(1);
                participant.closings = participant.closings.saturating_add(1).min(64);
                scans = participant.fast || participant.garbage && participant.closings == 64;
                if scans {
                    participant.closings = 0;
                }
            }
        }
        if scans && current {
            self.count = self.count.saturating_add(1);
        }
    }

    /// Any thing of a kind that the caller has, and where the model has it.
    fn any(&self, kind: Kind, dice: &mut Dice) -> Option<(usize, Had)> {
        let len = self.hand.len();
        let start = dice.roll(len);
        for i in 0..len {
            let next = start.saturating_add(i).checked_rem(len).unwrap_or(0);
            if let Some(had) = self.hand.get(next)
                && had.kind == kind
            {
                return Some((next, *had));
            }
        }
        None
    }

    /// The place behind all others.
    fn next_place(&mut self) -> usize {
        let at = self.place;
        self.place = at.saturating_add(1);
        at
    }

    /// The caller has one more thing there.
    fn gain(&mut self, kind: Kind, of: usize) -> usize {
        let at = self.next_place();
        let _kept = self.hand.push(Had { at, kind, of });
        at
    }

    /// The caller has it no longer.
    fn lose(&mut self, i: usize) {
        if i < self.hand.len() {
            self.hand.remove(i);
        }
    }

    /// Where there is nothing to make a call with.
    fn idle(&self) -> Row {
        (W, Step::IsGuarded, told(self.guards().0 > 0))
    }

    /// A new item, refused if and only if no slot is free. Its value is the number of the call.
    fn make(&mut self, kind: Kind, value: u64) -> Row {
        let full = self.used == SLOTS;
        let mut at = self.place;
        if !full {
            let item = self.items.len();
            at = self.gain(kind, item);
            self.used = self.used.saturating_add(1);
            let _kept = self.items.push(Known {
                value,
                owners: 1,
                retirer: NOBODY,
                age: 0,
            });
        }
        let step = match kind {
            Kind::Owned => Step::Own(value),
            _ => Step::Share(value),
        };
        (at, step, if full { Back(value) } else { Done })
    }

    /// One more owner, or one less; in place only where no guard is open.
    fn with_a_shared(&mut self, dice: &mut Dice, choice: usize, p: usize) -> Row {
        let Some((i, had)) = self.any(Kind::Shared, dice) else {
            return self.idle();
        };
        if choice == 3 {
            if let Some(known) = self.items.get_mut(had.of) {
                known.owners = known.owners.saturating_add(1);
            }
            let to = self.gain(Kind::Shared, had.of);
            return (had.at, Step::Clone(to), Done);
        }
        if choice < 6 {
            self.lose(i);
            return (had.at, Step::Release(p), told(self.give(had.of, p)));
        }
        if self.guards().0 > 0 {
            return (had.at, Step::Drop, Guarded);
        }
        self.lose(i);
        let last = self.give(had.of, NOBODY);
        if last {
            self.used = self.used.saturating_sub(1);
        }
        (had.at, Step::Drop, told(last))
    }

    /// What an owner names is seen under a guard, or collected.
    fn with_a_guard(&mut self, dice: &mut Dice, collects: bool) -> Row {
        let (guard, had) = (self.any(Kind::Guard, dice), self.any(Kind::Shared, dice));
        let (Some((_, guard)), Some((i, had))) = (guard, had) else {
            return self.idle();
        };
        if collects {
            self.lose(i);
            let step = Step::Collect(had.at, guard.at);
            return (B, step, told(self.collect(had.of)));
        }
        let at = self.next_place();
        if let Some(known) = self.items.get(had.of)
            && let Some(state) = self.participants.get(guard.of)
        {
            let _kept = self.sights.push(Sight {
                at,
                value: known.value,
                participant: guard.of,
                nest: state.nest,
            });
        }
        (guard.at, Step::See(had.at, at), Done)
    }

    /// An item is retired; or its value is another one, or nothing is changed while a guard is open.
    fn with_an_owned(&mut self, dice: &mut Dice, writes: bool, new: u64, p: usize) -> Row {
        let Some((i, had)) = self.any(Kind::Owned, dice) else {
            return self.idle();
        };
        if !writes {
            self.give(had.of, p);
            self.lose(i);
            return (had.at, Step::Retire(p), Done);
        }
        let mut found = Guarded;
        if self.guards().0 == 0
            && let Some(known) = self.items.get_mut(had.of)
        {
            found = Is(mem::replace(&mut known.value, new));
        }
        (had.at, Step::Write(new), found)
    }

    fn open_one(&mut self, p: usize) -> Row {
        if self.guards().0 > 4 {
            return self.idle();
        }
        self.open(p);
        (self.gain(Kind::Guard, p), Step::Open(p), Done)
    }

    /// A guard is accelerated, perhaps, and closed.
    fn close_one(&mut self, dice: &mut Dice) -> [Row; 2] {
        let Some((i, guard)) = self.any(Kind::Guard, dice) else {
            return [self.idle(), self.idle()];
        };
        let hastens = dice.roll(dice.haste) == 0;
        let mut before = self.idle();
        if hastens {
            before = (guard.at, Step::Accelerate, Done);
        }
        self.close(guard.of, hastens);
        self.lose(i);
        [before, (guard.at, Step::Close, Done)]
    }

    /// An owner is put into the cell, or none, and what was there is put in its place.
    fn swap_one(&mut self, dice: &mut Dice) -> Row {
        let tag = mem::replace(&mut self.tag, Tag::First);
        let given = if dice.roll(3) == 0 {
            None
        } else {
            self.any(Kind::Shared, dice)
        };
        let (at, new) = match given {
            Some((i, had)) => {
                self.lose(i);
                (had.at, Some(had.of))
            }
            None => (self.place, None),
        };
        if let Some(item) = mem::replace(&mut self.cell, new) {
            self.place = self.place.max(at.saturating_add(1));
            let _kept = self.hand.push(Had {
                at,
                kind: Kind::Shared,
                of: item,
            });
        }
        (A, Step::Swap(at, Tag::First), Tagged(tag))
    }

    /// A call at random, and another one that belongs to it.
    fn thrown(&mut self, dice: &mut Dice, number: u64) -> [Row; 2] {
        let p = dice.roll(3);
        let choice = dice.roll(17);
        let row = match choice {
            0 => self.make(Kind::Owned, number),
            1 | 2 => self.make(Kind::Shared, number),
            3..=6 => self.with_a_shared(dice, choice, p),
            7 | 8 => self.with_an_owned(dice, choice == 8, number, p),
            9 | 10 => self.open_one(p),
            11..=13 => return self.close_one(dice),
            14 | 15 => self.with_a_guard(dice, choice == 15),
            _ => self.swap_one(dice),
        };
        [row, self.idle()]
    }

    /// Whether a nest isn't over.
    fn is_on(&self, sight: &Sight) -> bool {
        let participant = self.participants.get(sight.participant);
        participant.is_some_and(|state| state.open > 0 && state.nest == sight.nest)
    }
}

/// Whether as many slots are in use as the model says, and what was seen under a guard that is open is still to be read.
fn is_alike<R: Abort>(stage: &mut Stage<'_, R, Job>, plain: &Plain) -> bool {
    let mut alike = stage.step(W, Step::Slots) == Is(plain.used as u64);
    for sight in &plain.sights {
        if plain.is_on(sight) {
            alike = stage.step(sight.at, Step::Look) == Is(sight.value) && alike;
        }
    }
    alike
}

/// How many of this many random calls are answered as the model says, before the first that isn't.
fn played<R: Abort>(
    stage: &mut Stage<'_, R, Job>,
    plain: &mut Plain,
    dice: &mut Dice,
    calls: u64,
) -> u64 {
    for call in 0..calls {
        let rows = plain.thrown(dice, call);
        if !are_right(stage, &rows) || !is_alike(stage, plain) {
            return call;
        }
    }
    calls
}

const START: &[Row] = &[(A, Step::NullSharedCell, Done), (B, Step::Collector, Done)];

/// Everything is given back.
const END: &[Row] = &[
    (W, Step::GiveRest, Done),
    (A, Step::EndCell(0), Done),
    (B, Step::HandOver(0), Done),
];

/// How many random calls are right in a new place.
fn right<R: Abort>(rt: &R, alloc: Global, start: Dice, calls: u64) -> u64 {
    let Ok(mut plain) = Plain::new(alloc) else {
        panic!(rt; "memory is ample");
    };
    let mut dice = start;
    let mut stage = Stage::new(rt, alloc, [3, SLOTS, 1, 0]);
    let started = are_right(&mut stage, START);
    let right = played(&mut stage, &mut plain, &mut dice, calls);
    let ended = are_right(&mut stage, END);
    stage.end();
    if started && ended { right } else { 0 }
}

const FAST: Dice = Dice { seed: 1, haste: 2 };

/// Few closings are accelerated.
const SLOW: Dice = Dice {
    seed: 2,
    haste: 400,
};

#[test]
fn random_calls_agree_with_a_plain_model(rt: HostRuntime) {
    let right = [
        right(&rt, rt.alloc(), FAST, 1600),
        right(&rt, rt.alloc(), SLOW, 6000),
    ];
    assert_eq!(rt; right, [1600, 6000]);
}
