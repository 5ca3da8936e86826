//! The promise, looked at after each step of random lists.

use crate::common::{Move, after, started};
use sdd_steps::{Item, ItemState, Loaded, Participant, Phase, Seen, State};
use std::alloc::Global;
use std::process::Abort;

// Whether a loaded item is as it was when it was loaded.
fn is_intact(items: &[Item], loaded: &Loaded) -> bool {
    let Some(item) = items.get(loaded.item) else {
        return false;
    };
    if let ItemState::Reclaimed(_) = item.state {
        return false;
    }
    item.value == loaded.value
        && item.holds.as_slice().len() == loaded.holds.as_slice().len()
        && item
            .holds
            .as_slice()
            .iter()
            .zip(loaded.holds.as_slice())
            .all(|(k, seen)| *k == seen.item)
        && loaded
            .holds
            .as_slice()
            .iter()
            .all(|seen| is_owned(items, seen))
}

fn is_owned(items: &[Item], seen: &Seen) -> bool {
    match items.get(seen.item) {
        Some(item) => item.value == seen.value && item.owners > 0 && item.state == ItemState::Live,
        None => false,
    }
}

fn keeps(items: &[Item], participant: &Participant) -> bool {
    match participant.phase {
        Phase::Opened(_) => participant
            .loaded
            .as_slice()
            .iter()
            .all(|loaded| is_intact(items, loaded)),
        _ => true,
    }
}

// The promise, found out by a walk.
fn keeps_all(state: &State) -> bool {
    state
        .participants()
        .iter()
        .all(|participant| keeps(state.items(), participant))
}

// Numbers that look random.
#[derive(Drop)]
struct Dice {
    seed: u64,
}

impl Dice {
    fn below(&mut self, n: u64) -> u64 {
        self.seed = self
            .seed
            .wrapping_mul(6364136223846793005)
            .wrapping_add(1442695040888963407);
        (self.seed >> 33).checked_rem(n).unwrap_or(0)
    }

    fn number(&mut self, n: u64) -> usize {
        self.below(n) as usize
    }
}

// A step of any kind, on one of two participants, three cells and the items so far.
fn any_move(dice: &mut Dice, items: usize) -> Move {
    let (p, q) = (dice.number(2), dice.number(2));
    let (i, k) = (dice.number(items as u64), dice.number(items as u64));
    let c = dice.number(3);
    let value = dice.below(100);
    let some = if value % 2 == 0 { Some(i) } else { None };
    match dice.below(28) {
        0 => Move::ReadEpoch(p),
        1 => Move::Publish(p),
        2 => Move::Rotate(p),
        3 | 4 => Move::LoadCell(p, c),
        5 => Move::LoadInHand(p, i),
        6 => Move::ReadSegment(p, i, k),
        7 | 8 => Move::SwapCell(p, c, some),
        9 | 10 => Move::Release(p, i),
        11 => Move::Retire(p, i),
        12 => Move::Collect(p, i),
        13 => Move::Look(p, q),
        14 => Move::Raise(p),
        15 => Move::Reclaim(p, i),
        16 => Move::GiveUp(p, i, k),
        17 => Move::GiveUpCell(p, c),
        18 => Move::Close(p),
        19 if items < 20 => Move::Place(p, value, Some(i), None),
        20 if items < 20 => Move::Place(p, value, None, Some(c)),
        21 if items < 20 => Move::Place(p, value, None, None),
        22 => Move::RaiseOwners(p, i),
        23 => Move::Reread(p),
        24 => Move::End(p),
        25 => Move::TakeOver(p, i),
        26 => Move::LookShut(p, q),
        _ => Move::Settle(p),
    }
}

// How many of this many random steps were taken, with the promise looked at after each of these, and how many items
// were reclaimed.
fn random_steps<R: Abort>(rt: &R, alloc: Global, seed: u64, n: u32) -> (u32, usize) {
    let mut dice = Dice { seed };
    let mut state = started(rt, alloc, 2, 3);
    let mut taken: u32 = 0;
    for _i in 0..n {
        let one = any_move(&mut dice, state.items().len());
        if let Some(next) = after(rt, alloc, &state, one) {
            assert!(rt; keeps_all(&next));
            state = next;
            taken = taken.saturating_add(1);
        }
    }
    let gone = state.items().iter().filter(|item| is_gone(item)).count();
    (taken, gone)
}

fn is_gone(item: &Item) -> bool {
    matches!(item.state, ItemState::Reclaimed(_))
}

#[test]
fn random_lists_of_steps_keep_the_promise(rt: HostRuntime) {
    let alloc = rt.alloc();
    let mut taken: u32 = 0;
    let mut reclaimed: usize = 0;
    for seed in 0..20 {
        let (steps, gone) = random_steps(&rt, alloc, seed, 5000);
        taken = taken.saturating_add(steps);
        reclaimed = reclaimed.saturating_add(gone);
    }
    assert!(rt; taken > 5000);
    assert!(rt; reclaimed > 20);
}
