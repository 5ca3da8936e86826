//! The single steps beside a place of versions.

use sdd_steps::{Item as Counterpart, ItemState, Seq, State, Step, apply};
use std::alloc::Global;
use std::process::Abort;

// The participants of both, and the cell of the steps that is the root.
pub(crate) const READER: usize = 0;

pub(crate) const WRITER: usize = 1;

const ROOT: usize = 0;

// The items in the order of placing: the empty version, the first one behind its two segments, and the second one, which
// takes the first segment over, behind its new one.
pub(crate) const EMPTY: usize = 0;

const TAKEN: usize = 1;

pub(crate) const FIRST: usize = 3;

pub(crate) const SECOND: usize = 5;

// What an item holds.
fn held(item: usize) -> &'static [usize] {
    match item {
        FIRST => &[TAKEN, 2],
        SECOND => &[TAKEN, 4],
        _ => &[],
    }
}

// An accelerated guard of the writer, by what it does: nothing, raise the count, rotate, both, or both where an item is
// reclaimed.
#[derive(Clone, Copy)]
pub(crate) enum Turn {
    Still,
    Lift,
    Rotation,
    Round,
    Goes(usize),
}

// What a step leaves, which has to be enabled.
fn after<R: Abort>(rt: &R, alloc: Global, state: State, step: Step) -> State {
    match apply(alloc, &state, step) {
        Ok(Some(next)) => next,
        _ => panic!(rt; "a step that isn't enabled"),
    }
}

fn is_refused<R: Abort>(rt: &R, alloc: Global, state: &State, step: Step) -> bool {
    apply(alloc, state, step).expect(rt, "memory").is_none()
}

// The state of the single steps.
#[derive(Drop)]
pub(crate) struct Beside<'r, R> {
    rt: &'r R,
    alloc: Global,
    pub(crate) state: State,
}

impl<'r, R: Abort> Beside<'r, R> {
    // The first version is the root's, and the second one has an owner.
    pub(crate) fn new(rt: &'r R, alloc: Global) -> Self {
        let state = State::start(alloc, 2, 1).expect(rt, "memory");
        let mut beside = Beside { rt, alloc, state };
        for (value, item) in [(0, EMPTY), (11, TAKEN), (12, 2), (10, FIRST)] {
            beside = beside.place(value, item);
        }
        beside = beside.go(Step::RaiseOwners(WRITER, TAKEN));
        beside = beside.place(22, 4).place(20, SECOND).let_go(EMPTY);
        beside.go(Step::SwapCell(WRITER, ROOT, Some(FIRST)))
    }

    pub(crate) fn go(self, step: Step) -> Self {
        let Beside { rt, alloc, state } = self;
        Beside {
            rt,
            alloc,
            state: after(rt, alloc, state, step),
        }
    }

    // The writer places an item.
    fn place(self, value: u64, item: usize) -> Self {
        let mut holds = Seq::new(self.alloc);
        for one in held(item) {
            assert!(self.rt; holds.push(*one).is_ok());
        }
        let none = Seq::new(self.alloc);
        self.go(Step::Place(WRITER, value, holds, none))
    }

    // The writer gives an owner of an item back, and retires the item where that was the last one.
    fn let_go(self, item: usize) -> Self {
        let released = self.go(Step::Release(WRITER, item));
        if has_owners(&released.state, item) {
            return released;
        }
        released.go(Step::Retire(WRITER, item))
    }

    // The writer reclaims an item, and with it the owners of what it holds go, the last one first.
    fn reclaim(self, item: usize) -> Self {
        let mut beside = self.go(Step::Reclaim(WRITER, item));
        for one in held(item).iter().rev() {
            beside = beside.go(Step::GiveUp(WRITER, item, *one)).let_go(*one);
        }
        beside
    }

    // A participant's guard opens.
    fn open(self, participant: usize, rotates: bool) -> Self {
        let open = self
            .go(Step::ReadEpoch(participant))
            .go(Step::Publish(participant));
        if rotates {
            return open.go(Step::Rotate(participant));
        }
        open
    }

    // The reader's guard opens, the root is loaded, and the second version takes the place of the first one.
    pub(crate) fn read_first(self) -> Self {
        let loaded = self.open(READER, true).go(Step::LoadCell(READER, ROOT));
        loaded
            .go(Step::SwapCell(WRITER, ROOT, Some(SECOND)))
            .let_go(FIRST)
    }

    // Neither a look at the reader nor a raise is enabled.
    fn stays(self) -> Self {
        let looks = is_refused(self.rt, self.alloc, &self.state, Step::Look(WRITER, READER));
        let raises = is_refused(self.rt, self.alloc, &self.state, Step::Raise(WRITER));
        assert!(self.rt; looks && raises);
        self
    }

    // An accelerated guard of the writer, in steps.
    pub(crate) fn take_turn(self, turn: Turn) -> Self {
        let open = self.open(WRITER, !matches!(turn, Turn::Still | Turn::Lift));
        let done = match turn {
            Turn::Still | Turn::Rotation => open.stays(),
            Turn::Lift | Turn::Round => open.raise(),
            Turn::Goes(item) => open.reclaim(item).raise(),
        };
        done.go(Step::Close(WRITER))
    }

    // The writer raises the count.
    fn raise(self) -> Self {
        self.go(Step::Look(WRITER, READER)).go(Step::Raise(WRITER))
    }

    pub(crate) fn has(&self, item: usize) -> bool {
        match self.state.items().get(item) {
            Some(item) => is_there(item),
            None => false,
        }
    }

    // How many items are there.
    pub(crate) fn left(&self) -> usize {
        let mut count = 0usize;
        for item in self.state.items() {
            if is_there(item) {
                count = count.saturating_add(1);
            }
        }
        count
    }
}

fn has_owners(state: &State, item: usize) -> bool {
    match state.items().get(item) {
        Some(item) => item.owners > 0,
        None => false,
    }
}

fn is_there(item: &Counterpart) -> bool {
    !matches!(item.state, ItemState::Reclaimed(_))
}
