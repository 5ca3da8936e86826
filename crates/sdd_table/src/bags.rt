//! Participants, and the bags in which places wait for them.
//!
//! A bag is a chain: a participant notes which place came into it last, and the link word of each place names the one
//! that came before it. No place is in two bags, so one word a place serves the bags of all participants, and what
//! waits takes no memory of its own. A place is put, taken out or recalled, and bags move on, in constant time.

ghost use Rattle.std.specs.Prelude.{◌≡◌, ◌<◌, List, ◌∷◌, [], length, replicate, IfSome, IfNone, IfOk, IsTrue, IsFalse, ℕ, sum_by};
ghost use Rattle.std.specs.List.{list_all};
ghost use Rattle.sdd_table.specs.State.{nobody, put_participant, bags_moved_on, left_due, recalled, with_local_state, published_at, concluded_with, hastened, is_present};
ghost use Rattle.sdd_table.specs.Steps.{bags_empty, settled_in};
ghost use Rattle.sdd_table.specs.Place.{held_times};
ghost use Rattle.sdd_table.specs.Chains.{participant_in, changed_in};

use crate::status::LocalState;
use std::alloc::{AllocError, Global};
use std::marker::Model;

/// A participant: its notes, and for each of its bags one more than the place that came into it last, or 0 where the bag
/// is empty.
#[derive(Clone, Copy, Drop)]
pub(crate) struct Participant {
    local: LocalState,
    current: usize,
    prior: usize,
    oldest: usize,
    due: usize,
    /// How many places are in the current bag.
    newest: usize,
}

/// All participants. No place is in two of their bags.
#[derive(Drop)]
pub(crate) struct Participants {
    /// One more than the place that came before, for each place in a bag, or 0 where it came first.
    links: Vec<usize>,
    all: Vec<Participant>,
}

/// Invariant: specs/Chains.antt, AreThreaded: each bag is the chain from its head, and no place is in two.
impl Model for Participants {
    ghost use Rattle.sdd_table.specs.Chains.{Shown, shown_of, AreThreaded};

    ghost Value = { Shown };

    ghost view = { shown_of };

    ghost invariant = { AreThreaded };
}

impl Participants {
    /// `n` participants whose bags are empty, and a link word for each of `places` places.
    pub(crate) fn new(alloc: Global, n: usize, places: usize) -> Result<Participants, AllocError>
        ensures { IfOk result (λ q. q ≡ record { places = places; all = replicate n nobody }) }
    {
        let mut links = Vec::with_capacity(alloc, places)?;
        for _ in 0..places {
            links.push(0)?;
        }
        let mut all = Vec::with_capacity(alloc, n)?;
        for _ in 0..n {
            all.push(Participant {
                local: LocalState {
                    nesting: 0,
                    published: 0,
                    previous: 0,
                    accelerated: false,
                    garbage: false,
                    closings: 0,
                },
                current: 0,
                prior: 0,
                oldest: 0,
                due: 0,
                newest: 0,
            })?;
        }
        Ok(Participants { links, all })
    }

    /// How many participants there are.
    pub(crate) fn len(&self) -> usize
        ensures { result ≡ length self.now.all }
    {
        self.all.len()
    }

    /// What participant `p` notes of itself.
    pub(crate) fn local(&self, p: usize) -> LocalState
        requires { p < length self.now.all }
        ensures { result ≡ (participant_in self.now.all p).local }
    {
        self.all[p].local
    }

    /// Participant `p` notes this of itself.
    pub(crate) fn set_local(&mut self, p: usize, local: LocalState)
        requires { p < length self.old.all }
        ensures { self.new ≡ changed_in p (with_local_state local) self.old }
    {
        self.all[p].local = local;
    }

    /// The outermost guard of `p` opens, and publishes this count.
    pub(crate) fn publish(&mut self, p: usize, count: u64)
        requires { p < length self.old.all }
        ensures { self.new ≡ changed_in p (published_at count) self.old }
    {
        let participant = &mut self.all[p];
        participant.local.nesting = 1;
        participant.local.published = count;
        participant.local.previous = count;
        participant.local.accelerated = false;
    }

    /// The outermost guard of `p` closes, with so many closings since the last scan.
    pub(crate) fn conclude(&mut self, p: usize, closings: u8)
        requires { p < length self.old.all }
        ensures { self.new ≡ changed_in p (concluded_with closings) self.old }
    {
        let participant = &mut self.all[p];
        participant.local.nesting = 0;
        participant.local.closings = closings;
    }

    /// A guard of `p` is accelerated.
    pub(crate) fn accelerate(&mut self, p: usize)
        requires { p < length self.old.all }
        ensures { self.new ≡ changed_in p hastened self.old }
    {
        let participant = &mut self.all[p];
        participant.local.accelerated = true;
    }

    /// The garbage of `p` stays noted only if something waits in its bags.
    pub(crate) fn settle(&mut self, p: usize)
        requires { p < length self.old.all }
        ensures { self.new ≡ changed_in p settled_in self.old }
    {
        let empty = self.are_empty(p);
        let participant = &mut self.all[p];
        participant.local.garbage = participant.local.garbage & !empty;
    }

    /// Place `i`, which is in no bag, waits in the current bag of `p`.
    pub(crate) fn put(&mut self, p: usize, i: usize)
        requires participant { p < length self.old.all }
        requires place { i < self.old.places }
        requires none { sum_by (held_times i) self.old.all ≡ 0 }
        ensures { self.new ≡ changed_in p (put_participant i) self.old }
    {
        let participant = &mut self.all[p];
        self.links[i] = participant.current;
        *participant = Participant {
            local: LocalState {
                garbage: true,
                ..participant.local
            },
            current: i + 1,
            newest: participant.newest + 1,
            ..*participant
        };
    }

    /// The next place that is due to `p`, which waits no longer.
    pub(crate) fn next(&mut self, p: usize) -> Option<usize>
        requires { p < length self.old.all }
        ensures none { IfNone result (((participant_in self.old.all p).due ≡ []) × (self.new ≡ self.old)) }
        ensures taken { IfSome result (λ i. (is : List ℕ) × ((participant_in self.old.all p).due ≡ i ∷ is) × (self.new ≡ changed_in p (left_due is) self.old)) }
    {
        let participant = &mut self.all[p];
        if participant.due == 0 {
            return None;
        }
        let i = participant.due - 1;
        participant.due = self.links[i];
        Some(i)
    }

    /// How many places wait in the current bag of `p`.
    pub(crate) fn newest(&self, p: usize) -> usize
        requires { p < length self.now.all }
        ensures { result ≡ length (participant_in self.now.all p).current }
    {
        self.all[p].newest
    }

    /// The place that came last into the current bag of `p` is due.
    pub(crate) fn unretire(&mut self, p: usize)
        requires { p < length self.old.all }
        ensures { self.new ≡ changed_in p recalled self.old }
    {
        let participant = &mut self.all[p];
        if participant.current == 0 {
            return;
        }
        let link = &mut self.links[participant.current - 1];
        let before = *link;
        *link = participant.due;
        participant.due = participant.current;
        participant.current = before;
        participant.newest -= 1;
    }

    /// The bags of `p` move on, and the oldest is due.
    pub(crate) fn turn(&mut self, p: usize)
        requires participant { p < length self.old.all }
        requires due { (participant_in self.old.all p).due ≡ [] }
        ensures { self.new ≡ changed_in p bags_moved_on self.old }
    {
        let participant = &mut self.all[p];
        participant.due = participant.oldest;
        participant.oldest = participant.prior;
        participant.prior = participant.current;
        participant.current = 0;
        participant.newest = 0;
    }

    /// Whether nothing waits in the three bags of `p`.
    pub(crate) fn are_empty(&self, p: usize) -> bool
        requires { p < length self.now.all }
        ensures { result ≡ bags_empty (participant_in self.now.all p) }
    {
        let participant = &self.all[p];
        participant.current == 0 && participant.prior == 0 && participant.oldest == 0
    }

    /// Whether every open guard published this count.
    pub(crate) fn all_present(&self, count: u64) -> bool
        ensures { result ≡ list_all (is_present count) self.now.all }
    {
        for participant in &self.all {
            if participant.local.nesting != 0 && participant.local.published != count {
                return false;
            }
        }
        true
    }

    /// Whether a guard is open.
    pub(crate) fn any_open(&self) -> bool
        ensures open { IsTrue result → (p : ℕ) × (0 < (participant_in self.now.all p).local.nesting) }
        ensures none { IsFalse result → (p : ℕ) → (participant_in self.now.all p).local.nesting ≡ 0 }
    {
        for participant in &self.all {
            if participant.local.nesting != 0 {
                return true;
            }
        }
        false
    }
}
