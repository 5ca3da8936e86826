//! A private bag: places that wait beside the bags of the participants.
//!
//! It is where a chain begins and where it ends: the use of each place in it names the one that came behind. So it takes no
//! memory, and a place is put in or taken out in constant time. Which places are in it contracts alone see.

ghost use Rattle.std.specs.Prelude.{◌≡◌, ◌<◌, ◌++◌, ◌∷◌, [], List, ℕ, length, IfSome, IfNone};
ghost use Rattle.sdd_table.specs.Steps.{left_behind};

use parted::GhostList;
use std::marker::Model;

/// The first and the last place of a private bag, how many wait in it, and for how many it has room.
#[derive(Drop)]
pub struct PrivateBag {
    first: usize,
    last: usize,
    count: usize,
    room: usize,
    /// All places, for contracts.
    listed: GhostList,
}

/// Invariant: specs/PrivateBags.antt, HasEnds: first and last are the ends of what contracts see.
impl Model for PrivateBag {
    ghost use Rattle.sdd_table.specs.PrivateBags.{Waiting, waiting_of, HasEnds};

    ghost Value = { Waiting };

    ghost view = { waiting_of };

    ghost invariant = { HasEnds };
}

impl PrivateBag {
    /// An empty bag, with room for `room` places.
    pub fn new(room: usize) -> PrivateBag
        ensures { result ≡ record { items = []; room = room } }
    {
        PrivateBag {
            first: 0,
            last: 0,
            count: 0,
            room,
            listed: GhostList::new(),
        }
    }

    /// How many places wait in it.
    pub(crate) fn len(&self) -> usize
        ensures { result ≡ length self.now.items }
    {
        self.count
    }

    /// For how many places it has room.
    pub(crate) fn room(&self) -> usize
        ensures { result ≡ self.now.room }
    {
        self.room
    }

    /// The place that has waited the longest.
    pub(crate) fn first(&self) -> Option<usize>
        ensures some { IfSome result (λ i. (is : List ℕ) × (self.now.items ≡ i ∷ is)) }
        ensures none { IfNone result (self.now.items ≡ []) }
    {
        if self.count == 0 {
            return None;
        }
        Some(self.first)
    }

    /// The place that came last.
    pub(crate) fn last(&self) -> Option<usize>
        ensures some { IfSome result (λ i. (is : List ℕ) × (self.now.items ≡ is ++ i ∷ [])) }
        ensures none { IfNone result (self.now.items ≡ []) }
    {
        if self.count == 0 {
            return None;
        }
        Some(self.last)
    }

    /// Place `i` waits behind all others, where there is room.
    pub(crate) fn push(&mut self, i: usize)
        requires { length self.old.items < self.old.room }
        ensures { self.new ≡ record self.old { items = self.old.items ++ i ∷ [] } }
    {
        if self.count == 0 {
            self.first = i;
        }
        self.last = i;
        self.count += 1;
        self.listed.push(i as u64);
    }

    /// The first place waits no longer. `behind` is the one that it names; where one place is left, that is the last.
    pub(crate) fn leave(&mut self, behind: usize)
        ensures room { self.new.room ≡ self.old.room }
        ensures left { (i : ℕ) (is : List ℕ) → self.old.items ≡ i ∷ is → self.new ≡ record self.old { items = left_behind behind is } }
    {
        if self.count == 0 {
            return;
        }
        self.count -= 1;
        self.listed.remove_first();
        if self.count == 1 {
            self.first = self.last;
        }
        if self.count > 1 {
            self.first = behind;
            self.listed.set_first(behind as u64);
        }
    }
}
