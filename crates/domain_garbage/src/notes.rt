//! The notes of what is in a private bag: for each item the count of raises that was read before it came in.
//!
//! A collect first reclaims what was noted three or more below the count that it reads, so at most two other notes are left,
//! and notes rise in the order in which items come. Three notes, each with how many items have it, represent all of them.

ghost use Rattle.std.specs.Prelude.{◌≡◌, ◌+◌, ◌-◌, ◌^◌, ◌<◌, ◌≤◌, ◌++◌, ◌∷◌, [], List, ℕ, length, IfSome, IfNone};
ghost use Rattle.sdd_steps.specs.State.{Has};

use std::marker::Model;

/// A number of items, one behind the other, with this note.
#[derive(Clone, Copy, Drop)]
struct Run {
    note: u64,
    count: usize,
}

/// The notes of all items, as contracts see them: the newest in front.
#[derive(Drop)]
pub struct Notes {
    newest: Run,
    middle: Run,
    oldest: Run,
}

/// Invariant: specs/Runs.antt, AreRuns: notes rise, and no older run has items where a newer one has none.
impl Model for Notes {
    ghost use Rattle.std.specs.Prelude.{List, ℕ};
    ghost use Rattle.domain_garbage.specs.Runs.{notes_of, AreRuns};

    ghost Value = { List ℕ };

    ghost view = { notes_of };

    ghost invariant = { AreRuns };
}

impl Notes {
    /// No item is noted.
    pub(crate) fn new() -> Notes
        ensures { result ≡ [] }
    {
        let none = Run { note: 0, count: 0 };
        Notes {
            newest: none,
            middle: none,
            oldest: none,
        }
    }

    /// The note of the item that came first.
    pub(crate) fn oldest(&self) -> Option<u64>
        ensures some { IfSome result (λ n. (ns : List ℕ) × (self.now ≡ ns ++ n ∷ [])) }
        ensures none { IfNone result (self.now ≡ []) }
    {
        if self.oldest.count > 0 {
            return Some(self.oldest.note);
        }
        if self.middle.count > 0 {
            return Some(self.middle.note);
        }
        if self.newest.count > 0 {
            return Some(self.newest.note);
        }
        None
    }

    /// The item that came first is noted no longer.
    pub(crate) fn take(&mut self)
        ensures { (ns : List ℕ) (n : ℕ) → self.old ≡ ns ++ n ∷ [] → self.new ≡ ns }
    {
        if self.oldest.count > 0 {
            self.oldest.count -= 1;
        } else if self.middle.count > 0 {
            self.middle.count -= 1;
        } else if self.newest.count > 0 {
            self.newest.count -= 1;
        }
    }

    /// One more item has this note, which is no less than any other, and less than three above that of the first item.
    pub(crate) fn put(&mut self, note: u64)
        requires room { length self.old < 2 ^ 64 - 1 }
        requires most { (n : ℕ) → Has self.old n → n ≤ note }
        requires young { (ns : List ℕ) (n : ℕ) → self.old ≡ ns ++ n ∷ [] → note < n + 3 }
        ensures { self.new ≡ note ∷ self.old }
    {
        if self.newest.count == 0 || self.newest.note == note {
            self.newest = Run {
                note,
                count: self.newest.count + 1,
            };
            return;
        }
        self.oldest = self.middle;
        self.middle = self.newest;
        self.newest = Run { note, count: 1 };
    }
}
