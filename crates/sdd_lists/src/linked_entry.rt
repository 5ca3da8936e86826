//! Entries of the containers: a value with a link.

ghost use Rattle.std.specs.Prelude.{◌≡◌};
ghost use Rattle.std.specs.Borrow.{Lends, sem};
ghost use Rattle.sdd_lists.specs.contracts.linked_entry.LinkedEntry.{the_row};
ghost use Rattle.sdd_lists.specs.Entries.{entry_value, entry_link, entry_with_value};

use crate::linked_list::LinkedList;
use sdd_world::cell::AtomicShared;
use sdd_world::holds::{Held, Holds};
use std::fmt;
use std::fmt::{Debug, Display};

/// A value with a link to the next entry. It must be consumed, as its link.
pub struct LinkedEntry<T> {
    pub(crate) instance: T,
    pub(crate) next: Option<AtomicShared<LinkedEntry<T>>>,
}

impl<T> LinkedEntry<T> {
    /// The value.
    pub fn as_ref(&self) -> &T
        ensures { result.now ≡ entry_value self.now }
    {
        &self.instance
    }

    /// The value, for writing. Once the borrow is over, the entry has what was last written, and the link that it had.
    pub fn as_mut(&mut self) -> &mut T
        ensures* writes { sem 𝓛 (Lends (the_row T.row) T.row self.entry result (λ v. entry_with_value v self.entry.now)) }
        ensures value { result.now ≡ entry_value self.old }
    {
        &mut self.instance
    }
}

impl<T> LinkedList for LinkedEntry<T> {
    ghost link = { λ e. entry_link e };

    fn link_ref(&self) -> &AtomicShared<LinkedEntry<T>> {
        match &self.next {
            Some(next) => next,
            None => unreachable!(),
        }
    }
}

/// An entry holds its link.
impl<T: Drop> Holds for LinkedEntry<T> {
    ghost use Rattle.sdd_lists.specs.Entries.{entry_holds};

    ghost holds = { λ e. entry_holds e };

    fn give_up(&mut self) -> Option<Held<LinkedEntry<T>>> {
        match self.next.take() {
            Some(next) => Some(Held::SharedCell(next)),
            None => None,
        }
    }

    fn end(self) {
        let LinkedEntry { instance, next } = self;
        match next {
            Some(_) => unreachable!(),
            None => drop(instance),
        }
    }
}

/// Entries are equal where their values are.
impl<T: PartialEq> PartialEq for LinkedEntry<T> {
    ghost use Rattle.sdd_lists.specs.Entries.{entry_value};
    ghost use Rattle.std.specs.Cmp.{on_per};

    ghost eq = { λ x y. T.eq (entry_value x) (entry_value y) };

    ghost laws = { on_per entry_value T.laws };

    fn eq(&self, other: &LinkedEntry<T>) -> bool {
        self.instance == other.instance
    }
}

impl<T: Eq> Eq for LinkedEntry<T> {
    ghost use Rattle.sdd_lists.specs.Entries.{entry_value};
    ghost use Rattle.std.specs.Cmp.{on_equiv};

    ghost laws = { on_equiv entry_value T.Eq.laws };
}

/// Writes the text of the value.
impl<T: Display> Display for LinkedEntry<T> {
    ghost use Rattle.sdd_lists.specs.Entries.{entry_value};

    ghost output = { λ e. T.output (entry_value e) };

    ghost styled_output = { λ e. T.styled_output (entry_value e) };

    fn fmt<W: fmt::Write>(&self, f: &mut fmt::Formatter<W>) -> fmt::Result {
        Display::fmt(&self.instance, f)
    }
}

/// Writes the text of the value.
impl<T: Debug> Debug for LinkedEntry<T> {
    ghost use Rattle.sdd_lists.specs.Entries.{entry_value};

    ghost debug_output = { λ e. T.debug_output (entry_value e) };

    fn fmt<W: fmt::Write>(&self, f: &mut fmt::Formatter<W>) -> fmt::Result {
        Debug::fmt(&self.instance, f)
    }
}
