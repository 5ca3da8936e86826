//! The table of a place that threads share: its words and slots, the rule that they keep, and the single steps of a
//! participant on them.
//!
//! A word is a `u64` that threads change by single operations. A slot of the table has a value, and one seat at a time can
//! have it out: it comes out, and goes back, only in a step on a word. A place of `p` participants, `c` cells and `s` slots for
//! items has these words, and these slots of the table:
//!
//!     words  0       8      16                    16 + 8p    + c           + s          + s
//!            | count | lock | 8 a participant:    | 1 a cell | 1 an item:  | 1 an item: |
//!            |       |      | state, claim, left  |          | its owners  | its link   |
//!
//!     slots  0                    p * s             p * s + s             + c + p
//!            | s a participant:   | 1 an item:      | 1 a cell and        |
//!            | homes of its parts | homes of deeds  | 1 a participant:    |
//!            |                    |                 | spare slots         |
//!
//! **Words.** The count says how often the epoch was raised, and who scans holds the lock. A participant's state is 0 while it
//! has no guard, else one more than the count that it published. Its claim is 0 while a seat acts for it, else one more
//! than its spare slot. Its left word says where the bag begins and ends that it left. The word of owners is 0 for a vacant
//! slot, 1 for one that is being filled, and else 2 more than its item has owners. A link names what follows the item in a
//! bag. The word of a cell is `spare + 2^31 * (tag + 4 * code)`: its spare slot, its tag, and 0 or one more than the
//! slot of its item.
//!
//! **Homes.** The right to read an item is cut into `2^63` parts. Each owner has one of them, in hand, in a cell or in an
//! item. The participants share the others: those of participant `n` lie in its home of the slot, `n * s + slot`. The deed,
//! which is the right to have the item's box back, lies in the home `p * s + slot`. While the slot is vacant, the empty
//! box lies there.
//!
//! **Spare slots.** The part of a cell's owner lies in the spare slot of the cell. A participant that brings a new owner puts
//! its part into its own spare slot, and swaps the word of the cell for one that names this spare slot. The one that the
//! word named before is the participant's then, with the part of the old owner. So word and part change in one step.
//!
//! **Leases.** A load under a guard reads the cell, and in the same step takes the participant's home of its item out. One
//! part is lent to the life of which all guards of the nest have tokens: so the item is read without another step. A
//! row has the other parts. The life ends when the outermost guard closes. Then all parts go back into their homes, and the one
//! step that closes the guard gives these homes back.
//!
//! A [`Board`](board::Board) has the words and slots. Each step of [`steps`], [`slots`] and [`cells`] is one operation on one
//! word, proved to keep the rule, and says what the seat that took it knows then. Over them [`owners`], [`leases`],
//! [`loading`], [`placing`] and [`scan`] move the parts of items between their homes, their owners and what a
//! participant has leased. They are handed the words and the sizes of the place as one [`Place`](board::Place). What items
//! hold is a parameter, which their [`Holding`](holding::Holding) shows to the rule.
#![tactic(auto)]

pub mod aim;
pub mod bags;
pub mod board;
pub mod cells;
pub mod first_words;
pub mod holding;
pub mod homes;
pub mod layout;
pub mod leases;
pub mod ledger;
pub mod left;
pub mod links;
pub mod loading;
pub mod owners;
pub mod placing;
pub mod private_chains;
pub mod row;
pub mod scan;
pub mod settling;
pub mod slots;
pub mod steps;
pub mod stored;
pub mod tags;
