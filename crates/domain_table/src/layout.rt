//! Where the words of a place lie, and the homes of its slots, and what is said by them.

ghost use Rattle.std.specs.Prelude.{◌≡◌, ◌+◌, ◌^◌, ◌<◌, ◌≤◌};
ghost use Rattle.sdd_homes.specs.Book.{home};
ghost use Rattle.domain_table.specs.Layout.{epoch_words, slot_word, link_word, IsSized};

use sdd_plain::sizes::Sizes;

/// The word of the count of raises.
pub(crate) const COUNT: usize = 0;

/// A word that is always 0.
pub(crate) const STILL: usize = 1;

/// The word of the scan lock.
pub(crate) const LOCK: usize = 8;

/// Each participant has eight words, of which it uses three, so that what it publishes has a cache line of its own.
pub(crate) const STRIDE: usize = 8;

/// Where the first participant publishes.
pub(crate) const STATE: usize = 16;

/// The place of the word that says whether somebody acts for the first participant: then it is 0, and else one more than
/// the number of the participant's spare slot.
pub(crate) const CLAIM: usize = 17;

/// The place of the left word of the first participant.
pub(crate) const LEFT: usize = 18;

/// The word of owners of a vacant slot.
pub const VACANT: u64 = 0;

/// That of a slot whose homes are being filled.
pub(crate) const FILLING: u64 = 1;

/// That of a slot whose item has no owner. Each owner adds one.
pub(crate) const NO_OWNER: u64 = 2;

/// That of a slot whose item has one owner.
pub(crate) const ONE_OWNER: u64 = 3;

/// The greatest word of owners to which one more may be added.
pub(crate) const MANY_OWNERS: u64 = 1 << 32;

/// In the word of a cell, what the tag is multiplied by: the spare slot is below.
pub const TAG: u64 = 1 << 31;

/// In the word of a cell, what the code of its item is multiplied by.
pub const CODE: u64 = 1 << 33;

/// The word of a cell, behind those of `participants` participants.
#[inline(always)]
pub(crate) fn cell_word(participants: usize, cell: usize) -> usize
    requires { (participants ≤ 2 ^ 30) × (cell < 2 ^ 31) }
    ensures { result ≡ epoch_words participants + cell }
{
    STRIDE * participants + STATE + cell
}

/// The word of owners of a slot, behind those of the cells.
#[inline(always)]
pub fn owners_word(sizes: &Sizes, slot: usize) -> usize
    requires { IsSized sizes.now × (slot ≤ 2 ^ 30) }
    ensures { result ≡ slot_word sizes.now slot }
{
    cell_word(sizes.participants, sizes.cells) + slot
}

/// The link word of a slot, behind the words of owners.
#[inline(always)]
pub(crate) fn link_word(sizes: &Sizes, slot: usize) -> usize
    requires { IsSized sizes.now × (slot < 2 ^ 30) }
    ensures { result ≡ link_word sizes.now slot }
{
    STRIDE * sizes.participants + STATE + sizes.cells + sizes.slots + slot
}

/// Where a participant's home of a slot lies; of as many participants as there are, the home of its deed.
#[inline(always)]
pub fn home_of(participant: usize, slots: usize, slot: usize) -> usize
    requires { (participant ≤ 2 ^ 30) × (slots ≤ 2 ^ 30) × (slot < 2 ^ 32) }
    ensures { result ≡ home slots slot participant }
{
    participant * slots + slot
}
