//! The tag in the word of a cell.

ghost use Rattle.std.specs.Prelude.{◌≡◌, ℕ, ◌+◌, ◌*◌, ◌^◌, ◌<◌, ◌↔◌, IsTrue};
ghost use Rattle.sdd_plain.specs.Epochs.{tag_number};
ghost use Rattle.domain_table.specs.Layout.{packed, AreAlike};

use crate::layout::{CODE, TAG};
use sdd_plain::tag::Tag;

/// The number of a tag.
pub fn number_of(tag: Tag) -> u64
    ensures number { result ≡ tag_number tag }
    ensures few { tag_number tag < 4 }
{
    match tag {
        Tag::None => 0,
        Tag::First => 1,
        Tag::Second => 2,
        Tag::Both => 3,
    }
}

/// The word of a cell with this spare slot and this tag, which names what the code says.
pub fn word_with(spare: u64, tag: Tag, code: u64) -> u64
    requires { (spare < 2 ^ 31) × (code < 2 ^ 31) }
    ensures word { result ≡ packed spare (tag_number tag) code }
    ensures few { tag_number tag < 4 }
{
    spare + TAG * (number_of(tag) + 4 * code)
}

/// A cell's word with another tag.
pub fn with_tag(word: u64, tag: Tag) -> u64
    ensures { AreAlike word result × ((y t c : ℕ) → y < 2 ^ 31 → t < 4 → word ≡ packed y t c → result ≡ packed y (tag_number tag) c) }
{
    word_with(word % TAG, tag, word / CODE)
}

/// The number of the tag in a cell's word.
pub fn number_in(word: u64) -> u64
    ensures told { (y t c : ℕ) → y < 2 ^ 31 → t < 4 → word ≡ packed y t c → result ≡ t }
    ensures few { result < 4 }
{
    word / TAG % 4
}

/// The tag of this number.
fn tag_of(number: u64) -> Tag
    requires { number < 4 }
    ensures { tag_number result ≡ number }
{
    match number {
        0 => Tag::None,
        1 => Tag::First,
        2 => Tag::Second,
        _ => Tag::Both,
    }
}

/// The tag in a cell's word.
pub fn tag_in(word: u64) -> Tag
    ensures { (y t c : ℕ) → y < 2 ^ 31 → t < 4 → word ≡ packed y t c → tag_number result ≡ t }
{
    tag_of(number_in(word))
}

/// Whether a cell's word has this tag.
pub fn has_tag(word: u64, tag: Tag) -> bool
    ensures { (y t c : ℕ) → y < 2 ^ 31 → t < 4 → word ≡ packed y t c → (IsTrue result ↔ t ≡ tag_number tag) }
{
    number_in(word) == number_of(tag)
}
