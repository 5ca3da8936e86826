//! What is measured, and the keys and values that it is measured on.

use shared_index::SharedIndex;
use shared_sessions::SharedSession;
use shared_versions::Node;

/// How many pairs a segment has at most.
pub const WIDTH: usize = 64;

/// The items of the place: versions of numbers by numbers.
pub type Item = Node<u64, u64>;

/// The index of a name.
pub type Index<'d, L> = SharedIndex<'d, L, u64, u64, { WIDTH }>;

/// Its sessions.
pub type Reader = SharedSession<u64, u64, { WIDTH }>;

/// The pairs of the index, its readers, the gets of a session, the writes of a commit, and milliseconds, or rounds where
/// there is no reader. Beside readers a commit begins at least `gap` microseconds after the one before; 0 is no gap.
#[derive(Clone, Copy)]
pub struct Task {
    pub pairs: u32,
    pub readers: u8,
    pub gets: u32,
    pub writes: u32,
    pub last: u32,
    pub gap: u32,
}

/// The number that a word is.
pub fn number(word: &str) -> Option<u32> {
    word.parse::<u32>().ok()
}

/// Distinct keys, spread over all of 64 bits, in no order.
pub fn key(number: u64) -> u64 {
    number.wrapping_add(1).wrapping_mul(0x9E37_79B9_7F4A_7C15)
}

/// The next state of a fixed order of draws.
pub fn next(state: u64) -> u64 {
    let a = state ^ state.wrapping_shl(13);
    let b = a ^ a.wrapping_shr(7);
    b ^ b.wrapping_shl(17)
}

/// A number below this many, by a state.
pub fn drawn(state: u64, pairs: u32) -> u64 {
    state
        .wrapping_shr(32)
        .wrapping_mul(u64::from(pairs))
        .wrapping_shr(32)
}

/// Whether a value belongs to the key of a number: its low half is the number.
pub fn belongs(value: u64, number: u64) -> bool {
    value & 0xFFFF_FFFF == number
}
