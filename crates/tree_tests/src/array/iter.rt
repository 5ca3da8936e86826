//! Iterators over slots.

use super::holding;
use leaf_array::{Array, ArrayIter, ArrayRevIter};

/// Hexadecimal digits, and one more: that of a slot, or F where there is none.
fn with_digit(digits: u64, slot: Option<u8>) -> u64 {
    digits
        .wrapping_mul(16)
        .wrapping_add(u64::from(slot.unwrap_or(15)))
}

/// The digits of the slots that an iterator gives in five steps, and in the one after it has been rewound.
fn rewound(array: &Array<u64, u64>) -> u64 {
    let mut slots = ArrayIter::new(array);
    let mut digits: u64 = 0;
    for _ in 0..5u32 {
        digits = with_digit(digits, slots.next());
    }
    slots.rewind();
    with_digit(digits, slots.next())
}

/// The same of an iterator by falling ranks.
fn rewound_falling(array: &Array<u64, u64>) -> u64 {
    let mut slots = ArrayRevIter::new(array);
    let mut digits: u64 = 0;
    for _ in 0..5u32 {
        digits = with_digit(digits, slots.next());
    }
    slots.rewind();
    with_digit(digits, slots.next())
}

/// The slots that an iterator gives in two steps, one back, one forth again by a copy, and one more by itself.
fn turned(array: &Array<u64, u64>) -> [Option<u8>; 5] {
    let mut rising = ArrayIter::new(array);
    let (first, second) = (rising.next(), rising.next());
    let mut falling = rising.clone().rev();
    let back = falling.next();
    let again = falling.clone().rev().next();
    [first, second, back, again, rising.next()]
}

const TURNED: [Option<u8>; 5] = [Some(1), Some(2), Some(1), Some(2), Some(3)];

#[test]
fn an_iterator_turns_at_its_rank_and_stays_at_its_end(rt: HostRuntime) {
    let array = holding(&[10, 20, 30]);
    let word = array.metadata();
    let rising = ArrayIter::new(&array).metadata() == word && rewound(&array) == 0x123FF1;
    let falling = ArrayRevIter::new(&array).metadata() == word
        && rewound_falling(&array) == 0x321FF3;
    assert!(rt; rising && falling && turned(&array) == TURNED);
}
