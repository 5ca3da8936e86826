//! Epochs, tags, and counts at their ends.

use sdd_world::status::is_last;
use sdd_world::{Epoch, Tag};

/// What the epochs 63 and 62 are followed by: the next one, that one's epoch before, that of the next generation, and the one of
/// the greatest count.
const FOLLOWING: [u8; 4] = [0, 63, 1, 63];

/// What is no epoch.
const REFUSED: [Option<u8>; 2] = [Some(64), Some(255)];

#[test]
fn epochs_turn_over_after_64(rt: HostRuntime) {
    let (Ok(last), Ok(before)) = (Epoch::try_from(63), Epoch::try_from(62)) else {
        panic!(rt; "62 and 63 are epochs");
    };
    let following = [
        u8::from(last.next()),
        u8::from(last.next().prev()),
        u8::from(before.next_generation()),
        u8::from(Epoch::of_count(u64::MAX)),
    ];
    let refused = [Epoch::try_from(64).err(), Epoch::try_from(255).err()];
    assert!(rt; following == FOLLOWING && refused == REFUSED);
}

#[test]
fn a_generation_is_three_epochs(rt: HostRuntime) {
    let zero = Epoch::default();
    let two = zero.next().next();
    let alike = [
        zero.in_same_generation(zero),
        zero.in_same_generation(two),
        zero.in_same_generation(two.next()),
        two.in_same_generation(zero),
    ];
    assert!(rt; alike == [true, true, false, false]);
}

const TAGS: &[Tag] = &[Tag::None, Tag::First, Tag::Second, Tag::Both];

/// Counts of owners and of guards, and whether one is the last.
const COUNTS: [(u32, bool); 4] = [
    (0, false),
    (1, false),
    (u32::MAX - 1, false),
    (u32::MAX, true),
];

#[test]
fn tags_have_numbers_and_counts_have_an_end(rt: HostRuntime) {
    let mut right = Tag::try_from(4) == Err(4);
    for n in 0..4u8 {
        let tag = TAGS[usize::from(n)];
        right = right && u8::from(tag) == n && Tag::try_from(n) == Ok(tag);
    }
    for (count, last) in COUNTS {
        right = right && is_last(count) == last;
    }
    assert!(rt; right);
}
