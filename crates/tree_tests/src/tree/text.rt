//! Trees of texts.

use std::ops::Bound;
use tree_index::{Proximity, TreeIndex};

/// A number with its text, as it is lent.
fn read(pair: Option<(&u64, &&'static str)>) -> Option<(u64, &'static str)> {
    let (key, text) = pair?;
    Some((*key, *text))
}

const APPOINTMENTS: [(u64, &str); 3] = [(930, "dentist"), (1100, "review"), (1530, "train")];

/// The texts of the pairs before and after a time.
fn around<'d>(
    day: &'d TreeIndex<u64, &'static str>,
    time: u64,
) -> [Option<(u64, &'static str)>; 2] {
    match day.locate(&time) {
        Proximity::Between(near) => [read(near.get()), read(near.get_back())],
        _ => [None; 2],
    }
}

/// How many appointments lie between two times.
fn planned(day: &TreeIndex<u64, &'static str>, from: u64, to: u64) -> usize {
    (&*day)
        .range(Bound::Included(&from), Bound::Excluded(&to))
        .count()
}

#[test]
fn a_day_is_kept_in_a_tree(rt: HostRuntime) {
    let mut day: TreeIndex<u64, &'static str> = TreeIndex::new(rt.alloc());
    let mut taken = true;
    for (time, text) in APPOINTMENTS {
        taken = day.upsert_sync(time, text).is_ok() && taken;
    }
    let morning = planned(&day, 900, 1200);
    let review = day.peek(&1100).copied();
    let near = around(&day, 1300);
    day.remove_range_sync(Bound::Unbounded, Bound::Excluded(&1000));
    let found = near == [Some((1100, "review")), Some((1530, "train"))];
    assert!(rt; taken && morning == 2 && review == Some("review") && found && day.len() == 2);
}
