//! What results look like as text.

use leaf_array::{DIMENSION, RemoveResult};
use std::alloc::Global;
use std::fmt::Debug;

/// Whether a value is written so.
fn is_written<T: Debug>(alloc: Global, told: &T, wanted: &str) -> bool {
    match format!(in alloc; "{:?}", told) {
        Ok(text) => text.as_str() == wanted,
        Err(_) => false,
    }
}

const NAMES: &[(RemoveResult, &str)] = &[
    (RemoveResult::Success, "Success"),
    (RemoveResult::Retired, "Retired"),
    (RemoveResult::Fail, "Fail"),
    (RemoveResult::Frozen, "Frozen"),
];

#[test]
fn results_are_written_by_their_names(rt: HostRuntime) {
    let mut named = is_written(rt.alloc(), &DIMENSION, "Dimension { len: 15, bits: 4 }");
    for (told, name) in NAMES {
        named = is_written(rt.alloc(), told, name) && named;
    }
    assert!(rt; named);
}
