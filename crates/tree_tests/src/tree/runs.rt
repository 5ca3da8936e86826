//! Runs of pairs that are cloned into another tree. Any one allocation may be refused: a script has each refused in turn.

use super::Tree;
use super::calls::Act::Fill;
use super::calls::Told::Is;
use super::calls::{all, equal};
use super::each_call::{depth_of, empty, len_of, push_run, push_runs, started, upsert};
use super::push::{BELOW_300, first_leaf};
use crate::numbers::read;
use std::alloc::Global;

/// How many pairs fill a leaf, fifteen leaves and sixteen, and one more of each.
const LENGTHS: &[u64] = &[15, 16, 225, 226, 240, 241];

/// How many of them the first of two runs has.
const FIRST_RUNS: &[usize] = &[0, 1, 14, 15, 16];

/// A tree of so many keys from 0 on, each with its complement, and whether memory was refused to it.
fn rising(alloc: Global, count: u64) -> (Tree, bool) {
    let mut tree = empty(alloc);
    let mut met = false;
    for key in 0..count {
        if !upsert(&mut tree, key, !key) {
            met = true;
            let _again = upsert(&mut tree, key, !key);
        }
    }
    (tree, met)
}

/// Whether memory was refused while an empty tree took the pairs of another as a run, and whether all was as it has to be: none
/// was left in it then, the cursor was where it had been, and a second try took them.
fn runs(alloc: Global) -> (bool, bool) {
    let (source, mut met) = rising(alloc, 100);
    let mut tree = empty(alloc);
    let mut cursor = started(&source);
    let mut right = true;
    if !push_run(&mut tree, &mut cursor, &source) {
        let left = (depth_of(&tree), len_of(&tree), read(cursor.get()));
        met = true;
        right = push_run(&mut tree, &mut cursor, &source) && left == (0, 0, Some((0, !0)));
    }
    let passed = cursor.get().is_none() && len_of(&tree) == 100;
    (met, right && passed && equal(&tree, &source) == Is(true))
}

#[test]
fn two_runs_fill_their_leaves(rt: HostRuntime) {
    for count in LENGTHS {
        // its leaves aren't full
        let mut source = empty(rt.alloc());
        assert!(rt; all(&mut source, Fill, BELOW_300, 0, *count));
        for first in FIRST_RUNS {
            let mut tree = empty(rt.alloc());
            let pushed = push_runs(&mut tree, &mut started(&source), &source, *first);
            let depth = if *count > 240 { 2 } else { 1 };
            let full = depth_of(&tree) == depth && first_leaf(&tree) == Some(15);
            assert!(rt; pushed && full && equal(&tree, &source) == Is(true));
        }
    }
}

/// Keys to begin at, and to stop before, of a hundred keys from 0 on in leaves of fifteen.
const BEGINNINGS: &[u64] = &[0, 14, 20, 99];

const STOPS: &[u64] = &[0, 1, 10, 14, 15, 16, 47, 61, 99, 100];

#[test]
fn a_run_goes_from_leaf_to_leaf_up_to_its_key(rt: HostRuntime) {
    let (source, _) = rising(rt.alloc(), 100);
    for begun in BEGINNINGS {
        let mut cursor = started(&source);
        for _ in 0..*begun {
            let _ = cursor.next();
        }
        for stop in STOPS {
            assert!(rt; cursor.run(Some(stop)) as u64 == stop.saturating_sub(*begun));
        }
        assert!(rt; cursor.run(None) as u64 == 100u64.saturating_sub(*begun));
    }
}

#[test]
fn a_refusal_of_memory_to_two_runs_leaves_no_pair(rt: HostRuntime) {
    for count in LENGTHS {
        let (source, _) = rising(rt.alloc(), *count);
        let mut tree = empty(rt.alloc());
        if !push_runs(&mut tree, &mut started(&source), &source, 16) {
            assert!(rt; depth_of(&tree) == 0);
            assert!(rt; push_runs(&mut tree, &mut started(&source), &source, 16));
        }
        assert!(rt; equal(&tree, &source) == Is(true));
    }
}

#[test]
fn a_refusal_of_memory_to_a_run_leaves_no_pair(rt: HostRuntime) {
    assert!(rt; runs(rt.alloc()).1);
}

#[test]
fn no_memory_is_refused_to_a_run(rt: HostRuntime) {
    assert!(rt; runs(rt.alloc()) == (false, true));
}
