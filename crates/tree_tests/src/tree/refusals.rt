//! Runs in which any one allocation may be refused. A script has each refused in turn: whatever is
//! refused, nothing has changed, and the same call then succeeds.

use super::Tree;
use super::calls::Call::{self, Insert, Upsert};
use super::calls::Told::{Done, Duplicate, Is, NoMemory};
use super::calls::{Act, EACH, all, equal, make};
use super::each_call::{copy_of, depth_of, empty, first_of, len_of, push, roomy, upsert, val_of};
use crate::numbers::stirred;
use std::alloc::{AllocError, Global};

/// What was met: whether memory was refused, and whether all was as it has to be.
#[derive(Clone, Copy, PartialEq, Eq)]
struct Met {
    refusal: bool,
    as_said: bool,
}

impl Met {
    /// All has to be so, too.
    fn sees(&mut self, as_said: bool) {
        self.as_said = as_said && self.as_said;
    }

    /// Memory was refused, where all has to be so.
    fn is_refused(&mut self, as_said: bool) {
        self.refusal = true;
        self.sees(as_said);
    }
}

/// Makes a call that puts in a key with its complement, by an upsert where memory was refused: nothing had changed then.
fn take(tree: &mut Tree, call: Call, key: u64, met: &mut Met) {
    let before = (depth_of(tree), len_of(tree));
    let told = make(tree, call);
    if told != Done {
        let kept = (depth_of(tree), len_of(tree)) == before && val_of(tree, key).is_none();
        let again = upsert(tree, key, !key);
        met.is_refused(told == NoMemory(key, !key) && kept && again);
    }
}

/// A tree takes this many keys in no order, by upserts or by insertions.
fn grow(alloc: Global, count: u32, upserts: bool, met: &mut Met) {
    let mut tree = empty(alloc);
    let mut key = 1u64;
    for _ in 0..count {
        key = stirred(key);
        let call = match upserts {
            true => Upsert(key, !key),
            false => Insert(key, !key),
        };
        take(&mut tree, call, key, met);
    }
    met.sees(len_of(&tree) == count as usize);
    let mut key = 1u64;
    for _ in 0..count {
        key = stirred(key);
        met.sees(val_of(&tree, key) == Some(!key));
    }
}

/// A tree with room is made, and a pair is put into a tree without.
fn push_one(alloc: Global, met: &mut Met) {
    let made = match roomy(alloc, 3) {
        Ok(tree) => len_of(&tree),
        Err(AllocError) => {
            met.refusal = true;
            roomy(alloc, 3).map_or(1, |tree| len_of(&tree))
        },
    };
    let mut tree = empty(alloc);
    if let Err(back) = push(&mut tree, 5, 50) {
        let kept = (depth_of(&tree), len_of(&tree)) == (0, 0);
        met.is_refused(back == (5, 50) && kept && push(&mut tree, 5, 50).is_ok());
    }
    met.sees((made, first_of(&tree)) == (0, Some((5, 50))));
}

/// A tree of the keys below a number.
fn filled(alloc: Global, last: u64, met: &mut Met) -> Tree {
    let mut tree = empty(alloc);
    for key in 0..last {
        take(&mut tree, Insert(key, !key), key, met);
    }
    tree
}

/// A tree is cloned.
fn copy(alloc: Global, met: &mut Met) {
    let mut tree = filled(alloc, 100, met);
    match copy_of(alloc, &tree) {
        Ok(copy) => met.sees(equal(&copy, &tree) == Is(true)),
        Err(_) => {
            let kept = len_of(&tree) == 100 && all(&mut tree, Act::Hold, EACH, 0, 100);
            met.is_refused(kept);
        },
    }
}

/// A leaf is full, and its keys are duplicates, which are written over.
fn repeat(alloc: Global, met: &mut Met) {
    let mut tree = filled(alloc, 15, met);
    for key in 0..15u64 {
        let repeated = make(&mut tree, Insert(key, key)) == Duplicate(key, key);
        met.sees(upsert(&mut tree, key, key) && repeated);
    }
    met.sees(len_of(&tree) == 15);
}

/// What all of them meet.
fn met_by_all(alloc: Global) -> Met {
    let mut met = Met {
        refusal: false,
        as_said: true,
    };
    grow(alloc, 700, false, &mut met);
    grow(alloc, 300, true, &mut met);
    push_one(alloc, &mut met);
    copy(alloc, &mut met);
    repeat(alloc, &mut met);
    met
}

#[test]
fn a_refusal_of_memory_changes_nothing(rt: HostRuntime) {
    assert!(rt; met_by_all(rt.alloc()).as_said);
}

#[test]
fn no_memory_is_refused(rt: HostRuntime) {
    let met = met_by_all(rt.alloc());
    assert!(rt; met.as_said && !met.refusal);
}
