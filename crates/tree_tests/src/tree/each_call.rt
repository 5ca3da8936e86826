//! Each call of a tree of numbers that tests make by itself, once: the proof of a call of generic code takes seconds
//! wherever it is, so tests call these functions.

ghost use Rattle.std.specs.Prelude.{◌≡◌, ◌++◌, ◌∷◌, [], IfOk, OnErr, OnOk};
ghost use Rattle.std.specs.Bool.{OnFalse};
ghost use Rattle.std.specs.Ordering.{nat_cmp};
ghost use Rattle.tree_index.specs.Cursor.{unread};
ghost use Rattle.tree_index.specs.Depth.{IsAbove};

use super::Tree;
use super::calls::{Seen, Told};
use crate::numbers::read;
use std::alloc::{AllocError, Global};
use std::ops::Bound;
use tree_index::{InsertRefused, Iter, Range, TreeIndex};

/// A tree without pairs.
pub(super) fn empty(alloc: Global) -> Tree
    ensures { result.pairs ≡ [] }
{
    TreeIndex::new(alloc)
}

pub(super) fn len_of(tree: &Tree) -> usize {
    tree.len()
}

pub(super) fn is_empty(tree: &Tree) -> bool {
    tree.is_empty()
}

pub(super) fn depth_of(tree: &Tree) -> usize {
    tree.depth()
}

/// How many pairs a walk gives.
pub(super) fn count_of(tree: &Tree) -> usize {
    tree.iter().count()
}

/// A walk through all pairs.
pub(super) fn iter_of<'t>(tree: &'t Tree) -> Iter<'t, u64, u64> {
    tree.iter()
}

/// Its first pair, and the last.
pub(super) fn first_of(tree: &Tree) -> Seen {
    read(iter_of(tree).next())
}

pub(super) fn last_of(tree: &Tree) -> Seen {
    read(iter_of(tree).next_back())
}

/// The value of a key.
pub(super) fn val_of(tree: &Tree, key: u64) -> Option<u64> {
    tree.peek(&key).copied()
}

pub(super) fn has(tree: &Tree, key: u64) -> bool {
    tree.contains(&key)
}

/// The pairs within bounds.
pub(super) fn range_of<'t>(
    tree: &'t Tree,
    lower: &'t Bound<u64>,
    upper: &'t Bound<u64>,
) -> Range<'t, u64, u64> {
    tree.range(lower.as_ref(), upper.as_ref())
}

/// Inserts a pair.
pub(super) fn insert_told(tree: &mut Tree, key: u64, val: u64) -> Told {
    match tree.insert_sync(key, val) {
        Ok(()) => Told::Done,
        Err(InsertRefused::Duplicate(key, val)) => Told::Duplicate(key, val),
        Err(InsertRefused::Memory(key, val)) => Told::NoMemory(key, val),
    }
}

/// Inserts a pair, and returns whether it was taken.
pub(super) fn insert(tree: &mut Tree, key: u64, val: u64) -> bool {
    insert_told(tree, key, val) == Told::Done
}

/// Upserts a pair.
pub(super) fn upsert_told(tree: &mut Tree, key: u64, val: u64) -> Told {
    match tree.upsert_sync(key, val) {
        Ok(()) => Told::Done,
        Err((key, val)) => Told::NoMemory(key, val),
    }
}

/// Upserts a pair, and returns whether it was taken.
pub(super) fn upsert(tree: &mut Tree, key: u64, val: u64) -> bool {
    upsert_told(tree, key, val) == Told::Done
}

/// A tree with room for this many pairs, if there is memory.
pub(super) fn roomy(alloc: Global, pairs: usize) -> Result<Tree, AllocError>
    ensures { IfOk result (λ tree. tree.pairs ≡ []) }
{
    TreeIndex::with_capacity(alloc, pairs)
}

/// Puts a pair behind all others, or has it back.
pub(super) fn push(tree: &mut Tree, key: u64, val: u64) -> Result<(), (u64, u64)>
    requires { IsAbove nat_cmp key tree.old.pairs }
    ensures pushed { OnOk result (tree.new.pairs ≡ tree.old.pairs ++ (key, val) ∷ []) }
    ensures refused { OnErr result (tree.new ≡ tree.old) }
{
    tree.push_last(key, val)
}

/// A cursor at the first pair of a tree.
pub(super) fn started<'t>(tree: &'t Tree) -> Iter<'t, u64, u64>
    ensures { unread result ≡ tree.now.pairs }
{
    let mut cursor = tree.iter();
    let _first = cursor.next();
    cursor
}

/// Puts clones of all pairs of another tree, along a cursor at its first one, into an empty one, and returns whether it did.
pub(super) fn push_run(tree: &mut Tree, cursor: &mut Iter<'_, u64, u64>, source: &Tree) -> bool
    requires empty { tree.old.pairs ≡ [] }
    requires first { unread cursor.old ≡ source.now.pairs }
    ensures refused { OnFalse result (tree.new.pairs ≡ []) }
    ensures still { OnFalse result (cursor.new ≡ cursor.old) }
{
    tree.push_run(cursor, source.len()).is_ok()
}

/// The same in two runs, of which the first has `first` pairs.
pub(super) fn push_runs(
    tree: &mut Tree,
    cursor: &mut Iter<'_, u64, u64>,
    source: &Tree,
    first: usize,
) -> bool
    requires empty { tree.old.pairs ≡ [] }
    requires first { unread cursor.old ≡ source.now.pairs }
    ensures refused { OnFalse result (tree.new.pairs ≡ []) }
{
    let len = source.len();
    let few = first.min(len);
    let Ok(()) = tree.push_run(cursor, few) else {
        return false;
    };
    tree.push_run(cursor, len - few).is_ok()
}

/// Removes a key, and returns whether it was there.
pub(super) fn remove(tree: &mut Tree, key: u64) -> bool {
    tree.remove_sync(&key)
}

pub(super) fn clear(tree: &mut Tree)
    ensures { tree.new.pairs ≡ [] }
{
    tree.clear();
}

pub(super) fn copy_of(alloc: Global, tree: &Tree) -> Result<Tree, AllocError> {
    tree.clone(alloc)
}
