//! Pairs that a cursor is yet to give.

ghost use Rattle.std.specs.Prelude.{◌≡◌, ◌↔◌, ◌++◌, List, IsTrue, IfOk, IsSome, Some, drop, slice_get};
ghost use Rattle.std.specs.Bool.{OnFalse};
ghost use Rattle.leaf_array.specs.Values.{ClonesAreSame, EqualsAreSame};
ghost use Rattle.tree_index.specs.Cursor.{Cursor, GoesBack, GoesForth, deref_pair};
ghost use Rattle.tree_index.specs.declared.cursor.End.TheVariants.{Unopened};
ghost use Rattle.serial_history.specs.Parts.{part_of, turned};
ghost use Rattle.serial_history.specs.RemainingPairs.{IsAlone, IsStart, pairs_within, remaining_back, remaining_of, remaining_pairs};

use crate::query::Part;
use std::alloc::{AllocError, Global};
use tree_index::Range;

/// A cursor over pairs by rising keys.
pub(crate) trait PairCursor<'t, K: Ord, V>: Drop {
    ghost cursor: { Self → Cursor K V };

    /// Moves on to the next pair.
    fn step(&mut self) -> Option<(&'t K, &'t V)>
        ensures { GoesForth K.cmp (cursor self.old) result (cursor self.new) };

    /// Moves back to the pair before.
    fn step_back(&mut self) -> Option<(&'t K, &'t V)>
        ensures { GoesBack K.cmp (cursor self.old) result (cursor self.new) };
}

impl<'t, K: Ord, V> PairCursor<'t, K, V> for Range<'t, K, V> {
    ghost cursor = { λ c. c };

    fn step(&mut self) -> Option<(&'t K, &'t V)> {
        self.next()
    }

    fn step_back(&mut self) -> Option<(&'t K, &'t V)> {
        self.next_back()
    }
}

/// Whether these are that part of the pairs that a cursor gives.
pub(crate) fn matches<'t, K: Ord + 't, V: Eq + 't, C: PairCursor<'t, K, V>>(
    cursor: C,
    part: Part,
    told: &[(K, V)],
) -> bool
    requires start { IsStart K.cmp (C.cursor cursor) }
    requires keys { EqualsAreSame K.eq }
    requires values { EqualsAreSame V.eq }
    ensures { IsTrue result ↔ (told.now ≡ part_of part (pairs_within K.cmp (C.cursor cursor))) }
{
    let mut cursor = cursor;
    if part.is_over(told.len()) {
        return false;
    }
    if !gives(&mut cursor, part, told) {
        return false;
    }
    if part.has_room(told.len()) {
        return give(&mut cursor, part).is_none();
    }
    true
}

/// Whether the next pairs that a cursor gives are these.
fn gives<'t, K: Ord + 't, V: Eq + 't, C: PairCursor<'t, K, V>>(
    cursor: &mut C,
    part: Part,
    told: &[(K, V)],
) -> bool
    requires alone { IsAlone part (C.cursor cursor.old) }
    requires keys { EqualsAreSame K.eq }
    requires values { EqualsAreSame V.eq }
    ensures alone { IsAlone part (C.cursor cursor.new) }
    ensures given { IsTrue result → turned part told.now ++ remaining_of K.cmp part (C.cursor cursor.new) ≡ remaining_of K.cmp part (C.cursor cursor.old) }
    ensures differs { OnFalse result ((more : List (K × V)) → turned part told.now ++ more ≡ remaining_of K.cmp part (C.cursor cursor.old) → ⊥) }
{
    for i in 0..told.len() {
        let pair = &told[part.place(i, told.len())];
        if !is_pair(give(cursor, part), pair) {
            return false;
        }
    }
    true
}

/// Copies of that part of the pairs that a cursor gives.
pub(crate) fn collect<'t, K: Clone + Ord + 't, V: Clone + 't, C: PairCursor<'t, K, V>>(
    alloc: Global,
    cursor: C,
    part: Part,
) -> Result<Vec<(K, V)>, AllocError>
    requires start { IsStart K.cmp (C.cursor cursor) }
    requires keys { ClonesAreSame K.is_clone }
    requires values { ClonesAreSame V.is_clone }
    ensures { IfOk result (λ copy. copy.items ≡ part_of part (pairs_within K.cmp (C.cursor cursor))) }
{
    let mut copy = given(alloc, cursor, part)?;
    if let Part::Last(_) = part {
        copy.reverse();
    }
    Ok(copy)
}

/// Copies of that part, in the order in which the cursor gives it.
fn given<'t, K: Clone + Ord + 't, V: Clone + 't, C: PairCursor<'t, K, V>>(
    alloc: Global,
    cursor: C,
    part: Part,
) -> Result<Vec<(K, V)>, AllocError>
    requires start { IsStart K.cmp (C.cursor cursor) }
    requires keys { ClonesAreSame K.is_clone }
    requires values { ClonesAreSame V.is_clone }
    ensures { IfOk result (λ copy. turned part copy.items ≡ part_of part (pairs_within K.cmp (C.cursor cursor))) }
{
    let mut cursor = cursor;
    let mut copy = Vec::new(alloc);
    'copying: while part.has_room(copy.len()) {
        let Some((key, value)) = give(&mut cursor, part) else {
            return Ok(copy);
        };
        copy.push(copied_pair(key, value)?)?;
    }
    Ok(copy)
}

/// A copy of a pair.
pub(crate) fn copied_pair<K: Clone, V: Clone>(key: &K, value: &V) -> Result<(K, V), AllocError>
    requires keys { ClonesAreSame K.is_clone }
    requires values { ClonesAreSame V.is_clone }
    ensures { IfOk result (λ pair. pair ≡ (key.now, value.now)) }
{
    Ok((key.clone()?, value.clone()?))
}

/// The next pair that a cursor is yet to give, for a part of them.
fn give<'t, K: Ord + 't, V: 't, C: PairCursor<'t, K, V>>(
    cursor: &mut C,
    part: Part,
) -> Option<(&'t K, &'t V)>
    requires { IsAlone part (C.cursor cursor.old) }
    ensures alone { IsAlone part (C.cursor cursor.new) }
    ensures first { deref_pair result ≡ slice_get (remaining_of K.cmp part (C.cursor cursor.old)) 0 }
    ensures left { IsSome result → remaining_of K.cmp part (C.cursor cursor.new) ≡ drop 1 (remaining_of K.cmp part (C.cursor cursor.old)) }
{
    match part {
        Part::Last(_) => next_back(cursor),
        _ => next(cursor),
    }
}

/// The last pair that a cursor is yet to give.
fn next_back<'t, K: Ord + 't, V: 't, C: PairCursor<'t, K, V>>(
    cursor: &mut C,
) -> Option<(&'t K, &'t V)>
    requires { (C.cursor cursor.old).forward ≡ Unopened }
    ensures alone { (C.cursor cursor.new).forward ≡ Unopened }
    ensures first { deref_pair result ≡ slice_get (remaining_back K.cmp (C.cursor cursor.old)) 0 }
    ensures left { IsSome result → remaining_back K.cmp (C.cursor cursor.new) ≡ drop 1 (remaining_back K.cmp (C.cursor cursor.old)) }
{
    cursor.step_back()
}

/// The next pair that a cursor is yet to give.
pub(crate) fn next<'t, K: Ord + 't, V: 't, C: PairCursor<'t, K, V>>(
    cursor: &mut C,
) -> Option<(&'t K, &'t V)>
    requires { (C.cursor cursor.old).backward ≡ Unopened }
    ensures alone { (C.cursor cursor.new).backward ≡ Unopened }
    ensures first { deref_pair result ≡ slice_get (remaining_pairs K.cmp (C.cursor cursor.old)) 0 }
    ensures left { IsSome result → remaining_pairs K.cmp (C.cursor cursor.new) ≡ drop 1 (remaining_pairs K.cmp (C.cursor cursor.old)) }
{
    cursor.step()
}

/// Whether `found` is exactly this pair.
fn is_pair<K: Eq, V: Eq>(found: Option<(&K, &V)>, pair: &(K, V)) -> bool
    requires keys { EqualsAreSame K.eq }
    requires values { EqualsAreSame V.eq }
    ensures { IsTrue result ↔ (deref_pair found.entry ≡ Some pair.now) }
{
    match found {
        Some((key, value)) => *key == pair.0 && *value == pair.1,
        None => false,
    }
}
