//! Changes of a list: what comes of keys, and the ranges whose pairs are gone.

ghost use Rattle.std.specs.Prelude.{◌≡◌, ◌≤◌, ◌+◌, [], OnOk, IfOk};
ghost use Rattle.std.specs.List.{All};
ghost use Rattle.leaf_array.specs.Pairs.{has_key};
ghost use Rattle.leaf_array.specs.Values.{ClonesAreSame};
ghost use Rattle.version_drafts.specs.Changes.{list_changed, named_by, noted_in};
ghost use Rattle.version_views.specs.Cuts.{pairs_in, separators_of};
ghost use Rattle.version_drafts.specs.Gone.{IsSpan};
ghost use Rattle.version_views.specs.SeparatorSearch.{IsOrdered};
ghost use Rattle.version_views.specs.Writes.{after_write, pairs_outside, reply_to};

use crate::edits::Edits;
use crate::gone::{Gone, is_gone, range_of};
use std::alloc::{AllocError, Global};
use std::ops::Bound;
use version_views::{Reply, Trees, VersionView, Write};

/// Changes of an older list: the ranges whose pairs are gone, and then what comes of single keys.
#[derive(Drop)]
pub(crate) struct Changes<'w, K: Ord, V> {
    pub(crate) edits: Edits<'w, K, V>,
    pub(crate) gone: Vec<Gone<K>>,
}

/// No change yet, with room for the edits that writes can leave. Fails only if an allocation fails.
pub(crate) fn unchanged<'w, K: Ord + Drop, V>(
    alloc: Global,
    writes: &[Write<K, V>],
) -> Result<Changes<'w, K, V>, AllocError>
    ensures edits { IfOk result (λ c. noted_in c.edits ≡ []) }
    ensures gone { IfOk result (λ c. c.gone.items ≡ []) }
{
    Ok(Changes {
        edits: Edits::with_room(alloc, edits_left(writes))?,
        gone: Vec::new(alloc),
    })
}

/// How many edits writes leave at most: one for each that names a single key.
fn edits_left<K, V>(writes: &[Write<K, V>]) -> usize {
    let mut count = 0usize;
    for write in writes {
        match write {
            Write::RemoveRange(_, _) | Write::Clear => {},
            _ => count = count.saturating_add(1),
        }
    }
    count
}

/// Makes one write on the list that changes make of a version.
pub(crate) fn apply<'w, K: Clone + Ord + Drop, V: Drop, W: Trees<K, V>>(
    changes: &mut Changes<'w, K, V>,
    old: &VersionView<'_, K, V, W>,
    write: &'w Write<K, V>,
) -> Result<Reply, AllocError>
    requires keys { ClonesAreSame K.is_clone }
    requires ordered { IsOrdered K.cmp old.now (separators_of old.now) }
    requires spans { All (IsSpan K.cmp old.now) changes.old.gone.items }
    ensures list { OnOk result (list_changed K.cmp changes.new old.now ≡ after_write K.cmp write.now (list_changed K.cmp changes.old old.now)) }
    ensures few { OnOk result (named_by changes.new ≤ named_by changes.old + 1) }
    ensures spans { OnOk result (All (IsSpan K.cmp old.now) changes.new.gone.items) }
    ensures reply { IfOk result (λ reply. reply ≡ reply_to K.cmp write.now (list_changed K.cmp changes.old old.now)) }
{
    match write {
        Write::Insert(key, value) => {
            if has(changes, old, key) {
                return Ok(Reply::Duplicate);
            }
            changes.edits.note(key, Some(value))?;
            Ok(Reply::Inserted)
        },
        Write::Upsert(key, value) => {
            changes.edits.note(key, Some(value))?;
            Ok(Reply::Upserted)
        },
        Write::Remove(key) => {
            if !has(changes, old, key) {
                return Ok(Reply::Absent);
            }
            changes.edits.note(key, None)?;
            Ok(Reply::Removed)
        },
        Write::RemoveRange(lower, upper) => {
            remove_range(changes, old, lower, upper)?;
            Ok(Reply::RangeRemoved)
        },
        Write::Clear => {
            let all = Bound::Unbounded;
            changes.gone.clear();
            remove_range(changes, old, &all, &all)?;
            Ok(Reply::Cleared)
        },
    }
}

/// Whether the list that changes make of a version has a key: by its edit, or else by what ranges leave of the version.
fn has<K: Ord, V, W: Trees<K, V>>(
    changes: &Changes<'_, K, V>,
    old: &VersionView<'_, K, V, W>,
    key: &K,
) -> bool
    ensures { result ≡ has_key K.cmp key.now (list_changed K.cmp changes.now old.now) }
{
    let _ = changes.edits.len();
    match changes.edits.peek(key) {
        Some(edit) => edit.leaves_a_pair(),
        None => {
            if is_gone(&changes.gone, key) {
                return false;
            }
            old.contains(key)
        },
    }
}

/// Removes the pairs whose keys lie within two bounds from the list that changes make of a version: the edits of these keys
/// are forgotten, and the range is noted. No pair of the version is read.
fn remove_range<K: Clone + Ord + Drop, V: Drop, W: Trees<K, V>>(
    changes: &mut Changes<'_, K, V>,
    old: &VersionView<'_, K, V, W>,
    lower: &Bound<K>,
    upper: &Bound<K>,
) -> Result<(), AllocError>
    requires keys { ClonesAreSame K.is_clone }
    requires ordered { IsOrdered K.cmp old.now (separators_of old.now) }
    requires spans { All (IsSpan K.cmp old.now) changes.old.gone.items }
    ensures list { OnOk result (list_changed K.cmp changes.new old.now ≡ pairs_outside K.cmp lower.now upper.now (list_changed K.cmp changes.old old.now)) }
    ensures few { OnOk result (named_by changes.new ≤ named_by changes.old + 1) }
    ensures spans { OnOk result (All (IsSpan K.cmp old.now) changes.new.gone.items) }
{
    let _ = changes.edits.len();
    changes.gone.push(range_of(old, lower, upper)?)?;
    changes.edits.forget_range(lower, upper);
    Ok(())
}
