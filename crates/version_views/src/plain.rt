//! Writes of a plain list, one after the other, with a copy of it for each: what faster bodies are compared with.

ghost use Rattle.std.specs.Prelude.{◌≡◌, not, IfOk, OnOk};
ghost use Rattle.std.specs.List.{filter};
ghost use Rattle.std.specs.BTreeMap.Range.{range_contains};
ghost use Rattle.leaf_array.specs.Values.{ClonesAreSame};
ghost use Rattle.version_views.specs.Writes.{after_write, after_writes, reply_to, replies_to};

use crate::bounds::is_within;
use crate::write::{Reply, Write};
use leaf_array::plain;
use std::alloc::{AllocError, Global};
use std::ops::Bound;

/// The list after the writes, and the replies to them.
pub fn applied<K: Clone + Ord, V: Clone>(
    alloc: Global,
    pairs: &[(K, V)],
    writes: &[Write<K, V>],
) -> Result<(Vec<(K, V)>, Vec<Reply>), AllocError>
    requires keys { ClonesAreSame K.is_clone }
    requires values { ClonesAreSame V.is_clone }
    ensures list { IfOk result (λ made. made.0.items ≡ after_writes K.cmp writes.now pairs.now) }
    ensures replies { IfOk result (λ made. made.1.items ≡ replies_to K.cmp writes.now pairs.now) }
{
    let mut list = Vec::from_clones(alloc, pairs)?;
    let mut replies = Vec::new(alloc);
    for write in writes {
        replies.push(apply(alloc, &mut list, write)?)?;
    }
    Ok((list, replies))
}

/// Makes one write on a list.
fn apply<K: Clone + Ord, V: Clone>(
    alloc: Global,
    pairs: &mut Vec<(K, V)>,
    write: &Write<K, V>,
) -> Result<Reply, AllocError>
    requires keys { ClonesAreSame K.is_clone }
    requires values { ClonesAreSame V.is_clone }
    ensures reply { IfOk result (λ reply. reply ≡ reply_to K.cmp write.now pairs.old.items) }
    ensures list { OnOk result (pairs.new.items ≡ after_write K.cmp write.now pairs.old.items) }
{
    match write {
        Write::Insert(key, value) => {
            let there = plain::contains_key(pairs, key);
            *pairs = plain::insert(alloc, pairs, key, value)?;
            Ok(if there {
                Reply::Duplicate
            } else {
                Reply::Inserted
            })
        },
        Write::Upsert(key, value) => {
            *pairs = plain::upsert(alloc, pairs, key, value)?;
            Ok(Reply::Upserted)
        },
        Write::Remove(key) => {
            let there = plain::contains_key(pairs, key);
            *pairs = plain::remove(alloc, pairs, key)?;
            Ok(if there { Reply::Removed } else { Reply::Absent })
        },
        Write::RemoveRange(lower, upper) => {
            *pairs = remove_range(alloc, pairs, lower, upper)?;
            Ok(Reply::RangeRemoved)
        },
        Write::Clear => {
            *pairs = Vec::new(alloc);
            Ok(Reply::Cleared)
        },
    }
}

/// A copy of the list without the pairs whose keys lie within two bounds.
fn remove_range<K: Clone + Ord, V: Clone>(
    alloc: Global,
    pairs: &[(K, V)],
    lower: &Bound<K>,
    upper: &Bound<K>,
) -> Result<Vec<(K, V)>, AllocError>
    requires keys { ClonesAreSame K.is_clone }
    requires values { ClonesAreSame V.is_clone }
    ensures { IfOk result (λ out. out.items ≡ filter (λ p. not (range_contains K.cmp lower.now upper.now p.0)) pairs.now) }
{
    let mut out = Vec::new(alloc);
    for pair in pairs {
        if !is_within(lower, upper, &pair.0) {
            out.push(pair.clone()?)?;
        }
    }
    Ok(out)
}
