//! The list that transactions leave.

ghost use Rattle.std.specs.Prelude.{◌≡◌, ◌≤◌, [], List, IfOk, IfSome, IsTrue, OnOk, drop, length};
ghost use Rattle.std.specs.declared.ops.Bound.TheVariants.{Unbounded};
ghost use Rattle.leaf_array.specs.Pairs.{IsAscending};
ghost use Rattle.leaf_array.specs.Values.{ClonesAreSame};
ghost use Rattle.version_views.specs.Cuts.{pairs_in};
ghost use Rattle.version_views.specs.Writes.{after_write, after_writes};
ghost use Rattle.serial_history.specs.Serial.{after_all};
ghost use Rattle.serial_history.specs.RemainingPairs.{IsStart};

use crate::base::Base;
use crate::ordered_view::{OrderedView, around};
use crate::query::{Near, Part};
use crate::scan::{PairCursor, collect, copied_pair, matches, next};
use crate::transaction::Transaction;
use crate::version_view::walk_all;
use std::alloc::{AllocError, Global};
use std::ops::Bound;
use tree_index::{InsertRefused, Proximity, TreeIndex};
use version_views::{Trees, VersionView, Write};

/// A list that a replay can start from: a version's, or a base's.
pub trait Start<K: Ord, V> {
    ghost pairs: { Self → List (K × V) };

    /// A copy of the list, as a tree. Fails only if an allocation fails.
    fn tree(&self, alloc: Global) -> Result<TreeIndex<K, V>, AllocError>
    where
        K: Clone,
        V: Clone,
        requires keys { ClonesAreSame K.is_clone }
        requires values { ClonesAreSame V.is_clone }
        ensures { IfOk result (λ tree. tree.pairs ≡ pairs self.now) };
}

impl<'w, K: Ord, V, W: Trees<K, V>> Start<K, V> for VersionView<'w, K, V, W> {
    ghost pairs = { λ v. pairs_in v };

    fn tree(&self, alloc: Global) -> Result<TreeIndex<K, V>, AllocError>
    where
        K: Clone,
        V: Clone,
    {
        gathered(alloc, walk_all(self))
    }
}

impl<K: Ord, V> Start<K, V> for Base<K, V> {
    ghost pairs = { λ b. b.pairs };

    fn tree(&self, alloc: Global) -> Result<TreeIndex<K, V>, AllocError>
    where
        K: Clone,
        V: Clone,
    {
        tree_of_pairs(alloc, self.pairs())
    }
}

/// The list that transactions leave, one after the other, of the one that `start` is. The work begins at the last of them that
/// removes all pairs, if there is one. Fails only if an allocation fails.
pub fn replay<K: Clone + Ord, V: Clone, L: Start<K, V>>(
    alloc: Global,
    start: &L,
    history: &[Transaction<K, V>],
) -> Result<TreeIndex<K, V>, AllocError>
    requires keys { ClonesAreSame K.is_clone }
    requires values { ClonesAreSame V.is_clone }
    ensures { IfOk result (λ list. list.pairs ≡ after_all K.cmp history.now (L.pairs start.now)) }
{
    let Some(at) = last_clearing(history) else {
        let mut list = start.tree(alloc)?;
        apply_history(&mut list, history)?;
        return Ok(list);
    };
    let mut list = TreeIndex::new(alloc);
    apply_history(&mut list, &history[at..])?;
    Ok(list)
}

/// The place of the last transaction that leaves the same list of any, since it removes all pairs.
fn last_clearing<K: Ord, V>(history: &[Transaction<K, V>]) -> Option<usize>
    ensures within { IfSome result (λ at. at ≤ length history.now) }
    ensures forgets { IfSome result (λ at. (xs ys : List (K × V)) → after_all K.cmp (drop at history.now) xs ≡ after_all K.cmp (drop at history.now) ys) }
{
    let mut left = history.len();
    while left > 0 {
        left -= 1;
        if clears(history[left].writes.as_slice()) {
            return Some(left);
        }
    }
    None
}

/// Whether one of the writes removes all pairs.
fn clears<K: Ord, V>(writes: &[Write<K, V>]) -> bool
    ensures { IsTrue result → (xs ys : List (K × V)) → after_writes K.cmp writes.now xs ≡ after_writes K.cmp writes.now ys }
{
    for write in writes {
        if let Write::Clear = write {
            return true;
        }
    }
    false
}

/// A tree of copies of these pairs, whose keys rise.
fn tree_of_pairs<K: Clone + Ord, V: Clone>(
    alloc: Global,
    pairs: &[(K, V)],
) -> Result<TreeIndex<K, V>, AllocError>
    requires keys { ClonesAreSame K.is_clone }
    requires values { ClonesAreSame V.is_clone }
    requires rising { IsAscending K.cmp pairs.now }
    ensures { IfOk result (λ tree. tree.pairs ≡ pairs.now) }
{
    let mut tree = TreeIndex::with_capacity(alloc, pairs.len())?;
    for pair in pairs {
        let (key, value) = copied_pair(&pair.0, &pair.1)?;
        let Ok(()) = tree.push_last(key, value) else {
            return Err(AllocError);
        };
    }
    Ok(tree)
}

/// Copies of the pairs of a cursor without bounds.
fn gathered<'t, K: Clone + Ord + 't, V: Clone + 't, C: PairCursor<'t, K, V>>(
    alloc: Global,
    cursor: C,
) -> Result<TreeIndex<K, V>, AllocError>
    requires start { IsStart K.cmp (C.cursor cursor) }
    requires lower { (C.cursor cursor).lower ≡ Unbounded }
    requires upper { (C.cursor cursor).upper ≡ Unbounded }
    requires keys { ClonesAreSame K.is_clone }
    requires values { ClonesAreSame V.is_clone }
    ensures { IfOk result (λ list. list.pairs ≡ (C.cursor cursor).pairs) }
{
    let mut cursor = cursor;
    let mut list = TreeIndex::new(alloc);
    'gathering: while let Some((key, value)) = next(&mut cursor) {
        let (key, value) = copied_pair(key, value)?;
        let Ok(()) = list.upsert_sync(key, value) else {
            return Err(AllocError);
        };
    }
    Ok(list)
}

/// Makes the writes of transactions on a list.
fn apply_history<K: Clone + Ord, V: Clone>(
    list: &mut TreeIndex<K, V>,
    history: &[Transaction<K, V>],
) -> Result<(), AllocError>
    requires keys { ClonesAreSame K.is_clone }
    requires values { ClonesAreSame V.is_clone }
    ensures { OnOk result (list.new.pairs ≡ after_all K.cmp history.now list.old.pairs) }
{
    for transaction in history {
        apply_all(list, transaction.writes.as_slice())?;
    }
    Ok(())
}

/// Makes writes on a list.
fn apply_all<K: Clone + Ord, V: Clone>(
    list: &mut TreeIndex<K, V>,
    writes: &[Write<K, V>],
) -> Result<(), AllocError>
    requires keys { ClonesAreSame K.is_clone }
    requires values { ClonesAreSame V.is_clone }
    ensures { OnOk result (list.new.pairs ≡ after_writes K.cmp writes.now list.old.pairs) }
{
    for write in writes {
        apply(list, write)?;
    }
    Ok(())
}

/// Makes one write on a list.
fn apply<K: Clone + Ord, V: Clone>(
    list: &mut TreeIndex<K, V>,
    write: &Write<K, V>,
) -> Result<(), AllocError>
    requires keys { ClonesAreSame K.is_clone }
    requires values { ClonesAreSame V.is_clone }
    ensures { OnOk result (list.new.pairs ≡ after_write K.cmp write.now list.old.pairs) }
{
    match write {
        Write::Insert(key, value) => {
            let (key, value) = copied_pair(key, value)?;
            match list.insert_sync(key, value) {
                Err(InsertRefused::Memory(_, _)) => Err(AllocError),
                _ => Ok(()),
            }
        }
        Write::Upsert(key, value) => {
            let (key, value) = copied_pair(key, value)?;
            match list.upsert_sync(key, value) {
                Ok(()) => Ok(()),
                Err(_) => Err(AllocError),
            }
        }
        Write::Remove(key) => {
            list.remove_sync(key);
            Ok(())
        }
        Write::RemoveRange(lower, upper) => {
            list.remove_range_sync(lower.as_ref(), upper.as_ref());
            Ok(())
        }
        Write::Clear => {
            list.clear();
            Ok(())
        }
    }
}

impl<K: Clone + Ord, V: Clone + Eq> OrderedView<K, V> for TreeIndex<K, V> {
    ghost pairs = { λ t. t.pairs };

    fn find(&self, key: &K) -> Option<&V> {
        self.peek(key)
    }

    fn has_between(&self, lower: &Bound<K>, upper: &Bound<K>, part: Part, told: &[(K, V)]) -> bool {
        let _ = self.len();
        matches(self.range(lower.as_ref(), upper.as_ref()), part, told)
    }

    fn copy_between(
        &self,
        alloc: Global,
        lower: &Bound<K>,
        upper: &Bound<K>,
        part: Part,
    ) -> Result<Vec<(K, V)>, AllocError> {
        let _ = self.len();
        collect(alloc, self.range(lower.as_ref(), upper.as_ref()), part)
    }

    fn near(&self, key: &K) -> Near<&K, &V> {
        let _ = self.len();
        match self.locate(key) {
            Proximity::Exact(at) => around(at.get(), None, None),
            Proximity::Between(at) => around(None, at.get(), at.get_back()),
            Proximity::Smaller(at) => around(None, at.get_back(), None),
            Proximity::Larger(at) => around(None, None, at.get()),
            Proximity::Empty => Near::Empty,
        }
    }
}
