//! What comes of single keys: few edits in a sorted row, many in a tree.

ghost use Rattle.std.specs.Prelude.{◌≡◌, [], length, not, option_copied, IfOk, OnOk};
ghost use Rattle.std.specs.BTreeMap.Range.{range_contains};
ghost use Rattle.std.specs.List.{filter};
ghost use Rattle.leaf_array.specs.Edits.{upserted};
ghost use Rattle.leaf_array.specs.Pairs.{value_of_key, IsAscending};
ghost use Rattle.leaf_array.specs.Values.{ClonesAreSame};
ghost use Rattle.version_drafts.specs.Changes.{noted_in};

use crate::row::{Edit, EditRow, Noted};
use std::alloc::{AllocError, Global};
use std::ops::Bound;
use tree_index::TreeIndex;

/// How many edits a row takes: it allocates once and clones no key, but an edit that isn't the last one moves those behind it.
const ROW_LIMIT: usize = 128;

/// Edits by rising keys. Their form is chosen once, by how many there can be.
#[derive(Drop)]
pub(crate) enum Edits<'w, K: Ord, V> {
    Row(EditRow<'w, K, V>),
    Tree(TreeIndex<K, Edit<'w, V>>),
}

impl<'w, K: Ord, V> Edits<'w, K, V> {
    /// None yet, with room for `count` of them. Fails only if an allocation fails.
    pub(crate) fn with_room(alloc: Global, count: usize) -> Result<Self, AllocError>
    where
        K: Drop,
        ensures { IfOk result (λ e. noted_in e ≡ []) }
    {
        if count <= ROW_LIMIT {
            Ok(Edits::Row(EditRow::with_room(alloc, count)?))
        } else {
            Ok(Edits::Tree(TreeIndex::with_capacity(alloc, count)?))
        }
    }

    /// How many there are.
    pub(crate) fn len(&self) -> usize
        ensures count { result ≡ length (noted_in self.now) }
        ensures rising { IsAscending K.cmp (noted_in self.now) }
    {
        match self {
            Edits::Row(row) => row.len(),
            Edits::Tree(tree) => tree.len(),
        }
    }

    /// What comes of a key, if a write named it.
    pub(crate) fn peek(&self, key: &K) -> Option<&Edit<'w, V>>
        ensures { option_copied result ≡ value_of_key K.cmp key.now (noted_in self.now) }
    {
        match self {
            Edits::Row(row) => row.peek(key),
            Edits::Tree(tree) => tree.peek(key),
        }
    }

    /// Notes what comes of a key, instead of what was noted of it. Fails only if an allocation fails.
    pub(crate) fn note(&mut self, key: &'w K, to: Option<&'w V>) -> Result<(), AllocError>
    where
        K: Clone + Drop,
        requires { ClonesAreSame K.is_clone }
        ensures rising { IsAscending K.cmp (noted_in self.old) }
        ensures noted { OnOk result (noted_in self.new ≡ upserted K.cmp key.now (option_copied to.entry) (noted_in self.old)) }
    {
        let _ = self.len();
        match self {
            Edits::Row(row) => row.upsert(Noted::new(key, to)),
            Edits::Tree(tree) => match tree.upsert_sync(key.clone()?, Edit::new(to)) {
                Ok(()) => Ok(()),
                Err(_) => Err(AllocError),
            },
        }
    }

    /// Forgets the edits of keys within two bounds.
    pub(crate) fn forget_range(&mut self, lower: &Bound<K>, upper: &Bound<K>)
    where
        K: Drop,
        ensures { noted_in self.new ≡ filter (λ p. not (range_contains K.cmp lower.now upper.now p.0)) (noted_in self.old) }
    {
        match self {
            Edits::Row(row) => row.remove_range(lower, upper),
            Edits::Tree(tree) => tree.remove_range_sync(lower.as_ref(), upper.as_ref()),
        }
    }
}
