//! The tree of a segment.

ghost use Rattle.std.specs.Prelude.{◌≡◌, ◌≤◌, ◌<◌, ◌+◌, ◌++◌, ◌∷◌, ◌==◌, [], length, take, IfErr, IfOk, OnErr, OnOk};
ghost use Rattle.leaf_array.specs.Pairs.{IsAscending};
ghost use Rattle.leaf_array.specs.Values.{ClonesAreSame};
ghost use Rattle.tree_index.specs.Cursor.{passed, unread};
ghost use Rattle.tree_index.specs.Depth.{IsAbove};

use std::alloc::{AllocError, Global};
use std::marker::Model;
use tree_index::{Iter, TreeIndex};

/// A tree of at most 225 pairs that were inserted in ascending order: at most one node is above its leaves, so a look-up
/// makes at most twenty comparisons.
#[derive(Drop)]
pub struct Segment<K: Ord, V> {
    tree: TreeIndex<K, V>,
}

/// Invariant: specs/Segments.antt, IsRisen: the tree can take `240 - len` more ascending pairs before its depth
/// exceeds 1.
impl<K: Ord, V> Model for Segment<K, V> {
    ghost use Rattle.tree_index.specs.Tree.{Tree, tree_code};
    ghost use Rattle.version_views.specs.Segments.{IsRisen};

    ghost Value = { Tree K V };

    ghost coded = { tree_code K.code V.code };

    ghost view = { λ s. s.tree };

    ghost invariant = { λ s. IsRisen s.tree };
}

impl<K: Ord, V> Segment<K, V> {
    /// A segment without pairs. It takes no memory.
    pub fn new(alloc: Global) -> Self
        ensures { result.pairs ≡ [] }
    {
        Segment {
            tree: TreeIndex::new(alloc),
        }
    }

    /// A segment without pairs, with room for `pairs` of them. Fails only if an allocation fails.
    pub fn with_capacity(alloc: Global, pairs: usize) -> Result<Self, AllocError>
    where
        K: Drop,
        V: Drop,
        ensures { IfOk result (λ segment. segment.pairs ≡ []) }
    {
        Ok(Segment {
            tree: TreeIndex::with_capacity(alloc, pairs)?,
        })
    }

    /// A segment with clones of a tree's pairs, by one pass over them. Fails only if an allocation fails.
    pub fn copied(alloc: Global, tree: &TreeIndex<K, V>) -> Result<Self, AllocError>
    where
        K: Clone + Drop,
        V: Clone + Drop,
        requires keys { ClonesAreSame K.is_clone }
        requires values { ClonesAreSame V.is_clone }
        requires few { length tree.now.pairs ≤ 225 }
        ensures { IfOk result (λ segment. segment.pairs ≡ tree.now.pairs) }
    {
        Ok(Segment {
            tree: tree.clone(alloc)?,
        })
    }

    /// Appends a pair whose key is greater than all others. If an allocation fails, the pair is returned, and the
    /// segment is as it was. Condition: there are fewer than 225 pairs.
    #[inline]
    pub fn push(&mut self, key: K, value: V) -> Result<(), (K, V)>
    where
        K: Clone + Drop,
        V: Drop,
        requires clones { ClonesAreSame K.is_clone }
        requires above { IsAbove K.cmp key self.old.pairs }
        requires room { length self.old.pairs < 225 }
        ensures pushed { OnOk result (self.new.pairs ≡ self.old.pairs ++ (key, value) ∷ []) }
        ensures back { IfErr result (λ e. e ≡ (key, value)) }
        ensures refused { OnErr result (self.new ≡ self.old) }
    {
        self.tree.push_last(key, value)
    }

    /// Appends clones of `count` pairs of a tree, whose keys are greater than all here: the pair at a cursor's forward end
    /// and those after it, which the cursor passes. If an allocation fails, the segment has no pair left, and the cursor stays.
    /// Condition: there is room for them below 226 pairs.
    pub fn push_run(&mut self, source: &mut Iter<'_, K, V>, count: usize) -> Result<(), AllocError>
    where
        K: Clone + Drop,
        V: Clone + Drop,
        requires keys { ClonesAreSame K.is_clone }
        requires values { ClonesAreSame V.is_clone }
        requires within { count ≤ length (unread source.old) }
        requires rising { IsAscending K.cmp (self.old.pairs ++ take count (unread source.old)) }
        requires room { length self.old.pairs + count ≤ 225 }
        ensures pushed { OnOk result (self.new.pairs ≡ self.old.pairs ++ take count (unread source.old)) }
        ensures passed { OnOk result (source.new ≡ passed count source.old) }
        ensures refused { OnErr result (self.new.pairs ≡ []) }
        ensures still { OnErr result (source.new ≡ source.old) }
    {
        match self.tree.push_run(source, count) {
            Ok(()) => Ok(()),
            Err(refused) => Err(refused),
        }
    }

    /// How many pairs there are.
    #[inline]
    pub fn len(&self) -> usize
        ensures { result ≡ length self.now.pairs }
    {
        self.tree.len()
    }

    /// Whether there are no pairs.
    pub fn is_empty(&self) -> bool
        ensures { result ≡ (length self.now.pairs == 0) }
    {
        self.tree.is_empty()
    }

    /// Its tree.
    #[inline]
    pub fn tree(&self) -> &TreeIndex<K, V>
        ensures same { result.now ≡ self.now }
        ensures flat { result.now.depth ≤ 1 }
    {
        // what is asked here tells the proof how deep the tree is
        let _depth = self.tree.depth();
        &self.tree
    }
}
