//! Clones of trees, and of runs of their pairs.

ghost use Rattle.std.specs.Prelude.{◌≡◌, ◌≤◌, ◌+◌, ◌++◌, [], IfOk, OnErr, OnOk, length, take};
ghost use Rattle.leaf_array.specs.Pairs.{IsAscending};
ghost use Rattle.leaf_array.specs.Values.{ClonesAreSame};
ghost use Rattle.tree_index.specs.Cursor.{passed, unread};

use crate::index::TreeIndex;
use crate::iter::Iter;
use std::alloc::{AllocError, Global};

impl<K: Ord, V> TreeIndex<K, V> {
    /// A tree with clones of all pairs, by one pass over them, leaf by leaf, into room that was made ahead. Its
    /// leaves are full but for the last, so the depth is at most 1 up to 240 pairs. If an allocation fails there is
    /// none, and what was cloned is dropped.
    pub fn clone(&self, alloc: Global) -> Result<TreeIndex<K, V>, AllocError>
    where
        K: Clone + Drop,
        V: Clone + Drop,
        requires keys { ClonesAreSame K.is_clone }
        requires values { ClonesAreSame V.is_clone }
        ensures pairs { IfOk result (λ t. t.pairs ≡ self.now.pairs) }
        ensures ascending_headroom { IfOk result (λ t. 241 ≤ t.ascending_headroom + length t.pairs) }
    {
        Ok(TreeIndex {
            arenas: self.arenas.copy(alloc)?,
        })
    }
    /// Appends clones of `count` pairs of another tree, whose keys are greater than all here: the pair at a cursor's forward
    /// end and those after it, which the cursor passes. Each pair takes at most one place. If an allocation fails, no pair of
    /// this tree is left, and the cursor stays.
    pub fn push_run(&mut self, source: &mut Iter<'_, K, V>, count: usize) -> Result<(), AllocError>
    where
        K: Clone + Drop,
        V: Clone + Drop,
        requires keys { ClonesAreSame K.is_clone }
        requires values { ClonesAreSame V.is_clone }
        requires within { count ≤ length (unread source.old) }
        requires rising { IsAscending K.cmp (self.old.pairs ++ take count (unread source.old)) }
        ensures pushed { OnOk result (self.new.pairs ≡ self.old.pairs ++ take count (unread source.old)) }
        ensures passed { OnOk result (source.new ≡ passed count source.old) }
        ensures ascending { OnOk result (self.old.ascending_headroom ≤ self.new.ascending_headroom + count) }
        ensures refused { OnErr result (self.new.pairs ≡ []) }
        ensures flat { OnErr result (self.new.depth ≡ 0) }
        ensures ascending_headroom { OnErr result (self.new.ascending_headroom ≡ 241) }
        ensures still { OnErr result (source.new ≡ source.old) }
    {
        source.ends.push_run(&mut self.arenas, count)
    }
}
