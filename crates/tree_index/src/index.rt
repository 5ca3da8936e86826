//! The tree as users see it.

ghost use Rattle.std.specs.Prelude.{◌≡◌, ◌≤◌, ◌<◌, ◌^◌, ◌+◌, ◌*◌, ◌==◌, ◌↔◌, IsTrue, IsSome, IfSome, IfErr, OnOk, OnErr, IsErr, IsOk, IfOk, [], ◌∷◌, ◌++◌, Some, None, true, false, not, length, option_copied};
ghost use Rattle.std.specs.BTreeMap.{is_at};
ghost use Rattle.std.specs.Map.{lookup_entry};
ghost use Rattle.std.specs.Fn.{FnOnceReturnsAt, FnOnceTakesAt};
ghost use Rattle.std.specs.List.{filter};
ghost use Rattle.std.specs.BTreeMap.Range.{range_contains};
ghost use Rattle.leaf_array.specs.Edits.{inserted, removed, upserted};
ghost use Rattle.leaf_array.specs.Lookups.{LendsPair, deref_bound};
ghost use Rattle.leaf_array.specs.Pairs.{has_key, value_of_key, IsAscending};
ghost use Rattle.leaf_array.specs.Values.{ClonesAreSame};
ghost use Rattle.tree_index.specs.declared.cursor.End.TheVariants.{Unopened};
ghost use Rattle.tree_index.specs.Cursor.{cursor_within, whole};
ghost use Rattle.tree_nodes.specs.Nodes.{height_in, is_internal, node_pairs};
ghost use Rattle.tree_index.specs.Proximity.{IsLocated};
ghost use Rattle.tree_nodes.specs.Reads.{FnOnceReadsPair, FnOnceTakesPair};
ghost use Rattle.tree_nodes.specs.Depth.{IsAbove};
ghost use Rattle.tree_index.specs.Tree.{RefusedAsDuplicate, RefusedForMemory, refused_pair};

use crate::cursor::Ends;
use crate::iter::Iter;
use crate::proximity::{Proximity, locate};
use crate::range::Range;
use leaf_array::{InsertResult, Steps};
use std::alloc::{AllocError, Global};
use std::marker::Model;
use std::ops::Bound;
use thiserror::Error;
use tree_nodes::{Arenas, Node};

/// An ordered index: a B+ tree with at most fifteen pairs in a leaf and sixteen children in a node.
///
/// Leaves and nodes are in two arenas and name each other by numbers. A look-up follows one path and
/// clones nothing. An insertion touches one path, and clones one key where a leaf is split. A leaf that is
/// emptied is freed, unless it is the last. Reads and removals take no memory.
#[derive(Drop)]
pub struct TreeIndex<K: Ord, V> {
    pub(crate) arenas: Arenas<K, V>,
}

/// Invariant: specs/Content.antt of `tree_nodes`, IsSound: no tree, or one whose keys rise from leaf to leaf, with leaves
/// linked in that order.
impl<K: Ord, V> Model for TreeIndex<K, V> {
    ghost use Rattle.tree_index.specs.Tree.{Tree, tree_code};
    ghost use Rattle.tree_nodes.specs.Content.{pairs_of, IsSound};
    ghost use Rattle.tree_nodes.specs.Depth.{ascending_headroom};

    ghost Value = { Tree K V };

    ghost coded = { tree_code K.code V.code };

    ghost view = { λ t. record { pairs = pairs_of t.arenas; depth = t.arenas.height; ascending_headroom = ascending_headroom K.cmp t.arenas } };

    ghost invariant = { λ t. IsSound K.cmp t.arenas };
}

/// Why a pair wasn't inserted, with the pair.
#[derive(Debug, Drop, Error)]
pub enum InsertRefused<K, V> {
    /// A pair has the key already.
    #[error("a pair has the key already; the tree is as it was")]
    Duplicate(K, V),
    /// No pair has the key, and memory was refused.
    #[error("memory was refused; the tree is as it was")]
    Memory(K, V),
}

impl<K, V> InsertRefused<K, V> {
    /// The pair, as it was handed in.
    pub fn into_pair(self) -> (K, V)
        ensures { result ≡ refused_pair self }
    {
        match self {
            InsertRefused::Duplicate(key, value) | InsertRefused::Memory(key, value) => (
                key, value,
            ),
        }
    }
}

impl<K: Ord, V> TreeIndex<K, V> {
    /// A tree without pairs. It takes no memory.
    pub fn new(alloc: Global) -> Self
        ensures empty { result.pairs ≡ [] }
        ensures flat { result.depth ≡ 0 }
        ensures ascending_headroom { result.ascending_headroom ≡ 241 }
    {
        TreeIndex {
            arenas: Arenas::new(alloc),
        }
    }

    /// A tree without pairs, with room for `pairs` pairs that are inserted in ascending order. Fails only if an allocation fails.
    pub fn with_capacity(alloc: Global, pairs: usize) -> Result<Self, AllocError>
    where
        K: Drop,
        V: Drop,
        ensures empty { IfOk result (λ t. t.pairs ≡ []) }
        ensures flat { IfOk result (λ t. t.depth ≡ 0) }
        ensures ascending_headroom { IfOk result (λ t. t.ascending_headroom ≡ 241) }
    {
        Ok(TreeIndex {
            arenas: Arenas::with_capacity(alloc, pairs)?,
        })
    }

    /// Drops all pairs. The depth is 0 again.
    pub fn clear(&mut self)
    where
        K: Drop,
        V: Drop,
        ensures empty { self.new.pairs ≡ [] }
        ensures flat { self.new.depth ≡ 0 }
        ensures ascending_headroom { self.new.ascending_headroom ≡ 241 }
    {
        self.arenas.clear();
    }

    /// How many nodes lie above a leaf: 0 for a tree that is new or cleared.
    ///
    /// Pairs inserted by ascending keys into a new tree fill one node, up to 240 of them, before the
    /// depth is more than 1.
    pub fn depth(&self) -> usize
        ensures value { result ≡ self.now.depth }
        ensures flat { 0 < self.now.ascending_headroom → result ≤ 1 }
    {
        self.arenas.height()
    }

    /// How many pairs there are, from a count that the tree keeps. They are strictly ascending by key.
    pub fn len(&self) -> usize
        ensures count { result ≡ length self.now.pairs }
        ensures rising { IsAscending K.cmp self.now.pairs }
    {
        self.arenas.len()
    }

    /// Whether there are no pairs.
    pub fn is_empty(&self) -> bool
        ensures { result ≡ (length self.now.pairs == 0) }
    {
        self.arenas.len() == 0
    }

    /// Inserts a pair whose key isn't there. A refused pair is returned, and the tree is as it was: as a
    /// duplicate if and only if a pair has the key, also where there is no memory for one more.
    ///
    /// Where its leaf has no room, one key is cloned and room is taken for the leaves and nodes of one
    /// path, before anything is changed. A tree of `usize::MAX` pairs takes no more: that is answered
    /// as memory.
    #[inline]
    pub fn insert_sync(&mut self, key: K, val: V) -> Result<(), InsertRefused<K, V>>
    where
        K: Clone + Drop,
        V: Drop,
        requires clones { ClonesAreSame K.is_clone }
        ensures inserted { OnOk result (self.new.pairs ≡ inserted K.cmp key val self.old.pairs) }
        ensures absent { IsOk result → has_key K.cmp key self.old.pairs ≡ false }
        ensures duplicate { IfErr result (λ e. RefusedAsDuplicate e → has_key K.cmp key self.old.pairs ≡ true) }
        ensures memory { IfErr result (λ e. RefusedForMemory e → has_key K.cmp key self.old.pairs ≡ false) }
        ensures back { IfErr result (λ e. refused_pair e ≡ (key, val)) }
        ensures refused { OnErr result (self.new ≡ self.old) }
        ensures ascending { IsOk result → IsAbove K.cmp key self.old.pairs → self.old.ascending_headroom ≤ self.new.ascending_headroom + 1 }
    {
        match self.arenas.put::<false>(key, val) {
            InsertResult::Success => Ok(()),
            InsertResult::Duplicate(key, val) => Err(InsertRefused::Duplicate(key, val)),
            InsertResult::Full(key, val) => Err(InsertRefused::Memory(key, val)),
        }
    }

    /// Puts a pair in, over the one that has its key, if there is one: that takes no memory, and drops what
    /// was there. If an allocation fails, the pair is returned, and the tree is as it was.
    pub fn upsert_sync(&mut self, key: K, val: V) -> Result<(), (K, V)>
    where
        K: Clone + Drop,
        V: Drop,
        requires clones { ClonesAreSame K.is_clone }
        ensures upserted { OnOk result (self.new.pairs ≡ upserted K.cmp key val self.old.pairs) }
        ensures absent { IsErr result → has_key K.cmp key self.old.pairs ≡ false }
        ensures back { IfErr result (λ e. e ≡ (key, val)) }
        ensures refused { OnErr result (self.new ≡ self.old) }
    {
        match self.arenas.put::<true>(key, val) {
            InsertResult::Success => Ok(()),
            InsertResult::Duplicate(key, val) => Err((key, val)),
            InsertResult::Full(key, val) => Err((key, val)),
        }
    }

    /// Appends a pair whose key is greater than all others, without a search. If an allocation fails, the
    /// pair is returned, and the tree is as it was.
    ///
    /// The pair is put into the last leaf, or into a new one if that is full. A tree of `usize::MAX` pairs
    /// takes no more: it refuses the pair as for want of memory.
    #[inline]
    pub fn push_last(&mut self, key: K, val: V) -> Result<(), (K, V)>
    where
        K: Clone + Drop,
        V: Drop,
        requires clones { ClonesAreSame K.is_clone }
        requires above { IsAbove K.cmp key self.old.pairs }
        ensures pushed { OnOk result (self.new.pairs ≡ self.old.pairs ++ (key, val) ∷ []) }
        ensures back { IfErr result (λ e. e ≡ (key, val)) }
        ensures refused { OnErr result (self.new ≡ self.old) }
        ensures ascending { IsOk result → self.old.ascending_headroom ≤ self.new.ascending_headroom + 1 }
    {
        match self.arenas.push(key, val) {
            InsertResult::Success => Ok(()),
            InsertResult::Duplicate(key, val) => Err((key, val)),
            InsertResult::Full(key, val) => Err((key, val)),
        }
    }

    /// Removes the pair with this key, and says whether there was one. The depth may shrink, down to 1.
    pub fn remove_sync(&mut self, key: &K) -> bool
    where
        K: Drop,
        V: Drop,
        ensures found { result ≡ has_key K.cmp key.now self.old.pairs }
        ensures removed { self.new.pairs ≡ removed K.cmp key.now self.old.pairs }
        ensures depth { self.new.depth ≤ self.old.depth }
    {
        self.arenas.remove_if(
            key,
            |_: &V| -> bool
                ensures { result ≡ true }
            { true },
        )
    }

    /// The pair with this key.
    pub fn peek_entry(&self, key: &K) -> Option<(&K, &V)>
        ensures { LendsPair result (lookup_entry (is_at (K.cmp key.now)) self.now.pairs) }
    {
        let mut steps = Steps::new();
        self.peek_entry_counted(key, &mut steps)
    }

    /// The same, by at most ten comparisons in the leaf and in each node above it, which are counted: twenty
    /// in a tree of a depth of at most 1.
    #[inline]
    pub fn peek_entry_counted(&self, key: &K, steps: &mut Steps) -> Option<(&K, &V)>
        ensures pair { LendsPair result (lookup_entry (is_at (K.cmp key.now)) self.now.pairs) }
        ensures cost { steps.new.count ≤ steps.old.count + 10 * (self.now.depth + 1) }
        ensures raised { steps.old.count ≤ steps.new.count }
    {
        self.arenas.search_entry_counted(key, steps)
    }

    /// The value at this key.
    #[inline]
    pub fn peek(&self, key: &K) -> Option<&V>
        ensures { option_copied result ≡ value_of_key K.cmp key.now self.now.pairs }
    {
        match self.arenas.search_entry(key) {
            Some((_, value)) => Some(value),
            None => None,
        }
    }

    /// Calls `f` on the pair with this key, once, and gives what it answers. Where no pair has the key `f`
    /// isn't called.
    pub fn peek_with<R, F: FnOnce(&K, &V) -> R>(&self, key: &K, f: F) -> Option<R>
    where
        F: Drop,
        requires { IfSome (lookup_entry (is_at (K.cmp key.now)) self.now.pairs) (FnOnceTakesPair F.FnOnce f) }
        ensures { FnOnceReadsPair F.FnOnce f (lookup_entry (is_at (K.cmp key.now)) self.now.pairs) result }
    {
        match self.arenas.search_entry(key) {
            Some((stored, value)) => Some(f(stored, value)),
            None => None,
        }
    }

    /// Calls `f` on the pair with this key, once, and gives what it answers. Where no pair has the key `f`
    /// isn't called. No lock is taken.
    pub fn read_sync<R, F: FnOnce(&K, &V) -> R>(&self, key: &K, f: F) -> Option<R>
    where
        F: Drop,
        requires { IfSome (lookup_entry (is_at (K.cmp key.now)) self.now.pairs) (FnOnceTakesPair F.FnOnce f) }
        ensures { FnOnceReadsPair F.FnOnce f (lookup_entry (is_at (K.cmp key.now)) self.now.pairs) result }
    {
        self.peek_with(key, f)
    }

    /// Whether a pair has this key.
    pub fn contains(&self, key: &K) -> bool
        ensures { result ≡ has_key K.cmp key.now self.now.pairs }
    {
        self.arenas.contains(key)
    }

    /// Removes the pairs whose keys lie within two bounds. Reversed bounds contain none. The depth may shrink,
    /// down to 1.
    pub fn remove_range_sync(&mut self, lower: Bound<&K>, upper: Bound<&K>)
    where
        K: Drop,
        V: Drop,
        ensures removed { self.new.pairs ≡ filter (λ p. not (range_contains K.cmp (deref_bound lower.entry) (deref_bound upper.entry) p.0)) self.old.pairs }
        ensures depth { self.new.depth ≤ self.old.depth }
    {
        self.arenas.remove_range(lower, upper);
    }

    /// A cursor over all pairs.
    pub fn iter(&self) -> Iter<'_, K, V>
        ensures cursor { result ≡ whole self.now.pairs Unopened Unopened }
        ensures countable { length self.now.pairs < 2 ^ 64 }
    {
        let _ = self.len();
        Iter {
            ends: Ends::new(&self.arenas),
        }
    }

    /// A cursor over the pairs within two bounds. Reversed bounds contain none.
    pub fn range<'t>(&'t self, lower: Bound<&'t K>, upper: Bound<&'t K>) -> Range<'t, K, V>
        ensures countable { length self.now.pairs < 2 ^ 64 }
        ensures cursor { result ≡ cursor_within self.now.pairs lower.entry upper.entry }
    {
        let _ = self.len();
        Range {
            ends: Ends::new(&self.arenas),
            lower,
            upper,
        }
    }

    /// The root node, if there is one: none while nothing was inserted since the tree was new or cleared.
    pub fn root(&self) -> Option<Node<'_, K, V>>
        ensures planted { IsSome result ↔ (0 < self.now.depth) }
        ensures pairs { IfSome result (λ n. node_pairs n ≡ self.now.pairs) }
        ensures kind { IfSome result (λ n. IsTrue (is_internal n) ↔ (1 < self.now.depth)) }
        ensures height { IfSome result (λ n. height_in n ≡ self.now.depth) }
    {
        self.arenas.root_node()
    }

    /// Where a key is: at its pair, or between its neighbours, with a cursor there. It searches one path.
    pub fn locate(&self, key: &K) -> Proximity<'_, K, V>
        ensures { IsLocated K.cmp key.now self.now.pairs result }
    {
        locate(&self.arenas, key)
    }

    /// Removes the pair with this key, if the condition answers true of its value: it is asked once where
    /// the key is there, else not at all. The depth may shrink, down to 1.
    pub fn remove_if_sync<F: FnOnce(&V) -> bool>(&mut self, key: &K, condition: F) -> bool
    where
        K: Drop,
        V: Drop,
        F: Drop,
        requires { IfSome (value_of_key K.cmp key.now self.old.pairs) (FnOnceTakesAt F.FnOnce condition) }
        ensures absent { value_of_key K.cmp key.now self.old.pairs ≡ None → result ≡ false }
        ensures asked { IfSome (value_of_key K.cmp key.now self.old.pairs) (λ v. FnOnceReturnsAt F.FnOnce condition v result) }
        ensures removed { result ≡ true → self.new.pairs ≡ removed K.cmp key.now self.old.pairs }
        ensures kept { result ≡ false → self.new.pairs ≡ self.old.pairs }
        ensures depth { self.new.depth ≤ self.old.depth }
    {
        self.arenas.remove_if(key, condition)
    }
}
