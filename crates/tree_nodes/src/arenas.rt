//! Leaves and nodes in their arenas, and the way down to a key.

ghost use Rattle.std.specs.Prelude.{ℕ, ◌≡◌, ◌≢◌, ◌≤◌, ◌<◌, ◌+◌, ◌*◌, ◌-◌, ◌^◌, IsSome, IfSome, Some, None, [], true, false, not, IfOk};
ghost use Rattle.std.specs.BTreeMap.{is_at};
ghost use Rattle.std.specs.Map.{lookup_entry};
ghost use Rattle.tree_nodes.specs.Shape.{way};
ghost use Rattle.tree_nodes.specs.Depth.{IsAbove, ascending_headroom};
ghost use Rattle.tree_nodes.specs.Content.{content_of, pairs_of, IsSound, LeafHasRoom, leaf_on_way};
ghost use Rattle.leaf_array.specs.Edits.{removed, upserted};
ghost use Rattle.tree_nodes.specs.Walk.{pairs_in_leaf};
ghost use Rattle.std.specs.Fn.{FnOnceReturnsAt, FnOnceTakesAt};
ghost use Rattle.leaf_array.specs.Lookups.{LendsPair};
ghost use Rattle.leaf_array.specs.Pairs.{has_key};
ghost use Rattle.leaf_array.specs.Values.{ClonesAreSame};
ghost use Rattle.leaf_array.specs.Results.{IsSuccess, IsDuplicate, IsFull, given_back};

use crate::leaf::Leaf;
use crate::node::InnerNode;
use leaf_array::{InsertResult, Steps};
use slab::Slab;
use std::alloc::{AllocError, Global};

/// The leaves, the nodes, where the way down starts, how many nodes it has, and how many pairs there are.
///
/// Nothing is planted while the height is 0.
#[derive(Drop)]
pub struct Arenas<K: Ord, V> {
    pub(crate) leaves: Slab<Leaf<K, V>>,
    pub(crate) nodes: Slab<InnerNode<K>>,
    pub(crate) root: usize,
    pub(crate) height: usize,
    pub(crate) len: usize,
}

impl<K: Ord, V> Arenas<K, V> {
    /// Arenas with nothing planted. They take no memory.
    pub fn new(alloc: Global) -> Self
        ensures sound { IsSound K.cmp result }
        ensures empty { pairs_of result ≡ [] }
        ensures flat { result.height ≡ 0 }
    {
        Arenas {
            leaves: Slab::new(alloc),
            nodes: Slab::new(alloc),
            root: 0,
            height: 0,
            len: 0,
        }
    }

    /// The same with room for `pairs` pairs that are inserted in ascending order: fifteen to a leaf, and where these are
    /// more than a node has, eight children to a node, and places for a split.
    pub fn with_capacity(alloc: Global, pairs: usize) -> Result<Self, AllocError>
    where
        K: Drop,
        V: Drop,
        ensures sound { IfOk result (λ a. IsSound K.cmp a) }
        ensures empty { IfOk result (λ a. pairs_of a ≡ []) }
        ensures flat { IfOk result (λ a. a.height ≡ 0) }
    {
        let count = pairs / 15 + 1;
        let leaves = Slab::with_capacity(alloc, count)?;
        let nodes = Slab::with_capacity(alloc, if count > 16 { count / 7 + 8 } else { 1 })?;
        Ok(Arenas {
            leaves,
            nodes,
            root: 0,
            height: 0,
            len: 0,
        })
    }

    /// How many nodes the way down has.
    #[inline(always)]
    pub fn height(&self) -> usize
        ensures { result ≡ self.now.height }
    {
        self.height
    }

    /// How many pairs there are.
    #[inline(always)]
    pub fn len(&self) -> usize
        ensures { result ≡ self.now.len }
    {
        self.len
    }

    /// The number of the node at a height on the way to a key, or at the height 0 of the leaf.
    #[inline(always)]
    pub(crate) fn node_at(&self, left: usize, key: &K) -> usize
        requires sound { IsSound K.cmp self.now }
        requires within { left ≤ self.now.height }
        ensures { result ≡ way K.cmp (content_of self.now) key.now (self.now.height - left) self.now.root }
    {
        let mut steps = Steps::new();
        self.node_at_counted(left, key, &mut steps)
    }

    /// The same, by at most ten comparisons for each node on the way, which are counted.
    #[inline(always)]
    fn node_at_counted(&self, left: usize, key: &K, steps: &mut Steps) -> usize
        requires sound { IsSound K.cmp self.now }
        requires within { left ≤ self.now.height }
        ensures place { result ≡ way K.cmp (content_of self.now) key.now (self.now.height - left) self.now.root }
        ensures cost { steps.new.count ≤ steps.old.count + 10 * (self.now.height - left) }
        ensures raised { steps.old.count ≤ steps.new.count }
    {
        let mut at = self.root;
        let mut height = self.height;
        while height > left {
            match self.nodes.get(at) {
                Some(node) => at = node.child_counted(key, steps),
                None => unreachable!(),
            }
            height -= 1;
        }
        at
    }

    /// The number of the leaf on the way to a key.
    #[inline(always)]
    pub(crate) fn leaf_of(&self, key: &K) -> usize
        requires { IsSound K.cmp self.now }
        ensures { result ≡ leaf_on_way K.cmp key.now self.now }
    {
        self.node_at(0, key)
    }

    /// The numbers of the node over leaves and of the leaf on the way to a key, by one way down.
    #[inline(always)]
    fn way_to(&self, key: &K) -> (usize, usize)
        requires { IsSound K.cmp self.now }
        ensures above { self.now.height ≢ 0 → result.0 ≡ way K.cmp (content_of self.now) key.now (self.now.height - 1) self.now.root }
        ensures leaf { result.1 ≡ leaf_on_way K.cmp key.now self.now }
    {
        let mut above = self.root;
        let mut at = self.root;
        let mut height = self.height;
        while height > 0 {
            match self.nodes.get(at) {
                Some(node) => {
                    above = at;
                    at = node.child(key);
                },
                None => unreachable!(),
            }
            height -= 1;
        }
        (above, at)
    }

    /// The pair with this key.
    #[inline(always)]
    pub fn search_entry(&self, key: &K) -> Option<(&K, &V)>
        requires { IsSound K.cmp self.now }
        ensures { LendsPair result (lookup_entry (is_at (K.cmp key.now)) (pairs_of self.now)) }
    {
        let mut steps = Steps::new();
        self.search_entry_counted(key, &mut steps)
    }

    /// The same, by at most ten comparisons in the leaf and in each node above it, which are counted.
    #[inline(always)]
    pub fn search_entry_counted(&self, key: &K, steps: &mut Steps) -> Option<(&K, &V)>
        requires { IsSound K.cmp self.now }
        ensures pair { LendsPair result (lookup_entry (is_at (K.cmp key.now)) (pairs_of self.now)) }
        ensures cost { steps.new.count ≤ steps.old.count + 10 * (self.now.height + 1) }
        ensures raised { steps.old.count ≤ steps.new.count }
    {
        match self.leaves.get(self.node_at_counted(0, key, steps)) {
            Some(leaf) => leaf.array.search_entry_counted(key, steps),
            None => None,
        }
    }

    /// Inserts a pair into the leaf on the way to its key, and where `UPSERT` is true writes it over the one
    /// that has its key. It is full where no pair has the key, and that leaf has no room, or there is none.
    #[inline(always)]
    fn insert<const UPSERT: bool>(&mut self, at: usize, key: K, val: V) -> InsertResult<K, V>
    where
        K: Drop,
        V: Drop,
        requires sound { IsSound K.cmp self.old }
        requires on { at ≡ leaf_on_way K.cmp key self.old }
        requires countable { has_key K.cmp key (pairs_of self.old) ≡ false → self.old.len + 1 < 2 ^ 64 }
        ensures sound { IsSound K.cmp self.new }
        ensures depth { self.new.height ≡ self.old.height }
        ensures way { (steps : ℕ) → way K.cmp (content_of self.new) key steps self.new.root ≡ way K.cmp (content_of self.old) key steps self.old.root }
        ensures back { IfSome (given_back result) (λ p. p ≡ (key, val)) }
        ensures kept { IsSome (given_back result) → pairs_of self.new ≡ pairs_of self.old }
        ensures full { IsFull result → LeafHasRoom K.cmp key self.old → ⊥ }
        ensures absent { IsFull result → has_key K.cmp key (pairs_of self.old) ≡ false }
        ensures duplicate { IsDuplicate result → has_key K.cmp key (pairs_of self.old) ≡ true }
        ensures repeated { IsDuplicate result → UPSERT ≡ false }
        ensures unique { IsSuccess result → UPSERT ≡ false → has_key K.cmp key (pairs_of self.old) ≡ false }
        ensures done { IsSuccess result → pairs_of self.new ≡ upserted K.cmp key val (pairs_of self.old) }
        ensures still { IsFull result → LeafHasRoom K.cmp key self.new → ⊥ }
        ensures ascending_headroom { IsSome (given_back result) → ascending_headroom K.cmp self.new ≡ ascending_headroom K.cmp self.old }
        ensures ascending { IsSuccess result → IsAbove K.cmp key (pairs_of self.old) → ascending_headroom K.cmp self.old ≤ ascending_headroom K.cmp self.new + 1 }
    {
        match self.leaves.get_mut(at) {
            Some(leaf) => {
                let before = leaf.len();
                let answer = leaf.insert::<UPSERT>(key, val);
                self.len = self.len - before + leaf.len();
                answer
            },
            None => InsertResult::Full(key, val),
        }
    }

    /// Inserts a pair, and where `UPSERT` is true writes it over the one that has its key. It is full where
    /// no pair has the key, and memory is refused or no more pairs can be counted.
    #[inline(always)]
    pub fn put<const UPSERT: bool>(&mut self, key: K, val: V) -> InsertResult<K, V>
    where
        K: Clone + Drop,
        V: Drop,
        requires sound { IsSound K.cmp self.old }
        requires clones { ClonesAreSame K.is_clone }
        ensures sound { IsSound K.cmp self.new }
        ensures back { IfSome (given_back result) (λ p. p ≡ (key, val)) }
        ensures kept { IsSome (given_back result) → pairs_of self.new ≡ pairs_of self.old }
        ensures depth { IsSome (given_back result) → self.new.height ≡ self.old.height }
        ensures absent { IsFull result → has_key K.cmp key (pairs_of self.old) ≡ false }
        ensures duplicate { IsDuplicate result → has_key K.cmp key (pairs_of self.old) ≡ true }
        ensures repeated { IsDuplicate result → UPSERT ≡ false }
        ensures unique { IsSuccess result → UPSERT ≡ false → has_key K.cmp key (pairs_of self.old) ≡ false }
        ensures done { IsSuccess result → pairs_of self.new ≡ upserted K.cmp key val (pairs_of self.old) }
        ensures ascending_headroom { IsSome (given_back result) → ascending_headroom K.cmp self.new ≡ ascending_headroom K.cmp self.old }
        ensures ascending { IsSuccess result → IsAbove K.cmp key (pairs_of self.old) → ascending_headroom K.cmp self.old ≤ ascending_headroom K.cmp self.new + 1 }
    {
        if self.len == usize::MAX && self.lacks(&key) {
            return InsertResult::Full(key, val);
        }
        let (above, at) = self.way_to(&key);
        match self.insert::<UPSERT>(at, key, val) {
            InsertResult::Full(key, val) => self.put_full::<UPSERT>(above, at, key, val),
            answer => answer,
        }
    }

    /// Whether no pair has this key. Out of line, for where no more pairs can be counted.
    #[cold]
    #[inline(never)]
    fn lacks(&self, key: &K) -> bool
        requires { IsSound K.cmp self.now }
        ensures { result ≡ not (has_key K.cmp key.now (pairs_of self.now)) }
    {
        !self.contains(key)
    }

    /// Inserts a pair whose key no pair has, where the leaf on the way, which is named with the node above it,
    /// has no room.
    #[cold]
    #[inline(never)]
    fn put_full<const UPSERT: bool>(
        &mut self,
        above: usize,
        at: usize,
        key: K,
        val: V,
    ) -> InsertResult<K, V>
    where
        K: Clone + Drop,
        V: Drop,
        requires sound { IsSound K.cmp self.old }
        requires above { self.old.height ≢ 0 → above ≡ way K.cmp (content_of self.old) key (self.old.height - 1) self.old.root }
        requires on { at ≡ leaf_on_way K.cmp key self.old }
        requires countable { self.old.len + 1 < 2 ^ 64 }
        requires clones { ClonesAreSame K.is_clone }
        requires full { LeafHasRoom K.cmp key self.old → ⊥ }
        requires absent { has_key K.cmp key (pairs_of self.old) ≡ false }
        ensures sound { IsSound K.cmp self.new }
        ensures back { IfSome (given_back result) (λ p. p ≡ (key, val)) }
        ensures kept { IsSome (given_back result) → pairs_of self.new ≡ pairs_of self.old }
        ensures depth { IsSome (given_back result) → self.new.height ≡ self.old.height }
        ensures absent { IsFull result → has_key K.cmp key (pairs_of self.old) ≡ false }
        ensures duplicate { IsDuplicate result → has_key K.cmp key (pairs_of self.old) ≡ true }
        ensures repeated { IsDuplicate result → UPSERT ≡ false }
        ensures unique { IsSuccess result → UPSERT ≡ false → has_key K.cmp key (pairs_of self.old) ≡ false }
        ensures done { IsSuccess result → pairs_of self.new ≡ upserted K.cmp key val (pairs_of self.old) }
        ensures ascending_headroom { IsSome (given_back result) → ascending_headroom K.cmp self.new ≡ ascending_headroom K.cmp self.old }
        ensures ascending { IsSuccess result → IsAbove K.cmp key (pairs_of self.old) → ascending_headroom K.cmp self.old ≤ ascending_headroom K.cmp self.new + 1 }
    {
        match self.make_room(above, at, &key) {
            Ok(leaf) => self.insert::<UPSERT>(leaf, key, val),
            Err(_) => InsertResult::Full(key, val),
        }
    }

    /// Whether a pair has this key.
    pub fn contains(&self, key: &K) -> bool
        requires { IsSound K.cmp self.now }
        ensures { result ≡ has_key K.cmp key.now (pairs_of self.now) }
    {
        match self.search_entry(key) {
            Some(_) => true,
            None => false,
        }
    }

    /// Drops all leaves and nodes.
    pub fn clear(&mut self)
    where
        K: Drop,
        V: Drop,
        ensures sound { IsSound K.cmp self.new }
        ensures empty { pairs_of self.new ≡ [] }
        ensures flat { self.new.height ≡ 0 }
    {
        self.leaves.clear();
        self.nodes.clear();
        self.root = 0;
        self.height = 0;
        self.len = 0;
    }

    /// Removes the pair with this key, if the condition answers true of its value. A leaf that has none left
    /// then leaves the tree, unless there is no other.
    #[inline]
    pub fn remove_if<F: FnOnce(&V) -> bool>(&mut self, key: &K, condition: F) -> bool
    where
        K: Drop,
        V: Drop,
        F: Drop,
        requires callable { IfSome (lookup_entry (is_at (K.cmp key.now)) (pairs_of self.old)) (λ e. FnOnceTakesAt F.FnOnce condition e.1) }
        requires sound { IsSound K.cmp self.old }
        ensures sound { IsSound K.cmp self.new }
        ensures depth { self.new.height ≤ self.old.height }
        ensures absent { lookup_entry (is_at (K.cmp key.now)) (pairs_of self.old) ≡ None → result ≡ false }
        ensures asked { IfSome (lookup_entry (is_at (K.cmp key.now)) (pairs_of self.old)) (λ e. FnOnceReturnsAt F.FnOnce condition e.1 result) }
        ensures removed { result ≡ true → pairs_of self.new ≡ removed K.cmp key.now (pairs_of self.old) }
        ensures kept { result ≡ false → pairs_of self.new ≡ pairs_of self.old }
    {
        let (answer, leaf) = self.take_if(key, condition);
        if let Some(at) = leaf {
            self.prune(at, key);
        }
        answer
    }

    /// The same, but that the leaf stays: its number is returned if it has no pair left.
    #[inline(always)]
    fn take_if<F: FnOnce(&V) -> bool>(&mut self, key: &K, condition: F) -> (bool, Option<usize>)
    where
        F: Drop,
        requires callable { IfSome (lookup_entry (is_at (K.cmp key.now)) (pairs_of self.old)) (λ e. FnOnceTakesAt F.FnOnce condition e.1) }
        requires sound { IsSound K.cmp self.old }
        ensures sound { IsSound K.cmp self.new }
        ensures depth { self.new.height ≡ self.old.height }
        ensures absent { lookup_entry (is_at (K.cmp key.now)) (pairs_of self.old) ≡ None → result.0 ≡ false }
        ensures asked { IfSome (lookup_entry (is_at (K.cmp key.now)) (pairs_of self.old)) (λ e. FnOnceReturnsAt F.FnOnce condition e.1 result.0) }
        ensures removed { result.0 ≡ true → pairs_of self.new ≡ removed K.cmp key.now (pairs_of self.old) }
        ensures kept { result.0 ≡ false → pairs_of self.new ≡ pairs_of self.old }
        ensures emptied { IfSome result.1 (λ n. (n ≡ leaf_on_way K.cmp key.now self.new) × (pairs_in_leaf self.new n ≡ [])) }
    {
        let at = self.leaf_of(key);
        match self.leaves.get_mut(at) {
            Some(leaf) => {
                let before = leaf.len();
                let answer = leaf.remove_if(key, condition);
                let after = leaf.len();
                self.len = self.len - before + after;
                (answer, emptied(answer, after, at))
            },
            None => (false, None),
        }
    }
}

/// The number of a leaf, if a removal has left it no pair.
#[inline(always)]
fn emptied(removed: bool, len: usize, at: usize) -> Option<usize>
    ensures { IfSome result (λ n. (n ≡ at) × (len ≡ 0)) }
{
    if removed && len == 0 { Some(at) } else { None }
}
