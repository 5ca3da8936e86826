//! Room for one more pair: what is full on the way to its key is split.

ghost use Rattle.std.specs.Prelude.{◌≡◌, ◌≢◌, ◌≤◌, ◌<◌, ◌+◌, ◌-◌, ◌^◌, ◌==◌, ℕ, IfSome, IfOk, OnOk, OnErr, Some, None, true, false, not, nat_lt, cond, length};
ghost use Rattle.std.specs.Option.{option_map};
ghost use Rattle.leaf_array.specs.Values.{ClonesAreSame};
ghost use Rattle.slab.specs.Slab.{get, HasRoomFor, slab_len};
ghost use Rattle.tree_nodes.specs.Chain.{leaf_links, linked_in};
ghost use Rattle.tree_nodes.specs.Depth.{KeepsHeadroom, ascending_headroom};
ghost use Rattle.tree_nodes.specs.Shape.{way};
ghost use Rattle.tree_nodes.specs.Content.{content_of, pairs_of, IsSound, LeafHasRoom, NodeHasRoom, IsNodeFull, IsLeafFull, IsSplitPointThere, AreSameArrays, leaf_on_way};

use crate::arenas::Arenas;
use crate::leaf::{Leaf, SplitPoint};
use crate::node::InnerNode;
use leaf_array::Array;
use slab::Slab;
use std::alloc::AllocError;

/// A leaf with fewer pairs than this is packed where it has no room, one with as many is split.
pub(crate) const CROWDED: usize = 12;

impl<K: Ord, V> Arenas<K, V> {
    /// Makes room for one more pair in the leaf on the way to a key, which is named with the node above it, and
    /// gives the leaf that the way leads to then. The pairs stay as they are, and so does the height where memory
    /// is refused.
    #[cold]
    #[inline(never)]
    pub(crate) fn make_room(
        &mut self,
        above: usize,
        at: usize,
        key: &K,
    ) -> Result<usize, AllocError>
    where
        K: Clone + Drop,
        V: Drop,
        requires sound { IsSound K.cmp self.old }
        requires above { self.old.height ≢ 0 → above ≡ way K.cmp (content_of self.old) key.now (self.old.height - 1) self.old.root }
        requires on { at ≡ leaf_on_way K.cmp key.now self.old }
        requires clones { ClonesAreSame K.is_clone }
        requires full { LeafHasRoom K.cmp key.now self.old → ⊥ }
        ensures sound { IsSound K.cmp self.new }
        ensures pairs { pairs_of self.new ≡ pairs_of self.old }
        ensures room { OnOk result (LeafHasRoom K.cmp key.now self.new) }
        ensures on { IfOk result (λ n. n ≡ leaf_on_way K.cmp key.now self.new) }
        ensures refused { OnErr result (self.new.height ≡ self.old.height) }
        ensures ascending_headroom { OnErr result (ascending_headroom K.cmp self.new ≡ ascending_headroom K.cmp self.old) }
        ensures ascending { OnOk result (KeepsHeadroom K.cmp key.now self.old self.new) }
    {
        if self.height == 0 {
            return self.init_root(key);
        }
        if !self.is_crowded(at, key) {
            self.pack(at, key);
            return Ok(at);
        }
        let split_point = self.split_point(at, key)?;
        self.leaves.reserve(1)?;
        let above = self.open_node(above, key)?;
        Ok(self.split_leaf(above, at, key, split_point))
    }

    /// Plants a first leaf under a first node, and gives its number.
    fn init_root(&mut self, key: &K) -> Result<usize, AllocError>
    where
        K: Drop,
        V: Drop,
        requires sound { IsSound K.cmp self.old }
        requires bare { self.old.height ≡ 0 }
        ensures sound { IsSound K.cmp self.new }
        ensures pairs { pairs_of self.new ≡ pairs_of self.old }
        ensures room { OnOk result (LeafHasRoom K.cmp key.now self.new) }
        ensures on { IfOk result (λ n. n ≡ leaf_on_way K.cmp key.now self.new) }
        ensures refused { OnErr result (self.new.height ≡ self.old.height) }
        ensures ascending_headroom { OnErr result (ascending_headroom K.cmp self.new ≡ ascending_headroom K.cmp self.old) }
        ensures ascending { OnOk result (ascending_headroom K.cmp self.old ≤ ascending_headroom K.cmp self.new) }
    {
        let _ = key;
        self.leaves.reserve(1)?;
        self.nodes.reserve(1)?;
        let leaf = self.leaves.insert_reserved(Leaf::new());
        self.plant(leaf, 0);
        Ok(leaf)
    }

    /// Whether the leaf on the way to a key has enough pairs to be split.
    fn is_crowded(&self, at: usize, key: &K) -> bool
        requires sound { IsSound K.cmp self.now }
        requires planted { self.now.height ≢ 0 }
        requires on { at ≡ leaf_on_way K.cmp key.now self.now }
        ensures crowded { IfSome (get self.now.leaves (leaf_on_way K.cmp key.now self.now)) (λ l. result ≡ not (nat_lt (length l.array.pairs) 12)) }
        ensures full { result ≡ true → (LeafHasRoom K.cmp key.now self.now → ⊥) → IsLeafFull K.cmp key.now self.now }
    {
        let _ = key;
        match self.leaves.get(at) {
            Some(leaf) => leaf.len() >= CROWDED,
            None => unreachable!(),
        }
    }

    /// Packs the leaf on the way to a key.
    fn pack(&mut self, at: usize, key: &K)
    where
        K: Drop,
        V: Drop,
        requires sound { IsSound K.cmp self.old }
        requires planted { self.old.height ≢ 0 }
        requires on { at ≡ leaf_on_way K.cmp key.now self.old }
        requires sparse { IfSome (get self.old.leaves (leaf_on_way K.cmp key.now self.old)) (λ l. length l.array.pairs < 12) }
        ensures sound { IsSound K.cmp self.new }
        ensures pairs { pairs_of self.new ≡ pairs_of self.old }
        ensures room { LeafHasRoom K.cmp key.now self.new }
        ensures on { at ≡ leaf_on_way K.cmp key.now self.new }
        ensures height { self.new.height ≡ self.old.height }
        ensures ascending { ascending_headroom K.cmp self.old ≤ ascending_headroom K.cmp self.new }
    {
        let _ = key;
        match self.leaves.get_mut(at) {
            Some(leaf) => {
                let _ = leaf.len();
                leaf.pack();
            },
            None => unreachable!(),
        }
    }

    /// Where the leaf on the way to a key is cut.
    fn split_point(&self, at: usize, key: &K) -> Result<SplitPoint<K>, AllocError>
    where
        K: Clone,
        requires sound { IsSound K.cmp self.now }
        requires planted { self.now.height ≢ 0 }
        requires on { at ≡ leaf_on_way K.cmp key.now self.now }
        requires clones { ClonesAreSame K.is_clone }
        requires crowded { IfSome (get self.now.leaves (leaf_on_way K.cmp key.now self.now)) (λ l. 12 ≤ length l.array.pairs) }
        ensures { IfOk result (λ split_point. IsSplitPointThere K.cmp key.now self.now split_point) }
    {
        match self.leaves.get(at) {
            Some(leaf) => leaf.split_point(key),
            None => unreachable!(),
        }
    }

    /// Whether the node at a height on the way to a key is full.
    fn is_full(&self, at: usize, left: usize, key: &K) -> bool
        requires sound { IsSound K.cmp self.now }
        requires least { 0 < left }
        requires most { left ≤ self.now.height }
        requires on { at ≡ way K.cmp (content_of self.now) key.now (self.now.height - left) self.now.root }
        ensures full { result ≡ true → IsNodeFull K.cmp key.now self.now left }
        ensures room { result ≡ false → NodeHasRoom K.cmp key.now self.now left }
    {
        let _ = left;
        let _ = key;
        match self.nodes.get(at) {
            Some(node) => node.is_full(),
            None => unreachable!(),
        }
    }

    /// Makes room in the lowest node on the way to a key, which is named, and gives the number of the lowest one then.
    /// Nodes are reserved only where it is full.
    fn open_node(&mut self, above: usize, key: &K) -> Result<usize, AllocError>
    where
        K: Drop,
        requires sound { IsSound K.cmp self.old }
        requires planted { self.old.height ≢ 0 }
        requires lowest { above ≡ way K.cmp (content_of self.old) key.now (self.old.height - 1) self.old.root }
        ensures sound { IsSound K.cmp self.new }
        ensures pairs { pairs_of self.new ≡ pairs_of self.old }
        ensures leaves { self.new.leaves ≡ self.old.leaves }
        ensures leaf { leaf_on_way K.cmp key.now self.new ≡ leaf_on_way K.cmp key.now self.old }
        ensures room { OnOk result (NodeHasRoom K.cmp key.now self.new 1) }
        ensures planted { self.new.height ≢ 0 }
        ensures still { OnOk result (NodeHasRoom K.cmp key.now self.old 1 → self.new ≡ self.old) }
        ensures lowest { IfOk result (λ n. n ≡ way K.cmp (content_of self.new) key.now (self.new.height - 1) self.new.root) }
        ensures refused { OnErr result (self.new.height ≡ self.old.height) }
        ensures ascending_headroom { OnErr result (ascending_headroom K.cmp self.new ≡ ascending_headroom K.cmp self.old) }
    {
        if !self.is_full(above, 1, key) {
            return Ok(above);
        }
        let Some(most) = self.height.checked_add(1) else {
            return Err(AllocError);
        };
        self.nodes.reserve(most)?;
        Ok(self.split_nodes(key))
    }

    /// Splits all nodes on the way to a key that are full, as the lowest one is, and gives the number of the lowest one then.
    fn split_nodes(&mut self, key: &K) -> usize
    where
        K: Drop,
        requires sound { IsSound K.cmp self.old }
        requires planted { self.old.height ≢ 0 }
        requires short { self.old.height + 1 < 2 ^ 64 }
        requires nodes { HasRoomFor self.old.nodes (self.old.height + 1) }
        ensures sound { IsSound K.cmp self.new }
        ensures pairs { pairs_of self.new ≡ pairs_of self.old }
        ensures leaves { self.new.leaves ≡ self.old.leaves }
        ensures leaf { leaf_on_way K.cmp key.now self.new ≡ leaf_on_way K.cmp key.now self.old }
        ensures room { NodeHasRoom K.cmp key.now self.new 1 }
        ensures planted { self.new.height ≢ 0 }
        ensures lowest { result ≡ way K.cmp (content_of self.new) key.now (self.new.height - 1) self.new.root }
    {
        if self.is_full(self.node_at(self.height, key), self.height, key) {
            self.grow_root(key);
        }
        let mut left = self.height;
        while left > 1 {
            left -= 1;
            if self.is_full(self.node_at(left, key), left, key) {
                self.split_node(left, key);
            }
        }
        self.node_at(1, key)
    }

    /// Puts a new root above the present one.
    fn grow_root(&mut self, key: &K)
    where
        K: Drop,
        requires sound { IsSound K.cmp self.old }
        requires planted { self.old.height ≢ 0 }
        requires short { self.old.height + 1 < 2 ^ 64 }
        requires room { HasRoomFor self.old.nodes 1 }
        ensures sound { IsSound K.cmp self.new }
        ensures pairs { pairs_of self.new ≡ pairs_of self.old }
        ensures leaves { self.new.leaves ≡ self.old.leaves }
        ensures leaf { leaf_on_way K.cmp key.now self.new ≡ leaf_on_way K.cmp key.now self.old }
        ensures height { self.new.height ≡ self.old.height + 1 }
        ensures room { NodeHasRoom K.cmp key.now self.new self.new.height }
        ensures used { slab_len self.new.nodes ≡ slab_len self.old.nodes + 1 }
        ensures capacity { self.new.nodes.capacity ≡ self.old.nodes.capacity }
    {
        let _ = key;
        self.root = self.nodes.insert_reserved(InnerNode {
            children: Array::new(),
            last: self.root,
        });
        self.height += 1;
    }

    /// Splits the full node at a height on the way to a key, whose parent has room.
    fn split_node(&mut self, left: usize, key: &K)
    where
        K: Drop,
        requires sound { IsSound K.cmp self.old }
        requires least { 0 < left }
        requires most { left < self.old.height }
        requires full { IsNodeFull K.cmp key.now self.old left }
        requires parent { NodeHasRoom K.cmp key.now self.old (left + 1) }
        requires room { HasRoomFor self.old.nodes 1 }
        ensures sound { IsSound K.cmp self.new }
        ensures pairs { pairs_of self.new ≡ pairs_of self.old }
        ensures leaves { self.new.leaves ≡ self.old.leaves }
        ensures leaf { leaf_on_way K.cmp key.now self.new ≡ leaf_on_way K.cmp key.now self.old }
        ensures height { self.new.height ≡ self.old.height }
        ensures node { NodeHasRoom K.cmp key.now self.new left }
        ensures used { slab_len self.new.nodes ≡ slab_len self.old.nodes + 1 }
        ensures capacity { self.new.nodes.capacity ≡ self.old.nodes.capacity }
    {
        let above = self.node_at(left + 1, key);
        let child = self.node_at(left, key);
        let (separator, lower) = match self.nodes.get_mut(child) {
            Some(node) => node.split(),
            None => unreachable!(),
        };
        let fresh = self.nodes.insert_reserved(lower);
        match self.nodes.get_mut(above) {
            Some(node) => node.insert(separator, fresh),
            None => unreachable!(),
        }
    }

    /// Splits the leaf on the way to a key, whose node has room, and gives the part that the way leads to then.
    fn split_leaf(
        &mut self,
        above: usize,
        child: usize,
        key: &K,
        split_point: SplitPoint<K>,
    ) -> usize
    where
        K: Drop,
        V: Drop,
        requires sound { IsSound K.cmp self.old }
        requires planted { self.old.height ≢ 0 }
        requires lowest { above ≡ way K.cmp (content_of self.old) key.now (self.old.height - 1) self.old.root }
        requires on { child ≡ leaf_on_way K.cmp key.now self.old }
        requires split_point { IsSplitPointThere K.cmp key.now self.old split_point }
        requires parent { NodeHasRoom K.cmp key.now self.old 1 }
        requires room { HasRoomFor self.old.leaves 1 }
        ensures sound { IsSound K.cmp self.new }
        ensures pairs { pairs_of self.new ≡ pairs_of self.old }
        ensures room { LeafHasRoom K.cmp key.now self.new }
        ensures on { result ≡ leaf_on_way K.cmp key.now self.new }
        ensures ascending { IsLeafFull K.cmp key.now self.old → KeepsHeadroom K.cmp key.now self.old self.new }
    {
        let is_upper = split_point.separator.cmp(key).is_lt();
        let lower = match self.leaves.get_mut(child) {
            Some(leaf) => leaf.split(split_point.whole, child),
            None => unreachable!(),
        };
        let before = lower.prev;
        let fresh = self.leaves.insert_reserved(lower);
        link(&mut self.leaves, before, fresh, child);
        match self.nodes.get_mut(above) {
            Some(node) => node.insert(split_point.separator, fresh),
            None => unreachable!(),
        }
        chosen(is_upper, child, fresh)
    }
}

/// One of two numbers.
#[inline(always)]
fn chosen(is_first: bool, first: usize, second: usize) -> usize
    ensures { result ≡ cond is_first first second }
{
    if is_first { first } else { second }
}

/// Links a new leaf in between two, of which the first may be missing.
fn link<K: Ord, V>(
    leaves: &mut Slab<Leaf<K, V>>,
    before: Option<usize>,
    fresh: usize,
    behind: usize,
)
    ensures arrays { AreSameArrays leaves.old leaves.new }
    ensures links { (n : ℕ) → leaf_links leaves.new n ≡ linked_in fresh before behind (leaf_links leaves.old) n }
{
    set_prev(leaves, behind, fresh);
    if let Some(at) = before {
        set_next(leaves, at, fresh);
    }
}

/// Names the leaf before one, if that is there.
fn set_prev<K: Ord, V>(leaves: &mut Slab<Leaf<K, V>>, at: usize, prev: usize)
    ensures arrays { AreSameArrays leaves.old leaves.new }
    ensures links { (n : ℕ) → leaf_links leaves.new n ≡ linked_in prev None at (leaf_links leaves.old) n }
{
    if let Some(leaf) = leaves.get_mut(at) {
        leaf.prev = Some(prev);
    }
}

/// Names the leaf behind one, if that is there.
pub(crate) fn set_next<K: Ord, V>(leaves: &mut Slab<Leaf<K, V>>, at: usize, next: usize)
    ensures arrays { AreSameArrays leaves.old leaves.new }
    ensures links { (n : ℕ) → leaf_links leaves.new n ≡ option_map (λ l. (l.0, cond (at == n) (Some next) l.1)) (leaf_links leaves.old n) }
{
    if let Some(leaf) = leaves.get_mut(at) {
        leaf.next = Some(next);
    }
}
