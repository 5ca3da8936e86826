//! What a tree no longer needs leaves it: a leaf, the nodes that have it alone, and a root with one child.

ghost use Rattle.std.specs.Prelude.{◌≡◌, ◌≢◌, ◌≤◌, ◌<◌, ◌-◌, ◌==◌, ℕ, cond, IfSome, Some, None, [], true};
ghost use Rattle.std.specs.Option.{option_map};
ghost use Rattle.tree_nodes.specs.Chain.{leaf_links, linked_out};
ghost use Rattle.tree_nodes.specs.Content.{pairs_of, leaves_of, IsSound, AreSameArrays, leaf_on_way};
ghost use Rattle.tree_nodes.specs.Prune.{IsFork, IsCutOff, IsWithout, IsLowerable};
ghost use Rattle.tree_nodes.specs.Walk.{pairs_in_leaf};

use crate::arenas::Arenas;
use crate::leaf::Leaf;
use slab::Slab;

/// A node with more than one child, the place of one of them, its number, and its height. Below it each node
/// has one child, down to a leaf.
#[derive(Clone, Copy)]
pub(crate) struct Fork {
    pub(crate) node: usize,
    pub(crate) place: usize,
    pub(crate) child: usize,
    pub(crate) height: usize,
}

impl<K: Ord, V> Arenas<K, V> {
    /// The lowest node with more than one child on the way to a key, if there is one.
    pub(crate) fn find_fork(&self, key: &K) -> Option<Fork>
        requires { IsSound K.cmp self.now }
        ensures { IfSome result (λ f. IsFork K.cmp key.now self.now f) }
    {
        let mut at = self.root;
        let mut height = self.height;
        let mut fork = None;
        while height > 0 {
            height -= 1;
            match self.nodes.get(at) {
                Some(node) => {
                    let (place, child) = node.turn(key);
                    if !node.is_single() {
                        fork = Some(Fork {
                            node: at,
                            place,
                            child,
                            height,
                        });
                    }
                    at = child;
                },
                None => unreachable!(),
            }
        }
        fork
    }

    /// Takes a leaf without pairs, to which the way to a key leads, out of the tree, unless there is no other.
    #[cold]
    #[inline(never)]
    pub(crate) fn prune(&mut self, leaf: usize, key: &K)
    where
        K: Drop,
        V: Drop,
        requires sound { IsSound K.cmp self.old }
        requires on { leaf ≡ leaf_on_way K.cmp key.now self.old }
        requires empty { pairs_in_leaf self.old leaf ≡ [] }
        ensures sound { IsSound K.cmp self.new }
        ensures pairs { pairs_of self.new ≡ pairs_of self.old }
        ensures depth { self.new.height ≤ self.old.height }
    {
        if let Some(fork) = self.find_fork(key) {
            self.release(fork, leaf);
        }
    }

    /// Takes the leaf under a fork out of the tree, and frees its place and those of the nodes that have it
    /// alone. A root that has one child left gives way to it.
    pub(crate) fn release(&mut self, fork: Fork, leaf: usize)
    where
        K: Drop,
        V: Drop,
        requires sound { IsSound K.cmp self.old }
        requires fork { (key : K) × IsFork K.cmp key self.old fork × (leaf ≡ leaf_on_way K.cmp key self.old) }
        ensures sound { IsSound K.cmp self.new }
        ensures without { IsWithout leaf self.old self.new }
        ensures depth { self.new.height ≤ self.old.height }
        ensures planted { self.new.height ≢ 0 }
    {
        self.detach(fork, leaf);
        self.free(fork.child, fork.height, leaf);
        self.lower();
    }

    /// Takes the leaf under a fork out of the tree. It keeps its place, and so do the nodes that have it alone.
    fn detach(&mut self, fork: Fork, leaf: usize)
    where
        K: Drop,
        requires sound { IsSound K.cmp self.old }
        requires fork { (key : K) × IsFork K.cmp key self.old fork × (leaf ≡ leaf_on_way K.cmp key self.old) }
        ensures sound { IsSound K.cmp self.new }
        ensures without { IsWithout leaf self.old self.new }
        ensures loose { IsCutOff self.new fork.height fork.child leaf }
        ensures depth { self.new.height ≡ self.old.height }
    {
        let (prev, next) = match self.leaves.get(leaf) {
            Some(gone) => {
                self.len -= gone.len();
                (gone.prev, gone.next)
            },
            None => unreachable!(),
        };
        match self.nodes.get_mut(fork.node) {
            Some(node) => node.shed(fork.place),
            None => unreachable!(),
        }
        join(&mut self.leaves, prev, next);
    }

    /// Frees the place of a leaf that isn't in the tree, and those of the nodes above it from a number on.
    fn free(&mut self, from: usize, left: usize, leaf: usize)
    where
        K: Drop,
        V: Drop,
        requires sound { IsSound K.cmp self.old }
        requires loose { IsCutOff self.old left from leaf }
        ensures sound { IsSound K.cmp self.new }
        ensures pairs { pairs_of self.new ≡ pairs_of self.old }
        ensures order { leaves_of self.new ≡ leaves_of self.old }
        ensures held { (n : ℕ) → n ≢ leaf → pairs_in_leaf self.new n ≡ pairs_in_leaf self.old n }
        ensures depth { self.new.height ≡ self.old.height }
    {
        let mut at = from;
        let mut height = left;
        while height > 0 {
            at = self.nodes.remove(at).into_last();
            height -= 1;
        }
        drop(self.leaves.remove(at));
    }

    /// Lets a root with one child give way to it, as long as that is a node.
    fn lower(&mut self)
    where
        K: Drop,
        requires { IsSound K.cmp self.old }
        ensures sound { IsSound K.cmp self.new }
        ensures pairs { pairs_of self.new ≡ pairs_of self.old }
        ensures order { leaves_of self.new ≡ leaves_of self.old }
        ensures leaves { self.new.leaves ≡ self.old.leaves }
        ensures depth { self.new.height ≤ self.old.height }
        ensures planted { self.old.height ≢ 0 → self.new.height ≢ 0 }
    {
        while self.is_lowerable() {
            self.root = self.nodes.remove(self.root).into_last();
            self.height -= 1;
        }
    }

    /// Whether the root has one child, which is a node.
    fn is_lowerable(&self) -> bool
        requires { IsSound K.cmp self.now }
        ensures { result ≡ true → IsLowerable self.now }
    {
        if self.height < 2 {
            return false;
        }
        match self.nodes.get(self.root) {
            Some(node) => node.is_single(),
            None => false,
        }
    }
}

/// Links two leaves with each other, of which each may be missing.
fn join<K: Ord, V>(leaves: &mut Slab<Leaf<K, V>>, before: Option<usize>, behind: Option<usize>)
    ensures arrays { AreSameArrays leaves.old leaves.new }
    ensures links { (n : ℕ) → leaf_links leaves.new n ≡ linked_out before behind (leaf_links leaves.old) n }
{
    if let Some(at) = behind {
        name_before(leaves, at, before);
    }
    if let Some(at) = before {
        name_behind(leaves, at, behind);
    }
}

/// Names the leaf before one, if that is there.
fn name_before<K: Ord, V>(leaves: &mut Slab<Leaf<K, V>>, at: usize, before: Option<usize>)
    ensures arrays { AreSameArrays leaves.old leaves.new }
    ensures links { (n : ℕ) → leaf_links leaves.new n ≡ option_map (λ l. (cond (at == n) before l.0, l.1)) (leaf_links leaves.old n) }
{
    if let Some(leaf) = leaves.get_mut(at) {
        leaf.prev = before;
    }
}

/// Names the leaf behind one, if that is there.
fn name_behind<K: Ord, V>(leaves: &mut Slab<Leaf<K, V>>, at: usize, behind: Option<usize>)
    ensures arrays { AreSameArrays leaves.old leaves.new }
    ensures links { (n : ℕ) → leaf_links leaves.new n ≡ option_map (λ l. (l.0, cond (at == n) behind l.1)) (leaf_links leaves.old n) }
{
    if let Some(leaf) = leaves.get_mut(at) {
        leaf.next = behind;
    }
}
