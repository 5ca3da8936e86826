//! Removal of a range of keys.

ghost use Rattle.std.specs.Prelude.{◌≡◌, ◌≤◌, ◌<◌, IfSome, not, false, true, None, Some};
ghost use Rattle.std.specs.List.{filter};
ghost use Rattle.leaf_array.specs.Lookups.{deref_bound};
ghost use Rattle.std.specs.BTreeMap.Range.{range_contains, is_from_start};
ghost use Rattle.tree_nodes.specs.Content.{pairs_of, leaves_of, leaf_on_way, IsSound};
ghost use Rattle.tree_nodes.specs.Prune.{AreSameOutside, IsFork};
ghost use Rattle.tree_nodes.specs.Shape.{AllKeys};
ghost use Rattle.tree_nodes.specs.Walk.{pairs_in_leaf, rest, IsOwnLeaf, IsPassed};

use crate::arenas::Arenas;
use crate::prune::Fork;
use std::ops::Bound;

impl<K: Ord, V> Arenas<K, V> {
    /// Removes the pairs whose keys lie within two bounds. It searches one path, and walks along the leaves: one
    /// that has no others leaves the tree as it is, unless there is no other leaf.
    pub fn remove_range(&mut self, lower: Bound<&K>, upper: Bound<&K>)
    where
        K: Drop,
        V: Drop,
        requires { IsSound K.cmp self.old }
        ensures sound { IsSound K.cmp self.new }
        ensures pairs { pairs_of self.new ≡ filter (λ p. not (range_contains K.cmp (deref_bound lower.entry) (deref_bound upper.entry) p.0)) (pairs_of self.old) }
        ensures depth { self.new.height ≤ self.old.height }
    {
        let mut next = self.leaf_from(&lower);
        while let Some(at) = next {
            next = match self.fork_within(at, &lower, &upper) {
                Some(fork) => self.remove_leaf(at, fork, lower, upper),
                None => self.remove_in(at, lower, upper),
            };
        }
    }

    /// The fork above a leaf whose pairs lie within two bounds, if it has some, and there is one.
    fn fork_within(&self, at: usize, lower: &Bound<&K>, upper: &Bound<&K>) -> Option<Fork>
        requires sound { IsSound K.cmp self.now }
        requires own { IsOwnLeaf self.now (Some at) }
        ensures fork { IfSome result (λ f. (key : K) × IsFork K.cmp key self.now f × (at ≡ leaf_on_way K.cmp key self.now)) }
        ensures within { IfSome result (λ f. AllKeys (λ k. range_contains K.cmp (deref_bound lower.now) (deref_bound upper.now) k ≡ true) (pairs_in_leaf self.now at)) }
    {
        match self.leaves.get(at) {
            Some(leaf) => {
                if leaf.lies_within(lower, upper) {
                    self.find_fork(leaf.key(0))
                } else {
                    None
                }
            },
            None => None,
        }
    }

    /// Takes the leaf under a fork, whose pairs lie within two bounds, out of the tree. It gives the leaf behind it.
    fn remove_leaf(
        &mut self,
        at: usize,
        fork: Fork,
        lower: Bound<&K>,
        upper: Bound<&K>,
    ) -> Option<usize>
    where
        K: Drop,
        V: Drop,
        requires sound { IsSound K.cmp self.old }
        requires fork { (key : K) × IsFork K.cmp key self.old fork × (at ≡ leaf_on_way K.cmp key self.old) }
        requires within { AllKeys (λ k. range_contains K.cmp (deref_bound lower) (deref_bound upper) k ≡ true) (pairs_in_leaf self.old at) }
        requires own { IsOwnLeaf self.old (Some at) }
        requires passed { IsPassed (λ k. range_contains K.cmp (deref_bound lower) (deref_bound upper) k ≡ false) self.old (Some at) }
        ensures sound { IsSound K.cmp self.new }
        ensures own { IsOwnLeaf self.new result }
        ensures passed { IsPassed (λ k. range_contains K.cmp (deref_bound lower.entry) (deref_bound upper.entry) k ≡ false) self.new result }
        ensures same { AreSameOutside K.cmp (deref_bound lower.entry) (deref_bound upper.entry) (pairs_of self.old) (pairs_of self.new) }
        ensures fewer { rest (leaves_of self.new) result < rest (leaves_of self.old) (Some at) }
        ensures depth { self.new.height ≤ self.old.height }
    {
        let _ = lower;
        let _ = upper;
        let next = match self.leaves.get(at) {
            Some(leaf) => leaf.next,
            None => unreachable!(),
        };
        self.release(fork, at);
        next
    }

    /// The leaf where the pairs within a lower bound begin, if there is one.
    fn leaf_from(&self, lower: &Bound<&K>) -> Option<usize>
        requires { IsSound K.cmp self.now }
        ensures own { IsOwnLeaf self.now result }
        ensures passed { IsPassed (λ k. is_from_start K.cmp (deref_bound lower.now) k ≡ false) self.now result }
    {
        if self.height == 0 {
            return None;
        }
        match lower {
            Bound::Included(key) | Bound::Excluded(key) => Some(self.leaf_of(key)),
            Bound::Unbounded => self.first_leaf(),
        }
    }

    /// Removes the pairs of one leaf that lie within two bounds. It gives the leaf behind it, unless all
    /// pairs that are left there lie past the upper bound.
    fn remove_in(&mut self, at: usize, lower: Bound<&K>, upper: Bound<&K>) -> Option<usize>
        requires sound { IsSound K.cmp self.old }
        requires own { IsOwnLeaf self.old (Some at) }
        requires passed { IsPassed (λ k. range_contains K.cmp (deref_bound lower) (deref_bound upper) k ≡ false) self.old (Some at) }
        ensures sound { IsSound K.cmp self.new }
        ensures own { IsOwnLeaf self.new result }
        ensures passed { IsPassed (λ k. range_contains K.cmp (deref_bound lower.entry) (deref_bound upper.entry) k ≡ false) self.new result }
        ensures same { AreSameOutside K.cmp (deref_bound lower.entry) (deref_bound upper.entry) (pairs_of self.old) (pairs_of self.new) }
        ensures order { leaves_of self.new ≡ leaves_of self.old }
        ensures fewer { rest (leaves_of self.old) result < rest (leaves_of self.old) (Some at) }
        ensures depth { self.new.height ≡ self.old.height }
    {
        match self.leaves.get_mut(at) {
            Some(leaf) => {
                let before = leaf.len();
                leaf.remove_range(lower, upper);
                self.len = self.len - before + leaf.len();
                if leaf.ends_past(&upper) {
                    None
                } else {
                    leaf.next
                }
            },
            None => unreachable!(),
        }
    }
}
