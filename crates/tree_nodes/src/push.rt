//! Pairs that come by rising keys go behind the last one, without a search.

ghost use Rattle.std.specs.Prelude.{◌≡◌, ◌<◌, ◌≤◌, ◌+◌, ◌^◌, ◌++◌, ◌∷◌, [], IsSome, IfSome};
ghost use Rattle.leaf_array.specs.Results.{IsSuccess, given_back};
ghost use Rattle.leaf_array.specs.Values.{ClonesAreSame};
ghost use Rattle.tree_nodes.specs.Content.{pairs_of, IsSound};
ghost use Rattle.tree_nodes.specs.Depth.{IsAbove, ascending_headroom};
ghost use Rattle.tree_nodes.specs.Push.{LastLeafHasRoom, LastLeafTakes};

use crate::arenas::Arenas;
use leaf_array::InsertResult;

impl<K: Ord, V> Arenas<K, V> {
    /// Appends a pair whose key is greater than all others. It is full if an allocation fails, or if no more
    /// pairs can be counted.
    #[inline]
    pub fn push(&mut self, key: K, val: V) -> InsertResult<K, V>
    where
        K: Clone + Drop,
        V: Drop,
        requires sound { IsSound K.cmp self.old }
        requires clones { ClonesAreSame K.is_clone }
        requires above { IsAbove K.cmp key (pairs_of self.old) }
        ensures sound { IsSound K.cmp self.new }
        ensures back { IfSome (given_back result) (λ p. p ≡ (key, val)) }
        ensures kept { IsSome (given_back result) → pairs_of self.new ≡ pairs_of self.old }
        ensures depth { IsSome (given_back result) → self.new.height ≡ self.old.height }
        ensures ascending_headroom { IsSome (given_back result) → ascending_headroom K.cmp self.new ≡ ascending_headroom K.cmp self.old }
        ensures done { IsSuccess result → pairs_of self.new ≡ pairs_of self.old ++ (key, val) ∷ [] }
        ensures ascending { IsSuccess result → ascending_headroom K.cmp self.old ≤ ascending_headroom K.cmp self.new + 1 }
    {
        if self.len < usize::MAX {
            if let Some(at) = self.open_leaf() {
                self.push_at(at, key, val);
                return InsertResult::Success;
            }
        }
        self.push_apart(key, val)
    }

    /// The last leaf, if it has pairs, and room for one more.
    #[inline]
    pub(crate) fn open_leaf(&self) -> Option<usize>
        requires { IsSound K.cmp self.now }
        ensures { IfSome result (λ n. LastLeafHasRoom self.now n) }
    {
        let Some(at) = self.last_leaf() else {
            return None;
        };
        match self.leaves.get(at) {
            Some(leaf) => {
                if leaf.len() > 0 && !leaf.array.is_full() {
                    Some(at)
                } else {
                    None
                }
            },
            None => None,
        }
    }

    /// How many more pairs the last leaf takes at once, which has room, and can be counted: none where it keeps what was
    /// removed or replaced.
    #[inline]
    pub(crate) fn room_at(&self, at: usize) -> usize
        requires { LastLeafHasRoom self.now at }
        ensures { LastLeafTakes self.now at result }
    {
        match self.leaves.get(at) {
            Some(leaf) => {
                let len = leaf.len();
                let counted = self.len;
                if usize::from(leaf.array.used()) > len {
                    return 0;
                }
                (15 - len).min(usize::MAX - counted)
            },
            None => unreachable!(),
        }
    }

    /// Puts a pair behind those of the last leaf, which has room.
    #[inline]
    fn push_at(&mut self, at: usize, key: K, val: V)
        requires sound { IsSound K.cmp self.old }
        requires countable { self.old.len + 1 < 2 ^ 64 }
        requires open { LastLeafHasRoom self.old at }
        requires above { IsAbove K.cmp key (pairs_of self.old) }
        ensures sound { IsSound K.cmp self.new }
        ensures done { pairs_of self.new ≡ pairs_of self.old ++ (key, val) ∷ [] }
        ensures ascending { ascending_headroom K.cmp self.old ≤ ascending_headroom K.cmp self.new + 1 }
    {
        match self.leaves.get_mut(at) {
            Some(leaf) => {
                leaf.push(key, val);
                self.len += 1;
            },
            None => unreachable!(),
        }
    }
}
