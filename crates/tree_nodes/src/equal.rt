//! Equality of trees: that of their lists of pairs.

ghost use Rattle.std.specs.Prelude.{◌≡◌, ◌&&◌};
ghost use Rattle.std.specs.Cmp.Lexicographic.{pointwise};
ghost use Rattle.tree_nodes.specs.Content.{pairs_of, IsSound};

use crate::arenas::Arenas;

impl<K: Ord, V: PartialEq> Arenas<K, V> {
    /// Whether the pairs of two trees are equal, one by one.
    pub fn equals(&self, other: &Arenas<K, V>) -> bool
        requires first { IsSound K.cmp self.now }
        requires second { IsSound K.cmp other.now }
        ensures { result ≡ pointwise (λ p q. K.eq p.0 q.0 && V.eq p.1 q.1) (pairs_of self.now) (pairs_of other.now) }
    {
        if self.len != other.len {
            return false;
        }
        let mut left = self.first_from(self.first_leaf());
        let mut right = other.first_from(other.first_leaf());
        while let (Some(a), Some(b)) = (left, right) {
            if !are_equal(a.pair(), b.pair()) {
                return false;
            }
            left = self.behind(a);
            right = other.behind(b);
        }
        true
    }
}

/// Whether two pairs are equal.
fn are_equal<K: Ord, V: PartialEq>(first: (&K, &V), second: (&K, &V)) -> bool
    ensures { result ≡ (K.eq first.entry.0.now second.entry.0.now && V.eq first.entry.1.now second.entry.1.now) }
{
    first.0.eq(second.0) && first.1.eq(second.1)
}
