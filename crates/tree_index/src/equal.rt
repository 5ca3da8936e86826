//! Equality of trees: that of their lists of pairs.

use crate::index::TreeIndex;

impl<K: Ord, V: PartialEq> PartialEq for TreeIndex<K, V> {
    ghost use Rattle.std.specs.Prelude.{◌&&◌};
    ghost use Rattle.std.specs.Cmp.{on_per, and_per};
    ghost use Rattle.std.specs.Cmp.Lexicographic.{pointwise, lists_per};

    ghost eq = { λ m n. pointwise (λ p q. K.eq p.0 q.0 && V.eq p.1 q.1) m.pairs n.pairs };

    ghost laws = { on_per (λ m. m.pairs) (lists_per (and_per (on_per (λ p. p.0) K.PartialEq.laws) (on_per (λ p. p.1) V.laws))) };

    /// Whether two trees have equal pairs in the same order, by one pass over both.
    fn eq(&self, other: &TreeIndex<K, V>) -> bool {
        self.arenas.equals(&other.arenas)
    }
}
