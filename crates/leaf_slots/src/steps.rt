//! Comparisons of keys, counted for contracts.

ghost use Rattle.std.specs.Prelude.{◌≡◌, ◌+◌, ℕ};
ghost use base.Fml.{ftrue};

use std::cmp::Ordering;
use std::marker::Model;

/// How many comparisons of keys were made.
///
/// A caller lends it to a search, whose contract says by how much it is raised at most. It has no bytes:
/// the count is there for contracts alone, and [`Steps::compare`] alone raises it.
#[derive(Drop)]
pub struct Steps {
    pub ghost count: { ℕ },
}

impl Model for Steps {
    ghost also_owns = { λ _. ftrue };
}

impl Steps {
    /// A count of none.
    #[inline]
    pub fn new() -> Self
        ensures { result.count ≡ 0 }
    {
        Steps {}
    }

    /// The order of two keys. It counts as one comparison.
    #[inline(always)]
    pub fn compare<K: Ord>(&mut self, stored: &K, key: &K) -> Ordering
        ensures order { result ≡ K.cmp stored.now key.now }
        ensures one { self.new.count ≡ self.old.count + 1 }
    {
        self.count_one();
        stored.cmp(key)
    }

    /// Raises the count, and does nothing at run time.
    // A hint is enough, and searches that are always inlined stay small enough to be.
    #[inline]
    fn count_one(&mut self)
        ensures { self.new.count ≡ self.old.count + 1 }
    {}
}
