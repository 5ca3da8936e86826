//! Versions as lists that answer queries.

ghost use Rattle.std.specs.Prelude.{◌≡◌, ◌≤◌, ◌<◌, ◌+◌, ◌^◌, [], ℕ, length};
ghost use Rattle.std.specs.Option.{option_copied};
ghost use Rattle.std.specs.declared.ops.Bound.TheVariants.{Unbounded};
ghost use Rattle.leaf_array.specs.Pairs.{value_of_key};
ghost use Rattle.version_views.specs.Cuts.{pairs_in};
ghost use Rattle.serial_history.specs.Answers.{behind, near};
ghost use Rattle.serial_history.specs.RemainingPairs.{IsStart};

use crate::ordered_view::{OrderedView, around};
use crate::query::{Near, Part};
use crate::scan::{PairCursor, collect, matches};
use std::alloc::{AllocError, Global};
use std::ops::Bound;
use tree_index::Steps;
use version_views::{LocalNearby, LocalWalk, Trees, VersionView};

/// A cursor over the list of a session, within two bounds or without any.
pub type Walk<'a, K, V, const S: usize> = LocalWalk<'a, K, V, S>;

/// Where a key is in the list of a session, with a cursor there.
pub type Nearby<'a, K, V, const S: usize> = LocalNearby<'a, K, V, S>;

impl<'t, K: Ord, V, W: Trees<K, V>> PairCursor<'t, K, V> for version_views::Walk<'t, K, V, W> {
    ghost cursor = { λ c. c };

    fn step(&mut self) -> Option<(&'t K, &'t V)> {
        self.next()
    }

    fn step_back(&mut self) -> Option<(&'t K, &'t V)> {
        self.next_back()
    }
}

/// The value of the pair with the key in a version.
pub fn value_in<'w, K: Ord, V, W: Trees<K, V>>(
    version: &VersionView<'w, K, V, W>,
    key: &K,
) -> Option<&'w V>
    ensures { option_copied result ≡ value_of_key K.cmp key.now (pairs_in version.now) }
{
    let mut steps = Steps::new();
    value_in_counted(version, key, &mut steps)
}

/// The same, with its comparisons of keys counted: at most thirty, and one more for each binary digit of the number of
/// segments. An empty version makes none.
#[inline(always)]
pub fn value_in_counted<'w, K: Ord, V, W: Trees<K, V>>(
    version: &VersionView<'w, K, V, W>,
    key: &K,
    steps: &mut Steps,
) -> Option<&'w V>
    ensures value { option_copied result ≡ value_of_key K.cmp key.now (pairs_in version.now) }
    ensures cost { (digits : ℕ) → length version.now < 2 ^ digits → steps.new.count ≤ steps.old.count + 30 + digits }
    ensures raised { steps.old.count ≤ steps.new.count }
    ensures none { pairs_in version.now ≡ [] → steps.new.count ≡ steps.old.count }
{
    match version.get_counted(key, steps) {
        Some((_, value)) => Some(value),
        None => None,
    }
}

/// A walk along all pairs of a version.
pub(crate) fn walk_all<'w, K: Ord, V, W: Trees<K, V>>(
    version: &VersionView<'w, K, V, W>,
) -> version_views::Walk<'w, K, V, W>
    ensures start { IsStart K.cmp result }
    ensures pairs { result.pairs ≡ pairs_in version.now }
    ensures lower { result.lower ≡ Unbounded }
    ensures upper { result.upper ≡ Unbounded }
{
    version.laws();
    version.walk(Bound::Unbounded, Bound::Unbounded)
}

/// A walk along the pairs of a version within the bounds.
fn walk_within<'a, K: Ord, V, W: Trees<K, V>>(
    version: &VersionView<'a, K, V, W>,
    lower: &'a Bound<K>,
    upper: &'a Bound<K>,
) -> version_views::Walk<'a, K, V, W>
    ensures start { IsStart K.cmp result }
    ensures pairs { result.pairs ≡ pairs_in version.now }
    ensures lower { result.lower ≡ lower.now }
    ensures upper { result.upper ≡ upper.now }
{
    version.laws();
    version.walk(lower.as_ref(), upper.as_ref())
}

/// The pair with the key in a version, or the nearest ones.
fn near_in<'w, K: Ord, V, W: Trees<K, V>>(
    version: &VersionView<'w, K, V, W>,
    key: &K,
) -> Near<&'w K, &'w V>
    ensures { behind result ≡ near K.cmp key.now (pairs_in version.now) }
{
    version.laws();
    match version.locate(key) {
        version_views::Nearby::Exact(at) => around(at.get(), None, None),
        version_views::Nearby::Between(at) => around(None, at.get(), at.get_back()),
        version_views::Nearby::Smaller(at) => around(None, at.get_back(), None),
        version_views::Nearby::Larger(at) => around(None, None, at.get()),
        version_views::Nearby::Empty => Near::Empty,
    }
}

impl<'w, K: Clone + Ord, V: Clone + Eq, W: Trees<K, V>> OrderedView<K, V>
    for VersionView<'w, K, V, W> {
    ghost pairs = { λ v. pairs_in v };

    fn find(&self, key: &K) -> Option<&V> {
        value_in(&self.reborrow(), key)
    }

    fn has_between(&self, lower: &Bound<K>, upper: &Bound<K>, part: Part, told: &[(K, V)]) -> bool {
        matches(walk_within(self, lower, upper), part, told)
    }

    fn copy_between(
        &self,
        alloc: Global,
        lower: &Bound<K>,
        upper: &Bound<K>,
        part: Part,
    ) -> Result<Vec<(K, V)>, AllocError> {
        collect(alloc, walk_within(self, lower, upper), part)
    }

    fn near(&self, key: &K) -> Near<&K, &V> {
        near_in(&self.reborrow(), key)
    }
}
