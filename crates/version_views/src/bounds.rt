//! Keys within bounds.

ghost use Rattle.std.specs.Prelude.{◌≡◌, Some};
ghost use Rattle.std.specs.BTreeMap.Range.{range_contains, is_from_start, is_past_end};
ghost use Rattle.std.specs.Range.Bound.{bound_map};
ghost use Rattle.tree_index.specs.Cursor.{kept_above, kept_below, deref_pair};

use std::ops::Bound;

/// Whether a key lies within two bounds. Reversed bounds contain none.
pub fn is_within<K: Ord>(lower: &Bound<K>, upper: &Bound<K>, key: &K) -> bool
    ensures { result ≡ range_contains K.cmp lower.now upper.now key.now }
{
    is_from(lower.as_ref(), key) && !is_past(upper.as_ref(), key)
}

/// A pair, if it lies within a lower bound.
#[inline]
pub(crate) fn above<'t, K: Ord, V>(
    pair: (&'t K, &'t V),
    lower: Bound<&'t K>,
) -> Option<(&'t K, &'t V)>
    ensures { deref_pair result ≡ kept_above K.cmp (bound_map (λ k. k.now) lower.entry) (Some (pair.entry.0.now, pair.entry.1.now)) }
{
    if is_from(lower, pair.0) {
        Some(pair)
    } else {
        None
    }
}

/// A pair, if it lies within an upper bound.
#[inline]
pub(crate) fn below<'t, K: Ord, V>(
    pair: (&'t K, &'t V),
    upper: Bound<&'t K>,
) -> Option<(&'t K, &'t V)>
    ensures { deref_pair result ≡ kept_below K.cmp (bound_map (λ k. k.now) upper.entry) (Some (pair.entry.0.now, pair.entry.1.now)) }
{
    if is_past(upper, pair.0) {
        None
    } else {
        Some(pair)
    }
}

/// Whether a key is inside a lower bound.
fn is_from<K: Ord>(lower: Bound<&K>, key: &K) -> bool
    ensures { result ≡ is_from_start K.cmp (bound_map (λ k. k.now) lower.entry) key.now }
{
    match lower {
        Bound::Included(low) => low.cmp(key).is_le(),
        Bound::Excluded(low) => low.cmp(key).is_lt(),
        Bound::Unbounded => true,
    }
}

/// Whether a key is outside an upper bound.
fn is_past<K: Ord>(upper: Bound<&K>, key: &K) -> bool
    ensures { result ≡ is_past_end K.cmp (bound_map (λ k. k.now) upper.entry) key.now }
{
    match upper {
        Bound::Included(high) => high.cmp(key).is_lt(),
        Bound::Excluded(high) => high.cmp(key).is_le(),
        Bound::Unbounded => false,
    }
}
