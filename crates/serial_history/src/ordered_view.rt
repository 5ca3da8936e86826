//! Lists of pairs that answer queries.

ghost use Rattle.std.specs.Prelude.{◌≡◌, ◌↔◌, List, IsTrue, IfOk, IfSome, IfNone};
ghost use Rattle.std.specs.BTreeMap.Range.{entries_between};
ghost use Rattle.std.specs.List.{All};
ghost use Rattle.std.specs.Option.{option_copied};
ghost use Rattle.leaf_array.specs.Pairs.{has_key, value_of_key};
ghost use Rattle.leaf_array.specs.Values.{ClonesAreSame, EqualsAreSame};
ghost use Rattle.tree_index.specs.Cursor.{deref_pair};
ghost use Rattle.serial_history.specs.Answers.{answer_to, behind, near, near_by};
ghost use Rattle.serial_history.specs.Parts.{part_of};
ghost use Rattle.serial_history.specs.Serial.{Holds, IsFirstConflict};

use crate::query::{Answer, Near, Part, Query};
use crate::scan::copied_pair;
use crate::seq::Seq;
use crate::transaction::Recorded;
use std::alloc::{AllocError, Global};
use std::ops::Bound;

/// A list of pairs by rising keys, as queries see it: each is answered by one search, or one pass
/// over its range.
pub trait OrderedView<K: Clone + Ord, V: Clone + Eq> {
    ghost pairs: { Self → List (K × V) };

    /// The value of the pair with the key.
    fn find(&self, key: &K) -> Option<&V>
        ensures { option_copied result ≡ value_of_key K.cmp key.now (pairs self.now) };

    /// Whether these are that part of the pairs within the bounds. No pair is read behind the first one that differs, and none
    /// that lies out of the part but for one behind it.
    fn has_between(&self, lower: &Bound<K>, upper: &Bound<K>, part: Part, told: &[(K, V)]) -> bool
        requires keys { EqualsAreSame K.eq }
        requires values { EqualsAreSame V.eq }
        ensures { IsTrue result ↔ (told.now ≡ part_of part (entries_between K.cmp lower.now upper.now (pairs self.now))) };

    /// A copy of that part of the pairs within the bounds. No pair is read that lies out of the part but for one behind it.
    fn copy_between(
        &self,
        alloc: Global,
        lower: &Bound<K>,
        upper: &Bound<K>,
        part: Part,
    ) -> Result<Vec<(K, V)>, AllocError>
        requires keys { ClonesAreSame K.is_clone }
        requires values { ClonesAreSame V.is_clone }
        ensures { IfOk result (λ copy. copy.items ≡ part_of part (entries_between K.cmp lower.now upper.now (pairs self.now))) };

    /// The pair with the key, or the nearest ones.
    fn near(&self, key: &K) -> Near<&K, &V>
        ensures { behind result ≡ near K.cmp key.now (pairs self.now) };
}

/// The answer of a list to a query. Fails only if an allocation fails.
pub fn answer<K: Clone + Ord, V: Clone + Eq, L: OrderedView<K, V>>(
    alloc: Global,
    list: &L,
    query: &Query<K>,
) -> Result<Answer<K, V>, AllocError>
    requires keys { ClonesAreSame K.is_clone }
    requires values { ClonesAreSame V.is_clone }
    ensures { IfOk result (λ answer. answer ≡ answer_to K.cmp query.now (L.pairs list.now)) }
{
    match query {
        Query::Get(key) => match list.find(key) {
            Some(value) => Ok(Answer::Get(Some(value.clone()?))),
            None => Ok(Answer::Get(None)),
        },
        Query::Contains(key) => Ok(Answer::Contains(has(list, key))),
        Query::Range(lower, upper) => {
            let pairs = list.copy_between(alloc, lower, upper, Part::All)?;
            Ok(Answer::Range(Seq::from_vec(pairs)))
        }
        Query::Locate(key) => Ok(Answer::Locate(cloned(&list.near(key))?)),
        Query::First(lower, upper, most) => {
            let pairs = list.copy_between(alloc, lower, upper, Part::First(*most))?;
            Ok(Answer::Range(Seq::from_vec(pairs)))
        }
        Query::Last(lower, upper, most) => {
            let pairs = list.copy_between(alloc, lower, upper, Part::Last(*most))?;
            Ok(Answer::Range(Seq::from_vec(pairs)))
        }
    }
}

/// Whether a list answers a query so.
pub(crate) fn holds<K: Clone + Ord, V: Clone + Eq, L: OrderedView<K, V>>(
    list: &L,
    query: &Query<K>,
    answer: &Answer<K, V>,
) -> bool
    requires keys { EqualsAreSame K.eq }
    requires values { EqualsAreSame V.eq }
    ensures { IsTrue result ↔ Holds K.cmp (L.pairs list.now) (query.now, answer.now) }
{
    match (query, answer) {
        (Query::Get(key), Answer::Get(told)) => match (list.find(key), told) {
            (Some(found), Some(value)) => *found == *value,
            (None, None) => true,
            _ => false,
        },
        (Query::Contains(key), Answer::Contains(told)) => has(list, key) == *told,
        (Query::Range(lower, upper), Answer::Range(told)) => {
            list.has_between(lower, upper, Part::All, told.as_slice())
        }
        (Query::Locate(key), Answer::Locate(told)) => is_same(&list.near(key), told),
        (Query::First(lower, upper, most), Answer::Range(told)) => {
            list.has_between(lower, upper, Part::First(*most), told.as_slice())
        }
        (Query::Last(lower, upper, most), Answer::Range(told)) => {
            list.has_between(lower, upper, Part::Last(*most), told.as_slice())
        }
        _ => false,
    }
}

/// The place of the first read that doesn't hold of the list.
pub fn first_conflict<K: Clone + Ord, V: Clone + Eq, L: OrderedView<K, V>>(
    list: &L,
    reads: &[Recorded<K, V>],
) -> Option<usize>
    requires keys { EqualsAreSame K.eq }
    requires values { EqualsAreSame V.eq }
    ensures some { IfSome result (IsFirstConflict K.cmp (L.pairs list.now) reads.now) }
    ensures none { IfNone result (All (Holds K.cmp (L.pairs list.now)) reads.now) }
{
    for (i, read) in reads.iter().enumerate() {
        if !holds(list, &read.0, &read.1) {
            return Some(i);
        }
    }
    None
}

/// Whether a pair of a list has the key.
fn has<K: Clone + Ord, V: Clone + Eq, L: OrderedView<K, V>>(list: &L, key: &K) -> bool
    ensures { result ≡ has_key K.cmp key.now (L.pairs list.now) }
{
    list.find(key).is_some()
}

/// What is at a key or around it: the pair that has it, if there is one; else the nearest ones.
pub(crate) fn around<'t, K, V>(
    exact: Option<(&'t K, &'t V)>,
    smaller: Option<(&'t K, &'t V)>,
    larger: Option<(&'t K, &'t V)>,
) -> Near<&'t K, &'t V>
    ensures { behind result ≡ near_by (deref_pair exact.entry) (deref_pair smaller.entry) (deref_pair larger.entry) }
{
    match (exact, smaller, larger) {
        (Some((key, value)), _, _) => Near::Exact(key, value),
        (None, Some((k, v)), Some((l, w))) => Near::Between(k, v, l, w),
        (None, Some((key, value)), None) => Near::Smaller(key, value),
        (None, None, Some((key, value))) => Near::Larger(key, value),
        (None, None, None) => Near::Empty,
    }
}

/// Copies of the pairs around a key.
fn cloned<K: Clone, V: Clone>(found: &Near<&K, &V>) -> Result<Near<K, V>, AllocError>
    requires keys { ClonesAreSame K.is_clone }
    requires values { ClonesAreSame V.is_clone }
    ensures { IfOk result (λ copy. copy ≡ behind found.now) }
{
    match found {
        Near::Exact(k, v) => {
            let (key, value) = copied_pair(*k, *v)?;
            Ok(Near::Exact(key, value))
        }
        Near::Between(k, v, l, w) => {
            let smaller = copied_pair(*k, *v)?;
            let larger = copied_pair(*l, *w)?;
            Ok(Near::Between(smaller.0, smaller.1, larger.0, larger.1))
        }
        Near::Smaller(k, v) => {
            let (key, value) = copied_pair(*k, *v)?;
            Ok(Near::Smaller(key, value))
        }
        Near::Larger(k, v) => {
            let (key, value) = copied_pair(*k, *v)?;
            Ok(Near::Larger(key, value))
        }
        Near::Empty => Ok(Near::Empty),
    }
}

/// Whether what was found around a key is what an answer says.
fn is_same<K: Eq, V: Eq>(found: &Near<&K, &V>, told: &Near<K, V>) -> bool
    requires keys { EqualsAreSame K.eq }
    requires values { EqualsAreSame V.eq }
    ensures { IsTrue result ↔ (told.now ≡ behind found.now) }
{
    match (found, told) {
        (Near::Exact(k, v), Near::Exact(l, w)) => **k == *l && **v == *w,
        (Near::Between(k, v, m, x), Near::Between(l, w, n, y)) => {
            **k == *l && **v == *w && **m == *n && **x == *y
        }
        (Near::Smaller(k, v), Near::Smaller(l, w)) => **k == *l && **v == *w,
        (Near::Larger(k, v), Near::Larger(l, w)) => **k == *l && **v == *w,
        (Near::Empty, Near::Empty) => true,
        _ => false,
    }
}
