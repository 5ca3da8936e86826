//! Lists of pairs written and read in the plainest way: one pass each, and a copy for each write.

ghost use Rattle.std.specs.Prelude.{◌≡◌, ◌++◌, IfOk, OnOk};
ghost use Rattle.std.specs.Option.{option_copied};
ghost use Rattle.leaf_array.specs.Edits.{above, below, inserted, removed, upserted};
ghost use Rattle.leaf_array.specs.Pairs.{has_key, value_of_key};
ghost use Rattle.leaf_array.specs.Values.{ClonesAreSame};

use std::alloc::{AllocError, Global};

/// The value of the pair with the key, as `BTreeMap::get` finds it.
pub fn find_value<'a, K: Ord, V>(pairs: &'a [(K, V)], key: &K) -> Option<&'a V>
    ensures { option_copied result ≡ value_of_key K.cmp key.now pairs.now }
{
    for pair in pairs {
        if key.cmp(&pair.0).is_eq() {
            return Some(&pair.1);
        }
    }
    None
}

/// Whether some pair has the key, as `BTreeMap::contains_key` says it.
pub fn contains_key<K: Ord, V>(pairs: &[(K, V)], key: &K) -> bool
    ensures { result ≡ has_key K.cmp key.now pairs.now }
{
    find_value(pairs, key).is_some()
}

/// A copy of the list with the pair at its place, instead of any pair with its key.
pub fn upsert<K: Clone + Ord, V: Clone>(
    alloc: Global,
    pairs: &[(K, V)],
    key: &K,
    value: &V,
) -> Result<Vec<(K, V)>, AllocError>
    requires keys { ClonesAreSame K.is_clone }
    requires values { ClonesAreSame V.is_clone }
    ensures { IfOk result (λ out. out.items ≡ upserted K.cmp key.now value.now pairs.now) }
{
    let mut out = Vec::new(alloc);
    push_below(&mut out, pairs, key)?;
    out.push((key.clone()?, value.clone()?))?;
    push_above(&mut out, pairs, key)?;
    Ok(out)
}

/// A copy of the list with the pair at its place, or of the list alone if its key is there.
pub fn insert<K: Clone + Ord, V: Clone>(
    alloc: Global,
    pairs: &[(K, V)],
    key: &K,
    value: &V,
) -> Result<Vec<(K, V)>, AllocError>
    requires keys { ClonesAreSame K.is_clone }
    requires values { ClonesAreSame V.is_clone }
    ensures { IfOk result (λ out. out.items ≡ inserted K.cmp key.now value.now pairs.now) }
{
    if contains_key(pairs, key) {
        Vec::from_clones(alloc, pairs)
    } else {
        upsert(alloc, pairs, key, value)
    }
}

/// A copy of the list without the pair that has the key.
pub fn remove<K: Clone + Ord, V: Clone>(
    alloc: Global,
    pairs: &[(K, V)],
    key: &K,
) -> Result<Vec<(K, V)>, AllocError>
    requires keys { ClonesAreSame K.is_clone }
    requires values { ClonesAreSame V.is_clone }
    ensures { IfOk result (λ out. out.items ≡ removed K.cmp key.now pairs.now) }
{
    let mut out = Vec::new(alloc);
    for pair in pairs {
        if !key.cmp(&pair.0).is_eq() {
            out.push(pair.clone()?)?;
        }
    }
    Ok(out)
}

/// Copies the pairs with a key below this one to the end of `out`.
fn push_below<K: Clone + Ord, V: Clone>(
    out: &mut Vec<(K, V)>,
    pairs: &[(K, V)],
    key: &K,
) -> Result<(), AllocError>
    requires keys { ClonesAreSame K.is_clone }
    requires values { ClonesAreSame V.is_clone }
    ensures { OnOk result (out.new.items ≡ out.old.items ++ below K.cmp key.now pairs.now) }
{
    for pair in pairs {
        if key.cmp(&pair.0).is_gt() {
            out.push(pair.clone()?)?;
        }
    }
    Ok(())
}

/// Copies the pairs with a key above this one to the end of `out`.
fn push_above<K: Clone + Ord, V: Clone>(
    out: &mut Vec<(K, V)>,
    pairs: &[(K, V)],
    key: &K,
) -> Result<(), AllocError>
    requires keys { ClonesAreSame K.is_clone }
    requires values { ClonesAreSame V.is_clone }
    ensures { OnOk result (out.new.items ≡ out.old.items ++ above K.cmp key.now pairs.now) }
{
    for pair in pairs {
        if key.cmp(&pair.0).is_lt() {
            out.push(pair.clone()?)?;
        }
    }
    Ok(())
}
