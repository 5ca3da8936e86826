//! Arrays by example.

use leaf_array::Array;

mod boundary;
mod calls;
mod cut;
mod edit;
mod extend;
mod iter;
mod plain;
mod range;
mod result;
mod slot;
mod text;
mod walk;

const ASCENDING: &[u64] = &[0, 1, 2, 3, 4, 5, 6, 7, 8, 9, 10, 11, 12, 13, 14];

const DESCENDING: &[u64] = &[14, 13, 12, 11, 10, 9, 8, 7, 6, 5, 4, 3, 2, 1, 0];

/// An array of these keys, each its own value, which come in this order.
fn holding(keys: &[u64]) -> Array<u64, u64> {
    let mut array = Array::new();
    for key in keys {
        let _inserted = array.insert::<false>(*key, *key);
    }
    array
}
