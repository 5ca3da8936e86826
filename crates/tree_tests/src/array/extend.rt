//! Clones of pairs that are put behind all others, as far as each clone is made.

use leaf_array::Array;
use std::alloc::AllocError;

/// A number that can't be cloned where it is 3.
#[derive(Drop)]
struct Rare {
    number: u64,
}

impl Clone for Rare {
    ghost use Rattle.std.specs.Prelude.{◌≡◌};

    ghost is_clone = { λ x y. y ≡ x };

    fn clone(&self) -> Result<Rare, AllocError> {
        if self.number == 3 {
            return Err(AllocError);
        }
        Ok(Rare {
            number: self.number,
        })
    }
}

/// An array of these keys, each its own value.
fn array_of(keys: &[u64]) -> Array<u64, Rare> {
    let mut array = Array::new();
    for key in keys {
        let _inserted = array.insert::<false>(*key, Rare { number: *key });
    }
    array
}

/// How many pairs of an array are cloned into an empty one, how many that has then, and its values of three keys.
fn cloned(keys: &[u64]) -> (usize, usize, [Option<u64>; 3]) {
    let source = array_of(keys);
    let mut array = Array::new();
    let count = source.len();
    let done = array.extend_last(&source, 0, count);
    let two = array.search_val(&2).map(|rare| rare.number);
    let three = array.search_val(&3).map(|rare| rare.number);
    let four = array.search_val(&4).map(|rare| rare.number);
    (done, array.len(), [two, three, four])
}

#[test]
fn clones_end_at_the_first_that_is_refused(rt: HostRuntime) {
    let all = cloned(&[1, 2, 4, 5]);
    let some = cloned(&[1, 2, 3, 4]);
    assert!(rt; all == (4, 4, [Some(2), None, Some(4)]) && some == (2, 2, [Some(2), None, None]));
}
