//! What a history begins with.

ghost use Rattle.std.specs.Prelude.{◌≡◌, ◌≤◌, [], IfOk, drop, length};
ghost use Rattle.leaf_array.specs.Pairs.{IsAscending};
ghost use Rattle.leaf_array.specs.Values.{ClonesAreSame};
ghost use Rattle.serial_history.specs.Serial.{Base};

use crate::ordered_view::OrderedView;
use crate::query::Part;
use crate::transaction::Transaction;
use std::alloc::{AllocError, Global};
use std::marker::Model;
use std::ops::Bound;

/// A list of pairs by rising keys, and the number that it has: what a history of transactions begins with.
#[derive(Drop)]
pub struct Base<K: Ord, V> {
    number: u64,
    pairs: Vec<(K, V)>,
}

/// Invariant: the keys rise.
impl<K: Ord, V> Model for Base<K, V> {
    ghost use Rattle.leaf_array.specs.Pairs.{IsAscending};
    ghost use Rattle.serial_history.specs.Serial.{Base};

    ghost Value = { Base K V };

    ghost view = { λ b. record { number = b.number; pairs = b.pairs.items } };

    ghost invariant = { λ b. IsAscending K.cmp b.pairs.items };
}

impl<K: Ord, V> Base<K, V> {
    /// The empty list, with number 0. It takes no memory.
    pub fn empty(alloc: Global) -> Self
        ensures { result ≡ record { number = 0; pairs = [] } }
    {
        Base {
            number: 0,
            pairs: Vec::new(alloc),
        }
    }

    /// These pairs, whose keys must rise, with this number. It takes no memory.
    pub fn new(number: u64, pairs: Vec<(K, V)>) -> Self
        requires { IsAscending K.cmp pairs.items }
        ensures { result ≡ record { number = number; pairs = pairs.items } }
    {
        Base { number, pairs }
    }

    /// The number.
    pub fn number(&self) -> u64
        ensures { result ≡ self.now.number }
    {
        self.number
    }

    /// The pairs, to be read.
    pub fn pairs(&self) -> &[(K, V)]
        ensures pairs { result.now ≡ self.now.pairs }
        ensures rising { IsAscending K.cmp result.now }
    {
        self.pairs.as_slice()
    }
}

/// Copies of all pairs of a list, in order. Fails only if an allocation fails.
pub fn pairs_of<K: Clone + Ord, V: Clone + Eq, L: OrderedView<K, V>>(
    alloc: Global,
    list: &L,
) -> Result<Vec<(K, V)>, AllocError>
    requires keys { ClonesAreSame K.is_clone }
    requires values { ClonesAreSame V.is_clone }
    ensures { IfOk result (λ copy. copy.items ≡ L.pairs list.now) }
{
    list.copy_between(alloc, &Bound::Unbounded, &Bound::Unbounded, Part::All)
}

/// Drops the first `count` transactions, which must be there. It takes no memory.
pub fn drop_first<K, V>(history: &mut Vec<Transaction<K, V>>, count: usize)
where
    K: Drop,
    V: Drop,
    requires { count ≤ length history.old.items }
    ensures { history.new.items ≡ drop count history.old.items }
{
    let gone = history.drain(..count);
    drop(gone);
}
