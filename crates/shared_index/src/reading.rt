//! A reader of an index that threads share, which closes its session where it is dropped.

ghost use Rattle.std.specs.Prelude.{◌≡◌, None, length, IfOk, IsSome, OnErr};
ghost use Rattle.std.specs.Option.{option_copied};
ghost use Rattle.leaf_array.specs.Pairs.{has_key, value_of_key};
ghost use Rattle.leaf_array.specs.Values.{ClonesAreSame};
ghost use Rattle.tree_index.specs.Cursor.{whole};
ghost use Rattle.tree_index.specs.Proximity.{IsLocated};
ghost use Rattle.tree_index.specs.declared.cursor.End.TheVariants.{Unopened};
ghost use Rattle.version_views.specs.Nearby.{as_proximity};
ghost use Rattle.version_views.specs.Views.{cursor_within};
ghost use Rattle.serial_history.specs.Answers.{answer_to};
ghost use Rattle.serial_history.specs.Serial.{with_read};

use crate::naming::Naming;
use crate::participant::Participant;
use serial_history::{Answer, Query, Receipt};
use shared_sessions::{SharedNearby, SharedWalk};
use std::alloc::AllocError;
use std::ops::Bound;

/// A reader of the list that was present when it was made, by a session of the participant that it borrows.
///
/// Its session closes where it is dropped, so nothing is asked of its reads, and nobody has to close it. What others commit
/// and reclaim meanwhile doesn't change what it reads. A participant has one reader at a time; who wants to read by several
/// sessions takes [`open`](crate::SharedIndex::open).
pub struct SharedReading<'a, 'i, 'd, L: Naming, K: Clone + Ord, V: Clone + Eq, const S: usize> {
    pub(crate) participant: &'a mut Participant<'i, 'd, L, K, V, S>,
    ghost is_open: { IsSome participant.now },
}

impl<'a, 'i, 'd, L: Naming, K: Clone + Ord, V: Clone + Eq, const S: usize> Drop
    for SharedReading<'a, 'i, 'd, L, K, V, S> {
    fn drop(self)
        ensures { self.exit.0.now ≡ None }
    {
        self.participant.close();
        let SharedReading { participant: _ } = self;
    }
}

impl<'a, 'i, 'd, L: Naming, K: Clone + Ord, V: Clone + Eq, const S: usize> SharedReading<
    'a,
    'i,
    'd,
    L,
    K,
    V,
    S,
> {
    ghost use Rattle.shared_index.specs.SharedReadings.{list_read, receipt_of, reference_of};

    /// The number of its list.
    pub fn number(&self) -> u64
        ensures { result ≡ (receipt_of self.now).number }
    {
        self.participant.session().receipt().number
    }

    /// The value of the pair with the key, as `BTreeMap::get` finds it. The read isn't recorded.
    pub fn get(&self, key: &K) -> Option<&V>
        ensures { option_copied result ≡ value_of_key K.cmp key.now (list_read self.now) }
    {
        self.participant.session().get(key)
    }

    /// Whether a pair has the key. The read isn't recorded.
    pub fn contains(&self, key: &K) -> bool
        ensures { result ≡ has_key K.cmp key.now (list_read self.now) }
    {
        self.participant.session().contains(key)
    }

    /// How many pairs there are.
    pub fn len(&self) -> usize
        ensures { result ≡ length (list_read self.now) }
    {
        self.participant.session().len()
    }

    /// Where the key is, with a cursor there (as `locate` of a `TreeIndex`). The read isn't recorded.
    pub fn locate(&self, key: &K) -> SharedNearby<'_, K, V>
        ensures { IsLocated K.cmp key.now (list_read self.now) (as_proximity result) }
    {
        self.participant.session().locate(key)
    }

    /// A cursor over all pairs. What it gives isn't recorded.
    pub fn iter(&self) -> SharedWalk<'_, K, V>
        ensures { result ≡ whole (list_read self.now) Unopened Unopened }
    {
        self.participant.session().iter()
    }

    /// A cursor over the pairs within two bounds. What it gives isn't recorded.
    pub fn range<'b>(&'b self, lower: Bound<&'b K>, upper: Bound<&'b K>) -> SharedWalk<'b, K, V>
        ensures { result ≡ cursor_within (list_read self.now) lower.entry upper.entry }
    {
        self.participant.session().range(lower, upper)
    }

    /// The answer to a query, which is also recorded as the last read of its receipt. Fails only if an allocation fails; then the
    /// receipt stays as it was.
    pub fn read(&mut self, query: Query<K>) -> Result<Answer<K, V>, AllocError>
        requires keys { ClonesAreSame K.is_clone }
        requires values { ClonesAreSame V.is_clone }
        ensures told { IfOk result (λ answer. answer ≡ answer_to K.cmp query (list_read self.old)) }
        ensures recorded { IfOk result (λ answer. receipt_of self.new ≡ with_read query answer (receipt_of self.old)) }
        ensures refused { OnErr result (receipt_of self.new ≡ receipt_of self.old) }
        ensures same_list { list_read self.new ≡ list_read self.old }
        ensures same_reference { reference_of self.new ≡ reference_of self.old }
    {
        self.participant.read(query)
    }

    /// Closes its session: what was recorded, with the number of its list, for a commit or an audit.
    pub fn close(self) -> Receipt<K, V>
        ensures { result ≡ receipt_of self.entry }
    {
        let receipt = self.participant.finish();
        let SharedReading { participant: _ } = self;
        receipt
    }
}
