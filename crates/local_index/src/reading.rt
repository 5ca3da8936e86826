//! A reader of an index, which closes its session where it is dropped.

ghost use Rattle.std.specs.Prelude.{◌≡◌, ◌↔◌, None, [], length, slice_set, IfOk, IsErr, OnErr};
ghost use Rattle.std.specs.Borrow.{sem};
ghost use Rattle.std.specs.Option.{option_copied};
ghost use Rattle.leaf_array.specs.Pairs.{has_key, value_of_key};
ghost use Rattle.leaf_array.specs.Values.{ClonesAreSame};
ghost use Rattle.tree_index.specs.Cursor.{whole};
ghost use Rattle.tree_index.specs.Proximity.{IsLocated};
ghost use Rattle.tree_index.specs.declared.cursor.End.TheVariants.{Unopened};
ghost use Rattle.version_views.specs.Nearby.{as_proximity};
ghost use Rattle.version_views.specs.Cuts.{pairs_in};
ghost use Rattle.version_views.specs.Views.{cursor_within};
ghost use Rattle.local_index.specs.State.{HasNoPlace, IsSessionAt, Closes, Opens, Reads};

use crate::index::{LocalIndex, NoPlace};
use local_versions::LocalView;
use serial_history::transaction::note;
use serial_history::version_view::value_in;
use serial_history::{Answer, Nearby, Query, Receipt, Recorded, Seq, Walk};
use std::alloc::AllocError;
use std::mem;
use std::ops::Bound;

/// A reader of the list that was present when it was made, by a session of the index that it borrows.
///
/// Its session closes where it is dropped, so nothing is asked of its reads, and nobody has to close it. While it is there,
/// nobody else has the index; who wants to read beside commits, or by several sessions, takes
/// [`open`](LocalIndex::open). `R` is how it keeps what it recorded, and is never written.
pub struct Reading<
    'a,
    K: Clone + Ord,
    V: Clone + Eq,
    const S: usize,
    R: Drop = Seq<Recorded<K, V>>,
> {
    index: &'a mut LocalIndex<K, V, S>,
    place: usize,
    number: u64,
    reads: R,
    ghost is_open: { IsSessionAt index.now place number },
}

impl<'a, K: Clone + Ord, V: Clone + Eq, const S: usize, R: Drop> Drop for Reading<'a, K, V, S, R> {
    fn drop(self)
        ensures { Closes self.entry.index.now self.entry.place self.exit.0.now }
    {
        let place = self.place;
        let number = self.number;
        self.index.close_place(place, number);
        let Reading {
            index: _,
            place: _,
            number: _,
            reads: _,
        } = self;
    }
}

impl<'a, K: Clone + Ord, V: Clone + Eq, const S: usize> Reading<'a, K, V, S, Seq<Recorded<K, V>>> {
    ghost use Rattle.local_index.specs.Reading.{index_of, list_read, receipt_of, reference_of, session_of};

    /// The number of its list.
    pub fn number(&self) -> u64
        ensures { result ≡ (receipt_of self.now).number }
    {
        self.number
    }

    /// The value of the pair with the key, as `BTreeMap::get` finds it. The read isn't recorded.
    pub fn get(&self, key: &K) -> Option<&V>
        ensures { option_copied result ≡ value_of_key K.cmp key.now (list_read self.now) }
    {
        value_in(&self.list(), key)
    }

    /// Whether a pair has the key. The read isn't recorded.
    pub fn contains(&self, key: &K) -> bool
        ensures { result ≡ has_key K.cmp key.now (list_read self.now) }
    {
        self.get(key).is_some()
    }

    /// How many pairs there are.
    pub fn len(&self) -> usize
        ensures { result ≡ length (list_read self.now) }
    {
        self.list().len()
    }

    /// Where the key is, with a cursor there (as `locate` of a `TreeIndex`). The read isn't recorded.
    pub fn locate<'b>(&'b self, key: &K) -> Nearby<'b, K, V, S>
        ensures { IsLocated K.cmp key.now (list_read self.now) (as_proximity result) }
    {
        self.list().locate(key)
    }

    /// A cursor over all pairs. What it gives isn't recorded.
    pub fn iter<'b>(&'b self) -> Walk<'b, K, V, S>
        ensures { result ≡ whole (list_read self.now) Unopened Unopened }
    {
        self.list().walk(Bound::Unbounded, Bound::Unbounded)
    }

    /// A cursor over the pairs within two bounds. What it gives isn't recorded.
    pub fn range<'b>(&'b self, lower: Bound<&'b K>, upper: Bound<&'b K>) -> Walk<'b, K, V, S>
        ensures { result ≡ cursor_within (list_read self.now) lower.entry upper.entry }
    {
        self.list().walk(lower, upper)
    }

    /// The answer to a query, which is also recorded as the last read of its receipt. Fails only if an allocation fails; then the
    /// receipt stays as it was.
    pub fn read(&mut self, query: Query<K>) -> Result<Answer<K, V>, AllocError>
        requires keys { ClonesAreSame K.is_clone }
        requires values { ClonesAreSame V.is_clone }
        ensures read { IfOk result (λ answer. Reads K.cmp (index_of self.old) (session_of self.old) query answer (session_of self.new)) }
        ensures refused { OnErr result (session_of self.new ≡ session_of self.old) }
        ensures same_list { list_read self.new ≡ list_read self.old }
        ensures same_index { index_of self.new ≡ index_of self.old }
        ensures same_reference { reference_of self.new ≡ reference_of self.old }
    {
        let told = self.index.answer_at(self.place, self.number, &query)?;
        note(&mut self.reads, query, &told)?;
        Ok(told)
    }

    /// What was recorded since it was made, or since this was taken last, with the number of its list.
    pub fn take_receipt(&mut self) -> Receipt<K, V>
        ensures receipt { result ≡ receipt_of self.old }
        ensures taken { receipt_of self.new ≡ record (receipt_of self.old) { reads = [] } }
        ensures same_list { list_read self.new ≡ list_read self.old }
        ensures same_index { index_of self.new ≡ index_of self.old }
        ensures same_reference { reference_of self.new ≡ reference_of self.old }
    {
        let none = self.index.no_reads();
        Receipt {
            number: self.number,
            reads: mem::replace(&mut self.reads, none),
        }
    }

    // The version that it reads.
    fn list(&self) -> LocalView<'_, K, V, S>
        ensures { pairs_in result ≡ list_read self.now }
    {
        self.index.list_read_at(self.place, self.number)
    }
}

impl<K: Clone + Ord, V: Clone + Eq, const S: usize> LocalIndex<K, V, S> {
    ghost use Rattle.local_index.specs.Lending.{rests_if_refused};
    ghost use Rattle.local_index.specs.Reading.{index_of, reference_of, session_of};

    /// A reader of the present list, which closes its session where it is dropped. It is refused if and only if no place
    /// is free, and takes no memory.
    pub fn reading<'a>(&'a mut self) -> Result<Reading<'a, K, V, S>, NoPlace>
        ensures opens { IfOk result (λ r. Opens K.cmp self.old (session_of r) (index_of r)) }
        ensures back { IfOk result (λ r. slice_set (index_of r).places (session_of r).place None ≡ self.old.places) }
        ensures same_reference { IfOk result (λ r. reference_of r ≡ self.entry.ghost_name) }
        ensures full { IsErr result ↔ HasNoPlace self.old }
        ensures* refused { sem 𝓛 (rests_if_refused K.row V.row S.row self.entry result) }
    {
        match self.open() {
            Ok(session) => {
                let (place, receipt) = session.into_parts();
                let Receipt { number, reads } = receipt;
                Ok(Reading {
                    index: self,
                    place,
                    number,
                    reads,
                })
            }
            Err(NoPlace) => Err(NoPlace),
        }
    }
}
