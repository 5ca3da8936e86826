//! A session's token.

ghost use Rattle.std.specs.Prelude.{◌≡◌, ◌∷◌, ◌++◌, [], OnOk, OnErr};
ghost use Rattle.leaf_array.specs.Values.{ClonesAreSame};
ghost use Rattle.serial_history.specs.Serial.{with_read};

use serial_history::{Answer, Query, Receipt};
use std::alloc::AllocError;
use std::marker::Model;

/// An open session of an index. It reads the list at its opening until it is closed.
///
/// It must be consumed by the `close_session` of the index that opened it, and is used with that
/// index alone.
pub struct Session<K, V> {
    place: usize,
    receipt: Receipt<K, V>,
}

impl<K, V> Model for Session<K, V> {
    ghost use Rattle.local_index.specs.State.{OpenSession};

    ghost Value = { OpenSession K V };

    ghost view = { λ s. record { place = s.place; receipt = s.receipt } };
}

impl<K, V> Session<K, V> {
    pub(crate) fn new(place: usize, receipt: Receipt<K, V>) -> Self
        ensures place { result.place ≡ place }
        ensures receipt { result.receipt ≡ receipt }
    {
        Session { place, receipt }
    }

    pub(crate) fn place(&self) -> usize
        ensures { result ≡ self.now.place }
    {
        self.place
    }

    pub(crate) fn number(&self) -> u64
        ensures { result ≡ self.now.receipt.number }
    {
        self.receipt.number
    }

    pub(crate) fn receipt(&self) -> &Receipt<K, V>
        ensures { result.now ≡ self.now.receipt }
    {
        &self.receipt
    }

    pub(crate) fn into_parts(self) -> (usize, Receipt<K, V>)
        ensures place { result.0 ≡ self.place }
        ensures receipt { result.1 ≡ self.receipt }
    {
        let Session { place, receipt } = self;
        (place, receipt)
    }
}

impl<K: Clone + Drop, V: Clone + Drop> Session<K, V> {
    // Puts a read at the end of the receipt, with a copy of its answer. Without memory the receipt stays as it was.
    pub(crate) fn note(&mut self, query: Query<K>, told: &Answer<K, V>) -> Result<(), AllocError>
        requires keys { ClonesAreSame K.is_clone }
        requires values { ClonesAreSame V.is_clone }
        ensures ok { OnOk result (self.new ≡ record self.old { receipt = with_read query told.now self.old.receipt }) }
        ensures err { OnErr result (self.new ≡ self.old) }
    {
        self.receipt.note(query, told)
    }
}
