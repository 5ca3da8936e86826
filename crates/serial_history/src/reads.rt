//! The reads that an accepted commit rested on.

ghost use Rattle.std.specs.Prelude.{◌≡◌, refl, true};

use crate::ghost_items::GhostItems;
use crate::transaction::Recorded;
use std::alloc::AllocError;
use std::fmt;
use std::marker::Model;

/// The recorded reads of an accepted commit, for contracts alone: they have no bytes.
///
/// A commit tests the reads of its receipt, and only contracts ask for them afterwards. So a history keeps none of them, and its
/// contracts still say that they held. Code can't distinguish two of them: they are equal, whatever was read.
#[derive(Drop)]
pub struct Reads<K, V> {
    shown: GhostItems<Recorded<K, V>>,
}

impl<K, V> Model for Reads<K, V> {
    ghost use Rattle.std.specs.Prelude.{List};
    ghost use Rattle.serial_history.specs.declared.query.Answer.{Answer};
    ghost use Rattle.serial_history.specs.declared.query.Query.{Query};

    ghost Value = { List (Query K × Answer K V) };

    ghost view = { λ r. r.shown.items };
}

impl<K, V> Reads<K, V> {
    /// These reads. It copies nothing.
    pub fn of(reads: &[Recorded<K, V>]) -> Self
        ensures { result ≡ reads.now }
    {
        Reads {
            shown: GhostItems::of(reads),
        }
    }

    /// The same reads once more. It takes no memory.
    pub fn again(&self) -> Self
        ensures { result ≡ self.now }
    {
        Reads {
            shown: self.shown.again(),
        }
    }
}

impl<K: Drop, V: Drop> Clone for Reads<K, V> {
    ghost is_clone = { λ v w. v ≡ w };

    fn clone(&self) -> Result<Self, AllocError> {
        Ok(self.again())
    }
}

impl<K, V> PartialEq for Reads<K, V> {
    ghost eq = { λ _ _. true };

    ghost laws = { record { symm = λ x y. refl; trans = λ x y z e f. refl } };

    fn eq(&self, other: &Self) -> bool {
        let _ = other;
        true
    }
}

impl<K, V> Eq for Reads<K, V> {
    ghost laws = { record { refl = λ x. refl; symm = λ x y. refl; congr = λ x y z e. refl } };
}

impl<K, V> fmt::Debug for Reads<K, V> {
    fn fmt<W: fmt::Write>(&self, f: &mut fmt::Formatter<W>) -> fmt::Result {
        f.write_str("Reads(..)")
    }
}
