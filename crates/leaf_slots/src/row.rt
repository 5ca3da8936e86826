//! Rows of places: a method is written once, for the last place and for a place with the rest of the row behind it.
//!
//! A place for each pair of type parameters is in a field of its own: an array of them would ask each caller to prove that
//! it fits in memory. A row of fifteen compiles to straight code for all of them. A trait has one or two methods and says for itself
//! which places a row has, since the proof of a call goes through all methods of its trait, and of the traits that
//! this one depends on, for each of the fifteen.

ghost use Rattle.std.specs.Prelude.{◌≡◌, List};

use crate::place::Place;

mod bury;
mod enter;
mod exchange;
mod extend;
mod labels;
mod lend;
mod ranks;
mod renumber;
mod replace;
mod search;

pub(crate) use bury::Bury;
pub(crate) use enter::Enter;
pub(crate) use exchange::Exchange;
pub(crate) use extend::{Extend, ExtendAligned};
pub(crate) use labels::Labels;
pub(crate) use lend::Lend;
pub(crate) use ranks::{Ranks, Top};
pub(crate) use renumber::Renumber;
pub(crate) use replace::{Overwrite, Put};
pub(crate) use search::Search;

/// A row of empty places.
pub(crate) trait Blank<K, V> {
    ghost use Rattle.leaf_slots.specs.declared.place.Place.{Place};

    ghost places: { Self → List (Place K V) };

    ghost blank: { List (Place K V) };

    fn new() -> Self
        ensures { places result ≡ blank };
}

/// The last place of a row.
#[derive(Drop)]
pub(crate) struct Last<K, V> {
    head: Place<K, V>,
}

/// A place, and the rest of the row.
#[derive(Drop)]
pub(crate) struct Link<K, V, R> {
    pub(crate) head: Place<K, V>,
    pub(crate) rest: R,
}

impl<K, V> Blank<K, V> for Last<K, V> {
    ghost use Rattle.std.specs.Prelude.{◌∷◌, []};
    ghost use Rattle.leaf_slots.specs.declared.place.Place.TheVariants.{Empty};

    ghost places = { λ l. l.head ∷ [] };

    ghost blank = { Empty ∷ [] };

    #[inline(always)]
    fn new() -> Self {
        Last { head: Place::Empty }
    }
}

impl<K, V, R: Blank<K, V>> Blank<K, V> for Link<K, V, R> {
    ghost use Rattle.std.specs.Prelude.{◌∷◌};
    ghost use Rattle.leaf_slots.specs.declared.place.Place.TheVariants.{Empty};

    ghost places = { λ l. l.head ∷ R.places l.rest };

    ghost blank = { Empty ∷ R.blank };

    #[inline(always)]
    fn new() -> Self {
        Link {
            head: Place::Empty,
            rest: R::new(),
        }
    }
}
