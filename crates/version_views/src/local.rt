//! Versions in a place of one thread.

use crate::item::Item;
use crate::nearby::Nearby;
use crate::view::VersionView;
use crate::walking::Walk;
use sdd_table::Table;
use sdd_table::job::NoJob;

/// A version in a place of one thread, to be read.
pub type LocalView<'a, K, V, const S: usize> = VersionView<'a, K, V, Table<Item<K, V, S>, NoJob>>;

/// A cursor over the list of a version in a place of one thread.
pub type LocalWalk<'a, K, V, const S: usize> = Walk<'a, K, V, Table<Item<K, V, S>, NoJob>>;

/// Where a key is in a version in a place of one thread, with a cursor there.
pub type LocalNearby<'a, K, V, const S: usize> = Nearby<'a, K, V, Table<Item<K, V, S>, NoJob>>;
