//! What lends the segments of versions.

ghost use Rattle.std.specs.Prelude.{◌≡◌, ◌≤◌, List};

use crate::item::Item;
use sdd_table::Table;
use sdd_table::groups::Group;
use sdd_table::job::NoJob;
use sdd_table::owner::Kept;
use tree_index::TreeIndex;

/// A place that lends the segments of versions to readers.
pub trait Trees<K: Ord, V> {
    /// How one segment is owned there.
    type Owner;

    /// How the segments of a row are owned there.
    type Owners;

    /// Whether the segments of a row are there.
    ghost has_row: { Self → Self.Owners → Type 0 };

    /// The owners of a row's segments, in order.
    ghost owners: { Self → Self.Owners → List Self.Owner };

    /// Whether what an owner owns is a segment.
    ghost has: { Self → Self.Owner → Type 0 };

    /// The pairs of an owner's segment.
    ghost pairs: { Self → Self.Owner → List (K × V) };

    /// The owners of a row's segments. Condition: they are there.
    fn owners<'a>(&'a self, row: &'a Self::Owners) -> &'a [Self::Owner]
        requires { has_row self.now row.now }
        ensures { result.now ≡ owners self.now row.now };

    /// The tree of an owner's segment, whose depth is at most 1. Condition: it is one.
    fn tree<'a>(&'a self, at: &'a Self::Owner) -> &'a TreeIndex<K, V>
        requires { has self.now at.now }
        ensures pairs { result.now.pairs ≡ pairs self.now at.now }
        ensures flat { result.now.depth ≤ 1 };
}

/// The table of a place of one thread lends the row of a group, and what is in the slot of an owner.
impl<K: Ord, V, const S: usize> Trees<K, V> for Table<Item<K, V, S>, NoJob> {
    ghost use Rattle.sdd_table.specs.State.{value_at};
    ghost use Rattle.sdd_table.specs.Tokens.{kept_slot};
    ghost use Rattle.version_views.specs.Items.{owners_of};
    ghost use Rattle.version_views.specs.Versions.{IsSegment, segment_pairs};

    type Owner = Kept;

    type Owners = Group;

    ghost has_row = { λ w g. Unit {0} };

    ghost owners = { λ w g. owners_of w.groups g };

    ghost has = { λ w k. IsSegment (value_at w (kept_slot k)) };

    ghost pairs = { λ w k. segment_pairs (value_at w (kept_slot k)) };

    fn owners<'a>(&'a self, row: &'a Group) -> &'a [Kept] {
        self.group_row(row)
    }

    fn tree<'a>(&'a self, at: &'a Kept) -> &'a TreeIndex<K, V> {
        self.kept_ref(at).segment()
    }
}
