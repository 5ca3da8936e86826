//! A version lends its segments: each of its rows has them.

ghost use Rattle.std.specs.Prelude.{◌≡◌};
ghost use Rattle.shared_versions.specs.Nodes.{OwnsRow, own_segments, row_segments};

use crate::node::{OwnRow, RowOwner, Version};
use std::alloc::Global;
use std::sync::Arc;
use tree_index::TreeIndex;
use version_views::{Segment, Trees, VersionView};

/// A version lends what its rows have, without any step on a word of the place.
impl<K: Ord, V> Trees<K, V> for Version<K, V> {
    ghost use Rattle.shared_versions.specs.Nodes.{OwnsRow, row_segments, segment_pairs};

    type Owner = Arc<Segment<K, V>, Global>;

    type Owners = RowOwner<K, V>;

    ghost has_row = { λ v r. OwnsRow v.own r };

    ghost owners = { λ v r. row_segments v.own r };

    ghost has = { λ _ _. Unit {0} };

    ghost pairs = { λ _ a. segment_pairs a };

    fn owners<'a>(&'a self, row: &'a RowOwner<K, V>) -> &'a [Arc<Segment<K, V>, Global>] {
        segments_of(self.own(), row)
    }

    fn tree<'a>(&'a self, at: &'a Arc<Segment<K, V>, Global>) -> &'a TreeIndex<K, V> {
        at.tree()
    }
}

/// The segments of a row, which an item has, or one of these. Condition: it is there.
pub(crate) fn segments_of<'a, K: Ord, V>(
    own: &'a [OwnRow<K, V>],
    row: &'a RowOwner<K, V>,
) -> &'a [Arc<Segment<K, V>, Global>]
    requires { OwnsRow (own_segments own.now) row.now }
    ensures { result.now ≡ row_segments (own_segments own.now) row.now }
{
    match row {
        RowOwner::Item(owner) => owner.as_ref().segments(),
        RowOwner::Own(at) => &own[*at],
    }
}

/// A version to be read.
pub fn view_of<'a, K: Ord, V>(version: &'a Version<K, V>) -> VersionView<'a, K, V, Version<K, V>>
    ensures { result ≡ version.now.blocks }
{
    VersionView::new(version, version.directory())
}
