//! Items.

ghost use Rattle.std.specs.Prelude.{◌≡◌, ◌≤◌, Some, IfSome, IfNone};
ghost use Rattle.version_views.specs.Versions.{IsSegment, segment_pairs};

use crate::directory::Directory;
use crate::segment::Segment;
use sdd_table::groups::Group;
use sdd_table::holds::{Held, Holds};
use tree_index::TreeIndex;

/// What is in a slot: a version, or a segment of versions.
pub enum Item<K: Ord, V, const S: usize> {
    Directory(Directory<K, Group>),
    Segment(Segment<K, V>),
}

impl<K: Ord, V, const S: usize> Item<K, V, S> {
    /// The directory of a version, or none where it is a segment.
    pub fn directory(&self) -> Option<&Directory<K, Group>>
        ensures some { IfSome result (λ d. self.now ≡ Item.Directory d.now) }
        ensures none { IfNone result (IsSegment (Some self.now)) }
    {
        match self {
            Item::Directory(directory) => Some(directory),
            Item::Segment(_) => None,
        }
    }

    /// The tree of a segment. Condition: it is one.
    pub(crate) fn segment(&self) -> &TreeIndex<K, V>
        requires { IsSegment (Some self.now) }
        ensures pairs { result.now.pairs ≡ segment_pairs (Some self.now) }
        ensures flat { result.now.depth ≤ 1 }
    {
        match self {
            Item::Segment(segment) => segment.tree(),
            Item::Directory(_) => unreachable!(),
        }
    }
}

/// A directory gives its rows up, from the last one on; a segment holds nothing.
impl<K: Ord + Drop, V: Drop, const S: usize> Holds for Item<K, V, S> {
    ghost use Rattle.version_views.specs.Items.{held_by};

    ghost holds = { held_by };

    fn give_up(&mut self) -> Option<Held<Item<K, V, S>>> {
        match self {
            Item::Directory(directory) => match directory.rows.pop() {
                Some(row) => Some(Held::Group(row.into_owners())),
                None => None,
            },
            Item::Segment(_) => None,
        }
    }

    fn end(self) {
        match self {
            Item::Directory(directory) => directory.into_rows().destroy_empty(),
            Item::Segment(_) => {}
        }
    }
}
