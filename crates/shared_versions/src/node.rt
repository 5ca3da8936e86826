//! What is in a slot of a place that threads share.

ghost use Rattle.std.specs.Prelude.{◌≡◌, ◌++◌, [], IfNone, Some, map, option_copied, reverse};
ghost use Rattle.std.specs.Option.{option_to_list};
ghost use Rattle.sdd_domain.specs.Holding.{told_of};
ghost use Rattle.version_views.specs.Cuts.{IsCut, separators_of};
ghost use Rattle.shared_versions.specs.Nodes.{IsItem, IsWhole, TakesLast, holds_in, item_segments, own_segments, sight_of, version_of};

use sdd_domain::held::Held;
use std::alloc::Global;
use std::marker::Model;
use std::sync::Arc;
use version_views::{Directory, Row, Segment};

/// The segments of a row, in order. Rows that have the same segment share it.
pub(crate) type RowSegments<K, V> = Vec<Arc<Segment<K, V>, Global>>;

/// The segments of a row that isn't an item. Versions that have the row share it.
pub(crate) type OwnRow<K, V> = Arc<Vec<Arc<Segment<K, V>, Global>>, Global>;

/// How a version has the segments of a row.
#[cycle(nodes)]
pub enum RowOwner<K: Ord, V> {
    /// By an owner of the item that has them.
    Item(Held<Node<K, V>>),
    /// By itself: at this place of the rows that it shares with other versions.
    Own(usize),
}

/// A version: a directory of rows of segments.
///
/// Contracts see its number, the pairs of its segments in order, those of each row that is an item, the segments of each other
/// row, and the slots and rounds of the owners of items.
#[cycle(nodes)]
pub struct Version<K: Ord, V> {
    directory: Directory<K, RowOwner<K, V>>,
    // the rows that aren't items
    own: Vec<Arc<Vec<Arc<Segment<K, V>, Global>>, Global>>,
    // the greatest number of pairs in a segment
    width: usize,
}

/// Invariant: specs/Nodes.antt, IsWhole: each owner has a row; its segments are cut for the width, counted, and stand in rows.
impl<K: Ord, V> Model for Version<K, V> {
    ghost use Rattle.shared_versions.specs.Sight.{Sight};

    ghost Value = { Sight K V };

    ghost use Rattle.shared_versions.specs.Nodes.{IsWhole, own_segments, sight_of};

    ghost view = { λ v. sight_of (own_segments v.own.items) v.width v.directory };

    ghost invariant = { λ v. IsWhole K.cmp (own_segments v.own.items) v.width v.directory };

    ghost size = { λ _. 0 };

    ghost use Rattle.shared_versions.specs.Falls.{version_falls};

    ghost size_decreases = { λ v h. version_falls K.Ord K.PartialEq K.PartialOrd v h.owned };
}

/// What is in a slot: a version, a row of segments, or the rows that are left of a version that is reclaimed.
#[cycle(nodes)]
pub enum Node<K: Ord, V> {
    Version(Version<K, V>),
    Row(Vec<Arc<Segment<K, V>, Global>>),
    Rest(Rest<K, V>),
}

/// Rows that a version had, whose owners are yet to be released.
///
/// Contracts see the slots and rounds of the owners, in order.
#[cycle(nodes)]
pub struct Rest<K: Ord, V> {
    rows: Vec<Row<K, RowOwner<K, V>>>,
}

/// Invariant: specs/Nodes.antt, IsItem: each owner has a row.
impl<K: Ord, V> Model for Rest<K, V> {
    ghost use Rattle.std.specs.List.{All};
    ghost use Rattle.std.specs.Prelude.{List, map, ℕ};
    ghost use Rattle.sdd_domain.specs.Holding.{told_of};

    ghost Value = { List (ℕ × ℕ) };

    ghost use Rattle.shared_versions.specs.Nodes.{OwnsItem, holds_in};

    ghost view = { λ r. map told_of (holds_in r.rows.items) };

    ghost invariant = { λ r. All OwnsItem (holds_in r.rows.items) };

    ghost size = { λ _. 0 };

    ghost use Rattle.shared_versions.specs.Falls.{rest_falls};

    ghost size_decreases = { λ r h. rest_falls K.Ord K.PartialEq K.PartialOrd r h };
}

impl<K: Ord, V> Version<K, V> {
    /// The version of a directory, and of the rows that aren't items. Condition: it is one, of segments of at most `width` pairs.
    pub(crate) fn new(
        directory: Directory<K, RowOwner<K, V>>,
        own: Vec<OwnRow<K, V>>,
        width: usize,
    ) -> Self
        requires { IsWhole K.cmp (own_segments own.items) width directory }
        ensures { result ≡ sight_of (own_segments own.items) width directory }
    {
        Version {
            directory,
            own,
            width,
        }
    }

    /// The empty list, with number 0. It takes no memory.
    pub fn empty(alloc: Global, width: usize) -> Self
        ensures { result ≡ record { number = 0; width = width; own = []; blocks = []; rows = []; owners = [] } }
    {
        let directory = Directory::new(0, 0, Vec::new(alloc), Vec::new(alloc), Vec::new(alloc));
        let own = Vec::new(alloc);
        Version::new(directory, own, width)
    }

    /// Its directory.
    pub fn directory(&self) -> &Directory<K, RowOwner<K, V>>
        ensures whole { IsWhole K.cmp self.now.own self.now.width result.now }
        ensures sight { sight_of self.now.own self.now.width result.now ≡ self.now }
    {
        &self.directory
    }

    /// Its rows that aren't items.
    pub(crate) fn own(&self) -> &[OwnRow<K, V>]
        ensures { own_segments result.now ≡ self.now.own }
    {
        &self.own
    }

    /// Its number: how many other versions were made before it.
    pub fn number(&self) -> u64
        ensures { result ≡ self.now.number }
    {
        self.directory.number()
    }

    /// The greatest number of pairs in a segment.
    pub fn width(&self) -> usize
        ensures { result ≡ self.now.width }
    {
        self.width
    }

    /// What every version meets. Nothing here runs.
    pub fn laws(&self)
        ensures { IsCut K.cmp self.now.width self.now.blocks (separators_of self.now.blocks) }
    {
        // what is read here opens the version to the proof
        let _width = self.width;
    }

    /// Where its memory is from.
    pub(crate) fn allocator(&self) -> Global {
        self.directory.allocator()
    }

    /// Its rows: all that is left of it.
    pub(crate) fn into_rest(self) -> Rest<K, V>
    where
        K: Drop,
        V: Drop,
        ensures { result ≡ self.owners }
    {
        let Version {
            directory,
            own: _,
            width: _,
        } = self;
        Rest {
            rows: directory.into_rows(),
        }
    }
}

impl<K: Ord, V> Rest<K, V> {
    /// No rows. It takes no memory.
    pub(crate) fn none(alloc: Global) -> Self
        ensures { result ≡ [] }
    {
        Rest {
            rows: Vec::new(alloc),
        }
    }

    /// Takes the last owner out, and lets the rows behind it go.
    pub(crate) fn pop(&mut self) -> Option<Held<Node<K, V>>>
    where
        K: Drop,
        V: Drop,
        ensures { TakesLast result self.old self.new }
    {
        last_of(&mut self.rows)
    }

    /// Lets it go. Condition: no owner is left.
    pub(crate) fn end(self)
    where
        K: Drop,
        V: Drop,
        requires { reverse self ≡ [] }
    {
        let Rest { rows } = self;
        end_rows(rows);
    }
}

impl<K: Ord, V> Node<K, V> {
    /// The version, or none where it isn't one.
    pub fn version(&self) -> Option<&Version<K, V>>
        ensures { option_copied result ≡ version_of self.now }
    {
        match self {
            Node::Version(version) => Some(version),
            _ => None,
        }
    }

    /// The segments of a row. Condition: it is one.
    pub(crate) fn segments(&self) -> &[Arc<Segment<K, V>, Global>]
        requires { IsItem (Some self.now) }
        ensures { result.now ≡ item_segments (Some self.now) }
    {
        match self {
            Node::Row(segments) => segments,
            _ => unreachable!(),
        }
    }
}

/// Takes the last owner out of rows, and with it the rows behind it, which have none.
fn last_of<K: Ord + Drop, V: Drop>(
    rows: &mut Vec<Row<K, RowOwner<K, V>>>,
) -> Option<Held<Node<K, V>>>
    ensures told { TakesLast result (map told_of (holds_in rows.old.items)) (map told_of (holds_in rows.new.items)) }
    ensures rest { holds_in rows.old.items ≡ holds_in rows.new.items ++ option_to_list result }
    ensures all { IfNone result (rows.new.items ≡ []) }
{
    'popping: while let Some(row) = rows.pop() {
        match row.into_owners() {
            RowOwner::Item(owner) => return Some(owner),
            RowOwner::Own(_) => {}
        }
    }
    None
}

/// Lets rows go. Condition: they have no owner.
fn end_rows<K: Ord + Drop, V: Drop>(mut rows: Vec<Row<K, RowOwner<K, V>>>)
    requires { holds_in rows.items ≡ [] }
{
    match last_of(&mut rows) {
        None => rows.destroy_empty(),
        Some(_) => unreachable!(),
    }
}
