//! An owner of each row of a version to be placed, for the version to hold, and what is to be kept of the row.

ghost use Rattle.std.specs.Prelude.{◌≡◌, ◌≤◌, ◌+◌, [], IfSome, IfNone, length, map, reverse, vec_capacity};
ghost use Rattle.std.specs.List.{All};
ghost use Rattle.sdd_domain.specs.CellSteps.{StepsOnNoCell};
ghost use Rattle.sdd_domain.specs.Tokens.{place_of, home_of, hand_of, misses_of};
ghost use Rattle.shared_versions.specs.Drafts.{planned_placed};
ghost use Rattle.shared_versions.specs.Nodes.{segment_pairs};
ghost use Rattle.shared_versions.specs.Placing.{IsGrantedIn, IsKeptRow, IsRowOf, IsStill, IsStillButMisses, IsThere, IsToKeep, blocks_kept, blocks_owned, blocks_to_keep, granted_face, moved_from, planned_face, row_face, taken_from};

use crate::keeping::{ToKeep, release_new};
use crate::kept::{WriterOwner, clone_at};
use crate::node::{Node, RowSegments};
use crate::owners::{let_go, place_two};
use crate::planned::Planned;
use sdd_domain::domain::Domain;
use sdd_domain::holds::Holds;
use sdd_domain::local::Local;
use sdd_domain::shared::Shared;
use std::alloc::Global;
use std::sync::Arc;
use version_views::{Row, Segment};

/// How a version that is being placed gets the segments of a row: by an owner of an item, or to have them itself.
pub(crate) enum Granted<K: Ord, V> {
    Item(Shared<Node<K, V>>),
    Own(Arc<Vec<Arc<Segment<K, V>, Global>>, Global>),
}

/// Places a new row, and gives two owners of it. Where it is refused, which is a miss, nothing is in use that wasn't before.
fn place_row<K: Ord + Drop, V: Drop>(
    domain: &Domain<Node<K, V>>,
    segments: RowSegments<K, V>,
    local: &mut Local<Node<K, V>>,
) -> Option<(Shared<Node<K, V>>, Shared<Node<K, V>>)>
    requires home { home_of local.old ≡ place_of domain.now }
    requires hand { hand_of local.old ≡ [] }
    ensures both { IfSome result (λ both. IsRowOf (place_of domain.now).0 both.0 × IsRowOf (place_of domain.now).0 both.1) }
    ensures blocks { IfSome result (λ both. (blocks_owned both.0 ≡ map segment_pairs segments.items) × (blocks_owned both.1 ≡ map segment_pairs segments.items)) }
    ensures hand { hand_of local.new ≡ [] }
    ensures hit { IfSome result (λ _. misses_of local.new ≡ misses_of local.old) }
    ensures missed { IfNone result (misses_of local.new ≡ misses_of local.old + 1) }
    ensures same { IsStillButMisses local.old local.new }
    ensures cells { StepsOnNoCell local.old local.new }
{
    match place_two(domain, Node::Row(segments), local) {
        Ok(both) => Some(both),
        Err(Some(node)) => {
            node.end();
            None
        }
        Err(None) => None,
    }
}

/// An owner of one row, and what is to be kept of it: a new one is placed; one that is taken over stays where it is kept. None
/// where it is refused, which is a miss.
fn grant<K: Ord + Drop, V: Drop>(
    domain: &Domain<Node<K, V>>,
    row: Planned<K, V>,
    kept: &mut Vec<WriterOwner<K, V>>,
    local: &mut Local<Node<K, V>>,
) -> Option<(Granted<K, V>, ToKeep<K, V>)>
    requires home { home_of local.old ≡ place_of domain.now }
    requires hand { hand_of local.old ≡ [] }
    requires there { IsThere (map blocks_kept kept.old.items) row }
    requires kept { All (IsKeptRow (place_of domain.now).0) kept.old.items }
    ensures owner { IfSome result (λ both. IsGrantedIn (place_of domain.now).0 both.0) }
    ensures to_keep { IfSome result (λ both. IsToKeep (place_of domain.now).0 (length kept.old.items) both.1) }
    ensures face { IfSome result (λ both. granted_face both.0 ≡ planned_face (map blocks_kept kept.old.items) row) }
    ensures blocks { IfSome result (λ both. blocks_to_keep (map blocks_kept kept.old.items) both.1 ≡ planned_placed (map blocks_kept kept.old.items) row) }
    ensures from { IfSome result (λ both. moved_from both.1 ≡ taken_from row) }
    ensures kept { All (IsKeptRow (place_of domain.now).0) kept.new.items }
    ensures still { map blocks_kept kept.new.items ≡ map blocks_kept kept.old.items }
    ensures hand { hand_of local.new ≡ [] }
    ensures hit { IfSome result (λ _. misses_of local.new ≡ misses_of local.old) }
    ensures missed { IfNone result (misses_of local.new ≡ misses_of local.old + 1) }
    ensures same { IsStillButMisses local.old local.new }
    ensures cells { StepsOnNoCell local.old local.new }
{
    match row {
        Planned::Older(number) => match clone_at(domain, kept, number, local) {
            Some(owner) => Some((Granted::Item(owner), ToKeep::Old(number))),
            None => None,
        },
        Planned::New(segments) => match place_row(domain, segments, local) {
            Some((owner, other)) => Some((Granted::Item(owner), ToKeep::New(other))),
            None => None,
        },
        Planned::Own(segments) => Some((Granted::Own(segments), ToKeep::Nothing)),
    }
}

/// An owner of each row, and what is to be kept of it, from the last one on, in the room for them. Where one is refused, which is
/// a miss and the end of the call, nothing is in use that wasn't before, but what waits to be reclaimed.
pub(crate) fn grant_all<K: Ord + Drop, V: Drop>(
    domain: &Domain<Node<K, V>>,
    mut planned: Vec<Row<K, Planned<K, V>>>,
    mut granted: Vec<Row<K, Granted<K, V>>>,
    mut to_keep: Vec<ToKeep<K, V>>,
    kept: &mut Vec<WriterOwner<K, V>>,
    local: &mut Local<Node<K, V>>,
) -> Option<(Vec<Row<K, Granted<K, V>>>, Vec<ToKeep<K, V>>)>
    requires home { home_of local.old ≡ place_of domain.now }
    requires hand { hand_of local.old ≡ [] }
    requires there { All (λ r. IsThere (map blocks_kept kept.old.items) r.segments) planned.items }
    requires kept { All (IsKeptRow (place_of domain.now).0) kept.old.items }
    requires none { (granted.items ≡ []) × (to_keep.items ≡ []) }
    requires room { (length planned.items ≤ vec_capacity granted) × (length planned.items ≤ vec_capacity to_keep) }
    ensures owners { IfSome result (λ all. All (λ r. IsGrantedIn (place_of domain.now).0 r.segments) all.0.items) }
    ensures to_keep { IfSome result (λ all. All (IsToKeep (place_of domain.now).0 (length kept.old.items)) all.1.items) }
    ensures faces { IfSome result (λ all. reverse (map (row_face granted_face) all.0.items) ≡ map (row_face (planned_face (map blocks_kept kept.old.items))) planned.items) }
    ensures blocks { IfSome result (λ all. reverse (map (blocks_to_keep (map blocks_kept kept.old.items)) all.1.items) ≡ map (λ r. planned_placed (map blocks_kept kept.old.items) r.segments) planned.items) }
    ensures from { IfSome result (λ all. reverse (map moved_from all.1.items) ≡ map (λ r. taken_from r.segments) planned.items) }
    ensures kept { All (IsKeptRow (place_of domain.now).0) kept.new.items }
    ensures still { map blocks_kept kept.new.items ≡ map blocks_kept kept.old.items }
    ensures hand { hand_of local.new ≡ [] }
    ensures hit { IfSome result (λ _. misses_of local.new ≡ misses_of local.old) }
    ensures missed { IfNone result (misses_of local.new ≡ misses_of local.old + 1) }
    ensures same { IsStillButMisses local.old local.new }
    ensures cells { StepsOnNoCell local.old local.new }
{
    'granting: while let Some(row) = planned.pop() {
        let (segments, keys) = row.into_parts();
        match grant(domain, segments, kept, local) {
            Some((owner, kept_so)) => {
                granted.push_reserved(Row::new(owner, keys));
                to_keep.push_reserved(kept_so);
            }
            None => {
                release_all(domain, granted, local);
                release_new(domain, to_keep, local);
                return None;
            }
        }
    }
    Some((granted, to_keep))
}

/// Releases the owners of rows.
fn release_all<K: Ord + Drop, V: Drop>(
    domain: &Domain<Node<K, V>>,
    mut granted: Vec<Row<K, Granted<K, V>>>,
    local: &mut Local<Node<K, V>>,
)
    requires home { home_of local.old ≡ place_of domain.now }
    requires owners { All (λ r. IsGrantedIn (place_of domain.now).0 r.segments) granted.items }
    ensures hand { hand_of local.new ≡ hand_of local.old }
    ensures same { IsStill local.old local.new }
    ensures cells { StepsOnNoCell local.old local.new }
{
    'releasing: while let Some(row) = granted.pop() {
        match row.into_owners() {
            Granted::Item(owner) => let_go(domain, owner, local),
            Granted::Own(_) => {}
        }
    }
    granted.destroy_empty();
}
