//! The rows of a version that isn't placed yet, made of the parts that writes leave.

ghost use Rattle.std.specs.Prelude.{◌≡◌, ◌≤◌, ◌<◌, ◌++◌, Some, length, map, slice_get, IfOk, IsFalse, IsTrue, OnOk};
ghost use Rattle.std.specs.List.{All};
ghost use Rattle.version_drafts.specs.Parts.{between, blocks_of_parts, made_in};
ghost use Rattle.version_drafts.specs.Shelves.{LiesInRow, LiesInside, LiesOn, made_on, made_on_all, shelf_blocks};
ghost use Rattle.version_views.specs.Items.{row_keys};
ghost use Rattle.version_views.specs.declared.row.Row.{Row};
ghost use Rattle.shared_versions.specs.Drafts.{planned_blocks, slots_on, slots_on_all};
ghost use Rattle.shared_versions.specs.Nodes.{IsReadable, OwnsRow, blocks_of, own_segments, row_blocks, rows_of, segment_pairs};
ghost use Rattle.shared_versions.specs.declared.node.RowOwner.{RowOwner};

use crate::lending::segments_of;
use crate::node::{OwnRow, RowOwner, RowSegments};
use std::alloc::{AllocError, Global};
use std::sync::Arc;
use version_drafts::draft::{Part, count_of};
use version_drafts::shelves::Shelf;
use version_views::{Directory, Row, Segment};

/// How a version to be placed has the segments of a row.
#[derive(Drop)]
pub enum Planned<K: Ord, V> {
    /// As the older version does, whose row of this number is an item.
    Older(usize),
    /// By an item that is yet to be placed: one of its segments is new.
    New(Vec<Arc<Segment<K, V>, Global>>),
    /// By itself, without a slot: each of its segments is in an older row.
    Own(Arc<Vec<Arc<Segment<K, V>, Global>>, Global>),
}

/// The rows that are planned of these, and how many of them are to be placed as items. Fails only if an allocation fails.
pub(crate) fn planned_rows<K: Ord + Drop, V: Drop>(
    alloc: Global,
    old: &Directory<K, RowOwner<K, V>>,
    own: &[OwnRow<K, V>],
    shelves: Vec<Row<K, Shelf<K, V>>>,
) -> Result<(Vec<Row<K, Planned<K, V>>>, usize), AllocError>
    requires whole { IsReadable (own_segments own.now) old.now }
    requires lies { All (λ r. LiesOn old.now.ends.items r.segments) shelves.items }
    ensures blocks { IfOk result (λ made. map (λ r. planned_blocks (rows_of old.now) r.segments) made.0.items ≡ map (λ r. shelf_blocks (blocks_of (own_segments own.now) old.now) r.segments) shelves.items) }
    ensures keys { IfOk result (λ made. map row_keys made.0.items ≡ map row_keys shelves.items) }
    ensures slots { IfOk result (λ made. made.1 ≡ slots_on_all made.0.items) }
    ensures few { IfOk result (λ made. made.1 ≤ made_on_all shelves.items) }
{
    let mut rows = Vec::with_capacity(alloc, shelves.len())?;
    let mut slots = 0usize;
    for row in shelves {
        let (shelf, keys) = row.into_parts();
        let (segments, taken) = planned_row(alloc, old, own, shelf)?;
        rows.push(Row::new(segments, keys))?;
        let Some(more) = slots.checked_add(taken) else {
            return Err(AllocError);
        };
        slots = more;
    }
    Ok((rows, slots))
}

/// A row that is planned, and how many slots it takes: one where it is to be placed as an item, since it has a new segment.
fn planned_row<K: Ord + Drop, V: Drop>(
    alloc: Global,
    old: &Directory<K, RowOwner<K, V>>,
    own: &[OwnRow<K, V>],
    shelf: Shelf<K, V>,
) -> Result<(Planned<K, V>, usize), AllocError>
    requires whole { IsReadable (own_segments own.now) old.now }
    requires lies { LiesOn old.now.ends.items shelf }
    ensures blocks { IfOk result (λ made. planned_blocks (rows_of old.now) made.0 ≡ shelf_blocks (blocks_of (own_segments own.now) old.now) shelf) }
    ensures slots { IfOk result (λ made. made.1 ≡ slots_on made.0) }
    ensures few { IfOk result (λ made. made.1 ≤ made_on shelf) }
    ensures some { IfOk result (λ made. 1 ≤ made_on shelf → made.1 ≡ 1) }
{
    match shelf {
        Shelf::Older {
            row,
            from: _,
            upto: _,
        } => Ok((older_row(old, own, row)?, 0)),
        Shelf::New(parts) => {
            let (segments, new) = gathered(alloc, old, own, parts)?;
            if new {
                Ok((Planned::New(segments), 1))
            } else {
                Ok((Planned::Own(Arc::new(alloc, segments)?), 0))
            }
        }
    }
}

/// A row of the older version, taken over whole. Fails only where more than `2^62` versions share it.
fn older_row<K: Ord, V>(
    old: &Directory<K, RowOwner<K, V>>,
    own: &[OwnRow<K, V>],
    row: usize,
) -> Result<Planned<K, V>, AllocError>
    requires inside { row < length old.now.rows.items }
    requires owned { All (λ r. OwnsRow (own_segments own.now) r.segments) old.now.rows.items }
    ensures blocks { IfOk result (λ made. (r : Row K (RowOwner K V)) → slice_get old.now.rows.items row ≡ Some r → planned_blocks (rows_of old.now) made ≡ row_blocks (own_segments own.now) r.segments) }
    ensures slots { IfOk result (λ made. slots_on made ≡ 0) }
{
    match old.rows()[row].owners() {
        RowOwner::Item(_) => Ok(Planned::Older(row)),
        RowOwner::Own(at) => Ok(Planned::Own(Arc::try_clone(&own[*at])?)),
    }
}

/// The segments of a new row, and whether one of them is new. Fails only if an allocation fails.
fn gathered<K: Ord + Drop, V: Drop>(
    alloc: Global,
    old: &Directory<K, RowOwner<K, V>>,
    own: &[OwnRow<K, V>],
    parts: Vec<Part<K, V>>,
) -> Result<(RowSegments<K, V>, bool), AllocError>
    requires whole { IsReadable (own_segments own.now) old.now }
    requires lies { All (LiesInside old.now.ends.items) parts.items }
    ensures blocks { IfOk result (λ made. map segment_pairs made.0.items ≡ blocks_of_parts (blocks_of (own_segments own.now) old.now) parts.items) }
    ensures new { IfOk result (λ made. IsTrue made.1 → 1 ≤ made_in parts.items) }
    ensures older { IfOk result (λ made. IsFalse made.1 → made_in parts.items ≡ 0) }
{
    let Some(count) = count_of(&parts) else {
        return Err(AllocError);
    };
    let mut segments = Vec::with_capacity(alloc, count)?;
    let mut new = false;
    for part in parts {
        match part {
            Part::Made(segment) => {
                segments.push(Arc::new(alloc, segment)?)?;
                new = true;
            }
            Part::Taken { from, upto } => share(&mut segments, old, own, from, upto)?,
        }
    }
    Ok((segments, new))
}

/// Shares the older version's segments from one place up to another, which lie in one of its rows. Fails only if an allocation
/// fails, or where more than `2^62` rows share one.
fn share<K: Ord + Drop, V: Drop>(
    segments: &mut RowSegments<K, V>,
    old: &Directory<K, RowOwner<K, V>>,
    own: &[OwnRow<K, V>],
    from: usize,
    upto: usize,
) -> Result<(), AllocError>
    requires whole { IsReadable (own_segments own.now) old.now }
    requires lies { LiesInRow old.now.ends.items from upto }
    ensures { OnOk result (map segment_pairs segments.new.items ≡ map segment_pairs segments.old.items ++ between from upto (blocks_of (own_segments own.now) old.now)) }
{
    let spot = old.spot_of(from);
    let row = segments_of(own, old.rows()[spot.row].owners());
    share_all(segments, &row[spot.at..spot.at + (upto - from)])
}

/// Shares these segments.
fn share_all<K: Ord + Drop, V: Drop>(
    segments: &mut RowSegments<K, V>,
    more: &[Arc<Segment<K, V>, Global>],
) -> Result<(), AllocError>
    ensures { OnOk result (map segment_pairs segments.new.items ≡ map segment_pairs segments.old.items ++ map segment_pairs more.now) }
{
    segments.reserve(more.len())?;
    for one in more {
        segments.push_reserved(Arc::try_clone(one)?);
    }
    Ok(())
}
