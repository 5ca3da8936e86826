//! The parts of a version in rows: rows of the older version that are taken over whole, and new ones.

ghost use Rattle.std.specs.Prelude.{◌≡◌, ◌≤◌, length, IfOk};
ghost use Rattle.std.specs.List.{All};
ghost use Rattle.leaf_array.specs.Values.{ClonesAreSame};
ghost use Rattle.version_views.specs.Rows.{CutsInRows, IsRowed};
ghost use Rattle.version_drafts.specs.Parts.{LiesWithin, blocks_of_parts, made_in, makes, part_blocks};
ghost use Rattle.version_drafts.specs.Shelves.{IsShelving, LiesOn, TakesMore, made_on_all, shelf_blocks, shelved_blocks};

use crate::segments::{Part, Segments};
use crate::shelving::{Shelving, put_made, put_stretch};
use std::alloc::{AllocError, Global};
use version_views::{Directory, Trees, VersionView};

/// The segments of a row of a version that is being built.
#[derive(Drop)]
pub enum Shelf<K: Ord, V> {
    /// Those of a row of the older version, which is taken over whole.
    Older {
        /// Which row it is.
        row: usize,
        /// The place of its first segment.
        from: usize,
        /// The place behind its last one.
        upto: usize,
    },
    /// New segments, and stretches of the older version, each of which lies in one row of it.
    New(Vec<Part<K, V>>),
}

/// The parts of a version in rows of 1 to 480 segments, and rows of the older version, whose directory is `rows`. Such a row is
/// taken over whole, with its keys, where all of it is; but where it comes behind a few segments of a new row, these would be too
/// few for a row, so its segments are taken over one by one. Fails only if an allocation fails.
pub(crate) fn shelved<K: Clone + Ord + Drop, V: Drop, W: Trees<K, V>>(
    alloc: Global,
    number: u64,
    old: &VersionView<'_, K, V, W>,
    rows: &Directory<K, W::Owners>,
    segments: Segments<K, V>,
) -> Result<Directory<K, Shelf<K, V>>, AllocError>
    requires keys { ClonesAreSame K.is_clone }
    requires rows { CutsInRows old.now rows.now }
    requires within { All (LiesWithin (length old.now)) segments.parts.items }
    requires some { All (λ b. 1 ≤ length b) (blocks_of_parts old.now segments.parts.items) }
    ensures number { IfOk result (λ made. made.number ≡ number) }
    ensures length { IfOk result (λ made. made.length ≡ segments.length) }
    ensures given { IfOk result (λ made. shelved_blocks old.now made.rows.items ≡ blocks_of_parts old.now segments.parts.items) }
    ensures made { IfOk result (λ made. made_on_all made.rows.items ≡ made_in segments.parts.items) }
    ensures rowed { IfOk result (λ made. IsRowed (shelf_blocks old.now) made) }
    ensures there { IfOk result (λ made. All (λ r. LiesOn rows.now.ends.items r.segments) made.rows.items) }
{
    let Segments { parts, length } = segments;
    let count = old.segment_count().saturating_add(parts.len());
    // a row may become two
    let mut out = Shelving::with_room(alloc, count, rows.row_count().saturating_add(1))?;
    let mut near = 0;
    for part in parts {
        put_part(&mut out, old, rows, part, &mut near)?;
    }
    out.into_directory(number, length)
}

/// Takes a part. `near` is a row of the stretch before, where this one is looked for first.
fn put_part<K: Clone + Ord + Drop, V: Drop, W: Trees<K, V>>(
    out: &mut Shelving<K, V>,
    old: &VersionView<'_, K, V, W>,
    rows: &Directory<K, W::Owners>,
    part: Part<K, V>,
    near: &mut usize,
) -> Result<(), AllocError>
    requires keys { ClonesAreSame K.is_clone }
    requires rows { CutsInRows old.now rows.now }
    requires within { LiesWithin (length old.now) part }
    requires some { All (λ b. 1 ≤ length b) (part_blocks old.now part) }
    requires whole { IsShelving old.now rows.now.ends.items out.old }
    ensures { IfOk result (λ _. TakesMore old.now rows.now.ends.items (part_blocks old.now part) (makes part) out.old out.new) }
{
    match part {
        Part::Made(tree) => put_made(out, tree),
        Part::Taken { from, upto } => put_stretch(out, old, rows, from, upto, near),
    }
}
