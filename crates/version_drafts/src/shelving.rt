//! Rows that are being built: those that are closed, and the parts of an open one.
//!
//! A row of the older version is taken over whole, with its keys, where no write touches one of its segments. Rows side by side
//! are taken by one loop, which has room for all. Of a row that is touched, the other segments go into the open row, in pieces of
//! at most half a row, and their keys are cloned. The open row is closed where a whole row comes behind it, and where it would be
//! too long with what comes next. With fewer segments than a quarter of a row it stays open, and a whole row behind it is taken
//! piece by piece. So rows don't become ever shorter.

ghost use Rattle.std.specs.Prelude.{◌≡◌, ◌≤◌, ◌<◌, ◌+◌, ◌-◌, ◌∷◌, ◌++◌, [], ℕ, IsTrue, List, Some, length, map, IfOk, OnOk};
ghost use Rattle.leaf_array.specs.Values.{ClonesAreSame};
ghost use Rattle.version_views.specs.Cuts.{greatest_key, pairs_in};
ghost use Rattle.version_views.specs.Rows.{CutsInRows, between, end_of, row_part, start_of};
ghost use Rattle.version_drafts.specs.Cutting.{OfBlock};
ghost use Rattle.version_drafts.specs.Shelves.{BeginsRow, ClosesRow, HasRoom, IsShelved, IsShelving, IsWholeRow, LiesInRow, TakesMore, TakesRows};

use crate::segments::Part;
use crate::shelves::Shelf;
use std::alloc::{AllocError, Global};
use std::mem;
use std::sync::Arc;
use tree_index::TreeIndex;
use version_views::{Directory, Row, Segment, Trees, VersionView, greatest};

/// How many segments a new row has at most: in a short list, and in a long one.
const LEAST: usize = 32;

const MOST: usize = 480;

/// By how much one such limit is above the next lower one.
const STEP: usize = 16;

/// How many times the root of the number of segments such a limit is.
const ROOTS: usize = 3;

/// Rows that are closed, and the parts of an open one.
#[derive(Drop)]
pub(crate) struct Shelving<K: Ord, V> {
    pub(crate) alloc: Global,
    // how many segments a new row has at most
    pub(crate) size: usize,
    pub(crate) rows: Vec<Row<K, Shelf<K, V>>>,
    // the greatest key of each row
    pub(crate) greatest: Vec<K>,
    // how many segments there are up to the end of each row, and of the last one
    pub(crate) ends: Vec<usize>,
    pub(crate) count: usize,
    pub(crate) parts: Vec<Part<K, V>>,
    // the greatest key of each segment of the open row
    pub(crate) keys: Vec<K>,
}

impl<K: Ord, V> Shelving<K, V> {
    /// No row of a version of about so many segments, with room for so many rows. Fails only if an allocation fails.
    pub(crate) fn with_room(alloc: Global, segments: usize, rows: usize) -> Result<Self, AllocError>
    where
        K: Drop,
        V: Drop,
        ensures rows { IfOk result (λ c. c.rows.items ≡ []) }
        ensures greatest { IfOk result (λ c. c.greatest.items ≡ []) }
        ensures ends { IfOk result (λ c. c.ends.items ≡ []) }
        ensures count { IfOk result (λ c. c.count ≡ 0) }
        ensures parts { IfOk result (λ c. c.parts.items ≡ []) }
        ensures keys { IfOk result (λ c. c.keys.items ≡ []) }
    {
        Ok(Shelving {
            alloc,
            size: row_limit(segments),
            rows: Vec::with_capacity(alloc, rows)?,
            greatest: Vec::with_capacity(alloc, rows)?,
            ends: Vec::with_capacity(alloc, rows)?,
            count: 0,
            parts: Vec::new(alloc),
            keys: Vec::new(alloc),
        })
    }

    /// The directory of all rows, under a number. Fails only if an allocation fails.
    pub(crate) fn into_directory(
        self,
        number: u64,
        length: usize,
    ) -> Result<Directory<K, Shelf<K, V>>, AllocError>
    where
        K: Drop,
        V: Drop,
        ensures number { IfOk result (λ made. made.number ≡ number) }
        ensures length { IfOk result (λ made. made.length ≡ length) }
        ensures whole { IfOk result (λ made. (blocks : List (List (K × V))) (ends : List ℕ) → IsShelving blocks ends self → IsShelved blocks ends self made) }
    {
        let mut out = self;
        close(&mut out)?;
        let Shelving {
            alloc: _,
            size: _,
            rows,
            mut greatest,
            ends,
            count: _,
            parts: _,
            keys: _,
        } = out;
        let _last = greatest.pop();
        Ok(Directory::new(number, length, rows, greatest, ends))
    }
}

/// Takes a new segment.
pub(crate) fn put_made<K: Clone + Ord + Drop, V: Drop>(
    out: &mut Shelving<K, V>,
    tree: Segment<K, V>,
) -> Result<(), AllocError>
    requires keys { ClonesAreSame K.is_clone }
    requires some { 1 ≤ length tree.pairs }
    ensures { OnOk result ((blocks : List (List (K × V))) (ends : List ℕ) → IsShelving blocks ends out.old → TakesMore blocks ends (tree.pairs ∷ []) 1 out.old out.new) }
{
    make_room(out, 1)?;
    let key = key_of(tree.tree())?;
    out.parts.push(Part::Made(tree))?;
    out.keys.push(key)?;
    Ok(())
}

/// Takes the segments of the older version from one place up to another. `near` is the row of the last one that was taken singly,
/// where the first one is looked for.
pub(crate) fn put_stretch<K: Clone + Ord + Drop, V: Drop, W: Trees<K, V>>(
    out: &mut Shelving<K, V>,
    old: &VersionView<'_, K, V, W>,
    rows: &Directory<K, W::Owners>,
    from: usize,
    upto: usize,
    near: &mut usize,
) -> Result<(), AllocError>
    requires keys { ClonesAreSame K.is_clone }
    requires rows { CutsInRows old.now rows.now }
    requires some { from < upto }
    requires within { upto ≤ length old.now }
    requires whole { IsShelving old.now rows.now.ends.items out.old }
    ensures { OnOk result (TakesMore old.now rows.now.ends.items (between from upto old.now) 0 out.old out.new) }
{
    let mut row = rows.spot_near(from, *near).row;
    let mut at = from;
    while at < upto {
        if takes_whole(out, rows, row, at, upto) {
            row = put_rows(out, old, rows, row, upto)?;
            at = rows.start_of(row);
        } else {
            let end = end_in(rows, row, upto);
            put_pieces(out, old, rows, row, at, end)?;
            at = end;
            *near = row;
            row += 1;
        }
    }
    Ok(())
}

/// Where the part of a stretch ends that lies in a row.
fn end_in<K, R>(rows: &Directory<K, R>, row: usize, upto: usize) -> usize
    requires { row < length rows.now.ends.items }
    ensures within { result ≤ upto }
    ensures stops { result ≤ end_of rows.now.ends.items row }
    ensures all { result < upto → result ≡ end_of rows.now.ends.items row }
    ensures some { (place : ℕ) → place < upto → place < end_of rows.now.ends.items row → place < result }
{
    let end = rows.ends()[row];
    if end < upto { end } else { upto }
}

/// Whether a stretch begins with a row of the older version that is taken over whole: all of it is there, and the open row has
/// enough segments or none.
fn takes_whole<K: Ord, V, R>(
    out: &Shelving<K, V>,
    rows: &Directory<K, R>,
    row: usize,
    from: usize,
    upto: usize,
) -> bool
    requires { row < length rows.now.ends.items }
    ensures { IsTrue result → BeginsRow rows.now.ends.items row from upto }
{
    takes_row(out) && is_whole(rows, row, from, upto)
}

/// Whether a stretch begins with a whole row of the older version.
fn is_whole<K, R>(rows: &Directory<K, R>, row: usize, from: usize, upto: usize) -> bool
    requires { row < length rows.now.ends.items }
    ensures { IsTrue result → BeginsRow rows.now.ends.items row from upto }
{
    from == rows.start_of(row) && rows.ends()[row] <= upto
}

/// Whether the open row can be closed where a row comes behind it: it has enough segments, or none.
fn takes_row<K: Ord, V>(out: &Shelving<K, V>) -> bool {
    out.keys.is_empty() || out.keys.len() >= row_size(out) / 4
}

/// Takes rows of the older version over whole, from one on, as far as they end by a place. Answers which row comes behind them.
#[inline(never)]
fn put_rows<K: Clone + Ord + Drop, V: Drop, W: Trees<K, V>>(
    out: &mut Shelving<K, V>,
    old: &VersionView<'_, K, V, W>,
    rows: &Directory<K, W::Owners>,
    first: usize,
    upto: usize,
) -> Result<usize, AllocError>
    requires keys { ClonesAreSame K.is_clone }
    requires rows { CutsInRows old.now rows.now }
    requires inside { first < length rows.now.ends.items }
    requires some { end_of rows.now.ends.items first ≤ upto }
    requires whole { IsShelving old.now rows.now.ends.items out.old }
    ensures { IfOk result (λ next. TakesRows old.now rows.now.ends.items first next upto out.old out.new) }
{
    close(out)?;
    let ends = rows.ends();
    reserve_rows(out, ends.len() - first)?;
    let mut row = first;
    let mut at = rows.start_of(first);
    while row < ends.len() && ends[row] <= upto {
        let end = ends[row];
        put_row(out, old, rows, row, at, end)?;
        at = end;
        row += 1;
    }
    Ok(row)
}

/// Makes room for so many rows more.
fn reserve_rows<K: Ord, V>(out: &mut Shelving<K, V>, more: usize) -> Result<(), AllocError>
    ensures same { OnOk result ((blocks : List (List (K × V))) (ends : List ℕ) → IsShelving blocks ends out.old → TakesMore blocks ends [] 0 out.old out.new) }
    ensures keys { OnOk result (out.new.keys.items ≡ out.old.keys.items) }
    ensures room { OnOk result (HasRoom more out.new) }
{
    out.rows.reserve(more)?;
    out.greatest.reserve(more)?;
    out.ends.reserve(more)
}

/// Takes a row of the older version over whole, where no row is open. Condition: there is room for it.
fn put_row<K: Clone + Ord + Drop, V: Drop, W: Trees<K, V>>(
    out: &mut Shelving<K, V>,
    old: &VersionView<'_, K, V, W>,
    rows: &Directory<K, W::Owners>,
    row: usize,
    from: usize,
    upto: usize,
) -> Result<(), AllocError>
    requires keys { ClonesAreSame K.is_clone }
    requires rows { CutsInRows old.now rows.now }
    requires is { IsWholeRow rows.now.ends.items row from upto }
    requires none { out.old.keys.items ≡ [] }
    requires room { HasRoom 1 out.old }
    requires whole { IsShelving old.now rows.now.ends.items out.old }
    ensures taken { OnOk result (TakesMore old.now rows.now.ends.items (between from upto old.now) 0 out.old out.new) }
    ensures none { OnOk result (out.new.keys.items ≡ []) }
    ensures room { (more : ℕ) → HasRoom (more + 1) out.old → OnOk result (HasRoom more out.new) }
{
    let Some(count) = out.count.checked_add(upto - from) else {
        return Err(AllocError);
    };
    let last = key_of_row(old, rows, row)?;
    let keys = rows.rows()[row].shared_keys()?;
    let segments = Shelf::Older { row, from, upto };
    out.rows.push_reserved(Row::new(segments, keys));
    out.greatest.push_reserved(last);
    out.ends.push_reserved(count);
    out.count = count;
    Ok(())
}

/// Takes segments of one row of the older version by pieces, each of at most half as many as a new row has.
fn put_pieces<K: Clone + Ord + Drop, V: Drop, W: Trees<K, V>>(
    out: &mut Shelving<K, V>,
    old: &VersionView<'_, K, V, W>,
    rows: &Directory<K, W::Owners>,
    row: usize,
    from: usize,
    upto: usize,
) -> Result<(), AllocError>
    requires keys { ClonesAreSame K.is_clone }
    requires rows { CutsInRows old.now rows.now }
    requires inside { row < length rows.now.ends.items }
    requires begins { start_of rows.now.ends.items row ≤ from }
    requires some { from < upto }
    requires stops { upto ≤ end_of rows.now.ends.items row }
    ensures { OnOk result ((ends : List ℕ) → LiesInRow ends from upto → IsShelving old.now ends out.old → TakesMore old.now ends (between from upto old.now) 0 out.old out.new) }
{
    let mut at = from;
    while at < upto {
        let end = piece_end(at, upto, row_size(out) / 2);
        make_room(out, end - at)?;
        put_piece(out, old, rows, row, at, end)?;
        at = end;
    }
    Ok(())
}

/// Where a piece of so many segments ends that begins at a place of a stretch.
fn piece_end(at: usize, upto: usize, piece: usize) -> usize
    requires some { at < upto }
    requires piece { 1 ≤ piece }
    ensures some { at < result }
    ensures within { result ≤ upto }
    ensures few { result - at ≤ piece }
{
    if upto - at > piece { at + piece } else { upto }
}

/// How many segments a new row of so many in all has at most: about three times their root, but neither few nor very many. A
/// commit copies the row that it touches and counts every other row. So a short list wants short rows, and a long one fewer rows.
fn row_limit(segments: usize) -> usize {
    let mut size = LEAST;
    while size <= MOST - STEP && (size / ROOTS).saturating_mul(size / ROOTS) < segments {
        size += STEP;
    }
    size
}

/// How many segments a new row has at most.
fn row_size<K: Ord, V>(out: &Shelving<K, V>) -> usize
    ensures least { 32 ≤ result }
    ensures most { result ≤ 480 }
{
    out.size.clamp(LEAST, MOST)
}

/// Takes segments of one row of the older version into the open row. Condition: there is room for them.
fn put_piece<K: Clone + Ord + Drop, V: Drop, W: Trees<K, V>>(
    out: &mut Shelving<K, V>,
    old: &VersionView<'_, K, V, W>,
    rows: &Directory<K, W::Owners>,
    row: usize,
    from: usize,
    upto: usize,
) -> Result<(), AllocError>
    requires keys { ClonesAreSame K.is_clone }
    requires rows { CutsInRows old.now rows.now }
    requires inside { row < length rows.now.ends.items }
    requires begins { start_of rows.now.ends.items row ≤ from }
    requires some { from < upto }
    requires stops { upto ≤ end_of rows.now.ends.items row }
    requires room { length out.old.keys.items + (upto - from) ≤ 480 }
    ensures { OnOk result ((ends : List ℕ) → LiesInRow ends from upto → IsShelving old.now ends out.old → TakesMore old.now ends (between from upto old.now) 0 out.old out.new) }
{
    out.parts.push(Part::Taken { from, upto })?;
    copy_keys(&mut out.keys, old, rows, row, from, upto)
}

/// Puts clones of the greatest keys of the older segments from one place of a row up to another behind keys: a slice of the row's
/// keys, and the key of the last segment.
fn copy_keys<K: Clone + Ord + Drop, V, W: Trees<K, V>>(
    keys: &mut Vec<K>,
    old: &VersionView<'_, K, V, W>,
    rows: &Directory<K, W::Owners>,
    row: usize,
    from: usize,
    upto: usize,
) -> Result<(), AllocError>
    requires keys { ClonesAreSame K.is_clone }
    requires rows { CutsInRows old.now rows.now }
    requires inside { row < length rows.now.ends.items }
    requires begins { start_of rows.now.ends.items row ≤ from }
    requires some { from < upto }
    requires stops { upto ≤ end_of rows.now.ends.items row }
    ensures { OnOk result (map Some keys.new.items ≡ map Some keys.old.items ++ map greatest_key (between from upto old.now)) }
{
    let first = rows.start_of(row);
    let last = key_at(old, upto - 1, row)?;
    let told = rows.rows()[row].keys();
    keys.extend_from_slice(&told[from - first..upto - 1 - first])?;
    keys.push(last)?;
    Ok(())
}

/// Makes room for so many segments in the open row, and for the keys of all that it may have.
fn make_room<K: Ord + Drop, V: Drop>(
    out: &mut Shelving<K, V>,
    more: usize,
) -> Result<(), AllocError>
    requires { more ≤ 240 }
    ensures closed { OnOk result ((blocks : List (List (K × V))) (ends : List ℕ) → IsShelving blocks ends out.old → TakesMore blocks ends [] 0 out.old out.new) }
    ensures room { OnOk result (length out.new.keys.items + more ≤ 480) }
{
    close_full(out, more)?;
    reserve_keys(out)
}

/// Closes the open row where it has enough segments, and so many more are too many for it.
fn close_full<K: Ord + Drop, V: Drop>(
    out: &mut Shelving<K, V>,
    more: usize,
) -> Result<(), AllocError>
    requires { more ≤ 240 }
    ensures closed { OnOk result ((blocks : List (List (K × V))) (ends : List ℕ) → IsShelving blocks ends out.old → TakesMore blocks ends [] 0 out.old out.new) }
    ensures room { OnOk result (length out.new.keys.items + more ≤ 480) }
{
    let size = out.keys.len();
    let most = row_size(out);
    if size < most / 4 {
        return Ok(());
    }
    if size <= most.saturating_sub(more) {
        return Ok(());
    }
    close(out)
}

/// Makes room for the keys of a whole row, where the open row has none yet.
fn reserve_keys<K: Ord, V>(out: &mut Shelving<K, V>) -> Result<(), AllocError>
    ensures same { OnOk result ((blocks : List (List (K × V))) (ends : List ℕ) → IsShelving blocks ends out.old → TakesMore blocks ends [] 0 out.old out.new) }
    ensures keys { OnOk result (out.new.keys.items ≡ out.old.keys.items) }
{
    if out.keys.is_empty() {
        let most = row_size(out);
        out.keys.reserve(most)
    } else {
        Ok(())
    }
}

/// Closes the open row, if it has a segment. All its keys but the last are those of the row, and the last one is its greatest.
fn close<K: Ord + Drop, V: Drop>(out: &mut Shelving<K, V>) -> Result<(), AllocError>
    ensures closed { OnOk result ((blocks : List (List (K × V))) (ends : List ℕ) → IsShelving blocks ends out.old → TakesMore blocks ends [] 0 out.old out.new) }
    ensures none { OnOk result (out.new.keys.items ≡ []) }
{
    let size = out.keys.len();
    let Some(last) = out.keys.pop() else {
        return Ok(());
    };
    let none = Vec::new(out.alloc);
    let keys = Arc::new(out.alloc, mem::replace(&mut out.keys, none))?;
    let none = Vec::new(out.alloc);
    let parts = mem::replace(&mut out.parts, none);
    push_row(out, Row::new(Shelf::New(parts), keys), last, size)
}

/// Puts a row of so many segments behind those that are closed, with its greatest key.
fn push_row<K: Ord + Drop, V: Drop>(
    out: &mut Shelving<K, V>,
    row: Row<K, Shelf<K, V>>,
    greatest: K,
    size: usize,
) -> Result<(), AllocError>
    ensures { OnOk result (ClosesRow row greatest size out.old out.new) }
{
    let Some(count) = out.count.checked_add(size) else {
        return Err(AllocError);
    };
    out.rows.push(row)?;
    out.greatest.push(greatest)?;
    out.ends.push(count)?;
    out.count = count;
    Ok(())
}

/// A clone of the greatest key of a row of the older version: its separator, or the key of the last segment of all.
fn key_of_row<K: Clone + Ord, V, W: Trees<K, V>>(
    old: &VersionView<'_, K, V, W>,
    rows: &Directory<K, W::Owners>,
    row: usize,
) -> Result<K, AllocError>
    requires keys { ClonesAreSame K.is_clone }
    requires rows { CutsInRows old.now rows.now }
    requires inside { row < length rows.now.ends.items }
    ensures { IfOk result (λ key. greatest_key (pairs_in (row_part rows.now.ends.items row old.now)) ≡ Some key) }
{
    match rows.separators().get(row) {
        Some(key) => key.clone(),
        None => key_at(old, rows.ends()[row] - 1, row),
    }
}

/// A clone of the greatest key of the segment of the older version at a place, which is looked for in a row first. Condition: there
/// is one.
fn key_at<K: Clone + Ord, V, W: Trees<K, V>>(
    old: &VersionView<'_, K, V, W>,
    place: usize,
    near: usize,
) -> Result<K, AllocError>
    requires keys { ClonesAreSame K.is_clone }
    requires within { place < length old.now }
    ensures { IfOk result (λ key. OfBlock old.now place (λ b. greatest_key b ≡ Some key)) }
{
    old.laws();
    match old.greatest_near(place, near) {
        Some(key) => key.clone(),
        None => unreachable!(),
    }
}

/// A clone of the greatest key of a tree. Condition: it has a pair.
fn key_of<K: Clone + Ord, V>(tree: &TreeIndex<K, V>) -> Result<K, AllocError>
    requires keys { ClonesAreSame K.is_clone }
    requires some { 1 ≤ length tree.now.pairs }
    ensures { IfOk result (λ key. greatest_key tree.now.pairs ≡ Some key) }
{
    match greatest(tree) {
        Some(key) => key.clone(),
        None => unreachable!(),
    }
}
