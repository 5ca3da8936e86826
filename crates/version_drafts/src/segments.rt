//! Lists of pairs cut into segments, some of which are taken over from an older version.

ghost use Rattle.std.specs.Prelude.{◌≡◌, ◌≤◌, ◌<◌, ◌+◌, ◌-◌, ◌++◌, ◌∷◌, [], Some, None, List, ℕ, length, map, option_copied, slice_get, IfOk, IfSome, OnOk, ◌^◌, IfNone};
ghost use Rattle.leaf_array.specs.Pairs.{IsAscending};
ghost use Rattle.leaf_array.specs.Values.{ClonesAreSame};
ghost use Rattle.version_views.specs.Cuts.{IsCut, IsSeparated, greatest_key, pairs_in, separators_of};
ghost use Rattle.version_drafts.specs.Cutting.{CountsFrom, CountsGiven, IsClosing, IsCutting, IsSegmentRow, StaysApart, given_pairs, room_spent, trees};
ghost use Rattle.version_drafts.specs.Parts.{IsShortened, LiesWithin, between, blocks_of_parts, list_of_parts, made_in, segments_in, stretch_of};
ghost use Rattle.std.specs.List.{All};

use crate::scans::PairScan;
use std::alloc::{AllocError, Global};
use std::mem;
use tree_index::TreeIndex;
use version_views::{Segment, Trees, VersionView};

/// A part of a version that is being built: a stretch of segments of the older version, or a new segment.
#[derive(Drop)]
pub enum Part<K: Ord, V> {
    /// The segments of the older version from one place up to another, which are taken over.
    Taken {
        /// The place of the first one.
        from: usize,
        /// The place behind the last one.
        upto: usize,
    },
    /// A segment that was made for it.
    Made(Segment<K, V>),
}

/// The segments of a list, in order, by parts.
#[derive(Drop)]
pub struct Segments<K: Ord, V> {
    /// The stretches that are taken over, and the new segments.
    pub parts: Vec<Part<K, V>>,
    /// How many pairs all segments hold.
    pub length: usize,
}

/// Parts in a row.
#[derive(Drop)]
pub(crate) struct Row<K: Ord, V> {
    pub(crate) parts: Vec<Part<K, V>>,
    // how many pairs the last segment has; 0 where there is none
    pub(crate) last: usize,
}

/// How many parts are new.
pub fn made_of<K: Ord, V>(parts: &[Part<K, V>]) -> usize
    ensures count { result ≡ made_in parts.now }
    ensures few { result ≤ length parts.now }
{
    let mut made = 0;
    for part in parts {
        if let Part::Made(_) = part {
            made += 1;
        }
    }
    made
}

/// How many segments parts have; none if and only if that is more than a number can tell.
pub fn count_of<K: Ord, V>(parts: &[Part<K, V>]) -> Option<usize>
    ensures counted { IfSome result (λ n. n ≡ segments_in parts.now) }
    ensures none { IfNone result (2 ^ 64 ≤ segments_in parts.now) }
{
    let mut count = 0usize;
    for part in parts {
        let more = match part {
            Part::Taken { from, upto } => upto.saturating_sub(*from),
            Part::Made(_) => 1,
        };
        count = match count.checked_add(more) {
            Some(count) => count,
            None => return None,
        };
    }
    Some(count)
}

/// A segment of the older version: its place, the row that it lies in, and its tree. Segments beside it are found by that row
/// without a search.
#[derive(Drop)]
pub(crate) struct Here<'t, K: Ord, V> {
    pub(crate) place: usize,
    pub(crate) row: usize,
    pub(crate) tree: &'t TreeIndex<K, V>,
}

/// The pairs that were given so far, by rising keys: in segments that are done, and in a last tree that takes more.
#[derive(Drop)]
pub(crate) struct SegmentBuilder<K: Ord, V> {
    pub(crate) alloc: Global,
    pub(crate) row: Row<K, V>,
    // where the last segment of the row is one of the older version, its place there: the last one of the last stretch
    pub(crate) held: Option<usize>,
    pub(crate) tail: Segment<K, V>,
    // how many pairs were given, and how many the older segments have that are yet to come: so nothing is counted where a
    // stretch of them is taken over
    pub(crate) length: usize,
    // up to how many pairs in all are known to come, so that a tree is begun with room for them
    pub(crate) until: usize,
}

/// A builder that was given no pair, with room for the parts that changes of that many keys and ranges can leave.
pub(crate) fn begun<K: Ord + Drop, V: Drop, W: Trees<K, V>, const S: usize>(
    alloc: Global,
    old: &VersionView<'_, K, V, W>,
    named: usize,
) -> Result<SegmentBuilder<K, V>, AllocError>
    requires { (1 ≤ S) × (S ≤ 225) }
    ensures whole { IfOk result (λ out. IsCutting K.cmp S old.now out) }
    ensures empty { IfOk result (λ out. given_pairs old.now out ≡ []) }
    ensures none { IfOk result (λ out. (trees out ≡ 0) × (out.row.last ≡ 0)) }
    ensures counted { IfOk result (CountsFrom old.now 0) }
{
    let most = most_segments(old.segment_count(), named, S);
    let parts = Vec::with_capacity(alloc, most.min(most_parts(named)))?;
    Ok(SegmentBuilder {
        alloc,
        row: Row { parts, last: 0 },
        held: None,
        tail: Segment::new(alloc),
        length: old.len(),
        until: 0,
    })
}

/// How many segments of up to `s` pairs `named` changes can leave of `count`: two more for each change, and since
/// two neighbours hold more than `s` pairs, no more than all pairs together fill.
fn most_segments(count: usize, named: usize, s: usize) -> usize
    requires { s ≤ 225 }
{
    let touched = named.saturating_mul(2);
    let filled = count.saturating_mul(2).saturating_add(touched / (s + 1));
    count.saturating_add(touched).min(filled.saturating_add(2))
}

/// How many parts `named` changes leave at most: two new segments for each change, with a stretch between any two.
fn most_parts(named: usize) -> usize {
    named.saturating_mul(4).saturating_add(1)
}

/// Takes the pairs of an older segment off the count: it isn't taken over, and what is left of it is yet to come.
pub(crate) fn count_out<K: Ord, V, W: Trees<K, V>>(
    out: &mut SegmentBuilder<K, V>,
    old: &VersionView<'_, K, V, W>,
    here: &Here<'_, K, V>,
)
    requires there { Some here.now.tree.now.pairs ≡ slice_get old.now here.now.place }
    requires counted { CountsFrom old.now here.now.place out.old }
    ensures row { out.new.row ≡ out.old.row }
    ensures held { out.new.held ≡ out.old.held }
    ensures tail { out.new.tail.pairs ≡ out.old.tail.pairs }
    ensures counted { CountsFrom old.now (here.now.place + 1) out.new }
{
    let _ = old;
    out.length -= here.tree.len();
}

/// Says about how many pairs come next, so that a tree has room for them from its beginning on.
pub(crate) fn expect<K: Ord + Drop, V: Drop, const S: usize>(
    out: &mut SegmentBuilder<K, V>,
    pairs: usize,
) -> Result<(), AllocError>
    ensures row { OnOk result (out.new.row ≡ out.old.row) }
    ensures held { OnOk result (out.new.held ≡ out.old.held) }
    ensures tail { OnOk result (out.new.tail.pairs ≡ out.old.tail.pairs) }
    ensures length { OnOk result (out.new.length ≡ out.old.length) }
{
    out.until = out.length.saturating_add(pairs);
    if pairs > 0 && out.tail.is_empty() {
        out.tail = Segment::with_capacity(out.alloc, room_ahead::<K, V, S>(out))?;
    }
    Ok(())
}

/// For how many of the pairs that are known to come one tree has room.
fn room_ahead<K: Ord, V, const S: usize>(out: &SegmentBuilder<K, V>) -> usize {
    out.until.saturating_sub(out.length).min(S)
}

/// Takes a pair whose key is above all that were given. `usize::MAX` pairs are the most: one more is answered as memory.
pub(crate) fn push<K: Clone + Ord + Drop, V: Drop, W: Trees<K, V>, const S: usize>(
    out: &mut SegmentBuilder<K, V>,
    old: &VersionView<'_, K, V, W>,
    key: K,
    value: V,
) -> Result<(), AllocError>
    requires clones { ClonesAreSame K.is_clone }
    requires whole { IsCutting K.cmp S old.now out.old }
    requires rising { IsAscending K.cmp (given_pairs old.now out.old ++ (key, value) ∷ []) }
    ensures whole { OnOk result (IsCutting K.cmp S old.now out.new) }
    ensures pairs { OnOk result (given_pairs old.now out.new ≡ given_pairs old.now out.old ++ (key, value) ∷ []) }
    ensures spent { OnOk result (room_spent S out.new ≡ room_spent S out.old + 1) }
    ensures some { OnOk result (0 < length out.new.tail.pairs) }
    ensures counted { OnOk result (CountsGiven old.now out.old out.new) }
{
    let _ = old;
    let Some(length) = out.length.checked_add(1) else {
        return Err(AllocError);
    };
    if out.tail.len() < S {
        let Ok(()) = out.tail.push(key, value) else {
            return Err(AllocError);
        };
        out.length = length;
        Ok(())
    } else {
        let next = single(out.alloc, room_ahead::<K, V, S>(out), key, value)?;
        close(out, next)?;
        out.length = length;
        Ok(())
    }
}

/// Takes the segments of the older version from one place up to another over, whose keys are above all that were given. No
/// key is compared.
pub(crate) fn take_stretch<K: Clone + Ord + Drop, V: Clone + Drop, W: Trees<K, V>, const S: usize>(
    out: &mut SegmentBuilder<K, V>,
    old: &VersionView<'_, K, V, W>,
    from: usize,
    upto: usize,
) -> Result<(), AllocError>
    requires keys { ClonesAreSame K.is_clone }
    requires values { ClonesAreSame V.is_clone }
    requires old { IsCut K.cmp S old.now (separators_of old.now) }
    requires whole { IsCutting K.cmp S old.now out.old }
    requires apart { StaysApart K.cmp S old.now from out.old }
    requires some { from < upto }
    requires within { upto ≤ length old.now }
    requires rising { IsAscending K.cmp (given_pairs old.now out.old ++ pairs_in (between from upto old.now)) }
    ensures whole { OnOk result (IsCutting K.cmp S old.now out.new) }
    ensures pairs { OnOk result (given_pairs old.now out.new ≡ given_pairs old.now out.old ++ pairs_in (between from upto old.now)) }
    ensures trees { OnOk result (trees out.new ≡ trees out.old) }
    ensures last { OnOk result ((b : List (K × V)) → Some b ≡ slice_get old.now (upto - 1) → out.new.row.last ≡ length b) }
    ensures length { OnOk result (out.new.length ≡ out.old.length) }
{
    seal::<K, V, W, S>(out, old)?;
    out.row.parts.push(Part::Taken { from, upto })?;
    let last = upto - 1;
    out.row.last = old.segment(last).len();
    out.held = Some(last);
    Ok(())
}

/// The segments of all pairs that were given.
pub(crate) fn finish<K: Clone + Ord + Drop, V: Clone + Drop, W: Trees<K, V>, const S: usize>(
    mut out: SegmentBuilder<K, V>,
    old: &VersionView<'_, K, V, W>,
) -> Result<Segments<K, V>, AllocError>
    requires keys { ClonesAreSame K.is_clone }
    requires values { ClonesAreSame V.is_clone }
    requires whole { IsCutting K.cmp S old.now out }
    requires counted { out.length ≡ length (given_pairs old.now out) }
    ensures cut { IfOk result (λ made. IsCut K.cmp S (blocks_of_parts old.now made.parts.items) (separators_of (blocks_of_parts old.now made.parts.items))) }
    ensures list { IfOk result (λ made. list_of_parts old.now made.parts.items ≡ given_pairs old.now out) }
    ensures within { IfOk result (λ made. All (LiesWithin (length old.now)) made.parts.items) }
    ensures length { IfOk result (λ made. made.length ≡ length (list_of_parts old.now made.parts.items)) }
    ensures made { IfOk result (λ made. made_in made.parts.items ≡ trees out) }
{
    seal::<K, V, W, S>(&mut out, old)?;
    let SegmentBuilder {
        alloc: _,
        row,
        held: _,
        tail: _,
        length,
        until: _,
    } = out;
    let Row { parts, last: _ } = row;
    Ok(Segments { parts, length })
}

/// Ends the open tree if it has a pair, with the older segment before it where both fit into one.
fn seal<K: Clone + Ord + Drop, V: Clone + Drop, W: Trees<K, V>, const S: usize>(
    out: &mut SegmentBuilder<K, V>,
    old: &VersionView<'_, K, V, W>,
) -> Result<(), AllocError>
    requires keys { ClonesAreSame K.is_clone }
    requires values { ClonesAreSame V.is_clone }
    requires whole { IsCutting K.cmp S old.now out.old }
    ensures row { OnOk result (IsSegmentRow old.now S out.new.row) }
    ensures pairs { OnOk result (list_of_parts old.now out.new.row.parts.items ≡ given_pairs old.now out.old) }
    ensures made { OnOk result (made_in out.new.row.parts.items ≡ trees out.old) }
    ensures last { OnOk result (0 < length out.old.tail.pairs → length out.old.tail.pairs ≤ out.new.row.last) }
    ensures same { OnOk result (length out.old.tail.pairs ≡ 0 → out.new.row.last ≡ out.old.row.last) }
    ensures tail { OnOk result (out.new.tail.pairs ≡ []) }
    ensures length { OnOk result (out.new.length ≡ out.old.length) }
{
    if out.tail.is_empty() {
        return Ok(());
    }
    join::<K, V, W, S>(out, old)?;
    let next = Segment::new(out.alloc);
    close(out, next)?;
    Ok(())
}

/// Brings the older segment that is held into the open tree, where both fit into one.
fn join<K: Clone + Ord + Drop, V: Clone + Drop, W: Trees<K, V>, const S: usize>(
    out: &mut SegmentBuilder<K, V>,
    old: &VersionView<'_, K, V, W>,
) -> Result<(), AllocError>
    requires keys { ClonesAreSame K.is_clone }
    requires values { ClonesAreSame V.is_clone }
    requires whole { IsCutting K.cmp S old.now out.old }
    requires some { 0 < length out.old.tail.pairs }
    ensures closing { OnOk result (IsClosing old.now S out.new) }
    ensures pairs { OnOk result (given_pairs old.now out.new ≡ given_pairs old.now out.old) }
    ensures made { OnOk result (made_in out.new.row.parts.items ≡ made_in out.old.row.parts.items) }
    ensures tail { OnOk result (length out.old.tail.pairs ≤ length out.new.tail.pairs) }
    ensures length { OnOk result (out.new.length ≡ out.old.length) }
{
    let place = match out.held {
        None => return Ok(()),
        Some(place) => place,
    };
    if S - out.tail.len() < out.row.last {
        return Ok(());
    }
    absorb(out.alloc, &mut out.tail, old.segment(place))?;
    shorten(&mut out.row.parts, place)?;
    Ok(())
}

/// The stretch that is the last part ends before the segment at this place, which was its last one. Condition: it was.
fn shorten<K: Ord + Drop, V: Drop>(
    parts: &mut Vec<Part<K, V>>,
    place: usize,
) -> Result<(), AllocError>
    requires { (front : List (Part K V)) × (from : ℕ) × (parts.old.items ≡ front ++ Part.Taken from (place + 1) ∷ []) }
    ensures { OnOk result (IsShortened place parts.old.items parts.new.items) }
{
    match parts.pop() {
        Some(Part::Taken { from, upto: _ }) => {
            if from >= place {
                return Ok(());
            }
            parts.push(Part::Taken { from, upto: place })?;
            Ok(())
        },
        Some(Part::Made(_)) => unreachable!(),
        None => unreachable!(),
    }
}

/// Puts the open tree behind the segments that are done, and begins another one.
fn close<K: Ord + Drop, V: Drop>(
    out: &mut SegmentBuilder<K, V>,
    next: Segment<K, V>,
) -> Result<(), AllocError>
    ensures parts { OnOk result (out.new.row.parts.items ≡ out.old.row.parts.items ++ Part.Made out.old.tail ∷ []) }
    ensures last { OnOk result (out.new.row.last ≡ length out.old.tail.pairs) }
    ensures held { OnOk result (out.new.held ≡ None) }
    ensures tail { OnOk result (out.new.tail ≡ next) }
    ensures length { OnOk result (out.new.length ≡ out.old.length) }
{
    let size = out.tail.len();
    let part = Part::Made(mem::replace(&mut out.tail, next));
    out.row.parts.push(part)?;
    out.row.last = size;
    out.held = None;
    Ok(())
}

/// Puts clones of a tree's pairs before those of a segment.
fn absorb<K: Clone + Ord + Drop, V: Clone + Drop>(
    alloc: Global,
    into: &mut Segment<K, V>,
    tree: &TreeIndex<K, V>,
) -> Result<(), AllocError>
    requires keys { ClonesAreSame K.is_clone }
    requires values { ClonesAreSame V.is_clone }
    requires rising { IsAscending K.cmp (tree.now.pairs ++ into.old.pairs) }
    requires room { length tree.now.pairs + length into.old.pairs ≤ 225 }
    ensures { OnOk result (into.new.pairs ≡ tree.now.pairs ++ into.old.pairs) }
{
    let mut both = Segment::copied(alloc, tree)?;
    append(&mut both, into.tree())?;
    *into = both;
    Ok(())
}

/// Puts clones of a tree's pairs behind those of a segment.
fn append<K: Clone + Ord + Drop, V: Clone + Drop>(
    into: &mut Segment<K, V>,
    tree: &TreeIndex<K, V>,
) -> Result<(), AllocError>
    requires keys { ClonesAreSame K.is_clone }
    requires values { ClonesAreSame V.is_clone }
    requires rising { IsAscending K.cmp (into.old.pairs ++ tree.now.pairs) }
    requires room { length into.old.pairs + length tree.now.pairs ≤ 225 }
    ensures { OnOk result (into.new.pairs ≡ into.old.pairs ++ tree.now.pairs) }
{
    let mut left = PairScan::new(tree);
    left.push_run(into, tree.len())?;
    Ok(())
}

/// A segment of one pair, with room for `room` pairs.
fn single<K: Clone + Ord + Drop, V: Drop>(
    alloc: Global,
    room: usize,
    key: K,
    value: V,
) -> Result<Segment<K, V>, AllocError>
    requires { ClonesAreSame K.is_clone }
    ensures { IfOk result (λ tree. tree.pairs ≡ (key, value) ∷ []) }
{
    let mut tree = Segment::with_capacity(alloc, room)?;
    match tree.push(key, value) {
        Ok(()) => Ok(tree),
        Err(_) => Err(AllocError),
    }
}
