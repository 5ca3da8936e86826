//! A version and changes of it, merged into segments by one pass over those that a change touches.

ghost use Rattle.std.specs.Prelude.{◌≡◌, ◌≤◌, ◌<◌, ◌+◌, ◌*◌, ◌++◌, ◌∷◌, ◌↔◌, ◌⊎◌, [], ℕ, true, false, IsTrue, List, drop, length, slice_get, Some, IfOk, OnOk};
ghost use Rattle.leaf_array.specs.Pairs.{IsAscending};
ghost use Rattle.leaf_array.specs.Values.{ClonesAreSame};
ghost use Rattle.std.specs.List.{All};
ghost use Rattle.version_drafts.specs.Changes.{ahead, apply_delta, list_changed, named_by, pair_left};
ghost use Rattle.version_views.specs.Cuts.{IsCut, IsSeparated, pairs_in, separators_of};
ghost use Rattle.version_drafts.specs.Cutting.{CountsFrom, CountsGiven, IsCutting, GivesNoMoreOfBlock, GivesNoMoreThanRead, IsPassedBy, IsReachedBy, IsTouched, IsUntouched, Joins, KeepsListFrom, KeepsListWithin, OfBlock, PassesWhatReaches, StaysThrifty, given_pairs, rest_behind};
ghost use Rattle.version_drafts.specs.Gone.{IsSpan, is_gone, without_gone};
ghost use Rattle.version_drafts.specs.Parts.{LiesWithin, blocks_of_parts, list_of_parts, made_in};
ghost use Rattle.version_views.specs.SeparatorSearch.{IsOrdered};

use crate::changes::Changes;
use crate::edits::Edits;
use crate::gone::{Gone, apart_upto, covers, thins};
use crate::row::{ChangeScan, Edit, EditRow};
use crate::scans::Sieve;
use crate::segments::{
    Here, SegmentBuilder, Segments, begun, count_out, expect, finish, push, take_stretch,
};
use std::alloc::{AllocError, Global};
use std::cmp::Ordering;
use version_views::{Trees, VersionView};

/// The segments of the list that changes make of a version. A segment that no change touches is taken over, save where it
/// has to be joined with what comes before it.
pub(crate) fn merged<K: Clone + Ord + Drop, V: Clone + Drop, W: Trees<K, V>, const S: usize>(
    alloc: Global,
    old: &VersionView<'_, K, V, W>,
    changes: &Changes<'_, K, V>,
) -> Result<Segments<K, V>, AllocError>
    requires size { (1 ≤ S) × (S ≤ 225) }
    requires keys { ClonesAreSame K.is_clone }
    requires values { ClonesAreSame V.is_clone }
    requires whole { IsCut K.cmp S old.now (separators_of old.now) }
    requires spans { All (IsSpan K.cmp old.now) changes.now.gone.items }
    ensures cut { IfOk result (λ made. IsCut K.cmp S (blocks_of_parts old.now made.parts.items) (separators_of (blocks_of_parts old.now made.parts.items))) }
    ensures list { IfOk result (λ made. list_of_parts old.now made.parts.items ≡ list_changed K.cmp changes.now old.now) }
    ensures within { IfOk result (λ made. All (LiesWithin (length old.now)) made.parts.items) }
    ensures length { IfOk result (λ made. made.length ≡ length (list_of_parts old.now made.parts.items)) }
    ensures few { IfOk result (λ made. made_in made.parts.items ≤ 2 * named_by changes.now) }
{
    match &changes.edits {
        Edits::Row(row) => merged_with::<K, V, W, S>(alloc, old, row, &changes.gone),
        Edits::Tree(tree) => {
            let row = EditRow::listed(alloc, tree)?;
            merged_with::<K, V, W, S>(alloc, old, &row, &changes.gone)
        },
    }
}

/// The segments of the list that a row of edits makes of what ranges leave of a version.
fn merged_with<K: Clone + Ord + Drop, V: Clone + Drop, W: Trees<K, V>, const S: usize>(
    alloc: Global,
    old: &VersionView<'_, K, V, W>,
    edits: &EditRow<'_, K, V>,
    gone: &[Gone<K>],
) -> Result<Segments<K, V>, AllocError>
    requires size { (1 ≤ S) × (S ≤ 225) }
    requires keys { ClonesAreSame K.is_clone }
    requires values { ClonesAreSame V.is_clone }
    requires whole { IsCut K.cmp S old.now (separators_of old.now) }
    requires spans { All (IsSpan K.cmp old.now) gone.now }
    ensures cut { IfOk result (λ made. IsCut K.cmp S (blocks_of_parts old.now made.parts.items) (separators_of (blocks_of_parts old.now made.parts.items))) }
    ensures list { IfOk result (λ made. list_of_parts old.now made.parts.items ≡ apply_delta K.cmp edits.now (without_gone K.cmp gone.now (pairs_in old.now))) }
    ensures within { IfOk result (λ made. All (LiesWithin (length old.now)) made.parts.items) }
    ensures length { IfOk result (λ made. made.length ≡ length (list_of_parts old.now made.parts.items)) }
    ensures few { IfOk result (λ made. made_in made.parts.items ≤ 2 * (length edits.now + length gone.now)) }
{
    let named = edits.len().saturating_add(gone.len());
    let mut out = begun::<K, V, W, S>(alloc, old, named)?;
    let mut left = edits.scan();
    let count = old.segment_count();
    let mut place = 0;
    let mut near = 0;
    while place < count {
        place = pass::<K, V, W, S>(&mut out, &mut left, gone, old, place, &mut near)?;
    }
    put_all::<K, V, W, S>(&mut out, &mut left, old)?;
    let segments = finish::<K, V, W, S>(out, old)?;
    Ok(segments)
}

/// Merges what is left of the segment at a place with the changes that touch it, or takes it over with those behind it that
/// nothing touches. One that a range has all pairs of is passed by. Answers the place of the next segment. `near` is the row of the
/// segment that was passed last, where this one is looked for first.
fn pass<K: Clone + Ord + Drop, V: Clone + Drop, W: Trees<K, V>, const S: usize>(
    out: &mut SegmentBuilder<K, V>,
    changes: &mut ChangeScan<'_, '_, K, V>,
    gone: &[Gone<K>],
    old: &VersionView<'_, K, V, W>,
    place: usize,
    near: &mut usize,
) -> Result<usize, AllocError>
    requires keys { ClonesAreSame K.is_clone }
    requires values { ClonesAreSame V.is_clone }
    requires old { IsCut K.cmp S old.now (separators_of old.now) }
    requires spans { All (IsSpan K.cmp old.now) gone.now }
    requires within { place < length old.now }
    requires whole { IsCutting K.cmp S old.now out.old }
    requires rising { IsAscending K.cmp (given_pairs old.now out.old ++ ahead K.cmp changes.old gone.now place old.now) }
    requires counted { CountsFrom old.now place out.old }
    ensures behind { IfOk result (λ next. place < next) }
    ensures whole { OnOk result (IsCutting K.cmp S old.now out.new) }
    ensures list { IfOk result (λ next. KeepsListFrom K.cmp gone.now old.now place changes.old out.old next changes.new out.new) }
    ensures thrifty { IfOk result (λ next. StaysThrifty S (is_gone K.cmp gone.now) old.now place (length changes.old) out.old next (length changes.new) out.new) }
    ensures counted { IfOk result (λ next. CountsFrom old.now next out.new) }
{
    // how many there are shows the proof that a place behind this one can be named
    let _count = old.segment_count();
    let next = place + 1;
    let (tree, row) = old.segment_near(place, *near);
    let here = Here { place, row, tree };
    *near = here.row;
    if covers(gone, old, place) {
        count_out(out, old, &here);
        return Ok(next);
    }
    if touches::<K, V, W, S>(changes, gone, old, &here) {
        merge_segment::<K, V, W, S>(out, changes, gone, old, &here)?;
        return Ok(next);
    }
    if joins::<K, V, S>(out, here.tree.len()) {
        merge_segment::<K, V, W, S>(out, changes, gone, old, &here)?;
        return Ok(next);
    }
    let end = stretch_end(changes, gone, old, next);
    take_stretch::<K, V, W, S>(out, old, place, end)?;
    Ok(end)
}

/// Where the stretch from a place on ends: before the first segment there that the next change touches, or that lies near a
/// range that is gone. The separators are halved, and no tree is read.
fn stretch_end<K: Ord, V, W: Trees<K, V>>(
    changes: &ChangeScan<'_, '_, K, V>,
    gone: &[Gone<K>],
    old: &VersionView<'_, K, V, W>,
    from: usize,
) -> usize
    requires ordered { IsOrdered K.cmp old.now (separators_of old.now) }
    requires spans { All (IsSpan K.cmp old.now) gone.now }
    requires within { from ≤ length old.now }
    ensures from { from ≤ result }
    ensures within { result ≤ length old.now }
    ensures passed { (i : ℕ) (b : List (K × V)) → from ≤ i → i < result → Some b ≡ slice_get old.now i → IsUntouched K.cmp changes.now gone.now b }
{
    let apart = apart_upto(gone, old, from);
    if apart <= from {
        return from;
    }
    let reached = reached_at(changes, old);
    if reached <= from {
        return from;
    }
    if reached < apart { reached } else { apart }
}

/// The segment that the next change lies in or beside: those before it have lesser keys. Where there is no change, the place
/// behind all.
fn reached_at<K: Ord, V, W: Trees<K, V>>(
    changes: &ChangeScan<'_, '_, K, V>,
    old: &VersionView<'_, K, V, W>,
) -> usize
    requires { IsOrdered K.cmp old.now (separators_of old.now) }
    ensures { (i : ℕ) (b : List (K × V)) → i < result → slice_get old.now i ≡ Some b → IsPassedBy K.cmp changes.now b }
{
    match changes.front() {
        None => old.segment_count(),
        Some((key, _)) => old.place_of(key),
    }
}

/// Whether the next change touches a segment, or a range that is gone has a pair of it.
fn touches<K: Ord, V, W: Trees<K, V>, const S: usize>(
    changes: &ChangeScan<'_, '_, K, V>,
    gone: &[Gone<K>],
    old: &VersionView<'_, K, V, W>,
    here: &Here<'_, K, V>,
) -> bool
    requires old { IsCut K.cmp S old.now (separators_of old.now) }
    requires spans { All (IsSpan K.cmp old.now) gone.now }
    requires within { here.now.place < length old.now }
    requires there { Some here.now.tree.now.pairs ≡ slice_get old.now here.now.place }
    ensures touched { IsTrue result → OfBlock old.now here.now.place (IsTouched K.cmp changes.now gone.now) }
    ensures passed { result ≡ false → OfBlock old.now here.now.place (IsUntouched K.cmp changes.now gone.now) }
{
    if reaches::<K, V, W, S>(changes, old, here) {
        return true;
    }
    thins(gone, old, here)
}

/// Whether the next change touches a segment: its key is at most the greatest one there.
fn reaches<K: Ord, V, W: Trees<K, V>, const S: usize>(
    changes: &ChangeScan<'_, '_, K, V>,
    old: &VersionView<'_, K, V, W>,
    here: &Here<'_, K, V>,
) -> bool
    requires old { IsCut K.cmp S old.now (separators_of old.now) }
    requires within { here.now.place < length old.now }
    ensures reached { IsTrue result → OfBlock old.now here.now.place (IsReachedBy K.cmp changes.now) }
    ensures passed { result ≡ false → OfBlock old.now here.now.place (IsPassedBy K.cmp changes.now) }
{
    match changes.front() {
        None => false,
        Some((key, _)) => match old.greatest_near(here.place, here.row) {
            Some(last) => match key.cmp(last) {
                Ordering::Less => true,
                Ordering::Equal => true,
                Ordering::Greater => false,
            },
            None => false,
        },
    }
}

/// Whether a segment of `size` pairs fits into one with what comes before it.
fn joins<K: Ord, V, const S: usize>(out: &SegmentBuilder<K, V>, size: usize) -> bool
    ensures { IsTrue result ↔ Joins S size out.now }
{
    let last = match out.tail.len() {
        0 => out.row.last,
        size => size,
    };
    last > 0 && size <= S && last <= S - size
}

/// Tells how many pairs come of a segment and of those behind it, up to one that no change touches.
fn make_ready<K: Ord + Drop, V: Drop, W: Trees<K, V>, const S: usize>(
    out: &mut SegmentBuilder<K, V>,
    changes: &ChangeScan<'_, '_, K, V>,
    old: &VersionView<'_, K, V, W>,
    here: &Here<'_, K, V>,
) -> Result<(), AllocError>
    requires old { IsCut K.cmp S old.now (separators_of old.now) }
    requires within { here.now.place < length old.now }
    ensures row { OnOk result (out.new.row ≡ out.old.row) }
    ensures held { OnOk result (out.new.held ≡ out.old.held) }
    ensures tail { OnOk result (out.new.tail.pairs ≡ out.old.tail.pairs) }
    ensures length { OnOk result (out.new.length ≡ out.old.length) }
{
    expect::<K, V, S>(out, pairs_ahead::<K, V, W, S>(changes, old, here))
}

/// How many pairs come of a segment and of those behind it, up to one that no change touches, or until they fill two trees.
fn pairs_ahead<K: Ord, V, W: Trees<K, V>, const S: usize>(
    changes: &ChangeScan<'_, '_, K, V>,
    old: &VersionView<'_, K, V, W>,
    here: &Here<'_, K, V>,
) -> usize
    requires old { IsCut K.cmp S old.now (separators_of old.now) }
    requires within { here.now.place < length old.now }
{
    let count = old.segment_count();
    let mut ahead = changes.copy();
    let first = pass_upto::<K, V, W, S>(&mut ahead, old, here.place, here.row);
    let mut total = here.tree.len().saturating_add(first);
    for at in here.place + 1..count {
        if total / 2 >= S {
            return total;
        }
        let more = pass_upto::<K, V, W, S>(&mut ahead, old, at, here.row);
        if more == 0 {
            return total;
        }
        let (tree, _) = (&*old).segment_near(at, here.row);
        total = total.saturating_add(tree.len().saturating_add(more));
    }
    total
}

/// Passes the changes up to the end of the segment at a place, and counts them: at most as many as a tree takes. It is looked for
/// in a row first.
fn pass_upto<K: Ord, V, W: Trees<K, V>, const S: usize>(
    ahead: &mut ChangeScan<'_, '_, K, V>,
    old: &VersionView<'_, K, V, W>,
    place: usize,
    near: usize,
) -> usize
    requires separated { IsSeparated old.now (separators_of old.now) }
    requires within { place < length old.now }
{
    if ahead.front().is_none() {
        return 0;
    }
    let Some(last) = old.greatest_near(place, near) else {
        return 0;
    };
    for count in 0..S {
        match ahead.front() {
            None => return count,
            Some((key, _)) => {
                if key.cmp(last) == Ordering::Greater {
                    return count;
                }
            },
        }
        ahead.step();
    }
    S
}

/// Merges what is left of a segment with the changes up to its end.
fn merge_segment<K: Clone + Ord + Drop, V: Clone + Drop, W: Trees<K, V>, const S: usize>(
    out: &mut SegmentBuilder<K, V>,
    changes: &mut ChangeScan<'_, '_, K, V>,
    gone: &[Gone<K>],
    old: &VersionView<'_, K, V, W>,
    here: &Here<'_, K, V>,
) -> Result<(), AllocError>
    requires keys { ClonesAreSame K.is_clone }
    requires values { ClonesAreSame V.is_clone }
    requires old { IsCut K.cmp S old.now (separators_of old.now) }
    requires within { here.now.place < length old.now }
    requires there { Some here.now.tree.now.pairs ≡ slice_get old.now here.now.place }
    requires sorted { IsAscending K.cmp (pairs_in (drop here.now.place old.now)) }
    requires whole { IsCutting K.cmp S old.now out.old }
    requires rising { IsAscending K.cmp (given_pairs old.now out.old ++ ahead K.cmp changes.old gone.now here.now.place old.now) }
    requires counted { CountsFrom old.now here.now.place out.old }
    ensures whole { OnOk result (IsCutting K.cmp S old.now out.new) }
    ensures list { OnOk result (KeepsListFrom K.cmp gone.now old.now here.now.place changes.old out.old (here.now.place + 1) changes.new out.new) }
    ensures filled { OnOk result (GivesNoMoreOfBlock K.cmp S gone.now old.now here.now.place (length changes.old) out.old (length changes.new) out.new) }
    ensures fewer { OnOk result (length changes.new ≤ length changes.old) }
    ensures reached { OnOk result (PassesWhatReaches K.cmp gone.now old.now here.now.place changes.old changes.new) }
    ensures counted { OnOk result (CountsFrom old.now (here.now.place + 1) out.new) }
{
    count_out(out, old, here);
    make_ready::<K, V, W, S>(out, changes, old, here)?;
    let mut pairs = Sieve::new(here.tree, gone);
    let mut more = true;
    while more {
        more = merge_more::<K, V, W, S>(out, changes, &mut pairs, gone, old, here.place)?;
    }
    Ok(())
}

/// Copies the pairs that come before the next change, as far as the open tree has room, takes what is first then, and says whether
/// that was anything.
fn merge_more<K: Clone + Ord + Drop, V: Clone + Drop, W: Trees<K, V>, const S: usize>(
    out: &mut SegmentBuilder<K, V>,
    changes: &mut ChangeScan<'_, '_, K, V>,
    pairs: &mut Sieve<'_, '_, K, V>,
    gone: &[Gone<K>],
    old: &VersionView<'_, K, V, W>,
    place: usize,
) -> Result<bool, AllocError>
    requires keys { ClonesAreSame K.is_clone }
    requires values { ClonesAreSame V.is_clone }
    requires sorted { IsAscending K.cmp (rest_behind K.cmp gone.now old.now place pairs.old) }
    requires whole { IsCutting K.cmp S old.now out.old }
    requires rising { IsAscending K.cmp (given_pairs old.now out.old ++ apply_delta K.cmp changes.old (rest_behind K.cmp gone.now old.now place pairs.old)) }
    ensures whole { OnOk result (IsCutting K.cmp S old.now out.new) }
    ensures list { OnOk result (KeepsListWithin K.cmp gone.now old.now place pairs.old changes.old out.old pairs.new changes.new out.new) }
    ensures sorted { OnOk result (IsAscending K.cmp (rest_behind K.cmp gone.now old.now place pairs.new)) }
    ensures filled { OnOk result (GivesNoMoreThanRead S (length pairs.old + length changes.old) (length pairs.new + length changes.new) out.old out.new) }
    ensures reached { OnOk result (IsReachedBy K.cmp changes.old pairs.old → IsReachedBy K.cmp changes.new pairs.new ⊎ (length changes.new < length changes.old)) }
    ensures fewer { IfOk result (λ more. more ≡ true → length changes.new + length pairs.new < length changes.old + length pairs.old) }
    ensures less { OnOk result (length changes.new ≤ length changes.old) }
    ensures done { IfOk result (λ more. more ≡ false → pairs.new ≡ []) }
    ensures counted { OnOk result (CountsGiven old.now out.old out.new) }
{
    copy_run::<K, V, W, S>(out, changes, pairs, gone, old, place)?;
    merge_next::<K, V, W, S>(out, changes, pairs, gone, old, place)
}

/// Gives clones of the first pairs that come before the next change, as far as the open tree has room.
fn copy_run<K: Clone + Ord + Drop, V: Clone + Drop, W: Trees<K, V>, const S: usize>(
    out: &mut SegmentBuilder<K, V>,
    changes: &ChangeScan<'_, '_, K, V>,
    pairs: &mut Sieve<'_, '_, K, V>,
    gone: &[Gone<K>],
    old: &VersionView<'_, K, V, W>,
    place: usize,
) -> Result<(), AllocError>
    requires keys { ClonesAreSame K.is_clone }
    requires values { ClonesAreSame V.is_clone }
    requires sorted { IsAscending K.cmp (rest_behind K.cmp gone.now old.now place pairs.old) }
    requires whole { IsCutting K.cmp S old.now out.old }
    requires rising { IsAscending K.cmp (given_pairs old.now out.old ++ apply_delta K.cmp changes.now (rest_behind K.cmp gone.now old.now place pairs.old)) }
    ensures whole { OnOk result (IsCutting K.cmp S old.now out.new) }
    ensures list { OnOk result (KeepsListWithin K.cmp gone.now old.now place pairs.old changes.now out.old pairs.new changes.now out.new) }
    ensures sorted { OnOk result (IsAscending K.cmp (rest_behind K.cmp gone.now old.now place pairs.new)) }
    ensures filled { OnOk result (GivesNoMoreThanRead S (length pairs.old + length changes.now) (length pairs.new + length changes.now) out.old out.new) }
    ensures reached { OnOk result (IsReachedBy K.cmp changes.now pairs.old → IsReachedBy K.cmp changes.now pairs.new) }
    ensures less { OnOk result (length pairs.new ≤ length pairs.old) }
    ensures counted { OnOk result (CountsGiven old.now out.old out.new) }
{
    let _ = gone;
    let _ = old;
    let room = S - out.tail.len();
    let count = pairs.push_run(&mut out.tail, changes.key(), room)?;
    let Some(length) = out.length.checked_add(count) else {
        return Err(AllocError);
    };
    out.length = length;
    Ok(())
}

/// Takes what is first of changes and the pairs of the segment at a place, or both where they have one key, and says whether
/// there was a pair.
fn merge_next<K: Clone + Ord + Drop, V: Clone + Drop, W: Trees<K, V>, const S: usize>(
    out: &mut SegmentBuilder<K, V>,
    changes: &mut ChangeScan<'_, '_, K, V>,
    pairs: &mut Sieve<'_, '_, K, V>,
    gone: &[Gone<K>],
    old: &VersionView<'_, K, V, W>,
    place: usize,
) -> Result<bool, AllocError>
    requires keys { ClonesAreSame K.is_clone }
    requires values { ClonesAreSame V.is_clone }
    requires sorted { IsAscending K.cmp (rest_behind K.cmp gone.now old.now place pairs.old) }
    requires whole { IsCutting K.cmp S old.now out.old }
    requires rising { IsAscending K.cmp (given_pairs old.now out.old ++ apply_delta K.cmp changes.old (rest_behind K.cmp gone.now old.now place pairs.old)) }
    ensures whole { OnOk result (IsCutting K.cmp S old.now out.new) }
    ensures list { OnOk result (KeepsListWithin K.cmp gone.now old.now place pairs.old changes.old out.old pairs.new changes.new out.new) }
    ensures sorted { OnOk result (IsAscending K.cmp (rest_behind K.cmp gone.now old.now place pairs.new)) }
    ensures filled { OnOk result (GivesNoMoreThanRead S (length pairs.old + length changes.old) (length pairs.new + length changes.new) out.old out.new) }
    ensures reached { OnOk result (IsReachedBy K.cmp changes.old pairs.old → IsReachedBy K.cmp changes.new pairs.new ⊎ (length changes.new < length changes.old)) }
    ensures fewer { IfOk result (λ more. more ≡ true → length changes.new + length pairs.new < length changes.old + length pairs.old) }
    ensures less { OnOk result (length changes.new ≤ length changes.old) }
    ensures done { IfOk result (λ more. more ≡ false → pairs.new ≡ []) }
    ensures counted { OnOk result (CountsGiven old.now out.old out.new) }
{
    let _ = gone;
    let Some((key, value)) = pairs.front() else {
        return Ok(false);
    };
    let Some((changed, to)) = changes.front() else {
        copy::<K, V, W, S>(out, old, key, value)?;
        pairs.step();
        return Ok(true);
    };
    match changed.cmp(key) {
        Ordering::Less => {
            put::<K, V, W, S>(out, old, changed, to)?;
            changes.step();
        },
        Ordering::Equal => {
            put::<K, V, W, S>(out, old, changed, to)?;
            changes.step();
            pairs.step();
        },
        Ordering::Greater => {
            copy::<K, V, W, S>(out, old, key, value)?;
            pairs.step();
        },
    }
    Ok(true)
}

/// Gives what the changes that are left leave, behind all pairs of the version.
fn put_all<K: Clone + Ord + Drop, V: Clone + Drop, W: Trees<K, V>, const S: usize>(
    out: &mut SegmentBuilder<K, V>,
    changes: &mut ChangeScan<'_, '_, K, V>,
    old: &VersionView<'_, K, V, W>,
) -> Result<(), AllocError>
    requires keys { ClonesAreSame K.is_clone }
    requires values { ClonesAreSame V.is_clone }
    requires whole { IsCutting K.cmp S old.now out.old }
    requires rising { IsAscending K.cmp (given_pairs old.now out.old ++ apply_delta K.cmp changes.old []) }
    ensures whole { OnOk result (IsCutting K.cmp S old.now out.new) }
    ensures list { OnOk result (given_pairs old.now out.new ≡ given_pairs old.now out.old ++ apply_delta K.cmp changes.old []) }
    ensures filled { OnOk result (GivesNoMoreThanRead S (length changes.old) 0 out.old out.new) }
    ensures counted { OnOk result (CountsGiven old.now out.old out.new) }
{
    expect::<K, V, S>(out, changes.count())?;
    while let Some((changed, to)) = changes.front() {
        put::<K, V, W, S>(out, old, changed, to)?;
        changes.step();
    }
    Ok(())
}

/// Gives the pair that a change leaves, if it leaves one.
fn put<K: Clone + Ord + Drop, V: Clone + Drop, W: Trees<K, V>, const S: usize>(
    out: &mut SegmentBuilder<K, V>,
    old: &VersionView<'_, K, V, W>,
    key: &K,
    to: &Edit<'_, V>,
) -> Result<(), AllocError>
    requires keys { ClonesAreSame K.is_clone }
    requires values { ClonesAreSame V.is_clone }
    requires whole { IsCutting K.cmp S old.now out.old }
    requires rising { IsAscending K.cmp (given_pairs old.now out.old ++ pair_left key.now to.now) }
    ensures whole { OnOk result (IsCutting K.cmp S old.now out.new) }
    ensures pairs { OnOk result (given_pairs old.now out.new ≡ given_pairs old.now out.old ++ pair_left key.now to.now) }
    ensures filled { OnOk result (GivesNoMoreThanRead S 1 0 out.old out.new) }
    ensures counted { OnOk result (CountsGiven old.now out.old out.new) }
{
    match to.value() {
        Some(value) => copy::<K, V, W, S>(out, old, key, value),
        None => Ok(()),
    }
}

/// Gives a clone of a pair.
fn copy<K: Clone + Ord + Drop, V: Clone + Drop, W: Trees<K, V>, const S: usize>(
    out: &mut SegmentBuilder<K, V>,
    old: &VersionView<'_, K, V, W>,
    key: &K,
    value: &V,
) -> Result<(), AllocError>
    requires keys { ClonesAreSame K.is_clone }
    requires values { ClonesAreSame V.is_clone }
    requires whole { IsCutting K.cmp S old.now out.old }
    requires rising { IsAscending K.cmp (given_pairs old.now out.old ++ (key.now, value.now) ∷ []) }
    ensures whole { OnOk result (IsCutting K.cmp S old.now out.new) }
    ensures pairs { OnOk result (given_pairs old.now out.new ≡ given_pairs old.now out.old ++ (key.now, value.now) ∷ []) }
    ensures filled { OnOk result (GivesNoMoreThanRead S 1 0 out.old out.new) }
    ensures counted { OnOk result (CountsGiven old.now out.old out.new) }
{
    push::<K, V, W, S>(out, old, key.clone()?, value.clone()?)
}
