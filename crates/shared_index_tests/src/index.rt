//! The calls of an index that threads share, each under its lock.

use crate::calls::Desk;
use crate::place::{got, one, two};
use crate::scene::{Nothing, Scene, begun, closed, empty, plays, put, taken};
use crate::stage::{Stage, Start};
use serial_history::{
    Accepted, Answer, Audit, Cause, CheckpointRefused, Receipt, Refused, Reply, Seq,
};
use shared_index::{Naming, SharedBaseCause};
use std::alloc::{AllocError, Global};
use std::process::Abort;
use std::sync::Wait;
use version_views::Write;

/// Two shares: two commits with each.
#[derive(Clone, Copy)]
struct WithTwoShares;

impl<R: Wait + Abort> Scene<R> for WithTwoShares {
    /// What commits of one key answer that rest on its value, the counts of the shares, how many shares there are, and the number.
    type Found = ([Option<bool>; 4], [u64; 2], usize, u64);

    fn play<L: Naming>(self, rt: &R, alloc: Global, stage: Stage<'_>) -> Self::Found {
        let (index, mut shares) = begun::<L, R, 2>(rt, alloc, stage);
        let desk = Desk::of(rt, alloc, &index);
        let all = shares.len();
        let mut first = taken(rt, &mut shares);
        let mut second = taken(rt, &mut shares);
        let told = [
            desk.swap(&mut first, 1, (None, 10)),
            desk.swap(&mut first, 1, (None, 11)),
            desk.swap(&mut second, 1, (Some(10), 11)),
            desk.swap(&mut second, 1, (Some(11), 12)),
        ];
        let counts = [first.count(), second.count()];
        put(rt, &mut shares, first);
        put(rt, &mut shares, second);
        (told, counts, all, closed(rt, index, shares))
    }
}

// (each scene first ends its index without one share, and is handed back the others)
#[test]
fn an_index_is_closed_with_all_its_shares(rt: HostRuntime) {
    let (told, counts, all, number) = plays(&rt, rt.alloc(), empty(2, 64, 2), WithTwoShares);
    assert_eq!(rt; told, [Some(true), Some(false), Some(true), Some(true)]);
    assert_eq!(rt; (counts, all, number), ([1, 2], 2, 3));
}

/// The numbers of a base and a present list; how many slots are in use, and how many there are.
type Counts = ((u64, u64), (usize, usize));

/// The answer to a commit under the lock is what the book answers, and eight rounds of a reclaim free slots, as `reclaim` does.
#[derive(Clone, Copy)]
struct UnderTheLock;

impl<R: Wait + Abort> Scene<R> for UnderTheLock {
    /// What the commit answers; what is counted before, after one round of a reclaim and after eight; what three audits say,
    /// and the number.
    type Found = (
        Result<Accepted, Refused<u64, u64>>,
        [Counts; 3],
        [Result<Audit, AllocError>; 3],
        u64,
    );

    fn play<L: Naming>(self, rt: &R, alloc: Global, stage: Stage<'_>) -> Self::Found {
        let (index, mut shares) = begun::<L, R, 2>(rt, alloc, stage);
        let desk = Desk::of(rt, alloc, &index);
        let mut share = taken(rt, &mut shares);
        let writes = two(rt, alloc, Write::Insert(1, 10), Write::Insert(1, 11));
        let told = desk.commit(&mut share, &Receipt::blank(alloc), writes);
        let before = desk.counted();
        desk.rounds(1);
        let once = desk.counted();
        desk.rounds(7);
        let after = desk.counted();
        desk.reclaim();
        let audits = [
            desk.audit(&got(rt, alloc, 1, 1, Some(10))),
            desk.audit(&got(rt, alloc, 1, 1, Some(11))),
            desk.audit(&got(rt, alloc, 2, 1, Some(10))),
        ];
        put(rt, &mut shares, share);
        let number = closed(rt, index, shares);
        (told, [before, once, after], audits, number)
    }
}

/// Whether a commit was the first one, and wrote the first of its two pairs alone.
fn is_told(told: &Result<Accepted, Refused<u64, u64>>) -> bool {
    match told {
        Ok(accepted) => accepted.number == 1
            && accepted.replies.as_slice() == &[Reply::Inserted, Reply::Duplicate][..],
        Err(_) => false,
    }
}

#[test]
fn a_call_under_the_lock_is_that_of_the_book(rt: HostRuntime) {
    let (told, counts, audits, number) = plays(&rt, rt.alloc(), empty(2, 64, 1), UnderTheLock);
    assert!(rt; is_told(&told));
    assert!(rt; audits == [Ok(Audit::Yes), Ok(Audit::No(0)), Ok(Audit::Unknown)]);
    // the empty version, a version and its segment; then without the first one
    let used = [((0, 1), (3, 64)), ((0, 1), (3, 64)), ((0, 1), (2, 64))];
    assert_eq!(rt; (counts, number), (used, 1));
}

/// Why no index is made in a place of this many slots and cells.
fn refused_in<R: Abort>(rt: &R, alloc: Global, slots: u16, cells: u8) -> Option<SharedBaseCause> {
    let start = Start {
        cells,
        ..empty(1, slots, 1)
    };
    plays(rt, alloc, start, Nothing)
}

#[test]
fn no_index_is_made_without_a_slot_or_a_cell(rt: HostRuntime) {
    let alloc = rt.alloc();
    let found = [
        refused_in(&rt, alloc, 0, 1),
        refused_in(&rt, alloc, 8, 0),
        refused_in(&rt, alloc, 1, 1),
    ];
    let none = Some(SharedBaseCause::NoSlot);
    assert!(rt; found == [none, none, None]);
}

/// A commit in a place with two slots, of which the empty version has one: it would take two more.
#[derive(Clone, Copy)]
struct TooSmall;

impl<R: Wait + Abort> Scene<R> for TooSmall {
    /// The answer to the commit, what a session reads then, and the number.
    type Found = (Result<Accepted, Refused<u64, u64>>, Answer<u64, u64>, u64);

    fn play<L: Naming>(self, rt: &R, alloc: Global, stage: Stage<'_>) -> Self::Found {
        let (index, mut shares) = begun::<L, R, 2>(rt, alloc, stage);
        let desk = Desk::of(rt, alloc, &index);
        let mut share = taken(rt, &mut shares);
        let writes = one(rt, alloc, Write::Insert(1, 10));
        let told = desk.commit(&mut share, &Receipt::blank(alloc), writes);
        let (list, _) = desk.listed(0);
        put(rt, &mut shares, share);
        (told, list, closed(rt, index, shares))
    }
}

/// Whether a commit was refused for want of slots, and its write was returned.
fn is_without_slots(told: &Result<Accepted, Refused<u64, u64>>) -> bool {
    match told {
        Ok(_) => false,
        Err(Refused { cause, writes }) => *cause == Cause::NoSlot
            && writes.as_slice() == &[Write::Insert(1, 10)][..],
    }
}

#[test]
fn a_place_too_small_for_a_commit_keeps_the_list_before(rt: HostRuntime) {
    let (told, list, number) = plays(&rt, rt.alloc(), empty(2, 2, 1), TooSmall);
    assert!(rt; is_without_slots(&told));
    assert!(rt; list == Answer::Range(Seq::new(rt.alloc())) && number == 0);
}

/// The key 1 is 10, 11 and 12 by the numbers 1, 2 and 3, and the list of 2 becomes the base.
#[derive(Clone, Copy)]
struct Cut;

impl<R: Wait + Abort> Scene<R> for Cut {
    /// Whether three commits are accepted, the answers to four checkpoints, what audits say of numbers below the base, at it,
    /// above it and above the present one, and the number.
    type Found = (
        [Option<bool>; 3],
        [Result<(), CheckpointRefused>; 4],
        [Result<Audit, AllocError>; 4],
        u64,
    );

    fn play<L: Naming>(self, rt: &R, alloc: Global, stage: Stage<'_>) -> Self::Found {
        let (index, mut shares) = begun::<L, R, 2>(rt, alloc, stage);
        let desk = Desk::of(rt, alloc, &index);
        let mut share = taken(rt, &mut shares);
        let commits = [
            desk.swap(&mut share, 1, (None, 10)),
            desk.swap(&mut share, 1, (Some(10), 11)),
            desk.swap(&mut share, 1, (Some(11), 12)),
        ];
        let told = [
            desk.checkpoint(4),
            desk.checkpoint(2),
            desk.checkpoint(1),
            desk.checkpoint(2),
        ];
        let audits = [
            desk.audit(&got(rt, alloc, 1, 1, Some(10))),
            desk.audit(&got(rt, alloc, 2, 1, Some(11))),
            desk.audit(&got(rt, alloc, 3, 1, Some(11))),
            desk.audit(&got(rt, alloc, 4, 1, Some(12))),
        ];
        put(rt, &mut shares, share);
        (commits, told, audits, closed(rt, index, shares))
    }
}

#[test]
fn the_list_of_a_number_becomes_the_base_under_the_lock(rt: HostRuntime) {
    let (commits, told, audits, number) = plays(&rt, rt.alloc(), empty(2, 64, 1), Cut);
    assert_eq!(rt; (commits, number), ([Some(true); 3], 3));
    let behind = Err(CheckpointRefused::Behind(2));
    assert!(rt; told == [Err(CheckpointRefused::Ahead(3)), Ok(()), behind, Ok(())]);
    let (below, above) = (Ok(Audit::TooOld(2)), Ok(Audit::Unknown));
    assert!(rt; audits == [below, Ok(Audit::Yes), Ok(Audit::No(0)), above]);
}
