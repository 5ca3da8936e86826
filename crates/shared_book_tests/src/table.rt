//! Calls of a book as data, so that a test of many calls is a table.

ghost use Rattle.std.specs.Prelude.{◌≡◌};
ghost use Rattle.shared_book_tests.specs.Scenes.{CanBegin};

use crate::scene::{Item, ROOM, Scene, end, in_use, member, place};
use index_rows::{Call, Claim, Entry, Row, Table, Told, is_accepted, is_fed, receipt};
use sdd_domain::domain::Domain;
use sdd_domain::local::Local;
use serial_history::{CheckpointRefused, SinceRefused};
use shared_index::{FeedRefused, Naming};
use std::alloc::Global;
use std::marker::Brand;
use std::process::Abort;
use std::sync::ledger::Blank;
use version_views::Write;

/// Commits the writes on a receipt, and returns whether the answer is the one that is wanted.
fn commits<L: Naming, R: Abort, const S: usize>(
    rt: &R,
    alloc: Global,
    scene: &mut Scene<'_, L, S>,
    on: (u64, &[Claim]),
    writes: &[Write<u64, u64>],
    wanted: Told,
) -> bool {
    let receipt = receipt(alloc, on.0, on.1).expect(rt, ROOM);
    let made = Vec::from_clones(alloc, writes).expect(rt, ROOM);
    match (scene.commit(&receipt, made), wanted) {
        (Ok(told), Told::Accepted(number, replies)) => is_accepted(&told, number, replies),
        (Err(told), Told::Refused(cause)) => told.cause == cause
            && told.writes.as_slice() == writes,
        _ => false,
    }
}

/// Makes the list of a number the base, and returns whether the answer is the one that is wanted.
fn checks<L: Naming, const S: usize>(scene: &mut Scene<'_, L, S>, upto: u64, wanted: Told) -> bool {
    match (scene.checkpoint(upto), wanted) {
        (Ok(()), Told::Checkpointed(number)) => number == upto,
        (Err(CheckpointRefused::Behind(found)), Told::Behind(base)) => found == base,
        (Err(CheckpointRefused::Ahead(found)), Told::Ahead(present)) => found == present,
        _ => false,
    }
}

/// Whether these are the transactions behind a number.
fn feeds<L: Naming, const S: usize>(
    scene: &Scene<'_, L, S>,
    number: u64,
    entries: &[Entry],
) -> bool {
    match scene.since(number) {
        Ok(fed) => is_fed(&fed, entries),
        Err(_) => false,
    }
}

/// Why the transactions behind a number aren't returned.
fn unfed(why: SinceRefused) -> FeedRefused {
    match why {
        SinceRefused::TooOld(base) => FeedRefused::TooOld(base),
        SinceRefused::Ahead(present) => FeedRefused::Ahead(present),
    }
}

/// A call that only reads the book.
fn looks<L: Naming, R: Abort, const S: usize>(
    rt: &R,
    alloc: Global,
    scene: &Scene<'_, L, S>,
    call: Call,
    wanted: Told,
) -> bool {
    match (call, wanted) {
        (Call::Audit(number, claims), Told::Audited(audit)) => {
            let receipt = receipt(alloc, number, claims).expect(rt, ROOM);
            scene.audit(&receipt) == Ok(audit)
        }
        (Call::Base, Told::Based(number, pairs)) => scene.base() == (number, pairs),
        (Call::Since(number), Told::Fed(entries)) => feeds(scene, number, entries),
        (Call::Since(number), Told::Unfed(why)) => scene.since(number).err() == Some(unfed(why)),
        // the share has counted up to the number
        (Call::Counts, Told::Counted(number, pairs)) => scene.counts() == (number, pairs, number),
        (Call::Numbers, Told::Numbered(first, last)) => scene.numbers() == (first, last),
        _ => false,
    }
}

/// Makes a call, and returns whether it answers what is wanted.
fn answers<L: Naming, R: Abort, const S: usize>(
    rt: &R,
    alloc: Global,
    scene: &mut Scene<'_, L, S>,
    call: Call,
    wanted: Told,
) -> bool {
    match (call, wanted) {
        (Call::Commit(writes), _) => commits(rt, alloc, scene, (0, &[]), writes, wanted),
        (Call::CommitOn(number, claims, writes), _) => {
            commits(rt, alloc, scene, (number, claims), writes, wanted)
        }
        (Call::Checkpoint(upto), _) => checks(scene, upto, wanted),
        (Call::Reclaim, Told::Done) => {
            scene.reclaim();
            true
        }
        (Call::Rounds(count), Told::Slots(used)) => {
            for _ in 0..count {
                scene.reclaim_once();
            }
            in_use(scene.domain) == used
        }
        _ => looks(rt, alloc, scene, call, wanted),
    }
}

/// Makes the calls of a table on a book, and ends it: how many answer what is wanted before the first that doesn't, and how many
/// there are.
pub(crate) fn played<L: Naming, R: Abort, const S: usize>(
    rt: &R,
    alloc: Global,
    scene: Scene<'_, L, S>,
    parts: &[&[Row]],
) -> (usize, usize) {
    let mut scene = scene;
    let mut right = 0usize;
    let mut made = 0usize;
    for rows in parts {
        for row in *rows {
            if right == made && answers(rt, alloc, &mut scene, row.0, row.1) {
                right = right.saturating_add(1);
            }
            made = made.saturating_add(1);
        }
    }
    scene.end();
    (right, made)
}

/// Plays a table on an empty book with two pairs in a segment at most.
fn by_twos<L: Naming, R: Abort>(
    rt: &R,
    alloc: Global,
    domain: &Domain<Item>,
    local: Local<Item>,
    blank: Blank,
    table: &Table,
) -> (usize, usize)
    requires begins { CanBegin L.place L.name L.parts 1 domain.now local blank }
    requires last { table.now.last ≡ L.last }
{
    let scene = Scene::<L, 2>::new(rt, alloc, domain, local, blank, table.last);
    played(rt, alloc, scene, table.parts)
}

/// The same with one pair.
fn by_ones<L: Naming, R: Abort>(
    rt: &R,
    alloc: Global,
    domain: &Domain<Item>,
    local: Local<Item>,
    blank: Blank,
    table: &Table,
) -> (usize, usize)
    requires begins { CanBegin L.place L.name L.parts 1 domain.now local blank }
    requires last { table.now.last ≡ L.last }
{
    let scene = Scene::<L, 1>::new(rt, alloc, domain, local, blank, table.last);
    played(rt, alloc, scene, table.parts)
}

/// Plays tables, each on an empty book with two pairs in a segment at most.
pub(crate) fn on_books<R: Abort>(rt: &R, alloc: Global, tables: &[Table]) {
    for table in tables {
        on_a_book(rt, alloc, table);
    }
}

/// Plays a table on an empty book with two pairs in a segment at most.
fn on_a_book<R: Abort>(rt: &R, alloc: Global, table: &Table) {
    assert!(rt; 0 < table.slots && table.slots <= 64);
    let domain = place(alloc, table.slots).expect(rt, ROOM);
    let local = member(rt, &domain);
    let (right, made) = by_twos::<Brand, R>(rt, alloc, &domain, local, Blank::new(1), table);
    end(rt, domain);
    assert_eq!(rt; right, made, "{}", table.about);
}

/// The same with one pair in each segment.
pub(crate) fn on_a_small_book<R: Abort>(rt: &R, alloc: Global, table: &Table) {
    assert!(rt; 0 < table.slots && table.slots <= 64);
    let domain = place(alloc, table.slots).expect(rt, ROOM);
    let local = member(rt, &domain);
    let (right, made) = by_ones::<Brand, R>(rt, alloc, &domain, local, Blank::new(1), table);
    end(rt, domain);
    assert_eq!(rt; right, made, "{}", table.about);
}
