//! Plays what is done with sessions of a place, whose cell owns something at first.

ghost use Rattle.shared_session_tests.specs.Participants.{CanRead, CanWrite, StillRests};

use self::Play::{
    Beside, Empty, Kinds, Looks, OfLoaded, Rows, Threads as ByThreads, Walked, Within,
};
use crate::calls::leave;
use crate::opening::{
    AT_LEAST, NO_GUARD, NO_VERSION, ONE_WIDTH, Row, all_taken, of_loaded, within,
};
use crate::place::{At, First, Item, SEVERAL, end, member, owning, place};
use crate::publishing::{beside, walked};
use crate::reads::{Look, are_right, each_kind, of_nothing};
use crate::threads::are_whole;
use sdd_domain::local::Local;
use std::alloc::Global;
use std::process::Abort;
use std::thread::Threads;

/// What is done with sessions.
#[derive(Clone, Copy)]
enum Play {
    /// The steps of a table are taken.
    Rows(&'static [Row]),
    /// A session opens within another one.
    Within,
    /// A session is made of what was loaded.
    OfLoaded,
    /// A session reads its version, whatever is published.
    Beside,
    /// A walk continues beside a version that is published.
    Walked,
    /// Keys, neighbours and ranges are read; and the ends of a walk change places.
    Looks(Look),
    /// The empty list has no pair.
    Empty,
    /// Each kind of query is recorded.
    Kinds,
    /// Each session of a thread reads one version.
    Threads,
}

/// Whether it takes the course that it should, with a participant that reads and one that writes.
fn goes<R: Threads + Abort + Sync>(
    rt: &R,
    alloc: Global,
    at: At<'_>,
    reader: &mut Local<Item>,
    writer: &mut Local<Item>,
    play: Play,
) -> bool
    requires reader { CanRead at.domain.now at.cell.now reader.old }
    requires writer { CanWrite at.domain.now at.cell.now writer.old }
    ensures reader { StillRests reader.old reader.new }
    ensures writer { StillRests writer.old writer.new }
{
    match play {
        Rows(rows) => all_taken(rt, alloc, at, reader, writer, rows),
        Within => within(rt, alloc, at, writer),
        OfLoaded => of_loaded(rt, alloc, at, writer),
        Beside => beside(rt, alloc, at, reader, writer),
        Walked => walked(rt, alloc, at, reader, writer),
        Looks(look) => are_right(alloc, at, reader, look),
        Empty => of_nothing(rt, alloc, at, reader),
        Kinds => each_kind(rt, alloc, at, reader),
        ByThreads => are_whole(rt, alloc, at, reader),
    }
}

/// Plays it in a new place, with a cell that owns this at first: whether it takes the course that it should.
fn plays<R: Threads + Abort + Sync>(rt: &R, alloc: Global, first: First, play: Play) -> bool {
    let mut met = false;
    let domain = place(rt, alloc, SEVERAL, &mut met);
    let mut reader = member(rt, &domain, &mut met);
    let mut writer = member(rt, &domain, &mut met);
    let cell = owning(rt, alloc, &domain, &mut writer, first);
    let at = At {
        domain: &domain,
        cell: &cell,
    };
    let right = goes(rt, alloc, at, &mut reader, &mut writer, play);
    leave(&domain, reader);
    end(rt, cell, domain, writer);
    right
}

/// The first version, of which each key has ten times its value.
const TENS: First = First::Version(1, (10, 20, 50));

const PLAYS: &[(First, Play)] = &[
    (First::Version(7, (10, 20, 50)), Rows(AT_LEAST)),
    (TENS, Rows(NO_GUARD)),
    (First::Nothing, Rows(&NO_VERSION)),
    (First::Row, Rows(&NO_VERSION)),
    (First::Empty, Rows(ONE_WIDTH)),
    (TENS, Within),
    (TENS, OfLoaded),
    (TENS, Beside),
    (TENS, Walked),
    (TENS, Looks(Look::Reads)),
    (First::Version(1, (2, 2, 2)), Looks(Look::Ends)),
    (First::Empty, Empty),
    (TENS, Kinds),
    (First::Version(1, (1, 1, 1)), ByThreads),
];

#[test]
fn sessions_open_read_and_record_whatever_is_published(rt: HostRuntime) {
    let mut right = 0usize;
    for at in 0..PLAYS.len() {
        let (first, play) = PLAYS[at];
        if right == at && plays(&rt, rt.alloc(), first, play) {
            right = right.saturating_add(1);
        }
    }
    assert_eq!(rt;
        right,
        PLAYS.len(),
        "the first one that doesn't go as it is to"
    );
}
