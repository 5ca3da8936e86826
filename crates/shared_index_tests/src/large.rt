//! An index at a size: many pairs, many writes in a commit, many reads in a session, many participants.

ghost use Rattle.std.specs.Prelude.{◌≡◌};
ghost use Rattle.shared_index.specs.SharedInvariant.{IsUnengaged};

use crate::calls::{Desk, Session, asked};
use crate::place::{ROOM, one};
use crate::scene::{Scene, begun, closed, empty, plays, put, taken};
use crate::stage::{Item, Stage};
use crate::steps::Told;
use crate::steps::Told::{Conflict, Made};
use sdd_domain::local::Local;
use serial_history::{Answer, Query, Receipt};
use shared_index::{Naming, Share};
use std::alloc::Global;
use std::process::Abort;
use std::sync::Wait;
use version_views::Write;

/// The writes of a commit: ten thousand keys, each ten above the one before.
fn ten_thousand<R: Abort>(rt: &R, alloc: Global, first: u64) -> Vec<Write<u64, u64>> {
    let mut writes = Vec::new(alloc);
    for at in 0..10_000u64 {
        let key = first.wrapping_add(at * 10);
        writes.push(Write::Insert(key, at)).expect(rt, ROOM);
    }
    writes
}

impl<L: Naming, R: Wait + Abort, const S: usize> Desk<'_, '_, L, R, S> {
    /// Ten commits of ten thousand writes, each of which goes through the whole list: how many are accepted.
    fn filled(&self, share: &mut Share<L>) -> u64 {
        let blank = Receipt::blank(self.alloc);
        for first in 0..10u64 {
            let writes = ten_thousand(self.rt, self.alloc, first);
            let _told = self.commit(share, &blank, writes);
            self.reclaim();
        }
        share.count()
    }

    /// The receipt of a session of ten thousand reads, and how many of these find what they are to.
    fn many_reads(&self, local: &mut Local<Item>) -> (Receipt<u64, u64>, u64)
        requires { IsUnengaged L.place local.old }
        ensures { IsUnengaged L.place local.new }
    {
        let Some(mut session) = self.opened(local, 10) else {
            panic!(self.rt; "ten commits are there");
        };
        let right = read_often(&mut session);
        (self.ended(session, local), right)
    }

    /// This many participants, each of which opens a session that stays open until all others have opened and read theirs, and a
    /// commit has changed what they read: how many find the first value.
    fn at_once(&self, share: &mut Share<L>, participants: u32) -> u32 {
        if participants == 0 {
            self.write(share, one(self.rt, self.alloc, Write::Upsert(1, 11)));
            return 0;
        }
        let mut local = self.entered();
        let Some(mut session) = self.opened(&mut local, 1) else {
            panic!(self.rt; "the first commit is there");
        };
        let others = self.at_once(share, participants - 1);
        let found = asked(&mut session, Query::Get(1)) == Ok(Answer::Get(Some(10)));
        let _receipt = self.ended(session, &mut local);
        self.leave(local);
        others.saturating_add(u32::from(found))
    }
}

/// Ten thousand recorded reads, of every tenth key: how many find its value.
fn read_often<const S: usize>(session: &mut Session<S>) -> u64
    ensures { session.new.nest ≡ session.old.nest }
{
    let mut right = 0u64;
    for at in 0..10_000u64 {
        if asked(session, Query::Get(at * 10 + 3)) == Ok(Answer::Get(Some(at))) {
            right = right.saturating_add(1);
        }
    }
    right
}

/// A large list, a session of it, and two commits that write what the last of its reads found.
#[derive(Clone, Copy)]
struct Large;

impl<R: Wait + Abort> Scene<R> for Large {
    /// How many commits fill the index, how many reads find what they are to, the answers to the two commits, and the number.
    type Found = (u64, u64, [Told; 2], u64);

    fn play<L: Naming>(self, rt: &R, alloc: Global, stage: Stage<'_>) -> Self::Found {
        let (index, mut shares) = begun::<L, R, 64>(rt, alloc, stage);
        let mut share = taken(rt, &mut shares);
        let desk = Desk::of(rt, alloc, &index);
        let accepted = desk.filled(&mut share);
        let mut reader = desk.entered();
        let (receipt, right) = desk.many_reads(&mut reader);
        desk.leave(reader);
        let last = [Write::Upsert(99_993, 1)];
        let told = [
            desk.written(&mut share, &receipt, &last),
            desk.written(&mut share, &receipt, &last),
        ];
        put(rt, &mut shares, share);
        (accepted, right, told, closed(rt, index, shares))
    }
}

#[test]
fn a_session_of_ten_thousand_reads_of_a_hundred_thousand_pairs_is_committed(rt: HostRuntime) {
    // less than 3,200 segments of at most 64 pairs, in two versions
    let found = plays(&rt, rt.alloc(), empty(2, 8192, 1), Large);
    assert_eq!(rt; found, (10, 10_000, [Made(11), Conflict(9999)], 11));
}

/// A commit, which this many participants read beside the next one.
#[derive(Clone, Copy)]
struct Crowded(u32);

impl<R: Wait + Abort> Scene<R> for Crowded {
    /// How many find it, and the number.
    type Found = (u32, u64);

    fn play<L: Naming>(self, rt: &R, alloc: Global, stage: Stage<'_>) -> Self::Found {
        let (index, mut shares) = begun::<L, R, 64>(rt, alloc, stage);
        let mut share = taken(rt, &mut shares);
        let desk = Desk::of(rt, alloc, &index);
        desk.write(&mut share, one(rt, alloc, Write::Insert(1, 10)));
        let right = desk.at_once(&mut share, self.0);
        put(rt, &mut shares, share);
        (right, closed(rt, index, shares))
    }
}

#[test]
fn sixty_three_participants_read_at_once_beside_the_one_who_commits(rt: HostRuntime) {
    let found = plays(&rt, rt.alloc(), empty(64, 64, 1), Crowded(63));
    assert_eq!(rt; found, (63, 2));
}
