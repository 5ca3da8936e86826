//! What refusals say, and where `?` takes them.

use crate::scene::{Numbers, Scene};
use local_index::{
    Cause, CheckpointRefused, DeskCall, DeskRefused, LocalIndex, NoPlace, PastRefused, ReadSet,
    Receipt, Refused, ScopedIndex, SinceRefused, Write,
};
use local_versions::StoreRefused;
use std::alloc::{AllocError, Global};
use std::fmt;
use std::process::Abort;
use std::test::Fail;
use thiserror::Error;

const ROOM: &str = "memory";

// An error of a caller's own.
#[derive(Debug, Drop, Error)]
enum Failure {
    #[error("memory was refused")]
    Memory(#[from(alloc)] AllocError),
    #[error(transparent)]
    NoPlace(#[from] NoPlace),
    #[error(transparent)]
    Refused(#[from] Refused<u64, u64>),
}

const REFUSED: &str = "the commit was refused: the last number is reached; the index is as it was";

const NO_PLACE: &str = "no place is free for a session; the index is as it was";

// What the causes of a refused commit say.
fn said_of_causes(alloc: Global) -> Result<String, AllocError> {
    let (conflict, last) = (Cause::Conflict(2), Cause::Exhausted);
    let (memory, slot) = (Cause::Memory, Cause::NoSlot);
    format!(in alloc; "{conflict}|{last}|{memory}|{slot}")
}

const CAUSES: &str = "read 2 no longer holds\
    |the last number is reached\
    |memory was refused\
    |too few slots are free";

// What is said where a commit is refused, and a session, and where no store is made, and where a desk commits in vain.
fn said_of_calls(alloc: Global) -> Result<String, AllocError> {
    let (cause, place) = (Cause::Exhausted, NoPlace);
    let refused = Refused::<u64, u64> {
        cause,
        writes: Vec::new(alloc),
    };
    let desk = DeskRefused::from(Refused::<u64, u64> {
        cause,
        writes: Vec::new(alloc),
    });
    let (memory, slot) = (StoreRefused::Memory, StoreRefused::NoSlot);
    format!(in alloc; "{refused}|{place}|{memory}|{slot}|{desk}")
}

const CALLS: &str = "the commit was refused: the last number is reached; the index is as it was\
    |no place is free for a session; the index is as it was\
    |memory was refused; there is no store\
    |the version takes more slots; there is no store\
    |the commit was refused: the last number is reached; the index is as it was";

// What a refused checkpoint says, and refused reads of older numbers.
fn said_of_older(alloc: Global) -> Result<String, AllocError> {
    let (behind, ahead) = (CheckpointRefused::Behind(2), CheckpointRefused::Ahead(5));
    let (cut, old) = (CheckpointRefused::Memory, SinceRefused::TooOld(2));
    let outside = PastRefused::from(SinceRefused::Ahead(5));
    let past = PastRefused::Memory;
    format!(in alloc; "{behind}|{ahead}|{cut}|{old}|{outside}|{past}")
}

const OLDER: &str = "the history begins at number 2; the index is as it was\
    |the present number is 5; the index is as it was\
    |memory was refused; the index is as it was\
    |the history begins at number 2; the index is as it was\
    |the present number is 5; the index is as it was\
    |memory was refused; the index is as it was";

#[test]
fn refusals_say_what_stands_after_them(rt: HostRuntime) -> Result<(), Fail> {
    assert_eq!(rt; said_of_causes(rt.alloc())?.as_str(), CAUSES);
    assert_eq!(rt; said_of_calls(rt.alloc())?.as_str(), CALLS);
    assert_eq!(rt; said_of_older(rt.alloc())?.as_str(), OLDER);
    Ok(())
}

// Commits, and reads then; or what refused it.
fn use_own(index: &mut Numbers, alloc: Global) -> Result<usize, Failure> {
    let writes = vec![in alloc; Write::Insert(1, 10)]?;
    let _accepted = index.commit(&Receipt::blank(alloc), writes)?;
    let reading = index.reading()?;
    Ok(reading.len())
}

// The same, where any error serves.
fn use_any(index: &mut Numbers, alloc: Global) -> anyhow::Result<usize> {
    let writes = vec![in alloc; Write::Insert(1, 10)]?;
    let _accepted = index.commit(&Receipt::blank(alloc), writes)?;
    let reading = index.reading()?;
    Ok(reading.len())
}

// What the error says.
fn message<R: Abort, T: Drop, E: fmt::Display + Drop>(
    rt: &R,
    alloc: Global,
    told: Result<T, E>,
) -> String {
    match told {
        Ok(_) => panic!(rt; "it was accepted"),
        Err(e) => format!(in alloc; "{e}").expect(rt, ROOM),
    }
}

// (an index that takes no commit, and one that has no place)
#[test]
fn refusals_go_into_errors_of_a_caller(rt: HostRuntime) {
    let alloc = rt.alloc();
    for (last, wanted) in [(0, REFUSED), (9, NO_PLACE)] {
        let index = LocalIndex::with_last(alloc, 0, 16, last).expect(&rt, ROOM);
        let mut scope = ScopedIndex { index };
        let own = message(&rt, alloc, use_own(&mut scope.index, alloc));
        let any = message(&rt, alloc, use_any(&mut scope.index, alloc));
        assert_eq!(rt; (own.as_str(), any.as_str()), (wanted, wanted));
    }
}

#[test]
fn a_refused_commit_hands_its_writes_back(rt: HostRuntime) {
    let alloc = rt.alloc();
    let writes = vec![in alloc; Write::Insert(1, 10), Write::Remove(2)].expect(&rt, ROOM);
    let refused = Refused {
        cause: Cause::NoSlot,
        writes,
    };
    let back: Vec<Write<u64, u64>> = refused.into_writes();
    assert!(rt; back.as_slice() == [Write::Insert(1, 10), Write::Remove(2)].as_slice());
}

// What a call of a desk is refused with, and nothing where it isn't refused.
fn refusal<R: Abort>(rt: &R, scene: &mut Scene<2>, call: DeskCall<u64, u64>) -> String {
    let alloc = scene.alloc;
    match scene.reply(call).expect(rt, ROOM).into_result() {
        Ok(_) => String::new(alloc),
        Err(e) => format!(in alloc; "{e}").expect(rt, ROOM),
    }
}

const BUSY: &str = "the label has a session already; the index is as it was";

const NO_SESSION: &str = "the label has no session; the index is as it was";

#[test]
fn refusals_of_a_desk_say_what_stands_after_them(rt: HostRuntime) {
    let mut scene = Scene::<2>::new(&rt, rt.alloc(), 1, 16, 0);
    let unknown = refusal(&rt, &mut scene, DeskCall::Len(7));
    let before = scene.desk.session(7).is_some();
    let opened = refusal(&rt, &mut scene, DeskCall::Open(7));
    let sessions = [
        before,
        scene.desk.session(7).is_some(),
        scene.desk.session(8).is_some(),
    ];
    let busy = refusal(&rt, &mut scene, DeskCall::Open(7));
    let full = refusal(&rt, &mut scene, DeskCall::Open(8));
    let writes = Vec::new(rt.alloc());
    let commit = refusal(&rt, &mut scene, DeskCall::Commit(ReadSet::Empty, writes));
    scene.end(&rt);
    assert_eq!(rt; (unknown.as_str(), opened.as_str()), (NO_SESSION, ""));
    assert_eq!(rt; sessions, [false, true, false]);
    assert_eq!(rt; (busy.as_str(), full.as_str()), (BUSY, NO_PLACE));
    assert_eq!(rt; commit.as_str(), REFUSED);
}
