//! An index of one thread that continues in two threads, and back: each begins with the base of the one before.

ghost use Rattle.shared_index_tests.specs.Scenes.{CanBegin};

use crate::calls::Desk;
use crate::joined::Task;
use crate::joined::Task::{Raises, Rests};
use crate::place::{ROOM, got};
use crate::scene::{Nothing, begun, closed, empty, end, place, plays, staged};
use crate::stage::{Stage, Start};
use local_index::LocalIndex;
use serial_history::{Answer, Audit, CheckpointRefused, Receipt};
use shared_index::{BaseList, Naming, SharedBaseCause};
use std::alloc::{AllocError, Global};
use std::marker::Brand;
use std::process::Abort;
use std::sync::Wait;
use std::thread::Threads;
use version_views::Write;

/// An index of one thread.
type Alone = LocalIndex<u64, u64, 2>;

/// What the first index leaves, at number 3.
const FIRST: &[(u64, u64)] = &[(1, 10), (2, 20), (3, 30)];

/// What two threads leave of it, which write a key fifty times each, at number 103.
const LAST: &[(u64, u64)] = &[(1, 10), (2, 20), (3, 30), (11, 50), (12, 50)];

const TASKS: [Task; 6] = [Raises(11, 50), Raises(12, 50), Rests, Rests, Rests, Rests];

/// Ends an index of one thread, which has no session.
fn done<R: Abort>(rt: &R, index: Alone) {
    match index.close() {
        Ok(()) => {}
        Err(_) => panic!(rt; "no session is open"),
    }
}

/// Commits a write that rests on nothing: its number. None where it is refused.
fn written<R: Abort>(
    rt: &R,
    alloc: Global,
    index: &mut Alone,
    key: u64,
    value: u64,
) -> Option<u64> {
    let writes = Vec::from_clones(alloc, &[Write::Upsert(key, value)]).expect(rt, ROOM);
    match index.commit(&Receipt::blank(alloc), writes) {
        Ok(told) => Some(told.number),
        Err(_) => None,
    }
}

/// An index of one thread writes three pairs, and has their list for its base.
fn alone<R: Abort>(rt: &R, alloc: Global) {
    let mut index = match Alone::new(alloc, 1, 64) {
        Ok(index) => index,
        Err(AllocError) => panic!(rt; "{ROOM}"),
    };
    for (key, value) in FIRST {
        assert!(rt; written(rt, alloc, &mut index, *key, *value).is_some());
    }
    assert!(rt; index.checkpoint(3).is_ok());
    assert!(rt; index.base() == (3, FIRST));
    done(rt, index);
}

/// What a session reads: its number, and all pairs.
type Seen = (u64, Answer<u64, u64>);

impl<L: Naming, R: Wait + Abort, const S: usize> Desk<'_, '_, L, R, S> {
    /// What a session of a new participant reads, and what audits of the number before it and of its own say of its first pair.
    fn seen(&self) -> (Seen, [Audit; 2]) {
        let (told, receipt) = self.listed(0);
        let before = receipt.number.saturating_sub(1);
        let audits = [
            self.audit(&got(self.rt, self.alloc, before, 1, Some(10)))
                .expect(self.rt, ROOM),
            self.audit(&receipt).expect(self.rt, ROOM),
        ];
        ((receipt.number, told), audits)
    }
}

/// Whether a session read this list at this number.
fn is_seen(seen: &Seen, number: u64, list: &[(u64, u64)]) -> bool {
    match &seen.1 {
        Answer::Range(pairs) => seen.0 == number && pairs.as_slice() == list,
        _ => false,
    }
}

/// Whether a session read this list at this number, and audits said this of the number before it and `Yes` of its own.
fn is_read(found: &(Seen, [Audit; 2]), number: u64, list: &[(u64, u64)], before: Audit) -> bool {
    is_seen(&found.0, number, list) && found.1 == [before, Audit::Yes]
}

/// Whether a list is this one.
fn is_list(list: &BaseList<u64, u64>, number: u64, pairs: &[(u64, u64)]) -> bool {
    list.number == number && list.pairs.as_slice() == pairs
}

/// What is found of the index that threads share: what a session reads before they write and afterwards, with what audits say,
/// what the threads get as answers, its base at the end, and the number that it ends at.
type Found = (
    [(Seen, [Audit; 2]); 2],
    [Option<u64>; 6],
    (Result<(), CheckpointRefused>, BaseList<u64, u64>),
    u64,
);

/// Begins an index with the list, has two threads write, and ends it.
fn shared<L: Naming + Send + Sync, R: Threads + Wait + Abort + Sync>(
    rt: &R,
    alloc: Global,
    stage: Stage<'_>,
) -> Found
    requires { CanBegin L.place L.name L.parts L.last stage }
{
    let (index, mut shares) = begun::<L, R, 2>(rt, alloc, stage);
    let desk = Desk::of(rt, alloc, &index);
    let first = desk.seen();
    let told = desk.six(&mut shares, TASKS);
    let last = desk.seen();
    let (checked, list) = desk.based(103);
    let list = list.expect(rt, ROOM);
    let number = closed(rt, index, shares);
    ([first, last], told, (checked, list), number)
}

/// Whether an index of one thread continues from there.
fn goes_on<R: Abort>(rt: &R, alloc: Global, list: BaseList<u64, u64>) -> bool {
    let BaseList { number, pairs } = list;
    let mut index = match Alone::from_base(alloc, number, pairs, 1, 64) {
        Ok(index) => index,
        Err(_) => panic!(rt; "memory is there, and slots are"),
    };
    let told = written(rt, alloc, &mut index, 1, 11);
    let kept = index.base() == (103, LAST);
    done(rt, index);
    told == Some(104) && kept
}

#[test]
fn an_index_of_one_thread_goes_on_in_two_and_back(rt: HostRuntime) {
    let alloc = rt.alloc();
    alone(&rt, alloc);
    let start = Start {
        base: Some((3, FIRST)),
        ..empty(3, 1024, 2)
    };
    let domain = place(&rt, alloc, start);
    let stage = staged(&rt, &domain, start);
    let found = shared::<Brand, _>(&rt, alloc, stage);
    end(&rt, domain);
    let (seen, told, based, number) = found;
    assert!(rt; is_read(&seen[0], 3, FIRST, Audit::TooOld(3)));
    assert!(rt; is_read(&seen[1], 103, LAST, Audit::Yes));
    // the first share, which the second thread has, began at 3
    assert_eq!(rt; told, [Some(50), Some(53), None, None, None, None]);
    let (checked, list) = based;
    assert!(rt; checked.is_ok() && number == 103);
    assert!(rt; is_list(&list, 103, LAST));
    assert!(rt; goes_on(&rt, alloc, list));
}

/// Why no index begins with the list in a place of so many slots; none where one does.
fn refused<R: Abort>(
    rt: &R,
    alloc: Global,
    slots: u16,
    list: &'static [(u64, u64)],
) -> Option<SharedBaseCause> {
    let start = Start {
        base: Some((7, list)),
        ..empty(2, slots, 1)
    };
    plays(rt, alloc, start, Nothing)
}

#[test]
fn no_index_begins_where_keys_do_not_rise_or_slots_are_too_few(rt: HostRuntime) {
    let told = [
        refused(&rt, rt.alloc(), 2, &[(2, 20), (1, 10)]),
        refused(
            &rt,
            rt.alloc(),
            2,
            &[(1, 10), (1, 11), (2, 20), (3, 30), (4, 40)],
        ),
        refused(&rt, rt.alloc(), 1, LAST),
        refused(&rt, rt.alloc(), 2, LAST),
    ];
    assert!(rt; told == [
        Some(SharedBaseCause::NotAscending(1)),
        Some(SharedBaseCause::NotAscending(1)),
        // a row and a version
        Some(SharedBaseCause::NoSlot),
        None,
    ]);
}
