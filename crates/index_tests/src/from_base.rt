//! Indexes that begin with a list: by example, and as another index left it.

ghost use Rattle.std.specs.Prelude.{◌≡◌, None, replicate, IfOk};
ghost use Rattle.version_views.specs.Sizes.{IsStoreSized};

use crate::scene::{Numbers, Scene};
use crate::table::Call::{Audit, Commit, Look, Open};
use crate::table::Claim::Got;
use crate::table::Told::{Accepted, Audited, Opened, Seen};
use crate::table::{Row, play};
use index_rows::{BASES, BaseCase, Begun, FIVE, NoBase};
use local_index::Audit::{TooOld, Yes};
use local_index::Reply::Upserted;
use local_index::Write::Upsert;
use local_index::{BaseCause, BaseRefused, LocalIndex, Receipt, ScopedIndex};
use std::alloc::{AllocError, Global};
use std::process::Abort;

const ROOM: &str = "memory";

// Whether an index with one place answers calls as is wanted. It is ended.
fn plays<R: Abort>(rt: &R, alloc: Global, index: Numbers, rows: &[Row]) -> bool
    requires { index.places ≡ replicate 1 None }
{
    let mut scene = Scene::of(rt, alloc, index, (1, false));
    let (right, made) = play(&mut scene, &[rows]);
    scene.end(rt);
    right == made
}

// An index with one place that begins with a list, or why there is none, with the pairs.
fn held(
    alloc: Global,
    number: u64,
    pairs: Vec<(u64, u64)>,
    slots: usize,
) -> Result<Numbers, BaseRefused<u64, u64>>
    requires { IsStoreSized 1 slots 2 }
    ensures { IfOk result (λ index. index.places ≡ replicate 1 None) }
{
    Numbers::from_base(alloc, number, pairs, 1, slots)
}

// The cause that a row names.
fn cause_of(why: NoBase) -> BaseCause {
    match why {
        NoBase::NotAscending(place) => BaseCause::NotAscending(place),
        NoBase::NoSlot => BaseCause::NoSlot,
    }
}

// Whether an index begins with a list as is wanted: with so many slots in use, and these answers, or not.
fn begins<R: Abort>(
    rt: &R,
    alloc: Global,
    case: &BaseCase,
    wanted: Result<usize, BaseCause>,
    rows: &[Row],
) -> bool {
    if case.slots.local == 0 || case.slots.local > 16 {
        panic!(rt; "a small index");
    }
    let pairs = Vec::from_clones(alloc, case.pairs).expect(rt, ROOM);
    match held(alloc, case.number, pairs, case.slots.local) {
        Ok(index) => {
            let found = Ok(index.slots_in_use());
            plays(rt, alloc, index, rows) && found == wanted
        }
        Err(refused) => refused.pairs.as_slice() == case.pairs && wanted == Err(refused.cause),
    }
}

// Whether it does, with sessions and without them.
fn is_begun<R: Abort>(rt: &R, alloc: Global, case: &BaseCase) -> bool {
    match case.told {
        Begun::With(used, rows, by_sessions) => {
            begins(rt, alloc, case, Ok(used.local), rows)
                && begins(rt, alloc, case, Ok(used.local), by_sessions)
        }
        Begun::Not(why) => begins(rt, alloc, case, Err(cause_of(why)), &[]),
    }
}

#[test]
fn an_index_begins_with_a_list(rt: HostRuntime) {
    for at in 0..BASES.len() {
        assert!(rt; is_begun(&rt, rt.alloc(), &BASES[at]), "case {at}");
    }
}

// The base of an index whose key 1 was 10, 11 and 12 by numbers 1, 2 and 3, and whose base is the list of 2.
fn left<R: Abort>(rt: &R, alloc: Global) -> (u64, Vec<(u64, u64)>) {
    let mut scope = ScopedIndex::<u64, u64, 2>::new(alloc, 1, 16).expect(rt, ROOM);
    for value in 10..=12u64 {
        let writes = Vec::from_clones(alloc, &[Upsert(1, value)]).expect(rt, ROOM);
        assert!(rt; scope.index.commit(&Receipt::blank(alloc), writes).is_ok());
    }
    assert!(rt; scope.index.checkpoint(2).is_ok());
    let (number, pairs) = scope.index.base();
    (number, Vec::from_clones(alloc, pairs).expect(rt, ROOM))
}

// It continues where the other one was.
const FOLLOWS: &[Row] = &[
    (Open(1), Opened(2)),
    (Look(1, 1), Seen(2, 1, Some(11))),
    (Audit(2, &[Got(1, Some(11))]), Audited(Yes)),
    (Audit(1, &[Got(1, Some(10))]), Audited(TooOld(2))),
    (Commit(&[Upsert(1, 12)]), Accepted(3, &[Upserted])),
    (Audit(3, &[Got(1, Some(12))]), Audited(Yes)),
];

#[test]
fn an_index_goes_on_from_the_base_of_another_one(rt: HostRuntime) {
    let (number, pairs) = left(&rt, rt.alloc());
    assert!(rt; number == 2 && pairs.as_slice() == [(1, 11)].as_slice());
    match held(rt.alloc(), number, pairs, 16) {
        Ok(index) => assert!(rt; plays(&rt, rt.alloc(), index, FOLLOWS)),
        Err(_) => panic!(rt; "memory is there, and slots are"),
    }
}

// How many slots are in use where an index begins with these pairs at number 7, or why there is none; none where its base is
// another list than the five pairs.
fn used(alloc: Global, pairs: Vec<(u64, u64)>, slots: usize) -> Result<usize, BaseRefused<u64, u64>>
    requires { IsStoreSized 1 slots 2 }
{
    let scope = ScopedIndex {
        index: held(alloc, 7, pairs, slots)?,
    };
    let is_five = scope.index.base() == (7, FIVE);
    Ok(if is_five {
        scope.index.slots_in_use()
    } else {
        0
    })
}

// The same of the five pairs, made again of what is handed back where memory was refused.
fn used_again(
    alloc: Global,
    slots: usize,
    met: &mut bool,
) -> Result<Result<usize, BaseRefused<u64, u64>>, AllocError>
    requires { IsStoreSized 1 slots 2 }
{
    let told = used(alloc, Vec::from_clones(alloc, FIVE)?, slots);
    Ok(match told {
        Err(refused) if refused.cause == BaseCause::Memory => {
            *met = true;
            used(alloc, refused.pairs, slots)
        }
        told => told,
    })
}

/// Whether indexes are made so of the five pairs: with a slot less than they take, and with as many.
pub(crate) fn begins_again(alloc: Global, met: &mut bool) -> Result<bool, AllocError> {
    let Err(refused) = used_again(alloc, 3, met)? else {
        return Ok(false);
    };
    let is_full = refused.cause == BaseCause::NoSlot && refused.pairs.as_slice() == FIVE;
    let used = used_again(alloc, 4, met)?;
    Ok(is_full && used.is_ok_and(|slots| slots == 4))
}
