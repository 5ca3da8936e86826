//! What sessions answer, by rows with answers written by hand.

ghost use Rattle.std.specs.Prelude.{◌≡◌};
ghost use Rattle.shared_session_tests.specs.Participants.{CanRead, StillRests};

use crate::calls::{self, asked, ended, opened, value};
use crate::place::{At, Item, Twos, copied};
use sdd_domain::local::Local;
use serial_history::{Answer, Near, Query, Seq};
use shared_sessions::SharedWalk;
use std::alloc::Global;
use std::ops::Bound;
use std::process::Abort;
use tree_index::Steps;
use version_views::Nearby;

const ROOM: &str = "room for pairs";

/// What is at a key or around it: the pairs that the ends of its cursor show.
type Shown = (Option<(u64, u64)>, Option<(u64, u64)>);

// The case and what its cursor shows.
fn shown(session: &Twos, key: u64) -> (&'static str, Shown) {
    match session.locate(&key) {
        Nearby::Exact(at) => ("exact", (copied(at.get()), copied(at.get_back()))),
        Nearby::Between(at) => ("between", (copied(at.get()), copied(at.get_back()))),
        Nearby::Smaller(at) => ("smaller", (copied(at.get()), copied(at.get_back()))),
        Nearby::Larger(at) => ("larger", (copied(at.get()), copied(at.get_back()))),
        Nearby::Empty => ("empty", (None, None)),
    }
}

// Whether a walk has these pairs before it, forth or back, and no others.
fn goes_along(walk: &mut SharedWalk<'_, u64, u64>, back: bool, pairs: &[(u64, u64)]) -> bool {
    let mut right = true;
    for at in 0..=pairs.len() {
        let pair = if back {
            copied(walk.next_back())
        } else {
            copied(walk.next())
        };
        right = pair == pairs.get(at).copied() && right;
    }
    right
}

// Whether a range has these pairs, forth, and these, back.
fn is_listed(
    session: &Twos,
    lower: Bound<u64>,
    upper: Bound<u64>,
    up: &[(u64, u64)],
    down: &[(u64, u64)],
) -> bool {
    let mut forth = session.range(lower.as_ref(), upper.as_ref());
    let mut back = session.range(lower.as_ref(), upper.as_ref());
    goes_along(&mut forth, false, up) && goes_along(&mut back, true, down)
}

// The answer that lists these pairs.
fn pairs<R: Abort>(rt: &R, alloc: Global, pairs: &[(u64, u64)]) -> Answer<u64, u64> {
    let copy = Vec::from_clones(alloc, pairs).expect(rt, ROOM);
    Answer::Range(Seq::from_vec(copy))
}

const KEYS: [(u64, Option<u64>); 8] = [
    (0, None),
    (1, Some(10)),
    (2, Some(20)),
    (3, None),
    (4, None),
    (5, Some(50)),
    (6, None),
    (u64::MAX, None),
];

/// Whether the keys are looked up as they are to be by each call that does so, and the session has its number and length.
fn are_looked_up(session: &Twos) -> bool {
    let mut steps = Steps::new();
    let mut right = session.number() == 1 && session.len() == 3;
    for (key, value) in KEYS {
        let got = calls::value(session, key) == value
            && session.get_counted(&key, &mut steps).copied() == value;
        let has = session.contains(&key) == value.is_some()
            && session.contains_counted(&key, &mut steps) == value.is_some();
        right = got && has && right;
    }
    right
}

const NEIGHBOURS: [(u64, (&str, Shown)); 6] = [
    (0, ("larger", (Some((1, 10)), None))),
    (1, ("exact", (Some((1, 10)), None))),
    (2, ("exact", (Some((2, 20)), None))),
    (3, ("between", (Some((2, 20)), Some((5, 50))))),
    (5, ("exact", (Some((5, 50)), None))),
    (6, ("smaller", (None, Some((5, 50))))),
];

/// Whether neighbours are located.
fn are_located(session: &Twos) -> bool {
    let mut right = true;
    for (key, wanted) in NEIGHBOURS {
        right = shown(session, key) == wanted && right;
    }
    right
}

/// A range, and its pairs forth and back.
type Ranged = (
    (Bound<u64>, Bound<u64>),
    &'static [(u64, u64)],
    &'static [(u64, u64)],
);

const RANGES: &[Ranged] = &[
    (
        (Bound::Unbounded, Bound::Unbounded),
        &[(1, 10), (2, 20), (5, 50)],
        &[(5, 50), (2, 20), (1, 10)],
    ),
    (
        (Bound::Excluded(1), Bound::Included(5)),
        &[(2, 20), (5, 50)],
        &[(5, 50), (2, 20)],
    ),
    (
        (Bound::Included(2), Bound::Excluded(5)),
        &[(2, 20)],
        &[(2, 20)],
    ),
    ((Bound::Included(5), Bound::Included(1)), &[], &[]),
];

/// Whether ranges are walked both ways.
fn are_walked(session: &Twos) -> bool {
    let mut right = true;
    for at in 0..RANGES.len() {
        let ((lower, upper), up, down) = RANGES[at];
        right = is_listed(session, lower, upper, up, down) && right;
    }
    right
}

/// What a walk through three pairs of the value 2 answers whose ends change places twice.
fn ends_change(session: &Twos) -> ([Option<(u64, u64)>; 6], [bool; 3]) {
    let mut walk = session.iter();
    let last = copied(walk.next_back());
    let middle = copied(walk.next_back());
    let first_flip = walk.flip();
    let forth = copied(walk.next());
    let second_flip = walk.flip();
    let back = copied(walk.next_back());
    let first = copied(walk.next());
    let none = copied(walk.next());
    (
        [last, middle, forth, back, first, none],
        [first_flip, second_flip, walk.flip()],
    )
}

/// What is looked at in a session.
#[derive(Clone, Copy)]
pub enum Look {
    Reads,
    Ends,
}

/// Whether a session answers as it is to. The values are 10, 20 and 50, or 2 each.
fn answers(session: &Twos, look: Look) -> bool {
    match look {
        Look::Reads => are_looked_up(session) && are_located(session) && are_walked(session),
        Look::Ends => ends_change(session)
            == (
                [
                    Some((5, 2)),
                    Some((2, 2)),
                    Some((5, 2)),
                    Some((2, 2)),
                    Some((1, 2)),
                    None,
                ],
                [true, true, false],
            ),
    }
}

/// Opens a session of the first version, looks at it, and closes it: whether it answers as it is to, and recorded nothing
/// meanwhile.
pub fn are_right(alloc: Global, at: At<'_>, local: &mut Local<Item>, look: Look) -> bool
    requires { CanRead at.domain.now at.cell.now local.old }
    ensures { StillRests local.old local.new }
{
    let Ok(session) = opened(alloc, at, local, 0) else {
        return false;
    };
    let right = answers(&session, look);
    let receipt = ended(at.domain, session, local);
    right && receipt.number == 1 && receipt.reads.as_slice().is_empty()
}

/// Whether a session of the empty list says that it has no pair.
fn is_empty(session: &Twos) -> bool {
    let nothing = value(session, 1).is_none() && !session.contains(&1);
    session.number() == 0
        && session.len() == 0
        && nothing
        && shown(session, 1) == ("empty", (None, None))
        && session.iter().next().is_none()
}

/// Has a session read each query, and returns whether each answers what it is to, and is recorded by that; and whether the receipt
/// has the first number all the time.
fn records<R: Abort>(rt: &R, session: &mut Twos, rows: &[(Query<u64>, Answer<u64, u64>)]) -> bool
    ensures { session.new.nest ≡ session.old.nest }
{
    let number = session.number();
    let mut right = true;
    for at in 0..rows.len() {
        let query = rows[at].0.clone().expect(rt, ROOM);
        let told = asked(session, query).expect(rt, ROOM) == rows[at].1;
        let recorded = session.receipt().reads.as_slice().len() == at + 1;
        right = told && recorded && session.receipt().number == number && right;
    }
    right
}

/// Whether a session of the first version records these reads, its receipt has them, and what isn't recorded leaves the receipt
/// as it is. The version has the number 1 and the value 50 at the key 5, or is empty.
fn are_recorded<R: Abort>(
    rt: &R,
    alloc: Global,
    at: At<'_>,
    local: &mut Local<Item>,
    rows: &[(Query<u64>, Answer<u64, u64>)],
) -> bool
    requires { CanRead at.domain.now at.cell.now local.old }
    ensures { StillRests local.old local.new }
{
    let Ok(mut session) = opened(alloc, at, local, 0) else {
        return false;
    };
    let recorded = records(rt, &mut session, rows);
    let last = value(&session, 5);
    let number = session.number();
    let plain = is_empty(&session) || (number, last) == (1, Some(50));
    let receipt = ended(at.domain, session, local);
    recorded && plain && receipt.number == number && receipt.reads.as_slice() == rows
}

/// Whether each kind of query is recorded.
pub fn each_kind<R: Abort>(rt: &R, alloc: Global, at: At<'_>, local: &mut Local<Item>) -> bool
    requires { CanRead at.domain.now at.cell.now local.old }
    ensures { StillRests local.old local.new }
{
    let range = Query::Range(Bound::Included(2), Bound::Unbounded);
    let head = Query::First(Bound::Included(2), Bound::Unbounded, 1);
    let tail = Query::Last(Bound::Unbounded, Bound::Excluded(5), 1);
    let rows = [
        (Query::Get(1), Answer::Get(Some(10))),
        (Query::Get(3), Answer::Get(None)),
        (Query::Contains(5), Answer::Contains(true)),
        (Query::Contains(4), Answer::Contains(false)),
        (range, pairs(rt, alloc, &[(2, 20), (5, 50)])),
        (head, pairs(rt, alloc, &[(2, 20)])),
        (tail, pairs(rt, alloc, &[(2, 20)])),
        (Query::Locate(2), Answer::Locate(Near::Exact(2, 20))),
        (
            Query::Locate(4),
            Answer::Locate(Near::Between(2, 20, 5, 50)),
        ),
        (Query::Locate(6), Answer::Locate(Near::Smaller(5, 50))),
        (Query::Locate(0), Answer::Locate(Near::Larger(1, 10))),
    ];
    are_recorded(rt, alloc, at, local, &rows)
}

/// Whether the empty list answers that it has no pair.
pub fn of_nothing<R: Abort>(rt: &R, alloc: Global, at: At<'_>, local: &mut Local<Item>) -> bool
    requires { CanRead at.domain.now at.cell.now local.old }
    ensures { StillRests local.old local.new }
{
    let all = Query::Range(Bound::Unbounded, Bound::Unbounded);
    let rows = [
        (Query::Locate(1), Answer::Locate(Near::Empty)),
        (all, pairs(rt, alloc, &[])),
    ];
    are_recorded(rt, alloc, at, local, &rows)
}
