//! Recorded reads, conflicts, audits and cursors.

ghost use Rattle.local_index.specs.State.{IsSessionOf};

use crate::scene::{Numbers, Scene};
use crate::table::Call::{Audit, Close, Commit, CommitOn, InsertEven, InsertTo, Open, Read};
use crate::table::Claim::{Between, Exact, Got, Has, Larger, Listed, Smaller};
use crate::table::Told::{Accepted, All, Audited, Closed, Holds, Opened, Refused};
use crate::table::{Claim, ROOMY, Row, Table, first_wrong};
use index_rows::AUDITS;
use local_index::Audit::{No, Yes};
use local_index::Cause::Conflict;
use local_index::Reply::{Cleared, Inserted, Removed, Upserted};
use local_index::Write::{Clear, Insert, Remove, Upsert};
use local_index::{Session, Write};
use local_versions::Nearby;
use std::ops::Bound::{Excluded, Included, Unbounded};

// The pairs from 3 to 5.
const FROM_3: Claim = Listed(Included(3), Included(5), &[(4, 4)]);

const ODD: &[Write<u64, u64>] = &[
    Insert(1, 1),
    Insert(3, 3),
    Insert(5, 5),
    Insert(7, 7),
    Insert(9, 9),
];

// A read of each other kind, of the odd keys below ten.
const READ: &[Claim] = &[
    Got(3, Some(3)),
    Has(4, false),
    Between(4, (3, 3), (5, 5)),
    Exact(7, (7, 7)),
    Smaller(10, (9, 9)),
    Larger(0, (1, 1)),
];

// Reads of all pairs, as the lists with the numbers 0 to 6 have them after the commits below.
pub(crate) const LIST_0: Claim = Listed(Unbounded, Unbounded, &[]);

pub(crate) const LIST_1: Claim = Listed(Unbounded, Unbounded, &[(1, 10)]);

pub(crate) const LIST_2: Claim = Listed(Unbounded, Unbounded, &[(1, 10), (2, 20)]);

pub(crate) const LIST_3: Claim = Listed(Unbounded, Unbounded, &[(2, 21)]);

pub(crate) const LIST_4: Claim = Listed(Unbounded, Unbounded, &[(5, 50)]);

pub(crate) const LIST_5: Claim = Listed(Unbounded, Unbounded, &[(5, 50), (6, 60)]);

pub(crate) const LIST_6: Claim = Listed(Unbounded, Unbounded, &[(5, 50), (6, 60), (7, 70)]);

// The commits with the numbers 1 to 6.
pub(crate) const COMMIT_1: Row = (Commit(&[Upsert(1, 10)]), Accepted(1, &[Upserted]));

pub(crate) const COMMIT_2: Row = (Commit(&[Upsert(2, 20)]), Accepted(2, &[Upserted]));

pub(crate) const COMMIT_3: Row = (
    Commit(&[Remove(1), Upsert(2, 21)]),
    Accepted(3, &[Removed, Upserted]),
);

pub(crate) const COMMIT_4: Row = (
    Commit(&[Insert(4, 40), Clear, Insert(5, 50)]),
    Accepted(4, &[Inserted, Cleared, Inserted]),
);

pub(crate) const COMMIT_5: Row = (Commit(&[Insert(6, 60)]), Accepted(5, &[Inserted]));

pub(crate) const COMMIT_6: Row = (Commit(&[Insert(7, 70)]), Accepted(6, &[Inserted]));

pub(crate) const COMMITS_FROM_2: &[Row] = &[COMMIT_2, COMMIT_3, COMMIT_4, COMMIT_5, COMMIT_6];

// Audits of each number by its own list, and by the next.
const BY_LISTS: &[Row] = &[
    (Audit(0, &[LIST_0]), Audited(Yes)),
    (Audit(1, &[LIST_1]), Audited(Yes)),
    (Audit(2, &[LIST_2]), Audited(Yes)),
    (Audit(3, &[LIST_3]), Audited(Yes)),
    (Audit(4, &[LIST_4]), Audited(Yes)),
    (Audit(5, &[LIST_5]), Audited(Yes)),
    (Audit(6, &[LIST_6]), Audited(Yes)),
    (Audit(0, &[LIST_1]), Audited(No(0))),
    (Audit(1, &[LIST_2]), Audited(No(0))),
    (Audit(2, &[LIST_3]), Audited(No(0))),
    (Audit(3, &[LIST_4]), Audited(No(0))),
    (Audit(4, &[LIST_5]), Audited(No(0))),
    (Audit(5, &[LIST_6]), Audited(No(0))),
    (Audit(6, &[LIST_0]), Audited(No(0))),
];

const TABLES: &[Table] = &[
    Table {
        about: "a pair that entered a recorded range conflicts",
        slots: 32,
        parts: &[&[
            (InsertEven(2), All(1, 2, Inserted)),
            (Open(1), Opened(1)),
            (Read(1, FROM_3), Holds),
            (Close(1), Closed(1, &[FROM_3])),
            (Commit(&[Insert(5, 1)]), Accepted(2, &[Inserted])),
            (CommitOn(1, &[FROM_3], &[]), Refused(Conflict(0))),
            (Audit(1, &[FROM_3]), Audited(Yes)),
        ]],
        ..ROOMY
    },
    Table {
        about: "a pair that left a recorded range conflicts",
        slots: 32,
        parts: &[&[
            (InsertEven(2), All(1, 2, Inserted)),
            (Open(1), Opened(1)),
            (Read(1, FROM_3), Holds),
            (Close(1), Closed(1, &[FROM_3])),
            (Commit(&[Remove(4)]), Accepted(2, &[Removed])),
            (CommitOn(1, &[FROM_3], &[]), Refused(Conflict(0))),
            (Audit(1, &[FROM_3]), Audited(Yes)),
        ]],
        ..ROOMY
    },
    Table {
        about: "each kind of read is recorded",
        slots: 32,
        parts: &[&[
            (Commit(ODD), Accepted(1, &[Inserted; 5])),
            (Open(1), Opened(1)),
            (Read(1, Got(3, Some(3))), Holds),
            (Read(1, Has(4, false)), Holds),
            (Read(1, Between(4, (3, 3), (5, 5))), Holds),
            (Read(1, Exact(7, (7, 7))), Holds),
            (Read(1, Smaller(10, (9, 9))), Holds),
            (Read(1, Larger(0, (1, 1))), Holds),
            (Close(1), Closed(1, READ)),
            (Audit(1, READ), Audited(Yes)),
        ]],
        ..ROOMY
    },
    // Lists are made again from that of the session, from a clearing behind it, and from the empty one.
    Table {
        about: "an audit of any number finds its list",
        parts: &[
            &[COMMIT_1, (Open(1), Opened(1))],
            COMMITS_FROM_2,
            BY_LISTS,
            &[(Close(1), Closed(1, &[]))],
            BY_LISTS,
        ],
        ..ROOMY
    },
    Table {
        about: "an audit takes no later list for an earlier one",
        parts: &[
            &[COMMIT_1, COMMIT_2, COMMIT_3, COMMIT_4, COMMIT_5],
            &[(Open(1), Opened(5)), COMMIT_6],
            BY_LISTS,
        ],
        ..ROOMY
    },
];

#[test]
fn reads_are_recorded_tested_and_audited(rt: HostRuntime) {
    assert_eq!(rt; first_wrong::<_, 2>(&rt, rt.alloc(), TABLES), None);
    assert_eq!(rt; first_wrong::<_, 2>(&rt, rt.alloc(), AUDITS), None);
}

fn read(pair: Option<(&u64, &u64)>) -> Option<(u64, u64)> {
    match pair {
        Some((key, value)) => Some((*key, *value)),
        None => None,
    }
}

// Steps along the list of a session: one forth, one back, and two forth.
fn walked(index: &Numbers, session: &Session<u64, u64>) -> [Option<(u64, u64)>; 4]
    requires { IsSessionOf index.now session.now }
{
    let mut walk = index.iter(session);
    [
        read(walk.next()),
        read(walk.next_back()),
        read(walk.next()),
        read(walk.next()),
    ]
}

// The first pair above a key.
fn above<'a>(index: &'a Numbers, session: &Session<u64, u64>, key: &'a u64) -> Option<(u64, u64)>
    requires { IsSessionOf index.now session.now }
{
    let mut rest = index.range(session, Excluded(key), Unbounded);
    read(rest.next())
}

// The pair with a key, where it is located exactly.
fn located(index: &Numbers, session: &Session<u64, u64>, key: u64) -> Option<(u64, u64)>
    requires { IsSessionOf index.now session.now }
{
    match index.locate(session, &key) {
        Nearby::Exact(at) => read(at.get()),
        _ => None,
    }
}

// What a session reads by cursors of its list: steps along it, the first pair above 1, and the pair with the key 2.
fn gone_along(
    scene: &Scene<2>,
    label: u64,
) -> Option<([Option<(u64, u64)>; 4], [Option<(u64, u64)>; 2])> {
    let Some(session) = scene.session(label) else {
        return None;
    };
    let one = 1u64;
    let found = [
        above(&scene.index, session, &one),
        located(&scene.index, session, 2),
    ];
    Some((walked(&scene.index, session), found))
}

#[test]
fn a_session_walks_along_its_list(rt: HostRuntime) {
    let mut scene = Scene::<2>::new(&rt, rt.alloc(), 1, 32, u64::MAX);
    let made = scene.answers(InsertTo(3), All(1, 3, Inserted));
    let opened = scene.answers(Open(1), Opened(1));
    let seen = gone_along(&scene, 1);
    scene.end(&rt);
    let steps = [Some((1, 1)), Some((3, 3)), Some((2, 2)), None];
    assert!(rt; made && opened && seen == Some((steps, [Some((2, 2)); 2])));
}
