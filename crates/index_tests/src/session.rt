//! Sessions and commits of an index, by example.

ghost use Rattle.local_index.specs.State.{IsSessionOf};

use crate::scene::Numbers;
use crate::table::Call::{Close, Commit, Look, Open};
use crate::table::Told::{Accepted, Closed, NoPlace, Opened, Seen};
use crate::table::{ROOMY, Table, first_wrong};
use index_rows::{COMMITS, CONFLICTS, LAST_NUMBER};
use local_index::Reply::{Duplicate, Inserted};
use local_index::Write::Insert;
use local_index::{LocalIndex, Receipt, Seq, Session, clones_of_lists, equals_of_lists};
use std::alloc::Global;
use std::process::Abort;

const ROOM: &str = "memory";

const FREE: &str = "a free place";

// Ends an index with a session, which is handed back, and closes the session then; gives the number that it read.
fn refuse_to_close<R: Abort>(rt: &R, index: Numbers, session: Session<u64, u64>) -> (Numbers, u64)
    requires { IsSessionOf index session }
{
    match index.close() {
        Ok(()) => panic!(rt; "it was closed with a session open"),
        Err(mut back) => {
            let receipt = back.close_session(session);
            (back, receipt.number)
        }
    }
}

#[test]
fn an_index_isnt_closed_while_a_session_is_open(rt: HostRuntime) {
    let mut index = Numbers::new(rt.alloc(), 1, 16).expect(&rt, ROOM);
    let session = index.open().expect(&rt, FREE);
    let (index, number) = refuse_to_close(&rt, index, session);
    match index.close() {
        Ok(()) => assert!(rt; number == 0),
        Err(_open) => panic!(rt; "no session is open"),
    }
}

const TABLES: &[Table] = &[
    Table {
        about: "a session reads the list at its opening",
        slots: 16,
        parts: &[&[
            (
                Commit(&[Insert(1, 10), Insert(1, 11)]),
                Accepted(1, &[Inserted, Duplicate]),
            ),
            (Open(1), Opened(1)),
            (Commit(&[Insert(2, 20)]), Accepted(2, &[Inserted])),
            (Look(1, 1), Seen(1, 1, Some(10))),
            (Look(1, 2), Seen(1, 1, None)),
            (Open(2), NoPlace),
            (Close(1), Closed(1, &[])),
            (Open(2), Opened(2)),
            (Look(2, 1), Seen(2, 2, Some(10))),
            (Look(2, 2), Seen(2, 2, Some(20))),
            (Close(2), Closed(2, &[])),
        ]],
        ..ROOMY
    },
    LAST_NUMBER,
];

#[test]
fn sessions_read_and_commits_are_tested_by_answers(rt: HostRuntime) {
    let own = first_wrong::<_, 2>(&rt, rt.alloc(), TABLES);
    let commits = first_wrong::<_, 2>(&rt, rt.alloc(), COMMITS);
    let conflicts = first_wrong::<_, 2>(&rt, rt.alloc(), CONFLICTS);
    assert_eq!(rt; [own, commits, conflicts], [None; 3]);
}

// An index whose keys and values are byte strings.
type Bytes = LocalIndex<Seq<u8>, Seq<u8>, 64>;

fn bytes<R: Abort>(rt: &R, alloc: Global, text: &[u8]) -> Seq<u8> {
    Seq::from_vec(Vec::from_slice(alloc, text).expect(rt, ROOM))
}

// Commits an insert of a pair of byte strings, a name and a value, and gives the number.
fn insert_bytes<R: Abort>(rt: &R, alloc: Global, index: &mut Bytes) -> u64 {
    let mut writes = Vec::new(alloc);
    let write = Insert(bytes(rt, alloc, b"name"), bytes(rt, alloc, b"value"));
    writes.push(write).expect(rt, ROOM);
    clones_of_lists::<u8>();
    equals_of_lists::<u8>();
    let blank = Receipt::blank(alloc);
    index.commit(&blank, writes).expect(rt, "accepted").number
}

// Whether the present list has this value at the key.
fn has_bytes<R: Abort>(rt: &R, index: &mut Bytes, key: &Seq<u8>, value: &Seq<u8>) -> bool {
    let session = index.open().expect(rt, FREE);
    let found = index.get(&session, key) == Some(value);
    let _receipt = index.close_session(session);
    found
}

#[test]
fn byte_strings_are_keys_and_values(rt: HostRuntime) {
    let alloc = rt.alloc();
    let name = bytes(&rt, alloc, b"name");
    let value = bytes(&rt, alloc, b"value");
    let mut index = Bytes::new(alloc, 1, 16).expect(&rt, ROOM);
    let number = insert_bytes(&rt, alloc, &mut index);
    let found = has_bytes(&rt, &mut index, &name, &value);
    match index.close() {
        Ok(()) => assert!(rt; number == 1 && found),
        Err(_open) => panic!(rt; "a session is open"),
    }
}
