//! Texts as keys and values, as a caller has them.

use local_index::{Audit, Cause, LocalIndex, Query, Receipt, Reply, Text, Write};
use std::alloc::{AllocError, Global};
use std::ops::Bound;
use std::process::Abort;

// A directory of telephone numbers, by names.
type Book = LocalIndex<Text, Text, 2>;

const ROOM: &str = "memory";

// Inserts of these pairs.
fn inserts(alloc: Global, pairs: &[(&str, &str)]) -> Result<Vec<Write<Text, Text>>, AllocError> {
    let mut writes = Vec::new(alloc);
    for (key, value) in pairs {
        let key = Text::new(alloc, key)?;
        writes.push(Write::Insert(key, Text::new(alloc, value)?))?;
    }
    Ok(writes)
}

// Commits inserts of these pairs: the number, and whether no pair had one of the keys; or why it is refused.
fn commit<R: Abort>(
    rt: &R,
    alloc: Global,
    book: &mut Book,
    receipt: &Receipt<Text, Text>,
    pairs: &[(&str, &str)],
) -> Result<(u64, bool), Cause> {
    let writes = inserts(alloc, pairs).expect(rt, ROOM);
    match book.commit(receipt, writes) {
        Ok(accepted) => {
            let replies = accepted.replies.as_slice();
            let inserted = replies.iter().all(|reply| *reply == Reply::Inserted);
            Ok((accepted.number, inserted && replies.len() == pairs.len()))
        }
        Err(refused) => Err(refused.cause),
    }
}

// Ends a book without sessions.
fn end<R: Abort>(rt: &R, book: Book) {
    match book.close() {
        Ok(()) => {}
        Err(_open) => panic!(rt; "a session is open"),
    }
}

// What a session reads from a name on, in print, and its receipt.
fn read_from<R: Abort>(
    rt: &R,
    alloc: Global,
    book: &mut Book,
    name: &str,
) -> (String, Receipt<Text, Text>) {
    let key = Text::new(alloc, name).expect(rt, ROOM);
    let query = Query::Range(Bound::Included(key), Bound::Unbounded);
    let mut session = book.open().expect(rt, "a free place");
    let answer = book.read(&mut session, query).expect(rt, ROOM);
    let receipt = book.close_session(session);
    (format!(in alloc; "{answer:?}").expect(rt, ROOM), receipt)
}

// What a book has from a name on, in print; whether an audit finds that again; and the answers to commits on that read, of a pair
// outside it, of one inside, and then of nothing.
type Found = (String, Audit, [Result<(u64, bool), Cause>; 3]);

fn found<R: Abort>(rt: &R, alloc: Global, book: &mut Book) -> Found {
    let (told, receipt) = read_from(rt, alloc, book, "Noether");
    let audit = book.audit(&receipt).expect(rt, ROOM);
    let outside = commit(rt, alloc, book, &receipt, &[("Hopper", "1906")]);
    let inside = commit(rt, alloc, book, &receipt, &[("Turing", "1912")]);
    let nothing = commit(rt, alloc, book, &receipt, &[]);
    (told, audit, [outside, inside, nothing])
}

const PAIRS: &[(&str, &str)] = &[("Noether", "1882"), ("Lovelace", "1815"), ("Nöther", "2")];

// By bytes, so an umlaut comes behind all letters without one.
const FROM_NOETHER: &str = "Range([(\"Noether\", \"1882\"), (\"Nöther\", \"2\")])";

#[test]
fn an_index_of_texts_is_read_and_written(rt: HostRuntime) {
    let alloc = rt.alloc();
    let mut book = Book::new(alloc, 1, 32).expect(&rt, ROOM);
    let first = commit(&rt, alloc, &mut book, &Receipt::blank(alloc), PAIRS);
    let (told, audit, commits) = found(&rt, alloc, &mut book);
    end(&rt, book);
    assert_eq!(rt;
        (first, told.as_str(), audit),
        (Ok((1, true)), FROM_NOETHER, Audit::Yes)
    );
    // a pair had entered the range
    assert_eq!(rt;
        commits,
        [Ok((2, true)), Ok((3, true)), Err(Cause::Conflict(0))]
    );
}

// Whether a text is compared, cloned, printed for a reader and as a value, and given back as it was.
fn are_texts(alloc: Global) -> Result<bool, AllocError> {
    let one = Text::new(alloc, "a \"b\"")?;
    let other = Text::from(String::from_str(alloc, "a")?);
    let compared = other < one && one.clone()? == one;
    let plain = format!(in alloc; "{one}")?;
    let quoted = format!(in alloc; "{one:?}")?;
    let printed = plain.as_str() == "a \"b\"" && quoted.as_str() == "\"a \\\"b\\\"\"";
    Ok(compared && printed && other.into_string().as_str() == "a")
}

#[test]
fn texts_are_made_compared_and_printed(rt: HostRuntime) {
    assert!(rt; are_texts(rt.alloc()) == Ok(true));
}
