//! Sessions beside versions that are published meanwhile.

ghost use Rattle.shared_session_tests.specs.Participants.{CanRead, CanWrite, StillRests};

use crate::calls::{asked, closed, ended, in_use, leave, opened, retire, value};
use crate::place::{At, First, Item, SEVERAL, copied, member, owning, place, reclaim, renew};
use sdd_domain::local::Local;
use serial_history::{Answer, Query, Receipt};
use std::alloc::Global;
use std::ops::Bound;
use std::process::Abort;

/// The number of a session for at least this number, what it reads of key 1, and the number of its receipt.
fn read_one<R: Abort>(
    rt: &R,
    alloc: Global,
    at: At<'_>,
    local: &mut Local<Item>,
    at_least: u64,
) -> (Option<u64>, u64)
    requires { CanRead at.domain.now at.cell.now local.old }
    ensures { StillRests local.old local.new }
{
    let Ok(session) = opened(alloc, at, local, at_least) else {
        panic!(rt; "a version of that number is there");
    };
    let found = value(&session, 1);
    (found, ended(at.domain, session, local).number)
}

/// A session beside a second version: whether it reads the values of keys 1 and 5 of its own one before that and behind it,
/// whose items are there beside those of the second, and a query so, and its receipt has that; while another session reads the
/// second one. Behind both, the items of the first one are reclaimed.
pub fn beside<R: Abort>(
    rt: &R,
    alloc: Global,
    at: At<'_>,
    reader: &mut Local<Item>,
    writer: &mut Local<Item>,
) -> bool
    requires reader { CanRead at.domain.now at.cell.now reader.old }
    requires writer { CanWrite at.domain.now at.cell.now writer.old }
    ensures reader { StillRests reader.old reader.new }
    ensures writer { StillRests writer.old writer.new }
{
    let Ok(mut session) = opened(alloc, at, reader, 1) else {
        panic!(rt; "the first version is there");
    };
    let before = value(&session, 1);
    renew(rt, alloc, at, writer, (2, (11, 21, 51)));
    reclaim(at.domain, writer);
    let counts = (in_use(at.domain), session.number());
    let values = [before, value(&session, 1), value(&session, 5)];
    let read = asked(&mut session, Query::Get(2));
    let later = read_one(rt, alloc, at, writer, 2);
    let receipt = ended(at.domain, session, reader);
    reclaim(at.domain, writer);
    let left = in_use(at.domain);
    values == [Some(10), Some(10), Some(50)]
        && (counts, left) == ((4, 1), 2)
        && read == Ok(Answer::Get(Some(20)))
        && later == (Some(11), 2)
        && is_read(&receipt)
}

/// Whether a receipt has the number 1, and the value 20 of the key 2.
fn is_read(receipt: &Receipt<u64, u64>) -> bool {
    receipt.number == 1 && receipt.reads.as_slice() == &[(Query::Get(2), Answer::Get(Some(20)))][..]
}

/// Whether a walk continues behind a second version, and a range behind a third one, and neither was recorded.
pub fn walked<R: Abort>(
    rt: &R,
    alloc: Global,
    at: At<'_>,
    reader: &mut Local<Item>,
    writer: &mut Local<Item>,
) -> bool
    requires reader { CanRead at.domain.now at.cell.now reader.old }
    requires writer { CanWrite at.domain.now at.cell.now writer.old }
    ensures reader { StillRests reader.old reader.new }
    ensures writer { StillRests writer.old writer.new }
{
    let Ok(session) = opened(alloc, at, reader, 0) else {
        panic!(rt; "the first version is there");
    };
    let mut walk = session.iter();
    let begun = copied(walk.next());
    renew(rt, alloc, at, writer, (2, (11, 21, 51)));
    reclaim(at.domain, writer);
    let here = copied(walk.get());
    let next = copied(walk.next());
    let last = copied(walk.next_back());
    let steps = [begun, here, next, last, copied(walk.next())];
    renew(rt, alloc, at, writer, (3, (12, 22, 52)));
    reclaim(at.domain, writer);
    let mut range = session.range(Bound::Excluded(&1), Bound::Unbounded);
    let last = copied(range.next_back());
    let middle = copied(range.next_back());
    let back = [last, middle, copied(range.next_back())];
    let receipt = ended(at.domain, session, reader);
    steps == STEPS
        && back == [Some((5, 50)), Some((2, 20)), None]
        && receipt.reads.as_slice().is_empty()
}

/// What the walk has before it as it begins and as it stands, the next pair and the last one, and none behind them.
const STEPS: [Option<(u64, u64)>; 5] = [
    Some((1, 10)),
    Some((1, 10)),
    Some((2, 20)),
    Some((5, 50)),
    None,
];

#[test]
fn a_session_keeps_its_version_when_the_cell_is_given_back(rt: HostRuntime) {
    let mut met = false;
    let domain = place(&rt, rt.alloc(), SEVERAL, &mut met);
    let mut local = member(&rt, &domain, &mut met);
    let version = First::Version(1, (10, 20, 50));
    let cell = owning(&rt, rt.alloc(), &domain, &mut local, version);
    let at = At {
        domain: &domain,
        cell: &cell,
    };
    let Ok(session) = opened(rt.alloc(), at, &mut local, 1) else {
        panic!(rt; "the first version is there");
    };
    let last = retire(&domain, cell, &mut local);
    let read = (session.len(), value(&session, 2));
    let number = ended(&domain, session, &mut local).number;
    reclaim(&domain, &mut local);
    let slots = in_use(&domain);
    leave(&domain, local);
    match closed(domain) {
        Ok(()) => {}
        Err(_) => panic!(rt; "nobody is registered"),
    }
    assert!(rt; last && read == (3, Some(20)) && (number, slots) == (1, 0));
}
