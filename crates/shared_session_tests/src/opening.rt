//! Which sessions are opened, and which are refused.

ghost use Rattle.shared_session_tests.specs.Participants.{CanRead, CanWrite, StillRests};

use self::Step::{Open, Reclaim, Renew, Slots};
use crate::calls::{ended, in_use, opened, value};
use crate::place::{At, Item, Twos, reclaim, renew};
use sdd_domain::guard::Guard;
use sdd_domain::local::Local;
use shared_sessions::{OpenRefused, Root, SharedSession};
use std::alloc::Global;
use std::process::Abort;

/// The number of a session of this width that is opened for at least this number and closed again, or why there is none.
fn number_of<const S: usize>(
    alloc: Global,
    at: At<'_>,
    local: &mut Local<Item>,
    at_least: u64,
) -> Result<u64, OpenRefused>
    requires { CanRead at.domain.now at.cell.now local.old }
    ensures { StillRests local.old local.new }
{
    let root = Root::new(at.cell);
    let session = SharedSession::<u64, u64, S>::open(alloc, at.domain, root, at_least, local)?;
    let number = session.number();
    let receipt = session.close(at.domain, local);
    if receipt.number == number && receipt.reads.as_slice().is_empty() {
        Ok(number)
    } else {
        Err(OpenRefused::Nested)
    }
}

/// The same of a width that is 1, 2 or 3.
fn number_by<R: Abort>(
    rt: &R,
    alloc: Global,
    at: At<'_>,
    local: &mut Local<Item>,
    width: u8,
    at_least: u64,
) -> Result<u64, OpenRefused>
    requires { CanRead at.domain.now at.cell.now local.old }
    ensures { StillRests local.old local.new }
{
    match width {
        1 => number_of::<1>(alloc, at, local, at_least),
        2 => number_of::<2>(alloc, at, local, at_least),
        3 => number_of::<3>(alloc, at, local, at_least),
        _ => panic!(rt; "a width of a test"),
    }
}

/// What is done with the cell.
#[derive(Clone, Copy)]
pub enum Step {
    /// Opens a session of this width for at least this number, and closes it: its number.
    Open(u8, u64),
    /// Has the cell name a version of this number.
    Renew(u64),
    /// Reclaims what nobody reads.
    Reclaim,
    /// How many slots are in use.
    Slots,
}

/// Takes a step: one participant opens sessions, and another one does the rest.
fn taken<R: Abort>(
    rt: &R,
    alloc: Global,
    at: At<'_>,
    reader: &mut Local<Item>,
    writer: &mut Local<Item>,
    step: Step,
) -> Result<u64, OpenRefused>
    requires reader { CanRead at.domain.now at.cell.now reader.old }
    requires writer { CanWrite at.domain.now at.cell.now writer.old }
    ensures reader { StillRests reader.old reader.new }
    ensures writer { StillRests writer.old writer.new }
{
    match step {
        Step::Open(width, least) => number_by(rt, alloc, at, reader, width, least),
        Step::Renew(number) => {
            renew(rt, alloc, at, writer, (number, (11, 21, 51)));
            Ok(number)
        }
        Step::Reclaim => {
            reclaim(at.domain, writer);
            Ok(0)
        }
        Step::Slots => Ok(in_use(at.domain) as u64),
    }
}

/// A row: a step, and what it answers.
pub type Row = (Step, Result<u64, OpenRefused>);

/// Takes the steps of a table, in order: whether each answers what it is to.
pub fn all_taken<R: Abort>(
    rt: &R,
    alloc: Global,
    at: At<'_>,
    reader: &mut Local<Item>,
    writer: &mut Local<Item>,
    rows: &[Row],
) -> bool
    requires reader { CanRead at.domain.now at.cell.now reader.old }
    requires writer { CanWrite at.domain.now at.cell.now writer.old }
    ensures reader { StillRests reader.old reader.new }
    ensures writer { StillRests writer.old writer.new }
{
    let mut right = true;
    for row in 0..rows.len() {
        let (step, wanted) = rows[row];
        let told = taken(rt, alloc, at, reader, writer, step);
        right = told == wanted && right;
    }
    right
}

/// A session has at least the number that is asked for.
pub const AT_LEAST: &[Row] = &[
    (Open(2, 0), Ok(7)),
    (Open(2, 6), Ok(7)),
    (Open(2, 7), Ok(7)),
    (Open(2, 8), Err(OpenRefused::Earlier(7))),
    (Open(2, u64::MAX), Err(OpenRefused::Earlier(7))),
    (Renew(u64::MAX), Ok(u64::MAX)),
    (Open(2, u64::MAX), Ok(u64::MAX)),
];

/// No guard stays open where a session is refused: one that were open still would keep the first version.
pub const NO_GUARD: &[Row] = &[
    (Open(2, 2), Err(OpenRefused::Earlier(1))),
    (Open(3, 0), Err(OpenRefused::NoVersion)),
    (Renew(2), Ok(2)),
    (Slots, Ok(4)),
    (Reclaim, Ok(0)),
    (Slots, Ok(2)),
];

/// An empty cell names no version, and a segment is none.
pub const NO_VERSION: [Row; 1] = [(Open(2, 0), Err(OpenRefused::NoVersion))];

/// A version has one width, which is looked at before the number.
pub const ONE_WIDTH: &[Row] = &[
    (Open(2, 0), Ok(0)),
    (Open(2, 1), Err(OpenRefused::Earlier(0))),
    (Open(1, 0), Err(OpenRefused::NoVersion)),
    (Open(3, 1), Err(OpenRefused::NoVersion)),
];

/// A session of the first version, and within it one for at least the number 3 of the second version, which is refused, and
/// one for 2: whether each has its number, and so has its receipt, and the outer one still reads its version at the end.
pub fn within<R: Abort>(rt: &R, alloc: Global, at: At<'_>, local: &mut Local<Item>) -> bool
    requires { CanWrite at.domain.now at.cell.now local.old }
    ensures { StillRests local.old local.new }
{
    let Ok(outer) = opened(alloc, at, local, 0) else {
        panic!(rt; "a version of that width is there");
    };
    renew(rt, alloc, at, local, (2, (11, 21, 51)));
    let refused = match opened(alloc, at, local, 3) {
        Err(refused) => refused,
        Ok(_) => panic!(rt; "the second version has the number 2"),
    };
    let Ok(inner) = opened(alloc, at, local, 2) else {
        panic!(rt; "the second version is there");
    };
    let numbers = (outer.number(), inner.number());
    let inner = ended(at.domain, inner, local);
    let value = value(&outer, 1);
    let outer = ended(at.domain, outer, local);
    refused == OpenRefused::Earlier(2)
        && value == Some(10)
        && [numbers.0, numbers.1, inner.number, outer.number] == [1, 2, 2, 1]
}

/// A guard loads the first version, from which no session of wider segments is made, nor one for at least the number 2; and
/// then the second, from which one is: whether those were the causes, the session reads the second version, and its receipt
/// has the number of that.
pub fn of_loaded<R: Abort>(rt: &R, alloc: Global, at: At<'_>, local: &mut Local<Item>) -> bool
    requires { CanWrite at.domain.now at.cell.now local.old }
    ensures { StillRests local.old local.new }
{
    let Ok(guard) = Guard::new(at.domain, local) else {
        unreachable!();
    };
    let loaded = at.cell.loaded(at.domain, &guard, local);
    let (guard, wider) = match SharedSession::<u64, u64, 3>::of_loaded(guard, loaded, alloc, 0) {
        Err(back) => back,
        Ok(_) => panic!(rt; "its segments have two pairs at most"),
    };
    let loaded = at.cell.loaded(at.domain, &guard, local);
    renew(rt, alloc, at, local, (2, (11, 21, 51)));
    let (guard, refused) = match Twos::of_loaded(guard, loaded, alloc, 2) {
        Err(back) => back,
        Ok(_) => panic!(rt; "the first version was loaded"),
    };
    let loaded = at.cell.loaded(at.domain, &guard, local);
    let session = match Twos::of_loaded(guard, loaded, alloc, 2) {
        Ok(session) => session,
        Err(_) => panic!(rt; "the second version was loaded"),
    };
    let value = value(&session, 1);
    let number = ended(at.domain, session, local).number;
    let causes = wider == OpenRefused::NoVersion && refused == OpenRefused::Earlier(1);
    causes && value == Some(11) && number == 2
}
