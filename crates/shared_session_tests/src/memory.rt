//! Runs in which any one allocation may be refused.

ghost use Rattle.std.specs.Prelude.{◌≡◌, ◌<◌};

use crate::calls::{asked, ended, opened};
use crate::place::{At, SMALL, Twos, cell, end, member, place, version};
use serial_history::{Answer, Query, Receipt};
use std::alloc::{AllocError, Global};
use std::ops::Bound;
use std::process::Abort;

// Reads all pairs, again where memory was refused; then the receipt has what it had before, and no more.
fn read<R: Abort>(rt: &R, session: &mut Twos, before: usize, met: &mut bool) -> Answer<u64, u64>
    ensures { session.new.nest ≡ session.old.nest }
{
    if let Ok(answer) = asked(session, Query::Range(Bound::Unbounded, Bound::Unbounded)) {
        return answer;
    }
    *met = true;
    assert!(rt; session.receipt().number == 1);
    assert!(rt; session.receipt().reads.as_slice().len() == before);
    match asked(session, Query::Range(Bound::Unbounded, Bound::Unbounded)) {
        Ok(answer) => answer,
        Err(AllocError) => panic!(rt; "memory was refused twice"),
    }
}

// Whether the answer lists the three pairs.
fn lists_three(answer: &Answer<u64, u64>) -> bool {
    match answer {
        Answer::Range(pairs) => pairs.as_slice() == &[(1, 10), (2, 20), (5, 50)][..],
        _ => false,
    }
}

// Whether a receipt has two reads, which list all pairs.
fn has_both(receipt: &Receipt<u64, u64>) -> bool {
    let mut right = receipt.reads.as_slice().len() == 2;
    for recorded in receipt.reads.as_slice() {
        let is_all = recorded.0 == Query::Range(Bound::Unbounded, Bound::Unbounded);
        right = is_all && lists_three(&recorded.1) && right;
    }
    right
}

// Whether an allocation was refused while a version was made and read twice. Opening and closing a session takes none.
fn reads<R: Abort>(rt: &R, alloc: Global) -> bool {
    let mut met = false;
    let domain = place(rt, alloc, SMALL, &mut met);
    let mut local = member(rt, &domain, &mut met);
    let first = version(rt, alloc, &domain, &mut local, (1, (10, 20, 50)), &mut met);
    let cell = cell(rt, &domain, first, &mut local);
    let at = At {
        domain: &domain,
        cell: &cell,
    };
    let Ok(mut session) = opened(alloc, at, &mut local, 1) else {
        panic!(rt; "the first version is there");
    };
    let once = read(rt, &mut session, 0, &mut met);
    let again = read(rt, &mut session, 1, &mut met);
    let receipt = ended(&domain, session, &mut local);
    end(rt, cell, domain, local);
    assert!(rt; lists_three(&once) && lists_three(&again));
    assert!(rt; receipt.number == 1 && has_both(&receipt));
    met
}

#[test]
fn a_refusal_of_memory_leaves_the_receipt(rt: HostRuntime) {
    let _met = reads(&rt, rt.alloc());
}

#[test]
fn no_memory_is_refused_while_a_session_reads(rt: HostRuntime) {
    assert!(rt; !reads(&rt, rt.alloc()));
}
