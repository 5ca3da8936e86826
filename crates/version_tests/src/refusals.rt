//! Where memory is refused while versions are made, nothing is made, and a second try makes what is wanted.

use crate::{draft, listed};
use std::alloc::{AllocError, Global};

#[derive(Clone, Copy)]
enum Case {
    Draft,
    PlainList,
    CutList,
    Segments,
    Version,
    Run,
}

const CASES: &[Case] = &[
    Case::Draft,
    Case::PlainList,
    Case::CutList,
    Case::Segments,
    Case::Version,
    Case::Run,
];

// Whether memory was refused to a run, and whether what is made is as wanted.
fn made(alloc: Global, case: Case) -> Result<(bool, bool), AllocError> {
    let right = match case {
        Case::Draft => draft::makes_a_draft(alloc)?,
        Case::PlainList => draft::makes_a_plain_list(alloc)?,
        Case::CutList => listed::cuts_five(alloc)?,
        Case::Segments => listed::segments(alloc)? == (0, 5),
        Case::Version => listed::slots(alloc)? == 4,
        Case::Run => return listed::runs(alloc),
    };
    Ok((false, right))
}

// Whether memory was refused to a case, and whether what is made is as wanted, by a second try then.
fn made_again(alloc: Global, case: Case) -> (bool, bool) {
    match made(alloc, case) {
        Ok(found) => found,
        Err(AllocError) => (true, made(alloc, case) == Ok((false, true))),
    }
}

// Whether memory was refused to a case, and whether what all make is as wanted.
fn all_made(alloc: Global) -> (bool, bool) {
    let (mut met, mut right) = (false, true);
    for case in CASES {
        let (is_refused, is_right) = made_again(alloc, *case);
        met = met || is_refused;
        right = right && is_right;
    }
    (met, right)
}

// Any one allocation may be refused: a script has each refused in turn.
#[test]
fn a_refusal_of_memory_makes_nothing(rt: HostRuntime) {
    assert!(rt; all_made(rt.alloc()).1);
}

#[test]
fn no_memory_is_refused_to_drafts_and_versions(rt: HostRuntime) {
    assert!(rt; all_made(rt.alloc()) == (false, true));
}
