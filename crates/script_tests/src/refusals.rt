//! Runs in which any one allocation may be refused. A script has each refused in turn: what is
//! written is then the replies of the first lines, each of them whole.

use crate::reads::{READS, READS_OUTPUT};
use index_script::run::{RunError, run};
use std::alloc::{AllocError, Global};
use std::process::Abort;

// A writer with room for all replies, tried again where memory was refused.
fn writer<R: Abort>(rt: &R, alloc: Global, met: &mut bool) -> Vec<u8> {
    match Vec::with_capacity(alloc, 256) {
        Ok(out) => out,
        Err(AllocError) => {
            *met = true;
            Vec::with_capacity(alloc, 256).expect(rt, "memory was refused twice")
        }
    }
}

// Whether an allocation was refused while the script ran.
fn answers<R: Abort>(rt: &R, alloc: Global) -> bool {
    let mut met = false;
    let mut out = writer(rt, alloc, &mut met);
    let mut input = READS;
    match run::<64, _, _>(alloc, &mut input, &mut out, 2, 16) {
        Ok(()) => assert!(rt; out.as_slice() == READS_OUTPUT.as_bytes()),
        Err(RunError::Memory) => {
            met = true;
            assert!(rt; READS_OUTPUT.as_bytes().starts_with(out.as_slice()));
            assert!(rt; out.last().is_none_or(|byte| *byte == b'\n'));
        }
        Err(_) => panic!(rt; "a read or a write failed"),
    }
    met
}

#[test]
fn a_refusal_of_memory_keeps_replies_whole(rt: HostRuntime) {
    let _met = answers(&rt, rt.alloc());
}

// Fails as long as an allocation is refused, so that a script knows when to stop.
#[test]
fn no_memory_is_refused(rt: HostRuntime) {
    assert!(rt; !answers(&rt, rt.alloc()));
}
