//! What refusals say, and what they hand back.

use serial_history::{Cause, Refused};
use shared_index::{FeedRefused, RunCause, RunRefused, TransactRefused};
use std::alloc::{AllocError, Global};
use std::test::Fail;

/// What refused feeds say.
fn said_of_feeds(alloc: Global) -> Result<String, AllocError> {
    let (old, ahead) = (FeedRefused::TooOld(2), FeedRefused::Ahead(5));
    let memory = FeedRefused::Memory;
    format!(in alloc; "{old}|{ahead}|{memory}")
}

const FEEDS: &str = "the history begins at number 2; the index is as it was\
    |the present number is 5; the index is as it was\
    |memory was refused; the index is as it was";

/// What tasks that weren't run say.
fn said_of_tasks(alloc: Global) -> Result<String, AllocError> {
    let (sizes, memory) = (RunCause::Sizes, RunCause::Memory);
    let refused = RunRefused {
        cause: RunCause::NoSlot,
        tasks: vec![in alloc; 7u8]?,
    };
    format!(in alloc; "{sizes}|{memory}|{refused}")
}

const TASKS: &str = "there are more than 2^30 slots, or 2^30 tasks or more; no task was run\
    |memory was refused; no task was run\
    |no slot is free for the empty version; no task was run";

/// What a transaction says whose commit was refused.
fn said_of_commits(alloc: Global) -> Result<String, AllocError> {
    let refused = TransactRefused::from(Refused::<u64, u64> {
        cause: Cause::Exhausted,
        writes: Vec::new(alloc),
    });
    format!(in alloc; "{refused}")
}

const COMMITS: &str = "the commit was refused: the last number is reached; the index is as it was";

#[test]
fn refusals_say_what_stands_after_them(rt: HostRuntime) -> Result<(), Fail> {
    let alloc = rt.alloc();
    assert_eq!(rt; said_of_feeds(alloc)?.as_str(), FEEDS);
    assert_eq!(rt; said_of_tasks(alloc)?.as_str(), TASKS);
    assert_eq!(rt; said_of_commits(alloc)?.as_str(), COMMITS);
    Ok(())
}

#[test]
fn tasks_that_were_not_run_are_handed_back(rt: HostRuntime) -> Result<(), Fail> {
    let refused = RunRefused {
        cause: RunCause::Memory,
        tasks: vec![in rt.alloc(); 7u8, 8]?,
    };
    let tasks = refused.into_tasks();
    assert!(rt; tasks.as_slice() == [7, 8].as_slice());
    Ok(())
}
