//! Tasks of threads over one value.

ghost use Rattle.std.specs.Prelude.{◌≡◌, length};
ghost use Rattle.std.specs.Fn.{FnOnceReturnsAt};

use std::sync::Wait;
use std::thread::{Threads, for_each_mut, join};

/// Runs two tasks over one value, the first in a thread of its own where one can be had: what both answer, once both have.
///
/// It is `std::thread::join` with the value handed to the tasks in place of borrowed by them. Of an index this makes a
/// difference to the prover: that a closure which borrows one may be sent is beyond its search, while that threads may share
/// one is a lemma of `proofs/SendLemmas.antt`, with which its caller answers:
/// `search (index_sync, crosses, sendable) depth 12`.
pub fn join_over<
    T: Sync,
    A: Send,
    B,
    F: FnOnce(&T) -> A + Send,
    G: FnOnce(&T) -> B,
    R: Threads + Sync,
>(rt: &R, shared: &T, first: F, second: G) -> (A, B)
    requires { F.IsAlwaysCallable first × G.IsAlwaysCallable second }
    ensures first { FnOnceReturnsAt F.FnOnce first shared.now result.0 }
    ensures second { FnOnceReturnsAt G.FnOnce second shared.now result.1 }
{
    join(
        rt,
        move || -> A
            requires { F.IsAlwaysCallable first }
            ensures { FnOnceReturnsAt F.FnOnce first shared.entry.now result }
        { first(shared) },
        move || -> B
            requires { G.IsAlwaysCallable second }
            ensures { FnOnceReturnsAt G.FnOnce second shared.entry.now result }
        { second(shared) },
    )
}

/// What is done beside others with a value that threads share.
pub(crate) trait Sits<T> {
    fn sit<R: Wait>(&mut self, rt: &R, shared: &T);
}

/// Has each item do that with one value, each in a thread of its own where one can be had.
pub(crate) fn for_each_over<T: Sync, X: Sits<T> + Send, R: Threads + Wait + Sync>(
    rt: &R,
    shared: &T,
    items: &mut [X],
)
    ensures { length items.new ≡ length items.old }
{
    let threads = items.len();
    if threads == 0 {
        return;
    }
    for_each_mut(rt, items, threads, &|_place, item| item.sit(rt, shared));
}
