//! Tasks of threads over one index, from its beginning to its end.

ghost use Rattle.std.specs.Prelude.{◌≡◌, ◌≤◌, ◌<◌, ◌+◌, [], length, vec_capacity, IfErr, IfOk, IfSome};
ghost use Rattle.std.specs.List.{sum};
ghost use Rattle.sdd_domain.specs.Tokens.{place_of};
ghost use Rattle.shared_index.specs.SharedInvariant.{IsUnengaged};
ghost use Rattle.shared_index.specs.Tasks.{commits_of};

use crate::book::NewRefused;
use crate::index::SharedIndex;
use crate::naming::Naming;
use crate::share::Share;
use crate::sharing::{Sits, for_each_over};
use sdd_domain::domain::Domain;
use sdd_domain::local::Local;
use sdd_plain::sizes::Sizes;
use shared_versions::Node;
use std::alloc::Global;
use std::marker::Brand;
use std::sync::Wait;
use std::sync::ledger::Blank;
use std::thread::Threads;
use thiserror::Error;

/// The index of tasks, whose segments have at most 64 pairs.
pub type TaskIndex<'d, L, K, V> = SharedIndex<'d, L, K, V, 64>;

/// What a thread does with an index that it shares: it reads by a [`participant`](SharedIndex::participant), and commits with the
/// share that it is lent. It keeps in itself what it comes to.
pub trait Task<K: Clone + Ord, V: Clone + Eq> {
    /// Does it, in a thread of its own where one can be had.
    fn run<L: Naming, R: Wait>(
        &mut self,
        rt: &R,
        index: &SharedIndex<'_, L, K, V, 64>,
        share: &mut Share<L>,
    );
}

/// A task that has run.
#[derive(Drop)]
pub struct Ended<A> {
    /// The task, with what it kept.
    pub task: A,
    /// How many of its commits were accepted.
    pub commits: u64,
}

/// What tasks over an index came to.
#[derive(Drop)]
pub struct Ran<A> {
    /// The tasks, in their order.
    pub ended: Vec<Ended<A>>,
    /// The number of the index in the end: all accepted commits.
    pub number: u64,
}

/// Why no task was run.
#[derive(Clone, Copy, Debug, PartialEq, Eq, Error)]
pub enum RunCause {
    /// There are more than 2^30 slots, or 2^30 tasks or more.
    #[error("there are more than 2^30 slots, or 2^30 tasks or more; no task was run")]
    Sizes,
    /// There is no memory for the place, its participants, or what is kept for each task.
    #[error("memory was refused; no task was run")]
    Memory,
    /// No slot is free for the empty version.
    #[error("no slot is free for the empty version; no task was run")]
    NoSlot,
}

/// Tasks that weren't run.
#[derive(Debug, Drop, Error)]
#[error("{cause}")]
pub struct RunRefused<A> {
    /// Why.
    pub cause: RunCause,
    /// The tasks, as they were handed in.
    pub tasks: Vec<A>,
}

impl<A> RunRefused<A> {
    /// The tasks, as they were handed in.
    pub fn into_tasks(self) -> Vec<A>
        ensures { result ≡ self.tasks }
    {
        let RunRefused { cause: _, tasks } = self;
        tasks
    }
}

// A task at its share.
struct Assigned<L: Naming, A> {
    task: A,
    share: Share<L>,
}

// Where tasks at their shares, and then shares and ended tasks, find room.
struct Rooms<L: Naming, A> {
    assigned: Vec<Assigned<L, A>>,
    shares: Vec<Share<L>>,
    ended: Vec<Ended<A>>,
}

/// Runs tasks over an empty index of their own, each in a thread of its own where one can be had, in a place of `slots`
/// slots. It ends the index and the place when all tasks have ended. Each has a share, and a participant can be registered for each at
/// a time. Its last number is `2^64 - 1`.
///
/// Where no thread can be had, tasks run one after another: so none may wait for another one.
///
/// The causes of a refusal are decided in this order, and each returns the tasks: `Sizes`, `Memory`, `NoSlot`.
pub fn run_tasks<
    K: Clone + Ord + Send + Sync,
    V: Clone + Eq + Send + Sync,
    A: Task<K, V> + Send,
    R: Threads + Wait + Sync,
>(rt: &R, alloc: Global, slots: usize, tasks: Vec<A>) -> Result<Ran<A>, RunRefused<A>>
    ensures all { IfOk result (λ ran. length ran.ended.items ≡ length tasks.items) }
    ensures number { IfOk result (λ ran. ran.number ≡ commits_of ran.ended.items) }
    ensures back { IfErr result (λ back. back.tasks.items ≡ tasks.items) }
{
    let count = tasks.len();
    if count == 0 {
        let ended = Vec::new(alloc);
        tasks.destroy_empty();
        return Ok(Ran { ended, number: 0 });
    }
    if count >= 1 << 30 || slots > 1 << 30 {
        let cause = RunCause::Sizes;
        return Err(RunRefused { cause, tasks });
    }
    let sizes = Sizes {
        participants: count + 1,
        slots,
        cells: 1,
        jobs: 0,
    };
    let Ok(domain) = Domain::new(alloc, sizes) else {
        let cause = RunCause::Memory;
        return Err(RunRefused { cause, tasks });
    };
    let told = run_within(rt, alloc, &domain, tasks);
    end(rt, domain);
    told
}

// Runs tasks in a place, with one participant more than there are.
fn run_within<
    K: Clone + Ord + Send + Sync,
    V: Clone + Eq + Send + Sync,
    A: Task<K, V> + Send,
    R: Threads + Wait + Sync,
>(
    rt: &R,
    alloc: Global,
    domain: &Domain<Node<K, V>>,
    tasks: Vec<A>,
) -> Result<Ran<A>, RunRefused<A>>
    requires { 0 < length tasks.items }
    ensures all { IfOk result (λ ran. length ran.ended.items ≡ length tasks.items) }
    ensures number { IfOk result (λ ran. ran.number ≡ commits_of ran.ended.items) }
    ensures back { IfErr result (λ back. back.tasks.items ≡ tasks.items) }
{
    // Full can't come: nobody else has the place
    let Ok(local) = domain.register() else {
        let cause = RunCause::Memory;
        return Err(RunRefused { cause, tasks });
    };
    let blank = Blank::new(tasks.len() as u64);
    run_named::<Brand, K, V, A, R>(rt, alloc, domain, local, blank, tasks)
}

// The same with the participant of the index, under a name.
fn run_named<
    L: Naming + Send + Sync,
    K: Clone + Ord + Send + Sync,
    V: Clone + Eq + Send + Sync,
    A: Task<K, V> + Send,
    R: Threads + Wait + Sync,
>(
    rt: &R,
    alloc: Global,
    domain: &Domain<Node<K, V>>,
    local: Local<Node<K, V>>,
    blank: Blank,
    tasks: Vec<A>,
) -> Result<Ran<A>, RunRefused<A>>
    requires here { place_of domain.now ≡ L.place }
    requires rest { IsUnengaged L.place local }
    requires name { blank.name ≡ L.name }
    requires parts { (blank.parts ≡ L.parts) × (blank.parts ≡ length tasks.items) × (0 < blank.parts) }
    requires last { L.last ≡ 18446744073709551615 }
    ensures all { IfOk result (λ ran. length ran.ended.items ≡ length tasks.items) }
    ensures number { IfOk result (λ ran. ran.number ≡ commits_of ran.ended.items) }
    ensures back { IfErr result (λ back. back.tasks.items ≡ tasks.items) }
{
    let count = tasks.len();
    let Some(rooms) = made_room(alloc, count) else {
        local.end(domain);
        let cause = RunCause::Memory;
        return Err(RunRefused { cause, tasks });
    };
    match TaskIndex::<L, K, V>::new(alloc, domain, local, blank, count) {
        Ok((index, shares)) => Ok(run_over(rt, index, shares, tasks, rooms)),
        Err((local, _, refused)) => {
            local.end(domain);
            leave(rooms);
            let cause = match refused {
                NewRefused::Memory => RunCause::Memory,
                NewRefused::NoSlot => RunCause::NoSlot,
            };
            Err(RunRefused { cause, tasks })
        }
    }
}

// Runs tasks over an index with as many shares, and ends it.
fn run_over<
    L: Naming + Send + Sync,
    K: Clone + Ord + Send + Sync,
    V: Clone + Eq + Send + Sync,
    A: Task<K, V> + Send,
    R: Threads + Wait + Sync,
>(
    rt: &R,
    index: TaskIndex<'_, L, K, V>,
    shares: Vec<Share<L>>,
    tasks: Vec<A>,
    rooms: Rooms<L, A>,
) -> Ran<A>
    requires parts { (length shares.items ≡ L.parts) × (length tasks.items ≡ L.parts) }
    requires empty { (rooms.assigned.items ≡ []) × (rooms.shares.items ≡ []) × (rooms.ended.items ≡ []) }
    requires room { (L.parts ≤ vec_capacity rooms.assigned) × (L.parts ≤ vec_capacity rooms.shares) × (L.parts ≤ vec_capacity rooms.ended) }
    ensures all { length result.ended.items ≡ length tasks.items }
    ensures number { result.number ≡ commits_of result.ended.items }
{
    let domain = index.domain();
    let Rooms {
        assigned,
        shares: room,
        ended,
    } = rooms;
    let mut assigned = assigned_to(tasks, shares, assigned);
    for_each_over(rt, &index, assigned.as_mut_slice());
    let (shares, ended) = taken_apart(assigned, room, ended);
    match index.close(shares) {
        Ok((local, number)) => {
            local.end(domain);
            Ran { ended, number }
        }
        Err(_) => unreachable!(),
    }
}

// Room for `count` tasks. None where memory was refused.
fn made_room<L: Naming, A>(alloc: Global, count: usize) -> Option<Rooms<L, A>>
    ensures empty { IfSome result (λ r. (r.assigned.items ≡ []) × (r.shares.items ≡ []) × (r.ended.items ≡ [])) }
    ensures room { IfSome result (λ r. (count ≤ vec_capacity r.assigned) × (count ≤ vec_capacity r.shares) × (count ≤ vec_capacity r.ended)) }
{
    let Ok(assigned) = Vec::with_capacity(alloc, count) else {
        return None;
    };
    let Ok(shares) = Vec::with_capacity(alloc, count) else {
        assigned.destroy_empty();
        return None;
    };
    let Ok(ended) = Vec::with_capacity(alloc, count) else {
        assigned.destroy_empty();
        shares.destroy_empty();
        return None;
    };
    Some(Rooms {
        assigned,
        shares,
        ended,
    })
}

// Lets room go that nobody took.
fn leave<L: Naming, A>(rooms: Rooms<L, A>)
    requires { (rooms.assigned.items ≡ []) × (rooms.shares.items ≡ []) × (rooms.ended.items ≡ []) }
{
    let Rooms {
        assigned,
        shares,
        ended,
    } = rooms;
    assigned.destroy_empty();
    shares.destroy_empty();
    ended.destroy_empty();
}

// Tasks at shares, the last one first.
fn assigned_to<L: Naming, A>(
    mut tasks: Vec<A>,
    mut shares: Vec<Share<L>>,
    mut room: Vec<Assigned<L, A>>,
) -> Vec<Assigned<L, A>>
    requires many { length tasks.items ≡ length shares.items }
    requires empty { room.items ≡ [] }
    requires fits { length tasks.items ≤ vec_capacity room }
    ensures { length result.items ≡ length tasks.items }
{
    while let Some(task) = tasks.pop() {
        let Some(share) = shares.pop() else {
            unreachable!()
        };
        room.push_reserved(Assigned { task, share });
    }
    tasks.destroy_empty();
    shares.destroy_empty();
    room
}

// Shares, and the tasks that had them, the last one first.
fn taken_apart<L: Naming, A>(
    mut assigned: Vec<Assigned<L, A>>,
    mut shares: Vec<Share<L>>,
    mut ended: Vec<Ended<A>>,
) -> (Vec<Share<L>>, Vec<Ended<A>>)
    requires empty { (shares.items ≡ []) × (ended.items ≡ []) }
    requires fits { (length assigned.items ≤ vec_capacity shares) × (length assigned.items ≤ vec_capacity ended) }
    ensures shares { length result.0.items ≡ length assigned.items }
    ensures ended { length result.1.items ≡ length assigned.items }
    ensures counts { sum result.0.items ≡ commits_of result.1.items }
{
    while let Some(Assigned { task, share }) = assigned.pop() {
        ended.push_reserved(Ended {
            task,
            commits: share.count(),
        });
        shares.push_reserved(share);
    }
    assigned.destroy_empty();
    (shares, ended)
}

// Runs a task with its share.
impl<'d, L: Naming, K: Clone + Ord, V: Clone + Eq, A: Task<K, V>> Sits<SharedIndex<'d, L, K, V, 64>>
    for Assigned<L, A> {
    fn sit<R: Wait>(&mut self, rt: &R, shared: &SharedIndex<'d, L, K, V, 64>) {
        self.task.run(rt, shared, &mut self.share);
    }
}

// Ends a place, as soon as nobody is registered.
fn end<K: Clone + Ord, V: Clone + Eq, R: Wait>(rt: &R, mut domain: Domain<Node<K, V>>) {
    for _ in rt.forever() {
        match domain.close() {
            Ok(()) => return,
            Err(back) => domain = back,
        }
    }
    unreachable!()
}
