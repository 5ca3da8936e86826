//! Items that hold items of their own type.

ghost use Rattle.std.specs.Prelude.{◌≡◌, IfOk, IfErr};
ghost use Rattle.sdd_domain.specs.Holding.{all_told};
ghost use Rattle.sdd_domain.specs.Sharing.{kept_in};
ghost use Rattle.sdd_domain.specs.Tokens.{place_of, home_of, hand_of, own_of, IsSame, IsSameButHand, IsSameButMisses};
ghost use Rattle.domain_tests.specs.Steps.{IsHome, Rests, StillRests};

use crate::crowd::{Work, four};
use crate::domain::{end, member};
use crate::guard::{pass, passes};
use crate::items::sized;
use crate::steps::Task;
use sdd_domain::domain::Domain;
use sdd_domain::held::Held;
use sdd_domain::holding::{hold_last, own_last};
use sdd_domain::holds::Holds;
use sdd_domain::local::Local;
use sdd_domain::shared::Shared;
use std::alloc::Global;
use std::process::Abort;
use std::thread::Threads;

/// An item that holds other items, or none.
pub enum Node {
    Directory(Vec<Held<Node>>),
    Leaf(u64),
}

impl Holds for Node {
    ghost use Rattle.std.specs.Prelude.{List, ℕ, []};
    ghost use Rattle.sdd_domain.specs.Holding.{all_told};
    ghost use Rattle.domain_tests.specs.declared.nested.Node.{Node, out-Node};
    ghost use Rattle.domain_tests.specs.declared.nested.Node.TheOpen as open1;

    ghost holds = { λ n. elim (out-Node n) as (λ _. List (ℕ × ℕ)) [ open1.Directory held ↦ all_told held.items | open1.Leaf n ↦ [] ] };

    fn give_up(&mut self) -> Option<Held<Node>> {
        match self {
            Node::Directory(held) => held.pop(),
            Node::Leaf(_) => None,
        }
    }

    fn end(self) {
        match self {
            Node::Directory(held) => held.destroy_empty(),
            Node::Leaf(_) => {}
        }
    }
}

/// The leaf's owner, where a slot is free.
fn leaf<R: Abort>(
    rt: &R,
    domain: &Domain<Node>,
    local: &mut Local<Node>,
    number: u64,
) -> Shared<Node>
    requires home { IsHome domain.now local.old }
    ensures place { kept_in result ≡ (place_of domain.now).0 }
    ensures same { IsSame local.old local.new × (own_of local.new ≡ own_of local.old) }
{
    match Shared::new(domain, Node::Leaf(number), local) {
        Ok(owner) => owner,
        Err(_) => panic!(rt; "a slot is free"),
    }
}

/// The last owner that was held, where there is one.
fn taken<R: Abort>(
    rt: &R,
    domain: &Domain<Node>,
    local: &mut Local<Node>,
    held: &mut Vec<Held<Node>>,
) -> Shared<Node>
    requires home { home_of local.old ≡ place_of domain.now }
    requires hand { hand_of local.old ≡ all_told held.old.items }
    ensures mine { kept_in result ≡ (place_of domain.now).0 }
    ensures hand { hand_of local.new ≡ all_told held.new.items }
    ensures same { IsSameButHand local.old local.new }
{
    match own_last(domain, held, local) {
        Some(owner) => owner,
        None => panic!(rt; "an owner is held"),
    }
}

/// The owner of a new directory that holds these two, or both of them, where no slot was free.
fn directory<R: Abort>(
    rt: &R,
    alloc: Global,
    domain: &Domain<Node>,
    local: &mut Local<Node>,
    first: Shared<Node>,
    second: Shared<Node>,
) -> Result<Shared<Node>, (Shared<Node>, Shared<Node>)>
    requires home { IsHome domain.now local.old }
    requires mine { (kept_in first ≡ (place_of domain.now).0) × (kept_in second ≡ (place_of domain.now).0) }
    ensures place { IfOk result (λ s. kept_in s ≡ (place_of domain.now).0) }
    ensures back { IfErr result (λ both. (kept_in both.0 ≡ (place_of domain.now).0) × (kept_in both.1 ≡ (place_of domain.now).0)) }
    ensures same { IsSameButMisses local.old local.new × (own_of local.new ≡ own_of local.old) }
{
    let Ok(mut held) = Vec::with_capacity(alloc, 2) else {
        return Err((first, second));
    };
    hold_last(domain, &mut held, first, local);
    hold_last(domain, &mut held, second, local);
    match Shared::new(domain, Node::Directory(held), local) {
        Ok(owner) => Ok(owner),
        Err(Node::Directory(held)) => {
            let mut held = held;
            let second = taken(rt, domain, local, &mut held);
            let first = taken(rt, domain, local, &mut held);
            match own_last(domain, &mut held, local) {
                None => held.destroy_empty(),
                Some(_) => panic!(rt; "there were two"),
            }
            Err((first, second))
        }
        Err(Node::Leaf(_)) => panic!(rt; "the directory is back"),
    }
}

/// The owner of a new directory of this leaf and a new one, where two slots are free.
fn top<R: Abort>(
    rt: &R,
    alloc: Global,
    domain: &Domain<Node>,
    local: &mut Local<Node>,
    first: Shared<Node>,
    number: u64,
) -> Shared<Node>
    requires home { IsHome domain.now local.old }
    requires mine { kept_in first ≡ (place_of domain.now).0 }
    ensures place { kept_in result ≡ (place_of domain.now).0 }
    ensures same { IsSameButMisses local.old local.new × (own_of local.new ≡ own_of local.old) }
{
    let second = leaf(rt, domain, local, number);
    match directory(rt, alloc, domain, local, first, second) {
        Ok(owner) => owner,
        Err(_) => panic!(rt; "a slot is free"),
    }
}

/// Both owners of an item, of which this is one.
fn twice<R: Abort>(
    rt: &R,
    domain: &Domain<Node>,
    local: &mut Local<Node>,
    owner: Shared<Node>,
) -> (Shared<Node>, Shared<Node>)
    requires home { IsHome domain.now local.old }
    requires mine { kept_in owner ≡ (place_of domain.now).0 }
    ensures place { (kept_in result.0 ≡ (place_of domain.now).0) × (kept_in result.1 ≡ (place_of domain.now).0) }
    ensures same { IsSame local.old local.new × (own_of local.new ≡ own_of local.old) }
{
    match owner.clone(domain, local) {
        Ok(both) => both,
        Err(_) => panic!(rt; "one more owner"),
    }
}

/// The number of a leaf.
fn number(node: &Node) -> u64 {
    match node {
        Node::Leaf(number) => *number,
        Node::Directory(_) => 0,
    }
}

/// The sum of a directory's leaves.
fn total(node: &Node) -> u64 {
    let mut sum: u64 = 0;
    if let Node::Directory(held) = node {
        for leaf in held {
            sum = sum.saturating_add(number(leaf.as_ref()));
        }
    }
    sum
}

/// Reads the leaves of a directory, as a task says: how often their sum was this. None if it is another one.
pub(crate) fn sum(node: &Node, task: Task) -> Option<u32> {
    match task {
        Task::Reads(wanted) => { if total(node) == wanted { Some(1) } else { None } }
        _ => Some(0),
    }
}

/// How many slots are in use behind each of seven accelerated guards.
fn seven(domain: &Domain<Node>, local: &mut Local<Node>) -> [usize; 7]
    requires rests { Rests domain.now local.old }
    ensures rests { StillRests local.old local.new }
{
    let mut seen = [0usize; 7];
    for n in 0..7 {
        let _ = pass(domain, local, true);
        seen[n] = domain.slots_in_use();
    }
    seen
}

/// A directory of two leaves, which two threads read before it is released: how often they read what it holds, whether its
/// owner was the last one, and how many slots are in use then. The item is reclaimed before what it held.
fn read_and_reclaimed<R: Threads + Abort + Sync>(
    rt: &R,
    alloc: Global,
    domain: &Domain<Node>,
    local: &mut Local<Node>,
) -> (Option<u32>, bool, [usize; 7])
    requires rests { Rests domain.now local.old }
    ensures rests { StillRests local.old local.new }
{
    let first = leaf(rt, domain, local, 1);
    let top = top(rt, alloc, domain, local, first, 2);
    let read = four(rt, &Work::Leaves(top.as_ref()), READERS);
    let last = top.release(domain, local);
    (read, last, seven(domain, local))
}

/// A leaf that stays while it has an owner beside the directory that held it: whether the directory's owner was the last one;
/// how many slots are in use behind it, the leaf's number, and whether its owner was the last one.
fn kept<R: Abort>(
    rt: &R,
    alloc: Global,
    domain: &Domain<Node>,
    local: &mut Local<Node>,
) -> (bool, usize, u64, bool)
    requires rests { Rests domain.now local.old }
    ensures rests { StillRests local.old local.new }
{
    let first = leaf(rt, domain, local, 1);
    let (first, kept) = twice(rt, domain, local, first);
    let top = top(rt, alloc, domain, local, first, 2);
    let released = top.release(domain, local);
    passes(domain, local, true, 8);
    let slots = domain.slots_in_use();
    let number = number(kept.as_ref());
    (released, slots, number, kept.release(domain, local))
}

/// What a directory was to hold, which a full place gives back: the numbers of two leaves, and whether their owners were the
/// last ones.
fn given_back<R: Abort>(
    rt: &R,
    alloc: Global,
    domain: &Domain<Node>,
    local: &mut Local<Node>,
) -> ((u64, u64), (bool, bool))
    requires rests { Rests domain.now local.old }
    ensures rests { StillRests local.old local.new }
{
    let first = leaf(rt, domain, local, 1);
    let second = leaf(rt, domain, local, 2);
    match directory(rt, alloc, domain, local, first, second) {
        Ok(_) => panic!(rt; "no slot is free"),
        Err((first, second)) => {
            let numbers = (number(first.as_ref()), number(second.as_ref()));
            let last = second.release(domain, local);
            (numbers, (last, first.release(domain, local)))
        }
    }
}

/// Two threads that read what the leaves of a directory are to be together.
const READERS: [Task; 4] = [Task::Reads(3), Task::Reads(3), Task::Nothing, Task::Nothing];

#[test]
fn items_hold_items_and_give_them_back(rt: HostRuntime) {
    let domain = Domain::new(rt.alloc(), sized(1, 3)).expect(&rt, "memory is there");
    let mut local = member(&rt, &domain);
    let read = read_and_reclaimed(&rt, rt.alloc(), &domain, &mut local);
    let kept = kept(&rt, rt.alloc(), &domain, &mut local);
    passes(&domain, &mut local, true, 4);
    let full = leaf(&rt, &domain, &mut local, 3);
    let back = given_back(&rt, rt.alloc(), &domain, &mut local);
    full.release(&domain, &mut local);
    local.end(&domain);
    end(&rt, domain);
    assert!(rt; read == (Some(2), true, [3, 3, 3, 2, 2, 2, 0]));
    assert!(rt; kept == (true, 1, 1, true));
    assert_eq!(rt; back, ((1, 2), (true, true)));
}
