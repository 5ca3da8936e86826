//! Lists step by step.

ghost use Rattle.std.specs.Prelude.{◌≡◌, ◌≤◌, ◌<◌, [], IfSome};
ghost use Rattle.sdd_domain.specs.Sharing.{kept_in};
ghost use Rattle.sdd_domain.specs.Tokens.{place_of, home_of, hand_of, own_of};
ghost use Rattle.shared_lists.specs.Entries.{IsEntryOf};
ghost use Rattle.shared_lists.specs.Lists.{AreLinksOf, IsAsBefore, IsOpenIn, IsStill};

use crate::scene::{end, entry, links, member, sized};
use sdd_domain::domain::Domain;
use sdd_domain::guard::Guard;
use sdd_domain::local::Local;
use sdd_domain::shared::Shared;
use shared_lists::{LinkedEntry, Links};
use std::process::Abort;
use std::test::Fail;

/// A list under a guard: its place, its first entry and the links.
#[derive(Drop)]
struct List<'g> {
    domain: &'g Domain<u64>,
    head: LinkedEntry<'g, u64>,
    links: &'g Links<u64>,
    guard: &'g Guard,
    ghost made: { IsEntryOf head domain.now × AreLinksOf links.now domain.now },
}

/// What is done to a list, by the values of its entries.
#[derive(Clone, Copy)]
enum Act {
    /// An entry of the second value is pushed behind that of the first one, with a mark or without.
    Push(u64, u64, bool),
    /// An owner of the second entry is pushed behind that one.
    PushSecond,
    Delete(u64),
    IsMarked(u64),
    /// The next entry that isn't deleted.
    Next(u64),
}

/// What a list shows: the value of an entry, a yes or a no, or that there is none or an owner is returned.
#[derive(Clone, Copy, PartialEq, Eq)]
enum Shown {
    Value(u64),
    Answer(bool),
    None,
}

/// A list that begins with an entry of 1, step by step, and what each shows.
const STEPS: &[(Act, Shown)] = &[
    (Act::Next(1), Shown::None),
    (Act::Push(1, 2, false), Shown::Value(2)),
    (Act::Next(1), Shown::Value(2)),
    // 1 3 2
    (Act::Push(1, 3, false), Shown::Value(3)),
    (Act::Next(1), Shown::Value(3)),
    (Act::Next(3), Shown::Value(2)),
    (Act::Next(2), Shown::None),
    (Act::PushSecond, Shown::None),
    (Act::Next(1), Shown::Value(3)),
    // walks pass over a deleted entry, behind which nothing is pushed
    (Act::Delete(3), Shown::Answer(true)),
    (Act::Delete(3), Shown::Answer(false)),
    (Act::Next(1), Shown::Value(2)),
    (Act::Push(3, 4, false), Shown::None),
    (Act::Next(3), Shown::Value(2)),
    // 1 4 3 2, and a mark on 1
    (Act::IsMarked(1), Shown::Answer(false)),
    (Act::Push(1, 4, true), Shown::Value(4)),
    (Act::IsMarked(1), Shown::Answer(true)),
    (Act::IsMarked(4), Shown::Answer(false)),
    (Act::Next(1), Shown::Value(4)),
    (Act::Next(4), Shown::Value(2)),
    (Act::Delete(4), Shown::Answer(true)),
    (Act::Next(1), Shown::Value(2)),
    (Act::Delete(2), Shown::Answer(true)),
    (Act::Next(1), Shown::None),
    // a push takes the mark away, or leaves one
    (Act::Push(1, 5, false), Shown::Value(5)),
    (Act::IsMarked(1), Shown::Answer(false)),
    (Act::Next(1), Shown::Value(5)),
    (Act::Next(5), Shown::None),
];

impl<'g> List<'g> {
    /// The entry of a value, deleted or not.
    fn find(&self, value: u64, local: &mut Local<u64>) -> Option<LinkedEntry<'g, u64>>
        requires open { IsOpenIn self.now.guard.now local.old self.now.domain.now }
        ensures entry { IfSome result (λ e. IsEntryOf e self.now.domain.now) }
        ensures same { IsStill local.old local.new }
    {
        let mut at = self.head;
        for _i in 0..8u32 {
            if *at.as_ref() == value {
                return Some(at);
            }
            let next = at.link_ref().load(self.domain, self.guard, local);
            at = LinkedEntry::of(next, self.links)?;
        }
        None
    }

    /// Pushes an owner's entry behind one.
    fn push(&self, behind: u64, owner: Shared<u64>, mark: bool, local: &mut Local<u64>) -> Shown
        requires open { IsOpenIn self.now.guard.now local.old self.now.domain.now }
        requires mine { kept_in owner ≡ (place_of self.now.domain.now).0 }
        ensures same { IsStill local.old local.new }
    {
        let pushed = match self.find(behind, local) {
            Some(entry) => entry.push_back(self.domain, owner, mark, self.guard, local),
            None => Err(owner),
        };
        match pushed {
            Ok(pointer) => value_shown(pointer.as_ref().copied()),
            Err(back) => {
                back.release(self.domain, local);
                Shown::None
            }
        }
    }

    /// The value behind an entry, read by a pointer, and by an owner.
    fn next(&self, entry: LinkedEntry<'g, u64>, local: &mut Local<u64>) -> [Option<u64>; 2]
        requires open { IsOpenIn self.now.guard.now local.old self.now.domain.now }
        requires entry { IsEntryOf entry self.now.domain.now }
        ensures same { IsStill local.old local.new }
    {
        let read = entry
            .next_ptr(self.domain, self.guard, local)
            .as_ref()
            .copied();
        match entry.next_shared(self.domain, self.guard, local) {
            Some(owner) => {
                let value = *owner.as_ref();
                owner.release(self.domain, local);
                [read, Some(value)]
            }
            None => [read, None],
        }
    }

    /// Takes a step, for which a new entry is lent where one is pushed.
    fn step<R: Abort>(&self, rt: &R, act: Act, local: &mut Local<u64>) -> Shown
        requires open { IsOpenIn self.now.guard.now local.old self.now.domain.now × (hand_of local.old ≡ []) }
        ensures same { IsAsBefore local.old local.new }
    {
        match act {
            Act::Push(behind, value, mark) => {
                let owner = entry(rt, self.domain, value, self.links, local);
                self.push(behind, owner, mark, local)
            }
            Act::PushSecond => self.push_second(local),
            Act::Delete(value) | Act::IsMarked(value) | Act::Next(value) => {
                let Some(found) = self.find(value, local) else {
                    panic!(rt; "it is there");
                };
                self.look(rt, act, found, local)
            }
        }
    }

    /// Pushes the second entry behind itself.
    fn push_second(&self, local: &mut Local<u64>) -> Shown
        requires open { IsOpenIn self.now.guard.now local.old self.now.domain.now }
        ensures same { IsStill local.old local.new }
    {
        let second = self.head.link_ref().load(self.domain, self.guard, local);
        match second.get_shared(self.domain, local) {
            Some(owner) => {
                let behind = *owner.as_ref();
                self.push(behind, owner, false, local)
            }
            None => Shown::Answer(true),
        }
    }

    /// What is asked of one entry.
    fn look<R: Abort>(
        &self,
        rt: &R,
        act: Act,
        entry: LinkedEntry<'g, u64>,
        local: &mut Local<u64>,
    ) -> Shown
        requires open { IsOpenIn self.now.guard.now local.old self.now.domain.now }
        requires entry { IsEntryOf entry self.now.domain.now }
        ensures same { IsStill local.old local.new }
    {
        match act {
            Act::Delete(_) => Shown::Answer(entry.delete_self(self.domain, self.guard, local)),
            Act::IsMarked(_) => Shown::Answer(entry.is_marked(self.domain, local)),
            _ => {
                let [by_pointer, by_owner] = self.next(entry, local);
                assert!(rt; by_pointer == by_owner);
                value_shown(by_pointer)
            }
        }
    }
}

fn value_shown(value: Option<u64>) -> Shown {
    match value {
        Some(value) => Shown::Value(value),
        None => Shown::None,
    }
}

/// The first step that shows something else, if any does.
fn first_other<R: Abort>(rt: &R, list: &List, local: &mut Local<u64>) -> Option<usize>
    requires open { IsOpenIn list.now.guard.now local.old list.now.domain.now × (hand_of local.old ≡ []) }
    ensures same { IsAsBefore local.old local.new }
{
    for i in 0..STEPS.len() {
        let (act, expected) = STEPS[i];
        if list.step(rt, act, local) != expected {
            return Some(i);
        }
    }
    None
}

#[test]
fn entries_are_pushed_behind_others_and_walks_pass_over_deleted_ones(
    rt: HostRuntime,
) -> Result<(), Fail> {
    let domain = Domain::new(rt.alloc(), sized(1, 8))?;
    let mut local = member(&rt, &domain);
    let links = links(&rt, rt.alloc(), &domain, &mut local);
    let owner = entry(&rt, &domain, 1, &links, &mut local);
    let Ok(guard) = Guard::new(&domain, &mut local) else {
        unreachable!();
    };
    let Some(head) = LinkedEntry::of_owner(&owner, &links) else {
        panic!(rt; "it has a link");
    };
    let list = List {
        domain: &domain,
        head,
        links: &links,
        guard: &guard,
    };
    let other = first_other(&rt, &list, &mut local);
    guard.close(&domain, &mut local);
    owner.release(&domain, &mut local);
    links.end(&domain, &mut local);
    local.end(&domain);
    end(&rt, domain);
    assert_eq!(rt; other, None);
    Ok(())
}
