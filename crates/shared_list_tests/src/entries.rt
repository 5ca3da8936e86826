//! What is asked of an entry, and entries one after the other in a slot.

ghost use Rattle.std.specs.Prelude.{◌≡◌, ◌≤◌, ◌<◌, [], IfSome};
ghost use Rattle.sdd_domain.specs.Sharing.{kept_in};
ghost use Rattle.sdd_domain.specs.Tokens.{place_of, home_of, hand_of, own_of};
ghost use Rattle.shared_lists.specs.Entries.{IsEntryOf};
ghost use Rattle.shared_lists.specs.Lists.{AreLinksOf, IsAsBefore, IsOpenIn, IsStill};

use crate::scene::{end, entry, links, member, pass, sized};
use sdd_domain::domain::Domain;
use sdd_domain::guard::Guard;
use sdd_domain::local::Local;
use sdd_domain::shared::Shared;
use shared_lists::{LinkedEntry, Links, NotMade};
use std::process::Abort;
use std::test::Fail;

/// A call on an entry that answers yes or no.
#[derive(Clone, Copy)]
enum Call {
    IsClear,
    IsMarked,
    IsDeleted,
    Mark,
    Unmark,
    Delete,
}

/// What a call on an entry answers.
fn answer(
    domain: &Domain<u64>,
    entry: &LinkedEntry<u64>,
    call: Call,
    guard: &Guard,
    local: &mut Local<u64>,
) -> bool
    requires open { IsOpenIn guard.now local.old domain.now }
    requires entry { IsEntryOf entry.now domain.now }
    ensures same { IsStill local.old local.new }
{
    match call {
        Call::IsClear => entry.is_clear(domain, local),
        Call::IsMarked => entry.is_marked(domain, local),
        Call::IsDeleted => entry.is_deleted(domain, local),
        Call::Mark => entry.mark(domain, guard, local),
        Call::Unmark => entry.unmark(domain, guard, local),
        Call::Delete => entry.delete_self(domain, guard, local),
    }
}

/// The calls on one entry, one after the other, and what each answers.
const CALLS: &[(Call, bool)] = &[
    (Call::IsClear, true),
    (Call::IsMarked, false),
    (Call::IsDeleted, false),
    (Call::Unmark, false),
    (Call::Mark, true),
    (Call::Mark, false),
    (Call::IsClear, false),
    (Call::IsMarked, true),
    (Call::IsDeleted, false),
    (Call::Unmark, true),
    (Call::IsClear, true),
    (Call::Mark, true),
    (Call::Delete, true),
    (Call::IsDeleted, true),
    (Call::IsMarked, false),
    (Call::IsClear, false),
    (Call::Delete, false),
    (Call::Mark, false),
    (Call::Unmark, false),
    (Call::IsDeleted, true),
];

/// The first row that is answered otherwise, if any is.
fn first_wrong<'g>(
    domain: &Domain<u64>,
    owner: &'g Shared<u64>,
    links: &'g Links<u64>,
    guard: &Guard,
    local: &mut Local<u64>,
) -> Option<usize>
    requires open { IsOpenIn guard.now local.old domain.now }
    requires links { AreLinksOf links.now domain.now }
    ensures same { IsStill local.old local.new }
{
    let Some(entry) = LinkedEntry::of_owner(owner, links) else {
        return Some(usize::MAX);
    };
    for i in 0..CALLS.len() {
        let (call, expected) = CALLS[i];
        if answer(domain, &entry, call, guard, local) != expected {
            return Some(i);
        }
    }
    None
}

#[test]
fn an_entry_is_marked_unmarked_and_deleted(rt: HostRuntime) -> Result<(), Fail> {
    let domain = Domain::new(rt.alloc(), sized(1, 1))?;
    let mut local = member(&rt, &domain);
    let links = links(&rt, rt.alloc(), &domain, &mut local);
    let owner = entry(&rt, &domain, 7, &links, &mut local);
    // the one slot is taken
    let back = match LinkedEntry::new(&domain, 8, &links, &mut local) {
        Ok(more) => {
            more.release(&domain, &mut local);
            None
        }
        Err(back) => Some(back),
    };
    let value = *owner.as_ref();
    let Ok(guard) = Guard::new(&domain, &mut local) else {
        unreachable!();
    };
    let wrong = first_wrong(&domain, &owner, &links, &guard, &mut local);
    guard.close(&domain, &mut local);
    owner.release(&domain, &mut local);
    links.end(&domain, &mut local);
    local.end(&domain);
    end(&rt, domain);
    assert_eq!(rt; (wrong, back, value), (None, Some(8), 7));
    Ok(())
}

/// The slot of an entry that was deleted, with something behind it, has another one: whether that is clear, and what follows it.
#[test]
fn an_entry_in_the_slot_of_a_deleted_one_is_clear(rt: HostRuntime) -> Result<(), Fail> {
    let domain = Domain::new(rt.alloc(), sized(1, 4))?;
    let mut local = member(&rt, &domain);
    let links = links(&rt, rt.alloc(), &domain, &mut local);
    for value in 1..5u64 {
        let found = lone(&rt, &domain, value, &links, &mut local);
        assert!(rt; found == (true, None, true));
        for _i in 0..4u32 {
            pass(&domain, &mut local);
        }
    }
    links.end(&domain, &mut local);
    local.end(&domain);
    end(&rt, domain);
    Ok(())
}

/// An entry with another one behind it that is deleted: whether it is clear at first, what follows it then, and whether it is
/// deleted in the end.
fn lone<R: Abort>(
    rt: &R,
    domain: &Domain<u64>,
    value: u64,
    links: &Links<u64>,
    local: &mut Local<u64>,
) -> (bool, Option<u64>, bool)
    requires home { (home_of local.old ≡ place_of domain.now) × (hand_of local.old ≡ []) }
    requires closed { (own_of local.old).nesting ≡ 0 }
    requires links { AreLinksOf links.now domain.now }
    ensures same { IsAsBefore local.old local.new }
{
    let first = entry(rt, domain, value, links, local);
    let second = entry(rt, domain, value, links, local);
    let Ok(guard) = Guard::new(domain, local) else {
        unreachable!();
    };
    let found = deleted_with(domain, &first, second, links, &guard, local);
    guard.close(domain, local);
    first.release(domain, local);
    found
}

/// The same under a guard.
fn deleted_with<'g>(
    domain: &Domain<u64>,
    first: &'g Shared<u64>,
    second: Shared<u64>,
    links: &'g Links<u64>,
    guard: &Guard,
    local: &mut Local<u64>,
) -> (bool, Option<u64>, bool)
    requires open { IsOpenIn guard.now local.old domain.now }
    requires mine { kept_in second ≡ (place_of domain.now).0 }
    requires links { AreLinksOf links.now domain.now }
    ensures same { IsStill local.old local.new }
{
    let Some(entry) = LinkedEntry::of_owner(first, links) else {
        second.release(domain, local);
        return (false, None, false);
    };
    let is_clear = entry.is_clear(domain, local);
    let next = entry.next_ptr(domain, guard, local).as_ref().copied();
    if let Err(back) = entry.push_back(domain, second, false, guard, local) {
        back.release(domain, local);
    }
    (is_clear, next, entry.delete_self(domain, guard, local))
}

#[test]
fn links_want_a_cell_for_each_slot(rt: HostRuntime) -> Result<(), Fail> {
    let domain = Domain::new(rt.alloc(), sized(1, 2))?;
    let mut local = member(&rt, &domain);
    let links = links(&rt, rt.alloc(), &domain, &mut local);
    let refused = match Links::new(rt.alloc(), &domain, &mut local) {
        Ok(more) => {
            more.end(&domain, &mut local);
            None
        }
        Err(why) => Some(why),
    };
    links.end(&domain, &mut local);
    local.end(&domain);
    end(&rt, domain);
    assert_eq!(rt; refused, Some(NotMade::NoCell));
    Ok(())
}
