//! Two threads that push behind one entry.

ghost use Rattle.std.specs.Prelude.{◌≡◌, ◌≤◌, ◌<◌, [], IfSome};
ghost use Rattle.sdd_domain.specs.Sharing.{kept_in};
ghost use Rattle.sdd_domain.specs.Tokens.{place_of, home_of, hand_of, own_of};
ghost use Rattle.shared_lists.specs.Entries.{IsEntryOf};
ghost use Rattle.shared_lists.specs.Lists.{AreLinksOf, IsAsBefore, IsOpenIn, IsStill};

use crate::scene::{end, entry, links, member, sized};
use sdd_domain::domain::Domain;
use sdd_domain::guard::Guard;
use sdd_domain::local::Local;
use sdd_domain::shared::Shared;
use shared_lists::{LinkedEntry, Links};
use std::process::Abort;
use std::test::Fail;
use std::thread::{Threads, join};

/// Pushes entries of 200 values behind one, each under a guard of its own: how many were pushed.
fn pushing(domain: &Domain<u64>, head: &Shared<u64>, links: &Links<u64>, first: u64) -> u64
    requires { AreLinksOf links.now domain.now }
{
    let Ok(mut local) = domain.register() else {
        return 0;
    };
    let mut pushed = 0u64;
    for i in 0..200u64 {
        if push_one(domain, head, links, first.saturating_add(i), &mut local) {
            pushed = pushed.saturating_add(1);
        }
    }
    local.end(domain);
    pushed
}

/// Pushes an entry of a value behind one: whether it did.
fn push_one(
    domain: &Domain<u64>,
    head: &Shared<u64>,
    links: &Links<u64>,
    value: u64,
    local: &mut Local<u64>,
) -> bool
    requires home { (home_of local.old ≡ place_of domain.now) × (hand_of local.old ≡ []) }
    requires closed { (own_of local.old).nesting ≡ 0 }
    requires links { AreLinksOf links.now domain.now }
    ensures same { IsAsBefore local.old local.new }
{
    let Ok(owner) = LinkedEntry::new(domain, value, links, local) else {
        return false;
    };
    let Ok(guard) = Guard::new(domain, local) else {
        unreachable!();
    };
    let back = push_under(domain, head, links, owner, &guard, local);
    guard.close(domain, local);
    match back {
        Some(back) => {
            back.release(domain, local);
            false
        }
        None => true,
    }
}

/// The same under a guard: the owner, where it is returned.
fn push_under<'g>(
    domain: &Domain<u64>,
    head: &'g Shared<u64>,
    links: &'g Links<u64>,
    owner: Shared<u64>,
    guard: &Guard,
    local: &mut Local<u64>,
) -> Option<Shared<u64>>
    requires open { IsOpenIn guard.now local.old domain.now }
    requires mine { kept_in owner ≡ (place_of domain.now).0 }
    requires links { AreLinksOf links.now domain.now }
    ensures home { IfSome result (λ s. kept_in s ≡ (place_of domain.now).0) }
    ensures same { IsStill local.old local.new }
{
    let Some(entry) = LinkedEntry::of_owner(head, links) else {
        return Some(owner);
    };
    match entry.push_back(domain, owner, false, guard, local) {
        Ok(_) => None,
        Err(back) => Some(back),
    }
}

/// How many entries follow one, and the sum of their values.
fn all_behind<'g>(
    domain: &Domain<u64>,
    head: &'g Shared<u64>,
    links: &'g Links<u64>,
    guard: &'g Guard,
    local: &mut Local<u64>,
) -> (u64, u64)
    requires open { IsOpenIn guard.now local.old domain.now }
    requires links { AreLinksOf links.now domain.now }
    ensures same { IsStill local.old local.new }
{
    let (mut count, mut sum) = (0u64, 0u64);
    let Some(mut at) = LinkedEntry::of_owner(head, links) else {
        return (0, 0);
    };
    for _i in 0..1000u32 {
        let next = at.next_ptr(domain, guard, local);
        let Some(entry) = LinkedEntry::of(next, links) else {
            break;
        };
        count = count.saturating_add(1);
        sum = sum.saturating_add(*entry.as_ref());
        at = entry;
    }
    (count, sum)
}

/// Two threads push behind one entry: how many each pushed, how many follow then, and the sum of their values.
fn two_push<R: Threads + Abort + Sync>(
    rt: &R,
    domain: &Domain<u64>,
    links: &Links<u64>,
    local: &mut Local<u64>,
) -> ((u64, u64), (u64, u64))
    requires home { (home_of local.old ≡ place_of domain.now) × (hand_of local.old ≡ []) }
    requires closed { (own_of local.old).nesting ≡ 0 }
    requires links { AreLinksOf links.now domain.now }
    ensures same { IsAsBefore local.old local.new }
{
    let head = entry(rt, domain, 0, links, local);
    let pushed = join(
        rt,
        || -> u64
            requires { AreLinksOf links.now domain.now }
        { pushing(domain, &head, links, 1) },
        || -> u64
            requires { AreLinksOf links.now domain.now }
        { pushing(domain, &head, links, 1001) },
    );
    let Ok(guard) = Guard::new(domain, local) else {
        unreachable!();
    };
    let found = all_behind(domain, &head, links, &guard, local);
    guard.close(domain, local);
    head.release(domain, local);
    (pushed, found)
}

#[test]
fn two_threads_push_behind_one_entry_and_all_follow_it(rt: HostRuntime) -> Result<(), Fail> {
    let domain = Domain::new(rt.alloc(), sized(3, 512))?;
    let mut local = member(&rt, &domain);
    let links = links(&rt, rt.alloc(), &domain, &mut local);
    let found = two_push(&rt, &domain, &links, &mut local);
    links.end(&domain, &mut local);
    local.end(&domain);
    end(&rt, domain);
    // (1 to 200, and 1,001 to 1,200)
    assert!(rt; found == ((200, 200), (400, 240_200)));
    Ok(())
}
