//! A place whose versions follow one another, with the participant who places them.

ghost use Rattle.std.specs.Prelude.{◌≡◌, ◌≤◌, ◌<◌, [], IfSome};
ghost use Rattle.std.specs.Ordering.{nat_cmp};
ghost use Rattle.sdd_domain.specs.Cells.{cell_number};
ghost use Rattle.sdd_domain.specs.Tokens.{place_of, home_of, hand_of, own_of, cell_count, IsSame, IsSameButMisses};
ghost use Rattle.shared_versions.specs.Drafts.{IsPlaceable};

use crate::place::{Item, cell_of, close, in_use, leave, member, opened, reclaimed, retire};
use sdd_domain::atomic_shared::AtomicShared;
use sdd_domain::domain::Domain;
use sdd_domain::local::Local;
use sdd_plain::refusal::NoSlot;
use shared_versions::{Draft, Present, Session, build, build_list, publish, rising_until};
use std::alloc::Global;
use std::process::Abort;
use version_views::Write;

/// The empty version, and a cell that names it.
fn begun<R: Abort, const S: usize>(
    rt: &R,
    alloc: Global,
    domain: &Domain<Item>,
    local: &mut Local<Item>,
) -> (Present<u64, u64, S>, AtomicShared<Item>)
    requires home { (home_of local.old ≡ place_of domain.now) × (hand_of local.old ≡ []) }
    requires closed { (own_of local.old).nesting ≡ 0 }
    ensures place { result.0.place ≡ (place_of domain.now).0 }
    ensures inside { cell_number result.1 < cell_count domain.now }
    ensures same { IsSame local.old local.new }
    ensures closed { (own_of local.new).nesting ≡ 0 }
{
    match Present::new(alloc, domain, local) {
        Ok((present, owner)) => (present, cell_of(rt, domain, owner, local)),
        Err(NoSlot) => panic!(rt; "a slot is free"),
    }
}

/// The version of a list with number 7, and a cell that names it. None where its slots are too few.
fn held<R: Abort, const S: usize>(
    rt: &R,
    alloc: Global,
    domain: &Domain<Item>,
    local: &mut Local<Item>,
    pairs: &[(u64, u64)],
) -> Option<(Present<u64, u64, S>, AtomicShared<Item>)>
    requires home { (home_of local.old ≡ place_of domain.now) × (hand_of local.old ≡ []) }
    requires closed { (own_of local.old).nesting ≡ 0 }
    requires size { (1 ≤ S) × (S ≤ 225) }
    ensures place { IfSome result (λ made. made.0.place ≡ (place_of domain.now).0) }
    ensures inside { IfSome result (λ made. cell_number made.1 < cell_count domain.now) }
    ensures same { IsSameButMisses local.old local.new }
    ensures closed { (own_of local.new).nesting ≡ 0 }
{
    if rising_until(pairs) < pairs.len() {
        panic!(rt; "the keys rise");
    }
    let Ok(draft) = build_list::<u64, u64, S>(alloc, 7, pairs) else {
        panic!(rt; "memory is there");
    };
    match Present::holding(alloc, domain, draft, local) {
        Ok((present, owner)) => Some((present, cell_of(rt, domain, owner, local))),
        Err(NoSlot) => None,
    }
}

/// What writes make of the present version.
fn drafted<R: Abort, const S: usize>(
    rt: &R,
    alloc: Global,
    present: &Present<u64, u64, S>,
    writes: &[Write<u64, u64>],
) -> Draft<u64, u64, S>
    requires { (1 ≤ S) × (S ≤ 225) }
    ensures { IsPlaceable nat_cmp S present.now.version result }
{
    if present.version().number() == u64::MAX {
        panic!(rt; "there are few versions");
    }
    match build::<u64, u64, S>(alloc, present.version(), writes) {
        Ok((draft, _)) => draft,
        Err(_) => panic!(rt; "memory is there"),
    }
}

/// Places a draft, and publishes it: whether there were slots for it.
fn put<const S: usize>(
    domain: &Domain<Item>,
    local: &mut Local<Item>,
    present: &mut Present<u64, u64, S>,
    root: &AtomicShared<Item>,
    draft: Draft<u64, u64, S>,
) -> bool
    requires home { (home_of local.old ≡ place_of domain.now) × (hand_of local.old ≡ []) }
    requires closed { (own_of local.old).nesting ≡ 0 }
    requires place { present.old.place ≡ (place_of domain.now).0 }
    requires inside { cell_number root.now < cell_count domain.now }
    requires placeable { IsPlaceable nat_cmp S present.old.version draft }
    ensures place { present.new.place ≡ (place_of domain.now).0 }
    ensures same { IsSameButMisses local.old local.new }
    ensures closed { (own_of local.new).nesting ≡ 0 }
{
    match present.place(domain, draft, local) {
        Ok(new) => {
            publish(domain, root, new, local);
            true
        }
        Err(NoSlot) => false,
    }
}

/// The value of a key in the version that the cell names, and how many pairs that has.
pub(crate) fn seen<R: Abort, const S: usize>(
    rt: &R,
    domain: &Domain<Item>,
    local: &mut Local<Item>,
    root: &AtomicShared<Item>,
    key: u64,
) -> (Option<u64>, usize)
    requires home { (home_of local.old ≡ place_of domain.now) × (hand_of local.old ≡ []) }
    requires closed { (own_of local.old).nesting ≡ 0 }
    requires inside { cell_number root.now < cell_count domain.now }
    ensures same { IsSame local.old local.new }
    ensures closed { (own_of local.new).nesting ≡ 0 }
{
    let Some(session) = opened::<S>(domain, local, root) else {
        panic!(rt; "the cell names a version");
    };
    let found = looked_up(&session, key);
    close(domain, session.into_guard(), local);
    found
}

/// The value of a key in a session's version, and how many pairs that has.
pub(crate) fn looked_up<const S: usize>(
    session: &Session<u64, u64, S>,
    key: u64,
) -> (Option<u64>, usize) {
    let view = session.view();
    let value = match view.get(&key) {
        Some((_, value)) => Some(*value),
        None => None,
    };
    (value, view.len())
}

/// A place with a present version, the cell that names it, and the participant who places versions, with no guard open.
pub(crate) struct Scene<'d, const S: usize> {
    pub(crate) domain: &'d Domain<Item>,
    local: Local<Item>,
    present: Present<u64, u64, S>,
    pub(crate) root: AtomicShared<Item>,
    ghost home: { home_of local ≡ place_of domain.now },
    ghost bare: { hand_of local ≡ [] },
    ghost closed: { (own_of local).nesting ≡ 0 },
    ghost place: { present.place ≡ (place_of domain.now).0 },
    ghost inside: { cell_number root < cell_count domain.now },
}

impl<'d, const S: usize> Scene<'d, S> {
    /// The empty version of a place.
    pub(crate) fn new<R: Abort>(rt: &R, alloc: Global, domain: &'d Domain<Item>) -> Self
        ensures { place_of result.domain.now ≡ place_of domain.now }
    {
        let mut local = member(rt, domain);
        let (present, root) = begun::<R, S>(rt, alloc, domain, &mut local);
        Scene {
            domain,
            local,
            present,
            root,
        }
    }

    /// The version of a list in a place, with number 7. None where its slots are too few; then none is in use once what waits is
    /// reclaimed.
    pub(crate) fn listed<R: Abort>(
        rt: &R,
        alloc: Global,
        domain: &'d Domain<Item>,
        pairs: &[(u64, u64)],
    ) -> Option<Self>
        requires { (1 ≤ S) × (S ≤ 225) }
        ensures { IfSome result (λ scene. place_of scene.domain.now ≡ place_of domain.now) }
    {
        let mut local = member(rt, domain);
        match held::<R, S>(rt, alloc, domain, &mut local, pairs) {
            Some((present, root)) => {
                assert_eq!(rt; present.version().number(), 7);
                Some(Scene {
                    domain,
                    local,
                    present,
                    root,
                })
            }
            None => {
                reclaimed(domain, &mut local);
                leave(domain, local);
                assert_eq!(rt; in_use(domain), 0);
                None
            }
        }
    }

    /// Makes writes, and publishes what they leave: whether there were slots for it.
    pub(crate) fn commit<R: Abort>(
        &mut self,
        rt: &R,
        alloc: Global,
        writes: &[Write<u64, u64>],
    ) -> bool
        requires { (1 ≤ S) × (S ≤ 225) }
        ensures { place_of self.new.domain.now ≡ place_of self.old.domain.now }
    {
        let draft = drafted(rt, alloc, &self.present, writes);
        put(
            self.domain,
            &mut self.local,
            &mut self.present,
            &self.root,
            draft,
        )
    }

    /// The value of a key in the present version, and how many pairs that has.
    pub(crate) fn seen<R: Abort>(&mut self, rt: &R, key: u64) -> (Option<u64>, usize) {
        seen::<R, S>(rt, self.domain, &mut self.local, &self.root, key)
    }

    /// Reclaims what nobody reads.
    pub(crate) fn reclaim(&mut self)
        ensures { place_of self.new.domain.now ≡ place_of self.old.domain.now }
    {
        reclaimed(self.domain, &mut self.local);
    }

    /// How many slots are in use.
    pub(crate) fn slots(&self) -> usize {
        in_use(self.domain)
    }

    /// Ends the version, the cell and the participant: how many slots are in use then.
    pub(crate) fn end(self) -> usize {
        let Scene {
            domain,
            local,
            present,
            root,
        } = self;
        let mut local = local;
        retire(domain, root, &mut local);
        present.end(domain, &mut local);
        reclaimed(domain, &mut local);
        leave(domain, local);
        in_use(domain)
    }
}
