//! Runs in which any one allocation may be refused. A script has each refused in turn: whatever is refused, nothing has
//! changed, and the same call then succeeds.

ghost use Rattle.std.specs.Prelude.{◌≡◌, ◌≤◌};
ghost use Rattle.sdd_domain.specs.Tokens.{place_of};
ghost use Rattle.shared_index.specs.SharedInvariant.{IsUnengaged};
ghost use Rattle.shared_book_tests.specs.Scenes.{CanBegin};

use crate::scene::{Item, Scene, closed, end, in_use, member, place, registered};
use index_rows::is_accepted;
use sdd_domain::domain::Domain;
use sdd_domain::local::Local;
use sdd_domain::refusal::RegisterRefused;
use serial_history::{
    Accepted, Answer, Audit, Cause, CheckpointRefused, Query, Receipt, Refused, Reply,
};
use shared_index::{FeedRefused, Naming, NewRefused};
use std::alloc::{AllocError, Global};
use std::marker::Brand;
use std::process::Abort;
use std::sync::ledger::Blank;
use version_views::Write;

const TWICE: &str = "memory was refused twice";

/// A place for this many items, made at once or, where memory was refused, by a second try.
pub(crate) fn place_by_two<R: Abort>(
    rt: &R,
    alloc: Global,
    slots: usize,
    met: &mut bool,
) -> Domain<Item>
    requires { (1 ≤ slots) × (slots ≤ 1073741824) }
{
    match place(alloc, slots) {
        Ok(domain) => domain,
        Err(AllocError) => {
            *met = true;
            place(alloc, slots).expect(rt, TWICE)
        }
    }
}

/// Ends a place that nobody uses, at once or, where memory was refused, by a second try.
pub(crate) fn end_by_two<R: Abort>(rt: &R, domain: Domain<Item>, met: &mut bool) {
    let Err(domain) = closed(domain) else {
        return;
    };
    *met = true;
    end(rt, domain);
}

/// A participant, registered at once or, where memory was refused, by a second try.
pub(crate) fn registered_by_two<R: Abort>(
    rt: &R,
    domain: &Domain<Item>,
    met: &mut bool,
) -> Local<Item>
    ensures { IsUnengaged (place_of domain.now) result }
{
    match registered(domain) {
        Ok(local) => local,
        Err(RegisterRefused::Memory) => {
            *met = true;
            member(rt, domain)
        }
        Err(RegisterRefused::Full) => panic!(rt; "a participant is free"),
    }
}

/// An empty book, made again where memory was refused; then nothing was in use.
fn book<'d, L: Naming, R: Abort>(
    rt: &R,
    alloc: Global,
    domain: &'d Domain<Item>,
    local: Local<Item>,
    blank: Blank,
    met: &mut bool,
) -> Scene<'d, L, 2>
    requires begins { CanBegin L.place L.name L.parts 1 domain.now local blank }
    requires last { L.last ≡ 18446744073709551615 }
    ensures { result.domain.now ≡ domain.now }
{
    let (local, blank) = match Scene::made(alloc, domain, local, blank, u64::MAX) {
        Ok(scene) => return scene,
        Err((local, blank, NewRefused::Memory)) => (local, blank),
        Err((_, _, NewRefused::NoSlot)) => panic!(rt; "there is a slot and a cell"),
    };
    *met = true;
    assert_eq!(rt; in_use(domain), 0);
    match Scene::made(alloc, domain, local, blank, u64::MAX) {
        Ok(scene) => scene,
        Err(_) => panic!(rt; "memory was refused twice"),
    }
}

fn two_writes(alloc: Global) -> Result<Vec<Write<u64, u64>>, AllocError> {
    let writes = vec![in alloc; Write::Insert(1, 10), Write::Upsert(1, 11)]?;
    Ok(writes)
}

/// Two writes of one key, made again where memory was refused.
fn writes<R: Abort>(rt: &R, alloc: Global, met: &mut bool) -> Vec<Write<u64, u64>> {
    match two_writes(alloc) {
        Ok(writes) => writes,
        Err(AllocError) => {
            *met = true;
            two_writes(alloc).expect(rt, TWICE)
        }
    }
}

/// A receipt of the first list, in which the key is 11, made again likewise.
fn receipt<R: Abort>(rt: &R, alloc: Global, met: &mut bool) -> Receipt<u64, u64> {
    let mut receipt = Receipt::blank(alloc);
    receipt.number = 1;
    let told = Answer::Get(Some(11));
    if receipt.note(Query::Get(1), &told).is_err() {
        *met = true;
        assert!(rt; receipt.reads.as_slice().is_empty());
        receipt.note(Query::Get(1), &told).expect(rt, TWICE);
    }
    receipt
}

/// The number, how many pairs there are, the count of the share, and how many slots are in use.
fn state<L: Naming>(scene: &Scene<'_, L, 2>) -> ((u64, usize, u64), usize) {
    (scene.counts(), in_use(scene.domain))
}

/// Commits the two writes, again where memory was refused; then the book, the share and the writes were as before.
fn commit<L: Naming, R: Abort>(
    rt: &R,
    alloc: Global,
    scene: &mut Scene<'_, L, 2>,
    receipt: &Receipt<u64, u64>,
    met: &mut bool,
) -> Accepted {
    let before = state(scene);
    let writes = writes(rt, alloc, met);
    let Refused { cause, writes } = match scene.commit(receipt, writes) {
        Ok(accepted) => return accepted,
        Err(refused) => refused,
    };
    *met = true;
    assert!(rt; cause == Cause::Memory);
    assert!(rt; writes.as_slice() == &[Write::Insert(1, 10), Write::Upsert(1, 11)][..]);
    assert!(rt; state(scene) == before);
    match scene.commit(receipt, writes) {
        Ok(accepted) => accepted,
        Err(_) => panic!(rt; "memory was refused twice"),
    }
}

/// Audits the receipt, again where memory was refused.
fn audit<L: Naming, R: Abort>(
    rt: &R,
    scene: &Scene<'_, L, 2>,
    receipt: &Receipt<u64, u64>,
    met: &mut bool,
) -> Audit {
    match scene.audit(receipt) {
        Ok(found) => found,
        Err(AllocError) => {
            *met = true;
            scene.audit(receipt).expect(rt, TWICE)
        }
    }
}

/// How many transactions came behind the first list, asked again where memory was refused.
fn fed<L: Naming, R: Abort>(rt: &R, scene: &Scene<'_, L, 2>, met: &mut bool) -> usize {
    match scene.since(1) {
        Ok(rest) => rest.len(),
        Err(why) => {
            *met = true;
            assert!(rt; why == FeedRefused::Memory);
            scene.since(1).expect(rt, TWICE).len()
        }
    }
}

/// Makes the first list the base, again where memory was refused; then the base and the book were as before.
fn checkpoint<L: Naming, R: Abort>(rt: &R, scene: &mut Scene<'_, L, 2>, met: &mut bool) {
    let before = state(scene);
    match scene.checkpoint(1) {
        Ok(()) => {}
        Err(why) => {
            *met = true;
            assert!(rt; why == CheckpointRefused::Memory);
            assert!(rt; scene.base() == (0, &[][..]));
            scene.checkpoint(1).expect(rt, TWICE);
        }
    }
    assert!(rt; scene.base() == (1, &[(1, 11)][..]));
    assert!(rt; state(scene) == before);
}

/// What is found of a book: what two commits answer, what an audit of the first list says before that is the base and
/// afterwards, and the number, how many pairs there are and the count of the share.
type Found = (Accepted, Accepted, [Audit; 2], (u64, usize, u64));

/// A book that is made, written twice, asked about its first list, and based on it.
fn writes_and_audits<L: Naming, R: Abort>(
    rt: &R,
    alloc: Global,
    domain: &Domain<Item>,
    local: Local<Item>,
    blank: Blank,
    met: &mut bool,
) -> Found
    requires begins { CanBegin L.place L.name L.parts 1 domain.now local blank }
    requires last { L.last ≡ 18446744073709551615 }
{
    let mut scene = book::<L, R>(rt, alloc, domain, local, blank, met);
    let none = Receipt::blank(alloc);
    let first = commit(rt, alloc, &mut scene, &none, met);
    let read = receipt(rt, alloc, met);
    let second = commit(rt, alloc, &mut scene, &read, met);
    let replayed = audit(rt, &scene, &read, met);
    assert_eq!(rt; fed(rt, &scene, met), 1);
    checkpoint(rt, &mut scene, met);
    let based = audit(rt, &scene, &read, met);
    let counts = scene.counts();
    scene.end();
    (first, second, [replayed, based], counts)
}

/// Whether all was found as it is to be, whatever was refused.
fn is_right(found: &Found) -> bool {
    let (first, second, audits, counts) = found;
    is_accepted(first, 1, &[Reply::Inserted, Reply::Upserted])
        && is_accepted(second, 2, &[Reply::Duplicate, Reply::Upserted])
        && *audits == [Audit::Yes, Audit::Yes]
        && *counts == (2, 1, 2)
}

/// Whether an allocation was refused while a place and such a book in it were made and used. The place was made again where
/// memory was refused.
fn in_a_place<R: Abort>(rt: &R, alloc: Global) -> bool {
    let mut met = false;
    let domain = place_by_two(rt, alloc, 16, &mut met);
    let local = registered_by_two(rt, &domain, &mut met);
    let found = writes_and_audits::<Brand, R>(rt, alloc, &domain, local, Blank::new(1), &mut met);
    assert!(rt; is_right(&found));
    end_by_two(rt, domain, &mut met);
    met
}

#[test]
fn a_refusal_of_memory_leaves_the_book(rt: HostRuntime) {
    let _met = in_a_place(&rt, rt.alloc());
}

#[test]
fn no_memory_is_refused(rt: HostRuntime) {
    assert!(rt; !in_a_place(&rt, rt.alloc()));
}
