//! Books that begin with a list: by example, as another index left it, and with each allocation refused.

ghost use Rattle.std.specs.Prelude.{◌≡◌, ◌≤◌, IfErr, IfOk};
ghost use Rattle.sdd_domain.specs.Tokens.{place_of};
ghost use Rattle.shared_index.specs.SharedInvariant.{IsUnengaged};
ghost use Rattle.shared_book_tests.specs.Scenes.{CanBegin};

use crate::refusals::{end_by_two, place_by_two, registered_by_two};
use crate::scene::{Item, ROOM, Scene, end, in_use, leave, member, place};
use crate::table::played;
use index_rows::{BASES, BaseCase, Begun, FIVE, NoBase};
use sdd_domain::domain::Domain;
use sdd_domain::local::Local;
use shared_index::{BaseList, Naming, SharedBaseCause, SharedBaseRefused};
use std::alloc::{AllocError, Global};
use std::marker::Brand;
use std::process::Abort;
use std::sync::ledger::Blank;

/// Ends the participant of a book that wasn't made: whether nothing is in use then.
fn left(domain: &Domain<Item>, local: Local<Item>) -> bool
    requires { IsUnengaged (place_of domain.now) local }
{
    leave(domain, local);
    in_use(domain) == 0
}

/// The cause that a row names.
fn cause_of(why: NoBase) -> SharedBaseCause {
    match why {
        NoBase::NotAscending(place) => SharedBaseCause::NotAscending(place),
        NoBase::NoSlot => SharedBaseCause::NoSlot,
    }
}

/// Whether a book begins with a list as is wanted. It is ended.
fn begins<L: Naming, R: Abort>(
    rt: &R,
    alloc: Global,
    domain: &Domain<Item>,
    local: Local<Item>,
    blank: Blank,
    case: BaseCase,
) -> bool
    requires begins { CanBegin L.place L.name L.parts 1 domain.now local blank }
    requires last { L.last ≡ 18446744073709551615 }
{
    let base = BaseList {
        number: case.number,
        pairs: Vec::from_clones(alloc, case.pairs).expect(rt, ROOM),
    };
    match (
        Scene::<L, 2>::holding(alloc, domain, local, blank, base),
        case.told,
    ) {
        (Ok(scene), Begun::With(used, rows, _)) => {
            let found = in_use(domain);
            let (right, made) = played(rt, alloc, scene, &[rows]);
            right == made && found == used.shared
        }
        (Err((local, _, refused)), Begun::Not(why)) => {
            let is_free = left(domain, local);
            is_free && refused.cause == cause_of(why) && refused.pairs.as_slice() == case.pairs
        }
        (Ok(scene), Begun::Not(_)) => {
            scene.end();
            false
        }
        (Err((local, _, _)), Begun::With(_, _, _)) => {
            leave(domain, local);
            false
        }
    }
}

/// Whether it does in a place of its own.
fn begins_alone<R: Abort>(rt: &R, alloc: Global, case: BaseCase) -> bool {
    if case.slots.shared == 0 || case.slots.shared > 16 {
        panic!(rt; "a small place");
    }
    let domain = place(alloc, case.slots.shared).expect(rt, ROOM);
    let local = member(rt, &domain);
    let is_right = begins::<Brand, R>(rt, alloc, &domain, local, Blank::new(1), case);
    end(rt, domain);
    is_right
}

#[test]
fn a_book_begins_with_a_list(rt: HostRuntime) {
    for at in 0..BASES.len() {
        assert!(rt; begins_alone(&rt, rt.alloc(), BASES[at]), "case {at}");
    }
}

/// The five pairs under number 7, copied again where memory was refused.
fn five<R: Abort>(rt: &R, alloc: Global, met: &mut bool) -> BaseList<u64, u64> {
    let pairs = match Vec::from_clones(alloc, FIVE) {
        Ok(pairs) => pairs,
        Err(AllocError) => {
            *met = true;
            Vec::from_clones(alloc, FIVE).expect(rt, ROOM)
        }
    };
    BaseList { number: 7, pairs }
}

/// A book of the five pairs, made again of what is returned where memory was refused, when nothing was in use.
fn begun_again<'d, L: Naming, R: Abort>(
    rt: &R,
    alloc: Global,
    domain: &'d Domain<Item>,
    local: Local<Item>,
    blank: Blank,
    met: &mut bool,
) -> Result<Scene<'d, L, 2>, (Local<Item>, Blank, SharedBaseRefused<u64, u64>)>
    requires begins { CanBegin L.place L.name L.parts 1 domain.now local blank }
    requires last { L.last ≡ 18446744073709551615 }
    ensures back { IfErr result (λ back. CanBegin L.place L.name L.parts 1 domain.now back.0 back.1) }
    ensures domain { IfOk result (λ scene. scene.domain.now ≡ domain.now) }
{
    let base = five(rt, alloc, met);
    let (local, blank, refused) = match Scene::holding(alloc, domain, local, blank, base) {
        Ok(scene) => return Ok(scene),
        Err(back) => back,
    };
    if refused.cause != SharedBaseCause::Memory {
        return Err((local, blank, refused));
    }
    *met = true;
    assert_eq!(rt; in_use(domain), 0);
    assert!(rt; refused.pairs.as_slice() == FIVE);
    let base = BaseList {
        number: 7,
        pairs: refused.pairs,
    };
    Scene::holding(alloc, domain, local, blank, base)
}

/// The base of a book, copied again where memory was refused.
fn copied<L: Naming, R: Abort>(
    rt: &R,
    scene: &Scene<'_, L, 2>,
    met: &mut bool,
) -> BaseList<u64, u64> {
    match scene.base_list() {
        Ok(list) => list,
        Err(AllocError) => {
            *met = true;
            scene.base_list().expect(rt, ROOM)
        }
    }
}

/// Makes a book of the five pairs in a place, or learns why there is none: the base of it, or the cause.
fn tried<L: Naming, R: Abort>(
    rt: &R,
    alloc: Global,
    domain: &Domain<Item>,
    local: Local<Item>,
    blank: Blank,
    met: &mut bool,
) -> Result<BaseList<u64, u64>, SharedBaseCause>
    requires begins { CanBegin L.place L.name L.parts 1 domain.now local blank }
    requires last { L.last ≡ 18446744073709551615 }
{
    match begun_again::<L, R>(rt, alloc, domain, local, blank, met) {
        Ok(scene) => {
            assert_eq!(rt; in_use(domain), 2);
            let list = copied(rt, &scene, met);
            scene.end();
            Ok(list)
        }
        Err((local, _, refused)) => {
            assert!(rt; refused.pairs.as_slice() == FIVE);
            assert!(rt; left(domain, local));
            Err(refused.cause)
        }
    }
}

/// Whether an allocation was refused while a book of the five pairs was made in a place of this many slots, which answers this.
fn insisted<R: Abort>(
    rt: &R,
    alloc: Global,
    slots: usize,
    wanted: Result<(), SharedBaseCause>,
) -> bool
    requires { (1 ≤ slots) × (slots ≤ 1073741824) }
{
    let mut met = false;
    let domain = place_by_two(rt, alloc, slots, &mut met);
    let local = registered_by_two(rt, &domain, &mut met);
    let told = tried::<Brand, R>(rt, alloc, &domain, local, Blank::new(1), &mut met);
    end_by_two(rt, domain, &mut met);
    match (told, wanted) {
        (Ok(list), Ok(())) => {
            assert!(rt; list.number == 7 && list.pairs.as_slice() == FIVE);
        }
        (Err(cause), Err(other)) => assert!(rt; cause == other),
        _ => panic!(rt; "it tells something else"),
    }
    met
}

#[test]
fn a_refusal_of_memory_gives_the_pairs_back(rt: HostRuntime) {
    let _met = insisted(&rt, rt.alloc(), 2, Ok(()));
}

#[test]
fn no_memory_is_refused_where_a_book_begins_with_a_list(rt: HostRuntime) {
    assert!(rt; !insisted(&rt, rt.alloc(), 2, Ok(())));
}

#[test]
fn a_refusal_of_memory_gives_the_pairs_back_where_slots_are_too_few(rt: HostRuntime) {
    let _met = insisted(&rt, rt.alloc(), 1, Err(SharedBaseCause::NoSlot));
}

#[test]
fn no_memory_is_refused_where_slots_are_too_few(rt: HostRuntime) {
    assert!(rt; !insisted(&rt, rt.alloc(), 1, Err(SharedBaseCause::NoSlot)));
}
