//! Scenes: what is done with an index in a place of its own, from its beginning to its end. Where memory is refused to the place, a
//! participant or the index, it is asked for once more.

ghost use Rattle.std.specs.Prelude.{◌≤◌, IfErr};
ghost use Rattle.sdd_domain.specs.Tokens.{place_of};
ghost use Rattle.shared_index_tests.specs.Scenes.{CanBegin};

use crate::calls::{Index, in_use, leave};
use crate::place::{ROOM, member};
use crate::stage::{Item, Stage, Start};
use sdd_domain::domain::Domain;
use sdd_plain::sizes::Sizes;
use shared_index::{BaseList, Naming, NewRefused, Share, SharedBaseCause, SharedIndex};
use std::alloc::Global;
use std::marker::Brand;
use std::process::Abort;
use std::sync::ledger::Blank;

pub(crate) const TWICE: &str = "memory was refused twice";

/// An empty index with this many shares, in a place for this many participants and items, with one cell.
pub(crate) fn empty(participants: u8, slots: u16, shares: u8) -> Start {
    Start {
        participants,
        slots,
        cells: 1,
        shares,
        last: u64::MAX,
        base: None,
    }
}

/// What is done with an index, and what is found.
pub(crate) trait Scene<R> {
    type Found;

    fn play<L: Naming>(self, rt: &R, alloc: Global, stage: Stage<'_>) -> Self::Found
        requires { CanBegin L.place L.name L.parts L.last stage };
}

/// A place for an index that begins so.
pub(crate) fn place<R: Abort>(rt: &R, alloc: Global, start: Start) -> Domain<Item> {
    if start.participants == 0 {
        panic!(rt; "a place has a participant");
    }
    let sizes = Sizes {
        participants: usize::from(start.participants),
        slots: usize::from(start.slots),
        cells: usize::from(start.cells),
        jobs: 0,
    };
    for _ in 0..2u32 {
        if let Ok(domain) = Domain::new(alloc, sizes) {
            return domain;
        }
    }
    panic!(rt; "{TWICE}")
}

/// Ends a place that nobody uses.
pub(crate) fn end<R: Abort>(rt: &R, domain: Domain<Item>) {
    match domain.close() {
        Ok(()) => {}
        Err(_) => panic!(rt; "nobody is registered"),
    }
}

/// What an index is made of in this place.
pub(crate) fn staged<'d, R: Abort>(rt: &R, domain: &'d Domain<Item>, start: Start) -> Stage<'d>
    ensures { CanBegin (place_of result.domain.now) result.blank.name result.blank.parts result.start.last result }
{
    if start.shares == 0 {
        panic!(rt; "an index has a share");
    }
    Stage {
        domain,
        local: member(rt, domain),
        blank: Blank::new(u64::from(start.shares)),
        start,
    }
}

/// Plays a scene under these names of the place, the ledger and the last number.
fn named<L: Naming, R, X: Scene<R>>(rt: &R, alloc: Global, stage: Stage<'_>, scene: X) -> X::Found
    requires { CanBegin L.place L.name L.parts L.last stage }
{
    scene.play::<L>(rt, alloc, stage)
}

/// Plays a scene in a place of its own.
pub(crate) fn plays<R: Abort, X: Scene<R>>(
    rt: &R,
    alloc: Global,
    start: Start,
    scene: X,
) -> X::Found {
    let domain = place(rt, alloc, start);
    let stage = staged(rt, &domain, start);
    let found = named::<Brand, R, X>(rt, alloc, stage, scene);
    end(rt, domain);
    found
}

fn cause_of(why: NewRefused) -> SharedBaseCause {
    match why {
        NewRefused::Memory => SharedBaseCause::Memory,
        NewRefused::NoSlot => SharedBaseCause::NoSlot,
    }
}

/// An index, or why there is none and what it was to be made of. The pairs of its list are returned then.
pub(crate) fn made<'d, L: Naming, R: Abort, const S: usize>(
    rt: &R,
    alloc: Global,
    stage: Stage<'d>,
) -> Result<(Index<'d, L, S>, Vec<Share<L>>), (Stage<'d>, SharedBaseCause)>
    requires begins { CanBegin L.place L.name L.parts L.last stage }
    requires size { (1 ≤ S) × (S ≤ 225) }
    ensures back { IfErr result (λ back. CanBegin L.place L.name L.parts L.last back.0) }
{
    let Stage {
        domain,
        local,
        blank,
        start,
    } = stage;
    let shares = usize::from(start.shares);
    let (local, blank, why) = if start.last < u64::MAX {
        match SharedIndex::with_last(alloc, domain, local, blank, shares, start.last) {
            Ok(made) => return Ok(made),
            Err((local, blank, why)) => (local, blank, cause_of(why)),
        }
    } else if let Some((number, list)) = start.base {
        let pairs = Vec::from_clones(alloc, list).expect(rt, ROOM);
        let base = BaseList { number, pairs };
        match SharedIndex::from_base(alloc, domain, local, blank, shares, base) {
            Ok(made) => return Ok(made),
            Err((local, blank, refused)) => {
                assert!(rt; refused.pairs.as_slice() == list);
                (local, blank, refused.cause)
            }
        }
    } else {
        match SharedIndex::new(alloc, domain, local, blank, shares) {
            Ok(made) => return Ok(made),
            Err((local, blank, why)) => (local, blank, cause_of(why)),
        }
    };
    let stage = Stage {
        domain,
        local,
        blank,
        start,
    };
    Err((stage, why))
}

/// An index. Where memory is refused, nothing is in use, and it is made at the second try.
pub(crate) fn begun<'d, L: Naming, R: Abort, const S: usize>(
    rt: &R,
    alloc: Global,
    stage: Stage<'d>,
) -> (Index<'d, L, S>, Vec<Share<L>>)
    requires begins { CanBegin L.place L.name L.parts L.last stage }
    requires size { (1 ≤ S) × (S ≤ 225) }
{
    let (stage, why) = match made(rt, alloc, stage) {
        Ok(made) => return made,
        Err(refused) => refused,
    };
    assert!(rt; why == SharedBaseCause::Memory && in_use(stage.domain) == 0);
    match made(rt, alloc, stage) {
        Ok(made) => made,
        Err(_) => panic!(rt; "{TWICE}"),
    }
}

/// Takes a share out, of which there is one.
pub(crate) fn taken<L: Naming, R: Abort>(rt: &R, shares: &mut Vec<Share<L>>) -> Share<L> {
    match shares.pop() {
        Some(share) => share,
        None => panic!(rt; "a share is left"),
    }
}

/// Puts a share back.
pub(crate) fn put<L: Naming, R: Abort>(rt: &R, shares: &mut Vec<Share<L>>, share: Share<L>) {
    match shares.push(share) {
        Ok(()) => {}
        Err(_) => panic!(rt; "{ROOM}"),
    }
}

/// Ends an index with all its shares: its number. Without one of them, it and the others are handed back.
pub(crate) fn closed<L: Naming, R: Abort, const S: usize>(
    rt: &R,
    index: Index<'_, L, S>,
    mut shares: Vec<Share<L>>,
) -> u64 {
    let domain = index.domain();
    let one = taken(rt, &mut shares);
    let left = shares.len();
    let (index, mut shares) = match index.close(shares) {
        Ok(_) => panic!(rt; "a share is missing"),
        Err(back) => back,
    };
    assert_eq!(rt; shares.len(), left);
    put(rt, &mut shares, one);
    match index.close(shares) {
        Ok((local, number)) => {
            leave(domain, local);
            number
        }
        Err(_) => panic!(rt; "all shares are there"),
    }
}

/// Nothing: why no index is made; none where one is.
#[derive(Clone, Copy)]
pub(crate) struct Nothing;

impl<R: Abort> Scene<R> for Nothing {
    type Found = Option<SharedBaseCause>;

    fn play<L: Naming>(self, rt: &R, alloc: Global, stage: Stage<'_>) -> Self::Found {
        match made::<L, R, 2>(rt, alloc, stage) {
            Ok((index, shares)) => {
                let _number = closed(rt, index, shares);
                None
            }
            Err((stage, why)) => {
                let Stage {
                    domain,
                    local,
                    blank: _,
                    start: _,
                } = stage;
                leave(domain, local);
                Some(why)
            }
        }
    }
}
