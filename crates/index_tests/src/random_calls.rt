//! Lists of calls at random, made on an index and on plain lists, one for each number: both have to answer the same.

use crate::dice::{Dice, thrown};
use crate::lists::{Lists, PLACES, Start, is_right};
use crate::met::{ALL, EVERY, Met};
use crate::room::Room;
use crate::scene::Scene;
use crate::table::read_of;
use leaf_array::plain::find_value;
use local_index::{DeskCall, DeskReply, ReadSet};
use std::alloc::{AllocError, Global};
use std::process::Abort;

const LABELS: u64 = 4;

const ROUNDS: usize = 900;

// An empty list, and a last number that is low enough to be reached.
const EMPTY: Start = Start {
    number: 0,
    pairs: &[],
    last: 24,
};

const PAIRS: &[(u64, u64)] = &[
    (0, 1),
    (1, 0),
    (2, 2),
    (3, 1),
    (5, 0),
    (8, 2),
    (13, 1),
    (21, 0),
];

// The list of a number, as another index left it.
const LEFT: Start = Start {
    number: 1000,
    pairs: PAIRS,
    last: u64::MAX,
};

// The same, so near to the last number that it is reached.
const NEAR_THE_LAST: Start = Start {
    number: u64::MAX - 30,
    pairs: PAIRS,
    last: u64::MAX,
};

// The slots of an index, where this many were in use before a call.
fn room_of<const S: usize>(scene: &Scene<S>, slots: usize, before: usize) -> Room {
    Room {
        slots,
        segment: S,
        before,
        after: scene.index.slots_in_use(),
    }
}

// Makes one call on an index, as a list of one: its only reply, and the slots in use.
fn replied<const S: usize>(
    scene: &mut Scene<S>,
    slots: usize,
    call: DeskCall<u64, u64>,
) -> Result<(DeskReply<u64, u64>, Room), AllocError> {
    let calls = vec![in scene.alloc; call]?;
    let before = scene.index.slots_in_use();
    let Ok(mut replies) = scene.replies(calls) else {
        return Err(AllocError);
    };
    match replies.pop() {
        Some(reply) if replies.is_empty() => Ok((reply, room_of(scene, slots, before))),
        _ => Err(AllocError),
    }
}

// Makes one call on both, and returns whether they answer the same.
fn play<const S: usize>(
    scene: &mut Scene<S>,
    lists: &mut Lists,
    slots: usize,
    call: DeskCall<u64, u64>,
) -> Result<bool, AllocError> {
    let alloc = scene.alloc;
    let turn = lists.turn(alloc, call, scene.index.slots_in_use())?;
    let (reply, room) = replied(scene, slots, turn.call.clone()?)?;
    let right = is_right(&turn, &reply, &room);
    lists.follow(alloc, &turn, &reply, &room)?;
    Ok(right && is_based(scene, lists))
}

// Whether the base is the list of its number, and the transactions behind it lead to the present number.
fn is_based<const S: usize>(scene: &Scene<S>, lists: &Lists) -> bool {
    let (number, pairs) = scene.index.base();
    let behind = match scene.index.since(number) {
        Ok(transactions) => transactions.len(),
        Err(_) => return false,
    };
    number == lists.base
        && pairs == lists.list(lists.base)
        && lists.base.saturating_add(behind as u64) == lists.number()
}

// Whether the session with the label has this list with this number, all keys of it.
fn has_list<const S: usize>(
    scene: &Scene<S>,
    label: u64,
    number: u64,
    list: &[(u64, u64)],
    keys: u64,
) -> bool {
    let mut alike = true;
    for key in 0..keys {
        let value = find_value(list, &key).copied();
        let wanted = (number, list.len(), value, value.is_some());
        alike = scene.looked_up(label, key) == Some(wanted) && alike;
    }
    alike
}

// Whether the session with the label has the list of its number, or there is none.
fn look<const S: usize>(scene: &Scene<S>, lists: &mut Lists, label: u64, keys: u64) -> bool {
    let number = match lists.session(label) {
        Some(session) => session.number,
        None => return scene.session(label).is_none(),
    };
    if number < lists.number() {
        lists.meets(Met::Older);
    }
    if number < lists.base {
        lists.meets(Met::Dropped);
    }
    has_list(scene, label, number, lists.list(number), keys)
}

// What is done at random.
#[derive(Drop)]
enum Thrown {
    Look,
    Reclaim,
    Play(DeskCall<u64, u64>),
}

// A question to a session, or to the index.
fn thrown_question(dice: &mut Dice, label: u64) -> DeskCall<u64, u64> {
    match dice.throw(8) {
        0 | 1 => DeskCall::Number(label),
        2 | 3 => DeskCall::Len(label),
        4 => DeskCall::Slots,
        5 => DeskCall::Audit(ReadSet::Empty),
        _ => DeskCall::Audit(ReadSet::Session(label)),
    }
}

// A call on a receipt.
fn thrown_on_a_receipt(
    alloc: Global,
    dice: &mut Dice,
    lists: &Lists,
) -> Result<DeskCall<u64, u64>, AllocError> {
    let present = lists.number();
    let receipt = dice.receipt(alloc, lists.list(present), present)?;
    match dice.throw(3) {
        0 => Ok(DeskCall::Audit(ReadSet::Receipt(receipt))),
        _ => Ok(DeskCall::Commit(ReadSet::Receipt(receipt), dice.writes(alloc)?)),
    }
}

// A checkpoint at the base, behind it, or up to two numbers above it; or an audit of a receipt, most of whose answers are those of
// a list. Its number is any from two below the first one on, up to one that no list has yet.
fn thrown_on_a_base(
    alloc: Global,
    dice: &mut Dice,
    lists: &Lists,
) -> Result<DeskCall<u64, u64>, AllocError> {
    if dice.throw(2) == 0 {
        let upto = lists.base.saturating_add(dice.throw(4));
        return Ok(DeskCall::Checkpoint(upto.saturating_sub(1)));
    }
    let lowest = lists.start.number.saturating_sub(2);
    let count = lists.number().saturating_sub(lowest).saturating_add(1);
    let number = lowest.saturating_add(dice.throw(count));
    let receipt = dice.receipt(alloc, lists.list(number), number)?;
    Ok(DeskCall::Audit(ReadSet::Receipt(receipt)))
}

// What the dice say, by a session with this label.
fn thrown_by(
    alloc: Global,
    dice: &mut Dice,
    lists: &Lists,
    label: u64,
) -> Result<Thrown, AllocError> {
    if dice.bases && dice.throw(10) == 0 {
        return Ok(Thrown::Play(thrown_on_a_base(alloc, dice, lists)?));
    }
    let call = match dice.throw(16) {
        0 | 1 => DeskCall::Open(label),
        2 => DeskCall::Close(label),
        3 => thrown_question(dice, label),
        4 | 5 => read_of(label, dice.query()),
        6 | 7 => return Ok(Thrown::Look),
        8 | 9 => return Ok(Thrown::Reclaim),
        10 => DeskCall::Commit(ReadSet::Session(label), dice.writes(alloc)?),
        11 | 12 => DeskCall::Commit(ReadSet::Empty, dice.writes(alloc)?),
        _ => thrown_on_a_receipt(alloc, dice, lists)?,
    };
    Ok(Thrown::Play(call))
}

// Makes a call at random, and returns whether the index answers as the lists do.
fn step<const S: usize>(
    scene: &mut Scene<S>,
    lists: &mut Lists,
    dice: &mut Dice,
    slots: usize,
) -> Result<bool, AllocError> {
    let label = dice.throw(LABELS);
    match thrown_by(scene.alloc, dice, lists, label)? {
        Thrown::Look => Ok(look(scene, lists, label, dice.keys)),
        Thrown::Reclaim => {
            let before = scene.index.slots_in_use();
            scene.index.reclaim();
            Ok(lists.is_reclaimed(&room_of(scene, slots, before)))
        }
        Thrown::Play(call) => play(scene, lists, slots, call),
    }
}

// Makes many calls, and returns how many are answered as the lists do before the first that isn't, and what was met.
fn steps<const S: usize>(
    scene: &mut Scene<S>,
    start: Start,
    thrown: Dice,
    slots: usize,
) -> Result<(usize, u32), AllocError> {
    let mut dice = thrown;
    let mut lists = Lists::new(scene.alloc, start)?;
    for round in 0..ROUNDS {
        if !step(scene, &mut lists, &mut dice, slots)? {
            return Ok((round, lists.met));
        }
    }
    Ok((ROUNDS, lists.met))
}

// Makes many calls on an index that begins so, with this many slots.
fn plays<R: Abort, const S: usize>(
    rt: &R,
    alloc: Global,
    start: Start,
    slots: usize,
    thrown: Dice,
) -> Result<(usize, u32), AllocError> {
    let mut scene = match start.number {
        0 => Scene::<S>::new(rt, alloc, PLACES, slots, start.last),
        number => Scene::holding(rt, alloc, (PLACES, slots), number, start.pairs),
    };
    let found = steps(&mut scene, start, thrown, slots);
    scene.end(rt);
    found
}

#[test]
fn segments_of_each_size_answer_as_plain_lists(rt: HostRuntime) {
    let alloc = rt.alloc();
    let found = [
        plays::<_, 1>(&rt, alloc, EMPTY, 40, thrown(24, 50, 20)),
        plays::<_, 2>(&rt, alloc, EMPTY, 36, thrown(40, 50, 20)),
        plays::<_, 3>(&rt, alloc, EMPTY, 40, thrown(41, 50, 80)),
        plays::<_, 8>(&rt, alloc, EMPTY, 24, thrown(60, 80, 40)),
        plays::<_, 225>(&rt, alloc, EMPTY, 12, thrown(598, 300, 400)),
    ];
    assert_eq!(rt;
        found,
        [Ok((ROUNDS, ALL)); 5],
        "the first call that isn't answered as on lists, and what was met"
    );
}

// No number lies below 0, and the first of these indexes began there. The second is far from the last number.
#[test]
fn bases_and_receipts_are_answered_as_by_plain_lists(rt: HostRuntime) {
    let alloc = rt.alloc();
    let found = [
        plays::<_, 3>(&rt, alloc, EMPTY, 40, thrown(40, 50, 80).with_bases()),
        plays::<_, 1>(&rt, alloc, LEFT, 40, thrown(24, 50, 20).with_bases()),
        plays::<_, 8>(
            &rt,
            alloc,
            NEAR_THE_LAST,
            24,
            thrown(36, 80, 40).with_bases(),
        ),
    ];
    assert_eq!(rt;
        found,
        [
            Ok((ROUNDS, EVERY - Met::Before as u32)),
            Ok((ROUNDS, EVERY - Met::Exhausted as u32)),
            Ok((ROUNDS, EVERY)),
        ],
        "the first call that isn't answered as on lists, and what was met"
    );
}
