//! Calls with many writes, many reads and many pairs: a body that can't do them has another answer.

use crate::scene::Scene;
use crate::table::Call::{Close, Open};
use crate::table::Told::{All, Audited, Closed, Opened};
use crate::table::{Call, Told, is_told};
use local_index::{Answer, Audit, DeskCall, Query, ReadSet, Receipt, Recorded, Reply, Seq, Write};
use std::alloc::{AllocError, Global};

const WRITES: u64 = 100_000;

const READS: u64 = 10_000;

// Inserts of the keys below a number, in no order, each its own value.
fn inserts(alloc: Global, count: u64) -> Result<Vec<Write<u64, u64>>, AllocError> {
    let mut writes = Vec::with_capacity(alloc, count as usize)?;
    for i in 0..count {
        let key = i.wrapping_mul(7_919).checked_rem(count).unwrap_or(0);
        writes.push(Write::Insert(key, key))?;
    }
    Ok(writes)
}

// A receipt of look-ups of the keys below a number, which find the key, or nothing.
fn look_ups(
    alloc: Global,
    number: u64,
    count: u64,
    found: bool,
) -> Result<ReadSet<u64, u64>, AllocError> {
    let mut reads: Vec<Recorded<u64, u64>> = Vec::with_capacity(alloc, count as usize)?;
    for key in 0..count {
        let told = if found { Some(key) } else { None };
        reads.push((Query::Get(key), Answer::Get(told)))?;
    }
    Ok(ReadSet::Receipt(Receipt {
        number,
        reads: Seq::from_vec(reads),
    }))
}

// Whether a call that isn't named by a row is answered this.
fn is_answered(
    scene: &mut Scene<225>,
    call: DeskCall<u64, u64>,
    told: Told,
) -> Result<bool, AllocError> {
    let reply = scene.reply(call)?;
    is_told(scene.alloc, &reply, Call::Slots, told)
}

// Whether the list of a session has the keys below a number, each its own value, and no other.
fn has_all(scene: &Scene<225>, label: u64, count: u64) -> bool {
    let Some(session) = scene.session(label) else {
        return false;
    };
    let mut next = 0u64;
    let mut in_order = true;
    for (key, value) in scene.index.iter(session) {
        in_order = *key == next && *value == next && in_order;
        next = next.saturating_add(1);
    }
    in_order && next == count && scene.index.len(session) as u64 == count
}

// Whether many writes are committed on many reads.
fn is_committed(alloc: Global, scene: &mut Scene<225>) -> Result<bool, AllocError> {
    let absent = look_ups(alloc, 0, READS, false)?;
    let commit = DeskCall::Commit(absent, inserts(alloc, WRITES)?);
    is_answered(scene, commit, All(1, WRITES as usize, Reply::Inserted))
}

// Whether look-ups of a list are right at its number.
fn is_right(
    alloc: Global,
    scene: &mut Scene<225>,
    number: u64,
    found: bool,
) -> Result<bool, AllocError> {
    let reads = look_ups(alloc, number, READS, found)?;
    is_answered(scene, DeskCall::Audit(reads), Audited(Audit::Yes))
}

// Opens a session, looks at its list, and closes it.
fn is_read(scene: &mut Scene<225>) -> [bool; 3] {
    [
        scene.answers(Open(1), Opened(1)),
        has_all(scene, 1, WRITES),
        scene.answers(Close(1), Closed(1, &[])),
    ]
}

#[test]
fn many_writes_are_committed_on_many_reads(rt: HostRuntime) {
    let alloc = rt.alloc();
    let mut scene = Scene::<225>::new(&rt, alloc, 1, 2_000, u64::MAX);
    let committed = is_committed(alloc, &mut scene);
    let read = is_read(&mut scene);
    let present = is_right(alloc, &mut scene, 1, true);
    let before = is_right(alloc, &mut scene, 0, false);
    scene.end(&rt);
    assert!(rt; [committed, present, before] == [Ok(true); 3] && read == [true; 3]);
}
