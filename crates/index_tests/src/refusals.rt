//! Runs in which any one allocation may be refused. A script has each refused in turn: whatever is
//! refused, nothing has changed, and the same call then succeeds.

use crate::ends::REFUSED;
use crate::from_base::begins_again;
use crate::history::made;
use crate::past::{Scope, is_kept, put};
use crate::play::is_played;
use crate::scene::{Reader, Scene, Seen};
use crate::table::Call::{
    Audit, AuditOf, Base, Checkpoint, Close, Commit, CommitOf, CommitOn, InsertTo, Len, Look,
    Number, Open, Read, Reclaim, Slots,
};
use crate::table::Claim::{self, Got, Listed};
use crate::table::Told::{
    Accepted, Ahead, All, Audited, Based, Behind, Checkpointed, Closed, Done, Holds, NoPlace,
    NoSession, Opened, Refused,
};
use crate::table::{Call, ROOMY, Row, Table, Told, desk_call, play, wanted, writes_of};
use index_rows::receipt;
use local_index::Audit::{No, TooOld, Unknown, Yes};
use local_index::Cause::{Conflict, Exhausted, Memory, NoSlot};
use local_index::Reply::{Cleared, Duplicate, Inserted, Upserted};
use local_index::Write::{Clear, Insert, Upsert};
use local_index::{Answer, DeskReply, Query, Receipt, Recorded, Seq, Text};
use std::alloc::{AllocError, Global};
use std::ops::Bound::{Included, Unbounded};
use std::process::Abort;

impl Scene<2> {
    // How many slots are in use, what the present list has at the key 1, where a place is free, and the number of the base and
    // of its pairs.
    fn state(&mut self) -> (usize, Option<Seen>, u64, usize) {
        let seen = self.present(1);
        let (number, pairs) = self.index.base();
        (self.index.slots_in_use(), seen, number, pairs.len())
    }

    // The reply to a call, which is made again where memory was refused, and nothing had changed.
    fn replied_again(&mut self, call: Call) -> Result<DeskReply<u64, u64>, AllocError> {
        let made = desk_call(self.alloc, call)?;
        let again = desk_call(self.alloc, call)?;
        let before = self.state();
        if let Ok(reply) = self.reply(made) {
            return Ok(reply);
        }
        self.met = true;
        if self.state() != before {
            return Err(AllocError);
        }
        self.reply(again)
    }

    // The reply to a commit on no reads, by the index itself, which hands the writes back where memory was refused. Another
    // cause is its reply.
    fn committed_again(&mut self, call: Call) -> Result<DeskReply<u64, u64>, AllocError> {
        let given = writes_of(self.alloc, call)?;
        let wanted = writes_of(self.alloc, call)?;
        let before = self.state();
        let local_index::Refused { cause, writes } = match self
            .index
            .commit(&Receipt::blank(self.alloc), given)
        {
            Ok(accepted) => return Ok(DeskReply::Accepted(accepted)),
            Err(refused) => refused,
        };
        if cause != Memory {
            return Ok(DeskReply::Refused(local_index::Refused { cause, writes }));
        }
        self.met = true;
        if writes != wanted || self.state() != before {
            return Err(AllocError);
        }
        match self.index.commit(&Receipt::blank(self.alloc), writes) {
            Ok(accepted) => Ok(DeskReply::Accepted(accepted)),
            Err(refused) => Ok(DeskReply::Refused(refused)),
        }
    }

    // Whether a call answers what is wanted, though any one allocation may be refused.
    fn insists(&mut self, call: Call, told: Told) -> Result<bool, AllocError> {
        let found = match call {
            Look(_, _) | Base => return Ok(self.answers(call, told)),
            Commit(_) | InsertTo(_) => self.committed_again(call)?,
            _ => self.replied_again(call)?,
        };
        Ok(found == wanted(self.alloc, call, told)?)
    }

    // Whether each row is so.
    fn insists_on(&mut self, rows: &[Row]) -> Result<bool, AllocError> {
        let mut right = true;
        for row in rows {
            right = self.insists(row.0, row.1)? && right;
        }
        Ok(right)
    }
}

// Whether a table is answered as is wanted. Calls of its first part are made one by one or as one list, and again where memory was
// refused. Those of the others take none, and each of them is made once.
fn insisted<R: Abort>(
    rt: &R,
    alloc: Global,
    table: &Table,
    as_list: bool,
    met: &mut bool,
) -> Result<bool, AllocError> {
    let Some((rows, others)) = table.parts.split_first() else {
        return Ok(false);
    };
    let mut scene = Scene::<2>::new(rt, alloc, table.places, table.slots, table.last);
    let again = match as_list {
        true => is_played(&mut scene, rows),
        false => scene.insists_on(rows),
    };
    let (right, made) = play(&mut scene, others);
    *met = scene.met || *met;
    scene.end(rt);
    Ok(again? && right == made)
}

// A read of the key 1, made again where memory was refused.
fn read(reading: &mut Reader<'_>, met: &mut bool) -> Result<Answer<u64, u64>, AllocError> {
    if let Ok(answer) = reading.read(Query::Get(1)) {
        return Ok(answer);
    }
    *met = true;
    reading.read(Query::Get(1))
}

// Whether two reads of a reader are recorded once each, and its list is as it was.
fn reads(reading: &mut Reader<'_>, wanted: &Receipt<u64, u64>, met: &mut bool) -> bool {
    let answers = [read(reading, met), read(reading, met)];
    let list = (reading.number(), reading.len(), reading.get(&1).copied());
    let recorded = reading.take_receipt() == *wanted;
    recorded
        && list == (1, 1, Some(1))
        && answers == [Ok(Answer::Get(Some(1))), Ok(Answer::Get(Some(1)))]
}

// Whether an index is made, a pair is committed, and a reader reads it.
fn made_and_read(alloc: Global, met: &mut bool) -> Result<bool, AllocError> {
    let mut scope = Scope::new(alloc, 1, 256)?;
    let wanted = receipt(alloc, 1, &[Got(1, Some(1)), Got(1, Some(1))])?;
    let committed = put(alloc, &mut scope.index, 1, None, met)?;
    match scope.index.reading() {
        Ok(mut reading) => Ok(reads(&mut reading, &wanted, met) && committed),
        Err(_) => Ok(false),
    }
}

// A receipt of one read, which is pushed again where memory was refused: it is handed back then, and the list is as it was.
fn pushed(alloc: Global, met: &mut bool) -> Option<Receipt<u64, u64>> {
    let mut reads: Seq<Recorded<u64, u64>> = Seq::new(alloc);
    if let Err(refused) = reads.push((Query::Get(1), Answer::Get(Some(1)))) {
        *met = true;
        let back = refused.value;
        let same = back == (Query::Get(1), Answer::Get(Some(1)));
        if !same || !reads.as_slice().is_empty() || reads.push(back).is_err() {
            return None;
        }
    }
    Some(Receipt { number: 1, reads })
}

// Whether a clone, made again where memory was refused, is the value.
fn is_cloned<T: Clone + PartialEq + Drop>(value: &T, met: &mut bool) -> bool {
    if let Ok(copy) = value.clone() {
        return copy == *value;
    }
    *met = true;
    value.clone().is_ok_and(|copy| copy == *value)
}

// Whether a text, a receipt and a refused commit are made and cloned.
fn cloned(alloc: Global, met: &mut bool) -> Result<bool, AllocError> {
    let name = Text::new(alloc, "Noether")?;
    let writes = Vec::from_clones(alloc, &[Upsert(1, 1)])?;
    let cause = NoSlot;
    let refused = local_index::Refused { cause, writes };
    let Some(receipt) = pushed(alloc, met) else {
        return Ok(false);
    };
    Ok(is_cloned(&name, met) && is_cloned(&receipt, met) && is_cloned(&refused, met))
}

// Two inserts of one key.
const FIRST: Row = (
    Commit(&[Insert(1, 10), Insert(1, 11)]),
    Accepted(1, &[Inserted, Duplicate]),
);

const UPSERT: Row = (Commit(&[Upsert(1, 12)]), Accepted(2, &[Upserted]));

const THE_PAIR: Claim = Listed(Unbounded, Unbounded, &[(1, 10)]);

const FROM_3: Claim = Listed(Included(3), Included(5), &[(4, 1)]);

// What is done with a new index, or otherwise.
#[derive(Clone, Copy)]
enum Case {
    // calls of a table, and calls that are played as one list
    Calls(Table),
    List(Table),
    Reader,
    Clones,
    // a list that is made again, and its answers
    Answers,
    // an older list, and a history that is cut
    Past,
    // indexes that begin with a list: with a slot less than they take, and with as many
    Start,
}

const CASES: &[Case] = &[
    Case::Calls(Table {
        about: "the empty version, a segment and a directory have slots",
        places: 2,
        slots: 16,
        parts: &[&[
            FIRST,
            (Slots, Told::Slots(3)),
            (Open(1), Opened(1)),
            (Look(1, 1), Told::Seen(1, 1, Some(10))),
            (Close(1), Closed(1, &[])),
        ]],
        ..ROOMY
    }),
    // All pairs are read, a commit changes them, and the read is audited once its list is kept no longer.
    Case::Calls(Table {
        about: "a read is recorded once",
        places: 2,
        slots: 16,
        parts: &[&[
            FIRST,
            (Open(1), Opened(1)),
            (Read(1, THE_PAIR), Holds),
            UPSERT,
            (Close(1), Closed(1, &[THE_PAIR])),
            (Audit(1, &[THE_PAIR]), Audited(Yes)),
        ]],
        ..ROOMY
    }),
    Case::Calls(Table {
        about: "a base is made of what a session reads, of what is replayed from there, and of the present list",
        places: 2,
        slots: 16,
        parts: &[
            &[
                FIRST,
                (Open(1), Opened(1)),
                UPSERT,
                (Commit(&[Upsert(2, 20)]), Accepted(3, &[Upserted])),
                (Checkpoint(1), Checkpointed(1)),
                (Base, Based(1, &[(1, 10)])),
                (Checkpoint(2), Checkpointed(2)),
                (Base, Based(2, &[(1, 12)])),
                (Look(1, 1), Told::Seen(1, 1, Some(10))),
                (Close(1), Closed(1, &[])),
                (Checkpoint(3), Checkpointed(3)),
                (Base, Based(3, &[(1, 12), (2, 20)])),
                (Audit(3, &[Got(1, Some(12))]), Audited(Yes)),
            ],
            // what takes no memory at a base behind number 0
            &[
                (Checkpoint(3), Checkpointed(3)),
                (Checkpoint(2), Behind(3)),
                (Checkpoint(4), Ahead(3)),
                (Audit(2, &[]), Audited(TooOld(3))),
                (Audit(4, &[]), Audited(Unknown)),
            ],
        ],
        ..ROOMY
    }),
    Case::Calls(Table {
        about: "two of three segments are those of the version before, which is read on",
        places: 2,
        slots: 16,
        parts: &[&[
            (InsertTo(6), All(1, 6, Inserted)),
            (Reclaim, Done),
            (Slots, Told::Slots(4)),
            (Open(1), Opened(1)),
            UPSERT,
            (Slots, Told::Slots(6)),
            (Look(1, 1), Told::Seen(1, 6, Some(1))),
            (Look(1, 6), Told::Seen(1, 6, Some(6))),
            (Close(1), Closed(1, &[])),
            (Reclaim, Done),
            (Slots, Told::Slots(4)),
        ]],
        ..ROOMY
    }),
    Case::Calls(Table {
        about: "a changed value conflicts",
        places: 3,
        slots: 16,
        parts: &[&[
            (Commit(&[Upsert(1, 10)]), Accepted(1, &[Upserted])),
            (Open(1), Opened(1)),
            (Read(1, Got(1, Some(10))), Holds),
            (Commit(&[Upsert(1, 11)]), Accepted(2, &[Upserted])),
            (CommitOf(1, &[Upsert(2, 20)]), Refused(Conflict(0))),
            (Open(2), Opened(2)),
            (Look(2, 2), Told::Seen(2, 1, None)),
        ]],
        ..ROOMY
    }),
    Case::Calls(Table {
        about: "a pair that enters a range conflicts",
        places: 2,
        slots: 16,
        parts: &[&[
            (
                Commit(&[Insert(2, 1), Insert(4, 1)]),
                Accepted(1, &[Inserted; 2]),
            ),
            (Open(1), Opened(1)),
            (Read(1, FROM_3), Holds),
            (Commit(&[Insert(5, 1)]), Accepted(2, &[Inserted])),
            (CommitOf(1, &[]), Refused(Conflict(0))),
        ]],
        ..ROOMY
    }),
    Case::Calls(Table {
        about: "five keys want five slots",
        slots: 4,
        parts: &[&[
            (InsertTo(5), Refused(NoSlot)),
            (Slots, Told::Slots(1)),
            (Open(1), Opened(0)),
            (Len(1), Told::Len(0)),
        ]],
        ..ROOMY
    }),
    Case::Calls(Table {
        about: "a session keeps its list over a clearing",
        slots: 16,
        parts: &[&[
            (InsertTo(5), All(1, 5, Inserted)),
            (Reclaim, Done),
            (Slots, Told::Slots(4)),
            (Open(1), Opened(1)),
            (Open(2), NoPlace),
            (Commit(&[Clear]), Accepted(2, &[Cleared])),
            (Len(1), Told::Len(5)),
            (Close(1), Closed(1, &[])),
            (Reclaim, Done),
            (Slots, Told::Slots(1)),
            (Open(2), Opened(2)),
            (Len(2), Told::Len(0)),
        ]],
        ..ROOMY
    }),
    Case::Calls(Table {
        about: "audits look at the list of their number",
        slots: 16,
        parts: &[&[
            (Commit(&[Upsert(1, 10)]), Accepted(1, &[Upserted])),
            (Commit(&[Upsert(1, 11)]), Accepted(2, &[Upserted])),
            (Audit(1, &[Got(1, Some(11))]), Audited(No(0))),
            (Audit(1, &[Got(1, Some(10))]), Audited(Yes)),
            (Audit(9, &[]), Audited(Unknown)),
        ]],
        ..ROOMY
    }),
    Case::Calls(Table {
        about: "a conflict comes before the last number",
        slots: 16,
        last: 1,
        parts: &[&[
            (Commit(&[Upsert(1, 10)]), Accepted(1, &[Upserted])),
            (Commit(&[Upsert(1, 11)]), Refused(Exhausted)),
            (
                CommitOn(1, &[Got(1, None)], &[Upsert(1, 11)]),
                Refused(Conflict(0)),
            ),
        ]],
        ..ROOMY
    }),
    Case::Calls(Table {
        about: "calls that take no memory are made once",
        slots: 16,
        parts: &[
            &[],
            &[
                (Open(7), Opened(0)),
                (Open(8), NoPlace),
                (Number(7), Told::Number(0)),
                (Len(7), Told::Len(0)),
                (Read(8, Got(1, None)), NoSession),
                (AuditOf(8), NoSession),
                (Slots, Told::Slots(1)),
                (Checkpoint(1), Ahead(0)),
                (Checkpoint(0), Checkpointed(0)),
                (Base, Based(0, &[])),
                (Reclaim, Done),
                (Close(7), Closed(0, &[])),
                (Close(7), NoSession),
            ],
        ],
        ..ROOMY
    }),
    Case::Calls(REFUSED),
    Case::List(Table {
        about: "a commit, a session, a read and a commit on it",
        slots: 16,
        parts: &[&[
            FIRST,
            (Open(7), Opened(1)),
            (Read(7, Got(1, Some(10))), Holds),
            (
                CommitOf(7, &[Insert(1, 10), Insert(1, 11)]),
                Accepted(2, &[Duplicate, Duplicate]),
            ),
        ]],
        ..ROOMY
    }),
    Case::Reader,
    Case::Clones,
    Case::Answers,
    Case::Past,
    Case::Start,
];

fn done<R: Abort>(rt: &R, alloc: Global, case: &Case, met: &mut bool) -> Result<bool, AllocError> {
    match case {
        Case::Calls(table) => insisted(rt, alloc, table, false, met),
        Case::List(table) => insisted(rt, alloc, table, true, met),
        Case::Reader => made_and_read(alloc, met),
        Case::Clones => cloned(alloc, met),
        Case::Answers => made(alloc),
        Case::Past => is_kept(alloc, met),
        Case::Start => begins_again(alloc, met),
    }
}

// Whether memory was refused in any case. Where it was before a call that is made again, the case is begun anew.
fn refused<R: Abort>(rt: &R, alloc: Global) -> bool {
    let mut met = false;
    for at in 0..CASES.len() {
        let told = match done(rt, alloc, &CASES[at], &mut met) {
            Err(AllocError) if !met => {
                met = true;
                done(rt, alloc, &CASES[at], &mut met)
            }
            told => told,
        };
        assert!(rt; told == Ok(true), "case {at}");
    }
    met
}

#[test]
fn a_refusal_of_memory_changes_nothing(rt: HostRuntime) {
    let _met = refused(&rt, rt.alloc());
}

// This fails as long as an allocation is refused, so that a script knows when to stop.
#[test]
fn no_memory_is_refused(rt: HostRuntime) {
    assert!(rt; !refused(&rt, rt.alloc()));
}
