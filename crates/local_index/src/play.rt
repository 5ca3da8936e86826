//! Lists of calls, made one after the other.

ghost use Rattle.std.specs.Prelude.{◌≡◌, ◌<◌, ◌≤◌, [], IfOk, IfErr, IfSome, IfNone, OnErr};
ghost use Rattle.leaf_array.specs.Values.{ClonesAreSame, EqualsAreSame};
ghost use Rattle.local_index.specs.Desk.{machine, Serves, KeepsAll, RestsOn, RestsOnNone, OpenStep, CloseStep, ReadStep, AuditStep, NumberStep, LenStep, CommitStep, CheckpointStep, IsKnown, MayWantMemory, Step, Run, RunsUpTo};
ghost use Rattle.local_index.specs.State.{Has, MayAccept, latest_number};

use crate::desk::{Desk, Ticket};
use crate::index::{LocalIndex, NoPlace};
use local_versions::Write;
use serial_history::{Accepted, Answer, Audit, Cause, CheckpointRefused, Query, Receipt, Refused};
use std::alloc::{AllocError, Global};
use std::ops::Bound;

/// The reads that a commit rests on, or that an audit tests.
#[derive(Clone, Debug, PartialEq, Eq, Drop)]
pub enum ReadSet<K, V> {
    /// None, at number 0.
    Empty,
    /// Those of the session with this label.
    Session(u64),
    /// Those of a receipt.
    Receipt(Receipt<K, V>),
}

/// A call. A session is named by its label.
#[derive(Clone, Debug, PartialEq, Eq, Drop)]
pub enum DeskCall<K, V> {
    /// Opens a session under the label.
    Open(u64),
    /// Closes the session with the label.
    Close(u64),
    /// Reads the value of the pair with the key. This and the next five are recorded.
    Get(u64, K),
    /// Reads whether a pair has the key.
    Contains(u64, K),
    /// Reads the pairs whose keys lie within two bounds.
    Range(u64, Bound<K>, Bound<K>),
    /// Reads the pair with the key, or the nearest ones.
    Locate(u64, K),
    /// Reads the first of the pairs within two bounds, up to this count.
    First(u64, Bound<K>, Bound<K>, usize),
    /// Reads the last of the pairs within two bounds, up to this count.
    Last(u64, Bound<K>, Bound<K>, usize),
    /// Audits these reads.
    Audit(ReadSet<K, V>),
    /// Commits the writes, on these reads.
    Commit(ReadSet<K, V>, Vec<Write<K, V>>),
    /// Reclaims versions that no session has.
    Reclaim,
    /// Asks how many slots are in use.
    Slots,
    /// Asks for the number of the session's list.
    Number(u64),
    /// Asks how many pairs the session's list has.
    Len(u64),
    /// Makes the list of this number the base.
    Checkpoint(u64),
}

/// The reply to a [`DeskCall`].
#[derive(Clone, Debug, PartialEq, Eq, Drop)]
pub enum DeskReply<K, V> {
    /// The session is open, on the list with this number.
    Opened(u64),
    /// No place is free for the session. Nothing changed.
    NoPlace,
    /// The label has a session already. Nothing changed.
    Busy,
    /// The session is closed, and this is its receipt.
    Closed(Receipt<K, V>),
    /// The label has no session. Nothing changed. It has the writes of a commit.
    NoSession(Vec<Write<K, V>>),
    /// What the session's list answers.
    Answer(Answer<K, V>),
    /// What the audit found.
    Audit(Audit),
    /// The commit was accepted.
    Accepted(Accepted),
    /// The commit was refused. Nothing changed.
    Refused(Refused<K, V>),
    /// Versions were reclaimed.
    Reclaimed,
    /// How many slots are in use.
    Slots(usize),
    /// The session's list has this number.
    Number(u64),
    /// How many pairs the session's list has.
    Len(usize),
    /// The list of this number is the base.
    Checkpointed(u64),
    /// The number lies below that of the base, which this is. Nothing changed.
    Behind(u64),
    /// The number lies above the present one, which this is. Nothing changed.
    Ahead(u64),
}

/// Makes the calls, one after the other, each at most once.
///
/// The replies and what becomes of index and desk are a run of the model. If an allocation
/// fails, also that of a commit, the list ends: the replies so far are returned, and the call that failed
/// changed nothing. The desk has at least the index's places, and its sessions are the index's
/// (`Serves`); the index may have other sessions too.
pub fn play_all<K: Clone + Ord, V: Clone + Eq, const S: usize>(
    alloc: Global,
    index: &mut LocalIndex<K, V, S>,
    desk: &mut Desk<K, V>,
    calls: Vec<DeskCall<K, V>>,
) -> Result<Vec<DeskReply<K, V>>, (Vec<DeskReply<K, V>>, AllocError)>
    requires serves { Serves (machine index.old desk.old) }
    requires keys { ClonesAreSame K.is_clone }
    requires values { ClonesAreSame V.is_clone }
    requires equal_keys { EqualsAreSame K.eq }
    requires equal_values { EqualsAreSame V.eq }
    ensures run { IfOk result (λ replies. Run K.cmp S (machine index.old desk.old) calls.items replies.items (machine index.new desk.new)) }
    ensures stopped { IfErr result (λ stop. RunsUpTo K.cmp S (machine index.old desk.old) calls.items stop.0.items (machine index.new desk.new)) }
    ensures serves { Serves (machine index.new desk.new) }
    ensures keeps_all { KeepsAll (machine index.old desk.old) → KeepsAll (machine index.new desk.new) }
{
    let mut replies = Vec::new(alloc);
    for call in calls {
        let Ok(()) = replies.reserve(1) else {
            return Err((replies, AllocError));
        };
        match play_one(alloc, index, desk, call) {
            Ok(reply) => replies.push_reserved(reply),
            Err(refused) => return Err((replies, refused)),
        }
    }
    Ok(replies)
}

/// Makes one call: what [`play_all`] does of a list of one, without a list of calls or of replies.
///
/// If an allocation fails, also that of a commit, nothing has changed. What a session reads may be
/// refused it, an audit at a number that is there, and a commit that nothing else refuses; no other
/// call takes any, and none by a label without a session.
pub fn play_one<K: Clone + Ord, V: Clone + Eq, const S: usize>(
    alloc: Global,
    index: &mut LocalIndex<K, V, S>,
    desk: &mut Desk<K, V>,
    call: DeskCall<K, V>,
) -> Result<DeskReply<K, V>, AllocError>
    requires serves { Serves (machine index.old desk.old) }
    requires keys { ClonesAreSame K.is_clone }
    requires values { ClonesAreSame V.is_clone }
    requires equal_keys { EqualsAreSame K.eq }
    requires equal_values { EqualsAreSame V.eq }
    ensures step { IfOk result (λ reply. Step K.cmp S (machine index.old desk.old) call reply (machine index.new desk.new)) }
    ensures memory { OnErr result (MayWantMemory K.cmp S (machine index.old desk.old) call) }
    ensures index_kept { OnErr result (index.new ≡ index.old) }
    ensures desk_kept { OnErr result (desk.new ≡ desk.old) }
    ensures serves { Serves (machine index.new desk.new) }
    ensures keeps_all { KeepsAll (machine index.old desk.old) → KeepsAll (machine index.new desk.new) }
{
    match call {
        DeskCall::Open(label) => Ok(play_open(index, desk, label)),
        DeskCall::Close(label) => Ok(play_close(alloc, index, desk, label)),
        DeskCall::Get(label, key) => play_read(alloc, index, desk, label, Query::Get(key)),
        DeskCall::Contains(label, key) => play_read(
            alloc,
            index,
            desk,
            label,
            Query::Contains(key),
        ),
        DeskCall::Range(label, lower, upper) => {
            play_read(alloc, index, desk, label, Query::Range(lower, upper))
        }
        DeskCall::Locate(label, key) => play_read(alloc, index, desk, label, Query::Locate(key)),
        DeskCall::First(label, lower, upper, count) => {
            play_read(alloc, index, desk, label, Query::First(lower, upper, count))
        }
        DeskCall::Last(label, lower, upper, count) => {
            play_read(alloc, index, desk, label, Query::Last(lower, upper, count))
        }
        DeskCall::Audit(on) => play_audit(alloc, index, desk, &on),
        DeskCall::Commit(on, writes) => play_commit(alloc, index, desk, &on, writes),
        DeskCall::Reclaim => {
            index.reclaim();
            Ok(DeskReply::Reclaimed)
        }
        DeskCall::Slots => Ok(DeskReply::Slots(index.slots_in_use())),
        DeskCall::Number(label) => Ok(play_number(alloc, index, desk, label)),
        DeskCall::Len(label) => Ok(play_len(alloc, index, desk, label)),
        DeskCall::Checkpoint(upto) => play_checkpoint(index, desk, upto),
    }
}

// Opens a session under a label.
fn play_open<K: Clone + Ord, V: Clone + Eq, const S: usize>(
    index: &mut LocalIndex<K, V, S>,
    desk: &mut Desk<K, V>,
    label: u64,
) -> DeskReply<K, V>
    requires { Serves (machine index.old desk.old) }
    ensures step { OpenStep K.cmp S (machine index.old desk.old) label result (machine index.new desk.new) }
    ensures serves { Serves (machine index.new desk.new) }
    ensures keeps_all { KeepsAll (machine index.old desk.old) → KeepsAll (machine index.new desk.new) }
{
    if let Some(_) = desk.ticket(label) {
        return DeskReply::Busy;
    }
    match index.open() {
        Ok(session) => {
            let number = index.number(&session);
            desk.keep(label, session);
            DeskReply::Opened(number)
        }
        Err(NoPlace) => DeskReply::NoPlace,
    }
}

// Closes the session under a label.
fn play_close<K: Clone + Ord, V: Clone + Eq, const S: usize>(
    alloc: Global,
    index: &mut LocalIndex<K, V, S>,
    desk: &mut Desk<K, V>,
    label: u64,
) -> DeskReply<K, V>
    requires { Serves (machine index.old desk.old) }
    ensures step { CloseStep K.cmp S (machine index.old desk.old) label result (machine index.new desk.new) }
    ensures serves { Serves (machine index.new desk.new) }
    ensures keeps_all { KeepsAll (machine index.old desk.old) → KeepsAll (machine index.new desk.new) }
{
    match desk.leave(label) {
        Some(Ticket { label: _, session }) => DeskReply::Closed(index.close_session(session)),
        None => DeskReply::NoSession(Vec::new(alloc)),
    }
}

// Answers a query by the session under a label, and records it.
fn play_read<K: Clone + Ord, V: Clone + Eq, const S: usize>(
    alloc: Global,
    index: &LocalIndex<K, V, S>,
    desk: &mut Desk<K, V>,
    label: u64,
    query: Query<K>,
) -> Result<DeskReply<K, V>, AllocError>
    requires serves { Serves (machine index.now desk.old) }
    requires keys { ClonesAreSame K.is_clone }
    requires values { ClonesAreSame V.is_clone }
    ensures step { IfOk result (λ reply. ReadStep K.cmp S (machine index.now desk.old) label query reply (machine index.now desk.new)) }
    ensures memory { OnErr result (IsKnown desk.old label) }
    ensures err { OnErr result (desk.new ≡ desk.old) }
    ensures serves { Serves (machine index.now desk.new) }
    ensures keeps_all { KeepsAll (machine index.now desk.old) → KeepsAll (machine index.now desk.new) }
{
    let Some(Ticket { label, mut session }) = desk.leave(label) else {
        return Ok(DeskReply::NoSession(Vec::new(alloc)));
    };
    let answer = index.read(&mut session, query);
    desk.keep(label, session);
    match answer {
        Ok(answer) => Ok(DeskReply::Answer(answer)),
        Err(refused) => Err(refused),
    }
}

// Audits these reads.
fn play_audit<K: Clone + Ord, V: Clone + Eq, const S: usize>(
    alloc: Global,
    index: &LocalIndex<K, V, S>,
    desk: &Desk<K, V>,
    on: &ReadSet<K, V>,
) -> Result<DeskReply<K, V>, AllocError>
    requires keys { ClonesAreSame K.is_clone }
    requires values { ClonesAreSame V.is_clone }
    requires equal_keys { EqualsAreSame K.eq }
    requires equal_values { EqualsAreSame V.eq }
    ensures memory { OnErr result ((receipt : Receipt K V) × RestsOn desk.now on.now receipt × Has index.now receipt.number) }
    ensures step { IfOk result (λ reply. AuditStep K.cmp S (machine index.now desk.now) on.now reply (machine index.now desk.now)) }
{
    let blank = Receipt::blank(alloc);
    let Some(receipt) = reads_of(desk, on, &blank) else {
        return Ok(DeskReply::NoSession(Vec::new(alloc)));
    };
    Ok(DeskReply::Audit(index.audit(receipt)?))
}

// The number of the session under a label.
fn play_number<K: Clone + Ord, V: Clone + Eq, const S: usize>(
    alloc: Global,
    index: &LocalIndex<K, V, S>,
    desk: &Desk<K, V>,
    label: u64,
) -> DeskReply<K, V>
    ensures { NumberStep K.cmp S (machine index.now desk.now) label result (machine index.now desk.now) }
{
    let Some(ticket) = desk.ticket(label) else {
        return DeskReply::NoSession(Vec::new(alloc));
    };
    DeskReply::Number(index.number(&ticket.session))
}

// How many pairs the session under a label reads.
fn play_len<K: Clone + Ord, V: Clone + Eq, const S: usize>(
    alloc: Global,
    index: &LocalIndex<K, V, S>,
    desk: &Desk<K, V>,
    label: u64,
) -> DeskReply<K, V>
    requires { Serves (machine index.now desk.now) }
    ensures { LenStep K.cmp S (machine index.now desk.now) label result (machine index.now desk.now) }
{
    let Some(ticket) = desk.ticket(label) else {
        return DeskReply::NoSession(Vec::new(alloc));
    };
    DeskReply::Len(index.len(&ticket.session))
}

// Commits writes on these reads.
fn play_commit<K: Clone + Ord, V: Clone + Eq, const S: usize>(
    alloc: Global,
    index: &mut LocalIndex<K, V, S>,
    desk: &Desk<K, V>,
    on: &ReadSet<K, V>,
    writes: Vec<Write<K, V>>,
) -> Result<DeskReply<K, V>, AllocError>
    requires serves { Serves (machine index.old desk.now) }
    requires keys { ClonesAreSame K.is_clone }
    requires values { ClonesAreSame V.is_clone }
    requires equal_keys { EqualsAreSame K.eq }
    requires equal_values { EqualsAreSame V.eq }
    ensures step { IfOk result (λ reply. CommitStep K.cmp S (machine index.old desk.now) on.now writes.items reply (machine index.new desk.now)) }
    ensures memory { OnErr result ((receipt : Receipt K V) × RestsOn desk.now on.now receipt × MayAccept K.cmp index.old receipt.reads) }
    ensures err { OnErr result (index.new ≡ index.old) }
    ensures serves { Serves (machine index.new desk.now) }
    ensures keeps_all { KeepsAll (machine index.old desk.now) → KeepsAll (machine index.new desk.now) }
{
    let blank = Receipt::blank(alloc);
    let Some(receipt) = reads_of(desk, on, &blank) else {
        return Ok(DeskReply::NoSession(writes));
    };
    match index.commit(receipt, writes) {
        Ok(accepted) => Ok(DeskReply::Accepted(accepted)),
        Err(refused) => match refused.cause {
            Cause::Memory => Err(AllocError),
            _ => Ok(DeskReply::Refused(refused)),
        },
    }
}

// Makes the list of a number the base.
fn play_checkpoint<K: Clone + Ord, V: Clone + Eq, const S: usize>(
    index: &mut LocalIndex<K, V, S>,
    desk: &Desk<K, V>,
    upto: u64,
) -> Result<DeskReply<K, V>, AllocError>
    requires serves { Serves (machine index.old desk.now) }
    requires keys { ClonesAreSame K.is_clone }
    requires values { ClonesAreSame V.is_clone }
    ensures step { IfOk result (λ reply. CheckpointStep K.cmp S (machine index.old desk.now) upto reply (machine index.new desk.now)) }
    ensures memory { OnErr result ((index.old.base.number < upto) × (upto ≤ latest_number index.old)) }
    ensures err { OnErr result (index.new ≡ index.old) }
    ensures serves { Serves (machine index.new desk.now) }
    ensures keeps_all { KeepsAll (machine index.old desk.now) → KeepsAll (machine index.new desk.now) }
{
    match index.checkpoint(upto) {
        Ok(()) => Ok(DeskReply::Checkpointed(upto)),
        Err(CheckpointRefused::Behind(number)) => Ok(DeskReply::Behind(number)),
        Err(CheckpointRefused::Ahead(number)) => Ok(DeskReply::Ahead(number)),
        Err(CheckpointRefused::Memory) => Err(AllocError),
    }
}

// The receipt with the reads that a commit rests on, if it has a session where it names one.
fn reads_of<'a, K, V>(
    desk: &'a Desk<K, V>,
    on: &'a ReadSet<K, V>,
    blank: &'a Receipt<K, V>,
) -> Option<&'a Receipt<K, V>>
    requires number { blank.now.number ≡ 0 }
    requires reads { blank.now.reads ≡ [] }
    ensures some { IfSome result (λ receipt. RestsOn desk.now on.now receipt.now) }
    ensures none { IfNone result (RestsOnNone desk.now on.now) }
{
    match on {
        ReadSet::Empty => Some(blank),
        ReadSet::Receipt(receipt) => Some(receipt),
        ReadSet::Session(label) => match desk.ticket(*label) {
            Some(ticket) => Some(ticket.session.receipt()),
            None => None,
        },
    }
}
