//! A run in which any one allocation may be refused: nothing has changed then, and the same call succeeds.

use crate::calls::Desk;
use crate::scene::{Scene, TWICE, begun, closed, empty, plays, put, taken};
use crate::stage::Stage;
use sdd_domain::refusal::RegisterRefused;
use serial_history::{
    Accepted, Answer, Audit, Cause, CheckpointRefused, Query, Receipt, Refused, Reply,
};
use shared_index::{FeedRefused, Naming, Participant, Share};
use std::alloc::{AllocError, Global};
use std::process::Abort;
use std::sync::Wait;
use version_views::Write;

fn two_writes(alloc: Global) -> Result<Vec<Write<u64, u64>>, AllocError> {
    let writes = vec![in alloc; Write::Insert(1, 10), Write::Upsert(1, 11)]?;
    Ok(writes)
}

impl<'d, L: Naming, R: Wait + Abort, const S: usize> Desk<'_, 'd, L, R, S> {
    /// Commits two writes of one key. Where memory was refused, they are returned, and index and share are as before.
    fn commit_by_two(&self, share: &mut Share<L>, receipt: &Receipt<u64, u64>) -> Accepted {
        let before = (self.counted(), share.count());
        let writes = match two_writes(self.alloc) {
            Ok(writes) => writes,
            Err(AllocError) => two_writes(self.alloc).expect(self.rt, TWICE),
        };
        let Refused { cause, writes } = match self.commit(share, receipt, writes) {
            Ok(accepted) => return accepted,
            Err(refused) => refused,
        };
        assert!(self.rt; cause == Cause::Memory);
        assert!(self.rt; writes.as_slice() == &[Write::Insert(1, 10), Write::Upsert(1, 11)][..]);
        assert!(self.rt; (self.counted(), share.count()) == before);
        match self.commit(share, receipt, writes) {
            Ok(accepted) => accepted,
            Err(_) => panic!(self.rt; "{TWICE}"),
        }
    }

    fn participant_by_two(&self) -> Participant<'_, 'd, L, u64, u64, S> {
        match self.index.participant() {
            Ok(participant) => return participant,
            Err(RegisterRefused::Memory) => {}
            Err(RegisterRefused::Full) => panic!(self.rt; "a participant is free"),
        }
        match self.index.participant() {
            Ok(participant) => participant,
            Err(_) => panic!(self.rt; "{TWICE}"),
        }
    }

    /// A recorded read of the key, and the receipt, which has this read alone.
    fn read_by_two(&self) -> (Answer<u64, u64>, Receipt<u64, u64>) {
        let mut participant = self.participant_by_two();
        let Ok(mut reader) = participant.reading(0) else {
            panic!(self.rt; "a session is opened");
        };
        let answer = match reader.read(Query::Get(1)) {
            Ok(answer) => answer,
            Err(AllocError) => reader.read(Query::Get(1)).expect(self.rt, TWICE),
        };
        (answer, reader.close())
    }

    fn audit_by_two(&self, receipt: &Receipt<u64, u64>) -> Audit {
        match self.audit(receipt) {
            Ok(found) => found,
            Err(AllocError) => self.audit(receipt).expect(self.rt, TWICE),
        }
    }

    /// How many transactions came behind the first list.
    fn fed_by_two(&self) -> usize {
        match self.fed(1) {
            Ok(count) => count,
            Err(why) => {
                assert!(self.rt; why == FeedRefused::Memory);
                self.fed(1).expect(self.rt, TWICE)
            }
        }
    }

    /// Makes the first list the base, and gives its pair. The base is the one before where memory was refused.
    fn base_by_two(&self) -> Option<(u64, u64)> {
        if let Err(why) = self.checkpoint(1) {
            assert!(self.rt; why == CheckpointRefused::Memory);
            assert!(self.rt; self.counted().0 == (0, 2));
        }
        let (told, list) = self.based(1);
        assert!(self.rt; told.is_ok());
        let list = match list {
            Ok(list) => list,
            Err(AllocError) => self.based(1).1.expect(self.rt, TWICE),
        };
        list.pairs.as_slice().first().copied()
    }
}

/// An index that is made, written, read, written again, asked about what was read, and based on its first list.
#[derive(Clone, Copy)]
struct Used;

impl<R: Wait + Abort> Scene<R> for Used {
    type Found = Found;

    fn play<L: Naming>(self, rt: &R, alloc: Global, stage: Stage<'_>) -> Found {
        let (index, mut shares) = begun::<L, R, 2>(rt, alloc, stage);
        let desk = Desk::of(rt, alloc, &index);
        let mut share = taken(rt, &mut shares);
        let first = desk.commit_by_two(&mut share, &Receipt::blank(alloc));
        let (answer, receipt) = desk.read_by_two();
        let second = desk.commit_by_two(&mut share, &receipt);
        let replayed = desk.audit_by_two(&receipt);
        let rest = desk.fed_by_two();
        let pair = desk.base_by_two();
        let kept = desk.audit_by_two(&receipt);
        put(rt, &mut shares, share);
        let number = closed(rt, index, shares);
        let read = (answer, receipt.reads.as_slice().len());
        ([first, second], read, [replayed, kept], rest, pair, number)
    }
}

/// What is found: what two commits answer, the answer of a recorded read and how many its receipt has, what an audit of it says
/// before the first list is the base and afterwards, how many transactions came behind that list, its pair, and the number.
type Found = (
    [Accepted; 2],
    (Answer<u64, u64>, usize),
    [Audit; 2],
    usize,
    Option<(u64, u64)>,
    u64,
);

/// Whether a commit answers this.
fn is_told(accepted: &Accepted, number: u64, replies: [Reply; 2]) -> bool {
    accepted.number == number && accepted.replies.as_slice() == &replies[..]
}

/// Whether all was found as it is to be, whatever was refused.
fn is_right(found: &Found) -> bool {
    let (commits, read, audits, rest, pair, number) = found;
    is_told(&commits[0], 1, [Reply::Inserted, Reply::Upserted])
        && is_told(&commits[1], 2, [Reply::Duplicate, Reply::Upserted])
        && *read == (Answer::Get(Some(11)), 1)
        && *audits == [Audit::Yes, Audit::Yes]
        && (*rest, *pair, *number) == (1, Some((1, 11)), 2)
}

// (this passes whichever allocation is refused)
#[test]
fn a_refusal_of_memory_changes_nothing(rt: HostRuntime) {
    let found = plays(&rt, rt.alloc(), empty(2, 16, 1), Used);
    assert!(rt; is_right(&found));
}
