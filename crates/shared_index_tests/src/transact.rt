//! Transactions that are tried again where their commit conflicts.

use crate::calls::Desk;
use crate::scene::{Scene, begun, closed, empty, plays, put, taken};
use crate::stage::Stage;
use serial_history::{Answer, Cause, Query, Receipt, Recorded};
use shared_index::{Naming, Share, TransactRefused, Transacted};
use std::alloc::{AllocError, Global};
use std::cell::{Cell, RefCell};
use std::process::Abort;
use std::sync::Wait;
use version_views::Write;

impl<L: Naming, R: Wait + Abort, const S: usize> Desk<'_, '_, L, R, S> {
    /// Upserts key 1 to this value, whatever it was.
    fn meddle(&self, share: &RefCell<Share<L>>, value: u64) {
        let Ok(writes) = vec![in self.alloc; Write::Upsert(1, value)] else {
            return;
        };
        let Ok(mut share) = share.try_borrow_mut() else {
            return;
        };
        let _told = self.commit(&mut share, &Receipt::blank(self.alloc), writes);
    }

    /// Raises key 1 by a transaction that is tried again so often at most, while another share writes to it in this many of its
    /// first tries: what it came to, and how often it was tried.
    fn beside(
        &self,
        share: &mut Share<L>,
        other: &RefCell<Share<L>>,
        retries: u32,
        writes: u32,
    ) -> ((&'static str, u64), u32) {
        let Ok(mut member) = self.index.participant() else {
            panic!(self.rt; "a participant is free");
        };
        let tries = Cell::new(0u32);
        let queries = [Query::Get(1)];
        let done = member.transact(self.rt, share, &queries, retries, |reads| {
            let made = tries.get();
            tries.set(made.saturating_add(1));
            if made < writes {
                self.meddle(other, 10 * u64::from(made) + 10);
            }
            raised(self.alloc, reads)
        });
        (told(done), tries.get())
    }
}

/// One more than what key 1 was read to be.
pub(crate) fn raised(
    alloc: Global,
    reads: &[Recorded<u64, u64>],
) -> Result<Vec<Write<u64, u64>>, AllocError> {
    let value = match reads {
        [(_, Answer::Get(Some(value)))] => value.saturating_add(1),
        _ => 1,
    };
    Ok(vec![in alloc; Write::Upsert(1, value)]?)
}

/// What a transaction came to: its number, or one of these.
fn told(told: Result<Transacted<u64, u64>, TransactRefused<u64, u64>>) -> (&'static str, u64) {
    match told {
        Ok(done) => ("accepted", done.accepted.number),
        Err(TransactRefused::Commit(refused)) => match refused.cause {
            Cause::Conflict(0) => ("conflict", refused.writes.len() as u64),
            _ => ("refused", 0),
        },
        Err(_) => ("no commit", 0),
    }
}

/// Three transactions: one beside two writes, with two retries and with one; and one by itself.
#[derive(Clone, Copy)]
struct Transactions;

impl<R: Wait + Abort> Scene<R> for Transactions {
    /// What they come to, the counts of both shares, and the number.
    type Found = ([((&'static str, u64), u32); 3], [u64; 2], u64);

    fn play<L: Naming>(self, rt: &R, alloc: Global, stage: Stage<'_>) -> Self::Found {
        let (index, mut shares) = begun::<L, R, 2>(rt, alloc, stage);
        let desk = Desk::of(rt, alloc, &index);
        let mut share = taken(rt, &mut shares);
        let other = RefCell::new(taken(rt, &mut shares));
        let told = [
            desk.beside(&mut share, &other, 2, 2),
            desk.beside(&mut share, &other, 1, 2),
            desk.beside(&mut share, &other, 0, 0),
        ];
        let other = other.into_inner();
        let counts = [share.count(), other.count()];
        put(rt, &mut shares, share);
        put(rt, &mut shares, other);
        (told, counts, closed(rt, index, shares))
    }
}

#[test]
fn a_transaction_is_tried_again_where_it_conflicts(rt: HostRuntime) {
    let (told, counts, number) = plays(&rt, rt.alloc(), empty(2, 64, 2), Transactions);
    let all = [
        (("accepted", 3), 3),
        (("conflict", 1), 2),
        (("accepted", 6), 1),
    ];
    assert!(rt; told == all);
    assert_eq!(rt; (counts, number), ([2, 4], 6));
}
