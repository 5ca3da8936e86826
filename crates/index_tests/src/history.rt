//! What an index makes its answers and its older lists of, called by itself.

use serial_history::base::pairs_of;
use serial_history::ordered_view::{OrderedView, answer};
use serial_history::replay::{Start, replay};
use serial_history::transaction::prepare;
use serial_history::{Answer, Base, Part, Query, Reads, Seq, Transaction, Write};
use std::alloc::{AllocError, Global};
use std::ops::Bound::{Excluded, Included, Unbounded};
use tree_index::TreeIndex;

/// A transaction of two upserts.
fn transaction(alloc: Global) -> Result<Transaction<u64, u64>, AllocError> {
    let mut writes = Vec::new(alloc);
    writes.push(Write::Upsert(1, 10))?;
    writes.push(Write::Upsert(2, 20))?;
    Ok(Transaction {
        reads: Reads::of(&[]),
        writes: Seq::from_vec(writes),
        replies: Seq::new(alloc),
    })
}

/// The list that the transaction leaves of none, made again from a base with its pairs.
fn based(alloc: Global) -> Result<TreeIndex<u64, u64>, AllocError> {
    let history = [transaction(alloc)?];
    let list = replay(alloc, &Base::empty(alloc), &history)?;
    let pairs = pairs_of(alloc, &list)?;
    // what is read here shows the proof that the keys rise
    let _rising = list.len();
    Base::new(1, pairs).tree(alloc)
}

/// Whether a list is made, answers a query, and lends a copy of a part as it should, and room for three replies is made.
pub(crate) fn made(alloc: Global) -> Result<bool, AllocError> {
    let list = based(alloc)?;
    let told = answer(alloc, &list, &Query::First(Included(2), Unbounded, 5))?;
    let copy = list.copy_between(alloc, &Unbounded, &Excluded(2), Part::All)?;
    let prepared = prepare::<u64, u64>(alloc, &[], 3)?;
    let answers = match told {
        Answer::Range(pairs) => pairs.as_slice() == [(2, 20)].as_slice(),
        _ => false,
    };
    Ok(answers && copy.as_slice() == [(1, 10)].as_slice() && prepared.replies.is_empty())
}
