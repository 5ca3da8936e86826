//! What an index is asked and what it answers, as values: cloned, compared and printed.

use crate::table::Claim::Got;
use local_index::{
    Accepted, Answer, Audit, Cause, DeskCall, DeskReply, Near, ReadSet, Reads, Receipt, Refused,
    Reply, Seq, Transaction, Write,
};
use std::alloc::{AllocError, Global};
use std::fmt;

// Whether a value is printed like this.
fn prints<T: fmt::Debug>(alloc: Global, value: &T, wanted: &str) -> Result<bool, AllocError> {
    let text = format!(in alloc; "{value:?}")?;
    Ok(text.as_str() == wanted)
}

// A receipt of number 3 with one read.
fn receipt(alloc: Global) -> Result<Receipt<u64, u64>, AllocError> {
    index_rows::receipt(alloc, 3, &[Got(1, Some(10))])
}

// Whether a value is equal to its clone, and printed like this.
fn is_value<T: Clone + PartialEq + fmt::Debug + Drop>(
    alloc: Global,
    value: &T,
    wanted: &str,
) -> Result<bool, AllocError> {
    let copy = value.clone()?;
    Ok(copy == *value && prints(alloc, value, wanted)?)
}

fn receipts(alloc: Global) -> Result<bool, AllocError> {
    let one = receipt(alloc)?;
    let wanted = "Receipt { number: 3, reads: [(Get(1), Get(Some(10)))] }";
    let differs = one != Receipt::blank(alloc);
    Ok(differs && is_value(alloc, &one, wanted)?)
}

fn accepted(alloc: Global) -> Result<bool, AllocError> {
    let replies: Vec<Reply> = vec![in alloc; Reply::Inserted, Reply::Absent]?;
    let wanted = "Accepted { number: 4, replies: [Inserted, Absent] }";
    is_value(alloc, &Accepted { number: 4, replies }, wanted)
}

fn refused(alloc: Global) -> Result<bool, AllocError> {
    let writes: Vec<Write<u64, u64>> = vec![in alloc; Write::Remove(7)]?;
    let cause = Cause::Conflict(2);
    let wanted = "Refused { cause: Conflict(2), writes: [Remove(7)] }";
    is_value(alloc, &Refused { cause, writes }, wanted)
}

// A transaction of one upsert that rested on these reads. They are neither compared nor printed.
fn transaction(
    alloc: Global,
    receipt: &Receipt<u64, u64>,
) -> Result<Transaction<u64, u64>, AllocError> {
    Ok(Transaction {
        reads: Reads::of(receipt.reads.as_slice()),
        writes: Seq::from_vec(vec![in alloc; Write::Upsert(1, 11)]?),
        replies: Seq::from_vec(vec![in alloc; Reply::Upserted]?),
    })
}

fn transactions(alloc: Global) -> Result<bool, AllocError> {
    let rested = transaction(alloc, &receipt(alloc)?)?;
    let free = transaction(alloc, &Receipt::blank(alloc))?;
    let wanted = "Transaction { reads: Reads(..), writes: [Upsert(1, 11)], replies: [Upserted] }";
    Ok(rested == free && is_value(alloc, &rested, wanted)?)
}

fn answers(alloc: Global) -> Result<bool, AllocError> {
    let near: Near<u64, u64> = Near::Between(1, 10, 3, 30);
    let printed = prints(alloc, &near, "Between(1, 10, 3, 30)")?;
    let answer = Answer::Locate(near);
    let differs = answer != Answer::Contains(true);
    let audit = prints(alloc, &Audit::No(5), "No(5)")?;
    let value = is_value(alloc, &answer, "Locate(Between(1, 10, 3, 30))")?;
    Ok(printed && differs && audit && value)
}

// A call that audits a receipt.
fn calls(alloc: Global) -> Result<bool, AllocError> {
    let call: DeskCall<u64, u64> = DeskCall::Audit(ReadSet::Receipt(receipt(alloc)?));
    let wanted = "Audit(Receipt(Receipt { number: 3, reads: [(Get(1), Get(Some(10)))] }))";
    is_value(alloc, &call, wanted)
}

// A reply that gives a receipt.
fn replies(alloc: Global) -> Result<bool, AllocError> {
    let reply: DeskReply<u64, u64> = DeskReply::Closed(receipt(alloc)?);
    let wanted = "Closed(Receipt { number: 3, reads: [(Get(1), Get(Some(10)))] })";
    let differs = reply != DeskReply::Reclaimed;
    Ok(differs && is_value(alloc, &reply, wanted)?)
}

#[test]
fn what_is_asked_and_told_are_values(rt: HostRuntime) {
    let alloc = rt.alloc();
    let found = [
        receipts(alloc),
        accepted(alloc),
        refused(alloc),
        transactions(alloc),
        answers(alloc),
        calls(alloc),
        replies(alloc),
    ];
    assert!(rt; found == [Ok(true); 7]);
}
