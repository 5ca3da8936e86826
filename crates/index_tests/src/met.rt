//! What lists of calls at random meet, a bit each, so that a test can tell whether they met all that they are to meet.

use local_index::{Audit, Cause, DeskCall, DeskReply, ReadSet, Receipt};

/// What can be met.
#[derive(Clone, Copy)]
pub(crate) enum Met {
    // an accepted commit; one with a list that no one segment has room for; such a commit with fewer slots than its version has,
    // which took segments over; and the refusals
    Accepted = 1,
    Several = 2,
    Shared = 4,
    Conflict = 8,
    Exhausted = 16,
    NoSlot = 32,
    NoPlace = 64,
    Busy = 128,
    NoSession = 256,
    // audits that find no list and that find another answer; and a look at an older list
    Unknown = 512,
    Broken = 1024,
    Older = 2048,
    // where checkpoints are made: one behind the base's number, and its refusals; an audit of a list that is gone; and a look at
    // a list below the base
    Based = 4096,
    Behind = 8192,
    Ahead = 16_384,
    TooOld = 32_768,
    Dropped = 65_536,
    // where receipts are made by hand: reads of an older list that it answers so, and that it answers otherwise; and a number
    // below that of the list that the index began with
    Held = 131_072,
    Forged = 262_144,
    Before = 524_288,
}

/// All that is met where no checkpoints are made, and no receipts by hand.
pub(crate) const ALL: u32 = 4095;

/// All.
pub(crate) const EVERY: u32 = 1_048_575;

/// What a reply is, of an index that began with the list of a number, while another one is present.
pub(crate) fn met_by(
    call: &DeskCall<u64, u64>,
    reply: &DeskReply<u64, u64>,
    start: u64,
    present: u64,
) -> u32 {
    match reply {
        DeskReply::Accepted(_) => Met::Accepted as u32,
        DeskReply::Refused(refused) => met_by_a_cause(refused.cause),
        DeskReply::NoPlace => Met::NoPlace as u32,
        DeskReply::Busy => Met::Busy as u32,
        DeskReply::NoSession(_) => Met::NoSession as u32,
        DeskReply::Audit(audit) => met_by_an_audit(call, *audit, start, present),
        DeskReply::Behind(_) => Met::Behind as u32,
        DeskReply::Ahead(_) => Met::Ahead as u32,
        _ => 0,
    }
}

// What a refusal is.
fn met_by_a_cause(cause: Cause) -> u32 {
    match cause {
        Cause::Conflict(_) => Met::Conflict as u32,
        Cause::Exhausted => Met::Exhausted as u32,
        Cause::NoSlot => Met::NoSlot as u32,
        Cause::Memory => 0,
    }
}

// What an audit is.
fn met_by_an_audit(call: &DeskCall<u64, u64>, audit: Audit, start: u64, present: u64) -> u32 {
    let of_receipt = match call {
        DeskCall::Audit(ReadSet::Receipt(receipt)) => {
            met_by_a_receipt(receipt, audit, start, present)
        }
        _ => 0,
    };
    of_receipt
        | match audit {
            Audit::Unknown => Met::Unknown as u32,
            Audit::No(_) => Met::Broken as u32,
            Audit::TooOld(_) => Met::TooOld as u32,
            Audit::Yes => 0,
        }
}

// What an audit of a receipt made by hand is.
fn met_by_a_receipt(receipt: &Receipt<u64, u64>, audit: Audit, start: u64, present: u64) -> u32 {
    let is_older = receipt.number < present;
    match audit {
        Audit::Yes if is_older && !receipt.reads.as_slice().is_empty() => Met::Held as u32,
        Audit::No(_) if is_older => Met::Forged as u32,
        Audit::TooOld(_) if receipt.number < start => Met::Before as u32,
        _ => 0,
    }
}
