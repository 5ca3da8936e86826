//! The texts of replies. Each is put behind a text, and takes memory only where that has no room.

ghost use Rattle.std.specs.Prelude.{◌≡◌, ◌++◌, OnOk, codes, length};
ghost use Rattle.std.specs.String.{string_bytes};
ghost use Rattle.std.specs.Fmt.{decimal};
ghost use Rattle.index_script.specs.Replies.{CausePrints, Prints, accepted_text, answer_text, audit_text, discarded_text, fault_text, near_text, pair_text, pair_texts, staged_text, told_text};

use crate::request::Fault;
use local_index::{Accepted, Answer, Audit, Cause, DeskReply, Near, Reply, Text};
use std::alloc::AllocError;

/// How many bytes the longest reply to a line at fault has.
pub const LONGEST_FAULT: usize = 35;

/// The reply to a line at fault.
pub fn write_fault(text: &mut String, line: u64, fault: Fault) -> Result<(), AllocError>
    ensures { OnOk result (string_bytes text.new ≡ string_bytes text.old ++ fault_text line fault) }
{
    let word = fault.word();
    write!(text, "line {line}: {word}\n")
}

/// The reply to a staging, by how many writes are staged.
pub fn write_staged(text: &mut String, count: usize) -> Result<(), AllocError>
    ensures { OnOk result (string_bytes text.new ≡ string_bytes text.old ++ staged_text count) }
{
    write!(text, "staged {count}\n")
}

/// The reply to a discarding, by how many writes were dropped.
pub fn write_discarded(text: &mut String, count: usize) -> Result<(), AllocError>
    ensures { OnOk result (string_bytes text.new ≡ string_bytes text.old ++ discarded_text count) }
{
    write!(text, "discarded {count}\n")
}

/// The reply to a call that a line with this number and this label makes.
pub fn write_reply(
    text: &mut String,
    line: u64,
    label: u64,
    reply: &DeskReply<u64, Text>,
) -> Result<(), AllocError>
    ensures { OnOk result (Prints line label reply.now (λ told. string_bytes text.new ≡ string_bytes text.old ++ told)) }
{
    match reply {
        DeskReply::Opened(number) => write_opened(text, label, *number),
        DeskReply::NoPlace => write!(text, "noplace\n"),
        DeskReply::Busy => write_fault(text, line, Fault::Busy),
        DeskReply::Closed(_) => write!(text, "closed {label}\n"),
        DeskReply::NoSession(_) => write_fault(text, line, Fault::Session),
        DeskReply::Answer(answer) => write_answer(text, answer),
        DeskReply::Audit(found) => write_audit(text, *found),
        DeskReply::Accepted(accepted) => write_accepted(text, accepted),
        DeskReply::Refused(refused) => write_cause(text, refused.cause),
        DeskReply::Reclaimed => write!(text, "reclaimed\n"),
        DeskReply::Slots(count) => write!(text, "slots {count}\n"),
        DeskReply::Number(number) => write!(text, "number {number}\n"),
        DeskReply::Len(count) => write!(text, "len {count}\n"),
        DeskReply::Checkpointed(number) => write!(text, "checkpoint {number}\n"),
        DeskReply::Behind(number) => write!(text, "behind {number}\n"),
        DeskReply::Ahead(number) => write!(text, "ahead {number}\n"),
    }
}

fn write_opened(text: &mut String, label: u64, number: u64) -> Result<(), AllocError>
    ensures { OnOk result (string_bytes text.new ≡ string_bytes text.old ++ codes "open " ++ decimal label ++ codes " at " ++ decimal number ++ codes "\n") }
{
    write!(text, "open {label} at {number}\n")
}

fn write_answer(text: &mut String, answer: &Answer<u64, Text>) -> Result<(), AllocError>
    ensures { OnOk result (string_bytes text.new ≡ string_bytes text.old ++ answer_text answer.now) }
{
    match answer {
        Answer::Get(Some(value)) => {
            let value = value.as_str();
            write!(text, "some {value}\n")
        }
        Answer::Get(None) => write!(text, "none\n"),
        Answer::Contains(true) => write!(text, "yes\n"),
        Answer::Contains(false) => write!(text, "no\n"),
        Answer::Range(pairs) => write_pairs(text, pairs.as_slice()),
        Answer::Locate(near) => write_near(text, near),
    }
}

// How many pairs there are, and each in a line of its own.
fn write_pairs(text: &mut String, pairs: &[(u64, Text)]) -> Result<(), AllocError>
    ensures { OnOk result (string_bytes text.new ≡ string_bytes text.old ++ codes "pairs " ++ decimal (length pairs.now) ++ codes "\n" ++ pair_texts pairs.now) }
{
    let count = pairs.len();
    write!(text, "pairs {count}\n")?;
    for pair in pairs {
        write_pair(text, pair.0, &pair.1)?;
    }
    Ok(())
}

fn write_pair(text: &mut String, key: u64, value: &Text) -> Result<(), AllocError>
    ensures { OnOk result (string_bytes text.new ≡ string_bytes text.old ++ pair_text (key, value.now)) }
{
    let value = value.as_str();
    write!(text, "{key} {value}\n")
}

fn write_near(text: &mut String, near: &Near<u64, Text>) -> Result<(), AllocError>
    ensures { OnOk result (string_bytes text.new ≡ string_bytes text.old ++ near_text near.now) }
{
    match near {
        Near::Exact(key, value) => write_headed(text, "exact", *key, value),
        Near::Between(key, value, larger, other) => {
            write_headed(text, "between", *key, value)?;
            write_pair(text, *larger, other)
        }
        Near::Smaller(key, value) => write_headed(text, "smaller", *key, value),
        Near::Larger(key, value) => write_headed(text, "larger", *key, value),
        Near::Empty => write!(text, "empty\n"),
    }
}

// A word in a line of its own, and a pair in the next.
fn write_headed(text: &mut String, word: &str, key: u64, value: &Text) -> Result<(), AllocError>
    ensures { OnOk result (string_bytes text.new ≡ string_bytes text.old ++ word.now ++ codes "\n" ++ pair_text (key, value.now)) }
{
    let value = value.as_str();
    write!(text, "{word}\n{key} {value}\n")
}

fn write_audit(text: &mut String, found: Audit) -> Result<(), AllocError>
    ensures { OnOk result (string_bytes text.new ≡ string_bytes text.old ++ audit_text found) }
{
    match found {
        Audit::Yes => write!(text, "audit yes\n"),
        Audit::No(place) => write!(text, "audit no {place}\n"),
        Audit::Unknown => write!(text, "audit unknown\n"),
        Audit::TooOld(_) => write!(text, "audit old\n"),
    }
}

fn write_accepted(text: &mut String, accepted: &Accepted) -> Result<(), AllocError>
    ensures { OnOk result (string_bytes text.new ≡ string_bytes text.old ++ accepted_text accepted.now.number accepted.now.replies.items) }
{
    let number = accepted.number;
    write!(text, "ok {number}")?;
    for reply in &accepted.replies {
        text.push_str(told_text(*reply))?;
    }
    text.push('\n')?;
    Ok(())
}

fn told_text(reply: Reply) -> &'static str
    ensures { result.now ≡ told_text reply }
{
    match reply {
        Reply::Inserted => " inserted",
        Reply::Duplicate => " duplicate",
        Reply::Upserted => " upserted",
        Reply::Removed => " removed",
        Reply::Absent => " absent",
        Reply::RangeRemoved => " deleted",
        Reply::Cleared => " cleared",
    }
}

// A commit that is refused memory ends the run.
fn write_cause(text: &mut String, cause: Cause) -> Result<(), AllocError>
    ensures { OnOk result (CausePrints cause (λ told. string_bytes text.new ≡ string_bytes text.old ++ told)) }
{
    match cause {
        Cause::Conflict(place) => write!(text, "conflict {place}\n"),
        Cause::Exhausted => write!(text, "exhausted\n"),
        Cause::Memory => Err(AllocError),
        Cause::NoSlot => write!(text, "noslot\n"),
    }
}
