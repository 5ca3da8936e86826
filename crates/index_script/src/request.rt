//! What a line of a script asks for.

ghost use Rattle.std.specs.Prelude.{◌≡◌, ◌++◌, ◌∷◌, List, ℕ, IfOk, IfErr, IfSome, IfNone, codes};
ghost use Rattle.std.specs.Fmt.{decimal};
ghost use Rattle.std.specs.Option.{option_copied};
ghost use Rattle.index_script.specs.Lines.{Lacks, kept};
ghost use Rattle.index_script.specs.Replies.{word_of};
ghost use Rattle.index_script.specs.Requests.{AreTwo, Asks, IsSmall, IsUnfit, LineAsksFor, WithBounds, WithNumber, WithRange, WithTwo, WithValue, bound_text};

use crate::words::{bound, number, split_word};
use local_index::Text;
use std::alloc::{AllocError, Global};
use std::ops::Bound;
use std::str;

/// What is wrong with a line, in the order in which it is decided.
#[derive(Clone, Copy, Debug, PartialEq, Eq)]
pub enum Fault {
    /// It has more than 65,536 bytes.
    Long,
    /// It isn't UTF-8.
    Text,
    /// Its first word is unknown.
    Command,
    /// It has another number of words than belong to the first.
    Words,
    /// A word that is to be a number isn't.
    Number,
    /// A word that is to be a bound isn't.
    Bound,
    /// Its label has no session.
    Session,
    /// Its label has a session already.
    Busy,
}

impl Fault {
    /// The word for it in a reply.
    pub fn word(self) -> &'static str
        ensures { result.now ≡ word_of self }
    {
        match self {
            Fault::Long => "long",
            Fault::Text => "text",
            Fault::Command => "command",
            Fault::Words => "words",
            Fault::Number => "number",
            Fault::Bound => "bound",
            Fault::Session => "session",
            Fault::Busy => "busy",
        }
    }
}

/// What a line asks for.
#[derive(Drop)]
pub enum Request {
    /// To stage an insert of this key and this value.
    Insert(u64, Text),
    /// To stage an upsert of this key and this value.
    Upsert(u64, Text),
    /// To stage a removal of this key.
    Remove(u64),
    /// To stage the removal of the keys within these bounds, of which the lower comes first.
    Delete(Bound<u64>, Bound<u64>),
    /// To stage the removal of all keys.
    Clear,
    /// To drop what is staged.
    Discard,
    /// To commit what is staged, on the reads of the session with this label or on none.
    Commit(Option<u64>),
    /// To open a session under this label.
    Open(u64),
    /// To read this key by the session with this label, which comes first.
    Get(u64, u64),
    /// To say whether a key is there, by the session with the label, which comes first.
    Has(u64, u64),
    /// To read the pairs within these bounds by the session with this label.
    Range(u64, Bound<u64>, Bound<u64>),
    /// To read the pair with a key or the nearest ones, by the session with the label, which comes
    /// first.
    Near(u64, u64),
    /// To audit what the session with this label read.
    Audit(u64),
    /// To close the session with this label.
    Close(u64),
    /// To say how many pairs the session with this label reads.
    Len(u64),
    /// To say the number of the session with this label.
    Number(u64),
    /// To reclaim slots.
    Reclaim,
    /// To say how many slots are in use.
    Slots,
    /// To make the list of this number the base.
    Checkpoint(u64),
    /// Nothing: the line is at fault.
    Faulty(Fault),
}

/// What a line asks for, by its bytes, or by none where it is longer than it may be.
pub fn read_line(alloc: Global, line: Option<&[u8]>) -> Result<Request, AllocError>
    ensures { IfOk result (λ request. (whole : List ℕ) → option_copied line.entry ≡ kept whole → LineAsksFor whole request) }
{
    let Some(bytes) = line else {
        return Ok(Request::Faulty(Fault::Long));
    };
    let Ok(text) = str::from_utf8(bytes) else {
        return Ok(Request::Faulty(Fault::Text));
    };
    let request = read_text(alloc, text)?;
    Ok(request)
}

// What a text asks for.
fn read_text(alloc: Global, line: &str) -> Result<Request, AllocError>
    ensures { IfOk result (λ request. Asks line.now request) }
{
    let Some((word, rest)) = split_word(line) else {
        return Ok(bare(line));
    };
    match word {
        "insert" => insert(alloc, rest),
        "upsert" => upsert(alloc, rest),
        "remove" => Ok(remove(rest)),
        "delete" => Ok(delete(rest)),
        "commit" => Ok(commit(rest)),
        "open" => Ok(open(rest)),
        "close" => Ok(close(rest)),
        "get" => Ok(get(rest)),
        "has" => Ok(has(rest)),
        "range" => Ok(range(rest)),
        "near" => Ok(near(rest)),
        "audit" => Ok(audit(rest)),
        "len" => Ok(len(rest)),
        "number" => Ok(number_of(rest)),
        "checkpoint" => Ok(checkpoint(rest)),
        "clear" | "discard" | "reclaim" | "slots" => Ok(Request::Faulty(Fault::Words)),
        _ => Ok(Request::Faulty(Fault::Command)),
    }
}

// A line of one word.
fn bare(word: &str) -> Request
    requires { Lacks 32 word.now }
    ensures { Asks word.now result }
{
    match word {
        "clear" => Request::Clear,
        "discard" => Request::Discard,
        "reclaim" => Request::Reclaim,
        "slots" => Request::Slots,
        "insert"
        | "upsert"
        | "remove"
        | "delete"
        | "commit"
        | "open"
        | "close"
        | "get"
        | "has"
        | "range"
        | "near"
        | "audit"
        | "len"
        | "number"
        | "checkpoint" => Request::Faulty(Fault::Words),
        _ => Request::Faulty(Fault::Command),
    }
}

fn insert(alloc: Global, rest: &str) -> Result<Request, AllocError>
    ensures { IfOk result (Asks (codes "insert " ++ rest.now)) }
{
    match pair(rest) {
        Ok((key, value)) => Ok(Request::Insert(key, Text::new(alloc, value)?)),
        Err(fault) => Ok(Request::Faulty(fault)),
    }
}

fn upsert(alloc: Global, rest: &str) -> Result<Request, AllocError>
    ensures { IfOk result (Asks (codes "upsert " ++ rest.now)) }
{
    match pair(rest) {
        Ok((key, value)) => Ok(Request::Upsert(key, Text::new(alloc, value)?)),
        Err(fault) => Ok(Request::Faulty(fault)),
    }
}

fn remove(rest: &str) -> Request
    ensures { Asks (codes "remove " ++ rest.now) result }
{
    match only_number(rest) {
        Ok(key) => Request::Remove(key),
        Err(fault) => Request::Faulty(fault),
    }
}

fn commit(rest: &str) -> Request
    ensures { Asks (codes "commit " ++ rest.now) result }
{
    if rest == "-" {
        return Request::Commit(None);
    }
    match only_number(rest) {
        Ok(label) => Request::Commit(Some(label)),
        Err(fault) => Request::Faulty(fault),
    }
}

fn open(rest: &str) -> Request
    ensures { Asks (codes "open " ++ rest.now) result }
{
    match only_number(rest) {
        Ok(label) => Request::Open(label),
        Err(fault) => Request::Faulty(fault),
    }
}

fn get(rest: &str) -> Request
    ensures { Asks (codes "get " ++ rest.now) result }
{
    match two_numbers(rest) {
        Ok((label, key)) => Request::Get(label, key),
        Err(fault) => Request::Faulty(fault),
    }
}

fn has(rest: &str) -> Request
    ensures { Asks (codes "has " ++ rest.now) result }
{
    match two_numbers(rest) {
        Ok((label, key)) => Request::Has(label, key),
        Err(fault) => Request::Faulty(fault),
    }
}

fn near(rest: &str) -> Request
    ensures { Asks (codes "near " ++ rest.now) result }
{
    match two_numbers(rest) {
        Ok((label, key)) => Request::Near(label, key),
        Err(fault) => Request::Faulty(fault),
    }
}

fn range(rest: &str) -> Request
    ensures { Asks (codes "range " ++ rest.now) result }
{
    match number_and_bounds(rest) {
        Ok((label, lower, upper)) => Request::Range(label, lower, upper),
        Err(fault) => Request::Faulty(fault),
    }
}

fn delete(rest: &str) -> Request
    ensures { Asks (codes "delete " ++ rest.now) result }
{
    match two_bounds(rest) {
        Ok((lower, upper)) => Request::Delete(lower, upper),
        Err(fault) => Request::Faulty(fault),
    }
}

fn audit(rest: &str) -> Request
    ensures { Asks (codes "audit " ++ rest.now) result }
{
    match only_number(rest) {
        Ok(label) => Request::Audit(label),
        Err(fault) => Request::Faulty(fault),
    }
}

fn close(rest: &str) -> Request
    ensures { Asks (codes "close " ++ rest.now) result }
{
    match only_number(rest) {
        Ok(label) => Request::Close(label),
        Err(fault) => Request::Faulty(fault),
    }
}

fn len(rest: &str) -> Request
    ensures { Asks (codes "len " ++ rest.now) result }
{
    match only_number(rest) {
        Ok(label) => Request::Len(label),
        Err(fault) => Request::Faulty(fault),
    }
}

fn number_of(rest: &str) -> Request
    ensures { Asks (codes "number " ++ rest.now) result }
{
    match only_number(rest) {
        Ok(label) => Request::Number(label),
        Err(fault) => Request::Faulty(fault),
    }
}

fn checkpoint(rest: &str) -> Request
    ensures { Asks (codes "checkpoint " ++ rest.now) result }
{
    match only_number(rest) {
        Ok(upto) => Request::Checkpoint(upto),
        Err(fault) => Request::Faulty(fault),
    }
}

// The number that is the first word here, and the value behind it.
fn pair(rest: &str) -> Result<(u64, &str), Fault>
    ensures ok { IfOk result (λ parts. rest.now ≡ decimal parts.0 ++ 32 ∷ parts.1.now) }
    ensures err { IfErr result (IsUnfit WithValue rest.now) }
{
    let Some((key, value)) = split_word(rest) else {
        return Err(Fault::Words);
    };
    match number(key) {
        Some(key) => Ok((key, value)),
        None => Err(Fault::Number),
    }
}

// The number that is the only word here.
fn only_number(rest: &str) -> Result<u64, Fault>
    ensures ok { IfOk result (λ n. rest.now ≡ decimal n) }
    ensures err { IfErr result (IsUnfit WithNumber rest.now) }
{
    if let Some(_) = split_word(rest) {
        return Err(Fault::Words);
    }
    match number(rest) {
        Some(number) => Ok(number),
        None => Err(Fault::Number),
    }
}

// The two numbers that are the only words here.
fn two_numbers(rest: &str) -> Result<(u64, u64), Fault>
    ensures ok { IfOk result (λ parts. rest.now ≡ decimal parts.0 ++ 32 ∷ decimal parts.1) }
    ensures err { IfErr result (IsUnfit WithTwo rest.now) }
{
    let Some((one, two)) = two_words(rest) else {
        return Err(Fault::Words);
    };
    let Some(first) = number(one) else {
        return Err(Fault::Number);
    };
    match number(two) {
        Some(second) => Ok((first, second)),
        None => Err(Fault::Number),
    }
}

// The two bounds that are the only words here.
fn two_bounds(rest: &str) -> Result<(Bound<u64>, Bound<u64>), Fault>
    ensures ok { IfOk result (λ parts. IsSmall parts.0 × IsSmall parts.1 × (rest.now ≡ bound_text parts.0 ++ 32 ∷ bound_text parts.1)) }
    ensures err { IfErr result (IsUnfit WithBounds rest.now) }
{
    let Some((one, two)) = two_words(rest) else {
        return Err(Fault::Words);
    };
    let Some(lower) = bound(one) else {
        return Err(Fault::Bound);
    };
    match bound(two) {
        Some(upper) => Ok((lower, upper)),
        None => Err(Fault::Bound),
    }
}

// The number and the two bounds that are the only words here.
fn number_and_bounds(rest: &str) -> Result<(u64, Bound<u64>, Bound<u64>), Fault>
    ensures ok { IfOk result (λ parts. IsSmall parts.1 × IsSmall parts.2 × (rest.now ≡ decimal parts.0 ++ 32 ∷ bound_text parts.1 ++ 32 ∷ bound_text parts.2)) }
    ensures err { IfErr result (IsUnfit WithRange rest.now) }
{
    let Some((one, behind)) = split_word(rest) else {
        return Err(Fault::Words);
    };
    let Some((two, three)) = two_words(behind) else {
        return Err(Fault::Words);
    };
    let Some(label) = number(one) else {
        return Err(Fault::Number);
    };
    let Some(lower) = bound(two) else {
        return Err(Fault::Bound);
    };
    match bound(three) {
        Some(upper) => Ok((label, lower, upper)),
        None => Err(Fault::Bound),
    }
}

// The two words here, if there are two.
fn two_words(rest: &str) -> Option<(&str, &str)>
    ensures some { IfSome result (λ words. AreTwo rest.now words.0.now words.1.now) }
    ensures none { IfNone result ((one two : List ℕ) → AreTwo rest.now one two → ⊥) }
{
    let Some((one, two)) = split_word(rest) else {
        return None;
    };
    match split_word(two) {
        Some(_) => None,
        None => Some((one, two)),
    }
}
