//! Reading a script, and writing its output.

ghost use Rattle.std.specs.Prelude.{◌≡◌, ◌+◌, ◌<◌, ◌≤◌, ◌^◌, ℕ, List, [], IfErr, OnOk, OnErr, IsErrOf, length, take};
ghost use Rattle.std.specs.Io.KnownBytes.{Appends};
ghost use Rattle.version_views.specs.Sizes.{IsStoreSized};
ghost use Rattle.index_script.specs.Lines.{kept};
ghost use Rattle.index_script.specs.Script.{fresh_script};
ghost use Rattle.index_script.specs.Runs.{Ends, status_of, complaint_of};
ghost use Rattle.index_script.specs.Inside.{Answers, AnswersBegun, FaltersBegun, FaltersKept, Finishes, Feeds, FeedBreaks, FeedStops};

use crate::line::{Begun, split_line};
use crate::reply::LONGEST_FAULT;
use crate::script::Script;
use std::alloc::Global;
use std::io::{Read, Write};
use thiserror::Error;

/// What ended a run before the end of its input.
#[derive(Clone, Copy, Debug, PartialEq, Eq, Error)]
pub enum RunError {
    /// A read failed, or was interrupted, or was the last that a run makes and still gave bytes.
    #[error("read")]
    Read,
    /// A write failed, or took no byte.
    #[error("write")]
    Write,
    /// Memory was refused.
    #[error("memory")]
    Memory,
}

// How many bytes are read at a time.
const PIECE: usize = 4096;

/// Runs the script that the reader gives on an empty index for at most `places` sessions at a time and with
/// `slots` slots, and writes its output.
///
/// The reply of each line is written before the next is acted on, and nothing is held back. A line
/// at fault takes no memory but what its bytes are read into. A run makes at most 4,294,967,295
/// reads.
///
/// - Without an error, the reader is at its end and each line is answered, also a last one without
///   LF.
/// - `Read`: the complete lines of what was read are answered, and the begun one is dropped.
/// - `Write`: what was written is a beginning of the output, which breaks off in the reply of one
///   line.
/// - `Memory`: the lines before the one that wanted it are answered.
pub fn run<const S: usize, R: Read, W: Write>(
    alloc: Global,
    reader: &mut R,
    writer: &mut W,
    places: usize,
    slots: usize,
) -> Result<(), RunError>
    requires { IsStoreSized places slots S }
    ensures { Ends S (fresh_script places slots) result (R.remaining reader.old) (R.remaining reader.new) (W.contents writer.old) (W.contents writer.new) }
{
    let Ok(mut script) = Script::<S>::new(alloc, places, slots) else {
        return Err(RunError::Memory);
    };
    let result = serve(alloc, &mut script, reader, writer);
    script.end();
    result
}

// Reads to the end, and answers each line.
fn serve<const S: usize, R: Read, W: Write>(
    alloc: Global,
    script: &mut Script<S>,
    reader: &mut R,
    writer: &mut W,
) -> Result<(), RunError>
    requires { script.old.line ≡ 0 }
    ensures { Ends S script.old result (R.remaining reader.old) (R.remaining reader.new) (W.contents writer.old) (W.contents writer.new) }
{
    let mut begun = Begun::new(alloc);
    let Ok(mut reply) = String::with_capacity(alloc, LONGEST_FAULT) else {
        return Err(RunError::Memory);
    };
    let mut buffer = [0u8; PIECE];
    for read in 0..u32::MAX {
        let Ok(count) = reader.read(&mut buffer) else {
            return Err(RunError::Read);
        };
        if count == 0 {
            return finish(script, &begun, &mut reply, writer);
        }
        if let Err(stopped) = feed(script, &mut begun, &buffer[..count], &mut reply, writer) {
            return Err(stopped);
        }
    }
    Err(RunError::Read) // the last read that a run makes still gave bytes
}

// Answers the lines that end in the piece.
fn feed<const S: usize, W: Write>(
    script: &mut Script<S>,
    begun: &mut Begun,
    piece: &[u8],
    reply: &mut String,
    writer: &mut W,
) -> Result<(), RunError>
    requires { script.old.line + length piece.now < 2 ^ 64 }
    ensures ok { OnOk result (Feeds S script.old begun.old piece.now (W.contents writer.old) (W.contents writer.new) begun.new script.new) }
    ensures counted { OnOk result (script.new.line ≤ script.old.line + length piece.now) }
    ensures write { IsErrOf result RunError.Write → FeedBreaks S script.old begun.old piece.now (W.contents writer.old) (W.contents writer.new) }
    ensures memory { IsErrOf result RunError.Memory → FeedStops S script.old begun.old piece.now (W.contents writer.old) (W.contents writer.new) }
    ensures read { IsErrOf result RunError.Read → ⊥ }
{
    let mut rest = piece;
    'lines: while let Some((part, behind)) = split_line(rest) {
        if let Err(stopped) = end_line(script, begun, part, reply, writer) {
            return Err(stopped);
        }
        rest = behind;
    }
    let Ok(()) = begun.extend(rest) else {
        return Err(RunError::Memory);
    };
    Ok(())
}

// Answers the line that ends with this part, and begins the next.
fn end_line<const S: usize, W: Write>(
    script: &mut Script<S>,
    begun: &mut Begun,
    part: &[u8],
    reply: &mut String,
    writer: &mut W,
) -> Result<(), RunError>
    requires { script.old.line + 1 < 2 ^ 64 }
    ensures ok { OnOk result (AnswersBegun S script.old begun.old part.now (W.contents writer.old) (W.contents writer.new) script.new) }
    ensures begun { OnOk result (begun.new ≡ kept []) }
    ensures counted { OnOk result (script.new.line ≡ script.old.line + 1) }
    ensures write { IsErrOf result RunError.Write → FaltersBegun S script.old begun.old part.now (W.contents writer.old) (W.contents writer.new) }
    ensures memory { IsErrOf result RunError.Memory → Appends (W.contents writer.old) (W.contents writer.new) [] }
    ensures read { IsErrOf result RunError.Read → ⊥ }
{
    let Ok(()) = begun.extend(part) else {
        return Err(RunError::Memory);
    };
    answer(script, begun, reply, writer)?;
    begun.clear();
    Ok(())
}

// Answers the line that the input ends with, if it lacks its LF.
fn finish<const S: usize, W: Write>(
    script: &mut Script<S>,
    begun: &Begun,
    reply: &mut String,
    writer: &mut W,
) -> Result<(), RunError>
    requires { script.old.line + 1 < 2 ^ 64 }
    ensures ok { OnOk result (Finishes S script.old begun.now (W.contents writer.old) (W.contents writer.new) script.new) }
    ensures write { IsErrOf result RunError.Write → FaltersKept S script.old begun.now (W.contents writer.old) (W.contents writer.new) }
    ensures memory { IsErrOf result RunError.Memory → Appends (W.contents writer.old) (W.contents writer.new) [] }
    ensures read { IsErrOf result RunError.Read → ⊥ }
{
    if begun.is_empty() {
        return Ok(());
    }
    answer(script, begun, reply, writer)
}

// Acts on a line, and writes its reply, in the memory of earlier replies.
fn answer<const S: usize, W: Write>(
    script: &mut Script<S>,
    begun: &Begun,
    reply: &mut String,
    writer: &mut W,
) -> Result<(), RunError>
    requires { script.old.line + 1 < 2 ^ 64 }
    ensures ok { OnOk result ((line : List ℕ) → begun.now ≡ kept line → Answers S script.old line (W.contents writer.old) (W.contents writer.new) script.new) }
    ensures counted { OnOk result (script.new.line ≡ script.old.line + 1) }
    ensures write { IsErrOf result RunError.Write → FaltersKept S script.old begun.now (W.contents writer.old) (W.contents writer.new) }
    ensures memory { IsErrOf result RunError.Memory → Appends (W.contents writer.old) (W.contents writer.new) [] }
    ensures read { IsErrOf result RunError.Read → ⊥ }
{
    let Ok(()) = script.act(begun.bytes(), reply) else {
        return Err(RunError::Memory);
    };
    send(writer, reply.as_bytes())
}

// Writes all bytes, or a beginning of them.
fn send<W: Write>(writer: &mut W, bytes: &[u8]) -> Result<(), RunError>
    ensures ok { OnOk result (Appends (W.contents writer.old) (W.contents writer.new) bytes.now) }
    ensures err { OnErr result ((n : ℕ) × Appends (W.contents writer.old) (W.contents writer.new) (take n bytes.now)) }
    ensures only { IfErr result (λ e. e ≡ RunError.Write) }
{
    let mut at = 0;
    'sending: while at < bytes.len() {
        match writer.write(&bytes[at..]) {
            Ok(0) => return Err(RunError::Write),
            Ok(count) => at += count,
            Err(_) => return Err(RunError::Write),
        }
    }
    Ok(())
}

/// The status that a program ends with after a run, and what it writes to standard error.
pub fn outcome(ended: &Result<(), RunError>) -> (u8, &'static str)
    ensures status { result.0 ≡ status_of ended.now }
    ensures text { result.1.now ≡ complaint_of ended.now }
{
    match ended {
        Ok(()) => (0, ""),
        Err(RunError::Read) => (1, "index_run: read\n"),
        Err(RunError::Write) => (1, "index_run: write\n"),
        Err(RunError::Memory) => (2, "index_run: memory\n"),
    }
}
