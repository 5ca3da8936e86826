//! What a script writes; readers that cut and fail, writers that fail.

use index_script::run::{RunError, run};
use std::alloc::Global;
use std::io::{self, Read, Write};
use std::process::Abort;
use std::str;

/// The text of an output.
pub fn text_of(bytes: &[u8]) -> &str {
    str::from_utf8(bytes).unwrap_or("not a text")
}

/// A script, and what it writes.
pub type Row = (&'static [u8], &'static str);

/// Runs the scripts of a table, and compares what each writes.
pub fn write_what_is_wanted<R: Abort>(rt: &R, alloc: Global, rows: &[Row]) {
    for (input, wanted) in rows {
        let out = output(alloc, input).expect(rt, "a run to its end");
        assert_eq!(rt; text_of(&out), *wanted, "{input:?}");
    }
}

/// How a run with ample places and slots over a reader ends, and what it writes.
pub fn read_from<T: Read + Drop>(alloc: Global, reader: T) -> (Result<(), RunError>, Vec<u8>) {
    let mut reader = reader;
    let mut out = Vec::new(alloc);
    let ended = run::<64, _, _>(alloc, &mut reader, &mut out, 16, 4096);
    (ended, out)
}

/// Looks that it changes nothing where the input is cut.
pub fn is_cut_anywhere<R: Abort>(rt: &R, alloc: Global, row: Row) {
    let (input, wanted) = row;
    for cut in 0..input.len() {
        let (ended, out) = read_from(
            alloc,
            Cut {
                input,
                given: 0,
                cut,
            },
        );
        assert_eq!(rt; (ended, text_of(&out)), (Ok(()), wanted), "cut at {cut}");
    }
}

/// How many bytes the replies to the complete lines of a beginning of the input have, by the bytes of each reply.
fn answered(input: &[u8], at: usize, replies: &[usize]) -> usize {
    let begun = input.get(..at).unwrap_or(b"");
    let lines = begun.iter().filter(|byte| **byte == b'\n').count();
    let mut bytes = 0usize;
    for reply in replies.iter().take(lines) {
        bytes = bytes.saturating_add(*reply);
    }
    bytes
}

/// Looks that a failed read drops the begun line, wherever it is, where the replies have this many bytes each.
pub fn fails_anywhere<R: Abort>(
    rt: &R,
    alloc: Global,
    row: Row,
    replies: &[usize],
    kind: io::ErrorKind,
) {
    let (input, whole) = row;
    for at in 0..input.len() {
        let (ended, out) = read_from(
            alloc,
            Fails {
                input,
                given: 0,
                at,
                kind,
            },
        );
        let wanted = whole.get(..answered(input, at, replies));
        assert_eq!(rt;
            (ended, Some(text_of(&out))),
            (Err(RunError::Read), wanted),
            "at {at}"
        );
    }
}

/// Looks that a failed write leaves a beginning of the output, wherever it is.
pub fn falters_anywhere<R: Abort>(rt: &R, alloc: Global, row: Row, is_error: bool) {
    let (input, whole) = row;
    for at in 0..whole.len() {
        let mut reader = input;
        let mut writer = Falters {
            taken: Vec::new(alloc),
            at,
            is_error,
        };
        let ended = run::<64, _, _>(alloc, &mut reader, &mut writer, 16, 4096);
        let told = Some(text_of(&writer.taken));
        assert_eq!(rt;
            (ended, told),
            (Err(RunError::Write), whole.get(..at)),
            "at {at}"
        );
    }
}

/// What a script of two places writes, or why it ended before.
pub fn output(alloc: Global, input: &[u8]) -> Result<Vec<u8>, RunError> {
    let mut reader = input;
    let mut out = Vec::new(alloc);
    run::<64, _, _>(alloc, &mut reader, &mut out, 2, 16)?;
    Ok(out)
}

/// What a script writes that consists of these parts.
pub fn output_of(alloc: Global, parts: &[&[u8]]) -> Result<Vec<u8>, RunError> {
    let mut script = Vec::new(alloc);
    for part in parts {
        if script.extend_from_slice(part).is_err() {
            return Err(RunError::Memory);
        }
    }
    output(alloc, &script)
}

/// Gives the bytes of its input before the cut, and then the others.
#[derive(Drop)]
pub struct Cut {
    pub input: &'static [u8],
    pub given: usize,
    pub cut: usize,
}

impl Read for Cut {
    fn read(&mut self, buf: &mut [u8]) -> io::Result<usize> {
        let rest = self.input.get(self.given..).unwrap_or(b"");
        let front = rest
            .get(..self.cut.saturating_sub(self.given))
            .unwrap_or(b"");
        let mut part = if front.is_empty() { rest } else { front };
        let count = part.read(buf)?;
        self.given = self.given.saturating_add(count);
        Ok(count)
    }
}

/// Gives one byte at a time, and fails so once as many are given as `at` says.
#[derive(Drop)]
pub struct Fails {
    pub input: &'static [u8],
    pub given: usize,
    pub at: usize,
    pub kind: io::ErrorKind,
}

impl Read for Fails {
    fn read(&mut self, buf: &mut [u8]) -> io::Result<usize> {
        if self.given == self.at {
            self.at = usize::MAX;
            return Err(self.kind.into());
        }
        match (self.input.get(self.given), buf.first_mut()) {
            (Some(byte), Some(place)) => {
                *place = *byte;
                self.given = self.given.saturating_add(1);
                Ok(1)
            }
            _ => Ok(0),
        }
    }
}

/// Takes one byte at a time, and once as many are taken as `at` says, it fails, or takes none.
#[derive(Drop)]
pub struct Falters {
    pub taken: Vec<u8>,
    pub at: usize,
    pub is_error: bool,
}

impl Write for Falters {
    fn write(&mut self, buf: &[u8]) -> io::Result<usize> {
        let Some(byte) = buf.first() else {
            return Ok(0);
        };
        if self.taken.len() == self.at {
            return if self.is_error {
                Err(io::ErrorKind::Other.into())
            } else {
                Ok(0)
            };
        }
        Ok(if self.taken.push(*byte).is_ok() { 1 } else { 0 })
    }

    fn flush(&mut self) -> io::Result<()> {
        Ok(())
    }
}
