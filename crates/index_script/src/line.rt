//! Lines, as their bytes are read.

ghost use Rattle.std.specs.Prelude.{◌≡◌, ◌++◌, ◌∷◌, [], None, Some, List, ℕ, IfSome, IfNone, OnOk, IsTrue, ◌↔◌};
ghost use Rattle.std.specs.Option.{option_map};
ghost use Rattle.index_script.specs.Lines.{Lacks, kept};

use std::alloc::{AllocError, Global};
use std::marker::Model;

/// How many bytes a line may have, without its LF.
pub const LONGEST: usize = 65_536;

/// What was read of a line so far. Contracts see it as the bytes, or as none where they are more than a
/// line may have: then they aren't kept.
#[derive(Drop)]
pub struct Begun {
    bytes: Vec<u8>,
    long: bool,
}

/// Invariant: what is begun has at most 65,536 bytes.
impl Model for Begun {
    ghost use Rattle.std.specs.Prelude.{List, Option, ℕ, cond, None, Some, length, ◌≤◌};

    ghost Value = { Option (List ℕ) };

    ghost view = { λ b. cond b.long None (Some b.bytes.items) };

    ghost invariant = { λ b. length b.bytes.items ≤ 65536 };
}

impl Begun {
    /// A line of which nothing was read yet.
    pub fn new(alloc: Global) -> Self
        ensures { result ≡ kept [] }
    {
        Begun {
            bytes: Vec::new(alloc),
            long: false,
        }
    }

    /// Adds what comes next. Fails only if an allocation fails; a line that is longer than it may be
    /// allocates nothing.
    pub fn extend(&mut self, part: &[u8]) -> Result<(), AllocError>
        ensures { OnOk result ((line : List ℕ) → self.old ≡ kept line → self.new ≡ kept (line ++ part.now)) }
    {
        if self.long {
            return Ok(());
        }
        if part.len() > LONGEST - self.bytes.len() {
            self.long = true;
            self.bytes.clear();
            return Ok(());
        }
        self.bytes.extend_from_slice(part)
    }

    /// Begins another line, in the memory of this one.
    pub fn clear(&mut self)
        ensures { self.new ≡ kept [] }
    {
        self.bytes.clear();
        self.long = false;
    }

    /// The bytes, but of a line that is longer than it may be.
    pub fn bytes(&self) -> Option<&[u8]>
        ensures { option_map (λ b. b.now) result ≡ self.now }
    {
        if self.long {
            None
        } else {
            Some(self.bytes.as_slice())
        }
    }

    /// Whether nothing was read yet.
    pub fn is_empty(&self) -> bool
        ensures { IsTrue result ↔ (self.now ≡ kept []) }
    {
        !self.long && self.bytes.is_empty()
    }
}

/// The bytes before the first LF, and the bytes behind it.
pub fn split_line(bytes: &[u8]) -> Option<(&[u8], &[u8])>
    ensures some { IfSome result (λ parts. (bytes.now ≡ parts.0.now ++ 10 ∷ parts.1.now) × Lacks 10 parts.0.now) }
    ensures none { IfNone result (Lacks 10 bytes.now) }
{
    let at = bytes.iter().position(|byte| *byte == b'\n')?;
    Some((&bytes[..at], &bytes[at + 1..]))
}
