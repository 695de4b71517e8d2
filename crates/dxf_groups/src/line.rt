//! One line, as far as it has come.
ghost use Rattle.std.specs.Prelude.{◌≡◌, [], ◌∷◌, ◌++◌, not, IfOk, nat_eq, length};
ghost use Rattle.std.specs.Bool.{OnTrue, OnFalse};
ghost use Rattle.std.specs.Str.Lines.{strip_carriage_return};
ghost use Rattle.dxf_groups.specs.Pairs.{is_too_long};

use crate::step::LONGEST;
use nest_base::OutOfMemory;
use std::alloc::Global;
use std::marker::Model;

/// The bytes of a line, in memory that is taken once: for the longest line, and a CR that may belong to its end.
#[derive(Drop)]
pub struct Line {
    bytes: Vec<u8>,
}

impl Model for Line {
    ghost use Rattle.std.specs.Prelude.{◌≤◌, List, ℕ, vec_len, vec_capacity};

    ghost Value = { List ℕ };

    ghost view = { λ l. l.bytes.items };

    ghost invariant = { λ l. (vec_len l.bytes ≤ 4097) × (4097 ≤ vec_capacity l.bytes) };
}

impl Line {
    /// An empty line. It takes all memory that it will need.
    pub fn new(alloc: Global) -> Result<Line, OutOfMemory>
        ensures { IfOk result (λ line. line ≡ []) }
    {
        let bytes = Vec::with_capacity(alloc, LONGEST + 1)?;
        Ok(Line { bytes })
    }

    /// Adds a byte, and answers `true`; or answers `false` where the line would be too long, whatever follows. It takes no memory.
    pub fn push(&mut self, byte: u8) -> bool
        ensures fits { result ≡ not (is_too_long (strip_carriage_return (self.old ++ byte ∷ []))) }
        ensures longer { OnTrue result (self.new ≡ self.old ++ byte ∷ []) }
        ensures same { OnFalse result (self.new ≡ self.old) }
    {
        let is_full = self.bytes.len() > LONGEST;
        if is_full || self.bytes.len() == LONGEST && byte != b'\r' {
            return false;
        }
        self.bytes.push(byte).unwrap();
        true
    }

    /// Drops the one CR at the end, where there is one: it belongs to the end of the line.
    pub fn strip(&mut self)
        ensures { self.new ≡ strip_carriage_return self.old }
    {
        if self.bytes.last() == Some(&b'\r') {
            self.bytes.pop();
        }
    }

    /// Makes the line empty, and keeps its memory.
    pub fn clear(&mut self)
        ensures { self.new ≡ [] }
    {
        self.bytes.clear();
    }

    /// Whether the line has no byte.
    pub fn is_empty(&self) -> bool
        ensures { result ≡ nat_eq (length self.now) 0 }
    {
        self.bytes.is_empty()
    }

    /// The bytes.
    pub fn as_slice(&self) -> &[u8]
        ensures { result.now ≡ self.now }
    {
        self.bytes.as_slice()
    }
}
