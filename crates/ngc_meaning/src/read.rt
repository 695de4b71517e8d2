//! Whole codes.
ghost use Rattle.std.specs.Prelude.{◌≡◌, ◌≤◌, ◌++◌, [], ◌^◌, length, IfOk, IfErr, OnOk, OnErr, ◌∷◌, None};
ghost use Rattle.code_moves.specs.Meaning.{code_refusal_of, moves_of, error_at};
ghost use Rattle.ngc_meaning.specs.CodeMoves.{AreCodeMoves};
ghost use Rattle.ngc_meaning.specs.Machines.{listed};
ghost use Rattle.ngc_meaning.specs.Refusals.{IsRefusalOf};

use crate::machine::{Machine, Stepped};
use crate::text::split_line;
use code_moves::{CodeError, CodeFault, Move};
use nest_base::OutOfMemory;
use std::alloc::Global;
use std::marker::Model;

/// The moves of a code, in order.
#[derive(Drop)]
pub struct Moves {
    list: Vec<Move>,
}

impl Model for Moves {
    ghost use Rattle.std.specs.Prelude.{List};
    ghost use Rattle.code_moves.specs.declared.moves.Move.{Move};

    ghost Value = { List Move };

    ghost view = { λ m. m.list.items };
}

impl Moves {
    /// No moves. No memory is taken.
    fn new(alloc: Global) -> Moves
        ensures { result ≡ [] }
    {
        Moves {
            list: Vec::new(alloc),
        }
    }

    /// Adds a move at the end.
    fn push(&mut self, step: Move) -> Result<(), OutOfMemory>
        ensures ok { OnOk result (self.new ≡ self.old ++ step ∷ []) }
        ensures err { OnErr result (self.new ≡ self.old) }
    {
        self.list.push(step)?;
        Ok(())
    }

    /// Adds what a line did: its closing move, and then its other one.
    fn append(&mut self, stepped: &Stepped) -> Result<(), OutOfMemory>
        ensures { OnOk result (self.new ≡ self.old ++ listed stepped.now.closing ++ listed stepped.now.made) }
    {
        if let Some(closing) = stepped.closing {
            self.push(closing)?;
        }
        if let Some(made) = stepped.made {
            self.push(made)?;
        }
        Ok(())
    }

    /// The moves, in order.
    pub fn as_slice(&self) -> &[Move]
        ensures { result.now ≡ self.now }
    {
        self.list.as_slice()
    }
}

/// A fault with the number of its line.
fn at_line(fault: CodeFault, line: u32) -> CodeError
    ensures { result ≡ error_at fault line }
{
    match fault {
        CodeFault::BadLine => CodeError::BadLine(line),
        CodeFault::UnknownWord => CodeError::UnknownWord(line),
        CodeFault::TooFar => CodeError::TooFar(line),
    }
}

/// The moves of a code of at most 2^26 bytes, after RS274/NGC; or the first fault that it has before its end, with the line's number.
///
/// `OutOfMemory` says nothing of the code.
pub fn read_code(alloc: Global, bytes: &[u8]) -> Result<Moves, CodeError>
    requires { length bytes.now ≤ 2 ^ 26 }
    ensures accepted { IfOk result (λ moves. code_refusal_of bytes.now ≡ None) }
    ensures moves { IfOk result (λ moves. moves ≡ moves_of bytes.now) }
    ensures are_moves { IfOk result (λ moves. AreCodeMoves moves) }
    ensures refused { IfErr result (λ e. IsRefusalOf bytes.now e) }
{
    let mut moves = Moves::new(alloc);
    let mut machine = Machine::new();
    let mut rest = bytes;
    'lines: loop {
        let number = machine.lines() + 1;
        let Some((line, next)) = split_line(rest) else {
            return Err(CodeError::NoEnd(number));
        };
        let stepped = machine.step(line);
        if let Some(fault) = stepped.fault {
            return Err(at_line(fault, number));
        }
        if moves.append(&stepped).is_err() {
            return Err(CodeError::OutOfMemory);
        }
        if stepped.ended {
            return Ok(moves);
        }
        rest = next;
    }
}
