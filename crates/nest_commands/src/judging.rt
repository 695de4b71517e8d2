//! From the bytes of a drawing and of code to the verdict, all in memory.
ghost use Rattle.std.specs.Prelude.{◌≡◌, ◌≤◌, length, IfOk, IfErr, None};
ghost use Rattle.nest_base.specs.Limits.{most_bytes};
ghost use Rattle.code_moves.specs.Meaning.{code_refusal_of, moves_of};
ghost use Rattle.ngc_meaning.specs.CodeMoves.{AreCodeMoves};
ghost use Rattle.nest_commands.specs.Replays.{IsJudged};
ghost use Rattle.nest_commands.specs.Reasons.{IsCodeReason, IsReplayReason, replay_error_of};
ghost use Rattle.nest_commands.specs.declared.judging.ReplayError.TheVariants.{OutOfMemory as NoMemory};

use crate::output::{PlanError, drawing_of, edges_of, parts_of};
use crate::status::Refusal;
use code_moves::CodeError;
use face_nesting::Faces;
use half_edges::PlaneGraph;
use nest_base::OutOfMemory;
use ngc_meaning::{Moves, read_code};
use replay_check::{Verdict, replay};
use std::alloc::Global;
use thiserror::Error;

/// Why there is no verdict on code.
#[derive(Debug, Drop, Error)]
pub enum ReplayError {
    #[error("the drawing is refused")]
    Refused(Refusal),
    #[error("the code is refused")]
    Code(CodeError),
    #[error("out of memory")]
    OutOfMemory,
}

impl From<OutOfMemory> for ReplayError {
    ghost from_gives = { λ _ e. e ≡ NoMemory };

    fn from(_: OutOfMemory) -> Self {
        ReplayError::OutOfMemory
    }
}

impl From<PlanError> for ReplayError {
    ghost from_gives = { λ why e. e ≡ replay_error_of why };

    fn from(why: PlanError) -> Self {
        match why {
            PlanError::Refused(refusal) => ReplayError::Refused(refusal),
            PlanError::OutOfMemory => ReplayError::OutOfMemory,
        }
    }
}

/// The moves of code, or why it has none.
fn code_moves(alloc: Global, code: &[u8]) -> Result<Moves, ReplayError>
    requires few { length code.now ≤ most_bytes }
    ensures accepted { IfOk result (λ moves. code_refusal_of code.now ≡ None) }
    ensures moves { IfOk result (λ moves. moves ≡ moves_of code.now) }
    ensures are_moves { IfOk result (λ moves. AreCodeMoves moves) }
    ensures refused { IfErr result (IsCodeReason code.now) }
{
    match read_code(alloc, code) {
        Ok(moves) => Ok(moves),
        Err(CodeError::OutOfMemory) => Err(ReplayError::OutOfMemory),
        Err(fault) => Err(ReplayError::Code(fault)),
    }
}

/// The verdict on code for a drawing, or why there is none. A fault of the drawing is told before one of the code.
pub fn verdict_of(alloc: Global, bytes: &[u8], code: &[u8]) -> Result<Verdict, ReplayError>
    requires few_drawn { length bytes.now ≤ most_bytes }
    requires few_coded { length code.now ≤ most_bytes }
    ensures judged { IfOk result (IsJudged bytes.now code.now) }
    ensures refused { IfErr result (IsReplayReason bytes.now code.now) }
{
    let drawing = drawing_of(alloc, bytes)?;
    let edges = edges_of(alloc, &drawing)?;
    let graph = PlaneGraph::build(alloc, &edges)?;
    let faces = Faces::build(alloc, &graph, &edges)?;
    let parts = parts_of(alloc, &graph, &faces, drawing.names())?;
    let moves = code_moves(alloc, code)?;
    let verdict = replay(alloc, &graph, &faces, &parts, moves.as_slice())?;
    Ok(verdict)
}
