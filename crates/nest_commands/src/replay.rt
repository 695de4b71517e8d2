//! The command `replay IN CODE`.
ghost use Rattle.std.specs.Prelude.{◌≡◌, ◌≢◌, Some, None};
ghost use Rattle.cut_desk.specs.Outside.{Later, SameHeld, WhereTold};
ghost use Rattle.nest_commands.specs.Statuses.{RefusesForNoMemory, IsQuiet};
ghost use Rattle.nest_commands.specs.Replays.{WhereBothTold, IsReplayDecided, IsDrawingDecided, IsUnread, HasReplayCause, ReplayOutputIs};

use crate::judging::{ReplayError, verdict_of};
use crate::run::MOST_BYTES;
use crate::status::Status;
use crate::verdict_line::sound_line;
use cut_desk::{Desk, ReadError, print_whole, read_whole};
use replay_check::Verdict;
use std::alloc::Global;

/// Reads the drawing and the code whole, judges the code in memory, and prints the line of sound code.
pub(crate) fn replay<D: Desk>(alloc: Global, desk: &mut D, input: &str, code: &str) -> Status
    ensures words { result ≢ Status.Words }
    ensures decided { WhereBothTold ((D.seen desk.old).held input.now) ((D.seen desk.old).held code.now) (IsReplayDecided result) }
    ensures drawing { WhereTold ((D.seen desk.old).held input.now) (IsDrawingDecided result) }
    ensures absent { (D.seen desk.old).held input.now ≡ Some None → result ≡ Status.ReadFault }
    ensures no_code { (D.seen desk.old).held code.now ≡ Some None →
        WhereTold ((D.seen desk.old).held input.now) (IsUnread result) }
    ensures cause { HasReplayCause result input.now code.now (D.seen desk.old) (D.seen desk.new) }
    ensures refusal { RefusesForNoMemory result }
    ensures output { WhereBothTold ((D.seen desk.old).held input.now) ((D.seen desk.old).held code.now) (λ drawing bytes.
        ReplayOutputIs result drawing bytes (D.seen desk.old) (D.seen desk.new)) }
    ensures files { SameHeld (D.seen desk.old) (D.seen desk.new) }
    ensures quiet { IsQuiet result (D.seen desk.old) (D.seen desk.new) }
    ensures later { Later (D.seen desk.old) (D.seen desk.new) }
{
    let drawing = match read_whole(alloc, desk, input, MOST_BYTES) {
        Ok(drawing) => drawing,
        Err(ReadError::Failed) => return Status::ReadFault,
        Err(ReadError::TooLong) => return Status::TooLong,
        Err(ReadError::OutOfMemory) => return Status::Memory,
    };
    let code = match read_whole(alloc, desk, code, MOST_BYTES) {
        Ok(code) => code,
        Err(ReadError::Failed) => return Status::ReadFault,
        Err(ReadError::TooLong) => return Status::TooLong,
        Err(ReadError::OutOfMemory) => return Status::Memory,
    };
    let verdict = match verdict_of(alloc, &drawing, &code) {
        Ok(verdict) => verdict,
        Err(ReplayError::Refused(refusal)) => return Status::Drawing(refusal),
        Err(ReplayError::Code(fault)) => return Status::Code(fault),
        Err(ReplayError::OutOfMemory) => return Status::Memory,
    };
    let Verdict::Sound { pierces } = verdict else {
        return Status::Unsound(verdict);
    };
    let line = sound_line(pierces);
    if print_whole(desk, line.as_slice()).is_err() {
        return Status::PrintFault;
    }
    Status::Done
}
