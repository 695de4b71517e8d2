//! The lines that are printed for code and for verdicts on it.
ghost use Rattle.std.specs.Prelude.{◌≡◌, ◌≤◌, ◌++◌, length, codes};
ghost use Rattle.replay_check.specs.declared.verdict.Verdict.TheVariants.{Missed, Sound};
ghost use Rattle.nest_commands.specs.FaultText.{code_fault_text, sound_text, judged_text};

use crate::fault_line::refusal_at;
use crate::line::FaultLine;
use code_moves::CodeError;
use nest_base::Point;
use replay_check::Verdict;

/// The line of code that can't be read, without its end.
fn code_fault_line(fault: CodeError) -> FaultLine
    ensures text { result ≡ code_fault_text fault }
    ensures short { length result ≤ 255 }
{
    match fault {
        CodeError::BadLine(line) => refusal_at(b"code", line, b"bad line"),
        CodeError::UnknownWord(line) => refusal_at(b"code", line, b"unknown word"),
        CodeError::TooFar(line) => refusal_at(b"code", line, b"beyond the range"),
        CodeError::NoEnd(line) => refusal_at(b"code", line, b"end missing"),
        CodeError::OutOfMemory => FaultLine::of(b"out of memory"),
    }
}

/// The line of code that can't be read.
pub fn code_line(fault: CodeError) -> FaultLine
    ensures { result ≡ code_fault_text fault ++ codes "\n" }
{
    let mut line = code_fault_line(fault);
    line.put(b"\n");
    line
}

/// The line of sound code, without its end.
fn pierces_line(pierces: u32) -> FaultLine
    ensures text { result ≡ judged_text (Sound pierces) }
    ensures short { length result ≤ 255 }
{
    let mut text = FaultLine::of(b"sound pierces ");
    text.put_number(pierces);
    text
}

/// The line of sound code.
pub fn sound_line(pierces: u32) -> FaultLine
    ensures { result ≡ sound_text pierces }
{
    let mut line = pierces_line(pierces);
    line.put(b"\n");
    line
}

/// The line of an edge that nothing burns, without its end.
fn missed_line(low: Point, high: Point) -> FaultLine
    ensures text { result ≡ judged_text (Missed low high) }
    ensures short { length result ≤ 255 }
{
    let mut text = FaultLine::of(b"unsound edge ");
    text.put_micron(low.x);
    text.put(b" ");
    text.put_micron(low.y);
    text.put(b" to ");
    text.put_micron(high.x);
    text.put(b" ");
    text.put_micron(high.y);
    text.put(b" not burnt");
    text
}

/// The line of a verdict, without its end.
fn judged_line(verdict: Verdict) -> FaultLine
    ensures text { result ≡ judged_text verdict }
    ensures short { length result ≤ 255 }
{
    match verdict {
        Verdict::Sound { pierces } => pierces_line(pierces),
        Verdict::OffDrawing(line) => refusal_at(b"unsound", line, b"off the drawing"),
        Verdict::PartEdge(line) => refusal_at(b"unsound", line, b"not one whole edge"),
        Verdict::Twice(line) => refusal_at(b"unsound", line, b"edge burnt twice"),
        Verdict::BadLead(line) => refusal_at(b"unsound", line, b"lead-in not free"),
        Verdict::Missed(low, high) => missed_line(low, high),
        Verdict::Detached(line) => refusal_at(b"unsound", line, b"detached"),
    }
}

/// The line of a verdict.
pub fn verdict_line(verdict: Verdict) -> FaultLine
    ensures { result ≡ judged_text verdict ++ codes "\n" }
{
    let mut line = judged_line(verdict);
    line.put(b"\n");
    line
}
