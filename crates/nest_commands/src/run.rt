//! The top call.
ghost use Rattle.std.specs.Prelude.{◌≡◌, ◌≢◌, ◌↔◌, Some, None, map, string_bytes, IfSome, IfNone};
ghost use Rattle.cut_desk.specs.Outside.{Later, SameHeld, WhereTold};
ghost use Rattle.nest_commands.specs.Words.{plan_of, replay_of};
ghost use Rattle.nest_commands.specs.Statuses.{IsDecided, HasCause, NoFaultRose, IsComplete, FilesAre, KeepsPromise, KeepsFewestWhereEven, RefusesForNoMemory, OutputIs, IsQuiet, IsFaultLine, PrintsLine};
ghost use Rattle.nest_commands.specs.Replays.{WhereBothTold, IsReplayDecided, IsDrawingDecided, IsUnread, HasReplayCause, NoReplayFaultRose, IsReplayComplete, IsFoundSound, IsFoundUnsound, ReplayOutputIs};
ghost use Rattle.replay_check.specs.declared.verdict.Verdict.{Verdict};

use crate::fault_line::fault_line;
use crate::output::{PlanError, output_of};
use crate::replay::replay;
use crate::status::Status;
use crate::words::{plan_words, replay_words};
use cut_desk::{Desk, ReadError, print_whole, read_whole, write_whole};
use std::alloc::Global;

/// How many bytes a drawing may have, and code that is read.
pub(crate) const MOST_BYTES: u64 = 67_108_864;

/// Reads the drawing whole, plans it in memory, writes the code and prints the report.
fn plan<D: Desk>(alloc: Global, desk: &mut D, input: &str, output: &str) -> Status
    ensures words { result ≢ Status.Words }
    ensures decided { WhereTold ((D.seen desk.old).held input.now) (IsDecided result) }
    ensures absent { (D.seen desk.old).held input.now ≡ Some None → result ≡ Status.ReadFault }
    ensures cause { HasCause result input.now output.now (D.seen desk.old) (D.seen desk.new) }
    ensures refusal { RefusesForNoMemory result }
    ensures output { WhereTold ((D.seen desk.old).held input.now) (λ drawing.
        OutputIs result drawing output.now (D.seen desk.old) (D.seen desk.new)) }
    ensures files { FilesAre result output.now (D.seen desk.old) (D.seen desk.new) }
    ensures quiet { IsQuiet result (D.seen desk.old) (D.seen desk.new) }
    ensures later { Later (D.seen desk.old) (D.seen desk.new) }
{
    let drawing = match read_whole(alloc, desk, input, MOST_BYTES) {
        Ok(drawing) => drawing,
        Err(ReadError::Failed) => return Status::ReadFault,
        Err(ReadError::TooLong) => return Status::TooLong,
        Err(ReadError::OutOfMemory) => return Status::Memory,
    };
    let planned = match output_of(alloc, &drawing) {
        Ok(planned) => planned,
        Err(PlanError::Refused(refusal)) => return Status::Drawing(refusal),
        Err(PlanError::OutOfMemory) => return Status::Memory,
    };
    if write_whole(desk, output, planned.code.as_slice()).is_err() {
        return Status::WriteFault;
    }
    if print_whole(desk, planned.report.as_slice()).is_err() {
        return Status::PrintFault;
    }
    Status::Done
}

/// Prints the line of a status. Where that fails, the status stays.
fn print_fault_line<D: Desk>(desk: &mut D, status: &Status)
    ensures line { IsFaultLine status.now (D.seen desk.old) (D.seen desk.new) }
    ensures files { SameHeld (D.seen desk.old) (D.seen desk.new) }
    ensures later { Later (D.seen desk.old) (D.seen desk.new) }
{
    let line = fault_line(status);
    let _ = print_whole(desk, line.as_slice());
}

/// Runs the words, those after the program's own name: `plan IN OUT` or `replay IN CODE`.
///
/// `plan` reads IN to its end and plans it in memory before it touches OUT, and writes OUT before it prints anything. `replay` reads IN
/// and CODE to their ends, judges the code in memory, and changes no file. Every status but `Done` and `PrintFault` prints its line.
/// Want of memory may come in place of any other answer to a command.
pub fn run<D: Desk>(alloc: Global, words: &[String], desk: &mut D) -> Status
    // Which answer comes to a plan, and why.
    ensures words { (result ≡ Status.Words) ↔
        ((plan_of (map string_bytes words.now) ≡ None) × (replay_of (map string_bytes words.now) ≡ None)) }
    ensures decided { IfSome (plan_of (map string_bytes words.now)) (λ f.
        WhereTold ((D.seen desk.old).held f.input) (IsDecided result)) }
    ensures absent { IfSome (plan_of (map string_bytes words.now)) (λ f.
        (D.seen desk.old).held f.input ≡ Some None → result ≡ Status.ReadFault) }
    ensures cause { IfSome (plan_of (map string_bytes words.now)) (λ f.
        HasCause result f.input f.output (D.seen desk.old) (D.seen desk.new)) }
    ensures complete { IfSome (plan_of (map string_bytes words.now)) (λ f.
        NoFaultRose f.input f.output (D.seen desk.old) (D.seen desk.new) →
        WhereTold ((D.seen desk.old).held f.input) (IsComplete result)) }

    // Want of memory is no refusal, whatever the outside tells of the drawing, and sound code isn't called unsound.
    ensures refusal { RefusesForNoMemory result }

    // What a planned drawing gives.
    ensures headline { IfSome (plan_of (map string_bytes words.now)) (λ f. result ≡ Status.Done →
        WhereTold ((D.seen desk.old).held f.input) (λ drawing.
        KeepsPromise drawing f.output (D.seen desk.old) (D.seen desk.new))) }
    ensures even { IfSome (plan_of (map string_bytes words.now)) (λ f. result ≡ Status.Done →
        WhereTold ((D.seen desk.old).held f.input) (λ drawing.
        KeepsFewestWhereEven drawing f.output (D.seen desk.old) (D.seen desk.new))) }

    // What stands after each answer.
    ensures output { IfSome (plan_of (map string_bytes words.now)) (λ f.
        WhereTold ((D.seen desk.old).held f.input) (λ drawing.
        OutputIs result drawing f.output (D.seen desk.old) (D.seen desk.new))) }
    ensures files { IfSome (plan_of (map string_bytes words.now)) (λ f.
        FilesAre result f.output (D.seen desk.old) (D.seen desk.new)) }

    // Which answer comes to a replay, and why.
    ensures replay_decided { IfSome (replay_of (map string_bytes words.now)) (λ f.
        WhereBothTold ((D.seen desk.old).held f.input) ((D.seen desk.old).held f.code) (IsReplayDecided result)) }
    ensures replay_drawing { IfSome (replay_of (map string_bytes words.now)) (λ f.
        WhereTold ((D.seen desk.old).held f.input) (IsDrawingDecided result)) }
    ensures replay_absent { IfSome (replay_of (map string_bytes words.now)) (λ f.
        (D.seen desk.old).held f.input ≡ Some None → result ≡ Status.ReadFault) }
    ensures replay_no_code { IfSome (replay_of (map string_bytes words.now)) (λ f.
        (D.seen desk.old).held f.code ≡ Some None → WhereTold ((D.seen desk.old).held f.input) (IsUnread result)) }
    ensures replay_cause { IfSome (replay_of (map string_bytes words.now)) (λ f.
        HasReplayCause result f.input f.code (D.seen desk.old) (D.seen desk.new)) }
    ensures replay_complete { IfSome (replay_of (map string_bytes words.now)) (λ f.
        NoReplayFaultRose f.input f.code (D.seen desk.old) (D.seen desk.new) →
        WhereBothTold ((D.seen desk.old).held f.input) ((D.seen desk.old).held f.code) (IsReplayComplete result)) }

    // What the verdict means.
    ensures replay_sound { IfSome (replay_of (map string_bytes words.now)) (λ f. result ≡ Status.Done →
        WhereBothTold ((D.seen desk.old).held f.input) ((D.seen desk.old).held f.code) (λ drawing code.
        IsFoundSound drawing code (D.seen desk.old) (D.seen desk.new))) }
    ensures replay_unsound { IfSome (replay_of (map string_bytes words.now)) (λ f.
        (verdict : Verdict) → result ≡ Status.Unsound verdict →
        WhereBothTold ((D.seen desk.old).held f.input) ((D.seen desk.old).held f.code) IsFoundUnsound) }

    // What stands after each answer.
    ensures replay_output { IfSome (replay_of (map string_bytes words.now)) (λ f.
        WhereBothTold ((D.seen desk.old).held f.input) ((D.seen desk.old).held f.code) (λ drawing code.
        ReplayOutputIs result drawing code (D.seen desk.old) (D.seen desk.new))) }
    ensures replay_files { IfSome (replay_of (map string_bytes words.now)) (λ f. SameHeld (D.seen desk.old) (D.seen desk.new)) }
    ensures no_files { IfNone (plan_of (map string_bytes words.now)) (IfNone (replay_of (map string_bytes words.now))
        (SameHeld (D.seen desk.old) (D.seen desk.new))) }
    ensures line { PrintsLine result (D.seen desk.old) (D.seen desk.new) }
{
    if let Some(files) = plan_words(words) {
        let status = plan(alloc, desk, files.input, files.output);
        if !matches!(status, Status::Done | Status::PrintFault) {
            print_fault_line(desk, &status);
        }
        return status;
    }
    if let Some(files) = replay_words(words) {
        let status = replay(alloc, desk, files.input, files.code);
        if !matches!(status, Status::Done | Status::PrintFault) {
            print_fault_line(desk, &status);
        }
        return status;
    }
    print_fault_line(desk, &Status::Words);
    Status::Words
}
