//! From the arguments of a process to its exit code.
ghost use Rattle.std.specs.Prelude.{◌≡◌, [], IfOk, IfErr, drop, map, string_bytes};
ghost use Rattle.std.specs.Process.{exit_status};
ghost use Rattle.std.specs.Vec.Iter.{into_iter_items};
ghost use Rattle.nest_commands.specs.Runs.{EndsAs};

use crate::run::run;
use crate::status::Status;
use cut_desk::Desk;
use std::alloc::{AllocError, Global};
use std::process::ExitCode;
use std::{env, io};

/// The words after the program's own name, all of them and in order. A word that is no text stands in no table of commands: then there
/// are none.
fn words_of(alloc: Global, args: io::Result<env::Args>) -> Result<Vec<String>, AllocError>
    ensures all { IfOk result (λ words. IfOk args (λ args. words.items ≡ drop 1 (into_iter_items args))) }
    ensures no_text { IfOk result (λ words. IfErr args (λ _. words.items ≡ [])) }
{
    match args {
        Ok(args) => args.skip(1).collect(alloc),
        Err(error) if error.kind() == io::ErrorKind::InvalidData => Ok(Vec::new(alloc)),
        Err(_) => Err(AllocError),
    }
}

/// Runs the words of a process once, and ends with the exit code of the status. Where there is no memory for the words it does nothing,
/// and ends with that of want of memory.
pub fn run_process<D: Desk>(alloc: Global, args: io::Result<env::Args>, desk: &mut D) -> ExitCode
    ensures ends { IfOk args (λ args. EndsAs (map string_bytes (drop 1 (into_iter_items args))) (exit_status result) (D.seen desk.old) (D.seen desk.new)) }
    ensures no_text { IfErr args (λ _. EndsAs [] (exit_status result) (D.seen desk.old) (D.seen desk.new)) }
{
    match words_of(alloc, args) {
        Ok(words) => ExitCode::from(run(alloc, &words, desk).code()),
        Err(_) => ExitCode::from(Status::Memory.code()),
    }
}
