//! The program: `plan IN OUT` reads a drawing, writes the code that burns it and prints the report.
//!
//! It runs its words over real files and standard output, and ends with the exit code of the status. What each word means and what
//! stands after each status is promised by `nest_commands`.
#![tactic(auto)]

use cut_desk::RealDesk;
use nest_commands::run_process;
use std::env;
use std::process::ExitCode;

fn main(rt: HostRuntime) -> ExitCode {
    run_process(rt.alloc(), env::args(&rt), &mut RealDesk::new(rt))
}
