//! A stored run of the planner that prints the code behind the report: what is written to OUT has to stand there.
#![tactic(auto)]

use cut_desk::{RealDesk, print_whole, read_whole};
use nest_commands::run_process;
use std::env;
use std::process::ExitCode;

/// The most bytes that are printed.
const MOST_BYTES: u64 = 4096;

fn main(rt: HostRuntime) -> ExitCode {
    let alloc = rt.alloc();
    let args = env::args(&rt);
    let mut desk = RealDesk::new(rt);
    let code = run_process(alloc, args, &mut desk);
    let Ok(written) = read_whole(alloc, &mut desk, "a.ngc", MOST_BYTES) else {
        return ExitCode::FAILURE;
    };
    match print_whole(&mut desk, &written) {
        Ok(()) => code,
        Err(_) => ExitCode::FAILURE,
    }
}
