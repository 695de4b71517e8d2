//! A stored run of the planner over a drawing that is refused: it has to print this line, and end with this status.
#![tactic(auto)]

use cut_desk::RealDesk;
use nest_commands::run_process;
use std::env;
use std::process::ExitCode;

fn main(rt: HostRuntime) -> ExitCode {
    run_process(rt.alloc(), env::args(&rt), &mut RealDesk::new(rt))
}
