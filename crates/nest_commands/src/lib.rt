//! The planner's commands: `plan IN OUT` reads a drawing, writes the code that burns it and prints the report. `replay IN CODE` says
//! whether code cuts a drawing soundly, or where it's at fault.
//!
//! `run` is the top call, over any outside: it reads the words, reads and plans the drawing in memory, and only then touches
//! OUT and prints; or reads and judges code, and prints the verdict. What stands after each status is promised by its contract. `run_process` takes the words from the arguments of a
//! process and ends with the status's code; a program is one call of it.
#![tactic(auto)]

pub mod fault_line;
pub mod judging;
pub mod laws;
pub mod line;
pub mod output;
pub mod process;
pub mod replay;
pub mod run;
pub mod status;
#[cfg(test)]
mod tests;
pub mod verdict_line;
pub mod words;

pub use process::run_process;
pub use status::{Refusal, Status};
