//! The outside of the planner as one trait: files by name, and what is printed.
//!
//! A `Desk` may tell what its files hold and what it has printed, or tell nothing. Each of its calls can fail, and then a
//! count of its own has risen, so that every answer above which speaks of a fault has its cause. A read or a write of a whole
//! file takes **O(n)** bytes moved for n bytes of the file, and one call for each piece that the desk takes or gives.
//!
//! The program reads its drawing, writes its code and prints its lines through this trait. `RealDesk` stands on files and
//! standard output, and keeps the file of its last read open. `MemoryDesk` holds everything in memory and fails where it is
//! told to; each of its calls looks through its m names and k numbers of failing calls, **O(m + k)**.
#![tactic(auto)]

pub mod desk;
pub mod memory;
mod opened;
pub mod real;
mod slot;
mod system;
#[cfg(test)]
mod tests;
pub mod whole;

pub use desk::{Desk, Failed};
pub use memory::MemoryDesk;
pub use real::RealDesk;
pub use whole::{ReadError, print_whole, read_whole, write_whole};
