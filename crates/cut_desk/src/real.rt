//! The desk over real files and standard output: the trusted edge of the planner.
ghost use Rattle.std.specs.Prelude.{◌≡◌, ◌≤◌, IfOk, length};
ghost use Rattle.std.specs.Result.{result_ok};
ghost use Rattle.cut_desk.specs.Outside.{IsTaken, untold};
ghost use Rattle.cut_desk.specs.System.{faults_after};

use crate::desk::{Desk, Failed};
use crate::opened::Opened;
use crate::system;
use std::io::{self, Write};
use std::marker::Model;
use std::rt::Files;

/// Files and standard output of a runtime, and the one count of their faults.
///
/// It tells nothing of what files hold and of what was printed, since other programs write there too. An error of the system
/// is a fault, and so is a write or a print that takes no byte of a piece that isn't empty.
#[derive(Drop)]
pub struct RealDesk<R: Files + Print + Drop> {
    runtime: R,
    /// The file of the last read.
    opened: Option<Opened<R::File>>,
    fault_count: u64,
}

impl<R: Files + Print + Drop> Model for RealDesk<R> {
    ghost use Rattle.std.specs.Prelude.{ℕ};

    ghost Value = { ℕ };

    ghost view = { λ d. d.fault_count };
}

impl<R: Files + Print + Drop> RealDesk<R> {
    /// The desk over the files and the standard output of a runtime. It takes no memory.
    pub fn new(runtime: R) -> RealDesk<R>
        ensures { result ≡ 0 }
    {
        RealDesk {
            runtime,
            opened: None,
            fault_count: 0,
        }
    }

    /// What a call of the system answers, as a desk's; an error is counted.
    fn answer(&mut self, call: io::Result<usize>) -> Result<usize, Failed>
        ensures count { result_ok result ≡ result_ok call }
        ensures faults { self.new ≡ faults_after self.old call }
        ensures grows { self.old ≤ self.new }
    {
        match call {
            Ok(count) => Ok(count),
            Err(_) => {
                self.fault_count = self.fault_count.saturating_add(1);
                Err(Failed)
            }
        }
    }
}

impl<R: Files + Print + Drop> Desk for RealDesk<R> {
    ghost seen = { untold };

    /// Opens the file anew at place 0, and keeps it open. Above 0 a read goes on in the open file, where that has this name
    /// of at most 4,096 bytes; else it opens the file of the name anew.
    ///
    /// So one drawing isn't mixed from two, where another file takes its name in between.
    fn read(&mut self, name: &str, at: u64, into: &mut [u8]) -> Result<usize, Failed>
        ensures count { IfOk result (λ count. count ≤ length into.new) }
        ensures faults { self.new ≡ faults_after self.old result }
        ensures grows { self.old ≤ self.new }
    {
        let call = system::read_some(&self.runtime, &mut self.opened, name, at, into);
        self.answer(call)
    }

    /// Opens the file, writes once and cuts it where the bytes end that were taken. At place 0 an absent file is made.
    ///
    /// Where no byte was taken, a file that was there stays as it was, and of an absent one an empty file may be made.
    /// Where the bytes were taken and the file isn't cut, which is a fault too, what stood behind them still stands there.
    fn write(&mut self, name: &str, at: u64, piece: &[u8]) -> Result<usize, Failed>
        ensures count { IfOk result (λ count. IsTaken count piece.now) }
        ensures faults { self.new ≡ faults_after self.old result }
        ensures grows { self.old ≤ self.new }
    {
        let call = system::write_some(&self.runtime, name, at, piece);
        self.answer(call)
    }

    /// Prints to the standard output, with no buffer.
    fn print(&mut self, piece: &[u8]) -> Result<usize, Failed>
        ensures count { IfOk result (λ count. IsTaken count piece.now) }
        ensures faults { self.new ≡ faults_after self.old result }
        ensures grows { self.old ≤ self.new }
    {
        let call = system::taken(io::writer(&self.runtime).write(piece), piece);
        self.answer(call)
    }
}
