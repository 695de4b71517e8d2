//! The trait of the outside.
ghost use Rattle.std.specs.Prelude.{◌≡◌, ◌<◌, ◌≤◌, length, take, IfOk, OnErr, IsErr, Some, None};
ghost use Rattle.cut_desk.specs.Outside.{Outside, Rose, Later, SameHeld, SameFiles, SameOthers, WhereTold, IsPiece, IsEnd, IsTaken, after_write, print_more};

use thiserror::Error;

/// A call of a desk failed, and its count of faults rose.
#[derive(Clone, Copy, Debug, PartialEq, Eq, Drop, Error)]
#[error("the desk failed")]
pub struct Failed;

/// Files by name, and a place to print.
///
/// A desk tells what a file holds and what was printed, or it tells nothing of them; no call changes whether it does. Each
/// call has a count of faults: a read and a write that of their kind and name, a print its own. No call lowers a count.
pub trait Desk {
    /// What the desk shows.
    ghost seen: { Self → Outside };

    /// Copies bytes of a file, from the place `at` on, to the front of `into`, and answers how many.
    ///
    /// `Ok(0)` for an `into` that isn't empty means that the file ends at `at` or before. An absent name is `Failed`, and
    /// `Failed` comes only where the name's count of read faults rose.
    fn read(&mut self, name: &str, at: u64, into: &mut [u8]) -> Result<usize, Failed>
        ensures count { IfOk result (λ count. count ≤ length into.new) }
        ensures piece { IfOk result (λ count. WhereTold ((seen self.old).held name.now) (λ file. IsPiece file at into.new count)) }
        ensures absent { (seen self.old).held name.now ≡ Some None → IsErr result }
        ensures cause { OnErr result (Rose ((seen self.old).read_faults name.now) ((seen self.new).read_faults name.now)) }
        ensures same { SameFiles (seen self.old) (seen self.new) }
        ensures later { Later (seen self.old) (seen self.new) };

    /// Writes the front of a piece at the place `at` of a file, and answers how many bytes were taken.
    ///
    /// At 0 the file is made anew. Any other place has to be the end of the file. At least one byte of a piece that isn't
    /// empty is taken. `Failed` comes only where the name's count of write faults rose, and then nothing has changed.
    fn write(&mut self, name: &str, at: u64, piece: &[u8]) -> Result<usize, Failed>
        requires { 0 < at → IsEnd ((seen self.old).held name.now) at }
        ensures count { IfOk result (λ count. IsTaken count piece.now) }
        ensures ok { IfOk result (λ count. (seen self.new).held name.now ≡ after_write ((seen self.old).held name.now) at (take count piece.now)) }
        ensures err { OnErr result (SameFiles (seen self.old) (seen self.new)) }
        ensures cause { OnErr result (Rose ((seen self.old).write_faults name.now) ((seen self.new).write_faults name.now)) }
        ensures others { SameOthers name.now (seen self.old) (seen self.new) }
        ensures later { Later (seen self.old) (seen self.new) };

    /// Prints the front of a piece, and answers how many bytes were taken.
    ///
    /// At least one byte of a piece that isn't empty is taken. `Failed` comes only where the count of print faults rose, and
    /// then nothing was printed.
    fn print(&mut self, piece: &[u8]) -> Result<usize, Failed>
        ensures count { IfOk result (λ count. IsTaken count piece.now) }
        ensures ok { IfOk result (λ count. (seen self.new).printed ≡ print_more (seen self.old).printed (take count piece.now)) }
        ensures err { OnErr result ((seen self.new).printed ≡ (seen self.old).printed) }
        ensures cause { OnErr result (Rose (seen self.old).print_faults (seen self.new).print_faults) }
        ensures files { SameHeld (seen self.old) (seen self.new) }
        ensures later { Later (seen self.old) (seen self.new) };
}
