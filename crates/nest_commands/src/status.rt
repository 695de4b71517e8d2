//! How a run ends: its status, and the exit code.
ghost use Rattle.std.specs.Prelude.{◌≡◌};
ghost use Rattle.nest_commands.specs.Statuses.{exit_code_of};

use code_moves::CodeError;
use dxf_drawing::DrawingError;
use part_scrap::PartError;
use replay_check::Verdict;
use segment_split::SplitError;

/// Why a drawing is refused.
#[derive(Debug, Drop)]
pub enum Refusal {
    /// It can't be read.
    Reading(DrawingError),
    /// Two of its segments cross off the lattice, or they have too many pieces.
    Splitting(SplitError),
    /// A name names no part, or one that another name has.
    Naming(PartError),
}

/// How a run ends.
#[derive(Debug, Drop)]
pub enum Status {
    /// The code was written and the report printed; or the code is sound, and that was printed.
    Done,
    /// The words aren't a command.
    Words,
    /// The drawing couldn't be read, or the code of a replay.
    ReadFault,
    /// The drawing has more than 67,108,864 bytes, or the code of a replay does.
    TooLong,
    /// The drawing is refused.
    Drawing(Refusal),
    /// The code couldn't be written.
    WriteFault,
    /// The code was written, and the report couldn't be printed; or the code is sound, and that couldn't.
    PrintFault,
    /// Memory ran out.
    Memory,
    /// The code of a replay has a fault. This never holds want of memory.
    Code(CodeError),
    /// The code of a replay isn't sound, and this is its first fault. This never holds `Sound`.
    Unsound(Verdict),
}

impl Status {
    /// The exit status of the program.
    pub fn code(&self) -> u8
        ensures { result ≡ exit_code_of self.now }
    {
        match self {
            Status::Done => 0,
            Status::Words => 2,
            Status::ReadFault | Status::TooLong => 3,
            Status::Drawing(_) => 4,
            Status::WriteFault | Status::PrintFault => 5,
            Status::Memory => 6,
            Status::Unsound(_) => 7,
            Status::Code(_) => 8,
        }
    }
}
