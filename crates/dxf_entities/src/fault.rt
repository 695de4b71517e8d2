//! Why the value of a group can't be read.
ghost use Rattle.std.specs.Prelude.{◌≡◌};
ghost use Rattle.dxf_entities.specs.Refusals.{error_of};

use crate::error::DrawingError;

/// Why the value on a line can't be read.
#[derive(Clone, Copy, Debug, PartialEq, Eq, Drop)]
pub enum Fault {
    NotANumber(u32),
    TooFar(u32),
}

impl Fault {
    /// As an error of the drawing.
    pub fn error(self) -> DrawingError
        ensures { result ≡ error_of self }
    {
        match self {
            Fault::NotANumber(line) => DrawingError::NotANumber(line),
            Fault::TooFar(line) => DrawingError::TooFar(line),
        }
    }
}
