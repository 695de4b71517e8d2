//! Why names don't name parts.

use std::alloc::{AllocError, AllocFailed};
use thiserror::Error;

/// Why names don't name parts. Names are told by the lines of the file that they come from, from 1.
#[derive(Clone, Copy, Debug, Drop, Error)]
pub enum PartError {
    /// The name lies on an edge.
    #[error("a name lies on a line")]
    OnLine(u32),
    /// The name lies in the outer face.
    #[error("a name names the outer face")]
    NamesOuter(u32),
    /// Two names lie in one face: the first one, and one behind it.
    #[error("two names name one face")]
    TwoNames(u32, u32),
    /// Memory ran out.
    #[error("out of memory")]
    OutOfMemory,
}

impl From<AllocError> for PartError {
    ghost use Rattle.std.specs.Prelude.{◌≡◌};
    ghost use Rattle.part_scrap.specs.declared.error.PartError.TheVariants.{OutOfMemory as NoMemory};

    ghost from_gives = { λ _ e. e ≡ NoMemory };

    fn from(_: AllocError) -> Self {
        PartError::OutOfMemory
    }
}

impl<T: Drop> From<AllocFailed<T>> for PartError {
    ghost use Rattle.std.specs.Prelude.{◌≡◌};
    ghost use Rattle.part_scrap.specs.declared.error.PartError.TheVariants.{OutOfMemory as NoMemory};

    ghost from_gives = { λ _ e. e ≡ NoMemory };

    fn from(_: AllocFailed<T>) -> Self {
        PartError::OutOfMemory
    }
}
