//! Why a code is refused.

use thiserror::Error;

/// What is wrong with one line.
#[derive(Clone, Copy, Debug, PartialEq, Eq, Drop)]
pub enum CodeFault {
    /// It isn't a list of words, or its words contradict one another.
    BadLine,
    /// A word has no meaning here.
    UnknownWord,
    /// A place lies beyond the range of places in code.
    TooFar,
}

/// The first fault of a code, with the number of its line, from 1; or want of memory, which says nothing of the code.
#[derive(Clone, Copy, Debug, PartialEq, Eq, Drop, Error)]
pub enum CodeError {
    #[error("bad line")]
    BadLine(u32),
    #[error("unknown word")]
    UnknownWord(u32),
    #[error("beyond the range")]
    TooFar(u32),
    /// No line ends the program. The number is that of the first line that isn't there.
    #[error("end missing")]
    NoEnd(u32),
    #[error("out of memory")]
    OutOfMemory,
}
