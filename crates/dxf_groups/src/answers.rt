//! What the reader of pairs answers, and where it stands.

use thiserror::Error;

/// Why the lines of a drawing aren't pairs. Lines are numbered from 1.
#[derive(Clone, Copy, Debug, PartialEq, Eq, Drop, Error)]
pub enum GroupError {
    /// The input begins with the 18 bytes of a binary drawing.
    #[error("the drawing is a binary one")]
    Binary,
    /// This line is to hold a group code and doesn't: an optional `-` and 1 to 4 digits.
    #[error("a line has no group code")]
    BadCode(u32),
    /// This line has more than 4,096 bytes without its end.
    #[error("a line is too long")]
    LineTooLong(u32),
    /// The input ends before this line, and without the pair `0 EOF`.
    #[error("the end of the drawing is missing")]
    Truncated(u32),
}

/// What a byte, or the end of the input, completed.
#[derive(Clone, Copy, Debug, PartialEq, Eq, Drop)]
pub enum Found {
    /// Nothing yet, or a comment.
    More,
    /// A pair, with the number of the line of its value, from 1.
    Pair { code: i32, line: u32 },
    /// The pair `0 EOF` was found before.
    Done,
    /// The lines aren't pairs.
    Refused,
}

/// Where the pairs of some lines stop.
#[derive(Clone, Copy, Debug, PartialEq, Eq, Drop)]
pub enum Stop {
    /// At the pair `0 EOF`.
    AtEof,
    /// At a line that is refused.
    AtFault(GroupError),
    /// Before this line, which is to hold a code.
    BeforeCode(u32),
    /// Before this line, which is to hold the value of a code.
    BeforeValue { code: i32, line: u32 },
}
