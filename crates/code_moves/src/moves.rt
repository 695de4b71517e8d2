//! The moves of a code.

use nest_base::Point;

/// A straight move of the torch, by the line of code with this number, from 1.
///
/// It burns where it is lit, and is fresh where it is the first to burn since the torch was lit.
#[derive(Clone, Copy, Debug, PartialEq, Eq, Drop)]
pub struct Move {
    pub from: Point,
    pub to: Point,
    pub lit: bool,
    pub fresh: bool,
    pub line: u32,
}
