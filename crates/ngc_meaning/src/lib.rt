//! The reader of code: the moves that a code means, or the first fault that it has.
//!
//! Code is a text of lines after RS274/NGC, as `code_moves` defines it. `read_code` takes a whole text, and `Machine` one line after
//! the other: it keeps where the torch stands and how, which is all that the lines so far mean for the next one. What it tells is
//! exactly what the definitions say, and they look back over all lines. What made the code doesn't matter: a post-processor, a
//! person, or `ngc_writer`.
//!
//! A line is read in **O(n)** time for its n bytes and without memory; only the list of moves is kept.
#![tactic(auto)]

mod bare;
mod block;
pub mod laws;
mod line;
pub mod machine;
mod number;
pub mod read;
#[cfg(test)]
mod tests;
mod text;

pub use machine::{Machine, Stepped};
pub use read::{Moves, read_code};
