//! Decimals: numbers in millimetres as text, read to the nearest whole micrometre and written exactly.
//!
//! A text is read by its digits: those before the micrometre's place give the number and the next one rounds it, so no
//! number grows with the text, and exponents of any length are decided. Written numbers have three digits after the point,
//! and are read back as themselves. The readers of drawings and of code, and the writers of code and of fault lines, stand
//! on this layer. Reading takes **O(n)** time for n bytes, writing takes **O(1)**, and neither takes memory.
#![tactic(auto)]

mod decimal;
mod digits;
pub mod laws;
mod numeral;
pub mod read;
#[cfg(test)]
mod tests;
pub mod write;

pub use read::{NumberError, read_equals, read_integer, read_micron};
pub use write::{put_micron, write_micron};
