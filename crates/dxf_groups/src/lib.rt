//! Group pairs of a drawing, byte by byte.
//!
//! A drawing is an ASCII file after the Autodesk DXF R12 reference: lines in pairs, a group code and then a value. `Groups`
//! takes the bytes one after the other and tells each pair with the line of its value, or why the bytes aren't such lines. It
//! keeps one line and nothing else, so it serves files of any size and pieces of any length: what it tells depends on the bytes
//! and not on how they came.
//!
//! A line ends with LF, and one CR directly before the LF belongs to the end. A last line without an end counts where it has a
//! byte. Pairs with the code 999 are comments and are dropped. The pair `0 EOF` ends the drawing; nothing behind it is looked at.
//!
//! Each byte takes **O(1)** time, but for the last one of a line with n bytes, which takes **O(n)**.
#![tactic(auto)]

pub mod answers;
mod code;
pub mod examples;
pub mod groups;
pub mod laws;
mod line;
mod step;
#[cfg(test)]
mod tests;

pub use answers::{Found, GroupError, Stop};
pub use groups::Groups;
