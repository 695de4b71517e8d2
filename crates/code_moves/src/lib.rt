//! What code is: the definitions that its writer, its readers and the top call cite.
//!
//! Code is a text of lines after RS274/NGC. Here stand how it is written for the chains of a plan, the moves that a text means,
//! and the first fault for which it is refused. Every meaning looks back over whole lists of lines; how a reader steps through
//! them is the reader's own. A law ties the two: what is written for chains burns these chains. Nothing here runs.
#![tactic(auto)]

pub mod examples;
pub mod faults;
pub mod laws;
pub mod moves;

pub use faults::{CodeError, CodeFault};
pub use moves::Move;
