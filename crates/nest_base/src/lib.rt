//! Places, segments, lists and texts by lines: what every layer of the planner speaks of.
//!
//! Places are whole micrometres. The predicates on them are exact: no product is rounded, and no sum wraps. The lists grow
//! by one call at a time, and after want of memory they are as they were.
//!
//! This is the lowest layer. Readers fill a `Drawing`, and the layers above cut, join and follow its segments.
#![tactic(auto)]

pub mod drawing;
pub mod edges;
pub mod laws;
pub mod memory;
pub mod numbers;
pub mod places;
pub mod sight;
#[cfg(test)]
mod sight_tests;
#[cfg(test)]
mod tests;
pub mod text;
pub mod trim;
pub mod turn;

pub use drawing::{Drawing, Name};
pub use edges::Edges;
pub use memory::OutOfMemory;
pub use numbers::{Component, Side, VertexId};
pub use places::{CODE_RANGE, Edge, PLACE_RANGE, Point, RANGE, Segment, between, cross};
pub use sight::{is_nearer, west_of};
pub use text::Text;
pub use trim::trimmed;
pub use turn::turn_order;
