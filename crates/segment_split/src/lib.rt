//! Exact splitting: from the segments of a drawing to its edges.
//!
//! Each segment is cut where another one ends on it, and where another one crosses it. Places are whole micrometres, so a crossing
//! is a place exactly, or the drawing is refused. Nothing is rounded, and a line that is drawn twice gives its edges once.
//!
//! Every pair of segments is compared: n segments with m pieces take **O(n² + m log m)**, and memory for the pieces.
//!
//! It stands on `segment_meeting`, and on the definitions of `plate_edges`: what `split` answers is the edges in their sense. The
//! planner above makes its graph of them.
#![tactic(auto)]

pub mod cuts;
pub mod meet;
mod pieces;
pub mod splitting;

pub use meet::{Meeting, meeting_of};
pub use splitting::{SplitError, split};
