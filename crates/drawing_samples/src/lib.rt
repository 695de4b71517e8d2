//! Small drawings by name, and the edges of any drawing: for tests and benches alone.
//!
//! A drawing that several tests speak of stands here once. A graph is built on edges that meet at ends only; here they come of
//! splitting, so that the graph and what stands on it need not stand on splitting too.
#![tactic(auto)]

pub mod edges;
pub mod samples;

pub use edges::{edges_from, edges_of};
pub use samples::{Ends, Sample};
