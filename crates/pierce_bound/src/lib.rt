//! How many pierces a component needs: a bound that no cover can undercut; and how many it may take.
//!
//! A connected graph with 2k odd vertices, k at least 1, can't be covered by fewer than k trails that use each edge once, and one
//! without odd vertices needs one. Laws of plate_plans say so of each component and of all together, and that a component has one bound and one
//! limit. The report and the promise of the top call stand on them.
//!
//! The odd vertices of a component are counted in **O(n)** for the n vertices of the graph, and no call takes memory.
#![tactic(auto)]

pub mod limits;
pub mod odd;
pub mod plane;

pub use limits::{bound, bound_of, limit, limit_of, total_bound};
pub use odd::{has_odd_outer, odd_count};
