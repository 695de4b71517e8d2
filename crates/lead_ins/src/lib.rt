//! Lead-ins: straight cuts in scrap to the vertex where a chain begins.
//!
//! Of 64 places around that vertex, in a set order, the first is taken from which a straight cut to the vertex lies in scrap and meets no
//! edge and no earlier lead-in before it comes there. All is decided exactly, in whole numbers. A chain with no such place gets none.
//!
//! One chain takes **O(n + l)** for n edges and l lead-ins before it, and no memory. It stands on the graph and its faces, and on which of
//! these are scrap.
#![tactic(auto)]

mod all;
mod angle;
mod clear;
mod corners;
mod leading;
mod touch;
mod tries;

pub use all::lead_all;
pub use angle::is_inside;
pub use clear::{edge_at, is_off_edges};
pub use leading::{is_free, is_free_off_edges, lead};
pub use plate_parts::Lead;
pub use touch::touches_at_most_at;
