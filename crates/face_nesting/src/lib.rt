//! The faces of a plane graph, and how its components lie in them.
//!
//! A face is bounded by cycles of half-edges in which each goes along to the next. Within a component the links along alone
//! join a cycle; a component inside another is tied to the face that it lies in by what its mark vertex sees: the nearest edge that
//! the ray west meets (as in the sweep that orients the holes of a polygon).
//!
//! The rank of a face is the fewest edges to be crossed from it to the outer one. Ranks spread outward from the outer face, each face
//! in turn, across its edges to those that have none yet.
//!
//! Cycles, faces, ranks and parents are found in **O(n)** for n edges, but for what is seen: each component looks through all edges, in
//! **O(kn)** for k components. Readers take **O(1)** and no memory, but for what lies at a place: that looks through all edges.
//!
//! It stands on the rotations of `half_edges` and on the sights of `nest_base`.
#![tactic(auto)]

mod cycles;
mod edge_list;
mod marks;
pub mod nesting;
mod numbering;
mod places;
mod ranks;
mod sights;

pub use nesting::{FaceId, Faces};
