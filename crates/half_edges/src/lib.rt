//! The plane graph of a drawing: its half-edges, the rotation round each vertex, and its components.
//!
//! A half-edge is an edge followed one way; the two of an edge are twins. Round a vertex the half-edges that leave it stand in a
//! rotation, counterclockwise from west, and the face to the left of a half-edge goes on along the next one clockwise after its
//! twin (as in a doubly connected edge list). Above this layer no coordinate is compared any more. Edges burn in order, each once, and the
//! latest can be unburnt, so that a walk can be taken back.
//!
//! A graph of n edges is built in **O(n log n)**, by sorting; its readers take **O(1)** and no memory, but for `find_side`, which
//! takes **O(log d)** where d edges meet. Vertices are found by place through a hash with a fixed seed, so these are the times to
//! expect: places that were chosen to collide can make a look-up **O(n)**, and so building **O(n²)**.
//!
//! It stands on the order of directions of `nest_base`, on the set of `indexmap`, and on the definitions of `plate_sides`.
#![tactic(auto)]

mod burns;
mod components;
pub mod graph;
mod layout;
mod mark_order;
mod places;
mod rotation;
mod sides;

pub use graph::PlaneGraph;
