//! The order in which the edges of one component are burnt: trails that enclose, with few breaks between them.
//!
//! A walk from the outer corner burns edge after edge until its vertex is exhausted, and puts each on a stack. Then the top of the
//! stack moves to what is done, and walks from the vertex to which it leads exhaust that vertex too, until the stack is empty
//! (as in Hierholzer's algorithm). A walk takes the first unburnt edge counterclockwise after the one by which it came, so that
//! each edge lies next to the edges that burn later, and the piece that comes loose lies inside. Where a component has odd vertices
//! and the first walks were closed, the first open walk's edges stay, and those that are done are given up.
//!
//! A component of n edges is covered in **O(nd)**, where no vertex has more than d edges: each choice looks round its vertex. No
//! memory is taken, since a route has room from the start.
//!
//! It stands on the rotations and the burnt edges of `half_edges`; `cover_walks` has the theory.
#![tactic(auto)]

mod choice;
pub mod covering;
mod finish;
pub mod route;
mod scan;
mod undo;
mod walk;

pub use covering::cover;
pub use route::Route;
