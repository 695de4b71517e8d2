//! The verdict on code: whether its moves cut a drawing soundly, or which line or edge is at fault.
//!
//! What made the code doesn't matter: it may be what `plan` wrote, changed by a post-processor or by hand. Each move that burns is told
//! by its kind first; the faults are then looked for one after another, in a set order, and the first that there is makes the verdict.
//!
//! Whether the order of burning detaches an edge is found in one pass from its end: an edge burns in time exactly where one of its
//! faces is the outer one or that of an edge that burns later. For n edges, at most d of them at one vertex, m moves and l moves along no
//! edge all takes **O(n + m log d + ln + l²)**: the vertex where a move begins is looked up in constant time, as hashing goes, then its
//! half-edges are searched, and only a move along no edge is held against all edges.
//!
//! It stands on the graph, its faces and its scrap, and on the moves that `ngc_meaning` reads.
#![tactic(auto)]

mod burns;
mod detached;
mod first;
mod kinds;
pub mod laws;
mod leads;
mod missed;
mod replaying;
mod sharing;
mod verdict;

pub use replaying::replay;
pub use verdict::Verdict;
