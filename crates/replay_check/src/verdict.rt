//! What is told of code.

use nest_base::Point;

/// Whether code cuts a drawing soundly, or its first fault in the order of this list. A line is told by its number, from 1.
#[derive(Clone, Copy, Debug, PartialEq, Eq, Drop)]
pub enum Verdict {
    /// It cuts soundly, and lights the torch so often.
    Sound { pierces: u32 },
    /// The first move that burns elsewhere than along edges, and that can't be a lead-in either.
    OffDrawing(u32),
    /// The first move that burns along an edge, but not one whole edge.
    PartEdge(u32),
    /// The first move that burns an edge again.
    Twice(u32),
    /// The first lead-in that isn't free, or that isn't followed by an edge in the same lighting.
    BadLead(u32),
    /// The least edge, by its low end and then by its high one, that nothing burns.
    Missed(Point, Point),
    /// The last move along an edge that was cut off from the plate before.
    Detached(u32),
}
