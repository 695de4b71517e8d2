//! Edges that are read by number, wherever they stand.
ghost use Rattle.std.specs.Prelude.{◌≡◌, ◌≤◌, ◌<◌, ℕ, List, All, Some, length, slice_get};
ghost use Rattle.nest_base.specs.declared.places.Edge.{Edge as EdgeType};
ghost use Rattle.nest_base.specs.Limits.{most_edges};
ghost use Rattle.nest_base.specs.Range.{IsEdgeWithin, widest};

use half_edges::PlaneGraph;
use nest_base::{Edge, Side};

/// Edges that are read by number.
pub trait EdgeList {
    ghost edges: { Self → List EdgeType };

    /// What the reader of a list has to know of it.
    ghost can_count: { Self → Type 0 };

    /// How many there are.
    fn count(&self) -> u32
        requires { can_count self.now }
        ensures count { result ≡ length (edges self.now) }
        ensures few { length (edges self.now) ≤ most_edges }
        ensures near { All (IsEdgeWithin widest) (edges self.now) };

    /// The edge at place `k`.
    fn edge(&self, k: u32) -> Edge
        requires few { length (edges self.now) ≤ most_edges }
        requires near { All (IsEdgeWithin widest) (edges self.now) }
        requires within { k < length (edges self.now) }
        ensures edge { slice_get (edges self.now) k ≡ Some result }
        ensures near { IsEdgeWithin widest result };
}

impl EdgeList for &[Edge] {
    ghost edges = { λ lent. lent.now };

    ghost can_count = { λ lent. (length lent.now ≤ most_edges) × All (IsEdgeWithin widest) lent.now };

    fn count(&self) -> u32 {
        self.len() as u32
    }

    fn edge(&self, k: u32) -> Edge {
        self[k as usize]
    }
}

impl EdgeList for PlaneGraph {
    ghost edges = { λ graph. graph.edges };

    ghost can_count = { λ _. Unit {0} };

    fn count(&self) -> u32 {
        self.edge_count()
    }

    fn edge(&self, k: u32) -> Edge {
        let low_to_high = Side(2 * k);
        Edge {
            low: self.place(self.from(low_to_high)),
            high: self.place(self.to(low_to_high)),
        }
    }
}
