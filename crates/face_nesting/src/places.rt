//! The face at a place.
ghost use Rattle.std.specs.Prelude.{◌≡◌, ◌<◌, length, IsTrue, ◌↔◌};
ghost use Rattle.nest_base.specs.Range.{IsWithin, widest};
ghost use Rattle.plate_parts.specs.Parts.{IsOnDrawing};
ghost use Rattle.half_edges.specs.Numbers.{half_edges_of};
ghost use Rattle.face_nesting.specs.Nesting.{IsFaceCount};
ghost use Rattle.face_nesting.specs.Places.{IsFaceNumberAt};

use crate::edge_list::EdgeList;
use crate::nesting::{FaceId, Faces};
use crate::sights::seen_from;
use half_edges::PlaneGraph;
use nest_base::{Point, Segment, between};

/// Whether a place lies on an edge, ends included: it looks through all edges.
fn is_on_edge(graph: &PlaneGraph, p: Point) -> bool
    requires { IsWithin widest p }
    ensures { IsTrue result ↔ IsOnDrawing graph.now.edges p }
{
    for k in 0..graph.count() {
        let edge = graph.edge(k);
        let segment = Segment {
            a: edge.low,
            b: edge.high,
            line: 0,
        };
        if between(p, &segment) {
            return true;
        }
    }
    false
}

impl Faces {
    /// Whether a place lies on an edge of the graph, ends included.
    ///
    /// Takes **O(n)** for n edges, and no memory.
    pub fn on_drawing(&self, graph: &PlaneGraph, p: Point) -> bool
        requires { IsWithin widest p }
        ensures { IsTrue result ↔ IsOnDrawing graph.now.edges p }
    {
        is_on_edge(graph, p)
    }

    /// The face at a place that lies on no edge: that of what is seen from there.
    ///
    /// Takes **O(n)** for n edges, and no memory.
    pub fn face_at(&self, graph: &PlaneGraph, p: Point) -> FaceId
        requires as_many { length self.now.faces ≡ length (half_edges_of graph.now.edges) }
        requires place_within { IsWithin widest p }
        requires off_edges { IsOnDrawing graph.now.edges p → ⊥ }
        ensures at { IsFaceNumberAt graph.now.edges self.now.faces p result.0 }
        ensures within { IsFaceCount self.now.faces self.now.count → result.0 < self.now.count }
    {
        match seen_from(graph, p) {
            None => self.outer(),
            Some(s) => self.face_of(s),
        }
    }
}
