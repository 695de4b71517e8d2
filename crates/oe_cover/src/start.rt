//! Where the cover of a component starts.
ghost use Rattle.std.specs.Prelude.{◌≡◌, ◌<◌, ◌↔◌, length, slice_get, Some, All, IfSome, IfNone, IsTrue};
ghost use Rattle.nest_base.specs.declared.places.Point.{Point};
ghost use Rattle.nest_base.specs.Plane.{HalfEdge};
ghost use Rattle.plate_sides.specs.Starts.{IsStart};
ghost use Rattle.half_edges.specs.Numbers.{half_edges_of, IsSide};
ghost use Rattle.half_edges.specs.Graph.{origin_of};
ghost use Rattle.half_edges.specs.PlaneGraphs.{IsPlaneGraph};
ghost use Rattle.nest_base.specs.NumberLists.{side_numbers};
ghost use Rattle.face_nesting.specs.Nesting.{AreOuterCycles, cycle_at};
ghost use Rattle.cover_plan.specs.Laws.{LeavesOdd};
ghost use Rattle.oe_cover.specs.Starts.{FirstOddIs, IsFirstStart, IsLawfulStart};

use face_nesting::Faces;
use half_edges::PlaneGraph;
use nest_base::{Component, Side};

/// Whether a half-edge leaves an odd vertex.
fn leaves_odd(graph: &PlaneGraph, s: Side) -> bool
    requires { s.0 < length (half_edges_of graph.now.edges) }
    ensures { IsTrue result ↔ LeavesOdd graph.now s.0 }
{
    graph.degree(graph.from(s)) % 2 == 1
}

/// Whether the vertex of a half-edge comes before that of the first one so far, if there is any.
fn comes_before(graph: &PlaneGraph, s: Side, first: Option<Side>) -> bool
    requires within { s.0 < length (half_edges_of graph.now.edges) }
    requires first_within { IfSome first (λ t. t.0 < length (half_edges_of graph.now.edges)) }
    ensures none { IfNone first (IsTrue result) }
    ensures some { IfSome first (λ t. IsTrue result ↔ (origin_of graph.now s.0 < origin_of graph.now t.0)) }
{
    match first {
        Some(t) => graph.from(s) < graph.from(t),
        None => true,
    }
}

/// Of half-edges the one that leaves an odd vertex; of several the one whose vertex comes first, and at one vertex the first one.
fn first_odd(graph: &PlaneGraph, sides: &[Side]) -> Option<Side>
    requires { All (λ s. s.0 < length (half_edges_of graph.now.edges)) sides.now }
    ensures { FirstOddIs graph.now (side_numbers sides.now) result }
{
    let mut first = None;
    for s in sides {
        if leaves_odd(graph, *s) && comes_before(graph, *s, first) {
            first = Some(*s);
        }
    }
    first
}

/// The start of a component: of its outer sides the one that leaves an odd vertex, and of several the one whose vertex comes first, the
/// least x, then the greatest y. Where none leaves an odd vertex it's the mark side, whose vertex comes first of all.
///
/// Takes **O(n)** for n outer sides.
pub fn first_start(graph: &PlaneGraph, faces: &Faces, c: Component) -> Side
    requires cycles { AreOuterCycles graph.now faces.now }
    requires as_many { length faces.now.parents ≡ length graph.now.marks }
    requires within { c.0 < length graph.now.marks }
    ensures first { IsFirstStart graph.now (cycle_at faces.now c.0) result.0 }
    ensures lawful { IsLawfulStart graph.now (cycle_at faces.now c.0) result.0 }
    ensures start { IsPlaneGraph graph.now → (mark : Point) (h : HalfEdge) → slice_get graph.now.marks c.0 ≡ Some mark → IsSide graph.now.edges result.0 h → IsStart graph.now.edges mark h }
    ensures within { result.0 < length (half_edges_of graph.now.edges) }
{
    first_odd(graph, faces.outer_sides(c)).unwrap_or(faces.mark_side(c))
}
