//! The odd vertices of components, counted.
ghost use Rattle.std.specs.Prelude.{◌≡◌, ◌↔◌, ◌<◌, ◌%◌, [], IsTrue, false, Some, length, slice_get};
ghost use Rattle.nest_base.specs.declared.places.Point.{Point};
ghost use Rattle.plate_sides.specs.Odd.{IsOdd};
ghost use Rattle.plate_sides.specs.Starts.{HasOddOuter};
ghost use Rattle.half_edges.specs.Graph.{rotations_of, component_of};
ghost use Rattle.face_nesting.specs.Nesting.{AreOuterCycles};
ghost use Rattle.cover_walks.specs.Walks.{odd_within as odd_by_definition};
ghost use Rattle.plate_sides.specs.OddCounts.{HasOddCount};

use crate::plane::graph_is_plane;
use face_nesting::Faces;
use half_edges::PlaneGraph;
use nest_base::{Component, VertexId};

/// Whether an odd number of edges end at a vertex. **O(1).**
fn is_odd(graph: &PlaneGraph, v: VertexId) -> bool
    requires { v.0 < length graph.now.vertices }
    ensures odd { IsTrue result → (p : Point) → slice_get graph.now.vertices v.0 ≡ Some p → IsOdd graph.now.edges p }
    ensures even { result ≡ false → (p : Point) → slice_get graph.now.vertices v.0 ≡ Some p → IsOdd graph.now.edges p → ⊥ }
{
    graph.degree(v) % 2 == 1
}

/// 1 for an odd vertex of the component, 0 for each other vertex. **O(1).**
fn odd_within(graph: &PlaneGraph, c: Component, v: VertexId) -> u32
    requires { v.0 < length graph.now.vertices }
    ensures { result ≡ odd_by_definition (rotations_of graph.now) (component_of graph.now) c.0 [] v.0 }
{
    if graph.component_of(v) == c {
        graph.degree(v) % 2
    } else {
        0
    }
}

/// How many odd vertices a component has.
///
/// Takes **O(n)** for the n vertices of the graph, and no memory.
pub fn odd_count(graph: &PlaneGraph, c: Component) -> u32
    ensures { (mark : Point) → slice_get graph.now.marks c.0 ≡ Some mark → HasOddCount graph.now.edges mark result }
{
    graph_is_plane(graph);
    let mut count = 0;
    for v in 0..graph.vertex_count() {
        count += odd_within(graph, c, VertexId(v));
    }
    count
}

/// Whether some outer vertex of a component is odd.
///
/// Takes **O(n)** for n outer sides, and no memory.
pub fn has_odd_outer(graph: &PlaneGraph, faces: &Faces, c: Component) -> bool
    requires component { c.0 < length graph.now.marks }
    requires parents { length faces.now.parents ≡ length graph.now.marks }
    requires outer_cycles { AreOuterCycles graph.now faces.now }
    ensures some { IsTrue result → (mark : Point) → slice_get graph.now.marks c.0 ≡ Some mark → HasOddOuter graph.now.edges mark }
    ensures none { result ≡ false → (mark : Point) → slice_get graph.now.marks c.0 ≡ Some mark → HasOddOuter graph.now.edges mark → ⊥ }
{
    graph_is_plane(graph);
    for side in faces.outer_sides(c) {
        if is_odd(graph, graph.from(*side)) {
            return true;
        }
    }
    false
}
