//! The bound and the limit of pierces of a component.
ghost use Rattle.std.specs.Prelude.{◌≡◌, ◌<◌, ℕ, List, IsTrue, false, Some, length, slice_get, sum};
ghost use Rattle.std.specs.List.{AllZip};
ghost use Rattle.nest_base.specs.declared.places.Point.{Point};
ghost use Rattle.nest_base.specs.declared.places.Edge.{Edge};
ghost use Rattle.plate_sides.specs.Limit.{IsLimit};
ghost use Rattle.plate_sides.specs.Starts.{HasOddOuter};
ghost use Rattle.face_nesting.specs.Nesting.{AreOuterCycles};
ghost use Rattle.plate_sides.specs.Bound.{IsBound, NoCoverHasFewerIn, NoCoverHasFewer};
ghost use Rattle.plate_sides.specs.OddCounts.{HasOddCount};

use crate::odd::{has_odd_outer, odd_count};
use crate::plane::graph_is_plane;
use face_nesting::Faces;
use half_edges::PlaneGraph;
use nest_base::Component;

/// The bound of a component with so many odd vertices, below which no cover goes: one where there is none, else half their number.
/// **O(1).**
pub fn bound_of(odd: u32) -> u32
    ensures { (edges : List Edge) (mark : Point) → HasOddCount edges mark odd → IsBound edges mark result }
{
    if odd == 0 { 1 } else { odd / 2 }
}

/// The most pierces that a component with so many odd vertices may take: one where there is none, else their number, less one where an
/// outer vertex is odd. **O(1).**
pub fn limit_of(odd: u32, has_outer: bool) -> u32
    ensures { (edges : List Edge) (mark : Point) → HasOddCount edges mark odd →
        (IsTrue has_outer → HasOddOuter edges mark) → (has_outer ≡ false → HasOddOuter edges mark → ⊥) → IsLimit edges mark result }
{
    if odd == 0 {
        1
    } else if has_outer {
        odd - 1
    } else {
        odd
    }
}

/// The bound of a component: no cover has fewer trails in it.
///
/// Takes **O(n)** for the n vertices of the graph, and no memory.
pub fn bound(graph: &PlaneGraph, c: Component) -> u32
    ensures bound { (mark : Point) → slice_get graph.now.marks c.0 ≡ Some mark → IsBound graph.now.edges mark result }
    ensures none_undercuts { (mark : Point) → slice_get graph.now.marks c.0 ≡ Some mark → NoCoverHasFewerIn graph.now.edges mark result }
{
    graph_is_plane(graph);
    bound_of(odd_count(graph, c))
}

/// The most pierces that a component may take.
///
/// Takes **O(n)** for the n vertices of the graph, and no memory.
pub fn limit(graph: &PlaneGraph, faces: &Faces, c: Component) -> u32
    requires component { c.0 < length graph.now.marks }
    requires parents { length faces.now.parents ≡ length graph.now.marks }
    requires outer_cycles { AreOuterCycles graph.now faces.now }
    ensures { (mark : Point) → slice_get graph.now.marks c.0 ≡ Some mark → IsLimit graph.now.edges mark result }
{
    limit_of(odd_count(graph, c), has_odd_outer(graph, faces, c))
}

/// The sum of the bounds of all components: no cover has fewer trails.
///
/// Takes **O(kn)** for k components and n vertices, and no memory.
pub fn total_bound(graph: &PlaneGraph) -> u32
    ensures bounds { (bounds : List ℕ) × AllZip (IsBound graph.now.edges) graph.now.marks bounds × (result ≡ sum bounds) }
    ensures none_undercuts { NoCoverHasFewer graph.now.edges result }
{
    graph_is_plane(graph);
    let mut total = 0;
    for c in 0..graph.component_count() {
        total += bound(graph, Component(c));
    }
    total
}
