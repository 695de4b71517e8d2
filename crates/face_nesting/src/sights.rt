//! What the mark vertices of components see.
ghost use Rattle.std.specs.Prelude.{◌≡◌, ◌≤◌, List, length, slice_get, Some, All, IfOk, IfSome, IfNone};
ghost use Rattle.nest_base.specs.Plane.{HalfEdge};
ghost use Rattle.nest_base.specs.Sight.{GoesDown};
ghost use Rattle.nest_base.specs.Range.{IsWithin, IsEdgeWithin, widest};
ghost use Rattle.nest_base.specs.Limits.{most_edges};
ghost use Rattle.plate_sides.specs.Links.{IsSeen, SeesNone};
ghost use Rattle.half_edges.specs.Numbers.{IsSide};
ghost use Rattle.half_edges.specs.PlaneGraphs.{IsPlaneGraph};
ghost use Rattle.face_nesting.specs.Numbering.{sight_numbers_of};
ghost use Rattle.face_nesting.specs.Sights.{AreSights};

use crate::edge_list::EdgeList;
use half_edges::PlaneGraph;
use nest_base::{Component, Edge, OutOfMemory, Point, Side, is_nearer, west_of};
use std::alloc::Global;

/// The half-edge of the edge at place `k` that goes down; the one from its low end where it's level.
fn downward(k: u32, e: &Edge) -> Side
    requires { k ≤ most_edges }
    ensures { (edges : List Edge) (d : HalfEdge) → slice_get edges k ≡ Some e.now → GoesDown e.now d → IsSide edges result.0 d }
{
    let from_low = 2 * k;
    if e.low.y < e.high.y {
        Side(from_low + 1)
    } else {
        Side(from_low)
    }
}

/// The half-edge that is seen from `p`: the one that goes down of the nearest of all edges that the ray west meets; `None` exactly
/// where it meets none.
///
/// Takes **O(n)** for n edges.
pub fn seen_from<E: EdgeList>(edges: &E, p: Point) -> Option<Side>
    requires can_count { E.can_count edges.now }
    requires p_within { IsWithin widest p }
    ensures found { IfSome result (λ s. (d : HalfEdge) × IsSide (E.edges edges.now) s.0 d × IsSeen (E.edges edges.now) p d) }
    ensures none { IfNone result (SeesNone (E.edges edges.now) p) }
{
    let mut nearest = None;
    for k in 0..edges.count() {
        let e = edges.edge(k);
        if !west_of(&e, p) {
            continue;
        }
        let is_first = match nearest {
            None => true,
            Some(n) => is_nearer(p, &e, &edges.edge(n)),
        };
        if is_first {
            nearest = Some(k);
        }
    }
    let k = nearest?;
    Some(downward(k, &edges.edge(k)))
}

/// What each component sees from its mark vertex, by the edges of the graph.
pub fn sights_of(
    alloc: Global,
    graph: &PlaneGraph,
    edges: &[Edge],
) -> Result<Vec<Option<Side>>, OutOfMemory>
    requires edges { edges.now ≡ graph.now.edges }
    ensures plane_graph { IfOk result (λ _. IsPlaneGraph graph.now) }
    ensures sights { IfOk result (λ sights. AreSights graph.now.edges graph.now.marks (sight_numbers_of sights.items)) }
{
    let mut sights = Vec::new(alloc);
    for c in 0..graph.component_count() {
        let mark = graph.place(graph.mark_vertex(Component(c)));
        sights.push(seen_from(&edges, mark))?;
    }
    Ok(sights)
}
