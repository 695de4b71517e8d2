//! Whether a lead-in keeps clear of edges and of earlier lead-ins.
ghost use Rattle.std.specs.Prelude.{◌≡◌, ◌<◌, ◌≤◌, All, IsTrue, ◌↔◌, length, slice_get, Some};
ghost use Rattle.nest_base.specs.Limits.{most_edges};
ghost use Rattle.nest_base.specs.Plane.{HalfEdge};
ghost use Rattle.nest_base.specs.Range.{IsWithin, widest};
ghost use Rattle.half_edges.specs.Numbers.{half_edges_of};
ghost use Rattle.half_edges.specs.Graph.{Graph};
ghost use Rattle.lead_ins.specs.Corners.{IsLeadWithin, IsCornerBetween, IsOffEdges, IsOffLeads, ComesFromWithin, IsClear};

use crate::angle::{direction_to, is_inside};
use crate::corners::Corner;
use crate::touch::touches_at_most_at;
use half_edges::PlaneGraph;
use nest_base::{Edge, Point, Side};
use plate_parts::Lead;

/// The edge at place `k` of the edges of a graph.
pub fn edge_at(graph: &PlaneGraph, k: u32) -> Edge
    requires few { length graph.now.edges ≤ most_edges }
    requires within { k < length graph.now.edges }
    ensures { slice_get graph.now.edges k ≡ Some result }
{
    let forth = Side(2 * k);
    Edge {
        low: graph.place(graph.from(forth)),
        high: graph.place(graph.to(forth)),
    }
}

/// How many edges along a face are held against a cut before all others.
const NEARBY: u32 = 8;

/// Whether the straight cut from `q` to `v` touches one of the first edges along the face of `first` elsewhere than at `v`, as most cuts
/// do that touch any.
fn is_blocked_nearby(graph: &PlaneGraph, first: Side, v: Point, q: Point) -> bool
    requires within { first.0 < length (half_edges_of graph.now.edges) }
    requires v_within { IsWithin widest v }
    requires q_within { IsWithin widest q }
    ensures { IsTrue result → IsOffEdges graph.now.edges v q → ⊥ }
{
    let edges = graph.edge_count();
    let mut s = first;
    for _ in 0..NEARBY {
        prove!(s.0 / 2 < edges);
        let e = edge_at(graph, s.0 / 2);
        if !touches_at_most_at(v, q, e.low, e.high) {
            return true;
        }
        s = graph.along(s);
    }
    false
}

/// Whether the straight cut from `q` to `v` touches no edge but at `v`.
///
/// Both lie within 2,000,000,000 micrometres. Takes **O(n)** for n edges, and no memory.
pub fn is_off_edges(graph: &PlaneGraph, v: Point, q: Point) -> bool
    requires v_within { IsWithin widest v }
    requires q_within { IsWithin widest q }
    ensures { IsTrue result ↔ IsOffEdges graph.now.edges v q }
{
    for k in 0..graph.edge_count() {
        let e = edge_at(graph, k);
        if !touches_at_most_at(v, q, e.low, e.high) {
            return false;
        }
    }
    true
}

/// Whether the straight cut from `q` to `v` touches none of these lead-ins but at `v`.
///
/// Takes **O(l)** for l lead-ins.
pub fn is_off_leads(leads: &[Lead], v: Point, q: Point) -> bool
    requires v_within { IsWithin widest v }
    requires q_within { IsWithin widest q }
    requires leads_within { All (IsLeadWithin widest) leads.now }
    ensures { IsTrue result ↔ IsOffLeads leads.now v q }
{
    for lead in leads {
        if !touches_at_most_at(v, q, lead.from, lead.to) {
            return false;
        }
    }
    true
}

/// Whether a cut from `q` comes to the vertex of a corner from within the corner.
pub fn comes_from_within(corner: Corner, q: Point) -> bool
    requires corner { (graph : Graph) × (b : HalfEdge) × IsCornerBetween graph corner b }
    requires q_within { IsWithin widest q }
    ensures { IsTrue result ↔ ComesFromWithin corner q }
{
    let v = corner.vertex;
    if q == v {
        return false;
    }
    is_inside(corner.first, direction_to(v, q), corner.last)
}

/// Whether a lead-in from `q` to the vertex of a corner lies in the corner, and touches no edge and no earlier lead-in but there.
///
/// Only a cut that comes to the vertex from within the corner, and meets no edge there at once, is held against all edges.
pub fn is_clear(graph: &PlaneGraph, earlier: &[Lead], corner: Corner, q: Point) -> bool
    requires corner { (b : HalfEdge) × IsCornerBetween graph.now corner b }
    requires q_within { IsWithin widest q }
    requires earlier_within { All (IsLeadWithin widest) earlier.now }
    ensures { IsTrue result ↔ IsClear graph.now.edges earlier.now corner q }
{
    if !comes_from_within(corner, q) {
        return false;
    }
    let v = corner.vertex;
    if is_blocked_nearby(graph, corner.side, v, q) {
        return false;
    }
    if !is_off_edges(graph, v, q) {
        return false;
    }
    is_off_leads(earlier, v, q)
}
