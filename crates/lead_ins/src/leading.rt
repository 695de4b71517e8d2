//! The lead-in of one chain.
ghost use Rattle.std.specs.Prelude.{◌≡◌, ◌<◌, ◌+◌, ◌↔◌, ℕ, List, All, Contains, IfSome, IsTrue, Some, None, length, slice_get, slice_index};
ghost use Rattle.nest_base.specs.declared.places.Point.{Point};
ghost use Rattle.nest_base.specs.Plane.{HalfEdge};
ghost use Rattle.nest_base.specs.Range.{IsWithin, IsEdgeWithin, widest};
ghost use Rattle.half_edges.specs.Numbers.{half_edges_of};
ghost use Rattle.face_nesting.specs.Nesting.{IsFaceCount};
ghost use Rattle.cover_plan.specs.Trails.{half_edge_of};
ghost use Rattle.plate_parts.specs.LeadIns.{IsFreeLeadIn, IsFirstLeadIn, IsFirstFit, tried_around};
ghost use Rattle.part_scrap.specs.Naming.{TellsScrap};
ghost use Rattle.half_edges.specs.Graph.{Graph};
ghost use Rattle.lead_ins.specs.Corners.{IsLeadWithin, IsCornerBetween, IsOffEdges, FitsCorner, FitsOffEdges};
ghost use Rattle.lead_ins.specs.Tries.{lead_range, lead_reach};

use crate::clear::{comes_from_within, is_clear, is_off_leads};
use crate::corners::{Corner, corners_of};
use crate::tries::first_clear;
use face_nesting::Faces;
use half_edges::PlaneGraph;
use nest_base::{Point, Side};
use part_scrap::Parts;
use plate_parts::Lead;

/// Whether a corner lies in scrap.
fn is_in_scrap(faces: &Faces, parts: &Parts, corner: Corner) -> bool
    requires within { corner.side.0 < length faces.now.faces }
    requires named { All (λ f. f < length parts.now.names) faces.now.faces }
    ensures { IsTrue result ↔ (slice_get parts.now.names (slice_index faces.now.faces corner.side.0) ≡ Some None) }
{
    parts.is_scrap(faces.face_of(corner.side))
}

/// Whether a lead-in from `q` fits a corner.
fn fits_corner(
    graph: &PlaneGraph,
    faces: &Faces,
    parts: &Parts,
    earlier: &[Lead],
    corner: Corner,
    q: Point,
) -> bool
    requires corner { (b : HalfEdge) × IsCornerBetween graph.now corner b }
    requires as_many { length faces.now.faces ≡ length (half_edges_of graph.now.edges) }
    requires named { All (λ f. f < length parts.now.names) faces.now.faces }
    requires q_within { IsWithin widest q }
    requires earlier_within { All (IsLeadWithin widest) earlier.now }
    ensures { (places : List Point) → TellsScrap graph.now.edges places faces.now.faces parts.now.names →
        IsTrue result ↔ FitsCorner graph.now places earlier.now corner q }
{
    if !is_in_scrap(faces, parts, corner) {
        return false;
    }
    is_clear(graph, earlier, corner, q)
}

/// Whether a lead-in from `q` that touches no edge but at the vertex of a corner fits the corner.
fn fits_off_edges(faces: &Faces, parts: &Parts, earlier: &[Lead], corner: Corner, q: Point) -> bool
    requires corner { (graph : Graph) × (b : HalfEdge) × IsCornerBetween graph corner b }
    requires within { corner.side.0 < length faces.now.faces }
    requires named { All (λ f. f < length parts.now.names) faces.now.faces }
    requires q_within { IsWithin widest q }
    requires earlier_within { All (IsLeadWithin widest) earlier.now }
    ensures { IsTrue result ↔ FitsOffEdges faces.now.faces parts.now.names earlier.now corner q }
{
    if !is_in_scrap(faces, parts, corner) {
        return false;
    }
    if !comes_from_within(corner, q) {
        return false;
    }
    is_off_leads(earlier, corner.vertex, q)
}

/// The first place that is tried from which a lead-in fits a corner; `None` exactly where none does.
fn first_in_corner(
    graph: &PlaneGraph,
    faces: &Faces,
    parts: &Parts,
    earlier: &[Lead],
    corner: Corner,
) -> Option<Point>
    requires corner { (b : HalfEdge) × IsCornerBetween graph.now corner b }
    requires near { IsWithin lead_range corner.vertex }
    requires as_many { length faces.now.faces ≡ length (half_edges_of graph.now.edges) }
    requires named { All (λ f. f < length parts.now.names) faces.now.faces }
    requires earlier_within { All (IsLeadWithin widest) earlier.now }
    ensures first { (places : List Point) → TellsScrap graph.now.edges places faces.now.faces parts.now.names →
        IsFirstFit (FitsCorner graph.now places earlier.now corner) (tried_around corner.vertex) result }
    ensures tried { IfSome result (Contains (tried_around corner.vertex)) }
{
    if !is_in_scrap(faces, parts, corner) {
        return None;
    }
    first_clear(graph, earlier, corner)
}

/// Whether a straight cut from a place to the vertex where a half-edge begins is a lead-in before this half-edge: it lies in scrap, in one of
/// the two corners beside the half-edge, and touches no edge and no earlier lead-in but at the vertex.
///
/// `from` and the earlier lead-ins lie within 2,000,000,000 micrometres. Takes **O(n + l)** for n edges and l earlier lead-ins, and no memory.
pub fn is_free(
    graph: &PlaneGraph,
    faces: &Faces,
    parts: &Parts,
    from: Point,
    first: Side,
    earlier: &[Lead],
) -> bool
    requires within { first.0 < length (half_edges_of graph.now.edges) }
    requires as_many { length faces.now.faces ≡ length (half_edges_of graph.now.edges) }
    requires count { IsFaceCount faces.now.faces faces.now.count }
    requires as_many_names { length parts.now.names ≡ faces.now.count }
    requires from_within { IsWithin widest from }
    requires earlier_within { All (IsLeadWithin widest) earlier.now }
    ensures { (places : List Point) → TellsScrap graph.now.edges places faces.now.faces parts.now.names →
        IsTrue result ↔ IsFreeLeadIn graph.now.edges places earlier.now (half_edge_of graph.now first.0) from }
{
    let corners = corners_of(graph, first);
    if fits_corner(graph, faces, parts, earlier, corners.left, from) {
        return true;
    }
    fits_corner(graph, faces, parts, earlier, corners.right, from)
}

/// Whether a straight cut that touches no edge but at the vertex where a half-edge begins, as `is_off_edges` tells, is a lead-in before this
/// half-edge: it lies in scrap, in one of the two corners beside the half-edge, and touches no earlier lead-in but at the vertex.
///
/// `from` and the earlier lead-ins lie within 2,000,000,000 micrometres. Takes **O(l)** for l earlier lead-ins, and no memory.
pub fn is_free_off_edges(
    graph: &PlaneGraph,
    faces: &Faces,
    parts: &Parts,
    from: Point,
    first: Side,
    earlier: &[Lead],
) -> bool
    requires within { first.0 < length (half_edges_of graph.now.edges) }
    requires as_many { length faces.now.faces ≡ length (half_edges_of graph.now.edges) }
    requires count { IsFaceCount faces.now.faces faces.now.count }
    requires as_many_names { length parts.now.names ≡ faces.now.count }
    requires from_within { IsWithin widest from }
    requires earlier_within { All (IsLeadWithin widest) earlier.now }
    requires off_edges { IsOffEdges graph.now.edges (half_edge_of graph.now first.0).from from }
    ensures { (places : List Point) → TellsScrap graph.now.edges places faces.now.faces parts.now.names →
        IsTrue result ↔ IsFreeLeadIn graph.now.edges places earlier.now (half_edge_of graph.now first.0) from }
{
    let corners = corners_of(graph, first);
    if fits_off_edges(faces, parts, earlier, corners.left, from) {
        return true;
    }
    fits_off_edges(faces, parts, earlier, corners.right, from)
}

/// Where the lead-in of a chain that begins with the half-edge `first` begins: the first of 64 tries that is free. Of 32 places around the
/// vertex, 16 at 2,000 micrometres along an axis or up to twice that, then 16 at a quarter of it, each is tried in the corner to the left
/// of `first`, then each in the corner to its right. `None` comes exactly where none is free.
///
/// Vertices lie within 1,999,000,000 micrometres. Takes **O(n + l)** for n edges and l earlier lead-ins, and no memory.
pub fn lead(
    graph: &PlaneGraph,
    faces: &Faces,
    parts: &Parts,
    first: Side,
    earlier: &[Lead],
) -> Option<Point>
    requires within { first.0 < length (half_edges_of graph.now.edges) }
    requires near { All (IsEdgeWithin lead_range) graph.now.edges }
    requires as_many { length faces.now.faces ≡ length (half_edges_of graph.now.edges) }
    requires count { IsFaceCount faces.now.faces faces.now.count }
    requires as_many_names { length parts.now.names ≡ faces.now.count }
    requires earlier_within { All (IsLeadWithin widest) earlier.now }
    ensures first { (places : List Point) → TellsScrap graph.now.edges places faces.now.faces parts.now.names →
        IsFirstLeadIn graph.now.edges places earlier.now (half_edge_of graph.now first.0) result }
    ensures tried { IfSome result (Contains (tried_around (half_edge_of graph.now first.0).from)) }
    ensures near { (n : ℕ) → All (IsEdgeWithin n) graph.now.edges → IfSome result (IsWithin (n + lead_reach)) }
{
    let corners = corners_of(graph, first);
    if let Some(q) = first_in_corner(graph, faces, parts, earlier, corners.left) {
        return Some(q);
    }
    first_in_corner(graph, faces, parts, earlier, corners.right)
}
