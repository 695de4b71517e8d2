//! The two corners of a half-edge at its first vertex.
ghost use Rattle.std.specs.Prelude.{◌≡◌, ◌<◌, length};
ghost use Rattle.nest_base.specs.Plane.{heading};
ghost use Rattle.half_edges.specs.Numbers.{half_edges_of};
ghost use Rattle.half_edges.specs.PlaneGraphs.{IsPlaneGraph};
ghost use Rattle.cover_plan.specs.Trails.{half_edge_of};
ghost use Rattle.plate_parts.specs.LeadIns.{Left, Right};
ghost use Rattle.lead_ins.specs.Corners.{IsCornerBetween, IsCornerOf};

use crate::angle::direction_to;
use half_edges::PlaneGraph;
use nest_base::{Point, Side};

/// A corner of the plate at a vertex.
#[derive(Clone, Copy, Debug, PartialEq, Eq, Drop)]
pub struct Corner {
    pub vertex: Point,
    /// The two directions between which it lies, counterclockwise from the first.
    pub first: Point,
    pub last: Point,
    /// The half-edge that leaves in the first direction: the corner lies in the face to its left.
    pub side: Side,
}

/// The corners to the left and to the right of a half-edge.
#[derive(Clone, Copy, Debug, PartialEq, Eq, Drop)]
pub struct Corners {
    pub left: Corner,
    pub right: Corner,
}

/// Where a half-edge begins.
pub fn beginning_of(graph: &PlaneGraph, s: Side) -> Point
    requires { s.0 < length (half_edges_of graph.now.edges) }
    ensures { result ≡ (half_edge_of graph.now s.0).from }
{
    graph.place(graph.from(s))
}

/// The direction in which a half-edge leads.
fn heading_of(graph: &PlaneGraph, s: Side) -> Point
    requires plane_graph { IsPlaneGraph graph.now }
    requires within { s.0 < length (half_edges_of graph.now.edges) }
    ensures { result ≡ heading (half_edge_of graph.now s.0) }
{
    direction_to(beginning_of(graph, s), beginning_of(graph, graph.twin(s)))
}

/// The corner from `a` counterclockwise to `b`, which leave one vertex.
fn corner_between(graph: &PlaneGraph, a: Side, b: Side) -> Corner
    requires a_within { a.0 < length (half_edges_of graph.now.edges) }
    requires b_within { b.0 < length (half_edges_of graph.now.edges) }
    ensures side { result.side ≡ a }
    ensures between { IsCornerBetween graph.now result (half_edge_of graph.now b.0) }
    ensures plane_graph { IsPlaneGraph graph.now }
{
    let edges = graph.edge_count();
    prove!(a.0 / 2 < edges);
    Corner {
        vertex: beginning_of(graph, a),
        first: heading_of(graph, a),
        last: heading_of(graph, b),
        side: a,
    }
}

/// The two corners of a half-edge: between it and the next one counterclockwise, and between the next one clockwise and it.
pub fn corners_of(graph: &PlaneGraph, s: Side) -> Corners
    requires { s.0 < length (half_edges_of graph.now.edges) }
    ensures left { IsCornerOf graph.now s.0 Left result.left }
    ensures right { IsCornerOf graph.now s.0 Right result.right }
{
    Corners {
        left: corner_between(graph, s, graph.ccw(s)),
        right: corner_between(graph, graph.cw(s), s),
    }
}
