//! The places around a vertex at which a lead-in may begin, in the order in which they are tried.
ghost use Rattle.std.specs.Prelude.{◌≡◌, ◌<◌, ◌%◌, All, slice_get, Some};
ghost use Rattle.nest_base.specs.Plane.{HalfEdge};
ghost use Rattle.nest_base.specs.Range.{IsWithin, IsNear, widest};
ghost use Rattle.plate_parts.specs.LeadIns.{away_from as away_from_by, tried_around, IsFirstFit};
ghost use Rattle.lead_ins.specs.Corners.{IsLeadWithin, IsCornerBetween, IsClear};
ghost use Rattle.lead_ins.specs.Tries.{lead_range};

use crate::clear::is_clear;
use crate::corners::Corner;
use half_edges::PlaneGraph;
use nest_base::Point;
use plate_parts::Lead;

/// Ways to go, counterclockwise from east.
const WAYS: [Point; 16] = [
    Point { x: 2, y: 0 },
    Point { x: 2, y: 1 },
    Point { x: 2, y: 2 },
    Point { x: 1, y: 2 },
    Point { x: 0, y: 2 },
    Point { x: -1, y: 2 },
    Point { x: -2, y: 2 },
    Point { x: -2, y: 1 },
    Point { x: -2, y: 0 },
    Point { x: -2, y: -1 },
    Point { x: -2, y: -2 },
    Point { x: -1, y: -2 },
    Point { x: 0, y: -2 },
    Point { x: 1, y: -2 },
    Point { x: 2, y: -2 },
    Point { x: 2, y: -1 },
];

/// How many times a way is gone for a long lead-in.
const LONG: i64 = 2_000;

/// And for a short one.
const SHORT: i64 = 500;

/// How many places are tried around a vertex: each way long, then each short.
const TRIES: usize = 2 * WAYS.len();

/// The place that lies so many times this way from `v`.
fn away_from(v: Point, times: i64, way: Point) -> Point
    requires v_within { IsWithin lead_range v }
    requires times_near { IsNear 2000 times }
    requires way_near { IsWithin 2 way }
    ensures { result ≡ away_from_by v times way }
{
    Point {
        x: v.x + way.x * times,
        y: v.y + way.y * times,
    }
}

/// The place that is tried at place `k`.
fn tried_at(v: Point, k: usize) -> Point
    requires v_within { IsWithin lead_range v }
    requires k_within { k < 32 }
    ensures place { slice_get (tried_around v) k ≡ Some result }
    ensures near { IsWithin widest result }
{
    let way = WAYS[k % WAYS.len()];
    if k < WAYS.len() {
        away_from(v, LONG, way)
    } else {
        away_from(v, SHORT, way)
    }
}

/// The first place that is tried from which a lead-in is clear; `None` exactly where none is.
pub fn first_clear(graph: &PlaneGraph, earlier: &[Lead], corner: Corner) -> Option<Point>
    requires corner { (b : HalfEdge) × IsCornerBetween graph.now corner b }
    requires near { IsWithin lead_range corner.vertex }
    requires earlier_within { All (IsLeadWithin widest) earlier.now }
    ensures { IsFirstFit (IsClear graph.now.edges earlier.now corner) (tried_around corner.vertex) result }
{
    for k in 0..TRIES {
        let q = tried_at(corner.vertex, k);
        if is_clear(graph, earlier, corner, q) {
            return Some(q);
        }
    }
    None
}
