//! Whether a straight cut to a place touches another before it comes there.
ghost use Rattle.std.specs.Prelude.{IsTrue, ◌↔◌};
ghost use Rattle.nest_base.specs.Range.{IsWithin, widest};
ghost use Rattle.plate_parts.specs.LeadIns.{TouchesAtMostAt};
ghost use Rattle.segment_meeting.specs.Orientation.{LieBeyond};
ghost use Rattle.segment_meeting.specs.Folds.{Folds};

use nest_base::{Point, Segment, between, cross};
use segment_meeting::share_point;

/// Whether `u` and `v` both lie strictly to the east of `o`, or both to the west.
fn lie_aside(o: Point, u: Point, v: Point) -> bool
    ensures { IsTrue result ↔ LieBeyond o.x u.x v.x }
{
    if o.x < u.x {
        return o.x < v.x;
    }
    u.x < o.x && v.x < o.x
}

/// Whether `u` and `v` both lie strictly to the north of `o`, or both to the south.
fn lie_above(o: Point, u: Point, v: Point) -> bool
    ensures { IsTrue result ↔ LieBeyond o.y u.y v.y }
{
    if o.y < u.y {
        return o.y < v.y;
    }
    u.y < o.y && v.y < o.y
}

/// Whether the ways from `o` to `u` and to `v` are one direction.
fn folds(o: Point, u: Point, v: Point) -> bool
    requires o_within { IsWithin widest o }
    requires u_within { IsWithin widest u }
    requires v_within { IsWithin widest v }
    ensures { IsTrue result ↔ Folds o u v }
{
    if cross(o, u, v) != 0 {
        return false;
    }
    if lie_aside(o, u, v) {
        return true;
    }
    lie_above(o, u, v)
}

/// Whether the segment from `q` to `v` has no point of the plane but `v` in common with the segment from `a` to `b`.
///
/// All coordinates lie within 2,000,000,000 micrometres. Nothing is allocated.
pub fn touches_at_most_at(v: Point, q: Point, a: Point, b: Point) -> bool
    requires v_within { IsWithin widest v }
    requires q_within { IsWithin widest q }
    requires a_within { IsWithin widest a }
    requires b_within { IsWithin widest b }
    ensures { IsTrue result ↔ TouchesAtMostAt v q a b }
{
    let lead = Segment {
        a: q,
        b: v,
        line: 0,
    };
    let cut = Segment { a, b, line: 0 };
    if !share_point(&lead, &cut) {
        return true;
    }
    if !between(v, &cut) {
        return false;
    }
    if folds(v, q, a) {
        return false;
    }
    !folds(v, q, b)
}
