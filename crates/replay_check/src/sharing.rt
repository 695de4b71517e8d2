//! Whether a move has more than one point in common with an edge.
ghost use Rattle.std.specs.Prelude.{◌≡◌, ◌≢◌, ◌⊎◌, ◌↔◌, IsTrue, pos};
ghost use Rattle.nest_base.specs.Order.{IsBefore};
ghost use Rattle.nest_base.specs.Range.{IsWithin, IsEdgeWithin, widest};
ghost use Rattle.segment_meeting.specs.Orientation.{orientation};
ghost use Rattle.replay_check.specs.Kinds.{ShareMorePoints};

use nest_base::{Edge, Point, cross};

/// Whether `a` comes before `b` by x, then by y.
fn is_before(a: Point, b: Point) -> bool
    ensures { IsTrue result ↔ IsBefore a b }
{
    a < b
}

/// A straight way as an edge: its lesser end is `low`.
fn in_order(a: Point, b: Point) -> Edge
    requires { a ≢ b }
    ensures order { IsBefore result.low result.high }
    ensures ends { ((result.low ≡ a) × (result.high ≡ b)) ⊎ ((result.low ≡ b) × (result.high ≡ a)) }
{
    if a < b {
        Edge { low: a, high: b }
    } else {
        Edge { low: b, high: a }
    }
}

/// Whether `p` lies on the line through `a` and `b`.
fn is_on_line(a: Point, b: Point, p: Point) -> bool
    requires a_within { IsWithin widest a }
    requires b_within { IsWithin widest b }
    requires p_within { IsWithin widest p }
    ensures { IsTrue result ↔ (orientation a b p ≡ pos 0) }
{
    cross(a, b, p) == 0
}

/// Whether the straight way from `a` to `b` has more than one point of the plane in common with an edge: both lie on one line, and
/// the low end of each is less than the high end of the other.
///
/// All coordinates lie within 2,000,000,000 micrometres. Nothing is allocated. The ends are compared first, since of most edges they tell
/// it with no product.
pub fn shares_more(a: Point, b: Point, e: &Edge) -> bool
    requires apart { a ≢ b }
    requires ends_in_order { IsBefore e.now.low e.now.high }
    requires a_within { IsWithin widest a }
    requires b_within { IsWithin widest b }
    requires e_within { IsEdgeWithin widest e.now }
    ensures shared { IsTrue result → ShareMorePoints a b e.now.low e.now.high }
    ensures not_shared { ShareMorePoints a b e.now.low e.now.high → IsTrue result }
{
    let m = in_order(a, b);
    if !is_before(e.low, m.high) {
        return false;
    }
    if !is_before(m.low, e.high) {
        return false;
    }
    if !is_on_line(a, b, e.low) {
        return false;
    }
    is_on_line(a, b, e.high)
}
