//! Directions inside an angle.
ghost use Rattle.std.specs.Prelude.{◌≡◌, IsTrue, ◌↔◌};
ghost use Rattle.nest_base.specs.Plane.{direction};
ghost use Rattle.nest_base.specs.Range.{IsWithin, widest};
ghost use Rattle.nest_base.specs.Turn.{IsInsideAngle};
ghost use Rattle.nest_base.specs.Angles.{IsDirection, IsBeforeByAngle};

use nest_base::{Point, turn_order};
use std::cmp::Ordering;

/// The direction from one place to another.
pub(crate) fn direction_to(a: Point, b: Point) -> Point
    requires a_within { IsWithin widest a }
    requires b_within { IsWithin widest b }
    ensures { result ≡ direction a b }
{
    Point {
        x: b.x - a.x,
        y: b.y - a.y,
    }
}

/// Whether `a` comes strictly before `b`, counterclockwise from west on.
fn comes_before(a: Point, b: Point) -> bool
    ensures { IsTrue result ↔ IsBeforeByAngle a b }
{
    turn_order(a, b) == Ordering::Less
}

/// Whether `d` is met strictly after `a` and strictly before `b` when one turns counterclockwise from `a`; where `a` and `b` are one
/// direction, that is a whole turn. None of them leads nowhere.
pub fn is_inside(a: Point, d: Point, b: Point) -> bool
    requires a_leads { IsDirection a }
    requires d_leads { IsDirection d }
    requires b_leads { IsDirection b }
    ensures { IsTrue result ↔ IsInsideAngle a d b }
{
    if comes_before(a, b) {
        return comes_before(a, d) && comes_before(d, b);
    }
    if comes_before(a, d) {
        return true;
    }
    comes_before(d, b)
}
