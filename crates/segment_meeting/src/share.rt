//! Whether two segments share a point.
ghost use Rattle.std.specs.Prelude.{◌≡◌, false, IsTrue, ◌↔◌};
ghost use Rattle.nest_base.specs.Plane.{RationalPoint, MeetIn};
ghost use Rattle.nest_base.specs.Range.{IsSegmentWithin, widest};
ghost use Rattle.segment_meeting.specs.Orientation.{AreBefore, AreBoxesApart, LieAside};

use nest_base::{Segment, cross};

/// Whether `s` lies wholly to the west of `t`.
fn is_west_of(s: &Segment, t: &Segment) -> bool
    ensures { IsTrue result ↔ AreBefore s.now.a.x s.now.b.x t.now.a.x t.now.b.x }
{
    s.a.x < t.a.x && s.a.x < t.b.x && s.b.x < t.a.x && s.b.x < t.b.x
}

/// Whether `s` lies wholly to the south of `t`.
fn is_south_of(s: &Segment, t: &Segment) -> bool
    ensures { IsTrue result ↔ AreBefore s.now.a.y s.now.b.y t.now.a.y t.now.b.y }
{
    s.a.y < t.a.y && s.a.y < t.b.y && s.b.y < t.a.y && s.b.y < t.b.y
}

/// Whether an upright or a level line parts the two: the box of one lies wholly to the west or to the south of the other's.
fn are_boxes_apart(s: &Segment, t: &Segment) -> bool
    ensures { IsTrue result ↔ AreBoxesApart s.now t.now }
{
    if is_west_of(s, t) {
        return true;
    }
    if is_west_of(t, s) {
        return true;
    }
    if is_south_of(s, t) {
        return true;
    }
    is_south_of(t, s)
}

/// Whether both ends of `t` lie strictly on one side of the line of `s`.
fn has_aside(s: &Segment, t: &Segment) -> bool
    requires s_within { IsSegmentWithin widest s.now }
    requires t_within { IsSegmentWithin widest t.now }
    ensures { IsTrue result ↔ LieAside s.now.a s.now.b t.now.a t.now.b }
{
    let first = cross(s.a, s.b, t.a);
    let second = cross(s.a, s.b, t.b);
    (first > 0 && second > 0) || (first < 0 && second < 0)
}

/// Whether two segments share a point of the plane, be it a place or not.
///
/// All coordinates lie within 2,000,000,000 micrometres. Nothing is allocated. Boxes that lie apart are told before any product is
/// taken, since of many segments nearly all pairs are such.
pub fn share_point(s: &Segment, t: &Segment) -> bool
    requires s_within { IsSegmentWithin widest s.now }
    requires t_within { IsSegmentWithin widest t.now }
    ensures found { IsTrue result → (p : RationalPoint) × MeetIn s.now t.now p }
    ensures none { result ≡ false → (p : RationalPoint) → MeetIn s.now t.now p → ⊥ }
{
    if are_boxes_apart(s, t) {
        return false;
    }
    if has_aside(s, t) {
        return false;
    }
    !has_aside(t, s)
}
