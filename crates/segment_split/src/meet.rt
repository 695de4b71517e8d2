//! Where two segments meet.
ghost use Rattle.std.specs.Prelude.{◌≡◌, ◌*ℤ◌, IsTrue, ◌↔◌};
ghost use Rattle.nest_base.specs.Plane.{RationalPoint, MeetIn};
ghost use Rattle.nest_base.specs.Range.{IsNear, IsSegmentWithin, widest};
ghost use Rattle.plate_edges.specs.Cuts.{IsFloor, IsParallel};
ghost use Rattle.segment_split.specs.Meetings.{IsMeeting, IsTurn, IsPart, MeetAlong, numerator_along};

use nest_base::{Point, Segment, cross};
use segment_meeting::share_point;

/// Where two segments meet.
#[derive(Clone, Copy, Debug, PartialEq, Eq, Drop)]
pub enum Meeting {
    /// They share no point.
    Apart,
    /// They share a point and go along one line.
    Parallel,
    /// They aren't parallel, and this place is their common point.
    At(Point),
    /// They aren't parallel, and their common point is no place; this is it with each coordinate rounded down.
    OffLattice(Point),
}

/// A fraction from 0 to 1, of the way along a segment.
#[derive(Clone, Copy, Drop)]
struct Fraction {
    part: i128,
    whole: i128,
}

/// A coordinate rounded down, and whether nothing was lost by it.
#[derive(Clone, Copy, Drop)]
struct Rounded {
    down: i64,
    is_exact: bool,
}

/// By how much the way along `t` turns left of that along `s`.
fn turn_from(s: &Segment, t: &Segment) -> i128
    requires s_within { IsSegmentWithin widest s.now }
    requires t_within { IsSegmentWithin widest t.now }
    ensures { IsTurn s.now t.now result }
{
    cross(s.a, s.b, t.b) - cross(s.a, s.b, t.a)
}

/// How far along `s` it meets `t`, to which it isn't parallel.
fn crossing_on(s: &Segment, t: &Segment, turn: i128) -> Fraction
    requires s_within { IsSegmentWithin widest s.now }
    requires t_within { IsSegmentWithin widest t.now }
    requires turn { IsTurn s.now t.now turn }
    requires not_parallel { IsParallel s.now t.now → ⊥ }
    requires meet { (p : RationalPoint) × MeetIn s.now t.now p }
    ensures { MeetAlong s.now t.now result.part result.whole }
{
    let side = cross(t.a, t.b, s.a);
    if turn < 0 {
        return Fraction {
            part: -side,
            whole: -turn,
        };
    }
    Fraction {
        part: side,
        whole: turn,
    }
}

/// The coordinate at a fraction of the way from one to another, times `f.whole`.
fn coordinate_along(from: i64, to: i64, f: Fraction) -> i128
    requires from_near { IsNear widest from }
    requires to_near { IsNear widest to }
    requires fraction { IsPart f.part f.whole }
    ensures { result ≡ numerator_along from to f.part f.whole }
{
    i128::from(from) * f.whole + (i128::from(to) - i128::from(from)) * f.part
}

/// The coordinate at a fraction of the way from one to another, rounded down.
fn rounded_along(from: i64, to: i64, f: Fraction) -> Rounded
    requires from_near { IsNear widest from }
    requires to_near { IsNear widest to }
    requires fraction { IsPart f.part f.whole }
    ensures down { IsFloor (numerator_along from to f.part f.whole) f.whole result.down }
    ensures exact { IsTrue result.is_exact ↔ ((result.down *ℤ f.whole) ≡ numerator_along from to f.part f.whole) }
{
    let exact = coordinate_along(from, to, f);
    let down = exact.div_euclid(f.whole);
    Rounded {
        down: down as i64,
        is_exact: down * f.whole == exact,
    }
}

/// Where two segments meet, exactly.
///
/// Coordinates are micrometres and lie within 2,000,000,000. Segments that share no point are `Apart`, parallel or not; a
/// segment without length is parallel to each. Nothing is allocated.
pub fn meeting_of(s: &Segment, t: &Segment) -> Meeting
    requires s_within { IsSegmentWithin widest s.now }
    requires t_within { IsSegmentWithin widest t.now }
    ensures { IsMeeting result s.now t.now }
{
    if !share_point(s, t) {
        return Meeting::Apart;
    }
    let turn = turn_from(s, t);
    if turn == 0 {
        return Meeting::Parallel;
    }
    let f = crossing_on(s, t, turn);
    let x = rounded_along(s.a.x, s.b.x, f);
    let y = rounded_along(s.a.y, s.b.y, f);
    let place = Point {
        x: x.down,
        y: y.down,
    };
    if !x.is_exact {
        return Meeting::OffLattice(place);
    }
    if !y.is_exact {
        return Meeting::OffLattice(place);
    }
    Meeting::At(place)
}
