//! Places of the plate and the segments between them, in whole micrometres.
ghost use Rattle.std.specs.Prelude.{◌≡◌, ◌<◌, ◌^◌, ◌-ℤ◌, ◌*ℤ◌, unsigned_abs, IsTrue, ◌↔◌, ◌≢◌};
ghost use Rattle.nest_base.specs.Plane.{IsBetween, IsOn, rational, direction, cross_product};
ghost use Rattle.nest_base.specs.Range.{IsNear, IsWithin, IsSegmentWithin, IsEdgeWithin, widest};

/// Coordinates of a drawing lie within plus and minus this many micrometres.
pub const RANGE: i64 = 100_000_000;

/// Places in code lie within plus and minus this many micrometres: a lead-in may begin beyond the range of the drawing.
pub const CODE_RANGE: i64 = 100_010_000;

/// Coordinates of places lie within plus and minus this many micrometres where exact predicates take them: no product of theirs is
/// too large.
pub const PLACE_RANGE: i64 = 2_000_000_000;

/// A place, or the way from one place to another, in micrometres.
#[derive(Clone, Copy, Debug, PartialEq, Eq, PartialOrd, Ord, Hash, Drop)]
pub struct Point {
    pub x: i64,
    pub y: i64,
}

/// A straight cut between two places.
#[derive(Clone, Copy, Debug, PartialEq, Eq, Drop)]
pub struct Segment {
    pub a: Point,
    pub b: Point,
    /// The number of the line of the file that it comes from, from 1.
    pub line: u32,
}

impl Point {
    /// Whether a place lies within `PLACE_RANGE`.
    pub fn is_in_range(&self) -> bool
        ensures { IsTrue result ↔ IsWithin widest self.now }
    {
        -PLACE_RANGE <= self.x
            && self.x <= PLACE_RANGE
            && -PLACE_RANGE <= self.y
            && self.y <= PLACE_RANGE
    }
}

impl Segment {
    /// Whether both ends lie within `PLACE_RANGE`.
    pub fn is_in_range(&self) -> bool
        ensures { IsTrue result ↔ IsSegmentWithin widest self.now }
    {
        self.a.is_in_range() && self.b.is_in_range()
    }

    /// Whether the two ends differ.
    pub fn has_length(&self) -> bool
        ensures { IsTrue result ↔ self.now.a ≢ self.now.b }
    {
        self.a != self.b
    }
}

/// A cut with no vertex inside it: an edge of the plane graph that the torch follows. `low` is less than `high` by x, then by y.
///
/// Edges are ordered by low end, then by high end.
#[derive(Clone, Copy, Debug, PartialEq, Eq, PartialOrd, Ord, Hash, Drop)]
pub struct Edge {
    pub low: Point,
    pub high: Point,
}

impl Edge {
    /// Whether both ends lie within `PLACE_RANGE`.
    pub fn is_in_range(&self) -> bool
        ensures { IsTrue result ↔ IsEdgeWithin widest self.now }
    {
        self.low.is_in_range() && self.high.is_in_range()
    }
}

/// How far `a` lies past `b`, on one axis.
pub(crate) fn difference(a: i64, b: i64) -> i64
    requires a_near { IsNear widest a }
    requires b_near { IsNear widest b }
    ensures value { result ≡ a -ℤ b }
    ensures small { unsigned_abs result < 2 ^ 32 }
{
    a - b
}

/// The product of two small numbers, exact.
pub(crate) fn product(a: i64, b: i64) -> i128
    requires a_small { unsigned_abs a < 2 ^ 33 }
    requires b_small { unsigned_abs b < 2 ^ 33 }
    ensures value { result ≡ a *ℤ b }
    ensures small { unsigned_abs result < 2 ^ 66 }
{
    i128::from(a) * i128::from(b)
}

/// The cross product of `a - o` and `b - o`, exact: positive where one turns left at `o` from `a` to `b`.
///
/// It is twice the signed area of the triangle `o`, `a`, `b`, in square micrometres.
pub fn cross(o: Point, a: Point, b: Point) -> i128
    requires o_within { IsWithin widest o }
    requires a_within { IsWithin widest a }
    requires b_within { IsWithin widest b }
    ensures { result ≡ cross_product (direction o a) (direction o b) }
{
    let left = product(difference(a.x, o.x), difference(b.y, o.y));
    let right = product(difference(a.y, o.y), difference(b.x, o.x));
    left - right
}

/// Whether `p` lies between the ends of `s` in x.
fn is_across(p: Point, s: &Segment) -> bool
    ensures { IsTrue result ↔ IsBetween s.now.a.x p.x s.now.b.x }
{
    (s.a.x <= p.x && p.x <= s.b.x) || (s.b.x <= p.x && p.x <= s.a.x)
}

/// Whether `p` lies between the ends of `s` in y.
fn is_up(p: Point, s: &Segment) -> bool
    ensures { IsTrue result ↔ IsBetween s.now.a.y p.y s.now.b.y }
{
    (s.a.y <= p.y && p.y <= s.b.y) || (s.b.y <= p.y && p.y <= s.a.y)
}

/// Whether `p` lies on `s`, ends included.
pub fn between(p: Point, s: &Segment) -> bool
    requires p_within { IsWithin widest p }
    requires a_within { IsWithin widest s.now.a }
    requires b_within { IsWithin widest s.now.b }
    ensures { IsTrue result ↔ IsOn (rational p) s.now.a s.now.b }
{
    if cross(p, s.a, s.b) != 0 {
        return false;
    }
    if !is_across(p, s) {
        return false;
    }
    is_up(p, s)
}
