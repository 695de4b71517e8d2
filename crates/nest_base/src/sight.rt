//! What the ray that goes west from a place meets, just above the height of the place.
ghost use Rattle.std.specs.Prelude.{◌≡◌, ◌<◌, ◌^◌, ◌+ℤ◌, ◌-ℤ◌, ◌*ℤ◌, ◌<ℤ◌, unsigned_abs, IsTrue, ◌↔◌, ◌⊎◌};
ghost use Rattle.std.specs.Ordering.{int_cmp};
ghost use Rattle.nest_base.specs.Plane.{HalfEdge};
ghost use Rattle.nest_base.specs.Range.{IsWithin, IsEdgeWithin, widest};
ghost use Rattle.nest_base.specs.Sight.{IsMet, IsNearer, GoesDown, fall as fall_of, drift as drift_of, x_at as x_at_by_definition};

use crate::places::{Edge, Point, cross, difference, product};
use std::cmp::Ordering;

/// An edge followed downward; a level one from its high end to its low one.
#[derive(Clone, Copy, Debug, Drop)]
struct Descent {
    from: Point,
    to: Point,
}

/// An edge followed downward.
fn downward(e: &Edge) -> Descent
    ensures within { IsEdgeWithin widest e.now → IsWithin widest result.from × IsWithin widest result.to }
    ensures down { result.to.y <ℤ result.from.y → GoesDown e.now (record { from = result.from; to = result.to }) }
    ensures only { (d : HalfEdge) → GoesDown e.now d → (d.from ≡ result.from) × (d.to ≡ result.to) }
{
    if e.low.y > e.high.y {
        Descent {
            from: e.low,
            to: e.high,
        }
    } else {
        Descent {
            from: e.high,
            to: e.low,
        }
    }
}

/// Whether the ray west from `p`, just above its height, meets `e`: the lower end lies at or below this height, the upper end above
/// it, and `p` strictly east of the line. A level edge isn't met, and one that touches the height with its upper end isn't either.
pub fn west_of(e: &Edge, p: Point) -> bool
    requires e_within { IsEdgeWithin widest e.now }
    requires p_within { IsWithin widest p }
    ensures met { IsTrue result ↔ ((d : HalfEdge) × GoesDown e.now d × IsMet p d) }
{
    let d = downward(e);
    if d.to.y > p.y {
        return false;
    }
    if p.y >= d.from.y {
        return false;
    }
    cross(d.from, d.to, p) > 0
}

/// How far an edge goes down.
fn fall(d: &Descent) -> i64
    requires from_within { IsWithin widest d.now.from }
    requires to_within { IsWithin widest d.now.to }
    ensures value { result ≡ d.now.from.y -ℤ d.now.to.y }
    ensures small { unsigned_abs result < 2 ^ 32 }
{
    difference(d.from.y, d.to.y)
}

/// How far it goes west meanwhile.
fn drift(d: &Descent) -> i64
    requires from_within { IsWithin widest d.now.from }
    requires to_within { IsWithin widest d.now.to }
    ensures value { result ≡ d.now.from.x -ℤ d.now.to.x }
    ensures small { unsigned_abs result < 2 ^ 32 }
{
    difference(d.from.x, d.to.x)
}

/// Where the line of an edge is at the height of `p`: x times the edge's fall.
fn x_at(p: Point, d: &Descent) -> i128
    requires p_within { IsWithin widest p }
    requires from_within { IsWithin widest d.now.from }
    requires to_within { IsWithin widest d.now.to }
    ensures value { result ≡ (d.now.to.x *ℤ (d.now.from.y -ℤ d.now.to.y)) +ℤ ((d.now.from.x -ℤ d.now.to.x) *ℤ (p.y -ℤ d.now.to.y)) }
    ensures small { unsigned_abs result < 2 ^ 67 }
{
    product(d.to.x, fall(d)) + product(drift(d), difference(p.y, d.to.y))
}

/// The product of a large number and a small one, exact.
fn times(a: i128, b: i64) -> i128
    requires a_small { unsigned_abs a < 2 ^ 67 }
    requires b_small { unsigned_abs b < 2 ^ 33 }
    ensures value { result ≡ a *ℤ b }
{
    a * i128::from(b)
}

/// How `d` and `e` lie at the height of `p`, from east to west.
fn order_at(p: Point, d: &Descent, e: &Descent) -> Ordering
    requires p_within { IsWithin widest p }
    requires d_from { IsWithin widest d.now.from }
    requires d_to { IsWithin widest d.now.to }
    requires e_from { IsWithin widest e.now.from }
    requires e_to { IsWithin widest e.now.to }
    ensures { (g h : HalfEdge) → g.from ≡ d.now.from → g.to ≡ d.now.to → h.from ≡ e.now.from → h.to ≡ e.now.to →
        result ≡ int_cmp (x_at_by_definition p.y h *ℤ fall_of g) (x_at_by_definition p.y g *ℤ fall_of h) }
{
    times(x_at(p, e), fall(d)).cmp(&times(x_at(p, d), fall(e)))
}

/// How they lie just above it where they have one x there, from east to west.
fn order_above(d: &Descent, e: &Descent) -> Ordering
    requires d_from { IsWithin widest d.now.from }
    requires d_to { IsWithin widest d.now.to }
    requires e_from { IsWithin widest e.now.from }
    requires e_to { IsWithin widest e.now.to }
    ensures { (g h : HalfEdge) → g.from ≡ d.now.from → g.to ≡ d.now.to → h.from ≡ e.now.from → h.to ≡ e.now.to →
        result ≡ int_cmp (drift_of h *ℤ fall_of g) (drift_of g *ℤ fall_of h) }
{
    product(drift(e), fall(d)).cmp(&product(drift(d), fall(e)))
}

/// Whether of two edges that the ray west from `p` meets `d` is the nearer one: it has the greater x at the height of `p`, or the
/// same x there and the greater one just above it.
///
/// The x of each is a fraction over its fall; they are compared by products, exactly.
pub fn is_nearer(p: Point, d: &Edge, e: &Edge) -> bool
    requires p_within { IsWithin widest p }
    requires d_within { IsEdgeWithin widest d.now }
    requires e_within { IsEdgeWithin widest e.now }
    ensures nearer { (g h : HalfEdge) → GoesDown d.now g → GoesDown e.now h → IsTrue result ↔ IsNearer p g h }
{
    let d = downward(d);
    let e = downward(e);
    order_at(p, &d, &e).then(order_above(&d, &e)) == Ordering::Less
}
