//! The order of directions by angle.
ghost use Rattle.std.specs.Prelude.{◌≡◌, pos, ◌↔◌};
ghost use Rattle.std.specs.Ordering.{int_cmp};
ghost use Rattle.nest_base.specs.Plane.{cross_product};
ghost use Rattle.nest_base.specs.Turn.{IsSameDirection};
ghost use Rattle.nest_base.specs.Angles.{half_of as half_by_definition, angle_cmp, IsDirection, IsBeforeFromWest};

use crate::places::Point;
use std::cmp::Ordering;

/// The half of all directions to which one belongs, by number: 1 from west on as far as just before east, 2 from east on as far
/// as just before west. What leads nowhere is alone in its half, 0.
fn half_of(d: Point) -> u8
    ensures { result ≡ half_by_definition d }
{
    match d.y.cmp(&0) {
        Ordering::Less => 1,
        Ordering::Equal => match d.x.cmp(&0) {
            Ordering::Less => 1,
            Ordering::Equal => 0,
            Ordering::Greater => 2,
        },
        Ordering::Greater => 2,
    }
}

/// `a` before `b` where one turns left from `a` to `b`.
///
/// The two products of the cross product are compared, so no difference has to fit.
fn side_order(a: Point, b: Point) -> Ordering
    ensures { result ≡ int_cmp (pos 0) (cross_product a b) }
{
    let below = i128::from(a.y) * i128::from(b.x);
    let above = i128::from(a.x) * i128::from(b.y);
    below.cmp(&above)
}

/// The order of two directions by angle, west first and counterclockwise. It's exact for all directions.
pub fn turn_order(a: Point, b: Point) -> Ordering
    ensures order { result ≡ angle_cmp a b }
    ensures before { IsDirection a → IsDirection b → (result ≡ Ordering.Less) ↔ IsBeforeFromWest a b }
    ensures same { IsDirection a → IsDirection b → (result ≡ Ordering.Equal) ↔ IsSameDirection a b }
    ensures after { IsDirection a → IsDirection b → (result ≡ Ordering.Greater) ↔ IsBeforeFromWest b a }
{
    half_of(a).cmp(&half_of(b)).then(side_order(a, b))
}
