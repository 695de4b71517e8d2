//! Two ways to choose.
ghost use Rattle.std.specs.Prelude.{◌≡◌, ◌<◌, ◌^◌, ◌↔◌, ◌-ℤ◌, ◌*ℤ◌, All, IsTrue, length, unsigned_abs};
ghost use Rattle.nest_base.specs.Order.{IsMarkedBefore};
ghost use Rattle.nest_base.specs.Range.{IsNear, IsWithin, widest};
ghost use Rattle.start_policy.specs.Choices.{IsFirstBy, IsNearer, IsWestOf, IsSiteWithin, squared_distance};

use crate::site::Site;
use nest_base::Point;

/// Whether `p` lies west of `q`, or north of it at the same x.
fn is_west_of(p: Point, q: Point) -> bool
    ensures { IsTrue result ↔ IsMarkedBefore p q }
{
    p.x < q.x || p.x == q.x && q.y < p.y
}

/// The site with the least x, of several the one with the greatest y, and of several at one place the first in the list.
///
/// Takes **O(k)** for k sites.
pub fn leftmost(sites: &[Site]) -> usize
    requires { 0 < length sites.now }
    ensures first { IsFirstBy IsWestOf sites.now result }
    ensures within { result < length sites.now }
{
    let mut first = 0;
    for k in 1..sites.len() {
        if is_west_of(sites[k].at, sites[first].at) {
            first = k;
        }
    }
    first
}

/// The square of the difference of two coordinates.
fn squared_span(a: i64, b: i64) -> i128
    requires a_near { IsNear widest a }
    requires b_near { IsNear widest b }
    ensures value { result ≡ (a -ℤ b) *ℤ (a -ℤ b) }
    ensures small { unsigned_abs result < 2 ^ 65 }
{
    let span = i128::from(a - b);
    span * span
}

/// The square of the distance of two places.
fn distance_squared(p: Point, q: Point) -> i128
    requires p_within { IsWithin widest p }
    requires q_within { IsWithin widest q }
    ensures { result ≡ squared_distance p q }
{
    squared_span(p.x, q.x) + squared_span(p.y, q.y)
}

/// The site with the least distance to `last`, and of several the first in the list.
///
/// All coordinates lie within 2,000,000,000 micrometres. Takes **O(k)** for k sites.
pub fn nearest(sites: &[Site], last: Point) -> usize
    requires some { 0 < length sites.now }
    requires sites_within { All (IsSiteWithin widest) sites.now }
    requires last_within { IsWithin widest last }
    ensures first { IsFirstBy (IsNearer last) sites.now result }
    ensures within { result < length sites.now }
{
    let mut first = 0;
    let mut least = distance_squared(sites[0].at, last);
    for k in 1..sites.len() {
        let distance = distance_squared(sites[k].at, last);
        if distance < least {
            first = k;
            least = distance;
        }
    }
    first
}
