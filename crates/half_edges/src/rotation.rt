//! All half-edges in the order of their vertices, and round each counterclockwise from west.
ghost use Rattle.std.specs.Prelude.{◌≡◌, ◌≤◌, length, map, All, AllPairs, IfOk, Some, refl};
ghost use Rattle.std.specs.Cmp.{partial_equiv_from_equiv, partial_order_from_agreeing_total, on_total};
ghost use Rattle.std.specs.Ordering.{is_eq};
ghost use Rattle.std.proofs.lemmas.Cmp.{eq_by_cmp_equiv};
ghost use Rattle.nest_base.specs.Plane.{direction};
ghost use Rattle.nest_base.specs.Angles.{angle_cmp};
ghost use Rattle.nest_base.proofs.Angles.{angle_cmp-total};
ghost use Rattle.nest_base.specs.Order.{IsBefore};
ghost use Rattle.nest_base.specs.Range.{IsWithin, IsEdgeWithin, widest};
ghost use Rattle.nest_base.specs.Limits.{most_edges};
ghost use Rattle.plate_edges.specs.Points.{EdgesMeetAtEndsOnly};
ghost use Rattle.half_edges.specs.Rotations.{AreAllRound};
ghost use Rattle.half_edges.specs.Spokes.{spoke_between, AreSpokes};

use crate::mark_order::MarkOrder;
use nest_base::{Edge, OutOfMemory, Point, Side, turn_order};
use std::alloc::Global;
use std::cmp::Ordering;

/// A direction, compared by angle, counterclockwise from west.
#[derive(Clone, Copy, Drop)]
pub struct Direction(Point);

impl PartialEq for Direction {
    ghost eq = { λ a b. is_eq (angle_cmp a.0 b.0) };

    ghost laws = { partial_equiv_from_equiv (eq_by_cmp_equiv (on_total (λ d. d.0) angle_cmp-total)) };

    fn eq(&self, other: &Direction) -> bool {
        self.cmp(other) == Ordering::Equal
    }
}

impl Eq for Direction {
    ghost laws = { eq_by_cmp_equiv (on_total (λ d. d.0) angle_cmp-total) };
}

impl PartialOrd for Direction {
    ghost partial_cmp = { λ a b. Some (angle_cmp a.0 b.0) };

    ghost laws = { partial_order_from_agreeing_total (λ a b. angle_cmp a.0 b.0) (on_total (λ d. d.0) angle_cmp-total) (λ a b. refl) (λ a b. refl) };

    fn partial_cmp(&self, other: &Direction) -> Option<Ordering> {
        Some(self.cmp(other))
    }
}

impl Ord for Direction {
    ghost cmp = { λ a b. angle_cmp a.0 b.0 };

    ghost total = { on_total (λ d. d.0) angle_cmp-total };

    ghost matches_partial_cmp = { λ a b. refl };

    ghost matches_eq = { λ a b. refl };

    fn cmp(&self, other: &Direction) -> Ordering {
        turn_order(self.0, other.0)
    }
}

/// The direction from one place to another.
pub fn way(from: Point, to: Point) -> Direction
    requires from_within { IsWithin widest from }
    requires to_within { IsWithin widest to }
    ensures { result.0 ≡ direction from to }
{
    Direction(Point {
        x: to.x - from.x,
        y: to.y - from.y,
    })
}

/// A half-edge as it leaves its vertex. No two have one place and one direction, so the number decides nothing.
#[derive(Clone, Copy, PartialEq, Eq, PartialOrd, Ord, Drop)]
struct Spoke {
    at: MarkOrder,
    toward: Direction,
    side: Side,
}

/// The half-edge from one place to another as a spoke.
fn spoke_of(from: Point, to: Point, side: Side) -> Spoke
    requires from_within { IsWithin widest from }
    requires to_within { IsWithin widest to }
    ensures { result ≡ spoke_between from to side.0 }
{
    Spoke {
        at: MarkOrder::of(from),
        toward: way(from, to),
        side,
    }
}

/// All half-edges as spokes, by number.
fn spokes_of(alloc: Global, edges: &[Edge]) -> Result<Vec<Spoke>, OutOfMemory>
    requires few { length edges.now ≤ most_edges }
    requires within { All (IsEdgeWithin widest) edges.now }
    ensures { IfOk result (λ spokes. AreSpokes edges.now spokes.items) }
{
    let mut spokes = Vec::with_capacity(alloc, 2 * edges.len())?;
    for (k, e) in edges.iter().enumerate() {
        let forth = 2 * k as u32;
        spokes.push(spoke_of(e.low, e.high, Side(forth)))?;
        spokes.push(spoke_of(e.high, e.low, Side(forth + 1)))?;
    }
    Ok(spokes)
}

/// The numbers of spokes, in their order.
fn sides_of(alloc: Global, spokes: &[Spoke]) -> Result<Vec<Side>, OutOfMemory>
    ensures { IfOk result (λ sides. sides.items ≡ map (λ p. p.side) spokes.now) }
{
    let mut sides = Vec::with_capacity(alloc, spokes.len())?;
    for p in spokes {
        sides.push(p.side)?;
    }
    Ok(sides)
}

/// The numbers of all half-edges: those of earlier vertices first, in the order of mark vertices, and those of one vertex
/// counterclockwise from west.
///
/// Takes **O(n log n)** for n edges, and memory for 2n half-edges with their places, which is given back, and for their numbers.
pub fn all_round(alloc: Global, edges: &[Edge]) -> Result<Vec<Side>, OutOfMemory>
    requires few { length edges.now ≤ most_edges }
    requires within { All (IsEdgeWithin widest) edges.now }
    requires ends_in_order { All (λ e. IsBefore e.low e.high) edges.now }
    requires apart { AllPairs EdgesMeetAtEndsOnly edges.now }
    ensures { IfOk result (λ sides. AreAllRound edges.now (map (λ s. s.0) sides.items)) }
{
    let mut spokes = spokes_of(alloc, edges)?;
    spokes.sort_unstable();
    sides_of(alloc, &spokes)
}
