//! The order of mark vertices.
ghost use Rattle.std.specs.Prelude.{◌≡◌};
ghost use Rattle.half_edges.specs.Marks.{mark_order};

use nest_base::Point;
use std::cmp::Reverse;

/// A place in the order of mark vertices: the least x first, then the greatest y.
#[derive(Clone, Copy, PartialEq, Eq, PartialOrd, Ord, Drop)]
pub struct MarkOrder {
    x: i64,
    y: Reverse<i64>,
}

impl MarkOrder {
    /// Where a place stands in the order.
    pub fn of(p: Point) -> MarkOrder
        ensures { result ≡ mark_order p }
    {
        MarkOrder {
            x: p.x,
            y: Reverse(p.y),
        }
    }
}
