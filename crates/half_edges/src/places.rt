//! Vertices numbered by place.
ghost use Rattle.std.specs.Prelude.{◌≡◌, ◌≤◌, ◌<◌, length, slice_get, Contains, IfSome, IfNone, Some};
ghost use Rattle.nest_base.specs.Limits.{most_half_edges};

use indexmap::IndexSet;
use nest_base::{Point, VertexId};

/// The vertex at a place; `None` where none is there.
pub fn number_of(places: &IndexSet<Point>, p: Point) -> Option<VertexId>
    requires { length places.now.keys ≤ most_half_edges }
    ensures found { IfSome result (λ v. slice_get places.now.keys v.0 ≡ Some p) }
    ensures none { IfNone result (Contains places.now.keys p → ⊥) }
{
    let v = places.get_index_of(&p)?;
    Some(VertexId(v as u32))
}

/// Where a vertex lies.
pub fn place_at(places: &IndexSet<Point>, v: VertexId) -> Point
    requires { v.0 < length places.now.keys }
    ensures { slice_get places.now.keys v.0 ≡ Some result }
{
    places[v.0 as usize]
}
